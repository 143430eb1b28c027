//! Room in vectors of which most keep one item only: they get no more of it than the first push
//! needs.
ghost use Rattle.std.specs.Prelude.{◌≡◌, [], ◌∷◌, ◌++◌, is_ok, if◌then◌else◌, OnOk};
ghost use Rattle.smallvec.specs.SmallVec.{HasRoomFor};

use smallvec::SmallVec;
use std::alloc::AllocError;

/// Pushes a value, with room for no more where it is the first: most covers have one row, and most
/// models few covers.
#[inline]
pub(crate) fn push_sparing<T: Drop>(items: &mut Vec<T>, value: T) -> Result<(), AllocError>
    ensures { items.new.items ≡ (if is_ok result then items.old.items ++ value ∷ [] else items.old.items) }
{
    if items.is_empty() {
        items.reserve_exact(1)?;
    }
    items.push(value)?;
    Ok(())
}

/// Makes room for so many more values, and for no others where they are the first.
#[inline]
pub(crate) fn reserve_sparing(
    items: &mut SmallVec<u8, 16>,
    additional: usize,
) -> Result<(), AllocError>
    ensures items { items.new.items ≡ items.old.items }
    ensures room { OnOk result (HasRoomFor items.new additional) }
{
    if items.is_empty() {
        items.reserve_exact(additional)
    } else {
        items.reserve(additional)
    }
}
