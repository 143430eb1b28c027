//! The classes of the columns of a cover, as a part of the shape by which a class is looked up.
ghost use Rattle.std.specs.Prelude.{◌≡◌, ℕ, IfOk, ◌<◌, length, map, bytes_eq, slice_index};
ghost use Rattle.std.specs.Cmp.{partial_equiv_from_equiv};
ghost use Rattle.std.specs.Cmp.Lexicographic.{nat_list_eq_equiv, bytes_decides};
ghost use Rattle.std.specs.Hash as fed;
ghost use Rattle.std.specs.Hash.{same_Alike};

use eqc_netlist::Signals;
use smallvec::SmallVec;
use std::alloc::{AllocError, Global};
use std::hash::{Hash, Hasher};
use std::marker::Model;

/// The classes of the columns of a cover, in their order. Up to six need no allocation.
#[derive(Drop)]
pub(crate) struct Columns {
    classes: SmallVec<u32, 6>,
}

impl Model for Columns {
    ghost use Rattle.std.specs.Prelude.{List, ℕ};

    ghost Value = { List ℕ };

    ghost view = { λ a. a.classes.items };
}

impl Columns {
    /// The classes of these signals, by the number of each signal's class. Fails where memory is
    /// refused.
    pub(crate) fn of(
        alloc: Global,
        numbers: &[u32],
        signals: &Signals<'_>,
    ) -> Result<Columns, AllocError>
        requires { (k : ℕ) → k < length signals.now → slice_index signals.now k < length numbers.now }
        ensures { IfOk result (λ columns. columns ≡ map (slice_index numbers.now) signals.now) }
    {
        let mut classes = SmallVec::new(alloc);
        for k in 0..signals.len() {
            classes.push(numbers[signals.get(k) as usize])?;
        }
        Ok(Columns { classes })
    }

    /// Their number.
    pub(crate) fn len(&self) -> usize
        ensures { result ≡ length self.now }
    {
        self.classes.as_slice().len()
    }
}

impl PartialEq for Columns {
    ghost eq = { λ a b. bytes_eq a b };

    ghost laws = { partial_equiv_from_equiv nat_list_eq_equiv };

    fn eq(&self, other: &Columns) -> bool {
        self.classes.as_slice() == other.classes.as_slice()
    }
}

impl Eq for Columns {
    ghost laws = { nat_list_eq_equiv };
}

impl Hash for Columns {
    ghost hash_input = { λ a. fed.slice fed.u32 a };

    ghost respects_eq = { (same_Alike {E = bytes_eq} (λ a. fed.slice fed.u32 a) bytes_decides).fed };

    fn hash<H: Hasher>(&self, state: &mut H) {
        self.classes.as_slice().hash(state);
    }
}
