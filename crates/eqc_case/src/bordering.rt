//! Up to where the netlists of a pair are known to be equal, below the outputs that a run left
//! undecided.
ghost use Rattle.std.specs.Prelude.{◌≡◌, length, IfOk};

use crate::diagnostics::{Bordered, Compared, Diagnostics};
use eqc_pair::Pair;
use eqc_place::Locator;
use eqc_report::{Left, Word};
use std::alloc::{AllocError, Global};

/// Whether a name is of a word.
fn is_of(word: &Word, name: &[u8]) -> bool {
    let Some(rest) = name.strip_prefix(word.before.as_slice()) else {
        return false;
    };
    match rest.strip_suffix(word.after.as_slice()) {
        Some(number) => !number.is_empty() && number.iter().all(|byte| byte.is_ascii_digit()),
        None => false,
    }
}

/// Whether an output is told to be left, by its name or its word. With an output of a word all of
/// it are taken.
fn is_left(left: &Left, name: &[u8]) -> bool {
    let is_named = left.names.iter().any(|other| other.as_slice() == name);
    is_named || left.words.iter().any(|word| is_of(word, name))
}

/// Marks the outputs that are told to be left. Fails where memory is refused.
fn marked_left(alloc: Global, pair: &Pair<'_>, left: &Left) -> Result<Vec<bool>, AllocError>
    ensures { IfOk result (λ marks. length marks.items ≡ length pair.now.first.outputs) }
{
    let outputs = pair.first().outputs();
    let mut marks = Vec::with_capacity(alloc, outputs.len())?;
    for output in 0..outputs.len() {
        marks.push(pair.is_chosen(output) && is_left(left, outputs[output].as_bytes()))?;
    }
    Ok(marks)
}

/// Tells up to where the netlists of a pair are known to be equal, with at most so many conflicts.
/// Fails where memory is refused.
pub(crate) fn tell_border<T: Diagnostics>(
    alloc: Global,
    compared: &Compared<'_>,
    left: &Left,
    conflicts: u64,
    told: &mut T,
) -> Result<(), AllocError> {
    let pair = compared.pair;
    let marks = marked_left(alloc, pair, left)?;
    let locator = Locator::of(alloc, pair, &marks, &[], conflicts)?;
    let border = locator.border(alloc, &marks)?;
    told.border(&Bordered {
        compared: *compared,
        border: &border,
    });
    Ok(())
}
