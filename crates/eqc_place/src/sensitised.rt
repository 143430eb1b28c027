//! Signals on ways from an output back along which each alone turns the next one, under the
//! assignment of a difference.

use crate::covers::Covers;
use crate::words::word_at;
use eqc_build::{StepDriver, Steps};
use std::alloc::{AllocError, Global};

/// Of a cover with more columns than so many each column is taken to turn it.
const MOST_COLUMNS: usize = 64;

/// Marks the steps that a step uses, and that alone turn it.
fn mark_turning(
    steps: &Steps<'_>,
    covers: &Covers,
    words: &[u64],
    step: u32,
    found: &mut Vec<bool>,
) {
    if step >= steps.len() {
        return;
    }
    if let StepDriver::Variable(_) = steps.driver(step) {
        return;
    }
    let uses = steps.uses(step);
    let word = word_at(words, step);
    for c in 0..uses.len() {
        let column = uses.get(c) as usize;
        if column >= found.len() || found[column] {
            continue;
        }
        if uses.len() > MOST_COLUMNS {
            found[column] = true;
            continue;
        }
        let turned = covers.word(&[], words, step, column as u32);
        found[column] = (turned ^ word) & 1 != 0;
    }
}

/// Marks for the steps on such ways from these two. `words` are those of the first round. Fails
/// where memory is refused.
pub(crate) fn sensitised(
    alloc: Global,
    steps: &Steps<'_>,
    covers: &Covers,
    words: &[u64],
    roots: [u32; 2],
) -> Result<Vec<bool>, AllocError> {
    let count = steps.len();
    let mut found = vec![in alloc; false; count as usize]?;
    for root in roots {
        if (root as usize) < found.len() {
            found[root as usize] = true;
        }
    }
    for back in 0..count {
        let step = count - 1 - back;
        if found.get(step as usize).copied().unwrap_or(false) {
            mark_turning(steps, covers, words, step, &mut found);
        }
    }
    Ok(found)
}
