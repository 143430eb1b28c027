//! How much the steps are that enter a graph, before they do.
ghost use Rattle.std.specs.Prelude.{◌≤◌, length, IfOk};
ghost use Rattle.eqc_gates.specs.Entering.{AreClosed};

use crate::marks::needed;
use eqc_build::{StepDriver, Steps};
use eqc_cover::table::MOST_COLUMNS;
use std::alloc::{AllocError, Global};

/// So many rows of a cover of few columns are gone through while a character of a wider cover
/// enters, about.
const TABLE_ROWS: u64 = 8;

/// The characters of a cover's rows, or as many as take the time of the rows of one that has few
/// columns.
fn cover_amount(columns: usize, rows: usize) -> u64 {
    if columns <= MOST_COLUMNS {
        return rows as u64 / TABLE_ROWS;
    }
    (rows as u64).saturating_mul(columns as u64)
}

/// About how many characters enter a graph with the marked steps of a pair: those of their covers'
/// rows, for each instance of a model anew. A cover whose table is known has none. No row is read:
/// it takes time in proportion to the steps.
fn amount(steps: &Steps<'_>, marks: &[bool]) -> u64 {
    let mut all: u64 = 0;
    for step in 0..steps.len() {
        if !marks.get(step as usize).copied().unwrap_or(false) {
            continue;
        }
        if let StepDriver::Cover { columns, rows, .. } = steps.driver(step) {
            all = all.saturating_add(cover_amount(columns.len(), rows.len()));
        }
    }
    all
}

/// Marks as `needed` gives them, where no more than so many characters enter with the marked steps:
/// those of the rows of covers that have more than six columns, for each instance of a model anew,
/// and of other covers one for each eight rows, where these aren't known by their tables. Else no
/// step is marked. It takes time in proportion to what the steps use. Fails where memory is
/// refused.
pub fn needed_within(
    alloc: Global,
    steps: &Steps<'_>,
    outputs: &[bool],
    characters: u64,
) -> Result<Vec<bool>, AllocError>
    requires { length outputs.now ≤ length steps.now.pair.first.outputs }
    ensures { IfOk result (λ marks. AreClosed steps.now marks.items) }
{
    let marks = needed(alloc, steps, outputs)?;
    if amount(steps, &marks) <= characters {
        return Ok(marks);
    }
    let none = vec![in alloc; false; steps.len() as usize]?;
    Ok(none)
}
