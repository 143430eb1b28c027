//! The literals of the steps of a pair, in the order of the steps.
ghost use Rattle.std.specs.Prelude.{◌≡◌, ℕ, ◌<◌, true, None, Some, length, map, IfOk, IsSome};
ghost use Rattle.eqc_xag.specs.Graph.{Extends};
ghost use Rattle.eqc_sweep.specs.Sweeping.{HasValue};
ghost use Rattle.eqc_build.specs.Building.{AreReady, reference_of};
ghost use Rattle.eqc_build.specs.Steps.{steps_in, uses_of, value_at};
ghost use Rattle.eqc_gates.specs.Entering.{AreClosed, AreEntered, AreLiterals};

use crate::cover::cover_literal;
use crate::expansion::table_literal;
use eqc_build::{StepDriver, Steps, Uses};
use eqc_cover::table::MOST_COLUMNS;
use eqc_sweep::Sweep;
use eqc_xag::Literal;
use std::alloc::{AllocError, Global};

/// The literal of a step that has one.
fn literal_at(table: &[Option<Literal>], step: u32) -> Literal
    requires { IsSome (reference_of table.now step) }
    ensures { reference_of table.now step ≡ Some result }
{
    table[step as usize].unwrap()
}

/// The literals of the steps that a cover uses. Fails where memory is refused.
fn literals_of(
    alloc: Global,
    table: &[Option<Literal>],
    steps: &Uses<'_>,
) -> Result<Vec<u32>, AllocError>
    requires { AreReady table.now steps.now }
    ensures { IfOk result (λ found. map (λ l. Some l) found.items ≡ map (reference_of table.now) steps.now) }
{
    let mut found = Vec::with_capacity(alloc, steps.len())?;
    for c in 0..steps.len() {
        found.push(literal_at(table, steps.get(c)))?;
    }
    Ok(found)
}

/// The literal of a step, by what makes its value. Fails where memory is refused, or nodes are too
/// many.
fn step_literal(
    alloc: Global,
    steps: &Steps<'_>,
    table: &[Option<Literal>],
    step: u32,
    sweep: &mut Sweep,
) -> Result<u32, AllocError>
    requires within { step < steps_in steps.now.pair }
    requires literals { AreLiterals steps.now.pair sweep.old table.now }
    requires ready { AreReady table.now (uses_of steps.now step) }
    ensures value { IfOk result (λ l. HasValue sweep.new l (λ a. value_at steps.now.pair a step)) }
    ensures extends { Extends sweep.old sweep.new }
{
    match steps.driver(step) {
        StepDriver::Variable(variable) => sweep.input(u32::from(variable)),
        StepDriver::Copy(other) => Ok(literal_at(table, other)),
        StepDriver::Cover { columns, rows, .. } => {
            let columns = literals_of(alloc, table, &columns)?;
            cover_literal(alloc, sweep, &columns, rows)
        }
        StepDriver::Table {
            columns,
            table: truth,
        } => {
            let columns = literals_of(alloc, table, &columns)?;
            table_literal(sweep, &columns, truth, [true; MOST_COLUMNS])
        }
    }
}

/// The literals of the marked steps of a pair, none for the others. Each has its step's value under
/// all values of the variables, and older literals of the graph keep theirs.
///
/// `marks` has a mark for each step; what a marked step uses is marked, as after `needed`. What
/// enters the graph is in proportion to the covers' text, for each instance of a model anew; the
/// rows of a cover whose table is known aren't gone through. `told` is told of each step before it
/// is looked at, in their order, whether it is marked or not. Fails where memory is refused, or
/// where the graph has no room for more nodes.
pub fn literals<F: Fn(u32)>(
    alloc: Global,
    steps: &Steps<'_>,
    marks: &[bool],
    sweep: &mut Sweep,
    told: &F,
) -> Result<Vec<Option<Literal>>, AllocError>
    requires closed { AreClosed steps.now marks.now }
    requires told { F.IsAlwaysCallable told.now }
    ensures size { IfOk result (λ table. length table.items ≡ steps_in steps.now.pair) }
    ensures literals { IfOk result (λ table. AreLiterals steps.now.pair sweep.new table.items) }
    ensures entered { IfOk result (λ table. AreEntered marks.now table.items) }
    ensures extends { Extends sweep.old sweep.new }
{
    let count = steps.len();
    let mut table = Vec::with_capacity(alloc, count as usize)?;
    for step in 0..count {
        told(step);
        if !marks[step as usize] {
            table.push(None)?;
            continue;
        }
        let literal = step_literal(alloc, steps, &table, step, sweep)?;
        table.push(Some(literal))?;
    }
    Ok(table)
}
