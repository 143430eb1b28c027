//! The values of the steps of a pair under one assignment.
ghost use Rattle.std.specs.Prelude.{◌≡◌, ℕ, ◌<◌, ◌≤◌, All, Bool, length, map, IfOk};
ghost use Rattle.eqc_build.specs.Steps.{steps_in, value_at};
ghost use Rattle.eqc_cover.specs.Table.{table_value};
ghost use Rattle.eqc_pair.specs.PairOf.{PairOf, input_values};
ghost use Rattle.eqc_place.specs.Values.{AreValues};

use eqc_build::{StepDriver, Steps, Uses};
use eqc_netlist::cover_value;
use eqc_pair::Pair;
use std::alloc::{AllocError, Global};

/// The value of a variable, where the first netlist's inputs have these values.
pub(crate) fn variable_value(pair: &Pair<'_>, values: &[bool], variable: u16) -> bool
    ensures { result ≡ input_values pair.now values.now variable }
{
    let position = pair.order().get(variable as usize).copied().unwrap_or(0);
    values.get(position as usize).copied().unwrap_or(false)
}

#[tactic(auto, using(crate::proofs::ToldLaws::indexing_begins, crate::proofs::ToldLaws::indexing_more, crate::proofs::ToldLaws::tabulated_at))]
/// What a truth table says of values of its columns, at most six.
fn tabulated(table: u64, columns: &[bool]) -> bool
    requires { length columns.now ≤ 6 }
    ensures { result ≡ table_value table columns.now }
{
    let mut index = 0u32;
    for c in 0..columns.len() {
        let column = columns[columns.len() - 1 - c];
        index = 2 * index + u32::from(column);
    }
    table >> index & 1 == 1
}

#[tactic(auto, using(crate::proofs::ToldLaws::reading_begins, crate::proofs::ToldLaws::reading_more, crate::proofs::ToldLaws::reading_whole, crate::proofs::ToldLaws::reading_length, crate::proofs::ToldLaws::within_table))]
/// The values of steps of which all are in a table. Fails where memory is refused.
fn values_in(alloc: Global, table: &[bool], steps: &Uses<'_>) -> Result<Vec<bool>, AllocError>
    requires { All (λ step. step < length table.now) steps.now }
    ensures size { IfOk result (λ values. length values.items ≡ length steps.now) }
    ensures values { IfOk result (λ values. (p : PairOf) (a : ℕ → Bool) → AreValues p a table.now → values.items ≡ map (value_at p a) steps.now) }
{
    let mut values = Vec::with_capacity(alloc, steps.len())?;
    for c in 0..steps.len() {
        values.push(table[steps.get(c) as usize])?;
    }
    Ok(values)
}

#[tactic(auto, using(crate::proofs::ToldLaws::columns_before, crate::proofs::ToldLaws::copied_before))]
/// The value of a step by those of all steps before it. Fails where memory is refused.
fn step_value(
    alloc: Global,
    steps: &Steps<'_>,
    inputs: &[bool],
    table: &[bool],
    step: u32,
) -> Result<bool, AllocError>
    requires within { step < steps_in steps.now.pair }
    requires before { length table.now ≡ step }
    requires values { AreValues steps.now.pair (input_values steps.now.pair inputs.now) table.now }
    ensures { IfOk result (λ value. value ≡ value_at steps.now.pair (input_values steps.now.pair inputs.now) step) }
{
    // For the proof alone: it states the laws of steps.
    let _count = steps.len();
    match steps.driver(step) {
        StepDriver::Variable(variable) => Ok(variable_value(steps.pair(), inputs, variable)),
        StepDriver::Copy(other) => Ok(table[other as usize]),
        StepDriver::Cover { columns, rows, .. } => {
            Ok(cover_value(rows, &values_in(alloc, table, &columns)?))
        }
        StepDriver::Table {
            columns,
            table: truth,
        } => Ok(tabulated(truth, &values_in(alloc, table, &columns)?)),
    }
}

#[tactic(auto, using(crate::proofs::ToldLaws::filling_begins, crate::proofs::ToldLaws::filling_more))]
/// The values of the steps of a pair, one for each, where the first netlist's inputs have these
/// values. Fails where memory is refused.
pub(crate) fn values_under(
    alloc: Global,
    steps: &Steps<'_>,
    inputs: &[bool],
) -> Result<Vec<bool>, AllocError>
    ensures size { IfOk result (λ table. length table.items ≡ steps_in steps.now.pair) }
    ensures values { IfOk result (λ table. AreValues steps.now.pair (input_values steps.now.pair inputs.now) table.items) }
{
    let count = steps.len();
    let mut table = Vec::with_capacity(alloc, count as usize)?;
    for step in 0..count {
        let value = step_value(alloc, steps, inputs, &table, step)?;
        table.push(value)?;
    }
    Ok(table)
}
