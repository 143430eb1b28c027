//! The values of a flat netlist's outputs under values of its inputs, by one pass over its signals
//! in their order.
ghost use Rattle.std.specs.Prelude.{◌≡◌, ℕ, ◌<◌, false, length, map, IfOk, IfErr, slice_index, slice_index_or};
ghost use Rattle.eqc_netlist.specs.Graph.{driver_at, driven, value_of};
ghost use Rattle.eqc_netlist.specs.Evaluating.{values_of};

use crate::drivers::driver::Driver;
use crate::fault::Fault;
use crate::flat::Flat;
use crate::flat::signals::Signals;
use crate::rows::cover_value;
use std::alloc::{AllocError, Global};

/// The values of these signals.
fn read(alloc: Global, values: &[bool], signals: Signals<'_>) -> Result<Vec<bool>, AllocError>
    requires { (k : ℕ) → k < length signals → slice_index signals k < length values.now }
    ensures { IfOk result (λ read. read.items ≡ map (values_of values.now) signals.entry) }
{
    let mut read = Vec::with_capacity(alloc, signals.len())?;
    for k in 0..signals.len() {
        read.push(values[signals.get(k) as usize])?;
    }
    Ok(read)
}

/// What the driver of a signal makes of the inputs' values and of the values of the signals.
fn driver_value(
    alloc: Global,
    flat: &Flat<'_>,
    inputs: &[bool],
    values: &[bool],
    s: u32,
) -> Result<bool, AllocError>
    requires within { s < length flat.now.drivers }
    requires inputs { length inputs.now ≡ length flat.now.inputs }
    requires values { length values.now ≡ length flat.now.drivers }
    ensures { IfOk result (λ value. value ≡ driven flat.now.rows (values_of inputs.now) (values_of values.now) (driver_at flat.now s)) }
{
    flat.recall_laws();
    match flat.driver(s) {
        Driver::Input(position) => Ok(inputs[position as usize]),
        Driver::Tie(other) => Ok(values[other as usize]),
        Driver::Cover { columns, rows } => {
            let columns = read(alloc, values, columns)?;
            Ok(cover_value(flat.rows(rows), &columns))
        }
    }
}

/// The value of each signal under these values of the inputs.
fn signal_values(alloc: Global, flat: &Flat<'_>, inputs: &[bool]) -> Result<Vec<bool>, AllocError>
    requires { length inputs.now ≡ length flat.now.inputs }
    ensures size { IfOk result (λ values. length values.items ≡ length flat.now.drivers) }
    ensures each { IfOk result (λ values. (s : ℕ) → s < length flat.now.drivers → slice_index_or values.items s false ≡ value_of flat.now (values_of inputs.now) s) }
{
    let steps = flat.steps();
    let mut values = vec![in alloc; false; steps.len()]?;
    for k in 0..steps.len() {
        let s = steps[k];
        let value = driver_value(alloc, flat, inputs, &values, s)?;
        values[s as usize] = value;
    }
    Ok(values)
}

/// The values of the outputs in order, under these values of the inputs.
fn output_values(alloc: Global, flat: &Flat<'_>, inputs: &[bool]) -> Result<Vec<bool>, AllocError>
    requires { length inputs.now ≡ length flat.now.inputs }
    ensures { IfOk result (λ outputs. outputs.items ≡ map (value_of flat.now (values_of inputs.now)) flat.now.output_signals) }
{
    flat.recall_laws();
    let values = signal_values(alloc, flat, inputs)?;
    let outputs = read(alloc, &values, Signals::of(flat.output_signals()))?;
    Ok(outputs)
}

/// The value of each output of a flat netlist, in its order, under these values of its inputs, in
/// their order and one for each. Fails with 72 alone, where memory is refused.
pub fn eval(alloc: Global, flat: &Flat<'_>, values: &[bool]) -> Result<Vec<bool>, Fault>
    requires { length values.now ≡ length flat.now.inputs }
    ensures values { IfOk result (λ outputs. outputs.items ≡ map (value_of flat.now (values_of values.now)) flat.now.output_signals) }
    ensures refused { IfErr result (λ fault. fault ≡ record { code = 72 }) }
{
    let outputs = output_values(alloc, flat, values)?;
    Ok(outputs)
}
