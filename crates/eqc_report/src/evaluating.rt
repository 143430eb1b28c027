//! The value of one output of a flat netlist, made from the signals that it depends on: where many
//! outputs differ, each under values of its own, what an output takes is not to grow with the
//! netlist.
ghost use Rattle.std.specs.Prelude.{◌≡◌, ◌<◌, ℕ, Bool, Some, [], length, slice_index, slice_index_or, nat_eq, IfOk, OnOk, IfSome};
ghost use Rattle.std.specs.List.{All};
ghost use Rattle.indexmap.specs.IndexMap.{get};
ghost use Rattle.eqc_netlist.specs.Graph.{value_of};
ghost use Rattle.eqc_netlist.specs.Evaluating.{values_of};
ghost use Rattle.eqc_compare.specs.Verdict.{first_value};
ghost use Rattle.eqc_compare.specs.Comparing.{netlist_of};
ghost use Rattle.eqc_report.specs.Evaluation.{AreRead, AreRight, AreThere, IsWalk};

use eqc_netlist::{Driver, Flat, Signals, cover_value, eval};
use eqc_pair::recall_laws;
use indexmap::IndexMap;
use std::alloc::{AllocError, Global};

/// A walk from one signal to those that it depends on.
#[derive(Drop)]
pub(crate) struct Walk {
    /// The values that are known.
    pub(crate) values: IndexMap<u32, bool>,
    /// The signals whose values are asked for, the next one last.
    pub(crate) asked: Vec<u32>,
}

impl Walk {
    /// The value of a signal, where it is known.
    fn value(&self, s: u32) -> Option<bool>
        ensures { result ≡ get nat_eq self.now.values s }
    {
        self.values.get(&s).copied()
    }

    /// The values of these signals in order, or none where one is not known.
    fn read(&self, alloc: Global, signals: &Signals<'_>) -> Result<Option<Vec<bool>>, AllocError>
        ensures { IfOk result (λ found. IfSome found (λ read. AreRead self.now.values signals.now read.items)) }
    {
        let mut read = Vec::with_capacity(alloc, signals.len())?;
        for k in 0..signals.len() {
            let Some(value) = self.value(signals.get(k)) else {
                return Ok(None);
            };
            read.push(value)?;
        }
        Ok(Some(read))
    }

    /// What the driver of a signal makes of the values, where those that it depends on are known.
    fn driven(
        &self,
        alloc: Global,
        flat: &Flat<'_>,
        inputs: &[bool],
        s: u32,
    ) -> Result<Option<bool>, AllocError>
        requires right { AreRight flat.now inputs.now self.now.values }
        requires within { s < length flat.now.drivers }
        requires size { length inputs.now ≡ length flat.now.inputs }
        ensures { IfOk result (λ found. IfSome found (λ value. value ≡ value_of flat.now (values_of inputs.now) s)) }
    {
        // For the proof alone: the laws of a flat netlist are known where a call states them.
        let _steps = flat.steps();
        match flat.driver(s) {
            Driver::Input(position) => Ok(Some(inputs[position as usize])),
            Driver::Tie(other) => Ok(self.value(other)),
            Driver::Cover { columns, rows } => match self.read(alloc, &columns)? {
                Some(read) => Ok(Some(cover_value(flat.rows(rows), &read))),
                None => Ok(None),
            },
        }
    }

    /// Asks for the values of those of these signals whose values are not known.
    fn ask(&mut self, flat: &Flat<'_>, signals: &Signals<'_>) -> Result<(), AllocError>
        requires there { AreThere flat.now signals.now }
        requires asked { AreThere flat.now self.old.asked.items }
        ensures asked { OnOk result (AreThere flat.now self.new.asked.items) }
        ensures values { self.new.values ≡ self.old.values }
    {
        for k in 0..signals.len() {
            let s = signals.get(k);
            if self.value(s).is_none() {
                self.asked.push(s)?;
            }
        }
        Ok(())
    }

    /// Goes on from a signal that was asked for: it gets its value, or those that it depends on are
    /// asked for before it.
    fn go_on(
        &mut self,
        alloc: Global,
        flat: &Flat<'_>,
        inputs: &[bool],
        s: u32,
    ) -> Result<(), AllocError>
        requires walk { IsWalk flat.now inputs.now self.old }
        requires within { s < length flat.now.drivers }
        requires size { length inputs.now ≡ length flat.now.inputs }
        ensures { OnOk result (IsWalk flat.now inputs.now self.new) }
    {
        if self.value(s).is_some() {
            return Ok(());
        }
        match self.driven(alloc, flat, inputs, s)? {
            Some(value) => {
                self.values.insert(s, value)?;
                Ok(())
            }
            None => {
                // For the proof alone, as in `driven`.
                let _steps = flat.steps();
                self.asked.push(s)?;
                self.ask(flat, &flat.driver(s).dependencies())
            }
        }
    }
}

/// The value of an output by one pass over all signals.
fn whole_value(
    alloc: Global,
    flat: &Flat<'_>,
    output: usize,
    inputs: &[bool],
) -> Result<bool, AllocError>
    requires within { output < length flat.now.outputs }
    requires size { length inputs.now ≡ length flat.now.inputs }
    ensures { IfOk result (λ value. value ≡ first_value (netlist_of flat.now) (slice_index_or flat.now.outputs output []) inputs.now) }
{
    recall_laws(flat);
    match eval(alloc, flat, inputs) {
        Ok(outputs) => Ok(outputs[output]),
        Err(_) => Err(AllocError),
    }
}

/// What is known of a signal after a walk of at most as many turns as there are signals.
fn walked_value(
    alloc: Global,
    flat: &Flat<'_>,
    inputs: &[bool],
    signal: u32,
) -> Result<Option<bool>, AllocError>
    requires within { signal < length flat.now.drivers }
    requires size { length inputs.now ≡ length flat.now.inputs }
    ensures { IfOk result (λ found. IfSome found (λ value. value ≡ value_of flat.now (values_of inputs.now) signal)) }
{
    let mut walk = Walk {
        values: IndexMap::new(alloc),
        asked: vec![in alloc; signal; 1]?,
    };
    'turns: for _ in 0..flat.steps().len() {
        let Some(s) = walk.asked.pop() else {
            break;
        };
        walk.go_on(alloc, flat, inputs, s)?;
    }
    Ok(walk.value(signal))
}

/// The value of an output under these values of the inputs, from the signals that it depends on.
/// Where the walk to them takes more turns than the netlist has signals, it is one pass over all
/// signals that gives it. Fails where memory is refused.
pub(crate) fn output_value(
    alloc: Global,
    flat: &Flat<'_>,
    output: usize,
    inputs: &[bool],
) -> Result<bool, AllocError>
    requires within { output < length flat.now.outputs }
    requires size { length inputs.now ≡ length flat.now.inputs }
    ensures { IfOk result (λ value. value ≡ first_value (netlist_of flat.now) (slice_index_or flat.now.outputs output []) inputs.now) }
{
    recall_laws(flat);
    let signal = flat.output_signals()[output];
    match walked_value(alloc, flat, inputs, signal)? {
        Some(value) => Ok(value),
        None => whole_value(alloc, flat, output, inputs),
    }
}
