//! Pairs, with all that a comparison reads of one: variables of inputs, matched outputs, which of
//! them are left out, and the step of each signal.
ghost use Rattle.std.specs.Prelude.{◌≡◌, [], None, Some, map, length, IfOk, EachIndex, slice_index, slice_index_or, ◌<◌};
ghost use Rattle.std.specs.Option.{option_copied};
ghost use Rattle.eqc_pair.specs.Matched.{position_of, is_chosen};
ghost use Rattle.eqc_pair.specs.PairOf.{IsPair, IsOrder, IsAssumption, AreMatched, ArePlaces, assumed, variables_in, first_variables, second_variables, assumed_variables, second_signals};
ghost use Rattle.eqc_netlist.specs.Graph.{IsFlat, FollowsDrivers};

use crate::order::Order;
use crate::places::places_of;
use eqc_netlist::Flat;
use std::alloc::{AllocError, Global};
use std::marker::Model;

/// Two flat netlists with the same inputs and outputs, matched by name, and an order of the inputs
/// as variables; and, where they are given, an assumption on the inputs, and the outputs that are
/// chosen.
#[derive(Drop)]
pub struct Pair<'a> {
    first: &'a Flat<'a>,
    second: &'a Flat<'a>,
    order: Vec<u16>,
    assumes: Option<&'a Flat<'a>>,
    chosen: &'a [&'a [u8]],
    variables: Vec<u16>,
    second_variables: Vec<u16>,
    assumed_variables: Vec<u16>,
    second_signals: Vec<u32>,
    first_places: Vec<u32>,
    second_places: Vec<u32>,
    assumed_places: Vec<u32>,
    left_out: Vec<bool>,
}

impl<'a> Model for Pair<'a> {
    ghost use Rattle.std.specs.Prelude.{map};
    ghost use Rattle.std.specs.Option.{option_copied};
    ghost use Rattle.eqc_pair.specs.PairOf.{PairOf, IsLaidOut};

    ghost Value = { PairOf };

    ghost view = { λ a. record { first = a.first.now; second = a.second.now; order = a.order.items; assumes = option_copied a.assumes; chosen = map (λ name. name.now) a.chosen.now } };

    ghost invariant = { λ a. IsLaidOut (record { first = a.first.now; second = a.second.now; order = a.order.items; assumes = option_copied a.assumes; chosen = map (λ name. name.now) a.chosen.now })
        a.variables.items a.second_variables.items a.assumed_variables.items a.second_signals.items a.first_places.items a.second_places.items a.assumed_places.items a.left_out.items };
}

/// Where the names of two netlists with the same ones stand, and which outputs are left out.
#[derive(Drop)]
pub(crate) struct Matches {
    /// Of each input of the second, its place among those of the first.
    pub inputs: Vec<usize>,
    /// Of each output of the first, its place among those of the second.
    pub outputs: Vec<usize>,
    /// Marks of the first one's outputs that are not chosen; none is listed where all are.
    pub left_out: Vec<bool>,
}

/// What holds of every flat netlist, for a proof of its caller: it does nothing. A netlist's laws
/// are known only where a call states them.
pub fn recall_laws(flat: &Flat<'_>)
    ensures lawful { IsFlat flat.now }
    ensures follows { FollowsDrivers flat.now }
{
    let _steps = flat.steps();
}

/// The values at these places. Fails where memory is refused.
fn pick<T: Copy>(alloc: Global, values: &[T], places: &[usize]) -> Result<Vec<T>, AllocError>
    requires { EachIndex places.now (λ k. slice_index places.now k < length values.now) }
    ensures { IfOk result (λ all. (d : T) → all.items ≡ map (λ place. slice_index_or values.now place d) places.now) }
{
    let mut all = Vec::with_capacity(alloc, places.len())?;
    'places: for place in places {
        all.push(values[*place])?;
    }
    Ok(all)
}

impl<'a> Pair<'a> {
    /// The pair with what its comparison reads, of netlists that are matched, where these outputs
    /// are chosen. It has no assumption. Fails where memory is refused.
    pub(crate) fn laid_out(
        alloc: Global,
        first: &'a Flat<'a>,
        second: &'a Flat<'a>,
        chosen: &'a [&'a [u8]],
        matches: Matches,
        order: Order,
    ) -> Result<Pair<'a>, AllocError>
        requires first { IsFlat first.now }
        requires second { IsFlat second.now }
        requires matched { AreMatched first.now second.now (map (λ name. name.now) chosen.now) matches.inputs.items matches.outputs.items matches.left_out.items }
        requires order { IsOrder (length first.now.inputs) order.positions.items }
        requires variables { order.variables.items ≡ variables_in (length first.now.inputs) order.positions.items }
        ensures { IfOk result (λ pair. pair ≡ record { first = first.now; second = second.now; order = order.positions.items; assumes = None; chosen = map (λ name. name.now) chosen.now }) }
    {
        let Matches {
            inputs,
            outputs,
            left_out,
        } = matches;
        let second_variables = pick(alloc, &order.variables, &inputs)?;
        let second_signals = pick(alloc, second.output_signals(), &outputs)?;
        let first_places = places_of(alloc, first)?;
        let second_places = places_of(alloc, second)?;
        let Order {
            positions,
            variables,
        } = order;
        Ok(Pair {
            first,
            second,
            order: positions,
            assumes: None,
            chosen,
            variables,
            second_variables,
            assumed_variables: Vec::new(alloc),
            second_signals,
            first_places,
            second_places,
            assumed_places: Vec::new(alloc),
            left_out,
        })
    }

    /// The pair with this assumption in place of its own. `inputs` has the position of each input
    /// of the assumption among those of the first netlist. Fails where memory is refused.
    pub(crate) fn with_assumption(
        self,
        alloc: Global,
        assumed: &'a Flat<'a>,
        inputs: &[usize],
    ) -> Result<Pair<'a>, AllocError>
        requires assumed { IsAssumption self.first.inputs assumed.now }
        requires inputs { inputs.now ≡ map (position_of self.first.inputs) assumed.now.inputs }
        ensures { IfOk result (λ pair. pair ≡ record self.entry { assumes = Some assumed.now }) }
    {
        let assumed_variables = pick(alloc, &self.variables, inputs)?;
        let assumed_places = places_of(alloc, assumed)?;
        Ok(Pair {
            assumes: Some(assumed),
            assumed_variables,
            assumed_places,
            ..self
        })
    }

    /// What holds of every pair, for a proof of its caller: it does nothing.
    pub fn recall_laws(&self)
        ensures { IsPair self.now }
    {
        let _order = self.order();
    }

    /// The first netlist.
    pub fn first(&self) -> &'a Flat<'a>
        ensures { result.now ≡ self.now.first }
    {
        self.first
    }

    /// The second netlist.
    pub fn second(&self) -> &'a Flat<'a>
        ensures { result.now ≡ self.now.second }
    {
        self.second
    }

    /// The netlist of the assumption, if there is one.
    pub fn assumption(&self) -> Option<&'a Flat<'a>>
        ensures { option_copied result ≡ self.now.assumes }
    {
        self.assumes
    }

    /// Whether an output is chosen, by its position in the first netlist. It is below the number of
    /// outputs.
    pub fn is_chosen(&self, output: usize) -> bool
        requires { output < length self.now.first.outputs }
        ensures { result ≡ is_chosen self.now.chosen (slice_index_or self.now.first.outputs output []) }
    {
        !self.left_out.get(output).copied().unwrap_or(false)
    }

    /// For each variable the position of its input among those of the first netlist.
    pub fn order(&self) -> &[u16]
        ensures positions { result.now ≡ self.now.order }
        ensures lawful { IsPair self.now }
    {
        self.order.as_slice()
    }

    /// The variable of each input of the first netlist.
    pub fn variables(&self) -> &[u16]
        ensures each { result.now ≡ first_variables self.now }
        ensures lawful { IsPair self.now }
    {
        self.variables.as_slice()
    }

    /// The variable of each input of the second netlist.
    pub fn second_variables(&self) -> &[u16]
        ensures each { result.now ≡ second_variables self.now }
        ensures lawful { IsPair self.now }
    {
        self.second_variables.as_slice()
    }

    /// The variable of each input of the assumption, none without one.
    pub fn assumed_variables(&self) -> &[u16]
        ensures each { result.now ≡ assumed_variables self.now }
        ensures lawful { IsPair self.now }
    {
        self.assumed_variables.as_slice()
    }

    /// The second netlist's signal for each output of the first.
    pub fn second_signals(&self) -> &[u32]
        ensures each { result.now ≡ second_signals self.now }
        ensures lawful { IsPair self.now }
    {
        self.second_signals.as_slice()
    }

    /// The step of each signal of the first netlist, counted from 0.
    pub fn first_places(&self) -> &[u32]
        ensures each { ArePlaces self.now.first result.now }
        ensures lawful { IsPair self.now }
    {
        self.first_places.as_slice()
    }

    /// The step of each signal of the second netlist.
    pub fn second_places(&self) -> &[u32]
        ensures each { ArePlaces self.now.second result.now }
        ensures lawful { IsPair self.now }
    {
        self.second_places.as_slice()
    }

    /// The step of each signal of the assumption, none without one.
    pub fn assumed_places(&self) -> &[u32]
        ensures each { ArePlaces (assumed self.now) result.now }
        ensures lawful { IsPair self.now }
    {
        self.assumed_places.as_slice()
    }
}
