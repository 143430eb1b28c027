//! The comparison of outputs by one member: of one output, or of all that are chosen, in their
//! order.
ghost use Rattle.std.specs.Prelude.{◌≡◌, ◌≢◌, ◌<◌, ◌≤◌, [], None, length, slice_index_or, IfOk, IfErr, OnErr};
ghost use Rattle.std.specs.Option.{option_map};
ghost use Rattle.eqc_tree.specs.Holding.{IsHeld, says, Keeps, Gains, Loses};
ghost use Rattle.eqc_compare.specs.Verdict.{least_difference};
ghost use Rattle.eqc_build.specs.Building.{AreReady};
ghost use Rattle.eqc_build.specs.Steps.{goals_of};
ghost use Rattle.eqc_build.specs.Turns.{IsTurn, AreTurns, AreKept, IsComparable, MovesKept};
ghost use Rattle.eqc_compare.specs.Alike.{AreSettled, IsKnown};
ghost use Rattle.eqc_compare.specs.Comparing.{netlist_of, assumption_of, differs_at, values_differ_at, SaysDifference, IsDifferenceAt, AreTold, IsOutcome};

use crate::alike::{Alike, is_marked};
use crate::allowing::allows_none;
use crate::gate::{Gate, NoGate};
use crate::outcome::{Difference, Outcome};
use crate::schedule::Schedule;
use eqc_build::{Plan, StepDiagrams, Steps, plan_below};
use eqc_cover::{is_false, least_over};
use eqc_pair::Pair;
use eqc_tree::{Diagrams, Op, References, Stop};
use std::alloc::Global;

/// The diagram that is true where an output's two signals have different values.
fn values_difference<R, D: Diagrams<R>>(
    rt: &R,
    d: &mut D,
    steps: &Steps<'_>,
    kept: &StepDiagrams<D::Ref>,
    output: usize,
) -> Result<D::Ref, Stop>
    requires output { output < length steps.now.pair.first.outputs }
    requires kept { AreKept D.entry steps.now.pair (D.holding d.old) kept.now.table }
    requires ready { AreReady kept.now.table (goals_of steps.now output) }
    ensures ok { IfOk result (λ r. Gains (D.holding d.old) (D.holding d.new) (D.entry r) (values_differ_at steps.now.pair output)) }
    ensures stop { OnErr result (Keeps (D.holding d.old) (D.holding d.new)) }
    ensures only { IfErr result (λ s. s ≢ Stop.Threads) }
{
    let _count = steps.len();
    let roots = steps.roots(output);
    let first = kept.get(roots[0]);
    d.apply(rt, Op::Xor, first, kept.get(roots[1]))
}

/// The diagram that is true where an output differs: under an assumption where that allows the
/// assignment, too.
fn output_difference<R, D: Diagrams<R>>(
    rt: &R,
    d: &mut D,
    steps: &Steps<'_>,
    kept: &StepDiagrams<D::Ref>,
    output: usize,
) -> Result<D::Ref, Stop>
    requires output { output < length steps.now.pair.first.outputs }
    requires kept { AreKept D.entry steps.now.pair (D.holding d.old) kept.now.table }
    requires ready { AreReady kept.now.table (goals_of steps.now output) }
    ensures ok { IfOk result (λ r. Gains (D.holding d.old) (D.holding d.new) (D.entry r) (differs_at steps.now.pair output)) }
    ensures stop { OnErr result (Keeps (D.holding d.old) (D.holding d.new)) }
    ensures only { IfErr result (λ s. s ≢ Stop.Threads) }
{
    let _count = steps.len();
    let difference = values_difference(rt, d, steps, kept, output)?;
    let Some(root) = steps.assumed_root() else {
        return Ok(difference);
    };
    let allowed = d.apply(rt, Op::And, kept.get(root), &difference);
    d.give_back(difference);
    allowed
}

/// The least assignment under which an output differs, or none where it differs under none. The
/// diagram that is true where it differs is given back.
fn least_of_difference<R, D: Diagrams<R>>(
    alloc: Global,
    rt: &R,
    d: &mut D,
    pair: &Pair<'_>,
    output: usize,
    difference: D::Ref,
) -> Result<Option<Vec<bool>>, Stop>
    requires variables { length pair.now.first.inputs ≤ (D.holding d.old).variables }
    requires output { output < length pair.now.first.outputs }
    requires held { IsHeld (D.holding d.old) (D.entry difference) }
    requires function { SaysDifference pair.now output (says (D.entry difference)) }
    ensures found { IfOk result (IsDifferenceAt pair.now output) }
    ensures lost { Loses (D.holding d.old) (D.holding d.new) (D.entry difference) }
    ensures only { IfErr result (λ s. s ≢ Stop.Threads) }
{
    pair.recall_laws();
    if is_false(d, &difference) {
        d.give_back(difference);
        return Ok(None);
    }
    let least = least_over(alloc, rt, d, pair.variables(), &difference);
    d.give_back(difference);
    Ok(Some(least?))
}

/// The least assignment under which an output differs, or none, where the steps that it needs have
/// their references.
fn difference<R, D: Diagrams<R>>(
    alloc: Global,
    rt: &R,
    d: &mut D,
    steps: &Steps<'_>,
    kept: &StepDiagrams<D::Ref>,
    output: usize,
) -> Result<Option<Vec<bool>>, Stop>
    requires output { output < length steps.now.pair.first.outputs }
    requires kept { AreKept D.entry steps.now.pair (D.holding d.old) kept.now.table }
    requires ready { AreReady kept.now.table (goals_of steps.now output) }
    ensures found { IfOk result (IsDifferenceAt steps.now.pair output) }
    ensures kept { Keeps (D.holding d.old) (D.holding d.new) }
    ensures only { IfErr result (λ s. s ≢ Stop.Threads) }
{
    let difference = output_difference(rt, d, steps, kept, output)?;
    least_of_difference(alloc, rt, d, steps.pair(), output, difference)
}

/// Compares an output in its turn, counted from 1; outputs come in rising order. The references
/// that later turns need stay in the table.
fn compare_turn<R, D: Diagrams<R>>(
    alloc: Global,
    rt: &R,
    d: &mut D,
    plan: &Plan<'_>,
    kept: &mut StepDiagrams<D::Ref>,
    output: usize,
    turn: u32,
) -> Result<Option<Vec<bool>>, Stop>
    requires { IsComparable D.entry plan.now (D.holding d.old) kept.old.table output turn }
    ensures found { IfOk result (IsDifferenceAt plan.now.steps.pair output) }
    ensures moves { MovesKept D.entry plan.now.steps.pair (D.holding d.old) kept.old.table (D.holding d.new) kept.new.table }
    ensures only { IfErr result (λ s. s ≢ Stop.Threads) }
{
    let goals = plan.steps.goals(output);
    kept.complete(alloc, rt, d, plan, goals.as_slice(), turn)?;
    let found = difference(alloc, rt, d, &plan.steps, kept, output);
    kept.release_due(d, plan, turn);
    found
}

/// The same, and with `again`, where the store is full and references of earlier turns are kept,
/// once more without them.
pub fn compare_kept<R, D: Diagrams<R>>(
    alloc: Global,
    rt: &R,
    d: &mut D,
    plan: &Plan<'_>,
    kept: &mut StepDiagrams<D::Ref>,
    output: usize,
    turn: u32,
    again: bool,
) -> Result<Option<Vec<bool>>, Stop>
    requires { IsComparable D.entry plan.now (D.holding d.old) kept.old.table output turn }
    ensures found { IfOk result (IsDifferenceAt plan.now.steps.pair output) }
    ensures moves { MovesKept D.entry plan.now.steps.pair (D.holding d.old) kept.old.table (D.holding d.new) kept.new.table }
    ensures only { IfErr result (λ s. s ≢ Stop.Threads) }
{
    let keeps = again && kept.are_waiting();
    let found = compare_turn(alloc, rt, d, plan, kept, output, turn);
    if !keeps {
        return found;
    }
    let Err(Stop::NodeLimit) = found else {
        return found;
    };
    let _count = plan.steps.len();
    kept.clear(d);
    compare_turn(alloc, rt, d, plan, kept, output, turn)
}

/// The outputs that are not settled and differ, in their order, or the first of them alone. The
/// gate is told of each before it is compared.
fn compare_in_turn<R, D: Diagrams<R>, G: Gate<R>>(
    alloc: Global,
    rt: &R,
    d: &mut D,
    schedule: &Schedule<'_>,
    again: bool,
    kept: &mut StepDiagrams<D::Ref>,
    gate: &G,
) -> Result<Vec<Difference>, Stop>
    requires turns { AreTurns schedule.now.plan schedule.now.settled.items }
    requires settled { AreSettled schedule.now.plan.steps.pair schedule.now.settled.items }
    requires kept { AreKept D.entry schedule.now.plan.steps.pair (D.holding d.old) kept.old.table }
    ensures found { IfOk result (λ found. AreTold schedule.now.plan.steps.pair schedule.now.every found.items) }
    ensures moves { MovesKept D.entry schedule.now.plan.steps.pair (D.holding d.old) kept.old.table (D.holding d.new) kept.new.table }
    ensures only { IfErr result (λ s. s ≢ Stop.Threads) }
{
    let plan = &schedule.plan;
    let mut found = Vec::new(alloc);
    for output in 0..plan.steps.pair().first().outputs().len() {
        if is_marked(&schedule.settled, output) {
            continue;
        }
        gate.enter(rt, 0, output as u32);
        let turn = output as u32 + 1;
        let values = match compare_kept(alloc, rt, d, plan, kept, output, turn, again)? {
            None => continue,
            Some(values) => values,
        };
        let Ok(()) = found.push(Difference { output, values }) else {
            return Err(Stop::Memory);
        };
        if !schedule.every {
            return Ok(found);
        }
    }
    Ok(found)
}

/// Compares the chosen outputs of a pair on this thread, where this is known of it: the report of
/// `compare_outputs`, with less work. Outputs that are known to be equal are not compared, and a
/// step that is chosen is built in place of those that it is chosen for. The gate is told of each
/// comparison before it begins. Where the store is full and `again` is set, an output is compared
/// once more without what was built for later ones.
///
/// The errors are those of the diagrams, and `Memory` where memory is refused. All references are
/// given back, whatever the answer.
pub fn compare_known<R, D: Diagrams<R>, G: Gate<R>>(
    alloc: Global,
    rt: &R,
    d: &mut D,
    pair: &Pair<'_>,
    every: bool,
    alike: Alike,
    again: bool,
    gate: &G,
) -> Result<Outcome, Stop>
    requires variables { length pair.now.first.inputs ≤ (D.holding d.old).variables }
    requires known { IsKnown pair.now alike }
    ensures found { IfOk result (IsOutcome pair.now every) }
    ensures kept { Keeps (D.holding d.old) (D.holding d.new) }
    ensures only { IfErr result (λ s. s ≢ Stop.Threads) }
{
    if allows_none(rt, alloc, d, pair)? {
        return Ok(Outcome::Vacuous);
    }
    let schedule = Schedule::of(alloc, pair, every, alike)?;
    let mut kept = StepDiagrams::for_each(alloc, pair)?;
    let found = compare_in_turn(alloc, rt, d, &schedule, again, &mut kept, gate);
    kept.give_back(d);
    Ok(Outcome::Compared(found?))
}

/// Compares the chosen outputs of a pair: those that differ, by their positions in the first
/// netlist and in their order, each with the least assignment under which it does; without `every`
/// the first of them alone, and what lies behind it isn't looked at. Whether the assumption allows
/// none is asked first. Each signal that an output depends on is built once for each netlist,
/// unless the store is full, and the assumption's signals once. The errors are those of
/// `compare_known`. All references are given back, whatever the answer.
pub fn compare_outputs<R, D: Diagrams<R>>(
    alloc: Global,
    rt: &R,
    d: &mut D,
    pair: &Pair<'_>,
    every: bool,
) -> Result<Outcome, Stop>
    requires { length pair.now.first.inputs ≤ (D.holding d.old).variables }
    ensures found { IfOk result (IsOutcome pair.now every) }
    ensures kept { Keeps (D.holding d.old) (D.holding d.new) }
    ensures only { IfErr result (λ s. s ≢ Stop.Threads) }
{
    let nothing = Alike::nothing(alloc);
    compare_known(alloc, rt, d, pair, every, nothing, true, &NoGate)
}

/// Compares one output in the only turn, from no references to none.
fn compare_once<R, D: Diagrams<R>>(
    alloc: Global,
    rt: &R,
    d: &mut D,
    plan: &Plan<'_>,
    output: usize,
) -> Result<Option<Vec<bool>>, Stop>
    requires variables { length plan.now.steps.pair.first.inputs ≤ (D.holding d.old).variables }
    requires output { output < length plan.now.steps.pair.first.outputs }
    requires turn { IsTurn plan.now (goals_of plan.now.steps output) 1 }
    ensures found { IfOk result (IsDifferenceAt plan.now.steps.pair output) }
    ensures kept { Keeps (D.holding d.old) (D.holding d.new) }
    ensures only { IfErr result (λ s. s ≢ Stop.Threads) }
{
    let mut kept = StepDiagrams::for_few(alloc, plan);
    let found = compare_turn(alloc, rt, d, plan, &mut kept, output, 1);
    kept.give_back(d);
    found
}

/// Compares one output of a pair, by its position in the first netlist: the least assignment of the
/// first netlist's inputs under which it differs, in lexicographic order, 0 before 1, or none where
/// it differs under none. Under an assumption only assignments count that it allows. The pair's
/// order of variables plays no part, nor which outputs are chosen.
///
/// `d` has at least as many variables as the pair has inputs, and `output` is below the number of
/// outputs. The diagram of each signal that the output or the assumption's output depends on is
/// built, and of no other: beside what the diagrams take, time and memory are in proportion to
/// those signals and their drivers. The errors are those of the diagrams, and `Memory` where memory
/// is refused. All references are given back, whatever the answer.
pub fn compare_output<R, D: Diagrams<R>>(
    rt: &R,
    alloc: Global,
    d: &mut D,
    pair: &Pair<'_>,
    output: usize,
) -> Result<Option<Vec<bool>>, Stop>
    requires variables { length pair.now.first.inputs ≤ (D.holding d.old).variables }
    requires output { output < length pair.now.first.outputs }
    ensures least { IfOk result (λ found. option_map (λ v. v.items) found ≡ least_difference (netlist_of pair.now.first) (netlist_of pair.now.second) (assumption_of pair.now) (slice_index_or pair.now.first.outputs output [])) }
    ensures kept { Keeps (D.holding d.old) (D.holding d.new) }
    ensures only { IfErr result (λ s. s ≢ Stop.Threads) }
{
    let steps = Steps::each(alloc, pair);
    let goals = steps.goals(output);
    match plan_below(alloc, steps, goals.as_slice()) {
        Ok(plan) => compare_once(alloc, rt, d, &plan, output),
        Err(_) => Err(Stop::Memory),
    }
}
