//! The steps that are still needed for others: those without a reference that these depend on.
ghost use Rattle.std.specs.Prelude.{◌≡◌, ℕ, ◌<◌, ◌≤◌, ◌∷◌, [], length, IfOk, OnOk, slice_index};
ghost use Rattle.std.specs.Ordering.{nat_cmp};
ghost use Rattle.std.specs.BinaryHeap.{heap_items, IsHeap};
ghost use Rattle.eqc_build.specs.Steps.{steps_in};
ghost use Rattle.eqc_build.specs.Schedule.{AreWanted, AreReached, AreOpened, AreLasting, AreUsedInTurn, IsOpen};
ghost use Rattle.eqc_build.specs.Turns.{IsTurn};

use crate::plan::Plan;
use crate::schedule::moment;
use crate::steps::Uses;
use crate::table::Table;
use std::alloc::{AllocError, Global};
use std::collections::BinaryHeap;

/// Takes the numbers from `step` on out of a heap.
pub(crate) fn drop_repeats(heap: &mut BinaryHeap<u32>, step: u32)
    requires heap { IsHeap nat_cmp (heap_items heap.old) }
    requires below { (x : ℕ) → IsOpen (heap_items heap.old) x → x ≤ step }
    ensures heap { IsHeap nat_cmp (heap_items heap.new) }
    ensures below { (x : ℕ) → IsOpen (heap_items heap.new) x → x < step }
    ensures kept { (x : ℕ) → IsOpen (heap_items heap.new) x → IsOpen (heap_items heap.old) x }
    ensures others { (x : ℕ) → x < step → IsOpen (heap_items heap.old) x → IsOpen (heap_items heap.new) x }
{
    while let Some(top) = heap.peek() {
        if *top < step {
            return;
        }
        heap.pop();
    }
}

/// Notes a moment for a step that has an earlier one, and a place.
fn note(until: &mut Vec<u64>, step: u32, at: u64)
    ensures { AreLasting until.old.items until.new.items (step ∷ []) 1 at }
{
    let s = step as usize;
    if s < until.len() && until[s] < at {
        until[s] = at;
    }
}

/// Notes that a step is used at a moment, and opens it, unless it has a reference.
fn open_one<X>(
    heap: &mut BinaryHeap<u32>,
    table: &Table<X>,
    until: &mut Vec<u64>,
    step: u32,
    at: u64,
) -> Result<(), AllocError>
    requires heap { IsHeap nat_cmp (heap_items heap.old) }
    requires table { step < length table.now }
    ensures heap { OnOk result (IsHeap nat_cmp (heap_items heap.new)) }
    ensures opened { OnOk result (AreOpened table.now (step ∷ []) (heap_items heap.old) (heap_items heap.new) 1) }
    ensures noted { OnOk result (AreLasting until.old.items until.new.items (step ∷ []) 1 at) }
{
    note(until, step, at);
    if table.get(step).is_none() {
        heap.push(step)?;
    }
    Ok(())
}

/// Notes that steps are used at a moment, and opens those of them that have no reference.
fn open_missing<X>(
    heap: &mut BinaryHeap<u32>,
    table: &Table<X>,
    until: &mut Vec<u64>,
    steps: &Uses<'_>,
    at: u64,
) -> Result<(), AllocError>
    requires heap { IsHeap nat_cmp (heap_items heap.old) }
    requires table { (k : ℕ) → k < length steps.now → slice_index steps.now k < length table.now }
    ensures heap { OnOk result (IsHeap nat_cmp (heap_items heap.new)) }
    ensures opened { OnOk result (AreOpened table.now steps.now (heap_items heap.old) (heap_items heap.new) (length steps.now)) }
    ensures noted { OnOk result (AreLasting until.old.items until.new.items steps.now (length steps.now) at) }
{
    for k in 0..steps.len() {
        open_one(heap, table, until, steps.get(k), at)?;
    }
    Ok(())
}

/// Notes that these steps are used at a moment, and opens those of them that have no reference.
fn open_goals<X>(
    heap: &mut BinaryHeap<u32>,
    table: &Table<X>,
    until: &mut Vec<u64>,
    goals: &[u32],
    at: u64,
) -> Result<(), AllocError>
    requires heap { IsHeap nat_cmp (heap_items heap.old) }
    requires table { (k : ℕ) → k < length goals.now → slice_index goals.now k < length table.now }
    ensures heap { OnOk result (IsHeap nat_cmp (heap_items heap.new)) }
    ensures opened { OnOk result (AreOpened table.now goals.now (heap_items heap.old) (heap_items heap.new) (length goals.now)) }
    ensures noted { OnOk result (AreLasting until.old.items until.new.items goals.now (length goals.now) at) }
{
    for k in 0..goals.len() {
        open_one(heap, table, until, goals[k], at)?;
    }
    Ok(())
}

/// The steps that are still to be made for the diagrams of some, in their turn, counted from 1:
/// highest first, so that the last one can be made at once. Until when each step is used in this
/// turn is noted, where there is a place for it. It takes time in proportion to what they use.
pub(crate) fn wanted<X>(
    alloc: Global,
    plan: &Plan<'_>,
    table: &Table<X>,
    until: &mut Vec<u64>,
    goals: &[u32],
    turn: u32,
) -> Result<Vec<u32>, AllocError>
    requires turn { IsTurn plan.now goals.now turn }
    requires table { length table.now ≡ steps_in plan.now.steps.pair }
    ensures wanted { IfOk result (λ wanted. AreWanted plan.now.steps plan.now.last table.now turn wanted.items) }
    ensures roots { IfOk result (λ wanted. AreReached table.now wanted.items goals.now) }
    ensures used { IfOk result (λ wanted. AreUsedInTurn plan.now.steps until.new.items turn wanted.items goals.now) }
{
    let mut wanted = Vec::new(alloc);
    let mut heap = BinaryHeap::new(alloc);
    // All open steps are below it.
    let mut below = plan.steps.len();
    let end = moment(turn, plan.steps.len() + 1);
    open_goals(&mut heap, table, until, goals, end)?;
    while let Some(step) = heap.pop() {
        drop_repeats(&mut heap, step);
        wanted.push(step)?;
        let at = moment(turn, step + 1);
        open_missing(&mut heap, table, until, &plan.steps.uses(step), at)?;
        below = step;
    }
    Ok(wanted)
}
