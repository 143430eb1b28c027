//! When each step that others need is used for the last time, where nothing else is needed.
ghost use Rattle.std.specs.Prelude.{◌+◌, ◌<◌, ◌≤◌, ◌∷◌, [], length, IfOk, OnOk};
ghost use Rattle.std.specs.Ordering.{nat_cmp};
ghost use Rattle.std.specs.BinaryHeap.{heap_items, IsHeap};
ghost use Rattle.eqc_build.specs.Listed.{moment_in};
ghost use Rattle.eqc_build.specs.Schedule.{end_of, AreLastMoments, AreNoted, AreUsedUntil, AreWithin};

use crate::moments::{Moments, moment_in};
use crate::schedule::moment;
use crate::steps::{Steps, Uses};
use crate::wanted::drop_repeats;
use indexmap::IndexMap;
use std::alloc::{AllocError, Global};
use std::collections::BinaryHeap;

/// Notes a moment for a step that has none, and opens it.
fn note(
    last: &mut IndexMap<u32, u64>,
    heap: &mut BinaryHeap<u32>,
    step: u32,
    at: u64,
) -> Result<(), AllocError>
    requires heap { IsHeap nat_cmp (heap_items heap.old) }
    requires some { 1 ≤ at }
    ensures heap { OnOk result (IsHeap nat_cmp (heap_items heap.new)) }
    ensures noted { OnOk result (AreNoted (step ∷ []) at (moment_in last.old) (heap_items heap.old) (moment_in last.new) (heap_items heap.new) 1) }
{
    if moment_in(last, step) == 0 {
        last.insert(step, at)?;
        heap.push(step)?;
    }
    Ok(())
}

/// Notes a moment for those of the steps that have none, and opens them.
fn note_all(
    last: &mut IndexMap<u32, u64>,
    heap: &mut BinaryHeap<u32>,
    steps: &Uses<'_>,
    at: u64,
) -> Result<(), AllocError>
    requires heap { IsHeap nat_cmp (heap_items heap.old) }
    requires some { 1 ≤ at }
    ensures heap { OnOk result (IsHeap nat_cmp (heap_items heap.new)) }
    ensures noted { OnOk result (AreNoted steps.now at (moment_in last.old) (heap_items heap.old) (moment_in last.new) (heap_items heap.new) (length steps.now)) }
{
    for k in 0..steps.len() {
        note(last, heap, steps.get(k), at)?;
    }
    Ok(())
}

/// Notes a moment for those of these steps that have none, and opens them.
fn note_goals(
    last: &mut IndexMap<u32, u64>,
    heap: &mut BinaryHeap<u32>,
    goals: &[u32],
    at: u64,
) -> Result<(), AllocError>
    requires heap { IsHeap nat_cmp (heap_items heap.old) }
    requires some { 1 ≤ at }
    ensures heap { OnOk result (IsHeap nat_cmp (heap_items heap.new)) }
    ensures noted { OnOk result (AreNoted goals.now at (moment_in last.old) (heap_items heap.old) (moment_in last.new) (heap_items heap.new) (length goals.now)) }
{
    for k in 0..goals.len() {
        note(last, heap, goals[k], at)?;
    }
    Ok(())
}

/// The last moments of the steps that some need, where nothing else is needed. They are gone
/// through from the highest one down, so that the first use that is met is the last of all. It
/// takes time in proportion to what is needed.
pub(crate) fn moments_below(
    alloc: Global,
    steps: &Steps<'_>,
    goals: &[u32],
) -> Result<Moments, AllocError>
    requires within { AreWithin steps.now goals.now }
    ensures last { IfOk result (AreLastMoments steps.now) }
    ensures roots { IfOk result (λ last. AreUsedUntil last goals.now (end_of steps.now 1)) }
{
    let mut last = IndexMap::new(alloc);
    let mut heap = BinaryHeap::new(alloc);
    let end = moment(1, steps.len() + 1);
    note_goals(&mut last, &mut heap, goals, end)?;
    // All open steps are below it.
    let mut below = steps.len();
    while let Some(step) = heap.pop() {
        drop_repeats(&mut heap, step);
        note_all(&mut last, &mut heap, &steps.uses(step), moment(1, step + 1))?;
        below = step;
    }
    Ok(Moments::of_few(last, steps.len() as usize))
}
