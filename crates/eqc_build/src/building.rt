//! The building of the diagrams of some steps: step by step, and each is given back after its last
//! use.
ghost use Rattle.std.specs.Prelude.{◌≡◌, ◌≢◌, ℕ, List, ◌+◌, ◌<◌, length, [], ◌∷◌, IfOk, IfErr, OnOk, OnErr, IsSome, Some, map, slice_index};
ghost use Rattle.eqc_tree.specs.Holding.{Keeps};
ghost use Rattle.eqc_cover.specs.Making.{Makes};
ghost use Rattle.eqc_build.specs.Building.{IsBuilt, AreReady, Advances, Moves, reference_of};
ghost use Rattle.eqc_build.specs.Steps.{steps_in, uses_of, value_at};
ghost use Rattle.eqc_build.specs.Demand.{AreCounted, IsOfUse};
ghost use Rattle.eqc_build.specs.Schedule.{moment, end_of};
ghost use Rattle.eqc_build.specs.Turns.{AreKept, IsTurn};

use crate::demand::count;
use crate::plan::Plan;
use crate::schedule::moment;
use crate::step_diagrams::{StepDiagrams, release};
use crate::steps::{StepDriver, Steps, Uses};
use crate::table::{Table, put, reference_at};
use crate::wanted::wanted;
use eqc_cover::table::MOST_COLUMNS;
use eqc_cover::{Covers, by_table, cover_diagram};
use eqc_tree::{Diagrams, References, Stop};
use std::alloc::{AllocError, Global};
use std::cmp::Reverse;
use std::collections::BinaryHeap;

/// The references of steps that have one.
fn references<'a, X>(
    alloc: Global,
    table: &'a Table<X>,
    steps: &Uses<'_>,
) -> Result<Vec<&'a X>, AllocError>
    requires within { (k : ℕ) → k < length steps.now → slice_index steps.now k < length table.now }
    requires ready { AreReady table.now steps.now }
    ensures { IfOk result (λ found. map (λ r. Some r.now) found.items ≡ map (reference_of table.now) steps.now) }
{
    let mut found = Vec::new(alloc);
    for k in 0..steps.len() {
        found.push(reference_at(table, steps.get(k)))?;
    }
    Ok(found)
}

/// The diagram of a step, by what makes its value and the diagrams of the steps that it uses.
fn step_diagram<R, D: Diagrams<R>>(
    alloc: Global,
    rt: &R,
    d: &mut D,
    covers: &mut Covers,
    steps: &Steps<'_>,
    table: &Table<D::Ref>,
    step: u32,
) -> Result<D::Ref, Stop>
    requires within { step < steps_in steps.now.pair }
    requires kept { AreKept D.entry steps.now.pair (D.holding d.old) table.now }
    requires ready { AreReady table.now (uses_of steps.now step) }
    ensures { Makes D.entry (D.holding d.old) (D.holding d.new) result (λ a. value_at steps.now.pair a step) }
{
    let _count = steps.len();
    match steps.driver(step) {
        StepDriver::Variable(variable) => d.literal(rt, variable),
        StepDriver::Copy(other) => d.copy(reference_at(table, other)),
        StepDriver::Cover {
            columns,
            rows,
            known,
        } => {
            let columns = references(alloc, table, &columns)?;
            cover_diagram(alloc, rt, d, covers, known, &columns, rows)
        }
        StepDriver::Table {
            columns,
            table: truth,
        } => {
            let columns = references(alloc, table, &columns)?;
            by_table(rt, d, &columns, truth, [true; MOST_COLUMNS])
        }
    }
}

/// Puts the diagram of a step into the table, at a moment, and gives back what is used there for
/// the last time.
fn advance<R, D: Diagrams<R>>(
    alloc: Global,
    rt: &R,
    d: &mut D,
    plan: &Plan<'_>,
    kept: &mut StepDiagrams<D::Ref>,
    step: u32,
    at: u64,
) -> Result<(), Stop>
    requires within { step < steps_in plan.now.steps.pair }
    requires size { length plan.now.last ≡ steps_in plan.now.steps.pair }
    requires kept { AreKept D.entry plan.now.steps.pair (D.holding d.old) kept.old.table }
    requires ready { AreReady kept.old.table (uses_of plan.now.steps step) }
    ensures ok { OnOk result (Advances D.entry plan.now kept.old.until.items (D.holding d.old) kept.old.table (D.holding d.new) kept.new.table kept.new.used.items step at) }
    ensures counted { OnOk result (AreCounted plan.now.steps (step ∷ []) kept.old.used.items kept.new.used.items) }
    ensures until { kept.new.until.items ≡ kept.old.until.items }
    ensures stop { OnErr result (Keeps (D.holding d.old) (D.holding d.new)) }
    ensures table { OnErr result (kept.new.table ≡ kept.old.table) }
    ensures used { OnErr result (kept.new.used.items ≡ kept.old.used.items) }
    ensures only { IfErr result (λ s. s ≢ Stop.Threads) }
{
    let covers = &mut kept.covers;
    let reference = step_diagram(alloc, rt, d, covers, &plan.steps, &kept.table, step)?;
    put(d, &mut kept.table, step, reference)?;
    count(&mut kept.used, &plan.steps.uses(step));
    release(d, plan, kept, &plan.steps.uses(step), at);
    Ok(())
}

/// Notes a step that is used later than all steps of a turn, so that it is given back then, if it
/// is of no use any more.
fn note_due(
    due: &mut BinaryHeap<Reverse<(u64, u32)>>,
    last: u64,
    step: u32,
    end: u64,
) -> Result<(), Stop>
    ensures only { IfErr result (λ s. s ≡ Stop.Memory) }
{
    if last <= end {
        return Ok(());
    }
    due.push(Reverse((last, step)))?;
    Ok(())
}

impl<X> StepDiagrams<X> {
    /// Builds the diagrams of these steps, where they aren't there yet, in their turn, counted from
    /// 1. Turns come in rising order. Each step that they need is made once, unless it is kept, and
    /// no other, and what it uses is counted. A step stays where a later turn needs it as a goal,
    /// or for a step that wasn't made, and is else given back after its last use.
    ///
    /// The errors are those of the diagrams, and `Memory` where memory is refused. What
    /// was built by then stays.
    pub fn complete<R, D: Diagrams<R, Ref = X>>(
        &mut self,
        alloc: Global,
        rt: &R,
        d: &mut D,
        plan: &Plan<'_>,
        goals: &[u32],
        turn: u32,
    ) -> Result<(), Stop>
        requires turn { IsTurn plan.now goals.now turn }
        requires kept { AreKept D.entry plan.now.steps.pair (D.holding d.old) self.old.table }
        ensures moves { Moves D.entry (D.holding d.old) self.old.table (D.holding d.new) self.new.table }
        ensures built { IsBuilt D.entry plan.now.steps.pair self.new.table }
        ensures ready { OnOk result (AreReady self.new.table goals.now) }
        ensures kept { (s : ℕ) → IsOfUse plan.now self.new.used.items s (end_of plan.now.steps turn) → IsSome (reference_of self.old.table s) → IsSome (reference_of self.new.table s) }
        ensures counted { (made : List ℕ) × AreCounted plan.now.steps made self.old.used.items self.new.used.items }
        ensures only { IfErr result (λ s. s ≢ Stop.Threads) }
    {
        let mut steps = wanted(alloc, plan, &self.table, &mut self.until, goals, turn)?;
        let end = moment(turn, plan.steps.len());
        while let Some(step) = steps.pop() {
            note_due(&mut self.due, plan.last.at(step), step, end)?;
            note_due(&mut self.due, plan.demand.root_end(step), step, end)?;
            advance(alloc, rt, d, plan, self, step, moment(turn, step + 1))?;
        }
        Ok(())
    }
}
