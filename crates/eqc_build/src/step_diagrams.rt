//! The diagrams of steps that stay from one output to the next, and which of them are to be given
//! back when.
ghost use Rattle.std.specs.Prelude.{◌≡◌, ◌==◌, ℕ, ◌<◌, ◌≤◌, [], false, true, not, length, slice_index, IfOk, IsSome, None, Some};
ghost use Rattle.std.specs.BinaryHeap.{heap_len};
ghost use Rattle.eqc_build.specs.Building.{Moves, OwnsTable, KeepsLater, Releases, IsLastUse, reference_of};
ghost use Rattle.eqc_build.specs.Demand.{IsOfUse};
ghost use Rattle.eqc_build.specs.Schedule.{end_of};
ghost use Rattle.eqc_build.specs.Steps.{steps_in};

use crate::plan::Plan;
use crate::schedule::moment;
use crate::steps::Uses;
use crate::table::{Table, give_back_all, reference_at, take_back};
use eqc_cover::Covers;
use eqc_pair::Pair;
use eqc_tree::References;
use std::alloc::{AllocError, Global};
use std::cmp::Reverse;
use std::collections::BinaryHeap;

/// The diagrams of a pair's steps while outputs are compared in turn: what was built for one output
/// stays while a later one needs it. Contracts see `table`, a list with what may be a reference for
/// each step. In the end all are given back.
pub struct StepDiagrams<X> {
    /// The reference of each step that has one.
    pub(crate) table: Table<X>,
    /// The steps that are to be given back after the last moment that uses them, the earliest
    /// first.
    pub(crate) due: BinaryHeap<Reverse<(u64, u32)>>,
    /// How often each step was used by those that were made, where that is counted.
    pub(crate) used: Vec<u32>,
    /// The last moment at which each step is used in its last turn, where that is noted.
    pub(crate) until: Vec<u64>,
    /// The covers whose diagrams were built.
    pub(crate) covers: Covers,
}

/// Whether a step is of no use after a moment: no output needs it later, or each step is made that
/// uses it.
fn is_spent<X>(plan: &Plan<'_>, kept: &StepDiagrams<X>, s: u32, at: u64) -> bool
    requires { s < length plan.now.last }
    ensures spent { result ≡ true → IsOfUse plan.now kept.now.used.items s at → ⊥ }
    ensures needed { result ≡ false → IsOfUse plan.now kept.now.used.items s at }
{
    plan.last.at(s) <= at || plan.demand.is_met(&kept.used, s, at)
}

/// Whether a step is to be given back at a moment at which it is used.
fn is_over<X>(plan: &Plan<'_>, kept: &StepDiagrams<X>, s: u32, at: u64) -> bool
    requires { s < length plan.now.last }
    ensures over { result ≡ true → IsLastUse plan.now kept.now.until.items s at }
    ensures spent { result ≡ true → IsOfUse plan.now kept.now.used.items s at → ⊥ }
{
    if plan.last.at(s) == at {
        return true;
    }
    let i = s as usize;
    i < kept.until.len() && kept.until[i] == at && is_spent(plan, kept, s, at)
}

/// Gives back the references of those of the steps that are used for the last time at the moment
/// `at`.
pub(crate) fn release<D: References>(
    d: &mut D,
    plan: &Plan<'_>,
    kept: &mut StepDiagrams<D::Ref>,
    steps: &Uses<'_>,
    at: u64,
)
    requires within { (k : ℕ) → k < length steps.now → slice_index steps.now k < length kept.old.table }
    requires size { length plan.now.last ≡ length kept.old.table }
    requires owned { OwnsTable D.entry (D.holding d.old) kept.old.table }
    ensures released { Releases D.entry (D.holding d.old) kept.old.table (D.holding d.new) kept.new.table plan.now kept.old.used.items kept.old.until.items at }
    ensures used { kept.new.used.items ≡ kept.old.used.items }
    ensures until { kept.new.until.items ≡ kept.old.until.items }
{
    for k in 0..steps.len() {
        let s = steps.get(k);
        if !is_over(plan, kept, s, at) {
            continue;
        }
        take_back(d, &mut kept.table, s);
    }
}

/// Whether a step has a reference.
fn is_there<X>(table: &Table<X>, s: u32) -> bool
    ensures { result ≡ true → s < length table.now }
{
    (s as usize) < table.len() && table.get(s).is_some()
}

impl<X> StepDiagrams<X> {
    /// No diagrams, for the steps of a pair of which each may get one. Fails where memory is
    /// refused.
    pub fn for_each(alloc: Global, pair: &Pair<'_>) -> Result<StepDiagrams<X>, AllocError>
        ensures size { IfOk result (λ kept. length kept.table ≡ steps_in pair.now) }
        ensures none { IfOk result (λ kept. (s : ℕ) → reference_of kept.table s ≡ None) }
    {
        pair.recall_laws();
        let netlists = pair.first_places().len() + pair.second_places().len();
        let count = netlists + pair.assumed_places().len();
        let used = vec![in alloc; 0u32; count]?;
        let until = vec![in alloc; 0u64; count]?;
        let table = Table::of_each(alloc, count)?;
        Ok(StepDiagrams {
            table,
            due: BinaryHeap::new(alloc),
            used,
            until,
            covers: Covers::none(alloc),
        })
    }

    /// No diagrams, for the steps of a plan of which few get one. Memory is in proportion to those.
    pub fn for_few(alloc: Global, plan: &Plan<'_>) -> StepDiagrams<X>
        ensures size { length result.table ≡ steps_in plan.now.steps.pair }
        ensures none { (s : ℕ) → reference_of result.table s ≡ None }
    {
        StepDiagrams {
            table: Table::of_few(alloc, plan.steps.len() as usize),
            due: BinaryHeap::new(alloc),
            used: Vec::new(alloc),
            until: Vec::new(alloc),
            covers: Covers::none(alloc),
        }
    }

    /// The diagram of a step that has one.
    pub fn get(&self, step: u32) -> &X
        requires within { step < length self.now.table }
        requires some { IsSome (reference_of self.now.table step) }
        ensures { reference_of self.now.table step ≡ Some result.now }
    {
        reference_at(&self.table, step)
    }

    /// Whether diagrams of earlier turns wait to be given back: with none of them there is more
    /// room.
    pub fn are_waiting(&self) -> bool
        ensures { result ≡ not (heap_len self.now.due == 0) }
    {
        !self.due.is_empty()
    }

    /// Gives back what is of no use after a turn.
    pub fn release_due<D: References<Ref = X>>(&mut self, d: &mut D, plan: &Plan<'_>, turn: u32)
        requires size { length plan.now.last ≡ length self.old.table }
        requires owned { OwnsTable D.entry (D.holding d.old) self.old.table }
        ensures moves { Moves D.entry (D.holding d.old) self.old.table (D.holding d.new) self.new.table }
        ensures later { KeepsLater plan.now self.old.used.items self.old.table self.new.table (end_of plan.now.steps turn) }
        ensures used { self.new.used.items ≡ self.old.used.items }
    {
        let at = moment(turn, plan.steps.len() + 1);
        while let Some(next) = self.due.peek() {
            let Reverse((moment, s)) = *next;
            let there = is_there(&self.table, s);
            // What was given back already isn't waited for.
            if there && moment > at {
                return;
            }
            self.due.pop();
            if !there || !is_spent(plan, self, s, at) {
                continue;
            }
            take_back(d, &mut self.table, s);
        }
    }

    /// Gives all diagrams back.
    pub fn clear<D: References<Ref = X>>(&mut self, d: &mut D)
        requires owned { OwnsTable D.entry (D.holding d.old) self.old.table }
        requires few { length self.old.table ≤ 3145728 }
        ensures moves { Moves D.entry (D.holding d.old) self.old.table (D.holding d.new) self.new.table }
        ensures size { length self.new.table ≡ length self.old.table }
        ensures none { (s : ℕ) → reference_of self.new.table s ≡ None }
        ensures used { (s : ℕ) → slice_index self.new.used.items s ≡ 0 }
    {
        self.due.clear();
        self.used.fill(0);
        for s in 0..self.table.len() {
            take_back(d, &mut self.table, s as u32);
        }
    }

    /// Gives all diagrams back, for good.
    pub fn give_back<D: References<Ref = X>>(self, d: &mut D)
        requires { OwnsTable D.entry (D.holding d.old) self.table }
        ensures { Moves D.entry (D.holding d.old) self.table (D.holding d.new) [] }
    {
        let StepDiagrams {
            table,
            due: _,
            used: _,
            until: _,
            covers: _,
        } = self;
        give_back_all(d, table);
    }
}
