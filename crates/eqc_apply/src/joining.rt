//! An applier takes another one in.
ghost use Rattle.std.specs.Prelude.{◌≡◌, ℕ, ◌+◌, ◌<◌, ◌≤◌, ◌^◌, [], get_or, length};
ghost use Rattle.eqc_apply.specs.Names.{Has};
ghost use Rattle.eqc_apply.specs.Joining.{HasTwo, Merges, AreOrdered, IsMerged, HasTakenIn, both_refs};
ghost use Rattle.eqc_plain.specs.Spending.{Spends};

use crate::applier::Applier;
use crate::held::Held;
use eqc_guard::worker::Worker;
use std::mem;

// Merges what two tables count of a name. Where both count it, it is held twice, and one of the two
// is given back.
fn merge_one(worker: &mut Worker, counts: &mut Vec<u64>, more: &mut Vec<u64>, place: usize)
    requires has { (n : ℕ) × HasTwo n worker.old counts.old.items more.old.items }
    requires few { (x : ℕ) → both_refs counts.old.items more.old.items x ≤ 2 ^ 39 }
    requires within { place < length counts.old.items }
    requires within_more { place < length more.old.items }
    ensures has { (n : ℕ) → HasTwo n worker.old counts.old.items more.old.items → HasTwo n worker.new counts.new.items more.new.items }
    ensures merges { Merges worker.old counts.old.items more.old.items worker.new counts.new.items more.new.items }
    ensures gone { get_or more.new.items place 0 ≡ 0 }
    ensures others { (y : ℕ) → y < place → get_or more.new.items y 0 ≡ get_or more.old.items y 0 }
{
    worker.recall_laws();
    let second = more[place];
    if second == 0 {
        return;
    }
    let first = counts[place];
    more[place] = 0;
    if first == 0 {
        counts[place] = second;
        return;
    }
    let name = worker.reference(place as u32);
    worker.down(name);
    counts[place] = first + (second - 1);
}

// Keeps the longer one of two tables, and gives the other one.
fn keep_longer(counts: &mut Vec<u64>, more: Vec<u64>) -> Vec<u64>
    ensures shorter { length result.items ≤ length counts.new.items }
    ensures both { AreOrdered counts.old.items more.items counts.new.items result.items }
{
    if more.len() <= counts.len() {
        return more;
    }
    mem::replace(counts, more)
}

// Merges two tables of counts of what a worker holds.
fn merge(worker: &mut Worker, counts: &mut Vec<u64>, more: Vec<u64>)
    requires has { (n : ℕ) × HasTwo n worker.old counts.old.items more.items }
    requires few { (x : ℕ) → both_refs counts.old.items more.items x ≤ 2 ^ 39 }
    ensures has { (n : ℕ) → HasTwo n worker.old counts.old.items more.items → Has [] n worker.new counts.new.items }
    ensures merged { IsMerged worker.old counts.old.items more.items worker.new counts.new.items }
{
    let mut rest = keep_longer(counts, more);
    for place in 0..rest.len() {
        merge_one(worker, counts, &mut rest, place);
    }
}

// A worker takes another one in, with its counts.
fn take_in(worker: &mut Worker, counts: &mut Vec<u64>, other: Worker, more: Vec<u64>)
    requires mine { (n : ℕ) × Has [] n worker.old counts.old.items }
    requires theirs { (n : ℕ) × Has [] n other more.items }
    requires number { 0 < other.known.core.number }
    requires forest { other.forest ≡ worker.old.forest }
    requires few { (x : ℕ) → both_refs counts.old.items more.items x ≤ 2 ^ 39 }
    ensures has { (n : ℕ) → Has [] n worker.old counts.old.items → Has [] n worker.new counts.new.items }
    ensures taken { HasTakenIn worker.old counts.old.items other more.items worker.new counts.new.items }
{
    worker.recall_laws();
    other.recall_laws();
    worker.absorb(other);
    merge(worker, counts, more);
}

impl Held {
    ghost use Rattle.eqc_tree.specs.Holding.{Entry, copies};
    ghost use Rattle.eqc_apply.specs.Extending.{holding_in};
    ghost use Rattle.eqc_apply.specs.Joining.{Joins, TakesIn};

    /// Takes in another worker of the forest, with the references that stand on its names.
    pub(crate) fn absorb(&mut self, other: Held)
        requires number { 0 < other.worker.known.core.number }
        requires forest { other.worker.forest ≡ self.old.worker.forest }
        requires few { (e : Entry) → copies (holding_in self.old) e + copies (holding_in other) e ≤ 2 ^ 38 }
        ensures joins { Joins (holding_in self.old) (holding_in other) (holding_in self.new) }
        ensures takes { TakesIn self.old.worker other.worker self.new.worker }
        ensures turns { Spends self.old.turns self.new.turns }
    {
        let mut other = other;
        self.give_up();
        other.give_up();
        let Held {
            worker,
            variables: _,
            counts,
            referred: _,
            turns: _,
        } = other;
        take_in(&mut self.worker, &mut self.counts, worker, counts);
        // Both gave up what had no references, so each name that is held has some.
        self.referred = self.worker.held();
    }
}

impl Applier {
    ghost use Rattle.eqc_tree.specs.Holding.{Entry, copies};
    ghost use Rattle.eqc_apply.specs.Extending.{holding_in};
    ghost use Rattle.eqc_apply.specs.Joining.{Joins, TakesIn};

    /// Takes in another applier of the forest: what both hold is held here then. At worker 0 the
    /// number of the other's worker is out no more, and at any other worker it is taken in. The
    /// call takes no memory, and waits for nobody.
    ///
    /// The other one's worker is not worker 0, and together they hold each reference at most 2^38
    /// times.
    pub fn absorb(&mut self, other: Applier)
        requires number { 0 < other.names.worker.known.core.number }
        requires forest { other.names.worker.forest ≡ self.old.names.worker.forest }
        requires few { (e : Entry) → copies (holding_in self.old.names) e + copies (holding_in other.names) e ≤ 2 ^ 38 }
        ensures joins { Joins (holding_in self.old.names) (holding_in other.names) (holding_in self.new.names) }
        ensures takes { TakesIn self.old.names.worker other.names.worker self.new.names.worker }
        ensures turns { Spends self.old.names.turns self.new.names.turns }
    {
        self.cells.clear();
        self.names.absorb(other.into_names());
    }
}
