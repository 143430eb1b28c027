//! The names that an applier holds: each once, with how many references stand on it.
ghost use Rattle.std.specs.Prelude.{◌≡◌, ◌≢◌, ℕ, ◌<◌, ◌≤◌, ◌-◌, ◌^◌, List, [], ◌∷◌, ◌++◌, ◌⊎◌, get_or, length, true, false, IfOk, IfErr, OnOk, OnErr};
ghost use Rattle.eqc_core.specs.Words.{slots_of, times};
ghost use Rattle.eqc_core.specs.Moves.{IsReady};
ghost use Rattle.eqc_core.specs.Making.{read_node};
ghost use Rattle.eqc_guard.specs.Making.{Reads};
ghost use Rattle.eqc_guard.specs.Standing.{Steps};
ghost use Rattle.eqc_guard.specs.Known.{IsHeld, IsKnown, tree_of};
ghost use Rattle.eqc_arena.specs.Nodes.{MayCount, KeepsTrees};
ghost use Rattle.std.proofs.Props.{props};
ghost use Rattle.eqc_apply.specs.Resting.{quiet_prop};
ghost use Rattle.eqc_apply.specs.Names.{Has, Settles, Drops, SameReferences, IsCounted, IsThere};

use crate::reference::Ref;
use eqc_arena::making::mk;
use eqc_guard::reference::Ref as Name;
use eqc_guard::worker::Worker;
use eqc_tree::{Stop, unpack_node};
use std::snapshot::Snapshot;
use std::sync::Wait;

/// A worker at rest, that holds each of its names once. A name's count is one more than the
/// references that stand on it; that of a name that isn't held is 0.
///
/// A name stays held when its last reference is given back, until names without references are
/// given up: so neither an operation nor its results cost a step on a shared count.
#[derive(Drop)]
pub struct Held {
    pub(crate) worker: Worker,
    pub(crate) variables: u16,
    pub(crate) counts: Vec<u64>,
    // How many names have references. Nothing that is promised depends on it.
    pub(crate) referred: u64,
    // How many more turns its operations may take beyond their first ones, where that is limited.
    pub(crate) turns: Option<u64>,
    ghost once: { Has [] variables worker counts.items } by { Prim.hlevel (quiet_prop, props) },
}

// Whether a name is counted.
fn is_counted(counts: &[u64], x: u32) -> bool
    ensures yes { result ≡ true → 0 < get_or counts.now x 0 }
    ensures no { result ≡ false → get_or counts.now x 0 ≡ 0 }
{
    match counts.get(x as usize) {
        Some(count) => *count != 0,
        None => false,
    }
}

// Makes room for the count of a name.
pub(crate) fn grow_counts(counts: &mut Vec<u64>, x: u32) -> Result<(), Stop>
    ensures room { OnOk result (x < length counts.new.items) }
    ensures same { (y : ℕ) → get_or counts.new.items y 0 ≡ get_or counts.old.items y 0 }
    ensures only { IfErr result (λ s. s ≡ Stop.Memory) }
{
    let len = x as usize + 1024;
    if (x as usize) < counts.len() {
        return Ok(());
    }
    counts.resize(len, 0)?;
    Ok(())
}

// Counts a name that came, where it isn't counted, and gives it back where it is: then it is held
// once. There is room for its count.
pub(crate) fn count_in(worker: &mut Worker, counts: &mut Vec<u64>, name: Name) -> u32
    requires has { (n : ℕ) × ((more : List ℕ) × Has (slots_of (name.number ∷ []) ++ more) n worker.old counts.old.items) }
    requires room { name.number < length counts.old.items }
    ensures has { (n : ℕ) (more : List ℕ) → Has (slots_of (name.number ∷ []) ++ more) n worker.old counts.old.items → Has more n worker.new counts.new.items }
    ensures settles { Settles counts.old.items worker.old worker.new }
    ensures references { SameReferences counts.old.items counts.new.items }
    ensures there { (result ≡ name.number) × IsThere result worker.old worker.new }
    ensures known { IsKnown worker.new.known }
    ensures length { length counts.new.items ≡ length counts.old.items }
    ensures now { IsCounted counts.new.items result }
    ensures still { (x : ℕ) → IsCounted counts.old.items x → IsCounted counts.new.items x }
{
    worker.recall_laws();
    let x = name.number();
    if x < 2 || is_counted(counts.as_slice(), x) {
        worker.down(name);
        return x;
    }
    counts[x as usize] = 1;
    name.into_number()
}

// Counts a name that came, as `count_in` does. Where there is no room for its count, it is given
// back.
pub(crate) fn settle(worker: &mut Worker, counts: &mut Vec<u64>, name: Name) -> Result<u32, Stop>
    requires { (n : ℕ) × Has (slots_of (name.number ∷ [])) n worker.old counts.old.items }
    ensures has { (n : ℕ) → Has (slots_of (name.number ∷ [])) n worker.old counts.old.items → Has [] n worker.new counts.new.items }
    ensures settles { Settles counts.old.items worker.old worker.new }
    ensures references { SameReferences counts.old.items counts.new.items }
    ensures there { IfOk result (λ x. (x ≡ name.number) × IsThere x worker.old worker.new) }
    ensures known { IsKnown worker.new.known }
    ensures only { IfErr result (λ s. s ≡ Stop.Memory) }
{
    worker.recall_laws();
    match grow_counts(counts, name.number()) {
        Ok(()) => Ok(count_in(worker, counts, name)),
        Err(stop) => {
            worker.down(name);
            Err(stop)
        }
    }
}

// Counts a child of the node that was read last, where it isn't counted.
fn hold(worker: &mut Worker, counts: &mut Vec<u64>, x: u32) -> Result<(), Stop>
    requires has { (n : ℕ) × Has [] n worker.old counts.old.items }
    requires may { MayCount worker.old.known.core x }
    ensures has { (n : ℕ) → Has [] n worker.old counts.old.items → Has [] n worker.new counts.new.items }
    ensures settles { Settles counts.old.items worker.old worker.new }
    ensures references { SameReferences counts.old.items counts.new.items }
    ensures there { OnOk result (IsThere x worker.old worker.new) }
    ensures trees { OnOk result (KeepsTrees worker.old.known worker.new.known) }
    ensures read { OnOk result (worker.new.known.core.read ≡ worker.old.known.core.read) }
    ensures only { IfErr result (λ s. s ≡ Stop.Memory) }
{
    worker.recall_laws();
    if x < 2 || is_counted(counts.as_slice(), x) {
        return Ok(());
    }
    grow_counts(counts, x)?;
    let name = worker.up(x)?;
    counts[x as usize] = 1;
    let _number = name.into_number();
    Ok(())
}

// Gives a name up that no references stand on.
fn give_up_one(worker: &mut Worker, counts: &mut Vec<u64>, place: usize)
    requires has { (n : ℕ) × Has [] n worker.old counts.old.items }
    requires within { place < length counts.old.items }
    ensures has { (n : ℕ) → Has [] n worker.old counts.old.items → Has [] n worker.new counts.new.items }
    ensures drops { Drops counts.old.items worker.old worker.new }
    ensures references { SameReferences counts.old.items counts.new.items }
    ensures gone { get_or counts.new.items place 0 ≢ 1 }
    ensures others { (y : ℕ) → y ≢ place → get_or counts.new.items y 0 ≡ get_or counts.old.items y 0 }
    ensures length { length counts.new.items ≡ length counts.old.items }
{
    worker.recall_laws();
    if counts[place] != 1 {
        return;
    }
    let name = worker.reference(place as u32);
    worker.down(name);
    counts[place] = 0;
}

// The word of a node that is held.
fn word_of(worker: &mut Worker, x: u32) -> u64
    requires ready { IsReady worker.old.known.core }
    requires held { 0 < times x worker.old.known.core.held }
    ensures step { Steps worker.old (read_node worker.old.known.core x result) worker.new }
    ensures tells { Reads worker.old.known x result worker.new.known }
{
    worker.recall_laws();
    let name = worker.reference(x);
    let word = worker.read_node(&name);
    let _number = name.into_number();
    word
}

impl Held {
    ghost use Rattle.std.specs.Prelude.{IsOk};
    ghost use Rattle.eqc_tree.specs.Tree.{StartsAbove};
    ghost use Rattle.eqc_plain.specs.Store.{root};
    ghost use Rattle.eqc_guard.specs.Searching.{HasSeenAll};
    ghost use Rattle.eqc_apply.specs.Combining.{IsNode, AreCofactors, IsResult};
    ghost use Rattle.eqc_tree.specs.Holding.{Gains, Loses, IsHeld as IsIn, copies, says};
    ghost use Rattle.eqc_apply.specs.Extending.{Stays, Extends, entry_in, holding_in};
    ghost use Rattle.eqc_apply.specs.Referring.{entry_of};

    /// The variable of a name's root, or the number of variables for a constant.
    pub(crate) fn root(&mut self, x: u32) -> u16
        requires { IsHeld self.old.worker.known.core x }
        ensures root { result ≡ root self.new.variables (tree_of self.new.worker.known x) }
        ensures inner { 2 ≤ x → result < self.new.variables }
        ensures names { Extends self.old self.new }
    {
        if x < 2 {
            return self.variables;
        }
        let word = word_of(&mut self.worker, x);
        let (variable, _, _) = unpack_node(word);
        variable
    }

    /// The cofactors of a name: what it is where the variable is 0, and where it is 1. Both are
    /// held then. The error is `Memory` alone.
    pub(crate) fn cofactors(&mut self, variable: u16, x: u32) -> Result<(u32, u32), Stop>
        requires held { IsHeld self.old.worker.known.core x }
        requires below { variable < self.old.variables }
        requires root { variable ≤ root self.old.variables (tree_of self.old.worker.known x) }
        ensures ok { IfOk result (λ p. AreCofactors self.new.variables self.new.worker.known variable x p.0 p.1) }
        ensures names { Extends self.old self.new }
        ensures only { IfErr result (λ s. s ≡ Stop.Memory) }
    {
        self.worker.recall_laws();
        if x < 2 {
            return Ok((x, x));
        }
        let word = word_of(&mut self.worker, x);
        let (top, low, high) = unpack_node(word);
        if top != variable {
            return Ok((x, x));
        }
        hold(&mut self.worker, &mut self.counts, low)?;
        hold(&mut self.worker, &mut self.counts, high)?;
        Ok((low, high))
    }

    /// The node of a variable over two names, which is held then. The call may wait. The errors are
    /// `NodeLimit`, where every slot was seen taken, and `Memory`.
    pub(crate) fn node<R: Wait>(
        &mut self,
        rt: &R,
        variable: u16,
        low: u32,
        high: u32,
    ) -> Result<u32, Stop>
        requires below { variable < self.old.variables }
        requires low { IsHeld self.old.worker.known.core low }
        requires high { IsHeld self.old.worker.known.core high }
        requires above_low { StartsAbove variable (tree_of self.old.worker.known low) }
        requires above_high { StartsAbove variable (tree_of self.old.worker.known high) }
        ensures ok { IfOk result (λ x. IsNode self.new.variables self.new.worker.known variable low high x) }
        ensures names { Extends self.old self.new }
        ensures all { result ≡ Err Stop.NodeLimit → HasSeenAll self.new.worker.known.core }
        ensures only { IfErr result (λ s. (s ≡ Stop.NodeLimit) ⊎ (s ≡ Stop.Memory)) }
    {
        self.worker.recall_laws();
        if low == high {
            return Ok(low);
        }
        let first = self.worker.reference(low);
        let second = self.worker.reference(high);
        let made = mk(&mut self.worker, rt, variable, &first, &second);
        let _low = first.into_number();
        let _high = second.into_number();
        match made {
            Ok(name) => settle(&mut self.worker, &mut self.counts, name),
            Err(stop) => Err(stop),
        }
    }

    /// One reference more to a name that is held. The error is `References` alone, at 2^32 - 1 of
    /// them.
    pub(crate) fn refer(&mut self, x: u32) -> Result<Ref, Stop>
        requires { IsHeld self.old.worker.known.core x }
        ensures ok { IfOk result (λ r. Gains (holding_in self.old) (holding_in self.new) (entry_of r) (says (entry_in self.old.worker.known x))) }
        ensures still { OnErr result (self.new ≡ self.old) }
        ensures constant { x < 2 → IsOk result }
        ensures full { OnErr result (2 ^ 32 - 1 ≤ copies (holding_in self.old) (entry_in self.old.worker.known x)) }
        ensures only { IfErr result (λ s. s ≡ Stop.References) }
        ensures worker { self.new.worker ≡ self.old.worker }
        ensures variables { self.new.variables ≡ self.old.variables }
        ensures turns { self.new.turns ≡ self.old.turns }
    {
        let at = Snapshot::of(&self.worker);
        if x < 2 {
            return Ok(Ref { name: x, at });
        }
        let count = self.counts[x as usize];
        if count > u64::from(u32::MAX) {
            return Err(Stop::References);
        }
        if count == 1 {
            self.referred = self.referred.saturating_add(1);
        }
        self.counts[x as usize] = count + 1;
        Ok(Ref { name: x, at })
    }

    /// Ends a reference. Its name stays held.
    pub(crate) fn release(&mut self, r: Ref)
        requires { IsIn (holding_in self.old) (entry_of r) }
        ensures loses { Loses (holding_in self.old) (holding_in self.new) (entry_of r) }
        ensures worker { self.new.worker ≡ self.old.worker }
        ensures variables { self.new.variables ≡ self.old.variables }
        ensures turns { self.new.turns ≡ self.old.turns }
    {
        let Ref { name, at } = r;
        drop(at);
        if name < 2 {
            return;
        }
        let count = self.counts[name as usize];
        if count == 2 {
            self.referred = self.referred.saturating_sub(1);
        }
        self.counts[name as usize] = count - 1;
    }

    /// Whether the turns that its operations were allowed are spent.
    pub(crate) fn is_spent(&self) -> bool {
        matches!(self.turns, Some(0))
    }

    /// How many names are held that no references stand on.
    pub(crate) fn idle(&self) -> u64 {
        self.worker.held().saturating_sub(self.referred)
    }

    /// How many of them a worker may hold. Once three quarters of the slots are taken, half of all
    /// are shared out among the workers for it, so that what one keeps for itself doesn't starve
    /// another. Until then a worker may keep all.
    pub(crate) fn share_of_slots(&self) -> u64 {
        let workers = u64::from(self.worker.workers().max(1));
        let slots = u64::from(self.worker.slots());
        if (self.worker.slots_about_taken() as u64) < slots / 4 * 3 {
            slots
        } else {
            slots / (2 * workers)
        }
    }

    /// Gives up all names that no references stand on.
    pub(crate) fn give_up(&mut self)
        ensures stays { Stays self.old self.new }
        ensures none { (x : ℕ) → get_or self.new.counts.items x 0 ≢ 1 }
    {
        for place in 0..self.counts.len() {
            give_up_one(&mut self.worker, &mut self.counts, place);
        }
    }
}
