//! The one node of a variable and two children.
ghost use Rattle.std.specs.Prelude.{◌≡◌, ◌≢◌, ℕ, ◌-◌, ◌^◌, ◌<◌, ◌≤◌, ◌⊎◌, [], ◌∷◌, length, None, IfOk, IfErr, OnOk, OnErr};
ghost use Rattle.eqc_core.specs.Words.{slots_of, stripe_of};
ghost use Rattle.eqc_tree.specs.Word.{node_word};
ghost use Rattle.eqc_core.specs.Moves.{IsReady};
ghost use Rattle.eqc_guard.specs.Known.{IsHeld};
ghost use Rattle.eqc_guard.specs.Searching.{HasSeenAll};
ghost use Rattle.eqc_arena.specs.Changing.{Exchanges};
ghost use Rattle.eqc_arena.specs.Nodes.{MayAsk, MayPut, MayEnter, IsMade, IsGiven};
ghost use Rattle.eqc_arena.specs.Taking.{HomesStill};

use crate::nodes::{copy, give_back};
use crate::sweeping::{Effort, take_back};
use eqc_guard::reference::Ref;
use eqc_guard::worker::Worker;
use eqc_tree::{Stop, pack_node};
use indexmap::IndexMap;
use std::sync::Wait;

// One more reference of both children.
fn copies(worker: &mut Worker, low: &Ref, high: &Ref) -> Result<(Ref, Ref), Stop>
    requires ready { IsReady worker.old.known.core }
    requires low { IsHeld worker.old.known.core low.now.number }
    requires high { IsHeld worker.old.known.core high.now.number }
    ensures names { IfOk result (λ p. (p.0.number ≡ low.now.number) × (p.1.number ≡ high.now.number)) }
    ensures copied { OnOk result (Exchanges [] (slots_of (low.now.number ∷ high.now.number ∷ [])) worker.old worker.new) }
    ensures room { length worker.old.known.core.held ≤ 2 ^ 39 → OnOk result (length worker.new.known.core.held ≤ 2 ^ 39) }
    ensures still { OnErr result (Exchanges [] [] worker.old worker.new) }
    ensures full { OnErr result (2 ^ 32 - 2 ≤ length worker.old.known.core.held) }
    ensures only { IfErr result (λ s. s ≡ Stop.References) }
{
    worker.recall_laws();
    let first = copy(worker, low)?;
    match copy(worker, high) {
        Ok(second) => Ok((first, second)),
        Err(stop) => {
            give_back(worker, first);
            Err(stop)
        }
    }
}

// Puts a node into the draft, and its entry into the map of the stripe in hand. The draft stays
// where that is refused.
fn put(
    worker: &mut Worker,
    map: &mut IndexMap<u64, u32>,
    slot: u32,
    var: u16,
    low: &Ref,
    high: &Ref,
) -> Result<Ref, Stop>
    requires { MayPut worker.old.known map.old.entries slot var low.now.number high.now.number }
    ensures made { IfOk result (λ r. IsMade var low.now.number high.now.number r.number worker.old worker.new) }
    ensures home { HomesStill map.old.entries map.new.entries worker.old worker.new }
    ensures still { OnErr result (Exchanges [] [] worker.old worker.new) }
    ensures full { IfErr result (λ s. s ≡ Stop.References → 2 ^ 32 - 2 ≤ length worker.old.known.core.held) }
    ensures only { IfErr result (λ s. (s ≡ Stop.Memory) ⊎ (s ≡ Stop.References)) }
{
    worker.recall_laws();
    let (first, second) = copies(worker, low, high)?;
    let word = pack_node(var, low.number(), high.number());
    // The entry comes first, so that no node has to be taken back where the map can't grow.
    match map.insert(word, slot) {
        Ok(_) => Ok(worker.write_node(var, first, second)),
        Err(_) => {
            give_back(worker, first);
            give_back(worker, second);
            Err(Stop::Memory)
        }
    }
}

// The node, where the map of the stripe in hand has its word, or else a new one in a free slot.
fn enter(
    worker: &mut Worker,
    map: &mut IndexMap<u64, u32>,
    var: u16,
    low: &Ref,
    high: &Ref,
) -> Result<Ref, Stop>
    requires { MayEnter worker.old.known map.old.entries var low.now.number high.now.number }
    ensures made { IfOk result (λ r. IsMade var low.now.number high.now.number r.number worker.old worker.new) }
    ensures home { HomesStill map.old.entries map.new.entries worker.old worker.new }
    ensures still { OnErr result (Exchanges [] [] worker.old worker.new) }
    ensures full { IfErr result (λ s. s ≡ Stop.References → 2 ^ 32 - 2 ≤ length worker.old.known.core.held) }
    ensures all { IfErr result (λ s. s ≡ Stop.NodeLimit → HasSeenAll worker.new.known.core) }
    ensures only { IfErr result (λ s. s ≢ Stop.Threads) }
{
    worker.recall_laws();
    let word = pack_node(var, low.number(), high.number());
    if let Some(slot) = map.get(&word) {
        return worker.up(*slot);
    }
    let Some(slot) = worker.claim_free() else {
        return Err(Stop::NodeLimit);
    };
    match put(worker, map, slot, var, low, high) {
        Ok(node) => Ok(node),
        Err(stop) => {
            worker.unclaim();
            Err(stop)
        }
    }
}

// The stripe of a node's word.
pub(crate) fn stripe_for(var: u16, low: u32, high: u32) -> u32
    requires low { low < 2 ^ 20 }
    requires high { high < 2 ^ 20 }
    ensures there { result < 16 }
    ensures stripe { result ≡ stripe_of (node_word var low high) }
{
    (u32::from(var) + low + high) % 16
}

// The node where there is one, or else a new one in a free slot, if one was seen.
fn attempt<R: Wait>(
    worker: &mut Worker,
    rt: &R,
    var: u16,
    low: &Ref,
    high: &Ref,
) -> Result<Ref, Stop>
    requires may { MayAsk worker.old.known var low.now.number high.now.number }
    requires differ { low.now.number ≢ high.now.number }
    ensures made { IfOk result (λ r. IsMade var low.now.number high.now.number r.number worker.old worker.new) }
    ensures still { OnErr result (Exchanges [] [] worker.old worker.new) }
    ensures hand { worker.new.known.core.hand ≡ None }
    ensures full { IfErr result (λ s. s ≡ Stop.References → 2 ^ 32 - 2 ≤ length worker.old.known.core.held) }
    ensures all { IfErr result (λ s. s ≡ Stop.NodeLimit → HasSeenAll worker.new.known.core) }
    ensures only { IfErr result (λ s. s ≢ Stop.Threads) }
{
    worker.recall_laws();
    let stripe = stripe_for(var, low.number(), high.number());
    let mut map = worker.lock_stripe(rt, stripe);
    let made = enter(worker, &mut map, var, low, high);
    worker.unlock_stripe(stripe, map);
    made
}

// The node, after dead nodes were taken back.
fn attempt_after<R: Wait>(
    worker: &mut Worker,
    rt: &R,
    effort: Effort,
    var: u16,
    low: &Ref,
    high: &Ref,
) -> Result<Ref, Stop>
    requires may { MayAsk worker.old.known var low.now.number high.now.number }
    requires differ { low.now.number ≢ high.now.number }
    ensures { IsGiven var low.now.number high.now.number result worker.old worker.new }
{
    worker.recall_laws();
    take_back(worker, rt, effort);
    attempt(worker, rt, var, low, high)
}

// The node, where every slot was seen taken: after each attempt in vain more dead nodes are taken
// back.
fn insist<R: Wait>(
    worker: &mut Worker,
    rt: &R,
    var: u16,
    low: &Ref,
    high: &Ref,
) -> Result<Ref, Stop>
    requires may { MayAsk worker.old.known var low.now.number high.now.number }
    requires differ { low.now.number ≢ high.now.number }
    ensures { IsGiven var low.now.number high.now.number result worker.old worker.new }
{
    worker.recall_laws();
    match attempt_after(worker, rt, Effort::Share, var, low, high) {
        Err(Stop::NodeLimit) => {}
        made => return made,
    }
    match attempt_after(worker, rt, Effort::Turn, var, low, high) {
        Err(Stop::NodeLimit) => {}
        made => return made,
    }
    attempt_after(worker, rt, Effort::All, var, low, high)
}

/// The one node of a variable over two children: a reference of the node where there is one, else
/// of a new one in a free slot. Where both children are the same it is one of the child.
///
/// No scan is under way, the worker's first announcement word announces nothing, and nothing is
/// claimed or in hand. There is a cell, at most 2^39 names are held, the children are held or
/// constants, and `var` is a variable of the forest that is below the children's. The call may wait
/// for a stripe's lock. The error is `NodeLimit` after a collection and a whole turn in which every
/// slot was seen taken, `Memory` where a stripe's map can't grow, and `References` at 2^32 - 2
/// names held; then the same names are held as before.
pub fn mk<R: Wait>(
    worker: &mut Worker,
    rt: &R,
    var: u16,
    low: &Ref,
    high: &Ref,
) -> Result<Ref, Stop>
    requires { MayAsk worker.old.known var low.now.number high.now.number }
    ensures { IsGiven var low.now.number high.now.number result worker.old worker.new }
{
    worker.recall_laws();
    if low.number() == high.number() {
        return copy(worker, low);
    }
    match attempt(worker, rt, var, low, high) {
        Err(Stop::NodeLimit) => insist(worker, rt, var, low, high),
        made => made,
    }
}
