//! Dead nodes are taken back.
ghost use Rattle.std.specs.Prelude.{◌≡◌, ℕ, ◌^◌, ◌<◌, ◌≤◌, [], ◌∷◌, length, if◌then◌else◌};
ghost use Rattle.eqc_core.specs.Words.{slots_of};
ghost use Rattle.eqc_core.specs.Moves.{IsReady};
ghost use Rattle.eqc_guard.specs.Known.{IsHeld};
ghost use Rattle.eqc_guard.specs.Locking.{MayHome};
ghost use Rattle.eqc_arena.specs.Changing.{MayBegin, Changes, Exchanges};
ghost use Rattle.eqc_arena.specs.Taking.{GivesChild, TriesEntry, TriesStripe, TriesAll, TakesMore, HomesStill};
ghost use Rattle.eqc_arena.specs.Emptying.{MayEmpty, HasNoCounts};

use crate::making::stripe_for;
use arrayvec::ArrayVec;
use eqc_guard::reference::Ref;
use eqc_guard::worker::Worker;
use eqc_tree::unpack_node;
use indexmap::IndexMap;
use std::sync::Wait;

// Each turn takes at least the nodes of the least variable back, so that these turns, as many as a
// node's word has room for variables, empty every forest.
const TURNS: u32 = 65_536;

// How many words of fallen nodes are tried at most between two stripes of a turn: as many as there
// can be nodes. What is left then is tried after the next stripe.
const MOST_TRIES: u32 = 1 << 20;

// Words of nodes that fell to one owner, which may be their table, in stripes that the turn has
// passed: in the others it finds them itself.
#[derive(Drop)]
pub(crate) struct Fallen {
    words: ArrayVec<u64, 4096>,
    // The stripe with which the turn begins.
    first: u32,
    // How many stripes the turn has passed, beside the one in which it is.
    pub(crate) passed: u32,
}

impl Fallen {
    // None yet, in a turn that begins with this stripe.
    pub(crate) fn new(first: u32) -> Fallen {
        Fallen {
            words: ArrayVec::new(),
            first: first % 16,
            passed: 0,
        }
    }

    // The stripe in which the turn is.
    pub(crate) fn stripe(&self) -> u32
        ensures { result < 16 }
    {
        self.first.wrapping_add(self.passed) % 16
    }

    // Keeps the word of a node whose count fell from this. Where there is no room, it waits for
    // another turn.
    fn note(&mut self, word: u64, owners: u64) {
        if owners != 2 {
            return;
        }
        let (var, low, high) = unpack_node(word);
        let stripe = stripe_for(var, low, high);
        if stripe.wrapping_sub(self.first) % 16 <= self.passed {
            let _full = self.words.try_push(word);
        }
    }
}

// Gives a child of a node that was taken back.
fn give_child(worker: &mut Worker, fallen: &mut Fallen, child: Ref)
    requires ready { IsReady worker.old.known.core }
    requires held { IsHeld worker.old.known.core child.number }
    ensures gives { Exchanges (slots_of (child.number ∷ [])) [] worker.old worker.new }
    ensures tries { GivesChild child.number worker.old worker.new }
{
    worker.recall_laws();
    if child.number() < 2 {
        worker.down(child);
        return;
    }
    let word = worker.read_node(&child);
    let owners = worker.down_from(child);
    fallen.note(word, owners);
}

// Tries to take the node of the i-th entry back, and says whether it was. Its children are given
// back then: they may be dead in turn.
fn try_entry(
    worker: &mut Worker,
    map: &mut IndexMap<u64, u32>,
    i: usize,
    fallen: &mut Fallen,
) -> bool
    requires home { (s : ℕ) × MayHome worker.old.known.core s map.old.entries }
    requires within { i < length map.old.entries }
    requires room { length worker.old.known.core.held ≤ 2 ^ 39 }
    ensures home { HomesStill map.old.entries map.new.entries worker.old worker.new }
    ensures left { i ≤ length map.new.entries }
    ensures changes { Changes [] [] worker.new.known.core.hand worker.old.known.core.draft worker.old worker.new }
    ensures tries { TriesEntry i map.old.entries map.new.entries (if result then 1 else 0) worker.old worker.new }
    ensures takes { TakesMore (if result then 1 else 0) worker.old worker.new }
{
    worker.recall_laws();
    let Some((word, slot)) = map.get_index(i) else {
        unreachable!();
    };
    let (word, slot) = (*word, *slot);
    let Some((low, high)) = worker.reclaim(slot, word) else {
        return false;
    };
    let _entry = map.swap_remove_index(i);
    give_child(worker, fallen, low);
    give_child(worker, fallen, high);
    true
}

// Takes the dead nodes of a stripe back, and gives their number. The last entry is tried first:
// what takes the place of an entry that went has been tried.
pub(crate) fn take_stripe<R: Wait>(
    worker: &mut Worker,
    rt: &R,
    stripe: u32,
    fallen: &mut Fallen,
) -> u32
    requires rest { MayBegin worker.old.known.core }
    requires stripe { stripe < 16 }
    requires room { length worker.old.known.core.held ≤ 2 ^ 39 }
    ensures few { result ≤ 2 ^ 20 }
    ensures changes { Exchanges [] [] worker.old worker.new }
    ensures tries { TriesStripe stripe result worker.old worker.new }
{
    worker.recall_laws();
    let mut map = worker.lock_stripe(rt, stripe);
    let mut taken = 0u32;
    for i in (0..map.len()).rev() {
        if try_entry(worker, &mut map, i, fallen) {
            taken += 1;
        }
    }
    worker.unlock_stripe(stripe, map);
    taken
}

// Tries to take the node of a word back, where its stripe's map has the word: it may have been
// taken back since its count fell, and made anew.
fn take_word<R: Wait>(worker: &mut Worker, rt: &R, word: u64, fallen: &mut Fallen) -> bool
    requires rest { MayBegin worker.old.known.core }
    requires room { length worker.old.known.core.held ≤ 2 ^ 39 }
    ensures changes { Exchanges [] [] worker.old worker.new }
    ensures takes { TakesMore (if result then 1 else 0) worker.old worker.new }
{
    worker.recall_laws();
    let (var, low, high) = unpack_node(word);
    let stripe = stripe_for(var, low, high);
    let mut map = worker.lock_stripe(rt, stripe);
    let Some(i) = map.get_index_of(&word) else {
        worker.unlock_stripe(stripe, map);
        return false;
    };
    let taken = try_entry(worker, &mut map, i, fallen);
    worker.unlock_stripe(stripe, map);
    taken
}

// Tries the fallen nodes, the last one first, and gives how many were taken back. Their children
// come behind them, so that there are few at a time: as many as a path has nodes, and some.
pub(crate) fn take_fallen<R: Wait>(worker: &mut Worker, rt: &R, fallen: &mut Fallen) -> u32
    requires rest { MayBegin worker.old.known.core }
    requires room { length worker.old.known.core.held ≤ 2 ^ 39 }
    ensures few { result ≤ 2 ^ 20 }
    ensures changes { Exchanges [] [] worker.old worker.new }
    ensures takes { TakesMore result worker.old worker.new }
{
    worker.recall_laws();
    let mut taken = 0u32;
    for _try in 0..MOST_TRIES {
        let Some(word) = fallen.words.pop() else {
            break;
        };
        if take_word(worker, rt, word, fallen) {
            taken += 1;
        }
    }
    taken
}

// Makes one turn over all stripes, and gives how many nodes were taken back. After each stripe it
// goes on with the nodes that fell.
fn turn<R: Wait>(worker: &mut Worker, rt: &R, fallen: &mut Fallen) -> u32
    requires rest { MayBegin worker.old.known.core }
    requires room { length worker.old.known.core.held ≤ 2 ^ 39 }
    ensures changes { Exchanges [] [] worker.old worker.new }
    ensures tries { TriesAll result worker.old worker.new }
{
    worker.recall_laws();
    let mut taken = 0u32;
    for stripe in 0..16u32 {
        fallen.passed = stripe;
        taken += take_stripe(worker, rt, stripe, fallen);
        taken += take_fallen(worker, rt, fallen);
    }
    taken
}

/// Empties all cells, and takes dead nodes back, in turns over all stripes, until there are none.
/// Within a turn it goes on with the children that fell to one owner. It gives how many nodes were
/// taken back, 2^32 - 1 at most.
///
/// No scan is under way, the worker's first announcement word announces nothing, and nothing is
/// claimed or in hand. There is a cell, and at most 2^39 names are held. The worker holds what it
/// held. Where it is alone, holds nothing, none of its announcement words but the first announces a
/// name and all boxes are empty, no slot has a count above 0 then.
#[inline(never)]
pub fn collect<R: Wait>(worker: &mut Worker, rt: &R) -> u32
    requires rest { MayBegin worker.old.known.core }
    requires cells { 0 < worker.old.known.core.sizes.cells }
    requires room { length worker.old.known.core.held ≤ 2 ^ 39 }
    ensures changes { Exchanges [] [] worker.old worker.new }
    ensures empty { MayEmpty worker.old.known → HasNoCounts worker.new.known }
{
    worker.recall_laws();
    eqc_cache::storing::clear(worker);
    worker.scan();
    let mut fallen = Fallen::new(0);
    let mut all = 0u32;
    for _turn in 0..TURNS {
        let taken = turn(worker, rt, &mut fallen);
        all = all.saturating_add(taken);
        if taken == 0 {
            break;
        }
    }
    all
}
