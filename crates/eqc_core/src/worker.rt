//! What one worker knows, as the machine stores it.
ghost use Rattle.std.specs.Prelude.{◌≡◌, OnOk, IfOk, map};
ghost use Rattle.eqc_core.specs.declared.sizes.Sizes.{Sizes as Numbers};
ghost use Rattle.eqc_core.specs.View.{grown};
ghost use Rattle.eqc_core.specs.Machine.{view_of};

mod counting;
mod making;
mod seating;
mod sharing;

use crate::multiset;
use crate::phase::{self, Phase};
use crate::table::{Hand, Table};
use eqc_tree::unpack_node;
use std::alloc::{AllocError, Global};

// The node last read, with its word.
#[derive(Clone, Copy)]
pub(crate) struct Read {
    pub(crate) name: u32,
    pub(crate) word: u64,
}

// What one worker knows. A number that is not active has an empty one.
#[derive(Drop)]
pub(crate) struct Worker {
    pub(crate) active: bool,
    // It was active, and has been joined.
    pub(crate) over: bool,
    pub(crate) number: u32,
    pub(crate) held: Vec<u32>,
    // One phase for each of its announcement words.
    pub(crate) phases: Vec<Phase>,
    pub(crate) retired: Vec<u32>,
    // The announcement word that the scan reads next, and the names that it noted.
    pub(crate) position: u64,
    pub(crate) noted: Vec<u32>,
    // A slot that was claimed and has no node yet.
    pub(crate) draft: Option<u32>,
    pub(crate) hand: Option<Hand>,
    pub(crate) read: Option<Read>,
    // The slots that its claims found taken.
    pub(crate) turn: Vec<u32>,
    // The stops that it took out of boxes, since it last won a lock.
    pub(crate) stops: Vec<u32>,
    // The next number that was never given, and those that are out or were taken in.
    pub(crate) given: u64,
    pub(crate) out: Vec<u32>,
}

impl Worker {
    ghost use Rattle.std.specs.Prelude.{◌≡◌, ◌↔◌, IsTrue, IfOk, true, false, get_or};
    ghost use Rattle.eqc_core.specs.declared.sizes.Sizes.{Sizes as Numbers};
    ghost use Rattle.eqc_core.specs.View.{fresh};
    ghost use Rattle.eqc_core.specs.Machine.{active_view, view_of, hand_view, read_view, HasInHand, HasRead, Turns};
    ghost use Rattle.eqc_core.specs.Moves.{with_held};
    ghost use Rattle.eqc_core.specs.Counting.{Knows};

    // A worker of this number, which holds these names, has these phases and knows nothing else
    // yet.
    fn seat(alloc: Global, number: u32, held: Vec<u32>, phases: Vec<Phase>, given: u64) -> Worker
        ensures active { result.active ≡ true }
        ensures view { (z : Numbers) → active_view z result ≡ record (fresh z number) { held = held.items; phases = phases.items; given = given } }
    {
        Worker {
            active: true,
            over: false,
            number,
            held,
            phases,
            retired: Vec::new(alloc),
            position: 0,
            noted: Vec::new(alloc),
            draft: None,
            hand: None,
            read: None,
            turn: Vec::new(alloc),
            stops: Vec::new(alloc),
            given,
            out: Vec::new(alloc),
        }
    }

    // A number that has no worker: it was never active, or was joined.
    pub(crate) fn absent(alloc: Global, over: bool) -> Worker
        ensures active { result.active ≡ false }
        ensures over { result.over ≡ over }
    {
        let mut worker = Worker::seat(alloc, 0, Vec::new(alloc), Vec::new(alloc), 0);
        worker.active = false;
        worker.over = over;
        worker
    }

    // A worker with so many announcement words that was just split off.
    pub(crate) fn fresh(alloc: Global, number: u32, words: u32) -> Result<Worker, AllocError>
        ensures active { IfOk result (λ w. w.active ≡ true) }
        ensures view { IfOk result (λ w. (z : Numbers) → z.announcements ≡ words → active_view z w ≡ fresh z number) }
    {
        let phases = phase::idle(alloc, words)?;
        Ok(Worker::seat(alloc, number, Vec::new(alloc), phases, 0))
    }

    // Worker 0 as a run begins, with so many announcement words, which holds these names.
    pub(crate) fn first(alloc: Global, held: Vec<u32>, words: u32) -> Result<Worker, AllocError>
        ensures active { IfOk result (λ w. w.active ≡ true) }
        ensures view { IfOk result (λ w. (z : Numbers) → z.announcements ≡ words → active_view z w ≡ record (fresh z 0) { held = held.items; given = 1 }) }
    {
        let phases = phase::idle(alloc, words)?;
        Ok(Worker::seat(alloc, 0, held, phases, 1))
    }

    // The phase of the k-th announcement word; one that isn't there is idle.
    pub(crate) fn phase_at(&self, k: u32) -> Phase
        ensures { result ≡ get_or self.now.phases.items k Phase.Idle }
    {
        match self.phases.get(k as usize) {
            Some(phase) => *phase,
            None => Phase::Idle,
        }
    }

    // Whether it knows that the slot stays.
    fn knows(&self, x: u32) -> bool
        ensures { (z : Numbers) → IsTrue result ↔ Knows (active_view z self.now) x }
    {
        if multiset::is_among(&self.held, x) {
            return true;
        }
        if phase::any_confirms(&self.phases, x) {
            return true;
        }
        if self.has_in_hand(x) {
            return true;
        }
        self.has_read(x)
    }

    // Whether the stripe in hand has the slot.
    pub(crate) fn has_in_hand(&self, x: u32) -> bool
        ensures { IsTrue result ↔ HasInHand (hand_view self.now.hand) x }
    {
        match &self.hand {
            Some(hand) => hand.table.has_slot(x),
            None => false,
        }
    }

    // Whether the slot is a child of the node last read.
    #[tactic(auto, unfolding(crate::specs::Words::low_of, crate::specs::Words::high_of))]
    fn has_read(&self, x: u32) -> bool
        ensures { IsTrue result ↔ HasRead (read_view self.now.read) x }
    {
        match self.read {
            Some(read) => {
                let (_, low, high) = unpack_node(read.word);
                multiset::is_among(&[low, high], x)
            }
            None => false,
        }
    }

    // The node last read is forgotten where its name is held no more.
    pub(crate) fn forget(&mut self)
        ensures { Turns self.old self.new (λ v. with_held v v.held) }
    {
        if let Some(read) = self.read {
            if !multiset::is_among(&self.held, read.name) {
                self.read = None;
            }
        }
    }

    // The stripe in hand, in memory of its own.
    fn copy_hand(&self, alloc: Global) -> Result<Option<Hand>, AllocError>
        ensures { IfOk result (λ h. hand_view h ≡ hand_view self.now.hand) }
    {
        match &self.hand {
            Some(hand) => {
                let table = hand.table.copy(alloc)?;
                Ok(Some(Hand {
                    stripe: hand.stripe,
                    table,
                }))
            }
            None => Ok(None),
        }
    }

    // The same worker, in memory of its own.
    pub(crate) fn copy(&self, alloc: Global) -> Result<Worker, AllocError>
        ensures { IfOk result (λ w. (z : Numbers) → view_of z w ≡ view_of z self.now) }
    {
        Ok(Worker {
            active: self.active,
            over: self.over,
            number: self.number,
            held: multiset::copy(alloc, &self.held)?,
            phases: phase::copy(alloc, &self.phases)?,
            retired: multiset::copy(alloc, &self.retired)?,
            position: self.position,
            noted: multiset::copy(alloc, &self.noted)?,
            draft: self.draft,
            hand: self.copy_hand(alloc)?,
            read: self.read,
            turn: multiset::copy(alloc, &self.turn)?,
            stops: multiset::copy(alloc, &self.stops)?,
            given: self.given,
            out: multiset::copy(alloc, &self.out)?,
        })
    }
}

// Gives each number below n a place.
pub(crate) fn grow(workers: &mut Vec<Worker>, alloc: Global, n: usize) -> Result<(), AllocError>
    ensures { OnOk result ((z : Numbers) → map (view_of z) workers.new.items ≡ grown (map (view_of z) workers.old.items) n) }
{
    'short: while workers.len() < n {
        workers.push(Worker::absent(alloc, false))?;
    }
    Ok(())
}

// The same workers, in memory of their own.
pub(crate) fn copy_all(alloc: Global, workers: &[Worker]) -> Result<Vec<Worker>, AllocError>
    ensures { IfOk result (λ v. (z : Numbers) → map (view_of z) v.items ≡ map (view_of z) workers.now) }
{
    let mut copies = Vec::new(alloc);
    for worker in workers {
        let copy = worker.copy(alloc)?;
        copies.push(copy)?;
    }
    Ok(copies)
}
