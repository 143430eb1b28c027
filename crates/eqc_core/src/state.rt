//! A state of the machine, as callers have it.

use crate::machine::Machine;
use crate::playback::ReplayFault;
use crate::{multiset, stock};
use std::alloc::Global;
use std::marker::Model;

// The most of each that a replay takes.
const MOST_WORKERS: u32 = 8;

const MOST_NODES: u32 = 16;

const MOST_CELLS: u32 = 16;

/// A state of the machine: the words, and what each worker knows.
#[derive(Drop)]
pub struct Core {
    pub(crate) machine: Machine,
}

impl Model for Core {
    ghost use Rattle.std.specs.Prelude.{◌≡◌};
    ghost use Rattle.eqc_core.specs.State.{State};

    ghost Value = { State };

    ghost use Rattle.eqc_core.specs.Machine.{state_of, IsKept};

    ghost view = { λ m. state_of m.machine };

    ghost invariant = { λ m. IsKept m.machine };
}

impl Core {
    ghost use Rattle.std.specs.Prelude.{◌≡◌, ◌<◌, IfOk, IfErr, slice_index};
    ghost use Rattle.eqc_core.specs.View.{view_at};
    ghost use Rattle.eqc_core.specs.Words.{times, word_at};
    ghost use Rattle.eqc_core.specs.State.{stocked};
    ghost use Rattle.eqc_core.specs.Replay.{IsSmall, NoStock};

    /// A forest in which the literal of each variable i below `nodes` has the slot 2 + i.
    ///
    /// Each slot has the count 2, one for its table and one for worker 0, which holds it and is
    /// the only one that is active. All cells and announcements are 0. There may be 1 to 8
    /// workers, 1 to 16 nodes and 1 to 16 cells: else the answer is `Size`, before any memory is
    /// asked for. Want of memory is `Memory`.
    pub fn stocked(alloc: Global, workers: u32, nodes: u32, cells: u32) -> Result<Core, ReplayFault>
        ensures ok { IfOk result (λ core. core ≡ stocked workers nodes cells) }
        ensures small { IfOk result (λ core. IsSmall workers nodes cells) }
        ensures err { IfErr result (λ fault. NoStock workers nodes cells fault) }
    {
        if workers < 1 || workers > MOST_WORKERS {
            return Err(ReplayFault::Size);
        }
        if nodes < 1 || nodes > MOST_NODES {
            return Err(ReplayFault::Size);
        }
        if cells < 1 || cells > MOST_CELLS {
            return Err(ReplayFault::Size);
        }
        match stock::stock(alloc, workers, nodes, cells) {
            Ok(machine) => Ok(Core { machine }),
            Err(_) => Err(ReplayFault::Memory),
        }
    }

    /// The count of a slot, which is 2 or more and there.
    pub fn count(&self, x: u32) -> u64
        requires { x < self.now.sizes.names }
        ensures { result ≡ slice_index self.now.words.counts x }
    {
        self.machine.counts[x as usize]
    }

    /// The word of a cell that is there.
    pub fn cell(&self, c: u32) -> u64
        requires { c < self.now.sizes.cells }
        ensures { result ≡ slice_index self.now.words.cells c }
    {
        self.machine.cells[c as usize]
    }

    /// What a worker, whose number is below the number of workers, announces by its k-th
    /// announcement word, counted from 0; 0 is nothing.
    pub fn announced(&self, worker: u32, k: u32) -> u64
        requires worker { worker < self.now.sizes.workers }
        requires word { k < self.now.sizes.announcements }
        ensures { result ≡ slice_index self.now.words.announced (word_at self.now.sizes worker k) }
    {
        let place = self.machine.sizes.word_at(worker, k);
        u64::from(self.machine.announced[place as usize])
    }

    /// How often a worker holds this slot.
    pub fn held(&self, worker: u32, x: u32) -> u64
        requires worker { worker < self.now.sizes.workers }
        requires slot { x < self.now.sizes.names }
        ensures { result ≡ times x (view_at self.now.views worker).held }
    {
        match self.machine.active(worker) {
            Some(worker) => multiset::count(&worker.held, x) as u64,
            None => 0,
        }
    }

    /// How often a worker has this slot retired.
    pub fn retired(&self, worker: u32, x: u32) -> u64
        requires worker { worker < self.now.sizes.workers }
        requires slot { x < self.now.sizes.names }
        ensures { result ≡ times x (view_at self.now.views worker).retired }
    {
        match self.machine.active(worker) {
            Some(worker) => multiset::count(&worker.retired, x) as u64,
            None => 0,
        }
    }
}
