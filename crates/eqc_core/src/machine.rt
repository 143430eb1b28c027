//! The words and the workers, as stored, and the steps on them.
ghost use Rattle.std.specs.Prelude.{◌≡◌, IfOk};

mod allowing;
mod counting;
mod making;
mod sharing;

use crate::event::{Event, Step};
use crate::homes::copy_homes;
use crate::multiset;
use crate::sizes::Sizes;
use crate::table::Table;
use crate::worker::{self, Worker};
use std::alloc::{AllocError, Global};

// The most names that a worker may hold after a step, so that no count wraps.
const MOST_HELD: usize = 1 << 40;

// The words, the tables at home, and what each worker knows.
#[derive(Drop)]
pub(crate) struct Machine {
    pub(crate) sizes: Sizes,
    pub(crate) announced: Vec<u32>,
    pub(crate) counts: Vec<u64>,
    pub(crate) nodes: Vec<u64>,
    pub(crate) cells: Vec<u64>,
    pub(crate) boxes: Vec<u64>,
    pub(crate) locks: Vec<u64>,
    // The stripes' tables; one that is in a hand is out.
    pub(crate) homes: Vec<Option<Table>>,
    pub(crate) workers: Vec<Worker>,
}

impl Machine {
    ghost use Rattle.std.specs.Prelude.{◌≡◌, ◌≤◌, ◌^◌, ◌↔◌, [], OnOk, IfOk, IfSome, None, IsTrue, length};
    ghost use Rattle.eqc_core.specs.Machine.{state_of, active_view, IsKept, IsTurn, Stands, Takes};
    ghost use Rattle.eqc_core.specs.Run.{after, May};
    ghost use Rattle.eqc_core.specs.View.{view_at};

    // Whether this worker, which is active, may take the step.
    fn worker_may(&self, worker: &Worker, step: Step) -> bool
        requires kept { IsKept self.now }
        requires stands { Stands self.now (active_view self.now.sizes worker.now) }
        ensures { IsTrue result ↔ May (state_of self.now) (active_view self.now.sizes worker.now) step }
    {
        match step {
            Step::Split(to) => self.may_split(worker, to),
            Step::Join(from) => self.may_join(worker, from),
            Step::Announce(k, x) => worker.may_announce(self.sizes, k, x),
            Step::Look(k, c) => worker.may_look(self.sizes, k, c),
            Step::Recheck(k) => worker.may_recheck(self.sizes, k),
            Step::Up(x) => worker.may_up(self.sizes, x),
            Step::Down(x) => worker.may_down(self.sizes, x),
            Step::SwapCell(c, word) => self.may_swap(worker, c, word),
            Step::ScanOne => worker.may_scan(self.sizes),
            Step::Lock(i, won) => self.may_lock(worker, i, won),
            Step::Unlock(i) => worker.may_unlock(self.sizes, i),
            Step::Claim(x, won) => self.may_claim(worker, x, won),
            Step::Unclaim => worker.may_unclaim(self.sizes),
            Step::WriteNode(v, low, high) => self.may_write(worker, v, low, high),
            Step::ReadNode(x) => worker.may_read(self.sizes, x),
            Step::Reclaim(x) => self.may_reclaim(worker, x),
            Step::SwapBox(b, word) => self.may_swap_box(worker, b, word),
            Step::LookBox(b) => worker.may_look_box(self.sizes, b),
        }
    }

    // Whether the worker with this number, which is active, may take the step.
    fn may(&self, id: usize, step: Step) -> bool
        requires { IsTurn self.now id }
        ensures { IsTrue result ↔ May (state_of self.now) (view_at (state_of self.now).views id) step }
    {
        self.worker_may(&self.workers[id], step)
    }

    // Takes a step that is allowed.
    fn apply(&mut self, alloc: Global, id: usize, step: Step) -> Result<(), AllocError>
        requires turn { IsTurn self.old id }
        requires may { May (state_of self.old) (view_at (state_of self.old).views id) step }
        ensures { OnOk result (state_of self.new ≡ after (state_of self.old) (record { worker = id; step = step })) }
    {
        match step {
            Step::Split(to) => self.split(alloc, id, to)?,
            Step::Join(from) => self.join(alloc, id, from)?,
            Step::Announce(k, x) => self.announce(id, k, x),
            Step::Look(k, c) => self.look(id, k, c),
            Step::Recheck(k) => self.recheck_own(id, k),
            Step::Up(x) => self.up(id, x)?,
            Step::Down(x) => self.down(id, x),
            Step::SwapCell(c, word) => self.swap_cell(alloc, id, c, word)?,
            Step::ScanOne => self.scan_one(alloc, id)?,
            Step::Lock(i, won) => self.lock(alloc, id, i, won),
            Step::Unlock(i) => self.unlock(alloc, id, i),
            Step::Claim(x, won) => self.claim(alloc, id, x, won)?,
            Step::Unclaim => self.unclaim(id),
            Step::WriteNode(v, low, high) => self.write_node(alloc, id, v, low, high)?,
            Step::ReadNode(x) => self.read_node(id, x),
            Step::Reclaim(x) => self.reclaim(alloc, id, x)?,
            Step::SwapBox(b, word) => self.swap_box(alloc, id, b, word)?,
            Step::LookBox(b) => self.look_box(id, b),
        }
        Ok(())
    }

    // The worker with this number, where it is active. One that isn't owns no name.
    pub(crate) fn active(&self, id: u32) -> Option<&Worker>
        ensures some { IfSome result (λ worker. view_at (state_of self.now).views id ≡ active_view self.now.sizes worker.now) }
        ensures none { result ≡ None → ((view_at (state_of self.now).views id).held ≡ []) × ((view_at (state_of self.now).views id).retired ≡ []) }
    {
        let place = id as usize;
        if place >= self.workers.len() {
            return None;
        }
        let worker = &self.workers[place];
        if !worker.active {
            return None;
        }
        Some(worker)
    }

    // Whether the worker holds no more names than a step may leave.
    fn has_room(&self, id: u32) -> bool
        ensures { IsTrue result ↔ (length (view_at (state_of self.now).views id).held ≤ 2 ^ 40) }
    {
        match self.active(id) {
            Some(worker) => worker.held.len() <= MOST_HELD,
            None => true,
        }
    }

    // Takes the event, if it is allowed. Otherwise the machine is of no more use.
    pub(crate) fn take(&mut self, alloc: Global, event: Event) -> Result<bool, AllocError>
        requires { IsKept self.old }
        ensures { IfOk result (λ taken. Takes (state_of self.old) event (state_of self.new) taken) }
    {
        let id = event.worker as usize;
        if id >= self.workers.len() {
            return Ok(false);
        }
        if !self.workers[id].active {
            return Ok(false);
        }
        if !self.may(id, event.step) {
            return Ok(false);
        }
        self.apply(alloc, id, event.step)?;
        if !self.has_room(event.worker) {
            return Ok(false);
        }
        Ok(true)
    }

    // The same machine, in memory of its own.
    pub(crate) fn copy(&self, alloc: Global) -> Result<Machine, AllocError>
        ensures { IfOk result (λ m. state_of m ≡ state_of self.now) }
    {
        Ok(Machine {
            sizes: self.sizes,
            announced: multiset::copy(alloc, &self.announced)?,
            counts: copy_words(alloc, &self.counts)?,
            nodes: copy_words(alloc, &self.nodes)?,
            cells: copy_words(alloc, &self.cells)?,
            boxes: copy_words(alloc, &self.boxes)?,
            locks: copy_words(alloc, &self.locks)?,
            homes: copy_homes(alloc, &self.homes)?,
            workers: worker::copy_all(alloc, &self.workers)?,
        })
    }
}

// The same words, in memory of their own.
fn copy_words(alloc: Global, words: &[u64]) -> Result<Vec<u64>, AllocError>
    ensures { IfOk result (λ v. v.items ≡ words.now) }
{
    let mut all = Vec::new(alloc);
    all.extend_from_slice(words)?;
    Ok(all)
}
