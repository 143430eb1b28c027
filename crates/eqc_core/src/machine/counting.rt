//! Steps on counts, announcements and cells that are allowed, and those by which numbers are given
//! and taken in.

use crate::machine::Machine;
use crate::worker::{self, Worker};
use std::alloc::{AllocError, Global};
use std::mem;

impl Machine {
    ghost use Rattle.std.specs.Prelude.{◌≡◌, ◌<◌, OnOk};
    ghost use Rattle.eqc_core.specs.declared.event.Step.TheVariants.{Announce, Look, Recheck, Up, Down, SwapCell, ScanOne, Split, Join};
    ghost use Rattle.eqc_core.specs.Machine.{state_of, IsTurn};
    ghost use Rattle.eqc_core.specs.Run.{after, May};
    ghost use Rattle.eqc_core.specs.View.{view_at, phase_at};
    ghost use Rattle.eqc_core.specs.Announcing.{announced_cell};

    pub(crate) fn look(&mut self, id: usize, k: u32, c: u32)
        requires turn { IsTurn self.old id }
        requires may { May (state_of self.old) (view_at (state_of self.old).views id) (Look k c) }
        ensures { state_of self.new ≡ after (state_of self.old) (record { worker = id; step = Look k c }) }
    {
        let found = self.cells[c as usize];
        let worker = &mut self.workers[id];
        worker.look(k, c, found);
    }

    pub(crate) fn announce(&mut self, id: usize, k: u32, x: u32)
        requires turn { IsTurn self.old id }
        requires may { May (state_of self.old) (view_at (state_of self.old).views id) (Announce k x) }
        ensures { state_of self.new ≡ after (state_of self.old) (record { worker = id; step = Announce k x }) }
    {
        let place = self.sizes.word_at(id as u32, k);
        let worker = &mut self.workers[id];
        worker.announce(k);
        self.announced[place as usize] = x;
    }

    fn recheck(&mut self, id: usize, k: u32, c: u32)
        requires turn { IsTurn self.old id }
        requires word { k < self.old.sizes.announcements }
        requires cell { c ≡ announced_cell (phase_at (view_at (state_of self.old).views id) k) }
        requires there { c < self.old.sizes.cells }
        ensures { state_of self.new ≡ after (state_of self.old) (record { worker = id; step = Recheck k }) }
    {
        let found = self.cells[c as usize];
        let worker = &mut self.workers[id];
        worker.recheck(k, found);
    }

    pub(crate) fn up(&mut self, id: usize, x: u32) -> Result<(), AllocError>
        requires turn { IsTurn self.old id }
        requires may { May (state_of self.old) (view_at (state_of self.old).views id) (Up x) }
        ensures { OnOk result (state_of self.new ≡ after (state_of self.old) (record { worker = id; step = Up x })) }
    {
        let worker = &mut self.workers[id];
        worker.up(x)?;
        self.counts[x as usize] += 1;
        Ok(())
    }

    pub(crate) fn down(&mut self, id: usize, x: u32)
        requires turn { IsTurn self.old id }
        requires may { May (state_of self.old) (view_at (state_of self.old).views id) (Down x) }
        ensures { state_of self.new ≡ after (state_of self.old) (record { worker = id; step = Down x }) }
    {
        let worker = &mut self.workers[id];
        worker.down(x);
        self.counts[x as usize] -= 1;
    }

    pub(crate) fn swap_cell(
        &mut self,
        alloc: Global,
        id: usize,
        c: u32,
        word: u64,
    ) -> Result<(), AllocError>
        requires turn { IsTurn self.old id }
        requires may { May (state_of self.old) (view_at (state_of self.old).views id) (SwapCell c word) }
        ensures { OnOk result (state_of self.new ≡ after (state_of self.old) (record { worker = id; step = SwapCell c word })) }
    {
        let old = self.cells[c as usize];
        let worker = &mut self.workers[id];
        worker.swap_cell(alloc, old, word)?;
        self.cells[c as usize] = word;
        Ok(())
    }

    pub(crate) fn scan_one(&mut self, alloc: Global, id: usize) -> Result<(), AllocError>
        requires { IsTurn self.old id }
        ensures { OnOk result (state_of self.new ≡ after (state_of self.old) (record { worker = id; step = ScanOne })) }
    {
        let sizes = self.sizes;
        let position = self.workers[id].position;
        let name = self.announced[position as usize];
        let worker = &mut self.workers[id];
        worker.scan(alloc, sizes, name)?;
        Ok(())
    }

    pub(crate) fn split(&mut self, alloc: Global, id: usize, to: u32) -> Result<(), AllocError>
        requires turn { IsTurn self.old id }
        requires may { May (state_of self.old) (view_at (state_of self.old).views id) (Split to) }
        ensures { OnOk result (state_of self.new ≡ after (state_of self.old) (record { worker = id; step = Split to })) }
    {
        worker::grow(&mut self.workers, alloc, to as usize + 1)?;
        let fresh = Worker::fresh(alloc, to, self.sizes.announcements)?;
        self.workers[to as usize] = fresh;
        let worker = &mut self.workers[id];
        worker.split_off(to)?;
        Ok(())
    }

    pub(crate) fn join(&mut self, alloc: Global, id: usize, from: u32) -> Result<(), AllocError>
        requires turn { IsTurn self.old id }
        requires may { May (state_of self.old) (view_at (state_of self.old).views id) (Join from) }
        ensures { OnOk result (state_of self.new ≡ after (state_of self.old) (record { worker = id; step = Join from })) }
    {
        let other = mem::replace(
            &mut self.workers[from as usize],
            Worker::absent(alloc, true),
        );
        let worker = &mut self.workers[id];
        worker.join(from, &other)?;
        Ok(())
    }

    // A second look at the cell whose result the k-th announcement word has.
    pub(crate) fn recheck_own(&mut self, id: usize, k: u32)
        requires turn { IsTurn self.old id }
        requires may { May (state_of self.old) (view_at (state_of self.old).views id) (Recheck k) }
        ensures { state_of self.new ≡ after (state_of self.old) (record { worker = id; step = Recheck k }) }
    {
        let phase = self.workers[id].phase_at(k);
        if let Some(c) = phase.cell() {
            self.recheck(id, k, c);
        }
    }
}
