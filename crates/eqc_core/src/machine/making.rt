//! Steps on stripes, drafts and nodes that are allowed.

use crate::homes::{put_home, take_home};
use crate::machine::Machine;
use eqc_tree::pack_node;
use std::alloc::{AllocError, Global};

impl Machine {
    ghost use Rattle.std.specs.Prelude.{◌≡◌, OnOk, true, false};
    ghost use Rattle.eqc_core.specs.declared.event.Step.TheVariants.{Lock, Unlock, Claim, Unclaim, WriteNode, ReadNode, Reclaim};
    ghost use Rattle.eqc_core.specs.Machine.{state_of, IsTurn};
    ghost use Rattle.eqc_core.specs.Run.{after, May};
    ghost use Rattle.eqc_core.specs.View.{view_at};

    pub(crate) fn lock(&mut self, alloc: Global, id: usize, i: u32, won: bool)
        requires turn { IsTurn self.old id }
        requires may { May (state_of self.old) (view_at (state_of self.old).views id) (Lock i won) }
        ensures { state_of self.new ≡ after (state_of self.old) (record { worker = id; step = Lock i won }) }
    {
        if !won {
            return;
        }
        self.win_lock(alloc, id, i);
    }

    fn win_lock(&mut self, alloc: Global, id: usize, i: u32)
        requires turn { IsTurn self.old id }
        requires may { May (state_of self.old) (view_at (state_of self.old).views id) (Lock i true) }
        ensures { state_of self.new ≡ after (state_of self.old) (record { worker = id; step = Lock i true }) }
    {
        let table = take_home(&mut self.homes, alloc, i);
        let worker = &mut self.workers[id];
        worker.lock(alloc, i, table);
        self.locks[i as usize] = 1;
    }

    pub(crate) fn unlock(&mut self, alloc: Global, id: usize, i: u32)
        requires turn { IsTurn self.old id }
        requires may { May (state_of self.old) (view_at (state_of self.old).views id) (Unlock i) }
        ensures { state_of self.new ≡ after (state_of self.old) (record { worker = id; step = Unlock i }) }
    {
        let worker = &mut self.workers[id];
        let table = worker.unlock(alloc);
        put_home(&mut self.homes, i, table);
        self.locks[i as usize] = 0;
    }

    pub(crate) fn claim(
        &mut self,
        alloc: Global,
        id: usize,
        x: u32,
        won: bool,
    ) -> Result<(), AllocError>
        requires turn { IsTurn self.old id }
        requires may { May (state_of self.old) (view_at (state_of self.old).views id) (Claim x won) }
        ensures { OnOk result (state_of self.new ≡ after (state_of self.old) (record { worker = id; step = Claim x won })) }
    {
        if won {
            self.win_claim(alloc, id, x);
            return Ok(());
        }
        self.lose_claim(id, x)
    }

    fn win_claim(&mut self, alloc: Global, id: usize, x: u32)
        requires turn { IsTurn self.old id }
        requires may { May (state_of self.old) (view_at (state_of self.old).views id) (Claim x true) }
        ensures { state_of self.new ≡ after (state_of self.old) (record { worker = id; step = Claim x true }) }
    {
        let worker = &mut self.workers[id];
        worker.claim(alloc, x);
        self.counts[x as usize] = 2;
    }

    fn lose_claim(&mut self, id: usize, x: u32) -> Result<(), AllocError>
        requires turn { IsTurn self.old id }
        requires may { May (state_of self.old) (view_at (state_of self.old).views id) (Claim x false) }
        ensures { OnOk result (state_of self.new ≡ after (state_of self.old) (record { worker = id; step = Claim x false })) }
    {
        let worker = &mut self.workers[id];
        worker.find_taken(x)?;
        Ok(())
    }

    pub(crate) fn unclaim(&mut self, id: usize)
        requires turn { IsTurn self.old id }
        requires may { May (state_of self.old) (view_at (state_of self.old).views id) Unclaim }
        ensures { state_of self.new ≡ after (state_of self.old) (record { worker = id; step = Unclaim }) }
    {
        let worker = &mut self.workers[id];
        let d = worker.unclaim();
        self.counts[d as usize] = 0;
    }

    pub(crate) fn write_node(
        &mut self,
        alloc: Global,
        id: usize,
        variable: u16,
        low: u32,
        high: u32,
    ) -> Result<(), AllocError>
        requires turn { IsTurn self.old id }
        requires may { May (state_of self.old) (view_at (state_of self.old).views id) (WriteNode variable low high) }
        ensures { OnOk result (state_of self.new ≡ after (state_of self.old) (record { worker = id; step = WriteNode variable low high })) }
    {
        let worker = &mut self.workers[id];
        let d = worker.write(alloc, variable, low, high)?;
        self.nodes[d as usize] = pack_node(variable, low, high);
        Ok(())
    }

    pub(crate) fn read_node(&mut self, id: usize, x: u32)
        requires turn { IsTurn self.old id }
        requires may { May (state_of self.old) (view_at (state_of self.old).views id) (ReadNode x) }
        ensures { state_of self.new ≡ after (state_of self.old) (record { worker = id; step = ReadNode x }) }
    {
        let word = self.nodes[x as usize];
        let worker = &mut self.workers[id];
        worker.read(x, word);
    }

    pub(crate) fn reclaim(&mut self, alloc: Global, id: usize, x: u32) -> Result<(), AllocError>
        requires turn { IsTurn self.old id }
        requires may { May (state_of self.old) (view_at (state_of self.old).views id) (Reclaim x) }
        ensures { OnOk result (state_of self.new ≡ after (state_of self.old) (record { worker = id; step = Reclaim x })) }
    {
        let word = self.nodes[x as usize];
        let worker = &mut self.workers[id];
        worker.reclaim(alloc, x, word)?;
        self.counts[x as usize] = 0;
        Ok(())
    }
}
