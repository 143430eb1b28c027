//! The operation cache that all workers share: results that others came by.
ghost use Rattle.std.specs.Prelude.{◌≡◌, IfOk, IfSome, IfErr};
ghost use Rattle.eqc_guard.specs.Known.{IsHeld};
ghost use Rattle.eqc_apply.specs.Combining.{IsResult};
ghost use Rattle.eqc_apply.specs.Extending.{Extends};

use crate::held::{Held, settle};
use eqc_cache::finding::lookup;
use eqc_cache::storing::store;
use eqc_tree::{Op, Stop};

impl Held {
    /// Whether there are other workers: what one of them finds in the shared cells, a worker that
    /// is alone has in its own.
    pub(crate) fn has_others(&self) -> bool {
        self.worker.workers() > 1
    }

    /// The result of an operation, where the shared cells have it. It is held then. The error is
    /// `Stop::Memory` alone, and then nothing was found.
    pub(crate) fn look_up(&mut self, op: Op, f: u32, g: u32) -> Result<Option<u32>, Stop>
        requires f { IsHeld self.old.worker.known.core f }
        requires g { IsHeld self.old.worker.known.core g }
        ensures names { Extends self.old self.new }
        ensures ok { IfOk result (λ found. IfSome found (IsResult self.new.variables op self.new.worker.known f g)) }
        ensures only { IfErr result (λ s. s ≡ Stop.Memory) }
    {
        self.worker.recall_laws();
        let first = self.worker.reference(f);
        let second = self.worker.reference(g);
        let hit = lookup(&mut self.worker, op, &first, &second);
        let _first = first.into_number();
        let _second = second.into_number();
        let Some(name) = hit else {
            return Ok(None);
        };
        let x = settle(&mut self.worker, &mut self.counts, name)?;
        Ok(Some(x))
    }

    /// Puts a result into the shared cells.
    pub(crate) fn share(&mut self, op: Op, f: u32, g: u32, x: u32)
        requires { IsResult self.old.variables op self.old.worker.known f g x }
        ensures names { Extends self.old self.new }
    {
        self.worker.recall_laws();
        let first = self.worker.reference(f);
        let second = self.worker.reference(g);
        let found = self.worker.reference(x);
        store(&mut self.worker, op, &first, &second, &found);
        let _first = first.into_number();
        let _second = second.into_number();
        let _found = found.into_number();
    }
}
