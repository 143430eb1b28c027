//! Steps on boxes that are allowed.

use crate::machine::Machine;
use std::alloc::{AllocError, Global};

impl Machine {
    ghost use Rattle.std.specs.Prelude.{◌≡◌, OnOk};
    ghost use Rattle.eqc_core.specs.declared.event.Step.TheVariants.{SwapBox, LookBox};
    ghost use Rattle.eqc_core.specs.Machine.{state_of, IsTurn};
    ghost use Rattle.eqc_core.specs.Run.{after, May};
    ghost use Rattle.eqc_core.specs.View.{view_at};

    pub(crate) fn swap_box(
        &mut self,
        alloc: Global,
        id: usize,
        b: u32,
        word: u64,
    ) -> Result<(), AllocError>
        requires turn { IsTurn self.old id }
        requires may { May (state_of self.old) (view_at (state_of self.old).views id) (SwapBox b word) }
        ensures { OnOk result (state_of self.new ≡ after (state_of self.old) (record { worker = id; step = SwapBox b word })) }
    {
        let old = self.boxes[b as usize];
        let worker = &mut self.workers[id];
        worker.swap_box(alloc, old, word)?;
        self.boxes[b as usize] = word;
        Ok(())
    }

    // A look at a box changes nothing.
    pub(crate) fn look_box(&mut self, id: usize, b: u32)
        requires { IsTurn self.old id }
        ensures { state_of self.new ≡ after (state_of self.old) (record { worker = id; step = LookBox b }) }
    {}
}
