//! The steps on boxes: when a worker may take them, and what it knows then.

use crate::multiset;
use crate::sizes::Sizes;
use crate::worker::Worker;
use eqc_tree::unpack_cell;
use std::alloc::{AllocError, Global};

// The operations of a box from this one on are stops.
const FIRST_STOP: u8 = 13;

impl Worker {
    ghost use Rattle.std.specs.Prelude.{◌≡◌, ◌↔◌, IsTrue, OnOk};
    ghost use Rattle.eqc_core.specs.Machine.{active_view, reads_on, Turns, MayPut};
    ghost use Rattle.eqc_core.specs.Sharing.{MayLookBox, boxed};

    pub(crate) fn may_look_box(&self, sizes: Sizes, b: u32) -> bool
        ensures { IsTrue result ↔ MayLookBox (active_view sizes self.now) b }
    {
        self.position == 0 && u64::from(b) < 16 * u64::from(sizes.workers)
    }

    // Whether it may put this word into the box, where it is a box's.
    #[tactic(auto, unfolding(crate::specs::Words::first_of, crate::specs::Words::second_of, crate::specs::Words::result_of))]
    pub(crate) fn may_put(&self, sizes: Sizes, b: u32, word: u64) -> bool
        ensures { IsTrue result ↔ MayPut (active_view sizes self.now) b word }
    {
        if !self.may_look_box(sizes, b) {
            return false;
        }
        let (_, f, g, r) = unpack_cell(word);
        multiset::are_held(&[r, f, g], &self.held)
    }

    // Gives the names of the new word away, and takes those of the old one.
    pub(crate) fn swap_box(&mut self, alloc: Global, old: u64, word: u64) -> Result<(), AllocError>
        ensures { OnOk result (Turns self.old self.new (λ v. boxed v old word)) }
    {
        self.share(alloc, old, word)?;
        self.forget();
        Ok(())
    }

    // The same, before the node last read is forgotten.
    #[tactic(auto, unfolding(crate::specs::Words::operation_of, crate::specs::Words::first_of, crate::specs::Words::second_of, crate::specs::Words::result_of))]
    fn share(&mut self, alloc: Global, old: u64, word: u64) -> Result<(), AllocError>
        ensures { OnOk result (Turns self.old self.new (reads_on (λ v. boxed v old word))) }
    {
        let (_, f, g, r) = unpack_cell(word);
        let given = multiset::slots(alloc, &[r, f, g])?;
        let (tag, old_f, old_g, old_r) = unpack_cell(old);
        let taken = multiset::slots(alloc, &[old_r, old_f, old_g])?;
        multiset::remove_each(&mut self.held, &given);
        self.held.extend_from_slice(&taken)?;
        if tag >= FIRST_STOP {
            self.stops.push(u32::from(tag))?;
        }
        Ok(())
    }
}
