//! What an applier has to do with boxes: in the first levels of an operation it offers one half to
//! other workers, and takes back what they came to.
ghost use Rattle.std.specs.Prelude.{◌≡◌, [], IfSome, IfOk, IfErr};

use crate::applier::Applier;
use crate::boxes::LEVELS;
use eqc_tree::{Op, Stop};
use std::sync::Wait;

// The bit of a level among those of all that can be forked.
fn bit_of(level: u32) -> u32 {
    1u32.wrapping_shl(level)
}

impl Applier {
    ghost use Rattle.eqc_guard.specs.Known.{IsHeld};
    ghost use Rattle.eqc_arena.specs.Unboxing.{KeepsMarks};
    ghost use Rattle.eqc_apply.specs.Combining.{IsResult};
    ghost use Rattle.eqc_apply.specs.Stopping.{HasStopped};
    ghost use Rattle.eqc_apply.specs.Extending.{Extends};

    /// Offers an operation to other workers, in the first levels and where it is worth a box: both
    /// operands are inner nodes, and the result isn't known.
    pub(crate) fn offer(&mut self, op: Op, f: u32, g: u32)
        requires f { IsHeld self.old.names.worker.known.core f }
        requires g { IsHeld self.old.names.worker.known.core g }
        ensures names { Extends self.old.names self.new.names }
        ensures tasks { self.new.tasks ≡ self.old.tasks }
    {
        let level = self.tasks.len();
        if level >= self.forks as usize || f < 2 || g < 2 {
            return;
        }
        let level = level as u32;
        if self.withdraw_late(level) {
            return;
        }
        if self.known(op, f, g).is_some() {
            return;
        }
        if self.offers.push(level).is_err() {
            return;
        }
        if !self.names.offer(level, op, f, g) {
            self.offers.pop();
        }
    }

    /// The result of the operation on the high cofactors of the task that was on top, where it was
    /// offered and another worker did it. Where one is still at it, there is none, and it stays
    /// offered: rather than wait, this worker does it too, and both find in the shared cells what
    /// the other did. The call may wait. The errors are why it stopped there, and `Stop::Memory`.
    pub(crate) fn take_back<R: Wait>(
        &mut self,
        rt: &R,
        op: Op,
        f: u32,
        g: u32,
    ) -> Result<Option<u32>, Stop>
        requires f { IsHeld self.old.names.worker.known.core f }
        requires g { IsHeld self.old.names.worker.known.core g }
        ensures names { Extends self.old.names self.new.names }
        ensures ok { IfOk result (λ found. IfSome found (IsResult self.new.names.variables op self.new.names.worker.known f g)) }
        ensures stop { IfErr result (λ s. HasStopped s self.new.names) }
        ensures tasks { self.new.tasks ≡ self.old.tasks }
    {
        let level = match self.offers.last() {
            Some(level) => *level,
            None => return Ok(None),
        };
        if level as usize != self.tasks.len() || self.names.is_taken(level) {
            return Ok(None);
        }
        self.offers.pop();
        let Some(x) = self.names.take_back(rt, level, op, f, g)? else {
            return Ok(None);
        };
        self.keep(op, f, g, x);
        Ok(Some(x))
    }

    /// Takes back what is offered at the level of the task that was on top.
    pub(crate) fn end_offer(&mut self)
        ensures names { Extends self.old.names self.new.names }
        ensures tasks { self.new.tasks ≡ self.old.tasks }
    {
        let level = match self.offers.last() {
            Some(level) => *level,
            None => return,
        };
        if level as usize != self.tasks.len() {
            return;
        }
        self.offers.pop();
        self.retract(level);
    }

    /// Empties the boxes in which answers lie that came too late to be waited for: what they name
    /// is needed no more.
    pub(crate) fn take_late(&mut self)
        ensures names { Extends self.old.names self.new.names }
    {
        if self.owed == 0 {
            return;
        }
        for level in 0..LEVELS {
            self.withdraw_late(level);
        }
    }

    /// Whether another worker is still at what was offered at this level some time ago. An answer
    /// that came since is given back.
    fn withdraw_late(&mut self, level: u32) -> bool
        ensures names { Extends self.old.names self.new.names }
        ensures tasks { self.new.tasks ≡ self.old.tasks }
    {
        let bit = bit_of(level);
        if self.owed & bit == 0 {
            return false;
        }
        if !self.names.withdraw(level) {
            return true;
        }
        self.owed &= !bit;
        false
    }

    /// Takes back what is offered at a level. Where another worker is at it, its answer is not
    /// waited for.
    fn retract(&mut self, level: u32)
        ensures names { Extends self.old.names self.new.names }
        ensures marks { KeepsMarks self.old.names.worker.known.core self.new.names.worker.known.core }
        ensures tasks { self.new.tasks ≡ self.old.tasks }
        ensures offers { self.new.offers ≡ self.old.offers }
    {
        if !self.names.withdraw(level) {
            self.owed |= bit_of(level);
        }
    }

    /// Takes back what is still offered: an operation that stopped leaves none in the boxes.
    pub(crate) fn withdraw(&mut self)
        ensures names { Extends self.old.names self.new.names }
        ensures marks { KeepsMarks self.old.names.worker.known.core self.new.names.worker.known.core }
        ensures withdrawn { self.new.offers.items ≡ [] }
    {
        while let Some(level) = self.offers.pop() {
            self.retract(level);
        }
    }
}
