//! Where several workers are at one operation, each begins with another part of it.
ghost use Rattle.std.specs.Prelude.{◌≡◌, ◌≤◌, ◌<◌, IfOk, IfErr};
ghost use Rattle.eqc_guard.specs.Known.{IsHeld};
ghost use Rattle.eqc_apply.specs.Combining.{IsResult};
ghost use Rattle.eqc_apply.specs.Extending.{Extends};
ghost use Rattle.eqc_apply.specs.Stopping.{HasStopped};

use crate::applier::Applier;
use crate::expansion::expand;
use eqc_tree::{Op, Stop};
use std::sync::Wait;

/// The bits of a worker's number, of which there are at most 64.
const BITS: u32 = 6;

impl Applier {
    /// The name of an operation's result, as `go` has it. Outputs have much in common, so that
    /// workers often do one operation at the same time: each begins with a part of its own, and
    /// finds the others' in the shared cells.
    pub(crate) fn go_in_parts<R: Wait>(
        &mut self,
        rt: &R,
        op: Op,
        f: u32,
        g: u32,
    ) -> Result<u32, Stop>
        requires f { IsHeld self.old.names.worker.known.core f }
        requires g { IsHeld self.old.names.worker.known.core g }
        ensures names { Extends self.old.names self.new.names }
        ensures ok { IfOk result (λ x. IsResult self.new.names.variables op self.new.names.worker.known f g x) }
        ensures stop { IfErr result (λ s. HasStopped s self.new.names) }
    {
        self.do_parts(rt, op, f, g)?;
        self.go(rt, op, f, g)
    }

    /// Does the parts of an operation with which this worker begins, the smallest first. The first
    /// worker has none: it begins where the operation does.
    fn do_parts<R: Wait>(&mut self, rt: &R, op: Op, f: u32, g: u32) -> Result<(), Stop>
        requires f { IsHeld self.old.names.worker.known.core f }
        requires g { IsHeld self.old.names.worker.known.core g }
        ensures names { Extends self.old.names self.new.names }
        ensures stop { IfErr result (λ s. HasStopped s self.new.names) }
    {
        let number = self.names.worker.number();
        for level in (0..BITS).rev() {
            if number >> level & 1 == 1 {
                self.do_part(rt, op, f, g, level + 1)?;
            }
        }
        Ok(())
    }

    /// Does the part of an operation below so many levels: in each the half that a bit of the
    /// worker's number tells.
    fn do_part<R: Wait>(&mut self, rt: &R, op: Op, f: u32, g: u32, levels: u32) -> Result<(), Stop>
        requires f { IsHeld self.old.names.worker.known.core f }
        requires g { IsHeld self.old.names.worker.known.core g }
        requires levels { levels ≤ 6 }
        ensures names { Extends self.old.names self.new.names }
        ensures stop { IfErr result (λ s. HasStopped s self.new.names) }
    {
        let number = self.names.worker.number();
        let mut next = (f, g);
        for level in 0..levels {
            let (f, g) = next;
            if self.known(op, f, g).is_some() {
                return Ok(());
            }
            next = self.half(f, g, number >> level & 1 == 1)?;
        }
        self.go(rt, op, next.0, next.1)?;
        Ok(())
    }

    /// The low or the high cofactors of two names, one of which is no constant. They are held then.
    /// The error is `Stop::Memory` alone.
    fn half(&mut self, f: u32, g: u32, high: bool) -> Result<(u32, u32), Stop>
        requires f { IsHeld self.old.names.worker.known.core f }
        requires g { IsHeld self.old.names.worker.known.core g }
        requires inner { ¬ ((f < 2) × (g < 2)) }
        ensures names { Extends self.old.names self.new.names }
        ensures held { IfOk result (λ p. IsHeld self.new.names.worker.known.core p.0 × IsHeld self.new.names.worker.known.core p.1) }
        ensures only { IfErr result (λ s. s ≡ Stop.Memory) }
    {
        let e = expand(&mut self.names, f, g)?;
        if high {
            Ok((e.f.1, e.g.1))
        } else {
            Ok((e.f.0, e.g.0))
        }
    }
}
