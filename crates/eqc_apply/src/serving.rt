//! A worker that has nothing to do does an operation that another one offered.
ghost use Rattle.std.specs.Prelude.{◌*◌, ◌<◌};
ghost use Rattle.eqc_tree.specs.Holding.{Keeps, IsHeld};
ghost use Rattle.eqc_guard.specs.Known.{IsHeld as IsName};
ghost use Rattle.eqc_apply.specs.Before.{IsWorker};
ghost use Rattle.eqc_apply.specs.Extending.{Stays, holding_in};
ghost use Rattle.eqc_apply.specs.Referring.{entry_of};
ghost use Rattle.eqc_plain.specs.Spending.{Spends};

use crate::applier::Applier;
use crate::reference::Ref;
use crossbeam_utils::Backoff;
use eqc_tree::{Op, References};
use std::mem;
use std::sync::Wait;

/// So many pauses a worker without work makes, and looks through the boxes of others before each,
/// before it says that there is nothing to do. In the last pause it leaves the processor to others.
const PAUSES: u32 = 8;

/// So often in succession there is nothing to do before a worker makes room for others, which is
/// some milliseconds. Members that ask for a short while alone ask more often than that.
const VAIN_LOOKS: u32 = 500;

/// Where there are many boxes it looks through them before fewer pauses: at most into about so many
/// boxes, or into each once.
const LOOKS: u32 = 512;

impl Applier {
    /// Puts the result of an operation into the box from which it was taken, or why it stopped.
    fn answer_task<R: Wait>(&mut self, rt: &R, b: u32, op: Op, f: &Ref, g: &Ref)
        requires there { b < 16 * self.old.names.worker.known.core.sizes.workers }
        requires f { IsHeld (holding_in self.old.names) (entry_of f.now) }
        requires g { IsHeld (holding_in self.old.names) (entry_of g.now) }
        ensures kept { Keeps (holding_in self.old.names) (holding_in self.new.names) }
        ensures worker { IsWorker self.old.names.worker self.new.names.worker }
        ensures turns { Spends self.old.names.turns self.new.names.turns }
    {
        match self.apply_forked(rt, op, f, g) {
            Ok(r) => {
                self.names.put_done(b, op, f.name, g.name, r.name);
                self.give_back(r);
            }
            Err(stop) => self.names.put_stop(b, stop, f.name, g.name),
        }
    }

    /// The same, where the second operand is a name yet.
    fn answer_with<R: Wait>(&mut self, rt: &R, b: u32, op: Op, f: &Ref, g: u32)
        requires there { b < 16 * self.old.names.worker.known.core.sizes.workers }
        requires f { IsHeld (holding_in self.old.names) (entry_of f.now) }
        requires g { IsName self.old.names.worker.known.core g }
        ensures kept { Keeps (holding_in self.old.names) (holding_in self.new.names) }
        ensures worker { IsWorker self.old.names.worker self.new.names.worker }
        ensures turns { Spends self.old.names.turns self.new.names.turns }
    {
        match self.names.refer(g) {
            Ok(second) => {
                self.answer_task(rt, b, op, f, &second);
                self.give_back(second);
            }
            Err(stop) => self.names.put_stop(b, stop, f.name, g),
        }
    }

    /// Does the operation in a box of another worker, if it is still to be done, and says whether
    /// it was.
    fn serve_box<R: Wait>(&mut self, rt: &R, b: u32) -> bool
        requires there { b < 16 * self.old.names.worker.known.core.sizes.workers }
        ensures kept { Keeps (holding_in self.old.names) (holding_in self.new.names) }
        ensures worker { IsWorker self.old.names.worker self.new.names.worker }
        ensures turns { Spends self.old.names.turns self.new.names.turns }
    {
        let Some((op, f, g)) = self.names.take_task(b) else {
            return false;
        };
        match self.names.refer(f) {
            Ok(first) => {
                self.answer_with(rt, b, op, &first, g);
                self.give_back(first);
            }
            Err(stop) => self.names.put_stop(b, stop, f, g),
        }
        true
    }

    /// Looks into one box, and does the operation in it, if there is one.
    fn serve_nth<R: Wait>(&mut self, rt: &R, nth: u32) -> bool
        ensures kept { Keeps (holding_in self.old.names) (holding_in self.new.names) }
        ensures worker { IsWorker self.old.names.worker self.new.names.worker }
        ensures turns { Spends self.old.names.turns self.new.names.turns }
    {
        let Some(b) = self.names.other_box(nth) else {
            return false;
        };
        self.names.is_offered(b) && self.serve_box(rt, b)
    }

    /// Looks through so many boxes, up to one with an operation to be done.
    fn serve_boxes<R: Wait>(&mut self, rt: &R, boxes: u32) -> bool
        ensures kept { Keeps (holding_in self.old.names) (holding_in self.new.names) }
        ensures worker { IsWorker self.old.names.worker self.new.names.worker }
        ensures turns { Spends self.old.names.turns self.new.names.turns }
    {
        for nth in 0..boxes {
            if self.serve_nth(rt, nth) {
                return true;
            }
        }
        false
    }

    /// Looks through the boxes of so many levels a few times, with pauses between. Who has no turns
    /// left would only stop what others offer.
    fn look_through<R: Wait>(&mut self, rt: &R, levels: u32) -> bool
        ensures kept { Keeps (holding_in self.old.names) (holding_in self.new.names) }
        ensures worker { IsWorker self.old.names.worker self.new.names.worker }
        ensures turns { Spends self.old.names.turns self.new.names.turns }
    {
        if levels == 0 || self.names.is_spent() {
            return false;
        }
        let boxes = levels.saturating_mul(self.names.worker.workers());
        let backoff = Backoff::new();
        for pause in 0..PAUSES {
            let looks = if boxes.saturating_mul(pause) < LOOKS {
                boxes
            } else {
                0
            };
            if self.serve_boxes(rt, looks) {
                return true;
            }
            backoff.snooze();
        }
        false
    }

    /// Makes room for others, where for some time there was nothing to do or where there can be
    /// nothing: what is kept without references is given up.
    fn give_up_idle(&mut self)
        ensures names { Stays self.old.names self.new.names }
    {
        if self.forks > 0 && self.vain < VAIN_LOOKS {
            self.vain += 1;
        } else if self.names.idle() > 0 {
            self.give_up();
        }
    }

    /// Does one operation that another member of the team offered, if there is one, and says
    /// whether it did. Why it stopped, if it did, its owner is told. Where nothing is offered for
    /// some time, or where nothing can be, it gives up what it keeps without references, so that
    /// others have the room.
    ///
    /// What is held is as before. The call may wait.
    pub fn serve<R: Wait>(&mut self, rt: &R) -> bool
        ensures kept { Keeps (holding_in self.old.names) (holding_in self.new.names) }
        ensures worker { IsWorker self.old.names.worker self.new.names.worker }
        ensures turns { Spends self.old.names.turns self.new.names.turns }
    {
        // What a late answer names, others may need room for.
        self.take_late();
        // What is taken is not forked again.
        let forks = mem::replace(&mut self.forks, 0);
        let served = self.look_through(rt, forks);
        self.forks = forks;
        if served {
            self.vain = 0;
        } else {
            self.give_up_idle();
        }
        served
    }
}
