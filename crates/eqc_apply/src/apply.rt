//! The loop that applies an operation to two names.
ghost use Rattle.std.specs.Prelude.{◌≡◌, ℕ, ◌<◌, ◌⊎◌, [], IfSome, IfNone, IfOk, IfErr};

use crate::applier::Applier;
use crate::expansion::expand;
use eqc_plain::task::{Task, Turn};
use eqc_plain::terminal::decide;
use eqc_plain::turns::{FREE_TURNS, count_turn};
use eqc_tree::{Op, Stop};
use std::snapshot::Snapshot;
use std::sync::Wait;

/// In so many first levels of an operation results go through the shared cells, and below them at
/// each variable that this step divides. What another worker did is then found at once or a few
/// levels further down, while most results are spared the counts of a cell, which all workers would
/// wait for.
const SHARED_LEVELS: usize = 8;

const SHARED_STEP: u16 = 8;

impl Applier {
    ghost use Rattle.eqc_plain.specs.Combining.{HasBoth};
    ghost use Rattle.eqc_plain.specs.Tasks.{Leads, LeadsTo, StepsTo, TurnsTo};
    ghost use Rattle.eqc_guard.specs.Known.{IsHeld};
    ghost use Rattle.eqc_guard.specs.Searching.{HasSeenAll};
    ghost use Rattle.eqc_apply.specs.Combining.{IsResult};
    ghost use Rattle.eqc_apply.specs.Stopping.{HasStopped};
    ghost use Rattle.eqc_apply.specs.Extending.{Extends};
    ghost use Rattle.eqc_apply.specs.Meaning.{meaning_in};
    ghost use Rattle.eqc_apply.specs.Turning.{ComesTo};

    /// The name of an operation's result (Bryant 1986, section 4.3). In the first levels of the
    /// operation one half is offered to other workers, and nothing is offered in the end. The call
    /// may wait. The errors are `NodeLimit`, where every slot was seen taken or the turns that are
    /// allowed are spent, `Memory`, and those of workers that did a half.
    pub(crate) fn combine<R: Wait>(&mut self, rt: &R, op: Op, f: u32, g: u32) -> Result<u32, Stop>
        requires f { IsHeld self.old.names.worker.known.core f }
        requires g { IsHeld self.old.names.worker.known.core g }
        ensures names { Extends self.old.names self.new.names }
        ensures ok { IfOk result (λ x. IsResult self.new.names.variables op self.new.names.worker.known f g x) }
        ensures stop { IfErr result (λ s. HasStopped s self.new.names) }
        ensures withdrawn { self.new.offers.items ≡ [] }
    {
        self.take_late();
        let made = self.go_in_parts(rt, op, f, g);
        self.withdraw();
        made
    }

    /// The loop of an operation, with a stack of tasks in place of the recursion. Its turns are
    /// counted: two large operands have as many pairs of nodes as the product of their sizes, and
    /// where their result is small the forest is never full.
    pub(crate) fn go<R: Wait>(&mut self, rt: &R, op: Op, f: u32, g: u32) -> Result<u32, Stop>
        requires f { IsHeld self.old.names.worker.known.core f }
        requires g { IsHeld self.old.names.worker.known.core g }
        ensures names { Extends self.old.names self.new.names }
        ensures ok { IfOk result (λ x. IsResult self.new.names.variables op self.new.names.worker.known f g x) }
        ensures stop { IfErr result (λ s. HasStopped s self.new.names) }
    {
        let whole = Snapshot::of(&(f, g));
        self.tasks.clear();
        let mut next = (f, g);
        let mut free = FREE_TURNS;
        'turns: loop {
            count_turn(&mut self.names.turns, &mut free)?;
            let (f, g) = next;
            match self.turn(rt, op, f, g, &whole)? {
                Turn::Done(x) => return Ok(x),
                Turn::Next(f, g) => next = (f, g),
            }
        }
    }

    /// One turn: where the result of the operation on these two is known, the tasks on top end that
    /// waited for it, and else the two are expanded. `whole` has the operands of the whole
    /// operation, in proofs alone.
    fn turn<R: Wait>(
        &mut self,
        rt: &R,
        op: Op,
        f: u32,
        g: u32,
        whole: &Snapshot<(u32, u32)>,
    ) -> Result<Turn, Stop>
        requires f { IsHeld self.old.names.worker.known.core f }
        requires g { IsHeld self.old.names.worker.known.core g }
        requires leads { Leads (meaning_in self.old.names) op self.old.tasks.items whole.now.value.0 whole.now.value.1 f g }
        ensures names { Extends self.old.names self.new.names }
        ensures turn { IfOk result (ComesTo (meaning_in self.old.names) (meaning_in self.new.names) op self.old.tasks.items self.new.tasks.items whole.now.value.0 whole.now.value.1 f g) }
        ensures stop { IfErr result (λ s. HasStopped s self.new.names) }
    {
        match self.known(op, f, g) {
            Some(x) => self.resume(rt, op, x, whole),
            None => {
                let (f, g) = self.descend(op, f, g)?;
                Ok(Turn::Next(f, g))
            }
        }
    }

    /// A result that no node is made for: one that the operands decide, or that cells have.
    pub(crate) fn known(&mut self, op: Op, f: u32, g: u32) -> Option<u32>
        requires f { IsHeld self.old.names.worker.known.core f }
        requires g { IsHeld self.old.names.worker.known.core g }
        ensures names { Extends self.old.names self.new.names }
        ensures right { IfSome result (IsResult self.new.names.variables op self.new.names.worker.known f g) }
        ensures inner { IfNone result (¬ ((f < 2) × (g < 2))) }
        ensures tasks { self.new.tasks ≡ self.old.tasks }
    {
        if let Some(x) = decide(op, f, g) {
            return Some(x);
        }
        self.find(op, f, g)
    }

    /// Whether results at this variable go through the shared cells.
    fn shares(&self, variable: u16) -> bool {
        self.tasks.len() < SHARED_LEVELS || variable % SHARED_STEP == 0
    }

    /// A result that the worker's own cells have, or else the shared ones.
    fn find(&mut self, op: Op, f: u32, g: u32) -> Option<u32>
        requires f { IsHeld self.old.names.worker.known.core f }
        requires g { IsHeld self.old.names.worker.known.core g }
        ensures names { Extends self.old.names self.new.names }
        ensures right { IfSome result (IsResult self.new.names.variables op self.new.names.worker.known f g) }
        ensures tasks { self.new.tasks ≡ self.old.tasks }
    {
        self.names.worker.recall_laws();
        if let Some(x) = self.cells.find(op, f, g) {
            return Some(x);
        }
        if self.names.has_others() {
            self.find_shared(op, f, g)
        } else {
            None
        }
    }

    /// A result that the shared cells have, where results at this variable go through them.
    fn find_shared(&mut self, op: Op, f: u32, g: u32) -> Option<u32>
        requires f { IsHeld self.old.names.worker.known.core f }
        requires g { IsHeld self.old.names.worker.known.core g }
        ensures names { Extends self.old.names self.new.names }
        ensures right { IfSome result (IsResult self.new.names.variables op self.new.names.worker.known f g) }
        ensures tasks { self.new.tasks ≡ self.old.tasks }
    {
        let variable = self.names.higher_root(f, g);
        if !self.shares(variable) {
            return None;
        }
        // Where memory is refused, the result is made anew.
        match self.names.look_up(op, f, g) {
            Ok(found) => found,
            Err(_) => None,
        }
    }

    /// Puts a task for the operands, and answers their low cofactors. The high ones may be offered
    /// to other workers. The error is `Memory` alone.
    fn descend(&mut self, op: Op, f: u32, g: u32) -> Result<(u32, u32), Stop>
        requires f { IsHeld self.old.names.worker.known.core f }
        requires g { IsHeld self.old.names.worker.known.core g }
        requires inner { ¬ ((f < 2) × (g < 2)) }
        ensures names { Extends self.old.names self.new.names }
        ensures steps { IfOk result (λ low. StepsTo (meaning_in self.old.names) (meaning_in self.new.names) self.old.tasks.items self.new.tasks.items f g low.0 low.1) }
        ensures only { IfErr result (λ s. s ≡ Stop.Memory) }
    {
        let e = expand(&mut self.names, f, g)?;
        self.offer(op, e.f.1, e.g.1);
        let task = Task::Low {
            f,
            g,
            variable: e.variable,
            f_high: e.f.1,
            g_high: e.g.1,
        };
        match self.tasks.push(task) {
            Ok(()) => Ok((e.f.0, e.g.0)),
            Err(_) => Err(Stop::Memory),
        }
    }

    /// The node over both results, which is kept for the operation.
    fn finish<R: Wait>(
        &mut self,
        rt: &R,
        op: Op,
        f: u32,
        g: u32,
        variable: u16,
        low: u32,
        high: u32,
    ) -> Result<u32, Stop>
        requires { HasBoth (meaning_in self.old.names) op f g variable low high }
        ensures names { Extends self.old.names self.new.names }
        ensures ok { IfOk result (λ x. IsResult self.new.names.variables op self.new.names.worker.known f g x) }
        ensures tasks { self.new.tasks ≡ self.old.tasks }
        ensures all { result ≡ Err Stop.NodeLimit → HasSeenAll self.new.names.worker.known.core }
        ensures only { IfErr result (λ s. (s ≡ Stop.NodeLimit) ⊎ (s ≡ Stop.Memory)) }
    {
        let held = self.names.worker.held();
        let x = self.names.node(rt, variable, low, high)?;
        self.keep(op, f, g, x);
        // A node that is new to this worker took steps to come by: others are spared them.
        if self.names.worker.held() > held && self.names.has_others() && self.shares(variable) {
            self.names.share(op, f, g, x);
        }
        Ok(x)
    }

    /// Keeps a result.
    pub(crate) fn keep(&mut self, op: Op, f: u32, g: u32, x: u32)
        requires { IsResult self.old.names.variables op self.old.names.worker.known f g x }
        ensures names { Extends self.old.names self.new.names }
        ensures still { IsResult self.new.names.variables op self.new.names.worker.known f g x }
        ensures tasks { self.new.tasks ≡ self.old.tasks }
    {
        self.names.worker.recall_laws();
        let nodes = self.names.worker.held() as usize;
        self.cells.grow(nodes);
        self.cells.keep(op, f, g, x);
    }

    /// Ends the tasks on top that `x` is the last missing result of, up to one whose high cofactors
    /// come next.
    fn resume<R: Wait>(
        &mut self,
        rt: &R,
        op: Op,
        x: u32,
        whole: &Snapshot<(u32, u32)>,
    ) -> Result<Turn, Stop>
        requires { LeadsTo (meaning_in self.old.names) op self.old.tasks.items whole.now.value.0 whole.now.value.1 x }
        ensures names { Extends self.old.names self.new.names }
        ensures turn { IfOk result (TurnsTo (meaning_in self.new.names) op self.old.tasks.items self.new.tasks.items whole.now.value.0 whole.now.value.1) }
        ensures stop { IfErr result (λ s. HasStopped s self.new.names) }
    {
        let mut x = x;
        while let Some(task) = self.tasks.pop() {
            match task {
                Task::Low {
                    f,
                    g,
                    variable,
                    f_high,
                    g_high,
                } => match self.take_back(rt, op, f_high, g_high)? {
                    Some(high) => x = self.finish(rt, op, f, g, variable, x, high)?,
                    None => {
                        let task = Task::High {
                            f,
                            g,
                            variable,
                            low: x,
                        };
                        return match self.tasks.push(task) {
                            Ok(()) => Ok(Turn::Next(f_high, g_high)),
                            Err(_) => Err(Stop::Memory),
                        };
                    }
                },
                Task::High {
                    f,
                    g,
                    variable,
                    low,
                } => {
                    self.end_offer();
                    x = self.finish(rt, op, f, g, variable, low, x)?;
                }
            }
        }
        Ok(Turn::Done(x))
    }
}
