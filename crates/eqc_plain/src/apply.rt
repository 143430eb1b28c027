//! Apply: the result of an operation on two nodes, through cache and unique table, with a stack of
//! tasks in place of recursion.
ghost use Rattle.std.specs.Prelude.{◌≡◌, ℕ, ◌<◌, ◌+◌, ◌⊎◌, length, IfSome, IfNone, IfOk, IfErr};

use crate::plain::Plain;
use crate::task::{Task, Turn};
use crate::terminal::decide;
use crate::turns::{FREE_TURNS, count_turn};
use eqc_tree::{Op, Stop};
use std::snapshot::Snapshot;

impl Plain {
    ghost use Rattle.eqc_plain.specs.Meaning.{meaning_of};
    ghost use Rattle.eqc_plain.specs.Combining.{IsResult, HasBoth};
    ghost use Rattle.eqc_plain.specs.Extending.{Extends, IsFull};
    ghost use Rattle.eqc_plain.specs.Spending.{Spends, IsSpent};
    ghost use Rattle.eqc_plain.specs.Tasks.{LeadsTo, StepsTo, TurnsTo};
    ghost use Rattle.eqc_plain.specs.Terminal.{Decides};

    /// The number of an operation's result (Bryant 1986, section 4.3), with a stack of tasks in
    /// place of the recursion, and the turns of its loop counted.
    pub(crate) fn combine(&mut self, op: Op, f: u32, g: u32) -> Result<u32, Stop>
        requires f { f < length self.old.store.nodes + 2 }
        requires g { g < length self.old.store.nodes + 2 }
        ensures store { Extends self.old.store self.new.store }
        ensures ok { IfOk result (IsResult (meaning_of self.new.store.variables self.new.store.nodes) op f g) }
        ensures undecided { IfErr result (λ _. (x : ℕ) → ¬ Decides op f g x) }
        ensures nodes { result ≡ Err Stop.NodeLimit → IsFull self.new.store ⊎ IsSpent self.new.turns }
        ensures turns { Spends self.old.turns self.new.turns }
        ensures only { IfErr result (λ s. (s ≡ Stop.NodeLimit) ⊎ (s ≡ Stop.Memory)) }
    {
        if let Some(x) = self.known(op, f, g) {
            return Ok(x);
        }
        let whole = Snapshot::of(&(f, g));
        self.tasks.clear();
        let mut free = FREE_TURNS;
        let mut next = self.descend(f, g)?;
        'turns: loop {
            count_turn(&mut self.turns, &mut free)?;
            let (f, g) = next;
            let Some(x) = self.known(op, f, g) else {
                next = self.descend(f, g)?;
                continue;
            };
            match self.resume(op, x, &whole)? {
                Turn::Done(x) => return Ok(x),
                Turn::Next(f, g) => next = (f, g),
            }
        }
    }

    /// A result that no node is made for.
    fn known(&self, op: Op, f: u32, g: u32) -> Option<u32>
        requires f { f < length self.now.store.nodes + 2 }
        requires g { g < length self.now.store.nodes + 2 }
        ensures right { IfSome result (IsResult (meaning_of self.now.store.variables self.now.store.nodes) op f g) }
        ensures undecided { IfNone result ((x : ℕ) → ¬ Decides op f g x) }
        ensures inner { IfNone result (¬ ((f < 2) × (g < 2))) }
    {
        if let Some(x) = decide(op, f, g) {
            return Some(x);
        }
        self.cache.find(op, f, g)
    }

    /// Puts a task for the operands, and answers their low cofactors (Shannon's expansion at their
    /// top variable).
    fn descend(&mut self, f: u32, g: u32) -> Result<(u32, u32), Stop>
        requires f { f < length self.old.store.nodes + 2 }
        requires g { g < length self.old.store.nodes + 2 }
        requires inner { ¬ ((f < 2) × (g < 2)) }
        ensures steps { IfOk result (λ low. StepsTo (meaning_of self.old.store.variables self.old.store.nodes) (meaning_of self.new.store.variables self.new.store.nodes) self.old.tasks.items self.new.tasks.items f g low.0 low.1) }
        ensures store { self.new.store ≡ self.old.store }
        ensures turns { self.new.turns ≡ self.old.turns }
        ensures only { IfErr result (λ s. s ≡ Stop.Memory) }
    {
        let variable = self.store.root(f).min(self.store.root(g));
        let (f_low, f_high) = self.store.cofactors(variable, f);
        let (g_low, g_high) = self.store.cofactors(variable, g);
        let task = Task::Low {
            f,
            g,
            variable,
            f_high,
            g_high,
        };
        if self.tasks.len() == self.tasks.capacity() && self.tasks.reserve(1).is_err() {
            return Err(Stop::Memory);
        }
        self.tasks.push_reserved(task);
        Ok((f_low, g_low))
    }

    /// The node over both results, which is kept for the operation.
    fn finish(
        &mut self,
        op: Op,
        f: u32,
        g: u32,
        variable: u16,
        low: u32,
        high: u32,
    ) -> Result<u32, Stop>
        requires { HasBoth (meaning_of self.old.store.variables self.old.store.nodes) op f g variable low high }
        ensures store { Extends self.old.store self.new.store }
        ensures ok { IfOk result (IsResult (meaning_of self.new.store.variables self.new.store.nodes) op f g) }
        ensures tasks { self.new.tasks ≡ self.old.tasks }
        ensures full { result ≡ Err Stop.NodeLimit → IsFull self.new.store }
        ensures turns { self.new.turns ≡ self.old.turns }
        ensures only { IfErr result (λ s. (s ≡ Stop.NodeLimit) ⊎ (s ≡ Stop.Memory)) }
    {
        let x = self.store.node(variable, low, high)?;
        self.cache.grow(self.store.nodes.len());
        self.cache.keep(op, f, g, x);
        Ok(x)
    }

    /// Ends the tasks on top that `x` is the last missing result of, up to one whose high cofactors
    /// come next. `whole` has the operands of the whole operation, in proofs alone.
    fn resume(&mut self, op: Op, x: u32, whole: &Snapshot<(u32, u32)>) -> Result<Turn, Stop>
        requires { LeadsTo (meaning_of self.old.store.variables self.old.store.nodes) op self.old.tasks.items whole.now.value.0 whole.now.value.1 x }
        ensures store { Extends self.old.store self.new.store }
        ensures turn { IfOk result (TurnsTo (meaning_of self.new.store.variables self.new.store.nodes) op self.old.tasks.items self.new.tasks.items whole.now.value.0 whole.now.value.1) }
        ensures full { result ≡ Err Stop.NodeLimit → IsFull self.new.store }
        ensures turns { self.new.turns ≡ self.old.turns }
        ensures only { IfErr result (λ s. (s ≡ Stop.NodeLimit) ⊎ (s ≡ Stop.Memory)) }
    {
        let mut x = x;
        while let Some(task) = self.tasks.pop() {
            match task {
                Task::Low {
                    f,
                    g,
                    variable,
                    f_high,
                    g_high,
                } => {
                    let task = Task::High {
                        f,
                        g,
                        variable,
                        low: x,
                    };
                    self.tasks.push_reserved(task);
                    return Ok(Turn::Next(f_high, g_high));
                }
                Task::High {
                    f,
                    g,
                    variable,
                    low,
                } => x = self.finish(op, f, g, variable, low, x)?,
            }
        }
        Ok(Turn::Done(x))
    }
}
