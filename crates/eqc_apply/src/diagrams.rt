//! The calls of an applier as decision diagrams.
ghost use Rattle.std.specs.Prelude.{◌≡◌, ℕ, ◌<◌, ◌≤◌, ◌-◌, ◌^◌, ◌⊎◌, Bool, if◌then◌else◌, IfOk, IfErr, OnErr, IsOk};
ghost use Rattle.eqc_tree.specs.Operation.{operate};
ghost use Rattle.eqc_tree.specs.Holding.{Entry, IsHeld, Gains, Keeps, Loses, copies, says};
ghost use Rattle.eqc_guard.specs.Searching.{HasSeenAll};
ghost use Rattle.eqc_apply.specs.Before.{IsWorker};
ghost use Rattle.eqc_apply.specs.Extending.{Stays, holding_in};
ghost use Rattle.eqc_apply.specs.Referring.{entry_of};
ghost use Rattle.eqc_apply.specs.Stopping.{IsFull, HasTaken, HasSpent};
ghost use Rattle.eqc_plain.specs.Spending.{Spends};

use crate::applier::Applier;
use crate::reference::Ref;
use eqc_plain::NodeCount;
use eqc_tree::{Diagrams, Op, References, Stop};
use std::alloc::Global;
use std::sync::Wait;

impl Applier {
    ghost use Rattle.eqc_guard.specs.Known.{tree_of};
    ghost use Rattle.eqc_apply.specs.Answering.{IsReferenced, IsAnswer, IsVariable};
    ghost use Rattle.eqc_apply.specs.Stopping.{HasStopped};

    /// Gives up all names that no references stand on, and the results that name them.
    pub(crate) fn give_up(&mut self)
        ensures names { Stays self.old.names self.new.names }
    {
        self.cells.clear();
        self.names.give_up();
    }

    /// Gives names up that no references stand on, where they are more than the worker's share of
    /// what others may need.
    fn make_way(&mut self)
        ensures names { Stays self.old.names self.new.names }
    {
        if self.names.has_others() && self.names.idle() > self.names.share_of_slots() {
            self.give_up();
        }
    }

    /// The name of an operation's result. Where every slot is taken, names without references are
    /// given up, and the operation begins anew, if it is to and there are turns left for it.
    fn answer<R: Wait>(&mut self, rt: &R, op: Op, f: u32, g: u32) -> Result<u32, Stop>
        requires f { IsReferenced self.old.names f }
        requires g { IsReferenced self.old.names g }
        ensures names { Stays self.old.names self.new.names }
        ensures ok { IfOk result (IsAnswer op self.old.names f g self.new.names) }
        ensures stop { IfErr result (λ s. HasStopped s self.new.names) }
    {
        self.make_way();
        match self.combine(rt, op, f, g) {
            Err(Stop::NodeLimit) if self.anew && !self.names.is_spent() => {
                self.give_up();
                self.combine(rt, op, f, g)
            }
            answer => answer,
        }
    }

    /// The node of a variable over the constants, as `answer` has that of an operation.
    fn variable_node<R: Wait>(&mut self, rt: &R, var: u16) -> Result<u32, Stop>
        requires { var < self.old.names.variables }
        ensures names { Stays self.old.names self.new.names }
        ensures ok { IfOk result (IsVariable var self.new.names) }
        ensures all { result ≡ Err Stop.NodeLimit → HasSeenAll self.new.names.worker.known.core }
        ensures only { IfErr result (λ s. (s ≡ Stop.NodeLimit) ⊎ (s ≡ Stop.Memory)) }
    {
        self.make_way();
        match self.names.node(rt, var, 0, 1) {
            Err(Stop::NodeLimit) if self.anew => {
                self.give_up();
                self.names.node(rt, var, 0, 1)
            }
            made => made,
        }
    }
}

impl Applier {
    ghost use Rattle.std.specs.Prelude.{◌≢◌};

    /// A reference to the operation of `f` and `g`, value by value, as `apply` of the traits. In
    /// the first levels of the operation one half is offered to the other members of the team:
    /// their `serve` may do it.
    ///
    /// The call may wait. The errors are `NodeLimit`, where every slot was seen taken, by this
    /// worker after dead nodes were taken back and, where an operation may begin anew, names
    /// without references given up, where the turns that this worker is allowed are spent, or where
    /// one that did a half stopped so; `Memory`; and `References` at 2^32 - 1 references to one
    /// node, here or at a worker that did a half. After an error what is held is as before, and
    /// nothing is offered.
    ///
    /// No call gives turns back, and the members of `team`, whose turns have no limit, never come
    /// to one.
    pub fn apply_forked<R: Wait>(&mut self, rt: &R, op: Op, f: &Ref, g: &Ref) -> Result<Ref, Stop>
        requires f { IsHeld (holding_in self.old.names) (entry_of f.now) }
        requires g { IsHeld (holding_in self.old.names) (entry_of g.now) }
        ensures ok { IfOk result (λ r. Gains (holding_in self.old.names) (holding_in self.new.names) (entry_of r) (λ a. operate op (says (entry_of f.now) a) (says (entry_of g.now) a))) }
        ensures stop { OnErr result (Keeps (holding_in self.old.names) (holding_in self.new.names)) }
        ensures only { IfErr result (λ s. s ≢ Stop.Threads) }
        ensures nodes { result ≡ Err Stop.NodeLimit → IsFull self.new.names.worker.known.core ⊎ HasSpent self.new.names }
        ensures references { result ≡ Err Stop.References → HasTaken Stop.References self.new.names.worker.known.core ⊎ ((e : Entry) × (2 ^ 32 - 1 ≤ copies (holding_in self.old.names) e)) }
        ensures worker { IsWorker self.old.names.worker self.new.names.worker }
        ensures turns { Spends self.old.names.turns self.new.names.turns }
    {
        let x = self.answer(rt, op, f.name, g.name)?;
        self.names.refer(x)
    }
}

impl References for Applier {
    type Ref = Ref;

    ghost entry = { entry_of };

    ghost holding = { λ a. holding_in a.names };

    /// Never stops, and takes no memory.
    fn constant(&mut self, b: bool) -> Result<Ref, Stop>
        ensures ok { IfOk result (λ r. Gains (holding_in self.old.names) (holding_in self.new.names) (entry_of r) (λ _. b)) }
        ensures stop { OnErr result (Keeps (holding_in self.old.names) (holding_in self.new.names)) }
        ensures never { IsOk result }
        ensures worker { IsWorker self.old.names.worker self.new.names.worker }
        ensures turns { Spends self.old.names.turns self.new.names.turns }
    {
        self.names.refer(b as u32)
    }

    /// Stops only at 2^32 - 1 references to one node, and takes no memory.
    fn copy(&mut self, f: &Ref) -> Result<Ref, Stop>
        requires { IsHeld (holding_in self.old.names) (entry_of f.now) }
        ensures ok { IfOk result (λ r. Gains (holding_in self.old.names) (holding_in self.new.names) (entry_of r) (says (entry_of f.now))) }
        ensures stop { OnErr result (Keeps (holding_in self.old.names) (holding_in self.new.names)) }
        ensures only { IfErr result (λ s. s ≡ Stop.References) }
        ensures full { OnErr result (2 ^ 32 - 1 ≤ copies (holding_in self.old.names) (entry_of f.now)) }
        ensures worker { IsWorker self.old.names.worker self.new.names.worker }
        ensures turns { Spends self.old.names.turns self.new.names.turns }
    {
        self.names.refer(f.name)
    }

    /// Takes no memory.
    fn give_back(&mut self, f: Ref)
        requires { IsHeld (holding_in self.old.names) (entry_of f) }
        ensures loses { Loses (holding_in self.old.names) (holding_in self.new.names) (entry_of f) }
        ensures worker { IsWorker self.old.names.worker self.new.names.worker }
        ensures turns { Spends self.old.names.turns self.new.names.turns }
        ensures still { self.new.names.worker ≡ self.old.names.worker }
    {
        self.names.release(f);
    }

    fn same(&self, f: &Ref, g: &Ref) -> bool {
        self.names.worker.recall_laws();
        f.name == g.name
    }

    fn as_constant(&self, f: &Ref) -> Option<bool> {
        self.names.worker.recall_laws();
        if f.name >= 2 {
            return None;
        }
        Some(f.name == 1)
    }
}

impl<R: Wait> Diagrams<R> for Applier {
    ghost use Rattle.std.specs.Prelude.{◌≢◌, IfSome, IsSome, length};
    ghost use Rattle.std.specs.List.{All, find};
    ghost use Rattle.eqc_tree.specs.Assigned.{assigned, assignments, AreDistinct, DependsOnlyOn, IsSatisfiable};

    /// Stops for nodes only where every slot was seen taken, after dead nodes were taken back and,
    /// where an operation may begin anew, names without references given up, and for references
    /// only at 2^32 - 1 to one node.
    fn literal(&mut self, rt: &R, var: u16) -> Result<Ref, Stop>
        requires { var < (holding_in self.old.names).variables }
        ensures ok { IfOk result (λ r. Gains (holding_in self.old.names) (holding_in self.new.names) (entry_of r) (λ a. a var)) }
        ensures stop { OnErr result (Keeps (holding_in self.old.names) (holding_in self.new.names)) }
        ensures only { IfErr result (λ s. s ≢ Stop.Threads) }
        ensures nodes { result ≡ Err Stop.NodeLimit → HasSeenAll self.new.names.worker.known.core }
        ensures references { result ≡ Err Stop.References → (e : Entry) × (2 ^ 32 - 1 ≤ copies (holding_in self.old.names) e) }
        ensures worker { IsWorker self.old.names.worker self.new.names.worker }
        ensures turns { Spends self.old.names.turns self.new.names.turns }
    {
        let x = self.variable_node(rt, var)?;
        self.names.refer(x)
    }

    /// Stops for nodes and for references as `apply_forked` does, which it is.
    fn apply(&mut self, rt: &R, op: Op, f: &Ref, g: &Ref) -> Result<Ref, Stop>
        requires f { IsHeld (holding_in self.old.names) (entry_of f.now) }
        requires g { IsHeld (holding_in self.old.names) (entry_of g.now) }
        ensures ok { IfOk result (λ r. Gains (holding_in self.old.names) (holding_in self.new.names) (entry_of r) (λ a. operate op (says (entry_of f.now) a) (says (entry_of g.now) a))) }
        ensures stop { OnErr result (Keeps (holding_in self.old.names) (holding_in self.new.names)) }
        ensures only { IfErr result (λ s. s ≢ Stop.Threads) }
        ensures nodes { result ≡ Err Stop.NodeLimit → IsFull self.new.names.worker.known.core ⊎ HasSpent self.new.names }
        ensures references { result ≡ Err Stop.References → HasTaken Stop.References self.new.names.worker.known.core ⊎ ((e : Entry) × (2 ^ 32 - 1 ≤ copies (holding_in self.old.names) e)) }
        ensures worker { IsWorker self.old.names.worker self.new.names.worker }
        ensures turns { Spends self.old.names.turns self.new.names.turns }
    {
        self.apply_forked(rt, op, f, g)
    }

    /// Does one operation that another worker offered, as `serve` does, which it is: so it makes
    /// room where nothing comes.
    fn help(&mut self, rt: &R) -> bool
        ensures kept { Keeps (holding_in self.old.names) (holding_in self.new.names) }
        ensures worker { IsWorker self.old.names.worker self.new.names.worker }
        ensures turns { Spends self.old.names.turns self.new.names.turns }
    {
        self.serve(rt)
    }

    /// Three applies. Stops for nodes as `apply` does, and for references where a worker that did a
    /// half told so, or at 2^32 - 3 or more to one node, to which two more may come on the way.
    #[tactic(auto, using(eqc_tree::proofs::HoldingLemmas::counts_itself))]
    fn ite(&mut self, rt: &R, f: &Ref, g: &Ref, h: &Ref) -> Result<Ref, Stop>
        requires f { IsHeld (holding_in self.old.names) (entry_of f.now) }
        requires g { IsHeld (holding_in self.old.names) (entry_of g.now) }
        requires h { IsHeld (holding_in self.old.names) (entry_of h.now) }
        ensures ok { IfOk result (λ r. Gains (holding_in self.old.names) (holding_in self.new.names) (entry_of r) (λ a. if says (entry_of f.now) a then says (entry_of g.now) a else says (entry_of h.now) a)) }
        ensures stop { OnErr result (Keeps (holding_in self.old.names) (holding_in self.new.names)) }
        ensures only { IfErr result (λ s. s ≢ Stop.Threads) }
        ensures nodes { result ≡ Err Stop.NodeLimit → IsFull self.new.names.worker.known.core ⊎ HasSpent self.new.names }
        ensures references { result ≡ Err Stop.References → HasTaken Stop.References self.new.names.worker.known.core ⊎ ((e : Entry) × (2 ^ 32 - 3 ≤ copies (holding_in self.old.names) e)) }
        ensures worker { IsWorker self.old.names.worker self.new.names.worker }
        ensures turns { Spends self.old.names.turns self.new.names.turns }
    {
        let both = self.apply(rt, Op::And, f, g)?;
        let other = match self.apply(rt, Op::AndNot, h, f) {
            Ok(other) => other,
            Err(stop) => {
                self.give_back(both);
                return Err(stop);
            }
        };
        let either = self.apply(rt, Op::Or, &both, &other);
        self.give_back(both);
        self.give_back(other);
        either
    }

    /// Found on a copy of the diagram's nodes in a store of one thread: so it takes no node, and
    /// stops for want of memory alone.
    fn least(
        &mut self,
        _rt: &R,
        alloc: Global,
        variables: &[u16],
        f: &Ref,
    ) -> Result<Option<Vec<bool>>, Stop>
        requires held { IsHeld (holding_in self.old.names) (entry_of f.now) }
        requires within { All (λ v. v < (holding_in self.old.names).variables) variables.now }
        requires distinct { AreDistinct variables.now }
        requires satisfiable { IsSatisfiable (says (entry_of f.now)) }
        requires depends { DependsOnlyOn variables.now (says (entry_of f.now)) }
        ensures least { IfOk result (λ found. IfSome found (λ least. Some least.items ≡ find (λ values. says (entry_of f.now) (assigned variables.now values)) (assignments (length variables.now)))) }
        ensures found { IfOk result (λ found. IsSome found) }
        ensures kept { Keeps (holding_in self.old.names) (holding_in self.new.names) }
        ensures only { IfErr result (λ s. s ≡ Stop.Memory) }
        ensures worker { IsWorker self.old.names.worker self.new.names.worker }
        ensures turns { Spends self.old.names.turns self.new.names.turns }
    {
        match self.names.least(alloc, variables, f.name) {
            Ok(values) => Ok(Some(values)),
            Err(stop) => Err(stop),
        }
    }
}

impl NodeCount for Applier {
    ghost use Rattle.std.specs.Prelude.{length};

    ghost room = { λ a. a.names.worker.known.core.sizes.names - 2 };

    /// About as many as all workers' nodes take, by the stripe that this worker saw last, and no
    /// fewer than those that it holds by itself, where there is room for as many.
    fn nodes_in_use(&self) -> u32
        ensures room { result ≤ self.now.names.worker.known.core.sizes.names - 2 }
        ensures own { result < self.now.names.worker.known.core.sizes.names - 2 → length self.now.names.worker.known.core.held ≤ result }
    {
        let slots = self.names.worker.slots();
        let about = self.names.worker.slots_about_taken() as u64;
        let own = self.names.worker.held();
        about.max(own).min(u64::from(slots)) as u32
    }
}
