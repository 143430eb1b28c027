//! The diagrams as callers have them: a node store, an operation cache and a stack of tasks, with
//! the calls of the traits.
ghost use Rattle.std.specs.Prelude.{◌≡◌};
ghost use Rattle.eqc_plain.specs.Cache.{IsCache};
ghost use Rattle.eqc_plain.specs.Meaning.{meaning_of};

use crate::cache::Cache;
use crate::node_count::NodeCount;
use crate::reference::Ref;
use crate::store::Store;
use crate::task::Task;
use eqc_tree::{Diagrams, Op, References, Stop};
use std::alloc::Global;

/// Shared decision diagrams on one thread. Nodes are never given back.
#[derive(Drop)]
pub struct Plain {
    pub(crate) store: Store,
    pub(crate) cache: Cache,
    pub(crate) tasks: Vec<Task>,
    // How many more turns operations may take beyond their first ones, where that is limited.
    pub(crate) turns: Option<u64>,
    ghost cached: { IsCache (meaning_of store.variables store.nodes) cache.cells.items },
}

impl Plain {
    ghost use Rattle.std.specs.Prelude.{◌≤◌, [], None, IfOk, IfErr};
    ghost use Rattle.eqc_tree.specs.Holding.{IsNew};

    /// Diagrams over `vars` variables with room for `nodes` nodes, of which there are none yet.
    /// Operations take as many turns as they need: they stop for nodes only where all slots are
    /// taken.
    ///
    /// `nodes` is from 1 to 1,048,574. The error is `Memory` alone.
    pub fn new(alloc: Global, vars: u16, nodes: u32) -> Result<Plain, Stop>
        requires some { 1 ≤ nodes }
        requires few { nodes ≤ 1048574 }
        ensures empty { IfOk result (λ p. IsNew vars (⟦<Plain as References>⟧.holding p)) }
        ensures none { IfOk result (λ p. p.store.nodes ≡ []) }
        ensures room { IfOk result (λ p. p.store.limit ≡ nodes) }
        ensures endless { IfOk result (λ p. p.turns ≡ None) }
        ensures only { IfErr result (λ s. s ≡ Stop.Memory) }
    {
        Plain::with_turns(alloc, vars, nodes, None)
    }

    /// Diagrams as `new` makes them, whose operations may take so many turns in all beyond those
    /// that are free, the first 1,024 of each operation; as many as they need where `turns` is
    /// none. A turn is one step from a pair of operands to the next one. Two large operands have as
    /// many pairs as the product of their sizes, also where the result is small.
    pub fn with_turns(
        alloc: Global,
        vars: u16,
        nodes: u32,
        turns: Option<u64>,
    ) -> Result<Plain, Stop>
        requires some { 1 ≤ nodes }
        requires few { nodes ≤ 1048574 }
        ensures empty { IfOk result (λ p. IsNew vars (⟦<Plain as References>⟧.holding p)) }
        ensures none { IfOk result (λ p. p.store.nodes ≡ []) }
        ensures room { IfOk result (λ p. p.store.limit ≡ nodes) }
        ensures turns { IfOk result (λ p. p.turns ≡ turns) }
        ensures only { IfErr result (λ s. s ≡ Stop.Memory) }
    {
        Ok(Plain {
            store: Store::new(alloc, vars, nodes)?,
            cache: Cache::new(alloc),
            tasks: Vec::new(alloc),
            turns,
        })
    }
}

impl References for Plain {
    ghost use Rattle.std.specs.Prelude.{ℕ, ◌+◌, ◌-◌, ◌^◌, IsOk, OnErr, IfOk, IfErr};
    ghost use Rattle.eqc_tree.specs.Holding.{IsHeld, Gains, Keeps, Loses, copies, says};
    ghost use Rattle.eqc_plain.specs.Referring.{entry_of};
    ghost use Rattle.eqc_plain.specs.Extending.{holding_in};
    ghost use Rattle.eqc_plain.specs.Standing.{OnlyRecounts};

    type Ref = Ref;

    ghost entry = { entry_of };

    ghost holding = { λ p. holding_in p.store };

    /// Never stops, and takes no memory.
    fn constant(&mut self, b: bool) -> Result<Ref, Stop>
        ensures ok { IfOk result (λ r. Gains (holding_in self.old.store) (holding_in self.new.store) (entry_of r) (λ _. b)) }
        ensures stop { OnErr result (Keeps (holding_in self.old.store) (holding_in self.new.store)) }
        ensures never { IsOk result }
        ensures still { OnlyRecounts self.old self.new }
    {
        self.store.hold(b as u32)
    }

    /// Stops only at 2^32 - 1 references to one node, and takes no memory.
    fn copy(&mut self, f: &Ref) -> Result<Ref, Stop>
        requires { IsHeld (holding_in self.old.store) (entry_of f.now) }
        ensures ok { IfOk result (λ r. Gains (holding_in self.old.store) (holding_in self.new.store) (entry_of r) (says (entry_of f.now))) }
        ensures stop { OnErr result (Keeps (holding_in self.old.store) (holding_in self.new.store)) }
        ensures only { IfErr result (λ s. s ≡ Stop.References) }
        ensures full { OnErr result (copies (holding_in self.old.store) (entry_of f.now) ≡ 2 ^ 32 - 1) }
        ensures still { OnlyRecounts self.old self.new }
    {
        self.store.hold(f.node)
    }

    /// Takes no memory.
    fn give_back(&mut self, f: Ref)
        requires { IsHeld (holding_in self.old.store) (entry_of f) }
        ensures loses { Loses (holding_in self.old.store) (holding_in self.new.store) (entry_of f) }
        ensures still { OnlyRecounts self.old self.new }
    {
        self.store.release(f);
    }

    fn same(&self, f: &Ref, g: &Ref) -> bool {
        f.node == g.node
    }

    fn as_constant(&self, f: &Ref) -> Option<bool> {
        if f.node == 0 {
            return Some(false);
        }
        if f.node == 1 {
            return Some(true);
        }
        None
    }
}

impl<R> Diagrams<R> for Plain {
    ghost use Rattle.std.specs.Prelude.{ℕ, ◌<◌, ◌≤◌, ◌≢◌, ◌-◌, ◌^◌, ◌⊎◌, Bool, if◌then◌else◌, OnErr, IfOk, IfErr, IfSome, IsSome, length, slice_index};
    ghost use Rattle.std.specs.List.{All, find};
    ghost use Rattle.eqc_tree.specs.Assigned.{assigned, assignments, AreDistinct, DependsOnlyOn, IsSatisfiable};
    ghost use Rattle.eqc_tree.specs.Word.{node_word};
    ghost use Rattle.eqc_tree.specs.Operation.{operate};
    ghost use Rattle.eqc_tree.specs.Holding.{Entry, IsHeld, Gains, Keeps, copies, says};
    ghost use Rattle.eqc_plain.specs.Extending.{holding_in, IsFull};
    ghost use Rattle.eqc_plain.specs.Spending.{Spends, IsSpent};
    ghost use Rattle.eqc_plain.specs.Store.{Grows};
    ghost use Rattle.eqc_plain.specs.Terminal.{Decides};
    ghost use Rattle.eqc_plain.specs.Referring.{entry_of};

    /// Stops for nodes only where all slots are taken, and for references only at 2^32 - 1 to one
    /// node. Where the variable has its node it stops for references alone.
    fn literal(&mut self, _rt: &R, var: u16) -> Result<Ref, Stop>
        requires { var < (holding_in self.old.store).variables }
        ensures ok { IfOk result (λ r. Gains (holding_in self.old.store) (holding_in self.new.store) (entry_of r) (λ a. a var)) }
        ensures stop { OnErr result (Keeps (holding_in self.old.store) (holding_in self.new.store)) }
        ensures only { IfErr result (λ s. s ≢ Stop.Threads) }
        ensures absent { IfErr result (λ s. s ≢ Stop.References → (k : ℕ) → k < length self.old.store.nodes → slice_index self.old.store.nodes k ≢ node_word var 0 1) }
        ensures nodes { result ≡ Err Stop.NodeLimit → IsFull self.new.store }
        ensures grows { Grows self.old.store.nodes self.new.store.nodes }
        ensures references { result ≡ Err Stop.References → (e : Entry) × (2 ^ 32 - 1 ≤ copies (holding_in self.old.store) e) }
        ensures room { self.new.store.limit ≡ self.old.store.limit }
        ensures turns { self.new.turns ≡ self.old.turns }
    {
        let x = self.store.node(var, 0, 1)?;
        self.store.hold(x)
    }

    /// Stops for nodes only where all slots are taken or the turns that are allowed are spent, for
    /// references as `literal` does, and for references alone where the result is an operand or a
    /// constant whatever the functions. No call gives turns back.
    fn apply(&mut self, _rt: &R, op: Op, f: &Ref, g: &Ref) -> Result<Ref, Stop>
        requires f { IsHeld (holding_in self.old.store) (entry_of f.now) }
        requires g { IsHeld (holding_in self.old.store) (entry_of g.now) }
        ensures ok { IfOk result (λ r. Gains (holding_in self.old.store) (holding_in self.new.store) (entry_of r) (λ a. operate op (says (entry_of f.now) a) (says (entry_of g.now) a))) }
        ensures stop { OnErr result (Keeps (holding_in self.old.store) (holding_in self.new.store)) }
        ensures only { IfErr result (λ s. s ≢ Stop.Threads) }
        ensures undecided { IfErr result (λ s. s ≢ Stop.References → (x : ℕ) → ¬ Decides op f.now.node g.now.node x) }
        ensures nodes { result ≡ Err Stop.NodeLimit → IsFull self.new.store ⊎ IsSpent self.new.turns }
        ensures grows { Grows self.old.store.nodes self.new.store.nodes }
        ensures references { result ≡ Err Stop.References → (e : Entry) × (2 ^ 32 - 1 ≤ copies (holding_in self.old.store) e) }
        ensures room { self.new.store.limit ≡ self.old.store.limit }
        ensures turns { Spends self.old.turns self.new.turns }
    {
        let x = self.combine(op, f.node, g.node)?;
        self.store.hold(x)
    }

    /// Stops for nodes as `apply` does, and for references only at 2^32 - 3 or more to one node, to
    /// which two more may come on the way.
    #[tactic(auto, using(eqc_tree::proofs::HoldingLemmas::counts_itself))]
    fn ite(&mut self, rt: &R, f: &Ref, g: &Ref, h: &Ref) -> Result<Ref, Stop>
        requires f { IsHeld (holding_in self.old.store) (entry_of f.now) }
        requires g { IsHeld (holding_in self.old.store) (entry_of g.now) }
        requires h { IsHeld (holding_in self.old.store) (entry_of h.now) }
        ensures ok { IfOk result (λ r. Gains (holding_in self.old.store) (holding_in self.new.store) (entry_of r) (λ a. if says (entry_of f.now) a then says (entry_of g.now) a else says (entry_of h.now) a)) }
        ensures stop { OnErr result (Keeps (holding_in self.old.store) (holding_in self.new.store)) }
        ensures only { IfErr result (λ s. s ≢ Stop.Threads) }
        ensures nodes { result ≡ Err Stop.NodeLimit → IsFull self.new.store ⊎ IsSpent self.new.turns }
        ensures grows { Grows self.old.store.nodes self.new.store.nodes }
        ensures references { result ≡ Err Stop.References → (e : Entry) × (2 ^ 32 - 3 ≤ copies (holding_in self.old.store) e) }
        ensures room { self.new.store.limit ≡ self.old.store.limit }
        ensures turns { Spends self.old.turns self.new.turns }
    {
        let both = self.apply(rt, Op::And, f, g)?;
        let other = match self.apply(rt, Op::AndNot, h, f) {
            Ok(other) => other,
            Err(stop) => {
                self.give_back(both);
                return Err(stop);
            }
        };
        let either = self.apply(rt, Op::Or, &both, &other);
        self.give_back(both);
        self.give_back(other);
        either
    }

    /// Found by a search on a copy of the function's diagram, however many other nodes there are.
    /// It makes no node, and stops for want of memory alone.
    fn least(
        &mut self,
        _rt: &R,
        alloc: Global,
        variables: &[u16],
        f: &Ref,
    ) -> Result<Option<Vec<bool>>, Stop>
        requires held { IsHeld (holding_in self.old.store) (entry_of f.now) }
        requires within { All (λ v. v < (holding_in self.old.store).variables) variables.now }
        requires distinct { AreDistinct variables.now }
        requires satisfiable { IsSatisfiable (says (entry_of f.now)) }
        requires depends { DependsOnlyOn variables.now (says (entry_of f.now)) }
        ensures least { IfOk result (λ found. IfSome found (λ least. Some least.items ≡ find (λ values. says (entry_of f.now) (assigned variables.now values)) (assignments (length variables.now)))) }
        ensures found { IfOk result (λ found. IsSome found) }
        ensures still { self.new ≡ self.old }
        ensures kept { Keeps (holding_in self.old.store) (holding_in self.new.store) }
        ensures only { IfErr result (λ s. s ≡ Stop.Memory) }
    {
        let diagram = self.store.diagram(alloc, f.node as usize)?;
        let values = diagram.store.least(alloc, variables, diagram.top)?;
        Ok(Some(values))
    }
}

impl NodeCount for Plain {
    ghost use Rattle.std.specs.Prelude.{◌≤◌, length};

    ghost room = { λ p. p.store.limit };

    /// Each node that was made, since none is given back.
    fn nodes_in_use(&self) -> u32
        ensures room { result ≤ self.now.store.limit }
        ensures each { result ≡ length self.now.store.nodes }
    {
        self.store.nodes.len() as u32
    }
}
