//! The public type: a graph that grows by gates.
ghost use Rattle.std.specs.Prelude.{◌≡◌, ℕ, Bool, ◌&&◌, [], ◌∷◌, length, IfOk};
ghost use Rattle.eqc_xag.specs.Graph.{differ, literal_value, node_value, IsWithin, IsBelow, Extends};
ghost use Rattle.eqc_sweep.specs.Sweeping.{HasValue, HasValueOf};
ghost use Rattle.eqc_sweep.specs.Finding.{IsRight};
ghost use Rattle.std.specs.List.{All};
ghost use Rattle.eqc_sweep.specs.Team.{IsAsked, IsMerge, IsTwin};

pub(crate) mod views;

use crate::effort::{Effort, Tally};
use crate::finder::Finder;
use crate::finder::comparison::Comparison;
use crate::finder::team::Merge;
use crate::finder::twins::Twins;
use crate::reduced::Reduced;
use crate::rules::reduced;
use crate::table::Table;
use crate::table::order::ordered;
use eqc_xag::{Graph, Literal, Node, negated_if, node_of};
use std::alloc::{AllocError, Global};
use std::marker::Model;
use std::thread::Threads;

/// A graph, seen as its nodes, in which a node that is found equal to an older one is not made.
pub struct Sweep {
    graph: Graph,
    table: Table,
    finder: Finder,
}

impl Model for Sweep {
    ghost use Rattle.std.specs.Prelude.{List};
    ghost use Rattle.eqc_xag.specs.declared.node.Node.{Node};
    ghost use Rattle.eqc_sweep.specs.Known.{AreKnown};

    ghost Value = { List Node };

    ghost view = { λ s. s.graph };

    ghost invariant = { λ s. AreKnown s.graph s.table.entries.items };
}

/// It stands here for the sake of proofs: where a sweep is let go there is a call in place of all
/// its parts.
impl Drop for Sweep {
    fn drop(self) {
        let Sweep {
            graph: _,
            table: _,
            finder: _,
        } = self;
    }
}

impl Sweep {
    #[tactic(auto, using(crate::proofs::TableLemmas::known_none))]
    /// The constant alone. Fails where memory is refused.
    pub fn new(alloc: Global, effort: Effort) -> Result<Sweep, AllocError>
        ensures { IfOk result (λ s. s ≡ Node.Constant ∷ []) }
    {
        Ok(Sweep {
            graph: Graph::new(alloc)?,
            table: Table::new(alloc),
            finder: Finder::new(alloc, effort)?,
        })
    }

    /// The constant alone, for what `copy` takes of a sweep: its inputs are to enter in the same
    /// order, and are simulated as they were there. Fails where memory is refused.
    pub fn again(&self, alloc: Global, effort: Effort) -> Result<Sweep, AllocError>
        ensures { IfOk result (λ s. s ≡ Node.Constant ∷ []) }
    {
        Ok(Sweep {
            graph: Graph::new(alloc)?,
            table: Table::new(alloc),
            finder: self.finder.again(effort)?,
        })
    }

    /// What came of the questions so far. Nothing is promised of it.
    pub fn tally(&self) -> Tally {
        self.finder.tally()
    }

    /// The graph as it is.
    pub fn graph(&self) -> &Graph
        ensures { result.now ≡ self.now }
    {
        &self.graph
    }

    /// From now on new nodes are not asked about any more: one that is equal to an older one may be
    /// made.
    pub fn ask_no_more(&mut self)
        ensures { self.new ≡ self.old }
    {
        self.finder.ask_no_more();
    }

    /// Where its memory comes from.
    pub(crate) fn alloc(&self) -> Global {
        self.table.alloc
    }

    /// From now on what a new node may equal isn't asked at once: the node waits until it is asked
    /// about all that do, by `ask_waiting`.
    pub(crate) fn begin_waiting(&mut self)
        ensures { self.new ≡ self.old }
    {
        self.finder.wait(true);
    }

    /// From now on new nodes are asked about at once, as at first.
    pub(crate) fn end_waiting(&mut self)
        ensures { self.new ≡ self.old }
    {
        self.finder.wait(false);
    }

    /// Whether the node of a literal waits. It isn't to be built on until it doesn't.
    pub(crate) fn is_waiting(&self, literal: Literal) -> bool {
        self.finder.is_waiting(node_of(literal))
    }

    /// Asks about all nodes that wait. Where one is found equal to an older one, its literal is
    /// that of the older one, for who asks for it again. Fails where memory is refused.
    pub(crate) fn ask_waiting<R: Threads + Sync>(&mut self, rt: &R) -> Result<(), AllocError>
        ensures { self.new ≡ self.old }
    {
        let merges = self.finder.ask_waiting(rt, &self.graph)?;
        self.put_all(&merges)
    }

    /// Keeps the literals of older nodes for those that equal them.
    fn put_all(&mut self, merges: &[Merge]) -> Result<(), AllocError>
        requires { All (IsMerge self.old) merges.now }
        ensures { self.new ≡ self.old }
    {
        for merge in merges {
            self.put_older(*merge)?;
        }
        Ok(())
    }

    #[tactic(auto, using(crate::proofs::SweepLemmas::literal_older))]
    /// Keeps the literal of an older node for one that equals it.
    fn put_older(&mut self, merge: Merge) -> Result<(), AllocError>
        requires { IsMerge self.old merge }
        ensures { self.new ≡ self.old }
    {
        let k = node_of(merge.new);
        if k >= self.graph.len() {
            return Ok(());
        }
        let node = self.graph.node(k);
        self.table.put(node, merge.older)
    }

    /// From now on new nodes are asked about again, with this effort, as if nothing was spent so
    /// far, and alike about all. Before that more assignments are simulated, such as make carries
    /// go far. A sweep that doesn't simulate asks nothing. Fails where memory is refused.
    pub fn ask_again(&mut self, effort: Effort) -> Result<(), AllocError>
        ensures { self.new ≡ self.old }
    {
        self.finder.ask_again(&self.graph, effort)
    }

    #[tactic(auto, using(crate::proofs::ConstantLemmas::constant_true, crate::proofs::ConstantLemmas::constant_false))]
    /// The literal that is always true, or the one that is always false.
    pub fn constant(&self, value: bool) -> Literal
        ensures { HasValue self.now result (λ _. value) }
    {
        let _ = self.graph.len();
        if value { 1 } else { 0 }
    }

    /// The literal of a variable, each time the same. Fails where memory is refused, or where there
    /// are 2^30 nodes.
    pub fn input(&mut self, variable: u32) -> Result<Literal, AllocError>
        ensures extends { Extends self.old self.new }
        ensures value { IfOk result (λ l. HasValue self.new l (λ a. a variable)) }
    {
        self.enter(Node::Input(variable))
    }

    /// The conjunction of two literals. Fails where memory is refused, or where there are 2^30
    /// nodes.
    pub fn and(&mut self, x: Literal, y: Literal) -> Result<Literal, AllocError>
        requires x { IsWithin self.old x }
        requires y { IsWithin self.old y }
        ensures extends { Extends self.old self.new }
        ensures value { IfOk result (λ l. HasValue self.new l (λ a. literal_value self.old a x && literal_value self.old a y)) }
    {
        self.gate(Node::And(x, y))
    }

    /// Whether just one of two literals is true. Fails where memory is refused, or where there are
    /// 2^30 nodes.
    pub fn xor(&mut self, x: Literal, y: Literal) -> Result<Literal, AllocError>
        requires x { IsWithin self.old x }
        requires y { IsWithin self.old y }
        ensures extends { Extends self.old self.new }
        ensures value { IfOk result (λ l. HasValue self.new l (λ a. differ (literal_value self.old a x) (literal_value self.old a y))) }
    {
        self.gate(Node::Xor(x, y))
    }

    #[tactic(auto, using(crate::proofs::SweepLemmas::value_there, crate::proofs::SweepLemmas::value_absent, crate::proofs::SweepLemmas::extends_same))]
    /// The literal of a gate, by the rules, or else by its form.
    fn gate(&mut self, node: Node) -> Result<Literal, AllocError>
        requires { IsBelow (length self.old) node }
        ensures extends { Extends self.old self.new }
        ensures value { IfOk result (HasValueOf self.old self.new node) }
    {
        match reduced(&self.graph, node) {
            Reduced::There(literal) => Ok(literal),
            Reduced::Absent(other) => {
                let (form, complement) = ordered(other);
                let literal = self.enter(form)?;
                Ok(negated_if(literal, complement))
            }
        }
    }

    #[tactic(auto, using(crate::proofs::SweepLemmas::value_known, crate::proofs::SweepLemmas::known_put, crate::proofs::SweepLemmas::extends_same))]
    /// The literal of a node, by the table, or else of an older node that is found equal, or else
    /// of a new one.
    fn enter(&mut self, node: Node) -> Result<Literal, AllocError>
        requires { IsBelow (length self.old) node }
        ensures extends { Extends self.old self.new }
        ensures value { IfOk result (HasValueOf self.old self.new node) }
    {
        if let Some(literal) = self.table.find(node) {
            return Ok(literal);
        }
        let literal = self.make(node)?;
        let _ = self.graph.len();
        self.table.put(node, literal)?;
        Ok(literal)
    }

    #[tactic(auto, using(crate::proofs::SweepLemmas::value_new, crate::proofs::SweepLemmas::value_older, crate::proofs::SweepLemmas::taken_back, crate::proofs::SweepLemmas::extends_same, crate::proofs::TableLemmas::known_extended))]
    /// The literal of an older node that is found equal, or else of a new one.
    fn make(&mut self, node: Node) -> Result<Literal, AllocError>
        requires { IsBelow (length self.old) node }
        ensures extends { Extends self.old self.new }
        ensures value { IfOk result (HasValueOf self.old self.new node) }
    {
        let nodes = self.graph.len();
        let literal = self.graph.push(node)?;
        match self.finder.older_equal(&self.graph, literal)? {
            None => Ok(literal),
            Some(older) => {
                self.graph.truncate(nodes);
                Ok(older)
            }
        }
    }

    /// Whether two literals are equal, by simulation and, unless there are none, by a search with
    /// so many conflicts. Those that there were are taken away, and at least one for each thousand
    /// literals that were visited. Fails where memory is refused.
    pub fn equal(
        &mut self,
        x: Literal,
        y: Literal,
        conflicts: &mut u64,
    ) -> Result<Comparison, AllocError>
        requires x { IsWithin self.old x }
        requires y { IsWithin self.old y }
        ensures unchanged { self.new ≡ self.old }
        ensures right { IfOk result (IsRight self.old x y) }
    {
        self.finder.compare(&self.graph, x, y, conflicts)
    }

    /// Those of these pairs whose literals are found equal, in their order, with the conflicts that
    /// it took: each by a search of its own with so many of them, and several at once by the
    /// threads of the effort. What is found doesn't depend on how many there are. Fails where
    /// memory is refused.
    pub fn equal_among<R: Threads + Sync>(
        &mut self,
        rt: &R,
        pairs: &[Twins],
        conflicts: u64,
    ) -> Result<Vec<Twins>, AllocError>
        ensures unchanged { self.new ≡ self.old }
        ensures equal { IfOk result (λ equal. All (IsTwin self.old) equal.items) }
        ensures asked { IfOk result (λ equal. All (IsAsked pairs.now) equal.items) }
    {
        self.finder.equal_among(rt, &self.graph, pairs, conflicts)
    }

    /// Those of these pairs whose literals are found equal, in their order, where one is asked
    /// about after the other, each with the conflicts that those before it left. Those that it took
    /// are taken away, and at least one for each thousand literals that were visited. The threads
    /// of the effort ask about as many pairs as they are at once, in vain where those before leave
    /// less than it takes. What is found doesn't depend on how many there are. Fails where memory
    /// is refused.
    pub fn equal_in_turn<R: Threads + Sync>(
        &mut self,
        rt: &R,
        pairs: &[Twins],
        conflicts: &mut u64,
    ) -> Result<Vec<Twins>, AllocError>
        ensures unchanged { self.new ≡ self.old }
        ensures equal { IfOk result (λ equal. All (IsTwin self.old) equal.items) }
        ensures asked { IfOk result (λ equal. All (IsAsked pairs.now) equal.items) }
    {
        self.finder.equal_in_turn(rt, &self.graph, pairs, conflicts)
    }
}
