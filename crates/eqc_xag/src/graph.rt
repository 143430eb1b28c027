//! The row of nodes.
ghost use Rattle.std.specs.Prelude.{◌≡◌, ℕ, ◌*◌, ◌/◌, ◌<◌, ◌≤◌, Bool, List, [], ◌∷◌, ◌++◌, length, take, IfOk, OnOk, OnErr};
ghost use Rattle.eqc_xag.specs.Graph.{node_value, literal_value, IsBelow, node_at, IsGraph, Extends};

use crate::{Literal, Node};
use std::alloc::{AllocError, Global};
use std::marker::Model;

/// How many nodes there may be: their literals, and counts of these, fit in `u32`.
const MOST: usize = 1 << 30;

/// Nodes, each of which is made of earlier ones. The first is the constant.
#[derive(Drop)]
pub struct Graph {
    nodes: Vec<Node>,
}

impl Model for Graph {
    ghost use Rattle.std.specs.Prelude.{List};
    ghost use Rattle.eqc_xag.specs.declared.node.Node.{Node};
    ghost use Rattle.eqc_xag.specs.Graph.{IsGraph};

    ghost Value = { List Node };

    ghost view = { λ g. g.nodes.items };

    ghost invariant = { λ g. IsGraph g.nodes.items };
}

impl Graph {
    /// The constant alone. Fails where memory is refused.
    pub fn new(alloc: Global) -> Result<Graph, AllocError>
        ensures { IfOk result (λ g. g ≡ Node.Constant ∷ []) }
    {
        let mut nodes = Vec::new(alloc);
        nodes.push(Node::Constant)?;
        Ok(Graph { nodes })
    }

    /// How many nodes there are, from 1 to 2^30.
    pub fn len(&self) -> u32
        ensures len { result ≡ length self.now }
        ensures graph { IsGraph self.now }
    {
        self.nodes.len() as u32
    }

    /// The node of this number, which is below their count.
    pub fn node(&self, k: u32) -> Node
        requires { k < length self.now }
        ensures node { result ≡ node_at self.now k }
        ensures below { IsBelow k result }
        ensures value { (a : ℕ → Bool) → literal_value self.now a (2 * k) ≡ node_value a (literal_value self.now a) result }
    {
        self.nodes[k as usize]
    }

    #[tactic(auto, using(crate::proofs::GraphLemmas::extends_more, crate::proofs::GraphLemmas::extends_itself, crate::proofs::GraphLemmas::value_pushed))]
    /// Puts a node behind the others, and gives its literal. Fails where memory is refused, or
    /// where there are 2^30 nodes.
    pub fn push(&mut self, node: Node) -> Result<Literal, AllocError>
        requires { IsBelow (length self.old) node }
        ensures pushed { OnOk result (self.new ≡ self.old ++ node ∷ []) }
        ensures literal { IfOk result (λ l. l ≡ 2 * length self.old) }
        ensures value { IfOk result (λ l. (a : ℕ → Bool) → literal_value self.new a l ≡ node_value a (literal_value self.old a) node) }
        ensures err { OnErr result (self.new ≡ self.old) }
        ensures extends { Extends self.old self.new }
    {
        let at = self.nodes.len();
        if at >= MOST {
            return Err(AllocError);
        }
        self.nodes.push(node)?;
        Ok(2 * at as u32)
    }

    #[tactic(auto, using(crate::proofs::GraphLemmas::extends_cut))]
    /// Takes back the last nodes, all but the first `len`, which are 1 at least.
    pub fn truncate(&mut self, len: u32)
        requires some { 0 < len }
        requires within { len ≤ length self.old }
        ensures cut { self.new ≡ take len self.old }
        ensures extends { Extends self.new self.old }
    {
        self.nodes.truncate(len as usize);
    }
}
