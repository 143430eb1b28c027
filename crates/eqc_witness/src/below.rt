//! The nodes below a literal, which are found again by their numbers.
ghost use Rattle.std.specs.Prelude.{◌≡◌, ◌<◌, length, slice_index_or, IfSome};

use eqc_xag::{Graph, Literal, Node, node_of};
use std::alloc::{AllocError, Global};

/// In a slot that is free.
const FREE: u32 = u32::MAX;

/// The fewest slots.
const FEWEST: usize = 64;

/// Nodes in a row, each of them once.
#[derive(Drop)]
pub(crate) struct Below {
    alloc: Global,
    pub(crate) nodes: Vec<u32>,
    /// Places in that row: each stands in the first slot that was free from its node's home on.
    /// What stands here only says where a node is looked for.
    slots: Vec<u32>,
}

/// Where the search for a node begins, among so many slots, a power of two.
fn home(node: u32, slots: usize) -> usize {
    let mixed = u64::from(node).wrapping_mul(0x9E37_79B9_7F4A_7C15);
    (mixed >> 32) as usize & slots.wrapping_sub(1)
}

impl Below {
    fn new(alloc: Global) -> Below {
        Below {
            alloc,
            nodes: Vec::new(alloc),
            slots: Vec::new(alloc),
        }
    }

    /// The slot of a node, or else the first one that is free.
    fn slot_of(&self, node: u32) -> usize {
        let slots = self.slots.as_slice();
        let mut at = home(node, slots.len());
        for _ in 0..slots.len() {
            let place = slots.get(at).copied().unwrap_or(FREE);
            if place == FREE {
                return at;
            }
            if self.nodes.get(place as usize).copied() == Some(node) {
                return at;
            }
            at = if at < slots.len() - 1 { at + 1 } else { 0 };
        }
        at
    }

    /// The place of a node in the row, if it is there.
    pub(crate) fn place_of(&self, node: u32) -> Option<usize>
        ensures inside { IfSome result (λ place. place < length self.now.nodes.items) }
        ensures node { IfSome result (λ place. slice_index_or self.now.nodes.items place 0 ≡ node) }
    {
        let place = self.slots.get(self.slot_of(node)).copied()? as usize;
        if place < self.nodes.len() && self.nodes[place] == node {
            return Some(place);
        }
        None
    }

    /// Fills so many slots anew.
    fn fill(&mut self, slots: usize) -> Result<(), AllocError> {
        self.slots = vec![in self.alloc; FREE; slots]?;
        for place in 0..self.nodes.len() {
            let slot = self.slot_of(self.nodes[place]);
            if slot < self.slots.len() && place < FREE as usize {
                self.slots[slot] = place as u32;
            }
        }
        Ok(())
    }

    /// Enters a node that may be there.
    fn enter(&mut self, node: u32) -> Result<(), AllocError> {
        let slots = self.slots.len();
        if self.nodes.len() >= slots / 2 {
            self.fill(slots.max(FEWEST / 2).saturating_mul(2))?;
        }
        let slot = self.slot_of(node);
        let place = self.nodes.len();
        if slot < self.slots.len() && self.slots[slot] == FREE && place < FREE as usize {
            self.slots[slot] = place as u32;
            self.nodes.push(node)?;
        }
        Ok(())
    }

    /// Enters the operands of a node.
    fn enter_operands(&mut self, node: Node) -> Result<(), AllocError> {
        match node {
            Node::Constant | Node::Input(_) => Ok(()),
            Node::And(x, y) | Node::Xor(x, y) => {
                self.enter(node_of(x))?;
                self.enter(node_of(y))
            }
        }
    }

    /// The node of a literal and all that it is made of, in the order of the graph. It takes time
    /// in proportion to these, and a little more to sort them. Fails where memory is refused.
    pub(crate) fn of(alloc: Global, graph: &Graph, literal: Literal) -> Result<Below, AllocError> {
        let mut below = Below::new(alloc);
        below.enter(node_of(literal))?;
        for place in 0..graph.len() as usize {
            let Some(node) = below.nodes.get(place).copied() else {
                break;
            };
            if node < graph.len() {
                below.enter_operands(graph.node(node))?;
            }
        }
        below.nodes.sort_unstable();
        let slots = below.slots.len();
        below.fill(slots)?;
        Ok(below)
    }
}
