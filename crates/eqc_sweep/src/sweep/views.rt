//! What a sweep knows besides its graph: the gates that were asked for, and nodes that look alike.
//! Nothing is promised of it.

use crate::reduced::Reduced;
use crate::rules::reduced;
use crate::sweep::Sweep;
use crate::table::order::ordered;
use eqc_xag::{Literal, Node, negated, negated_if, node_of};

impl Sweep {
    /// How many places there are for gates that were asked for.
    pub fn places(&self) -> usize {
        self.table.entries.len()
    }

    /// The gate in one of these places and its literal, which is of another gate's node where the
    /// two were found equal.
    pub fn asked(&self, place: usize) -> Option<(Node, u32)> {
        let known = *self.table.entries.get(place)?;
        if known.node == Node::Constant {
            return None;
        }
        Some((known.node, known.literal))
    }

    /// The literal of a gate, if it is there by the rules or by its form.
    fn there(&self, x: Literal, y: Literal, is_and: bool) -> Option<Literal> {
        let nodes = self.graph.len();
        if node_of(x) >= nodes || node_of(y) >= nodes {
            return None;
        }
        let node = if is_and {
            Node::And(x, y)
        } else {
            Node::Xor(x, y)
        };
        match reduced(&self.graph, node) {
            Reduced::There(literal) => Some(literal),
            Reduced::Absent(other) => {
                let (form, complement) = ordered(other);
                Some(negated_if(self.table.find(form)?, complement))
            }
        }
    }

    /// The carry of three literals, if its gates are there.
    pub fn carry_there(&self, x: Literal, y: Literal, z: Literal) -> Option<Literal> {
        let one = self.there(x, y, false)?;
        let both = self.there(x, y, true)?;
        let carried = self.there(one, z, true)?;
        let neither = self.there(negated(both), negated(carried), true)?;
        Some(negated(neither))
    }

    /// The oldest literal that simulation doesn't tell from the carry of three others, if there is
    /// one.
    pub fn like_carry(&self, x: Literal, y: Literal, z: Literal) -> Option<u32> {
        self.finder.like_carry(&[x], y, z)
    }

    /// The oldest literal that simulation doesn't tell from the carry of three, of which the first
    /// is the sum of literals, if there is one.
    pub fn like_carry_of_sum(&self, literals: &[Literal], y: Literal, z: Literal) -> Option<u32> {
        self.finder.like_carry(literals, y, z)
    }

    /// The oldest literal that simulation doesn't tell from the sum of literals, which is true
    /// where an odd number of them are, if there is one.
    pub fn like_sum(&self, literals: &[Literal]) -> Option<u32> {
        self.finder.like_sum(literals)
    }

    /// The oldest literal that simulation doesn't tell from a node, if that isn't one of these
    /// nodes.
    pub fn like_node(&self, node: u32, but: &[Literal]) -> Option<u32> {
        self.finder.like_node(node, but)
    }
}
