//! What is known of the nodes of a graph: what is below each, and of which adders it is the sum or
//! the carry. Nothing is believed of it.
mod finding;

use crate::support::{ROOM, Support, differing, joined, of_one};
use eqc_sweep::Sweep;
use eqc_xag::{Graph, Literal, Node, node_of};
use std::alloc::{AllocError, Global};

/// Three literals, their sum and their carry.
#[derive(Clone, Copy)]
pub(crate) struct Block {
    pub(crate) x: Literal,
    pub(crate) y: Literal,
    pub(crate) z: Literal,
    pub(crate) sum: Literal,
    pub(crate) carry: Literal,
}

/// What is known of a node.
#[derive(Drop)]
pub(crate) struct Known {
    /// What makes it, in the graph.
    pub(crate) gate: Node,
    pub(crate) level: u32,
    pub(crate) support: Support,
    /// The nodes of which it is the exclusive or, itself where these are many or it is none.
    leaves: Support,
    /// Whether its polynomial has few terms: few inputs are below it, or it is the exclusive or of
    /// few conjunctions of inputs.
    is_small: bool,
    /// Whether it has since what is below its gate cancels out in an exclusive or.
    is_cancelled: bool,
    /// How many ways lead from it down to inputs.
    ways: u32,
    /// Whether it is a conjunction of inputs, or stands for one.
    pub(crate) is_plain: bool,
    /// Whether it was made to see whether it is there.
    is_tried: bool,
    /// Literals of which it is the difference.
    pub(crate) pairs: Vec<(Literal, Literal)>,
    /// Literals above it, or beside it, of which it was found to be the difference.
    merged: Vec<(Literal, Literal)>,
    pub(crate) sums: Vec<Block>,
    pub(crate) carries: Vec<Block>,
    /// Three literals whose carry it is, the first of which has the other polarity in a carry that
    /// comes before it.
    pub(crate) relations: Vec<Block>,
    /// Complements of which it is the conjunction, though it isn't made of them, and its literal
    /// that is.
    pub(crate) others: Vec<(Literal, Literal, Literal)>,
}

/// What is known of the nodes.
#[derive(Drop)]
pub(crate) struct Adders {
    alloc: Global,
    pub(crate) nodes: Vec<Known>,
    /// How many inputs are few.
    few: usize,
    /// Whether it is asked for carries of each sum without an adder of three literals, and not only
    /// of those without any.
    is_thorough: bool,
    /// For so many of the first nodes adders were looked for.
    seen: u32,
    /// How many nodes there were at first, and when a form was begun.
    first: u32,
    begun: u32,
}

/// So many times as many nodes as there were at first, and as many times this number at least, may
/// be made for a form.
const GROWTH: u32 = 2;

const FEWEST: u32 = 1_000;

/// The inputs of a product of two bits.
const PAIR: usize = 2;

/// How many inputs are somewhat more than few.
const RATHER: usize = 8;

/// A node isn't put as a polynomial of inputs from which so many ways lead to them.
const WAYS: u32 = 4_096;

/// Whether a carry is a constant or one of the literals.
pub(crate) fn is_degenerate(block: &Block) -> bool {
    let carry = node_of(block.carry);
    carry == 0 || carry == block.x / 2 || carry == block.y / 2 || carry == block.z / 2
}

impl Adders {
    pub(crate) fn new(alloc: Global, few: usize, is_thorough: bool, first: u32) -> Adders {
        Adders {
            alloc,
            nodes: Vec::new(alloc),
            few,
            is_thorough,
            seen: 0,
            first,
            begun: 0,
        }
    }

    /// How many nodes the graph may have before a form is given up: in steps that are in vain more
    /// and more products are made.
    pub(crate) fn most(&self) -> u32 {
        let more = self.first.max(FEWEST).saturating_mul(GROWTH);
        self.begun.saturating_add(more)
    }

    /// A form is begun, in a graph of so many nodes.
    pub(crate) fn begin(&mut self, nodes: u32) {
        self.begun = nodes;
    }

    /// How many nodes there were at first.
    pub(crate) fn first(&self) -> u32 {
        self.first
    }

    /// How many inputs are few, and whether it is asked for many carries.
    pub(crate) fn kind(&self) -> (usize, bool) {
        (self.few, self.is_thorough)
    }

    pub(crate) fn known(&self, node: u32) -> Option<&Known> {
        self.nodes.get(node as usize)
    }

    pub(crate) fn level(&self, node: u32) -> u32 {
        match self.nodes.get(node as usize) {
            None => 0,
            Some(known) => known.level,
        }
    }

    /// Whether few inputs are below a node, or few conjunctions of them are left of what is.
    pub(crate) fn is_small(&self, node: u32) -> bool {
        match self.nodes.get(node as usize) {
            None => true,
            Some(known) => known.is_small,
        }
    }

    /// Whether somewhat more than few inputs at most are below a node.
    pub(crate) fn is_rather_small(&self, node: u32) -> bool {
        match self.nodes.get(node as usize) {
            None => true,
            Some(known) => known.support.count() <= RATHER,
        }
    }

    /// Whether a node stands for a conjunction of inputs.
    pub(crate) fn is_plain(&self, node: u32) -> bool {
        match self.nodes.get(node as usize) {
            None => true,
            Some(known) => known.is_plain,
        }
    }

    /// Whether a node stands for a conjunction of inputs that stays as it is. Where all that is
    /// above conjunctions of two inputs is taken for an adder, such a one may be a carry.
    pub(crate) fn is_left(&self, node: u32) -> bool {
        self.few > PAIR && self.is_plain(node)
    }

    /// Whether a sum may be taken for its adder: what comes of that is below it, but for a carry
    /// that isn't a sum, or is one of literals that are never both true.
    pub(crate) fn is_useful(&self, node: u32, block: &Block) -> bool {
        let level = self.level(node);
        let carry = node_of(block.carry);
        let is_below = [block.x, block.y, block.z]
            .iter()
            .all(|literal| self.level(node_of(*literal)) < level);
        let goes_down = self.is_small(carry) || self.level(carry) < level;
        is_below && (!self.is_sum(carry) || goes_down || self.is_split(carry))
    }

    /// Whether a node is the sum of literals that are never both true.
    fn is_split(&self, node: u32) -> bool {
        match self.nodes.get(node as usize) {
            None => false,
            Some(known) => known.sums.iter().any(|block| node_of(block.carry) == 0),
        }
    }

    pub(crate) fn is_sum(&self, node: u32) -> bool {
        match self.nodes.get(node as usize) {
            None => false,
            Some(known) => known.pairs.len() > 0,
        }
    }

    pub(crate) fn is_carry(&self, node: u32) -> bool {
        match self.nodes.get(node as usize) {
            None => false,
            Some(known) => known.carries.len() > 0,
        }
    }

    /// A node stands for a conjunction of inputs.
    pub(crate) fn set_plain(&mut self, node: u32) {
        if let Some(known) = self.nodes.get_mut(node as usize) {
            known.is_plain = true;
        }
    }

    /// How many inputs there are.
    pub(crate) fn inputs(&self) -> usize {
        let mut inputs = 0usize;
        for known in &self.nodes {
            if let Node::Input(_) = known.gate {
                inputs = inputs.saturating_add(1);
            }
        }
        inputs
    }

    /// Whether a node is a gate.
    pub(crate) fn is_gate(&self, node: u32) -> bool {
        match self.nodes.get(node as usize) {
            None => false,
            Some(known) => match known.gate {
                Node::And(_, _) | Node::Xor(_, _) => true,
                Node::Constant | Node::Input(_) => false,
            },
        }
    }

    /// The literals of a conjunction.
    pub(crate) fn literals(&self, node: u32) -> Option<(Literal, Literal)> {
        match self.nodes.get(node as usize) {
            None => None,
            Some(known) => match known.gate {
                Node::And(x, y) => Some((x, y)),
                Node::Constant | Node::Input(_) | Node::Xor(_, _) => None,
            },
        }
    }

    fn support(&self, literal: Literal) -> Support {
        match self.nodes.get(node_of(literal) as usize) {
            None => Support::many(),
            Some(known) => known.support,
        }
    }

    /// The nodes of which a literal is the exclusive or.
    fn leaves(&self, literal: Literal) -> Support {
        match self.nodes.get(node_of(literal) as usize) {
            None => Support::many(),
            Some(known) => known.leaves,
        }
    }

    /// The nodes of which two literals' exclusive or is one, itself where these are many. Nothing
    /// where no node is of both.
    fn cancelled(&self, x: Literal, y: Literal) -> Option<Support> {
        let leaves = differing(self.leaves(x), self.leaves(y));
        let both = self
            .leaves(x)
            .count()
            .saturating_add(self.leaves(y).count());
        if leaves.count() > ROOM || leaves.count() == both {
            None
        } else {
            Some(leaves)
        }
    }

    /// The inputs below nodes, and whether these are few conjunctions of inputs.
    fn below(&self, leaves: &Support) -> (Support, bool) {
        let mut inputs = Support::none();
        let mut are_plain = leaves.count() <= self.few;
        for place in 0..ROOM {
            if let Some(leaf) = leaves.at(place) {
                inputs = joined(inputs, self.support(leaf.wrapping_mul(2)));
                are_plain = are_plain && self.is_plain(leaf);
            }
        }
        (inputs, are_plain)
    }

    /// What is known of a new node of two literals.
    fn of_gate(&self, k: u32, node: Node, x: Literal, y: Literal) -> Result<Known, AllocError> {
        let mut known = self.of_nothing(node)?;
        known.support = joined(self.support(x), self.support(y));
        known.level = self.above(x, y);
        known.leaves = of_one(k);
        known.is_small = known.support.count() <= self.few;
        Ok(known)
    }

    /// What is known of a new exclusive or.
    fn of_xor(&self, k: u32, node: Node, x: Literal, y: Literal) -> Result<Known, AllocError> {
        let mut known = self.of_gate(k, node, x, y)?;
        known.pairs.push((x, y))?;
        let leaves = differing(self.leaves(x), self.leaves(y));
        if leaves.count() <= ROOM {
            known.leaves = leaves;
        }
        if let Some(left) = self.cancelled(x, y) {
            let (inputs, are_plain) = self.below(&left);
            known.support = inputs;
            known.is_cancelled = !known.is_small;
            known.is_small = are_plain || inputs.count() <= self.few;
        }
        Ok(known)
    }

    /// What is known of a node before one looks below it.
    fn of_nothing(&self, node: Node) -> Result<Known, AllocError> {
        Ok(Known {
            gate: node,
            level: 0,
            support: Support::none(),
            leaves: Support::none(),
            is_small: true,
            is_cancelled: false,
            ways: self.ways(node),
            is_plain: true,
            is_tried: false,
            pairs: Vec::new(self.alloc),
            merged: Vec::new(self.alloc),
            sums: Vec::new(self.alloc),
            carries: Vec::new(self.alloc),
            relations: Vec::new(self.alloc),
            others: Vec::new(self.alloc),
        })
    }

    /// What is known of a new node.
    fn of_node(&self, k: u32, node: Node) -> Result<Known, AllocError> {
        match node {
            Node::Constant => self.of_nothing(node),
            Node::Input(_) => {
                let mut known = self.of_nothing(node)?;
                known.support = of_one(k);
                known.leaves = of_one(k);
                Ok(known)
            }
            Node::And(x, y) => {
                let mut known = self.of_gate(k, node, x, y)?;
                let are_plain = self.is_plain(node_of(x)) && self.is_plain(node_of(y));
                known.is_plain = x % 2 == 0 && y % 2 == 0 && are_plain;
                Ok(known)
            }
            Node::Xor(x, y) => {
                let mut known = self.of_xor(k, node, x, y)?;
                known.is_plain = false;
                Ok(known)
            }
        }
    }

    /// How many ways lead from a literal down to inputs.
    fn ways_from(&self, literal: Literal) -> u32 {
        match self.nodes.get(node_of(literal) as usize) {
            None => WAYS,
            Some(known) => known.ways,
        }
    }

    /// How many ways lead from a node down to inputs.
    fn ways(&self, node: Node) -> u32 {
        match node {
            Node::Constant | Node::Input(_) => 1,
            Node::And(x, y) => self.ways_from(x).saturating_add(self.ways_from(y)),
            Node::Xor(x, y) => self.ways_from(x).saturating_add(self.ways_from(y)),
        }
    }

    /// Whether a node's polynomial is made in little time: it is made once more on each way.
    pub(crate) fn has_few_ways(&self, node: u32) -> bool {
        match self.nodes.get(node as usize) {
            None => false,
            Some(known) => known.ways < WAYS,
        }
    }

    /// Of how many nodes something is known.
    pub(crate) fn count(&self) -> u32 {
        self.nodes.len().min(u32::MAX as usize) as u32
    }

    /// The level above two literals.
    fn above(&self, x: Literal, y: Literal) -> u32 {
        let most = self.level(node_of(x)).max(self.level(node_of(y)));
        most.saturating_add(1)
    }

    /// Takes new nodes in.
    pub(crate) fn catch_up(&mut self, graph: &Graph) -> Result<(), AllocError> {
        for k in self.nodes.len()..graph.len() as usize {
            let known = self.of_node(k as u32, graph.node(k as u32))?;
            self.nodes.push(known)?;
        }
        Ok(())
    }

    /// Takes in that a node is the difference of two literals, which are below it or not.
    fn add_pair(&mut self, literal: Literal, x: Literal, y: Literal) -> Result<(), AllocError> {
        let level = self.level(node_of(literal));
        let is_below = self.level(node_of(x)) < level && self.level(node_of(y)) < level;
        let other = if literal % 2 == 1 { y ^ 1 } else { y };
        if let Some(known) = self.nodes.get_mut(node_of(literal) as usize) {
            let pairs = if is_below {
                &mut known.pairs
            } else {
                &mut known.merged
            };
            if !pairs.contains(&(x, other)) {
                pairs.push((x, other))?;
            }
        }
        Ok(())
    }

    /// Takes in that a node is the conjunction of two complements, though it isn't made of them.
    fn add_other(
        &mut self,
        graph: &Graph,
        literal: Literal,
        x: Literal,
        y: Literal,
    ) -> Result<(), AllocError> {
        let node = node_of(literal);
        if x % 2 == 0 || y % 2 == 0 || node >= graph.len() || graph.node(node) == Node::And(x, y) {
            return Ok(());
        }
        if let Some(known) = self.nodes.get_mut(node as usize) {
            if !known.others.contains(&(x, y, literal)) {
                known.others.push((x, y, literal))?;
            }
        }
        Ok(())
    }

    /// Takes in what differences were asked for, of nodes too that others stand for.
    fn add_asked(&mut self, sweep: &Sweep) -> Result<(), AllocError> {
        for place in 0..sweep.places() {
            match sweep.asked(place) {
                Some((Node::Xor(x, y), literal)) => self.add_pair(literal, x, y)?,
                Some((Node::And(x, y), literal)) => self.add_other(sweep.graph(), literal, x, y)?,
                _ => {}
            }
        }
        Ok(())
    }

    /// The pair of a node at a place of its list.
    pub(crate) fn pair(&self, node: u32, at: usize) -> Option<(Literal, Literal)> {
        let known = self.nodes.get(node as usize)?;
        let pair = *known.pairs.get(at)?;
        Some(pair)
    }

    /// How many pairs there are, with those that it was found to be the difference of.
    fn all_pairs(&self, node: u32) -> usize {
        match self.nodes.get(node as usize) {
            None => 0,
            Some(known) => known.pairs.len().saturating_add(known.merged.len()),
        }
    }

    /// The pair of a node at a place of its list, behind which those come that it was found to be
    /// the difference of.
    fn pair_or_merged(&self, node: u32, at: usize) -> Option<(Literal, Literal)> {
        let known = self.nodes.get(node as usize)?;
        match known.pairs.get(at) {
            Some(pair) => Some(*pair),
            None => known
                .merged
                .get(at.wrapping_sub(known.pairs.len()))
                .copied(),
        }
    }

    /// Whether a node was made to see whether it is there.
    fn is_tried(&self, node: u32) -> bool {
        match self.nodes.get(node as usize) {
            None => false,
            Some(known) => known.is_tried,
        }
    }
}
