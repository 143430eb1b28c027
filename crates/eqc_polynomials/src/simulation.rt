//! The values of a graph's nodes for 128 assignments at a time.

use eqc_sweep::{Random, below};
use eqc_xag::{Graph, Literal, Node, is_negated, node_of};
use std::alloc::{AllocError, Global};

/// So many assignments are simulated at once.
pub const ASSIGNMENTS: usize = 128;

/// The values of the nodes of a graph, bit t of each for the assignment t.
#[derive(Drop)]
pub struct Values {
    nodes: Vec<u128>,
}

impl Values {
    /// The values where the inputs of these variables, in ascending order, have these, and other
    /// inputs are false. Fails where memory is refused.
    pub fn of(
        alloc: Global,
        graph: &Graph,
        variables: &[u32],
        patterns: &[u128],
    ) -> Result<Values, AllocError> {
        let mut values = Values {
            nodes: Vec::with_capacity(alloc, graph.len() as usize)?,
        };
        for k in 0..graph.len() {
            let value = match graph.node(k) {
                Node::Constant => 0,
                Node::Input(variable) => match variables.binary_search(&variable) {
                    Ok(place) => patterns.get(place).copied().unwrap_or(0),
                    Err(_) => 0,
                },
                Node::And(x, y) => values.at(x) & values.at(y),
                Node::Xor(x, y) => values.at(x) ^ values.at(y),
            };
            values.nodes.push(value)?;
        }
        Ok(values)
    }

    /// The values of a literal.
    pub fn at(&self, literal: Literal) -> u128 {
        let value = self
            .nodes
            .get(node_of(literal) as usize)
            .copied()
            .unwrap_or(0);
        if is_negated(literal) { !value } else { value }
    }

    /// The number that a word stands for under an assignment, the lowest literal first.
    pub fn number(&self, word: &[Literal], assignment: usize) -> u128 {
        let mut number = 0u128;
        for literal in word.iter().rev() {
            let bit = self.at(*literal) >> (assignment % ASSIGNMENTS) & 1;
            number = number.wrapping_mul(2) | bit;
        }
        number
    }
}

/// The variables of the inputs that these literals depend on, in ascending order. Fails where
/// memory is refused.
pub(crate) fn variables_of(
    alloc: Global,
    graph: &Graph,
    literals: &[Literal],
) -> Result<Vec<u32>, AllocError> {
    let marks = below(alloc, graph, literals)?;
    let mut variables = Vec::new(alloc);
    for k in 0..graph.len() {
        if marks.get(k as usize).copied() != Some(true) {
            continue;
        }
        if let Node::Input(variable) = graph.node(k) {
            variables.push(variable)?;
        }
    }
    variables.sort_unstable();
    Ok(variables)
}

/// Pseudo-random values of so many inputs. Fails where memory is refused.
pub fn random_patterns(
    alloc: Global,
    random: &mut Random,
    count: usize,
) -> Result<Vec<u128>, AllocError> {
    let mut patterns = Vec::with_capacity(alloc, count)?;
    for _ in 0..count {
        let high = u128::from(random.next());
        let low = u128::from(random.next());
        patterns.push(high << 64 | low)?;
    }
    Ok(patterns)
}
