//! Nodes that look like others. Nothing is believed of it.

use crate::finder::Finder;
use eqc_xag::{Literal, negated_if};

impl Finder {
    /// The oldest literal that has a signature, whose first simulated value is this one, if there
    /// is one.
    fn oldest(&self, signature: u64, phase: bool) -> Option<u32> {
        let node = self
            .classes
            .first(self.patterns.signatures(), signature, &[])?;
        if node >= 1 << 30 {
            return None;
        }
        Some(negated_if(2 * node, phase != self.patterns.phase(node)))
    }

    /// The oldest literal that simulation doesn't tell from the carry of three, of which the first
    /// is the sum of literals, if there is one.
    pub(crate) fn like_carry(&self, literals: &[Literal], y: Literal, z: Literal) -> Option<u32> {
        let (signature, phase) = self.patterns.carry(literals, y, z);
        self.oldest(signature, phase)
    }

    /// The oldest literal that simulation doesn't tell from the sum of literals, if there is one.
    pub(crate) fn like_sum(&self, literals: &[Literal]) -> Option<u32> {
        let (signature, phase) = self.patterns.sum(literals);
        self.oldest(signature, phase)
    }

    /// The oldest literal that simulation doesn't tell from a node, if that isn't one of these
    /// nodes.
    pub(crate) fn like_node(&self, node: u32, but: &[Literal]) -> Option<u32> {
        let signature = self.patterns.signature(node);
        let other = self
            .classes
            .first(self.patterns.signatures(), signature, but)?;
        if other == node || other >= 1 << 30 {
            return None;
        }
        Some(negated_if(
            2 * other,
            self.patterns.phase(node) != self.patterns.phase(other),
        ))
    }
}
