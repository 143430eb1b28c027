//! Marks of a graph's nodes.

use eqc_xag::{Literal, node_of};

/// Marks the node of a literal, if it has a mark.
pub(crate) fn mark(marks: &mut Vec<bool>, literal: Literal) {
    let at = node_of(literal) as usize;
    if at < marks.len() {
        marks[at] = true;
    }
}

pub(crate) fn is_marked(marks: &[bool], k: u32) -> bool {
    marks.get(k as usize).copied() == Some(true)
}
