//! Places of rows that may not be there.
use eqc_xag::{Graph, Literal, Node};
use std::alloc::AllocError;

/// No node, literal, clause or place.
pub(crate) const NONE: u32 = u32::MAX;

/// A number that fits 32 bits, or none.
pub(crate) fn number(n: usize) -> u32 {
    if n < NONE as usize { n as u32 } else { NONE }
}

/// What stands at a place, or else `other`.
pub(crate) fn read<T: Copy>(row: &[T], at: u32, other: T) -> T {
    let at = at as usize;
    if at < row.len() { row[at] } else { other }
}

/// Writes at a place that is there.
pub(crate) fn write<T: Copy>(row: &mut [T], at: u32, value: T) {
    let at = at as usize;
    if at < row.len() {
        row[at] = value;
    }
}

/// Makes a row `len` long at least, by more of `value`.
pub(crate) fn lengthen<T: Copy>(row: &mut Vec<T>, len: u32, value: T) -> Result<(), AllocError> {
    for _ in row.len()..len as usize {
        row.push(value)?;
    }
    Ok(())
}

/// The literal that is true where the node has the value.
pub(crate) fn literal_of(node: u32, value: bool) -> Literal {
    let literal = node.wrapping_mul(2);
    if value { literal } else { literal ^ 1 }
}

/// The node of this number, or the constant where there is none.
pub(crate) fn node_at(graph: &Graph, k: u32) -> Node {
    if k < graph.len() {
        graph.node(k)
    } else {
        Node::Constant
    }
}

/// Whether the node of this number is a gate.
pub(crate) fn is_gate(graph: &Graph, k: u32) -> bool {
    match node_at(graph, k) {
        Node::And(_, _) | Node::Xor(_, _) => true,
        Node::Constant | Node::Input(_) => false,
    }
}
