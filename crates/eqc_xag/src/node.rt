//! The kinds of nodes.
use crate::Literal;

/// A node of a graph. Operands are literals of earlier nodes.
#[derive(Clone, Copy, PartialEq, Eq, Debug)]
pub enum Node {
    /// Always false.
    Constant,
    /// The value of a variable.
    Input(u32),
    /// Whether both literals are true.
    And(Literal, Literal),
    /// Whether just one of the literals is true.
    Xor(Literal, Literal),
}
