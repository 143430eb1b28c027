//! What stands in place of a gate.

use eqc_xag::{Literal, Node};

/// What a rule puts in place of a gate.
#[derive(Clone, Copy, PartialEq, Eq, Debug)]
pub(crate) enum Reduced {
    /// A literal of the graph.
    There(Literal),
    /// Another gate, which may have to be made.
    Absent(Node),
}
