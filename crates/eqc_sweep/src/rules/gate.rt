//! What a literal is of its gate's operands.
ghost use Rattle.eqc_xag.specs.Graph.{IsWithin};
ghost use Rattle.eqc_sweep.specs.Gates.{IsGate};

use eqc_xag::{Graph, Literal, Node, is_negated, negated_if, node_of};

/// What a literal is of two others. The complement of a gate is a kind of its own, so the rules
/// know of no complements.
#[derive(Clone, Copy, PartialEq, Eq, Debug)]
pub(crate) enum Gate {
    /// Both are true.
    Both(Literal, Literal),
    /// Not both are true.
    NotBoth(Literal, Literal),
    /// Just one is true.
    Differ(Literal, Literal),
    /// It has no operands.
    Other,
}

/// The gate of a literal.
pub(crate) fn gate_of(graph: &Graph, x: Literal) -> Gate
    requires { IsWithin graph.now x }
    ensures { IsGate graph.now x result }
{
    let complement = is_negated(x);
    match graph.node(node_of(x)) {
        Node::And(p, q) => {
            if complement {
                Gate::NotBoth(p, q)
            } else {
                Gate::Both(p, q)
            }
        }
        Node::Xor(p, q) => Gate::Differ(negated_if(p, complement), q),
        Node::Constant => Gate::Other,
        Node::Input(_) => Gate::Other,
    }
}
