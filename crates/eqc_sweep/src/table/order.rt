//! The one form of a gate under which it is looked up.
ghost use Rattle.eqc_sweep.specs.Ordering.{IsFormOf, IsPlain};

use eqc_xag::{Literal, Node, is_negated, negated_if};

/// A literal without its complement.
fn plain(x: Literal) -> u32
    ensures { IsPlain x result }
{
    negated_if(x, is_negated(x))
}

/// A gate's form with ordered literals, for a difference without complements, and whether it is the
/// complement of the gate.
pub(crate) fn ordered(node: Node) -> (Node, bool)
    ensures { IsFormOf node result.0 result.1 }
{
    match node {
        Node::And(x, y) => {
            if x <= y {
                (node, false)
            } else {
                (Node::And(y, x), false)
            }
        }
        Node::Xor(x, y) => {
            let complement = is_negated(x) != is_negated(y);
            let p = plain(x);
            let q = plain(y);
            if p <= q {
                (Node::Xor(p, q), complement)
            } else {
                (Node::Xor(q, p), complement)
            }
        }
        Node::Constant => (node, false),
        Node::Input(_) => (node, false),
    }
}
