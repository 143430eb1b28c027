//! Literals: twice the number of a node, and one more for its complement. So 0 is false, and 1 is
//! true.
ghost use Rattle.std.specs.Prelude.{◌≡◌, ℕ, ◌/◌, ◌%◌, ◌==◌, Bool, not, List};
ghost use Rattle.eqc_xag.specs.Graph.{differ, literal_value};

use crate::Node;

/// A literal of a graph: twice the number of a node, and one more for its complement. Nodes and
/// literals are numbers both, so that rows of them take four bytes each.
pub type Literal = u32;

/// The complement of a literal.
pub fn negated(l: Literal) -> Literal
    ensures node { result / 2 ≡ l / 2 }
    ensures value { (nodes : List Node) (a : ℕ → Bool) → literal_value nodes a result ≡ not (literal_value nodes a l) }
{
    if l % 2 == 0 { l + 1 } else { l - 1 }
}

/// The complement of a literal where `sign` says so, and else the literal.
pub fn negated_if(l: Literal, sign: bool) -> Literal
    ensures node { result / 2 ≡ l / 2 }
    ensures value { (nodes : List Node) (a : ℕ → Bool) → literal_value nodes a result ≡ differ sign (literal_value nodes a l) }
{
    if sign { negated(l) } else { l }
}

/// The number of a literal's node.
pub fn node_of(l: Literal) -> u32
    ensures { result ≡ l / 2 }
{
    l / 2
}

/// Whether a literal is the complement of its node.
pub fn is_negated(l: Literal) -> bool
    ensures { result ≡ (l % 2 == 1) }
{
    l % 2 == 1
}
