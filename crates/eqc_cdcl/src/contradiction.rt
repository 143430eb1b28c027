//! Assumptions that can't be true together whatever the gates are.
ghost use Rattle.std.specs.Prelude.{IsTrue, List};
ghost use Rattle.eqc_xag.specs.declared.node.Node.{Node};
ghost use Rattle.eqc_rup.specs.Clauses.{IsRefuted};
ghost use Rattle.eqc_cdcl.specs.Contradiction.{IsAmong};

use eqc_xag::{Graph, Literal, negated};

#[tactic(auto, using(crate::proofs::ContradictionLemmas::among_at))]
/// Whether a literal is among some.
fn is_among(l: Literal, literals: &[Literal]) -> bool
    ensures { IsTrue result → IsAmong l literals.now }
{
    for other in literals {
        if *other == l {
            return true;
        }
    }
    false
}

#[tactic(auto, using(crate::proofs::ContradictionLemmas::constant_refutes))]
/// Whether the constant that is false is assumed.
fn assumes_false(graph: &Graph, assumptions: &[Literal]) -> bool
    ensures { IsTrue result → IsRefuted graph.now assumptions.now }
{
    // What is known of a graph is known of its first node, the constant.
    let _count = graph.len();
    let _constant = graph.node(0);
    is_among(0, assumptions)
}

#[tactic(auto, using(crate::proofs::ContradictionLemmas::both_refute))]
/// Whether a literal and its complement are assumed.
fn assumes_both(assumptions: &[Literal], l: Literal) -> bool
    ensures { IsTrue result → (nodes : List Node) → IsRefuted nodes assumptions.now }
{
    is_among(l, assumptions) && is_among(negated(l), assumptions)
}

/// Whether assumptions, of which `l` is one, are seen to contradict one another.
pub(crate) fn contradict(graph: &Graph, assumptions: &[Literal], l: Literal) -> bool
    ensures { IsTrue result → IsRefuted graph.now assumptions.now }
{
    assumes_false(graph, assumptions) || assumes_both(assumptions, l)
}
