//! The rules, one after another, as long as one applies.
ghost use Rattle.std.specs.Prelude.{length, IfSome};
ghost use Rattle.eqc_xag.specs.Graph.{IsBelow};
ghost use Rattle.eqc_sweep.specs.Reducing.{StandsFor};

pub(crate) mod and_rules;
pub(crate) mod gate;
pub(crate) mod relations;
pub(crate) mod xor_rules;

use crate::reduced::Reduced;
use crate::rules::and_rules::and_rule;
use crate::rules::xor_rules::xor_rule;
use eqc_xag::{Graph, Node};

/// How many rules are applied to a gate, one to what the other left. More than three were not met.
const MOST: u32 = 8;

/// What stands in place of a gate, by one rule.
fn by_one(graph: &Graph, node: Node) -> Option<Reduced>
    requires { IsBelow (length graph.now) node }
    ensures { IfSome result (StandsFor graph.now node) }
{
    match node {
        Node::And(x, y) => and_rule(graph, x, y),
        Node::Xor(x, y) => xor_rule(graph, x, y),
        Node::Constant => None,
        Node::Input(_) => None,
    }
}

#[tactic(auto, using(crate::proofs::RuleLemmas::stands_itself, crate::proofs::RuleLemmas::stands_along))]
/// What stands in place of a gate.
pub(crate) fn reduced(graph: &Graph, gate: Node) -> Reduced
    requires { IsBelow (length graph.now) gate }
    ensures { StandsFor graph.now gate result }
{
    let mut node = gate;
    'rules: for _ in 0..MOST {
        match by_one(graph, node) {
            None => return Reduced::Absent(node),
            Some(Reduced::There(literal)) => return Reduced::There(literal),
            Some(Reduced::Absent(next)) => node = next,
        }
    }
    Reduced::Absent(node)
}
