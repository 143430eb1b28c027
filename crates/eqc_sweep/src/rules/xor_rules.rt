//! Rules for a difference: what stands in its place, if one applies.
ghost use Rattle.std.specs.Prelude.{ℕ, List, IfSome};
ghost use Rattle.eqc_xag.specs.Graph.{differ, IsWithin, IsGraph};
ghost use Rattle.eqc_sweep.specs.Gates.{IsGate, Makes};
ghost use Rattle.eqc_sweep.specs.Reducing.{StandsFor};

use crate::reduced::Reduced;
use crate::rules::gate::{Gate, gate_of};
use crate::rules::relations::are_opposite;
use eqc_xag::{Graph, Literal, Node, negated};

/// Of constants, of equal literals and of complements.
fn of_itself(x: Literal, y: Literal) -> Option<Reduced>
    ensures { (nodes : List Node) → IsGraph nodes → IsWithin nodes x → IsWithin nodes y → IfSome result (StandsFor nodes (Node.Xor x y)) }
{
    if x == y {
        return Some(Reduced::There(0));
    }
    if are_opposite(x, y) {
        return Some(Reduced::There(1));
    }
    if x < 2 {
        return Some(Reduced::There(if x == 0 { y } else { negated(y) }));
    }
    if y < 2 {
        return Some(Reduced::There(if y == 0 { x } else { negated(x) }));
    }
    None
}

/// Of x, whose gate is known, with y.
fn of_one(x: Literal, gate: Gate, y: Literal) -> Option<Reduced>
    ensures { (nodes : List Node) → IsWithin nodes x → IsWithin nodes y → IsGate nodes x gate → IfSome result (StandsFor nodes (Node.Xor x y)) }
{
    let Gate::Differ(p, q) = gate else {
        return None;
    };
    if y == p {
        return Some(Reduced::There(q));
    }
    if y == q {
        return Some(Reduced::There(p));
    }
    if are_opposite(p, y) {
        return Some(Reduced::There(negated(q)));
    }
    if are_opposite(q, y) {
        return Some(Reduced::There(negated(p)));
    }
    None
}

#[tactic(auto, using(crate::proofs::XorLemmas::differ_commuted))]
/// What stands in place of a difference, by the first rule that applies to its literals in either
/// order.
pub(crate) fn xor_rule(graph: &Graph, x: Literal, y: Literal) -> Option<Reduced>
    requires x { IsWithin graph.now x }
    requires y { IsWithin graph.now y }
    ensures { IfSome result (StandsFor graph.now (Node.Xor x y)) }
{
    let _ = graph.len();
    if let Some(reduced) = of_itself(x, y) {
        return Some(reduced);
    }
    if let Some(reduced) = of_one(x, gate_of(graph, x), y) {
        return Some(reduced);
    }
    if let Some(reduced) = of_one(y, gate_of(graph, y), x) {
        return Some(reduced);
    }
    None
}
