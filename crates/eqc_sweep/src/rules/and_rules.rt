//! Rules for a conjunction, over one and two levels. Each says what stands in its place, if it
//! applies.
ghost use Rattle.std.specs.Prelude.{ℕ, List, ◌&&◌, IfSome};
ghost use Rattle.eqc_xag.specs.Graph.{differ, IsWithin, IsGraph};
ghost use Rattle.eqc_sweep.specs.Gates.{not_both, IsGate, Makes};
ghost use Rattle.eqc_sweep.specs.Reducing.{StandsFor, HoldsWith, HoldsFor};

use crate::reduced::Reduced;
use crate::rules::gate::{Gate, gate_of};
use crate::rules::relations::{are_opposite, excludes, implies};
use eqc_xag::{Graph, Literal, Node, negated};

/// Of constants, of equal literals and of complements.
fn of_itself(x: Literal, y: Literal) -> Option<Reduced>
    ensures { (nodes : List Node) → IsGraph nodes → IsWithin nodes x → IsWithin nodes y → IfSome result (StandsFor nodes (Node.And x y)) }
{
    if x == y || x == 0 || y == 1 {
        return Some(Reduced::There(x));
    }
    if y == 0 || x == 1 {
        return Some(Reduced::There(y));
    }
    if are_opposite(x, y) {
        return Some(Reduced::There(0));
    }
    None
}

/// Of x, which is p and q, with y.
fn of_both(x: Literal, p: Literal, q: Literal, y: Literal) -> Option<Reduced>
    ensures { HoldsWith ◌&&◌ x p q y result }
{
    if excludes(p, q, y) {
        return Some(Reduced::There(0));
    }
    if implies(p, q, y) {
        return Some(Reduced::There(x));
    }
    None
}

/// Of a literal that is not both p and q, with y.
fn of_not_both(p: Literal, q: Literal, y: Literal) -> Option<Reduced>
    ensures { (x : ℕ) → HoldsWith not_both x p q y result }
{
    if excludes(p, q, y) {
        return Some(Reduced::There(y));
    }
    if y == p {
        return Some(Reduced::Absent(Node::And(y, negated(q))));
    }
    if y == q {
        return Some(Reduced::Absent(Node::And(y, negated(p))));
    }
    None
}

/// Of a literal that is just one of p and q, with y.
fn of_differ(p: Literal, q: Literal, y: Literal) -> Option<Reduced>
    ensures { (x : ℕ) → HoldsWith differ x p q y result }
{
    if y == p {
        return Some(Reduced::Absent(Node::And(y, negated(q))));
    }
    if y == q {
        return Some(Reduced::Absent(Node::And(y, negated(p))));
    }
    if are_opposite(p, y) {
        return Some(Reduced::Absent(Node::And(y, q)));
    }
    if are_opposite(q, y) {
        return Some(Reduced::Absent(Node::And(y, p)));
    }
    None
}

/// Of x, whose gate is known, with y.
fn of_one(x: Literal, gate: Gate, y: Literal) -> Option<Reduced>
    ensures { (nodes : List Node) → IsGraph nodes → IsWithin nodes x → IsWithin nodes y → IsGate nodes x gate → IfSome result (StandsFor nodes (Node.And x y)) }
{
    match gate {
        Gate::Both(p, q) => of_both(x, p, q, y),
        Gate::NotBoth(p, q) => of_not_both(p, q, y),
        Gate::Differ(p, q) => of_differ(p, q, y),
        Gate::Other => None,
    }
}

/// Of p and q with r and s.
fn of_four(p: Literal, q: Literal, r: Literal, s: Literal) -> Option<Reduced>
    ensures { (x y : ℕ) → HoldsFor ◌&&◌ ◌&&◌ x p q y r s result }
{
    if excludes(p, q, r) {
        return Some(Reduced::There(0));
    }
    if excludes(p, q, s) {
        return Some(Reduced::There(0));
    }
    None
}

/// Of x, which is p and q, with a literal that is not both r and s.
fn of_both_and_not(x: Literal, p: Literal, q: Literal, r: Literal, s: Literal) -> Option<Reduced>
    ensures { (y : ℕ) → HoldsFor ◌&&◌ not_both x p q y r s result }
{
    if excludes(p, q, r) {
        return Some(Reduced::There(x));
    }
    if excludes(p, q, s) {
        return Some(Reduced::There(x));
    }
    if implies(p, q, r) {
        return Some(Reduced::Absent(Node::And(x, negated(s))));
    }
    if implies(p, q, s) {
        return Some(Reduced::Absent(Node::And(x, negated(r))));
    }
    None
}

/// Of literals that are not both p and q, and not both r and s, where p goes with r and q with s.
fn of_neither(p: Literal, q: Literal, r: Literal, s: Literal) -> Option<Reduced>
    ensures { (x y : ℕ) → HoldsFor not_both not_both x p q y r s result }
{
    if are_opposite(p, r) {
        if are_opposite(q, s) {
            return Some(Reduced::Absent(Node::Xor(p, q)));
        }
        if q == s {
            return Some(Reduced::There(negated(q)));
        }
    }
    if p == r && are_opposite(q, s) {
        return Some(Reduced::There(negated(p)));
    }
    None
}

/// Of two literals whose gates are known, where the first is no complement or both are.
fn of_two(x: Literal, gate: Gate, y: Literal, other: Gate) -> Option<Reduced>
    ensures { (nodes : List Node) → IsGraph nodes → IsWithin nodes x → IsWithin nodes y → IsGate nodes x gate → IsGate nodes y other → IfSome result (StandsFor nodes (Node.And x y)) }
{
    match (gate, other) {
        (Gate::Both(p, q), Gate::Both(r, s)) => of_four(p, q, r, s),
        (Gate::Both(p, q), Gate::NotBoth(r, s)) => of_both_and_not(x, p, q, r, s),
        (Gate::NotBoth(p, q), Gate::NotBoth(r, s)) => match of_neither(p, q, r, s) {
            Some(reduced) => Some(reduced),
            None => of_neither(p, q, s, r),
        },
        _ => None,
    }
}

/// Of two literals whose gates are known, by the gate of the first, and then by both.
fn of_gates(x: Literal, gate: Gate, y: Literal, other: Gate) -> Option<Reduced>
    ensures { (nodes : List Node) → IsGraph nodes → IsWithin nodes x → IsWithin nodes y → IsGate nodes x gate → IsGate nodes y other → IfSome result (StandsFor nodes (Node.And x y)) }
{
    if let Some(reduced) = of_one(x, gate, y) {
        return Some(reduced);
    }
    of_two(x, gate, y, other)
}

#[tactic(auto, using(crate::proofs::AndLemmas::and_commuted))]
/// What stands in place of a conjunction, by the first rule that applies to its literals in either
/// order.
pub(crate) fn and_rule(graph: &Graph, x: Literal, y: Literal) -> Option<Reduced>
    requires x { IsWithin graph.now x }
    requires y { IsWithin graph.now y }
    ensures { IfSome result (StandsFor graph.now (Node.And x y)) }
{
    let _ = graph.len();
    if let Some(reduced) = of_itself(x, y) {
        return Some(reduced);
    }
    let gate = gate_of(graph, x);
    let other = gate_of(graph, y);
    if let Some(reduced) = of_gates(x, gate, y, other) {
        return Some(reduced);
    }
    if let Some(reduced) = of_gates(y, other, x, gate) {
        return Some(reduced);
    }
    None
}
