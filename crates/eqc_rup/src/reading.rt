//! The clause of a hint, from the store or from a gate of the graph.
ghost use Rattle.std.specs.Prelude.{◌≡◌};
ghost use Rattle.eqc_rup.specs.Clauses.{IsSound};
ghost use Rattle.eqc_rup.specs.Checking.{IsLeftOf, IsLeftOfGate};

use crate::falsified::Falsified;
use crate::left::{Left, left_of};
use crate::{Clauses, Hint};
use eqc_xag::{Graph, Literal, Node, negated, negated_if};

/// What is left of the clause of a hint. More than one literal where there is no such clause.
pub(crate) fn left_by(graph: &Graph, clauses: &Clauses, hint: Hint, falsified: &Falsified) -> Left
    requires sound { IsSound graph.now clauses.now }
    ensures { IsLeftOf graph.now falsified.now result }
{
    match hint {
        Hint::Clause(number) => left_of_kept(graph, clauses, number, falsified),
        Hint::Gate { node, side } => {
            if node >= graph.len() {
                return Left::More;
            }
            left_of_gate(2 * node, graph.node(node), side, falsified)
        }
    }
}

/// What is left of a clause of the store.
fn left_of_kept(graph: &Graph, clauses: &Clauses, number: u32, falsified: &Falsified) -> Left
    requires sound { IsSound graph.now clauses.now }
    ensures { IsLeftOf graph.now falsified.now result }
{
    let clause = clauses.clause(number);
    if clause.is_empty() {
        return Left::More;
    }
    left_of(clause, falsified)
}

/// What is left of the clause on that side of a node whose literal is `n`; that of the constant is
/// (not n).
fn left_of_gate(n: u32, node: Node, side: u32, falsified: &Falsified) -> Left
    ensures { IsLeftOfGate n node falsified.now result }
{
    match node {
        Node::And(a, b) => left_of_and(n, a, b, side, falsified),
        Node::Xor(a, b) => left_of_xor(n, a, b, side, falsified),
        Node::Constant if side == 0 => left_of(&[negated(n)], falsified),
        _ => Left::More,
    }
}

/// The same of an and.
fn left_of_and(n: u32, a: Literal, b: Literal, side: u32, falsified: &Falsified) -> Left
    ensures { IsLeftOfGate n (Node.And a b) falsified.now result }
{
    match side {
        0 => left_of(&[negated(n), a], falsified),
        1 => left_of(&[negated(n), b], falsified),
        2 => left_of(&[n, negated(a), negated(b)], falsified),
        _ => Left::More,
    }
}

/// The same of an xor.
fn left_of_xor(n: u32, a: Literal, b: Literal, side: u32, falsified: &Falsified) -> Left
    ensures { IsLeftOfGate n (Node.Xor a b) falsified.now result }
{
    if side >= 4 {
        return Left::More;
    }
    let first = side % 2 == 1;
    let second = side >= 2;
    let clause = [
        negated_if(n, first == second),
        negated_if(a, first),
        negated_if(b, second),
    ];
    left_of(&clause, falsified)
}
