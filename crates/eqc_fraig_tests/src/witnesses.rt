//! Least assignments under which literals are true, worked out by hand, and what is found where the
//! conflicts don't do.
ghost use Rattle.std.specs.Prelude.{IsTrue};
ghost use Rattle.eqc_xag.specs.Graph.{IsBelow};

use crate::ends::same;
use eqc_witness::{Hints, Target, Witness, first_shown, least_witness, words_shown};
use eqc_xag::{Graph, Node, node_of};
use std::alloc::AllocError;
use std::process::Abort;

/// What is found, an assignment as a number whose highest digit is the first position's.
#[derive(Clone, Copy, PartialEq, Eq, Debug)]
enum Found {
    Least(u32),
    Never,
    Unknown(Option<u32>),
}

/// A case: its name, the literal, the variables, what was seen, and what is found.
type Case = (
    &'static str,
    u32,
    &'static [u16],
    &'static [(u32, bool)],
    Found,
);

/// The literals of the first three variables.
const X: u32 = 2;

const Y: u32 = 4;

const Z: u32 = 6;

/// Three variables, and whether the first two differ, in the node with the literal 8; whether that
/// differs from the third, in 10; whether neither of the first two is true, in 12; whether that is
/// so and the first one is true, in 14.
const NODES: &[Node] = &[
    Node::Input(0),
    Node::Input(1),
    Node::Input(2),
    Node::Xor(X, Y),
    Node::Xor(8, Z),
    Node::And(3, 5),
    Node::And(12, X),
];

#[rattlefmt::skip]
static CASES: &[Case] = &[
    ("false", 0, &[0, 1, 2], &[], Found::Never),
    ("true", 1, &[0, 1, 2], &[], Found::Least(0)),
    ("a variable", Y, &[0, 1, 2], &[], Found::Least(0b010)),
    ("its complement", 5, &[0, 1, 2], &[], Found::Least(0)),
    ("one of two", 8, &[0, 1, 2], &[], Found::Least(0b010)),
    ("both or none", 9, &[0, 1, 2], &[], Found::Least(0)),
    ("one of three, or all", 10, &[0, 1, 2], &[], Found::Least(0b001)),
    ("one of the first two", 13, &[0, 1, 2], &[], Found::Least(0b010)),
    ("what is never so", 14, &[0, 1, 2], &[], Found::Never),
    ("another order", 13, &[1, 0, 2], &[], Found::Least(0b010)),
    ("a variable in another order", Y, &[2, 0, 1], &[], Found::Least(0b001)),
    ("a variable that is nowhere", 8, &[0, 7, 1, 2], &[], Found::Least(0b0010)),
    ("the first of two positions", Y, &[1, 1, 0], &[], Found::Least(0b100)),
    ("from what was seen", 10, &[0, 1, 2], &[(0, true), (1, true), (2, true)], Found::Least(0b001)),
    ("what was seen is wrong", 8, &[0, 1, 2], &[(0, true), (1, true)], Found::Least(0b010)),
];

/// The parity of seven variables, from the first one on and from the last one on; whether these
/// differ; whether they don't and the first variable is false.
const PARITIES: &[Node] = &[
    Node::Input(0),
    Node::Input(1),
    Node::Input(2),
    Node::Input(3),
    Node::Input(4),
    Node::Input(5),
    Node::Input(6),
    Node::Xor(2, 4),
    Node::Xor(16, 6),
    Node::Xor(18, 8),
    Node::Xor(20, 10),
    Node::Xor(22, 12),
    Node::Xor(24, 14),
    Node::Xor(14, 12),
    Node::Xor(28, 10),
    Node::Xor(30, 8),
    Node::Xor(32, 6),
    Node::Xor(34, 4),
    Node::Xor(36, 2),
    Node::Xor(26, 38),
    Node::And(3, 41),
];

const APART: u32 = 40;

const FIRST_OR_APART: u32 = 43;

/// A case of the parities: its name, the literal, what was seen, the conflicts, and what is found.
type Limit = (&'static str, u32, &'static [(u32, bool)], u64, Found);

#[rattlefmt::skip]
static LIMITS: &[Limit] = &[
    ("parities that differ", APART, &[], 10_000, Found::Never),
    ("without conflicts", APART, &[], 0, Found::Unknown(None)),
    ("the first variable alone", FIRST_OR_APART, &[], 10_000, Found::Least(0b1000000)),
    ("less than what was seen", FIRST_OR_APART, &[(0, true), (6, true)], 1, Found::Unknown(Some(0b1000000))),
    ("nothing is asked without conflicts", FIRST_OR_APART, &[(0, true), (6, true)], 0, Found::Unknown(None)),
];

/// So much work is enough.
const MUCH_WORK: u64 = 1_000_000_000;

/// Whether a node is made of nodes below this number.
fn is_below(k: u32, node: Node) -> bool
    ensures { IsTrue result → IsBelow k node }
{
    match node {
        Node::Constant => true,
        Node::Input(_) => true,
        Node::And(x, y) => node_of(x) < k && node_of(y) < k,
        Node::Xor(x, y) => node_of(x) < k && node_of(y) < k,
    }
}

/// Puts nodes behind those of a graph.
fn push_all(
    rt: &(impl Abort + AllocGlobal),
    graph: &mut Graph,
    nodes: &[Node],
) -> Result<(), AllocError> {
    for node in nodes {
        if !is_below(graph.len(), *node) {
            panic!(rt; "a node is made of earlier ones");
        }
        graph.push(*node)?;
    }
    Ok(())
}

/// Values as the digits of a number.
fn number_of(values: &[bool]) -> u32 {
    let mut number: u32 = 0;
    for value in values {
        number = number.wrapping_mul(2).wrapping_add(u32::from(*value));
    }
    number
}

/// What is found, without its memory.
fn found_of(witness: Witness) -> Found {
    match witness {
        Witness::Least(values) => Found::Least(number_of(&values)),
        Witness::Never => Found::Never,
        Witness::Unknown(None) => Found::Unknown(None),
        Witness::Unknown(Some(values)) => Found::Unknown(Some(number_of(&values))),
    }
}

/// What is found of a literal of a graph of these nodes.
fn witness_in(
    rt: &(impl Abort + AllocGlobal),
    nodes: &[Node],
    target: &Target<'_>,
    seen: &[(u32, bool)],
    conflicts: u64,
) -> Result<Found, AllocError> {
    witness_after(rt, nodes, target, seen, &[], conflicts)
}

/// The same, where these are earlier assignments.
fn witness_after(
    rt: &(impl Abort + AllocGlobal),
    nodes: &[Node],
    target: &Target<'_>,
    seen: &[(u32, bool)],
    rows: &[&[bool]],
    conflicts: u64,
) -> Result<Found, AllocError> {
    let mut earlier = Vec::new(rt.alloc());
    for row in rows {
        earlier.push(Vec::from_slice(rt.alloc(), row)?)?;
    }
    let mut graph = Graph::new(rt.alloc())?;
    push_all(rt, &mut graph, nodes)?;
    if node_of(target.literal) >= graph.len() {
        panic!(rt; "a literal is of a node");
    }
    let hints = Hints {
        seen,
        earlier: &earlier,
    };
    let mut left = conflicts;
    let mut work = MUCH_WORK;
    let witness = least_witness(rt.alloc(), &graph, target, &hints, &mut left, &mut work)?;
    Ok(found_of(witness))
}

/// What is found of three variables and 6,000 nodes, each the conjunction of one of these and the
/// node before: of the last node, or of the second variable. With it the conflicts that are left of
/// 100, and what is left of so much work.
fn found_in_chain(
    rt: &(impl Abort + AllocGlobal),
    of_last: bool,
    work: u64,
) -> Result<(Found, u64, u64), AllocError> {
    let mut graph = Graph::new(rt.alloc())?;
    push_all(
        rt,
        &mut graph,
        &[Node::Input(0), Node::Input(1), Node::Input(2)],
    )?;
    let mut last = X;
    for k in 0..6_000 {
        push_all(rt, &mut graph, &[Node::And(last, 2 * (k % 3) + 2)])?;
        last = 2 * (graph.len() - 1);
    }
    let literal = if of_last { last } else { Y };
    if node_of(literal) >= graph.len() {
        panic!(rt; "a literal is of a node");
    }
    let mut left = 100;
    let mut rest = work;
    let target = Target {
        literal,
        variables: &[0, 1, 2],
    };
    let hints = Hints {
        seen: &[],
        earlier: &[],
    };
    let witness = least_witness(rt.alloc(), &graph, &target, &hints, &mut left, &mut rest)?;
    Ok((found_of(witness), left, rest))
}

#[test]
fn least_assignments_are_found(rt: HostRuntime) {
    for (case, literal, variables, seen, wanted) in CASES {
        let target = Target {
            literal: *literal,
            variables,
        };
        let witness = witness_in(&rt, NODES, &target, seen, 100);
        same(&rt, witness, Ok(*wanted), case);
    }
}

#[rattlefmt::skip]
static EARLIER: &[(&'static str, u32, &'static [&'static [bool]], Found)] = &[
    ("the least itself", 8, &[&[false, true, false]], Found::Least(0b010)),
    ("a larger one", 8, &[&[true, false, true]], Found::Least(0b010)),
    ("one that is wrong", 8, &[&[true, true, true]], Found::Least(0b010)),
    ("the least before others", 10, &[&[false, false, true], &[true, true, true], &[false, true, false]], Found::Least(0b001)),
    ("of fewer positions", 10, &[&[true], &[]], Found::Least(0b001)),
    ("of more positions", 10, &[&[true, true, true, true, true, true, true, true, true]], Found::Least(0b001)),
    ("of what is never so", 14, &[&[true, false, false]], Found::Never),
];

#[test]
fn earlier_assignments_are_tried(rt: HostRuntime) {
    for (case, literal, rows, wanted) in EARLIER {
        let target = Target {
            literal: *literal,
            variables: &[0, 1, 2],
        };
        let witness = witness_after(&rt, NODES, &target, &[], rows, 100);
        same(&rt, witness, Ok(*wanted), case);
    }
}

/// The first of some literals of `NODES` that is seen true.
fn shown(rt: &(impl Abort + AllocGlobal), literals: &[u32]) -> Result<Option<usize>, AllocError> {
    let mut graph = Graph::new(rt.alloc())?;
    push_all(rt, &mut graph, NODES)?;
    first_shown(rt.alloc(), &graph, literals)
}

#[test]
fn literals_are_seen_true(rt: HostRuntime) {
    same(&rt, shown(&rt, &[0, 14, 10, 8]), Ok(Some(2)), "the third");
    same(&rt, shown(&rt, &[1, 0]), Ok(Some(0)), "what is always true");
    same(&rt, shown(&rt, &[0, 14]), Ok(None), "what is never true");
    same(&rt, shown(&rt, &[]), Ok(None), "no literals");
    same(
        &rt,
        shown(&rt, &[1_000_000, 9]),
        Ok(Some(1)),
        "a literal that isn't there",
    );
}

#[test]
fn words_are_bounded(rt: HostRuntime) {
    same(&rt, words_shown(0), 0, "no node");
    same(&rt, words_shown(100_000), 3_200_000, "a small graph");
    same(&rt, words_shown(800_000), 8_000_000, "a large one");
    same(&rt, words_shown(2_000_000), 16_000_000, "a larger one");
}

#[test]
fn conflicts_are_a_limit(rt: HostRuntime) {
    for (case, literal, seen, conflicts, wanted) in LIMITS {
        let target = Target {
            literal: *literal,
            variables: &[0, 1, 2, 3, 4, 5, 6],
        };
        let witness = witness_in(&rt, PARITIES, &target, seen, *conflicts);
        same(&rt, witness, Ok(*wanted), case);
    }
}

#[test]
fn nodes_below_the_literal_are_read(rt: HostRuntime) {
    let witness = found_in_chain(&rt, true, MUCH_WORK).map(|(found, _, rest)| (
        found,
        rest < MUCH_WORK,
    ));
    same(
        &rt,
        witness,
        Ok((Found::Least(0b111), true)),
        "the last node",
    );
}

#[test]
fn work_is_a_limit(rt: HostRuntime) {
    let without = found_in_chain(&rt, true, 0).map(|(found, left, _)| (found, left));
    same(
        &rt,
        without,
        Ok((Found::Unknown(None), 100)),
        "without work",
    );
    let little = found_in_chain(&rt, true, 1).map(|(_, _, rest)| rest);
    same(&rt, little, Ok(0), "what reads more nodes");
}

#[test]
fn other_nodes_cost_nothing(rt: HostRuntime) {
    let found = found_in_chain(&rt, false, MUCH_WORK).map(|(found, left, _)| (found, left));
    same(&rt, found, Ok((Found::Least(0b010), 100)), "a variable");
}
