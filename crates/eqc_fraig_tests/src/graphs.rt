//! Graphs of rows of nodes, and the values of their literals, each worked out from those before it.
ghost use Rattle.std.specs.Prelude.{IsTrue};
ghost use Rattle.eqc_xag.specs.Graph.{IsBelow};

use crate::ends::same;
use eqc_xag::{Graph, Node, is_negated, negated, negated_if, node_of};
use std::alloc::{AllocError, Global};
use std::process::Abort;

/// The literals of the first three variables, the first nodes of each graph.
pub(crate) const X: u32 = 2;

pub(crate) const Y: u32 = 4;

pub(crate) const Z: u32 = 6;

/// Literals of `ADDER`: the sum of the variables, the complement of the carry, and that of the
/// majority.
pub(crate) const SUM: u32 = 10;

pub(crate) const NO_CARRY: u32 = 16;

pub(crate) const NO_MAJORITY: u32 = 24;

/// A full adder, and the majority of its inputs by their pairs.
pub(crate) const ADDER: &[Node] = &[
    Node::Input(0),
    Node::Input(1),
    Node::Input(2),
    Node::Xor(X, Y),
    Node::Xor(8, Z),
    Node::And(X, Y),
    Node::And(8, Z),
    Node::And(13, 15),
    Node::And(X, Z),
    Node::And(Y, Z),
    Node::And(13, 19),
    Node::And(22, 21),
];

/// Whether a node is made of nodes below this number.
fn is_below(k: u32, node: Node) -> bool
    ensures { IsTrue result → IsBelow k node }
{
    match node {
        Node::Constant => true,
        Node::Input(_) => true,
        Node::And(x, y) => node_of(x) < k && node_of(y) < k,
        Node::Xor(x, y) => node_of(x) < k && node_of(y) < k,
    }
}

/// The graph of the constant and these nodes behind it.
pub(crate) fn graph_of(
    rt: &(impl Abort + AllocGlobal),
    nodes: &[Node],
) -> Result<Graph, AllocError> {
    let mut graph = Graph::new(rt.alloc())?;
    for node in nodes {
        if !is_below(graph.len(), *node) {
            panic!(rt; "a node is made of earlier ones");
        }
        graph.push(*node)?;
    }
    Ok(graph)
}

/// The value of a literal, where these are the values of the nodes.
pub(crate) fn value_of(values: &[bool], literal: u32) -> bool {
    let value = values
        .get(node_of(literal) as usize)
        .copied()
        .unwrap_or(false);
    value != is_negated(literal)
}

/// The values of the nodes under these values of the variables.
pub(crate) fn values_of(
    alloc: Global,
    graph: &Graph,
    variables: &[bool],
) -> Result<Vec<bool>, AllocError> {
    let mut values = Vec::new(alloc);
    for k in 0..graph.len() {
        let value = match graph.node(k) {
            Node::Constant => false,
            Node::Input(variable) => variables.get(variable as usize).copied().unwrap_or(false),
            Node::And(x, y) => value_of(&values, x) && value_of(&values, y),
            Node::Xor(x, y) => value_of(&values, x) != value_of(&values, y),
        };
        values.push(value)?;
    }
    Ok(values)
}

/// The sum, the carry and the majority under these values of the variables.
fn adder_values(graph: &Graph, alloc: Global, variables: &[bool]) -> Result<[bool; 3], AllocError> {
    let values = values_of(alloc, graph, variables)?;
    Ok([
        value_of(&values, SUM),
        value_of(&values, negated(NO_CARRY)),
        value_of(&values, negated(NO_MAJORITY)),
    ])
}

/// Values of the variables, those of the sum and of the carry.
static SUMS: &[(&[bool], bool, bool)] = &[
    (&[false, false, false], false, false),
    (&[true, false, false], true, false),
    (&[false, true, false], true, false),
    (&[true, true, false], false, true),
    (&[false, false, true], true, false),
    (&[true, false, true], false, true),
    (&[false, true, true], false, true),
    (&[true, true, true], true, true),
];

#[test]
fn literals_have_the_values_of_their_nodes(rt: HostRuntime) -> Result<(), AllocError> {
    let graph = graph_of(&rt, ADDER)?;
    for (variables, sum, carry) in SUMS {
        let found = adder_values(&graph, rt.alloc(), variables);
        same(&rt, found, Ok([*sum, *carry, *carry]), "a sum");
    }
    Ok(())
}

/// How many nodes there are, the literal of one more, which it is, and how many are left behind the
/// first five.
fn readings(
    rt: &(impl Abort + AllocGlobal),
    node: Node,
) -> Result<(u32, u32, Node, u32), AllocError> {
    let mut graph = graph_of(rt, ADDER)?;
    let before = graph.len();
    if !is_below(before, node) || before >= 1_000 || before < 5 {
        panic!(rt; "it is made of the adder's nodes");
    }
    let literal = graph.push(node)?;
    let read = graph.node(before);
    graph.truncate(5);
    Ok((before, literal, read, graph.len()))
}

#[test]
fn nodes_are_pushed_read_and_taken_back(rt: HostRuntime) {
    for node in [Node::And(SUM, NO_CARRY), Node::Input(7), Node::Constant] {
        same(&rt, readings(&rt, node), Ok((13, 26, node, 5)), "a node");
    }
}

#[test]
fn literals_have_complements(rt: HostRuntime) {
    for (literal, node, complement, sign) in [
        (0, 0, 1, false),
        (1, 0, 0, true),
        (6, 3, 7, false),
        (7, 3, 6, true),
    ] {
        let found = (node_of(literal), negated(literal), is_negated(literal));
        same(&rt, found, (node, complement, sign), literal);
        let found = (negated_if(literal, true), negated_if(literal, false));
        same(&rt, found, (complement, literal), literal);
    }
}
