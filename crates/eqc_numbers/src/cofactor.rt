//! What is left of a graph where an input has one value.
ghost use Rattle.std.specs.Prelude.{◌≡◌, ℕ, ◌<◌, Bool, List, IfOk};
ghost use Rattle.eqc_xag.specs.declared.node.Node.{Node};
ghost use Rattle.eqc_xag.specs.Graph.{literal_value, node_value, IsBelow, IsGraph};
ghost use Rattle.eqc_numbers.specs.Cases.{IsCofactor};

use crate::marks::mark;
use eqc_sweep::below;
use eqc_xag::{Graph, Literal, Node, is_negated, node_of};
use std::alloc::{AllocError, Global};

/// An input that chooses leaves at most so many quarters of a graph, for both its values together.
const QUARTERS: u64 = 6;

/// At most so many nodes are looked at to find one.
const LOOKS: u64 = 20_000_000;

/// An input that chooses what there is, and the value with which more of it is left.
#[derive(Clone, Copy)]
pub(crate) struct Control {
    pub(crate) variable: u32,
    pub(crate) value: bool,
}

/// What a node is where a variable has a value: the constant in place of the variable's input.
fn node_where(node: Node, variable: u32, value: bool) -> Node
    ensures below { (k : ℕ) → 0 < k → IsBelow k node → IsBelow k result }
    ensures value { (nodes : List Node) → IsGraph nodes → (a : ℕ → Bool) → a variable ≡ value → node_value a (literal_value nodes a) result ≡ node_value a (literal_value nodes a) node }
{
    match node {
        Node::Input(other) if other == variable => {
            let constant = if value { 1 } else { 0 };
            Node::And(constant, constant)
        }
        other => other,
    }
}

#[tactic(auto, using(crate::proofs::CasesLaws::part_begins))]
/// The graph of as many nodes in which a variable has a value. Fails where memory is refused.
pub(crate) fn cofactor(
    alloc: Global,
    graph: &Graph,
    variable: u32,
    value: bool,
) -> Result<Graph, AllocError>
    ensures { IfOk result (IsCofactor graph.now variable value) }
{
    let mut part = Graph::new(alloc)?;
    'nodes: for k in 1..graph.len() {
        // For its proof's sake: that what was made so far is a graph.
        let _ = part.len();
        part.push(node_where(graph.node(k), variable, value))?;
    }
    Ok(part)
}

/// What is known of a literal, where so much is known of nodes.
fn known(values: &[Option<bool>], literal: Literal) -> Option<bool> {
    let value = values.get(node_of(literal) as usize).copied().flatten()?;
    Some(value != is_negated(literal))
}

/// What is known of a node, where so much is known of those before it.
fn known_node(values: &[Option<bool>], node: Node) -> Option<bool> {
    match node {
        Node::Constant => Some(false),
        Node::Input(_) => None,
        Node::And(x, y) => match (known(values, x), known(values, y)) {
            (Some(false), _) | (_, Some(false)) => Some(false),
            (Some(true), Some(true)) => Some(true),
            _ => None,
        },
        Node::Xor(x, y) => Some(known(values, x)? != known(values, y)?),
    }
}

/// What is known of the nodes of a graph where a variable has a value.
fn values_where(
    alloc: Global,
    graph: &Graph,
    given: Option<(u32, bool)>,
) -> Result<Vec<Option<bool>>, AllocError> {
    let mut values = Vec::with_capacity(alloc, graph.len() as usize)?;
    for k in 0..graph.len() {
        let value = match (graph.node(k), given) {
            (Node::Input(variable), Some((other, value))) if variable == other => Some(value),
            (node, _) => known_node(&values, node),
        };
        values.push(value)?;
    }
    Ok(values)
}

/// How many gates these literals are made of where a variable has a value: those of which nothing
/// is known, but for one operand alone.
fn size_where(
    alloc: Global,
    graph: &Graph,
    literals: &[Literal],
    given: Option<(u32, bool)>,
) -> Result<u64, AllocError> {
    let values = values_where(alloc, graph, given)?;
    let mut marks = vec![in alloc; false; graph.len() as usize]?;
    for literal in literals {
        mark(&mut marks, *literal);
    }
    let mut size = 0u64;
    for back in 0..graph.len() {
        let k = graph.len() - 1 - back;
        let is_open = values.get(k as usize).copied().flatten().is_none();
        if !is_open || marks.get(k as usize).copied() != Some(true) {
            continue;
        }
        if let Node::And(x, y) | Node::Xor(x, y) = graph.node(k) {
            match (known(&values, x), known(&values, y)) {
                (Some(_), _) => mark(&mut marks, y),
                (_, Some(_)) => mark(&mut marks, x),
                _ => {
                    mark(&mut marks, x);
                    mark(&mut marks, y);
                    size = size.saturating_add(1);
                }
            }
        }
    }
    Ok(size)
}

/// The input whose two values together leave least of what these literals are made of, where that
/// is little: one that chooses what a design does. Nothing is promised of it. Fails where memory is
/// refused.
pub(crate) fn control_of(
    alloc: Global,
    graph: &Graph,
    literals: &[Literal],
) -> Result<Option<Control>, AllocError> {
    let whole = size_where(alloc, graph, literals, None)?;
    let marks = below(alloc, graph, literals)?;
    let mut looks = LOOKS;
    let mut least = whole.saturating_mul(QUARTERS) / 4;
    let mut found = None;
    for k in 0..graph.len() {
        let Node::Input(variable) = graph.node(k) else {
            continue;
        };
        if marks.get(k as usize).copied() != Some(true) || looks == 0 {
            continue;
        }
        looks = looks.saturating_sub(2 * u64::from(graph.len()));
        let low = size_where(alloc, graph, literals, Some((variable, false)))?;
        let high = size_where(alloc, graph, literals, Some((variable, true)))?;
        if low.saturating_add(high) < least {
            least = low.saturating_add(high);
            found = Some(Control {
                variable,
                value: high > low,
            });
        }
    }
    Ok(found)
}
