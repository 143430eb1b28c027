//! The copy of a graph's nodes, over positions.
ghost use Rattle.std.specs.Prelude.{◌≡◌, ℕ, ◌*◌, ◌<◌, List, length, nat_eq, IfOk, IfSome};
ghost use Rattle.std.specs.List.{position_or_len};
ghost use Rattle.eqc_xag.specs.Graph.{Extends};
ghost use Rattle.eqc_witness.specs.Cones.{AreCopies, HasInputs, IsCopy};

use crate::below::Below;
use eqc_xag::{Graph, Literal, Node, is_negated, negated_if, node_of};
use std::alloc::{AllocError, Global};

/// The first position of a variable, or the number of positions where it has none.
fn position_of(variables: &[u16], variable: u32) -> usize
    ensures { result ≡ position_or_len (λ v. nat_eq v variable) variables.now }
{
    for (position, other) in variables.iter().enumerate() {
        if u32::from(*other) == variable {
            return position;
        }
    }
    variables.len()
}

/// The graph of the inputs of so many positions, in their order behind the constant. Fails where
/// memory is refused, or where there are 2^30 nodes.
pub(crate) fn inputs_alone(alloc: Global, positions: usize) -> Result<Graph, AllocError>
    ensures { IfOk result (λ graph. HasInputs graph positions) }
{
    let mut graph = Graph::new(alloc)?;
    for _ in 0..positions {
        let position = graph.len() - 1;
        graph.push(Node::Input(position))?;
    }
    Ok(graph)
}

/// The copy of a literal, by the copies of the first nodes, if its node is one of these.
pub(crate) fn copy_of(below: &Below, copies: &[u32], literal: Literal) -> Option<Literal>
    ensures { (old new : List Node) (variables : List ℕ) → AreCopies old new variables below.now.nodes.items copies.now → IfSome result (IsCopy old new variables literal) }
{
    let place = below.place_of(node_of(literal))?;
    if place >= copies.len() {
        return None;
    }
    Some(negated_if(copies[place], is_negated(literal)))
}

#[tactic(auto, using(crate::proofs::CopyLemmas::copy_and, crate::proofs::CopyLemmas::copy_xor))]
/// Copies a node, where those that it is made of are copied: none where one of them isn't. A
/// variable that has no position is false. Fails where memory is refused, or where there are 2^30
/// nodes.
fn copied(
    copy: &mut Graph,
    graph: &Graph,
    node: u32,
    below: &Below,
    copies: &[u32],
    variables: &[u16],
) -> Result<Option<u32>, AllocError>
    requires within { node < length graph.now }
    requires inputs { HasInputs copy.old (length variables.now) }
    requires copies { AreCopies graph.now copy.old variables.now below.now.nodes.items copies.now }
    ensures extends { Extends copy.old copy.new }
    ensures copy { IfOk result (λ found. IfSome found (IsCopy graph.now copy.new variables.now (2 * node))) }
{
    // For the proof alone: a graph has at most 2^30 nodes.
    let _ = copy.len();
    match graph.node(node) {
        Node::Constant => Ok(Some(0)),
        Node::Input(variable) => {
            let position = position_of(variables, variable);
            if position < variables.len() {
                Ok(Some(2 * position as u32 + 2))
            } else {
                Ok(Some(0))
            }
        }
        Node::And(x, y) => {
            let Some(first) = copy_of(below, copies, x) else {
                return Ok(None);
            };
            let Some(second) = copy_of(below, copies, y) else {
                return Ok(None);
            };
            let literal = copy.push(Node::And(first, second))?;
            Ok(Some(literal))
        }
        Node::Xor(x, y) => {
            let Some(first) = copy_of(below, copies, x) else {
                return Ok(None);
            };
            let Some(second) = copy_of(below, copies, y) else {
                return Ok(None);
            };
            let literal = copy.push(Node::Xor(first, second))?;
            Ok(Some(literal))
        }
    }
}

/// Copies nodes of a graph in their order, and gives the copy of each: of all, since each comes
/// behind those that it is made of. Fails where memory is refused, or where there are 2^30 nodes.
pub(crate) fn copies(
    alloc: Global,
    copy: &mut Graph,
    graph: &Graph,
    below: &Below,
    variables: &[u16],
) -> Result<Vec<u32>, AllocError>
    requires { HasInputs copy.old (length variables.now) }
    ensures inputs { HasInputs copy.new (length variables.now) }
    ensures copies { IfOk result (λ table. AreCopies graph.now copy.new variables.now below.now.nodes.items table.items) }
{
    let mut table = Vec::with_capacity(alloc, below.nodes.len())?;
    for place in 0..below.nodes.len() {
        let node = below.nodes[place];
        if node >= graph.len() {
            break;
        }
        let Some(literal) = copied(copy, graph, node, below, &table, variables)? else {
            break;
        };
        table.push(literal)?;
    }
    Ok(table)
}
