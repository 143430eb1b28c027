//! The nodes of a graph in another one, in which more of them may be found equal.
ghost use Rattle.std.specs.Prelude.{◌≡◌, ◌*◌, ◌<◌, List, length, IfOk, IfSome};
ghost use Rattle.std.specs.List.{All};
ghost use Rattle.eqc_xag.specs.declared.node.Node.{Node};
ghost use Rattle.eqc_xag.specs.Graph.{Extends};
ghost use Rattle.eqc_sweep.specs.Copying.{AreCopies, IsCopyOf, copy_of};

pub(crate) mod ready;

use crate::copying::ready::Ready;
use crate::sweep::Sweep;
use eqc_xag::{Graph, Literal, Node, is_negated, negated_if, node_of};
use std::alloc::{AllocError, Global};
use std::thread::Threads;

fn is_marked(marks: &[bool], k: u32) -> bool {
    marks.get(k as usize).copied().unwrap_or(false)
}

/// Marks the node of a literal, if it has a mark.
fn mark(marks: &mut Vec<bool>, literal: Literal) {
    let at = node_of(literal) as usize;
    if at < marks.len() {
        marks[at] = true;
    }
}

/// Marks for the nodes of a graph: those of these literals, and what they are made of. Fails where
/// memory is refused.
pub fn below(alloc: Global, graph: &Graph, literals: &[Literal]) -> Result<Vec<bool>, AllocError> {
    let mut marks = vec![in alloc; false; graph.len() as usize]?;
    for literal in literals {
        mark(&mut marks, *literal);
    }
    for back in 0..graph.len() {
        let k = graph.len() - 1 - back;
        if !is_marked(&marks, k) {
            continue;
        }
        match graph.node(k) {
            Node::And(x, y) | Node::Xor(x, y) => {
                mark(&mut marks, x);
                mark(&mut marks, y);
            }
            Node::Constant | Node::Input(_) => {}
        }
    }
    Ok(marks)
}

/// The literal of a node in a table, if it has one.
fn entry(table: &[Option<Literal>], k: u32) -> Option<Literal>
    ensures { result ≡ copy_of table.now k }
{
    table.get(k as usize).copied().flatten()
}

/// The literal that a literal of a graph has in another one, where its node has one there. `table`
/// has a place for each node.
#[tactic(auto, using(crate::proofs::CopyingLemmas::copied_literal))]
pub fn copied(table: &[Option<Literal>], literal: Literal) -> Option<Literal>
    ensures { (old new : List Node) → AreCopies old new table.now → IfSome result (IsCopyOf old new literal) }
{
    let copy = entry(table, node_of(literal))?;
    Some(negated_if(copy, is_negated(literal)))
}

/// The literal of a node in another graph, where its operands have one there. Fails where memory is
/// refused.
#[tactic(auto, using(crate::proofs::CopyingLemmas::copy_of_node))]
fn copy_of(
    graph: &Graph,
    k: u32,
    table: &[Option<Literal>],
    sweep: &mut Sweep,
) -> Result<Option<u32>, AllocError>
    requires within { k < length graph.now }
    requires copies { AreCopies graph.now sweep.old table.now }
    ensures extends { Extends sweep.old sweep.new }
    ensures value { IfOk result (λ found. IfSome found (IsCopyOf graph.now sweep.new (2 * k))) }
{
    match graph.node(k) {
        Node::Constant => Ok(Some(sweep.constant(false))),
        Node::Input(variable) => Ok(Some(sweep.input(variable)?)),
        Node::And(x, y) => {
            let Some(x) = copied(table, x) else {
                return Ok(None);
            };
            let Some(y) = copied(table, y) else {
                return Ok(None);
            };
            Ok(Some(sweep.and(x, y)?))
        }
        Node::Xor(x, y) => {
            let Some(x) = copied(table, x) else {
                return Ok(None);
            };
            let Some(y) = copied(table, y) else {
                return Ok(None);
            };
            Ok(Some(sweep.xor(x, y)?))
        }
    }
}

#[tactic(auto, using(crate::proofs::CopyingLemmas::copies_set))]
/// Enters a node into another graph, and puts its literal there into the table, where its operands
/// have one. Fails where memory is refused.
fn enter(
    graph: &Graph,
    k: u32,
    sweep: &mut Sweep,
    table: &mut Vec<Option<Literal>>,
) -> Result<Option<Literal>, AllocError>
    requires within { k < length graph.now }
    requires copies { AreCopies graph.now sweep.old table.old.items }
    ensures extends { Extends sweep.old sweep.new }
    ensures copies { IfOk result (λ _. AreCopies graph.now sweep.new table.new.items) }
{
    let copy = copy_of(graph, k, table, sweep)?;
    let at = k as usize;
    if at >= table.len() {
        return Ok(None);
    }
    table[at] = copy;
    Ok(copy)
}

#[tactic(auto, using(crate::proofs::CopyingLemmas::entering_begins, crate::proofs::CopyingLemmas::entering_more))]
/// Enters all nodes that may, as long as there are some, and answers those that wait then. Fails
/// where memory is refused.
fn enter_ready<F: Fn(u32)>(
    graph: &Graph,
    ready: &mut Ready,
    sweep: &mut Sweep,
    table: &mut Vec<Option<Literal>>,
    told: &F,
) -> Result<Vec<u32>, AllocError>
    requires told { F.IsAlwaysCallable told.now }
    requires copies { AreCopies graph.now sweep.old table.old.items }
    ensures extends { Extends sweep.old sweep.new }
    ensures copies { IfOk result (λ _. AreCopies graph.now sweep.new table.new.items) }
    ensures waiting { IfOk result (λ waiting. All (λ k. k < length graph.now) waiting.items) }
{
    let mut waiting = Vec::new(sweep.alloc());
    'nodes: for _ in 0..graph.len() {
        let Some(k) = ready.next(graph.len()) else {
            break;
        };
        told(ready.before());
        match enter(graph, k, sweep, table)? {
            Some(literal) if sweep.is_waiting(literal) => waiting.push(k)?,
            _ => ready.release(k)?,
        }
    }
    Ok(waiting)
}

#[tactic(auto, using(crate::proofs::CopyingLemmas::entering_begins, crate::proofs::CopyingLemmas::entering_more))]
/// Enters once more what waited and was asked about: it has the literals of the older nodes that it
/// equals now. Fails where memory is refused.
fn enter_again(
    graph: &Graph,
    waiting: &[u32],
    ready: &mut Ready,
    sweep: &mut Sweep,
    table: &mut Vec<Option<Literal>>,
) -> Result<(), AllocError>
    requires within { All (λ k. k < length graph.now) waiting.now }
    requires copies { AreCopies graph.now sweep.old table.old.items }
    ensures extends { Extends sweep.old sweep.new }
    ensures copies { IfOk result (λ _. AreCopies graph.now sweep.new table.new.items) }
{
    for k in waiting {
        let _ = enter(graph, *k, sweep, table)?;
        ready.release(*k)?;
    }
    Ok(())
}

#[tactic(auto, using(crate::proofs::CopyingLemmas::copies_none))]
/// A table for the literals that the nodes of a graph have in another one, without one. Fails where
/// memory is refused.
pub fn no_copies(alloc: Global, graph: &Graph) -> Result<Vec<Option<Literal>>, AllocError>
    ensures { IfOk result (λ table. (old new : List Node) → AreCopies old new table.items) }
{
    vec![in alloc; None; graph.len() as usize]
}

#[tactic(auto, using(crate::proofs::CopyingLemmas::entering_begins, crate::proofs::CopyingLemmas::entering_more))]
/// Puts the literals that the marked nodes of a graph have in another one, which goes on from what
/// it is, into a table that has some of them: inputs enter too, marked or not. `marks` says what is
/// marked, as `below` does; `told` is told how many nodes have entered before the next one does.
/// Nodes that may be equal to older ones are asked about side by side, as many at once as don't
/// depend on one another. Fails where memory is refused, or where the other graph has no room for
/// more nodes.
pub fn copy<R: Threads + Sync, F: Fn(u32)>(
    rt: &R,
    graph: &Graph,
    marks: &[bool],
    sweep: &mut Sweep,
    table: &mut Vec<Option<Literal>>,
    told: &F,
) -> Result<(), AllocError>
    requires told { F.IsAlwaysCallable told.now }
    requires copies { AreCopies graph.now sweep.old table.old.items }
    ensures copies { IfOk result (λ _. AreCopies graph.now sweep.new table.new.items) }
    ensures extends { Extends sweep.old sweep.new }
{
    let mut ready = Ready::of(sweep.alloc(), graph, marks, table)?;
    sweep.begin_waiting();
    'turns: for _ in 0..graph.len() {
        let waiting = enter_ready(graph, &mut ready, sweep, table, told)?;
        if waiting.is_empty() {
            break;
        }
        sweep.ask_waiting(rt)?;
        enter_again(graph, &waiting, &mut ready, sweep, table)?;
    }
    sweep.end_waiting();
    Ok(())
}
