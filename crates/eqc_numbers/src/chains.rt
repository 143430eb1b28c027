//! Copies of graphs as they are, or with chains of carries in place of trees of prefixes.
//!
//! Beside a tree of prefixes a column's carry is g or (p and c), where g says whether a span of
//! columns makes a carry, p whether it passes one on, and c is the carry into the span. Where the
//! span is made of two, g of them is g2 or (p2 and g1), and p is p2 and p1: then the carry is g2 or
//! (p2 and (g1 or (p1 and c))). So each carry comes to one of single columns, as in a chain of
//! adders. All is said of complements, as a graph has conjunctions: of "less", u and not (b and c).
ghost use Rattle.std.specs.Prelude.{◌≡◌, ℕ, ◌*◌, ◌/◌, ◌<◌, ◌&&◌, not, Bool, List, length, IfOk, IfSome};
ghost use Rattle.eqc_xag.specs.declared.node.Node.{Node};
ghost use Rattle.eqc_xag.specs.Graph.{literal_value, IsWithin, Extends};
ghost use Rattle.eqc_sweep.specs.Sweeping.{HasValue};
ghost use Rattle.eqc_sweep.specs.Copying.{AreCopies, IsCopyOf, IsCopyOfNode};
ghost use Rattle.eqc_numbers.specs.Chains.{IsBoth, IsShared, IsSplit, IsPrefix};

use crate::leaves::{Leaves, make_left};
use crate::marks::mark;
use eqc_sweep::{Sweep, below, copied, no_copies};
use eqc_xag::{Graph, Literal, Node, is_negated, negated, node_of};
use std::alloc::{AllocError, Global};

/// In what shape a graph is copied.
#[derive(Clone, Copy, PartialEq, Eq)]
pub enum Shape {
    /// As it is.
    Plain,
    /// Carries of trees of prefixes come as chains of single columns, so that adders are found of
    /// them; the spans of the trees don't enter.
    Chains,
    /// The same, and an exclusive or in which something cancels out is made of what is left.
    ShortChains,
}

/// So often spans are split in two: a span of 128 columns comes to single ones.
const DEPTH: u32 = 7;

/// So many spans are looked at for a carry, at most.
const SPANS: u32 = 256;

/// Two spans in place of one: of u less b, the upper one is `upper` less `shared`, and the lower
/// one is not `made` less `passed`.
#[derive(Clone, Copy)]
pub(crate) struct Split {
    pub(crate) upper: Literal,
    pub(crate) shared: Literal,
    pub(crate) made: Literal,
    pub(crate) passed: Literal,
}

/// A node that is u less the conjunction of b and c.
#[derive(Clone, Copy)]
pub(crate) struct Prefix {
    pub(crate) span: Literal,
    pub(crate) passed: Literal,
    pub(crate) carry: Literal,
}

#[tactic(auto, using(crate::proofs::ChainLemmas::both_of))]
/// The two literals of whose conjunction a literal is, if it is one.
fn both(graph: &Graph, literal: Literal) -> Option<(Literal, Literal)>
    ensures { IfSome result (λ two. IsBoth graph.now literal two.0 two.1) }
{
    let node = node_of(literal);
    if is_negated(literal) || node >= graph.len() {
        return None;
    }
    match graph.node(node) {
        Node::And(x, y) => Some((x, y)),
        Node::Constant | Node::Input(_) | Node::Xor(_, _) => None,
    }
}

#[tactic(auto, using(crate::proofs::ChainLemmas::shared_first, crate::proofs::ChainLemmas::shared_crossed, crate::proofs::ChainLemmas::shared_back, crate::proofs::ChainLemmas::shared_second))]
/// The literal that two conjunctions share, and the other ones of each.
fn shared(one: (u32, u32), other: (u32, u32)) -> Option<(Literal, Literal, Literal)>
    ensures { IfSome result (λ r. (nodes : List Node) (x y : ℕ) → IsBoth nodes x one.0 one.1 → IsBoth nodes y other.0 other.1 → IsShared nodes x y r.0 r.1 r.2) }
{
    if one.0 == other.0 {
        return Some((one.0, one.1, other.1));
    }
    if one.0 == other.1 {
        return Some((one.0, one.1, other.0));
    }
    if one.1 == other.0 {
        return Some((one.1, one.0, other.1));
    }
    if one.1 == other.1 {
        return Some((one.1, one.0, other.0));
    }
    None
}

/// The split of a span, where its first literal is one without a conjunction that shares a literal
/// with the second.
fn split_by(
    graph: &Graph,
    span: Literal,
    passed: Literal,
    upper: Literal,
    without: Literal,
) -> Option<Split>
    requires { IsBoth graph.now span upper without }
    ensures { IfSome result (λ s. IsSplit graph.now span passed s.upper s.shared s.made s.passed) }
{
    let spread = negated(without);
    let one = both(graph, spread)?;
    let other = both(graph, passed)?;
    let (by, made, lower) = shared(one, other)?;
    Some(Split {
        upper,
        shared: by,
        made,
        passed: lower,
    })
}

#[tactic(auto, using(crate::proofs::ChainLemmas::both_turned))]
/// The split of a span, if it is made of two.
fn split_of(graph: &Graph, span: Literal, passed: Literal) -> Option<Split>
    ensures { IfSome result (λ s. IsSplit graph.now span passed s.upper s.shared s.made s.passed) }
{
    let (x, y) = both(graph, span)?;
    match split_by(graph, span, passed, x, y) {
        Some(split) => Some(split),
        None => split_by(graph, span, passed, y, x),
    }
}

#[tactic(auto, using(crate::proofs::ChainLemmas::prefix_made, crate::proofs::ChainLemmas::both_turned))]
/// A conjunction as what a span that is made of two makes of a carry, where it is a literal without
/// a conjunction of these.
fn prefix_by(graph: &Graph, node: u32, span: Literal, without: Literal) -> Option<Prefix>
    requires { IsBoth graph.now (2 * node) span without }
    ensures { IfSome result (λ p. IsPrefix graph.now node p.span p.passed p.carry) }
{
    let spread = negated(without);
    let (x, y) = both(graph, spread)?;
    if split_of(graph, span, x).is_some() {
        return Some(Prefix {
            span,
            passed: x,
            carry: y,
        });
    }
    if split_of(graph, span, y).is_some() {
        return Some(Prefix {
            span,
            passed: y,
            carry: x,
        });
    }
    None
}

#[tactic(auto, using(crate::proofs::ChainLemmas::both_turned))]
/// A node as what a span that is made of two makes of a carry, if it is that.
fn prefix_of(graph: &Graph, node: u32) -> Option<Prefix>
    requires { 2 * node < 4294967296 }
    ensures { IfSome result (λ p. IsPrefix graph.now node p.span p.passed p.carry) }
{
    let (x, y) = both(graph, 2 * node)?;
    match prefix_by(graph, node, x, y) {
        Some(found) => Some(found),
        None => prefix_by(graph, node, y, x),
    }
}

#[tactic(auto, using(crate::proofs::ChainLemmas::made_value, eqc_sums::proofs::GateLemmas::extends_both))]
/// The literal of what a span makes of a carry, where its literals have copies.
fn made(
    table: &[Option<Literal>],
    sweep: &mut Sweep,
    span: Literal,
    passed: Literal,
    carry: Literal,
) -> Result<Option<u32>, AllocError>
    requires { IsWithin sweep.old carry }
    ensures extends { Extends sweep.old sweep.new }
    ensures value { (nodes : List Node) → AreCopies nodes sweep.old table.now → IfOk result (λ found. IfSome found (λ r. HasValue sweep.new r (λ a. literal_value nodes a span && not (literal_value nodes a passed && literal_value sweep.old a carry)))) }
{
    let Some(u) = copied(table, span) else {
        return Ok(None);
    };
    let Some(b) = copied(table, passed) else {
        return Ok(None);
    };
    if node_of(u) >= sweep.graph().len() || node_of(b) >= sweep.graph().len() {
        return Ok(None);
    }
    let goes_on = sweep.and(b, carry)?;
    let literal = sweep.and(u, negated(goes_on))?;
    Ok(Some(literal))
}

#[tactic(auto, using(crate::proofs::ChainLemmas::chain_value, crate::proofs::ChainLemmas::copies_stay, eqc_sums::proofs::GateLemmas::extends_both))]
/// The literal of what a span makes of a carry, by spans of single columns, so often split. Where a
/// literal has no copy there is none.
fn chain(
    graph: &Graph,
    table: &[Option<Literal>],
    sweep: &mut Sweep,
    prefix: Prefix,
    depth: u32,
) -> Result<Option<u32>, AllocError>
    requires copies { AreCopies graph.now sweep.old table.now }
    requires carry { IsWithin sweep.old prefix.carry }
    ensures extends { Extends sweep.old sweep.new }
    ensures value { IfOk result (λ found. IfSome found (λ r. HasValue sweep.new r (λ a. literal_value graph.now a prefix.span && not (literal_value graph.now a prefix.passed && literal_value sweep.old a prefix.carry)))) }
{
    if depth == 0 {
        return made(table, sweep, prefix.span, prefix.passed, prefix.carry);
    }
    let Some(split) = split_of(graph, prefix.span, prefix.passed) else {
        return made(table, sweep, prefix.span, prefix.passed, prefix.carry);
    };
    let lower = Prefix {
        span: negated(split.made),
        passed: split.passed,
        carry: prefix.carry,
    };
    let Some(none) = chain(graph, table, sweep, lower, depth - 1)? else {
        return Ok(None);
    };
    let upper = Prefix {
        span: split.upper,
        passed: split.shared,
        carry: negated(none),
    };
    chain(graph, table, sweep, upper, depth - 1)
}

/// The literal of a gate in a copy of a graph, where its literals have copies.
fn gate_copy(
    node: Node,
    table: &[Option<Literal>],
    sweep: &mut Sweep,
) -> Result<Option<u32>, AllocError>
    ensures extends { Extends sweep.old sweep.new }
    ensures value { (nodes : List Node) → AreCopies nodes sweep.old table.now → IfOk result (λ found. IfSome found (IsCopyOfNode nodes sweep.new node)) }
{
    match node {
        Node::Constant => Ok(Some(sweep.constant(false))),
        Node::Input(variable) => Ok(Some(sweep.input(variable)?)),
        Node::And(x, y) => {
            let Some(x) = copied(table, x) else {
                return Ok(None);
            };
            let Some(y) = copied(table, y) else {
                return Ok(None);
            };
            if node_of(x) >= sweep.graph().len() || node_of(y) >= sweep.graph().len() {
                return Ok(None);
            }
            Ok(Some(sweep.and(x, y)?))
        }
        Node::Xor(x, y) => {
            let Some(x) = copied(table, x) else {
                return Ok(None);
            };
            let Some(y) = copied(table, y) else {
                return Ok(None);
            };
            if node_of(x) >= sweep.graph().len() || node_of(y) >= sweep.graph().len() {
                return Ok(None);
            }
            Ok(Some(sweep.xor(x, y)?))
        }
    }
}

#[tactic(auto, using(crate::proofs::ChainLemmas::prefix_value))]
/// The literal of what a span that is made of two makes of a carry, in a copy of the graph.
fn prefix_copy(
    graph: &Graph,
    table: &[Option<Literal>],
    sweep: &mut Sweep,
    prefix: Prefix,
) -> Result<Option<u32>, AllocError>
    requires copies { AreCopies graph.now sweep.old table.now }
    ensures extends { Extends sweep.old sweep.new }
    ensures value { (k : ℕ) → IsPrefix graph.now k prefix.span prefix.passed prefix.carry → IfOk result (λ found. IfSome found (IsCopyOf graph.now sweep.new (2 * k))) }
{
    let Some(carry) = copied(table, prefix.carry) else {
        return Ok(None);
    };
    let Prefix { span, passed, .. } = prefix;
    let at_carry = Prefix {
        span,
        passed,
        carry,
    };
    chain(graph, table, sweep, at_carry, DEPTH)
}

#[tactic(auto, using(eqc_sweep::proofs::CopyingLemmas::copy_of_node))]
/// The literal of a node in a copy of its graph, where what it is made of has copies.
fn node_copy(
    graph: &Graph,
    k: u32,
    table: &[Option<Literal>],
    sweep: &mut Sweep,
    shape: Shape,
) -> Result<Option<u32>, AllocError>
    requires within { k < length graph.now }
    requires copies { AreCopies graph.now sweep.old table.now }
    ensures extends { Extends sweep.old sweep.new }
    ensures value { IfOk result (λ found. IfSome found (IsCopyOf graph.now sweep.new (2 * k))) }
{
    let _count = graph.len();
    if shape == Shape::Plain {
        return gate_copy(graph.node(k), table, sweep);
    }
    match prefix_of(graph, k) {
        Some(found) => prefix_copy(graph, table, sweep, found),
        None => gate_copy(graph.node(k), table, sweep),
    }
}

#[tactic(auto, using(eqc_sweep::proofs::CopyingLemmas::copies_set))]
/// Enters a node into a copy of its graph, and puts its literal there into the table.
fn enter(
    graph: &Graph,
    k: u32,
    sweep: &mut Sweep,
    table: &mut Vec<Option<Literal>>,
    shape: Shape,
) -> Result<(), AllocError>
    requires within { k < length graph.now }
    requires copies { AreCopies graph.now sweep.old table.old.items }
    ensures extends { Extends sweep.old sweep.new }
    ensures copies { IfOk result (λ _. AreCopies graph.now sweep.new table.new.items) }
{
    let copy = node_copy(graph, k, table.as_slice(), sweep, shape)?;
    let at = k as usize;
    if at < table.len() {
        table[at] = copy;
    }
    Ok(())
}

/// Makes what is left of an exclusive or in a copy of the graph, where something cancels out.
fn prepare(
    node: Node,
    leaves: &mut Leaves,
    table: &[Option<Literal>],
    sweep: &mut Sweep,
) -> Result<(), AllocError>
    ensures { Extends sweep.old sweep.new }
{
    if let Node::Xor(x, y) = node {
        if let (Some(x), Some(y)) = (copied(table, x), copied(table, y)) {
            make_left(leaves, sweep, x, y)?;
        }
    }
    Ok(())
}

/// Marks what the chain of a span's carry is made of.
fn mark_chain(
    alloc: Global,
    graph: &Graph,
    marks: &mut Vec<bool>,
    prefix: &Prefix,
) -> Result<(), AllocError> {
    mark(marks, prefix.carry);
    let mut spans = Vec::new(alloc);
    spans.push((prefix.span, prefix.passed, DEPTH))?;
    'spans: for _ in 0..SPANS {
        let Some((span, passed, depth)) = spans.pop() else {
            return Ok(());
        };
        if depth > 0 {
            if let Some(split) = split_of(graph, span, passed) {
                spans.push((split.upper, split.shared, depth - 1))?;
                spans.push((negated(split.made), split.passed, depth - 1))?;
                continue;
            }
        }
        mark(marks, span);
        mark(marks, passed);
    }
    Ok(())
}

/// Marks the nodes that enter a copy of a shape in which these literals are.
fn entering(
    alloc: Global,
    graph: &Graph,
    literals: &[Literal],
    shape: Shape,
) -> Result<Vec<bool>, AllocError> {
    if shape == Shape::Plain {
        return below(alloc, graph, literals);
    }
    let mut marks = vec![in alloc; false; graph.len() as usize]?;
    for literal in literals {
        mark(&mut marks, *literal);
    }
    'nodes: for back in 0..graph.len() {
        let k = graph.len() - 1 - back;
        if marks.get(k as usize).copied() != Some(true) {
            continue;
        }
        if let Some(found) = prefix_of(graph, k) {
            mark_chain(alloc, graph, &mut marks, &found)?;
            continue;
        }
        match graph.node(k) {
            Node::And(x, y) | Node::Xor(x, y) => {
                mark(&mut marks, x);
                mark(&mut marks, y);
            }
            Node::Constant | Node::Input(_) => {}
        }
    }
    Ok(marks)
}

#[tactic(auto, using(eqc_sweep::proofs::CopyingLemmas::entering_begins, eqc_sweep::proofs::CopyingLemmas::entering_more))]
/// Copies what these literals of a graph are made of into another graph, and answers the literals
/// that its nodes have there, none for nodes that didn't enter. Each has its node's value, in
/// whatever shape it comes. Fails where memory is refused, or where the other graph has
/// no room for more nodes.
pub fn copy_shaped(
    alloc: Global,
    graph: &Graph,
    literals: &[Literal],
    sweep: &mut Sweep,
    shape: Shape,
) -> Result<Vec<Option<Literal>>, AllocError>
    ensures extends { Extends sweep.old sweep.new }
    ensures copies { IfOk result (λ table. AreCopies graph.now sweep.new table.items) }
{
    let marks = entering(alloc, graph, literals, shape)?;
    let mut table = no_copies(alloc, graph)?;
    let mut leaves = Leaves::new(alloc);
    'nodes: for k in 0..graph.len() {
        if marks.get(k as usize).copied() == Some(true) {
            if shape == Shape::ShortChains {
                prepare(graph.node(k), &mut leaves, table.as_slice(), sweep)?;
            }
            enter(graph, k, sweep, &mut table, shape)?;
        }
    }
    Ok(table)
}
