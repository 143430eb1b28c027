//! Words that are equal whatever values nodes have that both are made of: the bits of a factor, say,
//! that a design chooses or adds up first.
ghost use Rattle.std.specs.Prelude.{◌≡◌, ℕ, ◌<◌, List, IfOk, IsTrue};
ghost use Rattle.eqc_xag.specs.declared.node.Node.{Node};
ghost use Rattle.eqc_xag.specs.Graph.{IsBelow};
ghost use Rattle.eqc_sweep.specs.Copying.{AreCopies};
ghost use Rattle.eqc_sums.specs.Adding.{AreEqualWords};
ghost use Rattle.eqc_numbers.specs.Cuts.{IsCut, StandsFor};

use crate::anew::are_equal_by_way_of_references;
use crate::chains::{Shape, copy_shaped};
use crate::marks::is_marked;
use crate::shown::{CHEAP, Words, copies, copy_both};
use eqc_polynomials::is_sum_of_products;
use eqc_sweep::{Effort, Sweep, below};
use eqc_xag::{Graph, Literal, Node, node_of};
use std::alloc::{AllocError, Global};

/// The variables from here on are those of nodes.
const FIRST: u32 = 1_073_741_824;

/// A gate of which so many others are made is like the bit of a factor, which counts with each bit
/// of the other one. Where a netlist recodes the factor fewer are made of it there.
const MANY: u32 = 8;

/// Which gates may be bits of factors, of those of which many others are made.
#[derive(Clone, Copy, PartialEq, Eq)]
enum Factors {
    /// Those that no product of two such bits goes into: of the bit that tells a row's sign many
    /// gates are made too.
    BelowProducts,
    All,
}

#[tactic(auto, using(crate::proofs::CutLaws::cut_stands, crate::proofs::CutLaws::input_stands, crate::proofs::CutLaws::constant_stands, crate::proofs::CutLaws::and_stands, crate::proofs::CutLaws::xor_stands))]
/// What stands for a node: an input of its own, if it is cut or is one of the variables of nodes.
fn cut_node(node: Node, k: u32, is_cut: bool) -> Node
    requires few { k < 1073741824 }
    ensures below { (j : ℕ) → IsBelow j node → IsBelow j result }
    ensures stands { StandsFor k node result }
{
    match node {
        Node::Constant => node,
        Node::Input(variable) => {
            if variable < FIRST {
                node
            } else {
                Node::Input(FIRST + k)
            }
        }
        Node::And(_, _) | Node::Xor(_, _) => { if is_cut { Node::Input(FIRST + k) } else { node } }
    }
}

#[tactic(auto, using(crate::proofs::CutLaws::cut_begins))]
/// The graph of as many nodes in which the marked gates are inputs. Fails where memory is refused.
fn cut_graph(alloc: Global, graph: &Graph, cuts: &[bool]) -> Result<Graph, AllocError>
    ensures { IfOk result (IsCut graph.now) }
{
    let mut part = Graph::new(alloc)?;
    'nodes: for k in 1..graph.len() {
        // For its proof's sake: that what was made so far is a graph.
        let _ = part.len();
        part.push(cut_node(graph.node(k), k, is_marked(cuts, k)))?;
    }
    Ok(part)
}

/// Counts a gate at an operand of it.
fn count(uses: &mut Vec<u32>, literal: Literal) {
    let at = node_of(literal) as usize;
    if at < uses.len() {
        uses[at] = uses[at].saturating_add(1);
    }
}

/// Of how many gates below a word each node is an operand: of none if it isn't below it itself.
/// Fails where memory is refused.
fn uses_below(alloc: Global, graph: &Graph, word: &[Literal]) -> Result<Vec<u32>, AllocError> {
    let marks = below(alloc, graph, word)?;
    let mut uses = vec![in alloc; 0u32; graph.len() as usize]?;
    for k in 0..graph.len() {
        if !is_marked(&marks, k) {
            continue;
        }
        if let Node::And(x, y) | Node::Xor(x, y) = graph.node(k) {
            count(&mut uses, x);
            count(&mut uses, y);
        }
    }
    Ok(uses)
}

fn is_gate(graph: &Graph, k: u32) -> bool {
    k < graph.len() && matches!(graph.node(k), Node::And(_, _) | Node::Xor(_, _))
}

/// Whether many gates are made of a node.
fn is_used_often(uses: &[u32], k: u32) -> bool {
    uses.get(k as usize).copied().unwrap_or(0) >= MANY
}

/// Whether a node is the product of two that many gates are made of, or is made of one that is marked.
fn is_above_product(node: Node, uses: &[u32], above: &[bool]) -> bool {
    match node {
        Node::Constant | Node::Input(_) => false,
        Node::And(x, y) | Node::Xor(x, y) => {
            let (x, y) = (node_of(x), node_of(y));
            let is_product = matches!(node, Node::And(_, _));
            is_marked(above, x)
                || is_marked(above, y)
                || is_product && is_used_often(uses, x) && is_used_often(uses, y)
        }
    }
}

/// Marks of the gates of which many others are made, by how many, where they may be bits of factors.
/// Fails where memory is refused.
fn factors_of(
    alloc: Global,
    graph: &Graph,
    uses: &[u32],
    factors: Factors,
) -> Result<Vec<bool>, AllocError> {
    let mut marks = Vec::with_capacity(alloc, uses.len())?;
    let mut above = Vec::with_capacity(alloc, uses.len())?;
    for k in 0..graph.len() {
        let is_above = is_above_product(graph.node(k), uses, &above);
        let is_left = factors == Factors::BelowProducts && is_above;
        marks.push(is_gate(graph, k) && is_used_often(uses, k) && !is_left)?;
        above.push(is_above)?;
    }
    Ok(marks)
}

/// Of how many gates below one of two words each node is an operand, if it is below both. Fails
/// where memory is refused.
fn uses_of(
    alloc: Global,
    graph: &Graph,
    firsts: &[Literal],
    seconds: &[Literal],
) -> Result<Vec<u32>, AllocError> {
    let one = uses_below(alloc, graph, firsts)?;
    let other = uses_below(alloc, graph, seconds)?;
    let mut uses = Vec::with_capacity(alloc, one.len())?;
    for k in 0..one.len().min(other.len()) {
        let is_below_both = one[k] > 0 && other[k] > 0;
        uses.push(if is_below_both {
            one[k].max(other[k])
        } else {
            0
        })?;
    }
    Ok(uses)
}

/// Marks of the gates below both words that may be bits of factors: none where there is no such
/// gate. Nothing is promised of them. Fails where memory is refused.
fn cuts_of(
    alloc: Global,
    graph: &Graph,
    firsts: &[Literal],
    seconds: &[Literal],
    factors: Factors,
) -> Result<Option<Vec<bool>>, AllocError> {
    let uses = uses_of(alloc, graph, firsts, seconds)?;
    let cuts = factors_of(alloc, graph, &uses, factors)?;
    let some = cuts.iter().any(|it| *it);
    Ok(if some { Some(cuts) } else { None })
}

/// Notes the gates that may be bits of a word's factors. Fails where memory is refused.
fn note_factors(
    alloc: Global,
    graph: &Graph,
    word: &[Literal],
    factors: Factors,
    noted: &mut Vec<Literal>,
) -> Result<(), AllocError> {
    let uses = uses_below(alloc, graph, word)?;
    let marks = factors_of(alloc, graph, &uses, factors)?;
    for k in 0..graph.len() {
        if is_marked(&marks, k) {
            noted.push(2 * k)?;
        }
    }
    Ok(())
}

/// Whether a word is a sum of products of gates that may be bits of factors, or of inputs. Nothing
/// is promised of it. Fails where memory is refused.
fn is_product(
    alloc: Global,
    graph: &Graph,
    word: &[Literal],
    factors: Factors,
) -> Result<bool, AllocError> {
    let Some(cuts) = cuts_of(alloc, graph, word, word, factors)? else {
        return Ok(false);
    };
    let cut = cut_graph(alloc, graph, &cuts)?;
    is_sum_of_products(alloc, &cut, word)
}

/// Whether two words are shown equal by their copies in a graph, some of whose nodes become inputs.
/// Fails where memory is refused.
fn are_equal_in_copy(
    words: &Words<'_>,
    table: &[Option<Literal>],
    graph: &Graph,
    factors: Factors,
) -> Result<bool, AllocError>
    ensures { (old : List Node) → AreCopies old graph.now table.now → IfOk result (λ is. IsTrue is → AreEqualWords old words.now.firsts.now words.now.seconds.now) }
{
    let ps = copies(words.alloc, table, words.firsts)?;
    let qs = copies(words.alloc, table, words.seconds)?;
    if ps.len() != words.firsts.len() || qs.len() != words.seconds.len() {
        return Ok(false);
    }
    let Some(cuts) = cuts_of(words.alloc, graph, &ps, &qs, factors)? else {
        return Ok(false);
    };
    let cut = cut_graph(words.alloc, graph, &cuts)?;
    let copied = Words {
        firsts: &ps,
        seconds: &qs,
        ..*words
    };
    are_equal_by_way_of_references(&copied, &cut)
}

/// Copies what two words are made of into a graph in which such gates are one as many others are
/// made of, where they are easily found equal, and nothing else is asked: so each word stays in its
/// own architecture. Answers the copies of nodes. Fails where memory is refused.
fn copy_over_factors(
    words: &Words<'_>,
    graph: &Graph,
    sweep: &mut Sweep,
    factors: Factors,
) -> Result<Vec<Option<Literal>>, AllocError>
    ensures { IfOk result (λ table. AreCopies graph.now sweep.new table.items) }
{
    let mut noted = Vec::new(words.alloc);
    note_factors(words.alloc, graph, words.firsts, factors, &mut noted)?;
    note_factors(words.alloc, graph, words.seconds, factors, &mut noted)?;
    copy_shaped(words.alloc, graph, &noted, sweep, Shape::Plain)?;
    sweep.ask_no_more();
    copy_both(words, graph, sweep, Shape::Plain)
}

/// Whether two words are shown equal so in a copy in which all nodes are one that are easily found
/// equal.
fn are_equal_when_swept(
    words: &Words<'_>,
    graph: &Graph,
    factors: Factors,
) -> Result<bool, AllocError>
    ensures { IfOk result (λ is. IsTrue is → AreEqualWords graph.now words.now.firsts.now words.now.seconds.now) }
{
    let mut sweep = Sweep::new(words.alloc, Effort::of(CHEAP, words.limits.work))?;
    let table = copy_both(words, graph, &mut sweep, Shape::Plain)?;
    are_equal_in_copy(words, &table, sweep.graph(), factors)
}

/// Whether two words are shown equal so in a copy in which such gates alone are one.
fn are_equal_over_factors(
    words: &Words<'_>,
    graph: &Graph,
    factors: Factors,
) -> Result<bool, AllocError>
    ensures { IfOk result (λ is. IsTrue is → AreEqualWords graph.now words.now.firsts.now words.now.seconds.now) }
{
    let mut sweep = Sweep::new(words.alloc, Effort::of(CHEAP, words.limits.work))?;
    let table = copy_over_factors(words, graph, &mut sweep, factors)?;
    are_equal_in_copy(words, &table, sweep.graph(), factors)
}

/// Which gates may be bits of factors, where one of two words is a sum of products of such bits: none
/// where neither is. Nothing is promised of them. Fails where memory is refused.
fn kind_of_factors(words: &Words<'_>, graph: &Graph) -> Result<Option<Factors>, AllocError> {
    for factors in [Factors::BelowProducts, Factors::All] {
        for word in [words.firsts, words.seconds] {
            if is_product(words.alloc, graph, word, factors)? {
                return Ok(Some(factors));
            }
        }
    }
    Ok(None)
}

/// Whether two words are shown equal by way of netlists that are made anew for what they are of
/// nodes that both are made of, in a copy in which such nodes are one that are easily found equal.
/// Where neither is such a sum of its own nodes it is left at a look. Fails where memory is refused.
pub(crate) fn are_equal_over_cuts(words: &Words<'_>, graph: &Graph) -> Result<bool, AllocError>
    ensures { IfOk result (λ is. IsTrue is → AreEqualWords graph.now words.now.firsts.now words.now.seconds.now) }
{
    let Some(factors) = kind_of_factors(words, graph)? else {
        return Ok(false);
    };
    Ok(
        are_equal_when_swept(words, graph, factors)?
            || are_equal_over_factors(words, graph, factors)?,
    )
}
