//! Literals as polynomials of literals below them: terms whose literals are conjunctions.
ghost use Rattle.std.specs.Prelude.{◌≡◌, ℕ, ◌+◌, ◌*◌, ◌/◌, ◌<◌, Bool, List, length, IfOk, IfSome};
ghost use Rattle.std.specs.List.{All};
ghost use Rattle.eqc_xag.specs.declared.node.Node.{Node};
ghost use Rattle.eqc_xag.specs.Graph.{differ, literal_value, IsWithin, IsGraph, Extends};
ghost use Rattle.eqc_sums.specs.Forms.{bit, terms_sum, HasSum, IsZeroStep};
ghost use Rattle.eqc_sums.specs.Adding.{gate_number, IsGateOf};

use crate::steps::times;
use crate::term::Term;
use eqc_sweep::Sweep;
use eqc_xag::{Graph, Literal, Node, is_negated};
use std::alloc::{AllocError, Global};

/// How many conjunctions may be made of the terms of two polynomials.
const MOST: usize = 4096;

/// Minus two and minus one, modulo 2^128.
const MINUS_TWO: u128 = u128::MAX - 1;

const MINUS_ONE: u128 = u128::MAX;

/// Puts a term behind others, or adds it to the one of its literal.
fn put(out: &mut Vec<Term>, term: Term) -> Result<(), AllocError>
    ensures { (nodes : List Node) (h : (ℕ → Bool) → ℕ) → HasSum nodes out.old.items h → IsWithin nodes term.literal → IfOk result (λ _. HasSum nodes out.new.items (λ a. h a + term.factor * bit (literal_value nodes a term.literal))) }
{
    for k in 0..out.len() {
        let old = out[k];
        if old.literal == term.literal {
            let factor = old.factor.wrapping_add(term.factor);
            out[k] = Term {
                literal: old.literal,
                factor,
            };
            return Ok(());
        }
    }
    out.push(Term {
        literal: term.literal,
        factor: term.factor,
    })?;
    Ok(())
}

/// Puts terms, so many times, behind others, or adds them to those of their literals.
fn put_all(factor: u128, terms: &[Term], out: &mut Vec<Term>) -> Result<(), AllocError>
    ensures { (nodes : List Node) (h : (ℕ → Bool) → ℕ) → HasSum nodes out.old.items h → All (λ t. IsWithin nodes t.literal) terms.now → IfOk result (λ _. HasSum nodes out.new.items (λ a. h a + factor * terms_sum (literal_value nodes a) terms.now)) }
{
    for term in terms {
        put(
            out,
            Term {
                literal: term.literal,
                factor: factor.wrapping_mul(term.factor),
            },
        )?;
    }
    Ok(())
}

/// Puts the product of two polynomials, so many times, behind others.
fn multiply(
    sweep: &mut Sweep,
    factor: u128,
    first: &[Term],
    second: &[Term],
    out: &mut Vec<Term>,
) -> Result<(), AllocError>
    requires first { All (λ t. IsWithin sweep.old t.literal) first.now }
    requires second { All (λ t. IsWithin sweep.old t.literal) second.now }
    ensures extends { Extends sweep.old sweep.new }
    ensures sum { (h : (ℕ → Bool) → ℕ) → HasSum sweep.old out.old.items h → IfOk result (λ _. HasSum sweep.new out.new.items (λ a. h a + factor * (terms_sum (literal_value sweep.old a) first.now * terms_sum (literal_value sweep.old a) second.now))) }
{
    for term in first {
        times(
            sweep,
            term.literal,
            factor.wrapping_mul(term.factor),
            second,
            out,
        )?;
    }
    Ok(())
}

/// The polynomial of a gate of two polynomials.
fn combine(
    alloc: Global,
    sweep: &mut Sweep,
    is_and: bool,
    first: &[Term],
    second: &[Term],
) -> Result<Vec<Term>, AllocError>
    requires first { All (λ t. IsWithin sweep.old t.literal) first.now }
    requires second { All (λ t. IsWithin sweep.old t.literal) second.now }
    ensures extends { Extends sweep.old sweep.new }
    ensures sum { IfOk result (λ ts. HasSum sweep.new ts.items (λ a. gate_number is_and (terms_sum (literal_value sweep.old a) first.now) (terms_sum (literal_value sweep.old a) second.now))) }
{
    let mut out = Vec::new(alloc);
    if is_and {
        multiply(sweep, 1, first, second, &mut out)?;
        return Ok(out);
    }
    put_all(1, first, &mut out)?;
    put_all(1, second, &mut out)?;
    multiply(sweep, MINUS_TWO, first, second, &mut out)?;
    Ok(out)
}

/// The polynomial of a complement, or the polynomial as it is.
fn negated_terms(alloc: Global, terms: Vec<Term>, is_negated: bool) -> Result<Vec<Term>, AllocError>
    ensures { (nodes : List Node) (h : (ℕ → Bool) → Bool) → IsGraph nodes → HasSum nodes terms.items (λ a. bit (h a)) → IfOk result (λ ts. HasSum nodes ts.items (λ a. bit (differ is_negated (h a)))) }
{
    if !is_negated {
        return Ok(terms);
    }
    let mut out = Vec::new(alloc);
    out.push(Term {
        literal: 1,
        factor: 1,
    })?;
    put_all(MINUS_ONE, terms.as_slice(), &mut out)?;
    Ok(out)
}

/// The same polynomial with one term for each literal.
fn merged(alloc: Global, terms: Vec<Term>) -> Result<Vec<Term>, AllocError>
    ensures { (nodes : List Node) (f : (ℕ → Bool) → ℕ) → HasSum nodes terms.items f → IfOk result (λ ts. HasSum nodes ts.items f) }
{
    let mut out = Vec::new(alloc);
    put_all(1, terms.as_slice(), &mut out)?;
    Ok(out)
}

/// The literal alone.
fn alone(alloc: Global, literal: Literal) -> Result<Vec<Term>, AllocError>
    ensures { IfOk result (λ ts. (nodes : List Node) → IsWithin nodes literal → HasSum nodes ts.items (λ a. bit (literal_value nodes a literal))) }
{
    let mut terms = Vec::new(alloc);
    terms.push(Term { literal, factor: 1 })?;
    Ok(terms)
}

/// A literal as a polynomial of its node.
fn of_node(alloc: Global, graph: &Graph, literal: Literal) -> Result<Vec<Term>, AllocError>
    requires { IsWithin graph.now literal }
    ensures { IfOk result (λ ts. HasSum graph.now ts.items (λ a. bit (literal_value graph.now a literal))) }
{
    let _ = graph.len();
    if literal % 2 == 0 {
        let terms = alone(alloc, literal)?;
        return Ok(terms);
    }
    let terms = alone(alloc, literal - 1)?;
    let negated = negated_terms(alloc, terms, true)?;
    Ok(negated)
}

#[tactic(auto, using(crate::proofs::PolynomialLemmas::gate_and, crate::proofs::PolynomialLemmas::gate_xor))]
/// Whether a gate is a conjunction, and its literals.
fn gate_of(graph: &Graph, node: u32) -> Option<(bool, Literal, Literal)>
    requires { node < length graph.now }
    ensures { IfSome result (λ g. IsGateOf graph.now node g.0 g.1 g.2) }
{
    match graph.node(node) {
        Node::And(x, y) => Some((true, x, y)),
        Node::Xor(x, y) => Some((false, x, y)),
        Node::Constant | Node::Input(_) => None,
    }
}

/// A literal as a polynomial of literals that are at most so many gates below it.
pub(crate) fn polynomial(
    alloc: Global,
    sweep: &mut Sweep,
    literal: Literal,
    depth: u32,
) -> Result<Vec<Term>, AllocError>
    requires { IsWithin sweep.old literal }
    ensures extends { Extends sweep.old sweep.new }
    ensures sum { IfOk result (λ ts. HasSum sweep.new ts.items (λ a. bit (literal_value sweep.old a literal))) }
{
    if depth == 0 {
        return alone(alloc, literal);
    }
    let Some((is_and, x, y)) = gate_of(sweep.graph(), literal / 2) else {
        return of_node(alloc, sweep.graph(), literal);
    };
    let first = polynomial(alloc, sweep, x, depth - 1)?;
    let second = polynomial(alloc, sweep, y, depth - 1)?;
    if first.len().saturating_mul(second.len()) > MOST {
        return alone(alloc, literal);
    }
    let terms = combine(alloc, sweep, is_and, first.as_slice(), second.as_slice())?;
    let terms = merged(alloc, terms)?;
    let _ = sweep.graph().len();
    let out = negated_terms(alloc, terms, is_negated(literal))?;
    Ok(out)
}

/// A literal's polynomial less the literal, so many times.
pub(crate) fn expansion(
    alloc: Global,
    sweep: &mut Sweep,
    literal: Literal,
    depth: u32,
    factor: u128,
) -> Result<Vec<Term>, AllocError>
    requires { IsWithin sweep.old literal }
    ensures extends { Extends sweep.old sweep.new }
    ensures zero { IfOk result (λ ts. IsZeroStep sweep.new ts.items) }
{
    let terms = polynomial(alloc, sweep, literal, depth)?;
    let mut out = Vec::new(alloc);
    out.push(Term {
        literal,
        factor: 0u128.wrapping_sub(factor),
    })?;
    put_all(factor, terms.as_slice(), &mut out)?;
    Ok(out)
}

/// A literal times another one's polynomial less the literal, so many times.
pub(crate) fn product_expansion(
    alloc: Global,
    sweep: &mut Sweep,
    by: Literal,
    literal: Literal,
    depth: u32,
    factor: u128,
) -> Result<Vec<Term>, AllocError>
    requires by { IsWithin sweep.old by }
    requires literal { IsWithin sweep.old literal }
    ensures extends { Extends sweep.old sweep.new }
    ensures zero { IfOk result (λ ts. IsZeroStep sweep.new ts.items) }
{
    let terms = expansion(alloc, sweep, literal, depth, factor)?;
    let mut out = Vec::new(alloc);
    times(sweep, by, 1, terms.as_slice(), &mut out)?;
    Ok(out)
}
