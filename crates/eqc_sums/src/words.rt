//! Words: the terms of the form that is zero where two of them stand for the same number.
ghost use Rattle.std.specs.Prelude.{◌≡◌, ℕ, ◌+◌, ◌-◌, ◌*◌, ◌/◌, ◌%◌, ◌^◌, ◌<◌, ◌≤◌, Bool, List, length, IfOk, IsTrue};
ghost use Rattle.std.specs.List.{All};
ghost use Rattle.eqc_xag.specs.declared.node.Node.{Node};
ghost use Rattle.eqc_xag.specs.Graph.{IsWithin};
ghost use Rattle.eqc_sums.specs.Forms.{terms_sum};
ghost use Rattle.eqc_sums.specs.Adding.{number};

use crate::term::Term;
use eqc_xag::{Graph, Literal, node_of};
use std::alloc::{AllocError, Global};

/// How many literals a word has at most: what looks for words ends them there.
pub const MOST_LITERALS: usize = 128;

/// Whether literals are of the nodes of a graph.
pub(crate) fn are_within(graph: &Graph, literals: &[Literal]) -> bool
    ensures { IsTrue result → All (IsWithin graph.now) literals.now }
{
    for literal in literals {
        if node_of(*literal) >= graph.len() {
            return false;
        }
    }
    true
}

/// The literals of one word, each with the factor of its place, and those of another with the
/// opposite of that.
pub(crate) fn difference(
    alloc: Global,
    ps: &[Literal],
    qs: &[Literal],
) -> Result<Vec<Term>, AllocError>
    requires some { 0 < length ps.now }
    requires few { length ps.now ≤ 128 }
    requires same { length qs.now ≡ length ps.now }
    ensures within { IfOk result (λ ts. (nodes : List Node) → All (IsWithin nodes) ps.now → All (IsWithin nodes) qs.now → All (λ t. IsWithin nodes t.literal) ts.items) }
    ensures sum { IfOk result (λ ts. (v : ℕ → Bool) → (terms_sum v ts.items + 2 ^ (128 - length ps.now) * number v qs.now) % 2 ^ 128 ≡ (2 ^ (128 - length ps.now) * number v ps.now) % 2 ^ 128) }
{
    let mut terms = Vec::new(alloc);
    let mut factor = 1u128 << (MOST_LITERALS - ps.len());
    for k in 0..ps.len() {
        terms.push(Term {
            literal: ps[k],
            factor,
        })?;
        let less = 0u128.wrapping_sub(factor);
        terms.push(Term {
            literal: qs[k],
            factor: less,
        })?;
        factor = factor.wrapping_add(factor);
    }
    Ok(terms)
}
