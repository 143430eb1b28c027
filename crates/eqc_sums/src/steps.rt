//! Zero steps: terms that come to 0 under each assignment, whose literals are made in the graph.
ghost use Rattle.std.specs.Prelude.{◌≡◌, ℕ, ◌+◌, ◌*◌, ◌/◌, ◌<◌, Bool, IfOk};
ghost use Rattle.std.specs.List.{All};
ghost use Rattle.eqc_xag.specs.Graph.{literal_value, IsWithin, Extends};
ghost use Rattle.eqc_sweep.specs.Finding.{AreEqual};
ghost use Rattle.eqc_sums.specs.Forms.{bit, terms_sum, HasSum, IsZeroStep};

use crate::gates::{carry_of, sum_of};
use crate::term::Term;
use eqc_sweep::Sweep;
use eqc_xag::{Literal, negated};
use std::alloc::{AllocError, Global};

/// Half of 2^128.
const HALF: u128 = 1 << 127;

#[tactic(auto, using(crate::proofs::GateLemmas::extends_both, crate::proofs::StepLemmas::adder_is_zero))]
/// An adder: x + y + z - s - 2 c, where s is the sum and c the carry.
pub(crate) fn adder(
    sweep: &mut Sweep,
    x: Literal,
    y: Literal,
    z: Literal,
    factor: u128,
) -> Result<[Term; 5], AllocError>
    requires x { IsWithin sweep.old x }
    requires y { IsWithin sweep.old y }
    requires z { IsWithin sweep.old z }
    ensures extends { Extends sweep.old sweep.new }
    ensures zero { IfOk result (λ ts. IsZeroStep sweep.new ts) }
{
    let sum = sum_of(sweep, x, y, z)?;
    let carry = carry_of(sweep, x, y, z)?;
    let less = 0u128.wrapping_sub(factor);
    Ok([
        Term { literal: x, factor },
        Term { literal: y, factor },
        Term { literal: z, factor },
        Term {
            literal: sum,
            factor: less,
        },
        Term {
            literal: carry,
            factor: less.wrapping_add(less),
        },
    ])
}

#[tactic(auto, using(crate::proofs::GateLemmas::extends_both, crate::proofs::StepLemmas::parity_is_zero))]
/// A parity, half of 2^128 times: x + y - (x xor y).
pub(crate) fn parity(sweep: &mut Sweep, x: Literal, y: Literal) -> Result<[Term; 3], AllocError>
    requires x { IsWithin sweep.old x }
    requires y { IsWithin sweep.old y }
    ensures extends { Extends sweep.old sweep.new }
    ensures zero { IfOk result (λ ts. IsZeroStep sweep.new ts) }
{
    let sum = sweep.xor(x, y)?;
    Ok([
        Term {
            literal: x,
            factor: HALF,
        },
        Term {
            literal: y,
            factor: HALF,
        },
        Term {
            literal: sum,
            factor: HALF,
        },
    ])
}

#[tactic(auto, using(crate::proofs::GateLemmas::extends_both, crate::proofs::StepLemmas::split_is_zero))]
/// A literal, split by another one: x y + (not x) y - y.
pub(crate) fn split(
    sweep: &mut Sweep,
    x: Literal,
    y: Literal,
    factor: u128,
) -> Result<[Term; 3], AllocError>
    requires x { IsWithin sweep.old x }
    requires y { IsWithin sweep.old y }
    ensures extends { Extends sweep.old sweep.new }
    ensures zero { IfOk result (λ ts. IsZeroStep sweep.new ts) }
{
    let with = sweep.and(x, y)?;
    let without = sweep.and(negated(x), y)?;
    Ok([
        Term {
            literal: with,
            factor,
        },
        Term {
            literal: without,
            factor,
        },
        Term {
            literal: y,
            factor: 0u128.wrapping_sub(factor),
        },
    ])
}

#[tactic(auto, using(crate::proofs::GateLemmas::extends_both, crate::proofs::StepLemmas::polarity_is_zero))]
/// The carry of a complement: y + z - carry(x, y, z) - carry(not x, y, z).
pub(crate) fn polarity(
    sweep: &mut Sweep,
    x: Literal,
    y: Literal,
    z: Literal,
    factor: u128,
) -> Result<[Term; 4], AllocError>
    requires x { IsWithin sweep.old x }
    requires y { IsWithin sweep.old y }
    requires z { IsWithin sweep.old z }
    ensures extends { Extends sweep.old sweep.new }
    ensures zero { IfOk result (λ ts. IsZeroStep sweep.new ts) }
{
    let carry = carry_of(sweep, x, y, z)?;
    let other = carry_of(sweep, negated(x), y, z)?;
    let less = 0u128.wrapping_sub(factor);
    Ok([
        Term { literal: y, factor },
        Term { literal: z, factor },
        Term {
            literal: carry,
            factor: less,
        },
        Term {
            literal: other,
            factor: less,
        },
    ])
}

#[tactic(auto, using(crate::proofs::StepLemmas::alias_is_zero))]
/// One of two literals that are equal, in place of the other: y - x.
pub(crate) fn alias(sweep: &Sweep, x: Literal, y: Literal, factor: u128) -> [Term; 2]
    requires x { IsWithin sweep.now x }
    requires y { IsWithin sweep.now y }
    requires equal { AreEqual sweep.now x y }
    ensures { IsZeroStep sweep.now result }
{
    let _ = sweep.graph();
    [
        Term {
            literal: x,
            factor: 0u128.wrapping_sub(factor),
        },
        Term { literal: y, factor },
    ]
}

/// Puts terms times a literal, so many times, behind others.
pub(crate) fn times(
    sweep: &mut Sweep,
    by: Literal,
    factor: u128,
    terms: &[Term],
    out: &mut Vec<Term>,
) -> Result<(), AllocError>
    requires within { All (λ t. IsWithin sweep.old t.literal) terms.now }
    requires by { IsWithin sweep.old by }
    ensures extends { Extends sweep.old sweep.new }
    ensures sum { (h : (ℕ → Bool) → ℕ) → HasSum sweep.old out.old.items h → IfOk result (λ _. HasSum sweep.new out.new.items (λ a. h a + (factor * bit (literal_value sweep.old a by)) * terms_sum (literal_value sweep.old a) terms.now)) }
{
    for term in terms {
        let literal = sweep.and(by, term.literal)?;
        out.push(Term {
            literal,
            factor: factor.wrapping_mul(term.factor),
        })?;
    }
    Ok(())
}

#[tactic(auto, using(crate::proofs::GateLemmas::extends_both))]
/// An adder of three literals, times another one.
pub(crate) fn product(
    alloc: Global,
    sweep: &mut Sweep,
    by: Literal,
    three: (Literal, Literal, Literal),
    factor: u128,
) -> Result<Vec<Term>, AllocError>
    requires by { IsWithin sweep.old by }
    requires x { IsWithin sweep.old three.0 }
    requires y { IsWithin sweep.old three.1 }
    requires z { IsWithin sweep.old three.2 }
    ensures extends { Extends sweep.old sweep.new }
    ensures zero { IfOk result (λ ts. IsZeroStep sweep.new ts.items) }
{
    let terms = adder(sweep, three.0, three.1, three.2, factor)?;
    let mut out = Vec::new(alloc);
    times(sweep, by, 1, &terms, &mut out)?;
    Ok(out)
}

#[tactic(auto, using(crate::proofs::GateLemmas::extends_both))]
/// A literal that is split by another one, times a third one.
pub(crate) fn split_product(
    alloc: Global,
    sweep: &mut Sweep,
    by: Literal,
    x: Literal,
    y: Literal,
    factor: u128,
) -> Result<Vec<Term>, AllocError>
    requires by { IsWithin sweep.old by }
    requires x { IsWithin sweep.old x }
    requires y { IsWithin sweep.old y }
    ensures extends { Extends sweep.old sweep.new }
    ensures zero { IfOk result (λ ts. IsZeroStep sweep.new ts.items) }
{
    let terms = split(sweep, x, y, factor)?;
    let mut out = Vec::new(alloc);
    times(sweep, by, 1, &terms, &mut out)?;
    Ok(out)
}
