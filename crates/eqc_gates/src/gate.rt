//! Literals that are made of literals.
ghost use Rattle.std.specs.Prelude.{◌≡◌, ℕ, Bool, ◌||◌, IfOk, if◌then◌else◌};
ghost use Rattle.std.specs.List.{list_all};
ghost use Rattle.eqc_xag.specs.Graph.{literal_value, IsWithin, Extends};
ghost use Rattle.eqc_sweep.specs.Sweeping.{HasValue};
ghost use Rattle.eqc_gates.specs.Literals.{AreWithin};

use eqc_sweep::Sweep;
use eqc_xag::{Literal, negated};
use std::alloc::AllocError;

/// The literal that is true where one of two is. Fails where memory is refused.
fn or(sweep: &mut Sweep, x: Literal, y: Literal) -> Result<Literal, AllocError>
    requires x { IsWithin sweep.old x }
    requires y { IsWithin sweep.old y }
    ensures value { IfOk result (λ l. HasValue sweep.new l (λ a. literal_value sweep.old a x || literal_value sweep.old a y)) }
    ensures extends { Extends sweep.old sweep.new }
{
    let neither = sweep.and(negated(x), negated(y))?;
    Ok(negated(neither))
}

/// The literal that has the value of `high` where `x` is true, and that of `low` elsewhere. Fails
/// where memory is refused.
pub(crate) fn multiplexer(
    sweep: &mut Sweep,
    x: Literal,
    high: Literal,
    low: Literal,
) -> Result<Literal, AllocError>
    requires x { IsWithin sweep.old x }
    requires high { IsWithin sweep.old high }
    requires low { IsWithin sweep.old low }
    ensures value { IfOk result (λ l. HasValue sweep.new l (λ a. if literal_value sweep.old a x then literal_value sweep.old a high else literal_value sweep.old a low)) }
    ensures extends { Extends sweep.old sweep.new }
{
    if high == low {
        return Ok(high);
    }
    if high == negated(low) {
        return sweep.xor(x, low);
    }
    if high == sweep.constant(false) {
        return sweep.and(negated(x), low);
    }
    if high == sweep.constant(true) {
        return or(sweep, x, low);
    }
    if low == sweep.constant(false) {
        return sweep.and(x, high);
    }
    if low == sweep.constant(true) {
        return or(sweep, negated(x), high);
    }
    let first = sweep.and(x, high)?;
    let second = sweep.and(negated(x), low)?;
    or(sweep, first, second)
}

/// The literal that is true where all of these are, of which there may be many: gates of two in a
/// balanced tree. Fails where memory is refused.
pub(crate) fn all_of(sweep: &mut Sweep, literals: Vec<Literal>) -> Result<Literal, AllocError>
    requires { AreWithin sweep.old literals.items }
    ensures value { IfOk result (λ l. HasValue sweep.new l (λ a. list_all (literal_value sweep.old a) literals.items)) }
    ensures extends { Extends sweep.old sweep.new }
{
    // Those before `next` have their gates; what is made of two comes behind all others.
    let mut work = literals;
    let mut next = 0;
    'pairs: while next + 1 < work.len() {
        let both = sweep.and(work[next], work[next + 1])?;
        work.push(both)?;
        next += 2;
    }
    if next < work.len() {
        return Ok(work[next]);
    }
    Ok(sweep.constant(true))
}
