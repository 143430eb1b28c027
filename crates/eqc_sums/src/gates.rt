//! The sum and the carry of three literals.
ghost use Rattle.std.specs.Prelude.{◌≡◌, ◌/◌, ◌<◌, IfOk};
ghost use Rattle.eqc_xag.specs.Graph.{differ, literal_value, IsWithin, Extends};
ghost use Rattle.eqc_sweep.specs.Sweeping.{HasValue};
ghost use Rattle.eqc_sums.specs.Adding.{majority};

use eqc_sweep::Sweep;
use eqc_xag::{Literal, negated};
use std::alloc::AllocError;

#[tactic(auto, using(crate::proofs::GateLemmas::sum_value, crate::proofs::GateLemmas::extends_both))]
/// Whether one or three of three literals are true.
pub(crate) fn sum_of(
    sweep: &mut Sweep,
    x: Literal,
    y: Literal,
    z: Literal,
) -> Result<Literal, AllocError>
    requires x { IsWithin sweep.old x }
    requires y { IsWithin sweep.old y }
    requires z { IsWithin sweep.old z }
    ensures extends { Extends sweep.old sweep.new }
    ensures value { IfOk result (λ l. HasValue sweep.new l (λ a. differ (differ (literal_value sweep.old a x) (literal_value sweep.old a y)) (literal_value sweep.old a z))) }
{
    let both = sweep.xor(x, y)?;
    let all = sweep.xor(both, z)?;
    Ok(all)
}

#[tactic(auto, using(crate::proofs::GateLemmas::extends_both))]
/// Whether two or three of three literals are true.
pub(crate) fn carry_of(
    sweep: &mut Sweep,
    x: Literal,
    y: Literal,
    z: Literal,
) -> Result<Literal, AllocError>
    requires x { IsWithin sweep.old x }
    requires y { IsWithin sweep.old y }
    requires z { IsWithin sweep.old z }
    ensures extends { Extends sweep.old sweep.new }
    ensures value { IfOk result (λ l. HasValue sweep.new l (λ a. majority (literal_value sweep.old a x) (literal_value sweep.old a y) (literal_value sweep.old a z))) }
{
    let one = sweep.xor(x, y)?;
    let both = sweep.and(x, y)?;
    let carried = sweep.and(one, z)?;
    let neither = sweep.and(negated(both), negated(carried))?;
    Ok(negated(neither))
}
