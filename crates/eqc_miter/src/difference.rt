//! The literals that are true where an output of a pair differs, and where its assumption allows
//! the inputs' values.
ghost use Rattle.std.specs.Prelude.{◌≡◌, ℕ, ◌<◌, None, length, IfOk, IfSome};
ghost use Rattle.eqc_xag.specs.Graph.{Extends, IsWithin};
ghost use Rattle.eqc_literals.specs.Literals.{IsInside};
ghost use Rattle.eqc_miter.specs.Asking.{LacksLiteral, SaysAllowed, SaysDifferent};

use eqc_build::Steps;
use eqc_literals::literal_of;
use eqc_sweep::{Comparison, Sweep};
use eqc_xag::Literal;
use std::alloc::{AllocError, Global};

#[tactic(auto, using(crate::proofs::AskingLaws::lacks_root))]
/// The literal that is true where the assumption allows the inputs' values: always, if there is
/// none. None where its step has no literal. `literals` are those of the steps, in the graph.
pub fn allowed_literal(
    steps: &Steps<'_>,
    sweep: &Sweep,
    literals: &[Option<Literal>],
) -> Option<Literal>
    requires { IsInside steps.now sweep.now literals.now }
    ensures allowed { IfSome result (SaysAllowed steps.now.pair sweep.now) }
    ensures none { result ≡ None → (output : ℕ) → LacksLiteral steps.now literals.now output }
{
    let Some(root) = steps.assumed_root() else {
        return Some(sweep.constant(true));
    };
    literal_of(literals, root)
}

#[tactic(auto, using(crate::proofs::AskingLaws::lacks_first, crate::proofs::AskingLaws::lacks_second))]
/// The literal that is true where an output differs and the assumption allows it, or none where its
/// steps have no literals. Fails where memory is refused.
pub(crate) fn difference_literal(
    steps: &Steps<'_>,
    sweep: &mut Sweep,
    literals: &[Option<Literal>],
    output: usize,
) -> Result<Option<u32>, AllocError>
    requires inside { IsInside steps.now sweep.old literals.now }
    requires output { output < length steps.now.pair.first.outputs }
    ensures inside { IsInside steps.now sweep.new literals.now }
    ensures extends { Extends sweep.old sweep.new }
    ensures literal { IfOk result (λ found. IfSome found (SaysDifferent steps.now.pair sweep.new output)) }
    ensures none { IfOk result (λ found. found ≡ None → LacksLiteral steps.now literals.now output) }
{
    let Some(allowed) = allowed_literal(steps, sweep, literals) else {
        return Ok(None);
    };
    let roots = steps.roots(output);
    let Some(x) = literal_of(literals, roots[0]) else {
        return Ok(None);
    };
    let Some(y) = literal_of(literals, roots[1]) else {
        return Ok(None);
    };
    let differ = sweep.xor(x, y)?;
    let literal = sweep.and(allowed, differ)?;
    Ok(Some(literal))
}

/// Variables and their values under which simulation saw the literal true: none where it didn't.
/// Nothing is promised of it.
pub(crate) fn seen_true(alloc: Global, sweep: &mut Sweep, literal: Literal) -> Vec<(u32, bool)>
    requires { IsWithin sweep.old literal }
    ensures { sweep.new ≡ sweep.old }
{
    let never = sweep.constant(false);
    match sweep.equal(literal, never, &mut 0) {
        Ok(Comparison::Differs(values)) => values,
        _ => Vec::new(alloc),
    }
}
