//! Literals by which steps are found equal or opposite wherever the assumption of a pair holds.
ghost use Rattle.std.specs.Prelude.{IfOk};
ghost use Rattle.eqc_xag.specs.Graph.{IsWithin, Extends};
ghost use Rattle.eqc_gates.specs.Entering.{AreLiterals};
ghost use Rattle.eqc_place.specs.Allowed.{IsUnder};
ghost use Rattle.eqc_place.specs.Places.{AreProved};

use crate::partner::{literal_at, second_steps};
use crate::told::values_under;
use eqc_build::Steps;
use eqc_sweep::Sweep;
use eqc_xag::{Literal, negated_if};
use std::alloc::{AllocError, Global};

/// A literal that has the value of another one wherever an assumption holds: its conjunction with
/// that, or where `sign` says so the complement of that of its complement. Fails where memory is
/// refused.
fn under(
    sweep: &mut Sweep,
    assumed: Literal,
    literal: Literal,
    sign: bool,
) -> Result<Literal, AllocError>
    requires assumed { IsWithin sweep.old assumed }
    requires literal { IsWithin sweep.old literal }
    ensures extends { Extends sweep.old sweep.new }
    ensures value { IfOk result (IsUnder sweep.old sweep.new assumed literal) }
{
    let both = sweep.and(assumed, negated_if(literal, sign))?;
    Ok(negated_if(both, sign))
}

/// For each step of the two netlists that has a literal one that has its value wherever the
/// assumption holds. There is none where there is no assumption, or where it hasn't entered.
///
/// Two of them are the same literal, or opposite ones, where they are found to be so wherever the
/// assumption holds. What is joined with it is 0 where the first netlist's inputs have these
/// values. If they are allowed, steps that are opposite where the assumption holds have one
/// conjunction then, as equal ones have, and no second one is needed. Fails where memory is
/// refused.
pub(crate) fn literals_where_allowed(
    alloc: Global,
    steps: &Steps<'_>,
    literals: &[Option<Literal>],
    inputs: &[bool],
    sweep: &mut Sweep,
) -> Result<Vec<Option<Literal>>, AllocError>
    requires { AreLiterals steps.now.pair sweep.old literals.now }
    ensures { IfOk result (λ table. AreProved steps.now.pair table.items) }
{
    let mut table = Vec::new(alloc);
    let Some(root) = steps.assumed_root() else {
        return Ok(table);
    };
    let Some(assumed) = literal_at(literals, root) else {
        return Ok(table);
    };
    let values = values_under(alloc, steps, inputs)?;
    let (_, end) = second_steps(steps.pair());
    // For the proof alone: it states the laws of steps.
    let _count = steps.len();
    for step in 0..end {
        let Some(literal) = literal_at(literals, step) else {
            table.push(None)?;
            continue;
        };
        let sign = values.get(step as usize).copied().unwrap_or(false);
        let found = under(sweep, assumed, literal, sign)?;
        table.push(Some(found))?;
    }
    Ok(table)
}
