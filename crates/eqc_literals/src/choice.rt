//! Steps that are chosen in place of others: steps of one literal have one value, so that one of
//! them needs to be made.
ghost use Rattle.std.specs.Prelude.{◌≡◌, min, slice_set, IfOk, Some};
ghost use Rattle.std.specs.Option.{unwrap_or};
ghost use Rattle.eqc_build.specs.Building.{reference_of};
ghost use Rattle.eqc_build.specs.Steps.{IsChoice, chosen_for};
ghost use Rattle.eqc_literals.specs.Literals.{TellEqual};

use crate::literal::literal_of;
use eqc_build::Steps;
use eqc_xag::Literal;
use std::alloc::{AllocError, Global};

/// The step that is chosen in place of one.
fn chosen_for(chosen: &[u32], step: u32) -> u32
    ensures { result ≡ chosen_for chosen.now step }
{
    chosen.get(step as usize).copied().unwrap_or(step)
}

/// The lowest step that came with a literal, of those before and this one, which is noted.
fn first_with(firsts: &mut Vec<Option<u32>>, literal: Literal, step: u32) -> u32
    ensures first { result ≡ min (unwrap_or (reference_of firsts.old.items literal) step) step }
    ensures noted { firsts.new.items ≡ slice_set firsts.old.items literal (Some result) }
{
    let literal = literal as usize;
    let before = firsts.get(literal).copied().flatten();
    let first = before.unwrap_or(step).min(step);
    if literal >= firsts.len() {
        return first;
    }
    firsts[literal] = Some(first);
    first
}

/// A number above all literals of steps.
fn above_all(literals: &[Option<Literal>]) -> usize {
    let mut above = 0;
    for literal in literals {
        if let Some(literal) = literal {
            above = above.max(*literal as usize + 1);
        }
    }
    above
}

/// Chooses in place of each step the first one of its literal, and the one that is chosen already
/// where it has none. `chosen` has for each step of the pair the one that is chosen in place of it
/// so far, of the same value; `literals` has those of steps of which any two of one literal have
/// one value. Fails where memory is refused.
pub fn first_of_literal(
    alloc: Global,
    steps: &Steps<'_>,
    chosen: &[u32],
    literals: &[Option<Literal>],
) -> Result<Vec<u32>, AllocError>
    requires choice { IsChoice steps.now.pair chosen.now }
    requires tell { TellEqual steps.now.pair literals.now }
    ensures { IfOk result (λ more. IsChoice steps.now.pair more.items) }
{
    let mut firsts = vec![in alloc; None; above_all(literals)]?;
    let mut more = Vec::with_capacity(alloc, steps.len() as usize)?;
    for k in 0..steps.len() {
        let step = chosen_for(chosen, k);
        let Some(literal) = literal_of(literals, step) else {
            more.push(step)?;
            continue;
        };
        more.push(first_with(&mut firsts, literal, step))?;
    }
    Ok(more)
}
