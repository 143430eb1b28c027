//! Whether the assumption of a pair allows no assignment, by a search.
ghost use Rattle.std.specs.Prelude.{◌≡◌, length, IfOk, IfSome};
ghost use Rattle.eqc_witness.specs.Witnesses.{IsFoundOf};
ghost use Rattle.eqc_compare.specs.Verdict.{is_allowed};
ghost use Rattle.eqc_compare.specs.Comparing.{netlist_of, assumption_of};
ghost use Rattle.eqc_miter.specs.Asking.{SaysAllowed, TellsVacuous};

use crate::difference::seen_true;
use eqc_pair::Pair;
use eqc_sweep::Sweep;
use eqc_witness::{Hints, Target, Witness, least_witness};
use eqc_xag::Literal;
use std::alloc::{AllocError, Global};

/// Whether no assignment is allowed, by what is found of those that are: none where nothing is.
fn tells_vacuous(pair: &Pair<'_>, found: Witness) -> Option<bool>
    requires { IsFoundOf (length pair.now.first.inputs) (is_allowed (netlist_of pair.now.first) (assumption_of pair.now)) found }
    ensures { IfSome result (TellsVacuous pair.now) }
{
    let _pair = pair;
    match found {
        Witness::Least(_) => Some(false),
        Witness::Never => Some(true),
        Witness::Unknown(seen) => {
            let Some(_) = seen else {
                return None;
            };
            Some(false)
        }
    }
}

/// Whether no assignment is allowed, by a search with so many conflicts: none where it gave up.
/// `literal` is the graph's, and true where the assumption of the pair allows the inputs' values.
/// Fails where memory is refused.
pub fn is_never_allowed(
    alloc: Global,
    pair: &Pair<'_>,
    sweep: &mut Sweep,
    literal: Literal,
    conflicts: u64,
) -> Result<Option<bool>, AllocError>
    requires { SaysAllowed pair.now sweep.old literal }
    ensures unchanged { sweep.new ≡ sweep.old }
    ensures found { IfOk result (λ found. IfSome found (TellsVacuous pair.now)) }
{
    let seen = seen_true(alloc, sweep, literal);
    let mut left = conflicts;
    let mut work = u64::MAX;
    let variables = pair.variables();
    let found = least_witness(
        alloc,
        sweep.graph(),
        &Target { literal, variables },
        &Hints {
            seen: &seen,
            earlier: &[],
        },
        &mut left,
        &mut work,
    )?;
    Ok(tells_vacuous(pair, found))
}
