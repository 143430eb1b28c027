//! What is at fault in a refused hierarchy: it is flattened once more, and then searched for what
//! its rule is about.
ghost use Rattle.std.specs.Prelude.{◌≡◌, ◌<◌, length, IfOk, Some};
ghost use Rattle.std.specs.Option.{option_map};
ghost use Rattle.eqc_hierarchy.specs.Codes.{flat_code};
ghost use Rattle.eqc_flat.specs.Finding.{IsAtFault, IsExplained};
ghost use Rattle.eqc_netlist.specs.Rule.{rule_code};

use crate::drivers::driver_table::Driven;
use crate::finding::Finding;
use crate::finding::circle_finding::circle_below;
use crate::finding::driver_findings::driven_below;
use crate::flattening::flatten_within;
use crate::hierarchy::instances::LIMIT;
use eqc_blif::Library;
use eqc_hierarchy::{
    Rule, formal_twice, hierarchy_size, missing_input, missing_model, recursive_chain,
    unknown_formal,
};
use std::alloc::{AllocError, Global};

/// The rule by which the hierarchy below model `top` is refused, with this limit of inputs, or none
/// where it is accepted. Fails where memory is refused.
fn refusal(
    alloc: Global,
    library: &Library,
    top: usize,
    limit: u16,
) -> Result<Option<Rule>, AllocError>
    requires { top < length library.now }
    ensures { IfOk result (λ rule. option_map rule_code rule ≡ flat_code library.now top limit) }
{
    let Err(fault) = flatten_within(alloc, library, top, limit) else {
        return Ok(None);
    };
    if fault.is_memory() {
        return Err(AllocError);
    }
    Ok(Some(fault.rule()))
}

/// What is at fault in a hierarchy that is refused by a rule, with this limit of inputs. Fails
/// where memory is refused.
fn finding(
    alloc: Global,
    library: &Library,
    top: usize,
    limit: u16,
    rule: Rule,
) -> Result<Finding<'_>, AllocError>
    requires there { top < length library.now }
    requires refused { flat_code library.now top limit ≡ Some (rule_code rule) }
    ensures { IfOk result (λ found. IsAtFault library.now top limit found) }
{
    match rule {
        Rule::NoSuchModel => Ok(Finding::NoSuchModel(missing_model(alloc, library, top)?)),
        Rule::Recursion => Ok(Finding::Recursion(recursive_chain(alloc, library, top)?)),
        Rule::UnknownFormal => Ok(Finding::UnknownFormal(unknown_formal(alloc, library, top)?)),
        Rule::FormalTwice => Ok(Finding::FormalTwice(formal_twice(alloc, library, top)?)),
        Rule::MissingInput => Ok(Finding::MissingInput(missing_input(alloc, library, top)?)),
        Rule::DrivenTwice => {
            let name = driven_below(alloc, library, top, Driven::Twice)?;
            Ok(Finding::DrivenTwice(name))
        }
        Rule::Undriven => {
            let name = driven_below(alloc, library, top, Driven::Never)?;
            Ok(Finding::Undriven(name))
        }
        Rule::Circle => Ok(Finding::Circular(circle_below(alloc, library, top)?)),
        Rule::TooLarge => {
            let size = hierarchy_size(alloc, library, top)?;
            let limit = LIMIT;
            Ok(Finding::TooLarge { size, limit })
        }
        Rule::ManyInputs => {
            let inputs = library.inputs(top).len();
            let limit = limit as usize;
            Ok(Finding::ManyInputs { inputs, limit })
        }
        Rule::Memory => Err(AllocError),
    }
}

/// What is at fault in the hierarchy below model `top` of a library, which is below the number of
/// models, for a reader of a refusal: it flattens once more, with this limit of inputs, and then
/// goes through the hierarchy for what the code is about. None where flattening accepts the
/// hierarchy. Fails where memory is refused.
pub fn explain(
    alloc: Global,
    library: &Library,
    top: usize,
    limit: u16,
) -> Result<Option<Finding<'_>>, AllocError>
    requires { top < length library.now }
    ensures { IfOk result (λ found. IsExplained library.now top limit found) }
{
    match refusal(alloc, library, top, limit)? {
        Some(rule) => Ok(Some(finding(alloc, library, top, limit, rule)?)),
        None => Ok(None),
    }
}
