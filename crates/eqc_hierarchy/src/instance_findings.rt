//! What is at fault in a hierarchy that is refused for an instance: the first that meets the
//! condition, and its formal.
ghost use Rattle.std.specs.Prelude.{◌≡◌, ◌<◌, [], length, map, take, true, not, position, is_some, slice_index_or, IfOk, IfSome};
ghost use Rattle.eqc_netlist.specs.Names.{is_named, has_twice};
ghost use Rattle.eqc_hierarchy.specs.Codes.{IsRefusedWith};
ghost use Rattle.eqc_hierarchy.specs.Hierarchy.{reached};
ghost use Rattle.eqc_hierarchy.specs.Reaching.{some_instance_in};
ghost use Rattle.eqc_hierarchy.specs.InstanceFinding.{StandsAt, IsMissingModel, IsUnknownFormal, IsRepeatedFormal, IsMissingInput};

pub(crate) mod found_instance;

use crate::calls::reach::reached_models;
use crate::calls::{Calls, model_number};
use crate::condition::instance_conditions::{
    LeavesInputOut, NamesFormalTwice, NamesNoFormal, NamesNoModel, first_repeated, formals_of,
    inputs,
};
use crate::condition::{Condition, first_instance};
use crate::instance_findings::found_instance::{FoundFormal, FoundInstance};
use eqc_blif::{Library, Name};
use eqc_netlist::NameSet;
use std::alloc::{AllocError, Global};

/// The first instance in the models that model `top` reaches of which a condition holds, where it
/// holds of one. Fails where memory is refused.
fn first_at_fault<'a, C: Condition>(
    alloc: Global,
    library: &'a Library,
    top: usize,
    condition: &C,
) -> Result<FoundInstance<'a>, AllocError>
    requires there { top < length library.now }
    requires some { some_instance_in library.now (reached library.now top) (C.test condition.now) ≡ true }
    ensures stands { IfOk result (λ found. StandsAt library.now top found.0 found.1) }
    ensures holds { IfOk result (λ found. C.test condition.now found.1 ≡ true) }
{
    let calls = Calls::of(alloc, library)?;
    let models = reached_models(alloc, &calls, top)?;
    let found = first_instance(alloc, library, &models, condition)?;
    let (model, position) = found.unwrap();
    Ok(FoundInstance::new(library, model, position))
}

/// An instance of a model that isn't in the library, in a hierarchy that is refused for one. Fails
/// where memory is refused.
pub fn missing_model(
    alloc: Global,
    library: &Library,
    top: usize,
) -> Result<FoundInstance<'_>, AllocError>
    requires there { top < length library.now }
    requires refused { IsRefusedWith library.now top 21 }
    ensures { IfOk result (λ found. IsMissingModel library.now top found) }
{
    let condition = NamesNoModel::new(library);
    let found = first_at_fault(alloc, library, top, &condition)?;
    Ok(found)
}

/// A formal that its model doesn't have, in a hierarchy that is refused for one. Fails where memory
/// is refused.
pub fn unknown_formal(
    alloc: Global,
    library: &Library,
    top: usize,
) -> Result<FoundFormal<'_>, AllocError>
    requires there { top < length library.now }
    requires refused { IsRefusedWith library.now top 23 }
    ensures { IfOk result (λ found. IsUnknownFormal library.now top found) }
{
    let condition = NamesNoFormal::of(alloc, library)?;
    let found = first_at_fault(alloc, library, top, &condition)?;
    let instance = found.instance();
    let k = condition.first_unknown(instance).unwrap();
    let formal = instance.pairs[k].0.as_bytes();
    Ok(FoundFormal::new(found, formal))
}

/// A formal that stands twice in an instance, in a hierarchy that is refused for one. Fails where
/// memory is refused.
pub fn formal_twice(
    alloc: Global,
    library: &Library,
    top: usize,
) -> Result<FoundFormal<'_>, AllocError>
    requires there { top < length library.now }
    requires refused { IsRefusedWith library.now top 24 }
    ensures { IfOk result (λ found. IsRepeatedFormal library.now top found) }
{
    let found = first_at_fault(
        alloc,
        library,
        top,
        &NamesFormalTwice { key: library.key() },
    )?;
    let instance = found.instance();
    let repeated = first_repeated(alloc, library.key(), &instance.pairs)?;
    let k = repeated.unwrap();
    let formal = instance.pairs[k].0.as_bytes();
    Ok(FoundFormal::new(found, formal))
}

/// The position of the first of these words that is not among the names, if there is one.
fn first_left_out(names: &NameSet<'_>, words: &[Name]) -> Option<usize>
    ensures { result ≡ position (λ word. not (is_named names.now word)) words.now }
{
    words.iter().position(|word| !names.has(word.as_bytes()))
}

/// An input for which an instance has no pair, in a hierarchy that is refused for one. Fails where
/// memory is refused.
pub fn missing_input(
    alloc: Global,
    library: &Library,
    top: usize,
) -> Result<FoundFormal<'_>, AllocError>
    requires there { top < length library.now }
    requires refused { IsRefusedWith library.now top 25 }
    ensures { IfOk result (λ found. IsMissingInput library.now top found) }
{
    let condition = LeavesInputOut::new(library);
    let found = first_at_fault(alloc, library, top, &condition)?;
    let instance = found.instance();
    let names = formals_of(alloc, library.key(), instance)?;
    let inputs = inputs(library, model_number(library, &instance.model));
    let k = first_left_out(&names, inputs).unwrap();
    let formal = inputs[k].as_bytes();
    Ok(FoundFormal::new(found, formal))
}
