//! The first rule that is broken by the models that a main model reaches, told before any instance
//! is numbered.
ghost use Rattle.std.specs.Prelude.{◌≡◌, ℕ, ◌<◌, ◌≤◌, length, Some, IfOk, MatchOption};
ghost use Rattle.eqc_netlist.specs.Dependency.{among};
ghost use Rattle.eqc_hierarchy.specs.Hierarchy.{reached};
ghost use Rattle.eqc_hierarchy.specs.Codes.{flat_code, has_no_such_model, is_recursive, has_unknown_formal, has_formal_twice, has_missing_formal};
ghost use Rattle.eqc_hierarchy.specs.ModelFaults.{HasNoModelFault};

use crate::calls::Calls;
use crate::calls::reach::reached_models;
use crate::condition::instance_conditions::{
    LeavesInputOut, NamesFormalTwice, NamesNoFormal, NamesNoModel,
};
use crate::condition::some_instance;
use crate::search::Search;
use eqc_blif::Library;
use eqc_netlist::Rule;
use std::alloc::{AllocError, Global};

/// Whether an instance in one of these models is one of a model that isn't in the library.
fn has_no_such_model(alloc: Global, library: &Library, models: &[usize]) -> Result<bool, AllocError>
    ensures { IfOk result (λ some. (top : ℕ) → ((m : ℕ) → among models.now m ≡ among (reached library.now top) m) → some ≡ has_no_such_model library.now top) }
{
    let condition = NamesNoModel::new(library);
    some_instance(alloc, library, models, &condition)
}

/// Whether model `top`, which is at most the number of models, reaches a model that reaches itself.
fn is_recursive(alloc: Global, calls: &Calls<'_>, top: usize) -> Result<bool, AllocError>
    requires { top ≤ length calls.now }
    ensures { IfOk result (λ recursive. recursive ≡ is_recursive calls.now top) }
{
    let mut search = Search::new(alloc, calls.nodes())?;
    let ends = search.visit(alloc, calls, top)?;
    Ok(!ends)
}

/// Whether an instance in one of these models has a formal that is neither input nor output of its
/// model.
fn has_unknown_formal(
    alloc: Global,
    library: &Library,
    models: &[usize],
) -> Result<bool, AllocError>
    ensures { IfOk result (λ some. (top : ℕ) → ((m : ℕ) → among models.now m ≡ among (reached library.now top) m) → some ≡ has_unknown_formal library.now top) }
{
    let condition = NamesNoFormal::of(alloc, library)?;
    some_instance(alloc, library, models, &condition)
}

/// Whether an instance in one of these models has a formal twice.
fn has_formal_twice(alloc: Global, library: &Library, models: &[usize]) -> Result<bool, AllocError>
    ensures { IfOk result (λ some. (top : ℕ) → ((m : ℕ) → among models.now m ≡ among (reached library.now top) m) → some ≡ has_formal_twice library.now top) }
{
    some_instance(
        alloc,
        library,
        models,
        &NamesFormalTwice { key: library.key() },
    )
}

/// Whether an instance in one of these models has no pair for an input of its model.
fn has_missing_formal(
    alloc: Global,
    library: &Library,
    models: &[usize],
) -> Result<bool, AllocError>
    ensures { IfOk result (λ some. (top : ℕ) → ((m : ℕ) → among models.now m ≡ among (reached library.now top) m) → some ≡ has_missing_formal library.now top) }
{
    let condition = LeavesInputOut::new(library);
    some_instance(alloc, library, models, &condition)
}

/// The first code of these models, which are those that model `top` reaches, or none where none
/// applies. Fails where memory is refused.
fn fault_of(
    alloc: Global,
    calls: &Calls<'_>,
    top: usize,
    models: &[usize],
) -> Result<Option<u8>, AllocError>
    requires there { top < length calls.now }
    requires each { (m : ℕ) → among models.now m ≡ among (reached calls.now top) m }
    ensures { IfOk result (λ found. MatchOption found (HasNoModelFault calls.now top) (λ code. (limit : ℕ) → flat_code calls.now top limit ≡ Some code)) }
{
    let library = calls.library();
    if has_no_such_model(alloc, library, models)? {
        return Ok(Some(Rule::NoSuchModel.code()));
    }
    if is_recursive(alloc, calls, top)? {
        return Ok(Some(Rule::Recursion.code()));
    }
    if has_unknown_formal(alloc, library, models)? {
        return Ok(Some(Rule::UnknownFormal.code()));
    }
    if has_formal_twice(alloc, library, models)? {
        return Ok(Some(Rule::FormalTwice.code()));
    }
    if has_missing_formal(alloc, library, models)? {
        return Ok(Some(Rule::MissingInput.code()));
    }
    Ok(None)
}

/// The first code of the models that model `top` of a library reaches, which is below the number of
/// models, or none where none applies: 21 for an instance of a model that isn't there, 22 for a
/// model that reaches itself, 23 for a formal that its model doesn't have, 24 for a formal twice in
/// an instance, 25 for an input of an instance without a pair. Fails where memory is refused.
pub fn first_model_fault(
    alloc: Global,
    calls: &Calls<'_>,
    top: usize,
) -> Result<Option<u8>, AllocError>
    requires { top < length calls.now }
    ensures { IfOk result (λ found. MatchOption found (HasNoModelFault calls.now top) (λ code. (limit : ℕ) → flat_code calls.now top limit ≡ Some code)) }
{
    let models = reached_models(alloc, calls, top)?;
    fault_of(alloc, calls, top, &models)
}
