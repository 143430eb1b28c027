//! Conditions on an instance, and the first instance in a list of models that meets one.
ghost use Rattle.std.specs.Prelude.{◌≡◌, ◌<◌, Bool, true, length, slice_index_or, is_some, IfOk, IfSome};
ghost use Rattle.std.specs.List.{list_any};
ghost use Rattle.eqc_blif.specs.Netlist.{InstanceOf};
ghost use Rattle.eqc_hierarchy.specs.Reaching.{some_instance_in, no_instance, IsPlaceIn};

pub(crate) mod instance_conditions;

use crate::calls::instances;
use eqc_blif::{Instance, Library};
use std::alloc::{AllocError, Global};

/// What is asked of an instance.
pub(crate) trait Condition {
    ghost test: { Self → InstanceOf → Bool };

    /// Whether it holds of an instance. Fails where memory is refused.
    fn holds(&self, alloc: Global, instance: &Instance) -> Result<bool, AllocError>
        ensures { IfOk result (λ holds. holds ≡ test self.now instance.now) };
}

/// The position of the first of these instances of which a condition holds, if it holds of one.
fn first_of<C: Condition>(
    alloc: Global,
    instances: &[Instance],
    condition: &C,
) -> Result<Option<usize>, AllocError>
    ensures some { IfOk result (λ found. is_some found ≡ list_any (C.test condition.now) instances.now) }
    ensures first { IfOk result (λ found. IfSome found (λ p. (p < length instances.now) × (C.test condition.now (slice_index_or instances.now p no_instance) ≡ true))) }
{
    for p in 0..instances.len() {
        if condition.holds(alloc, &instances[p])? {
            return Ok(Some(p));
        }
    }
    Ok(None)
}

/// The first instance in these models of which a condition holds, by its model and its position
/// there, if it holds of one. Fails where memory is refused.
pub(crate) fn first_instance<C: Condition>(
    alloc: Global,
    library: &Library,
    models: &[usize],
    condition: &C,
) -> Result<Option<(usize, usize)>, AllocError>
    ensures some { IfOk result (λ found. is_some found ≡ some_instance_in library.now models.now (C.test condition.now)) }
    ensures first { IfOk result (λ found. IfSome found (λ place. IsPlaceIn library.now models.now (C.test condition.now) place)) }
{
    'models: for m in models {
        if let Some(position) = first_of(alloc, instances(library, *m), condition)? {
            return Ok(Some((*m, position)));
        }
    }
    Ok(None)
}

/// Whether a condition holds of an instance in one of these models. Fails where memory is refused.
pub(crate) fn some_instance<C: Condition>(
    alloc: Global,
    library: &Library,
    models: &[usize],
    condition: &C,
) -> Result<bool, AllocError>
    ensures { IfOk result (λ some. some ≡ some_instance_in library.now models.now (C.test condition.now)) }
{
    let found = first_instance(alloc, library, models, condition)?;
    Ok(found.is_some())
}
