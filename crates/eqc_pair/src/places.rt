//! Where each signal of a flat netlist stands in the order by dependency.
ghost use Rattle.std.specs.Prelude.{IfOk};
ghost use Rattle.eqc_pair.specs.PairOf.{ArePlaces};

use eqc_netlist::Flat;
use std::alloc::{AllocError, Global};

/// The step of each signal. Fails where memory is refused.
pub(crate) fn places_of(alloc: Global, flat: &Flat<'_>) -> Result<Vec<u32>, AllocError>
    ensures { IfOk result (λ places. ArePlaces flat.now places.items) }
{
    let steps = flat.steps();
    let mut places = vec![in alloc; 0u32; steps.len()]?;
    for k in 0..steps.len() {
        places[steps[k] as usize] = k as u32;
    }
    Ok(places)
}
