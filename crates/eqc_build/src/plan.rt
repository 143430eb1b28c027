//! Plans of a comparison of all outputs, or of what some steps need: the steps of the pair, and
//! when each is used for the last time.
ghost use Rattle.std.specs.Prelude.{◌≡◌, ◌<◌, length, IfOk};
ghost use Rattle.eqc_build.specs.Schedule.{AreWithin};
ghost use Rattle.eqc_build.specs.Turns.{IsTurn, AreTurns, IsDemand};

use crate::cone::moments_below;
use crate::demand::Demand;
use crate::moments::Moments;
use crate::schedule::moments_of;
use crate::steps::Steps;
use std::alloc::{AllocError, Global};

/// What the diagrams of a pair's steps are built by.
#[derive(Drop)]
pub struct Plan<'a> {
    pub steps: Steps<'a>,
    /// The last moment at which each step is used.
    pub(crate) last: Moments,
    /// What outputs need each step for.
    pub(crate) demand: Demand,
}

/// The plan of a comparison of all outputs in their order that are not marked. Fails where memory
/// is refused.
pub fn plan_of<'a>(alloc: Global, steps: Steps<'a>, marks: &[bool]) -> Result<Plan<'a>, AllocError>
    ensures turns { IfOk result (λ plan. AreTurns plan marks.now) }
    ensures demand { IfOk result (λ plan. IsDemand plan marks.now) }
    ensures steps { IfOk result (λ plan. plan.steps ≡ steps.entry) }
{
    let _count = steps.len();
    let pair = steps.pair();
    pair.recall_laws();
    let outputs = pair.first().outputs().len() as u32;
    let last = moments_of(alloc, &steps, outputs, marks)?;
    let demand = Demand::of_outputs(alloc, &steps, outputs, marks, &last)?;
    let mut steps = steps;
    steps.keep_wide(alloc, &last);
    Ok(Plan {
        steps,
        last,
        demand,
    })
}

/// The plan of the building of some steps in the only turn. Fails where memory is refused.
pub fn plan_below<'a>(
    alloc: Global,
    steps: Steps<'a>,
    goals: &[u32],
) -> Result<Plan<'a>, AllocError>
    requires within { AreWithin steps goals.now }
    ensures turn { IfOk result (λ plan. IsTurn plan goals.now 1) }
    ensures steps { IfOk result (λ plan. plan.steps ≡ steps.entry) }
{
    let last = moments_below(alloc, &steps, goals)?;
    Ok(Plan {
        steps,
        last,
        demand: Demand::unknown(alloc),
    })
}
