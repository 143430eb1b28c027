//! What is compared of a pair, and how its diagrams are built.
ghost use Rattle.std.specs.Prelude.{◌≡◌, IfOk};
ghost use Rattle.eqc_compare.specs.Alike.{IsKnown, IsSchedule};

use crate::alike::{Alike, settled_outputs};
use eqc_build::{Plan, Steps, plan_of};
use eqc_pair::Pair;
use std::alloc::{AllocError, Global};

/// Which outputs of a pair are compared, and how their diagrams are built.
#[derive(Drop)]
pub struct Schedule<'a> {
    /// How diagrams are built.
    pub plan: Plan<'a>,
    /// The outputs that are marked are not chosen, or known to be equal, and are not compared.
    pub settled: Vec<bool>,
    /// Whether every output that differs is asked for, or the first alone.
    pub every: bool,
}

impl<'a> Schedule<'a> {
    /// The schedule of a pair of which this is known: outputs that are not chosen, and those that
    /// are marked as equal, are not compared, and a step that is chosen is made in place of those
    /// that it is chosen for. Fails where memory is refused.
    pub fn of(
        alloc: Global,
        pair: &'a Pair<'a>,
        every: bool,
        alike: Alike,
    ) -> Result<Schedule<'a>, AllocError>
        requires { IsKnown pair.now alike }
        ensures schedule { IfOk result (IsSchedule pair.now) }
        ensures every { IfOk result (λ schedule. schedule.every ≡ every) }
    {
        let Alike { equal, chosen } = alike;
        let settled = settled_outputs(alloc, pair, &equal)?;
        let plan = plan_of(alloc, Steps::of(alloc, pair, chosen), &settled)?;
        Ok(Schedule {
            plan,
            settled,
            every,
        })
    }
}
