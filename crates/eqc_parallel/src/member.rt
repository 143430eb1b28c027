//! What a member compares with.
ghost use Rattle.std.specs.Prelude.{◌≡◌, ◌≢◌, ◌<◌, ◌≤◌, false, length, IfOk, IfErr};
ghost use Rattle.eqc_build.specs.Turns.{AreKept, is_marked};
ghost use Rattle.eqc_compare.specs.Alike.{IsSchedule};
ghost use Rattle.eqc_compare.specs.Comparing.{IsDifferenceAt};

use crate::task::Task;
use eqc_build::StepDiagrams;
use eqc_compare::compare_kept;
use eqc_pair::Pair;
use eqc_tree::{Diagrams, References, Stop};
use std::alloc::Global;

/// The diagrams of a member, from its first draw to its last, and those of steps that later outputs
/// need.
pub(crate) struct Member<D: References> {
    pub diagrams: D,
    pub kept: StepDiagrams<D::Ref>,
}

/// A member over diagrams.
pub(crate) fn begin<D: References + Drop>(
    alloc: Global,
    diagrams: D,
    pair: &Pair<'_>,
) -> Result<Member<D>, Stop>
    requires variables { length pair.now.first.inputs ≤ (D.holding diagrams).variables }
    ensures kept { IfOk result (λ m. AreKept D.entry pair.now (D.holding m.diagrams) m.kept.table) }
    ensures only { IfErr result (λ s. s ≡ Stop.Memory) }
{
    let kept = StepDiagrams::for_each(alloc, pair)?;
    Ok(Member { diagrams, kept })
}

/// The least assignment under which an output differs that is not marked. A member's outputs come
/// in rising order.
pub(crate) fn compare<R, D: Diagrams<R>>(
    rt: &R,
    alloc: Global,
    member: &mut Member<D>,
    pair: &Pair<'_>,
    task: &Task<'_>,
    output: u32,
) -> Result<Option<Vec<bool>>, Stop>
    requires kept { AreKept D.entry pair.now (D.holding member.old.diagrams) member.old.kept.table }
    requires task { IsSchedule pair.now task.now.schedule }
    requires output { output < length pair.now.first.outputs }
    requires unmarked { is_marked task.now.schedule.settled.items output ≡ false }
    ensures least { IfOk result (IsDifferenceAt pair.now output) }
    ensures kept { AreKept D.entry pair.now (D.holding member.new.diagrams) member.new.kept.table }
    ensures only { IfErr result (λ s. s ≢ Stop.Threads) }
{
    let Member { diagrams, kept } = member;
    let (output, turn) = (output as usize, output + 1);
    let plan = &task.schedule.plan;
    compare_kept(alloc, rt, diagrams, plan, kept, output, turn, true)
}

/// The member's diagrams, with what they held at first.
pub(crate) fn end<D: References>(member: Member<D>, pair: &Pair<'_>) -> D
    requires { AreKept D.entry pair.now (D.holding member.diagrams) member.kept.table }
{
    let Member { mut diagrams, kept } = member;
    kept.give_back(&mut diagrams);
    diagrams
}
