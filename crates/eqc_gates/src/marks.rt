//! Which steps are needed: those that an output or the assumption depends on.
ghost use Rattle.std.specs.Prelude.{◌≡◌, ℕ, ◌<◌, ◌≤◌, ◌∷◌, [], length, IfOk, slice_index};
ghost use Rattle.eqc_build.specs.Steps.{steps_in, uses_of, roots_of, assumed_root};
ghost use Rattle.eqc_gates.specs.Entering.{AreClosed, AreMarked, HasAssumed, HaveRoots};

use eqc_build::{Steps, Uses};
use std::alloc::{AllocError, Global};

/// Marks two steps.
fn mark_both(marks: &mut Vec<bool>, steps: [u32; 2])
    requires first { slice_index steps 0 < length marks.old.items }
    requires second { slice_index steps 1 < length marks.old.items }
    ensures { AreMarked marks.old.items marks.new.items (slice_index steps 0 ∷ slice_index steps 1 ∷ []) 2 }
{
    marks[steps[0] as usize] = true;
    marks[steps[1] as usize] = true;
}

/// Marks the steps that one uses.
fn mark_all(marks: &mut Vec<bool>, steps: &Uses<'_>)
    requires { (c : ℕ) → c < length steps.now → slice_index steps.now c < length marks.old.items }
    ensures { AreMarked marks.old.items marks.new.items steps.now (length steps.now) }
{
    for c in 0..steps.len() {
        let step = steps.get(c) as usize;
        marks[step] = true;
    }
}

/// Marks the step of the assumption's output, if there is an assumption.
fn mark_assumed(marks: &mut Vec<bool>, steps: &Steps<'_>)
    requires { length marks.old.items ≡ steps_in steps.now.pair }
    ensures { AreMarked marks.old.items marks.new.items (assumed_root steps.now) (length (assumed_root steps.now)) }
{
    let _count = steps.len();
    if let Some(root) = steps.assumed_root() {
        marks[root as usize] = true;
    }
}

/// Marks for the steps of a pair: the steps of each output that is wanted, that of the assumption's
/// output, if there is an assumption, and what they use. `outputs` says which outputs are wanted;
/// those behind its end are not. It takes time in proportion to what the steps use. Fails where
/// memory is refused.
pub fn needed(alloc: Global, steps: &Steps<'_>, outputs: &[bool]) -> Result<Vec<bool>, AllocError>
    requires { length outputs.now ≤ length steps.now.pair.first.outputs }
    ensures closed { IfOk result (λ marks. AreClosed steps.now marks.items) }
    ensures roots { IfOk result (λ marks. HaveRoots steps.now outputs.now marks.items (length outputs.now)) }
    ensures assumed { IfOk result (λ marks. HasAssumed steps.now marks.items) }
{
    let count = steps.len();
    let mut marks = vec![in alloc; false; count as usize]?;
    for output in 0..outputs.len() {
        if outputs[output] {
            mark_both(&mut marks, steps.roots(output));
        }
    }
    mark_assumed(&mut marks, steps);
    // What a step uses comes before it.
    let mut step = count;
    'steps: while step > 0 {
        step -= 1;
        if marks[step as usize] {
            mark_all(&mut marks, &steps.uses(step));
        }
    }
    Ok(marks)
}
