//! When each step is used for the last time, where the outputs that are not marked are compared in
//! their order.
ghost use Rattle.std.specs.Prelude.{◌≡◌, ℕ, ◌+◌, ◌<◌, ◌≤◌, false, length, IfOk, slice_index};
ghost use Rattle.eqc_build.specs.Steps.{goals_of, steps_in};
ghost use Rattle.eqc_build.specs.Schedule.{moment, end_of, AreLastMoments, AreUsedUntil, IsRaised};
ghost use Rattle.eqc_build.specs.Turns.{is_marked};

use crate::moments::Moments;
use crate::steps::{Steps, Uses};
use std::alloc::{AllocError, Global};

/// An output and a step, each counted from 1, as one number: moments of later outputs are later.
pub(crate) fn moment(output: u32, step: u32) -> u64
    ensures { result ≡ moment output step }
{
    output as u64 * 4294967296 + step as u64
}

/// The first moment of the output of this one.
fn start_of(at: u64) -> u64
    ensures low { result ≤ at }
    ensures start { (output : ℕ) → moment output 0 ≤ at → moment output 0 ≤ result }
    ensures whole { (step : ℕ) → step < 4294967296 → result + step < 18446744073709551616 }
{
    at - at % 4294967296
}

/// Notes a moment for those of the steps that have an earlier one.
fn raise(last: &mut Vec<u64>, steps: &Uses<'_>, at: u64)
    requires { (k : ℕ) → k < length steps.now → slice_index steps.now k < length last.old.items }
    ensures { IsRaised last.old.items last.new.items steps.now (length steps.now) at }
{
    for k in 0..steps.len() {
        let s = steps.get(k) as usize;
        if last[s] < at {
            last[s] = at;
        }
    }
}

/// Notes a moment for those of these steps that have an earlier one.
fn raise_goals(last: &mut Vec<u64>, goals: &[u32], at: u64)
    requires { (k : ℕ) → k < length goals.now → slice_index goals.now k < length last.old.items }
    ensures { IsRaised last.old.items last.new.items goals.now (length goals.now) at }
{
    for k in 0..goals.len() {
        let s = goals[k] as usize;
        if last[s] < at {
            last[s] = at;
        }
    }
}

/// Whether an output is marked.
pub(crate) fn is_marked(marks: &[bool], output: usize) -> bool
    ensures { result ≡ is_marked marks.now output }
{
    marks.get(output).copied().unwrap_or(false)
}

/// The moments at which the outputs that are not marked are compared themselves, of so many
/// outputs.
pub(crate) fn output_moments(
    alloc: Global,
    steps: &Steps<'_>,
    outputs: u32,
    marks: &[bool],
) -> Result<Vec<u64>, AllocError>
    requires outputs { outputs ≡ length steps.now.pair.first.outputs }
    ensures size { IfOk result (λ last. length last.items ≡ steps_in steps.now.pair) }
    ensures roots { IfOk result (λ last. (o : ℕ) → o < outputs → is_marked marks.now o ≡ false → AreUsedUntil last.items (goals_of steps.now o) (end_of steps.now (o + 1))) }
{
    let end = steps.len() + 1;
    let mut last = vec![in alloc; 0u64; steps.len() as usize]?;
    for o in 0..outputs {
        if !is_marked(marks, o as usize) {
            let goals = steps.goals(o as usize);
            raise_goals(&mut last, goals.as_slice(), moment(o + 1, end));
        }
    }
    Ok(last)
}

/// The last moment at which each step is used, where the outputs that are not marked are compared
/// in their order.
fn last_moments(
    alloc: Global,
    steps: &Steps<'_>,
    outputs: u32,
    marks: &[bool],
) -> Result<Vec<u64>, AllocError>
    requires outputs { outputs ≡ length steps.now.pair.first.outputs }
    ensures last { IfOk result (λ last. AreLastMoments steps.now last.items) }
    ensures roots { IfOk result (λ last. (o : ℕ) → o < outputs → is_marked marks.now o ≡ false → AreUsedUntil last.items (goals_of steps.now o) (end_of steps.now (o + 1))) }
{
    let mut last = output_moments(alloc, steps, outputs, marks)?;
    let mut k = steps.len();
    while k > 0 {
        k -= 1;
        let at = last[k as usize];
        if at > 0 {
            let at = start_of(at) + (k as u64 + 1);
            raise(&mut last, &steps.uses(k), at);
        }
    }
    Ok(last)
}

/// The same, as moments that a plan has.
pub(crate) fn moments_of(
    alloc: Global,
    steps: &Steps<'_>,
    outputs: u32,
    marks: &[bool],
) -> Result<Moments, AllocError>
    requires outputs { outputs ≡ length steps.now.pair.first.outputs }
    ensures last { IfOk result (AreLastMoments steps.now) }
    ensures roots { IfOk result (λ last. (o : ℕ) → o < outputs → is_marked marks.now o ≡ false → AreUsedUntil last (goals_of steps.now o) (end_of steps.now (o + 1))) }
{
    Ok(Moments::of_each(last_moments(alloc, steps, outputs, marks)?))
}
