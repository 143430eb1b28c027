//! What steps are needed for: how often others use them that an output needs, until which output
//! they are a signal that is compared, and how often those used them that were made.
ghost use Rattle.std.specs.Prelude.{◌≡◌, ℕ, ◌+◌, ◌<◌, ◌≤◌, false, true, length, IfOk, slice_index};
ghost use Rattle.eqc_build.specs.Steps.{goals_of, steps_in};
ghost use Rattle.eqc_build.specs.Schedule.{end_of, AreUsedUntil};
ghost use Rattle.eqc_build.specs.Demand.{AreAdded, IsCounted, needed_uses, IsMet};
ghost use Rattle.eqc_build.specs.Turns.{is_marked};

use crate::moments::Moments;
use crate::schedule::output_moments;
use crate::steps::{Steps, Uses};
use std::alloc::{AllocError, Global};

/// What outputs need steps for. Members that share the outputs of a pair share it. Where nothing is
/// listed, all that is known of a step is the last moment at which it is used.
#[derive(Drop)]
pub(crate) struct Demand {
    /// How often each step is used by others that an output needs; 4,294,967,295 stands for more
    /// than is counted.
    pub(crate) uses: Vec<u32>,
    /// The end of the last output of which each step is a signal that is compared, 0 where it is
    /// none.
    pub(crate) roots: Vec<u64>,
}

/// Counts what a step uses.
pub(crate) fn count(counts: &mut Vec<u32>, steps: &Uses<'_>)
    ensures { AreAdded counts.old.items counts.new.items steps.now }
{
    for k in 0..steps.len() {
        let s = steps.get(k) as usize;
        if s < counts.len() && counts[s] < 4294967295 {
            counts[s] += 1;
        }
    }
}

/// How often each step is used by others that an output needs, where these moments are the last at
/// which steps are used.
fn uses_where_needed(
    alloc: Global,
    steps: &Steps<'_>,
    last: &Moments,
) -> Result<Vec<u32>, AllocError>
    requires size { length last.now ≡ steps_in steps.now.pair }
    ensures { IfOk result (λ uses. (s : ℕ) → s < steps_in steps.now.pair → IsCounted 0 (slice_index uses.items s) (needed_uses steps.now last.now s (steps_in steps.now.pair))) }
{
    let mut uses = vec![in alloc; 0u32; steps.len() as usize]?;
    for k in 0..steps.len() {
        if last.at(k) > 0 {
            count(&mut uses, &steps.uses(k));
        }
    }
    Ok(uses)
}

impl Demand {
    /// Nothing is listed.
    pub(crate) fn unknown(alloc: Global) -> Demand {
        Demand {
            uses: Vec::new(alloc),
            roots: Vec::new(alloc),
        }
    }

    /// That of all outputs that are not marked, of so many, where these moments are the last at
    /// which steps are used.
    pub(crate) fn of_outputs(
        alloc: Global,
        steps: &Steps<'_>,
        outputs: u32,
        marks: &[bool],
        last: &Moments,
    ) -> Result<Demand, AllocError>
        requires outputs { outputs ≡ length steps.now.pair.first.outputs }
        requires size { length last.now ≡ steps_in steps.now.pair }
        ensures uses { IfOk result (λ demand. (s : ℕ) → s < steps_in steps.now.pair → IsCounted 0 (slice_index demand.uses.items s) (needed_uses steps.now last.now s (steps_in steps.now.pair))) }
        ensures roots { IfOk result (λ demand. (o : ℕ) → o < outputs → is_marked marks.now o ≡ false → AreUsedUntil demand.roots.items (goals_of steps.now o) (end_of steps.now (o + 1))) }
    {
        let uses = uses_where_needed(alloc, steps, last)?;
        let roots = output_moments(alloc, steps, outputs, marks)?;
        Ok(Demand { uses, roots })
    }

    /// The end of the last output of which a step is a signal that is compared, 0 where none is
    /// known.
    pub(crate) fn root_end(&self, s: u32) -> u64
        ensures { result ≡ slice_index self.now.roots.items s }
    {
        self.roots.get(s as usize).copied().unwrap_or(0)
    }

    /// Whether all that use a step were made, and it is no signal of an output that is compared
    /// after a moment, where `used` tells how often steps were used.
    pub(crate) fn is_met(&self, used: &[u32], s: u32, at: u64) -> bool
        ensures met { result ≡ true → IsMet self.now used.now s at }
        ensures unmet { result ≡ false → IsMet self.now used.now s at → ⊥ }
    {
        let i = s as usize;
        let uses = self.uses.get(i).copied().unwrap_or(4294967295);
        let used = used.get(i).copied().unwrap_or(0);
        uses < 4294967295 && uses <= used && self.root_end(s) <= at
    }
}
