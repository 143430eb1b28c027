//! Rounds of sweeping in a run, and what is asked about the outputs behind each.
ghost use Rattle.std.specs.Prelude.{◌≡◌};
ghost use Rattle.eqc_compare.specs.Alike.{IsKnown};
ghost use Rattle.eqc_literals.specs.Literals.{KeepsMarks};

use crate::workers::Comparison;
use eqc_compare::{Alike, Progress, Stage, known_outcome};
use eqc_fraig::{Inside, Rounds};
use std::sync::Wait;
use std::thread::Threads;

/// This part of the conflicts that the options allow are given to all outputs that a round of
/// sweeping leaves, to find them equal.
const FEW_PART: u64 = 20;

/// So often they have as many at most, each time after some were found equal.
const MOST_TIMES: u32 = 8;

/// There are no more rounds of sweeping than so many, whatever they find.
const MOST_ROUNDS: u32 = 100;

/// Searches for differences of the outputs that are left, with so many conflicts in all. Those for
/// which there is none become known: whether there are any.
pub(crate) fn ask_outputs<R: Threads + Sync, P: Progress<R>>(
    comparison: &Comparison<'_, R, P>,
    inside: &mut Inside<'_>,
    alike: &mut Alike,
    conflicts: u64,
) -> bool
    requires { IsKnown inside.old alike.old }
    ensures pair { inside.new ≡ inside.old }
    ensures known { IsKnown inside.new alike.new }
    ensures kept { KeepsMarks inside.old alike.old.equal.items alike.new.equal.items }
{
    let Comparison {
        rt,
        alloc,
        watch,
        ..
    } = *comparison;
    watch.stage(rt, Stage::Asking);
    inside.ask_outputs(rt, alloc, alike, conflicts, watch)
}

/// Asks about the outputs that a round of sweeping left, with few conflicts, and again as long as
/// some are found equal: what was found equal below them often makes them easy.
pub(crate) fn ask_while_found<R: Threads + Sync, P: Progress<R>>(
    comparison: &Comparison<'_, R, P>,
    inside: &mut Inside<'_>,
    alike: &mut Alike,
)
    requires inside { inside.old ≡ comparison.now.pair.now }
    requires known { IsKnown inside.old alike.old }
    ensures pair { inside.new ≡ inside.old }
    ensures known { IsKnown inside.new alike.new }
    ensures kept { KeepsMarks inside.old alike.old.equal.items alike.new.equal.items }
{
    let Comparison { alloc, pair, .. } = *comparison;
    let few = u64::from(comparison.options.conflicts) / FEW_PART;
    for _ in 0..MOST_TIMES {
        if known_outcome(alloc, pair, &alike.equal).is_some() {
            return;
        }
        if !ask_outputs(comparison, inside, alike, few) {
            return;
        }
    }
}

/// Sweeps what is left in further rounds, as long as these find something and outputs are left,
/// which are asked about after each round.
pub(crate) fn sweep_more<R: Threads + Wait + Sync, P: Progress<R> + Sync>(
    comparison: &Comparison<'_, R, P>,
    inside: &mut Inside<'_>,
    alike: &mut Alike,
    rounds: &mut Rounds,
)
    requires inside { inside.old ≡ comparison.now.pair.now }
    requires known { IsKnown inside.old alike.old }
    ensures pair { inside.new ≡ inside.old }
    ensures known { IsKnown inside.new alike.new }
    ensures kept { KeepsMarks inside.old alike.old.equal.items alike.new.equal.items }
{
    let Comparison {
        rt,
        alloc,
        pair,
        watch,
        ..
    } = *comparison;
    for _ in 0..MOST_ROUNDS {
        if !rounds.has_next() || known_outcome(alloc, pair, &alike.equal).is_some() {
            return;
        }
        watch.stage(rt, Stage::Sweeping);
        if inside
            .sweep_again(rt, alloc, alike, rounds.effort(), watch)
            .is_err()
        {
            return;
        }
        rounds.count(inside.tally());
        if let Ok(more) = inside.known(alloc, alike) {
            *alike = more;
        }
        ask_while_found(comparison, inside, alike);
    }
}

/// Sweeps what was entered in a first round: the outputs that it finds equal become known.
pub(crate) fn sweep_first<R: Threads + Wait + Sync, P: Progress<R> + Sync>(
    comparison: &Comparison<'_, R, P>,
    inside: &mut Inside<'_>,
    alike: &mut Alike,
    rounds: &Rounds,
)
    requires { IsKnown inside.old alike.old }
    ensures pair { inside.new ≡ inside.old }
    ensures known { IsKnown inside.new alike.new }
    ensures kept { KeepsMarks inside.old alike.old.equal.items alike.new.equal.items }
{
    let Comparison {
        rt,
        alloc,
        watch,
        ..
    } = *comparison;
    // Where memory is refused what was entered stays.
    let _ = inside.sweep_first(rt, alloc, alike, rounds, watch);
    if let Ok(more) = inside.known(alloc, alike) {
        *alike = more;
    }
}
