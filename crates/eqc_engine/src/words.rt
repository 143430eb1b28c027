//! Stages of a run that show words of a pair equal by what they add up to.
ghost use Rattle.std.specs.Prelude.{◌≡◌, IfOk};
ghost use Rattle.eqc_compare.specs.Alike.{IsKnown};
ghost use Rattle.eqc_literals.specs.Literals.{KeepsMarks};
ghost use Rattle.eqc_report.specs.PairReport.{pair_report};
ghost use Rattle.eqc_report.specs.ReportView.{report_of};

use crate::sweeping::{ask_while_found, sweep_first};
use crate::workers::Comparison;
use eqc_compare::{Alike, Progress, Stage, known_outcome};
use eqc_fraig::{Inside, Kind, Look, Rounds};
use eqc_report::{Report, found_report};
use eqc_tree::Stop;
use std::sync::Wait;
use std::thread::Threads;

/// The report where all that is to be told is known: `NodeLimit` where it isn't.
fn of_known<R: Threads + Wait + Sync, P: Progress<R> + Sync>(
    comparison: &Comparison<'_, R, P>,
    alike: &Alike,
) -> Result<Report, Stop>
    requires { IsKnown comparison.now.pair.now alike.now }
    ensures { IfOk result (λ report. report_of report ≡ pair_report comparison.now.options.now.every comparison.now.pair.now) }
{
    let Comparison {
        alloc,
        pair,
        options,
        ..
    } = *comparison;
    match known_outcome(alloc, pair, &alike.equal) {
        Some(outcome) => found_report(alloc, pair, options.every, outcome),
        None => Err(Stop::NodeLimit),
    }
}

/// The report where words of outputs are shown equal by what they add up to, which become known.
pub(crate) fn by_sums<R: Threads + Wait + Sync, P: Progress<R> + Sync>(
    comparison: &Comparison<'_, R, P>,
    inside: &mut Inside<'_>,
    alike: &mut Alike,
) -> Result<Report, Stop>
    requires inside { inside.old ≡ comparison.now.pair.now }
    requires known { IsKnown comparison.now.pair.now alike.old }
    ensures inside { inside.new ≡ inside.old }
    ensures known { IsKnown comparison.now.pair.now alike.new }
    ensures kept { KeepsMarks comparison.now.pair.now alike.old.equal.items alike.new.equal.items }
    ensures report { IfOk result (λ report. report_of report ≡ pair_report comparison.now.options.now.every comparison.now.pair.now) }
{
    let Comparison {
        rt,
        alloc,
        pair,
        options,
        watch,
    } = *comparison;
    if known_outcome(alloc, pair, &alike.equal).is_none() {
        let conflicts = u64::from(options.conflicts);
        // Where memory is refused the run goes on with what was shown before.
        let _ = inside.add_up(rt, alloc, alike, conflicts, watch);
    }
    of_known(comparison, alike)
}

/// Whether words that are looked for are shown equal by what they add up to. Then the graph is made
/// anew, with one of two signals in place of both, and the outputs that are equal so become known.
fn take_words<R: Threads + Wait + Sync, P: Progress<R> + Sync>(
    comparison: &Comparison<'_, R, P>,
    inside: &mut Inside<'_>,
    alike: &mut Alike,
    rounds: &Rounds,
    look: Look,
) -> bool
    requires inside { inside.old ≡ comparison.now.pair.now }
    requires known { IsKnown inside.old alike.old }
    ensures pair { inside.new ≡ inside.old }
    ensures known { IsKnown inside.new alike.new }
    ensures kept { KeepsMarks inside.old alike.old.equal.items alike.new.equal.items }
{
    let Comparison {
        rt,
        alloc,
        watch,
        ..
    } = *comparison;
    let shown = inside.add_up_inside(rt, alloc, alike, look, watch);
    if !matches!(shown, Ok(true)) {
        return false;
    }
    // Where memory is refused the graph is as it was.
    let _ = inside.begin_again(alloc, alike, rounds);
    if let Ok(more) = inside.known(alloc, alike) {
        *alike = more;
    }
    true
}

/// The report where words of outputs are shown equal before anything is swept, as products as they
/// were made mostly are.
pub(crate) fn by_words_as_made<R: Threads + Wait + Sync, P: Progress<R> + Sync>(
    comparison: &Comparison<'_, R, P>,
    inside: &mut Inside<'_>,
    alike: &mut Alike,
    rounds: &Rounds,
) -> Result<Report, Stop>
    requires inside { inside.old ≡ comparison.now.pair.now }
    requires known { IsKnown comparison.now.pair.now alike.old }
    ensures inside { inside.new ≡ inside.old }
    ensures known { IsKnown comparison.now.pair.now alike.new }
    ensures kept { KeepsMarks comparison.now.pair.now alike.old.equal.items alike.new.equal.items }
    ensures report { IfOk result (λ report. report_of report ≡ pair_report comparison.now.options.now.every comparison.now.pair.now) }
{
    let look = Look {
        kind: Kind::AsMade,
        conflicts: u64::from(comparison.options.conflicts),
    };
    let _ = take_words(comparison, inside, alike, rounds, look);
    of_known(comparison, alike)
}

/// The report where words that are looked for, inside the netlists or of outputs in cases, are shown
/// equal by what they add up to, and what depends on them is swept anew in a round, with one of two
/// signals in place of both. The outputs found equal so become known.
pub(crate) fn by_inner_sums<R: Threads + Wait + Sync, P: Progress<R> + Sync>(
    comparison: &Comparison<'_, R, P>,
    inside: &mut Inside<'_>,
    alike: &mut Alike,
    rounds: &Rounds,
    look: Look,
) -> Result<Report, Stop>
    requires inside { inside.old ≡ comparison.now.pair.now }
    requires known { IsKnown comparison.now.pair.now alike.old }
    ensures inside { inside.new ≡ inside.old }
    ensures known { IsKnown comparison.now.pair.now alike.new }
    ensures kept { KeepsMarks comparison.now.pair.now alike.old.equal.items alike.new.equal.items }
    ensures report { IfOk result (λ report. report_of report ≡ pair_report comparison.now.options.now.every comparison.now.pair.now) }
{
    let Comparison {
        rt,
        alloc,
        pair,
        watch,
        ..
    } = *comparison;
    if known_outcome(alloc, pair, &alike.equal).is_some() {
        return of_known(comparison, alike);
    }
    if !take_words(comparison, inside, alike, rounds, look) {
        return Err(Stop::NodeLimit);
    }
    if known_outcome(alloc, pair, &alike.equal).is_none() {
        watch.stage(rt, Stage::Sweeping);
        sweep_first(comparison, inside, alike, rounds);
        ask_while_found(comparison, inside, alike);
    }
    of_known(comparison, alike)
}
