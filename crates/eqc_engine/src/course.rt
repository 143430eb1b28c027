//! The course of a run: what is tried on a pair, stage after stage. Each begins where the one
//! before left an output open, which it says by `Stop::NodeLimit`.
//!
//! | | Stage | Call | What it decides |
//! |---|---|---|---|
//! | 1 | equal structure | `alike_or_nothing` | outputs whose two signals have one structure are equal |
//! | 2 | diagrams on one thread; in the larger room too where there are very many inputs and many outputs began | `first_diagrams` | all outputs, where they fit |
//! | 3 | a look at words of outputs as they were made, which takes little; short rounds of sweeping, and a short search that refutes after each | `by_words_as_made`, `sweep_first`, `sweep_more`, `ask_while_found` | outputs that are shown or found equal |
//! | 4 | a short search, where simulation saw an output differ | `by_search` | all outputs, or all up to the first that differs |
//! | 5 | words of outputs that are equal to products made anew, or add up the same or what an array does, a short look for words inside that do, and for outputs that do in each case of what inputs choose | `by_sums`, `by_inner_sums` | outputs whose words are shown equal, and the same as 3 |
//! | 6 | 2 in a larger room | `in_room` | the outputs left, where they fit |
//! | 7 | rounds of sweeping that take no longer than 8, where there are few inputs; before 5 where 3 left few nodes | `sweep_more` | the same as 3 |
//! | 8 | diagrams by one worker who takes dead nodes back, where there are few inputs or very many | `in_room` | the outputs left, where they fit |
//! | 9 | long rounds of sweeping, as long as they find nodes equal | `sweep_more` | the same as 3 |
//! | 10 | short searches | `by_search` | the same as 4 |
//! | 11 | diagrams by all workers, and where these don't fit by one of them | `in_room` | the outputs left, where they fit |
//! | 12 | a long look for words inside that add up the same, and a round of sweeping over them | `by_inner_sums` | the same as 3 |
//! | 13 | a longer search that refutes | `ask_outputs` | outputs that are found equal |
//! | 14 | longer searches | `by_search` | the same as 4 |
//! | 15 | diagrams by all workers once more, where 13 found some outputs equal | `in_room` | the outputs left, where they fit |
//!
//! `known_by_structure` has 1, `decide_pair` begins with 2, `behind_first` enters the graph that 3
//! begins with, and `by_sweeping` goes on from there with what `ATTEMPTS` lists: `by_short_rounds`
//! has the rounds of 3, and 4, `by_long_rounds` 9 to 11, and `by_longer_searches` 13 to 15. With few nodes or without conflicts
//! 11 follows 2, and nothing else does.
ghost use Rattle.std.specs.Prelude.{◌≡◌, None, length, IfOk, IfErr};
ghost use Rattle.eqc_compare.specs.Alike.{IsKnown};
ghost use Rattle.eqc_literals.specs.Literals.{KeepsMarks};
ghost use Rattle.eqc_report.specs.PairReport.{pair_report};
ghost use Rattle.eqc_report.specs.ReportView.{report_of};
ghost use Rattle.eqc_report.specs.Options.{options_code};
ghost use Rattle.eqc_report.specs.Seen.{IsLeftOf};
ghost use Rattle.eqc_report.specs.Left.{IsTold, KeepsTold};

use crate::begun::Begun;
use crate::sweeping::{ask_outputs, ask_while_found, sweep_first, sweep_more};
use crate::words::{by_inner_sums, by_sums, by_words_as_made};
use crate::workers::{
    Comparison, check_by_one, check_by_team, check_first, check_in_large, first_nodes,
    goes_on_alone, has_large_room, has_many_inputs, has_some_inputs, is_full,
};
use eqc_compare::{Alike, Progress, Stage, alike_or_nothing, known_outcome};
use eqc_fraig::{Conflicts, Inside, Kind, Look, Rounds, Searched, Span, Terms};
use eqc_report::{Options, Report, Undecided, found_report, note_seen};
use eqc_tree::Stop;
use std::sync::Wait;
use std::thread::Threads;

/// The fewest nodes with which a run does more than to make diagrams by all its workers. Who allows
/// fewer asks about these.
const SWEPT_NODES: u32 = 1_024;

/// With this part of the conflicts that the options allow all outputs are searched for differences
/// at first.
const SEARCH_PART: u64 = 5;

/// Longer rounds come before diagrams of one worker where the rounds between left this part fewer
/// nodes.
const FRUITFUL: u64 = 8;

/// Where short rounds take this part of the nodes away, longer ones come before words are added up:
/// of a netlist and what a flow made of it half is left, of two architectures more, and adders that
/// the flow took apart are looked for in vain.
const TAKEN_PART: u32 = 4;

/// Where a run's comparison is made, behind the first room: a store of one thread, which is left as
/// soon as it is full, or as the turns of its operations are spent.
#[derive(Clone, Copy, PartialEq)]
enum Room {
    /// In a larger store of one thread, which is left in the same way. Where the first one was as
    /// large there is nothing to be had from it.
    Large,
    /// In a forest of one worker, who takes dead nodes back, which is left as the turns of that are
    /// spent.
    One,
    /// In the forest that the options ask for, by as many workers, which is left as the turns of
    /// one of them are spent, and then by one worker alone.
    Whole,
}

/// Tells of a stage in which outputs are compared, before the first of them is.
fn tell_outputs<R, P: Progress<R>>(comparison: &Comparison<'_, R, P>, stage: Stage) {
    let Comparison {
        rt,
        pair,
        watch,
        ..
    } = *comparison;
    watch.stage(rt, stage);
    watch.step(rt, 0, pair.first().outputs().len());
}

/// The report by diagrams in a room, where this is known of the pair, or why it stopped.
fn in_room<R: Threads + Wait + Sync, P: Progress<R> + Sync>(
    comparison: &Comparison<'_, R, P>,
    room: Room,
    alike: &Alike,
) -> Result<Report, Stop>
    requires options { options_code comparison.now.options.now ≡ None }
    requires known { IsKnown comparison.now.pair.now alike.now }
    ensures report { IfOk result (λ report. report_of report ≡ pair_report comparison.now.options.now.every comparison.now.pair.now) }
{
    let Comparison {
        alloc,
        pair,
        options,
        ..
    } = *comparison;
    if let Some(outcome) = known_outcome(alloc, pair, &alike.equal) {
        return found_report(alloc, pair, options.every, outcome);
    }
    match room {
        Room::Large => {
            if !has_large_room(pair, options) {
                return Err(Stop::NodeLimit);
            }
            tell_outputs(comparison, Stage::FirstDiagrams);
            check_in_large(comparison, alike)
        }
        Room::One => {
            if !goes_on_alone(pair, options) {
                return Err(Stop::NodeLimit);
            }
            tell_outputs(comparison, Stage::FirstDiagrams);
            check_by_one(comparison, alike)
        }
        Room::Whole => {
            tell_outputs(comparison, Stage::AllDiagrams);
            check_by_team(comparison, alike)
        }
    }
}

/// The report by diagrams on one thread, in the first room, or why it stopped. Most comparisons
/// take less time there than a forest to begin. Few nodes a forest has as fast, and uses again.
///
/// Where there are very many inputs, and many outputs began there before it was full, it is by
/// diagrams in the larger room, if there is one. With fewer inputs what has many such outputs may
/// be a product, of which the others fit into no room.
fn first_diagrams<R, P: Progress<R>>(
    comparison: &Comparison<'_, R, P>,
    alike: &Alike,
) -> Result<Report, Stop>
    requires options { options_code comparison.now.options.now ≡ None }
    requires known { IsKnown comparison.now.pair.now alike.now }
    ensures report { IfOk result (λ report. report_of report ≡ pair_report comparison.now.options.now.every comparison.now.pair.now) }
{
    let Comparison {
        alloc,
        pair,
        options,
        watch,
        ..
    } = *comparison;
    if options.nodes < SWEPT_NODES {
        return Err(Stop::NodeLimit);
    }
    match known_outcome(alloc, pair, &alike.equal) {
        Some(outcome) => return found_report(alloc, pair, options.every, outcome),
        None => {}
    }
    let again = alike.clone()?;
    tell_outputs(comparison, Stage::FirstDiagrams);
    let begun = Begun::new(watch);
    let report = check_first(comparison, again, first_nodes(pair, options), &begun);
    let goes_on = has_many_inputs(pair) && begun.has_many(pair) && is_full(&report);
    if goes_on && has_large_room(pair, options) {
        return check_in_large(comparison, alike);
    }
    report
}

/// The report by searches for differences with so many conflicts, or `NodeLimit` where these don't
/// do, with the difference that was seen then. The outputs found equal on the way become known.
fn by_search<R: Threads + Wait + Sync, P: Progress<R> + Sync>(
    comparison: &Comparison<'_, R, P>,
    inside: &mut Inside<'_>,
    alike: &mut Alike,
    conflicts: Conflicts,
    left: &mut Undecided,
) -> Result<Report, Stop>
    requires inside { inside.old ≡ comparison.now.pair.now }
    requires known { IsKnown comparison.now.pair.now alike.old }
    ensures inside { inside.new ≡ inside.old }
    ensures known { IsKnown comparison.now.pair.now alike.new }
    ensures kept { KeepsMarks comparison.now.pair.now alike.old.equal.items alike.new.equal.items }
    ensures report { IfOk result (λ report. report_of report ≡ pair_report comparison.now.options.now.every comparison.now.pair.now) }
    ensures seen { IsLeftOf comparison.now.pair.now left.old → IsLeftOf comparison.now.pair.now left.new }
    ensures told { KeepsTold left.old left.new }
{
    let Comparison {
        rt,
        alloc,
        pair,
        options,
        watch,
    } = *comparison;
    let Options { every, workers, .. } = *options;
    watch.stage(rt, Stage::Searching);
    let terms = Terms {
        every,
        conflicts,
        threads: workers,
    };
    match inside.search_outputs(rt, alloc, alike, terms, watch) {
        Ok(Searched::Found(outcome)) => found_report(alloc, pair, every, outcome),
        Ok(Searched::Open(output, Some(values))) => {
            note_seen(alloc, pair, left, output, values);
            Err(Stop::NodeLimit)
        }
        // Where memory is refused the run goes on with what was found equal before.
        Ok(Searched::Open(_, None)) | Ok(Searched::Unasked) | Err(_) => Err(Stop::NodeLimit),
    }
}

/// What short searches may cost.
fn few_conflicts<R, P>(comparison: &Comparison<'_, R, P>) -> Conflicts {
    let few = u64::from(comparison.options.conflicts) / SEARCH_PART;
    Conflicts {
        each: few,
        all: few,
    }
}

/// The report over what short rounds of sweeping find equal, which becomes known: by short searches
/// where simulation saw an output differ.
fn by_short_rounds<R: Threads + Wait + Sync, P: Progress<R> + Sync>(
    comparison: &Comparison<'_, R, P>,
    inside: &mut Inside<'_>,
    alike: &mut Alike,
    rounds: &mut Rounds,
    left: &mut Undecided,
) -> Result<Report, Stop>
    requires options { options_code comparison.now.options.now ≡ None }
    requires inside { inside.old ≡ comparison.now.pair.now }
    requires known { IsKnown comparison.now.pair.now alike.old }
    ensures inside { inside.new ≡ inside.old }
    ensures known { IsKnown comparison.now.pair.now alike.new }
    ensures kept { KeepsMarks comparison.now.pair.now alike.old.equal.items alike.new.equal.items }
    ensures report { IfOk result (λ report. report_of report ≡ pair_report comparison.now.options.now.every comparison.now.pair.now) }
    ensures seen { IsLeftOf comparison.now.pair.now left.old → IsLeftOf comparison.now.pair.now left.new }
    ensures told { KeepsTold left.old left.new }
{
    comparison.watch.stage(comparison.rt, Stage::Sweeping);
    sweep_first(comparison, inside, alike, rounds);
    rounds.count(inside.tally());
    ask_while_found(comparison, inside, alike);
    sweep_more(comparison, inside, alike, rounds);
    if !inside.sees_difference(alike) {
        return Err(Stop::NodeLimit);
    }
    by_search(comparison, inside, alike, few_conflicts(comparison), left)
}

/// Sweeps in rounds that take no longer than diagrams of one worker. Answers whether outputs are
/// left of so many fewer nodes that longer rounds come before such diagrams.
fn rounds_between<R: Threads + Wait + Sync, P: Progress<R> + Sync>(
    comparison: &Comparison<'_, R, P>,
    inside: &mut Inside<'_>,
    alike: &mut Alike,
    rounds: &mut Rounds,
) -> bool
    requires inside { inside.old ≡ comparison.now.pair.now }
    requires known { IsKnown inside.old alike.old }
    ensures pair { inside.new ≡ inside.old }
    ensures known { IsKnown inside.new alike.new }
    ensures kept { KeepsMarks inside.old alike.old.equal.items alike.new.equal.items }
{
    let Comparison { alloc, pair, .. } = *comparison;
    let before = u64::from(inside.nodes());
    rounds.lengthen(Span::Medium);
    sweep_more(comparison, inside, alike, rounds);
    let after = u64::from(inside.nodes());
    before - before / FRUITFUL > after && known_outcome(alloc, pair, &alike.equal).is_none()
}

/// The report over what long rounds of sweeping find equal, which becomes known: by short searches,
/// and by diagrams of all workers.
fn by_long_rounds<R: Threads + Wait + Sync, P: Progress<R> + Sync>(
    comparison: &Comparison<'_, R, P>,
    inside: &mut Inside<'_>,
    alike: &mut Alike,
    rounds: &mut Rounds,
    left: &mut Undecided,
) -> Result<Report, Stop>
    requires options { options_code comparison.now.options.now ≡ None }
    requires inside { inside.old ≡ comparison.now.pair.now }
    requires known { IsKnown comparison.now.pair.now alike.old }
    ensures inside { inside.new ≡ inside.old }
    ensures known { IsKnown comparison.now.pair.now alike.new }
    ensures kept { KeepsMarks comparison.now.pair.now alike.old.equal.items alike.new.equal.items }
    ensures report { IfOk result (λ report. report_of report ≡ pair_report comparison.now.options.now.every comparison.now.pair.now) }
    ensures seen { IsLeftOf comparison.now.pair.now left.old → IsLeftOf comparison.now.pair.now left.new }
    ensures told { KeepsTold left.old left.new }
{
    rounds.lengthen(Span::Long);
    sweep_more(comparison, inside, alike, rounds);
    match by_search(comparison, inside, alike, few_conflicts(comparison), left) {
        Err(Stop::NodeLimit) => in_room(comparison, Room::Whole, alike),
        report => report,
    }
}

/// The report by longer searches. Where one that refutes finds some outputs equal, diagrams are
/// tried for the others once more.
fn by_longer_searches<R: Threads + Wait + Sync, P: Progress<R> + Sync>(
    comparison: &Comparison<'_, R, P>,
    inside: &mut Inside<'_>,
    alike: &mut Alike,
    left: &mut Undecided,
) -> Result<Report, Stop>
    requires options { options_code comparison.now.options.now ≡ None }
    requires inside { inside.old ≡ comparison.now.pair.now }
    requires known { IsKnown comparison.now.pair.now alike.old }
    ensures inside { inside.new ≡ inside.old }
    ensures known { IsKnown comparison.now.pair.now alike.new }
    ensures kept { KeepsMarks comparison.now.pair.now alike.old.equal.items alike.new.equal.items }
    ensures report { IfOk result (λ report. report_of report ≡ pair_report comparison.now.options.now.every comparison.now.pair.now) }
    ensures seen { IsLeftOf comparison.now.pair.now left.old → IsLeftOf comparison.now.pair.now left.new }
    ensures told { KeepsTold left.old left.new }
{
    let conflicts = u64::from(comparison.options.conflicts);
    let more = ask_outputs(comparison, inside, alike, conflicts);
    let many = Conflicts {
        each: conflicts,
        all: u64::MAX,
    };
    match by_search(comparison, inside, alike, many, left) {
        Err(Stop::NodeLimit) if more => in_room(comparison, Room::Whole, alike),
        report => report,
    }
}

/// What is tried of a pair that the first room left open.
#[derive(Clone, Copy)]
enum Attempt {
    /// Words of outputs that are as they were made.
    WordsAsMade,
    ShortRounds,
    /// Rounds that take no longer than diagrams of one worker, where short ones left few nodes.
    EarlyRounds,
    WordsOfOutputs,
    /// Words of outputs or inside, of one kind.
    Words(Kind),
    LargeRoom,
    /// The same rounds where they haven't been, and there are few inputs.
    RoundsBetween,
    /// Diagrams of one worker, unless so few nodes are left that longer rounds come first.
    OneWorker,
    LongRounds,
    /// Diagrams of one worker where longer rounds came first.
    OneWorkerLate,
    LongerSearches,
}

/// All attempts, in their order.
static ATTEMPTS: &[Attempt] = &[
    Attempt::WordsAsMade,
    Attempt::ShortRounds,
    Attempt::EarlyRounds,
    Attempt::Words(Kind::Anew),
    Attempt::Words(Kind::Arrays),
    Attempt::WordsOfOutputs,
    Attempt::Words(Kind::Short),
    Attempt::Words(Kind::Cases),
    Attempt::LargeRoom,
    Attempt::RoundsBetween,
    Attempt::OneWorker,
    Attempt::LongRounds,
    Attempt::OneWorkerLate,
    Attempt::Words(Kind::Long),
    Attempt::LongerSearches,
];

/// How far a run has come.
#[derive(Drop)]
struct Course {
    rounds: Rounds,
    /// Whether short rounds left so few nodes that one netlist is made of the other.
    is_copy: bool,
    /// Whether rounds that take no longer than diagrams of one worker have been.
    is_between: bool,
    /// Whether longer rounds come before diagrams of one worker.
    is_late: bool,
}

/// The report by one attempt over what sweeping finds equal, which becomes known.
fn by_attempt<R: Threads + Wait + Sync, P: Progress<R> + Sync>(
    comparison: &Comparison<'_, R, P>,
    inside: &mut Inside<'_>,
    alike: &mut Alike,
    course: &mut Course,
    left: &mut Undecided,
    attempt: Attempt,
) -> Result<Report, Stop>
    requires options { options_code comparison.now.options.now ≡ None }
    requires inside { inside.old ≡ comparison.now.pair.now }
    requires known { IsKnown comparison.now.pair.now alike.old }
    ensures inside { inside.new ≡ inside.old }
    ensures known { IsKnown comparison.now.pair.now alike.new }
    ensures kept { KeepsMarks comparison.now.pair.now alike.old.equal.items alike.new.equal.items }
    ensures report { IfOk result (λ report. report_of report ≡ pair_report comparison.now.options.now.every comparison.now.pair.now) }
    ensures seen { IsLeftOf comparison.now.pair.now left.old → IsLeftOf comparison.now.pair.now left.new }
    ensures told { KeepsTold left.old left.new }
{
    let rounds = &mut course.rounds;
    match attempt {
        Attempt::WordsAsMade => by_words_as_made(comparison, inside, alike, rounds),
        Attempt::ShortRounds => {
            let nodes = inside.nodes();
            let report = by_short_rounds(comparison, inside, alike, rounds, left);
            course.is_copy = inside.nodes() <= nodes - nodes / TAKEN_PART;
            report
        }
        Attempt::WordsOfOutputs => by_sums(comparison, inside, alike),
        Attempt::Words(kind) => {
            let look = Look {
                kind,
                conflicts: u64::from(comparison.options.conflicts),
            };
            by_inner_sums(comparison, inside, alike, rounds, look)
        }
        Attempt::LargeRoom => in_room(comparison, Room::Large, alike),
        Attempt::EarlyRounds if !course.is_copy => Err(Stop::NodeLimit),
        Attempt::RoundsBetween if course.is_between || !has_some_inputs(comparison.pair) => {
            Err(Stop::NodeLimit)
        }
        Attempt::EarlyRounds | Attempt::RoundsBetween => {
            course.is_late = rounds_between(comparison, inside, alike, rounds);
            course.is_between = true;
            Err(Stop::NodeLimit)
        }
        Attempt::OneWorker if !course.is_late => in_room(comparison, Room::One, alike),
        Attempt::OneWorkerLate if course.is_late => in_room(comparison, Room::One, alike),
        Attempt::OneWorker | Attempt::OneWorkerLate => Err(Stop::NodeLimit),
        Attempt::LongRounds => by_long_rounds(comparison, inside, alike, rounds, left),
        Attempt::LongerSearches => by_longer_searches(comparison, inside, alike, left),
    }
}

/// The report by all attempts, one after the other, until one leaves nothing open.
fn by_sweeping<R: Threads + Wait + Sync, P: Progress<R> + Sync>(
    comparison: &Comparison<'_, R, P>,
    inside: &mut Inside<'_>,
    alike: &mut Alike,
    rounds: Rounds,
    left: &mut Undecided,
) -> Result<Report, Stop>
    requires options { options_code comparison.now.options.now ≡ None }
    requires inside { inside.old ≡ comparison.now.pair.now }
    requires known { IsKnown comparison.now.pair.now alike.old }
    ensures known { IsKnown comparison.now.pair.now alike.new }
    ensures kept { KeepsMarks comparison.now.pair.now alike.old.equal.items alike.new.equal.items }
    ensures report { IfOk result (λ report. report_of report ≡ pair_report comparison.now.options.now.every comparison.now.pair.now) }
    ensures seen { IsLeftOf comparison.now.pair.now left.old → IsLeftOf comparison.now.pair.now left.new }
    ensures told { KeepsTold left.old left.new }
{
    let mut course = Course {
        rounds,
        is_copy: false,
        is_between: false,
        is_late: false,
    };
    'attempts: for attempt in ATTEMPTS {
        match by_attempt(comparison, inside, alike, &mut course, left, *attempt) {
            Err(Stop::NodeLimit) => {}
            report => return report,
        }
    }
    Err(Stop::NodeLimit)
}

/// The report where the first room didn't do: by the diagrams of all workers alone where there are
/// few nodes or no conflicts, and else by all that there is.
fn behind_first<R: Threads + Wait + Sync, P: Progress<R> + Sync>(
    comparison: &Comparison<'_, R, P>,
    alike: &mut Alike,
    left: &mut Undecided,
) -> Result<Report, Stop>
    requires options { options_code comparison.now.options.now ≡ None }
    requires known { IsKnown comparison.now.pair.now alike.old }
    ensures known { IsKnown comparison.now.pair.now alike.new }
    ensures kept { KeepsMarks comparison.now.pair.now alike.old.equal.items alike.new.equal.items }
    ensures report { IfOk result (λ report. report_of report ≡ pair_report comparison.now.options.now.every comparison.now.pair.now) }
    ensures seen { IsLeftOf comparison.now.pair.now left.old → IsLeftOf comparison.now.pair.now left.new }
    ensures told { KeepsTold left.old left.new }
{
    let Comparison {
        rt,
        alloc,
        pair,
        options,
        watch,
    } = *comparison;
    if options.nodes < SWEPT_NODES || options.conflicts == 0 {
        return in_room(comparison, Room::Whole, alike);
    }
    watch.stage(rt, Stage::Sweeping);
    let conflicts = u64::from(options.conflicts);
    let rounds = Rounds::of(pair, conflicts, options.workers, options.every);
    match Inside::of(alloc, pair, alike, &rounds) {
        Ok(inside) => {
            let mut inside = inside;
            by_sweeping(comparison, &mut inside, alike, rounds, left)
        }
        // What was known before stays, and the run goes on without more.
        Err(_) => in_room(comparison, Room::Whole, alike),
    }
}

/// What is known of a pair at first: outputs whose two signals have one structure are equal, and
/// one diagram is built for all signals of one structure, of both netlists. Nothing where memory
/// for that is refused. The watch is told of the stage.
pub fn known_by_structure<R, P: Progress<R>>(comparison: &Comparison<'_, R, P>) -> Alike
    ensures { IsKnown comparison.now.pair.now result }
{
    comparison.watch.stage(comparison.rt, Stage::Structure);
    alike_or_nothing(comparison.alloc, comparison.pair)
}

/// Decides a pair for a run, which does more than `check`. Outputs that are known to be equal are
/// not compared; `alike` has what is known of the pair, and gets what is found. Where diagrams on
/// one thread don't decide it, signals become known that are proved equal inside the netlists, and
/// outputs are searched for differences before all workers make diagrams, and once more where that
/// doesn't do. Where memory for any of that is refused, the run goes on without it. Where there is
/// an assumption, whether it allows an assignment is asked of diagrams on one thread all the same.
///
/// The options are in their ranges. With 0 conflicts, only diagrams are made; with fewer than 1,024
/// nodes, only by all workers. The call may wait, as `check` may. The watch is told of each stage
/// as it begins, and how far it is; of each comparison by diagrams it is told before that begins.
/// Where it is given up, the outputs that are left, which aren't known to be equal then, are told
/// in `left`, with what was seen of one that differs. The errors are `NodeLimit` (71), also where
/// operations took too many turns, `Memory` (72), `References` (73), and `Threads` (74) where a
/// thread could not be started.
pub fn decide_pair<R: Threads + Wait + Sync, P: Progress<R> + Sync>(
    comparison: &Comparison<'_, R, P>,
    alike: &mut Alike,
    left: &mut Undecided,
) -> Result<Report, Stop>
    requires options { options_code comparison.now.options.now ≡ None }
    requires known { IsKnown comparison.now.pair.now alike.old }
    ensures report { IfOk result (λ report. report_of report ≡ pair_report comparison.now.options.now.every comparison.now.pair.now) }
    ensures known { IsKnown comparison.now.pair.now alike.new }
    ensures kept { KeepsMarks comparison.now.pair.now alike.old.equal.items alike.new.equal.items }
    ensures seen { IsLeftOf comparison.now.pair.now left.old → IsLeftOf comparison.now.pair.now left.new }
    ensures told { IfOk result (λ _. KeepsTold left.old left.new) }
    ensures left { IfErr result (λ _. IsTold comparison.now.pair.now alike.new.equal.items left.new.left) }
{
    let report = match first_diagrams(comparison, alike) {
        Err(Stop::NodeLimit) => behind_first(comparison, alike, left),
        report => report,
    };
    match report {
        Ok(report) => Ok(report),
        Err(stop) => {
            left.take_unmarked(comparison.pair, &alike.equal);
            Err(stop)
        }
    }
}
