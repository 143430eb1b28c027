//! Reports by workers: outputs that differ, found by members in threads of their own.
ghost use Rattle.std.specs.Prelude.{◌≡◌, ◌<◌, ◌≤◌, IsTrue, None, length, vec_len, IfOk, IfErr};
ghost use Rattle.std.specs.List.{All};
ghost use Rattle.eqc_tree.specs.Holding.{Holding};
ghost use Rattle.eqc_compare.specs.Alike.{AreEqual, IsKnown};
ghost use Rattle.eqc_report.specs.PairReport.{pair_report};
ghost use Rattle.eqc_report.specs.ReportView.{report_of};
ghost use Rattle.eqc_report.specs.Options.{options_code};

use crate::watched::{Watched, all_watched};
use eqc_apply::{Allowance, Applier, team_with};
use eqc_compare::{Alike, Gate, Progress, compare_known, is_settled};
use eqc_pair::Pair;
use eqc_parallel::{Patience, Request, compare_by_members};
use eqc_plain::Plain;
use eqc_report::{Options, Report, found_report};
use eqc_tree::{Diagrams, References, Stop};
use std::alloc::Global;
use std::sync::Wait;
use std::thread::Threads;

/// The report by these members, of whom this is asked, or why it stopped.
fn check_known<R: Threads + Wait + Sync, D: Diagrams<R> + Send + Drop, G: Gate<R> + Sync>(
    rt: &R,
    alloc: Global,
    pair: &Pair<'_>,
    request: Request,
    members: Vec<D>,
    gate: &G,
) -> Result<Report, Stop>
    requires some { 1 ≤ vec_len members }
    requires variables { All (λ d. length pair.now.first.inputs ≤ (D.holding d).variables) members.items }
    requires known { IsKnown pair.now request.alike }
    ensures report { IfOk result (λ report. report_of report ≡ pair_report request.every pair.now) }
{
    let every = request.every;
    let outcome = compare_by_members(rt, alloc, pair, request, members, gate)?;
    found_report(alloc, pair, every, outcome)
}

/// Compares a pair by these members, of which each runs in a thread of its own: the report, or why
/// it stopped.
///
/// There is at least one member, and each has at least as many variables as the pair has inputs;
/// they are consumed. The first is asked whether the assumption, if there is one, allows an
/// assignment, before any output is drawn. The gate is told of each comparison before it begins.
/// With `every` each output that differs is told. Else the first alone is, and a member that has
/// found a difference compares no later output. One that has drawn its last helps the others. The
/// call may wait, since it waits for all members, and for the gate.
///
/// The errors are those of the members' diagrams, `NodeLimit`, `Memory` and `References`; `Memory`
/// also where memory is refused; and `Threads` where a thread could not be started. Where several
/// came it is one of them.
pub fn check_with<R: Threads + Wait + Sync, D: Diagrams<R> + Send + Drop, G: Gate<R> + Sync>(
    rt: &R,
    alloc: Global,
    pair: &Pair<'_>,
    every: bool,
    members: Vec<D>,
    gate: &G,
) -> Result<Report, Stop>
    requires some { 1 ≤ vec_len members }
    requires variables { All (λ d. length pair.now.first.inputs ≤ (D.holding d).variables) members.items }
    ensures report { IfOk result (λ report. report_of report ≡ pair_report every pair.now) }
{
    let request = Request {
        every,
        alike: Alike::nothing(alloc),
        patience: Patience::short(),
    };
    check_known(rt, alloc, pair, request, members, gate)
}

/// The most nodes of the store of one thread in which a run's comparison begins, but for a pair of
/// some inputs and few outputs. None is laid out before it is needed, and none is taken back: most
/// comparisons end there before a forest would have begun.
const FIRST_NODES: u32 = 524_288;

/// Who allows as many nodes for all workers, which is the usual number, gets them in the larger
/// room on one thread, too.
const USUAL_NODES: u32 = 65_536;

/// How many turns operations in it may take beyond the free ones: what isn't decided by then is
/// better tried in other ways first.
const FIRST_TURNS: u64 = 1_048_576;

/// How many a worker's may take in the forest that the options ask for, and how many more for each
/// of its nodes: an operation on two large diagrams may take as many as the product of their sizes,
/// also where its result is small and the forest never full. A run that can't be decided ends then
/// all the same.
const TURNS: u64 = 8_388_608;

const TURNS_PER_NODE: u64 = 8;

/// A pair that is compared, what that may use, and what is told of it.
#[derive(Drop)]
pub struct Comparison<'x, R, P> {
    /// The runtime that starts threads and lets them wait.
    pub rt: &'x R,
    pub alloc: Global,
    pub pair: &'x Pair<'x>,
    pub options: &'x Options,
    /// Told how far the comparison is.
    pub watch: &'x P,
}

/// Diagrams over so few inputs mostly fit into the larger room, which is then the first one.
const FEW_INPUTS: usize = 20;

/// So few outputs may have more nodes in the larger room: of many outputs those that fill it mostly
/// are some of several that would.
const FEW_OUTPUTS: usize = 4;

/// Over so few, operations in the larger room may take so many turns.
const SOME_INPUTS: usize = 40;

const LARGE_TURNS: u64 = 8_388_608;

/// The first room of a pair of no more than these inputs has so many nodes at least: those that the
/// usual number doesn't hold take less time than a round of sweeping.
const SOME_NODES: u32 = 131_072;

/// Over so many inputs diagrams are thin where they fit at all, and each operation makes them anew:
/// one worker goes on behind the larger room, which such diagrams fill with dead nodes.
const MANY_INPUTS: usize = 400;

/// The most nodes that there can be: in the larger room of a pair of some inputs and few outputs,
/// and in the forest in which one worker goes on where that is full of dead ones. For a pair of
/// many inputs that forest has so many as stay in the caches of a processor.
const MOST_NODES: u32 = 1_048_574;

const THIN_NODES: u32 = 65_536;

/// How many turns it may take there.
const ALONE_TURNS: u64 = 16_777_216;

/// The least nodes of the first room for a pair of so many inputs, where the options allow the
/// usual number.
fn least_nodes(inputs: usize) -> u32
    ensures { 1 ≤ result }
{
    if inputs <= FEW_INPUTS {
        FIRST_NODES
    } else if inputs <= SOME_INPUTS {
        SOME_NODES
    } else {
        USUAL_NODES
    }
}

/// The nodes of the largest room on one thread. What few outputs over few inputs need mostly fits
/// there, and is seldom found sooner in another way.
fn largest_nodes(pair: &Pair<'_>) -> u32
    ensures some { 1 ≤ result }
    ensures most { result ≤ 1048574 }
{
    if has_some_inputs(pair) && pair.first().outputs().len() <= FEW_OUTPUTS {
        MOST_NODES
    } else {
        FIRST_NODES
    }
}

/// The nodes of the first room: as many as the options allow, but more for a pair of few inputs.
/// Who allows fewer than is usual gets no more than that.
pub(crate) fn first_nodes(pair: &Pair<'_>, options: &Options) -> u32
    requires { options_code options.now ≡ None }
    ensures some { 1 ≤ result }
    ensures few { options.now.nodes < 65536 → result ≤ options.now.nodes }
{
    if options.nodes < USUAL_NODES {
        return options.nodes;
    }
    let least = least_nodes(pair.first().inputs().len());
    options.nodes.max(least)
}

/// Whether there are so few inputs that diagrams which are looked for long are mostly found.
pub(crate) fn has_some_inputs(pair: &Pair<'_>) -> bool {
    pair.first().inputs().len() <= SOME_INPUTS
}

/// How many turns operations may take in the larger room.
fn large_turns(pair: &Pair<'_>) -> u64 {
    if has_some_inputs(pair) {
        LARGE_TURNS
    } else {
        FIRST_TURNS
    }
}

/// Whether there are so many inputs that diagrams are thin where they fit.
pub(crate) fn has_many_inputs(pair: &Pair<'_>) -> bool {
    pair.first().inputs().len() >= MANY_INPUTS
}

/// Whether there is a larger room than the first one was: not for who allows fewer nodes than is
/// usual.
pub(crate) fn has_large_room(pair: &Pair<'_>, options: &Options) -> bool
    requires { options_code options.now ≡ None }
    ensures { IsTrue result → 65536 ≤ options.now.nodes }
{
    options.nodes >= USUAL_NODES && first_nodes(pair, options) < largest_nodes(pair)
}

/// Whether one worker goes on alone behind that: not for who allows fewer nodes than is usual.
/// Pairs of real flows whose diagrams don't fit mostly have neither few inputs nor very many.
pub(crate) fn goes_on_alone(pair: &Pair<'_>, options: &Options) -> bool
    ensures { IsTrue result → 65536 ≤ options.now.nodes }
{
    options.nodes >= USUAL_NODES && (has_some_inputs(pair) || has_many_inputs(pair))
}

/// The store of a room on one thread, with a variable for each input of a pair. It has no more
/// nodes than this.
fn first_store(alloc: Global, pair: &Pair<'_>, nodes: u32, turns: u64) -> Result<Plain, Stop>
    requires { 1 ≤ nodes }
    ensures nodes { IfOk result (λ p. p.store.limit ≤ nodes) }
    ensures variables { IfOk result (λ p. length pair.now.first.inputs ≤ (⟦<Plain as References>⟧.holding p).variables) }
    ensures only { IfErr result (λ s. s ≡ Stop.Memory) }
{
    pair.recall_laws();
    let inputs = pair.first().inputs().len() as u16;
    let nodes = nodes.min(largest_nodes(pair));
    Plain::with_turns(alloc, inputs, nodes, Some(turns))
}

/// How many of so many workers are needed where they share no operations: as many as there are
/// outputs to compare. Who draws none does nothing, and for its sake the others would put results
/// into the shared cells.
fn needed_workers(pair: &Pair<'_>, equal: &[bool], workers: u32) -> u32
    requires equal { AreEqual pair.now equal.now }
    requires some { 1 ≤ workers }
    ensures some { 1 ≤ result }
    ensures most { result ≤ workers }
{
    let mut open = 0;
    for output in 0..pair.first().outputs().len() {
        if open < workers && !is_settled(pair, equal, output) {
            open += 1;
        }
    }
    open.max(1).min(workers)
}

/// The options without the workers that aren't needed for a pair of which these outputs are known
/// to be equal.
fn needed_options(pair: &Pair<'_>, equal: &[bool], options: &Options) -> Options
    requires equal { AreEqual pair.now equal.now }
    requires options { options_code options.now ≡ None }
    ensures options { options_code result ≡ None }
{
    if options.forks > 0 {
        return *options;
    }
    let workers = needed_workers(pair, equal, options.workers);
    Options {
        workers,
        ..*options
    }
}

/// The team of workers that the options ask for, with a variable for each input of a pair: they
/// share one forest, and as many levels of an operation as there are forks, and each of them may
/// take so many turns.
fn team_for(
    alloc: Global,
    pair: &Pair<'_>,
    options: &Options,
    turns: Option<u64>,
) -> Result<Vec<Applier>, Stop>
    requires { options_code options.now ≡ None }
    ensures some { IfOk result (λ all. 1 ≤ vec_len all) }
    ensures variables { IfOk result (λ all. All (λ a. length pair.now.first.inputs ≤ (⟦<Applier as References>⟧.holding a).variables) all.items) }
    ensures only { IfErr result (λ s. s ≡ Stop.Memory) }
{
    pair.recall_laws();
    let Options {
        workers,
        nodes,
        cells,
        forks,
        ..
    } = *options;
    let inputs = pair.first().inputs().len() as u16;
    let allowance = Allowance { anew: true, turns };
    team_with(alloc, inputs, nodes, cells, workers, forks, allowance)
}

/// The report by diagrams on this thread, in a store of so many nodes at most, where this is known
/// of the pair, or why it stopped. Where the options allow fewer nodes than is usual it has no more
/// than they do. A store that is full is left at once: what was given back there makes no room. The
/// gate is told of each comparison, and the watch of the nodes in use behind each operation.
pub(crate) fn check_first<R, P: Progress<R>, G: Gate<R>>(
    comparison: &Comparison<'_, R, P>,
    alike: Alike,
    nodes: u32,
    gate: &G,
) -> Result<Report, Stop>
    requires nodes { 1 ≤ nodes }
    requires few { comparison.now.options.now.nodes < 65536 → nodes ≤ comparison.now.options.now.nodes }
    requires known { IsKnown comparison.now.pair.now alike }
    ensures report { IfOk result (λ report. report_of report ≡ pair_report comparison.now.options.now.every comparison.now.pair.now) }
{
    let Comparison {
        rt,
        alloc,
        pair,
        options,
        watch,
    } = *comparison;
    let every = options.every;
    let turns = if nodes >= FIRST_NODES {
        large_turns(pair)
    } else {
        FIRST_TURNS
    };
    let mut store = Watched {
        diagrams: first_store(alloc, pair, nodes, turns)?,
        watch,
    };
    let outcome = compare_known(alloc, rt, &mut store, pair, every, alike, false, gate)?;
    found_report(alloc, pair, every, outcome)
}

/// How many turns each worker of a team may take. Workers that share operations take them for one
/// another, so all of them together may take twice what one may: else a run that can't be decided
/// would take as many times longer as there are workers.
fn turns_for(options: &Options) -> u64
    requires { options_code options.now ≡ None }
{
    let alone = TURNS + TURNS_PER_NODE * u64::from(options.nodes);
    if options.forks == 0 {
        alone
    } else {
        alone * 2 / u64::from(options.workers.max(2))
    }
}

/// The report by a team of as many workers as these options say, of which each may take so many
/// turns, where this is known of the pair, or why it stopped. The watch is told as in the first
/// room.
fn check_team<R: Threads + Wait + Sync, P: Progress<R> + Sync>(
    comparison: &Comparison<'_, R, P>,
    alike: Alike,
    options: &Options,
    turns: u64,
) -> Result<Report, Stop>
    requires options { options_code options.now ≡ None }
    requires known { IsKnown comparison.now.pair.now alike }
    ensures report { IfOk result (λ report. report_of report ≡ pair_report comparison.now.options.now.every comparison.now.pair.now) }
{
    let Comparison {
        rt,
        alloc,
        pair,
        watch,
        ..
    } = *comparison;
    let team = team_for(alloc, pair, options, Some(turns))?;
    let members = all_watched(alloc, team, watch)?;
    let request = Request {
        every: comparison.options.every,
        alike,
        patience: Patience::of_forks(options.forks),
    };
    check_known(rt, alloc, pair, request, members, watch)
}

/// The options with one worker alone, which has so many nodes.
fn alone_options(options: &Options, nodes: u32) -> Options
    requires options { options_code options.now ≡ None }
    requires some { 1 ≤ nodes }
    requires most { nodes ≤ 1048574 }
    ensures options { options_code result ≡ None }
    ensures alone { result.workers ≡ 1 }
    ensures nodes { result.nodes ≡ nodes }
{
    Options {
        workers: 1,
        forks: 0,
        nodes,
        ..*options
    }
}

/// The report by one worker in a forest of so many nodes, where this is known of the pair, or why
/// it stopped. Dead nodes are taken back there, so it goes on where a store of one thread is full
/// of them.
fn check_alone<R: Threads + Wait + Sync, P: Progress<R> + Sync>(
    comparison: &Comparison<'_, R, P>,
    alike: Alike,
    nodes: u32,
) -> Result<Report, Stop>
    requires options { options_code comparison.now.options.now ≡ None }
    requires some { 1 ≤ nodes }
    requires most { nodes ≤ 1048574 }
    requires few { comparison.now.options.now.nodes < 65536 → nodes ≤ comparison.now.options.now.nodes }
    requires known { IsKnown comparison.now.pair.now alike }
    ensures report { IfOk result (λ report. report_of report ≡ pair_report comparison.now.options.now.every comparison.now.pair.now) }
{
    let alone = alone_options(comparison.options, nodes);
    check_team(comparison, alike, &alone, ALONE_TURNS)
}

/// The nodes that one worker has behind the larger room.
fn alone_nodes(pair: &Pair<'_>) -> u32
    ensures some { 1 ≤ result }
    ensures most { result ≤ 1048574 }
{
    if has_some_inputs(pair) {
        MOST_NODES
    } else {
        THIN_NODES
    }
}

/// The report by diagrams in the larger room, where this is known of the pair, or why it stopped.
pub(crate) fn check_in_large<R, P: Progress<R>>(
    comparison: &Comparison<'_, R, P>,
    alike: &Alike,
) -> Result<Report, Stop>
    requires options { options_code comparison.now.options.now ≡ None }
    requires usual { 65536 ≤ comparison.now.options.now.nodes }
    requires known { IsKnown comparison.now.pair.now alike.now }
    ensures report { IfOk result (λ report. report_of report ≡ pair_report comparison.now.options.now.every comparison.now.pair.now) }
{
    let alike = alike.clone()?;
    let nodes = largest_nodes(comparison.pair);
    check_first(comparison, alike, nodes, comparison.watch)
}

/// Whether a store was full, or the turns of its operations spent.
pub(crate) fn is_full(report: &Result<Report, Stop>) -> bool {
    matches!(report, Err(Stop::NodeLimit))
}

/// The report by the team that the options ask for, without workers that aren't needed, where this
/// is known of the pair, or why it stopped. It is given up as the turns of one of its workers are
/// spent. Workers that share a store have diagrams of their own in it, so where it is full one
/// worker has it alone: what one decides several decide as well.
pub(crate) fn check_by_team<R: Threads + Wait + Sync, P: Progress<R> + Sync>(
    comparison: &Comparison<'_, R, P>,
    alike: &Alike,
) -> Result<Report, Stop>
    requires options { options_code comparison.now.options.now ≡ None }
    requires known { IsKnown comparison.now.pair.now alike.now }
    ensures report { IfOk result (λ report. report_of report ≡ pair_report comparison.now.options.now.every comparison.now.pair.now) }
{
    let Comparison { pair, options, .. } = *comparison;
    let needed = needed_options(pair, &alike.equal, options);
    let again = alike.clone()?;
    let report = check_team(comparison, again, &needed, turns_for(options));
    if needed.workers == 1 || !is_full(&report) {
        return report;
    }
    let Ok(again) = alike.clone() else {
        return report;
    };
    let alone = alone_options(options, options.nodes);
    check_team(comparison, again, &alone, turns_for(&alone))
}

/// The report by diagrams of one worker alone, who takes dead nodes back, where this is known of
/// the pair, or why it stopped.
pub(crate) fn check_by_one<R: Threads + Wait + Sync, P: Progress<R> + Sync>(
    comparison: &Comparison<'_, R, P>,
    alike: &Alike,
) -> Result<Report, Stop>
    requires options { options_code comparison.now.options.now ≡ None }
    requires usual { 65536 ≤ comparison.now.options.now.nodes }
    requires known { IsKnown comparison.now.pair.now alike.now }
    ensures report { IfOk result (λ report. report_of report ≡ pair_report comparison.now.options.now.every comparison.now.pair.now) }
{
    let again = alike.clone()?;
    check_alone(comparison, again, alone_nodes(comparison.pair))
}

/// Compares a pair by as many workers as the options say, each in a thread of its own: they share
/// one forest of `nodes` nodes and one operation cache of `cells` cells. In the first `forks`
/// levels of an operation one half is offered to members that have nothing to do. Gives the report,
/// or why it stopped.
///
/// The options are in their ranges. The gate is told of each comparison before it begins. The call
/// may wait, as `check_with` may. The errors are `NodeLimit` (71), `Memory` (72), `References`
/// (73), and `Threads` where a thread could not be started. It takes as long as it needs: only
/// a run is given up where its operations take too many turns.
pub fn check<R: Threads + Wait + Sync, G: Gate<R> + Sync>(
    rt: &R,
    alloc: Global,
    pair: &Pair<'_>,
    options: &Options,
    gate: &G,
) -> Result<Report, Stop>
    requires { options_code options.now ≡ None }
    ensures report { IfOk result (λ report. report_of report ≡ pair_report options.now.every pair.now) }
{
    let members = team_for(alloc, pair, options, None)?;
    let request = Request {
        every: options.every,
        alike: Alike::nothing(alloc),
        patience: Patience::of_forks(options.forks),
    };
    check_known(rt, alloc, pair, request, members, gate)
}
