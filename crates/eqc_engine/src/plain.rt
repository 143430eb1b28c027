//! The report on a pair, by one thread.
ghost use Rattle.std.specs.Prelude.{◌≡◌, ◌≢◌, ◌≤◌, IfOk, IfErr};
ghost use Rattle.eqc_compare.specs.Comparing.{IsOutcome};
ghost use Rattle.eqc_report.specs.PairReport.{pair_report};
ghost use Rattle.eqc_report.specs.ReportView.{report_of};

use eqc_compare::{Outcome, compare_outputs};
use eqc_pair::Pair;
use eqc_plain::Plain;
use eqc_report::{Report, found_report};
use eqc_tree::Stop;
use std::alloc::Global;

/// What is found of a pair over a new store of `nodes` nodes.
fn compare_plain<R>(
    rt: &R,
    alloc: Global,
    pair: &Pair<'_>,
    every: bool,
    nodes: u32,
) -> Result<Outcome, Stop>
    requires some { 1 ≤ nodes }
    requires few { nodes ≤ 1048574 }
    ensures found { IfOk result (IsOutcome pair.now every) }
    ensures only { IfErr result (λ s. s ≢ Stop.Threads) }
{
    pair.recall_laws();
    let inputs = pair.first().inputs().len() as u16;
    let mut d = Plain::new(alloc, inputs, nodes)?;
    compare_outputs(alloc, rt, &mut d, pair, every)
}

/// Compares a pair on this thread with a store of `nodes` nodes, 1 to 1,048,574: the report, or why
/// it stopped: `NodeLimit`, `Memory` or `References`. Whether the assumption, if
/// there is one, allows an assignment is asked first. With `every` each output that differs is
/// told, and else the first alone.
pub fn check_plain<R>(
    rt: &R,
    alloc: Global,
    pair: &Pair<'_>,
    every: bool,
    nodes: u32,
) -> Result<Report, Stop>
    requires some { 1 ≤ nodes }
    requires few { nodes ≤ 1048574 }
    ensures report { IfOk result (λ report. report_of report ≡ pair_report every pair.now) }
    ensures only { IfErr result (λ s. s ≢ Stop.Threads) }
{
    let outcome = compare_plain(rt, alloc, pair, every, nodes)?;
    found_report(alloc, pair, every, outcome)
}
