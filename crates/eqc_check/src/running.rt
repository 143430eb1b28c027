//! Runs: texts are read, a report is decided on and written, and why it is a refusal is told where
//! that is wanted.
ghost use Rattle.std.specs.Prelude.{◌≡◌, ◌≢◌, IfOk, IfErr, OnErr, Ok, Err, None};
ghost use Rattle.eqc_report.specs.ReportView.{report_of};
ghost use Rattle.eqc_report.specs.Options.{options_code};
ghost use Rattle.eqc_report.specs.Written.{IsWritten, IsCutShort};
ghost use Rattle.eqc_case.specs.Left.{IsNoneTold, IsLeftBeside};
ghost use Rattle.eqc_case.specs.Running.{unnamed, IsReportFor, IsAnswered, IsCutOff, IsKept};
ghost use Rattle.eqc_case.specs.Sources.{HasTextOf};
ghost use Rattle.eqc_case.specs.Warning.{warnings_at, IsWarned, WarnsOfKnown};

use crate::decide::decide;
use eqc_case::{
    Case, Diagnostics, Given, ModelNames, NoDiagnostics, OutputNames, Texts, Told, Unread,
    Warnings, border_in_case, locate_in_case, read_given, tell_of_case,
};
use eqc_compare::{NoGate, Progress, Stage};
use eqc_pair::{Refused, Side};
use eqc_report::{
    Differences, Options, Report, RunFault, Status, StreamFault, Undecided, options_fault,
    write_or_stop,
};
use eqc_tree::Stop;
use std::alloc::Global;
use std::io;
use std::io::{Read, Write};
use std::sync::Wait;
use std::thread::Threads;

/// Why a text could not be read.
#[derive(Drop)]
struct FailedRead {
    side: Side,
    error: io::Error,
}

/// What a run reports, and what was read for it.
#[derive(Drop)]
struct Reported<'a> {
    told: Told,
    /// The outputs that are left, where it is a stop.
    left: Undecided,
    case: Option<Case<'a>>,
}

impl<'a> Reported<'a> {
    /// A report that compares nothing, and for which nothing was read.
    fn alone(alloc: Global, report: Report) -> Reported<'a>
        ensures report { result.told.report ≡ report }
        ensures left { IsNoneTold result.left }
        ensures case { result.case ≡ None }
    {
        Reported {
            told: Told::alone(report),
            left: Undecided::none(alloc),
            case: None,
        }
    }
}

/// The report of a run with its warnings: a refusal of its options before any text is read, else
/// that on its texts. What was read is kept with it, and where it is a stop, the outputs of the
/// pair of that which are left. A read that fails is that of a text that is given.
fn report_for<'a, RT: Threads + Wait + Sync, R: Read + Drop, P: Progress<RT> + Sync>(
    rt: &RT,
    alloc: Global,
    given: Given<'a, R>,
    watch: &P,
) -> Result<Reported<'a>, FailedRead>
    ensures report { IfOk result (λ reported. IsReportFor R.remaining given.entry (report_of reported.told.report)) }
    ensures warned { IfOk result (λ reported. WarnsOfKnown R.remaining given.entry (report_of reported.told.report) reported.told.warnings) }
    ensures read { OnErr result (options_code given.entry.options ≡ None) }
    ensures side { IfErr result (λ failed. HasTextOf given.entry failed.side) }
    ensures kept { IfOk result (λ reported. IsKept R.remaining given.entry reported.told.report reported.left reported.case) }
{
    match options_fault(&given.options) {
        None => {}
        Some(code) => {
            let (side, line) = (Side::Options, 0);
            let refused = Refused { side, line, code };
            return Ok(Reported::alone(alloc, Report::Refused(refused)));
        }
    }
    watch.stage(rt, Stage::Reading);
    let case = match read_given(alloc, given) {
        Ok(case) => case,
        Err(
            Unread {
                side,
                fault: StreamFault::Failed(error),
            },
        ) => return Err(FailedRead { side, error }),
        Err(_) => return Ok(Reported::alone(alloc, Report::Stopped(Stop::Memory))),
    };
    let mut left = Undecided::none(alloc);
    let told = Told::of(decide(rt, alloc, &case, &mut left, watch));
    Ok(Reported {
        told,
        left,
        case: Some(case),
    })
}

/// A run whose report was written: the kind of the report, and what is to be warned of.
#[derive(Drop)]
pub struct Finished {
    pub status: Status,
    pub warnings: Warnings,
}

/// Tells where differences begin, if that is wanted.
fn tell_places<T: Diagnostics>(
    alloc: Global,
    reported: &Reported<'_>,
    differences: &Differences,
    told: &mut T,
) {
    if !told.wants_places() {
        return;
    }
    if let Some(case) = &reported.case {
        if locate_in_case(alloc, case, differences, told).is_err() {
            told.unlocated();
        }
    }
}

/// Tells which outputs are left where a run was stopped for this, of what was read for it, and up
/// to where equality is known below them, if that is wanted and there are any. Where nothing was
/// read none is left.
fn tell_left<T: Diagnostics>(alloc: Global, stop: Stop, reported: &Reported<'_>, told: &mut T)
    requires { IsLeftBeside reported.now.case (Report.Stopped stop) reported.now.left }
{
    let Some(case) = &reported.case else {
        return;
    };
    told.undecided(stop, case, &reported.left);
    let left = reported.left.left();
    if left.count > 0 && told.wants_border() && border_in_case(alloc, case, left, told).is_err() {
        told.unlocated();
    }
}

/// Tells why a report is a refusal or a stop, or where its differences begin. Where memory is
/// refused for it, nothing is told.
fn tell<T: Diagnostics>(alloc: Global, reported: &Reported<'_>, told: &mut T)
    requires { IsLeftBeside reported.now.case reported.now.told.report reported.now.left }
{
    match &reported.told.report {
        Report::Equivalent => {}
        Report::Differs(differences) => tell_places(alloc, reported, differences, told),
        Report::Vacuous => told.vacuous(),
        Report::Stopped(stop) => {
            told.stopped(*stop);
            tell_left(alloc, *stop, reported, told);
        }
        Report::Refused(refused) => match &reported.case {
            None => told.option(refused.code),
            Some(case) => {
                let _ = tell_of_case(alloc, case, told);
            }
        },
    }
}

/// Writes what a run reports, and then tells why it is a refusal or a stop, or could not be
/// written, if that is wanted.
fn finish<W: Write, T: Diagnostics>(
    alloc: Global,
    reported: Reported<'_>,
    out: &mut W,
    told: Option<&mut T>,
) -> Result<Finished, RunFault>
    requires left { IsLeftBeside reported.case reported.told.report reported.left }
    ensures written { IfOk result (λ finished. IsWritten (report_of reported.entry.told.report) (W.contents out.old) (W.contents out.new) finished.status) }
    ensures warned { IfOk result (λ finished. finished.warnings ≡ warnings_at finished.status reported.entry.told.warnings) }
    ensures part { OnErr result (IsCutShort (report_of reported.entry.told.report) (W.contents out.old) (W.contents out.new)) }
    ensures write { IfErr result (λ fault. fault ≡ RunFault.Write) }
{
    match write_or_stop(alloc, &reported.told.report, out) {
        Ok(status) => {
            if let Some(told) = told {
                tell(alloc, &reported, told);
            }
            let warnings = reported.told.warnings.at(status);
            Ok(Finished { status, warnings })
        }
        Err(error) => {
            if let Some(told) = told {
                told.unwritten(&error);
            }
            Err(RunFault::Write)
        }
    }
}

#[tactic(auto, using(eqc_tree::proofs::HoldingLemmas::counts_itself, eqc_case::proofs::RunLaws::kept_beside))]
/// Compares two netlists and writes the report, as `run_models` does. Why it is a refusal or a
/// stop, or could not be made or written, is told afterwards, if that is wanted.
///
/// The watch is told how far the run is: of each stage as it begins, of `Writing` before anything
/// is written or told, and of each comparison by diagrams before that begins.
pub fn run_explained<
    RT: Threads + Wait + Sync,
    R: Read + Drop,
    W: Write,
    T: Diagnostics,
    P: Progress<RT> + Sync,
>(
    rt: &RT,
    alloc: Global,
    given: Given<'_, R>,
    out: &mut W,
    told: Option<&mut T>,
    watch: &P,
) -> Result<Finished, RunFault>
    ensures answered { IfOk result (λ finished. IsAnswered R.remaining given.entry (W.contents out.old) (W.contents out.new) finished.status) }
    ensures warned { IfOk result (λ finished. IsWarned R.remaining given.entry finished.status finished.warnings) }
    ensures write { result ≡ Err RunFault.Write → IsCutOff R.remaining given.entry (W.contents out.old) (W.contents out.new) }
    ensures read { result ≡ Err RunFault.Read → (options_code given.entry.options ≡ None) × (out.new ≡ out.old) }
    ensures memory { IfErr result (λ fault. fault ≢ RunFault.Memory) }
{
    let reported = report_for(rt, alloc, given, watch);
    watch.stage(rt, Stage::Writing);
    match reported {
        Ok(reported) => finish(alloc, reported, out, told),
        Err(failed) => {
            if let Some(told) = told {
                told.unread(failed.side, &failed.error);
            }
            Err(RunFault::Read)
        }
    }
}

/// Compares two netlists and writes the report, as `run` does, and chooses the models and the
/// outputs by their names where these are given. Outputs that are not chosen are not compared, and
/// nothing is built for them.
///
/// Each name is looked up in the models of its text, both in those of a single text. Where there is
/// no model of a name, the report is the refusal of that side with code 13. Without a name the
/// place decides: of one text the first model and the second, whatever the other side's name is,
/// and of two texts the first of each.
///
/// Where the report is a verdict, `equivalent` or that an output differs, the answer has a warning
/// for each compared model that a model of its text contains which isn't compared.
pub fn run_models<RT: Threads + Wait + Sync, R: Read + Drop, W: Write>(
    rt: &RT,
    alloc: Global,
    given: Given<'_, R>,
    out: &mut W,
) -> Result<Finished, RunFault>
    ensures answered { IfOk result (λ finished. IsAnswered R.remaining given.entry (W.contents out.old) (W.contents out.new) finished.status) }
    ensures warned { IfOk result (λ finished. IsWarned R.remaining given.entry finished.status finished.warnings) }
    ensures write { result ≡ Err RunFault.Write → IsCutOff R.remaining given.entry (W.contents out.old) (W.contents out.new) }
    ensures read { result ≡ Err RunFault.Read → (options_code given.entry.options ≡ None) × (out.new ≡ out.old) }
    ensures memory { IfErr result (λ fault. fault ≢ RunFault.Memory) }
{
    run_explained::<RT, R, W, NoDiagnostics, NoGate>(rt, alloc, given, out, None, &NoGate)
}

/// Compares two netlists and writes the report: the first two models of one text, or the main
/// models of two, over the variable order of an order text or, without one, the order in which the
/// first netlist declares its inputs. Where there is an assumption, the first model of its text,
/// only assignments count under which its one output is 1.
///
/// The options are looked at first, and where one is out of its range no text is read. Else the
/// texts are read whole: the first, the second, the order text, the assumption's. A read that fails
/// is `Read`, 91, and then nothing is written. Want of memory anywhere before the writing is
/// reported as `stopped 72`. A write that fails or takes nothing, or a flush that fails, is
/// `Write`, 92, and then a part of a report was written. Nothing is tried again. The answer is the
/// kind of the report.
///
/// It begins on one thread, as many pairs end there. Threads are started where the options have
/// several workers and outputs are left: with fewer than 1,024 nodes at once, and else where the
/// store of one thread is full or its operations took too many turns. Then as many compare as the
/// options have workers, without forks no more than there are outputs to compare; searches for
/// differences have as many too, and so have the questions of sweeping, a few for each. The call
/// may wait, for them. The report is the same for every number of workers, and where they were
/// stopped its code is from 71 to 74.
pub fn run<RT: Threads + Wait + Sync, R: Read + Drop, W: Write>(
    rt: &RT,
    alloc: Global,
    texts: Texts<R>,
    order: Option<R>,
    assume: Option<R>,
    options: &Options,
    out: &mut W,
) -> Result<Status, RunFault>
    ensures answered { IfOk result (λ status. IsAnswered R.remaining (unnamed texts order assume options.now) (W.contents out.old) (W.contents out.new) status) }
    ensures write { result ≡ Err RunFault.Write → IsCutOff R.remaining (unnamed texts order assume options.now) (W.contents out.old) (W.contents out.new) }
    ensures read { result ≡ Err RunFault.Read → (options_code options.now ≡ None) × (out.new ≡ out.old) }
    ensures memory { IfErr result (λ fault. fault ≢ RunFault.Memory) }
{
    let given = Given {
        texts,
        names: ModelNames::none(),
        order,
        assume,
        outputs: OutputNames::none(),
        options: *options,
    };
    match run_models(rt, alloc, given, out) {
        Ok(finished) => Ok(finished.status),
        Err(fault) => Err(fault),
    }
}
