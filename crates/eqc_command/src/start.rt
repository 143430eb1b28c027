//! The program over readers and writers.
ghost use Rattle.std.specs.Prelude.{◌≡◌, ◌↔◌, IfSome, IsSome, IsTrue, map, string_bytes};
ghost use Rattle.std.specs.Option.{option_copied, option_map};
ghost use Rattle.std.specs.Thread.{IsSync};
ghost use Rattle.clap.specs.Values.{kind_of};
ghost use Rattle.eqc_command.specs.Ends.{names_of, given_by, is_explained, IsRun, IsRunEnd, MayBeExplained, IsShowing, IsHelpEnd, IsEnd, IsDone};

use crate::ending::{End, tell};
use crate::source::{Source, Sources, Unopened, open};
use clap::Error;
use clap::error::ErrorKind;
use eqc_check::{
    Finished, Given, ModelNames, NoGate, OutputNames, RunFault, run_explained, write_text,
};
use eqc_telling::{Explanation, Watch, explanation_for, warn};
use eqc_words::{Request, read_words};
use std::alloc::{AllocError, Global};
use std::io::{Read, Write};
use std::rt::{Clock, Files};
use std::sync::Wait;
use std::thread::{Threads, join_mut};

/// Whether an error is a request for help or for the version.
fn is_showing(error: &Error) -> bool
    ensures { IsTrue result ↔ IsShowing (kind_of error.now) }
{
    let kind = error.kind();
    kind == ErrorKind::DisplayHelp || kind == ErrorKind::DisplayVersion
}

/// Writes the help or the version.
fn write_help<W: Write>(alloc: Global, help: Error, out: &mut W) -> End
    ensures { IsHelpEnd (W.contents out.old) (W.contents out.new) result }
{
    let Ok(text) = format!(in alloc; "{help}") else {
        return End::BadWords(Error::from(AllocError));
    };
    match write_text(out, text.as_bytes()) {
        Ok(()) => End::Helped,
        Err(_) => End::Failed(RunFault::Write),
    }
}

/// The bytes of a text that may be missing.
fn bytes_of<'a>(text: Option<&'a str>) -> Option<&'a [u8]>
    ensures { option_copied result ≡ option_map (λ s. s.now) text.entry }
{
    match text {
        Some(text) => Some(text.as_bytes()),
        None => None,
    }
}

/// The names of the models that are asked for.
fn names_of<'a>(request: &Request<'a>) -> ModelNames<'a>
    ensures { result ≡ names_of request.now }
{
    ModelNames {
        first: bytes_of(request.first_model),
        second: bytes_of(request.second_model),
    }
}

/// What a run is given by a request and its sources.
fn given_by<'x, 'a, R, F>(
    request: &'x Request<'a>,
    sources: Sources<'a, R, F>,
) -> Given<'x, Source<'a, R, F>>
    ensures { result ≡ given_by request.now sources.entry }
{
    Given {
        texts: sources.texts,
        names: names_of(request),
        order: sources.order,
        assume: sources.assume,
        outputs: OutputNames {
            names: &request.outputs,
        },
        options: request.options,
    }
}

/// Whether it is to be explained why there is no verdict, or where differences begin.
fn is_explained(request: &Request<'_>) -> bool
    ensures { result ≡ is_explained request.now }
{
    request.explain || request.locate
}

/// Writes an explanation, where one is asked for. Where a write fails, a part of it is lost.
fn explain<E: Write>(request: &Request<'_>, explanation: &Explanation<'_>, err: &mut E)
    ensures { MayBeExplained (is_explained request.now) (E.contents err.old) (E.contents err.new) }
{
    if !is_explained(request) {
        return;
    }
    let bytes = explanation.as_bytes();
    if !bytes.is_empty() {
        let _ = write_text(err, bytes);
    }
}

/// What an explanation is told to, where one is asked for.
fn if_asked<'x, 'a>(
    request: &Request<'_>,
    explanation: &'x mut Explanation<'a>,
) -> Option<&'x mut Explanation<'a>> {
    if is_explained(request) {
        Some(explanation)
    } else {
        None
    }
}

/// Runs a comparison, which it takes, while a thread beside it shows on standard error how far it
/// is.
fn run_beside<RT: AllocGlobal + Clock + Eprint + Threads + Wait + Sync, R: Read + Drop, W: Write>(
    rt: &RT,
    request: &Request<'_>,
    left: &mut Option<Given<'_, R>>,
    out: &mut W,
    explanation: &mut Explanation<'_>,
    watch: &Watch,
) -> Result<Finished, RunFault>
    requires { IsSome left.old }
    ensures { IfSome left.old (λ given. IsRun R.remaining given (W.contents out.old) (W.contents out.new) result) }
{
    let mut run = move || -> Result<Finished, RunFault>
        requires { IsSome left.now × IsSync RT.row }
        ensures { IfSome left.entry.now (λ given. IsRun R.remaining given (W.contents out.entry.now) (W.contents out.exit.now) result) }
    {
        let told = if_asked(request, explanation);
        match left.take() {
            Some(given) => run_explained(rt, rt.alloc(), given, out, told, watch),
            None => Err(RunFault::Memory),
        }
    };
    let mut show = move || watch.show(rt);
    join_mut(rt, &mut show, &mut run).1
}

/// Runs a comparison, and shows meanwhile how far it is.
fn run_shown<RT: AllocGlobal + Clock + Eprint + Threads + Wait + Sync, R: Read + Drop, W: Write>(
    rt: &RT,
    request: &Request<'_>,
    given: Given<'_, R>,
    out: &mut W,
    explanation: &mut Explanation<'_>,
) -> Result<Finished, RunFault>
    ensures { IsRun R.remaining given.entry (W.contents out.old) (W.contents out.new) result }
{
    let watch = Watch::new(rt);
    let mut left = Some(given);
    run_beside(rt, request, &mut left, out, explanation, &watch)
}

/// Opens the files, runs the comparison, and warns of what it is.
fn compare<
    RT: Files + AllocGlobal + Clock + Eprint + Threads + Wait + Sync,
    R: Read + Drop,
    W: Write,
    E: Write,
>(rt: &RT, request: &Request<'_>, input: R, out: &mut W, err: &mut E, is_terminal: bool) -> End
    ensures { IsRunEnd R.remaining RT.File.remaining request.now input (W.contents out.old) (W.contents out.new) (E.contents err.old) (E.contents err.new) result }
{
    let mut explanation = explanation_for(rt.alloc(), request, is_terminal);
    let sources = match open(rt, request, input) {
        Ok(sources) => sources,
        Err(Unopened { path, error }) => {
            explanation.unopened(path, &error);
            explain(request, &explanation, err);
            return End::Failed(RunFault::Read);
        }
    };
    let given = given_by(request, sources);
    let finished = if request.progress {
        run_shown(rt, request, given, out, &mut explanation)
    } else {
        let told = if_asked(request, &mut explanation);
        run_explained(rt, rt.alloc(), given, out, told, &NoGate)
    };
    match finished {
        Ok(finished) => {
            warn(rt.alloc(), request, &finished.warnings, err);
            explain(request, &explanation, err);
            End::Reported(finished.status)
        }
        Err(fault) => {
            explain(request, &explanation, err);
            End::Failed(fault)
        }
    }
}

/// Does all that the program does, and answers its exit status.
///
/// The words are those of the command line, the program's name first; `input`, `out` and `err` are
/// standard input, output and error, and `is_terminal` says whether error is a terminal. The
/// options are `--workers N`, `--nodes N`, `--cells N`, `--forks N`, `--conflicts N`,
/// `--order FILE`, `--assume FILE`, `--all`, `--output NAME` as often as wanted,
/// `--first-model NAME`, `--second-model NAME`, `--explain`, `--locate` and `--progress`, and up to
/// two files are compared. All files are opened before one is read. The report is written to `out`.
/// Where it is a verdict on a model that a model of its text contains which isn't compared, `err`
/// gets a warning on it. Where there is no verdict and `--explain` is given, `err` gets lines on
/// what is at fault, and where outputs differ and `--locate` is, lines on where that begins; with
/// `--explain` on a terminal a few of them. With both, where outputs are left undecided, it gets
/// lines on up to where the netlists are known to be equal. With `--progress` the runtime's own
/// standard error has a line that tells how far the run is, and which is gone before anything is
/// written to `out` or `err`.
///
/// The status is 0 where the netlists are equivalent, 1 where they differ, 2 where the input is
/// refused and 3 where the comparison was stopped, and 6 where no assignment meets the assumption.
/// It is 4 where a read or a write failed, and then `err` gets `fault 91` for a read, or a file
/// that can't be opened, and `fault 92` for a write. It is 5 for a bad command line and for want of
/// memory in reading it; `err` gets a text on it. For `--help` and `--version` what they ask for is
/// written to `out`, and the status is 0. The call may wait, for the threads that compare.
pub fn program<
    RT: Files + AllocGlobal + Clock + Eprint + Threads + Wait + Sync,
    R: Read + Drop,
    W: Write,
    E: Write,
>(rt: &RT, words: &[String], input: R, out: &mut W, err: &mut E, is_terminal: bool) -> u8
    ensures { IsDone R.remaining RT.File.remaining (map string_bytes words.now) input (W.contents out.old) (W.contents out.new) (E.contents err.old) (E.contents err.new) result }
{
    let end = match read_words(rt.alloc(), words) {
        Ok(request) => compare(rt, &request, input, out, err, is_terminal),
        Err(error) if is_showing(&error) => write_help(rt.alloc(), error, out),
        Err(error) => End::BadWords(error),
    };
    tell(rt.alloc(), &end, err);
    end.status()
}
