//! Runs with several options, and what they write.

use crate::together::Together;
use eqc_check::{
    Given, ModelNames, NoDiagnostics, Options, OutputNames, RunFault, Status, Texts, run,
    run_explained,
};
use eqc_testing::{Feed, is_text};
use std::io::{Read, Write};
use std::sync::Wait;
use std::thread::Threads;

/// As many conflicts as the program has where nothing is said.
pub const CONFLICTS: u32 = 100_000;

/// As many inputs as a main model may have where nothing is said.
pub const INPUTS: u32 = 2_048;

/// As many bytes as the text of a netlist may have where nothing is said.
pub const BYTES: u32 = 16_777_216;

/// Numbers of workers, nodes, cells and forks.
pub type Numbers = (u32, u32, u32, u32);

/// Two workers, who share no operation, and as many nodes and cells as the program has where
/// nothing is said.
pub const TWO: Numbers = (2, 65_536, 8_192, 0);

/// So many nodes, and more, are given to one thread at first. With fewer a run begins in the forest
/// that its workers share.
const FIRST_ROOM: u32 = 1_024;

/// Teams of workers, which change no report. The first two decide most pairs on one thread.
pub static TEAMS: &[Numbers] = &[
    (1, 65_536, 8_192, 0),
    TWO,
    (1, 1_023, 8_192, 0),
    (2, 1_023, 8_192, 0),
    (8, 1_023, 8_192, 0),
    (4, 1_023, 8_192, 16),
    (8, 1_023, 8_192, 16),
    (64, 1_023, 8_192, 0),
];

/// How many workers are waited for in a run on several outputs: two, where there are several and
/// they begin in the forest that they share.
pub fn two_of(numbers: Numbers) -> u32 {
    let (workers, nodes, ..) = numbers;
    if workers > 1 && nodes < FIRST_ROOM {
        2
    } else {
        0
    }
}

/// What a run is given that chooses no model and no output.
pub fn given<'a, R>(
    texts: Texts<R>,
    order: Option<R>,
    assume: Option<R>,
    options: Options,
) -> Given<'a, R> {
    Given {
        texts,
        names: ModelNames::none(),
        order,
        assume,
        outputs: OutputNames::none(),
        options,
    }
}

/// Options of these numbers.
pub fn options(numbers: Numbers) -> Options {
    let (workers, nodes, cells, forks) = numbers;
    Options {
        workers,
        nodes,
        cells,
        forks,
        conflicts: CONFLICTS,
        inputs: INPUTS,
        bytes: BYTES,
        every: false,
    }
}

/// A run.
pub fn ran<RT: AllocGlobal + Threads + Wait + Sync, R: Read + Drop, W: Write>(
    rt: &RT,
    texts: Texts<R>,
    order: Option<R>,
    numbers: Numbers,
    out: &mut W,
) -> Result<Status, RunFault> {
    run(rt, rt.alloc(), texts, order, None, &options(numbers), out)
}

/// A run, and how many of its workers compared outputs in the forest that they share. So many are
/// waited for, where each has an output to compare.
pub fn ran_together<RT: AllocGlobal + Threads + Wait + Sync, R: Read + Drop, W: Write>(
    rt: &RT,
    given: Given<'_, R>,
    awaited: u32,
    out: &mut W,
) -> (Result<Status, RunFault>, u32) {
    let together = Together::of(awaited);
    let nobody: Option<&mut NoDiagnostics> = None;
    let done = run_explained(rt, rt.alloc(), given, out, nobody, &together);
    (done.map(|finished| finished.status), together.count())
}

/// How many workers compared outputs in the forest that they share, of so many that are waited for,
/// in a run that writes this report, and has its status: none where it doesn't.
pub fn workers_on<R: Read + Drop>(
    rt: &(impl AllocGlobal + Threads + Wait + Sync),
    given: Given<'_, R>,
    awaited: u32,
    report: &str,
) -> Option<u32> {
    let mut out = Vec::new(rt.alloc());
    let (done, workers) = ran_together(rt, given, awaited, &mut out);
    let is_right = done.ok() == status_of(report) && is_text(&out, report);
    is_right.then_some(workers)
}

/// The status that a report has by its first word.
pub fn status_of(report: &str) -> Option<Status> {
    match report.as_bytes().first() {
        Some(b'e') => Some(Status::Equivalent),
        Some(b'd') => Some(Status::Differs),
        Some(b'r') => Some(Status::Refused),
        Some(b's') => Some(Status::Stopped),
        Some(b'v') => Some(Status::Vacuous),
        _ => None,
    }
}

/// Whether a run writes this report, and has its status.
pub fn reports<R: Read + Drop>(
    rt: &(impl AllocGlobal + Threads + Wait + Sync),
    texts: Texts<R>,
    order: Option<R>,
    numbers: Numbers,
    report: &str,
) -> bool {
    let mut out = Vec::new(rt.alloc());
    let done = ran(rt, texts, order, numbers, &mut out);
    done.ok() == status_of(report) && is_text(&out, report)
}

/// Whether a run on one text does.
pub fn reports_on(
    rt: &(impl AllocGlobal + Threads + Wait + Sync),
    text: &str,
    numbers: Numbers,
    report: &str,
) -> bool {
    reports(rt, Texts::One(Feed::whole(text)), None, numbers, report)
}

/// Whether a run on one text with these options does.
pub fn reports_by(
    rt: &(impl AllocGlobal + Threads + Wait + Sync),
    text: &str,
    options: &Options,
    report: &str,
) -> bool {
    let mut out = Vec::new(rt.alloc());
    let texts = Texts::One(Feed::whole(text));
    let done = run(rt, rt.alloc(), texts, None, None, options, &mut out);
    done.ok() == status_of(report) && is_text(&out, report)
}
