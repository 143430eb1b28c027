//! As many workers as there may be, each of which has an output to compare: all are started, and
//! compare at once.

use crate::ends::holds_at;
use eqc_check::{Options, Texts};
use eqc_run_testing::{given, options, workers_on};
use eqc_testing::Feed;
use std::alloc::{AllocError, Global};
use std::sync::Wait;
use std::thread::Threads;

/// How many outputs there are, and how many workers.
const MANY: u32 = 64;

/// What is compared, and how.
#[derive(Clone, Copy, Debug)]
struct Case {
    /// Whether the last output differs.
    differs: bool,
    /// Whether the first input has to be 1.
    assumes: bool,
    every: bool,
    forks: u32,
}

/// A model of so many conjunctions of neighbours, by this cover, and the last one by another.
fn model(
    alloc: Global,
    text: &mut String,
    name: &str,
    cover: &str,
    last: &str,
) -> Result<(), AllocError> {
    text.push_str(&format!(in alloc; ".model {name};.inputs i{MANY}")?)?;
    for k in 0..MANY {
        text.push_str(&format!(in alloc; " i{k}")?)?;
    }
    text.push_str(";.outputs")?;
    for k in 0..MANY {
        text.push_str(&format!(in alloc; " z{k}")?)?;
    }
    for k in 0..MANY {
        let next = k + 1;
        let cover = if next == MANY { last } else { cover };
        text.push_str(&format!(in alloc; ";.names i{k} i{next} z{k};{cover}")?)?;
    }
    text.push_str(";.end;")
}

/// Two such models, of which no two outputs have one structure.
fn models(alloc: Global, case: Case) -> Result<String, AllocError> {
    let conjunction = "0- 0;-0 0";
    let last = if case.differs { "00 0" } else { conjunction };
    let mut text = String::new(alloc);
    model(alloc, &mut text, "f", "11 1", "11 1")?;
    model(alloc, &mut text, "g", conjunction, last)?;
    Ok(text)
}

/// The report on them. The last output is that of the first input and the last.
fn report(alloc: Global, case: Case) -> Result<String, AllocError> {
    if !case.differs {
        return String::from_str(alloc, "equivalent;");
    }
    let first = u32::from(case.assumes);
    let mut report = format!(in alloc; "differs at z63;i{MANY}={first};")?;
    for k in 0..MANY {
        let value = u32::from(k + 1 == MANY && !case.assumes);
        report.push_str(&format!(in alloc; "i{k}={value};")?)?;
    }
    report.push_str("first=0;second=1;")?;
    Ok(report)
}

/// Whether a run writes its report, and all workers compared an output at once.
fn are_at_once(
    rt: &(impl AllocGlobal + Threads + Wait + Sync),
    case: Case,
) -> Result<bool, AllocError> {
    let text = models(rt.alloc(), case)?;
    let report = report(rt.alloc(), case)?;
    let assume = if case.assumes {
        Some(Feed::whole(".model h;.inputs i64;.outputs e;.names i64 e;1 1"))
    } else {
        None
    };
    let options = Options {
        every: case.every,
        ..options((MANY, 1_023, 8_192, case.forks))
    };
    let run = given(Texts::One(Feed::whole(&text)), None, assume, options);
    Ok(workers_on(rt, run, MANY, &report) == Some(MANY))
}

/// What is compared, and how.
#[rattlefmt::skip]
static CASES: &[Case] = &[
    Case { differs: false, assumes: false, every: false, forks: 0 },
    Case { differs: false, assumes: true, every: true, forks: 16 },
    Case { differs: true, assumes: false, every: false, forks: 0 },
    Case { differs: true, assumes: false, every: true, forks: 16 },
    Case { differs: true, assumes: true, every: true, forks: 0 },
];

#[test]
fn as_many_workers_as_may_be_compare_at_once(rt: HostRuntime) {
    for case in CASES {
        holds_at(&rt, are_at_once(&rt, *case), "64 outputs", *case);
    }
}
