//! Readers that give a byte a read and fail at each of their calls, and writers that fail, take
//! nothing or take one byte at each of theirs. Of a text that isn't read nothing is written, and
//! what a writer took before it failed is the beginning of the report.

use crate::beginnings::LATCH;
use crate::ends::{holds_at, same};
use eqc_check::{RunFault, Status, Texts, run};
use eqc_run_testing::{
    ADDERS, Numbers, TWO, WRONG_ADDERS, WRONG_SUM, given, options, ran, reports, workers_on,
};
use eqc_testing::{DIFFERENCE, Drain, EQUAL, Feed, NEVER, UNEQUAL};
use std::io;
use std::io::{ErrorKind, Write};
use std::sync::Wait;
use std::thread::Threads;

/// The order of the adders' inputs, the last one first.
const BACKWARDS: &str = "b7 a7 b6 a6 b5 a5 b4 a4 b3 a3 b2 a2 b1 a1 b0 a0 cin;";

/// A text, an order text, and the report.
static READ: &[(&str, &str, &str)] = &[
    (EQUAL, "y x;", "equivalent;"),
    (UNEQUAL, "y x;", DIFFERENCE),
    (LATCH, "b a;", "refused first 6 4;"),
    (ADDERS, BACKWARDS, "equivalent;"),
];

/// An assumption that allows everything.
const ALL: &str = ".model h;.outputs e;.names e;1;";

/// Which reader fails.
#[derive(Clone, Copy, Debug)]
enum Failing {
    Only,
    First,
    Second,
    Order,
    Assume,
}

static EACH: &[Failing] = &[
    Failing::Only,
    Failing::First,
    Failing::Second,
    Failing::Order,
    Failing::Assume,
];

/// How a run ends whose readers give a text, and an order text, and of which this one fails at this
/// call; and whether nothing is written. A reader fails once, so a run that tried again would go
/// on.
fn ended<'x>(
    rt: &(impl AllocGlobal + Threads + Wait + Sync),
    text: &'x str,
    order: &'x str,
    failing: Failing,
    call: usize,
) -> (Result<Status, RunFault>, bool) {
    let one = Feed::new(text, 1, call);
    let whole = Feed::whole(text);
    let mut out = Drain::new(Vec::new(rt.alloc()), NEVER, NEVER, true);
    let done = match failing {
        Failing::Only => ran(rt, Texts::One(one), None, TWO, &mut out),
        Failing::First => ran(rt, Texts::Two(one, whole), None, TWO, &mut out),
        Failing::Second => ran(rt, Texts::Two(whole, one), None, TWO, &mut out),
        Failing::Order => {
            let order = Feed::new(order, 1, call);
            ran(rt, Texts::One(whole), Some(order), TWO, &mut out)
        }
        Failing::Assume => {
            let (order, assume) = (Feed::whole(order), Feed::new(ALL, 1, call));
            let (texts, options) = (Texts::One(whole), options(TWO));
            run(
                rt,
                rt.alloc(),
                texts,
                Some(order),
                Some(assume),
                &options,
                &mut out,
            )
        }
    };
    (done, out.calls == 0)
}

/// Whether a run over a reader that fails at any of its calls ends there, and writes nothing.
fn fails_at_each(
    rt: &(impl AllocGlobal + Threads + Wait + Sync),
    text: &str,
    order: &str,
    failing: Failing,
) -> bool {
    let length = match failing {
        Failing::Order => order.len(),
        Failing::Assume => ALL.len(),
        _ => text.len(),
    };
    // The last call sees the end.
    let all = length.saturating_add(1);
    for call in 0..all {
        let found = ended(rt, text, order, failing, call);
        if found != (Err(RunFault::Read), true) {
            return false;
        }
    }
    let (done, is_unwritten) = ended(rt, text, order, failing, all);
    done.is_ok() && !is_unwritten
}

#[test]
fn a_reader_fails_at_each_call(rt: HostRuntime) {
    for (text, order, report) in READ {
        for failing in EACH {
            let found = fails_at_each(&rt, text, order, *failing);
            holds_at(&rt, Ok(found), report, *failing);
        }
        let texts = Texts::One(Feed::new(text, 1, NEVER));
        let (order, assume) = (Feed::new(order, 1, NEVER), Feed::new(ALL, 1, NEVER));
        let run = given(texts, Some(order), Some(assume), options(TWO));
        let found = workers_on(&rt, run, 0, report);
        same(&rt, found.is_some(), true, *report);
    }
}

/// Options of a run whose first text is refused and whose second reader fails, and how it ends.
static REFUSED: &[(Numbers, Result<Status, RunFault>)] = &[
    (TWO, Err(RunFault::Read)),
    ((65, 65_536, 8_192, 0), Ok(Status::Refused)),
];

#[test]
fn a_read_fails_before_a_text_is_refused(rt: HostRuntime) {
    for (numbers, wanted) in REFUSED {
        let texts = Texts::Two(Feed::whole(LATCH), Feed::new("", NEVER, 0));
        let mut out = Drain::new(Vec::new(rt.alloc()), NEVER, NEVER, true);
        same(&rt, ran(&rt, texts, None, *numbers, &mut out), *wanted, 0);
        same(&rt, out.calls == 0, wanted.is_err(), 0);
    }
    let texts = Texts::Two(Feed::whole(LATCH), Feed::new("", NEVER, 0));
    let many = (65, 65_536, 8_192, 0);
    let found = reports(&rt, texts, None, many, "refused options 0 81;");
    same(&rt, found, true, "the options");
}

/// What a writer does at one of its calls.
#[derive(Clone, Copy, Debug)]
enum Odd {
    Fails,
    TakesNone,
    TakesOne,
}

/// Takes at most `step` bytes a write, and does something else at one call.
#[derive(Drop)]
struct Sink {
    bytes: Vec<u8>,
    step: usize,
    at: usize,
    odd: Odd,
    calls: usize,
}

impl Sink {
    /// How many bytes a call takes at most.
    fn most_at(&self, call: usize) -> io::Result<usize> {
        if call != self.at {
            return Ok(self.step);
        }
        match self.odd {
            Odd::Fails => Err(io::Error::from(ErrorKind::Interrupted)),
            Odd::TakesNone => Ok(0),
            Odd::TakesOne => Ok(1),
        }
    }
}

impl Write for Sink {
    fn write(&mut self, buf: &[u8]) -> io::Result<usize> {
        let call = self.calls;
        self.calls = call.saturating_add(1);
        let n = buf.len().min(self.most_at(call)?);
        self.bytes.extend_from_slice(&buf[..n])?;
        Ok(n)
    }

    fn flush(&mut self) -> io::Result<()> {
        Ok(())
    }
}

/// Whether these are the first bytes of a report.
fn is_beginning(bytes: &[u8], report: &str) -> bool {
    if bytes.len() > report.len() {
        return false;
    }
    for (byte, shown) in bytes.iter().zip(report.as_bytes()) {
        let meant = if *shown == b';' { b'\n' } else { *shown };
        if *byte != meant {
            return false;
        }
    }
    true
}

/// How a run over such a writer ends, how much of its report was written, and how often it is
/// called.
fn written(
    rt: &(impl AllocGlobal + Threads + Wait + Sync),
    text: &str,
    report: &str,
    step: usize,
    at: usize,
    odd: Odd,
) -> (Result<Status, RunFault>, Option<usize>, usize) {
    let mut out = Sink {
        bytes: Vec::new(rt.alloc()),
        step,
        at,
        odd,
        calls: 0,
    };
    let done = ran(rt, Texts::One(Feed::whole(text)), None, TWO, &mut out);
    let length = is_beginning(&out.bytes, report).then_some(out.bytes.len());
    (done, length, out.calls)
}

/// Whether a report is written so far as a writer took it that does something else at this call.
fn is_cut_off(
    rt: &(impl AllocGlobal + Threads + Wait + Sync),
    text: &str,
    report: &str,
    step: usize,
    at: usize,
    odd: Odd,
) -> bool {
    let (done, length, calls) = written(rt, text, report, step, at, odd);
    match odd {
        Odd::TakesOne => done.is_ok() && length == Some(report.len()),
        // Nothing is tried again after it.
        _ => {
            let taken = at.saturating_mul(step).min(report.len());
            done == Err(RunFault::Write) && length == Some(taken) && calls == at.saturating_add(1)
        }
    }
}

/// Whether it is so at each call of a writer of so many bytes a write.
fn is_cut_off_at_each(
    rt: &(impl AllocGlobal + Threads + Wait + Sync),
    text: &str,
    report: &str,
    step: usize,
) -> bool {
    let (_, _, calls) = written(rt, text, report, step, NEVER, Odd::Fails);
    for at in 0..calls {
        for odd in [Odd::Fails, Odd::TakesNone, Odd::TakesOne] {
            if !is_cut_off(rt, text, report, step, at, odd) {
                return false;
            }
        }
    }
    calls.saturating_mul(step) >= report.len()
}

/// A text, and its report.
static WRITTEN: &[(&str, &str)] = &[
    (EQUAL, "equivalent;"),
    (UNEQUAL, DIFFERENCE),
    (LATCH, "refused first 6 4;"),
    (ADDERS, "equivalent;"),
    (WRONG_ADDERS, WRONG_SUM),
];

#[test]
fn a_writer_fails_at_each_call(rt: HostRuntime) {
    for (text, report) in WRITTEN {
        for step in [1, 7, NEVER] {
            let found = is_cut_off_at_each(&rt, text, report, step);
            holds_at(&rt, Ok(found), report, step);
        }
    }
}
