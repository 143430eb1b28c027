//! Runs over readers that give their bytes in several reads or fail, and over writers that fail.

use crate::ends::{holds_at, same};
use crate::reports::WRITERS;
use eqc_check::{Options, RunFault, Status, Texts, run};
use eqc_run_testing::{
    ADDERS, Numbers, TEAMS, TWO, given, options, ran, ran_together, reports, two_of, workers_on,
};
use eqc_testing::{Drain, EQUAL, Endless, Feed, NEVER, is_text};
use std::io;
use std::io::Read;
use std::sync::Wait;
use std::sync::atomic::{AtomicU64, Ordering};
use std::thread::Threads;

/// Two netlists without outputs.
const EMPTY: &str = ".model f;.end;.model g;.end;";

/// Two netlists that are equivalent, one a text.
const FIRST: &str = ".model f;.inputs x y;.outputs z;.names x y z;11 1;";

const SECOND: &str = ".model g;.inputs x y;.outputs z;.names x y z;0- 0;-0 0;";

/// How many bytes a read gives at most, and how many reads it takes to read `.model m;` and to see
/// its end.
static READS: &[(usize, usize)] = &[(1, 10), (4, 4), (100, 2)];

/// Whether a text of one model is read whole in so many reads, each of at most so many bytes.
fn is_read_whole(
    rt: &(impl AllocGlobal + Threads + Wait + Sync),
    text: &str,
    step: usize,
    reads: usize,
    numbers: Numbers,
) -> bool {
    let mut feed = Feed::new(text, step, NEVER);
    let is_refused = reports(
        rt,
        Texts::One(&mut feed),
        None,
        numbers,
        "refused second 0 13;",
    );
    is_refused && feed.is_at_end() && feed.calls == reads
}

#[test]
fn a_text_is_read_whole(rt: HostRuntime) {
    for numbers in TEAMS {
        for (step, reads) in READS {
            let found = is_read_whole(&rt, ".model m;", *step, *reads, *numbers);
            holds_at(&rt, Ok(found), step, *numbers);
        }
    }
}

/// Gives a text, one byte a read, and notes in a number that several share which of them is read: a
/// digit where it is another one than before.
#[derive(Drop)]
struct Noting<'a> {
    feed: Feed<'a>,
    digit: u64,
    noted: &'a AtomicU64,
}

impl<'a> Read for Noting<'a> {
    fn read(&mut self, buf: &mut [u8]) -> io::Result<usize> {
        let noted = self.noted.load(Ordering::SeqCst);
        if noted % 10 != self.digit {
            let next = noted.saturating_mul(10).saturating_add(self.digit);
            self.noted.store(next, Ordering::SeqCst);
        }
        self.feed.read(buf)
    }
}

impl<'a> Noting<'a> {
    /// A reader of this text, which notes this digit.
    fn of(text: &'a str, digit: u64, noted: &'a AtomicU64) -> Noting<'a> {
        Noting {
            feed: Feed::new(text, 1, NEVER),
            digit,
            noted,
        }
    }
}

/// The readers of a run in their turn, where all are read whole: of one text or of two, of an order
/// text and of an assumption's.
fn read_in_turn(rt: &(impl AllocGlobal + Threads + Wait + Sync), is_one: bool) -> Option<u64> {
    let noted = AtomicU64::new(0);
    let texts = if is_one {
        Texts::One(Noting::of(EQUAL, 1, &noted))
    } else {
        Texts::Two(Noting::of(FIRST, 1, &noted), Noting::of(SECOND, 2, &noted))
    };
    let order = Noting::of("y x;", 3, &noted);
    let assume = Noting::of(".model h;.outputs e;.names e;1;", 4, &noted);
    let run = given(texts, Some(order), Some(assume), options(TWO));
    let found = workers_on(rt, run, 0, "equivalent;");
    found.map(|_| noted.load(Ordering::SeqCst))
}

#[test]
fn each_text_is_read_whole_before_the_next(rt: HostRuntime) {
    same(&rt, read_in_turn(&rt, true), Some(134), "one text");
    same(&rt, read_in_turn(&rt, false), Some(1_234), "two texts");
}

#[test]
fn a_failed_read_is_not_tried_again(rt: HostRuntime) {
    for call in 0..10 {
        let mut feed = Feed::new(".model m;", 1, call);
        let mut out = Vec::new(rt.alloc());
        let texts = Texts::One(&mut feed);
        let done = ran(&rt, texts, None, TWO, &mut out);
        assert_eq!(rt; done, Err(RunFault::Read), "at {call}");
        assert_eq!(rt;
            feed.calls,
            call.saturating_add(1),
            "not tried again after {call}"
        );
        assert!(rt; out.is_empty(), "at {call}");
    }
}

/// Whether a text that comes in such steps is reported to be equivalent, and two workers compare
/// outputs at once where it has two to compare and they share a forest from the beginning.
fn is_equivalent_by_steps(
    rt: &(impl AllocGlobal + Threads + Wait + Sync),
    text: &str,
    has_two: bool,
    step: usize,
    numbers: Numbers,
) -> bool {
    let texts = Texts::One(Feed::new(text, step, NEVER));
    let run = given(texts, None, None, options(numbers));
    let wanted = if has_two { two_of(numbers) } else { 0 };
    let workers = workers_on(rt, run, wanted, "equivalent;");
    workers.is_some_and(|count| count >= wanted)
}

#[test]
fn a_text_may_come_byte_by_byte(rt: HostRuntime) {
    for numbers in TEAMS {
        for step in [1, 2, 7, 1000] {
            for (text, has_two) in [(EQUAL, false), (ADDERS, true)] {
                let found = is_equivalent_by_steps(&rt, text, has_two, step, *numbers);
                holds_at(&rt, Ok(found), step, *numbers);
            }
        }
    }
}

/// Whether a run over these readers fails to read, and writes nothing.
fn fails_unwritten(
    rt: &(impl AllocGlobal + Threads + Wait + Sync),
    texts: Texts<Feed<'_>>,
    order: Option<Feed<'_>>,
) -> bool {
    let mut out = Drain::new(Vec::new(rt.alloc()), NEVER, NEVER, true);
    let done = ran(rt, texts, order, TWO, &mut out);
    done == Err(RunFault::Read) && out.calls == 0
}

#[test]
fn nothing_is_written_after_a_failed_read(rt: HostRuntime) {
    for call in 0..29 {
        let texts = Texts::One(Feed::new(EMPTY, 1, call));
        assert!(rt; fails_unwritten(&rt, texts, None), "at {call}");
    }
    for (first, second, order) in [(0, NEVER, NEVER), (NEVER, 1, NEVER), (NEVER, NEVER, 0)] {
        let texts = Texts::Two(Feed::new(EMPTY, 100, first), Feed::new(EMPTY, 100, second));
        let order = Some(Feed::new("", 100, order));
        assert!(rt; fails_unwritten(&rt, texts, order), "{first} {second}");
    }
}

/// Whether a run on adders ends so over a writer, which takes this before it fails, and two workers
/// compare outputs at once where they share a forest from the beginning.
fn is_written(
    rt: &(impl AllocGlobal + Threads + Wait + Sync),
    out: Drain,
    numbers: Numbers,
    outcome: Result<(), RunFault>,
    written: &str,
) -> bool {
    let mut out = out;
    let texts = Texts::One(Feed::whole(ADDERS));
    let run = given(texts, None, None, options(numbers));
    let wanted = two_of(numbers);
    let (done, workers) = ran_together(rt, run, wanted, &mut out);
    let is_right = done == outcome.map(|()| Status::Equivalent) && is_text(&out.bytes, written);
    is_right && workers >= wanted
}

#[test]
fn a_part_is_written_before_a_failed_write(rt: HostRuntime) {
    for numbers in TEAMS {
        for (row, (step, fails_at, flushes, outcome, written)) in WRITERS.iter().enumerate() {
            let out = Drain::new(Vec::new(rt.alloc()), *step, *fails_at, *flushes);
            let found = is_written(&rt, out, *numbers, *outcome, written);
            holds_at(&rt, Ok(found), row, *numbers);
        }
    }
}

/// The longest text has 16,777,216 bytes. One more is read, in blocks of 65,536 bytes, and no
/// other.
#[test]
fn a_text_without_end_is_too_long(rt: HostRuntime) {
    let mut endless = Endless::new();
    let mut out = Vec::new(rt.alloc());
    let texts = Texts::One(&mut endless);
    let done = ran(&rt, texts, None, TWO, &mut out);
    assert_eq!(rt; done, Ok(Status::Refused));
    assert!(rt; is_text(&out, "refused first 0 2;"));
    assert_eq!(rt; endless.given, 16_777_217);
    assert_eq!(rt; endless.calls, 257);
}

/// How many bytes are allowed, and how many blocks of 65,536 bytes are read of a text without end.
static BLOCKS: &[(u32, usize)] = &[
    (0, 1),
    (65_535, 1),
    (65_536, 2),
    (16_777_217, 257),
    (20_000_000, 306),
];

/// Whether a run that allows so many bytes of a text without end takes one more, in so many blocks,
/// and refuses it.
fn stops_reading(
    rt: &(impl AllocGlobal + Threads + Wait + Sync),
    bytes: u32,
    blocks: usize,
) -> bool {
    let mut endless = Endless::new();
    let mut out = Vec::new(rt.alloc());
    let options = Options {
        bytes,
        ..options(TWO)
    };
    let texts = Texts::One(&mut endless);
    let done = run(rt, rt.alloc(), texts, None, None, &options, &mut out);
    let is_refused = done == Ok(Status::Refused) && is_text(&out, "refused first 0 2;");
    is_refused && endless.given == bytes as usize + 1 && endless.calls == blocks
}

#[test]
fn a_text_without_end_is_read_one_byte_past_what_is_allowed(rt: HostRuntime) {
    for (bytes, blocks) in BLOCKS {
        assert!(rt; stops_reading(&rt, *bytes, *blocks), "{bytes}");
    }
}
