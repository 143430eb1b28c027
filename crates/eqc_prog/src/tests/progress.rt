//! What `--progress` shows, and that nothing else changes with it.

use super::ends::{holds, same};
use super::program::words_of;
use eqc_check::{Gate, Progress, Stage};
use eqc_command::{Watch, program};
use eqc_testing::{Disk, EQUAL, Feed, Terminal, is_text};
use std::alloc::{AllocError, Global};
use std::io;
use std::io::Read;
use std::sync::Wait;
use std::thread::Threads;

/// Gives a text only after something was written to the terminal.
#[derive(Drop)]
struct Late<'a> {
    text: Feed<'a>,
    terminal: &'a Terminal,
}

impl<'a> Read for Late<'a> {
    fn read(&mut self, buf: &mut [u8]) -> io::Result<usize> {
        self.terminal.wait();
        self.text.read(buf)
    }
}

/// Takes the line away.
const ERASED: &str = "\r\x1b[K";

/// The line of a run that reads, up to its time.
const READING: &str = "\reqc: reading, ";

/// Whether a run with these words on a text that comes late ends with this status, report and
/// error; and what the terminal got.
fn shown_late<R: AllocGlobal + Threads + Wait + Sync>(
    rt: &R,
    words: &[String],
    text: &str,
    status: u8,
    report: &str,
    error: &str,
) -> Option<Vec<u8>> {
    let alloc = rt.alloc();
    let terminal = Terminal::new(Vec::new(alloc), 40);
    let input = Late {
        text: Feed::whole(text),
        terminal: &terminal,
    };
    let disk = Disk {
        files: &[],
        rt,
        terminal: Some(&terminal),
    };
    let mut out = Vec::new(alloc);
    let mut err = Vec::new(alloc);
    let ended = program(&(disk, alloc), words, input, &mut out, &mut err, false);
    let wanted = ended == status && is_text(&out, report) && is_text(&err, error);
    wanted.then_some(terminal.into_text())
}

/// Whether such a run shows that it reads, and takes the line away in the end.
fn is_shown<R: AllocGlobal + Threads + Wait + Sync>(
    rt: &R,
    (line, text, status, report, error): Row,
) -> Result<bool, AllocError> {
    let words = words_of(rt.alloc(), line)?;
    let Some(shown) = shown_late(rt, &words, text, status, report, error) else {
        return Ok(false);
    };
    let shown = shown.as_slice();
    Ok(
        shown.starts_with(READING.as_bytes())
            && shown.ends_with(ERASED.as_bytes())
            && !shown.contains(&b'\n'),
    )
}

/// A command line, a text, and the status, the report and what standard error gets.
type Row = (&'static str, &'static str, u8, &'static str, &'static str);

#[rattlefmt::skip]
static ROWS: &[Row] = &[
    ("eqc --progress", EQUAL, 0, "equivalent;", ""),
    ("eqc --progress --explain", ".model f;.names;", 2, "refused first 2 10;", "eqc: standard input: line 2: '.names' has no word behind it (10);"),
];

#[test]
fn a_line_stands_until_the_report_comes(rt: HostRuntime) {
    for row in ROWS {
        holds(&rt, is_shown(&rt, *row), row.0);
    }
}

/// A stage, how far it is, the nodes that it tells of, if any, and its line after as many readings
/// of the clock as rows.
type Line = (Stage, usize, usize, Option<u32>, &'static str);

#[rattlefmt::skip]
static LINES: &[Line] = &[
    (Stage::Reading, 0, 0, None, "eqc: reading, 25.0 s"),
    (Stage::Structure, 0, 0, None, "eqc: comparing structure, 50.0 s"),
    (Stage::FirstDiagrams, 0, 64, Some(41_310), "eqc: diagrams, output 1 of 64, 41310 nodes, 1 min 15 s"),
    (Stage::Sweeping, 1_200, 50_000, None, "eqc: sweeping, step 1200 of 50000, 1 min 40 s"),
    (Stage::Asking, 2, 64, None, "eqc: asking what is equal, output 3 of 64, 2 min 5 s"),
    (Stage::Adding, 1, 2, None, "eqc: comparing sums, word 2 of 2, 2 min 30 s"),
    (Stage::Searching, 63, 64, None, "eqc: searching for differences, output 64 of 64, 2 min 55 s"),
    (Stage::AllDiagrams, 64, 64, Some(524_288), "eqc: diagrams by all workers, output 64 of 64, about 524288 nodes, 3 min 20 s"),
];

/// A runtime whose clock is a terminal's.
fn with_clock<'a, R>(rt: &'a R, terminal: &'a Terminal) -> Disk<'a, R> {
    Disk {
        files: &[],
        rt,
        terminal: Some(terminal),
    }
}

/// Whether what was told has this line.
fn has_line<R: Wait>(
    rt: &Disk<'_, R>,
    alloc: Global,
    watch: &Watch,
    line: &str,
) -> Result<bool, AllocError> {
    let Some(told) = watch.told(rt) else {
        return Ok(false);
    };
    let text = format!(in alloc; "{told}")?;
    Ok(text.as_str() == line)
}

/// Whether the stages have their lines, one behind the other.
fn have_lines<R: AllocGlobal + Wait>(rt: &R) -> Result<bool, AllocError> {
    let terminal = Terminal::new(Vec::new(rt.alloc()), 25_000);
    let clock = with_clock(rt, &terminal);
    let watch = Watch::new(&clock);
    for (stage, done, all, nodes, line) in LINES {
        watch.stage(&clock, *stage);
        watch.step(&clock, *done, *all);
        if let Some(nodes) = nodes {
            watch.nodes(&clock, *nodes);
        }
        if !has_line(&clock, rt.alloc(), &watch, line)? {
            return Ok(false);
        }
    }
    Ok(true)
}

#[test]
fn each_stage_has_its_line(rt: HostRuntime) {
    holds(&rt, have_lines(&rt), "lines");
}

/// Whether the last output that was begun is shown, whichever worker tells of it first.
fn is_last_shown<R: AllocGlobal + Wait>(rt: &R) -> Result<bool, AllocError> {
    let terminal = Terminal::new(Vec::new(rt.alloc()), 25_000);
    let clock = with_clock(rt, &terminal);
    let watch = Watch::new(&clock);
    watch.stage(&clock, Stage::FirstDiagrams);
    watch.step(&clock, 0, 64);
    watch.enter(&clock, 0, 11);
    watch.enter(&clock, 1, 10);
    has_line(
        &clock,
        rt.alloc(),
        &watch,
        "eqc: diagrams, output 12 of 64, 25.0 s",
    )
}

#[test]
fn the_last_output_that_was_begun_is_shown(rt: HostRuntime) {
    holds(&rt, is_last_shown(&rt), "output");
}

/// Whether nothing was written where no line stands: neither at the end nor by the thread that
/// shows, which ends at once.
fn is_silent<R: AllocGlobal + Wait>(rt: &R) -> bool {
    let terminal = Terminal::new(Vec::new(rt.alloc()), 25_000);
    let clock = with_clock(rt, &terminal);
    let watch = Watch::new(&clock);
    watch.stage(&clock, Stage::Writing);
    watch.show(&clock);
    terminal.into_text().is_empty()
}

#[test]
fn nothing_is_shown_of_a_run_that_is_over(rt: HostRuntime) {
    same(&rt, is_silent(&rt), true, "over");
}
