//! How the program ends where it writes no report: faults of files, readers and writers, bad
//! command lines, and help.

use super::ends::{holds, holds_at};
use super::program::{reports, words_of, writes, written_by};
use eqc_command::program;
use eqc_testing::{DIFFERENCE, Drain, EQUAL, Endless, Feed, NEVER, UNEQUAL, is_text};
use std::alloc::{AllocError, Global};
use std::process::Abort;
use std::rt::{Clock, Files};
use std::sync::Wait;
use std::thread::Threads;

/// Command lines whose files can't be opened or read, the options being looked at after the
/// opening.
static FAULTS: &[&str] = &[
    "eqc --order none",
    "eqc none",
    "eqc none or",
    "eqc and none",
    "eqc latch none",
    "eqc --order none latch",
    "eqc --workers 0 none",
    "eqc broken!",
    "eqc latch broken!",
    "eqc --order broken! latch",
    "eqc ",
];

#[test]
fn files_that_fail_are_faults(rt: HostRuntime) {
    for line in FAULTS.iter() {
        holds(
            &rt,
            writes(&rt, line, Feed::whole(EQUAL), 4, "", "fault 91;"),
            line,
        );
    }
}

/// Bad command lines.
static BAD_WORDS: &[&str] = &[
    "eqc --workers x",
    "eqc a b c",
    "eqc --workers",
    "eqc --order",
    "eqc --nodes 4294967296",
    "eqc --nodes -1",
    "eqc --nodes 1.5",
    "eqc --cells=",
    "eqc --cells 1 --cells 1",
    "eqc --order a --order a",
    "eqc --assume",
    "eqc --assume a --assume a",
    "eqc --all --all",
    "eqc --all=yes",
    "eqc --output",
    "eqc --second-model",
    "eqc --first-model f --first-model f",
    "eqc --work 1",
    "eqc --unknown",
    "eqc -w 1",
    "eqc --workers 1 2 3 4",
    "eqc and or -- and",
];

/// Whether a command line is refused, and why is told on standard error alone.
fn is_told(
    rt: &(impl AllocGlobal + Threads + Wait + Sync),
    line: &str,
) -> Result<bool, AllocError> {
    let written = written_by(rt, line, Feed::whole(EQUAL))?;
    Ok(written.status == 5 && written.out.is_empty() && written.err.starts_with(b"error: "))
}

#[test]
fn bad_command_lines_are_told(rt: HostRuntime) {
    for line in BAD_WORDS.iter() {
        holds(&rt, is_told(&rt, line), line);
    }
}

/// The numbers of all refusals, stops and faults.
static NUMBERS: &[u8] = &[
    1, 2, 3, 4, 5, 6, 7, 8, 9, 10, 11, 12, 13, 21, 22, 23, 24, 25, 26, 27, 28, 29, 30, 41, 42, 43,
    51, 52, 53, 61, 62, 71, 72, 73, 74, 81, 82, 83, 84, 85, 86, 91, 92,
];

/// Whether a refusal, stop or fault has a line of its own in the help.
fn has_number(alloc: Global, help: &str, number: u8) -> Result<bool, AllocError> {
    let start = format!(in alloc; "\n  {number:>2}  ")?;
    Ok(help.contains(start.as_str()))
}

/// Whether a status has a line of its own in the help.
fn has_status(alloc: Global, help: &str, status: u8) -> Result<bool, AllocError> {
    let start = format!(in alloc; "\n  {status}  ")?;
    Ok(help.contains(start.as_str()))
}

/// The options of the command line.
static OPTIONS: &[&str] = &[
    "--workers <N>",
    "--nodes <N>",
    "--cells <N>",
    "--forks <N>",
    "--conflicts <N>",
    "--inputs <N>",
    "--bytes <N>",
    "--order <FILE>",
    "--assume <FILE>",
    "--all",
    "--output <NAME>",
    "--first-model <NAME>",
    "--second-model <NAME>",
    "--help",
    "--version",
];

/// Each number, each status and each option stands in the help.
fn check_help(rt: &(impl Abort + AllocGlobal), help: &str) {
    for number in NUMBERS.iter() {
        holds(rt, has_number(rt.alloc(), help, *number), number);
    }
    for status in 0..=6 {
        holds(rt, has_status(rt.alloc(), help, status), status);
    }
    for option in OPTIONS.iter() {
        holds(rt, Ok(help.contains(option)), option);
    }
}

/// What is written on standard output, where nothing else is and the status is 0.
fn answer(
    rt: &(impl AllocGlobal + Threads + Wait + Sync),
    line: &str,
) -> Result<Option<Vec<u8>>, AllocError> {
    let written = written_by(rt, line, Feed::whole(EQUAL))?;
    if written.status != 0 || !written.err.is_empty() {
        return Ok(None);
    }
    Ok(Some(written.out))
}

/// The same as text.
fn answer_text(
    rt: &(impl AllocGlobal + Threads + Wait + Sync),
    line: &str,
) -> Result<Option<String>, AllocError> {
    match answer(rt, line)? {
        Some(bytes) => Ok(String::from_utf8(bytes).ok()),
        None => Ok(None),
    }
}

#[test]
fn help_has_every_number(rt: HostRuntime) -> Result<(), AllocError> {
    let help = answer_text(&rt, "eqc --nodes 5 --help")?;
    let help = help.expect(&rt, "a text");
    check_help(&rt, help.as_str());
    Ok(())
}

/// Whether a text names the program, the toolchain and what is proved.
fn is_version(text: &str) -> bool {
    text.starts_with("eqc ")
        && text.contains("\nproved and built with rattle-kit-")
        && text.contains("\nproved: ")
}

/// Whether the answer to a command line is the version.
fn tells_version(
    rt: &(impl AllocGlobal + Threads + Wait + Sync),
    line: &str,
) -> Result<bool, AllocError> {
    match answer_text(rt, line)? {
        Some(text) => Ok(is_version(text.as_str())),
        None => Ok(false),
    }
}

#[test]
fn the_version_says_what_is_proved(rt: HostRuntime) {
    for line in ["eqc --version", "eqc -V", "eqc or --version"] {
        holds(&rt, tells_version(&rt, line), line);
    }
}

/// Command lines, and for a writer how many bytes it takes at most, which write fails and whether
/// it flushes; then what is written.
static CUT_OFF: &[(&str, usize, usize, bool, &str)] = &[
    ("eqc", NEVER, 0, true, ""),
    ("eqc", 4, 1, true, "equi"),
    ("eqc", 0, NEVER, true, ""),
    ("eqc", NEVER, NEVER, false, "equivalent;"),
    ("eqc --help", 6, 1, true, "Decide"),
];

/// Whether these words end as a fault that is told, where this writer takes no more than this text.
fn is_write_fault(
    rt: &(impl AllocGlobal + Clock + Eprint + Files + Threads + Wait + Sync),
    words: &[String],
    step: usize,
    fails_at: usize,
    flushes: bool,
    written: &str,
) -> bool {
    let mut out = Drain::new(Vec::new(rt.alloc()), step, fails_at, flushes);
    let mut err = Vec::new(rt.alloc());
    let status = program(rt, words, Feed::whole(EQUAL), &mut out, &mut err, false);
    status == 4 && is_text(&out.bytes, written) && is_text(&err, "fault 92;")
}

#[test]
fn a_failed_write_is_a_fault(rt: HostRuntime) -> Result<(), AllocError> {
    for (line, step, fails_at, flushes, written) in CUT_OFF.iter() {
        let words = words_of(rt.alloc(), line)?;
        let found = is_write_fault(&rt, &words, *step, *fails_at, *flushes, written);
        holds_at(&rt, Ok(found), step, written);
    }
    Ok(())
}

/// The status of these words, where standard error takes three bytes; none where it got others or
/// anything is on standard output.
fn status_unheard(
    rt: &(impl AllocGlobal + Clock + Eprint + Files + Threads + Wait + Sync),
    words: &[String],
) -> Option<u8> {
    let mut out = Vec::new(rt.alloc());
    let mut err = Drain::new(Vec::new(rt.alloc()), 3, 1, true);
    let status = program(rt, words, Feed::whole(EQUAL), &mut out, &mut err, false);
    (out.is_empty() && err.bytes.len() == 3).then_some(status)
}

#[test]
fn a_failed_line_on_standard_error_changes_nothing(rt: HostRuntime) -> Result<(), AllocError> {
    for (line, status) in [("eqc none/such", 4), ("eqc --workers x", 5)] {
        let words = words_of(rt.alloc(), line)?;
        let found = status_unheard(&rt, &words);
        assert_eq!(rt; found, Some(status), "{line}");
    }
    Ok(())
}

#[test]
fn a_failed_read_writes_nothing(rt: HostRuntime) {
    let short = ".model f;.end;.model g;.end;";
    let reads = short.len() + 1;
    for call in 0..=reads {
        let (status, out, err) = if call < reads {
            (4, "", "fault 91;")
        } else {
            (0, "equivalent;", "")
        };
        holds(
            &rt,
            writes(&rt, "eqc", Feed::new(short, 1, call), status, out, err),
            call,
        );
    }
    holds(
        &rt,
        writes(&rt, "eqc", Feed::new(UNEQUAL, 70, 1), 4, "", "fault 91;"),
        "a failed read writes nothing",
    );
}

#[test]
fn a_text_may_come_byte_by_byte(rt: HostRuntime) {
    holds(
        &rt,
        reports(&rt, "eqc", Feed::new(UNEQUAL, 1, NEVER), DIFFERENCE, 1),
        "a text may come byte by byte",
    );
}

/// Whether a reader without end is refused, and nothing else is told.
fn refuses_endless(
    rt: &(impl AllocGlobal + Clock + Eprint + Files + Threads + Wait + Sync),
    words: &[String],
) -> bool {
    let mut out = Vec::new(rt.alloc());
    let mut err = Vec::new(rt.alloc());
    let status = program(rt, words, Endless::new(), &mut out, &mut err, false);
    status == 2 && is_text(&out, "refused first 0 2;") && err.is_empty()
}

#[test]
fn a_reader_without_end_is_refused(rt: HostRuntime) -> Result<(), AllocError> {
    let words = words_of(rt.alloc(), "eqc")?;
    assert!(rt; refuses_endless(&rt, &words));
    Ok(())
}
