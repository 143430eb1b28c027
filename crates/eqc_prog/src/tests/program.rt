//! The program's command lines, texts and files with their reports and statuses. They are small
//! enough to be worked out by hand from the rules of the format and of the command line.

use super::ends::{holds, holds_at};
use eqc_command::program;
use eqc_testing::{DIFFERENCE, Disk, EQUAL, Feed, NEVER, PERMUTED, Row, UNEQUAL, XOR, is_text};
use std::alloc::{AllocError, Global};
use std::process::Abort;
use std::sync::Wait;
use std::thread::Threads;

/// A leaf, and the conjunction of what it gives with another input.
pub const LEAF_FIRST: &str =
    ".model leaf;.inputs a;.outputs z;.names a z;1 1;.end;.model top;.inputs a b;.outputs z;.subckt leaf a=a z=t;.names t b z;11 1;.end;";

/// The same leaf, and the disjunction.
const OTHER_TOP: &str =
    ".model leaf;.inputs a;.outputs z;.names a z;1 1;.end;.model top;.inputs a b;.outputs z;.subckt leaf a=a z=t;.names t b z;1- 1;-1 1;.end;";

/// The files that the command lines of the tests may name. One whose name ends in `!` fails at its
/// first read.
#[rattlefmt::skip]
static FILES: &[(&str, &str)] = &[
    ("equal", EQUAL),
    ("unequal", UNEQUAL),
    ("and", ".model m;.inputs x y;.outputs z;.names x y z;11 1;.end;.model n;.inputs q;.end;"),
    ("or", ".model m;.inputs x y;.outputs z;.names x y z;1- 1;-1 1;"),
    ("latch", ".model m;.latch a z 0;"),
    ("leaf_first", LEAF_FIRST),
    ("other_top", OTHER_TOP),
    ("broken!", ""),
    ("yx", "y x"),
    ("yx_with_comment", "y # x;x"),
    ("aba", "a b a"),
    ("ada", "a d a"),
    ("a", "a"),
    ("-x", "x y"),
    ("both", ".model f;.inputs a;.outputs p q;.names a p;1 1;.names a q;1 1;.end;.model g;.inputs a;.outputs p q;.names a p;0 1;.names q;"),
    ("x_is_1", ".model h;.inputs x;.outputs e;.names x e;1 1;"),
    ("a_is_0", ".model h;.inputs a;.outputs e;.names a e;0 1;"),
    ("w_is_1", ".model h;.inputs w;.outputs e;.names w e;1 1;"),
    ("nothing", ".model h;.outputs e;.names e;"),
    ("two_outputs", ".model h;.outputs e f;.names e;.names f;"),
    ("undriven", ".model h;.outputs e;"),
];

/// The words of a command line, cut at spaces.
pub fn words_of(alloc: Global, line: &str) -> Result<Vec<String>, AllocError> {
    let mut words = Vec::new(alloc);
    for word in line.split(' ') {
        words.push(String::from_str(alloc, word)?)?;
    }
    Ok(words)
}

/// What a program wrote, and its status.
#[derive(Drop)]
pub struct Written {
    pub status: u8,
    pub out: Vec<u8>,
    pub err: Vec<u8>,
}

/// What the program writes for a command line, over the files above.
pub fn written_by<RT: AllocGlobal + Threads + Wait + Sync>(
    rt: &RT,
    line: &str,
    input: Feed<'_>,
) -> Result<Written, AllocError> {
    written_on(rt, line, input, false)
}

/// The same where standard error may be a terminal.
pub fn written_on<RT: AllocGlobal + Threads + Wait + Sync>(
    rt: &RT,
    line: &str,
    input: Feed<'_>,
    is_terminal: bool,
) -> Result<Written, AllocError> {
    let alloc = rt.alloc();
    let words = words_of(alloc, line)?;
    let disk = Disk {
        files: FILES,
        rt,
        terminal: None,
    };
    let mut out = Vec::new(alloc);
    let mut err = Vec::new(alloc);
    let status = program(
        &(disk, alloc),
        &words,
        input,
        &mut out,
        &mut err,
        is_terminal,
    );
    Ok(Written { status, out, err })
}

/// Whether this was written on standard output and on standard error, with this status.
pub fn writes<RT: AllocGlobal + Threads + Wait + Sync>(
    rt: &RT,
    line: &str,
    input: Feed<'_>,
    status: u8,
    out: &str,
    err: &str,
) -> Result<bool, AllocError> {
    let written = written_by(rt, line, input)?;
    Ok(written.status == status && is_text(&written.out, out) && is_text(&written.err, err))
}

/// Whether nothing but this report was written, with this status.
pub fn reports<RT: AllocGlobal + Threads + Wait + Sync>(
    rt: &RT,
    line: &str,
    input: Feed<'_>,
    report: &str,
    status: u8,
) -> Result<bool, AllocError> {
    writes(rt, line, input, status, report, "")
}

/// Numbers of workers and of forks, which change no report.
static BY_WORKERS: &[&str] = &[
    "eqc --workers 1",
    "eqc",
    "eqc --workers 8 --forks 16",
    "eqc --workers 64",
    "eqc --progress",
];

/// A report and its status.
type Reported = (&'static str, u8);

/// Each text on standard input gives its report and status, whatever the number of workers and of
/// forks.
fn check_texts(rt: &(impl Abort + AllocGlobal + Threads + Wait + Sync), rows: &[Row<Reported>]) {
    for line in BY_WORKERS {
        for (name, text, (report, status)) in rows {
            holds_at(
                rt,
                reports(rt, line, Feed::whole(text), report, *status),
                name,
                *line,
            );
        }
    }
}

/// A command line, and what is wanted of it.
pub type Line<W> = (&'static str, W);

/// Each command line gives its report and status, where standard input has this text, or fails at
/// one of its reads.
fn check_lines(
    rt: &(impl Abort + AllocGlobal + Threads + Wait + Sync),
    text: &str,
    fails_at: usize,
    rows: &[Line<Reported>],
) {
    for (line, (report, status)) in rows {
        let input = Feed::new(text, NEVER, fails_at);
        holds(rt, reports(rt, line, input, report, *status), line);
    }
}

/// Texts on standard input with their reports and statuses.
#[rattlefmt::skip]
static COMPARED: &[Row<Reported>] = &[
    ("conjunctions", EQUAL, ("equivalent;", 0)),
    ("a conjunction and a disjunction", UNEQUAL, (DIFFERENCE, 1)),
    ("no outputs", ".model f;.inputs x;.outputs;.end;.model g;.inputs x;.outputs;.end;", ("equivalent;", 0)),
    ("constants without inputs", ".model f;.outputs z;.names z;.end;.model g;.outputs z;.names z;0;.end;", ("equivalent;", 0)),
    ("constants that differ", ".model f;.outputs z;.names z;.end;.model g;.outputs z;.names z;1;.end;", ("differs at z;first=0;second=1;", 1)),
    ("two outputs in another order", ".model f;.inputs a;.outputs p q;.names a p;1 1;.names a q;1 1;.end;.model g;.inputs a;.outputs q p;.names a p;0 1;.names q;.end;", ("differs at p;a=0;first=0;second=1;", 1)),
    ("a constant and an exclusive or", XOR, (DIFFERENCE, 1)),
    ("carriage returns", ".model f\r;.inputs a \\ # two\r;b\r;.wire_load_slope 0.00\r;.outputs z\r;.names a b z\r;1 1 1\r;.end\r;.model g;.inputs a b;.outputs z;.names a b z;11 1;", ("equivalent;", 0)),
];

#[test]
fn texts_are_compared(rt: HostRuntime) {
    check_texts(&rt, COMPARED);
}

/// Texts on standard input with their refusals, whose status is 2.
#[rattlefmt::skip]
static REFUSED: &[Row<Reported>] = &[
    ("a latch", ".model f;.inputs a \\;b;.outputs z;.names a z;.latch a z 0;", ("refused first 6 4;", 2)),
    ("a short row", ".model f;.inputs a b;.outputs z;.names a b z;11;", ("refused first 5 7;", 2)),
    ("rows of two kinds", ".model f;.inputs a b;.outputs z;.names a b z;11 1;00 0;", ("refused first 6 8;", 2)),
    ("other inputs", ".model f;.inputs a b;.end;.model g;.inputs a c;.end;", ("refused pair 0 41;", 2)),
    ("no output in the second model", ".model f;.inputs a b;.outputs z;.names z;.end;.model g;.inputs a b;.end;", ("refused pair 0 42;", 2)),
    ("another output", ".model f;.inputs a b;.outputs a;.end;.model g;.inputs a b;.end;", ("refused pair 0 42;", 2)),
    ("no byte", "", ("refused first 0 13;", 2)),
    ("an empty line", ";", ("refused first 0 13;", 2)),
    ("one model", ".model f;.inputs x y;.outputs z;.names x y z;11 1;.end;", ("refused second 0 13;", 2)),
    ("a control byte", ".model f;.inputs a\u{1};", ("refused first 2 1;", 2)),
    ("a gate", ".model f;.gate and2 A=a O=z;", ("refused first 2 3;", 2)),
    ("inputs after end", ".model f;.end;.inputs a;", ("refused first 3 5;", 2)),
    ("a row after end", ".model f;.end;1 1;", ("refused first 3 5;", 2)),
    ("a row first", "1 1;", ("refused first 1 6;", 2)),
    ("a pair without equals", ".model f;.subckt h a;", ("refused first 2 9;", 2)),
    ("names without word", ".model f;.names;", ("refused first 2 10;", 2)),
    ("a model twice", ".model f;.end;.model f;", ("refused first 3 11;", 2)),
    ("an input twice", ".model f;.inputs a a;", ("refused first 2 12;", 2)),
];

#[test]
fn texts_are_refused(rt: HostRuntime) {
    check_texts(&rt, REFUSED);
}

/// Command lines with an order text, and texts on standard input.
#[rattlefmt::skip]
static ORDERED: &[Line<(&str, Reported)>] = &[
    ("eqc --order yx", (XOR, (DIFFERENCE, 1))),
    ("eqc --order aba", (PERMUTED, ("refused order 0 52;", 2))),
    ("eqc --order ada", (PERMUTED, ("refused order 0 51;", 2))),
    ("eqc --order=a", (PERMUTED, ("refused order 0 53;", 2))),
    ("eqc --order yx_with_comment", (EQUAL, ("equivalent;", 0))),
];

#[test]
fn an_order_changes_no_answer(rt: HostRuntime) {
    for (line, (text, (report, status))) in ORDERED {
        let found = reports(&rt, line, Feed::whole(text), report, *status);
        holds(&rt, found, line);
    }
}

/// Command lines with numbers.
#[rattlefmt::skip]
static NUMBERED: &[Line<Reported>] = &[
    ("eqc --workers 65", ("refused options 0 81;", 2)),
    ("eqc --nodes 0", ("refused options 0 82;", 2)),
    ("eqc --cells 3", ("refused options 0 83;", 2)),
    ("eqc --forks 17", ("refused options 0 84;", 2)),
    ("eqc --inputs 65536", ("refused options 0 85;", 2)),
    ("eqc --inputs 1", ("refused first 0 30;", 2)),
    ("eqc --inputs=2", (DIFFERENCE, 1)),
    ("eqc --bytes 2147483648", ("refused options 0 86;", 2)),
    ("eqc --bytes 0", ("refused first 0 2;", 2)),
    ("eqc --bytes=2147483647", (DIFFERENCE, 1)),
    ("eqc --workers 0 --cells 3", ("refused options 0 81;", 2)),
    ("eqc --workers 4294967295", ("refused options 0 81;", 2)),
    ("eqc --nodes=1", ("stopped 71;", 3)),
    ("eqc --nodes 1048574 --cells=1048576 --workers=64 --forks 16", (DIFFERENCE, 1)),
    ("eqc --forks 0 --cells 1 --workers 1 --nodes 9", (DIFFERENCE, 1)),
];

#[test]
fn numbers_are_options(rt: HostRuntime) {
    check_lines(&rt, UNEQUAL, NEVER, NUMBERED);
}

/// Command lines with files.
#[rattlefmt::skip]
static FILED: &[Line<Reported>] = &[
    ("eqc equal", ("equivalent;", 0)),
    ("eqc unequal", (DIFFERENCE, 1)),
    ("eqc and or", (DIFFERENCE, 1)),
    ("eqc or and", ("differs at z;x=0;y=1;first=1;second=0;", 1)),
    ("eqc and and", ("equivalent;", 0)),
    ("eqc and equal", ("equivalent;", 0)),
    ("eqc or", ("refused second 0 13;", 2)),
    ("eqc latch or", ("refused first 2 4;", 2)),
    ("eqc or latch", ("refused second 2 4;", 2)),
    ("eqc latch yx", ("refused first 2 4;", 2)),
    ("eqc yx latch", ("refused first 1 6;", 2)),
    ("eqc --order and or", ("refused second 0 13;", 2)),
    ("eqc --workers 0 broken!", ("refused options 0 81;", 2)),
];

/// Command lines with options among their files.
#[rattlefmt::skip]
static MIXED: &[Line<Reported>] = &[
    ("eqc --order yx and or", (DIFFERENCE, 1)),
    ("eqc and --order=yx or", (DIFFERENCE, 1)),
    ("eqc and or --order a", ("refused order 0 51;", 2)),
    ("eqc -- and or", (DIFFERENCE, 1)),
    ("eqc --nodes 1 -- and or", ("stopped 71;", 3)),
    ("eqc -- -x", ("refused first 1 6;", 2)),
    ("eqc --order=-x and or", (DIFFERENCE, 1)),
];

/// Command lines with an assumption, for each difference, and with names of outputs.
#[rattlefmt::skip]
static WANTED: &[Line<Reported>] = &[
    ("eqc --assume x_is_1 and or", ("differs at z;x=1;y=0;first=0;second=1;", 1)),
    ("eqc and --assume=x_is_1 or --workers 8 --forks 16", ("differs at z;x=1;y=0;first=0;second=1;", 1)),
    ("eqc --assume nothing and or", ("vacuous;", 6)),
    ("eqc --assume nothing equal", ("vacuous;", 6)),
    ("eqc --assume latch and or", ("refused assume 2 4;", 2)),
    ("eqc --assume w_is_1 and or", ("refused assume 0 61;", 2)),
    ("eqc --assume two_outputs and or", ("refused assume 0 62;", 2)),
    ("eqc --assume latch --order a and or", ("refused order 0 51;", 2)),
    ("eqc both", ("differs at p;a=0;first=0;second=1;", 1)),
    ("eqc --all both", ("differs at p;a=0;first=0;second=1;differs at q;a=1;first=1;second=0;", 1)),
    ("eqc --all and and", ("equivalent;", 0)),
    ("eqc --output q both", ("differs at q;a=1;first=1;second=0;", 1)),
    ("eqc --output q both --output p", ("differs at p;a=0;first=0;second=1;", 1)),
    ("eqc --all --output=q --output=p both", ("differs at p;a=0;first=0;second=1;differs at q;a=1;first=1;second=0;", 1)),
    ("eqc --all --output q --assume a_is_0 both", ("equivalent;", 0)),
    ("eqc --all --assume a_is_0 both", ("differs at p;a=0;first=0;second=1;", 1)),
    ("eqc --output r both", ("refused pair 0 43;", 2)),
    ("eqc --output q --output r --order yx both", ("refused pair 0 43;", 2)),
];

/// Standard input fails here, and isn't read.
#[test]
fn files_are_compared(rt: HostRuntime) {
    check_lines(&rt, "", 0, FILED);
    check_lines(&rt, "", 0, MIXED);
    check_lines(&rt, "", 0, WANTED);
}
