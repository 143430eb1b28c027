//! What is at fault in a text that is refused, worked out by hand.

use crate::ends::{check_rows, holds};
use eqc_blif::{DEFAULT_BYTES, Finding, explain};
use eqc_testing::{Line, Row, lines};
use std::alloc::{AllocError, Global};

/// A finding on one line: its code, and what it names.
fn shown(alloc: Global, finding: &Finding) -> Result<Line, AllocError> {
    match finding {
        Finding::ControlByte { byte, line, column } => {
            Line::of_numbers(alloc, "1", &[*byte as usize, *line as usize, *column])
        }
        Finding::TextTooLong { bytes, limit } => Line::of_numbers(alloc, "2", &[*bytes, *limit]),
        Finding::UnknownCommand(word) => Line::of_name(alloc, "3", word.as_bytes()),
        Finding::BehindEnd(word) => Line::of_name(alloc, "5", word.as_bytes()),
        Finding::RowOutsideCover(row) => Line::of_name(alloc, "6", row.as_bytes()),
        Finding::RowShape { row, columns } => {
            let mut line = Line::of_name(alloc, "7", row.as_bytes())?;
            line.push_number(alloc, *columns)?;
            Ok(line)
        }
        Finding::RowOutput { output, first } => {
            Line::of_numbers(alloc, "8", &[*output as usize, *first as usize])
        }
        Finding::NoPair(word) => Line::of_name(alloc, "9", word.as_bytes()),
        Finding::NoWord(command) => Line::of_name(alloc, "10", command.as_bytes()),
        Finding::ModelTwice(name) => Line::of_name(alloc, "11", name.as_bytes()),
        Finding::InputTwice(name) => Line::of_name(alloc, "12 input", name.as_bytes()),
        Finding::OutputTwice(name) => Line::of_name(alloc, "12 output", name.as_bytes()),
        Finding::NoStatement => Line::new(alloc, "13"),
    }
}

/// What is at fault in a text that may have so many bytes, or `-` where nothing is named.
fn found(alloc: Global, text: &[u8], limit: u32) -> Result<Line, AllocError> {
    match explain(alloc, text, limit.min(2_147_483_647))? {
        Some(finding) => shown(alloc, &finding),
        None => Line::new(alloc, "-"),
    }
}

/// Texts, each with its name and with what is at fault.
#[rattlefmt::skip]
static TEXTS: &[Row<&str>] = &[
    ("a byte in a joined line", ".model f;.inputs a \\; b\x01c;", "1 1 3 3"),
    ("a byte behind one in a comment", "# \x01;.model f\x7f;", "1 127 2 9"),
    ("a carriage return inside a line", ".model f\r;.inputs a\rb\r;", "1 13 2 10"),
    ("a gate", ".model f;.gate and2 A=a O=z;", "3 .gate"),
    ("a command that goes on in the next line", ".model f;.gate\\;and2;", "3 .gate"),
    ("inputs after end", ".model f;.end;.inputs a;", "5 .inputs"),
    ("a row after end", ".model f;.end;1 0;", "5 1"),
    ("a row after inputs", ".model f;.names a z;.inputs a;1 0;", "6 1 0"),
    ("a row first", "1 1;", "6 1 1"),
    ("a short row", ".model f;.names a z;1 1;.names a b z;1 1;", "7 1 1 2"),
    ("a row of a bad value", ".names a z;2 1;", "7 2 1 1"),
    ("a short row with more blanks", ".names a b z; 1\t1  # 1;", "7  1\t1 2"),
    ("a short row in two lines", ".names a b c z;1 \\;1 ;", "7 1  1 3"),
    ("a row for no columns", ".names z;- 1;", "7 - 1 0"),
    ("a row that ends in 0 behind one that ends in 1", ".names a z;.area 3;1 1;0 0;", "8 48 49"),
    ("a row that ends in 1 behind one that ends in 0", ".names a y;1 1;.names a z;1 0;0 0;- 1;", "8 49 48"),
    ("a pair without formal", ".model f;.subckt g a=b =c d;", "9 =c"),
    ("a pair without equals", ".model f;.subckt g=h \\;d;", "9 d"),
    ("names without word", ".model f;.names # a;", "10 .names"),
    ("subckt without word", ".subckt;", "10 .subckt"),
    ("a model twice", ".model g;.model f;.end;.model f g;", "11 f"),
    ("no name twice", ".inputs a;.model;", "11 "),
    ("an input twice over lines", ".model f;.inputs a b;.outputs z;.inputs c b a;", "12 input b"),
    ("an output twice in a line", ".model f;.outputs a b a;", "12 output a"),
    ("an input twice in a first statement", ".inputs c d d c;", "12 input d"),
    ("no line", "", "13"),
    ("skipped lines alone", ".area 1;# x;", "13"),
    ("a latch", ".model f;.latch a z 0;", "-"),
    ("a text that is read", ".model f;.inputs a;", "-"),
    ("an input twice among many", ".inputs i0 i1 i2 i3 i4 i5 i6 i7 i8 i9 i10 i11 i12 i13 i14 i15 i16 i17;.inputs i18 i17 i0;", "12 input i17"),
];

/// Whether this is at fault in a text.
fn has(alloc: Global, text: &[u8], wanted: &str) -> Result<bool, AllocError> {
    Ok(found(alloc, text, DEFAULT_BYTES)?.is(wanted))
}

#[test]
fn names_what_is_at_fault(rt: HostRuntime) {
    check_rows(&rt, TEXTS, |alloc, text, wanted| has(alloc, text, wanted));
}

#[test]
fn names_the_size_of_a_long_text(rt: HostRuntime) {
    let text = vec![in rt.alloc(); b'\n'; 16_777_217].expect(&rt, "memory");
    holds(
        &rt,
        has(rt.alloc(), &text, "2 16777217 16777216"),
        "too long",
    );
}

/// A short text, how many bytes are allowed, and what is at fault.
#[rattlefmt::skip]
static SIZES: &[(&str, u32, &str)] = &[
    (".names a z;1 1;", 15, "-"),
    (".names a z;1 1;", 14, "2 15 14"),
    (".names a z;2 1;", 15, "7 2 1 1"),
    (".names a z;2 1;", 14, "2 15 14"),
    ("", 0, "13"),
    ("#", 0, "2 1 0"),
    ("", 2_147_483_647, "13"),
];

/// Whether this is at fault in a text that may have so many bytes.
fn has_within(alloc: Global, text: &str, limit: u32, wanted: &str) -> Result<bool, AllocError> {
    Ok(found(alloc, &lines(alloc, text)?, limit)?.is(wanted))
}

#[test]
fn names_the_size_that_is_allowed(rt: HostRuntime) {
    for (text, limit, wanted) in SIZES {
        holds(&rt, has_within(rt.alloc(), text, *limit, wanted), wanted);
    }
}
