//! What is at fault in two netlists that make no pair, and in an order text, worked out by hand.

use crate::ends::{check_rows, holds};
use eqc_blif::{Library, read};
use eqc_flat::Flat;
use eqc_netlist_testing::two_flats;
use eqc_pair::{Finding, Unmatched, explain_pair};
use eqc_testing::{EQUAL, Line, Row, lines};
use std::alloc::{AllocError, Global};

/// Adds how many names there are, and those that are told.
fn push_names(alloc: Global, line: &mut Line, names: &Unmatched<'_>) -> Result<(), AllocError> {
    line.push_number(alloc, names.count())?;
    for name in names.names() {
        line.push(name)?;
    }
    Ok(())
}

/// A code, and the names of one netlist behind it.
fn counted(alloc: Global, code: &str, names: &Unmatched<'_>) -> Result<Line, AllocError> {
    let mut line = Line::new(alloc, code)?;
    push_names(alloc, &mut line, names)?;
    Ok(line)
}

/// A code, and the names of the two netlists behind it.
fn differing(
    alloc: Global,
    code: &str,
    first: &Unmatched<'_>,
    second: &Unmatched<'_>,
) -> Result<Line, AllocError> {
    let mut line = counted(alloc, code, first)?;
    line.push(b"|")?;
    push_names(alloc, &mut line, second)?;
    Ok(line)
}

/// A finding on one line: its code, and what it names.
fn shown(alloc: Global, finding: &Finding<'_>) -> Result<Line, AllocError> {
    match finding {
        Finding::OtherInputs { first, second } => differing(alloc, "41", first, second),
        Finding::OtherOutputs { first, second } => differing(alloc, "42", first, second),
        Finding::UnknownOutputs(names) => counted(alloc, "43", names),
        Finding::OrderTooLong { bytes, limit } => Line::of_numbers(alloc, "2", &[*bytes, *limit]),
        Finding::UnknownWords(words) => counted(alloc, "51", words),
        Finding::WordTwice(word) => Line::of_name(alloc, "52", word),
        Finding::InputsLeftOut(inputs) => counted(alloc, "53", inputs),
        Finding::UnknownInputs(inputs) => counted(alloc, "61", inputs),
        Finding::OutputCount(count) => Line::of_numbers(alloc, "62", &[*count]),
    }
}

/// What is at fault in two flat netlists whose chosen outputs have these names, or `-` where
/// nothing is.
fn flat_finding(
    alloc: Global,
    first: &Flat<'_>,
    second: &Flat<'_>,
    chosen: &[&[u8]],
    order: Option<&[u8]>,
) -> Result<Line, AllocError> {
    match explain_pair(alloc, first, second, chosen, order)? {
        Some(finding) => shown(alloc, &finding),
        None => Line::new(alloc, "-"),
    }
}

/// What is at fault in the first two models of a library.
fn found_in(alloc: Global, library: &Library, order: Option<&[u8]>) -> Result<Line, AllocError> {
    match &two_flats(alloc, library) {
        Some((first, second)) => flat_finding(alloc, first, second, &[], order),
        None => Line::new(alloc, "no two models"),
    }
}

/// Whether this is at fault in the first two models of a text.
fn has(alloc: Global, text: &[u8], order: Option<&[u8]>, wanted: &str) -> Result<bool, AllocError> {
    match read(alloc, text) {
        Ok(library) => Ok(found_in(alloc, &library, order)?.is(wanted)),
        Err(_) => Ok(false),
    }
}

/// Whether this is at fault in an order text for `EQUAL`.
fn has_order(alloc: Global, order: &[u8], wanted: &str) -> Result<bool, AllocError> {
    let text = lines(alloc, EQUAL)?;
    has(alloc, &text, Some(order), wanted)
}

/// Texts of two models, each with its name and with what is at fault.
#[rattlefmt::skip]
static PAIRS: &[Row<&str>] = &[
    ("the same names", EQUAL, "-"),
    ("the same names in another order", ".model f;.inputs a b;.end;.model g;.inputs b a;.end;", "-"),
    ("an input renamed", ".model f;.inputs a b c;.end;.model g;.inputs d c a;.end;", "41 1 b | 1 d"),
    ("inputs dropped, and outputs other", ".model f;.inputs a b c;.outputs a;.end;.model g;.inputs b;.outputs b;.end;", "41 2 a c | 0"),
    ("more names than are told", ".model f;.inputs i0;.end;.model g;.inputs i12 i11 i10 i9 i8 i7 i6 i5 i4 i3 i2 i1 i0;.end;", "41 0 | 12 i12 i11 i10 i9 i8 i7 i6 i5 i4 i3"),
    ("an output dropped", ".model f;.inputs a;.outputs a;.end;.model g;.inputs a;.end;", "42 1 a | 0"),
    ("an output renamed", ".model f;.inputs a b;.outputs a;.end;.model g;.inputs b a;.outputs b;.end;", "42 1 a | 1 b"),
];

#[test]
fn names_what_one_netlist_lacks(rt: HostRuntime) {
    check_rows(
        &rt,
        PAIRS,
        |alloc, text, wanted| has(alloc, text, None, wanted),
    );
}

/// Order texts for the inputs `x` and `y`, each with its name and with what is at fault.
#[rattlefmt::skip]
static ORDERS: &[Row<&str>] = &[
    ("all inputs", "y # the second;x", "-"),
    ("words that are no inputs", "x u;y\tv u", "51 3 u v u"),
    ("an unknown word before one twice", "x x z", "51 1 z"),
    ("a word twice", "x y;y x", "52 y"),
    ("a word twice, and no other", "x x", "52 x"),
    ("an input left out", "y # x", "53 1 x"),
    ("no word", "", "53 2 x y"),
];

#[test]
fn names_what_an_order_text_has_wrong(rt: HostRuntime) {
    check_rows(
        &rt,
        ORDERS,
        |alloc, order, wanted| has_order(alloc, order, wanted),
    );
}

#[test]
fn names_the_size_of_a_long_order_text(rt: HostRuntime) -> Result<(), AllocError> {
    let order = vec![in rt.alloc(); b'\n'; 16_777_217]?;
    holds(
        &rt,
        has_order(rt.alloc(), &order, "2 16777217 16777216"),
        "too long",
    );
    Ok(())
}
