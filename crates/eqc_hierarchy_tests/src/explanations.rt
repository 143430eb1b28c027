//! What is at fault in a hierarchy that is refused, worked out by hand.
//!
//! A finding is shown on one line: its code; then for a signal its name, and the position and the
//! model of each instance on the way to it, from its own up; for an instance the model in which it
//! stands, its position there, and its own model; for a formal its instance before it; for a
//! recursion the models; for a circle how many signals it has, and their names, which are letters,
//! in the order of the alphabet; and for a size what is there and what may be.

use crate::ends::{check_rows, holds};
use eqc_blif::{Library, read};
use eqc_flat::{
    Circle, DEFAULT_INPUTS, Finding, FoundFormal, FoundInstance, HierarchicalName, explain,
};
use eqc_testing::{Line, Row, input_names};
use std::alloc::{AllocError, Global};

/// A signal.
fn signal(alloc: Global, code: &str, name: &HierarchicalName<'_>) -> Result<Line, AllocError> {
    let mut line = Line::of_name(alloc, code, name.name())?;
    for step in name.steps() {
        let word = format!(in alloc; "{}:{}", step.position, step.model)?;
        line.push(word.as_bytes())?;
    }
    Ok(line)
}

/// An instance.
fn instance(alloc: Global, code: &str, found: &FoundInstance<'_>) -> Result<Line, AllocError> {
    let place = format!(in alloc; "{}.{}", found.model(), found.position())?;
    let mut line = Line::of_name(alloc, code, place.as_bytes())?;
    line.push(found.instance().model.as_bytes())?;
    Ok(line)
}

/// A formal.
fn formal(alloc: Global, code: &str, found: &FoundFormal<'_>) -> Result<Line, AllocError> {
    let mut line = instance(alloc, code, found.instance())?;
    line.push(found.formal())?;
    Ok(line)
}

/// Whether a circle has a signal of this name.
fn has_signal(circle: &Circle<'_>, letter: u8) -> bool {
    for name in circle.signals() {
        if name.name() == [letter].as_slice() {
            return true;
        }
    }
    false
}

/// A circle.
fn circular(alloc: Global, circle: &Circle<'_>) -> Result<Line, AllocError> {
    let mut line = Line::of_numbers(alloc, "28", &[circle.count()])?;
    for letter in b'a'..=b'z' {
        if has_signal(circle, letter) {
            line.push(&[letter])?;
        }
    }
    Ok(line)
}

/// A finding.
fn shown(alloc: Global, finding: &Finding<'_>) -> Result<Line, AllocError> {
    match finding {
        Finding::NoSuchModel(found) => instance(alloc, "21", found),
        Finding::Recursion(models) => Line::of_numbers(alloc, "22", models),
        Finding::UnknownFormal(found) => formal(alloc, "23", found),
        Finding::FormalTwice(found) => formal(alloc, "24", found),
        Finding::MissingInput(found) => formal(alloc, "25", found),
        Finding::DrivenTwice(name) => signal(alloc, "26", name),
        Finding::Undriven(name) => signal(alloc, "27", name),
        Finding::Circular(circle) => circular(alloc, circle),
        Finding::TooLarge { size, limit } => {
            Line::of_numbers(alloc, "29", &[size.unwrap_or(usize::MAX), *limit])
        }
        Finding::ManyInputs { inputs, limit } => Line::of_numbers(alloc, "30", &[*inputs, *limit]),
    }
}

/// What is at fault below the main model of a library, which may have so many inputs, or `-` where
/// nothing is.
fn library_finding(alloc: Global, library: &Library, limit: u16) -> Result<Line, AllocError> {
    if library.models() == 0 {
        return Line::new(alloc, "no model");
    }
    match explain(alloc, library, 0, limit)? {
        Some(finding) => shown(alloc, &finding),
        None => Line::new(alloc, "-"),
    }
}

/// Whether this is at fault below the main model of a text, which may have so many inputs.
fn has_within(alloc: Global, text: &[u8], limit: u16, wanted: &str) -> Result<bool, AllocError> {
    match read(alloc, text) {
        Ok(library) => Ok(library_finding(alloc, &library, limit)?.is(wanted)),
        Err(_) => Ok(false),
    }
}

/// Whether this is at fault below the main model of a text.
fn has(alloc: Global, text: &[u8], wanted: &str) -> Result<bool, AllocError> {
    has_within(alloc, text, DEFAULT_INPUTS, wanted)
}

/// Texts with an undriven signal.
#[rattlefmt::skip]
static UNDRIVEN: &[Row<&str>] = &[
    ("a column", ".model m;.inputs a;.outputs y;.names a b y;11 1;.end;", "27 b"),
    ("an output of an instance", ".model m;.inputs a;.outputs y;.subckt n x=a z=y;.end;.model n;.inputs x;.outputs z;.end;", "27 z 0:1"),
    ("a column two levels below", ".model m;.inputs a;.outputs y z;.subckt n x=a z=y;.subckt n x=a z=z;.end;.model o;.outputs z;.names w z;1 1;.end;.model n;.inputs x;.outputs z;.names u;1;.subckt o z=z;.end;", "27 w 0:1 0:2"),
];

#[test]
fn names_a_signal_without_a_driver(rt: HostRuntime) {
    check_rows(
        &rt,
        UNDRIVEN,
        |alloc, text, wanted| has(alloc, text, wanted),
    );
}

/// Texts with a signal that has two drivers.
#[rattlefmt::skip]
static DRIVEN_TWICE: &[Row<&str>] = &[
    ("two covers", ".model m;.inputs a;.outputs y;.names a y;1 1;.names y;1;.end;", "26 y"),
    ("an input of an instance", ".model m;.inputs a;.outputs y;.names a y;1 1;.subckt n x=a;.subckt n x=y;.end;.model n;.inputs x;.names x;1;.end;", "26 x 0:1"),
];

#[test]
fn names_a_signal_with_two_drivers(rt: HostRuntime) {
    check_rows(
        &rt,
        DRIVEN_TWICE,
        |alloc, text, wanted| has(alloc, text, wanted),
    );
}

/// A text that is accepted.
#[rattlefmt::skip]
static ACCEPTED: &[Row<&str>] = &[
    ("a cover", ".model m;.inputs a;.outputs y;.names a y;1 1;.end;", "-"),
];

#[test]
fn names_nothing_in_an_accepted_hierarchy(rt: HostRuntime) {
    check_rows(
        &rt,
        ACCEPTED,
        |alloc, text, wanted| has(alloc, text, wanted),
    );
}

/// A text in which a model `o` is missing, which the second instance of model 1 asks for.
#[rattlefmt::skip]
static MISSING: &[Row<&str>] = &[
    ("the second instance of model 1", ".model m;.subckt n x=a;.end;.model n;.inputs x;.subckt n2 x=x;.subckt o x=x;.end;.model n2;.inputs x;.end;", "21 1.1 o"),
];

#[test]
fn names_a_missing_model_and_who_asks_for_it(rt: HostRuntime) {
    check_rows(&rt, MISSING, |alloc, text, wanted| has(alloc, text, wanted));
}

/// Main models with two instances of a model with the inputs `x` and `v` and the output `z`, the
/// second of which is at fault.
#[rattlefmt::skip]
static FORMALS: &[Row<&str>] = &[
    ("no port", ".model m;.subckt n x=a v=b z=c;.subckt n x=a v=b w=c;.end;.model n;.inputs x v;.outputs z;.end;", "23 0.1 n w"),
    ("twice", ".model m;.subckt n x=a v=b;.subckt n v=a x=b z=c v=d;.end;.model n;.inputs x v;.outputs z;.end;", "24 0.1 n v"),
    ("no port, the first of many", ".model m;.subckt n x=a v=b;.subckt n v=a x=b z=c d=d e=e f=f g=g h=h i=i;.end;.model n;.inputs x v;.outputs z;.end;", "23 0.1 n d"),
    ("an input that is missing", ".model m;.subckt n x=a v=b;.subckt n x=a z=c;.end;.model n;.inputs x v;.outputs z;.end;", "25 0.1 n v"),
];

#[test]
fn names_the_formal_at_fault(rt: HostRuntime) {
    check_rows(&rt, FORMALS, |alloc, text, wanted| has(alloc, text, wanted));
}

/// A model that contains one that contains itself.
#[rattlefmt::skip]
static RECURSIVE: &[Row<&str>] = &[
    ("back to the second model", ".model m;.subckt n x=a;.end;.model o;.subckt p;.end;.model n;.inputs x;.subckt o;.end;.model p;.subckt o;.end;", "22 0 2 1 3 1"),
];

#[test]
fn names_the_chain_of_a_recursion(rt: HostRuntime) {
    check_rows(
        &rt,
        RECURSIVE,
        |alloc, text, wanted| has(alloc, text, wanted),
    );
}

/// Numbers of inputs, how many are allowed, and what is at fault.
#[rattlefmt::skip]
static WIDTHS: &[(u32, u16, &str)] = &[
    (2_049, 2_048, "30 2049 2048"),
    (2_049, 2_049, "-"),
    (3, 2, "30 3 2"),
    (2, 2, "-"),
    (1, 0, "30 1 0"),
    (0, 0, "-"),
];

/// Whether this is at fault in a main model with so many inputs, of which so many are allowed.
fn has_width(alloc: Global, count: u32, limit: u16, wanted: &str) -> Result<bool, AllocError> {
    let names = input_names(alloc, count)?;
    let text = format!(in alloc; ".model m\n.inputs{names}\n.end\n")?;
    has_within(alloc, text.as_bytes(), limit, wanted)
}

#[test]
fn names_the_number_of_inputs(rt: HostRuntime) {
    for (count, limit, wanted) in WIDTHS {
        let found = has_width(rt.alloc(), *count, *limit, wanted);
        holds(&rt, found, wanted);
    }
}

/// Texts with a circle.
#[rattlefmt::skip]
static CIRCLES: &[Row<&str>] = &[
    ("two covers", ".model m;.inputs a;.outputs y;.names a y x;11 1;.names x y;0 1;.end;", "28 2 x y"),
    ("a cover of its output", ".model m;.inputs a;.outputs y;.names z y;1 1;.names a z z;11 1;.end;", "28 1 z"),
];

#[test]
fn names_the_signals_of_a_circle(rt: HostRuntime) {
    check_rows(&rt, CIRCLES, |alloc, text, wanted| has(alloc, text, wanted));
}
