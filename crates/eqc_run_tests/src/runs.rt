//! The ranges of options, order texts, and runs over one text and over two. The texts and reports
//! are small enough to be worked out by hand.

use crate::ends::{holds_at, same};
use crate::rows::at_once;
use eqc_check::{Texts, options_fault};
use eqc_run_testing::{ADDERS, Numbers, TEAMS, given, options, reports, reports_on, workers_on};
use eqc_testing::{DIFFERENCE, EQUAL, Feed, PERMUTED, XOR};

/// Numbers, with the code of the first that is out of its range.
static RANGES: &[(Numbers, Option<u8>)] = &[
    ((1, 1, 1, 0), None),
    ((64, 1_048_574, 1_048_576, 16), None),
    ((0, 0, 0, 17), Some(81)),
    ((65, 1, 1, 0), Some(81)),
    ((1, 0, 0, 17), Some(82)),
    ((1, 1_048_575, 1, 0), Some(82)),
    ((1, 1, 0, 17), Some(83)),
    ((1, 1, 3, 0), Some(83)),
    ((1, 1, 2_097_152, 0), Some(83)),
    ((1, 1, 1, 17), Some(84)),
];

#[test]
fn options_are_tested_at_their_bounds(rt: HostRuntime) {
    for (numbers, fault) in RANGES {
        assert_eq!(rt; options_fault(&options(*numbers)), *fault, "{numbers:?}");
    }
}

/// Numbers of runs on two equivalent netlists, with their reports.
static LIMITED: &[(Numbers, &str)] = &[
    ((2, 65_536, 8_192, 0), "equivalent;"),
    ((65, 65_536, 8_192, 0), "refused options 0 81;"),
    ((2, 0, 8_192, 0), "refused options 0 82;"),
    ((2, 65_536, 3, 0), "refused options 0 83;"),
    ((2, 65_536, 8_192, 17), "refused options 0 84;"),
    ((0, 65_536, 3, 0), "refused options 0 81;"),
    ((1, 1, 1, 0), "stopped 71;"),
    ((64, 1_048_574, 1_048_576, 16), "equivalent;"),
];

#[test]
fn options_are_looked_at_first(rt: HostRuntime) {
    for (numbers, report) in LIMITED {
        let found = reports_on(&rt, EQUAL, *numbers, report);
        holds_at(&rt, Ok(found), report, *numbers);
    }
}

#[test]
fn refused_options_keep_texts_unread(rt: HostRuntime) {
    let unread = Texts::One(Feed::new("", 1, 0));
    let none = (0, 65_536, 8_192, 0);
    let found = reports(&rt, unread, None, none, "refused options 0 81;");
    same(&rt, found, true, "no worker");
}

/// What is compared, its text and its order text, and its report.
#[rattlefmt::skip]
static ORDERED: &[(&str, &str, &str, &str)] = &[
    ("the inputs, the last one first", XOR, "y x;", DIFFERENCE),
    ("words between comments", EQUAL, "y # x;x;", "equivalent;"),
    ("a word twice", PERMUTED, "a b a;", "refused order 0 52;"),
    ("a word that is no input", PERMUTED, "a d a;", "refused order 0 51;"),
    ("an input left out", PERMUTED, "a;", "refused order 0 53;"),
    ("the inputs of adders, the last one first", ADDERS, "b7 a7 b6 a6 b5 a5 b4 a4 b3 a3 b2 a2 b1 a1 b0 a0 cin;", "equivalent;"),
];

/// The rows with several outputs to compare.
static SEVERAL: &[&str] = &["the inputs of adders, the last one first", "two outputs"];

#[test]
fn order_texts_change_no_answer(rt: HostRuntime) {
    for numbers in TEAMS {
        for (case, text, order, report) in ORDERED {
            let texts = Texts::One(Feed::whole(text));
            let order = Some(Feed::whole(order));
            let run = given(texts, order, None, options(*numbers));
            let wanted = at_once(SEVERAL, case, *numbers);
            let workers = workers_on(&rt, run, wanted, report);
            let found = workers.is_some_and(|count| count >= wanted);
            holds_at(&rt, Ok(found), case, *numbers);
        }
    }
}

/// What two texts are, both of them, and their report.
#[rattlefmt::skip]
static SIDES: &[(&str, &str, &str, &str)] = &[
    ("no outputs", ".model f;.inputs a;.outputs;.end;", ".model g;.inputs a;.outputs;.end;", "equivalent;"),
    ("both at fault", ".model f;.latch;", ".model g;.gate;", "refused first 2 4;"),
    ("the second at fault", ".model f;", ".model g;.gate;", "refused second 2 3;"),
    ("other inputs", ".model f;.inputs a;", ".model g;.inputs b;", "refused pair 0 41;"),
    ("other outputs", ".model f;.inputs a;", ".model g;.inputs a;.outputs z;.names z;", "refused pair 0 42;"),
    ("two outputs", ".model f;.inputs a b;.outputs y z;.names a b y;11 1;.names a b z;1- 1;-1 1;", ".model g;.inputs a b;.outputs y z;.names a b y;0- 0;-0 0;.names a b z;00 0;", "equivalent;"),
];

#[test]
fn two_texts_have_sides(rt: HostRuntime) {
    for numbers in TEAMS {
        for (case, first, second, report) in SIDES {
            let texts = Texts::Two(Feed::whole(first), Feed::whole(second));
            let run = given(texts, None, None, options(*numbers));
            let wanted = at_once(SEVERAL, case, *numbers);
            let workers = workers_on(&rt, run, wanted, report);
            let found = workers.is_some_and(|count| count >= wanted);
            holds_at(&rt, Ok(found), case, *numbers);
        }
    }
}
