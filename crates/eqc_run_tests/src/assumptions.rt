//! Runs in which an assumption says which assignments count, each difference is wanted, or outputs
//! are chosen by their names.

use crate::ends::holds_at;
use crate::rows::at_once;
use eqc_check::{Given, ModelNames, Options, OutputNames, Texts, run, run_models};
use eqc_run_testing::{Numbers, TEAMS, given, options, status_of, workers_on};
use eqc_testing::{EQUAL, Feed, is_text};
use std::process::Abort;
use std::sync::Wait;
use std::thread::Threads;

/// AND and OR of two inputs.
const AND_OR: &str =
    ".model f;.inputs x y;.outputs z;.names x y z;11 1;.model g;.inputs x y;.outputs z;.names x y z;00 0;";

/// Two outputs of one input, of which both differ.
const BOTH: &str =
    ".model f;.inputs a;.outputs p q;.names a p;1 1;.names a q;1 1;.model g;.inputs a;.outputs p q;.names a p;0 1;.names q;";

/// Two netlists without outputs.
const EMPTY: &str = ".model f;.end;.model g;.end;";

/// What a run is given beside two netlists in one text: an order text, an assumption, whether each
/// difference is wanted, and names of outputs.
type Beside = (
    Option<&'static str>,
    Option<&'static str>,
    bool,
    &'static [&'static [u8]],
);

/// Assumptions, and what is reported under them.
#[rattlefmt::skip]
static ASSUMED: &[(&str, &str, Beside, &str)] = &[
    ("equal where both are alike", AND_OR, (None, Some(".model h;.inputs x y;.outputs e;.names x y e;11 1;00 1"), false, &[]), "equivalent;"),
    ("least that is allowed", AND_OR, (None, Some(".model h;.inputs x;.outputs e;.names x e;1 1"), false, &[]), "differs at z;x=1;y=0;first=0;second=1;"),
    ("the other input by its name", AND_OR, (None, Some(".model h;.inputs y;.outputs e;.names y e;1 1"), false, &[]), "differs at z;x=0;y=1;first=0;second=1;"),
    ("inputs in another order", AND_OR, (None, Some(".model h;.inputs y x;.outputs e;.names y x e;01 1"), false, &[]), "differs at z;x=1;y=0;first=0;second=1;"),
    ("none is allowed", AND_OR, (None, Some(".model h;.outputs e;.names e"), false, &[]), "vacuous;"),
    ("none is allowed and all are equal", EQUAL, (None, Some(".model h;.outputs e;.names e"), false, &[]), "vacuous;"),
    ("none is allowed and there is no output", EMPTY, (None, Some(".model h;.outputs e;.names e"), false, &[]), "vacuous;"),
    ("all are allowed and there is no output", EMPTY, (None, Some(".model h;.outputs e;.names e;1"), false, &[]), "equivalent;"),
    ("the first model is taken", AND_OR, (None, Some(".model h;.inputs x;.outputs e;.names x e;1 1;.end;.model i;.outputs e;.names e"), false, &[]), "differs at z;x=1;y=0;first=0;second=1;"),
    ("unknown input", AND_OR, (None, Some(".model h;.inputs w;.outputs e;.names w e;1 1"), false, &[]), "refused assume 0 61;"),
    ("no output", AND_OR, (None, Some(".model h;.inputs x;.outputs"), false, &[]), "refused assume 0 62;"),
    ("two outputs", AND_OR, (None, Some(".model h;.inputs x;.outputs e x;.names x e;1 1"), false, &[]), "refused assume 0 62;"),
    ("61 before 62", AND_OR, (None, Some(".model h;.inputs w;.outputs"), false, &[]), "refused assume 0 61;"),
    ("a latch in it", AND_OR, (None, Some(".model h;.latch a z 0"), false, &[]), "refused assume 2 4;"),
    ("an empty one", AND_OR, (None, Some(""), false, &[]), "refused assume 0 13;"),
    ("its hierarchy", AND_OR, (None, Some(".model h;.outputs e;.subckt gone e=e"), false, &[]), "refused assume 0 21;"),
    ("no driver before 62", AND_OR, (None, Some(".model h;.outputs e f"), false, &[]), "refused assume 0 27;"),
    ("the order before it", AND_OR, (Some("x"), Some(""), false, &[]), "refused order 0 53;"),
    ("two outputs under it", BOTH, (None, Some(".model h;.inputs a;.outputs e;.names a e;0 1"), false, &[]), "differs at p;a=0;first=0;second=1;"),
    ("an order with it", AND_OR, (Some("y x"), Some(".model h;.inputs x;.outputs e;.names x e;1 1"), false, &[]), "differs at z;x=1;y=0;first=0;second=1;"),
];

/// Each difference, and chosen outputs.
#[rattlefmt::skip]
static WANTED: &[(&str, &str, Beside, &str)] = &[
    ("the first alone", BOTH, (None, None, false, &[]), "differs at p;a=0;first=0;second=1;"),
    ("each", BOTH, (None, None, true, &[]), "differs at p;a=0;first=0;second=1;differs at q;a=1;first=1;second=0;"),
    ("each, and none differs", EQUAL, (None, None, true, &[]), "equivalent;"),
    ("the first under an assumption", BOTH, (None, Some(".model h;.inputs a;.outputs e;.names a e;1 1"), false, &[]), "differs at p;a=1;first=1;second=0;"),
    ("each under an assumption", BOTH, (None, Some(".model h;.inputs a;.outputs e;.names a e;1 1"), true, &[]), "differs at p;a=1;first=1;second=0;differs at q;a=1;first=1;second=0;"),
    ("one of two is equal under it", BOTH, (None, Some(".model h;.inputs a;.outputs e;.names a e;0 1"), true, &[]), "differs at p;a=0;first=0;second=1;"),
    ("the second alone", BOTH, (None, None, false, &[b"q"]), "differs at q;a=1;first=1;second=0;"),
    ("both by name, in their order", BOTH, (None, None, true, &[b"q", b"p"]), "differs at p;a=0;first=0;second=1;differs at q;a=1;first=1;second=0;"),
    ("one name twice", BOTH, (None, None, true, &[b"q", b"q"]), "differs at q;a=1;first=1;second=0;"),
    ("equal where it is chosen", BOTH, (None, Some(".model h;.inputs a;.outputs e;.names a e;0 1"), false, &[b"q"]), "equivalent;"),
    ("no such output", BOTH, (None, None, false, &[b"p", b"r"]), "refused pair 0 43;"),
    ("43 before the order", BOTH, (Some("b"), None, false, &[b"r"]), "refused pair 0 43;"),
    ("43 before the assumption", BOTH, (None, Some(""), false, &[b"r"]), "refused pair 0 43;"),
    ("an input is no output", BOTH, (None, None, false, &[b"a"]), "refused pair 0 43;"),
];

/// Options of these numbers, by which each difference is wanted or not.
fn options_with(numbers: Numbers, every: bool) -> Options {
    Options {
        every,
        ..options(numbers)
    }
}

/// A reader of a text that may be missing.
fn reader(text: Option<&'static str>) -> Option<Feed<'static>> {
    match text {
        Some(text) => Some(Feed::whole(text)),
        None => None,
    }
}

/// How many workers, of so many that are waited for, compared outputs at once in a run that writes
/// this report, and has its status: none where it doesn't.
fn workers_with(
    rt: &(impl AllocGlobal + Threads + Wait + Sync),
    text: &'static str,
    beside: Beside,
    numbers: Numbers,
    awaited: u32,
    report: &str,
) -> Option<u32> {
    let (order, assume, every, names) = beside;
    let given = Given {
        texts: Texts::One(Feed::whole(text)),
        names: ModelNames::none(),
        order: reader(order),
        assume: reader(assume),
        outputs: OutputNames { names },
        options: options_with(numbers, every),
    };
    workers_on(rt, given, awaited, report)
}

/// The rows with several outputs to compare.
static SEVERAL: &[&str] = &[
    "two outputs under it",
    "the first alone",
    "each",
    "the first under an assumption",
    "each under an assumption",
    "one of two is equal under it",
    "both by name, in their order",
];

/// Each row has its report with each of the teams, whose threads are started where several outputs
/// are compared.
fn check_rows_with(
    rt: &(impl Abort + AllocGlobal + Threads + Wait + Sync),
    rows: &'static [(&'static str, &'static str, Beside, &'static str)],
) {
    for numbers in TEAMS {
        for (name, text, beside, report) in rows {
            let wanted = at_once(SEVERAL, name, *numbers);
            let workers = workers_with(rt, text, *beside, *numbers, wanted, report);
            let found = workers.is_some_and(|count| count >= wanted);
            holds_at(rt, Ok(found), name, *numbers);
        }
    }
}

#[test]
fn assumptions_say_what_counts(rt: HostRuntime) {
    check_rows_with(&rt, ASSUMED);
}

#[test]
fn differences_and_outputs_are_wanted(rt: HostRuntime) {
    check_rows_with(&rt, WANTED);
}

/// An assumption that allows nothing.
const NOTHING: &str = ".model h;.outputs e;.names e";

#[test]
fn a_run_takes_an_assumption(rt: HostRuntime) {
    let mut out = Vec::new(rt.alloc());
    let texts = Texts::One(Feed::whole(AND_OR));
    let assume = Some(Feed::whole(NOTHING));
    let done = run(
        &rt,
        rt.alloc(),
        texts,
        None,
        assume,
        &options(TEAMS[0]),
        &mut out,
    );
    assert_eq!(rt; done.ok(), status_of("vacuous;"));
    assert!(rt; is_text(&out, "vacuous;"));
}

#[test]
fn a_run_of_models_takes_an_assumption(rt: HostRuntime) {
    let mut out = Vec::new(rt.alloc());
    let texts = Texts::One(Feed::whole(AND_OR));
    let run = given(texts, None, Some(Feed::whole(NOTHING)), options(TEAMS[0]));
    let done = run_models(&rt, rt.alloc(), run, &mut out);
    let status = done.map(|finished| finished.status);
    assert_eq!(rt; status.ok(), status_of("vacuous;"));
    assert!(rt; is_text(&out, "vacuous;"));
}
