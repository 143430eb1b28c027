//! The calls below a run: pairs, the comparison of one output, least assignments and reports of
//! pairs. The expected words are worked out by hand: values of inputs in order, or a report.

use crate::ends::{holds, same};
use eqc_pair_testing::{Ask, is_ordered_answer};
use eqc_testing::{DIFFERENCE, EQUAL, Row, UNEQUAL, input_names};
use std::alloc::{AllocError, Global};
use std::process::Abort;

/// Two outputs, each of one input.
const APART: &str =
    ".model f;.inputs a b;.outputs z y;.names a z;1 1;.names b y;1 1;.end;.model g;.inputs a b;.outputs z y;.names a z;1 1;.names b y;1 1;.end;";

/// Inputs and outputs in another order, and the second output differs where `a` is 1.
const CROSSED: &str =
    ".model f;.inputs a b;.outputs z y;.names a z;1 1;.names b y;1 1;.end;.model g;.inputs b a;.outputs y z;.names a z;1 1;.names a b y;01 1;.end;";

/// The same inputs in two orders.
const THREE: &str = ".model f;.inputs x2 y x1;.end;.model g;.inputs x1 x2 y;.end;";

/// An order text, what is asked, and the answer.
type Asked = (&'static str, Ask, &'static str);

/// In each text the pair of its models gives the answer.
fn check_asked(rt: &(impl Abort + AllocGlobal), rows: &[Row<Asked>]) {
    for (name, text, (order, ask, wanted)) in rows {
        holds(
            rt,
            is_ordered_answer(rt, rt.alloc(), text, order, *ask, wanted),
            name,
        );
    }
}

/// Which output is compared, on a store of how many nodes, and the least assignment under which it
/// differs.
#[rattlefmt::skip]
static OUTPUTS: &[Row<Asked>] = &[
    ("conjunctions", EQUAL, ("", Ask::Output(0, 16), "none")),
    ("a conjunction and a disjunction", UNEQUAL, ("", Ask::Output(0, 16), "01")),
    ("the same in another order", UNEQUAL, ("y x", Ask::Output(0, 16), "01")),
    ("the same with one node", UNEQUAL, ("", Ask::Output(0, 1), "stopped 71")),
    ("an input with one node", APART, ("", Ask::Output(0, 1), "none")),
    ("another input with one node", APART, ("", Ask::Output(1, 1), "none")),
    ("an output in another place", CROSSED, ("", Ask::Output(0, 16), "none")),
    ("an output that differs", CROSSED, ("", Ask::Output(1, 16), "11")),
    ("the same in another order of inputs", CROSSED, ("b a", Ask::Output(1, 16), "11")),
    ("the other output with one node", CROSSED, ("", Ask::Output(0, 1), "none")),
];

#[test]
fn outputs_are_compared_one_by_one(rt: HostRuntime) {
    check_asked(&rt, OUTPUTS);
}

/// Variables of a pair with the inputs `x` and `y`, and the least assignment that makes the
/// variable true.
#[rattlefmt::skip]
static LITERALS: &[Row<Asked>] = &[
    ("x, the first variable", EQUAL, ("", Ask::Literal(0), "10")),
    ("y, the second variable", EQUAL, ("", Ask::Literal(1), "01")),
    ("y, the first variable", EQUAL, ("y x", Ask::Literal(0), "01")),
    ("x, the second variable", EQUAL, ("y x", Ask::Literal(1), "10")),
];

#[test]
fn least_assignments_go_by_inputs(rt: HostRuntime) {
    check_asked(&rt, LITERALS);
}

/// The variables have the inputs in the opposite order, and the least assignment is that of the
/// inputs all the same.
static EITHER: &[Row<Asked>] = &[("one of the inputs", EQUAL, ("y x", Ask::Either, "01"))];

#[test]
fn positions_decide_and_not_variables(rt: HostRuntime) {
    check_asked(&rt, EITHER);
}

/// Two characters, 256 times.
fn repeated(alloc: Global, two: &str) -> Result<String, AllocError> {
    let mut all = String::new(alloc);
    for _k in 0..256 {
        all.push_str(two)?;
    }
    Ok(all)
}

/// The constant 0, and the conjunction of every second of 512 inputs.
fn every_second(alloc: Global) -> Result<String, AllocError> {
    let names = input_names(alloc, 512)?;
    let row = repeated(alloc, "1-")?;
    format!(in alloc;
        ".model f;.inputs{names};.outputs z;.names z;.end;.model g;.inputs{names};.outputs z;.names{names} z;{row} 1;"
    )
}

/// The names of 512 inputs, the last one first.
fn backwards(alloc: Global) -> Result<String, AllocError> {
    let mut order = String::new(alloc);
    for k in 0..512_u32 {
        let name = format!(in alloc; " i{}", 511_u32.saturating_sub(k))?;
        order.push_str(&name)?;
    }
    Ok(order)
}

/// Whether the least assignment of `every_second` is found under an order text, in a store of so
/// many nodes.
fn is_least_of_many<R>(
    rt: &R,
    alloc: Global,
    text: &str,
    order: &str,
    nodes: u32,
) -> Result<bool, AllocError> {
    let answer = repeated(alloc, "10")?;
    is_ordered_answer(rt, alloc, text, order, Ask::Output(0, nodes), &answer)
}

/// Whether it is in the order of the inputs, and in the opposite one.
fn are_least_of_many<R>(rt: &R, alloc: Global, text: &str) -> Result<(bool, bool), AllocError> {
    let onwards = is_least_of_many(rt, alloc, text, "", 2_048)?;
    let order = backwards(alloc)?;
    let back = is_least_of_many(rt, alloc, text, &order, 65_536)?;
    Ok((onwards, back))
}

/// Where many inputs have to be 1 between others that are free, the least assignment is found in a
/// store that has room for the diagram of the difference and for those on the way to it.
#[test]
fn least_assignments_of_many_ones_take_no_nodes(rt: HostRuntime) -> Result<(), AllocError> {
    let text = every_second(rt.alloc())?;
    let found = are_least_of_many(&rt, rt.alloc(), &text)?;
    same(&rt, found, (true, true), "onwards and back");
    Ok(())
}

/// An order text of three words, which are those of the inputs, behind blanks and between comments.
#[rattlefmt::skip]
static ORDERED: &[Row<Asked>] = &[("three words", THREE, ("  x1\ty # z\r;#;x2\r#w", Ask::Order, "2;1;0;"))];

#[test]
fn an_order_text_has_words(rt: HostRuntime) {
    check_asked(&rt, ORDERED);
}

/// Reports, on stores of so many nodes.
#[rattlefmt::skip]
static REPORTS: &[Row<Asked>] = &[
    ("conjunctions", EQUAL, ("", Ask::Report(16), "equivalent;")),
    ("the same in another order", EQUAL, ("y x", Ask::Report(16), "equivalent;")),
    ("a conjunction and a disjunction", UNEQUAL, ("", Ask::Report(16), DIFFERENCE)),
    ("these in another order", UNEQUAL, ("y x", Ask::Report(16), DIFFERENCE)),
    ("conjunctions with one node", EQUAL, ("", Ask::Report(1), "stopped 71;")),
    ("the second of two outputs", CROSSED, ("", Ask::Report(16), "differs at y;a=1;b=1;first=1;second=0;")),
    ("an input left out", EQUAL, ("x", Ask::Report(16), "refused order 0 53;")),
    ("a word that is no input", EQUAL, ("x y z", Ask::Report(16), "refused order 0 51;")),
];

#[test]
fn pairs_are_reported(rt: HostRuntime) {
    check_asked(&rt, REPORTS);
}
