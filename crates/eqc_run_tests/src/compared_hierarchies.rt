//! Runs over hierarchies: covers of covers, instances, ties, and their refusals.

use crate::ends::{holds, same};
use crate::rows::check_runs_by_several;
use eqc_run_testing::{ADDERS, Numbers, TEAMS, TWO, WRONG_ADDERS, WRONG_SUM, reports_on};
use eqc_testing::{Row, doubling, input_names};
use std::alloc::{AllocError, Global};
use std::sync::Wait;
use std::thread::Threads;

/// The exclusive or of three inputs, by one cover and by two.
const PARITY: &str =
    ".model f;.inputs a b c;.outputs z;.names a b c z;100 1;010 1;001 1;111 1;.end;.model g;.inputs a b c;.outputs z;.names a b t;10 1;01 1;.names t c z;10 1;01 1;.end;";

/// What is compared, its text, and its report.
#[rattlefmt::skip]
static ROWS: &[Row<&str>] = &[
    ("outputs that are an instance's inputs", ".model f;.inputs a;.outputs z;.subckt two i=a o=t j=t p=z;.end;.model g;.inputs a;.outputs z;.names a z;1 1;.end;.model two;.inputs i j;.outputs o p;.names i o;1 1;.names j p;1 1;.end;", "equivalent;"),
    ("a circle in the first netlist", ".model f;.inputs a;.outputs;.names u v;1 1;.names v u;1 1;.end;.model g;.inputs a;.outputs;.end;", "refused first 0 28;"),
    ("a circle in the second netlist", ".model f;.inputs a;.outputs;.end;.model g;.inputs a;.outputs;.names u v;1 1;.names v u;1 1;.end;", "refused second 0 28;"),
    ("models that contain one another", ".model f;.subckt h;.end;.model g;.end;.model h;.subckt f;.end;", "refused first 0 22;"),
    ("an input that is an output", ".model f;.inputs a;.outputs a;.end;.model g;.inputs a;.outputs a;.end;", "equivalent;"),
    ("an input that is driven", ".model f;.inputs a;.outputs a;.names a;1;.end;.model g;.inputs a;.outputs a;.end;", "refused first 0 26;"),
    ("a signal in two columns", ".model f;.inputs a;.outputs z;.names a a z;10 1;.end;.model g;.inputs a;.outputs z;.names z;.end;", "equivalent;"),
    ("a missing model", ".model f;.inputs a;.outputs z;.subckt k i=a o=z;.end;.model g;.end;.model h;.inputs i;.outputs o;.names i o;1 1;.end;", "refused first 0 21;"),
    ("a formal that is no port", ".model f;.inputs a;.outputs z;.subckt h i=a q=z;.end;.model g;.end;.model h;.inputs i;.outputs o;.names i o;1 1;.end;", "refused first 0 23;"),
    ("a formal twice", ".model f;.inputs a;.outputs z;.subckt h i=a i=a o=z;.end;.model g;.end;.model h;.inputs i;.outputs o;.names i o;1 1;.end;", "refused first 0 24;"),
    ("an input without a pair", ".model f;.inputs a;.outputs z;.subckt h o=z;.end;.model g;.end;.model h;.inputs i;.outputs o;.names i o;1 1;.end;", "refused first 0 25;"),
    ("a signal driven by a cover and an instance", ".model f;.inputs a;.outputs z;.names a z;1 1;.subckt h i=a o=z;.end;.model g;.end;.model h;.inputs i;.outputs o;.names i o;1 1;.end;", "refused first 0 26;"),
    ("an output that nothing drives", ".model f;.inputs a;.outputs z;.subckt h i=a;.end;.model g;.end;.model h;.inputs i;.outputs o;.names i o;1 1;.end;", "refused first 0 27;"),
    ("an input of an instance that is its output", ".model f;.inputs a;.outputs z;.subckt h i=a o=z;.end;.model g;.inputs a;.outputs z;.names a z;1 1;.end;.model h;.inputs i o;.outputs o;.names o o;1 1;.end;", "refused first 0 26;"),
    ("one cover by two covers", ".model f;.inputs a b c;.outputs z;.names a b c z;100 1;010 1;001 1;111 1;.end;.model g;.inputs a b c;.outputs z;.names a b t;10 1;01 1;.names t c z;10 1;01 1;.end;", "equivalent;"),
    ("adders", ADDERS, "equivalent;"),
    ("wrong adders", WRONG_ADDERS, WRONG_SUM),
];

/// The rows with several outputs to compare: in the others no two signals of an output have two
/// structures, or there is one output.
static SEVERAL: &[&str] = &["adders", "wrong adders"];

#[test]
fn hierarchies_are_compared(rt: HostRuntime) {
    check_runs_by_several(&rt, TEAMS, ROWS, SEVERAL);
}

/// Workers and forks, which change no report.
static MORE_TEAMS: &[Numbers] = &[
    (1, 65_536, 8_192, 16),
    (1, 1_023, 8_192, 16),
    (2, 1_023, 8_192, 16),
    (64, 1_023, 8_192, 16),
];

/// The adders, which halves and forks of an operation are for.
static BOTH: &[Row<&str>] = &[
    ("adders", ADDERS, "equivalent;"),
    ("wrong adders", WRONG_ADDERS, WRONG_SUM),
];

#[test]
fn workers_and_forks_change_no_report(rt: HostRuntime) {
    check_runs_by_several(&rt, MORE_TEAMS, BOTH, SEVERAL);
}

#[test]
fn a_small_store_stops_covers_of_covers(rt: HostRuntime) {
    let found = reports_on(&rt, PARITY, (2, 2, 8_192, 0), "stopped 71;");
    same(&rt, found, true, "two nodes");
}

/// A main model of two instances, each of two instances, and so on, twenty models below one
/// another; and an empty one.
fn doubled(alloc: Global) -> Result<String, AllocError> {
    let models = doubling(alloc, 20)?;
    format!(in alloc; ".model f;.subckt m1;.subckt m1;.end;.model g;.end;{models}.end;")
}

/// A main model with one input more than there may be.
fn too_many_inputs(alloc: Global) -> Result<String, AllocError> {
    let names = input_names(alloc, 2_049)?;
    format!(in alloc; ".model f;.inputs{names};.end;.model g;.end;")
}

/// Two models with as many inputs as there may be.
fn most_inputs(alloc: Global) -> Result<String, AllocError> {
    let names = input_names(alloc, 2_048)?;
    format!(in alloc; ".model f;.inputs{names};.end;.model g;.inputs{names};.end;")
}

/// Whether this is reported of a text.
fn is_reported(
    rt: &(impl AllocGlobal + Threads + Wait + Sync),
    text: Result<String, AllocError>,
    report: &str,
) -> Result<bool, AllocError> {
    match text {
        Ok(text) => Ok(reports_on(rt, &text, TWO, report)),
        Err(error) => Err(error),
    }
}

#[test]
fn limits_of_hierarchies_are_told(rt: HostRuntime) {
    let found = is_reported(&rt, doubled(rt.alloc()), "refused first 0 29;");
    holds(&rt, found, "signals");
    let found = is_reported(&rt, too_many_inputs(rt.alloc()), "refused first 0 30;");
    holds(&rt, found, "inputs");
    let found = is_reported(&rt, most_inputs(rt.alloc()), "equivalent;");
    holds(&rt, found, "most inputs");
}
