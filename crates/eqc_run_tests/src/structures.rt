//! Netlists that are driven alike, down to the inputs: a store of one node, which no cover of two
//! columns fits, is enough for them. Covers that only mean the same are not looked into.
ghost use Rattle.std.specs.Prelude.{◌+◌, ◌<◌, ◌^◌};

use crate::ends::{holds, same};
use crate::rows::{check_runs, check_runs_by_several};
use eqc_check::Options;
use eqc_run_testing::{Numbers, TWO, options, reports_by, reports_on};
use eqc_testing::Row;
use std::alloc::{AllocError, Global};
use std::sync::Wait;
use std::thread::Threads;

/// What is compared, its text, and its report with one node.
#[rattlefmt::skip]
static ROWS: &[Row<&str>] = &[
    ("a netlist with itself", ".model f;.inputs x y;.outputs z;.names x y z;11 1;.end;.model g;.inputs x y;.outputs z;.names x y z;11 1;.end;", "equivalent;"),
    ("inputs and outputs in another order", ".model f;.inputs x y;.outputs z w;.names x y z;10 1;.names y x w;10 1;.end;.model g;.inputs y x;.outputs w z;.names y x w;10 1;.names x y z;10 1;.end;", "equivalent;"),
    ("covers in another order, under other names", ".model f;.inputs x y;.outputs z;.names s t z;1- 1;-1 1;.names x y s;11 1;.names x y t;00 1;.end;.model g;.inputs x y;.outputs z;.names x y b;00 1;.names x y a;11 1;.names a b z;1- 1;-1 1;.end;", "equivalent;"),
    ("covers that pass their column on, by a row for 1 and by one for 0", ".model f;.inputs x y;.outputs z;.names x y z;11 1;.end;.model g;.inputs x y;.outputs z;.names x s;1 1;.names y t;0 0;.names s t u;11 1;.names u z;1 1;.end;", "equivalent;"),
    ("an instance of a model", ".model f;.inputs x y;.outputs z;.names x y z;11 1;.end;.model g;.inputs x y;.outputs z;.subckt h a=x b=y o=z;.end;.model h;.inputs a b;.outputs o;.names a b o;11 1;.end;", "equivalent;"),
    ("constants by no row, and by no column", ".model f;.inputs x y;.outputs z;.names x c;.names c y z;01 1;.end;.model g;.inputs x y;.outputs z;.names c;.names c y z;01 1;.end;", "equivalent;"),
    ("constants that differ", ".model f;.inputs x y;.outputs z;.names c;.names c y z;01 1;.end;.model g;.inputs x y;.outputs z;.names c;1;.names c y z;01 1;.end;", "differs at z;x=0;y=1;first=1;second=0;"),
    ("columns in another order", ".model f;.inputs x y;.outputs z;.names x y z;11 1;.end;.model g;.inputs x y;.outputs z;.names y x z;11 1;.end;", "stopped 71;"),
    ("rows in another order", ".model f;.inputs x y;.outputs z;.names x y z;10 1;01 1;.end;.model g;.inputs x y;.outputs z;.names x y z;01 1;10 1;.end;", "stopped 71;"),
    ("rows that differ in the last byte", ".model f;.inputs x y;.outputs z;.names x y z;11 1;.end;.model g;.inputs x y;.outputs z;.names x y z;11 0;.end;", "stopped 71;"),
    ("one row more", ".model f;.inputs x y;.outputs z;.names x y z;10 1;.end;.model g;.inputs x y;.outputs z;.names x y z;10 1;01 1;.end;", "stopped 71;"),
    ("inverters of one column", ".model f;.inputs x y;.outputs z;.names x s;0 1;.names s y z;11 1;.end;.model g;.inputs x y;.outputs z;.names x s;1 0;.names s y z;11 1;.end;", "stopped 71;"),
    ("one of two outputs", ".model f;.inputs x y;.outputs z w;.names x y z;11 1;.names x y w;11 1;.end;.model g;.inputs x y;.outputs z w;.names x y z;11 1;.names y x w;11 1;.end;", "stopped 71;"),
    ("an output that differs behind one that does not", ".model f;.inputs x y;.outputs z w;.names x y z;11 1;.names x w;1 1;.end;.model g;.inputs x y;.outputs z w;.names x y z;11 1;.names w;.end;", "differs at w;x=1;y=0;first=1;second=0;"),
    ("inputs of one place and another name", ".model f;.inputs x y;.outputs z;.names x z;1 1;.end;.model g;.inputs y x;.outputs z;.names y z;1 1;.end;", "stopped 71;"),
];

/// Workers and forks with a store of one node.
static WITH_ONE_NODE: &[Numbers] = &[
    (1, 1, 8_192, 0),
    (2, 1, 8_192, 0),
    (8, 1, 8_192, 16),
    (64, 1, 8_192, 0),
];

#[test]
fn one_node_is_enough_where_structures_are_equal(rt: HostRuntime) {
    check_runs(&rt, WITH_ONE_NODE, ROWS);
}

/// What two netlists have in common under outputs that are compared, their text, and their report.
#[rattlefmt::skip]
static SHARED: &[Row<&str>] = &[
    ("a gate under columns in another order", ".model f;.inputs x y w;.outputs z;.names x y s;11 1;.names s w z;1- 1;-1 1;.end;.model g;.inputs x y w;.outputs z;.names x y s;11 1;.names w s z;1- 1;-1 1;.end;", "equivalent;"),
    ("a gate that two outputs need, behind a connection in the second netlist", ".model f;.inputs x y w;.outputs z v;.names x y s;11 1;.names s w z;1- 1;-1 1;.names s w v;11 1;.end;.model g;.inputs x y w;.outputs z v;.names x y t;11 1;.names t s;1 1;.names w s z;1- 1;-1 1;.names w s v;11 1;.end;", "equivalent;"),
    ("a gate that only the second netlist needs for the first output", ".model f;.inputs x y;.outputs z v;.names x z;1 1;.names x y v;11 1;.end;.model g;.inputs x y;.outputs z v;.names x y s;11 1;.names x s z;1- 1;-1 1;.names s x v;11 1;.end;", "equivalent;"),
    ("a gate under another cover", ".model f;.inputs x y w;.outputs z;.names x y s;11 1;.names s w z;11 1;.end;.model g;.inputs x y w;.outputs z;.names x y s;11 1;.names s w z;1- 1;-1 1;.end;", "differs at z;x=0;y=0;w=1;first=0;second=1;"),
    ("an output of one structure between others", ".model f;.inputs x y;.outputs u v w;.names x y s;10 1;.names s y u;1- 1;-1 1;.names s v;1 1;.names s x w;11 1;.end;.model g;.inputs x y;.outputs u v w;.names x y s;10 1;.names y s u;1- 1;-1 1;.names s v;1 1;.names s x w;0- 1;.end;", "differs at w;x=0;y=0;first=0;second=1;"),
];

/// The rows with several outputs to compare.
static SEVERAL: &[&str] = &[
    "a gate that two outputs need, behind a connection in the second netlist",
    "an output of one structure between others",
];

/// Workers and forks.
static BY_WORKERS: &[Numbers] = &[
    (1, 65_536, 8_192, 0),
    (1, 1_023, 8_192, 0),
    (3, 1_023, 8_192, 0),
    (8, 1_023, 8_192, 16),
    (64, 1_023, 8_192, 0),
];

#[test]
fn what_both_netlists_have_is_built_for_both(rt: HostRuntime) {
    check_runs_by_several(&rt, BY_WORKERS, SHARED, SEVERAL);
}

/// Declares the bits of two numbers as inputs and those of a result as outputs, and drives the
/// first carry.
fn ports(alloc: Global, text: &mut String, bits: u32) -> Result<(), AllocError> {
    text.push_str(".inputs s1 s0")?;
    for name in ["a", "b"] {
        for k in 0..bits {
            text.push_str(&format!(in alloc; " {name}{k}")?)?;
        }
    }
    text.push_str(";.outputs")?;
    for k in 0..bits {
        text.push_str(&format!(in alloc; " r{k}")?)?;
    }
    text.push_str(";.names c0;")
}

/// A bit of an arithmetic unit, which adds or gives a conjunction, a disjunction or an exclusive
/// or. It ends with this row.
fn bit(alloc: Global, text: &mut String, k: u32, last_row: &str) -> Result<(), AllocError>
    requires { k + 1 < 2 ^ 32 }
{
    let next = k + 1;
    text.push_str(&format!(in alloc;
        ".names a{k} b{k} x{k};10 1;01 1;.names a{k} b{k} g{k};11 1;"
    )?)?;
    text.push_str(&format!(in alloc;
        ".names x{k} c{k} t{k};10 1;01 1;.names g{k} x{k} c{k} c{next};1-- 1;-11 1;"
    )?)?;
    text.push_str(&format!(in alloc;
        ".names s1 s0 t{k} g{k} x{k} r{k};001-- 1;01-1- 1;10-1- 1;10--1 1;"
    )?)?;
    text.push_str(last_row)
}

/// A model of a unit of so many bits, whose last bit ends with this row.
fn unit(
    alloc: Global,
    text: &mut String,
    name: &str,
    bits: u32,
    last_row: &str,
) -> Result<(), AllocError> {
    text.push_str(&format!(in alloc; ".model {name};")?)?;
    ports(alloc, text, bits)?;
    for k in 0..bits {
        let row = if k + 1 == bits { last_row } else { "11--1 1;" };
        bit(alloc, text, k, row)?;
    }
    text.push_str(".end;")
}

/// Two units of 32 bits, whose last bits end with these rows. In the order of their inputs the sums
/// fill a store.
fn units(alloc: Global, first: &str, second: &str) -> Result<String, AllocError> {
    let mut text = String::new(alloc);
    unit(alloc, &mut text, "f", 32, first)?;
    unit(alloc, &mut text, "g", 32, second)?;
    Ok(text)
}

/// Whether units whose last bits end with these rows are reported so within so many nodes.
fn are_reported(
    rt: &(impl AllocGlobal + Threads + Wait + Sync),
    second: &str,
    nodes: u32,
    report: &str,
) -> Result<bool, AllocError> {
    let text = units(rt.alloc(), "11--1 1;", second)?;
    Ok(reports_on(rt, &text, (2, nodes, 8_192, 0), report))
}

#[test]
fn a_unit_is_compared_with_itself(rt: HostRuntime) {
    for (second, nodes, report) in [
        ("11--1 1;", 1, "equivalent;"),
        ("11--0 1;", 1_000, "stopped 71;"),
    ] {
        holds(&rt, are_reported(&rt, second, nodes, report), report);
    }
}

/// Two units of so many bits that differ in their last bit: the exclusive or of 0 and 0.
fn changed_units(alloc: Global, bits: u32) -> Result<String, AllocError> {
    let mut text = String::new(alloc);
    unit(alloc, &mut text, "f", bits, "11--1 1;")?;
    unit(alloc, &mut text, "g", bits, "11--0 1;")?;
    Ok(text)
}

/// The report on them.
fn last_bit(alloc: Global, bits: u32) -> Result<String, AllocError> {
    let last = bits.saturating_sub(1);
    let mut report = format!(in alloc; "differs at r{last};s1=1;s0=1;")?;
    for name in ["a", "b"] {
        for k in 0..bits {
            report.push_str(&format!(in alloc; "{name}{k}=0;")?)?;
        }
    }
    report.push_str("first=0;second=1;")?;
    Ok(report)
}

#[test]
fn outputs_before_a_changed_one_need_no_node(rt: HostRuntime) -> Result<(), AllocError> {
    let text = changed_units(rt.alloc(), 4)?;
    let report = last_bit(rt.alloc(), 4)?;
    let found = reports_on(&rt, &text, TWO, &report);
    same(&rt, found, true, "four bits");
    Ok(())
}

/// Numbers of workers and nodes, and whether diagrams alone decide a pair with them that needs more
/// nodes than the store has in which a comparison begins.
static ROOMS: &[(u32, u32, bool)] = &[
    (2, 65_536, false),
    (1, 1_048_574, true),
    (2, 1_048_574, true),
];

#[test]
fn a_comparison_goes_on_in_the_whole_forest(rt: HostRuntime) -> Result<(), AllocError> {
    let text = changed_units(rt.alloc(), 16)?;
    let report = last_bit(rt.alloc(), 16)?;
    for (workers, nodes, decides) in ROOMS {
        let diagrams = Options {
            conflicts: 0,
            ..options((*workers, *nodes, 8_192, 0))
        };
        let wanted = if *decides { &*report } else { "stopped 71;" };
        let found = reports_by(&rt, &text, &diagrams, wanted);
        same(&rt, found, true, *nodes);
    }
    same(&rt, reports_on(&rt, &text, TWO, &report), true, "a search");
    Ok(())
}
