//! Texts whose author would like a run to be long, or a store to fill. That they are answered, and
//! how, is tested here; what they cost is measured by scripts.

use crate::ends::same;
use eqc_check::Options;
use eqc_run_testing::{TWO, options, reports_by, reports_on};
use eqc_testing::{doubling, input_names};
use std::alloc::{AllocError, Global};

/// Appends a part so many times.
fn repeat(text: &mut String, part: &str, count: u32) -> Result<(), AllocError> {
    for _k in 0..count {
        text.push_str(part)?;
    }
    Ok(())
}

/// A main model of two instances, each of two instances, and so on, sixteen models below one
/// another, and the head of the one below them, which has 131,072 instances; and an empty main
/// model.
fn doubled(alloc: Global) -> Result<String, AllocError> {
    let models = doubling(alloc, 17)?;
    format!(in alloc; ".model f;.subckt m1;.subckt m1;.end;.model g;.end;{models}")
}

#[test]
fn a_signal_driven_by_many_covers_is_refused(rt: HostRuntime) -> Result<(), AllocError> {
    let alloc = rt.alloc();
    let mut text = doubled(alloc)?;
    repeat(&mut text, ".names z;", 3_000)?;
    let found = reports_on(&rt, &text, TWO, "refused first 0 26;");
    same(&rt, found, true, "the report");
    Ok(())
}

#[test]
fn a_cover_of_many_columns_may_have_many_instances(rt: HostRuntime) -> Result<(), AllocError> {
    let alloc = rt.alloc();
    let mut text = doubled(alloc)?;
    text.push_str(".names s;.names")?;
    repeat(&mut text, " s", 1_000)?;
    text.push_str(" z;")?;
    let found = reports_on(&rt, &text, TWO, "equivalent;");
    same(&rt, found, true, "the report");
    Ok(())
}

/// A row of twenty columns that asks for a value of one of them.
fn row_of_one(text: &mut String, place: u32, value: &str) -> Result<(), AllocError> {
    for column in 0..20 {
        text.push_str(if column == place { value } else { "-" })?;
    }
    text.push_str(" 1;")
}

/// Rows of twenty columns that ask for each value of each column.
fn rows_of_each(alloc: Global) -> Result<String, AllocError> {
    let mut text = String::new(alloc);
    for place in 0..20 {
        row_of_one(&mut text, place, "1")?;
        row_of_one(&mut text, place, "0")?;
    }
    Ok(text)
}

/// Two models of twenty inputs: a cover of 4,080 rows that ask for one value each, both values of
/// each column among them, and the constant 1.
fn rows_of_one(alloc: Global) -> Result<String, AllocError> {
    let names = input_names(alloc, 20)?;
    let rows = rows_of_each(alloc)?;
    let mut all = String::new(alloc);
    repeat(&mut all, &rows, 102)?;
    format!(in alloc;
        ".model f;.inputs{names};.outputs z;.names{names} z;{all}.end;.model g;.inputs{names};.outputs z;.names z;1;"
    )
}

#[test]
fn a_cover_of_dashes_is_built(rt: HostRuntime) -> Result<(), AllocError> {
    let alloc = rt.alloc();
    let text = rows_of_one(alloc)?;
    let found = reports_on(&rt, &text, TWO, "equivalent;");
    same(&rt, found, true, "the report");
    Ok(())
}

/// The constant 0 and the last of 362 inputs.
fn last_of_many(alloc: Global) -> Result<String, AllocError> {
    let names = input_names(alloc, 362)?;
    format!(in alloc;
        ".model f;.inputs{names};.outputs z;.names z;.end;.model g;.inputs{names};.outputs z;.names i361 z;1 1;"
    )
}

/// The report that they differ where that input alone is 1.
fn difference_of_last(alloc: Global) -> Result<String, AllocError> {
    let mut report = String::from_str(alloc, "differs at z;")?;
    for k in 0..361 {
        report.push_str(&format!(in alloc; "i{k}=0;")?)?;
    }
    report.push_str("i361=1;first=0;second=1;")?;
    Ok(report)
}

#[test]
fn the_least_assignment_of_many_inputs_needs_few_nodes(rt: HostRuntime) -> Result<(), AllocError> {
    let alloc = rt.alloc();
    let text = last_of_many(alloc)?;
    let report = difference_of_last(alloc)?;
    let found = reports_on(&rt, &text, (2, 5_000, 8_192, 0), &report);
    same(&rt, found, true, "the report");
    Ok(())
}

/// The eight bits of a number, the highest first.
fn bits_of(alloc: Global, number: u32) -> Result<String, AllocError> {
    let mut bits = String::with_capacity(alloc, 8)?;
    for place in 0..8u32 {
        let is_set = number & 128u32.wrapping_shr(place) != 0;
        bits.push_str(if is_set { "1" } else { "0" })?;
    }
    Ok(bits)
}

/// Two models of eight inputs and 256 outputs, each true under one assignment in the first and
/// never in the second.
fn ones_and_none(alloc: Global) -> Result<String, AllocError> {
    let inputs = input_names(alloc, 8)?;
    let mut outputs = String::new(alloc);
    let mut ones = String::new(alloc);
    let mut none = String::new(alloc);
    for k in 0..256 {
        let bits = bits_of(alloc, k)?;
        outputs.push_str(&format!(in alloc; " z{k}")?)?;
        ones.push_str(&format!(in alloc; ".names{inputs} z{k};{bits} 1;")?)?;
        none.push_str(&format!(in alloc; ".names z{k};")?)?;
    }
    format!(in alloc;
        ".model f;.inputs{inputs};.outputs{outputs};{ones}.end;.model g;.inputs{inputs};.outputs{outputs};{none}.end;"
    )
}

/// The report that each differs, under its assignment.
fn each_differs(alloc: Global) -> Result<String, AllocError> {
    let mut report = String::new(alloc);
    for k in 0..256u32 {
        report.push_str(&format!(in alloc; "differs at z{k};")?)?;
        for place in 0..8u32 {
            let value = u8::from(k & 128u32.wrapping_shr(place) != 0);
            report.push_str(&format!(in alloc; "i{place}={value};")?)?;
        }
        report.push_str("first=1;second=0;")?;
    }
    Ok(report)
}

#[test]
fn all_of_many_differences_are_told(rt: HostRuntime) -> Result<(), AllocError> {
    let alloc = rt.alloc();
    let text = ones_and_none(alloc)?;
    let report = each_differs(alloc)?;
    let every = Options {
        every: true,
        ..options(TWO)
    };
    let found = reports_by(&rt, &text, &every, &report);
    same(&rt, found, true, "the report");
    Ok(())
}
