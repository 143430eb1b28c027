//! How many inputs may be compared: as many as the options say, of each netlist and of an
//! assumption, and a refusal of the options beyond their range.

use crate::ends::{holds_at, same};
use eqc_check::{Options, Texts, options_fault, run};
use eqc_run_testing::{TWO, options, status_of};
use eqc_testing::{Feed, input_names, is_text};
use std::alloc::{AllocError, Global};
use std::sync::Wait;
use std::thread::Threads;

/// Options that allow so many inputs.
fn allowing(inputs: u32) -> Options {
    Options {
        inputs,
        ..options(TWO)
    }
}

/// How many inputs are allowed, and the code of the options.
static RANGES: &[(u32, Option<u8>)] = &[
    (0, None),
    (65_535, None),
    (65_536, Some(85)),
    (u32::MAX, Some(85)),
];

#[test]
fn inputs_are_tested_at_their_bounds(rt: HostRuntime) {
    for (inputs, fault) in RANGES {
        same(&rt, options_fault(&allowing(*inputs)), *fault, inputs);
    }
}

#[test]
fn forks_are_looked_at_before_inputs(rt: HostRuntime) {
    let both = Options {
        forks: 17,
        ..allowing(65_536)
    };
    same(&rt, options_fault(&both), Some(84), "forks");
}

/// A model with so many inputs, and an output that is always 1.
fn model(alloc: Global, name: &str, inputs: u32) -> Result<String, AllocError> {
    let names = input_names(alloc, inputs)?;
    format!(in alloc; ".model {name}\n.inputs{names}\n.outputs y\n.names y\n1\n.end\n")
}

/// How many inputs two netlists have, and an assumption, if there is one.
type Widths = (u32, u32, Option<u32>);

/// The assumption, if there is one.
fn assumption(alloc: Global, inputs: Option<u32>) -> Result<Option<String>, AllocError> {
    match inputs {
        Some(inputs) => Ok(Some(model(alloc, "h", inputs)?)),
        None => Ok(None),
    }
}

/// Whether a run over these texts that allows so many inputs writes this report.
fn writes(
    rt: &(impl AllocGlobal + Threads + Wait + Sync),
    text: &str,
    assume: &Option<String>,
    limit: u32,
    report: &str,
) -> bool {
    let assume = match assume {
        Some(assume) => Some(Feed::whole(assume)),
        None => None,
    };
    let mut out = Vec::new(rt.alloc());
    let texts = Texts::One(Feed::whole(text));
    let done = run(
        rt,
        rt.alloc(),
        texts,
        None,
        assume,
        &allowing(limit),
        &mut out,
    );
    done.ok() == status_of(report) && is_text(&out, report)
}

/// Whether that is reported of netlists with so many inputs.
fn reports_within(
    rt: &(impl AllocGlobal + Threads + Wait + Sync),
    widths: Widths,
    limit: u32,
    report: &str,
) -> Result<bool, AllocError> {
    let alloc = rt.alloc();
    let (first, second, assumed) = widths;
    let (first, second) = (model(alloc, "f", first)?, model(alloc, "g", second)?);
    let text = format!(in alloc; "{first}{second}")?;
    let assume = assumption(alloc, assumed)?;
    Ok(writes(rt, &text, &assume, limit, report))
}

/// The inputs of two netlists and an assumption, how many are allowed, and the report.
#[rattlefmt::skip]
static LIMITED: &[(Widths, u32, &str)] = &[
    ((0, 0, None), 0, "equivalent;"),
    ((1, 1, None), 0, "refused first 0 30;"),
    ((1, 1, None), 1, "equivalent;"),
    ((2, 2, None), 1, "refused first 0 30;"),
    ((1, 2, None), 1, "refused second 0 30;"),
    ((2, 1, None), 1, "refused first 0 30;"),
    ((2, 2, Some(2)), 2, "equivalent;"),
    ((1, 1, Some(2)), 1, "refused assume 0 30;"),
    ((1, 1, Some(0)), 1, "equivalent;"),
    ((2_049, 2_049, None), 2_048, "refused first 0 30;"),
    ((2_049, 2_049, Some(2_049)), 2_049, "equivalent;"),
    ((1, 1, None), 65_535, "equivalent;"),
    ((65_535, 65_535, None), 65_535, "equivalent;"),
    ((1, 1, None), 65_536, "refused options 0 85;"),
];

#[test]
fn as_many_inputs_are_compared_as_the_options_allow(rt: HostRuntime) {
    for (widths, limit, report) in LIMITED {
        let found = reports_within(&rt, *widths, *limit, report);
        holds_at(&rt, found, report, (*widths, *limit));
    }
}
