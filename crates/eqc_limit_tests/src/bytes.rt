//! How many bytes the text of a netlist may have: as many as the options say, of each netlist and
//! of an assumption, while an order text has a limit of its own, and a refusal of the options
//! beyond their range.

use crate::ends::{holds_at, same};
use eqc_check::{Options, Texts, options_fault, run};
use eqc_run_testing::{TWO, options, status_of};
use eqc_testing::{Feed, is_text};
use std::alloc::{AllocError, Global};
use std::sync::Wait;
use std::thread::Threads;

/// Options that allow so many bytes.
fn allowing(bytes: u32) -> Options {
    Options {
        bytes,
        ..options(TWO)
    }
}

/// How many bytes are allowed, and the code of the options.
static RANGES: &[(u32, Option<u8>)] = &[
    (0, None),
    (2_147_483_647, None),
    (2_147_483_648, Some(86)),
    (u32::MAX, Some(86)),
];

#[test]
fn bytes_are_tested_at_their_bounds(rt: HostRuntime) {
    for (bytes, fault) in RANGES {
        same(&rt, options_fault(&allowing(*bytes)), *fault, bytes);
    }
}

#[test]
fn inputs_are_looked_at_before_bytes(rt: HostRuntime) {
    let both = Options {
        inputs: 65_536,
        ..allowing(2_147_483_648)
    };
    same(&rt, options_fault(&both), Some(85), "inputs");
}

/// A netlist of so many bytes, of which the last ones are line ends. It has 31 at least.
fn netlist(alloc: Global, bytes: usize) -> Result<Vec<u8>, AllocError> {
    let mut text = Vec::from_slice(alloc, b".model f\n.outputs y\n.names y\n1\n")?;
    text.resize(bytes.max(text.len()), b'\n')?;
    Ok(text)
}

/// How many bytes two netlists have, and an order text and an assumption, of which each may be
/// missing.
type Sizes = (usize, usize, Option<usize>, Option<usize>);

/// A netlist that may be missing.
fn assumption(alloc: Global, bytes: Option<usize>) -> Result<Option<Vec<u8>>, AllocError> {
    match bytes {
        Some(bytes) => Ok(Some(netlist(alloc, bytes)?)),
        None => Ok(None),
    }
}

/// An order text of no inputs that may be missing.
fn order(alloc: Global, bytes: Option<usize>) -> Result<Option<Vec<u8>>, AllocError> {
    match bytes {
        Some(bytes) => Ok(Some(vec![in alloc; b'\n'; bytes]?)),
        None => Ok(None),
    }
}

/// A reader of a text that may be missing.
fn feed_of(text: &Option<Vec<u8>>) -> Option<Feed<'_>> {
    match text {
        Some(text) => Some(Feed::of_bytes(text)),
        None => None,
    }
}

/// The texts of a run.
#[derive(Drop)]
struct Given {
    first: Vec<u8>,
    second: Vec<u8>,
    order: Option<Vec<u8>>,
    assume: Option<Vec<u8>>,
}

/// Whether a run over these texts that allows so many bytes writes this report.
fn writes(
    rt: &(impl AllocGlobal + Threads + Wait + Sync),
    given: &Given,
    limit: u32,
    report: &str,
) -> bool {
    let texts = Texts::Two(Feed::of_bytes(&given.first), Feed::of_bytes(&given.second));
    let (order, assume) = (feed_of(&given.order), feed_of(&given.assume));
    let mut out = Vec::new(rt.alloc());
    let options = allowing(limit);
    let done = run(rt, rt.alloc(), texts, order, assume, &options, &mut out);
    done.ok() == status_of(report) && is_text(&out, report)
}

/// Whether that is reported of texts of so many bytes.
fn reports_within(
    rt: &(impl AllocGlobal + Threads + Wait + Sync),
    sizes: Sizes,
    limit: u32,
    report: &str,
) -> Result<bool, AllocError> {
    let alloc = rt.alloc();
    let (first, second, ordered, assumed) = sizes;
    let given = Given {
        first: netlist(alloc, first)?,
        second: netlist(alloc, second)?,
        order: order(alloc, ordered)?,
        assume: assumption(alloc, assumed)?,
    };
    Ok(writes(rt, &given, limit, report))
}

/// The bytes of two netlists, an order text and an assumption, how many are allowed, and the
/// report.
#[rattlefmt::skip]
static LIMITED: &[(Sizes, u32, &str)] = &[
    ((40, 40, None, None), 40, "equivalent;"),
    ((41, 40, None, None), 40, "refused first 0 2;"),
    ((40, 41, None, None), 40, "refused second 0 2;"),
    ((41, 41, None, None), 40, "refused first 0 2;"),
    ((40, 40, None, None), 0, "refused first 0 2;"),
    ((40, 40, None, Some(40)), 40, "equivalent;"),
    ((40, 40, None, Some(41)), 40, "refused assume 0 2;"),
    ((40, 40, Some(41), None), 40, "equivalent;"),
    ((40, 40, Some(16_777_217), None), 16_777_217, "refused order 0 2;"),
    ((16_777_216, 40, None, None), 16_777_216, "equivalent;"),
    ((16_777_217, 40, None, None), 16_777_216, "refused first 0 2;"),
    ((16_777_217, 40, None, None), 16_777_217, "equivalent;"),
    ((16_777_218, 40, None, None), 16_777_217, "refused first 0 2;"),
    ((40, 17_000_000, None, None), 2_147_483_647, "equivalent;"),
    ((40, 40, None, None), 2_147_483_648, "refused options 0 86;"),
];

#[test]
fn as_many_bytes_are_read_as_the_options_allow(rt: HostRuntime) {
    for (sizes, limit, report) in LIMITED {
        let found = reports_within(&rt, *sizes, *limit, report);
        holds_at(&rt, found, report, (*sizes, *limit));
    }
}
