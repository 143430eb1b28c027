//! A member that is allowed few turns: its operations stop with the node limit though there is
//! room, and those that are small don't.

use crate::builders::{Builder, Wanted, lone};
use crate::ends::same;
use eqc_tree::{Op, Stop};
use std::process::Abort;
use std::sync::Wait;

/// How many pairs of variables there are: the first ones of all pairs come before the second ones.
const PAIRS: u16 = 11;

/// A variable of no pair.
const OTHER: u16 = 2 * PAIRS;

/// Makes the diagram that tells whether some pair is true in both its variables. In this order each
/// pair doubles it, so the last operations have thousands of turns.
fn some_pair(rt: &(impl Abort + Wait), builder: &mut Builder) -> Result<(), Stop> {
    let mut some = builder.make(rt, Wanted::Constant(false))?;
    for variable in 0..PAIRS {
        let first = builder.make(rt, Wanted::Literal(variable))?;
        let second = builder.make(rt, Wanted::Literal(variable + PAIRS))?;
        let both = builder.make(rt, Wanted::Applied(Op::And, first, second))?;
        some = builder.make(rt, Wanted::Applied(Op::Or, some, both))?;
    }
    Ok(())
}

/// Makes two nodes that were not there, one of them by an operation.
fn two_more(rt: &(impl Abort + Wait), builder: &mut Builder) -> Result<(), Stop> {
    let first = builder.make(rt, Wanted::Literal(0))?;
    let other = builder.make(rt, Wanted::Literal(OTHER))?;
    builder.make(rt, Wanted::Applied(Op::Xor, first, other))?;
    Ok(())
}

static ALLOWED: &[(&str, Option<u64>, Result<(), Stop>)] = &[
    ("as many as it needs", None, Ok(())),
    ("a million", Some(1_000_000), Ok(())),
    ("a thousand", Some(1_000), Err(Stop::NodeLimit)),
    ("none", Some(0), Err(Stop::NodeLimit)),
];

#[test]
fn operations_end_with_the_turns_that_are_allowed(rt: HostRuntime) {
    for (row, turns, wanted) in ALLOWED {
        let mut builder = lone(&rt, OTHER + 1, 65_536, *turns);
        same(&rt, some_pair(&rt, &mut builder), *wanted, *row);
        same(&rt, two_more(&rt, &mut builder), Ok(()), "there is room");
        same(&rt, builder.close(&rt), 0, "close");
    }
}
