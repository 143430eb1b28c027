//! The numbers of operations and stops: tags stand in the words of cached results, codes in
//! reports.

use crate::ends::same;
use eqc_tree::{Op, Stop};

/// Operations, and their numbers.
static TAGS: &[(Op, u8)] = &[(Op::And, 1), (Op::Or, 2), (Op::Xor, 3), (Op::AndNot, 4)];

#[test]
fn operations_have_their_numbers(rt: HostRuntime) {
    for (op, tag) in TAGS {
        same(&rt, op.tag(), *tag, tag);
    }
}

/// Numbers, and their operations.
static OPERATIONS: &[(u8, Option<Op>)] = &[
    (0, None),
    (1, Some(Op::And)),
    (2, Some(Op::Or)),
    (3, Some(Op::Xor)),
    (4, Some(Op::AndNot)),
    (5, None),
];

#[test]
fn numbers_have_their_operations(rt: HostRuntime) {
    for (tag, op) in OPERATIONS {
        same(&rt, Op::of_tag(*tag), *op, tag);
    }
}

/// Stops, and their codes.
static CODES: &[(Stop, u8)] = &[
    (Stop::NodeLimit, 71),
    (Stop::Memory, 72),
    (Stop::References, 73),
    (Stop::Threads, 74),
];

#[test]
fn stops_have_their_codes(rt: HostRuntime) {
    for (stop, code) in CODES {
        same(&rt, stop.code(), *code, code);
    }
}
