//! Snapshots of cached results: how many are out at a time, what is told of them, and what of a
//! forest outlives a collection.

use crate::ends::same;
use crate::makers::{Maker, planted};
use crate::peekers::Peeker;
use std::process::Abort;
use std::sync::Wait;

/// The constants' numbers.
const FALSE: u32 = 0;

const TRUE: u32 = 1;

/// Makes a node that there is room for.
fn node(rt: &(impl Abort + Wait), maker: &mut Maker, var: u16, low: u32, high: u32) -> u32 {
    match maker.mk(rt, var, low, high) {
        Ok(x) => x,
        Err(_) => panic!(rt; "there is room"),
    }
}

/// A worker that holds the literals of two variables and their and, which the cache has as such;
/// and their numbers.
fn stored(rt: &(impl Abort + Wait + AllocGlobal)) -> (Peeker, u32, u32, u32) {
    let mut maker = planted(rt, 2, 4, 8, 1);
    let x = node(rt, &mut maker, 0, FALSE, TRUE);
    let y = node(rt, &mut maker, 1, FALSE, TRUE);
    let r = node(rt, &mut maker, 0, FALSE, y);
    maker.store_and(rt, x, y, r);
    (Peeker::of(rt, maker), x, y, r)
}

#[test]
fn a_result_is_compared_and_counted_only_when_it_is_kept(rt: HostRuntime) {
    let (mut peeker, x, y, r) = stored(&rt);
    same(&rt, peeker.worker.held(), 3, "held");
    same(&rt, peeker.peek_and(&rt, x, y), true, "the first");
    same(&rt, peeker.worker.held(), 3, "held still");
    same(&rt, peeker.is_same(&rt, 0, r), true, "the result");
    same(&rt, peeker.is_same(&rt, 0, x), false, "an operand");
    same(&rt, peeker.peek_and(&rt, y, x), true, "the second");
    same(&rt, peeker.peek_and(&rt, x, y), true, "the third");
    same(&rt, peeker.peek_and(&rt, x, y), false, "a fourth");
    same(&rt, peeker.is_same(&rt, 2, r), true, "the third is out");
    peeker.unpeek(&rt);
    same(&rt, peeker.peek_and(&rt, x, y), true, "a word is free");
    same(&rt, peeker.keep(&rt, 0), r, "kept");
    same(&rt, peeker.worker.held(), 4, "one more is held");
    for x in [x, y, r, r] {
        peeker.give_back(&rt, x);
    }
    for _ in 0..3 {
        peeker.unpeek(&rt);
    }
    same(&rt, peeker.collect(&rt), 3, "collect");
    same(&rt, peeker.close(&rt), 0, "close");
}

#[test]
fn a_result_that_is_read_outlives_a_collection(rt: HostRuntime) {
    let (mut peeker, x, y, r) = stored(&rt);
    same(&rt, peeker.peek_and(&rt, x, y), true, "peek");
    for x in [x, y, r] {
        peeker.give_back(&rt, x);
    }
    same(&rt, peeker.collect(&rt), 1, "the other operand");
    let mut peeker = peeker.is_refused(&rt);
    peeker.unpeek(&rt);
    same(&rt, peeker.collect(&rt), 2, "the result and its child");
    same(&rt, peeker.close(&rt), 0, "close");
}

#[test]
fn no_snapshot_is_taken_of_what_is_not_there(rt: HostRuntime) {
    let mut maker = planted(&rt, 2, 4, 8, 1);
    let x = node(&rt, &mut maker, 0, FALSE, TRUE);
    let mut peeker = Peeker::of(&rt, maker);
    same(&rt, peeker.peek_and(&rt, x, x), false, "a miss");
    peeker.give_back(&rt, x);
    same(&rt, peeker.collect(&rt), 1, "collect");
    same(&rt, peeker.close(&rt), 0, "close");
}
