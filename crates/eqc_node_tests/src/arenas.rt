//! The arena of the shared forest: what no clause says, as which number a node has and how many a
//! collection takes back.
ghost use Rattle.std.specs.Prelude.{◌≡◌, ◌≤◌};
ghost use Rattle.eqc_core.specs.Announcing.{MayAnnounce};
ghost use Rattle.eqc_cache.specs.Finding.{IsTaken};

use crate::ends::{keep, same};
use crate::makers::{Maker, planted};
use eqc_guard::fault::SplitFault;
use eqc_guard::reference::Ref;
use eqc_guard::worker::Worker;
use eqc_tree::{Stop, unpack_cell};
use std::process::Abort;
use std::sync::Wait;
use std::thread::join_mut;

/// The constants' numbers.
const FALSE: u32 = 0;

const TRUE: u32 = 1;

/// Makes a node that there is room for.
fn node(rt: &(impl Abort + Wait), maker: &mut Maker, var: u16, low: u32, high: u32) -> u32
    ensures { maker.new.worker.forest ≡ maker.old.worker.forest }
{
    match maker.mk(rt, var, low, high) {
        Ok(x) => x,
        Err(_) => panic!(rt; "there is room"),
    }
}

#[test]
fn a_node_has_one_number_and_a_full_arena_none(rt: HostRuntime) {
    let mut maker = planted(&rt, 2, 2, 1, 1);
    let x = node(&rt, &mut maker, 0, FALSE, TRUE);
    let y = node(&rt, &mut maker, 1, FALSE, TRUE);
    same(&rt, node(&rt, &mut maker, 1, FALSE, TRUE), y, "y again");
    maker.give_back(&rt, y);
    same(
        &rt,
        maker.mk(&rt, 0, FALSE, y),
        Err(Stop::NodeLimit),
        "full",
    );
    same(&rt, maker.worker.held(), 2, "held");
    maker.give_back(&rt, x);
    let r = node(&rt, &mut maker, 0, FALSE, y);
    same(&rt, maker.children(&rt, r), (0, FALSE, y), "children");
    maker.give_back(&rt, r);
    maker.give_back(&rt, y);
    same(&rt, maker.collect(&rt), 2, "collect");
    same(&rt, maker.close(&rt), 0, "close");
}

/// The majority of variables 0, 1 and 2, whose root alone is held.
fn majority(rt: &(impl Abort + Wait), maker: &mut Maker) -> u32
    ensures { maker.new.worker.forest ≡ maker.old.worker.forest }
{
    let third = node(rt, maker, 2, FALSE, TRUE);
    let both = node(rt, maker, 1, FALSE, third);
    let either = node(rt, maker, 1, third, TRUE);
    let root = node(rt, maker, 0, both, either);
    maker.give_back(rt, third);
    maker.give_back(rt, both);
    maker.give_back(rt, either);
    root
}

#[test]
fn threads_make_one_node(rt: HostRuntime) {
    let mut first = planted(&rt, 3, 100, 64, 2);
    let mut second = first.another(&rt);
    let (a, b) = join_mut(
        &rt,
        &mut || majority(&rt, &mut first),
        &mut || majority(&rt, &mut second),
    );
    first.absorb(&rt, second);
    same(&rt, a, b, "roots");
    first.give_all_back();
    same(&rt, first.collect(&rt), 4, "collect");
    same(&rt, first.close(&rt), 0, "close");
}

#[test]
fn a_forest_is_closed_after_its_workers(rt: HostRuntime) {
    let mut first = planted(&rt, 2, 4, 8, 2);
    let second = first.another(&rt);
    same(&rt, second.worker.number(), 1, "number");
    match first.split(&rt) {
        Err(fault) => same(&rt, fault, SplitFault::NoneLeft, "third worker"),
        Ok(_) => panic!(rt; "two workers are all"),
    }
    let mut first = first.is_refused(&rt);
    first.absorb(&rt, second);
    let x = node(&rt, &mut first, 0, FALSE, TRUE);
    same(&rt, node(&rt, &mut first, 0, FALSE, TRUE), x, "again");
    same(&rt, first.children(&rt, x), (0, FALSE, TRUE), "children");
    first.give_all_back();
    same(&rt, first.collect(&rt), 1, "collect");
    same(&rt, first.close(&rt), 0, "close");
}

#[test]
fn a_result_is_found_between_store_and_clear(rt: HostRuntime) {
    let mut maker = planted(&rt, 2, 4, 8, 1);
    let x = node(&rt, &mut maker, 0, FALSE, TRUE);
    let y = node(&rt, &mut maker, 1, FALSE, TRUE);
    let r = node(&rt, &mut maker, 0, FALSE, y);
    same(&rt, maker.lookup_and(&rt, x, y), None, "before");
    maker.store_and(&rt, x, y, r);
    same(&rt, maker.lookup_and(&rt, x, y), Some(r), "stored");
    maker.clear(&rt);
    same(&rt, maker.lookup_and(&rt, x, y), None, "cleared");
    same(&rt, maker.close(&rt), 3, "close");
}

/// A worker gives up a node that another one has announced: it stays, and its name is retired.
fn give_up(rt: &(impl Abort + Wait), maker: &mut Maker, x: u32)
    ensures { maker.new.worker.forest ≡ maker.old.worker.forest }
{
    maker.clear(rt);
    maker.give_back(rt, x);
    same(rt, maker.collect(rt), 0, "collect in vain");
    let retired = maker.worker.retired_names();
    same(rt, retired, [x].as_slice(), "retired names");
}

/// The result of the word that a worker has seen. The worker announces it, and counts it up when
/// another one has given it up.
fn taken(rt: &(impl Abort + Wait), worker: &mut Worker, x: u32, other: &mut Maker) -> Ref
    requires may { MayAnnounce worker.old.known.core 0 x }
    requires slot { 2 ≤ x }
    ensures name { result.number ≡ x }
    ensures taken { IsTaken x worker.old worker.new }
    ensures other { other.new.worker.forest ≡ other.old.worker.forest }
{
    if !worker.confirm(0, x) {
        panic!(rt; "the cell has another word");
    }
    give_up(rt, other, x);
    match worker.up(x) {
        Ok(reference) => {
            worker.release();
            reference
        }
        Err(_) => panic!(rt; "there is room"),
    }
}

/// A worker takes the result out of the first cell, and another one gives it up meanwhile.
fn take(rt: &(impl Abort + Wait), maker: &mut Maker, x: u32, other: &mut Maker)
    ensures first { maker.new.worker.forest ≡ maker.old.worker.forest }
    ensures second { other.new.worker.forest ≡ other.old.worker.forest }
{
    // What the worker knows is in order.
    let _cells = maker.worker.cells();
    let word = maker.worker.look(0, 0);
    let (_, _, _, found) = unpack_cell(word);
    if found != x || x < 2 {
        panic!(rt; "the cell has another result");
    }
    let reference = taken(rt, &mut maker.worker, x, other);
    keep(rt, &mut maker.references, reference);
}

#[test]
fn an_acquired_node_outlives_a_collection(rt: HostRuntime) {
    let mut first = planted(&rt, 1, 4, 1, 2);
    let mut second = first.another(&rt);
    let x = node(&rt, &mut first, 0, FALSE, TRUE);
    first.store_itself(&rt, x);
    take(&rt, &mut second, x, &mut first);
    same(&rt, second.children(&rt, x), (0, FALSE, TRUE), "children");
    second.give_back(&rt, x);
    same(&rt, first.collect(&rt), 1, "collect");
    first.absorb(&rt, second);
    same(&rt, first.close(&rt), 0, "close");
}

/// How many variables a deep diagram has.
const DEEP: u16 = 2_000;

/// A diagram with one node for each variable, whose root alone is held.
fn deep(rt: &(impl Abort + Wait), maker: &mut Maker) -> u32
    ensures { maker.new.worker.forest ≡ maker.old.worker.forest }
{
    let mut root = node(rt, maker, DEEP - 1, FALSE, TRUE);
    for var in (0..DEEP - 1).rev() {
        let next = node(rt, maker, var, root, FALSE);
        maker.give_back(rt, root);
        root = next;
    }
    root
}

#[test]
fn a_deep_diagram_is_taken_back_whole(rt: HostRuntime) {
    let mut maker = planted(&rt, DEEP, 2_048, 1, 1);
    let root = deep(&rt, &mut maker);
    same(&rt, maker.collect(&rt), 0, "collect in vain");
    maker.give_back(&rt, root);
    same(&rt, maker.collect(&rt), 2_000, "collect");
    same(&rt, maker.close(&rt), 0, "close");
}
