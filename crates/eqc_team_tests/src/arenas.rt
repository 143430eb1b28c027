//! Members of a team in a forest with little room: each operation has its result or the node limit,
//! all results are one function, and nothing is left of them.
ghost use Rattle.std.specs.Prelude.{◌≡◌};
ghost use Rattle.eqc_apply.specs.Teaming.{forest_of};

use crate::builders::{Builder, first, next};
use crate::ends::same;
use crate::teams::parity;
use eqc_tree::Stop;
use std::process::Abort;
use std::sync::Wait;
use std::thread::{Threads, join_mut};

/// How often a member builds a parity that it gives back.
const TURNS: u32 = 20;

/// How often a member builds a parity that it keeps.
const KEPT_TURNS: u32 = 100;

/// The variables of the parity, from the last one on: each step adds two nodes at most.
static VARIABLES: &[u16] = &[7, 6, 5, 4, 3, 2, 1, 0];

/// How many nodes the parity has.
const PARITY_NODES: u32 = 15;

/// The variables of another parity.
static OTHERS: &[u16] = &[15, 14, 13, 12, 11, 10, 9, 8];

#[test]
fn a_member_without_work_makes_room(rt: HostRuntime) {
    // There is room for one parity, and not for two.
    let (mut lead, mut waiting) = first(&rt, 16, 28, 64, 2, 0);
    let mut second = next(&rt, &lead, &mut waiting);
    same(&rt, parity(&rt, &mut second, OTHERS), Ok(0), "one of it");
    second.give_all_back(&rt);
    same(&rt, second.serve(&rt), false, "nothing is offered");
    same(&rt, parity(&rt, &mut lead, VARIABLES), Ok(0), "another one");
    lead.absorb(&rt, second);
    same(&rt, lead.close(&rt), 0, "close");
}

/// How often a member built the parity, or another stop than the node limit.
type Built = Result<u32, Stop>;

/// Builds the parity in so many turns, and tells how often there was room. What is built is kept,
/// or given back before the next turn.
fn turns(rt: &(impl Abort + Wait), builder: &mut Builder, count: u32, keeps: bool) -> Built
    ensures { forest_of builder.new.member ≡ forest_of builder.old.member }
{
    let mut built = 0u32;
    for _ in 0..count {
        match parity(rt, builder, VARIABLES) {
            Ok(_) => built = built.saturating_add(1),
            Err(Stop::NodeLimit) => {}
            Err(stop) => return Err(stop),
        }
        let kept = if keeps { built } else { 0 };
        builder.give_back_from(rt, kept as usize);
    }
    Ok(built)
}

/// The turns of two members at once.
fn turns_of_two<R: Threads + Sync + Abort + Wait>(
    rt: &R,
    a: &mut Builder,
    b: &mut Builder,
    count: u32,
    keeps: bool,
) -> (Built, Built)
    ensures first { forest_of a.new.member ≡ forest_of a.old.member }
    ensures second { forest_of b.new.member ≡ forest_of b.old.member }
{
    join_mut(
        rt,
        &mut move || turns(rt, a, count, keeps),
        &mut move || turns(rt, b, count, keeps),
    )
}

/// The turns of four members at once.
fn turns_of_four<R: Threads + Sync + Abort + Wait>(
    rt: &R,
    a: &mut Builder,
    b: &mut Builder,
    c: &mut Builder,
    d: &mut Builder,
    count: u32,
    keeps: bool,
) -> ((Built, Built), (Built, Built))
    ensures first { forest_of a.new.member ≡ forest_of a.old.member }
    ensures second { forest_of b.new.member ≡ forest_of b.old.member }
    ensures third { forest_of c.new.member ≡ forest_of c.old.member }
    ensures fourth { forest_of d.new.member ≡ forest_of d.old.member }
{
    join_mut(
        rt,
        &mut move || turns_of_two(rt, a, b, count, keeps),
        &mut move || turns_of_two(rt, c, d, count, keeps),
    )
}

/// Whether there was room so often, from the least to the most.
fn is_within(found: Built, least: u32, most: u32) -> bool {
    match found {
        Ok(built) => least <= built && built <= most,
        Err(_) => false,
    }
}

/// Whether there was for each of four members.
fn are_within(found: ((Built, Built), (Built, Built)), least: u32, most: u32) -> bool {
    let ((a, b), (c, d)) = found;
    is_within(a, least, most)
        && is_within(b, least, most)
        && is_within(c, least, most)
        && is_within(d, least, most)
}

/// Four members with so much room for nodes, in so many turns: how often there was room for each,
/// and one that took the others in.
fn four_at_once<R: Threads + Sync + Abort + Wait + AllocGlobal>(
    rt: &R,
    nodes: u32,
    count: u32,
    keeps: bool,
) -> (Builder, ((Built, Built), (Built, Built))) {
    if nodes == 0 || nodes > 64 {
        panic!(rt; "there is no such room");
    }
    let (mut a, mut waiting) = first(rt, 8, nodes, 16, 4, 2);
    let mut b = next(rt, &a, &mut waiting);
    let mut c = next(rt, &a, &mut waiting);
    let mut d = next(rt, &a, &mut waiting);
    let found = turns_of_four(rt, &mut a, &mut b, &mut c, &mut d, count, keeps);
    a.absorb(rt, b);
    a.absorb(rt, d);
    a.absorb(rt, c);
    (a, found)
}

/// Four members with so much room for nodes: whether each builds so often, and one alone then in so
/// many turns.
fn four_share<R: Threads + Sync + Abort + Wait + AllocGlobal>(
    rt: &R,
    nodes: u32,
    least: u32,
    most: u32,
    alone: u32,
) {
    let (mut one, found) = four_at_once(rt, nodes, TURNS, false);
    same(rt, are_within(found, least, most), true, nodes);
    same(rt, turns(rt, &mut one, TURNS, false), Ok(alone), nodes);
    same(rt, one.close(rt), 0, nodes);
}

/// How much room for nodes there is, in how many turns at least and at most there is enough of it
/// for a member beside others, and in how many for one alone. The parity has 15 nodes, and 22 with
/// the literals.
static ROOMS: &[(u32, u32, u32, u32)] = &[
    (2, 0, 0, 0),
    (3, 0, 0, 0),
    (5, 0, 0, 0),
    (8, 0, 0, 0),
    (13, 0, 0, 0),
    (21, 0, TURNS, TURNS),
    (34, TURNS, TURNS, TURNS),
    (64, TURNS, TURNS, TURNS),
];

#[test]
fn four_members_share_small_arenas(rt: HostRuntime) {
    for (nodes, least, most, alone) in ROOMS {
        four_share(&rt, *nodes, *least, *most, *alone);
    }
}

/// Whether all references of a member have one function.
fn are_one(rt: &impl Abort, builder: &Builder) -> bool {
    for place in 1..builder.count() {
        if !builder.is_same(rt, 0, place) {
            return false;
        }
    }
    true
}

/// Four members with so much room for nodes, who keep what they build: whether all of it is one
/// function, and nothing is left of it when it is given back.
fn four_keep<R: Threads + Sync + Abort + Wait + AllocGlobal>(rt: &R, nodes: u32) {
    let (one, found) = four_at_once(rt, nodes, KEPT_TURNS, true);
    let most = if nodes < PARITY_NODES { 0 } else { KEPT_TURNS };
    same(rt, are_within(found, 0, most), true, nodes);
    same(rt, are_one(rt, &one), true, nodes);
    same(rt, one.close(rt), 0, nodes);
}

#[test]
fn four_members_keep_one_function_in_small_arenas(rt: HostRuntime) {
    for nodes in 2..65 {
        four_keep(&rt, nodes);
    }
}
