//! Random nodes, which four threads make and give back in one small arena: nothing is lost.
ghost use Rattle.std.specs.Prelude.{◌≡◌, ◌<◌, false, length};

use crate::ends::same;
use crate::makers::{Maker, planted};
use eqc_testing::Chance;
use std::process::Abort;
use std::sync::Wait;
use std::thread::{Threads, join_mut};

/// How many turns each worker makes.
const TURNS: u32 = 2_000;

/// How many variables there are, and how many references a worker keeps at most.
const VARIABLES: u32 = 6;

const MOST_REFERENCES: usize = 16;

/// Makes a node, where its children allow the variable, there is a reference more, and the arena is
/// not full.
fn tries(rt: &(impl Abort + Wait), maker: &mut Maker, var: u16, low: usize, high: usize) -> bool
    requires low { low < length maker.old.references.items }
    requires high { high < length maker.old.references.items }
    ensures forest { maker.new.worker.forest ≡ maker.old.worker.forest }
    ensures none { result ≡ false → maker.new.references.items ≡ maker.old.references.items }
{
    if maker.references.len() >= MOST_REFERENCES {
        return false;
    }
    if !maker.is_below(var, low) {
        return false;
    }
    if !maker.is_below(var, high) {
        return false;
    }
    maker.mk_at(rt, var, low, high).is_ok()
}

/// Makes a random node, or else gives a reference back.
fn turn(rt: &(impl Abort + Wait), maker: &mut Maker, chance: &mut Chance)
    ensures { maker.new.worker.forest ≡ maker.old.worker.forest }
{
    let low = chance.below(16) as usize;
    let high = chance.below(16) as usize;
    if low >= maker.references.len() || high >= maker.references.len() {
        return;
    }
    let Ok(var) = u16::try_from(chance.below(VARIABLES)) else {
        return;
    };
    if tries(rt, maker, var, low, high) {
        return;
    }
    if maker.references[low].number() < 2 {
        return;
    }
    maker.give_back_at(low);
}

/// Random turns of one worker.
fn wander(rt: &(impl Abort + Wait), maker: &mut Maker, seed: u32)
    ensures { maker.new.worker.forest ≡ maker.old.worker.forest }
{
    let mut chance = Chance { seed };
    for _ in 0..TURNS {
        turn(rt, maker, &mut chance);
    }
    maker.give_all_back();
}

/// Two workers at once.
fn two<R: Threads + Sync + Abort + Wait>(rt: &R, a: &mut Maker, b: &mut Maker, seed: u32)
    requires { seed < 100 }
    ensures first { a.new.worker.forest ≡ a.old.worker.forest }
    ensures second { b.new.worker.forest ≡ b.old.worker.forest }
{
    join_mut(
        rt,
        &mut || wander(rt, a, seed),
        &mut || wander(rt, b, seed + 1),
    );
}

#[test]
fn no_slot_is_lost_among_four_workers(rt: HostRuntime) {
    let mut a = planted(&rt, 6, 64, 4, 4);
    let mut b = a.another(&rt);
    let mut c = a.another(&rt);
    let mut d = a.another(&rt);
    join_mut(
        &rt,
        &mut || two(&rt, &mut a, &mut b, 10),
        &mut || two(&rt, &mut c, &mut d, 20),
    );
    a.absorb(&rt, b);
    a.absorb(&rt, c);
    a.absorb(&rt, d);
    a.collect(&rt);
    same(&rt, a.worker.held(), 0, "held");
    same(&rt, a.close(&rt), 0, "close");
}
