//! Dead nodes are taken back where a worker needs room: as few as let it go on, so that the others
//! are held up for a short time.
ghost use Rattle.std.specs.Prelude.{◌^◌, ◌<◌, ◌≤◌, [], length};
ghost use Rattle.eqc_arena.specs.Changing.{MayBegin, Exchanges};

use crate::collecting::{Fallen, collect, take_fallen, take_stripe};
use eqc_guard::worker::Worker;
use std::sync::Wait;

/// How far dead nodes are taken back.
#[derive(Clone, Copy)]
pub(crate) enum Effort {
    /// What the cells hold, and dead nodes up to a stripe with few of them: there another worker
    /// was just before.
    Share,
    /// In all stripes.
    Turn,
    /// What the cells hold, and dead nodes until there are none.
    All,
}

// At most so many turns a worker makes that is alone.
const TURNS: u32 = 16;

// It goes on as long as a turn takes more than one slot in so many.
const SLOTS_OF_A_TURN: u32 = 256;

// A stripe has few dead nodes where they are fewer than one slot in so many.
const SLOTS_OF_A_DEAD_NODE: u32 = 4096;

// The stripe with which a worker begins: workers begin apart, so that each takes nodes back that
// the others haven't come to.
fn first_stripe(worker: &Worker) -> u32 {
    let workers = u64::from(worker.workers().max(1));
    (u64::from(worker.number()) * 16 / workers % 16) as u32
}

// Makes one turn over the stripes, or a part of it: it ends with the first stripe in which fewer
// nodes than so many were dead. It gives how many were taken back.
fn turn<R: Wait>(worker: &mut Worker, rt: &R, fallen: &mut Fallen, few: u32) -> u32
    requires rest { MayBegin worker.old.known.core }
    requires room { length worker.old.known.core.held ≤ 2 ^ 39 }
    ensures changes { Exchanges [] [] worker.old worker.new }
{
    worker.recall_laws();
    let mut taken = 0u32;
    for passed in 0..16u32 {
        fallen.passed = passed;
        let here = take_stripe(worker, rt, fallen.stripe(), fallen);
        taken += here;
        taken += take_fallen(worker, rt, fallen);
        if here < few {
            break;
        }
    }
    taken
}

// Empties all cells, and gives up what is retired: they would keep nodes from being taken back.
fn empty_cells(worker: &mut Worker)
    requires rest { MayBegin worker.old.known.core }
    requires cells { 0 < worker.old.known.core.sizes.cells }
    requires room { length worker.old.known.core.held ≤ 2 ^ 39 }
    ensures changes { Exchanges [] [] worker.old worker.new }
{
    worker.recall_laws();
    eqc_cache::storing::clear(worker);
    worker.scan();
}

// Takes dead nodes back in one turn, or where a worker is alone in several: as long as a turn takes
// many. A turn ends with the first stripe in which fewer nodes than so many were dead.
fn sweep<R: Wait>(worker: &mut Worker, rt: &R, few: u32)
    requires rest { MayBegin worker.old.known.core }
    requires room { length worker.old.known.core.held ≤ 2 ^ 39 }
    ensures changes { Exchanges [] [] worker.old worker.new }
{
    worker.recall_laws();
    let mut fallen = Fallen::new(first_stripe(worker));
    for _turn in 0..TURNS {
        let taken = turn(worker, rt, &mut fallen, few);
        // Where there are others, they take what is left.
        if worker.workers() > 1 || taken <= worker.slots() / SLOTS_OF_A_TURN {
            break;
        }
    }
}

/// Takes dead nodes back: an effort follows the one before it, where that was in vain. The worker
/// holds what it held.
///
/// No scan is under way, its first announcement word announces nothing, and nothing is claimed or
/// in hand. There is a cell, and at most 2^39 names are held. The call may wait.
pub(crate) fn take_back<R: Wait>(worker: &mut Worker, rt: &R, effort: Effort)
    requires rest { MayBegin worker.old.known.core }
    requires cells { 0 < worker.old.known.core.sizes.cells }
    requires room { length worker.old.known.core.held ≤ 2 ^ 39 }
    ensures changes { Exchanges [] [] worker.old worker.new }
{
    match effort {
        Effort::Share => {
            empty_cells(worker);
            let few = worker.slots() / SLOTS_OF_A_DEAD_NODE;
            sweep(worker, rt, few);
        }
        Effort::Turn => sweep(worker, rt, 0),
        Effort::All => {
            collect(worker, rt);
        }
    }
}
