//! Workers that have snapshots out, as the tests drive them: each call is made where it is allowed,
//! and ends the test elsewhere.
ghost use Rattle.std.specs.Prelude.{◌<◌, length};
ghost use Rattle.eqc_node_tests.specs.Peeking.{IsPeeking};

use crate::ends::keep;
use crate::makers::{MOST_HELD, Maker};
use eqc_arena::collecting::collect;
use eqc_arena::nodes::give_back;
use eqc_cache::peeking::{self, Snapshot, peek, peek_same, unpeek};
use eqc_guard::reference::Ref;
use eqc_guard::worker::Worker;
use eqc_tree::Op;
use std::process::Abort;
use std::sync::Wait;

/// A worker, its references and those of the constants, and its snapshots.
pub struct Peeker {
    pub worker: Worker,
    references: Vec<Ref>,
    snapshots: Vec<Snapshot>,
    ghost peeking: { IsPeeking references.items snapshots.items worker },
}

impl Peeker {
    /// Of a worker that has none out.
    pub fn of(rt: &impl AllocGlobal, maker: Maker) -> Peeker {
        let (worker, references) = maker.into_parts();
        Peeker {
            worker,
            references,
            snapshots: Vec::new(rt.alloc()),
        }
    }

    /// The place of a reference of the name.
    fn place(&self, rt: &impl Abort, x: u32) -> usize
        ensures { result < length self.now.references.items }
    {
        match self.references.iter().position(|r| r.number() == x) {
            Some(place) => place,
            None => panic!(rt; "{x} is not held"),
        }
    }

    /// Takes a snapshot of the and of two nodes, and tells whether there is one.
    pub fn peek_and(&mut self, rt: &impl Abort, f: u32, g: u32) -> bool {
        let f = self.place(rt, f);
        let g = self.place(rt, g);
        let Some(snapshot) = peek(
            &mut self.worker,
            Op::And,
            &self.references[f],
            &self.references[g],
        ) else {
            return false;
        };
        keep(rt, &mut self.snapshots, snapshot);
        true
    }

    /// Whether the snapshot at a place and a node that is held have one function.
    pub fn is_same(&self, rt: &impl Abort, place: usize, x: u32) -> bool {
        let x = self.place(rt, x);
        if place >= self.snapshots.len() {
            panic!(rt; "there is no such snapshot");
        }
        peek_same(&self.worker, &self.snapshots[place], &self.references[x])
    }

    /// Counts up what the snapshot at a place is of, and gives its number.
    pub fn keep(&mut self, rt: &impl Abort, place: usize) -> u32 {
        if place >= self.snapshots.len() {
            panic!(rt; "there is no such snapshot");
        }
        let Ok(reference) = peeking::keep(&mut self.worker, &self.snapshots[place]) else {
            panic!(rt; "there is room");
        };
        let number = reference.number();
        keep(rt, &mut self.references, reference);
        number
    }

    /// Gives the last snapshot back.
    pub fn unpeek(&mut self, rt: &impl Abort) {
        let Some(snapshot) = self.snapshots.pop() else {
            panic!(rt; "no snapshot is out");
        };
        unpeek(&mut self.worker, snapshot);
    }

    /// Gives a reference of this name back.
    pub fn give_back(&mut self, rt: &impl Abort, x: u32) {
        let place = self.place(rt, x);
        let reference = self.references.swap_remove(place);
        give_back(&mut self.worker, reference);
    }

    /// Takes dead nodes back, and tells how many.
    pub fn collect(&mut self, rt: &(impl Abort + Wait)) -> u32 {
        assert!(rt; self.worker.held() <= MOST_HELD);
        collect(&mut self.worker, rt)
    }

    /// Closes the forest in vain, since a snapshot is out.
    pub fn is_refused(self, rt: &impl Abort) -> Peeker {
        let Peeker {
            worker,
            references,
            snapshots,
        } = self;
        match worker.close() {
            Err(worker) => Peeker {
                worker,
                references,
                snapshots,
            },
            Ok(_) => panic!(rt; "a snapshot is out"),
        }
    }

    /// Closes the forest, where no snapshot is out: how many slots have a count above 0. Only the
    /// constants are held then.
    pub fn close(self, rt: &impl Abort) -> u32 {
        let Peeker {
            worker,
            references,
            snapshots,
        } = self;
        let mut constants = references;
        for _ in 0..constants.len() {
            if let Some(constant) = constants.pop() {
                let _number = constant.into_number();
            }
        }
        assert!(rt; constants.is_empty() && snapshots.is_empty());
        constants.destroy_empty();
        snapshots.destroy_empty();
        let tally = worker.close().ok().expect(rt, "no snapshot is out");
        tally.counted
    }
}
