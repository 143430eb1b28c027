//! A watch that sees how many workers of a run compare outputs at once.

use eqc_check::{Gate, Progress, Stage};
use std::sync::atomic::{AtomicU64, Ordering};
use std::thread;

/// For how many turns a worker is held at most.
const TURNS: u32 = 10_000_000;

/// Sees which workers compare outputs in the forest that they share, and holds each until so many
/// have entered an output. So all of these are seen, however soon an output is compared; where
/// fewer were started a worker is held for very long, once.
#[derive(Drop)]
pub struct Together {
    /// How many workers are waited for.
    awaited: u32,
    /// Whether outputs are compared in that forest now: 1, or else 0.
    is_shared: AtomicU64,
    /// A bit for each worker that has entered an output.
    entered: AtomicU64,
    /// How often a worker was held in vain.
    in_vain: AtomicU64,
}

impl Together {
    /// A watch that waits for so many workers, 64 at most.
    pub fn of(awaited: u32) -> Together {
        Together {
            awaited,
            is_shared: AtomicU64::new(0),
            entered: AtomicU64::new(0),
            in_vain: AtomicU64::new(0),
        }
    }

    /// How many workers have entered an output.
    pub fn count(&self) -> u32 {
        self.entered.load(Ordering::SeqCst).count_ones()
    }

    /// Holds a worker until all that are waited for have entered, or for very long.
    fn hold(&self) {
        for _ in 0..TURNS {
            if self.count() >= self.awaited || self.in_vain.load(Ordering::SeqCst) > 0 {
                return;
            }
            thread::yield_now();
        }
        self.in_vain.fetch_add(1, Ordering::SeqCst);
    }
}

impl<R> Gate<R> for Together {
    fn enter(&self, _rt: &R, worker: u32, _output: u32) {
        if self.is_shared.load(Ordering::SeqCst) == 1 {
            self.entered.fetch_or(1 << worker.min(63), Ordering::SeqCst);
            self.hold();
        }
    }
}

impl<R> Progress<R> for Together {
    fn stage(&self, _rt: &R, stage: Stage) {
        let is_shared = u64::from(stage == Stage::AllDiagrams);
        self.is_shared.store(is_shared, Ordering::SeqCst);
    }

    fn step(&self, _rt: &R, _done: usize, _all: usize) {}

    fn nodes(&self, _rt: &R, _nodes: u32) {}
}
