//! How far a comparison came before its store was full.

use eqc_compare::Gate;
use eqc_pair::Pair;
use std::sync::atomic::{AtomicU64, Ordering};

/// Where this part of the outputs entered a room that was too small, a larger one mostly holds them
/// all.
const MANY_PART: u64 = 4;

/// Fewer outputs aren't many: of one alone it is known that it didn't fit, and nothing of what
/// would.
const FEWEST_MANY: u64 = 8;

/// Counts the outputs that enter, and passes on what is told.
#[derive(Drop)]
pub(crate) struct Begun<'x, P> {
    watch: &'x P,
    entered: AtomicU64,
}

impl<'x, P> Begun<'x, P> {
    pub(crate) fn new(watch: &'x P) -> Begun<'x, P> {
        Begun {
            watch,
            entered: AtomicU64::new(0),
        }
    }

    /// Whether many of a pair's outputs entered.
    pub(crate) fn has_many(&self, pair: &Pair<'_>) -> bool {
        let entered = self.entered.load(Ordering::SeqCst);
        let part = pair.first().outputs().len() as u64 / MANY_PART;
        entered >= part.max(FEWEST_MANY)
    }
}

impl<R, P: Gate<R>> Gate<R> for Begun<'_, P> {
    fn enter(&self, rt: &R, worker: u32, output: u32) {
        self.entered.fetch_add(1, Ordering::SeqCst);
        self.watch.enter(rt, worker, output);
    }
}
