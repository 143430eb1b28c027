//! The search for a free slot.

use crate::worker::Worker;
use eqc_core::Sizes;

// The slots are shared out among the workers by so many in a row: a worker that searches in its own
// takes no cache line from others, and the names that are in use have small numbers.
const ROW: u32 = 1024;

// The first slot from a place on that is shared out to a worker.
pub(super) fn own_slot(sizes: &Sizes, number: u32, place: u32) -> u32 {
    let workers = sizes.workers.max(1);
    let row = place / ROW;
    let ahead = number.saturating_add(workers - row % workers) % workers;
    if ahead == 0 {
        place
    } else {
        row.saturating_add(ahead).saturating_mul(ROW)
    }
}

impl Worker {
    ghost use Rattle.std.specs.Prelude.{◌≡◌, ◌<◌, ◌≤◌, IfSome, None};
    ghost use Rattle.eqc_core.specs.Moves.{IsReady};
    ghost use Rattle.eqc_guard.specs.Searching.{IsDrafted, HasSeen, HasSeenAll};

    // Where the next search begins, after a slot was won.
    fn place_after(&self, slot: u32) -> u32 {
        let next = slot.saturating_add(1);
        if next % ROW != 0 {
            return next;
        }
        let own = own_slot(&self.sizes, self.number, next);
        if own < self.sizes.names {
            own
        } else {
            own_slot(&self.sizes, self.number, 0)
        }
    }

    // Tries to claim the slots from `first` up to `last`, and ends at the first that is won.
    fn claim_between(&mut self, first: u32, last: u32) -> Option<u32>
        requires ready { IsReady self.old.known.core }
        requires none { self.old.known.core.draft ≡ None }
        requires slot { 2 ≤ first }
        requires order { first ≤ last }
        requires there { last ≤ self.old.known.core.sizes.names }
        ensures won { IfSome result (λ slot. IsDrafted slot self.old self.new) }
        ensures lost { result ≡ None → HasSeen first last self.old self.new }
    {
        // What the worker knows is in order.
        let _number = self.number;
        for slot in first..last {
            if self.claim(slot) {
                self.rover = self.place_after(slot);
                return Some(slot);
            }
        }
        None
    }

    /// Claims a free slot, which is the worker's draft then. The search goes on from where the last
    /// one ended, and each worker's begins in rows of its own. It makes one turn over all slots:
    /// where none is won, each was seen taken.
    ///
    /// No scan is under way, and the worker has no draft.
    pub fn claim_free(&mut self) -> Option<u32>
        requires ready { IsReady self.old.known.core }
        requires none { self.old.known.core.draft ≡ None }
        ensures won { IfSome result (λ slot. IsDrafted slot self.old self.new) }
        ensures lost { result ≡ None → HasSeen 2 self.old.known.core.sizes.names self.old self.new }
        ensures all { result ≡ None → HasSeenAll self.new.known.core }
    {
        let names = self.sizes.names;
        let begin = self.rover.clamp(2, names);
        if let Some(slot) = self.claim_between(begin, names) {
            return Some(slot);
        }
        self.claim_between(2, begin)
    }
}
