//! The steps on stripes: a lock is taken, and with it the stripe's map out of its slot, and both go
//! back. Nothing else takes a map out of its slot, and no map is copied.

use crate::rule::{Lock, Stripe, Unlock};
use crate::stock::APART;
use crate::worker::Worker;
use crossbeam_utils::Backoff;
use indexmap::IndexMap;
use std::sync::Wait;

impl Worker {
    ghost use Rattle.std.specs.Prelude.{◌≡◌, ◌+◌, ◌*◌, ◌<◌, ℕ, IfSome, None};
    ghost use Rattle.eqc_core.specs.Locking.{MayLock, locked, unlocked};
    ghost use Rattle.eqc_guard.specs.Rule.{locks_from};
    ghost use Rattle.eqc_guard.specs.Standing.{Steps};
    ghost use Rattle.eqc_guard.specs.Telling.{copied};
    ghost use Rattle.eqc_guard.specs.Locking.{MayHome};

    // The word of a stripe's lock.
    fn lock_word(&self, stripe: u32) -> usize
        requires { stripe < 16 }
        ensures { result ≡ locks_from self.now.known.core.sizes + 8 * stripe }
    {
        let names = self.sizes.names as usize;
        let cells = self.before_counts() as usize + (names + names) + self.sizes.cells as usize;
        cells + 16 * self.sizes.workers as usize + (APART * stripe) as usize
    }

    // Tries to take a stripe's lock, and with it the stripe's map out of its slot.
    fn try_stripe(&mut self, stripe: u32) -> Option<Stripe>
        requires { MayLock self.old.known.core stripe }
        ensures won { IfSome result (λ map. Steps self.old (locked self.old.known.core stripe map.entries) self.new × (self.new.known.copy ≡ copied self.old.known.copy (locks_from self.old.known.core.sizes + 8 * stripe) 1)) }
        ensures lost { result ≡ None → Steps self.old self.old.known.core self.new × (self.new.known.copy ≡ self.old.known.copy) }
        ensures counted { self.new.known.counted ≡ self.old.known.counted }
    {
        let word = self.lock_word(stripe);
        let found = self
            .table
            .shared
            .compare_exchange::<Lock>(&mut self.seat, word, 0, 1);
        if found != 0 {
            return None;
        }
        let blank = IndexMap::new(self.alloc);
        Some(
            self.table
                .shared
                .exchange(&mut self.seat, stripe as usize, blank),
        )
    }

    /// Takes a stripe's lock, and with it the stripe's map, which has the slot of each node word of
    /// the stripe. Where another worker has the lock, it waits for it. The search for a free slot
    /// begins anew then.
    ///
    /// No scan is under way, there are 16 stripes, and none is in hand.
    pub fn lock_stripe<R: Wait>(&mut self, rt: &R, stripe: u32) -> IndexMap<u64, u32>
        requires { MayLock self.old.known.core stripe }
        ensures step { Steps self.old (locked self.old.known.core stripe result.entries) self.new }
        ensures copies { self.new.known.copy ≡ copied self.old.known.copy (locks_from self.old.known.core.sizes + 8 * stripe) 1 }
        ensures counted { self.new.known.counted ≡ self.old.known.counted }
    {
        // What the worker knows is in order.
        let _number = self.number;
        let backoff = Backoff::new();
        for _ in rt.forever() {
            if let Some(map) = self.try_stripe(stripe) {
                return map;
            }
            backoff.snooze();
        }
        unreachable!()
    }

    /// About how many slots are taken: as many as there are where each stripe has so many nodes as
    /// the one that this worker put back last. Nothing that is promised depends on it.
    pub fn slots_about_taken(&self) -> usize {
        self.nodes_seen.saturating_mul(16)
    }

    /// Puts the map of the stripe in hand back into its slot, and gives the stripe's lock up.
    ///
    /// No scan is under way, the stripe is in hand, and the map has the entries of its table, in
    /// any order: those with which it came, those of the nodes that were written since, and none of
    /// a node that was taken back.
    pub fn unlock_stripe(&mut self, stripe: u32, map: IndexMap<u64, u32>)
        requires { MayHome self.old.known.core stripe map.entries }
        ensures step { Steps self.old (unlocked self.old.known.core) self.new }
        ensures copies { self.new.known.copy ≡ copied self.old.known.copy (locks_from self.old.known.core.sizes + 8 * stripe) 0 }
        ensures counted { self.new.known.counted ≡ self.old.known.counted }
    {
        let word = self.lock_word(stripe);
        self.nodes_seen = map.len();
        let _blank = self
            .table
            .shared
            .exchange(&mut self.seat, stripe as usize, map);
        self.table.shared.store::<Unlock>(&mut self.seat, word, 0);
    }
}
