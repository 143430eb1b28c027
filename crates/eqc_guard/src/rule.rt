//! The rule of the table, and what each step tells.
ghost use Rattle.std.specs.Prelude.{◌≡◌, ◌+◌, ◌-◌, ◌*◌, ◌/◌, ◌%◌, ◌^◌, [], ◌∷◌, None};
ghost use Rattle.eqc_core.specs.View.{fresh};
ghost use Rattle.eqc_core.specs.Words.{word_at};
ghost use Rattle.eqc_core.specs.Announcing.{looked, announced, rechecked};
ghost use Rattle.eqc_core.specs.Counting.{upped, downed};
ghost use Rattle.eqc_core.specs.Caching.{swapped};
ghost use Rattle.eqc_core.specs.Scanning.{scanned};
ghost use Rattle.eqc_core.specs.Sharing.{boxed};
ghost use Rattle.eqc_core.specs.Making.{unclaimed, read_node};
ghost use Rattle.eqc_guard.specs.Known.{Known, nobody};
ghost use Rattle.eqc_guard.specs.Seats.{split_left, split_off, both};
ghost use Rattle.eqc_guard.specs.Telling.{Copied, Told, Counts, Stored, Nothing, Looks, Rechecks, Settles};
ghost use Rattle.eqc_guard.specs.Making.{Claims, spotted, Writes, Reads, Reclaims, Ups};
ghost use Rattle.eqc_guard.specs.Locking.{Locks, Unlocks};
ghost use Rattle.eqc_guard.specs.Sharing.{Receives};
ghost use Rattle.eqc_guard.specs.Rule.{Held, beginner, counts_from, nodes_from, cells_from, locks_from};

use crate::origin::Origin;
use crate::view::View;
use atomic_table::{Join, Play, Split, TableRule};
use indexmap::IndexMap;

/// The unique table of one stripe, from node word to node number.
pub type Stripe = IndexMap<u64, u32>;

/// The rule of the one table.
pub struct Rule;

impl TableRule<Stripe, View, Origin> for Rule {
    ghost holds = { λ origin. Held origin.sizes };

    ghost first = { λ origin. beginner origin.sizes origin.literals };
}

/// A cell was read, for the K-th announcement word of the worker.
pub struct Look<const K: usize>;

impl<const K: usize> Play<Stripe, View> for Look<K> {
    ghost then = { λ s me n after. Told me s.word n n (looked me.0.core K (s.word - cells_from me.0.core.sizes) n) after (Looks me.0 n) };
}

/// An announcement was stored.
pub struct Announce;

impl Play<Stripe, View> for Announce {
    ghost then = { λ s me n after. Stored me s.word s.first (announced me.0.core ((s.word - 2 * word_at me.0.core.sizes me.0.core.number 0) / 2)) after };
}

/// A cell was read again, for the K-th announcement word of the worker.
pub struct Recheck<const K: usize>;

impl<const K: usize> Play<Stripe, View> for Recheck<K> {
    ghost then = { λ s me n after. Told me s.word n n (rechecked me.0.core K n) after (Rechecks me.0 K n) };
}

/// A name was counted up.
pub struct Up;

impl Play<Stripe, View> for Up {
    ghost then = { λ s me n after. Counts me s.word n ((n + 1) % 2 ^ 64) (upped me.0.core (s.word - counts_from me.0.core.sizes)) after (Ups me.0 (s.word - counts_from me.0.core.sizes)) };
}

/// A name was counted down.
pub struct Down;

impl Play<Stripe, View> for Down {
    ghost then = { λ s me n after. Counts me s.word n ((n + (2 ^ 64 - 1)) % 2 ^ 64) (downed me.0.core (s.word - counts_from me.0.core.sizes)) after (Nothing n) };
}

/// A cell was swapped.
pub struct SwapCell;

impl Play<Stripe, View> for SwapCell {
    ghost then = { λ s me n after. Told me s.word n s.first (swapped me.0.core n s.first) after (Nothing n) };
}

/// A word was read by worker 0 while no number was out.
pub struct Alone;

impl Play<Stripe, View> for Alone {
    ghost then = { λ s me n after. Copied me after };
}

/// A word was read after a join.
pub struct Settle;

impl Play<Stripe, View> for Settle {
    ghost then = { λ s me n after. Told me s.word n n me.0.core after (Settles me.0 n) };
}

/// A word was read, and nothing else is told of it.
pub struct Load;

impl Play<Stripe, View> for Load {
    ghost then = { λ s me n after. Told me s.word n n me.0.core after (Nothing n) };
}

/// A worker was split off.
pub struct SplitOff;

impl Split<View> for SplitOff {
    ghost left = { split_left };

    ghost right = { split_off };
}

/// A worker was joined.
pub struct JoinUp;

impl Join<View> for JoinUp {
    ghost both = { both };

    ghost spent = { nobody };
}

/// An announcement word was read by a scan.
pub struct ScanOne;

impl Play<Stripe, View> for ScanOne {
    ghost then = { λ s me n after. Told me s.word n n (scanned me.0.core n) after (Nothing n) };
}

/// A slot was tried to be claimed.
pub struct Claim;

impl Play<Stripe, View> for Claim {
    ghost then = { λ s me n after. Claims me s.word (s.word - counts_from me.0.core.sizes) n after };
}

/// A count was read: a slot that has one is noted as taken.
pub struct Spot;

impl Play<Stripe, View> for Spot {
    ghost then = { λ s me n after. Told me s.word n n (spotted me.0.core (s.word - counts_from me.0.core.sizes) n) after (Nothing n) };
}

/// A draft was given up.
pub struct Unclaim;

impl Play<Stripe, View> for Unclaim {
    ghost then = { λ s me n after. Stored me s.word s.first (unclaimed me.0.core) after };
}

/// A node was written.
pub struct WriteNode;

impl Play<Stripe, View> for WriteNode {
    ghost then = { λ s me n after. Writes me s.word s.first after };
}

/// A node was read.
pub struct ReadNode;

impl Play<Stripe, View> for ReadNode {
    ghost then = { λ s me n after. Told me s.word n n (read_node me.0.core (s.word - nodes_from me.0.core.sizes) n) after (Reads me.0 (s.word - nodes_from me.0.core.sizes) n) };
}

/// A node was tried to be taken back.
pub struct Reclaim;

impl Play<Stripe, View> for Reclaim {
    ghost then = { λ s me n after. Reclaims me s.word (s.word - counts_from me.0.core.sizes) n after };
}

/// A stripe was tried to be locked.
pub struct Lock;

impl Play<Stripe, View> for Lock {
    ghost then = { λ s me n after. Locks me s.word ((s.word - locks_from me.0.core.sizes) / 8) n after };
}

/// A stripe was unlocked.
pub struct Unlock;

impl Play<Stripe, View> for Unlock {
    ghost then = { λ s me n after. Unlocks me s.word s.first after };
}

/// A box was swapped.
pub struct SwapBox;

impl Play<Stripe, View> for SwapBox {
    ghost then = { λ s me n after. Told me s.word n s.first (boxed me.0.core n s.first) after (Receives n) };
}
