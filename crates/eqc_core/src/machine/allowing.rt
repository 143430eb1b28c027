//! What a worker may do, where the words tell it.

use crate::machine::Machine;
use crate::worker::Worker;

impl Machine {
    ghost use Rattle.std.specs.Prelude.{◌≡◌, ◌<◌, ◌↔◌, IsTrue, length};
    ghost use Rattle.eqc_core.specs.Machine.{state_of, words_of, active_view, hand_view, IsKept, Stands};
    ghost use Rattle.eqc_tree.specs.Word.{node_word};
    ghost use Rattle.eqc_core.specs.Trees.{variable_at, IsShaped};
    ghost use Rattle.eqc_core.specs.Locking.{MayTryLock};
    ghost use Rattle.eqc_core.specs.Making.{MayTryClaim, MayReclaim, MayWriteNode};
    ghost use Rattle.eqc_core.specs.Seating.{MaySplit, MayJoin};
    ghost use Rattle.eqc_core.specs.Caching.{MaySwapCell};
    ghost use Rattle.eqc_core.specs.Sharing.{MaySwapBox};
    ghost use Rattle.eqc_core.specs.View.{view_at, unused, draft_of, hand_of};

    pub(crate) fn may_lock(&self, worker: &Worker, i: u32, won: bool) -> bool
        requires { IsKept self.now }
        ensures { IsTrue result ↔ MayTryLock (words_of self.now) (active_view self.now.sizes worker.now) i won }
    {
        if !worker.may_lock(i) {
            return false;
        }
        let free = self.locks[i as usize] == 0;
        free == won
    }

    pub(crate) fn may_claim(&self, worker: &Worker, x: u32, won: bool) -> bool
        requires { IsKept self.now }
        ensures { IsTrue result ↔ MayTryClaim (words_of self.now) (active_view self.now.sizes worker.now) x won }
    {
        if !worker.may_claim(self.sizes, x) {
            return false;
        }
        let free = self.counts[x as usize] == 0;
        free == won
    }

    pub(crate) fn may_reclaim(&self, worker: &Worker, x: u32) -> bool
        requires { IsKept self.now }
        ensures { IsTrue result ↔ MayReclaim (words_of self.now) (active_view self.now.sizes worker.now) (hand_of (hand_view worker.now.hand)) x }
    {
        if !worker.may_reclaim(x) {
            return false;
        }
        if x as usize >= self.counts.len() {
            return false;
        }
        self.counts[x as usize] == 1
    }

    // The variable of a name that is there.
    fn variable_at(&self, x: u32) -> u64
        requires { x < length self.now.nodes.items }
        ensures { result ≡ variable_at self.now.nodes.items x }
    {
        if x < 2 {
            return 1 << 16;
        }
        self.nodes[x as usize] / (1 << 40)
    }

    // Whether the node of these fields is in order over its children.
    fn is_shaped(&self, variable: u16, low: u32, high: u32) -> bool
        requires kept { IsKept self.now }
        requires low { low < self.now.sizes.names }
        requires high { high < self.now.sizes.names }
        ensures { IsTrue result ↔ IsShaped self.now.sizes.variables self.now.nodes.items (node_word variable low high) }
    {
        if variable as u32 >= self.sizes.variables {
            return false;
        }
        if low == high {
            return false;
        }
        if variable as u64 >= self.variable_at(low) {
            return false;
        }
        if variable as u64 >= self.variable_at(high) {
            return false;
        }
        true
    }

    pub(crate) fn may_write(&self, worker: &Worker, variable: u16, low: u32, high: u32) -> bool
        requires { IsKept self.now }
        ensures { IsTrue result ↔ MayWriteNode self.now.nodes.items (active_view self.now.sizes worker.now) (draft_of worker.now.draft) (hand_of (hand_view worker.now.hand)) variable low high }
    {
        if low >= self.sizes.names {
            return false;
        }
        if high >= self.sizes.names {
            return false;
        }
        if !self.is_shaped(variable, low, high) {
            return false;
        }
        worker.may_write(variable, low, high)
    }

    // Whether this number was never active.
    fn is_unused(&self, id: u32) -> bool
        ensures { IsTrue result ↔ (view_at (state_of self.now).views id ≡ unused) }
    {
        let id = id as usize;
        if id >= self.workers.len() {
            return true;
        }
        !self.workers[id].active && !self.workers[id].over
    }

    pub(crate) fn may_split(&self, worker: &Worker, to: u32) -> bool
        ensures { IsTrue result ↔ MaySplit (state_of self.now).views (active_view self.now.sizes worker.now) to }
    {
        if worker.position != 0 || worker.number != 0 || to >= self.sizes.workers {
            return false;
        }
        self.is_unused(to)
    }

    pub(crate) fn may_join(&self, worker: &Worker, from: u32) -> bool
        ensures { IsTrue result ↔ MayJoin (active_view self.now.sizes worker.now) from (view_at (state_of self.now).views from) }
    {
        let place = from as usize;
        if place >= self.workers.len() {
            return false;
        }
        worker.may_join(self.sizes, from, &self.workers[place])
    }

    pub(crate) fn may_swap(&self, worker: &Worker, c: u32, word: u64) -> bool
        requires kept { IsKept self.now }
        requires stands { Stands self.now (active_view self.now.sizes worker.now) }
        ensures { IsTrue result ↔ MaySwapCell self.now.nodes.items (active_view self.now.sizes worker.now) c word }
    {
        if !worker.may_store(self.sizes, c, word) {
            return false;
        }
        if word == 0 {
            return true;
        }
        self.is_filled(word)
    }

    pub(crate) fn may_swap_box(&self, worker: &Worker, b: u32, word: u64) -> bool
        requires kept { IsKept self.now }
        requires stands { Stands self.now (active_view self.now.sizes worker.now) }
        ensures { IsTrue result ↔ MaySwapBox self.now.nodes.items (active_view self.now.sizes worker.now) b word }
    {
        if !worker.may_put(self.sizes, b, word) {
            return false;
        }
        self.is_box_word(word)
    }
}
