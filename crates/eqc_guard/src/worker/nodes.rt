//! The steps on slots and nodes: a slot is claimed and given up, its node is written and read, and
//! a node that only its table owns is taken back.
use crate::names;
use crate::reference::Ref;
use crate::rule::{Claim, ReadNode, Reclaim, Spot, Unclaim, WriteNode};
use crate::worker::Worker;
use eqc_tree::{pack_node, unpack_node};

impl Worker {
    ghost use Rattle.std.specs.Prelude.{◌≡◌, ◌≢◌, ◌↔◌, ◌+◌, ◌*◌, ◌^◌, ◌<◌, ◌≤◌, ℕ, length, if◌then◌else◌, eqb, IsTrue, IfSome, Some, None, false};
    ghost use Rattle.eqc_tree.specs.Tree.{Node};
    ghost use Rattle.eqc_tree.specs.Word.{node_word};
    ghost use Rattle.eqc_core.specs.View.{draft_of};
    ghost use Rattle.eqc_core.specs.Words.{times, low_of, high_of};
    ghost use Rattle.eqc_core.specs.Moves.{IsReady};
    ghost use Rattle.eqc_core.specs.Making.{MayClaim, claimed, found_taken, MayUnclaim, unclaimed, MayRead, read_node};
    ghost use Rattle.eqc_guard.specs.Known.{tree_of};
    ghost use Rattle.eqc_guard.specs.Rule.{counts_from, nodes_from};
    ghost use Rattle.eqc_guard.specs.Standing.{Steps};
    ghost use Rattle.eqc_guard.specs.Telling.{Copies, copied};
    ghost use Rattle.eqc_guard.specs.Making.{spotted, drafted, MayMake, Reads, IsEntry, taken_back};

    /// How many slots the forest has for nodes: the first one has the number 2.
    pub fn slots(&self) -> u32
        ensures { result + 2 ≡ self.now.known.core.sizes.names }
    {
        self.sizes.names - 2
    }

    // The word of a slot's node.
    fn node_word(&self, slot: u32) -> usize
        requires { slot < self.now.known.core.sizes.names }
        ensures { result ≡ nodes_from self.now.known.core.sizes + slot }
    {
        self.before_counts() as usize + self.sizes.names as usize + slot as usize
    }

    /// Tries to claim a slot, and says whether it was won: the slot was free then, and is this
    /// worker's draft now. A slot that was not free is noted as seen taken.
    ///
    /// No scan is under way, and the worker has no draft.
    pub fn claim(&mut self, x: u32) -> bool
        requires { MayClaim self.old.known.core x }
        ensures won { IsTrue result → Steps self.old (claimed self.old.known.core x) self.new }
        ensures lost { result ≡ false → Steps self.old (found_taken self.old.known.core x) self.new }
        ensures copies { (count : ℕ) × (IsTrue result ↔ (count ≡ 0)) × Copies self.old.known (counts_from self.old.known.core.sizes + x) count (if result then 2 else count) self.new.known }
        ensures counted { self.new.known.counted ≡ self.old.known.counted }
    {
        // Most slots that are tried are taken. A load comes first: it does not take the cache line
        // from others, and loads overlap, where locked instructions do not.
        if self.spot(x) != 0 {
            return false;
        }
        self.try_claim(x)
    }

    // Loads the count word of a slot. A slot that is not free is noted as seen taken.
    fn spot(&mut self, x: u32) -> u64
        requires { x < self.old.known.core.sizes.names }
        ensures step { Steps self.old (spotted self.old.known.core x result) self.new }
        ensures copies { Copies self.old.known (counts_from self.old.known.core.sizes + x) result result self.new.known }
        ensures counted { self.new.known.counted ≡ self.old.known.counted }
    {
        let at = self.count_word(x);
        self.table.shared.load::<Spot>(&mut self.seat, at)
    }

    // Tries to claim a slot by a compare-exchange, whatever its count is.
    fn try_claim(&mut self, x: u32) -> bool
        requires { MayClaim self.old.known.core x }
        ensures won { IsTrue result → Steps self.old (claimed self.old.known.core x) self.new }
        ensures lost { result ≡ false → Steps self.old (found_taken self.old.known.core x) self.new }
        ensures copies { (count : ℕ) × (IsTrue result ↔ (count ≡ 0)) × Copies self.old.known (counts_from self.old.known.core.sizes + x) count (if result then 2 else count) self.new.known }
        ensures counted { self.new.known.counted ≡ self.old.known.counted }
    {
        let word = self.count_word(x);
        let count = self
            .table
            .shared
            .compare_exchange::<Claim>(&mut self.seat, word, 0, 2);
        if count == 0 {
            self.draft = Some(x);
            return true;
        }
        false
    }

    /// Gives the draft up: its slot is free again.
    ///
    /// No scan is under way, and the worker has a draft.
    pub fn unclaim(&mut self)
        requires { (d : ℕ) × MayUnclaim self.old.known.core d }
        ensures step { Steps self.old (unclaimed self.old.known.core) self.new }
        ensures copies { self.new.known.copy ≡ copied self.old.known.copy (counts_from self.old.known.core.sizes + draft_of self.old.known.core.draft) 0 }
        ensures counted { self.new.known.counted ≡ self.old.known.counted }
    {
        let Some(slot) = self.draft else {
            unreachable!();
        };
        let word = self.count_word(slot);
        self.table.shared.store::<Unclaim>(&mut self.seat, word, 0);
        self.draft = None;
    }

    // Stores the word of a node in the draft.
    fn store_node(&mut self, slot: u32, var: u16, low: u32, high: u32)
        requires may { MayMake self.old.known var low high }
        requires draft { self.old.known.core.draft ≡ Some slot }
        ensures step { Steps self.old (drafted self.old.known.core (node_word var low high)) self.new }
        ensures tree { tree_of self.new.known slot ≡ Node var (tree_of self.old.known low) (tree_of self.old.known high) }
        ensures copies { self.new.known.copy ≡ copied self.old.known.copy (nodes_from self.old.known.core.sizes + slot) (node_word var low high) }
        ensures counted { self.new.known.counted ≡ self.old.known.counted }
    {
        let place = self.node_word(slot);
        let word = pack_node(var, low, high);
        self.table
            .shared
            .store::<WriteNode>(&mut self.seat, place, word);
        self.held = names::held_with_node(self.held, low, high);
        self.draft = None;
    }

    /// Writes a node into the draft, whose table has it then. The worker gives its references of
    /// the children to the node and has one of the node.
    ///
    /// No scan is under way, the worker has a draft and the stripe of the node's word in hand, in
    /// which the word is not yet, and at most 2^39 names are held. The children differ, and their
    /// variables are greater. The caller puts the same entry into the map that it has in hand.
    pub fn write_node(&mut self, var: u16, low: Ref, high: Ref) -> Ref
        requires { MayMake self.old.known var low.number high.number }
        ensures step { Steps self.old (drafted self.old.known.core (node_word var low.number high.number)) self.new }
        ensures name { self.old.known.core.draft ≡ Some result.number }
        ensures tree { tree_of self.new.known result.number ≡ Node var (tree_of self.old.known low.number) (tree_of self.old.known high.number) }
        ensures copies { self.new.known.copy ≡ copied self.old.known.copy (nodes_from self.old.known.core.sizes + result.number) (node_word var low.number high.number) }
        ensures counted { self.new.known.counted ≡ self.old.known.counted }
    {
        let Ref { number: low } = low;
        let Ref { number: high } = high;
        let Some(slot) = self.draft else {
            unreachable!();
        };
        self.store_node(slot, var, low, high);
        Ref { number: slot }
    }

    /// Reads the word of a held node. Its children may be counted up while the node is held and no
    /// other one is read.
    ///
    /// No scan is under way, and the reference is no constant's.
    pub fn read_node(&mut self, node: &Ref) -> u64
        requires { MayRead self.old.known.core node.now.number }
        ensures step { Steps self.old (read_node self.old.known.core node.now.number result) self.new }
        ensures tells { Reads self.old.known node.now.number result self.new.known }
        ensures copies { Copies self.old.known (nodes_from self.old.known.core.sizes + node.now.number) result result self.new.known }
        ensures counted { self.new.known.counted ≡ self.old.known.counted }
    {
        let word = self.node_word(node.number);
        self.table.shared.load::<ReadNode>(&mut self.seat, word)
    }

    /// Tries to take a node back that is in the stripe in hand, and gives its children, of which
    /// the worker has a reference each then. It is won where the table was the node's only owner:
    /// its count was 1, and is 0 now. The caller takes the entry out of the map that it has in
    /// hand.
    ///
    /// There is none where the node has other owners. Then nothing has changed. No scan is under
    /// way, the word with the slot is an entry of the table, and at most 2^39 names are held.
    pub fn reclaim(&mut self, x: u32, word: u64) -> Option<(Ref, Ref)>
        requires ready { IsReady self.old.known.core }
        requires entry { IsEntry self.old.known.core word x }
        requires room { length self.old.known.core.held ≤ 2 ^ 39 }
        ensures won { IfSome result (λ p. (p.0.number ≡ low_of word) × (p.1.number ≡ high_of word) × Steps self.old (taken_back self.old.known.core x word) self.new) }
        ensures lost { result ≡ None → Steps self.old self.old.known.core self.new }
        ensures copies { (count : ℕ) × ((result ≡ None) ↔ (count ≢ 1)) × Copies self.old.known (counts_from self.old.known.core.sizes + x) count (if eqb count 1 then 0 else count) self.new.known }
        ensures counted { self.new.known.counted ≡ self.old.known.counted }
    {
        // What the worker knows is in order, so the slot of an entry is there.
        let _number = self.number;
        // Most nodes that are tried have other owners. A load comes first, as in `claim`: it does
        // not take the cache line from others.
        if self.load_count(x) != 1 {
            return None;
        }
        self.try_reclaim(x, word)
    }

    // Tries to take a node back by a compare-exchange, whatever its count is.
    fn try_reclaim(&mut self, x: u32, word: u64) -> Option<(Ref, Ref)>
        requires ready { IsReady self.old.known.core }
        requires entry { IsEntry self.old.known.core word x }
        requires room { length self.old.known.core.held ≤ 2 ^ 39 }
        ensures won { IfSome result (λ p. (p.0.number ≡ low_of word) × (p.1.number ≡ high_of word) × Steps self.old (taken_back self.old.known.core x word) self.new) }
        ensures lost { result ≡ None → Steps self.old self.old.known.core self.new }
        ensures copies { (count : ℕ) × ((result ≡ None) ↔ (count ≢ 1)) × Copies self.old.known (counts_from self.old.known.core.sizes + x) count (if eqb count 1 then 0 else count) self.new.known }
        ensures counted { self.new.known.counted ≡ self.old.known.counted }
    {
        let place = self.count_word(x);
        let count = self
            .table
            .shared
            .compare_exchange::<Reclaim>(&mut self.seat, place, 1, 0);
        if count != 1 {
            return None;
        }
        let (_, low, high) = unpack_node(word);
        self.held = names::held_with_children(self.held, low, high);
        Some((Ref { number: low }, Ref { number: high }))
    }
}
