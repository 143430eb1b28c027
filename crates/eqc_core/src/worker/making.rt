//! The steps on stripes, drafts and nodes: when a worker may take them, and what it knows then.

use crate::multiset;
use crate::sizes::Sizes;
use crate::table::{Hand, Table};
use crate::worker::{Read, Worker};
use eqc_tree::{pack_node, unpack_node};
use std::alloc::{AllocError, Global};
use std::mem;

impl Worker {
    ghost use Rattle.std.specs.Prelude.{◌≡◌, ◌↔◌, ◌<◌, ◌^◌, ◌++◌, ◌∷◌, [], IsTrue, OnOk, IfOk, None};
    ghost use Rattle.eqc_core.specs.declared.sizes.Sizes.{Sizes as Numbers};
    ghost use Rattle.eqc_core.specs.Words.{children, slots_of};
    ghost use Rattle.eqc_core.specs.Machine.{active_view, hand_view, with_table, MayPlace, MayTake, Turns};
    ghost use Rattle.eqc_tree.specs.Word.{node_word};
    ghost use Rattle.eqc_core.specs.Moves.{without_each};
    ghost use Rattle.eqc_core.specs.View.{draft_of, hand_of};
    ghost use Rattle.eqc_core.specs.Locking.{MayLock, MayPutHome, locked, unlocked};
    ghost use Rattle.eqc_core.specs.Making.{MayClaim, MayUnclaim, MayRead, claimed, found_taken, unclaimed, wrote, read_node, without_slot, reclaimed};

    pub(crate) fn may_lock(&self, i: u32) -> bool
        ensures { (z : Numbers) → IsTrue result ↔ MayLock (active_view z self.now) i }
    {
        self.position == 0 && i < 16 && self.hand.is_none()
    }

    pub(crate) fn may_unlock(&self, sizes: Sizes, i: u32) -> bool
        ensures { IsTrue result ↔ MayPutHome (active_view sizes self.now) i }
    {
        match &self.hand {
            Some(hand) => self.position == 0 && hand.stripe == i,
            None => false,
        }
    }

    pub(crate) fn may_claim(&self, sizes: Sizes, x: u32) -> bool
        ensures { IsTrue result ↔ MayClaim (active_view sizes self.now) x }
    {
        self.position == 0 && x >= 2 && x < sizes.names && self.draft.is_none()
    }

    pub(crate) fn may_unclaim(&self, sizes: Sizes) -> bool
        ensures { IsTrue result ↔ MayUnclaim (active_view sizes self.now) (draft_of self.now.draft) }
    {
        self.position == 0 && self.draft.is_some()
    }

    pub(crate) fn may_read(&self, sizes: Sizes, x: u32) -> bool
        ensures { IsTrue result ↔ MayRead (active_view sizes self.now) x }
    {
        self.position == 0 && multiset::is_among(&self.held, x)
    }

    // The stripe and its table are now in hand.
    pub(crate) fn lock(&mut self, alloc: Global, i: u32, table: Table)
        ensures { Turns self.old self.new (λ v. locked v i table.entries.items) }
    {
        self.hand = Some(Hand { stripe: i, table });
        self.turn = Vec::new(alloc);
        self.stops = Vec::new(alloc);
    }

    // Gives the table in hand out.
    pub(crate) fn unlock(&mut self, alloc: Global) -> Table
        ensures turns { Turns self.old self.new unlocked }
        ensures table { result.entries.items ≡ (hand_of (hand_view self.old.hand)).entries }
    {
        match mem::replace(&mut self.hand, None) {
            Some(hand) => hand.table,
            None => Table::empty(alloc),
        }
    }

    pub(crate) fn claim(&mut self, alloc: Global, x: u32)
        ensures { Turns self.old self.new (λ v. claimed v x) }
    {
        self.draft = Some(x);
        self.turn = Vec::new(alloc);
    }

    // A claim that was not won.
    pub(crate) fn find_taken(&mut self, x: u32) -> Result<(), AllocError>
        ensures { OnOk result (Turns self.old self.new (λ v. found_taken v x)) }
    {
        multiset::add_note(&mut self.turn, x)?;
        Ok(())
    }

    // Gives the draft up, and says which slot it was.
    pub(crate) fn unclaim(&mut self) -> u32
        ensures turns { Turns self.old self.new unclaimed }
        ensures draft { result ≡ draft_of self.old.draft }
    {
        let draft = self.draft;
        self.draft = None;
        match draft {
            Some(d) => d,
            None => 0,
        }
    }

    // Whether it may write the node of these fields, where that is in order.
    pub(crate) fn may_write(&self, variable: u16, low: u32, high: u32) -> bool
        requires low { low < 2 ^ 20 }
        requires high { high < 2 ^ 20 }
        ensures { (z : Numbers) → IsTrue result ↔ MayPlace (active_view z self.now) (node_word variable low high) }
    {
        if self.position != 0 {
            return false;
        }
        if self.draft.is_none() {
            return false;
        }
        if !multiset::are_held(&[low, high], &self.held) {
            return false;
        }
        match &self.hand {
            Some(hand) => hand.has_room(variable, low, high),
            None => false,
        }
    }

    // The node stands in the table in hand, for the draft, which is now held. Says which slot it
    // is.
    pub(crate) fn write(
        &mut self,
        alloc: Global,
        variable: u16,
        low: u32,
        high: u32,
    ) -> Result<u32, AllocError>
        requires low { low < 2 ^ 20 }
        requires high { high < 2 ^ 20 }
        requires hand { hand_view self.old.hand ≡ None → ⊥ }
        ensures turns { IfOk result (λ d. Turns self.old self.new (λ v. wrote v (draft_of v.draft) (hand_of v.hand) (node_word variable low high))) }
        ensures draft { IfOk result (λ d. d ≡ draft_of self.old.draft) }
    {
        let draft = self.draft_slot();
        self.hand_over(alloc, low, high, draft)?;
        self.insert(pack_node(variable, low, high), draft)?;
        self.forget();
        Ok(draft)
    }

    // The draft, where there is one.
    fn draft_slot(&self) -> u32
        ensures { result ≡ draft_of self.now.draft }
    {
        match self.draft {
            Some(d) => d,
            None => 0,
        }
    }

    // The draft is now held, and the children are the node's.
    fn hand_over(
        &mut self,
        alloc: Global,
        low: u32,
        high: u32,
        draft: u32,
    ) -> Result<(), AllocError>
        ensures { OnOk result (Turns self.old self.new (λ v. record v { draft = None; held = without_each (slots_of (low ∷ high ∷ [])) v.held ++ draft ∷ [] })) }
    {
        let given = multiset::slots(alloc, &[low, high])?;
        multiset::remove_each(&mut self.held, &given);
        self.held.push(draft)?;
        self.draft = None;
        Ok(())
    }

    // The table in hand has one entry more.
    fn insert(&mut self, word: u64, x: u32) -> Result<(), AllocError>
        requires { hand_view self.old.hand ≡ None → ⊥ }
        ensures { OnOk result (Turns self.old self.new (λ v. with_table v ((hand_of v.hand).entries ++ (word, x) ∷ []))) }
    {
        if let Some(hand) = &mut self.hand {
            hand.table.insert(word, x)?;
        }
        Ok(())
    }

    // The table in hand has the slot no more.
    fn remove(&mut self, x: u32)
        requires { hand_view self.old.hand ≡ None → ⊥ }
        ensures { Turns self.old self.new (λ v. with_table v (without_slot x (hand_of v.hand).entries)) }
    {
        if let Some(hand) = &mut self.hand {
            hand.table.remove(x);
        }
    }

    pub(crate) fn may_reclaim(&self, x: u32) -> bool
        ensures { (z : Numbers) → IsTrue result ↔ MayTake (active_view z self.now) x }
    {
        self.position == 0 && self.has_in_hand(x)
    }

    // The slot of the stripe in hand, whose node word this is, is taken back.
    pub(crate) fn reclaim(&mut self, alloc: Global, x: u32, word: u64) -> Result<(), AllocError>
        requires { hand_view self.old.hand ≡ None → ⊥ }
        ensures { OnOk result (Turns self.old self.new (λ v. reclaimed v (hand_of v.hand) x word)) }
    {
        self.take_children(alloc, word)?;
        self.remove(x);
        self.forget();
        Ok(())
    }

    // The children of the node are now held.
    #[tactic(auto, unfolding(crate::specs::Words::low_of, crate::specs::Words::high_of))]
    fn take_children(&mut self, alloc: Global, word: u64) -> Result<(), AllocError>
        ensures { OnOk result (Turns self.old self.new (λ v. record v { held = v.held ++ slots_of (children word) })) }
    {
        let (_, low, high) = unpack_node(word);
        let freed = multiset::slots(alloc, &[low, high])?;
        self.held.extend_from_slice(&freed)?;
        Ok(())
    }

    pub(crate) fn read(&mut self, x: u32, word: u64)
        ensures { Turns self.old self.new (λ v. read_node v x word) }
    {
        self.read = Some(Read { name: x, word });
    }
}
