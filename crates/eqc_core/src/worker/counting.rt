//! The steps on counts, announcements and cells: when a worker may take them, and what it knows
//! then.

use crate::multiset;
use crate::phase::Phase;
use crate::sizes::Sizes;
use crate::worker::Worker;
use eqc_tree::unpack_cell;
use std::alloc::{AllocError, Global};

impl Worker {
    ghost use Rattle.std.specs.Prelude.{◌≡◌, ◌↔◌, ◌<◌, IsTrue, OnOk, length, get_or};
    ghost use Rattle.eqc_core.specs.Words.{announced_words};
    ghost use Rattle.eqc_core.specs.Machine.{active_view, reads_on, sorted_out, Turns, MayStore};
    ghost use Rattle.eqc_core.specs.Counting.{MayUp, upped, MayDown, downed};
    ghost use Rattle.eqc_core.specs.Moves.{IsQuiet};
    ghost use Rattle.eqc_core.specs.Announcing.{MayLook, looked, LetsAnnounce, MayAnnounce, announced, IsAnnounced, MayRecheck, rechecked};
    ghost use Rattle.eqc_core.specs.Caching.{swapped};
    ghost use Rattle.eqc_core.specs.Scanning.{MayScan, scanned};

    // Whether the k-th announcement word announces nothing.
    fn is_quiet(&self, k: u32) -> bool
        ensures { IsTrue result ↔ IsQuiet (get_or self.now.phases.items k Phase.Idle) }
    {
        self.phase_at(k).is_quiet()
    }

    // Whether x may be stored to the k-th announcement word.
    fn lets_announce(&self, k: u32, x: u32) -> bool
        ensures { IsTrue result ↔ LetsAnnounce (get_or self.now.phases.items k Phase.Idle) x }
    {
        self.phase_at(k).lets_announce(x)
    }

    // Whether the k-th announcement word has a result that was not looked at again yet.
    fn is_announced(&self, k: u32) -> bool
        ensures { IsTrue result ↔ IsAnnounced (get_or self.now.phases.items k Phase.Idle) }
    {
        self.phase_at(k).cell().is_some()
    }

    pub(crate) fn may_look(&self, sizes: Sizes, k: u32, c: u32) -> bool
        ensures { IsTrue result ↔ MayLook (active_view sizes self.now) k c }
    {
        if self.position != 0 || k >= sizes.announcements || c >= sizes.cells {
            return false;
        }
        self.is_quiet(k)
    }

    pub(crate) fn may_announce(&self, sizes: Sizes, k: u32, x: u32) -> bool
        ensures { IsTrue result ↔ MayAnnounce (active_view sizes self.now) k x }
    {
        if self.position != 0 || k >= sizes.announcements {
            return false;
        }
        self.lets_announce(k, x)
    }

    pub(crate) fn may_recheck(&self, sizes: Sizes, k: u32) -> bool
        ensures { IsTrue result ↔ MayRecheck (active_view sizes self.now) k }
    {
        if self.position != 0 || k >= sizes.announcements {
            return false;
        }
        self.is_announced(k)
    }

    pub(crate) fn may_up(&self, sizes: Sizes, x: u32) -> bool
        ensures { IsTrue result ↔ MayUp (active_view sizes self.now) x }
    {
        if self.position != 0 || x < 2 || x >= sizes.names {
            return false;
        }
        if self.held.len() >= u32::MAX as usize {
            return false;
        }
        self.knows(x)
    }

    pub(crate) fn may_down(&self, sizes: Sizes, x: u32) -> bool
        ensures { IsTrue result ↔ MayDown (active_view sizes self.now) x }
    {
        self.position == 0 && x >= 2 && x < sizes.names && multiset::is_among(&self.held, x)
    }

    // The phase of the k-th announcement word after a look at the cell that found this word.
    pub(crate) fn look(&mut self, k: u32, c: u32, found: u64)
        requires { k < length self.old.phases.items }
        ensures { Turns self.old self.new (λ v. looked v k c found) }
    {
        self.phases[k as usize] = Phase::Seen(c, found);
    }

    pub(crate) fn announce(&mut self, k: u32)
        requires { k < length self.old.phases.items }
        ensures { Turns self.old self.new (λ v. announced v k) }
    {
        let phase = self.phase_at(k);
        self.phases[k as usize] = phase.announced();
    }

    pub(crate) fn recheck(&mut self, k: u32, found: u64)
        requires { k < length self.old.phases.items }
        ensures { Turns self.old self.new (λ v. rechecked v k found) }
    {
        let phase = self.phase_at(k);
        self.phases[k as usize] = phase.rechecked(found);
    }

    pub(crate) fn up(&mut self, x: u32) -> Result<(), AllocError>
        ensures { OnOk result (Turns self.old self.new (λ v. upped v x)) }
    {
        self.held.push(x)?;
        self.forget();
        Ok(())
    }

    pub(crate) fn down(&mut self, x: u32)
        ensures { Turns self.old self.new (λ v. downed v x) }
    {
        multiset::remove_first(&mut self.held, x);
        self.forget();
    }

    // Whether it may store this word into the cell, where the word is right.
    #[tactic(auto, unfolding(crate::specs::Words::first_of, crate::specs::Words::second_of, crate::specs::Words::result_of))]
    pub(crate) fn may_store(&self, sizes: Sizes, c: u32, word: u64) -> bool
        ensures { IsTrue result ↔ MayStore (active_view sizes self.now) c word }
    {
        if self.position != 0 || c >= sizes.cells || !self.is_quiet(0) {
            return false;
        }
        // At most twice as many names are retired as there are announcement words.
        if self.retired.len() as u64 / 2 >= sizes.announced_words() {
            return false;
        }
        let (_, f, g, r) = unpack_cell(word);
        multiset::are_held(&[r, f, g], &self.held)
    }

    // Gives the names of the new word away, and takes those of the old one.
    pub(crate) fn swap_cell(&mut self, alloc: Global, old: u64, word: u64) -> Result<(), AllocError>
        requires { 0 < length self.old.phases.items }
        ensures { OnOk result (Turns self.old self.new (λ v. swapped v old word)) }
    {
        self.trade(alloc, old, word)?;
        self.forget();
        Ok(())
    }

    // The same, before the node last read is forgotten.
    #[tactic(auto, unfolding(crate::specs::Words::first_of, crate::specs::Words::second_of, crate::specs::Words::result_of))]
    fn trade(&mut self, alloc: Global, old: u64, word: u64) -> Result<(), AllocError>
        requires { 0 < length self.old.phases.items }
        ensures { OnOk result (Turns self.old self.new (reads_on (λ v. swapped v old word))) }
    {
        let (_, f, g, r) = unpack_cell(word);
        let given = multiset::slots(alloc, &[r, f, g])?;
        let (_, old_f, old_g, old_r) = unpack_cell(old);
        let taken = multiset::slots(alloc, &[old_f, old_g])?;
        let late = multiset::slots(alloc, &[old_r])?;
        multiset::remove_each(&mut self.held, &given);
        self.held.extend_from_slice(&taken)?;
        self.retired.extend_from_slice(&late)?;
        self.phases[0] = Phase::Idle;
        Ok(())
    }

    pub(crate) fn may_scan(&self, sizes: Sizes) -> bool
        ensures { IsTrue result ↔ MayScan (active_view sizes self.now) }
    {
        self.is_quiet(0)
    }

    // The word at the scan's position has this name.
    pub(crate) fn scan(&mut self, alloc: Global, sizes: Sizes, name: u32) -> Result<(), AllocError>
        requires { self.old.position < announced_words sizes }
        ensures active { OnOk result (self.new.active ≡ self.old.active) }
        ensures view { OnOk result (active_view sizes self.new ≡ scanned (active_view sizes self.old) name) }
    {
        multiset::add_note(&mut self.noted, name)?;
        if self.position + 1 < sizes.announced_words() {
            self.position += 1;
            return Ok(());
        }
        self.sort_out(alloc)?;
        self.forget();
        Ok(())
    }

    // Some retired names stay, and the others become held, before the node last read is forgotten.
    fn sort_out(&mut self, alloc: Global) -> Result<(), AllocError>
        ensures { OnOk result (Turns self.old self.new sorted_out) }
    {
        let (stay, go) = multiset::sort_out(alloc, &self.noted, &self.retired)?;
        self.held.extend_from_slice(&go)?;
        self.retired = stay;
        self.noted = Vec::new(alloc);
        self.position = 0;
        Ok(())
    }
}
