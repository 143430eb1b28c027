//! The steps by which numbers become workers and are taken in again.

use crate::sizes::Sizes;
use crate::worker::Worker;
use crate::{multiset, phase};
use std::alloc::AllocError;

impl Worker {
    ghost use Rattle.std.specs.Prelude.{◌≡◌, ◌↔◌, IsTrue, OnOk, true};
    ghost use Rattle.eqc_core.specs.declared.sizes.Sizes.{Sizes as Numbers};
    ghost use Rattle.eqc_core.specs.Machine.{active_view, view_of, reads_on, Turns};
    ghost use Rattle.eqc_core.specs.Seating.{splitter, IsAtRest, MayJoin, joined};

    // A number that was never active is split off.
    pub(crate) fn split_off(&mut self, to: u32) -> Result<(), AllocError>
        ensures { OnOk result (Turns self.old self.new (λ v. splitter v to)) }
    {
        self.out.push(to)?;
        self.given = self.given.max(u64::from(to) + 1);
        Ok(())
    }

    // Nothing is announced, scanned, claimed or in hand.
    fn is_at_rest(&self) -> bool
        ensures { (z : Numbers) → IsTrue result ↔ IsAtRest (active_view z self.now) }
    {
        if self.draft.is_some() {
            return false;
        }
        if self.hand.is_some() {
            return false;
        }
        self.position == 0 && phase::are_quiet(&self.phases)
    }

    pub(crate) fn may_join(&self, sizes: Sizes, from: u32, other: &Worker) -> bool
        ensures { IsTrue result ↔ MayJoin (active_view sizes self.now) from (view_of sizes other.now) }
    {
        if self.position != 0 || from == self.number || from == 0 {
            return false;
        }
        if !other.active {
            return false;
        }
        if !other.is_at_rest() {
            return false;
        }
        // At most twice as many names are retired as there are announcement words.
        let retired = self.retired.len() as u64 + other.retired.len() as u64;
        if (retired + 1) / 2 > sizes.announced_words() {
            return false;
        }
        true
    }

    // What the other held and retired is this one's.
    pub(crate) fn join(&mut self, from: u32, other: &Worker) -> Result<(), AllocError>
        requires { other.now.active ≡ true }
        ensures { OnOk result ((z : Numbers) → Turns self.old self.new (λ v. joined v from (view_of z other.now))) }
    {
        self.take_in(from, other)?;
        self.forget();
        Ok(())
    }

    // The same, before the node last read is forgotten.
    fn take_in(&mut self, from: u32, other: &Worker) -> Result<(), AllocError>
        requires { other.now.active ≡ true }
        ensures { OnOk result ((z : Numbers) → Turns self.old self.new (reads_on (λ v. joined v from (view_of z other.now)))) }
    {
        self.held.extend_from_slice(&other.held)?;
        self.retired.extend_from_slice(&other.retired)?;
        if self.number == 0 {
            multiset::remove_first(&mut self.out, from);
            multiset::remove_each(&mut self.out, &other.out);
        } else {
            self.out.push(from)?;
            self.out.extend_from_slice(&other.out)?;
        }
        Ok(())
    }
}
