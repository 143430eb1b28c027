//! How far a counted load has come.
ghost use Rattle.std.specs.Prelude.{◌≡◌, ◌↔◌, IsTrue, IfOk, ℕ};
ghost use mathlib.Core.Option.{some};
ghost use lib.ListN.{get_elem?};
ghost use Rattle.eqc_core.specs.View.{idle};
ghost use Rattle.eqc_core.specs.Moves.{IsQuiet};

use eqc_tree::unpack_cell;
use std::alloc::{AllocError, Global};

/// How far a counted load by one announcement word has come: a look at a cell, an announcement of
/// the result that was seen there, and a second look.
#[derive(Clone, Copy)]
pub enum Phase {
    /// No load is under way.
    Idle,
    /// The cell, and the word that was seen in it.
    Seen(u32, u64),
    /// The same, and the word's result stands in the announcement word.
    Announced(u32, u64),
    /// The second look found the same word. Its result is announced.
    Confirmed(u32),
    /// The second look found another word. The result of the first is still announced.
    Missed(u32),
}

impl Default for Phase {
    ghost use Rattle.eqc_core.specs.declared.phase.Phase.{Phase};

    ghost is_default = { λ phase. phase ≡ Phase.Idle };

    fn default() -> Self {
        Phase::Idle
    }
}

impl Phase {
    ghost use Rattle.std.specs.Prelude.{◌≡◌, ◌↔◌, IsTrue, IfSome, IsNone, IsSome};
    ghost use Rattle.eqc_core.specs.Moves.{IsQuiet};
    ghost use Rattle.eqc_core.specs.Announcing.{LetsAnnounce, announced_phase, IsAnnounced, announced_cell, rechecked_phase};

    /// Whether nothing is announced.
    pub fn is_quiet(self) -> bool
        ensures { IsTrue result ↔ IsQuiet self }
    {
        match self {
            Phase::Idle => true,
            Phase::Seen(_, _) => true,
            Phase::Announced(_, _) => false,
            Phase::Confirmed(_) => false,
            Phase::Missed(_) => false,
        }
    }

    // Whether x may be stored: the result that was seen, or 0 where a name is announced.
    #[tactic(auto, unfolding(crate::specs::Words::result_of))]
    pub(crate) fn lets_announce(self, x: u32) -> bool
        ensures { IsTrue result ↔ LetsAnnounce self x }
    {
        match self {
            Phase::Idle => false,
            Phase::Seen(_, word) => {
                let (_, _, _, seen) = unpack_cell(word);
                x >= 2 && x == seen
            }
            Phase::Announced(_, _) => x == 0,
            Phase::Confirmed(_) => x == 0,
            Phase::Missed(_) => x == 0,
        }
    }

    /// The phase after a store to the announcement word: the result that was seen is announced, or
    /// what was announced is withdrawn.
    pub fn announced(self) -> Phase
        ensures { result ≡ announced_phase self }
    {
        match self {
            Phase::Idle => Phase::Idle,
            Phase::Seen(c, word) => Phase::Announced(c, word),
            Phase::Announced(_, _) => Phase::Idle,
            Phase::Confirmed(_) => Phase::Idle,
            Phase::Missed(_) => Phase::Idle,
        }
    }

    // The cell that a second look loads.
    pub(crate) fn cell(self) -> Option<u32>
        ensures some { IsSome result ↔ IsAnnounced self }
        ensures cell { IfSome result (λ c. c ≡ announced_cell self) }
    {
        match self {
            Phase::Announced(c, _) => Some(c),
            Phase::Idle => None,
            Phase::Seen(_, _) => None,
            Phase::Confirmed(_) => None,
            Phase::Missed(_) => None,
        }
    }

    /// The phase after a second look that found this word: what was announced is confirmed where
    /// it is the word that was seen, and missed where it is another.
    #[tactic(auto, unfolding(crate::specs::Words::result_of))]
    pub fn rechecked(self, found: u64) -> Phase
        ensures { result ≡ rechecked_phase self found }
    {
        match self {
            Phase::Announced(_, word) => {
                let (_, _, _, x) = unpack_cell(word);
                if found == word {
                    Phase::Confirmed(x)
                } else {
                    Phase::Missed(x)
                }
            }
            Phase::Idle => self,
            Phase::Seen(_, _) => self,
            Phase::Confirmed(_) => self,
            Phase::Missed(_) => self,
        }
    }

    // Whether this name is confirmed.
    pub(crate) fn confirms(self, x: u32) -> bool
        ensures { IsTrue result ↔ (self ≡ Phase.Confirmed x) }
    {
        match self {
            Phase::Confirmed(y) => y == x,
            Phase::Idle => false,
            Phase::Seen(_, _) => false,
            Phase::Announced(_, _) => false,
            Phase::Missed(_) => false,
        }
    }
}

// The phases of so many announcement words by which no load is under way.
pub(crate) fn idle(alloc: Global, words: u32) -> Result<Vec<Phase>, AllocError>
    ensures { IfOk result (λ v. v.items ≡ idle words) }
{
    let mut phases = Vec::new(alloc);
    for _k in 0..words {
        phases.push(Phase::Idle)?;
    }
    Ok(phases)
}

// Whether one of the announcement words has confirmed this name.
pub(crate) fn any_confirms(phases: &[Phase], x: u32) -> bool
    ensures { IsTrue result ↔ ((k : ℕ) × (get_elem? phases.now k ≡ some (Phase.Confirmed x))) }
{
    for phase in phases {
        if phase.confirms(x) {
            return true;
        }
    }
    false
}

// Whether no announcement word announces anything.
pub(crate) fn are_quiet(phases: &[Phase]) -> bool
    ensures { IsTrue result ↔ ((k : ℕ) → (p : Phase) → get_elem? phases.now k ≡ some p → IsQuiet p) }
{
    for phase in phases {
        if !phase.is_quiet() {
            return false;
        }
    }
    true
}

// The same phases, in memory of their own.
pub(crate) fn copy(alloc: Global, phases: &[Phase]) -> Result<Vec<Phase>, AllocError>
    ensures { IfOk result (λ v. v.items ≡ phases.now) }
{
    let mut all = Vec::new(alloc);
    all.extend_from_slice(phases)?;
    Ok(all)
}
