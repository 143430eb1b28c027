//! The phases of a worker's announcement words, as the worker keeps them.
ghost use Rattle.std.specs.Prelude.{◌≡◌, ◌<◌, ◌≤◌, ◌↔◌, ℕ, IsTrue, IfSome, None, length, set, get_or};
ghost use mathlib.Core.Option.{some};
ghost use lib.ListN.{get_elem?};
ghost use Rattle.eqc_core.specs.declared.phase.Phase.TheVariants.{Idle};
ghost use Rattle.eqc_core.specs.View.{idle};
ghost use Rattle.eqc_core.specs.Moves.{IsQuiet};

use arrayvec::ArrayVec;
use eqc_core::Phase;

// Those of a worker that has just come, with so many announcement words: none has a name.
pub(crate) fn idle_phases(words: u32) -> ArrayVec<Phase, 4>
    requires { words ≤ 4 }
    ensures { result.items ≡ idle words }
{
    let mut phases = ArrayVec::new();
    for _k in 0..words {
        phases.push(Phase::Idle);
    }
    phases
}

// The phase of the k-th announcement word.
pub(crate) fn phase_of(phases: &ArrayVec<Phase, 4>, k: usize) -> Phase
    requires { k < length phases.now.items }
    ensures { result ≡ get_or phases.now.items k Idle }
{
    phases.as_slice()[k]
}

// The k-th announcement word has this phase now.
pub(crate) fn set_phase(phases: &mut ArrayVec<Phase, 4>, k: usize, phase: Phase)
    requires { k < length phases.old.items }
    ensures { phases.new.items ≡ set phases.old.items k phase }
{
    phases.as_mut_slice()[k] = phase;
}

// The first of so many announcement words, but the very first, that announces nothing.
pub(crate) fn free_word(phases: &ArrayVec<Phase, 4>, words: u32) -> Option<u32>
    requires { words ≡ length phases.now.items }
    ensures some { IfSome result (λ k. (0 < k) × (k < words) × IsQuiet (get_or phases.now.items k Idle)) }
    ensures none { result ≡ None → (k : ℕ) → 0 < k → k < words → IsQuiet (get_or phases.now.items k Idle) → ⊥ }
{
    let all = phases.as_slice();
    for k in 1..words {
        if all[k as usize].is_quiet() {
            return Some(k);
        }
    }
    None
}

// Whether none of the announcement words but the first announces a name.
pub(crate) fn are_silent(phases: &ArrayVec<Phase, 4>) -> bool
    ensures { IsTrue result ↔ ((k : ℕ) → (p : Phase) → 0 < k → get_elem? phases.now.items k ≡ some p → IsQuiet p) }
{
    let all = phases.as_slice();
    for k in 1..all.len() {
        if !all[k].is_quiet() {
            return false;
        }
    }
    true
}
