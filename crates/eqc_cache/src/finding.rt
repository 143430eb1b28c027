//! The lookup.
ghost use Rattle.std.specs.Prelude.{◌≡◌, ◌-◌, ◌<◌, ◌≤◌, ◌^◌, ◌⊎◌, ℕ, List, length, Some, None, IfSome};
ghost use Rattle.eqc_core.specs.View.{phase_at};
ghost use Rattle.eqc_core.specs.declared.phase.Phase.TheVariants.{Idle, Seen};
ghost use Rattle.eqc_core.specs.Words.{result_of};
ghost use Rattle.eqc_core.specs.Announcing.{MayLook, MayAnnounce};
ghost use Rattle.eqc_guard.specs.Known.{IsHeld};
ghost use Rattle.eqc_guard.specs.Acquiring.{IsAt, IsPassed};
ghost use Rattle.eqc_guard.specs.Copying.{cell_in, KeepsCells};
ghost use Rattle.eqc_cache.specs.Finding.{IsTaken, IsHit};
ghost use Rattle.eqc_cache.specs.Placing.{IsEntry, HasResult, HasNone, HasResultAt, HasNoneAt};

use crate::key;
use eqc_guard::reference::Ref;
use eqc_guard::worker::Worker;
use eqc_tree::{Op, pack_cell, unpack_cell};

// The result in a word, where the word is the entry of the operation with these operands.
#[tactic(auto, unfolding(eqc_core::specs::Words::operation_of, eqc_core::specs::Words::first_of, eqc_core::specs::Words::second_of, eqc_core::specs::Words::result_of))]
#[inline(always)]
pub(crate) fn result_in(word: u64, op: Op, first: u32, second: u32) -> Option<u32>
    requires first { first < 2 ^ 20 }
    requires second { second < 2 ^ 20 }
    ensures entry { IfSome result (λ found. IsEntry op (first, second) word × (found ≡ result_of word)) }
    ensures other { result ≡ None → IsEntry op (first, second) word → ⊥ }
{
    // The fields of a word are apart, so one comparison of words compares the tag and both
    // operands.
    let (_, _, _, found) = unpack_cell(word);
    if word != pack_cell(op.tag(), first, second, found) {
        return None;
    }
    Some(found)
}

// Counts the result of the word that was seen up, where a second look finds the word again and the
// limit of references allows it.
fn take(worker: &mut Worker, found: u32) -> Option<Ref>
    requires may { MayAnnounce worker.old.known.core 0 found }
    requires slot { 2 ≤ found }
    ensures name { IfSome result (λ r. r.number ≡ found) }
    ensures hit { IfSome result (λ r. IsTaken found worker.old worker.new) }
    ensures miss { result ≡ None → IsAt 0 Idle worker.old worker.new }
    ensures cells { KeepsCells worker.old.known worker.new.known }
    ensures alone { result ≡ None → (2 ^ 32 - 1 ≤ length worker.old.known.core.held) ⊎ ((ws : List ℕ) → worker.old.known.copy ≡ Some ws → (c word : ℕ) → phase_at worker.old.known.core 0 ≡ Seen c word → cell_in worker.old.known ws c ≡ word → ⊥) }
{
    if !worker.confirm(0, found) {
        return None;
    }
    match worker.up(found) {
        Ok(reference) => {
            worker.release();
            Some(reference)
        }
        Err(_) => {
            worker.release();
            None
        }
    }
}

// The lookup of operands in order, where a load has just told that their cell has their entry. The
// look that begins here may find another word. It stands by itself so that a miss is short.
#[inline(never)]
fn seek(worker: &mut Worker, op: Op, first: u32, second: u32, cell: u32) -> Option<Ref>
    requires may { MayLook worker.old.known.core 0 cell }
    requires first { first < 2 ^ 20 }
    requires second { second < 2 ^ 20 }
    requires first_held { IsHeld worker.old.known.core first }
    requires second_held { IsHeld worker.old.known.core second }
    ensures hit { IfSome result (λ r. IsHit op first second r.number worker.old worker.new) }
    ensures miss { result ≡ None → IsPassed 0 worker.old worker.new }
    ensures cells { KeepsCells worker.old.known worker.new.known }
    ensures found { IfSome result (λ r. HasResultAt op (first, second) cell r.number worker.old.known) }
    ensures missed { result ≡ None → (2 ^ 32 - 1 ≤ length worker.old.known.core.held) ⊎ HasNoneAt op (first, second) cell worker.old.known }
{
    let word = worker.look(0, cell);
    let found = result_in(word, op, first, second)?;
    if found < 2 {
        return Some(worker.constant(found == 1));
    }
    take(worker, found)
}

/// The result of an operation, where the cache has it: it is then held once more.
///
/// Both operands are held or constants, no scan is under way, the worker's first announcement word
/// announces nothing, and there is a cell. Without a hit
/// the same names are held as before. So it is at 2^32 - 1 names held. Below that, a worker that is
/// alone has a hit exactly where the cell of the operands has their entry.
#[inline]
pub fn lookup(worker: &mut Worker, op: Op, f: &Ref, g: &Ref) -> Option<Ref>
    requires may { MayLook worker.old.known.core 0 0 }
    requires first { IsHeld worker.old.known.core f.now.number }
    requires second { IsHeld worker.old.known.core g.now.number }
    ensures hit { IfSome result (λ r. IsHit op f.now.number g.now.number r.number worker.old worker.new) }
    ensures miss { result ≡ None → IsPassed 0 worker.old worker.new }
    ensures cells { KeepsCells worker.old.known worker.new.known }
    ensures found { IfSome result (λ r. HasResult op f.now.number g.now.number r.number worker.old.known) }
    ensures missed { result ≡ None → (2 ^ 32 - 1 ≤ length worker.old.known.core.held) ⊎ HasNone op f.now.number g.now.number worker.old.known }
{
    let (first, second) = key::ordered(op, f.number(), g.number());
    let cell = key::place(worker.cells(), op, first, second);
    // Most cells have another entry or none. A load tells that, and leaves the worker as it is.
    let loaded = worker.load_cell(cell);
    result_in(loaded, op, first, second)?;
    seek(worker, op, first, second, cell)
}
