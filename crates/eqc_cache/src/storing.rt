//! What the cells keep: a result is stored, and all are given up.
ghost use Rattle.std.specs.Prelude.{◌≡◌, ◌-◌, ◌*◌, ◌<◌, ◌≤◌, ◌^◌, [], ◌∷◌, length, Some, None, IfSome};
ghost use Rattle.eqc_core.specs.View.{phase_at};
ghost use Rattle.eqc_core.specs.Words.{announced_words, slots_of};
ghost use Rattle.eqc_core.specs.Moves.{IsReady, IsQuiet};
ghost use Rattle.eqc_core.specs.Announcing.{MayLook};
ghost use Rattle.eqc_guard.specs.Known.{IsHeld, IsKnown};
ghost use Rattle.eqc_guard.specs.Filling.{HasEntry, entry_names, word_of};
ghost use Rattle.eqc_guard.specs.Copying.{KeepsCells, SetsCell};
ghost use Rattle.eqc_cache.specs.Placing.{IsStored, AreEmpty, entry_of};
ghost use Rattle.eqc_cache.specs.Storing.{IsRight, MayReplace, Trades, IsAsBefore};

use crate::key;
use eqc_guard::filled::Filled;
use eqc_guard::reference::Ref;
use eqc_guard::worker::Worker;
use eqc_tree::Op;

// One more reference of a name that is held, or of a constant. There is none at the limit of
// references.
fn copy(worker: &mut Worker, x: u32) -> Option<Ref>
    requires known { IsKnown worker.old.known }
    requires ready { IsReady worker.old.known.core }
    requires quiet { IsQuiet (phase_at worker.old.known.core 0) }
    requires held { IsHeld worker.old.known.core x }
    ensures name { IfSome result (λ r. r.number ≡ x) }
    ensures copied { IfSome result (λ r. Trades [] (slots_of (r.number ∷ [])) worker.old worker.new) }
    ensures room { IfSome result (λ r. length worker.old.known.core.held ≤ 2 ^ 39 → length worker.new.known.core.held ≤ 2 ^ 39) }
    ensures none { result ≡ None → worker.new ≡ worker.old }
    ensures full { result ≡ None → 2 ^ 32 - 1 ≤ length worker.old.known.core.held }
    ensures cells { KeepsCells worker.old.known worker.new.known }
{
    if x < 2 {
        return Some(worker.constant(x == 1));
    }
    match worker.up(x) {
        Ok(reference) => Some(reference),
        Err(_) => None,
    }
}

// References for a cell: of both operands and the result. There are none at the limit of
// references, and what was counted up until then is given back.
fn entry(worker: &mut Worker, op: Op, first: u32, second: u32, found: u32) -> Option<Filled>
    requires known { IsKnown worker.old.known }
    requires ready { IsReady worker.old.known.core }
    requires quiet { IsQuiet (phase_at worker.old.known.core 0) }
    requires held { IsHeld worker.old.known.core first × IsHeld worker.old.known.core second × IsHeld worker.old.known.core found }
    requires right { IsRight worker.old.known op first second found }
    requires room { length worker.old.known.core.held ≤ 2 ^ 39 }
    ensures some { IfSome result (λ e. Trades [] (entry_names (Some e)) worker.old worker.new) }
    ensures entry { IfSome result (λ e. HasEntry worker.new.known (Some e)) }
    ensures room { IfSome result (λ e. length worker.new.known.core.held ≤ 2 ^ 39) }
    ensures none { result ≡ None → Trades [] [] worker.old worker.new }
    ensures word { IfSome result (λ e. word_of (Some e) ≡ entry_of op (first, second) found) }
    ensures full { result ≡ None → 2 ^ 32 - 3 ≤ length worker.old.known.core.held }
    ensures cells { KeepsCells worker.old.known worker.new.known }
{
    let f = copy(worker, first)?;
    let Some(g) = copy(worker, second) else {
        worker.down(f);
        return None;
    };
    let Some(r) = copy(worker, found) else {
        worker.down(g);
        worker.down(f);
        return None;
    };
    Some(Filled { op, f, g, r })
}

// Scans where there is no room for one more retired name.
fn scan_when_full(worker: &mut Worker)
    requires known { IsKnown worker.old.known }
    requires ready { IsReady worker.old.known.core }
    requires quiet { IsQuiet (phase_at worker.old.known.core 0) }
    requires room { length worker.old.known.core.held ≤ 2 ^ 39 }
    ensures same { Trades [] [] worker.old worker.new }
    ensures few { length worker.new.known.core.retired < 2 * announced_words worker.new.known.core.sizes }
    ensures cells { KeepsCells worker.old.known worker.new.known }
{
    let retired = worker.retired_names().len();
    if retired >= 2 * worker.announcement_words() as usize {
        worker.scan();
    }
}

// Gives a cell an entry, or none, and gives back what it had: the operands at once, and the result
// once no worker has announced it.
fn replace(worker: &mut Worker, cell: u32, filled: Option<Filled>)
    requires { MayReplace worker.old.known cell filled }
    ensures trades { Trades (entry_names filled) [] worker.old worker.new }
    ensures sets { SetsCell cell (word_of filled) worker.old.known worker.new.known }
{
    scan_when_full(worker);
    if let Some((f, g)) = worker.swap_cell(cell, filled) {
        worker.down(f);
        worker.down(g);
    }
}

/// Stores the result of an operation, which the cache then has until another takes its cell.
///
/// The operands and the result are held or constants, the result is right, there is a cell, and at
/// most 2^39 names are held. No scan is under way, and the worker's first announcement word
/// announces nothing. The worker holds what it held: what the cache keeps is counted by itself. A
/// worker that is alone finds the entry in the cell of its operands then. At the limit of
/// references, from 2^32 - 3 names held on, it may be that nothing is stored.
pub fn store(worker: &mut Worker, op: Op, f: &Ref, g: &Ref, r: &Ref)
    requires may { MayLook worker.old.known.core 0 0 }
    requires first { IsHeld worker.old.known.core f.now.number }
    requires second { IsHeld worker.old.known.core g.now.number }
    requires result { IsHeld worker.old.known.core r.now.number }
    requires right { IsRight worker.old.known op f.now.number g.now.number r.now.number }
    requires room { length worker.old.known.core.held ≤ 2 ^ 39 }
    ensures before { IsAsBefore worker.old worker.new }
    ensures stored { IsStored op f.now.number g.now.number r.now.number worker.old.known worker.new.known }
{
    let (first, second) = key::ordered(op, f.number(), g.number());
    let cell = key::place(worker.cells(), op, first, second);
    if let Some(filled) = entry(worker, op, first, second, r.number()) {
        replace(worker, cell, Some(filled));
    }
}

/// Empties all cells, one after the other.
///
/// No scan is under way, the worker's first announcement word announces nothing, and at most 2^39
/// names are held. The worker holds what it held. One that is alone finds each cell empty then, and
/// the boxes as they were.
pub fn clear(worker: &mut Worker)
    requires may { MayLook worker.old.known.core 0 0 }
    requires room { length worker.old.known.core.held ≤ 2 ^ 39 }
    ensures before { IsAsBefore worker.old worker.new }
    ensures empty { AreEmpty worker.old.known.core.sizes.cells worker.old.known worker.new.known }
{
    for cell in 0..worker.cells() {
        replace(worker, cell, None);
    }
}
