//! Snapshots: a result that the cache has is read under its announcement, with no step on its
//! count.
ghost use Rattle.std.specs.Prelude.{◌≡◌, ◌-◌, ◌<◌, ◌≤◌, ◌^◌, ◌⊎◌, ◌↔◌, ℕ, length, None, IsTrue, IfSome, IfOk, IfErr, OnOk, OnErr};
ghost use Rattle.eqc_tree.specs.Tree.{SameFunction};
ghost use Rattle.eqc_core.specs.View.{phase_at};
ghost use Rattle.eqc_core.specs.declared.phase.Phase.TheVariants.{Idle};
ghost use Rattle.eqc_core.specs.Moves.{IsReady, IsQuiet};
ghost use Rattle.eqc_core.specs.Announcing.{MayLook};
ghost use Rattle.eqc_guard.specs.Known.{IsHeld, tree_of};
ghost use Rattle.eqc_guard.specs.Snapshots.{IsFree, KeepsSnapshots};
ghost use Rattle.eqc_guard.specs.Acquiring.{IsAt};
ghost use Rattle.eqc_guard.specs.Copying.{KeepsCells};
ghost use Rattle.eqc_cache.specs.Placing.{HasResult, HasNone, HasNode, HasResultAt, HasNoneAt, HasNodeAt};
ghost use Rattle.eqc_cache.specs.Peeking.{IsOut, IsPeeked, IsKept, Passes, HasFreeWord};

use crate::finding::result_in;
use crate::key;
use eqc_guard::reference::Ref;
use eqc_guard::worker::Worker;
use eqc_tree::{Op, Stop};

/// A result that the cache had, read without a count: while it is out, it stays, whatever becomes
/// of the cell and of the counts. It has to be given back by `unpeek`.
pub struct Snapshot {
    number: u32,
    // The announcement word that has confirmed the result, where that is a node.
    word: u32,
}

// An announcement word that announces nothing: the first one, which tells of a constant alone,
// where there is no other.
fn word_for(worker: &Worker) -> u32
    requires { IsQuiet (phase_at worker.now.known.core 0) }
    ensures quiet { IsQuiet (phase_at worker.now.known.core result) }
    ensures free { 0 < result → IsFree worker.now.known.core result }
    ensures none { result ≡ 0 → HasFreeWord worker.now.known.core → ⊥ }
{
    match worker.free_word() {
        Some(k) => k,
        None => 0,
    }
}

// The snapshot of the result of operands in order, where their cell has their entry.
fn seek(worker: &mut Worker, op: Op, first: u32, second: u32, cell: u32) -> Option<Snapshot>
    requires may { MayLook worker.old.known.core 0 cell }
    requires first { first < 2 ^ 20 }
    requires second { second < 2 ^ 20 }
    requires first_held { IsHeld worker.old.known.core first }
    requires second_held { IsHeld worker.old.known.core second }
    ensures peeked { IfSome result (λ s. IsPeeked op first second s worker.old worker.new) }
    ensures miss { result ≡ None → Passes worker.old worker.new }
    ensures counted { worker.new.known.counted ≡ worker.old.known.counted }
    ensures cells { KeepsCells worker.old.known worker.new.known }
    ensures found { IfSome result (λ s. HasResultAt op (first, second) cell s.number worker.old.known) }
    ensures missed { result ≡ None → ((HasFreeWord worker.old.known.core → ⊥) × HasNodeAt cell worker.old.known) ⊎ HasNoneAt op (first, second) cell worker.old.known }
{
    let k = word_for(worker);
    let word = worker.look(k, cell);
    let found = result_in(word, op, first, second)?;
    if found < 2 {
        return Some(Snapshot {
            number: found,
            word: 0,
        });
    }
    if k == 0 {
        return None;
    }
    if worker.confirm(k, found) {
        Some(Snapshot {
            number: found,
            word: k,
        })
    } else {
        None
    }
}

/// The result of an operation, where the cache has it, read without a count.
///
/// Both operands are held or constants, no scan is under way, the worker's first announcement word
/// announces nothing, and there is a cell. A constant result needs no announcement word. For that
/// of a node there is none where each of the worker's announcement words but the first announces a
/// name. Whatever comes, the same names are held as before, and no count went up or down. A worker
/// that is alone has a snapshot exactly where the cell of the operands has their entry, and a word
/// is free for it.
pub fn peek(worker: &mut Worker, op: Op, f: &Ref, g: &Ref) -> Option<Snapshot>
    requires may { MayLook worker.old.known.core 0 0 }
    requires first { IsHeld worker.old.known.core f.now.number }
    requires second { IsHeld worker.old.known.core g.now.number }
    ensures peeked { IfSome result (λ s. IsPeeked op f.now.number g.now.number s worker.old worker.new) }
    ensures out { IfSome result (λ s. IsOut worker.new.known.core s) }
    ensures miss { result ≡ None → Passes worker.old worker.new }
    ensures counted { worker.new.known.counted ≡ worker.old.known.counted }
    ensures held { worker.new.known.core.held ≡ worker.old.known.core.held }
    ensures snapshots { KeepsSnapshots worker.old.known worker.new.known }
    ensures cells { KeepsCells worker.old.known worker.new.known }
    ensures found { IfSome result (λ s. HasResult op f.now.number g.now.number s.number worker.old.known) }
    ensures missed { result ≡ None → ((HasFreeWord worker.old.known.core → ⊥) × HasNode op f.now.number g.now.number worker.old.known) ⊎ HasNone op f.now.number g.now.number worker.old.known }
{
    let (first, second) = key::ordered(op, f.number(), g.number());
    let cell = key::place(worker.cells(), op, first, second);
    seek(worker, op, first, second, cell)
}

/// Whether a snapshot that is out at the worker and a name that it holds, or a constant, have one
/// function. It touches no word.
pub fn peek_same(worker: &Worker, snapshot: &Snapshot, f: &Ref) -> bool
    requires out { IsOut worker.now.known.core snapshot.now }
    requires held { IsHeld worker.now.known.core f.now.number }
    ensures { IsTrue result ↔ SameFunction (tree_of worker.now.known snapshot.now.number) (tree_of worker.now.known f.now.number) }
{
    // Among the names of one forest two with one function are one.
    worker.recall_laws();
    snapshot.number == f.number()
}

/// A reference of what a snapshot is of, which is counted up. The snapshot stays out.
///
/// No scan is under way. The error is `References` alone, at 2^32 - 1 names held: then nothing has
/// changed.
pub fn keep(worker: &mut Worker, snapshot: &Snapshot) -> Result<Ref, Stop>
    requires ready { IsReady worker.old.known.core }
    requires out { IsOut worker.old.known.core snapshot.now }
    ensures name { IfOk result (λ r. r.number ≡ snapshot.now.number) }
    ensures kept { OnOk result (IsKept snapshot.now.number worker.old worker.new) }
    ensures still { OnErr result (worker.new ≡ worker.old) }
    ensures full { OnErr result (2 ^ 32 - 1 ≤ length worker.old.known.core.held) }
    ensures only { IfErr result (λ s. s ≡ Stop.References) }
{
    worker.recall_laws();
    if snapshot.number < 2 {
        return Ok(worker.constant(snapshot.number == 1));
    }
    worker.up(snapshot.number)
}

/// Gives a snapshot back: its announcement word announces nothing then. The same names are held as
/// before, and no count went up or down.
///
/// No scan is under way.
pub fn unpeek(worker: &mut Worker, snapshot: Snapshot)
    requires ready { IsReady worker.old.known.core }
    requires out { IsOut worker.old.known.core snapshot }
    ensures constant { snapshot.number < 2 → worker.new ≡ worker.old }
    ensures node { 2 ≤ snapshot.number → IsAt snapshot.word Idle worker.old worker.new }
    ensures counted { worker.new.known.counted ≡ worker.old.known.counted }
    ensures held { worker.new.known.core.held ≡ worker.old.known.core.held }
    ensures cells { KeepsCells worker.old.known worker.new.known }
{
    worker.recall_laws();
    let Snapshot { number, word } = snapshot;
    if number >= 2 {
        worker.announce(word, 0);
    }
}
