//! Parcels go into boxes, what came out of them is given back, and all boxes are emptied.
ghost use Rattle.std.specs.Prelude.{◌≡◌, ◌*◌, ◌^◌, ◌<◌, ◌≤◌, [], ◌∷◌, length};
ghost use Rattle.eqc_core.specs.Words.{slots_of};
ghost use Rattle.eqc_core.specs.Moves.{IsReady};
ghost use Rattle.eqc_guard.specs.Known.{IsHeld};
ghost use Rattle.eqc_guard.specs.Copying.{KeepsCells, SetsBox};
ghost use Rattle.eqc_guard.specs.Sharing.{MayPut, parcel_names, parcel_word};
ghost use Rattle.eqc_arena.specs.Changing.{Exchanges};
ghost use Rattle.eqc_arena.specs.Unboxing.{HoldsParcel, AreUnboxed, KeepsMarks};

use eqc_guard::filled::Filled;
use eqc_guard::parcel::Parcel;
use eqc_guard::reference::Ref;
use eqc_guard::worker::Worker;

// Gives a reference back. What a parcel's proof cites of each of its references stands here once.
fn give(worker: &mut Worker, f: Ref)
    requires ready { IsReady worker.old.known.core }
    requires held { IsHeld worker.old.known.core f.number }
    ensures changes { Exchanges (slots_of (f.number ∷ [])) [] worker.old worker.new }
    ensures cells { KeepsCells worker.old.known worker.new.known }
    ensures marks { KeepsMarks worker.old.known.core worker.new.known.core }
{
    worker.recall_laws();
    worker.down(f);
}

/// Gives the references of a parcel back, that came out of a box or was never put into one. The
/// worker holds all of them.
///
/// No scan is under way.
pub fn give_parcel(worker: &mut Worker, parcel: Parcel)
    requires ready { IsReady worker.old.known.core }
    requires held { HoldsParcel worker.old.known.core parcel }
    ensures changes { Exchanges (parcel_names parcel) [] worker.old worker.new }
    ensures cells { KeepsCells worker.old.known worker.new.known }
    ensures marks { KeepsMarks worker.old.known.core worker.new.known.core }
{
    worker.recall_laws();
    match parcel {
        Parcel::Empty => {}
        Parcel::Task(_, f, g) => {
            give(worker, f);
            give(worker, g);
        }
        Parcel::Done(Filled { op: _, f, g, r }) => {
            give(worker, r);
            give(worker, f);
            give(worker, g);
        }
        Parcel::Stopped(_, f, g) => {
            give(worker, f);
            give(worker, g);
        }
    }
}

/// Puts a parcel into box `b`, whose references the box then has, and gives back what it had.
///
/// `b` is less than 16 for each worker, and worker w's boxes are those from 16 w on. The references
/// of the parcel are held, and a result is right. No scan is under way, and at most 2^39 names are
/// held.
pub fn put(worker: &mut Worker, b: u32, parcel: Parcel)
    requires { MayPut worker.old.known b parcel }
    ensures changes { Exchanges (parcel_names parcel) [] worker.old worker.new }
    ensures sets { SetsBox b (parcel_word parcel) worker.old.known worker.new.known }
{
    worker.recall_laws();
    let came = worker.swap_box(b, parcel);
    give_parcel(worker, came);
}

/// Empties all boxes, one after the other, and gives the references back that they had.
///
/// No scan is under way, and at most 2^39 names are held. The worker holds what it held. One that
/// is alone finds each box empty then.
pub fn empty_boxes(worker: &mut Worker)
    requires ready { IsReady worker.old.known.core }
    requires room { length worker.old.known.core.held ≤ 2 ^ 39 }
    ensures changes { Exchanges [] [] worker.old worker.new }
    ensures empty { AreUnboxed (16 * worker.old.known.core.sizes.workers) worker.old.known worker.new.known }
{
    worker.recall_laws();
    for b in 0..worker.boxes() {
        put(worker, b, Parcel::Empty);
    }
}
