//! The boxes: an operation changes hands there. A worker offers one in a box of its own, and takes
//! it back, by itself or with the result that another worker came to; it takes operations out of
//! boxes of others, and puts there what became of them.
ghost use Rattle.std.specs.Prelude.{◌≡◌, ◌≢◌, ℕ, Bool, ◌+◌, ◌*◌, ◌^◌, ◌<◌, ◌≤◌, [], ◌∷◌, length, None, IfOk, IfErr, IfSome};
ghost use Rattle.eqc_tree.specs.Tree.{value};
ghost use Rattle.eqc_tree.specs.Operation.{operate};
ghost use Rattle.eqc_core.specs.Words.{slots_of};
ghost use Rattle.eqc_core.specs.Moves.{IsReady};
ghost use Rattle.eqc_guard.specs.Known.{IsHeld, tree_of};
ghost use Rattle.eqc_guard.specs.declared.parcel.Parcel.TheVariants.{Empty, Done, Stopped};
ghost use Rattle.eqc_arena.specs.Changing.{Exchanges};
ghost use Rattle.eqc_apply.specs.Stopping.{HasMet, HasStopped};
ghost use Rattle.eqc_apply.specs.Handing.{ComesOut, IsOwn, HasCome};
ghost use Rattle.eqc_apply.specs.Combining.{IsResult};
ghost use Rattle.eqc_apply.specs.Extending.{Extends};
ghost use Rattle.eqc_guard.specs.Sharing.{parcel_names};
ghost use Rattle.eqc_arena.specs.Unboxing.{HoldsParcel, KeepsMarks, NotesStop};

use crate::held::{Held, count_in, grow_counts, settle};
use crossbeam_utils::Backoff;
use eqc_arena::boxes::{give_parcel, put};
use eqc_arena::nodes::copy;
use eqc_guard::filled::Filled;
use eqc_guard::parcel::Parcel;
use eqc_guard::reference::Ref as Name;
use eqc_guard::worker::Worker;
use eqc_tree::{Op, Stop, unpack_cell};
use std::sync::Wait;

/// How many boxes a worker has: one for each of the first levels of an operation, in which one half
/// can be offered.
pub(crate) const LEVELS: u32 = 16;

// Whether the word of a box has an operation to be done. A result has the number of its operation,
// 1 to 4, and a stop one from 13 on.
fn is_task(word: u64) -> bool {
    let (tag, _, _, _) = unpack_cell(word);
    tag > 4 && tag < 9
}

// One more reference of a name that is held, of which there are few.
fn another(worker: &mut Worker, x: u32) -> Name
    requires ready { IsReady worker.old.known.core }
    requires held { IsHeld worker.old.known.core x }
    requires few { length worker.old.known.core.held ≤ 2 ^ 30 }
    ensures name { result.number ≡ x }
    ensures came { Exchanges [] (slots_of (x ∷ [])) worker.old worker.new }
{
    let name = worker.reference(x);
    let more = copy(worker, &name);
    let _number = name.into_number();
    match more {
        Ok(more) => more,
        Err(_) => unreachable!(),
    }
}

// What a box has now, which comes out of it.
fn take_now(worker: &mut Worker, b: u32) -> Parcel
    requires ready { IsReady worker.old.known.core }
    requires there { b < 16 * worker.old.known.core.sizes.workers }
    requires few { length worker.old.known.core.held ≤ 2 ^ 30 }
    ensures { ComesOut result worker.old worker.new }
{
    worker.recall_laws();
    // A look takes no step that others would have to wait for.
    if worker.look_box(b) == 0 {
        return Parcel::Empty;
    }
    worker.swap_box(b, Parcel::Empty)
}

// What a box has, once it is not empty.
fn wait_for<R: Wait>(worker: &mut Worker, rt: &R, b: u32) -> Parcel
    requires ready { IsReady worker.old.known.core }
    requires there { b < 16 * worker.old.known.core.sizes.workers }
    requires few { length worker.old.known.core.held ≤ 2 ^ 30 }
    ensures { ComesOut result worker.old worker.new }
{
    worker.recall_laws();
    let backoff = Backoff::new();
    for _ in rt.forever() {
        match take_now(worker, b) {
            Parcel::Empty => backoff.snooze(),
            parcel => return parcel,
        }
    }
    unreachable!()
}

// Takes an operation out of a box, where it is still to be done. What else was in the box is put
// back.
fn task_out(worker: &mut Worker, b: u32) -> Option<(Op, Name, Name)>
    requires ready { IsReady worker.old.known.core }
    requires there { b < 16 * worker.old.known.core.sizes.workers }
    requires few { length worker.old.known.core.held ≤ 2 ^ 30 }
    ensures some { IfSome result (λ t. Exchanges [] (slots_of (t.1.number ∷ t.2.number ∷ [])) worker.old worker.new) }
    ensures none { result ≡ None → Exchanges [] [] worker.old worker.new }
{
    match take_now(worker, b) {
        Parcel::Task(op, f, g) => Some((op, f, g)),
        Parcel::Done(filled) => {
            put(worker, b, Parcel::Done(filled));
            None
        }
        Parcel::Stopped(stop, f, g) => {
            put(worker, b, Parcel::Stopped(stop, f, g));
            None
        }
        Parcel::Empty => None,
    }
}

// The result in what came out of a box, where it is that of the operation on these operands.
fn own_result(worker: &mut Worker, op: Op, f: u32, g: u32, filled: Filled) -> Option<Name>
    requires ready { IsReady worker.old.known.core }
    requires held { HoldsParcel worker.old.known.core (Done filled) }
    ensures some { IfSome result (λ r. IsOwn op f g filled r.number worker.old worker.new) }
    ensures none { result ≡ None → Exchanges (parcel_names (Done filled)) [] worker.old worker.new }
    ensures marks { KeepsMarks worker.old.known.core worker.new.known.core }
{
    if filled.op != op || filled.f.number() != f || filled.g.number() != g {
        give_parcel(worker, Parcel::Done(filled));
        return None;
    }
    let Filled {
        op: _,
        f: first,
        g: second,
        r,
    } = filled;
    give_parcel(worker, Parcel::Task(op, first, second));
    Some(r)
}

// Whether what came out of a box tells why the operation on these operands stopped.
fn own_stop(
    worker: &mut Worker,
    f: u32,
    g: u32,
    stop: Stop,
    first: Name,
    second: Name,
) -> Result<(), Stop>
    requires ready { IsReady worker.old.known.core }
    requires held { HoldsParcel worker.old.known.core (Stopped stop first second) }
    requires noted { NotesStop (Stopped stop first second) worker.old.known.core }
    requires other { stop ≢ Stop.Threads }
    ensures gone { Exchanges (parcel_names (Stopped stop first second)) [] worker.old worker.new }
    ensures stop { IfErr result (λ s. HasMet s worker.new.known.core) }
    ensures marks { KeepsMarks worker.old.known.core worker.new.known.core }
{
    let own = first.number() == f && second.number() == g;
    give_parcel(worker, Parcel::Stopped(stop, first, second));
    if own { Err(stop) } else { Ok(()) }
}

// Empties a box, whatever it has, which is given back. Says whether there was something in it.
fn empty(worker: &mut Worker, b: u32) -> bool
    requires ready { IsReady worker.old.known.core }
    requires there { b < 16 * worker.old.known.core.sizes.workers }
    requires few { length worker.old.known.core.held ≤ 2 ^ 30 }
    ensures changes { Exchanges [] [] worker.old worker.new }
    ensures marks { KeepsMarks worker.old.known.core worker.new.known.core }
{
    let parcel = take_now(worker, b);
    let is_full = !matches!(&parcel, Parcel::Empty);
    give_parcel(worker, parcel);
    is_full
}

// Takes an operation out of a box, once there is something in it: with its result, where another
// worker did it. The error is why it stopped there. Where the box had something else, or the
// operation as it was put there, it is still to be done.
fn take_out<R: Wait>(
    worker: &mut Worker,
    rt: &R,
    b: u32,
    op: Op,
    f: u32,
    g: u32,
) -> Result<Option<Name>, Stop>
    requires ready { IsReady worker.old.known.core }
    requires there { b < 16 * worker.old.known.core.sizes.workers }
    requires f { IsHeld worker.old.known.core f }
    requires g { IsHeld worker.old.known.core g }
    requires few { length worker.old.known.core.held ≤ 2 ^ 30 }
    ensures done { IfOk result (λ found. IfSome found (λ r. HasCome op f g r.number worker.old worker.new)) }
    ensures undone { result ≡ Ok None → Exchanges [] [] worker.old worker.new }
    ensures stop { IfErr result (λ s. Exchanges [] [] worker.old worker.new × HasMet s worker.new.known.core) }
    ensures marks { KeepsMarks worker.old.known.core worker.new.known.core }
{
    match wait_for(worker, rt, b) {
        Parcel::Done(filled) => Ok(own_result(worker, op, f, g, filled)),
        Parcel::Stopped(stop, first, second) => {
            match own_stop(worker, f, g, stop, first, second) {
                Ok(()) => Ok(None),
                Err(stop) => Err(stop),
            }
        }
        Parcel::Task(op, first, second) => {
            give_parcel(worker, Parcel::Task(op, first, second));
            Ok(None)
        }
        Parcel::Empty => Ok(None),
    }
}

impl Held {
    // The worker's own box for a level, where there is one.
    fn own_box(&self, level: u32) -> Option<u32>
        ensures { IfSome result (λ b. (b ≡ 16 * self.now.worker.known.core.number + level) × (b < 16 * self.now.worker.known.core.sizes.workers)) }
    {
        let b = self
            .worker
            .number()
            .checked_mul(LEVELS)?
            .checked_add(level)?;
        if b < self.worker.boxes() {
            Some(b)
        } else {
            None
        }
    }

    /// The box of another worker at which a worker looks as its `nth` one: level by level, and
    /// at the workers behind it first, so that workers without work look elsewhere.
    pub(crate) fn other_box(&self, nth: u32) -> Option<u32>
        ensures { IfSome result (λ b. b < 16 * self.now.worker.known.core.sizes.workers) }
    {
        let workers = self.worker.workers().max(1);
        let number = self.worker.number();
        let owner = number.checked_add(nth % workers)?.checked_add(1)? % workers;
        let b = owner.checked_mul(LEVELS)?.checked_add(nth / workers)?;
        if owner != number && b < self.worker.boxes() {
            Some(b)
        } else {
            None
        }
    }

    /// Whether there is an operation to be done in a box.
    pub(crate) fn is_offered(&mut self, b: u32) -> bool
        requires { b < 16 * self.old.worker.known.core.sizes.workers }
        ensures { Extends self.old self.new }
    {
        self.worker.recall_laws();
        let word = self.worker.look_box(b);
        is_task(word)
    }

    /// Offers an operation to other workers, in the box of this level, and says whether it did.
    pub(crate) fn offer(&mut self, level: u32, op: Op, f: u32, g: u32) -> bool
        requires f { IsHeld self.old.worker.known.core f }
        requires g { IsHeld self.old.worker.known.core g }
        ensures { Extends self.old self.new }
    {
        self.worker.recall_laws();
        let Some(b) = self.own_box(level) else {
            return false;
        };
        let first = another(&mut self.worker, f);
        let second = another(&mut self.worker, g);
        put(&mut self.worker, b, Parcel::Task(op, first, second));
        true
    }

    /// Takes an operation back that was offered at this level: its result, where another worker did
    /// it, which is held then, and none where it is still to be done. The call may wait. The errors
    /// are why it stopped at the other worker, and `Memory`.
    pub(crate) fn take_back<R: Wait>(
        &mut self,
        rt: &R,
        level: u32,
        op: Op,
        f: u32,
        g: u32,
    ) -> Result<Option<u32>, Stop>
        requires f { IsHeld self.old.worker.known.core f }
        requires g { IsHeld self.old.worker.known.core g }
        ensures names { Extends self.old self.new }
        ensures ok { IfOk result (λ found. IfSome found (IsResult self.new.variables op self.new.worker.known f g)) }
        ensures stop { IfErr result (λ s. HasStopped s self.new) }
    {
        self.worker.recall_laws();
        let Some(b) = self.own_box(level) else {
            return Ok(None);
        };
        let Some(name) = take_out(&mut self.worker, rt, b, op, f, g)? else {
            return Ok(None);
        };
        let x = settle(&mut self.worker, &mut self.counts, name)?;
        Ok(Some(x))
    }

    /// Whether another worker is at the operation that was offered at this level.
    pub(crate) fn is_taken(&mut self, level: u32) -> bool
        ensures { Extends self.old self.new }
    {
        self.worker.recall_laws();
        let Some(b) = self.own_box(level) else {
            return false;
        };
        self.worker.look_box(b) == 0
    }

    /// Takes back what is in the box of this level, and leaves it. Says whether there was
    /// something: where an operation was offered and nothing is there, another worker is at it.
    pub(crate) fn withdraw(&mut self, level: u32) -> bool
        ensures names { Extends self.old self.new }
        ensures marks { KeepsMarks self.old.worker.known.core self.new.worker.known.core }
    {
        self.worker.recall_laws();
        match self.own_box(level) {
            Some(b) => empty(&mut self.worker, b),
            None => true,
        }
    }

    /// Takes an operation out of a box of another worker, where it is still to be done. Its
    /// operands are held then. What else was in the box is put back, and so is the operation where
    /// memory is refused for its operands.
    pub(crate) fn take_task(&mut self, b: u32) -> Option<(Op, u32, u32)>
        requires { b < 16 * self.old.worker.known.core.sizes.workers }
        ensures names { Extends self.old self.new }
        ensures held { IfSome result (λ t. IsHeld self.new.worker.known.core t.1 × IsHeld self.new.worker.known.core t.2) }
    {
        self.worker.recall_laws();
        let Some((op, f, g)) = task_out(&mut self.worker, b) else {
            return None;
        };
        let Ok(()) = grow_counts(&mut self.counts, f.number().max(g.number())) else {
            // Its owner has room for both, and does it by itself.
            put(&mut self.worker, b, Parcel::Task(op, f, g));
            return None;
        };
        let first = count_in(&mut self.worker, &mut self.counts, f);
        let second = count_in(&mut self.worker, &mut self.counts, g);
        Some((op, first, second))
    }

    /// Puts the result of an operation into the box from which it was taken.
    pub(crate) fn put_done(&mut self, b: u32, op: Op, f: u32, g: u32, x: u32)
        requires there { b < 16 * self.old.worker.known.core.sizes.workers }
        requires f { IsHeld self.old.worker.known.core f }
        requires g { IsHeld self.old.worker.known.core g }
        requires x { IsHeld self.old.worker.known.core x }
        requires right { (a : ℕ → Bool) → operate op (value (tree_of self.old.worker.known f) a) (value (tree_of self.old.worker.known g) a) ≡ value (tree_of self.old.worker.known x) a }
        ensures { Extends self.old self.new }
    {
        self.worker.recall_laws();
        let first = another(&mut self.worker, f);
        let second = another(&mut self.worker, g);
        let r = another(&mut self.worker, x);
        let filled = Filled {
            op,
            f: first,
            g: second,
            r,
        };
        put(&mut self.worker, b, Parcel::Done(filled));
    }

    /// Puts why an operation stopped into the box from which it was taken.
    pub(crate) fn put_stop(&mut self, b: u32, stop: Stop, f: u32, g: u32)
        requires there { b < 16 * self.old.worker.known.core.sizes.workers }
        requires f { IsHeld self.old.worker.known.core f }
        requires g { IsHeld self.old.worker.known.core g }
        requires stop { stop ≢ Stop.Threads }
        ensures { Extends self.old self.new }
    {
        self.worker.recall_laws();
        let first = another(&mut self.worker, f);
        let second = another(&mut self.worker, g);
        put(&mut self.worker, b, Parcel::Stopped(stop, first, second));
    }
}
