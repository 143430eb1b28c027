//! Whether a result that a cell has is a given function: asked without a count.
ghost use Rattle.std.specs.Prelude.{◌≡◌, ◌↔◌, ℕ, Bool, IsTrue, None, IfSome, IsSome};
ghost use Rattle.eqc_tree.specs.Operation.{operate};
ghost use Rattle.eqc_tree.specs.Holding.{IsHeld as IsIn, Keeps, says};
ghost use Rattle.eqc_core.specs.Announcing.{MayLook};
ghost use Rattle.eqc_guard.specs.Known.{IsHeld};
ghost use Rattle.eqc_cache.specs.Peeking.{Passes};
ghost use Rattle.eqc_plain.specs.Placing.{HasAt};
ghost use Rattle.eqc_plain.specs.Spending.{Spends};
ghost use Rattle.eqc_apply.specs.Before.{IsWorker};
ghost use Rattle.eqc_apply.specs.Combining.{Compares, IsMissed};
ghost use Rattle.eqc_apply.specs.Extending.{Extends, holding_in};
ghost use Rattle.eqc_apply.specs.Referring.{entry_of};

use crate::applier::Applier;
use crate::held::Held;
use crate::reference::Ref;
use eqc_cache::peeking::{peek, peek_same, unpeek};
use eqc_guard::reference::Ref as Name;
use eqc_guard::worker::Worker;
use eqc_tree::Op;

// Whether the result of an operation, where the shared cells have it, has the function of a name.
fn compare(worker: &mut Worker, op: Op, f: &Name, g: &Name, r: &Name) -> Option<bool>
    requires may { MayLook worker.old.known.core 0 0 }
    requires f { IsHeld worker.old.known.core f.now.number }
    requires g { IsHeld worker.old.known.core g.now.number }
    requires r { IsHeld worker.old.known.core r.now.number }
    ensures same { IfSome result (Compares op worker.old.known f.now.number g.now.number r.now.number) }
    ensures missed { result ≡ None → IsMissed op worker.old.known f.now.number g.now.number }
    ensures passes { Passes worker.old worker.new }
    ensures counted { worker.new.known.counted ≡ worker.old.known.counted }
{
    let snapshot = peek(worker, op, f, g)?;
    let same = peek_same(worker, &snapshot, r);
    unpeek(worker, snapshot);
    Some(same)
}

impl Held {
    /// Whether the result of an operation, where the shared cells have it, has the function of a
    /// name that is held. It is read under its announcement: no count goes up or down.
    pub(crate) fn is_shared(&mut self, op: Op, f: u32, g: u32, x: u32) -> Option<bool>
        requires f { IsHeld self.old.worker.known.core f }
        requires g { IsHeld self.old.worker.known.core g }
        requires x { IsHeld self.old.worker.known.core x }
        ensures names { Extends self.old self.new }
        ensures same { IfSome result (Compares op self.old.worker.known f g x) }
        ensures missed { result ≡ None → IsMissed op self.old.worker.known f g }
        ensures counted { self.new.worker.known.counted ≡ self.old.worker.known.counted }
        ensures held { self.new.worker.known.core.held ≡ self.old.worker.known.core.held }
        ensures turns { self.new.turns ≡ self.old.turns }
    {
        self.worker.recall_laws();
        let first = self.worker.reference(f);
        let second = self.worker.reference(g);
        let third = self.worker.reference(x);
        let same = compare(&mut self.worker, op, &first, &second, &third);
        let _first = first.into_number();
        let _second = second.into_number();
        let _third = third.into_number();
        same
    }
}

impl Applier {
    /// Whether the operation of `f` and `g` has the function of `r`, where a cell has its result:
    /// one of the worker's own, or one that all workers share. There is an answer where the
    /// worker's own cell has it, and none where neither has it. A worker that is alone has one also
    /// where the shared cell of the operands has their entry, unless that is of a node and no
    /// announcement word is free.
    ///
    /// The names in the worker's own cells are held, and a result in a shared one is read under its
    /// announcement. So no count goes up or down, no name comes or goes, and others that ask for
    /// the same result are not kept waiting. The call takes no memory and waits for nobody.
    pub fn cached_is(&mut self, op: Op, f: &Ref, g: &Ref, r: &Ref) -> Option<bool>
        requires f { IsIn (holding_in self.old.names) (entry_of f.now) }
        requires g { IsIn (holding_in self.old.names) (entry_of g.now) }
        requires r { IsIn (holding_in self.old.names) (entry_of r.now) }
        ensures same { IfSome result (λ same. IsTrue same ↔ ((a : ℕ → Bool) → operate op (says (entry_of f.now) a) (says (entry_of g.now) a) ≡ says (entry_of r.now) a)) }
        ensures own { (x : ℕ) → HasAt self.old.cells.cells.items op f.now.name g.now.name x → IsSome result }
        ensures missed { result ≡ None → IsMissed op self.old.names.worker.known f.now.name g.now.name }
        ensures kept { Keeps (holding_in self.old.names) (holding_in self.new.names) }
        ensures worker { IsWorker self.old.names.worker self.new.names.worker }
        ensures counted { self.new.names.worker.known.counted ≡ self.old.names.worker.known.counted }
        ensures held { self.new.names.worker.known.core.held ≡ self.old.names.worker.known.core.held }
        ensures turns { Spends self.old.names.turns self.new.names.turns }
    {
        self.names.worker.recall_laws();
        if let Some(x) = self.cells.find(op, f.name, g.name) {
            return Some(x == r.name);
        }
        self.names.is_shared(op, f.name, g.name, r.name)
    }
}
