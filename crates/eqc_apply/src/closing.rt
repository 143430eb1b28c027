//! The forest is closed by the applier that is left.
ghost use Rattle.std.specs.Prelude.{◌≡◌, ◌<◌, ◌≤◌, ◌^◌, [], length, IsTrue, ◌↔◌};
ghost use Rattle.eqc_core.specs.Seating.{IsAtRest};
ghost use Rattle.eqc_guard.specs.Splitting.{IsAlone};
ghost use Rattle.eqc_apply.specs.Closing.{IsTold, IsLeft};

use crate::applier::Applier;
use crate::held::Held;
use eqc_arena::boxes::empty_boxes;
use eqc_arena::collecting::collect;
use eqc_guard::tally::Tally;
use eqc_guard::worker::Worker;
use std::sync::Wait;

// Empties the forest of a worker that is alone, and closes it.
fn finish<R: Wait>(worker: Worker, rt: &R) -> Tally
    requires alone { IsAlone worker.known.core }
    requires rest { IsAtRest worker.known.core }
    requires cells { 0 < worker.known.core.sizes.cells }
    requires room { length worker.known.core.held ≤ 2 ^ 39 }
    ensures left { IsLeft result.counted worker.known }
    ensures none { worker.known.core.held ≡ [] → result.counted ≡ 0 }
{
    let mut worker = worker;
    // It takes a copy of all words.
    let _alone = worker.alone();
    empty_boxes(&mut worker);
    collect(&mut worker, rt);
    match worker.close() {
        Ok(tally) => tally,
        Err(_) => unreachable!(),
    }
}

impl Held {
    ghost use Rattle.eqc_apply.specs.Extending.{holding_in};

    /// Whether the worker is worker 0, and no number is out.
    pub(crate) fn is_alone(&self) -> bool
        ensures { IsTrue result ↔ IsAlone self.now.worker.known.core }
    {
        self.worker.number() == 0 && self.worker.outstanding() == 0
    }

    /// Closes the forest of a worker that is alone.
    pub(crate) fn close<R: Wait>(self, rt: &R) -> Tally
        requires { IsAlone self.worker.known.core }
        ensures told { IsTold result.counted self }
        ensures some { result.counted ≡ 0 → (holding_in self).held ≡ [] }
        ensures none { (holding_in self).held ≡ [] → result.counted ≡ 0 }
    {
        let mut names = self;
        names.give_up();
        names.worker.recall_laws();
        let Held {
            worker,
            variables: _,
            counts: _,
            referred: _,
            turns: _,
        } = names;
        finish(worker, rt)
    }
}

impl Applier {
    ghost use Rattle.std.specs.Prelude.{IfOk, IfErr};
    ghost use Rattle.eqc_apply.specs.Extending.{holding_in};

    /// Closes the forest, where the applier's worker is alone: it is worker 0, and no worker is
    /// outstanding. All boxes and cells are emptied, and dead nodes are taken back. Then it tells
    /// how many slots have a count above 0, while the worker holds the nodes on which references
    /// stand, each once, and no other: none exactly where no references are held.
    ///
    /// The error is the applier itself, as it was, where it is not alone. The call may wait.
    pub fn close<R: Wait>(self, rt: &R) -> Result<Tally, Applier>
        ensures closed { IfOk result (λ tally. IsAlone self.names.worker.known.core × ((holding_in self.names).held ≡ [] → tally.counted ≡ 0)) }
        ensures told { IfOk result (λ tally. IsTold tally.counted self.names) }
        ensures some { IfOk result (λ tally. tally.counted ≡ 0 → (holding_in self.names).held ≡ []) }
        ensures kept { IfErr result (λ applier. (applier ≡ self) × (IsAlone self.names.worker.known.core → ⊥)) }
    {
        if !self.names.is_alone() {
            return Err(self);
        }
        Ok(self.into_names().close(rt))
    }
}
