//! The graph of a pair's steps, and which outputs and steps are known to be equal by it.
ghost use Rattle.std.specs.Prelude.{IfOk};
ghost use Rattle.eqc_compare.specs.Alike.{IsKnown};
ghost use Rattle.eqc_literals.specs.Literals.{KeepsMarks};

use eqc_build::Steps;
use eqc_compare::Alike;
use eqc_literals::{Owned, first_of_literal, outputs_of_one_literal};
use eqc_sweep::Sweep;
use eqc_xag::Literal;
use std::alloc::{AllocError, Global};
use std::marker::Model;

/// A graph of the steps of a pair in which nodes that were found equal are one, and the literal of
/// each step that was entered. Contracts see the pair.
pub struct Inside<'a> {
    pub(crate) steps: Steps<'a>,
    pub(crate) sweep: Sweep,
    pub(crate) literals: Vec<Option<Literal>>,
    /// The work that the searches for differences may do beside their conflicts, all together, yet.
    pub(crate) work: u64,
    /// The work that it took to see which outputs aren't needed.
    pub(crate) seeing: u64,
    /// The last of the least assignments that were found, as values of the first netlist's inputs,
    /// as many as are tried.
    pub(crate) earlier: Vec<Vec<bool>>,
    /// Whether the last search for the difference of an output gave up.
    pub(crate) gave_up: bool,
}

impl<'a> Model for Inside<'a> {
    ghost use Rattle.eqc_pair.specs.PairOf.{PairOf};
    ghost use Rattle.eqc_literals.specs.Literals.{IsInside};

    ghost Value = { PairOf };

    ghost view = { λ a. a.steps.pair };

    ghost invariant = { λ a. IsInside a.steps a.sweep a.literals.items };
}

/// It stands here for the sake of proofs, as that of `Owned`.
impl<'a> Drop for Inside<'a> {
    fn drop(self) {
        let Inside {
            steps: _,
            sweep,
            literals: _,
            work: _,
            seeing: _,
            earlier: _,
            gave_up: _,
        } = self;
        let _owned = Owned { sweep };
    }
}

impl<'a> Inside<'a> {
    /// What is known of the pair, with what the literals tell: outputs that are marked stay so.
    /// Fails where memory is refused.
    pub fn known(&self, alloc: Global, alike: &Alike) -> Result<Alike, AllocError>
        requires { IsKnown self.now alike.now }
        ensures known { IfOk result (IsKnown self.now) }
        ensures kept { IfOk result (λ more. KeepsMarks self.now alike.now.equal.items more.equal.items) }
    {
        let equal = outputs_of_one_literal(alloc, &self.steps, &self.literals, &alike.equal)?;
        let chosen = first_of_literal(alloc, &self.steps, &alike.chosen, &self.literals)?;
        Ok(Alike { equal, chosen })
    }
}
