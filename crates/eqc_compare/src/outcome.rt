//! What the comparison of a pair finds.
ghost use Rattle.std.specs.Prelude.{Bool, IfSome};
ghost use Rattle.eqc_compare.specs.Alike.{AreEqual};
ghost use Rattle.eqc_compare.specs.Comparing.{IsOutcome};

use crate::alike::are_all_settled;
use eqc_pair::Pair;
use std::alloc::Global;

/// An output that differs.
#[derive(Drop)]
pub struct Difference {
    /// Its position in the first netlist.
    pub output: usize,
    /// The least assignment of the first netlist's inputs under which it does.
    pub values: Vec<bool>,
}

/// What the comparison of a pair finds.
#[derive(Drop)]
pub enum Outcome {
    /// The assumption allows no assignment, so nothing was compared.
    Vacuous,
    /// The chosen outputs that differ, in the first netlist's order, or the first of them alone:
    /// none where all are equal.
    Compared(Vec<Difference>),
}

/// What is found of a pair of which nothing need be compared: outputs that are marked are equal,
/// every chosen one is, and there is no assumption. None where something has to be.
pub fn known_outcome(alloc: Global, pair: &Pair<'_>, marks: &[bool]) -> Option<Outcome>
    requires { AreEqual pair.now marks.now }
    ensures { IfSome result (λ outcome. (every : Bool) → IsOutcome pair.now every outcome) }
{
    if pair.assumption().is_some() {
        return None;
    }
    if !are_all_settled(pair, marks) {
        return None;
    }
    Some(Outcome::Compared(Vec::new(alloc)))
}
