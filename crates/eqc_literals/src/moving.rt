//! The literals of steps in a graph into which theirs was copied.
ghost use Rattle.std.specs.Prelude.{ℕ, Bool, List, IfOk, IfSome};
ghost use Rattle.eqc_xag.specs.declared.node.Node.{Node};
ghost use Rattle.eqc_sweep.specs.Copying.{AreCopies};
ghost use Rattle.eqc_sweep.specs.Sweeping.{HasValue};
ghost use Rattle.eqc_pair.specs.PairOf.{PairOf};
ghost use Rattle.eqc_gates.specs.Entering.{AreLiterals};

use eqc_sweep::copied;
use eqc_xag::Literal;
use std::alloc::{AllocError, Global};

/// What a literal becomes in another graph, where it has a copy there.
fn moved_one(literal: Option<Literal>, table: &[Option<Literal>]) -> Option<Literal>
    ensures { (old new : List Node) (f : (ℕ → Bool) → Bool) → AreCopies old new table.now → IfSome literal (λ l. HasValue old l f) → IfSome result (λ l. HasValue new l f) }
{
    let literal = literal?;
    copied(table, literal)
}

#[tactic(auto, using(crate::proofs::MovingLaws::moved_begins, crate::proofs::MovingLaws::moved_more))]
/// The literals of steps in another graph: none where a step has none, or its node has no copy.
/// `literals` has those in the graph that was copied, and `table` the literal of each copy, by the
/// nodes there. Fails where memory is refused.
pub fn moved(
    alloc: Global,
    literals: &[Option<Literal>],
    table: &[Option<Literal>],
) -> Result<Vec<Option<Literal>>, AllocError>
    ensures { (p : PairOf) (old new : List Node) → AreLiterals p old literals.now → AreCopies old new table.now → IfOk result (λ all. AreLiterals p new all.items) }
{
    let mut all = Vec::with_capacity(alloc, literals.len())?;
    for literal in literals {
        all.push(moved_one(*literal, table))?;
    }
    Ok(all)
}
