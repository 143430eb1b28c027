//! The hints in their turn, and the calls that learn and refute.
ghost use Rattle.std.specs.Prelude.{◌≡◌, ℕ, Bool, List, [], IsTrue, IfOk, OnErr, IfSome, IfNone, OnSome};
ghost use Rattle.eqc_rup.specs.Clauses.{IsTrueOf, AreWithin, IsSound, IsRefuted, Puts};

use crate::falsified::Falsified;
use crate::left::Left;
use crate::reading::left_by;
use crate::{Clauses, Hint, Marks};
use eqc_xag::{Graph, Literal, negated, node_of};
use std::alloc::AllocError;

/// Whether the hints, each unit or false in its turn, show that one of the literals is true that
/// are taken to be false. Leaves what it took to be false besides.
fn ends_in_conflict(
    graph: &Graph,
    clauses: &Clauses,
    hints: &[Hint],
    falsified: &mut Falsified,
) -> Result<bool, AllocError>
    requires sound { IsSound graph.now clauses.now }
    ensures { IfOk result (λ yes. IsTrue yes → IsTrueOf graph.now falsified.old) }
{
    'hints: for hint in hints {
        match left_by(graph, clauses, *hint, falsified) {
            Left::Nothing => return Ok(true),
            Left::One(l) => falsified.set_false(negated(l))?,
            Left::More => return Ok(false),
        }
    }
    Ok(false)
}

/// Whether the hints show the clause. Leaves what it took to be false.
fn clause_follows(
    graph: &Graph,
    clauses: &Clauses,
    clause: &[Literal],
    hints: &[Hint],
    falsified: &mut Falsified,
) -> Result<bool, AllocError>
    requires sound { IsSound graph.now clauses.now }
    requires nothing { falsified.old ≡ [] }
    ensures { IfOk result (λ yes. IsTrue yes → IsTrueOf graph.now clause.now) }
{
    falsified.make_room(2 * graph.len() as usize)?;
    falsified.set_all_false(clause)?;
    ends_in_conflict(graph, clauses, hints, falsified)
}

/// Whether the hints show that one of the assumptions is false. Leaves what it took to be false.
fn refutation_follows(
    graph: &Graph,
    clauses: &Clauses,
    assumptions: &[Literal],
    hints: &[Hint],
    falsified: &mut Falsified,
) -> Result<bool, AllocError>
    requires sound { IsSound graph.now clauses.now }
    requires nothing { falsified.old ≡ [] }
    ensures { IfOk result (λ yes. IsTrue yes → IsRefuted graph.now assumptions.now) }
{
    falsified.make_room(2 * graph.len() as usize)?;
    falsified.set_all_true(assumptions)?;
    ends_in_conflict(graph, clauses, hints, falsified)
}

/// Whether the graph has each of the literals.
fn are_within(graph: &Graph, clause: &[Literal]) -> bool
    ensures { IsTrue result → AreWithin graph.now clause.now }
{
    let count = graph.len();
    for l in clause {
        if node_of(*l) >= count {
            return false;
        }
    }
    true
}

/// Whether the hints show the clause.
fn shows(
    graph: &Graph,
    clauses: &Clauses,
    clause: &[Literal],
    hints: &[Hint],
    marks: &mut Marks,
) -> Result<bool, AllocError>
    requires sound { IsSound graph.now clauses.now }
    ensures { IfOk result (λ yes. IsTrue yes → IsTrueOf graph.now clause.now) }
{
    let found = clause_follows(graph, clauses, clause, hints, &mut marks.falsified);
    marks.falsified.clear();
    found
}

impl Clauses {
    /// Takes in a clause that the hints show: with its literals false, each names a clause that is
    /// unit, or one that is false, which ends it. Gives the clause's number, or `None` where they
    /// don't show it. A clause of no literals, or of one that the graph doesn't have, is never
    /// taken in. Hints may name any numbers. Fails where memory is refused, or where 2^32 - 1
    /// clauses are in use, and then the store is as before.
    pub fn learn(
        &mut self,
        graph: &Graph,
        clause: &[Literal],
        hints: &[Hint],
        marks: &mut Marks,
    ) -> Result<Option<u32>, AllocError>
        requires sound { IsSound graph.now self.old }
        ensures sound { IsSound graph.now self.new }
        ensures learned { IfOk result (λ number. IfSome number (λ k. Puts self.old self.new k clause.now)) }
        ensures shown { IfOk result (λ number. OnSome number (IsTrueOf graph.now clause.now)) }
        ensures none { IfOk result (λ number. IfNone number (self.new ≡ self.old)) }
        ensures err { OnErr result (self.new ≡ self.old) }
    {
        if clause.is_empty() || !are_within(graph, clause) {
            return Ok(None);
        }
        if !shows(graph, self, clause, hints, marks)? {
            return Ok(None);
        }
        let number = self.put(clause)?;
        Ok(Some(number))
    }

    /// Whether the hints show that the assumptions can't all be true: with all of them true, each
    /// hint names a clause that is unit, or one that is false, which ends it. Assumptions and hints
    /// may name any numbers. Fails where memory is refused.
    pub fn refutes(
        &self,
        graph: &Graph,
        assumptions: &[Literal],
        hints: &[Hint],
        marks: &mut Marks,
    ) -> Result<bool, AllocError>
        requires sound { IsSound graph.now self.now }
        ensures { IfOk result (λ yes. IsTrue yes → IsRefuted graph.now assumptions.now) }
    {
        let found = refutation_follows(graph, self, assumptions, hints, &mut marks.falsified);
        marks.falsified.clear();
        found
    }
}
