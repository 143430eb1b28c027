//! An assignment that begins with given values.
ghost use Rattle.std.specs.Prelude.{◌≡◌, ◌≤◌, length, IfOk, IfSome};
ghost use Rattle.eqc_rup.specs.Clauses.{IsRefuted, IsSound};
ghost use Rattle.eqc_witness.specs.Cones.{holds_under};
ghost use Rattle.eqc_witness.specs.Completing.{Completes, IsCompletion};

use crate::cone::Cone;
use crate::trials::Trials;
use eqc_cdcl::{Answer, Budget, Search};
use eqc_xag::Literal;
use std::alloc::{AllocError, Global};

/// What is known of the values that begin with some and make a cone's root true.
#[derive(Drop)]
pub(crate) enum Completion {
    /// These do.
    Found(Vec<bool>),
    /// There are none.
    Nothing,
    /// It wasn't found out.
    Unknown,
}

/// So many more literals may be visited for each conflict once an assignment was seen: to show that
/// the first positions can't be false takes many visits, and who asks will be told of a difference.
const ONCE_SEEN: u64 = 3_000;

/// The conflicts of a question that begins where the positions that aren't given are false.
const SHORTLY: u64 = 300;

/// What a search may spend, and what it learned of the cone.
#[derive(Drop)]
pub(crate) struct Means {
    pub(crate) search: Search,
    /// What it was given in all.
    pub(crate) given: Budget,
    /// What is left of that.
    pub(crate) budget: Budget,
    pub(crate) trials: Trials,
}

impl Means {
    /// Lets more be visited, since an assignment was seen.
    pub(crate) fn see(&mut self)
        ensures { self.new.search ≡ self.old.search }
    {
        let more = self.budget.conflicts.saturating_mul(ONCE_SEEN);
        self.given.visits = self.given.visits.saturating_add(more);
        self.budget.visits = self.budget.visits.saturating_add(more);
    }

    /// Lets decisions on nodes begin with the values that these have where the positions begin with
    /// the first values and go on as others, or as false where there are none: what makes the root
    /// true is often near these, and then found sooner. Fails where memory is refused.
    fn lean(&mut self, cone: &Cone, first: &[bool], others: &[bool]) -> Result<(), AllocError>
        ensures { self.new.search ≡ self.old.search }
    {
        self.trials.settle(cone, first, others);
        for node in 0..cone.graph.len() {
            self.search.prefer(node, self.trials.value(node))?;
        }
        Ok(())
    }

    /// Asks whether literals of a cone's graph can be true together, with a few of the conflicts
    /// that are left.
    fn ask_shortly(&mut self, cone: &Cone, literals: &[Literal]) -> Result<Answer, AllocError>
        requires { IsSound cone.now.graph self.old.search }
        ensures sound { IsSound cone.now.graph self.new.search }
        ensures answer { IfOk result (λ answer. answer ≡ Answer.Refuted → IsRefuted cone.now.graph literals.now) }
    {
        let before = self.budget.conflicts;
        let few = before.min(SHORTLY);
        self.budget.conflicts = few;
        let answer = self
            .search
            .ask_again(&cone.graph, literals, &mut self.budget);
        let rest = before.saturating_sub(few);
        self.budget.conflicts = self.budget.conflicts.saturating_add(rest);
        answer
    }
}

/// The values of positions in the assignment that a search found. What it leaves open is false.
fn model_values(
    alloc: Global,
    positions: usize,
    model: &[(u32, bool)],
) -> Result<Vec<bool>, AllocError>
    ensures { IfOk result (λ values. length values.items ≡ positions) }
{
    let mut values = vec![in alloc; false; positions]?;
    for (node, value) in model {
        // The input of position p is node p + 1.
        let after = *node as usize;
        if after > 0 && after <= values.len() {
            values[after - 1] = *value;
        }
    }
    Ok(values)
}

/// The assignment that the search found, if the root is true under it and it begins with the first
/// values.
fn found_by(
    alloc: Global,
    cone: &Cone,
    first: &[bool],
    search: &Search,
) -> Result<Completion, AllocError>
    requires { length first.now ≤ cone.now.positions }
    ensures { IfOk result (IsCompletion cone.now.positions (holds_under cone.now.graph cone.now.root) first.now) }
{
    let values = model_values(alloc, cone.positions, search.model())?;
    match cone.confirmed(alloc, first, &values)? {
        Some(values) => Ok(Completion::Found(values)),
        None => Ok(Completion::Unknown),
    }
}

/// Values that begin with the first ones and make the root true, if some are found without a
/// search. Fails where memory is refused.
fn tried(
    alloc: Global,
    cone: &Cone,
    first: &[bool],
    guess: &[bool],
    trials: &mut Trials,
) -> Result<Option<Vec<bool>>, AllocError>
    requires { length first.now ≤ cone.now.positions }
    ensures { IfOk result (λ found. IfSome found (λ values. Completes cone.now.positions (holds_under cone.now.graph cone.now.root) first.now values.items)) }
{
    if first.is_empty() {
        return Ok(None);
    }
    match trials.beginning_with(alloc, cone, first, guess)? {
        Some(values) => cone.confirmed(alloc, first, &values),
        None => Ok(None),
    }
}

/// Asks whether literals of a cone's graph can be true together, by which the positions begin with
/// the first values. Where there are some, it looks for a while near those that are false behind
/// them, which are the least, and then near a guess.
fn ask_near(
    cone: &Cone,
    literals: &[Literal],
    first: &[bool],
    guess: &[bool],
    means: &mut Means,
) -> Result<Answer, AllocError>
    requires { IsSound cone.now.graph means.old.search }
    ensures sound { IsSound cone.now.graph means.new.search }
    ensures answer { IfOk result (λ answer. answer ≡ Answer.Refuted → IsRefuted cone.now.graph literals.now) }
{
    if !first.is_empty() {
        means.lean(cone, first, &[])?;
        match means.ask_shortly(cone, literals)? {
            Answer::GaveUp => means.lean(cone, first, guess)?,
            answer => return Ok(answer),
        }
    }
    means
        .search
        .ask_again(&cone.graph, literals, &mut means.budget)
}

/// Finds values of the positions that begin with the first ones and make the root true, or that
/// there are none. Tries the guess first, with the first values in place of its own, and some
/// others where there are first values. Fails where memory is refused.
pub(crate) fn complete(
    alloc: Global,
    cone: &Cone,
    first: &[bool],
    guess: &[bool],
    means: &mut Means,
) -> Result<Completion, AllocError>
    requires first { length first.now ≤ cone.now.positions }
    requires guess { length guess.now ≡ cone.now.positions }
    requires sound { IsSound cone.now.graph means.old.search }
    ensures sound { IsSound cone.now.graph means.new.search }
    ensures found { IfOk result (IsCompletion cone.now.positions (holds_under cone.now.graph cone.now.root) first.now) }
{
    if let Some(values) = cone.confirmed(alloc, first, guess)? {
        return Ok(Completion::Found(values));
    }
    if let Some(values) = tried(alloc, cone, first, guess, &mut means.trials)? {
        return Ok(Completion::Found(values));
    }
    let assumptions = cone.assumptions(alloc, first)?;
    match ask_near(cone, &assumptions, first, guess, means)? {
        Answer::Refuted => Ok(Completion::Nothing),
        Answer::GaveUp => Ok(Completion::Unknown),
        Answer::Satisfied => found_by(alloc, cone, first, &means.search),
    }
}
