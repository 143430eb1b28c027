//! Pairs of literals that may be equal, asked about side by side.
ghost use Rattle.std.specs.Prelude.{◌<◌, length, IfOk};
ghost use Rattle.std.specs.List.{All};
ghost use Rattle.eqc_sweep.specs.Team.{IsAnswerIn, ArePlacedIn, IsAsked, IsTwin};

use crate::finder::Finder;
use crate::finder::account::{budget_of, conflicts_left};
use crate::finder::team::{Answered, Question};
use eqc_cdcl::Answer;
use eqc_xag::{Graph, Literal};
use std::alloc::{AllocError, Global};
use std::thread::Threads;

/// Two literals that may be equal.
#[derive(Clone, Copy, PartialEq, Eq, Debug)]
pub struct Twins {
    /// What the caller knows them by.
    pub place: usize,
    pub x: Literal,
    pub y: Literal,
    /// Where they were found equal, the conflicts that it took.
    pub used: u64,
}

#[tactic(auto, using(crate::proofs::TwinsLemmas::asked_more))]
/// Puts a pair with what it took to those that are equal, where the answer is to it and says that
/// it is. The question might have so many conflicts.
fn keep_equal(
    graph: &Graph,
    pairs: &[Twins],
    k: usize,
    answered: &Answered,
    conflicts: u64,
    equal: &mut Vec<Twins>,
) -> Result<(), AllocError>
    requires k { k < length pairs.now }
    requires answer { IsAnswerIn graph.now answered.now }
    requires equal { All (IsTwin graph.now) equal.old.items }
    requires asked { All (IsAsked pairs.now) equal.old.items }
    ensures equal { All (IsTwin graph.now) equal.new.items }
    ensures asked { All (IsAsked pairs.now) equal.new.items }
{
    let Question {
        new,
        older,
        given,
        ..
    } = answered.question;
    let Twins { place, x, y, .. } = pairs[k];
    match answered.answer {
        Answer::Refuted => {
            if new != x || older != y {
                return Ok(());
            }
            let left = conflicts_left(given, answered.left, graph.len());
            equal.push(Twins {
                place,
                x,
                y,
                used: conflicts.saturating_sub(left),
            })?;
        }
        Answer::Satisfied | Answer::GaveUp => {}
    }
    Ok(())
}

/// The questions about pairs from one on, and no more than so many, with so many conflicts each.
/// Fails where memory is refused.
fn questions_about(
    alloc: Global,
    pairs: &[Twins],
    from: usize,
    most: usize,
    conflicts: u64,
) -> Result<Vec<Question>, AllocError> {
    let mut questions = Vec::new(alloc);
    for pair in pairs.iter().skip(from).take(most) {
        questions.push(Question {
            place: pair.place,
            new: pair.x,
            older: pair.y,
            doubt: 0,
            given: budget_of(conflicts, u64::MAX),
        })?;
    }
    Ok(questions)
}

/// The conflicts that a question about a graph took of those that it might have.
fn used_by(graph: &Graph, answered: &Answered) -> u64 {
    let given = answered.question.given;
    let left = conflicts_left(given, answered.left, graph.len());
    given.conflicts.saturating_sub(left)
}

/// Takes answers to questions about pairs from one on in turn, as if each was asked with what those
/// before it left: the conflicts that it took are taken away, and pairs that are equal are noted.
/// Answers behind which pair the next question is: one that took all that is left, or more, is
/// asked once more.
fn keep_in_turn(
    graph: &Graph,
    pairs: &[Twins],
    from: usize,
    answers: &[Option<Answered>],
    conflicts: &mut u64,
    equal: &mut Vec<Twins>,
) -> Result<usize, AllocError>
    requires answers { ArePlacedIn graph.now answers.now }
    requires equal { All (IsTwin graph.now) equal.old.items }
    requires asked { All (IsAsked pairs.now) equal.old.items }
    ensures equal { All (IsTwin graph.now) equal.new.items }
    ensures asked { All (IsAsked pairs.now) equal.new.items }
{
    let mut next = from;
    for answered in answers {
        if next >= pairs.len() {
            break;
        }
        if let Some(answered) = answered {
            let used = used_by(graph, answered);
            if next > from && used >= *conflicts {
                break;
            }
            let given = answered.question.given.conflicts;
            keep_equal(graph, pairs, next, answered, given, equal)?;
            *conflicts = conflicts.saturating_sub(used);
        }
        next += 1;
    }
    Ok(next)
}

impl Finder {
    /// Those pairs that are found equal, each by a question of its own with so many conflicts, in
    /// their order. What is found doesn't depend on how many ask. Fails where memory is refused.
    pub(crate) fn equal_among<R: Threads + Sync>(
        &mut self,
        rt: &R,
        graph: &Graph,
        pairs: &[Twins],
        conflicts: u64,
    ) -> Result<Vec<Twins>, AllocError>
        ensures equal { IfOk result (λ equal. All (IsTwin graph.now) equal.items) }
        ensures asked { IfOk result (λ equal. All (IsAsked pairs.now) equal.items) }
    {
        let questions = questions_about(self.alloc, pairs, 0, pairs.len(), conflicts)?;
        let answers = self.answers(rt, graph, &questions, questions.len())?;
        let mut equal = Vec::new(self.alloc);
        for k in 0..pairs.len() {
            if let Some(Some(answered)) = answers.get(k) {
                keep_equal(graph, pairs, k, answered, conflicts, &mut equal)?;
            }
        }
        Ok(equal)
    }

    /// Those pairs that are found equal where one is asked about after the other, each with the
    /// conflicts that those before it left, which are taken away. As many as there are threads, but
    /// for the first ones, are asked about at once, each with all that is left then. What is found
    /// doesn't depend on how many ask. Fails where memory is refused.
    pub(crate) fn equal_in_turn<R: Threads + Sync>(
        &mut self,
        rt: &R,
        graph: &Graph,
        pairs: &[Twins],
        conflicts: &mut u64,
    ) -> Result<Vec<Twins>, AllocError>
        ensures equal { IfOk result (λ equal. All (IsTwin graph.now) equal.items) }
        ensures asked { IfOk result (λ equal. All (IsAsked pairs.now) equal.items) }
    {
        let mut equal = Vec::new(self.alloc);
        let mut next: usize = 0;
        'turns: for _ in 0..pairs.len() {
            if next >= pairs.len() || *conflicts == 0 {
                break;
            }
            // Often the first one takes all that there is: beside it others are asked in vain.
            let most = self.threads().min(next.saturating_add(1));
            let questions = questions_about(self.alloc, pairs, next, most, *conflicts)?;
            let answers = self.answers(rt, graph, &questions, most)?;
            next = keep_in_turn(graph, pairs, next, &answers, conflicts, &mut equal)?;
        }
        Ok(equal)
    }
}
