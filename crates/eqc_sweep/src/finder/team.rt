//! Questions that are asked side by side: each worker has a search of its own over the one graph.
ghost use Rattle.std.specs.Prelude.{IfOk};
ghost use Rattle.std.specs.List.{All};
ghost use Rattle.eqc_sweep.specs.Team.{IsAnswerIn, AreAnswersIn};

use crate::finder::ask_both;
use eqc_cdcl::{Answer, Budget, Search};
use eqc_xag::{Graph, Literal};
use std::alloc::{AllocError, Global};
use std::sync::atomic::{AtomicU64, Ordering};
use std::thread;
use std::thread::Threads;

/// Whether two literals are equal: mostly those of a node and of an older one.
#[derive(Clone, Copy)]
pub(crate) struct Question {
    /// The place of the node among those that wait, or of the pair among others.
    pub(crate) place: usize,
    pub(crate) new: u32,
    pub(crate) older: u32,
    /// What is doubted of what lies below the node, and what the question may spend.
    pub(crate) doubt: u8,
    pub(crate) given: Budget,
}

/// What was found of a question.
#[derive(Drop)]
pub(crate) struct Answered {
    /// The number of the question.
    pub(crate) number: usize,
    pub(crate) question: Question,
    pub(crate) answer: Answer,
    /// What wasn't spent.
    pub(crate) left: Budget,
    /// The values of inputs' nodes under the assignment that was found, if one was.
    pub(crate) model: Vec<(u32, bool)>,
}

/// A node that equals an older one, as literals.
#[derive(Clone, Copy)]
pub(crate) struct Merge {
    pub(crate) new: u32,
    pub(crate) older: u32,
}

/// A search, and what it answered.
#[derive(Drop)]
pub(crate) struct Worked {
    pub(crate) search: Search,
    pub(crate) answers: Vec<Answered>,
    /// Whether memory was refused.
    pub(crate) failed: bool,
}

/// A copy of values. Fails where memory is refused.
pub(crate) fn copied(
    alloc: Global,
    values: &[(u32, bool)],
) -> Result<Vec<(Literal, bool)>, AllocError> {
    let mut copy = Vec::with_capacity(alloc, values.len())?;
    for value in values {
        copy.push(*value)?;
    }
    Ok(copy)
}

/// Asks a question. Fails where memory is refused.
fn ask(
    alloc: Global,
    search: &mut Search,
    graph: &Graph,
    question: Question,
    number: usize,
) -> Result<Answered, AllocError>
    ensures answer { IfOk result (IsAnswerIn graph.now) }
{
    let Question { new, older, .. } = question;
    let mut left = question.given;
    let answer = ask_both(search, graph, new, older, &mut left)?;
    let model = match answer {
        Answer::Satisfied => copied(alloc, search.model())?,
        Answer::Refuted | Answer::GaveUp => Vec::new(alloc),
    };
    Ok(Answered {
        number,
        question,
        answer,
        left,
        model,
    })
}

/// Asks the questions that nobody else has taken. Fails where memory is refused.
fn ask_others(
    alloc: Global,
    search: &mut Search,
    graph: &Graph,
    questions: &[Question],
    taken: &AtomicU64,
) -> Result<Vec<Answered>, AllocError>
    ensures answers { IfOk result (λ all. AreAnswersIn graph.now all.items) }
{
    let mut answers = Vec::new(alloc);
    'questions: for _ in 0..questions.len() {
        let number = taken.fetch_add(1, Ordering::Relaxed) as usize;
        if number >= questions.len() {
            break;
        }
        answers.push(ask(alloc, search, graph, questions[number], number)?)?;
    }
    Ok(answers)
}

/// The same, with the search.
fn work_on(
    alloc: Global,
    search: Search,
    graph: &Graph,
    questions: &[Question],
    taken: &AtomicU64,
) -> Worked
    ensures answers { AreAnswersIn graph.now result.answers.items }
{
    let mut search = search;
    match ask_others(alloc, &mut search, graph, questions, taken) {
        Ok(answers) => Worked {
            search,
            answers,
            failed: false,
        },
        Err(_) => Worked {
            search,
            answers: Vec::new(alloc),
            failed: true,
        },
    }
}

/// Asks all questions, each by one of the searches, which take them in turn, in threads of their
/// own or in this one where none can be started. Fails where memory is refused.
pub(crate) fn ask_all<R: Threads + Sync>(
    rt: &R,
    alloc: Global,
    graph: &Graph,
    questions: &[Question],
    searches: Vec<Search>,
) -> Result<Vec<Worked>, AllocError>
    ensures answers { IfOk result (λ all. All (λ w. AreAnswersIn graph.now w.answers.items) all.items) }
{
    let counter = AtomicU64::new(0);
    let taken = &counter;
    thread::map_vec(
        rt,
        searches,
        &|search: Search| work_on(alloc, search, graph, questions, taken),
    )
}
