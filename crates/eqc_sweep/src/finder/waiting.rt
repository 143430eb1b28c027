//! New nodes that wait until all of them are asked about, side by side.
ghost use Rattle.std.specs.Prelude.{IfOk};
ghost use Rattle.std.specs.List.{All};
ghost use Rattle.eqc_sweep.specs.Team.{IsMerge, IsAnswerIn, AreAnswersIn, ArePlacedIn};

use crate::finder::team::{Answered, Merge, Question, ask_all};
use crate::finder::{CANDIDATES, Finder};
use eqc_cdcl::{Answer, Search};
use eqc_xag::{Graph, node_of};
use std::alloc::{AllocError, Global};
use std::thread::Threads;

/// So many are asked about side by side: a counterexample among them comes too late for the others.
const CHUNK: usize = 64;

/// There are no more nodes than so many, so that each has its literals.
const NODES: u32 = 1 << 30;

/// In place of a node where there is none.
const NONE: u32 = u32::MAX;

/// A node that waits, and the older ones against which it was asked.
#[derive(Clone, Copy)]
pub(crate) struct Waiting {
    node: u32,
    tried: [u32; CANDIDATES],
    count: usize,
    is_settled: bool,
}

/// So many searches. Fails where memory is refused.
pub(crate) fn team_of(alloc: Global, workers: u32) -> Result<Vec<Search>, AllocError> {
    let mut team = Vec::new(alloc);
    for _ in 0..workers {
        team.push(Search::new(alloc))?;
    }
    Ok(team)
}

/// Puts an answer about a graph to the place of its question.
fn place(_graph: &Graph, answers: &mut Vec<Option<Answered>>, answered: Answered)
    requires answer { IsAnswerIn _graph.now answered }
    requires placed { ArePlacedIn _graph.now answers.old.items }
    ensures placed { ArePlacedIn _graph.now answers.new.items }
{
    let number = answered.number;
    if number < answers.len() {
        answers[number] = Some(answered);
    }
}

/// Puts answers about a graph to the places of their questions.
fn place_all(graph: &Graph, answers: &mut Vec<Option<Answered>>, all: Vec<Answered>)
    requires answers { AreAnswersIn graph.now all.items }
    requires placed { ArePlacedIn graph.now answers.old.items }
    ensures placed { ArePlacedIn graph.now answers.new.items }
{
    for answered in all {
        place(graph, answers, answered);
    }
}

/// Room for the answers to so many questions about a graph. Fails where memory is refused.
fn no_answers(
    alloc: Global,
    _graph: &Graph,
    count: usize,
) -> Result<Vec<Option<Answered>>, AllocError>
    ensures { IfOk result (λ answers. ArePlacedIn _graph.now answers.items) }
{
    let mut answers = Vec::with_capacity(alloc, count)?;
    'questions: for _ in 0..count {
        answers.push(None)?;
    }
    Ok(answers)
}

impl Finder {
    /// From now on new nodes wait until it is asked about all that do, or no more of them.
    pub(crate) fn wait(&mut self, waits: bool) {
        self.waits = waits;
    }

    /// Lets the last node wait, where there is an older one that it may equal.
    pub(crate) fn let_wait(&mut self, node: u32) -> Result<(), AllocError> {
        if self.candidate(node, &[]).is_some() {
            self.waiting.push(Waiting {
                node,
                tried: [NONE; CANDIDATES],
                count: 0,
                is_settled: false,
            })?;
        }
        Ok(())
    }

    /// Whether a node waits.
    pub(crate) fn is_waiting(&self, node: u32) -> bool {
        self.waiting
            .binary_search_by(|waiting| waiting.node.cmp(&node))
            .is_ok()
    }

    /// The next question about a node that waits, if there is one.
    fn question(&mut self, graph: &Graph, place: usize) -> Option<Question> {
        let waiting = self.waiting.get(place).copied()?;
        if waiting.is_settled || waiting.node >= NODES {
            return None;
        }
        let older = self.candidate(waiting.node, &waiting.tried)?;
        if !self.account.has_room(graph.len()) {
            return None;
        }
        if place < self.waiting.len() && waiting.count < CANDIDATES {
            self.waiting[place].tried[waiting.count] = node_of(older);
            self.waiting[place].count = waiting.count + 1;
        }
        let doubt = self.doubt_of(waiting.node);
        Some(Question {
            place,
            new: 2 * waiting.node,
            older,
            doubt,
            given: self.account.open(graph.len(), doubt),
        })
    }

    /// The next questions about nodes that wait, from a place on, and the place behind the last of
    /// these. There are no more once all that is left is kept for these. Fails where memory is
    /// refused.
    fn questions(
        &mut self,
        graph: &Graph,
        from: usize,
    ) -> Result<(Vec<Question>, usize), AllocError> {
        let mut some = Vec::new(self.alloc);
        let mut room = self.account.left(graph.len());
        for place in from..self.waiting.len() {
            if some.len() >= CHUNK || (room == 0 && !some.is_empty()) {
                return Ok((some, place));
            }
            if let Some(question) = self.question(graph, place) {
                room = room.saturating_sub(self.account.kept_for(question.given.work));
                some.push(question)?;
            }
        }
        Ok((some, self.waiting.len()))
    }

    /// Takes an answer in, and notes where it says that a node is equal to an older one. Fails
    /// where memory is refused.
    fn take(
        &mut self,
        graph: &Graph,
        answered: &Answered,
        merges: &mut Vec<Merge>,
    ) -> Result<(), AllocError>
        requires answer { IsAnswerIn graph.now answered.now }
        requires merges { All (IsMerge graph.now) merges.old.items }
        ensures merges { All (IsMerge graph.now) merges.new.items }
    {
        let Question {
            place,
            new,
            older,
            doubt,
            given,
        } = answered.question;
        let answer = answered.answer;
        self.account
            .close(given, answered.left, doubt, Some(answer));
        match answer {
            Answer::Refuted => {
                if place < self.waiting.len() {
                    self.waiting[place].is_settled = true;
                }
                if new % 2 == 0 && older / 2 < new / 2 {
                    merges.push(Merge { new, older })?;
                }
            }
            Answer::Satisfied => self.simulate(graph, &answered.model)?,
            Answer::GaveUp => self.doubt(node_of(new)),
        }
        Ok(())
    }

    /// How many threads may ask.
    pub(crate) fn threads(&self) -> usize {
        self.searches.len()
    }

    /// The answers to questions that are asked side by side by so many threads, if there are as
    /// many, in the order of these. Fails where memory is refused.
    pub(crate) fn answers<R: Threads + Sync>(
        &mut self,
        rt: &R,
        graph: &Graph,
        questions: &[Question],
        threads: usize,
    ) -> Result<Vec<Option<Answered>>, AllocError>
        ensures answers { IfOk result (λ answers. ArePlacedIn graph.now answers.items) }
    {
        let mut searches = std::mem::replace(&mut self.searches, Vec::new(self.alloc));
        let idle = searches.split_off(threads.max(1).min(searches.len()))?;
        let all = ask_all(rt, self.alloc, graph, questions, searches)?;
        let mut answers = no_answers(self.alloc, graph, questions.len())?;
        let mut failed = false;
        for worked in all {
            failed |= worked.failed;
            place_all(graph, &mut answers, worked.answers);
            self.searches.push(worked.search)?;
        }
        for search in idle {
            self.searches.push(search)?;
        }
        if failed { Err(AllocError) } else { Ok(answers) }
    }

    /// Asks questions side by side, and notes which nodes are equal. Fails where memory is refused.
    fn ask_some<R: Threads + Sync>(
        &mut self,
        rt: &R,
        graph: &Graph,
        questions: &[Question],
        merges: &mut Vec<Merge>,
    ) -> Result<(), AllocError>
        requires merges { All (IsMerge graph.now) merges.old.items }
        ensures merges { All (IsMerge graph.now) merges.new.items }
    {
        let threads = self.account.threads_for(questions.len());
        let answers = self.answers(rt, graph, questions, threads)?;
        for answered in &answers {
            if let Some(answered) = answered {
                self.take(graph, answered, merges)?;
            }
        }
        Ok(())
    }

    /// Asks about all nodes that wait, and answers those that are equal to older ones: none waits
    /// then. What is found doesn't depend on how many ask. Fails where memory is refused.
    pub(crate) fn ask_waiting<R: Threads + Sync>(
        &mut self,
        rt: &R,
        graph: &Graph,
    ) -> Result<Vec<Merge>, AllocError>
        ensures { IfOk result (λ merges. All (IsMerge graph.now) merges.items) }
    {
        let mut merges = Vec::new(self.alloc);
        'candidates: for _ in 0..CANDIDATES {
            let mut from = 0;
            'chunks: for _ in 0..self.waiting.len() {
                let (questions, next) = self.questions(graph, from)?;
                if questions.is_empty() {
                    break;
                }
                self.ask_some(rt, graph, &questions, &mut merges)?;
                from = next;
            }
        }
        self.waiting.clear();
        Ok(merges)
    }
}
