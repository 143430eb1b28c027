//! What the comparison of a pair finds, found in the graph of its steps without a diagram: the
//! outputs that differ, with their least assignments, and whether the assumption allows one.
ghost use Rattle.std.specs.Prelude.{◌≡◌, ◌<◌, false, length, IfOk, IfSome};
ghost use Rattle.std.specs.List.{All};
ghost use Rattle.eqc_compare.specs.Alike.{AreEqual, IsKnown};
ghost use Rattle.eqc_literals.specs.Literals.{KeepsMarks};
ghost use Rattle.eqc_miter.specs.Asking.{IsAnswerOf, IsWitnessAt, TellsVacuous};
ghost use Rattle.eqc_fraig.specs.Searching.{IsSearched};

use crate::inside::Inside;
use eqc_compare::{Alike, Difference, Outcome, Progress, is_settled};
use eqc_literals::mark;
use eqc_miter::{
    Answer, Conflicts, Share, Subject, allowed_literal, ask, ask_all, is_never_allowed, note,
    question_of, questions_of,
};
use eqc_pair::Pair;
use eqc_witness::Witness;
use std::alloc::{AllocError, Global};
use std::thread::Threads;

/// So many outputs each thread asks for in turn, where all that differ are looked for: the least
/// assignment of one is mostly near that of the next.
const IN_TURN: usize = 8;

/// What is found of a pair.
#[derive(Drop)]
pub enum Searched {
    /// What its comparison has to find.
    Found(Outcome),
    /// The search gave up at this output, by its position in the first netlist, with an assignment
    /// that is allowed and under which it differs, if one was seen: maybe not the least.
    Open(usize, Option<Vec<bool>>),
    /// It gave up before any output, at the question whether the assumption allows an assignment.
    Unasked,
}

/// How outputs that differ are looked for.
#[derive(Drop, Clone, Copy)]
pub struct Terms {
    /// Whether each of them is, or the first alone.
    pub every: bool,
    /// What the searches may have.
    pub conflicts: Conflicts,
    /// So many outputs are asked for side by side, each in a thread of its own, or in this one
    /// where no thread can be started.
    pub threads: u32,
}

impl Terms {
    /// So many outputs are asked for at once: one for each thread, or where each is looked for,
    /// more.
    fn at_once(&self) -> usize {
        let each = if self.every { IN_TURN } else { 1 };
        (self.threads as usize).saturating_mul(each)
    }

    /// What the outputs may take that are asked for at once, with so much work beside the
    /// conflicts.
    fn share(&self, work: u64) -> Share {
        Share {
            conflicts: self.conflicts,
            others: self.conflicts.part(self.threads),
            work,
        }
    }
}

/// How far the outputs that differ are looked for.
#[derive(Drop)]
struct Course {
    /// With the conflicts that are left.
    terms: Terms,
    /// What was found of outputs ahead of the next one.
    ahead: Vec<Answer>,
}

/// The next outputs from one on that are chosen and not marked, at most so many, where these
/// answers are there of later ones. Fails where memory is refused.
fn open_outputs(
    alloc: Global,
    pair: &Pair<'_>,
    marks: &[bool],
    from: usize,
    ahead: &[Answer],
    most: usize,
) -> Result<Vec<usize>, AllocError>
    requires { AreEqual pair.now marks.now }
    ensures { IfOk result (λ next. All (λ o. o < length pair.now.first.outputs) next.items) }
{
    let mut open = Vec::with_capacity(alloc, most)?;
    let answered = match ahead.first() {
        Some(answer) => answer.output,
        None => usize::MAX,
    };
    for output in from..pair.first().outputs().len() {
        if open.len() >= most || output >= answered {
            break;
        }
        if !is_settled(pair, marks, output) {
            open.push(output)?;
        }
    }
    Ok(open)
}

/// What was found ahead of this output, if anything was: where it gave up with fewer conflicts than
/// this one may have, nothing was. What was found of later ones stays.
fn next_found(
    pair: &Pair<'_>,
    ahead: &mut Vec<Answer>,
    output: usize,
    conflicts: u64,
) -> Option<Answer>
    requires { All (IsAnswerOf pair.now) ahead.old.items }
    ensures rest { All (IsAnswerOf pair.now) ahead.new.items }
    ensures found { IfSome result (λ answer. IsWitnessAt pair.now output answer.witness) }
{
    let _pair = pair;
    if ahead.is_empty() || ahead[0].output > output {
        return None;
    }
    let answer = ahead.remove(0);
    if answer.output != output || answer.gave_up() && answer.given < conflicts {
        return None;
    }
    Some(answer)
}

impl<'a> Inside<'a> {
    /// The least assignment that is allowed and under which an output differs, in lexicographic
    /// order over the first netlist's inputs, 0 before 1, by a search with so many conflicts, which
    /// are counted down; or that it differs under none. `output` is its position in the first
    /// netlist. Nothing is found any more once all such searches have done as much work beside
    /// their conflicts as the graph's size allows. Fails where memory is refused.
    pub fn search_output(
        &mut self,
        alloc: Global,
        output: usize,
        conflicts: &mut u64,
    ) -> Result<Witness, AllocError>
        requires { output < length self.old.first.outputs }
        ensures pair { self.new ≡ self.old }
        ensures found { IfOk result (IsWitnessAt self.old output) }
    {
        let pair = self.steps.pair();
        let literals = &self.literals;
        let Some(question) = question_of(alloc, &self.steps, &mut self.sweep, literals, output)?
        else {
            return Ok(Witness::Unknown(None));
        };
        let graph = self.sweep.graph();
        let subject = Subject { alloc, pair, graph };
        let answer = ask(&subject, &question, &self.earlier, *conflicts, self.work)?;
        *conflicts = conflicts.saturating_sub(answer.used);
        self.work = self.work.saturating_sub(answer.work);
        Ok(answer.witness)
    }

    /// Whether the assumption allows no assignment, by a search with so many conflicts: none where
    /// it gave up. Without an assumption each is allowed. Fails where memory is refused.
    pub fn allows_none(&mut self, alloc: Global, conflicts: u64) -> Result<Option<bool>, AllocError>
        ensures pair { self.new ≡ self.old }
        ensures found { IfOk result (λ found. IfSome found (TellsVacuous self.old)) }
    {
        let pair = self.steps.pair();
        let Some(_) = self.steps.assumed_root() else {
            return Ok(Some(false));
        };
        match allowed_literal(&self.steps, &self.sweep, &self.literals) {
            Some(literal) => is_never_allowed(alloc, pair, &mut self.sweep, literal, conflicts),
            None => Ok(None),
        }
    }

    /// What is found of these outputs by several threads. Fails where memory is refused.
    fn ask_ahead<R: Threads + Sync>(
        &mut self,
        rt: &R,
        alloc: Global,
        outputs: &[usize],
        terms: Terms,
    ) -> Result<Vec<Answer>, AllocError>
        requires { All (λ o. o < length self.old.first.outputs) outputs.now }
        ensures pair { self.new ≡ self.old }
        ensures found { IfOk result (λ all. All (IsAnswerOf self.old) all.items) }
    {
        let pair = self.steps.pair();
        let literals = &self.literals;
        let questions = questions_of(alloc, &self.steps, &mut self.sweep, literals, outputs)?;
        let graph = self.sweep.graph();
        let subject = Subject { alloc, pair, graph };
        let share = terms.share(self.work);
        ask_all(rt, subject, &questions, &self.earlier, share, terms.threads)
    }

    /// Notes what is found of the next outputs from one on that are chosen and not marked, up to
    /// those of which it is known. Fails where memory is refused.
    fn look_ahead<R: Threads + Sync>(
        &mut self,
        rt: &R,
        alloc: Global,
        marks: &[bool],
        from: usize,
        course: &mut Course,
    ) -> Result<(), AllocError>
        requires equal { AreEqual self.old marks.now }
        requires ahead { All (IsAnswerOf self.old) course.old.ahead.items }
        ensures pair { self.new ≡ self.old }
        ensures ahead { All (IsAnswerOf self.old) course.new.ahead.items }
    {
        let most = course.terms.at_once();
        let open = open_outputs(alloc, self.steps.pair(), marks, from, &course.ahead, most)?;
        let mut more = self.ask_ahead(rt, alloc, &open, course.terms)?;
        more.append(&mut course.ahead)?;
        course.ahead = more;
        Ok(())
    }

    /// What was found of an output ahead of others, if anything was: the conflicts and the work of
    /// that are taken.
    fn found_ahead(&mut self, output: usize, course: &mut Course) -> Option<Witness>
        requires { All (IsAnswerOf self.old) course.old.ahead.items }
        ensures pair { self.new ≡ self.old }
        ensures ahead { All (IsAnswerOf self.old) course.new.ahead.items }
        ensures found { IfSome result (IsWitnessAt self.old output) }
    {
        let conflicts = course.terms.conflicts.next();
        let answer = next_found(self.steps.pair(), &mut course.ahead, output, conflicts)?;
        course.terms.conflicts.take(answer.used);
        self.work = self.work.saturating_sub(answer.work);
        Some(answer.witness)
    }

    /// What is found of an output by a search with as many conflicts as the next one may have,
    /// which are taken. Fails where memory is refused.
    fn search_next(
        &mut self,
        alloc: Global,
        output: usize,
        conflicts: &mut Conflicts,
    ) -> Result<Witness, AllocError>
        requires { output < length self.old.first.outputs }
        ensures pair { self.new ≡ self.old }
        ensures found { IfOk result (IsWitnessAt self.old output) }
    {
        let given = conflicts.next();
        let mut left = given;
        let found = self.search_output(alloc, output, &mut left)?;
        conflicts.take(given.saturating_sub(left));
        Ok(found)
    }

    /// What is found of an output: with several threads the next ones are asked for beside it, and
    /// what is found of these is kept. Where the search before gave up it is asked for alone:
    /// should this one give up too, what is found of others is of no use. Fails where memory is
    /// refused.
    fn next_witness<R: Threads + Sync>(
        &mut self,
        rt: &R,
        alloc: Global,
        marks: &[bool],
        output: usize,
        course: &mut Course,
    ) -> Result<Witness, AllocError>
        requires equal { AreEqual self.old marks.now }
        requires output { output < length self.old.first.outputs }
        requires ahead { All (IsAnswerOf self.old) course.old.ahead.items }
        ensures pair { self.new ≡ self.old }
        ensures ahead { All (IsAnswerOf self.old) course.new.ahead.items }
        ensures found { IfOk result (IsWitnessAt self.old output) }
    {
        if let Some(witness) = self.found_ahead(output, course) {
            return Ok(witness);
        }
        if course.terms.threads > 1 && !self.gave_up {
            self.look_ahead(rt, alloc, marks, output, course)?;
            if let Some(witness) = self.found_ahead(output, course) {
                return Ok(witness);
            }
        }
        self.search_next(alloc, output, &mut course.terms.conflicts)
    }

    /// The chosen outputs that differ, with their least assignments, where some assignment is
    /// allowed: all of them, or the first alone. Outputs that are marked are not asked about, and
    /// those that never differ become marked. The watch is told of each output. Fails where memory
    /// is refused.
    fn search_each<R: Threads + Sync, P: Progress<R>>(
        &mut self,
        rt: &R,
        alloc: Global,
        alike: &mut Alike,
        terms: Terms,
        watch: &P,
    ) -> Result<Searched, AllocError>
        requires known { IsKnown self.old alike.old }
        requires allowed { TellsVacuous self.old false }
        ensures pair { self.new ≡ self.old }
        ensures known { IsKnown self.new alike.new }
        ensures kept { KeepsMarks self.old alike.old.equal.items alike.new.equal.items }
        ensures found { IfOk result (IsSearched self.old terms.every) }
    {
        let every = terms.every;
        let mut found = Vec::new(alloc);
        let ahead = Vec::new(alloc);
        let mut course = Course { terms, ahead };
        let outputs = self.steps.pair().first().outputs().len();
        for output in 0..outputs {
            watch.step(rt, output, outputs);
            if is_settled(self.steps.pair(), &alike.equal, output) {
                continue;
            }
            let marks = &alike.equal;
            let witness = self.next_witness(rt, alloc, marks, output, &mut course)?;
            note(&mut self.earlier, &witness);
            self.gave_up = matches!(witness, Witness::Unknown(_));
            match witness {
                Witness::Never => mark(alike, output),
                Witness::Unknown(seen) => return Ok(Searched::Open(output, seen)),
                Witness::Least(values) => {
                    found.push(Difference { output, values })?;
                    if !every {
                        return Ok(Searched::Found(Outcome::Compared(found)));
                    }
                }
            }
        }
        Ok(Searched::Found(Outcome::Compared(found)))
    }

    /// What the comparison of the pair has to find, by searches on such terms: each chosen output
    /// that differs, or the first; or `Vacuous`, where the assumption allows no assignment. Outputs
    /// that are marked are not asked about, and those that never differ become marked. The watch is
    /// told of each output. Fails where memory is refused.
    pub fn search_outputs<R: Threads + Sync, P: Progress<R>>(
        &mut self,
        rt: &R,
        alloc: Global,
        alike: &mut Alike,
        terms: Terms,
        watch: &P,
    ) -> Result<Searched, AllocError>
        requires { IsKnown self.old alike.old }
        ensures pair { self.new ≡ self.old }
        ensures known { IsKnown self.new alike.new }
        ensures kept { KeepsMarks self.old alike.old.equal.items alike.new.equal.items }
        ensures found { IfOk result (IsSearched self.old terms.every) }
    {
        match self.allows_none(alloc, terms.conflicts.next())? {
            Some(true) => Ok(Searched::Found(Outcome::Vacuous)),
            Some(false) => self.search_each(rt, alloc, alike, terms, watch),
            None => Ok(Searched::Unasked),
        }
    }
}
