//! Outputs that are asked for ahead by several threads, each with searches of its own over the one
//! graph.
ghost use Rattle.std.specs.Prelude.{◌≡◌, ◌<◌, None, length, IfOk, IfSome};
ghost use Rattle.std.specs.List.{All};
ghost use Rattle.std.specs.Thread.{IsSync};
ghost use Rattle.eqc_xag.specs.Graph.{Extends};
ghost use Rattle.eqc_pair.specs.PairOf.{PairOf};
ghost use Rattle.eqc_literals.specs.Literals.{IsInside};
ghost use Rattle.eqc_miter.specs.Asking.{AreSomeOf, IsAnswerOf, IsAskedIn, IsQuestionOf, LacksLiteral, outputs_asked};

use crate::conflicts::Conflicts;
use crate::difference::{difference_literal, seen_true};
use eqc_build::Steps;
use eqc_pair::Pair;
use eqc_sweep::Sweep;
use eqc_witness::{EARLIER, Hints, Target, Witness, least_witness};
use eqc_xag::{Graph, Literal};
use std::alloc::{AllocError, Global};
use std::thread::{Threads, join};

/// An output that is asked for.
#[derive(Drop)]
pub struct Question {
    /// Its position in the first netlist.
    pub output: usize,
    /// The literal that is true where it differs.
    pub literal: Literal,
    /// Variables and their values under which simulation saw that: none where it didn't.
    pub seen: Vec<(u32, bool)>,
}

/// What was found of an output.
#[derive(Drop)]
pub struct Answer {
    /// Its position in the first netlist.
    pub output: usize,
    pub witness: Witness,
    /// The conflicts that it might have.
    pub given: u64,
    /// Those that it used.
    pub used: u64,
    /// The work that it takes from the others, beside the conflicts.
    pub work: u64,
}

impl Answer {
    /// Whether nothing was found but maybe an assignment that isn't known to be the least.
    pub fn gave_up(&self) -> bool {
        matches!(self.witness, Witness::Unknown(_))
    }
}

/// What is asked about.
#[derive(Clone, Copy)]
pub struct Subject<'a> {
    pub alloc: Global,
    pub pair: &'a Pair<'a>,
    pub graph: &'a Graph,
}

/// What a part of the outputs may take.
#[derive(Clone, Copy)]
pub struct Share {
    pub conflicts: Conflicts,
    /// The conflicts of each other part that is made of it.
    pub others: Conflicts,
    /// The work beside the conflicts.
    pub work: u64,
}

/// The work that is left for further outputs, where so much was there before a search, and so much
/// behind it: a difference that is told of is worth its work.
fn work_left(found: &Witness, before: u64, behind: u64) -> u64 {
    match found {
        Witness::Least(_) => before,
        Witness::Never | Witness::Unknown(_) => behind,
    }
}

/// Notes the least assignment of an output, if it was found, for those that are asked for after it,
/// in place of the first one where no more would be tried. Where memory is refused for it nothing
/// is noted.
pub fn note(earlier: &mut Vec<Vec<bool>>, found: &Witness) {
    if let Witness::Least(values) = found {
        if let Ok(values) = values.clone() {
            if earlier.len() >= EARLIER {
                let _first = earlier.remove(0);
            }
            let _ = earlier.push(values);
        }
    }
}

/// The question for an output, by its position in the first netlist, or none where its steps have
/// no literals. `literals` are those of the steps, in the graph, which goes on. Fails where memory
/// is refused.
pub fn question_of(
    alloc: Global,
    steps: &Steps<'_>,
    sweep: &mut Sweep,
    literals: &[Option<Literal>],
    output: usize,
) -> Result<Option<Question>, AllocError>
    requires inside { IsInside steps.now sweep.old literals.now }
    requires output { output < length steps.now.pair.first.outputs }
    ensures inside { IsInside steps.now sweep.new literals.now }
    ensures extends { Extends sweep.old sweep.new }
    ensures question { IfOk result (λ found. IfSome found (IsQuestionOf steps.now.pair sweep.new)) }
    ensures output { IfOk result (λ found. IfSome found (λ question. question.output ≡ output)) }
    ensures none { IfOk result (λ found. found ≡ None → LacksLiteral steps.now literals.now output) }
{
    let Some(literal) = difference_literal(steps, sweep, literals, output)? else {
        return Ok(None);
    };
    let seen = seen_true(alloc, sweep, literal);
    Ok(Some(Question {
        output,
        literal,
        seen,
    }))
}

/// The questions for these outputs, by their positions in the first netlist, in their order. An
/// output whose steps have no literals isn't asked for. `literals` are those of the steps, in the
/// graph, which goes on. Fails where memory is refused.
pub fn questions_of(
    alloc: Global,
    steps: &Steps<'_>,
    sweep: &mut Sweep,
    literals: &[Option<Literal>],
    outputs: &[usize],
) -> Result<Vec<Question>, AllocError>
    requires inside { IsInside steps.now sweep.old literals.now }
    requires outputs { All (λ o. o < length steps.now.pair.first.outputs) outputs.now }
    ensures inside { IsInside steps.now sweep.new literals.now }
    ensures each { IfOk result (λ all. All (IsQuestionOf steps.now.pair sweep.new) all.items) }
    ensures outputs { IfOk result (λ all. AreSomeOf (outputs_asked all.items) outputs.now) }
    ensures asked { IfOk result (λ all. All (IsAskedIn steps.now literals.now all.items) outputs.now) }
{
    let mut all = Vec::with_capacity(alloc, outputs.len())?;
    for k in 0..outputs.len() {
        let Some(question) = question_of(alloc, steps, sweep, literals, outputs[k])? else {
            continue;
        };
        all.push(question)?;
    }
    Ok(all)
}

/// What is found of an output by a search with so many conflicts and so much work beside them,
/// where these are earlier assignments that are tried. Fails where memory is refused.
pub fn ask(
    subject: &Subject<'_>,
    question: &Question,
    earlier: &[Vec<bool>],
    conflicts: u64,
    work: u64,
) -> Result<Answer, AllocError>
    requires { IsQuestionOf subject.now.pair.now subject.now.graph.now question.now }
    ensures answer { IfOk result (IsAnswerOf subject.now.pair.now) }
    ensures output { IfOk result (λ answer. answer.output ≡ question.now.output) }
{
    let mut left = conflicts;
    let mut rest = work;
    let Question {
        output,
        literal,
        seen,
    } = question;
    let witness = least_witness(
        subject.alloc,
        subject.graph,
        &Target {
            literal: *literal,
            variables: subject.pair.variables(),
        },
        &Hints { seen, earlier },
        &mut left,
        &mut rest,
    )?;
    let kept = work_left(&witness, work, rest);
    Ok(Answer {
        output: *output,
        witness,
        given: conflicts,
        used: conflicts.saturating_sub(left),
        work: work.saturating_sub(kept),
    })
}

/// A copy of assignments. Fails where memory is refused.
fn copied(alloc: Global, assignments: &[Vec<bool>]) -> Result<Vec<Vec<bool>>, AllocError> {
    let mut copies = Vec::with_capacity(alloc, assignments.len())?;
    for values in assignments {
        copies.push(values.clone()?)?;
    }
    Ok(copies)
}

/// What is found of each of these outputs, one after the other, up to the first where it gives up.
/// What one takes the next ones can't have, and its least assignment is tried for them.
fn ask_each(
    subject: &Subject<'_>,
    questions: &[Question],
    earlier: &[Vec<bool>],
    share: Share,
) -> Result<Vec<Answer>, AllocError>
    requires { All (IsQuestionOf subject.now.pair.now subject.now.graph.now) questions.now }
    ensures { IfOk result (λ all. All (IsAnswerOf subject.now.pair.now) all.items) }
{
    let mut all = Vec::with_capacity(subject.alloc, questions.len())?;
    let mut earlier = copied(subject.alloc, earlier)?;
    let mut conflicts = share.conflicts;
    let mut work = share.work;
    for question in questions {
        let answer = ask(subject, question, &earlier, conflicts.next(), work)?;
        conflicts.take(answer.used);
        work = work.saturating_sub(answer.work);
        note(&mut earlier, &answer.witness);
        let gave_up = answer.gave_up();
        all.push(answer)?;
        if gave_up {
            break;
        }
    }
    Ok(all)
}

/// What two threads found, unless memory was refused to one.
fn together(
    front: Result<Vec<Answer>, AllocError>,
    back: Result<Vec<Answer>, AllocError>,
) -> Result<Vec<Answer>, AllocError>
    ensures { (p : PairOf) → IfOk front (λ all. All (IsAnswerOf p) all.items) → IfOk back (λ all. All (IsAnswerOf p) all.items) → IfOk result (λ all. All (IsAnswerOf p) all.items) }
{
    let mut all = front?;
    let mut more = back?;
    all.append(&mut more)?;
    Ok(all)
}

/// What is found of these outputs, in their order, by so many threads, of which each takes a part,
/// up to the first where it gives up. The outputs of the first part may have the share's conflicts,
/// those of each other part as many as its `others` has, and each part its work. Fails where memory
/// is refused. Where a thread can't be started its part is done here.
#[cycle(questions)]
pub fn ask_all<R: Threads + Sync>(
    rt: &R,
    subject: Subject<'_>,
    questions: &[Question],
    earlier: &[Vec<bool>],
    share: Share,
    threads: u32,
) -> Result<Vec<Answer>, AllocError>
    requires { All (IsQuestionOf subject.pair.now subject.graph.now) questions.now }
    ensures { IfOk result (λ all. All (IsAnswerOf subject.entry.pair.now) all.items) }
{
    if threads < 2 || questions.len() < 2 {
        return ask_each(&subject, questions, earlier, share);
    }
    let (some, rest) = questions.split_at(questions.len() / 2);
    let here = threads / 2;
    let there = threads - here;
    let other = Share {
        conflicts: share.others,
        ..share
    };
    let front = move || -> Result<Vec<Answer>, AllocError>
        requires { IsSync R.row × All (IsQuestionOf subject.pair.now subject.graph.now) some.now }
        ensures { IfOk result (λ all. All (IsAnswerOf subject.entry.pair.now) all.items) }
    { ask_all(rt, subject, some, earlier, share, here) };
    let back = move || -> Result<Vec<Answer>, AllocError>
        requires { IsSync R.row × All (IsQuestionOf subject.pair.now subject.graph.now) rest.now }
        ensures { IfOk result (λ all. All (IsAnswerOf subject.entry.pair.now) all.items) }
    { ask_all(rt, subject, rest, earlier, other, there) };
    let (front, back) = join(rt, front, back);
    together(front, back)
}
