//! Words of a graph that are shown equal in a copy of what they are made of.
ghost use Rattle.std.specs.Prelude.{◌≡◌, List, IfOk, IsTrue};
ghost use Rattle.eqc_xag.specs.declared.node.Node.{Node};
ghost use Rattle.eqc_sweep.specs.Copying.{AreCopies};
ghost use Rattle.eqc_sums.specs.Adding.{AreEqualWords};
ghost use Rattle.eqc_numbers.specs.Copies.{AreCopiesOf};

use crate::chains::{Shape, copy_shaped};
use eqc_adders::{Attempts, Limits, Sums};
use eqc_sweep::{Effort, Sweep, copied};
use eqc_xag::{Graph, Literal};
use std::alloc::{AllocError, Global};

/// Two words of a graph, the lowest literal first, and how far it is gone to show them equal.
#[derive(Clone, Copy)]
pub struct Words<'a> {
    pub alloc: Global,
    pub firsts: &'a [Literal],
    /// As many literals as the first word has.
    pub seconds: &'a [Literal],
    /// What may be done to show what they add up to.
    pub limits: Limits,
}

/// The most conflicts of a question about a node that enters a copy.
pub(crate) const CHEAP: u64 = 30;

/// How far it is gone to show words equal in a turn.
#[derive(Clone, Copy, PartialEq, Eq)]
pub(crate) enum Depth {
    /// Words as they were made mostly take no more.
    AsMade,
    /// A look before searches, at words that may need none.
    Glance,
    /// What succeeds mostly takes no more.
    Brief,
    /// By way of an array.
    Array,
    Long,
}

/// Parts of the conflicts of a question about an adder: most adders of words as they were made take
/// a few, and what is asked in vain takes all of them.
const FEW_CONFLICTS: u64 = 32;

const SOME_CONFLICTS: u64 = 8;

/// This part of the work finds the adders of most products.
const LITTLE_WORK: u64 = 16;

/// What is shown soon takes these parts of the steps and of the work for them.
const SOON: u32 = 3;

const SOON_WORK: u64 = 8;

impl Depth {
    /// What may be done to find adders, of what may be done at most.
    fn finding(self, limits: Limits) -> Limits {
        let Limits { question, work, .. } = limits;
        let (question, work) = match self {
            Depth::AsMade => (question / FEW_CONFLICTS, work),
            Depth::Glance => (question / SOME_CONFLICTS, work / LITTLE_WORK),
            Depth::Brief => (question / SOME_CONFLICTS, work),
            Depth::Array => (question / 2, work),
            Depth::Long => (question, work),
        };
        Limits {
            question,
            work,
            ..limits
        }
    }

    /// What may be done to add words up.
    fn adding(self, limits: Limits) -> Limits {
        let soon = Limits {
            steps: limits.steps / SOON,
            work: limits.work / SOON_WORK,
            attempts: Attempts::Brief,
            ..limits
        };
        match self {
            Depth::AsMade | Depth::Brief => soon,
            Depth::Glance => Limits {
                conflicts: limits.conflicts / SOON_WORK,
                attempts: Attempts::First,
                ..soon
            },
            Depth::Array => Limits {
                steps: limits.steps / 2,
                work: limits.work / 2,
                attempts: Attempts::Brief,
                ..limits
            },
            Depth::Long => limits,
        }
    }
}

/// Enters so many inputs that nothing depends on: those behind them have other patterns then. Fails
/// where memory is refused.
fn draw(sweep: &mut Sweep, count: u32) -> Result<(), AllocError> {
    for k in 0..count {
        sweep.input(u32::MAX - k)?;
    }
    Ok(())
}

#[tactic(auto, using(crate::proofs::ShownLaws::copies_begin))]
/// The copies of literals, up to the first one that has none. Fails where memory is refused.
pub(crate) fn copies(
    alloc: Global,
    table: &[Option<Literal>],
    literals: &[Literal],
) -> Result<Vec<Literal>, AllocError>
    ensures { (old new : List Node) → AreCopies old new table.now → IfOk result (λ cs. AreCopiesOf old new literals.now cs.items) }
{
    let mut all = Vec::with_capacity(alloc, literals.len())?;
    for k in 0..literals.len() {
        let Some(copy) = copied(table, literals[k]) else {
            break;
        };
        all.push(copy)?;
    }
    Ok(all)
}

/// Copies what literals of both words or netlists are made of, as `copy_shaped` does, into a
/// graph in which nothing is asked from then on, and answers the copies of nodes. Fails where
/// memory is refused.
pub(crate) fn copy_both(
    words: &Words<'_>,
    graph: &Graph,
    sweep: &mut Sweep,
    shape: Shape,
) -> Result<Vec<Option<Literal>>, AllocError>
    ensures { IfOk result (λ table. AreCopies graph.now sweep.new table.items) }
{
    let mut asked = Vec::new(words.alloc);
    asked.extend_from_slice(words.firsts)?;
    asked.extend_from_slice(words.seconds)?;
    let table = copy_shaped(words.alloc, graph, &asked, sweep, shape);
    sweep.ask_no_more();
    table
}

/// Copies what two words are made of, the second one first in each other turn, and answers the
/// copies of nodes.
fn copy_words(
    words: &Words<'_>,
    graph: &Graph,
    sweep: &mut Sweep,
    turn: u32,
) -> Result<Vec<Option<Literal>>, AllocError>
    ensures { IfOk result (λ table. AreCopies graph.now sweep.new table.items) }
{
    draw(sweep, turn)?;
    if turn % 2 == 0 {
        return copy_both(words, graph, sweep, Shape::Chains);
    }
    copy_shaped(words.alloc, graph, words.seconds, sweep, Shape::ShortChains)?;
    copy_both(words, graph, sweep, Shape::ShortChains)
}

/// Whether two words are shown equal in a graph that has copies of nodes, with a look's part of the
/// work. It stands apart for its proof's sake: where a graph is let go in each exit that takes many
/// times longer.
fn show_copies(
    words: &Words<'_>,
    table: &[Option<Literal>],
    sums: &mut Sums,
    depth: Depth,
) -> Result<bool, AllocError>
    ensures { (old : List Node) → AreCopies old sums.old.reduction.sweep table.now → IfOk result (λ is. IsTrue is → AreEqualWords old words.now.firsts.now words.now.seconds.now) }
{
    let Words {
        alloc,
        firsts,
        seconds,
        limits,
    } = *words;
    let ps = copies(alloc, table, firsts)?;
    let qs = copies(alloc, table, seconds)?;
    if ps.len() != firsts.len() || qs.len() != seconds.len() {
        return Ok(false);
    }
    let steps = limits.steps.min(sums.sweep().graph().len());
    let limits = Limits { steps, ..limits };
    sums.find_adders(depth.finding(limits))?;
    sums.find_carries()?;
    sums.show(&ps, &qs, depth.adding(limits))
}

/// Whether two words are shown equal by a look in one of the turns, which are counted from 0. Fails
/// where memory is refused.
pub(crate) fn are_shown_in(
    words: &Words<'_>,
    graph: &Graph,
    turn: u32,
    depth: Depth,
) -> Result<bool, AllocError>
    ensures { IfOk result (λ is. IsTrue is → AreEqualWords graph.now words.now.firsts.now words.now.seconds.now) }
{
    let mut sweep = Sweep::new(words.alloc, Effort::of(CHEAP, words.limits.work))?;
    let table = copy_words(words, graph, &mut sweep, turn)?;
    let mut sums = Sums::new(words.alloc, sweep);
    show_copies(words, &table, &mut sums, depth)
}

/// Whether two words of a graph are shown equal within their limits by what they add up to, in a
/// copy of what they are made of, in one of up to so many turns. In each of them other patterns are
/// simulated, and the second word enters first in each other one. Steps are no more than there are
/// nodes. Fails where memory is refused.
pub fn are_shown_equal(words: &Words<'_>, graph: &Graph, turns: u32) -> Result<bool, AllocError>
    ensures { IfOk result (λ is. IsTrue is → AreEqualWords graph.now words.now.firsts.now words.now.seconds.now) }
{
    'turns: for turn in 0..turns {
        if are_shown_in(words, graph, turn, Depth::Long)? {
            return Ok(true);
        }
    }
    Ok(false)
}
