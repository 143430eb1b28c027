//! Rounds of sweeping: each asks more of the nodes that are left than the one before.
ghost use Rattle.std.specs.Prelude.{◌≡◌, ◌<◌, length, IfOk};
ghost use Rattle.eqc_gates.specs.Entering.{AreLiterals};
ghost use Rattle.eqc_compare.specs.Alike.{AreEqual, IsKnown};

use crate::inside::Inside;
use eqc_build::Steps;
use eqc_compare::{Alike, Progress, is_settled};
use eqc_literals::{Owned, literal_of, moved};
use eqc_pair::Pair;
use eqc_sweep::{Comparison, Effort, Sweep, Tally, below, copy, no_copies};
use eqc_xag::Literal;
use std::alloc::{AllocError, Global};
use std::mem::swap;
use std::thread::Threads;

/// The most conflicts of a question in each level of rounds, and how much work a round of it may
/// take of all that there is, in hundredths.
const LEVELS: [(u64, u64); 4] = [(100, 20), (1_000, 20), (10_000, 40), (100_000, 100)];

/// The work of all rounds for each conflict that the options give.
const WORK: u64 = 10_000;

/// Where there are as many steps, the first round is of the first level, and else of the second
/// one: a first round of cheap questions pays where the others are many.
const MANY_STEPS: usize = 40_000;

/// So many levels come in short rounds.
const SHORT_LEVELS: usize = 2;

/// The work of short rounds: as much as it takes to see whether larger diagrams do.
const SHORT_NODE: u64 = 3_000;

const SHORT_WHOLE: u64 = 4_000_000;

/// Of rounds between: a second's, or two where there are many nodes.
const MEDIUM_NODE: u64 = 20_000;

const MEDIUM_WHOLE: u64 = 20_000_000;

/// Of the others: in proportion to the graph, where it is small.
const LONG_NODE: u64 = 100_000;

const LONG_WHOLE: u64 = 100_000_000;

/// A level comes once more after a round of it that found a node equal for each so many questions
/// that were given up.
const WORTHWHILE: u64 = 8;

/// How much a round may cost.
#[derive(Clone, Copy, PartialEq)]
pub enum Span {
    /// As much as it takes to see whether larger diagrams do.
    Short,
    /// As much as such diagrams.
    Medium,
    /// All that there is.
    Long,
}

/// How far the rounds of a sweep are, and what is left for further ones.
#[derive(Clone, Copy)]
pub struct Rounds {
    conflicts: u64,
    workers: u32,
    inputs: usize,
    /// Whether every output that differs is looked for, or the first alone.
    pub(crate) every: bool,
    level: usize,
    left: u64,
    span: Span,
    /// Whether questions were left open in the last round, and whether there are no more such
    /// rounds.
    is_open: bool,
    is_over: bool,
}

/// The usual number of conflicts.
const USUAL: u64 = 100_000;

impl Rounds {
    /// Before the first round over two netlists, with what so many conflicts are worth for all of
    /// them, by so many workers. With `every` each output that differs is looked for, else the
    /// first alone.
    pub fn of(pair: &Pair<'_>, conflicts: u64, workers: u32, every: bool) -> Rounds {
        let steps = pair
            .first()
            .steps()
            .len()
            .saturating_add(pair.second().steps().len());
        Rounds {
            conflicts,
            workers,
            inputs: pair.first().inputs().len(),
            every,
            level: usize::from(steps < MANY_STEPS),
            left: conflicts.saturating_mul(WORK),
            span: Span::Short,
            is_open: true,
            is_over: false,
        }
    }

    /// Whether there is another round.
    pub fn has_next(&self) -> bool {
        !self.is_over && self.left > 0
    }

    /// Work in proportion to the conflicts that the options give, where it is so much with the
    /// usual number of them.
    pub(crate) fn in_proportion(&self, work: u64) -> u64 {
        work.saturating_mul(self.conflicts) / USUAL
    }

    /// What the next round may cost.
    pub fn effort(&self) -> Effort {
        let (question, part) = match LEVELS.get(self.level) {
            Some(level) => *level,
            None => (self.conflicts, 100),
        };
        let all = self.conflicts.saturating_mul(WORK);
        let work = (all / 100).saturating_mul(part).min(self.left);
        let effort = Effort::of(question.min(self.conflicts), work);
        let (node, whole) = match self.span {
            Span::Short => (SHORT_NODE, SHORT_WHOLE),
            Span::Medium => (MEDIUM_NODE, MEDIUM_WHOLE),
            Span::Long => (LONG_NODE, LONG_WHOLE),
        };
        effort
            .within(self.in_proportion(node), self.in_proportion(whole))
            .by(self.workers)
            .over(self.inputs)
            .in_two_ways()
            .deciding_needed()
    }

    /// From now on rounds may cost so much. Where the last one gave no question up there is none.
    pub fn lengthen(&mut self, span: Span) {
        self.is_over = !self.is_open;
        self.span = span;
    }

    /// Takes what a round spent. There is none behind it where it gave no question up; where it
    /// found little, questions may have more in the next one.
    pub fn count(&mut self, round: Tally) {
        self.left = self.left.saturating_sub(round.work);
        self.is_open = round.open > 0 || round.is_cut;
        if self.span == Span::Short {
            self.is_over = !self.is_open
                || round.is_cut
                || self.level.saturating_add(1) >= SHORT_LEVELS;
            self.level = self.level.saturating_add(usize::from(!round.is_cut));
            return;
        }
        let is_worthwhile = round.found.saturating_mul(WORTHWHILE) > round.open;
        let next = self.level.saturating_add(1);
        if !is_worthwhile && next < LEVELS.len() {
            self.level = next;
        } else if round.found == 0 {
            self.is_over = true;
        }
        self.is_over |= !self.is_open || (self.span == Span::Medium && round.is_cut);
    }
}

/// The literals of the steps that outputs which aren't known yet are made of, in the first netlist
/// alone or in both, and that of the assumption. Fails where memory is refused.
pub(crate) fn open_literals(
    alloc: Global,
    steps: &Steps<'_>,
    literals: &[Option<Literal>],
    marks: &[bool],
    netlists: usize,
) -> Result<Vec<Literal>, AllocError>
    requires { AreEqual steps.now.pair marks.now }
{
    let mut open = Vec::new(alloc);
    for output in 0..steps.pair().first().outputs().len() {
        if !is_settled(steps.pair(), marks, output) {
            for step in steps.roots(output).iter().take(netlists) {
                if let Some(literal) = literal_of(literals, *step) {
                    open.push(literal)?;
                }
            }
        }
    }
    if let Some(step) = steps.assumed_root() {
        if let Some(literal) = literal_of(literals, step) {
            open.push(literal)?;
        }
    }
    Ok(open)
}

impl<'a> Inside<'a> {
    /// Whether an output is seen to differ by simulation. Nothing is promised of it.
    pub(crate) fn is_seen_to_differ(&mut self, output: usize) -> bool
        requires { output < length self.old.first.outputs }
        ensures { self.new ≡ self.old }
    {
        let roots = self.steps.roots(output);
        let Some(x) = literal_of(&self.literals, roots[0]) else {
            return false;
        };
        let Some(y) = literal_of(&self.literals, roots[1]) else {
            return false;
        };
        matches!(self.sweep.equal(x, y, &mut 0), Ok(Comparison::Differs(_)))
    }

    /// Whether an output that isn't known to be equal is seen to differ by simulation. Nothing is
    /// promised of it.
    pub fn sees_difference(&mut self, alike: &Alike) -> bool
        requires { IsKnown self.old alike.now }
        ensures { self.new ≡ self.old }
    {
        let outputs = self.steps.pair().first().outputs().len();
        for output in 0..outputs {
            let settled = is_settled(self.steps.pair(), &alike.equal, output);
            if !settled && self.is_seen_to_differ(output) {
                return true;
            }
        }
        false
    }

    /// What came of the questions of the last round. Nothing is promised of it.
    pub fn tally(&self) -> Tally {
        self.sweep.tally()
    }

    /// How many nodes there are of what outputs depended on which weren't known to be equal before
    /// the last round. Nothing is promised of it.
    pub fn nodes(&self) -> u32 {
        self.sweep.graph().len()
    }

    /// The literals of steps in another graph, into which what open outputs depend on is copied:
    /// all that is in the first netlist before the rest, so that what is equal in the second one
    /// finds it there. The watch is told of each node. Fails where memory is refused.
    fn literals_in<R: Threads + Sync, P: Progress<R>>(
        &self,
        rt: &R,
        alloc: Global,
        alike: &Alike,
        sweep: &mut Sweep,
        watch: &P,
    ) -> Result<Vec<Option<Literal>>, AllocError>
        requires { IsKnown self.now alike.now }
        ensures { IfOk result (λ all. AreLiterals self.now sweep.new all.items) }
    {
        let graph = self.sweep.graph();
        let count = graph.len() as usize;
        let told = |k: u32| watch.step(rt, k as usize, count);
        let mut table = no_copies(alloc, graph)?;
        for netlists in 1..=2 {
            let open = open_literals(alloc, &self.steps, &self.literals, &alike.equal, netlists)?;
            let marks = below(alloc, graph, &open)?;
            copy(rt, graph, &marks, sweep, &mut table, &told)?;
        }
        moved(alloc, &self.literals, &table)
    }

    /// Sweeps what the outputs depend on which aren't known to be equal, once more with this
    /// effort. The watch is told of each node. Fails where memory is refused; what was found before
    /// stays then.
    pub fn sweep_again<R: Threads + Sync, P: Progress<R>>(
        &mut self,
        rt: &R,
        alloc: Global,
        alike: &Alike,
        effort: Effort,
        watch: &P,
    ) -> Result<(), AllocError>
        requires { IsKnown self.old alike.now }
        ensures pair { self.new ≡ self.old }
    {
        let mut next = Owned {
            sweep: self.sweep.again(alloc, effort)?,
        };
        let literals = self.literals_in(rt, alloc, alike, &mut next.sweep, watch)?;
        next.sweep.ask_no_more();
        // What was there before is let go here.
        swap(&mut self.sweep, &mut next.sweep);
        self.literals = literals;
        Ok(())
    }
}
