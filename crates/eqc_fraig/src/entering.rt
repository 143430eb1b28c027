//! How the graph of a pair begins: the steps that its outputs need enter, and are swept in a first
//! round.
ghost use Rattle.std.specs.Prelude.{◌≡◌, IfOk};
ghost use Rattle.eqc_compare.specs.Alike.{IsKnown};

use crate::inside::Inside;
use crate::rounds::Rounds;
use eqc_build::Steps;
use eqc_compare::{Alike, Progress};
use eqc_miter::entered_wanted;
use eqc_pair::Pair;
use eqc_sweep::{Effort, Sweep};
use std::alloc::{AllocError, Global};
use std::thread::Threads;

/// How much work the searches for differences may do beside their conflicts, all together: so much
/// for each node of the graph and for the graph as a whole, and never more than so much, whatever
/// the netlist.
const EACH_NODE: u64 = 20_000;

const WHOLE: u64 = 10_000_000;

const AT_MOST: u64 = 100_000_000;

/// This part of the work is left for searches, however much work it took to see which outputs
/// differ.
const PART: u64 = 10;

/// The work for a graph of so many nodes.
fn work_for(nodes: u32) -> u64 {
    (u64::from(nodes) * EACH_NODE + WHOLE).min(AT_MOST)
}

impl<'a> Inside<'a> {
    /// A graph into which no step of a pair has entered. Fails where memory is refused.
    fn empty(alloc: Global, steps: Steps<'a>) -> Result<Inside<'a>, AllocError>
        ensures { IfOk result (λ inside. inside ≡ steps.entry.pair) }
    {
        let sweep = Sweep::new(alloc, Effort::none())?;
        Ok(Inside {
            steps,
            sweep,
            literals: Vec::new(alloc),
            work: 0,
            seeing: 0,
            earlier: Vec::new(alloc),
            gave_up: false,
        })
    }

    /// Enters the steps that outputs need, into a graph in which nothing is asked yet. Fails where
    /// memory is refused: no step has a literal then.
    fn enter(&mut self, alloc: Global, alike: &Alike, every: bool) -> Result<(), AllocError>
        requires { IsKnown self.old alike.now }
        ensures { self.new ≡ self.old }
    {
        self.literals = Vec::new(alloc);
        let entered = entered_wanted(alloc, &self.steps, &alike.equal, every, &mut self.sweep)?;
        self.literals = entered.literals;
        self.seeing = entered.work;
        Ok(())
    }

    /// Enters the steps of a pair that its chosen outputs need which are not marked, where this is
    /// known of it: a step that is chosen in place of others is entered for them. What has one
    /// structure is one node, and nothing is asked yet. Unless every output that differs is looked
    /// for, as the rounds tell, those behind the first that is seen to differ aren't needed. It takes
    /// time and memory in proportion to the steps and to the rows of their covers, for each instance
    /// of a model anew, or once for all instances where a cover has at most six columns; where these
    /// are very many nothing is entered, and nothing is found of any output. Fails where memory is
    /// refused.
    pub fn of(
        alloc: Global,
        pair: &'a Pair<'a>,
        alike: &Alike,
        rounds: &Rounds,
    ) -> Result<Inside<'a>, AllocError>
        requires { IsKnown pair.now alike.now }
        ensures { IfOk result (λ inside. inside ≡ pair.now) }
    {
        let mut inside = Inside::empty(alloc, Steps::of(alloc, pair, alike.chosen.clone()?))?;
        inside.enter(alloc, alike, rounds.every)?;
        Ok(inside)
    }

    /// Enters anew what the outputs need that aren't marked, where more is known of the pair than
    /// before. Nothing is asked of it yet. Fails where memory is refused: all is as it was then.
    pub fn begin_again(
        &mut self,
        alloc: Global,
        alike: &Alike,
        rounds: &Rounds,
    ) -> Result<(), AllocError>
        requires { IsKnown self.old alike.now }
        ensures { self.new ≡ self.old }
    {
        let next = Inside::of(alloc, self.steps.pair(), alike, rounds)?;
        *self = next;
        Ok(())
    }

    /// Sweeps what was entered, in a first round, and allows searches. What these may cost is told by
    /// `rounds`, less the work that it took to see which outputs aren't needed. The watch is told of
    /// each node that is swept. Fails where memory is refused; what was entered stays then.
    pub fn sweep_first<R: Threads + Sync, P: Progress<R>>(
        &mut self,
        rt: &R,
        alloc: Global,
        alike: &Alike,
        rounds: &Rounds,
        watch: &P,
    ) -> Result<(), AllocError>
        requires { IsKnown self.old alike.now }
        ensures { self.new ≡ self.old }
    {
        self.sweep_again(rt, alloc, alike, rounds.effort(), watch)?;
        let work = rounds.in_proportion(work_for(self.sweep.graph().len()));
        self.work = work.saturating_sub(self.seeing).max(work / PART);
        Ok(())
    }
}
