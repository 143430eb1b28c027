//! Signals inside the netlists that are equal since the words to which they belong add up the same:
//! whether it is worth a look for them, and what is chosen then (`eqc_datapath`).
ghost use Rattle.std.specs.Prelude.{◌≡◌, ◌<◌, IfOk};
ghost use Rattle.std.specs.List.{All};
ghost use Rattle.eqc_build.specs.Steps.{IsChoice, chosen_for};
ghost use Rattle.eqc_compare.specs.Alike.{AreEqual, IsKnown};

use crate::adding::Meant;
use crate::inside::Inside;
use crate::rounds::open_literals;
use eqc_adders::{has_adders, is_made_alike};
use eqc_build::Steps;
use eqc_compare::{Alike, Progress};
use eqc_datapath::{Kind, Look, Scope, shown_below};
use eqc_literals::first_of_literal;
use eqc_sweep::below;
use eqc_xag::{Node, node_of};
use std::alloc::{AllocError, Global};

/// So many sums that look alike and aren't found equal are worth a look.
const SOME: u32 = 4;

/// The step that is chosen in place of one.
fn chosen_for(chosen: &[u32], step: u32) -> u32
    ensures { result ≡ chosen_for chosen.now step }
{
    chosen.get(step as usize).copied().unwrap_or(step)
}

/// The steps that are chosen, by the second of two choices, in place of those that the first one
/// has in place of others. Fails where memory is refused.
fn chosen_along(
    alloc: Global,
    steps: &Steps<'_>,
    first: &[u32],
    then: &[u32],
) -> Result<Vec<u32>, AllocError>
    requires first { IsChoice steps.now.pair first.now }
    requires then { IsChoice steps.now.pair then.now }
    ensures { IfOk result (λ more. IsChoice steps.now.pair more.items) }
{
    let mut more = Vec::with_capacity(alloc, steps.len() as usize)?;
    for k in 0..steps.len() {
        let step = chosen_for(first, k);
        let next = chosen_for(then, step);
        more.push(next)?;
    }
    Ok(more)
}

/// All outputs of so many. Of those that are known to be equal too there may be sums whose carries
/// go on.
fn outputs_of(alloc: Global, count: usize) -> Result<Vec<usize>, AllocError>
    ensures { IfOk result (λ all. All (λ o. o < count) all.items) }
{
    let mut all = Vec::with_capacity(alloc, count)?;
    for output in 0..count {
        all.push(output)?;
    }
    Ok(all)
}

impl<'a> Inside<'a> {
    /// Whether sums inside look alike that weren't found equal and aren't made of what looks alike,
    /// in a graph that has something like adders and isn't too large. Nothing is promised of it.
    /// Fails where memory is refused.
    fn has_lookalikes(&self, alloc: Global, marks: &[bool], look: Look) -> Result<bool, AllocError>
        requires { AreEqual self.now marks.now }
    {
        let graph = self.sweep.graph();
        if graph.len() > look.most_nodes() {
            return Ok(false);
        }
        let open = open_literals(alloc, &self.steps, &self.literals, marks, 1)?;
        let of_first = below(alloc, graph, &open)?;
        let mut found = 0u32;
        for node in 0..graph.len() {
            if let Node::Xor(_, _) = graph.node(node) {
                if let Some(other) = self.sweep.like_node(node, &[node]) {
                    let is_sum = node_of(other) < graph.len()
                        && matches!(graph.node(node_of(other)), Node::Xor(_, _));
                    let is_far = is_sum && !is_made_alike(&self.sweep, &of_first, node);
                    found = found.saturating_add(u32::from(is_far));
                }
            }
        }
        Ok(found >= SOME && has_adders(alloc, &self.sweep)?)
    }

    /// Whether there is something to look for: words inside, or outputs beside something like an
    /// adder, unless nothing was simulated yet, as where words are looked for as they were made.
    /// Nothing is promised of it. Fails where memory is refused.
    fn is_worth_a_look(&self, alloc: Global, marks: &[bool], look: Look) -> Result<bool, AllocError>
        requires { AreEqual self.now marks.now }
    {
        if !look.is_of_outputs() {
            return self.has_lookalikes(alloc, marks, look);
        }
        let is_small = self.sweep.graph().len() <= look.most_nodes();
        Ok(is_small && (look.kind == Kind::AsMade || has_adders(alloc, &self.sweep)?))
    }

    #[tactic(auto, using(eqc_build::proofs::StepLaws::each_choice))]
    /// Chooses signals of the first netlist in place of signals of the second one, where words to
    /// which these belong are shown equal by what they add up to: whether some are. Words inside
    /// are found by adders, of signals that look alike; those of outputs, by their names, are shown
    /// in each case of the values of a few inputs, where these choose what a design does. Where
    /// nothing looks like that it is left at a look; else it takes work in proportion to the
    /// conflicts, less in a short look. It is looked for words inside up to three times, each time
    /// from what was shown before. The watch is told of each step that enters, and of each word.
    /// Fails where memory is refused; what was chosen before stays then.
    pub fn add_up_inside<R, P: Progress<R>>(
        &mut self,
        rt: &R,
        alloc: Global,
        alike: &mut Alike,
        look: Look,
        watch: &P,
    ) -> Result<bool, AllocError>
        requires { IsKnown self.old alike.old }
        ensures pair { self.new ≡ self.old }
        ensures known { IsKnown self.new alike.new }
        ensures marks { alike.new.equal ≡ alike.old.equal }
    {
        if !self.is_worth_a_look(alloc, &alike.equal, look)? {
            return Ok(false);
        }
        let meant = if look.kind == Kind::AsMade {
            Meant::SumsUnseen
        } else {
            Meant::All
        };
        let words = self.open_words(alloc, &alike.equal, meant)?;
        if words.is_empty() && look.is_of_outputs() {
            return Ok(false);
        }
        let pair = self.steps.pair();
        let outputs = outputs_of(alloc, pair.first().outputs().len())?;
        let mut chosen = Vec::new(alloc);
        let mut some = false;
        'looks: for _ in 0..look.count() {
            let steps = Steps::of(alloc, pair, chosen.clone()?);
            let scope = Scope {
                alloc,
                steps: &steps,
                outputs: &outputs,
                words: &words,
                look,
            };
            let Some(shown) = shown_below(rt, &scope, watch)? else {
                break;
            };
            chosen = first_of_literal(alloc, &steps, &chosen, &shown)?;
            // What is shown is told of the steps themselves, not of those in their places.
            alike.chosen = chosen_along(alloc, &steps, &chosen, &alike.chosen)?;
            some = true;
        }
        Ok(some)
    }
}
