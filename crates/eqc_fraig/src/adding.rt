//! Outputs that are equal since the words to which they belong add up the same: which these may be,
//! and in how many turns it is tried (`eqc_datapath`).
ghost use Rattle.std.specs.Prelude.{◌≡◌, ◌<◌, length, IfOk};
ghost use Rattle.std.specs.List.{All};
ghost use Rattle.eqc_compare.specs.Alike.{AreEqual, IsKnown};
ghost use Rattle.eqc_literals.specs.Literals.{KeepsMarks};

use crate::inside::Inside;
use eqc_adders::has_adders;
use eqc_build::Steps;
use eqc_compare::{Alike, Progress, is_settled};
use eqc_datapath::{MOST_NODES, Task, Turn, add_open, limits_in};
use eqc_literals::literal_of;
use eqc_netlist::Name;
use eqc_numbers::words_of;
use eqc_xag::{Node, node_of};
use std::alloc::{AllocError, Global};

/// So often a graph of fewer nodes than `LARGE` is made of the words that are open, each time with
/// other patterns, and with the other netlist first: which adders are found depends on both.
const TURNS: u32 = 4;

const LARGE: u32 = 20_000;

/// The names of outputs, where they are texts in UTF-8: else empty ones, which belong to no word.
fn names<'a>(alloc: Global, outputs: &'a [Name]) -> Result<Vec<&'a str>, AllocError>
    ensures { IfOk result (λ names. length names.items ≡ length outputs.now) }
{
    let mut names = Vec::with_capacity(alloc, outputs.len())?;
    for k in 0..outputs.len() {
        names.push(str::from_utf8(outputs[k].as_bytes()).unwrap_or(""))?;
    }
    Ok(names)
}

/// Which words of outputs are meant.
#[derive(Clone, Copy, PartialEq)]
pub(crate) enum Meant {
    /// Those of which half of what is open looks like bits of a sum at least.
    Sums,
    /// The same in a graph in which nothing was simulated yet, so that no output is seen to differ.
    SumsUnseen,
    All,
}

impl<'a> Inside<'a> {
    /// Whether the signal of a step is an exclusive or.
    fn is_sum(&self, step: u32) -> bool {
        let Some(literal) = literal_of(&self.literals, step) else {
            return false;
        };
        let graph = self.sweep.graph();
        let node = node_of(literal);
        node < graph.len() && matches!(graph.node(node), Node::Xor(_, _))
    }

    /// Whether both signals of an output are exclusive ors, as the bits of a sum mostly are.
    fn are_sums(&self, output: usize) -> bool
        requires { output < length self.now.first.outputs }
    {
        let roots = self.steps.roots(output);
        self.is_sum(roots[0]) && self.is_sum(roots[1])
    }

    /// Whether both signals of an output entered: those behind one that was seen to differ before
    /// they did don't.
    fn has_entered(&self, output: usize) -> bool
        requires { output < length self.now.first.outputs }
    {
        let roots = self.steps.roots(output);
        literal_of(&self.literals, roots[0]).is_some()
            && literal_of(&self.literals, roots[1]).is_some()
    }

    /// The part of a word that is to be shown equal: from its lowest output to its highest one that
    /// is open, below one that is seen to differ. Outputs below that are known to be equal are
    /// needed too, since carries come from there. It is empty where sums are meant and less than
    /// half of the open ones look like bits of a sum, and before anything is simulated also where
    /// open ones didn't enter. Fails where memory is refused.
    fn open_part(
        &mut self,
        alloc: Global,
        word: &[usize],
        marks: &[bool],
        meant: Meant,
    ) -> Result<Vec<usize>, AllocError>
        requires outputs { All (λ o. o < length self.old.first.outputs) word.now }
        requires equal { AreEqual self.old marks.now }
        ensures pair { self.new ≡ self.old }
        ensures outputs { IfOk result (λ part. All (λ o. o < length self.old.first.outputs) part.items) }
    {
        let mut part = Vec::new(alloc);
        let mut end = 0;
        let mut open = 0u32;
        let mut sums = 0u32;
        let mut is_left = false;
        for k in 0..word.len() {
            let output = word[k];
            if meant != Meant::SumsUnseen && self.is_seen_to_differ(output) {
                break;
            }
            part.push(output)?;
            if !is_settled(self.steps.pair(), marks, output) {
                end = part.len();
                open = open.saturating_add(1);
                sums = sums.saturating_add(u32::from(self.are_sums(output)));
                is_left |= meant == Meant::SumsUnseen && !self.has_entered(output);
            }
        }
        is_left |= meant != Meant::All && sums < open / 2;
        part.truncate(if is_left { 0 } else { end });
        Ok(part)
    }

    /// The parts of words of outputs that are to be shown equal, by their names. Fails where memory
    /// is refused.
    pub(crate) fn open_words(
        &mut self,
        alloc: Global,
        marks: &[bool],
        meant: Meant,
    ) -> Result<Vec<Vec<usize>>, AllocError>
        requires equal { AreEqual self.old marks.now }
        ensures pair { self.new ≡ self.old }
        ensures outputs { IfOk result (λ words. All (λ w. All (λ o. o < length self.old.first.outputs) w.items) words.items) }
    {
        let names = names(alloc, self.steps.pair().first().outputs())?;
        let words = words_of(alloc, &names)?;
        let mut open = Vec::new(alloc);
        for k in 0..words.len() {
            let part = self.open_part(alloc, &words[k], marks, meant)?;
            if part.len() > 0 {
                open.push(part)?;
            }
        }
        Ok(open)
    }

    /// Marks outputs whose words are shown equal in a turn.
    fn add_in_turn<R, P: Progress<R>>(
        &mut self,
        rt: &R,
        alloc: Global,
        alike: &mut Alike,
        turn: Turn,
        watch: &P,
    ) -> Result<(), AllocError>
        requires { IsKnown self.old alike.old }
        ensures pair { self.new ≡ self.old }
        ensures known { IsKnown self.new alike.new }
        ensures kept { KeepsMarks self.old alike.old.equal.items alike.new.equal.items }
    {
        let words = self.open_words(alloc, &alike.equal, Meant::Sums)?;
        if words.is_empty() {
            return Ok(());
        }
        let task = Task {
            alloc,
            steps: &Steps::each(alloc, self.steps.pair()),
            words: &words,
            turn,
        };
        add_open(rt, &task, alike, watch)
    }

    /// Whether words are open in a graph that has something like adders and isn't too large. Fails
    /// where memory is refused.
    fn has_open_sums(&mut self, alloc: Global, marks: &[bool]) -> Result<bool, AllocError>
        requires { AreEqual self.old marks.now }
        ensures { self.new ≡ self.old }
    {
        if self.sweep.graph().len() > MOST_NODES {
            return Ok(false);
        }
        let words = self.open_words(alloc, marks, Meant::Sums)?;
        Ok(!words.is_empty() && has_adders(alloc, &self.sweep)?)
    }

    /// Marks outputs whose words are shown equal by what they add up to: products, say, that are
    /// summed up in different ways. A word are outputs of one name with numbers (`words_of`); what
    /// is known of it by its marks isn't shown again, and nothing is shown of one of more than 128
    /// outputs, or in a graph of more than 200,000 nodes. Where nothing looks like an adder it is
    /// left at a look; else it takes work in proportion to the conflicts, in up to four turns, in
    /// each of which the words that are open enter a graph anew. The watch is told of each step
    /// that enters, and of each word. Fails where memory is refused; what was marked before stays
    /// then.
    pub fn add_up<R, P: Progress<R>>(
        &mut self,
        rt: &R,
        alloc: Global,
        alike: &mut Alike,
        conflicts: u64,
        watch: &P,
    ) -> Result<(), AllocError>
        requires { IsKnown self.old alike.old }
        ensures pair { self.new ≡ self.old }
        ensures known { IsKnown self.new alike.new }
        ensures kept { KeepsMarks self.old alike.old.equal.items alike.new.equal.items }
    {
        if !self.has_open_sums(alloc, &alike.equal)? {
            return Ok(());
        }
        let nodes = self.sweep.graph().len();
        let turns = if nodes < LARGE { TURNS } else { 1 };
        'turns: for number in 0..turns {
            let turn = Turn {
                number,
                is_last: number + 1 == turns,
                limits: limits_in(nodes, conflicts),
            };
            self.add_in_turn(rt, alloc, alike, turn, watch)?;
        }
        Ok(())
    }
}
