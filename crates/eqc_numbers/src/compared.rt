//! Two words of a graph, and what searches find of them.
ghost use Rattle.std.specs.Prelude.{◌≡◌, List, IfOk, IsTrue};
ghost use Rattle.eqc_xag.specs.declared.node.Node.{Node};
ghost use Rattle.eqc_sweep.specs.Copying.{AreCopies};
ghost use Rattle.eqc_sums.specs.Adding.{AreEqualWords};

use crate::chains::{Shape, copy_shaped};
use crate::shown::{CHEAP, Words, copies, copy_both};
use eqc_sweep::{Comparison, Effort, Sweep};
use eqc_xag::{Graph, Literal, Node, node_of};
use std::alloc::{AllocError, Global};

/// The conflicts of all questions about two words, before it is looked at what they add up to, and
/// where it isn't.
const QUESTIONS: u64 = 2_000;

const MANY: u64 = 50_000;

/// The conflicts of a question about a node in each round, the last one first, where only searches
/// tell whether words are equal.
static ROUNDS: &[u64] = &[3_000, 300];

/// So often it is looked at what words add up to, each time with other patterns.
pub(crate) const TURNS: u32 = 4;

/// What is found of two words.
#[derive(Clone, Copy, PartialEq, Eq, Debug)]
pub(crate) enum Found {
    /// They are equal.
    Equal,
    /// Half of their literals look like bits of sums.
    Sums,
    Neither,
}

/// Whether half of the literals of both words are exclusive ors.
fn are_sums(graph: &Graph, ps: &[Literal], qs: &[Literal]) -> bool {
    let mut count = 0usize;
    'bits: for literal in ps.iter().chain(qs) {
        let node = node_of(*literal);
        if node < graph.len() && matches!(graph.node(node), Node::Xor(_, _)) {
            count = count.saturating_add(1);
        }
    }
    count >= ps.len()
}

#[tactic(auto, using(crate::proofs::ShownLaws::one_equal_more))]
/// What is found of the copies of two words, one by one, by searches. Fails where memory is
/// refused.
fn found_of_copies(
    words: &Words<'_>,
    table: &[Option<Literal>],
    sweep: &mut Sweep,
    questions: u64,
) -> Result<Found, AllocError>
    ensures { (old : List Node) → AreCopies old sweep.old table.now → IfOk result (λ found. found ≡ Found.Equal → AreEqualWords old words.now.firsts.now words.now.seconds.now) }
{
    let ps = copies(words.alloc, table, words.firsts)?;
    let qs = copies(words.alloc, table, words.seconds)?;
    if ps.len() != words.firsts.len() || qs.len() != words.seconds.len() || qs.len() != ps.len() {
        return Ok(Found::Neither);
    }
    let nodes = sweep.graph().len();
    let mut conflicts = questions.min(words.limits.conflicts);
    'bits: for k in 0..ps.len() {
        if node_of(ps[k]) >= nodes || node_of(qs[k]) >= nodes {
            return Ok(Found::Neither);
        }
        let Comparison::Equal = sweep.equal(ps[k], qs[k], &mut conflicts)? else {
            let is_sum = are_sums(sweep.graph(), &ps, &qs);
            return Ok(if is_sum { Found::Sums } else { Found::Neither });
        };
    }
    Ok(Found::Equal)
}

/// Enters the first of two words into a graph in which it isn't asked what its nodes are equal to,
/// and asks about what enters from then on. Fails where memory is refused.
fn enter_first(
    words: &Words<'_>,
    graph: &Graph,
    sweep: &mut Sweep,
    effort: Effort,
) -> Result<(), AllocError> {
    sweep.ask_no_more();
    copy_shaped(words.alloc, graph, words.firsts, sweep, Shape::Plain)?;
    sweep.ask_again(effort)
}

#[tactic(auto, using(crate::proofs::ShownLaws::words_back))]
/// Whether searches find two words equal in a graph into which what they are made of is copied, or
/// in up to so many rounds behind it: each of them copies what the one before left, in which equal
/// nodes are one, and has more conflicts for a question. Fails where memory is refused.
fn are_found_equal_in(
    words: &Words<'_>,
    graph: &Graph,
    sweep: &mut Sweep,
    left: usize,
) -> Result<bool, AllocError>
    ensures { IfOk result (λ is. IsTrue is → AreEqualWords graph.now words.now.firsts.now words.now.seconds.now) }
{
    let table = copy_both(words, graph, sweep, Shape::Plain)?;
    if left == 0 || left > ROUNDS.len() {
        return Ok(found_of_copies(words, &table, sweep, MANY)? == Found::Equal);
    }
    let ps = copies(words.alloc, &table, words.firsts)?;
    let qs = copies(words.alloc, &table, words.seconds)?;
    if ps.len() != words.firsts.len() || qs.len() != words.seconds.len() {
        return Ok(false);
    }
    let copied = Words {
        firsts: &ps,
        seconds: &qs,
        ..*words
    };
    let effort = Effort::of(ROUNDS[left - 1], words.limits.work);
    let mut next = sweep.again(words.alloc, effort)?;
    enter_first(&copied, sweep.graph(), &mut next, effort)?;
    are_found_equal_in(&copied, sweep.graph(), &mut next, left - 1)
}

impl<'a> Words<'a> {
    /// What searches find of them in a copy of what they are made of, with few conflicts, since it is
    /// looked at what they add up to behind it. Fails where memory is refused.
    pub(crate) fn found(&self, graph: &Graph) -> Result<Found, AllocError>
        ensures { IfOk result (λ found. found ≡ Found.Equal → AreEqualWords graph.now self.now.firsts.now self.now.seconds.now) }
    {
        let mut sweep = Sweep::new(self.alloc, Effort::of(CHEAP, self.limits.work))?;
        let table = copy_both(self, graph, &mut sweep, Shape::Chains)?;
        found_of_copies(self, &table, &mut sweep, QUESTIONS)
    }

    /// Whether searches find them equal over nodes as they are, with many conflicts, in several
    /// rounds. Fails where memory is refused.
    pub(crate) fn are_found_equal(&self, graph: &Graph) -> Result<bool, AllocError>
        ensures { IfOk result (λ is. IsTrue is → AreEqualWords graph.now self.now.firsts.now self.now.seconds.now) }
    {
        let mut sweep = Sweep::new(self.alloc, Effort::of(CHEAP, self.limits.work))?;
        are_found_equal_in(self, graph, &mut sweep, ROUNDS.len())
    }
}
