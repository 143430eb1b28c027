//! Outputs that are equal since the words to which they belong add up the same.
//!
//! The graph of the pair isn't asked: what was found equal in it took the place of other nodes,
//! among them adders. The words enter a graph of their own, and from there another one, in which
//! carries go along chains. That one is swept with few conflicts, since what is hard to see is what
//! the sums are for.
ghost use Rattle.std.specs.Prelude.{◌≡◌, ℕ, ◌<◌, ◌≤◌, None, length, slice_index, IfOk};
ghost use Rattle.std.specs.List.{All};
ghost use Rattle.eqc_pair.specs.PairOf.{PairOf};
ghost use Rattle.eqc_build.specs.Steps.{AreSteps};
ghost use Rattle.eqc_gates.specs.Entering.{AreClosed};
ghost use Rattle.eqc_compare.specs.Alike.{IsKnown};
ghost use Rattle.eqc_compare.specs.Comparing.{difference_at};
ghost use Rattle.eqc_literals.specs.Literals.{IsInside, KeepsMarks};
ghost use Rattle.eqc_datapath.specs.Adding.{AreAskedBy};

use eqc_adders::{Limits, Sums};
use eqc_build::Steps;
use eqc_compare::{Alike, Progress, Stage};
use eqc_gates::needed_within;
use eqc_literals::{CHARACTERS, Owned, entered, literal_of, mark, moved};
use eqc_numbers::{Shape, copy_shaped};
use eqc_sweep::{Effort, Sweep};
use eqc_xag::Literal;
use std::alloc::{AllocError, Global};

/// The most conflicts of a question of the sweep under the sums.
const CHEAP: u64 = 30;

/// The work of the questions in each attempt to show a word: so much for each node of the graph,
/// and for the graph as a whole.
const EACH_NODE: u64 = 10_000;

const WHOLE: u64 = 60_000_000;

/// There are so many steps at most in each attempt, or as many as the graph has nodes.
const STEPS: u32 = 20_000;

/// So many words that aren't shown equal end a turn.
pub(crate) const MOST_FAILED: u32 = 3;

/// In a graph of more nodes none is shown: words of 64 bits times 64 take a quarter of them, and
/// each step takes time for what there is.
pub const MOST_NODES: u32 = 200_000;

/// The limits for words in a graph of so many nodes, where a run may have so many conflicts.
pub fn limits_in(nodes: u32, conflicts: u64) -> Limits {
    let limits = Limits::of(conflicts);
    let work = u64::from(nodes) * EACH_NODE + WHOLE;
    Limits {
        steps: limits.steps.min(nodes.max(STEPS)),
        work: limits.work.min(work),
        ..limits
    }
}

/// One of the turns in which words are shown equal.
#[derive(Clone, Copy)]
pub struct Turn {
    /// How many were before it.
    pub number: u32,
    /// Whether there is no turn behind it.
    pub is_last: bool,
    /// What may be done in it.
    pub limits: Limits,
}

impl Turn {
    /// Whether it is of the kind in which what is left of exclusive ors is made first, and the
    /// second netlist comes before the first one.
    fn is_other_kind(&self) -> bool {
        self.number % 2 == 1
    }

    /// In what shape what words are made of is copied.
    fn shape(&self) -> Shape {
        if self.is_other_kind() {
            Shape::ShortChains
        } else {
            Shape::Chains
        }
    }

    /// The limits in a graph of so many nodes. What succeeds mostly takes fewer steps than there
    /// are nodes, and what fails takes all that it may: that is for the last turn.
    fn limits(&self, nodes: u32) -> Limits {
        let limits = self.limits;
        let steps = if self.is_last {
            limits.steps
        } else {
            limits.steps.min(nodes)
        };
        Limits { steps, ..limits }
    }
}

/// Marks the outputs of words, of so many. Fails where memory is refused.
pub(crate) fn of_words(
    alloc: Global,
    outputs: usize,
    words: &[Vec<usize>],
) -> Result<Vec<bool>, AllocError>
    ensures { IfOk result (λ marks. length marks.items ≡ outputs) }
{
    let mut marks = vec![in alloc; false; outputs]?;
    'words: for word in words {
        for output in word {
            if *output < outputs {
                marks[*output] = true;
            }
        }
    }
    Ok(marks)
}

/// The literals of the two signals of a word's outputs, in turn.
#[derive(Drop)]
pub(crate) struct Literals {
    pub(crate) firsts: Vec<Literal>,
    pub(crate) seconds: Vec<Literal>,
}

/// The literals of a word's outputs, up to the first one that has none. Fails where memory is
/// refused.
pub(crate) fn literals_of(
    alloc: Global,
    steps: &Steps<'_>,
    literals: &[Option<Literal>],
    word: &[usize],
) -> Result<Literals, AllocError>
    requires lawful { AreSteps steps.now }
    requires outputs { All (λ o. o < length steps.now.pair.first.outputs) word.now }
    ensures { IfOk result (λ both. AreAskedBy steps.now literals.now word.now both.firsts.items both.seconds.items) }
{
    let mut firsts = Vec::new(alloc);
    let mut seconds = Vec::new(alloc);
    'outputs: for k in 0..word.len() {
        let roots = steps.roots(word[k]);
        let Some(x) = literal_of(literals, roots[0]) else {
            break;
        };
        let Some(y) = literal_of(literals, roots[1]) else {
            break;
        };
        firsts.push(x)?;
        seconds.push(y)?;
    }
    Ok(Literals { firsts, seconds })
}

/// Marks the first so many outputs of a word, where none of these differs.
fn mark_first(alike: &mut Alike, word: &[usize], count: usize)
    requires { count ≤ length word.now }
    ensures known { (p : PairOf) → IsKnown p alike.old → ((k : ℕ) → k < count → difference_at p (slice_index word.now k) ≡ None) → IsKnown p alike.new }
    ensures kept { (p : PairOf) → KeepsMarks p alike.old.equal.items alike.new.equal.items }
{
    for k in 0..count {
        mark(alike, word[k]);
    }
}

/// What is to be shown.
#[derive(Clone, Copy)]
pub struct Task<'a> {
    pub alloc: Global,
    /// The steps of the pair.
    pub steps: &'a Steps<'a>,
    /// Words of its outputs, each by their positions in the first netlist.
    pub words: &'a [Vec<usize>],
    pub turn: Turn,
}

/// Whether a word is shown equal, in a graph whose adders are known: then its outputs become
/// marked. Fails where memory is refused.
fn show_word(
    task: &Task<'_>,
    literals: &[Option<Literal>],
    word: &[usize],
    sums: &mut Sums,
    limits: Limits,
    alike: &mut Alike,
) -> Result<bool, AllocError>
    requires inside { IsInside task.now.steps.now sums.old.reduction.sweep literals.now }
    requires outputs { All (λ o. o < length task.now.steps.now.pair.first.outputs) word.now }
    requires known { IsKnown task.now.steps.now.pair alike.old }
    ensures inside { IsInside task.now.steps.now sums.new.reduction.sweep literals.now }
    ensures known { IsKnown task.now.steps.now.pair alike.new }
    ensures kept { KeepsMarks task.now.steps.now.pair alike.old.equal.items alike.new.equal.items }
{
    let Literals { firsts, seconds } = literals_of(task.alloc, task.steps, literals, word)?;
    let is_shown = sums.show(&firsts, &seconds, limits)?;
    if is_shown {
        mark_first(alike, word, firsts.len());
    }
    Ok(is_shown)
}

/// Shows words equal one by one, in a graph that has their literals, until too many aren't shown.
/// The watch is told of each word. Fails where memory is refused; what was marked before stays
/// then.
fn show_words<R, P: Progress<R>>(
    rt: &R,
    task: &Task<'_>,
    literals: &[Option<Literal>],
    sums: &mut Sums,
    alike: &mut Alike,
    watch: &P,
) -> Result<(), AllocError>
    requires inside { IsInside task.now.steps.now sums.old.reduction.sweep literals.now }
    requires outputs { All (λ w. All (λ o. o < length task.now.steps.now.pair.first.outputs) w.items) task.now.words.now }
    requires known { IsKnown task.now.steps.now.pair alike.old }
    ensures known { IsKnown task.now.steps.now.pair alike.new }
    ensures kept { KeepsMarks task.now.steps.now.pair alike.old.equal.items alike.new.equal.items }
{
    let limits = task.turn.limits(sums.sweep().graph().len());
    sums.find_adders(limits)?;
    let mut failed = 0u32;
    let words = task.words;
    for k in 0..words.len() {
        watch.step(rt, k, words.len());
        if !show_word(task, literals, &words[k], sums, limits, alike)? {
            failed = failed.saturating_add(1);
        }
        if failed >= MOST_FAILED {
            break;
        }
    }
    Ok(())
}

/// Which signals of outputs are meant.
#[derive(Clone, Copy, PartialEq)]
enum Side {
    Second,
    Both,
}

/// The literals of signals of the outputs of words, word by word. Fails where memory is refused.
fn literals_of_all(
    alloc: Global,
    steps: &Steps<'_>,
    literals: &[Option<Literal>],
    words: &[Vec<usize>],
    side: Side,
) -> Result<Vec<Literal>, AllocError>
    requires lawful { AreSteps steps.now }
    requires outputs { All (λ w. All (λ o. o < length steps.now.pair.first.outputs) w.items) words.now }
{
    let mut all = Vec::new(alloc);
    for k in 0..words.len() {
        let Literals { firsts, seconds } = literals_of(alloc, steps, literals, &words[k])?;
        if side == Side::Both {
            all.extend_from_slice(&firsts)?;
        }
        all.extend_from_slice(&seconds)?;
    }
    Ok(all)
}

/// Copies what the second netlist's words are made of into a graph that is swept, where the turn
/// has it before the first one's: what is equal to an older node is that one, and adders are found
/// of older nodes. Fails where memory is refused.
fn copy_second_first(
    task: &Task<'_>,
    plain: &Sweep,
    literals: &[Option<Literal>],
    sweep: &mut Sweep,
) -> Result<(), AllocError>
    requires inside { IsInside task.now.steps.now plain.now literals.now }
    requires outputs { All (λ w. All (λ o. o < length task.now.steps.now.pair.first.outputs) w.items) task.now.words.now }
{
    if task.turn.is_other_kind() {
        let side = Side::Second;
        let asked = literals_of_all(task.alloc, task.steps, literals, task.words, side)?;
        copy_shaped(task.alloc, plain.graph(), &asked, sweep, Shape::ShortChains)?;
    }
    Ok(())
}

/// Copies what words are made of into a graph that is swept, with chains of carries in place of
/// trees of prefixes, and answers the literals of the steps there. Fails where memory is refused.
fn chained(
    task: &Task<'_>,
    plain: &Sweep,
    literals: &[Option<Literal>],
    sweep: &mut Sweep,
) -> Result<Vec<Option<Literal>>, AllocError>
    requires inside { IsInside task.now.steps.now plain.now literals.now }
    requires outputs { All (λ w. All (λ o. o < length task.now.steps.now.pair.first.outputs) w.items) task.now.words.now }
    ensures { IfOk result (λ all. IsInside task.now.steps.now sweep.new all.items) }
{
    let asked = literals_of_all(task.alloc, task.steps, literals, task.words, Side::Both)?;
    let table = copy_shaped(task.alloc, plain.graph(), &asked, sweep, task.turn.shape())?;
    moved(task.alloc, literals, &table)
}

/// Enters the marked steps into a graph in which nothing is asked, and from there into one that is
/// swept. The watch is told of each step. Fails where memory is refused.
fn enter_by<R, P: Progress<R>>(
    rt: &R,
    task: &Task<'_>,
    marks: &[bool],
    plain: &mut Sweep,
    sweep: &mut Sweep,
    watch: &P,
) -> Result<Vec<Option<Literal>>, AllocError>
    requires closed { AreClosed task.now.steps.now marks.now }
    requires outputs { All (λ w. All (λ o. o < length task.now.steps.now.pair.first.outputs) w.items) task.now.words.now }
    ensures { IfOk result (λ all. IsInside task.now.steps.now sweep.new all.items) }
{
    let literals = entered(rt, task.alloc, task.steps, marks, plain, watch)?;
    copy_second_first(task, plain, &literals, sweep)?;
    chained(task, plain, &literals, sweep)
}

/// The same by a graph that is let go here, in the one exit that there is.
fn enter_words<R, P: Progress<R>>(
    rt: &R,
    task: &Task<'_>,
    marks: &[bool],
    sweep: &mut Sweep,
    watch: &P,
) -> Result<Vec<Option<Literal>>, AllocError>
    requires closed { AreClosed task.now.steps.now marks.now }
    requires outputs { All (λ w. All (λ o. o < length task.now.steps.now.pair.first.outputs) w.items) task.now.words.now }
    ensures { IfOk result (λ all. IsInside task.now.steps.now sweep.new all.items) }
{
    let mut plain = Owned {
        sweep: Sweep::new(task.alloc, Effort::none())?,
    };
    enter_by(rt, task, marks, &mut plain.sweep, sweep, watch)
}

/// Enters so many inputs that nothing depends on: those behind them have other patterns then. Fails
/// where memory is refused.
fn draw(sweep: &mut Sweep, count: u32) -> Result<(), AllocError> {
    for k in 0..count {
        sweep.input(u32::MAX - k)?;
    }
    Ok(())
}

/// Sweeps the marked steps in a new graph, and answers their literals there. The watch is told of
/// each step. Fails where memory is refused.
fn sweep_words<R, P: Progress<R>>(
    rt: &R,
    task: &Task<'_>,
    marks: &[bool],
    sweep: &mut Sweep,
    watch: &P,
) -> Result<Vec<Option<Literal>>, AllocError>
    requires closed { AreClosed task.now.steps.now marks.now }
    requires outputs { All (λ w. All (λ o. o < length task.now.steps.now.pair.first.outputs) w.items) task.now.words.now }
    ensures { IfOk result (λ all. IsInside task.now.steps.now sweep.new all.items) }
{
    watch.stage(rt, Stage::Sweeping);
    draw(sweep, task.turn.number)?;
    let literals = enter_words(rt, task, marks, sweep, watch)?;
    sweep.ask_no_more();
    Ok(literals)
}

/// Shows words equal in a graph that has these literals of theirs, where memory for them wasn't
/// refused. The watch is told of each word. Fails where memory is refused; what was marked before
/// stays then.
fn show_swept<R, P: Progress<R>>(
    rt: &R,
    task: &Task<'_>,
    swept: Result<Vec<Option<Literal>>, AllocError>,
    sums: &mut Sums,
    alike: &mut Alike,
    watch: &P,
) -> Result<(), AllocError>
    requires inside { IfOk swept (λ all. IsInside task.now.steps.now sums.old.reduction.sweep all.items) }
    requires outputs { All (λ w. All (λ o. o < length task.now.steps.now.pair.first.outputs) w.items) task.now.words.now }
    requires known { IsKnown task.now.steps.now.pair alike.old }
    ensures known { IsKnown task.now.steps.now.pair alike.new }
    ensures kept { KeepsMarks task.now.steps.now.pair alike.old.equal.items alike.new.equal.items }
{
    let literals = swept?;
    watch.stage(rt, Stage::Adding);
    show_words(rt, task, &literals, sums, alike, watch)
}

/// Enters the marked steps into a graph, and shows words equal there. The watch is told of each
/// step, and then of each word. Fails where memory is refused; what was marked before stays then.
/// The graph is let go in one exit for its proof's sake: in each of four that takes many times
/// longer.
fn add_words<R, P: Progress<R>>(
    rt: &R,
    task: &Task<'_>,
    marks: &[bool],
    alike: &mut Alike,
    watch: &P,
) -> Result<(), AllocError>
    requires closed { AreClosed task.now.steps.now marks.now }
    requires outputs { All (λ w. All (λ o. o < length task.now.steps.now.pair.first.outputs) w.items) task.now.words.now }
    requires known { IsKnown task.now.steps.now.pair alike.old }
    ensures known { IsKnown task.now.steps.now.pair alike.new }
    ensures kept { KeepsMarks task.now.steps.now.pair alike.old.equal.items alike.new.equal.items }
{
    let mut sweep = Sweep::new(task.alloc, Effort::of(CHEAP, task.turn.limits.work))?;
    let swept = sweep_words(rt, task, marks, &mut sweep, watch);
    let mut sums = Sums::new(task.alloc, sweep);
    let shown = show_swept(rt, task, swept, &mut sums, alike, watch);
    let _owned = Owned {
        sweep: sums.into_sweep(),
    };
    shown
}

/// Marks outputs whose words are shown equal in a turn: what the words need enters a graph of its
/// own, and they are shown equal there one by one, until too many aren't. Outputs of `alike` that
/// are marked never differ; which others become marked isn't promised, but that these never differ
/// either. The watch is told of each step that enters, and then of each word. Fails where memory is
/// refused; what was marked before stays then.
pub fn add_open<R, P: Progress<R>>(
    rt: &R,
    task: &Task<'_>,
    alike: &mut Alike,
    watch: &P,
) -> Result<(), AllocError>
    requires outputs { All (λ w. All (λ o. o < length task.now.steps.now.pair.first.outputs) w.items) task.now.words.now }
    requires known { IsKnown task.now.steps.now.pair alike.old }
    ensures known { IsKnown task.now.steps.now.pair alike.new }
    ensures kept { KeepsMarks task.now.steps.now.pair alike.old.equal.items alike.new.equal.items }
{
    let count = task.steps.pair().first().outputs().len();
    let outputs = of_words(task.alloc, count, task.words)?;
    let marks = needed_within(task.alloc, task.steps, &outputs, CHARACTERS)?;
    add_words(rt, task, &marks, alike, watch)
}
