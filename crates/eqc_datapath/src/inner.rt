//! Signals inside the netlists that are equal since the words to which they belong add up the same:
//! bits of a product, say, with which both netlists go on.
//!
//! What the outputs are made of enters a graph in which nothing is asked. There signals of both
//! netlists that look alike make words, by the columns of the adders whose sums they are
//! (`find_lookalikes`). Where two words are shown equal, in a copy of what they are made of, each
//! of the second one's signals has that of the first one chosen in its place. So it is with words
//! of outputs that are shown equal for each value of the few inputs that choose what a design does.
ghost use Rattle.std.specs.Prelude.{◌≡◌, ℕ, ◌<◌, Bool, List, length, IfOk, IfSome, IsTrue};
ghost use Rattle.std.specs.List.{All};
ghost use Rattle.eqc_xag.specs.declared.node.Node.{Node};
ghost use Rattle.eqc_xag.specs.Graph.{IsWithin};
ghost use Rattle.eqc_sweep.specs.Sweeping.{HasValue};
ghost use Rattle.eqc_sweep.specs.Finding.{AreEqual};
ghost use Rattle.eqc_sums.specs.Adding.{AreEqualWords};
ghost use Rattle.eqc_pair.specs.PairOf.{PairOf};
ghost use Rattle.eqc_build.specs.Steps.{AreSteps};
ghost use Rattle.eqc_gates.specs.Entering.{AreClosed, AreLiterals};
ghost use Rattle.eqc_literals.specs.Literals.{TellEqual};

use crate::adding::{Literals, literals_of, of_words};
use crate::look::{Kind, Look};
use eqc_adders::Lookalikes;
use eqc_build::Steps;
use eqc_compare::{Progress, Stage};
use eqc_gates::needed_within;
use eqc_literals::{CHARACTERS, Owned, entered};
use eqc_numbers::{
    Words, are_equal_anew, are_equal_as_made, are_equal_by_arrays, are_equal_in_cases,
    are_shown_equal, find_lookalikes,
};
use eqc_sweep::{Effort, Sweep};
use eqc_xag::{Graph, Literal, negated, node_of};
use std::alloc::{AllocError, Global};

#[tactic(auto, using(crate::proofs::InnerLaws::stands, crate::proofs::InnerLaws::stands_turned))]
/// What stands for a literal where two are equal, of which the first one stands for the second one:
/// nothing for other literals.
fn standing_for(literal: Option<Literal>, first: Literal, second: Literal) -> Option<Literal>
    ensures { (nodes : List Node) (f : (ℕ → Bool) → Bool) → IsWithin nodes first → AreEqual nodes first second → IfSome literal (λ l. HasValue nodes l f) → IfSome result (λ l. HasValue nodes l f) }
{
    let literal = literal?;
    if literal == first || literal == negated(first) {
        return Some(literal);
    }
    if literal == second {
        return Some(first);
    }
    if literal == negated(second) {
        return Some(negated(first));
    }
    None
}

/// Notes what stands for the literals of steps, where these are of two that are equal.
fn note(
    literals: &[Option<Literal>],
    shown: &mut Vec<Option<Literal>>,
    first: Literal,
    second: Literal,
)
    ensures { (p : PairOf) (nodes : List Node) → IsWithin nodes first → AreEqual nodes first second → AreLiterals p nodes literals.now → AreLiterals p nodes shown.old.items → AreLiterals p nodes shown.new.items }
{
    'steps: for step in 0..shown.len() {
        let literal = literals.get(step).copied().flatten();
        if let Some(literal) = standing_for(literal, first, second) {
            shown[step] = Some(literal);
        }
    }
}

/// Notes what stands for the literals of steps, where these are of two words that were shown equal
/// in a graph.
fn note_word(
    graph: &Graph,
    literals: &[Option<Literal>],
    shown: &mut Vec<Option<Literal>>,
    word: &Lookalikes,
)
    ensures { (p : PairOf) → AreEqualWords graph.now word.now.firsts.items word.now.seconds.items → AreLiterals p graph.now literals.now → AreLiterals p graph.now shown.old.items → AreLiterals p graph.now shown.new.items }
{
    let count = word.firsts.len().min(word.seconds.len());
    'bits: for k in 0..count {
        let first = word.firsts[k];
        // False stands where nothing was to be shown.
        if node_of(first) != 0 && node_of(first) < graph.len() {
            note(literals, shown, first, word.seconds[k]);
        }
    }
}

/// In what it is looked for words: in what these outputs of a pair are made of, of which the open
/// ones make these words.
#[derive(Clone, Copy)]
pub struct Scope<'a> {
    pub alloc: Global,
    /// The steps of the pair, with those that were chosen in place of others before.
    pub steps: &'a Steps<'a>,
    /// Outputs by their positions in the first netlist.
    pub outputs: &'a [usize],
    /// The words that the open ones of them make.
    pub words: &'a [Vec<usize>],
    pub look: Look,
}

/// Whether two words are shown equal: in one of several turns, or in each case. Fails where memory
/// is refused.
fn is_shown(scope: &Scope<'_>, graph: &Graph, word: &Lookalikes) -> Result<bool, AllocError>
    ensures { IfOk result (λ is. IsTrue is → AreEqualWords graph.now word.now.firsts.items word.now.seconds.items) }
{
    let Lookalikes { firsts, seconds } = word;
    let words = Words {
        alloc: scope.alloc,
        firsts,
        seconds,
        limits: scope.look.limits(graph.len()),
    };
    match scope.look.kind {
        Kind::AsMade => are_equal_as_made(&words, graph),
        Kind::Anew => are_equal_anew(&words, graph),
        Kind::Arrays => are_equal_by_arrays(&words, graph),
        Kind::Cases => are_equal_in_cases(&words, graph),
        Kind::Short | Kind::Long => are_shown_equal(&words, graph, scope.look.turns()),
    }
}

/// What stands for the literals of steps since words that look alike are shown equal, one by one,
/// until too many aren't: nothing where none is. The watch is told of each word. Fails where memory
/// is refused.
fn shown_of<R, P: Progress<R>>(
    rt: &R,
    scope: &Scope<'_>,
    graph: &Graph,
    literals: &[Option<Literal>],
    words: &[Lookalikes],
    watch: &P,
) -> Result<Option<Vec<Option<Literal>>>, AllocError>
    ensures { (p : PairOf) → AreLiterals p graph.now literals.now → IfOk result (λ found. IfSome found (λ shown. TellEqual p shown.items)) }
{
    let mut shown = vec![in scope.alloc; None; literals.len()]?;
    let mut some = false;
    let mut failed = 0u32;
    'words: for k in 0..words.len() {
        if failed >= scope.look.most_failed() {
            break;
        }
        watch.step(rt, k, words.len());
        if is_shown(scope, graph, &words[k])? {
            note_word(graph, literals, &mut shown, &words[k]);
            some = true;
        } else {
            failed = failed.saturating_add(1);
        }
    }
    Ok(if some { Some(shown) } else { None })
}

/// The literals of the words of outputs. Fails where memory is refused.
fn words_of_outputs(
    scope: &Scope<'_>,
    literals: &[Option<Literal>],
) -> Result<Vec<Lookalikes>, AllocError>
    requires lawful { AreSteps scope.now.steps.now }
    requires words { All (λ w. All (λ o. o < length scope.now.steps.now.pair.first.outputs) w.items) scope.now.words.now }
{
    let mut all = Vec::with_capacity(scope.alloc, scope.words.len())?;
    for k in 0..scope.words.len() {
        let Literals { firsts, seconds } = literals_of(
            scope.alloc,
            scope.steps,
            literals,
            &scope.words[k],
        )?;
        all.push(Lookalikes { firsts, seconds })?;
    }
    Ok(all)
}

/// The words that are tried. Fails where memory is refused.
fn tried(
    scope: &Scope<'_>,
    graph: &Graph,
    literals: &[Option<Literal>],
) -> Result<Vec<Lookalikes>, AllocError>
    requires lawful { AreSteps scope.now.steps.now }
    requires outputs { All (λ o. o < length scope.now.steps.now.pair.first.outputs) scope.now.outputs.now }
    requires words { All (λ w. All (λ o. o < length scope.now.steps.now.pair.first.outputs) w.items) scope.now.words.now }
{
    if scope.look.is_of_outputs() {
        return words_of_outputs(scope, literals);
    }
    let Literals { firsts, seconds } = literals_of(
        scope.alloc,
        scope.steps,
        literals,
        scope.outputs,
    )?;
    let netlists = Words {
        alloc: scope.alloc,
        firsts: &firsts,
        seconds: &seconds,
        limits: scope.look.limits(graph.len()),
    };
    find_lookalikes(&netlists, graph)
}

/// What stands for literals of steps since words of signals that the outputs depend on are shown
/// equal, in a graph that the marked steps enter.
fn shown_in<R, P: Progress<R>>(
    rt: &R,
    scope: &Scope<'_>,
    marks: &[bool],
    plain: &mut Sweep,
    watch: &P,
) -> Result<Option<Vec<Option<Literal>>>, AllocError>
    requires closed { AreClosed scope.now.steps.now marks.now }
    requires outputs { All (λ o. o < length scope.now.steps.now.pair.first.outputs) scope.now.outputs.now }
    requires words { All (λ w. All (λ o. o < length scope.now.steps.now.pair.first.outputs) w.items) scope.now.words.now }
    ensures { IfOk result (λ found. IfSome found (λ shown. TellEqual scope.now.steps.now.pair shown.items)) }
{
    watch.stage(rt, Stage::Sweeping);
    let literals = entered(rt, scope.alloc, scope.steps, marks, plain, watch)?;
    let words = tried(scope, plain.graph(), &literals)?;
    watch.stage(rt, Stage::Adding);
    shown_of(rt, scope, plain.graph(), &literals, &words, watch)
}

/// What stands for literals of steps since words to which they belong are shown equal: words inside
/// of what the outputs depend on, or those of outputs, as the look has it. Any two steps of one
/// literal have one value then. Nothing where no words are shown. The watch is told of each step
/// that enters, and of each word. Fails where memory is refused. The graph that they enter is let
/// go in one exit, for its proof's sake.
pub fn shown_below<R, P: Progress<R>>(
    rt: &R,
    scope: &Scope<'_>,
    watch: &P,
) -> Result<Option<Vec<Option<Literal>>>, AllocError>
    requires outputs { All (λ o. o < length scope.now.steps.now.pair.first.outputs) scope.now.outputs.now }
    requires words { All (λ w. All (λ o. o < length scope.now.steps.now.pair.first.outputs) w.items) scope.now.words.now }
    ensures { IfOk result (λ found. IfSome found (λ shown. TellEqual scope.now.steps.now.pair shown.items)) }
{
    let count = scope.steps.pair().first().outputs().len();
    let wanted = if scope.look.is_of_outputs() {
        of_words(scope.alloc, count, scope.words)?
    } else {
        vec![in scope.alloc; true; count]?
    };
    let marks = needed_within(scope.alloc, scope.steps, &wanted, CHARACTERS)?;
    let mut plain = Owned {
        sweep: Sweep::new(scope.alloc, Effort::none())?,
    };
    shown_in(rt, scope, &marks, &mut plain.sweep, watch)
}
