//! How steps of a pair enter a graph in which nothing is asked, and which of them are wanted there.
ghost use Rattle.std.specs.Prelude.{◌≡◌, ◌≤◌, List, length, IfOk};
ghost use Rattle.eqc_compare.specs.Alike.{AreEqual};
ghost use Rattle.eqc_build.specs.Steps.{StepsOf};
ghost use Rattle.eqc_gates.specs.Entering.{AreClosed};
ghost use Rattle.eqc_xag.specs.declared.node.Node.{Node};
ghost use Rattle.eqc_literals.specs.Literals.{IsInside};

use crate::difference::difference_literal;
use eqc_build::Steps;
use eqc_compare::{is_marked, is_settled};
use eqc_gates::{literals, needed, needed_within};
use eqc_literals::CHARACTERS;
use eqc_pair::Pair;
use eqc_sweep::Sweep;
use eqc_witness::{first_shown, words_shown};
use eqc_xag::Literal;
use std::alloc::{AllocError, Global};

/// What it takes to enter a node in a graph in which nothing is asked, as work.
const ENTERED: u64 = 100;

/// The work that it took to see which outputs differ, in a graph of so many nodes.
fn work_seeing(nodes: u32) -> u64 {
    (u64::from(nodes) * ENTERED).saturating_add(words_shown(nodes))
}

/// Marks the chosen outputs that are not marked as equal. Fails where memory is refused.
fn unmarked(alloc: Global, pair: &Pair<'_>, equal: &[bool]) -> Result<Vec<bool>, AllocError>
    requires { AreEqual pair.now equal.now }
    ensures size { IfOk result (λ wanted. length wanted.items ≡ length pair.now.first.outputs) }
{
    let outputs = pair.first().outputs().len();
    let mut wanted = Vec::with_capacity(alloc, outputs)?;
    for output in 0..outputs {
        wanted.push(!is_settled(pair, equal, output))?;
    }
    Ok(wanted)
}

/// Takes the marks of wanted outputs away behind a place.
fn unmark_behind(wanted: &mut Vec<bool>, last: usize)
    ensures { length wanted.new.items ≡ length wanted.old.items }
{
    for output in last.saturating_add(1)..wanted.len() {
        wanted[output] = false;
    }
}

/// The literals that are true where outputs differ, and the outputs: without those whose steps have
/// none. Fails where memory is refused.
fn differences(
    alloc: Global,
    steps: &Steps<'_>,
    sweep: &mut Sweep,
    literals: &[Option<Literal>],
    wanted: &[bool],
) -> Result<(Vec<Literal>, Vec<usize>), AllocError>
    requires inside { IsInside steps.now sweep.old literals.now }
    requires outputs { length wanted.now ≤ length steps.now.pair.first.outputs }
    ensures { IsInside steps.now sweep.new literals.now }
{
    let mut found = Vec::new(alloc);
    let mut outputs = Vec::new(alloc);
    for output in 0..wanted.len() {
        if !wanted[output] {
            continue;
        }
        if let Some(literal) = difference_literal(steps, sweep, literals, output)? {
            found.push(literal)?;
            outputs.push(output)?;
        }
    }
    Ok((found, outputs))
}

/// What entered a graph.
#[derive(Drop)]
pub struct Entered {
    /// The literals of the steps that are wanted: none of the others.
    pub literals: Vec<Option<Literal>>,
    /// The work that it took to see which others aren't.
    pub work: u64,
}

/// Enters the marked steps into a graph, of which nobody is told, and answers their literals.
/// `marks` has a mark for each step that enters, and what a marked step uses is marked. Fails where
/// memory is refused.
fn entered_untold(
    alloc: Global,
    steps: &Steps<'_>,
    marks: &[bool],
    sweep: &mut Sweep,
) -> Result<Vec<Option<Literal>>, AllocError>
    requires { AreClosed steps.now marks.now }
    ensures { IfOk result (λ literals. IsInside steps.now sweep.new literals.items) }
{
    let _count = steps.len();
    let ignored = |_step: u32| {};
    literals(alloc, steps, marks, sweep, &ignored)
}

/// The first of some outputs that is seen to differ under pseudo-random values in the graph that
/// their steps entered, if one is: others may differ before it. Fails where memory is refused.
fn first_seen(
    alloc: Global,
    steps: &Steps<'_>,
    literals: &[Option<Literal>],
    wanted: &[bool],
    sweep: &mut Sweep,
) -> Result<Option<usize>, AllocError>
    requires inside { IsInside steps.now sweep.old literals.now }
    requires outputs { length wanted.now ≤ length steps.now.pair.first.outputs }
    ensures { IsInside steps.now sweep.new literals.now }
{
    let (found, outputs) = differences(alloc, steps, sweep, literals, wanted)?;
    let Some(place) = first_shown(alloc, sweep.graph(), &found)? else {
        return Ok(None);
    };
    Ok(outputs.get(place).copied())
}

#[tactic(auto, using(crate::proofs::EnteringLaws::inside_without))]
/// Takes the literals of steps away that aren't marked. Their nodes stay in the graph.
fn forget_unmarked(literals: &mut Vec<Option<Literal>>, marks: &[bool])
    ensures { (g : StepsOf) (nodes : List Node) → IsInside g nodes literals.old.items → IsInside g nodes literals.new.items }
{
    for step in 0..literals.len() {
        if !is_marked(marks, step) {
            literals[step] = None;
        }
    }
}

/// Enters the steps into a graph in which nothing is asked that the chosen outputs of a pair need
/// which are not marked as equal: unless `every` one that differs is looked for, those that only
/// outputs behind the first need that is seen to differ have no literals then. Outputs that have
/// one of the marks `equal` never differ. Nothing enters where it would be too much. Fails where
/// memory is refused.
pub fn entered_wanted(
    alloc: Global,
    steps: &Steps<'_>,
    equal: &[bool],
    every: bool,
    sweep: &mut Sweep,
) -> Result<Entered, AllocError>
    requires { AreEqual steps.now.pair equal.now }
    ensures { IfOk result (λ entered. IsInside steps.now sweep.new entered.literals.items) }
{
    let mut outputs = unmarked(alloc, steps.pair(), equal)?;
    let marks = needed_within(alloc, steps, &outputs, CHARACTERS)?;
    let mut literals = entered_untold(alloc, steps, &marks, sweep)?;
    if every {
        return Ok(Entered { literals, work: 0 });
    }
    let seen = first_seen(alloc, steps, &literals, &outputs, sweep)?;
    let work = work_seeing(sweep.graph().len());
    let Some(last) = seen else {
        return Ok(Entered { literals, work });
    };
    unmark_behind(&mut outputs, last);
    let wanted = needed(alloc, steps, &outputs)?;
    forget_unmarked(&mut literals, &wanted);
    Ok(Entered { literals, work })
}
