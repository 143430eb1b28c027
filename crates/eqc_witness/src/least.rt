//! The least assignment under which a literal is true, position by position.
ghost use Rattle.std.specs.Prelude.{◌≡◌, ◌∷◌, ◌++◌, [], ◌<◌, ◌≤◌, true, false, length, take, IfOk};
ghost use Rattle.eqc_xag.specs.Graph.{IsWithin};
ghost use Rattle.eqc_rup.specs.Clauses.{IsSound};
ghost use Rattle.eqc_witness.specs.Completing.{IsCompletion};
ghost use Rattle.eqc_witness.specs.Cones.{holds_under};
ghost use Rattle.eqc_witness.specs.Witnesses.{IsFoundOf, IsSpentOn, IsWitness};

use crate::Witness;
use crate::completion::{Completion, Means, complete};
use crate::cone::Cone;
use crate::target::{Hints, Target};
use crate::trials::{Trials, is_less};
use eqc_cdcl::{Budget, Decides, Search};
use eqc_xag::Graph;
use std::alloc::{AllocError, Global};

/// Literals that may be visited for each conflict, and conflicts' worth of them that there are
/// without one.
const VISITS: u64 = 1_000;

const WITHOUT: u64 = 100;

/// Visits of each node for each position, besides.
const EACH: u64 = 16;

/// How many times as many gates a window has each time that it is made larger.
const GROWTH: u32 = 8;

/// So many visits, or nodes below the literal, count as a conflict, where there were fewer
/// conflicts.
const WORTH: u64 = 2_000;

/// The work that goes with a conflict, and what it takes to read a node, to copy it and to make
/// room for it in a search.
const FREE: u64 = 8_000;

const READ: u64 = 20;

/// What may be spent where there may be so many conflicts. The work is only counted: what is begun
/// isn't given up for it.
fn budget_of(conflicts: u64, cone: &Cone) -> Budget {
    let nodes = u64::from(cone.graph.len());
    let questions = (cone.positions as u64).saturating_add(1);
    Budget {
        conflicts,
        visits: conflicts
            .saturating_add(WITHOUT)
            .saturating_mul(VISITS)
            .saturating_add(questions.saturating_mul(nodes).saturating_mul(EACH)),
        work: u64::MAX,
        growth: GROWTH,
        ordered_from: u64::MAX,
        decides: Decides::NeededAndMet,
    }
}

/// The conflicts that are left of those given for a cone of so many nodes. Where much was visited
/// for each, that counts as more of them, and so does reading the nodes.
fn conflicts_left(given: u64, means: &Means, nodes: u32) -> u64
    ensures { result ≤ given }
{
    let visits = means.given.visits.saturating_sub(means.budget.visits);
    let worth = visits.saturating_add(u64::from(nodes)) / WORTH;
    means.budget.conflicts.min(given.saturating_sub(worth))
}

/// The work that was done beside the conflicts, for a cone of so many nodes.
fn work_beside(means: &Means, nodes: u32) -> u64
    ensures { nodes ≤ result }
{
    let (given, left) = (means.given, means.budget);
    let conflicts = given.conflicts.saturating_sub(left.conflicts);
    let work = given
        .work
        .saturating_sub(left.work)
        .saturating_add(means.trials.work());
    work.saturating_sub(conflicts.saturating_mul(FREE))
        .saturating_add(u64::from(nodes) * READ)
}

/// A number above all variables.
fn above_all(variables: &[u16]) -> usize {
    let mut above = 0;
    for variable in variables {
        above = above.max(*variable as usize + 1);
    }
    above
}

/// The values of variables as values of their positions, false where none is told. The last that is
/// told of a variable counts.
fn values_told(
    alloc: Global,
    variables: &[u16],
    told: &[(u32, bool)],
) -> Result<Vec<bool>, AllocError>
    ensures { IfOk result (λ values. length values.items ≡ length variables.now) }
{
    let mut by_variable = vec![in alloc; false; above_all(variables)]?;
    for (variable, value) in told {
        let at = *variable as usize;
        if at < by_variable.len() {
            by_variable[at] = *value;
        }
    }
    let mut values = Vec::with_capacity(alloc, variables.len())?;
    for variable in variables {
        let at = *variable as usize;
        values.push(by_variable.get(at).copied().unwrap_or(false))?;
    }
    Ok(values)
}

/// Values before a position, and false there. Fails where memory is refused.
fn lowered(alloc: Global, values: &[bool], position: usize) -> Result<Vec<bool>, AllocError>
    requires { position < length values.now }
    ensures { IfOk result (λ first. first.items ≡ take position values.now ++ false ∷ []) }
{
    let mut first = Vec::with_capacity(alloc, position + 1)?;
    first.extend_from_slice(&values[..position])?;
    first.push(false)?;
    Ok(first)
}

/// Other values in place of some under which a cone's root is true, where they are less and it is
/// so under them too. Fails where memory is refused.
fn lesser(
    alloc: Global,
    cone: &Cone,
    values: Vec<bool>,
    others: &[bool],
) -> Result<Vec<bool>, AllocError>
    requires long { length values.items ≡ cone.now.positions }
    requires holds { holds_under cone.now.graph cone.now.root values.items ≡ true }
    requires others { length others.now ≡ cone.now.positions }
    ensures long { IfOk result (λ values. length values.items ≡ cone.now.positions) }
    ensures holds { IfOk result (λ values. holds_under cone.now.graph cone.now.root values.items ≡ true) }
{
    if !is_less(others, &values) {
        return Ok(values);
    }
    match cone.confirmed(alloc, &[], others)? {
        Some(lower) => Ok(lower),
        None => Ok(values),
    }
}

/// Values under which a cone's root is true, from some under which it is: less ones, where some are
/// seen near these, or near the last of earlier ones. Fails where memory is refused.
fn lesser_near(
    alloc: Global,
    cone: &Cone,
    values: Vec<bool>,
    earlier: &[Vec<bool>],
    trials: &mut Trials,
) -> Result<Vec<bool>, AllocError>
    requires long { length values.items ≡ cone.now.positions }
    requires holds { holds_under cone.now.graph cone.now.root values.items ≡ true }
    ensures long { IfOk result (λ values. length values.items ≡ cone.now.positions) }
    ensures holds { IfOk result (λ values. holds_under cone.now.graph cone.now.root values.items ≡ true) }
{
    let mut others = values.clone()?;
    if let Some(last) = earlier.last() {
        others = trials.near(alloc, cone, last, others)?;
    }
    let base = others.clone()?;
    let others = trials.near(alloc, cone, &base, others)?;
    lesser(alloc, cone, values, &others)
}

/// Finds values of the positions that begin with the first ones and make the root true, or that
/// there are none, as `complete` does. The guess is like other values, but for a run of false ones
/// that begins with the last of the first ones. Fails where memory is refused.
fn complete_lower(
    alloc: Global,
    cone: &Cone,
    first: &[bool],
    others: &[bool],
    means: &mut Means,
) -> Result<Completion, AllocError>
    requires first { length first.now ≤ cone.now.positions }
    requires others { length others.now ≡ cone.now.positions }
    requires sound { IsSound cone.now.graph means.old.search }
    ensures sound { IsSound cone.now.graph means.new.search }
    ensures found { IfOk result (IsCompletion cone.now.positions (holds_under cone.now.graph cone.now.root) first.now) }
{
    let last = first.len().saturating_sub(1);
    let guess = means.trials.lowered(alloc, cone, others, last)?;
    complete(alloc, cone, first, &guess, means)
}

/// The least values under which a cone's root is true, from some under which it is: each that is
/// true is tried at false, with those before it as they are, and first of all together with those
/// behind it. Fails where memory is refused.
fn least_from(
    alloc: Global,
    cone: &Cone,
    values: Vec<bool>,
    means: &mut Means,
) -> Result<Witness, AllocError>
    requires long { length values.items ≡ cone.now.positions }
    requires holds { holds_under cone.now.graph cone.now.root values.items ≡ true }
    requires sound { IsSound cone.now.graph means.old.search }
    ensures { IfOk result (IsFoundOf cone.now.positions (holds_under cone.now.graph cone.now.root)) }
{
    let mut values = values;
    for position in 0..cone.positions {
        if !values[position] {
            continue;
        }
        let first = lowered(alloc, &values, position)?;
        match complete_lower(alloc, cone, &first, &values, means)? {
            Completion::Found(lower) => values = lower,
            Completion::Nothing => {}
            Completion::Unknown => return Ok(Witness::Unknown(Some(values))),
        }
    }
    Ok(Witness::Least(values))
}

/// The least values under which a cone's root is true. Tries a guess first, and earlier values.
/// Fails where memory is refused.
fn least_of(
    alloc: Global,
    cone: &Cone,
    guess: Vec<bool>,
    earlier: &[Vec<bool>],
    means: &mut Means,
) -> Result<Witness, AllocError>
    requires guess { length guess.items ≡ cone.now.positions }
    requires sound { IsSound cone.now.graph means.old.search }
    ensures { IfOk result (IsFoundOf cone.now.positions (holds_under cone.now.graph cone.now.root)) }
{
    let guess = means.trials.best_of(alloc, cone, guess, earlier)?;
    match complete(alloc, cone, &[], &guess, means)? {
        Completion::Found(values) => {
            means.see();
            let values = lesser_near(alloc, cone, values, earlier, &mut means.trials)?;
            least_from(alloc, cone, values, means)
        }
        Completion::Nothing => Ok(Witness::Never),
        Completion::Unknown => Ok(Witness::Unknown(None)),
    }
}

/// The least assignment under which a literal of a graph is true, in lexicographic order over the
/// target's variables, false before true, where every other variable is false; or that there is
/// none; or, where the conflicts are used up, an assignment under which it is true, if one was
/// seen.
///
/// `target` is the literal, with the variable of each position. Of a literal that depends on others
/// less may be found. `hints` are assignments that are tried first. `conflicts` are those that all
/// questions together may have: without any, nothing is found. Those that there were are taken
/// away, and at least one for each two thousand literals that were visited and nodes below the
/// literal. `work` is what may be done beside these conflicts: without any, nothing is found. What
/// was done is taken away, and may be more, since no search is given up for it. Its unit is a
/// literal visited, and 8,000 go with each conflict; a node below the literal takes 20. Time and
/// memory are in proportion to the conflicts, and to the nodes below the literal and the positions
/// times the positions. Fails where memory is refused.
pub fn least_witness(
    alloc: Global,
    graph: &Graph,
    target: &Target<'_>,
    hints: &Hints<'_>,
    conflicts: &mut u64,
    work: &mut u64,
) -> Result<Witness, AllocError>
    requires { IsWithin graph.now target.now.literal }
    ensures found { IfOk result (IsWitness graph.now target.now.literal target.now.variables.now) }
    ensures conflicts { conflicts.new ≤ conflicts.old }
    ensures work { work.new ≤ work.old }
    ensures spent { IfOk result (IsSpentOn work.old work.new) }
{
    if *conflicts == 0 || *work == 0 {
        return Ok(Witness::Unknown(None));
    }
    let Some(cone) = Cone::of(alloc, graph, target.literal, target.variables)? else {
        return Ok(Witness::Unknown(None));
    };
    let guess = values_told(alloc, target.variables, hints.seen)?;
    let given = budget_of(*conflicts, &cone);
    let mut means = Means {
        search: Search::new(alloc),
        given,
        budget: given,
        trials: Trials::new(alloc, &cone)?,
    };
    let found = least_of(alloc, &cone, guess, hints.earlier, &mut means);
    let nodes = cone.graph.len();
    *conflicts = conflicts_left(*conflicts, &means, nodes);
    *work = work.saturating_sub(work_beside(&means, nodes));
    found
}
