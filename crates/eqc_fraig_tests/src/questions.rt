//! Questions to the search, whose answers were worked out by hand: that it refutes what can't be,
//! that the assignments that it finds are right, and that it keeps within its budget.

use crate::ends::same;
use crate::graphs::{ADDER, NO_CARRY, NO_MAJORITY, SUM, X, Y, Z, graph_of, value_of, values_of};
use eqc_cdcl::{Answer, Budget, Decides, Search};
use eqc_xag::{Graph, Node};
use std::alloc::{AllocError, Global};
use std::process::Abort;

/// The parity of seven variables, from the first one on and from the last one on.
const PARITIES: &[Node] = &[
    Node::Input(0),
    Node::Input(1),
    Node::Input(2),
    Node::Input(3),
    Node::Input(4),
    Node::Input(5),
    Node::Input(6),
    Node::Xor(2, 4),
    Node::Xor(16, 6),
    Node::Xor(18, 8),
    Node::Xor(20, 10),
    Node::Xor(22, 12),
    Node::Xor(24, 14),
    Node::Xor(14, 12),
    Node::Xor(28, 10),
    Node::Xor(30, 8),
    Node::Xor(32, 6),
    Node::Xor(34, 4),
    Node::Xor(36, 2),
];

/// Both parities.
const FORTH: u32 = 26;

const BACK: u32 = 38;

/// A case: its name, the graph's nodes, and assumptions.
type Case = (&'static str, &'static [Node], &'static [u32]);

/// Assumptions that can't be true together.
#[rattlefmt::skip]
static REFUTED: &[Case] = &[
    ("false", ADDER, &[0]),
    ("a variable and its complement", ADDER, &[X, 3]),
    ("an and without its operand", ADDER, &[12, 3]),
    ("a carry without a majority", ADDER, &[17, NO_MAJORITY]),
    ("a majority without a carry", ADDER, &[NO_CARRY, 25]),
    ("a sum and a carry, but for one variable", ADDER, &[SUM, 17, 7]),
    ("parities that differ", PARITIES, &[FORTH, 39]),
    ("parities that differ the other way", PARITIES, &[27, BACK]),
];

/// Assumptions that can.
#[rattlefmt::skip]
static SATISFIED: &[Case] = &[
    ("nothing", ADDER, &[]),
    ("true", ADDER, &[1]),
    ("a variable", ADDER, &[X]),
    ("an and and its operands", ADDER, &[X, Y, 12]),
    ("a sum and a carry, of which all are true", ADDER, &[SUM, 17]),
    ("a carry without a sum", ADDER, &[11, 17]),
    ("no carry, but a sum", ADDER, &[NO_CARRY, NO_MAJORITY, SUM, 3]),
    ("parities that agree", PARITIES, &[FORTH, BACK]),
    ("parities that agree on nothing", PARITIES, &[27, 39]),
];

/// So much is enough.
const MUCH: Budget = Budget {
    conflicts: 10_000,
    visits: 100_000_000,
    work: 1_000_000_000,
    growth: 8,
    ordered_from: u64::MAX,
    decides: Decides::NeededAndMet,
};

/// Whether all assumptions are true under an assignment of nodes' values, in which the others are
/// false.
fn are_true(
    alloc: Global,
    graph: &Graph,
    assumptions: &[u32],
    model: &[(u32, bool)],
) -> Result<bool, AllocError> {
    let mut variables = vec![in alloc; false; 7]?;
    for (node, value) in model {
        // The variable of node 1 is 0, and so on.
        if let Some(variable) = node.checked_sub(1) {
            if let Some(there) = variables.get_mut(variable as usize) {
                *there = *value;
            }
        }
    }
    let values = values_of(alloc, graph, &variables)?;
    for literal in assumptions {
        if !value_of(&values, *literal) {
            return Ok(false);
        }
    }
    Ok(true)
}

/// What a search answers, and whether its assignment makes the assumptions true.
fn answer(
    rt: &(impl Abort + AllocGlobal),
    search: &mut Search,
    nodes: &[Node],
    assumptions: &[u32],
    budget: &mut Budget,
) -> Result<(Answer, bool), AllocError> {
    let graph = graph_of(rt, nodes)?;
    let answer = search.ask(&graph, assumptions, budget)?;
    let right = are_true(rt.alloc(), &graph, assumptions, search.model())?;
    Ok((answer, right))
}

/// One search answers all of these.
fn check_answers(
    rt: &(impl Abort + AllocGlobal),
    search: &mut Search,
    cases: &[Case],
    wanted: (Answer, bool),
) {
    for (case, nodes, assumptions) in cases {
        let mut budget = MUCH;
        let found = answer(rt, search, nodes, assumptions, &mut budget);
        same(rt, found, Ok(wanted), case);
    }
}

#[test]
fn what_can_not_be_is_refuted_and_the_rest_satisfied(rt: HostRuntime) {
    let mut search = Search::new(rt.alloc());
    check_answers(&rt, &mut search, REFUTED, (Answer::Refuted, false));
    check_answers(&rt, &mut search, SATISFIED, (Answer::Satisfied, true));
    check_answers(&rt, &mut search, REFUTED, (Answer::Refuted, false));
}

/// What a search answers of the parities with this budget, and what is left of it.
fn answer_within(
    rt: &(impl Abort + AllocGlobal),
    search: &mut Search,
    budget: Budget,
) -> Result<(Answer, Budget), AllocError> {
    let mut left = budget;
    let (found, _) = answer(rt, search, PARITIES, &[FORTH, 39], &mut left)?;
    Ok((found, left))
}

/// Budgets that are too small: the conflicts are used up, or the visits, or the work.
static SMALL: &[Budget] = &[
    Budget {
        conflicts: 0,
        ..MUCH
    },
    Budget {
        conflicts: 3,
        ..MUCH
    },
    Budget { visits: 1, ..MUCH },
    Budget { work: 1, ..MUCH },
];

#[test]
fn a_search_gives_up_when_its_budget_is_used_up(rt: HostRuntime) {
    let mut search = Search::new(rt.alloc());
    for budget in SMALL {
        let found = match answer_within(&rt, &mut search, *budget) {
            Ok((Answer::GaveUp, left)) => {
                left.conflicts == 0 || left.visits == 0 || left.work == 0
            }
            _ => false,
        };
        same(&rt, found, true, budget.conflicts);
    }
}

#[test]
fn a_search_takes_what_it_spends_from_its_budget(rt: HostRuntime) {
    let mut search = Search::new(rt.alloc());
    let found = match answer_within(&rt, &mut search, MUCH) {
        Ok((Answer::Refuted, left)) => {
            let visits = MUCH.visits.saturating_sub(left.visits);
            let work = MUCH.work.saturating_sub(left.work);
            left.conflicts < MUCH.conflicts && visits > 0 && work > visits
        }
        _ => false,
    };
    same(&rt, found, true, "the parities");
}

/// What one search answers of the parities anew, again, and where they agree, with the conflicts of
/// the first two answers.
fn answers_again(
    graph: &Graph,
    search: &mut Search,
) -> Result<([Answer; 3], [u64; 2]), AllocError> {
    let mut first = MUCH;
    let mut second = MUCH;
    let mut third = MUCH;
    let answers = [
        search.ask(graph, &[FORTH, 39], &mut first)?,
        search.ask_again(graph, &[FORTH, 39], &mut second)?,
        search.ask_again(graph, &[FORTH, BACK], &mut third)?,
    ];
    let conflicts = [
        MUCH.conflicts.saturating_sub(first.conflicts),
        MUCH.conflicts.saturating_sub(second.conflicts),
    ];
    Ok((answers, conflicts))
}

/// It has fewer conflicts where it is asked again, and its last assignment is right. It stands
/// apart for its proof's sake: the graph and the search are let go in one exit.
fn check_learning(
    rt: &(impl Abort + AllocGlobal),
    graph: &Graph,
    search: &mut Search,
) -> Result<(), AllocError> {
    let (answers, conflicts) = answers_again(graph, search)?;
    let wanted = [Answer::Refuted, Answer::Refuted, Answer::Satisfied];
    same(rt, answers, wanted, "anew, again, and where they agree");
    same(rt, conflicts[1] < conflicts[0], true, "fewer conflicts");
    let right = are_true(rt.alloc(), graph, &[FORTH, BACK], search.model())?;
    same(rt, right, true, "the assignment");
    Ok(())
}

#[test]
fn what_was_learned_helps_with_the_next_question(rt: HostRuntime) -> Result<(), AllocError> {
    let graph = graph_of(&rt, PARITIES)?;
    let mut search = Search::new(rt.alloc());
    check_learning(&rt, &graph, &mut search)
}

/// The values of the first two variables in what a search finds where not both may be true, and a
/// decision on each begins with this value. What it leaves open is false.
fn preferred(
    graph: &Graph,
    search: &mut Search,
    x: bool,
    y: bool,
) -> Result<(bool, bool), AllocError> {
    let mut budget = MUCH;
    search.prefer(1, x)?;
    search.prefer(2, y)?;
    search.ask(graph, &[13], &mut budget)?;
    let mut found = (false, false);
    for (node, value) in search.model() {
        match *node {
            1 => found.0 = *value,
            2 => found.1 = *value,
            _ => {}
        }
    }
    Ok(found)
}

#[test]
fn a_decision_begins_with_the_value_that_is_preferred(rt: HostRuntime) -> Result<(), AllocError> {
    let graph = graph_of(&rt, ADDER)?;
    let mut search = Search::new(rt.alloc());
    // The second one is decided first. The other one follows from it, or isn't needed.
    for (x, y) in [(false, false), (true, false), (true, true), (false, true)] {
        let found = preferred(&graph, &mut search, x, y);
        same(&rt, found, Ok((false, y)), "not both");
    }
    Ok(())
}
