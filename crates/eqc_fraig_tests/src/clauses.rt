//! Clauses of a full adder that hints show, and those that they don't, worked out by hand.
ghost use Rattle.std.specs.Prelude.{IfOk};
ghost use Rattle.eqc_rup.specs.Clauses.{IsSound};

use crate::ends::same;
use crate::graphs::{ADDER, NO_CARRY, X, Y, graph_of};
use eqc_rup::Hint::{Clause, Gate};
use eqc_rup::{Clauses, Hint, Marks};
use eqc_xag::Graph;
use std::alloc::AllocError;
use std::process::Abort;

/// The conjunction of the first two variables, whether just one of them is true, and whether that
/// is so and the third one is true.
const BOTH: u32 = 12;

const DIFFER: u32 = 8;

const PASSED: u32 = 14;

/// A case: its name, the literals of a clause or of assumptions, and hints.
type Case = (&'static str, &'static [u32], &'static [Hint]);

/// Where neither of the first two variables is true, they aren't both, they don't differ, nothing
/// is passed, and so there is no carry.
#[rattlefmt::skip]
const NEITHER: &[Hint] = &[Gate { node: 6, side: 0 }, Gate { node: 4, side: 0 }, Gate { node: 7, side: 0 }, Gate { node: 8, side: 2 }];

/// Clauses that are shown.
#[rattlefmt::skip]
static SHOWN: &[Case] = &[
    ("the first operand of an and", &[13, X], &[Gate { node: 6, side: 0 }]),
    ("the second operand of an and", &[13, Y], &[Gate { node: 6, side: 1 }]),
    ("an and of its operands", &[BOTH, 3, 5], &[Gate { node: 6, side: 2 }]),
    ("an xor where neither is true", &[9, X, Y], &[Gate { node: 4, side: 0 }]),
    ("an xor where the first is true", &[DIFFER, 3, Y], &[Gate { node: 4, side: 1 }]),
    ("an xor where the second is true", &[DIFFER, X, 5], &[Gate { node: 4, side: 2 }]),
    ("an xor where both are true", &[9, 3, 5], &[Gate { node: 4, side: 3 }]),
    ("the constant", &[1], &[Gate { node: 0, side: 0 }]),
    ("more literals than are needed", &[13, Y, X], &[Gate { node: 6, side: 0 }]),
    ("by four gates", &[NO_CARRY, X, Y], NEITHER),
];

/// Clauses that are not shown.
#[rattlefmt::skip]
static REFUSED: &[Case] = &[
    ("no hint", &[13, X], &[]),
    ("another side", &[13, X], &[Gate { node: 6, side: 1 }]),
    ("no such side", &[13, X], &[Gate { node: 6, side: 3 }]),
    ("no such side of an xor", &[9, X, Y], &[Gate { node: 4, side: 4 }]),
    ("no such node", &[13, X], &[Gate { node: 13, side: 0 }]),
    ("a node that is no gate", &[13, X], &[Gate { node: 1, side: 0 }]),
    ("no such clause", &[13, X], &[Clause(0)]),
    ("hints that come too early", &[NO_CARRY, X, Y], &[Gate { node: 8, side: 2 }, Gate { node: 6, side: 0 }, Gate { node: 4, side: 0 }, Gate { node: 7, side: 0 }]),
    ("a hint that is lacking", &[NO_CARRY, X, Y], &[Gate { node: 6, side: 0 }, Gate { node: 4, side: 0 }, Gate { node: 8, side: 2 }]),
    ("no literal", &[], &[Gate { node: 0, side: 0 }]),
    ("a literal that the graph doesn't have", &[13, X, 26], &[Gate { node: 6, side: 0 }]),
    ("a variable, which may be false", &[X], &[Gate { node: 6, side: 0 }, Gate { node: 6, side: 1 }, Gate { node: 6, side: 2 }]),
    ("the complement of an and", &[BOTH, X], &[Gate { node: 6, side: 0 }]),
    ("an xor that is an or", &[DIFFER, 3, 5], &[Gate { node: 4, side: 3 }]),
    ("a carry where one variable is true", &[17, 3, Y], NEITHER),
    ("false", &[0], &[Gate { node: 0, side: 0 }]),
];

/// The number under which an empty store learns a clause, and how many numbers it has given then.
fn learned(
    rt: &(impl Abort + AllocGlobal),
    clause: &[u32],
    hints: &[Hint],
) -> Result<(Option<u32>, usize), AllocError> {
    let graph = graph_of(rt, ADDER)?;
    let mut clauses = Clauses::new(rt.alloc());
    let mut marks = Marks::new(rt.alloc());
    let number = clauses.learn(&graph, clause, hints, &mut marks)?;
    Ok((number, clauses.len()))
}

#[test]
fn a_clause_that_hints_show_is_learned(rt: HostRuntime) {
    for (case, clause, hints) in SHOWN {
        same(&rt, learned(&rt, clause, hints), Ok((Some(0), 1)), case);
    }
}

#[test]
fn a_clause_that_hints_do_not_show_is_refused(rt: HostRuntime) {
    for (case, clause, hints) in REFUSED {
        same(&rt, learned(&rt, clause, hints), Ok((None, 0)), case);
    }
}

/// Assumptions that are refuted.
#[rattlefmt::skip]
static REFUTED: &[Case] = &[
    ("an and without its operand", &[BOTH, 3], &[Gate { node: 6, side: 0 }]),
    ("a carry of nothing", &[17, 3, 5], NEITHER),
    ("false", &[0], &[Gate { node: 0, side: 0 }]),
    ("more than can't be", &[X, BOTH, 5, 7], &[Gate { node: 6, side: 1 }]),
];

/// Assumptions that are not.
#[rattlefmt::skip]
static STANDING: &[Case] = &[
    ("no hint", &[BOTH, 3], &[]),
    ("another side", &[BOTH, 3], &[Gate { node: 6, side: 1 }]),
    ("no such node", &[BOTH, 3], &[Gate { node: 13, side: 0 }]),
    ("no such clause", &[BOTH, 3], &[Clause(0)]),
    ("an and with its operand", &[BOTH, X], &[Gate { node: 6, side: 0 }, Gate { node: 6, side: 1 }]),
    ("no carry of nothing", &[NO_CARRY, 3, 5], NEITHER),
    ("true", &[1], &[Gate { node: 0, side: 0 }]),
    ("no assumption", &[], NEITHER),
];

/// Whether an empty store refutes assumptions.
fn refuted(
    rt: &(impl Abort + AllocGlobal),
    assumptions: &[u32],
    hints: &[Hint],
) -> Result<bool, AllocError> {
    let graph = graph_of(rt, ADDER)?;
    let clauses = Clauses::new(rt.alloc());
    let mut marks = Marks::new(rt.alloc());
    clauses.refutes(&graph, assumptions, hints, &mut marks)
}

#[test]
fn assumptions_that_hints_contradict_are_refuted(rt: HostRuntime) {
    for (case, assumptions, hints) in REFUTED {
        same(&rt, refuted(&rt, assumptions, hints), Ok(true), case);
    }
}

#[test]
fn assumptions_that_hints_do_not_contradict_are_not_refuted(rt: HostRuntime) {
    for (case, assumptions, hints) in STANDING {
        same(&rt, refuted(&rt, assumptions, hints), Ok(false), case);
    }
}

/// What a store is to do: learn a clause, refute assumptions, or give the clause with a number up.
#[derive(Clone, Copy)]
enum Turn {
    Learn(&'static [u32], &'static [Hint]),
    Refute(&'static [u32], &'static [Hint]),
    GiveUp(u32),
}

/// What it tells: the number of what it learned, or of how many literals the clause with the number
/// is that it gave up, and whether it was shown.
type Told = (bool, u32);

/// What a store tells of one thing that it is to do.
fn told(
    graph: &Graph,
    clauses: &mut Clauses,
    marks: &mut Marks,
    turn: Turn,
) -> Result<Told, AllocError>
    requires { IsSound graph.now clauses.old }
    ensures { IsSound graph.now clauses.new }
{
    match turn {
        Turn::Learn(clause, hints) => match clauses.learn(graph, clause, hints, marks)? {
            Some(number) => Ok((clauses.clause(number) == clause, number)),
            None => Ok((false, 0)),
        },
        Turn::Refute(assumptions, hints) => {
            Ok((clauses.refutes(graph, assumptions, hints, marks)?, 0))
        }
        Turn::GiveUp(number) => {
            clauses.give_up(number);
            Ok((clauses.clause(number).is_empty(), number))
        }
    }
}

/// By clauses that were learned before, nothing is carried where neither of the first two variables
/// is true.
const BY_CLAUSES: &[Hint] = &[Clause(0), Clause(1), Clause(2), Gate { node: 8, side: 2 }];

/// What one store does in turn, and what it tells.
#[rattlefmt::skip]
static TURNS: &[(Turn, Told)] = &[
    (Turn::Learn(&[13, X], &[Gate { node: 6, side: 0 }]), (true, 0)),
    (Turn::Learn(&[9, X, Y], &[Gate { node: 4, side: 0 }]), (true, 1)),
    (Turn::Learn(&[NO_CARRY, X, Y], BY_CLAUSES), (false, 0)),
    (Turn::Learn(&[15, DIFFER], &[Gate { node: 7, side: 0 }]), (true, 2)),
    (Turn::Refute(&[17, 3, 5], BY_CLAUSES), (true, 0)),
    (Turn::Refute(&[17, 3], BY_CLAUSES), (false, 0)),
    (Turn::Learn(&[NO_CARRY, X, Y], BY_CLAUSES), (true, 3)),
    (Turn::Refute(&[17, 3, 5], &[Clause(3)]), (true, 0)),
    (Turn::GiveUp(1), (true, 1)),
    (Turn::Learn(&[NO_CARRY, X, Y], BY_CLAUSES), (false, 0)),
    (Turn::Refute(&[PASSED, 9], &[Clause(2)]), (true, 0)),
    (Turn::Learn(&[13, Y], &[Gate { node: 6, side: 1 }]), (true, 1)),
];

#[test]
fn learned_clauses_are_hints_until_they_are_given_up(rt: HostRuntime) -> Result<(), AllocError> {
    let graph = graph_of(&rt, ADDER)?;
    let mut clauses = Clauses::new(rt.alloc());
    let mut marks = Marks::new(rt.alloc());
    for (turn, wanted) in TURNS {
        same(
            &rt,
            told(&graph, &mut clauses, &mut marks, *turn),
            Ok(*wanted),
            wanted.1,
        );
    }
    clauses.clear();
    same(&rt, clauses.len(), 0, "cleared");
    Ok(())
}
