//! Graphs in which equal nodes are one: which gates get a literal that is there, and what is found
//! of two literals.
ghost use Rattle.std.specs.Prelude.{IfOk};
ghost use Rattle.eqc_xag.specs.Graph.{IsWithin, Extends};

use crate::ends::same;
use eqc_sweep::{Comparison, Effort, Random, Sweep, Twins, below, copied, copy, no_copies};
use eqc_xag::{Graph, negated};
use std::alloc::{AllocError, Global};
use std::process::Abort;
use std::thread::Threads;

/// A graph that a test owns. It stands here for the sake of proofs: a call in each exit in place of
/// all that is let go.
pub(crate) struct Owned {
    pub(crate) sweep: Sweep,
}

impl Drop for Owned {
    fn drop(self) {
        let Owned { sweep: _ } = self;
    }
}

/// A new graph.
pub(crate) fn new_sweep(alloc: Global, effort: Effort) -> Result<Owned, AllocError> {
    let sweep = Sweep::new(alloc, effort)?;
    Ok(Owned { sweep })
}

/// What is found of two literals.
#[derive(Clone, Copy, PartialEq, Eq, Debug)]
enum Found {
    /// They are equal.
    Equal,
    /// They differ under an assignment, and whether they do.
    Apart(bool),
    Unknown,
}

/// Whether just one of these variables is true in an assignment, or three, and so on.
fn is_odd(variables: &[u32], model: &[(u32, bool)]) -> bool {
    let mut odd = false;
    for (variable, value) in model {
        if *value && variables.contains(variable) {
            odd = !odd;
        }
    }
    odd
}

/// Whether an odd number of these variables is true.
pub(crate) fn parity(sweep: &mut Sweep, variables: &[u32]) -> Result<u32, AllocError>
    ensures within { IfOk result (λ l. IsWithin sweep.new l) }
    ensures extends { Extends sweep.old sweep.new }
{
    let mut sum = sweep.constant(false);
    for variable in variables {
        let next = sweep.input(*variable)?;
        sum = sweep.xor(sum, next)?;
    }
    Ok(sum)
}

/// Whether one of two literals is true.
fn either(sweep: &mut Sweep, x: u32, y: u32) -> Result<u32, AllocError>
    requires x { IsWithin sweep.old x }
    requires y { IsWithin sweep.old y }
    ensures within { IfOk result (λ l. IsWithin sweep.new l) }
    ensures extends { Extends sweep.old sweep.new }
{
    let neither = sweep.and(negated(x), negated(y))?;
    Ok(negated(neither))
}

/// The variables of parities, and the same but for one.
const FORTH: &[u32] = &[0, 1, 2, 3, 4, 5, 6];

const BACK: &[u32] = &[6, 5, 4, 3, 2, 1, 0];

const WITHOUT_ONE: &[u32] = &[6, 5, 4, 2, 1, 0];

/// How much is done to find nodes equal.
fn effort(asks: bool) -> Effort {
    if asks {
        Effort::of(3_000, 100_000_000)
    } else {
        Effort::none()
    }
}

/// Whether two parities have one literal, and what is found of them with so many conflicts.
fn parities(
    sweep: &mut Sweep,
    first: &[u32],
    second: &[u32],
    conflicts: u64,
) -> Result<(bool, Found), AllocError> {
    let x = parity(sweep, first)?;
    let y = parity(sweep, second)?;
    let mut left = conflicts;
    let found = match sweep.equal(x, y, &mut left)? {
        Comparison::Equal => Found::Equal,
        Comparison::Differs(model) => Found::Apart(is_odd(first, &model) != is_odd(second, &model)),
        Comparison::Unknown => Found::Unknown,
    };
    Ok((x == y, found))
}

/// Parities: whether new nodes are asked about, the variables of both, conflicts, whether they have
/// one literal, and what is found.
#[rattlefmt::skip]
static PARITIES: &[(&str, bool, &[u32], &[u32], u64, bool, Found)] = &[
    ("made alike", false, FORTH, FORTH, 0, true, Found::Equal),
    ("another order, by a search", false, FORTH, BACK, 10_000, false, Found::Equal),
    ("another order, without a conflict", false, FORTH, BACK, 0, false, Found::Unknown),
    ("another order, as it is made", true, FORTH, BACK, 0, true, Found::Equal),
    ("one variable less, by a search", false, FORTH, WITHOUT_ONE, 10_000, false, Found::Apart(true)),
    ("one variable less, by simulation", true, FORTH, WITHOUT_ONE, 0, false, Found::Apart(true)),
    ("no variable", true, &[], &[], 0, true, Found::Equal),
];

#[test]
fn parities_are_told_apart_or_equal(rt: HostRuntime) -> Result<(), AllocError> {
    for (case, asks, first, second, conflicts, one, found) in PARITIES {
        let mut made = new_sweep(rt.alloc(), effort(*asks))?;
        let tried = parities(&mut made.sweep, first, second, *conflicts);
        same(&rt, tried, Ok((*one, *found)), case);
    }
    Ok(())
}

/// Three parities, of which the second has another variable less: by how many threads each is asked
/// about beside that of all, with how many conflicts, and which are found equal.
#[rattlefmt::skip]
static TWINS: &[(&str, u32, u64, &[usize])] = &[
    ("one thread", 1, 10_000, &[0, 2]),
    ("four threads", 4, 10_000, &[0, 2]),
    ("without a conflict", 4, 0, &[]),
];

/// The parity of all variables beside others.
fn put_twins(sweep: &mut Sweep, twins: &mut Vec<Twins>) -> Result<(), AllocError> {
    for (place, second) in [BACK, WITHOUT_ONE, BACK].iter().enumerate() {
        let x = parity(sweep, FORTH)?;
        let y = parity(sweep, second)?;
        twins.push(Twins {
            place,
            x,
            y,
            used: 0,
        })?;
    }
    Ok(())
}

/// The places of twins.
fn places_of(alloc: Global, twins: &[Twins]) -> Result<Vec<usize>, AllocError> {
    let mut places = Vec::new(alloc);
    for found in twins {
        places.push(found.place)?;
    }
    Ok(places)
}

/// The places of the parities that are found equal to that of all variables, in a graph that has
/// none yet.
fn equal_twins<R: Threads + Sync>(
    rt: &R,
    alloc: Global,
    sweep: &mut Sweep,
    conflicts: u64,
) -> Result<Vec<usize>, AllocError> {
    let mut twins = Vec::new(alloc);
    put_twins(sweep, &mut twins)?;
    let equal = sweep.equal_among(rt, &twins, conflicts)?;
    places_of(alloc, &equal)
}

#[test]
fn twins_are_found_equal_side_by_side(rt: HostRuntime) -> Result<(), AllocError> {
    for (case, threads, conflicts, places) in TWINS {
        let mut made = new_sweep(rt.alloc(), Effort::none().by(*threads))?;
        let found = equal_twins(&rt, rt.alloc(), &mut made.sweep, *conflicts)?;
        same(&rt, found.as_slice(), *places, case);
    }
    Ok(())
}

#[test]
fn nothing_is_asked_any_more(rt: HostRuntime) -> Result<(), AllocError> {
    let mut made = new_sweep(rt.alloc(), Effort::of(3_000, 100_000_000))?;
    made.sweep.ask_no_more();
    let tried = parities(&mut made.sweep, FORTH, BACK, 10_000);
    same(&rt, tried, Ok((false, Found::Equal)), "another order");
    Ok(())
}

#[tactic(auto, using(eqc_xag::proofs::GraphLemmas::extends_along))]
/// Whether x and y are true, or z and what is true where some are.
fn carried(sweep: &mut Sweep, x: u32, y: u32, z: u32, some: u32) -> Result<u32, AllocError>
    requires x { IsWithin sweep.old x }
    requires y { IsWithin sweep.old y }
    requires z { IsWithin sweep.old z }
    requires some { IsWithin sweep.old some }
    ensures within { IfOk result (λ l. IsWithin sweep.new l) }
    ensures extends { Extends sweep.old sweep.new }
{
    let both = sweep.and(x, y)?;
    let passed = sweep.and(z, some)?;
    either(sweep, both, passed)
}

#[tactic(auto, using(eqc_xag::proofs::GraphLemmas::extends_along))]
/// The carry of x, y and z, by their exclusive or.
fn carry(sweep: &mut Sweep, x: u32, y: u32, z: u32) -> Result<u32, AllocError>
    requires x { IsWithin sweep.old x }
    requires y { IsWithin sweep.old y }
    requires z { IsWithin sweep.old z }
    ensures within { IfOk result (λ l. IsWithin sweep.new l) }
    ensures extends { Extends sweep.old sweep.new }
{
    let some = sweep.xor(x, y)?;
    carried(sweep, x, y, z, some)
}

#[tactic(auto, using(eqc_xag::proofs::GraphLemmas::extends_along))]
/// The majority of x, y and z, by their disjunction.
fn majority(sweep: &mut Sweep, x: u32, y: u32, z: u32) -> Result<u32, AllocError>
    requires x { IsWithin sweep.old x }
    requires y { IsWithin sweep.old y }
    requires z { IsWithin sweep.old z }
    ensures within { IfOk result (λ l. IsWithin sweep.new l) }
    ensures extends { Extends sweep.old sweep.new }
{
    let some = either(sweep, x, y)?;
    carried(sweep, x, y, z, some)
}

/// Whether a carry and a majority have one literal, and whether they are found equal.
fn carries(sweep: &mut Sweep) -> Result<(bool, bool), AllocError> {
    let x = sweep.input(0)?;
    let y = sweep.input(1)?;
    let z = sweep.input(2)?;
    let carry = carry(sweep, x, y, z)?;
    let majority = majority(sweep, x, y, z)?;
    let mut conflicts = 1_000;
    let found = sweep.equal(carry, majority, &mut conflicts)?;
    Ok((carry == majority, matches!(found, Comparison::Equal)))
}

#[test]
fn a_carry_is_a_majority(rt: HostRuntime) -> Result<(), AllocError> {
    for asks in [false, true] {
        let mut made = new_sweep(rt.alloc(), effort(asks))?;
        same(&rt, carries(&mut made.sweep), Ok((asks, true)), asks);
    }
    Ok(())
}

/// The first words of two generators, worked out apart.
static WORDS: &[(u64, [u64; 2])] = &[
    (0, [0x7403_D1A2_8C9A_2599, 0xDD70_F339_AB8E_CB5E]),
    (1, [0xE807_A345_1934_4B32, 0xF4E1_E673_571D_96BC]),
];

#[test]
fn words_are_the_same_in_each_run(rt: HostRuntime) {
    for (number, words) in WORDS {
        let mut random = Random::numbered(*number);
        same(&rt, [random.next(), random.next()], *words, number);
    }
}

/// Whether gates of two variables are known that are made again, or in another form.
fn are_known(sweep: &mut Sweep) -> Result<[bool; 3], AllocError> {
    let x = sweep.input(0)?;
    let y = sweep.input(1)?;
    let both = sweep.and(x, y)?;
    let swapped = sweep.and(y, x)?;
    let differ = sweep.xor(x, y)?;
    let agree = sweep.xor(x, negated(y))?;
    Ok([both == swapped, differ == negated(agree), both != differ])
}

/// Whether gates of a variable with itself, with its complement and with a constant are constants
/// or the variable.
fn are_plain(sweep: &mut Sweep) -> Result<[bool; 4], AllocError> {
    let x = sweep.input(1)?;
    let itself = sweep.and(x, x)?;
    let never = sweep.and(x, negated(x))?;
    let always = sweep.xor(x, negated(x))?;
    let with_true = sweep.and(sweep.constant(true), x)?;
    Ok([
        itself == x,
        never == sweep.constant(false),
        always == sweep.constant(true),
        with_true == x,
    ])
}

/// Whether a variable has one literal, and another one has another.
fn have_one(sweep: &mut Sweep) -> Result<bool, AllocError> {
    let x = sweep.input(0)?;
    let y = sweep.input(1)?;
    let again = sweep.input(0)?;
    Ok(x == again && x != y)
}

#[test]
fn what_is_made_again_has_one_literal(rt: HostRuntime) -> Result<(), AllocError> {
    let mut made = new_sweep(rt.alloc(), Effort::none())?;
    same(&rt, are_known(&mut made.sweep), Ok([true; 3]), "gates");
    same(
        &rt,
        are_plain(&mut made.sweep),
        Ok([true; 4]),
        "plain gates",
    );
    same(&rt, have_one(&mut made.sweep), Ok(true), "variables");
    Ok(())
}

/// A carry and a majority, and two parities.
fn carries_and_parities(sweep: &mut Sweep) -> Result<[u32; 4], AllocError> {
    let x = sweep.input(7)?;
    let y = sweep.input(8)?;
    let z = sweep.input(9)?;
    let carry = carry(sweep, x, y, z)?;
    let majority = majority(sweep, x, y, z)?;
    Ok([carry, majority, parity(sweep, FORTH)?, parity(sweep, BACK)?])
}

/// Whether of four literals of a graph the first two have one literal in a copy of it, and whether
/// the others have.
fn copied_alike<R: Threads + Sync>(
    rt: &R,
    alloc: Global,
    graph: &Graph,
    literals: [u32; 4],
    sweep: &mut Sweep,
) -> Result<(bool, bool), AllocError> {
    let marks = below(alloc, graph, &literals)?;
    let mut table = no_copies(alloc, graph)?;
    let told = |_entered: u32| {};
    copy(rt, graph, &marks, sweep, &mut table, &told)?;
    Ok((
        copied(&table, literals[0]) == copied(&table, literals[1]),
        copied(&table, literals[2]) == copied(&table, literals[3]),
    ))
}

/// The same of a carry and a majority, and of two parities, in a copy of their graph by so many
/// threads, and how many nodes there are.
fn copies<R: Threads + Sync>(
    rt: &R,
    alloc: Global,
    workers: u32,
) -> Result<(bool, bool, u32), AllocError> {
    let mut plain = new_sweep(alloc, Effort::none())?;
    let literals = carries_and_parities(&mut plain.sweep)?;
    let mut made = new_sweep(alloc, effort(true).by(workers))?;
    let graph = plain.sweep.graph();
    let (carries, parities) = copied_alike(rt, alloc, graph, literals, &mut made.sweep)?;
    Ok((carries, parities, made.sweep.graph().len()))
}

#[test]
fn copies_are_the_same_by_any_number_of_threads(rt: HostRuntime) -> Result<(), AllocError> {
    let alone = copies(&rt, rt.alloc(), 1)?;
    same(&rt, (alone.0, alone.1), (true, true), "by one");
    for workers in [2, 3, 4, 16] {
        same(&rt, copies(&rt, rt.alloc(), workers), Ok(alone), workers);
    }
    Ok(())
}
