//! Diagrams on one thread, and what no clause says of them: that calls succeed where there is
//! memory, how deep an apply goes, and that it keeps results.
#![tactic(auto, using(eqc_tree::proofs::HoldingLemmas::counts_itself))]

ghost use Rattle.std.specs.Prelude.{◌≡◌, ◌<◌, ◌+◌, ◌↔◌, ℕ, Bool, IsTrue, true, OnErr, IfOk};
ghost use Rattle.eqc_tree.specs.Holding.{Entry, IsHeld, Gains, Loses, Keeps, copies, weight, says};
ghost use Rattle.eqc_tree.specs.Operation.{operate};

use crate::ends::same;
use eqc_plain::{NodeCount, Plain};
use eqc_tree::{Diagrams, Op, References, Stop};

/// The exclusive or by two operations.
fn exclusive_or<R, D: Diagrams<R>>(
    rt: &R,
    d: &mut D,
    x: &D::Ref,
    y: &D::Ref,
) -> Result<D::Ref, Stop>
    requires x { IsHeld (D.holding d.old) (D.entry x.now) }
    requires y { IsHeld (D.holding d.old) (D.entry y.now) }
    ensures ok { IfOk result (λ r. Gains (D.holding d.old) (D.holding d.new) (D.entry r) (λ a. operate Op.Xor (says (D.entry x.now) a) (says (D.entry y.now) a))) }
    ensures stop { OnErr result (Keeps (D.holding d.old) (D.holding d.new)) }
{
    let either = d.apply(rt, Op::Or, x, y)?;
    let both = match d.apply(rt, Op::And, x, y) {
        Ok(both) => both,
        Err(stop) => {
            d.give_back(either);
            return Err(stop);
        }
    };
    let one = d.apply(rt, Op::AndNot, &either, &both);
    d.give_back(either);
    d.give_back(both);
    one
}

/// Whether a function that was made is x; what was made is given back.
fn is_same<D: References>(d: &mut D, x: &D::Ref, made: D::Ref) -> bool
    requires x { IsHeld (D.holding d.old) (D.entry x.now) }
    requires made { IsHeld (D.holding d.old) (D.entry made) }
    ensures answer { IsTrue result ↔ ((a : ℕ → Bool) → says (D.entry x.now) a ≡ says (D.entry made) a) }
    ensures given { Loses (D.holding d.old) (D.holding d.new) (D.entry made) }
{
    let same = d.same(x, &made);
    d.give_back(made);
    same
}

/// Whether the exclusive or of x and y, made in two ways, is one function.
fn two_ways<R, D: Diagrams<R>>(rt: &R, d: &mut D, x: &D::Ref, y: &D::Ref) -> Result<bool, Stop>
    requires x { IsHeld (D.holding d.old) (D.entry x.now) }
    requires y { IsHeld (D.holding d.old) (D.entry y.now) }
    ensures answer { IfOk result (λ b. b ≡ true) }
    ensures kept { Keeps (D.holding d.old) (D.holding d.new) }
{
    let one = d.apply(rt, Op::Xor, x, y)?;
    let agree = match exclusive_or(rt, d, x, y) {
        Ok(other) => Ok(is_same(d, &one, other)),
        Err(stop) => Err(stop),
    };
    d.give_back(one);
    agree
}

/// The same for the first two variables.
fn agrees<R, D: Diagrams<R>>(rt: &R, d: &mut D) -> Result<bool, Stop>
    requires { 1 < (D.holding d.old).variables }
    ensures answer { IfOk result (λ b. b ≡ true) }
    ensures kept { Keeps (D.holding d.old) (D.holding d.new) }
{
    let x = d.literal(rt, 0)?;
    let y = match d.literal(rt, 1) {
        Ok(y) => y,
        Err(stop) => {
            d.give_back(x);
            return Err(stop);
        }
    };
    let agree = two_ways(rt, d, &x, &y);
    d.give_back(x);
    d.give_back(y);
    agree
}

/// An operation over all variables, made from the last one up.
fn all_of<R, D: Diagrams<R>>(
    rt: &R,
    d: &mut D,
    op: Op,
    unit: bool,
    vars: u16,
) -> Result<D::Ref, Stop>
    requires { vars < (D.holding d.old).variables + 1 }
    ensures ok { IfOk result (λ r. ((e : Entry) → copies (D.holding d.new) e ≡ copies (D.holding d.old) e + weight (D.entry r) e)) }
    ensures stop { OnErr result (Keeps (D.holding d.old) (D.holding d.new)) }
    ensures variables { (D.holding d.new).variables ≡ (D.holding d.old).variables }
{
    let mut all = d.constant(unit)?;
    for i in 0..vars {
        let x = match d.literal(rt, vars - 1 - i) {
            Ok(x) => x,
            Err(stop) => {
                d.give_back(all);
                return Err(stop);
            }
        };
        let more = d.apply(rt, op, &x, &all);
        d.give_back(x);
        d.give_back(all);
        all = more?;
    }
    Ok(all)
}

/// Makes the same, and gives it back.
fn makes_all_of<R, D: Diagrams<R>>(rt: &R, d: &mut D, op: Op, vars: u16) -> Result<(), Stop>
    requires { vars < (D.holding d.old).variables + 1 }
    ensures { Keeps (D.holding d.old) (D.holding d.new) }
{
    let all = all_of(rt, d, op, false, vars)?;
    d.give_back(all);
    Ok(())
}

/// What is handed to another thread can be, and can be let go.
fn hand_over<T: Send + Drop>(_d: T) {}

#[test]
fn two_ways_agree(rt: HostRuntime) {
    let mut d = Plain::new(rt.alloc(), 2, 100).expect(&rt, "memory");
    same(&rt, agrees(&rt, &mut d), Ok(true), "two ways");
    hand_over(d);
}

/// Two variables, the complement of the second, and one node each for the three operations on both.
#[test]
fn each_node_that_was_made_is_in_use(rt: HostRuntime) {
    let mut d = Plain::new(rt.alloc(), 2, 100).expect(&rt, "memory");
    same(&rt, d.nodes_in_use(), 0, "before the first");
    same(&rt, agrees(&rt, &mut d), Ok(true), "two ways");
    same(&rt, d.nodes_in_use(), 6, "all are given back");
}

/// Whether a variable is this function.
fn is_literal<R, D: Diagrams<R>>(rt: &R, d: &mut D, variable: u16, x: &D::Ref) -> Result<bool, Stop>
    requires variable { variable < (D.holding d.old).variables }
    requires held { IsHeld (D.holding d.old) (D.entry x.now) }
    ensures { Keeps (D.holding d.old) (D.holding d.new) }
{
    let y = d.literal(rt, variable)?;
    Ok(is_same(d, x, y))
}

/// Whether a copy is the same function.
fn is_copied<D: References>(d: &mut D, x: &D::Ref) -> Result<bool, Stop>
    requires { IsHeld (D.holding d.old) (D.entry x.now) }
    ensures { Keeps (D.holding d.old) (D.holding d.new) }
{
    let y = d.copy(x)?;
    Ok(is_same(d, x, y))
}

/// The value that is read of a constant.
fn constant_value<D: References>(d: &mut D, b: bool) -> Result<Option<bool>, Stop>
    ensures { Keeps (D.holding d.old) (D.holding d.new) }
{
    let constant = d.constant(b)?;
    let value = d.as_constant(&constant);
    d.give_back(constant);
    Ok(value)
}

/// Whether the choice between y and z by x is x, and the value that is read of it.
fn choice_of<R, D: Diagrams<R>>(
    rt: &R,
    d: &mut D,
    x: &D::Ref,
    y: &D::Ref,
    z: &D::Ref,
) -> Result<(bool, Option<bool>), Stop>
    requires x { IsHeld (D.holding d.old) (D.entry x.now) }
    requires y { IsHeld (D.holding d.old) (D.entry y.now) }
    requires z { IsHeld (D.holding d.old) (D.entry z.now) }
    ensures { Keeps (D.holding d.old) (D.holding d.new) }
{
    let choice = d.ite(rt, x, y, z)?;
    let found = (d.same(x, &choice), d.as_constant(&choice));
    d.give_back(choice);
    Ok(found)
}

/// Whether the choice between the constants by a function is that function, and the value that is
/// read of it.
fn choice<R, D: Diagrams<R>>(rt: &R, d: &mut D, x: &D::Ref) -> Result<(bool, Option<bool>), Stop>
    requires { IsHeld (D.holding d.old) (D.entry x.now) }
    ensures { Keeps (D.holding d.old) (D.holding d.new) }
{
    let yes = d.constant(true)?;
    let no = match d.constant(false) {
        Ok(no) => no,
        Err(stop) => {
            d.give_back(yes);
            return Err(stop);
        }
    };
    let found = choice_of(rt, d, x, &yes, &no);
    d.give_back(yes);
    d.give_back(no);
    found
}

#[test]
fn one_node_is_room_for_one_literal(rt: HostRuntime) {
    let mut d = Plain::new(rt.alloc(), 2, 1).expect(&rt, "memory");
    let x = d.literal(&rt, 0).expect(&rt, "one node");
    let other = is_literal(&rt, &mut d, 1, &x);
    same(&rt, other, Err(Stop::NodeLimit), "a second node");
    let again = is_literal(&rt, &mut d, 0, &x);
    same(&rt, again, Ok(true), "the same node");
    let found = choice(&rt, &mut d, &x);
    same(&rt, found, Ok((true, None)), "a choice by it");
    same(&rt, is_copied(&mut d, &x), Ok(true), "a copy");
    d.give_back(x);
    same(&rt, constant_value(&mut d, true), Ok(Some(true)), "true");
    same(&rt, constant_value(&mut d, false), Ok(Some(false)), "false");
}

/// The value that is read of the exclusive or of two functions of the first `vars` variables: that
/// all are true, and that some are.
fn mixed_value<R, D: Diagrams<R>>(rt: &R, d: &mut D, vars: u16) -> Result<Option<bool>, Stop>
    requires { vars < (D.holding d.old).variables + 1 }
    ensures { Keeps (D.holding d.old) (D.holding d.new) }
{
    let all = all_of(rt, d, Op::And, true, vars)?;
    let any = match all_of(rt, d, Op::Or, false, vars) {
        Ok(any) => any,
        Err(stop) => {
            d.give_back(all);
            return Err(stop);
        }
    };
    let mixed = d.apply(rt, Op::Xor, &all, &any);
    d.give_back(any);
    d.give_back(all);
    let mixed = mixed?;
    let value = d.as_constant(&mixed);
    d.give_back(mixed);
    Ok(value)
}

#[test]
fn an_apply_passes_all_variables(rt: HostRuntime) {
    let mut d = Plain::new(rt.alloc(), 65_535, 1_048_574).expect(&rt, "memory");
    same(&rt, mixed_value(&rt, &mut d, 65_535), Ok(None), "mixed");
}

/// How many turns operations may take beyond those that are free, and what comes of two functions
/// of 10,000 variables, whose exclusive or takes tens of thousands.
static ALLOWED: &[(&str, Option<u64>, Result<Option<bool>, Stop>)] = &[
    ("as many as they need", None, Ok(None)),
    ("a million", Some(1_000_000), Ok(None)),
    ("a thousand", Some(1_000), Err(Stop::NodeLimit)),
    ("none", Some(0), Err(Stop::NodeLimit)),
];

#[test]
fn an_apply_ends_with_the_turns_that_are_allowed(rt: HostRuntime) {
    for (row, turns, wanted) in ALLOWED {
        let mut d = Plain::with_turns(rt.alloc(), 10_000, 1_048_574, *turns).expect(&rt, "memory");
        same(&rt, mixed_value(&rt, &mut d, 10_000), *wanted, *row);
        same(&rt, agrees(&rt, &mut d), Ok(true), "small operations");
    }
}

/// Whether a reference stays what it is while diagrams over 40 variables are made, and how the
/// making ends.
fn holds_through<R, D: Diagrams<R>>(rt: &R, d: &mut D) -> Result<(bool, Result<(), Stop>), Stop>
    requires { 39 < (D.holding d.old).variables }
    ensures { Keeps (D.holding d.old) (D.holding d.new) }
{
    let x = d.literal(rt, 0)?;
    let again = match d.copy(&x) {
        Ok(again) => again,
        Err(stop) => {
            d.give_back(x);
            return Err(stop);
        }
    };
    let tried = makes_all_of(rt, d, Op::Xor, 40);
    let stays = d.same(&x, &again) && d.as_constant(&x).is_none();
    d.give_back(again);
    d.give_back(x);
    Ok((stays, tried))
}

/// Run with each allocation refused in turn, by `rt try --test --fail-alloc N`: what is held stays,
/// and the next try succeeds.
#[test]
fn a_refusal_keeps_what_is_held(rt: HostRuntime) {
    let Ok(mut d) = Plain::new(rt.alloc(), 40, 10_000) else {
        return;
    };
    match holds_through(&rt, &mut d) {
        Ok((stays, Ok(()))) => same(&rt, stays, true, "it stays"),
        Ok((stays, Err(stop))) => {
            same(&rt, stays, true, "it stays where memory was refused");
            same(&rt, stop, Stop::Memory, "the stop");
            let again = holds_through(&rt, &mut d);
            same(&rt, again, Ok((true, Ok(()))), "the next try");
        }
        Err(stop) => same(&rt, stop, Stop::Memory, "the first stop"),
    }
}

/// Whether an operation gives one function in both orders of its operands.
fn commutes<R, D: Diagrams<R>>(
    rt: &R,
    d: &mut D,
    op: Op,
    x: &D::Ref,
    y: &D::Ref,
) -> Result<bool, Stop>
    requires x { IsHeld (D.holding d.old) (D.entry x.now) }
    requires y { IsHeld (D.holding d.old) (D.entry y.now) }
    ensures { Keeps (D.holding d.old) (D.holding d.new) }
{
    let one = d.apply(rt, op, x, y)?;
    let agree = match d.apply(rt, op, y, x) {
        Ok(other) => Ok(is_same(d, &one, other)),
        Err(stop) => Err(stop),
    };
    d.give_back(one);
    agree
}

/// Whether the operations that commute give one function in both orders of these operands, and the
/// other one doesn't; and whether the exclusive or, made in two ways, is one function.
fn keeps_results_apart<R, D: Diagrams<R>>(
    rt: &R,
    d: &mut D,
    x: &D::Ref,
    y: &D::Ref,
) -> Result<bool, Stop>
    requires x { IsHeld (D.holding d.old) (D.entry x.now) }
    requires y { IsHeld (D.holding d.old) (D.entry y.now) }
    ensures { Keeps (D.holding d.old) (D.holding d.new) }
{
    let and = commutes(rt, d, Op::And, x, y)?;
    let or = commutes(rt, d, Op::Or, x, y)?;
    let xor = commutes(rt, d, Op::Xor, x, y)?;
    let and_not = commutes(rt, d, Op::AndNot, x, y)?;
    let agree = two_ways(rt, d, x, y)?;
    Ok(and && or && xor && !and_not && agree)
}

/// The same for the parities of the first 40 and of the first 39 variables.
fn keeps_parities_apart<R, D: Diagrams<R>>(rt: &R, d: &mut D) -> Result<bool, Stop>
    requires { 39 < (D.holding d.old).variables }
    ensures { Keeps (D.holding d.old) (D.holding d.new) }
{
    let x = all_of(rt, d, Op::Xor, false, 40)?;
    let y = match all_of(rt, d, Op::Xor, false, 39) {
        Ok(y) => y,
        Err(stop) => {
            d.give_back(x);
            return Err(stop);
        }
    };
    let apart = keeps_results_apart(rt, d, &x, &y);
    d.give_back(x);
    d.give_back(y);
    apart
}

/// The halves of two parities meet again on each level: an apply that finds no kept result makes
/// some 2^39 steps, and one that finds the result of another operation, or of operands in the wrong
/// order, answers another function.
#[test]
fn a_kept_result_is_found(rt: HostRuntime) {
    let mut d = Plain::new(rt.alloc(), 40, 10_000).expect(&rt, "memory");
    same(&rt, keeps_parities_apart(&rt, &mut d), Ok(true), "parities");
}
