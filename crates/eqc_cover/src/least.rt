//! The least assignment under which a function is true, from the diagrams' nodes or by applies to
//! blocks of variables.
ghost use Rattle.std.specs.Prelude.{◌≡◌, ◌≢◌, ◌↔◌, ℕ, ◌<◌, ◌≤◌, ◌++◌, ◌&&◌, Bool, false, not, length, replicate, IsTrue, IfOk, IfErr, OnOk, OnErr};
ghost use Rattle.std.specs.List.{All, find, list_any};
ghost use Rattle.eqc_tree.specs.Holding.{IsHeld, says, Keeps, Loses};
ghost use Rattle.eqc_tree.specs.Assigned.{assigned, AreDistinct, DependsOnlyOn, IsSatisfiable, assignments};
ghost use Rattle.eqc_cover.specs.Making.{Makes};
ghost use Rattle.eqc_cover.specs.Narrowing.{HasLeast, IsLeastOf, Replaces, IsNarrowed, decided, IsNextLength};

use crate::making::joined;
use eqc_tree::{Diagrams, Op, References, Stop};
use std::alloc::{AllocError, Global};

/// Whether a function is false under each assignment.
pub fn is_false<D: References>(d: &D, f: &D::Ref) -> bool
    requires { IsHeld (D.holding d.now) (D.entry f.now) }
    ensures { IsTrue result ↔ ((a : ℕ → Bool) → says (D.entry f.now) a ≡ false) }
{
    d.as_constant(f) == Some(false)
}

/// The function that is true where one of these variables is: the disjunction of its two halves, so
/// that the order of the variables doesn't matter.
fn one_of<R, D: Diagrams<R>>(rt: &R, d: &mut D, variables: &[u16]) -> Result<D::Ref, Stop>
    requires { All (λ v. v < (D.holding d.old).variables) variables.now }
    ensures { Makes D.entry (D.holding d.old) (D.holding d.new) result (λ a. list_any a variables.now) }
{
    match variables {
        [] => return d.constant(false),
        [variable] => return d.literal(rt, *variable),
        _ => {}
    }
    let (some, others) = variables.split_at(variables.len() / 2);
    let front = one_of(rt, d, some)?;
    let back = one_of(rt, d, others);
    joined(rt, d, Op::Or, front, back)
}

/// A function where none of these variables is true.
fn without<R, D: Diagrams<R>>(
    rt: &R,
    d: &mut D,
    f: &D::Ref,
    variables: &[u16],
) -> Result<D::Ref, Stop>
    requires held { IsHeld (D.holding d.old) (D.entry f.now) }
    requires within { All (λ v. v < (D.holding d.old).variables) variables.now }
    ensures { Makes D.entry (D.holding d.old) (D.holding d.new) result (λ a. says (D.entry f.now) a && not (list_any a variables.now)) }
{
    let one = one_of(rt, d, variables)?;
    let low = d.apply(rt, Op::AndNot, f, &one);
    d.give_back(one);
    low
}

/// Whether a function is satisfiable where all of these variables are false, and then what is left
/// of it there, else the function. Its reference is given back where it is not the same one.
fn narrowed<R, D: Diagrams<R>>(
    rt: &R,
    d: &mut D,
    rest: D::Ref,
    variables: &[u16],
) -> Result<(bool, D::Ref), Stop>
    requires held { IsHeld (D.holding d.old) (D.entry rest) }
    requires within { All (λ v. v < (D.holding d.old).variables) variables.now }
    ensures replaced { IfOk result (λ left. Replaces (D.holding d.old) (D.holding d.new) (D.entry rest) (D.entry left.1)) }
    ensures narrowed { IfOk result (λ left. IsNarrowed left.0 variables.now (says (D.entry rest)) (says (D.entry left.1))) }
    ensures stop { OnErr result (Loses (D.holding d.old) (D.holding d.new) (D.entry rest)) }
    ensures only { IfErr result (λ s. s ≢ Stop.Threads) }
{
    let low = match without(rt, d, &rest, variables) {
        Ok(low) => low,
        Err(stop) => {
            d.give_back(rest);
            return Err(stop);
        }
    };
    if is_false(d, &low) {
        d.give_back(low);
        return Ok((false, rest));
    }
    d.give_back(rest);
    Ok((true, low))
}

/// Puts a value behind others, so many times. Fails where memory is refused.
fn push_times(values: &mut Vec<bool>, value: bool, count: usize) -> Result<(), AllocError>
    ensures { OnOk result (values.new.items ≡ values.old.items ++ replicate count value) }
{
    'values: for _k in 0..count {
        values.push(value)?;
    }
    Ok(())
}

/// The length of the next block: at most `longest`, and at most that of the positions that are
/// left.
fn block_length(longest: usize, left: usize) -> usize
    ensures longest { result ≤ longest }
    ensures left { result ≤ left }
    ensures some { 0 < longest → 0 < left → 0 < result }
{
    if longest < left { longest } else { left }
}

/// Puts the values that the try of a block of this length decides behind others, and answers how
/// long the next block may be. Fails where memory is refused.
fn decide(values: &mut Vec<bool>, narrows: bool, length: usize) -> Result<usize, AllocError>
    requires { 0 < length }
    ensures values { OnOk result (values.new.items ≡ values.old.items ++ decided narrows length) }
    ensures next { IfOk result (IsNextLength narrows length) }
{
    if narrows {
        push_times(values, false, length)?;
        return Ok(length.saturating_mul(2));
    }
    if length == 1 {
        push_times(values, true, 1)?;
        return Ok(1);
    }
    Ok(length / 2)
}

/// The least assignment as `least_over` finds it, by applies alone.
///
/// Blocks of positions are tried at false at once: the next is twice as long where that leaves the
/// function satisfiable, and half as long where it doesn't, down to one position, which then is
/// true. So what is decided is not put into the function position by position.
fn by_blocks<R, D: Diagrams<R>>(
    alloc: Global,
    rt: &R,
    d: &mut D,
    variables: &[u16],
    f: &D::Ref,
) -> Result<Vec<bool>, Stop>
    requires { HasLeast (D.holding d.old) variables.now (D.entry f.now) }
    ensures least { IfOk result (λ least. IsLeastOf variables.now (says (D.entry f.now)) least.items) }
    ensures kept { Keeps (D.holding d.old) (D.holding d.new) }
    ensures only { IfErr result (λ s. s ≢ Stop.Threads) }
{
    let mut values = Vec::with_capacity(alloc, variables.len())?;
    let mut rest = d.copy(f)?;
    let mut longest = 1;
    'tries: while values.len() < variables.len() {
        let undecided = &variables[values.len()..];
        let block = &undecided[..block_length(longest, undecided.len())];
        let (narrows, left) = narrowed(rt, d, rest, block)?;
        rest = left;
        match decide(&mut values, narrows, block.len()) {
            Ok(next) => longest = next,
            Err(_) => {
                d.give_back(rest);
                return Err(Stop::Memory);
            }
        }
    }
    d.give_back(rest);
    Ok(values)
}

/// The least assignment under which a function is true, in lexicographic order over the positions,
/// false before true. `variables` gives the variable of each position; the order of the variables
/// plays no part. Where the diagrams can't tell it from their nodes, it is found by applies.
///
/// `f` has to be true under some assignment, and to depend on no variable but these, of which none
/// may stand twice. The errors are those of the diagrams, and `Memory` where there is no
/// memory for the assignment. All references are given back, whatever the answer.
pub fn least_over<R, D: Diagrams<R>>(
    alloc: Global,
    rt: &R,
    d: &mut D,
    variables: &[u16],
    f: &D::Ref,
) -> Result<Vec<bool>, Stop>
    requires held { IsHeld (D.holding d.old) (D.entry f.now) }
    requires within { All (λ v. v < (D.holding d.old).variables) variables.now }
    requires distinct { AreDistinct variables.now }
    requires satisfiable { IsSatisfiable (says (D.entry f.now)) }
    requires depends { DependsOnlyOn variables.now (says (D.entry f.now)) }
    ensures least { IfOk result (λ least. Some least.items ≡ find (λ values. says (D.entry f.now) (assigned variables.now values)) (assignments (length variables.now))) }
    ensures kept { Keeps (D.holding d.old) (D.holding d.new) }
    ensures only { IfErr result (λ s. s ≢ Stop.Threads) }
{
    match d.least(rt, alloc, variables, f)? {
        Some(values) => Ok(values),
        None => by_blocks(alloc, rt, d, variables, f),
    }
}
