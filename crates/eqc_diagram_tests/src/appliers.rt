//! Appliers of one forest in threads of their own: that calls on them succeed.
#![tactic(auto, using(eqc_tree::proofs::HoldingLemmas::counts_itself))]

ghost use Rattle.std.specs.Prelude.{◌≡◌, ◌<◌, ◌+◌, ℕ, OnErr, IfOk};
ghost use Rattle.eqc_tree.specs.Holding.{Entry, IsHeld, IsNew, Keeps, copies, weight};
ghost use Rattle.std.specs.List.{All};

use crate::ends::same;
use eqc_apply::{Applier, team};
use eqc_tree::{Diagrams, Op, References, Stop};
use std::process::Abort;
use std::thread::join_mut;

/// Whether x, or both y and z.
fn either_or_both<R, D: Diagrams<R>>(
    rt: &R,
    d: &mut D,
    x: &D::Ref,
    y: &D::Ref,
    z: &D::Ref,
) -> Result<D::Ref, Stop>
    requires x { IsHeld (D.holding d.old) (D.entry x.now) }
    requires y { IsHeld (D.holding d.old) (D.entry y.now) }
    requires z { IsHeld (D.holding d.old) (D.entry z.now) }
    ensures ok { IfOk result (λ r. ((e : Entry) → copies (D.holding d.new) e ≡ copies (D.holding d.old) e + weight (D.entry r) e)) }
    ensures stop { OnErr result (Keeps (D.holding d.old) (D.holding d.new)) }
    ensures variables { (D.holding d.new).variables ≡ (D.holding d.old).variables }
{
    let both = d.apply(rt, Op::And, y, z)?;
    let either = d.apply(rt, Op::Or, x, &both);
    d.give_back(both);
    either
}

/// The majority of three functions: x and y, or z and one of them.
fn majority_of<R, D: Diagrams<R>>(
    rt: &R,
    d: &mut D,
    x: &D::Ref,
    y: &D::Ref,
    z: &D::Ref,
) -> Result<D::Ref, Stop>
    requires x { IsHeld (D.holding d.old) (D.entry x.now) }
    requires y { IsHeld (D.holding d.old) (D.entry y.now) }
    requires z { IsHeld (D.holding d.old) (D.entry z.now) }
    ensures ok { IfOk result (λ r. ((e : Entry) → copies (D.holding d.new) e ≡ copies (D.holding d.old) e + weight (D.entry r) e)) }
    ensures stop { OnErr result (Keeps (D.holding d.old) (D.holding d.new)) }
    ensures variables { (D.holding d.new).variables ≡ (D.holding d.old).variables }
{
    let both = d.apply(rt, Op::And, x, y)?;
    let one = match d.apply(rt, Op::Or, x, y) {
        Ok(one) => one,
        Err(stop) => {
            d.give_back(both);
            return Err(stop);
        }
    };
    let majority = either_or_both(rt, d, &both, &one, z);
    d.give_back(both);
    d.give_back(one);
    majority
}

/// The majority of a function and of the variables 1 and 2.
fn majority_with<R, D: Diagrams<R>>(rt: &R, d: &mut D, x: &D::Ref) -> Result<D::Ref, Stop>
    requires variables { 2 < (D.holding d.old).variables }
    requires x { IsHeld (D.holding d.old) (D.entry x.now) }
    ensures ok { IfOk result (λ r. ((e : Entry) → copies (D.holding d.new) e ≡ copies (D.holding d.old) e + weight (D.entry r) e)) }
    ensures stop { OnErr result (Keeps (D.holding d.old) (D.holding d.new)) }
    ensures variables { (D.holding d.new).variables ≡ (D.holding d.old).variables }
{
    let y = d.literal(rt, 1)?;
    let z = match d.literal(rt, 2) {
        Ok(z) => z,
        Err(stop) => {
            d.give_back(y);
            return Err(stop);
        }
    };
    let majority = majority_of(rt, d, x, &y, &z);
    d.give_back(y);
    d.give_back(z);
    majority
}

/// The majority of the first three variables.
fn majority<R, D: Diagrams<R>>(rt: &R, d: &mut D) -> Result<D::Ref, Stop>
    requires { 2 < (D.holding d.old).variables }
    ensures ok { IfOk result (λ r. ((e : Entry) → copies (D.holding d.new) e ≡ copies (D.holding d.old) e + weight (D.entry r) e)) }
    ensures stop { OnErr result (Keeps (D.holding d.old) (D.holding d.new)) }
    ensures variables { (D.holding d.new).variables ≡ (D.holding d.old).variables }
{
    let x = d.literal(rt, 0)?;
    let majority = majority_with(rt, d, &x);
    d.give_back(x);
    majority
}

/// Whether a member builds the majority of its variables twice as one function.
fn builds_one<R, D: Diagrams<R>>(rt: &R, d: &mut D) -> Result<bool, Stop>
    requires { 2 < (D.holding d.old).variables }
    ensures { Keeps (D.holding d.old) (D.holding d.new) }
{
    let one = majority(rt, d)?;
    let other = match majority(rt, d) {
        Ok(other) => other,
        Err(stop) => {
            d.give_back(one);
            return Err(stop);
        }
    };
    let alike = d.same(&one, &other);
    d.give_back(one);
    d.give_back(other);
    Ok(alike)
}

/// Two new members of a team, which have three variables.
fn two_members(rt: &(impl Abort + AllocGlobal)) -> Vec<Applier>
    ensures { All (λ a. IsNew 3 (⟦<Applier as References>⟧.holding a)) result.items }
{
    match team(rt.alloc(), 3, 100, 64, 2, 0) {
        Ok(members) => members,
        Err(_) => panic!(rt; "there is no memory"),
    }
}

/// The last of these members, which are new and have three variables.
fn last(rt: &impl Abort, members: &mut Vec<Applier>) -> Applier
    requires { All (λ a. IsNew 3 (⟦<Applier as References>⟧.holding a)) members.old.items }
    ensures rest { All (λ a. IsNew 3 (⟦<Applier as References>⟧.holding a)) members.new.items }
    ensures three { IsNew 3 (⟦<Applier as References>⟧.holding result) }
{
    match members.pop() {
        Some(member) => member,
        None => panic!(rt; "there is another member"),
    }
}

#[test]
fn two_members_build_at_once(rt: HostRuntime) {
    let mut members = two_members(&rt);
    let mut second = last(&rt, &mut members);
    let mut first = last(&rt, &mut members);
    let (one, other) = join_mut(
        &rt,
        &mut || builds_one(&rt, &mut first),
        &mut || builds_one(&rt, &mut second),
    );
    same(&rt, one, Ok(true), "the first member");
    same(&rt, other, Ok(true), "the second member");
    same(
        &rt,
        first.close(&rt).is_err(),
        true,
        "the second member is out",
    );
}
