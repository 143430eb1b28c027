//! Operations that members of a team share: what one offers another one does, and the result is the
//! same.
ghost use Rattle.std.specs.Prelude.{◌≡◌};
ghost use Rattle.eqc_apply.specs.Teaming.{forest_of};

use crate::builders::{Builder, Wanted, first, next};
use crate::ends::same;
use eqc_tree::{Op, Stop};
use std::process::Abort;
use std::sync::Wait;
use std::thread::{Threads, join_mut};

/// How many variables the functions have.
const VARIABLES: u16 = 10;

/// How often a member without work asks for an operation to do.
const ASKS: u32 = 2_000;

/// In how many rounds one has to come.
const ROUNDS: u32 = 100;

/// The exclusive or of the conjunctions of each variable with the one so many places behind it.
fn mixed(rt: &(impl Abort + Wait), builder: &mut Builder, apart: u16) -> Result<usize, Stop>
    ensures { forest_of builder.new.member ≡ forest_of builder.old.member }
{
    let all = builder.make(rt, Wanted::Constant(false))?;
    for variable in 0..VARIABLES {
        let x = builder.make(rt, Wanted::Literal(variable))?;
        let other = variable.wrapping_add(apart) % VARIABLES;
        let y = builder.make(rt, Wanted::Literal(other))?;
        let both = builder.make(rt, Wanted::Applied(Op::And, x, y))?;
        builder.make(rt, Wanted::Applied(Op::Xor, all, both))?;
        // The sum comes to the place of the sum before it.
        builder.give_back(rt, all);
        builder.give_back(rt, both);
        builder.give_back(rt, y);
        builder.give_back(rt, x);
    }
    Ok(all)
}

/// Whether the exclusive or of two such functions is what their disjunction has beyond their
/// conjunction.
fn is_sum(rt: &(impl Abort + Wait), builder: &mut Builder, apart: u16) -> Result<bool, Stop>
    ensures { forest_of builder.new.member ≡ forest_of builder.old.member }
{
    let f = mixed(rt, builder, apart)?;
    let g = mixed(rt, builder, apart.wrapping_add(1))?;
    let both = builder.make(rt, Wanted::Applied(Op::And, f, g))?;
    let either = builder.make(rt, Wanted::Applied(Op::Or, f, g))?;
    let one = builder.make(rt, Wanted::Applied(Op::Xor, f, g))?;
    let beyond = builder.make(rt, Wanted::Applied(Op::AndNot, either, both))?;
    let is = builder.is_same(rt, one, beyond);
    builder.give_all_back(rt);
    Ok(is)
}

/// Whether it is so for several pairs of functions.
fn are_sums(rt: &(impl Abort + Wait), builder: &mut Builder) -> Result<bool, Stop>
    ensures { forest_of builder.new.member ≡ forest_of builder.old.member }
{
    for apart in 1..8u16 {
        if !is_sum(rt, builder, apart)? {
            return Ok(false);
        }
    }
    Ok(true)
}

/// Asks for an operation to do, and tells whether one came.
fn serves(rt: &(impl Abort + Wait), builder: &mut Builder) -> bool
    ensures { forest_of builder.new.member ≡ forest_of builder.old.member }
{
    for _ in 0..ASKS {
        if builder.serve(rt) {
            return true;
        }
    }
    false
}

/// Whether a member that has nothing to do does an operation of another one, whose results are
/// right.
fn is_shared<R: Threads + Sync + Abort + Wait + AllocGlobal>(rt: &R) -> bool {
    let (mut lead, mut waiting) = first(rt, VARIABLES, 5_000, 1, 2, 16);
    let mut other = next(rt, &lead, &mut waiting);
    let (right, served) = join_mut(
        rt,
        &mut || are_sums(rt, &mut lead),
        &mut || serves(rt, &mut other),
    );
    same(rt, right, Ok(true), "the sums");
    lead.absorb(rt, other);
    same(rt, lead.close(rt), 0, "close");
    served
}

#[test]
fn an_operation_is_done_by_another_member(rt: HostRuntime) {
    for _ in 0..ROUNDS {
        if is_shared(&rt) {
            return;
        }
    }
    panic!(rt; "no operation came");
}
