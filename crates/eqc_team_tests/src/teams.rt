//! Members of a team, alone and in threads of their own: that what they built is taken in, and that
//! the forest is closed then with nothing left.
ghost use Rattle.std.specs.Prelude.{◌≡◌};
ghost use Rattle.eqc_apply.specs.Teaming.{forest_of};

use crate::builders::{Builder, Wanted, first, next};
use crate::ends::same;
use eqc_tree::{Op, Stop};
use std::process::Abort;
use std::sync::Wait;
use std::thread::join_mut;

/// Makes what there is room for, and tells its place.
fn place_of(rt: &(impl Abort + Wait), builder: &mut Builder, wanted: Wanted) -> usize
    ensures { forest_of builder.new.member ≡ forest_of builder.old.member }
{
    match builder.make(rt, wanted) {
        Ok(place) => place,
        Err(_) => panic!(rt; "there is room"),
    }
}

#[test]
fn a_lone_member_builds_and_closes(rt: HostRuntime) {
    let (mut lone, _) = first(&rt, 3, 100, 64, 1, 16);
    let x = place_of(&rt, &mut lone, Wanted::Literal(0));
    let y = place_of(&rt, &mut lone, Wanted::Literal(1));
    let no = place_of(&rt, &mut lone, Wanted::Constant(false));
    let both = place_of(&rt, &mut lone, Wanted::Applied(Op::And, x, y));
    let chosen = place_of(&rt, &mut lone, Wanted::Chosen(x, y, no));
    let copied = place_of(&rt, &mut lone, Wanted::Copied(both));
    same(&rt, lone.is_same(&rt, both, chosen), true, "two ways");
    same(&rt, lone.is_same(&rt, both, copied), true, "a copy");
    same(&rt, lone.is_same(&rt, both, x), false, "the first");
    same(&rt, lone.is_same(&rt, both, y), false, "the second");
    same(&rt, lone.close(&rt), 0, "close");
}

/// Both variables and their conjunction are nodes that it holds.
#[test]
fn a_member_tells_of_its_nodes_at_least(rt: HostRuntime) {
    let (mut lone, _) = first(&rt, 3, 100, 64, 1, 0);
    same(&rt, lone.nodes_in_use(), 0, "before the first");
    let x = place_of(&rt, &mut lone, Wanted::Literal(0));
    let y = place_of(&rt, &mut lone, Wanted::Literal(1));
    place_of(&rt, &mut lone, Wanted::Applied(Op::And, x, y));
    let nodes = lone.nodes_in_use();
    same(
        &rt,
        nodes >= 3 && nodes <= 100,
        true,
        "three nodes of a hundred",
    );
    same(&rt, lone.close(&rt), 0, "close");
}

#[test]
fn a_result_that_was_just_made_is_compared_in_a_cell(rt: HostRuntime) {
    let (mut lone, _) = first(&rt, 2, 8, 8, 1, 0);
    let x = place_of(&rt, &mut lone, Wanted::Literal(0));
    let y = place_of(&rt, &mut lone, Wanted::Literal(1));
    let r = place_of(&rt, &mut lone, Wanted::Applied(Op::And, x, y));
    let is = lone.cached_is(&rt, Op::And, x, y, r);
    same(&rt, is, Some(true), "the result");
    let is = lone.cached_is(&rt, Op::And, x, y, x);
    same(&rt, is, Some(false), "an operand");
    let is = lone.cached_is(&rt, Op::Xor, x, y, r);
    same(&rt, is, None, "nobody asked for it");
    same(&rt, lone.close(&rt), 0, "close");
}

/// The conjunction has its node by other operations too: by the exclusive or of a disjunction and
/// an exclusive or, none of which asks for it.
#[test]
fn a_result_of_another_member_is_compared_in_a_shared_cell(rt: HostRuntime) {
    let (mut lead, mut waiting) = first(&rt, 2, 8, 8, 2, 0);
    let mut second = next(&rt, &lead, &mut waiting);
    place_of(&rt, &mut lead, Wanted::Literal(0));
    place_of(&rt, &mut lead, Wanted::Literal(1));
    place_of(&rt, &mut second, Wanted::Literal(0));
    place_of(&rt, &mut second, Wanted::Literal(1));
    let either = place_of(&rt, &mut second, Wanted::Applied(Op::Or, 0, 1));
    let one = place_of(&rt, &mut second, Wanted::Applied(Op::Xor, 0, 1));
    let both = place_of(&rt, &mut second, Wanted::Applied(Op::Xor, either, one));
    let is = second.cached_is(&rt, Op::And, 0, 1, both);
    same(&rt, is, None, "before it is made");
    place_of(&rt, &mut lead, Wanted::Applied(Op::And, 0, 1));
    let is = second.cached_is(&rt, Op::And, 0, 1, 0);
    same(&rt, is, Some(false), "an operand");
    let is = second.cached_is(&rt, Op::And, 0, 1, both);
    same(&rt, is, Some(true), "the result");
    lead.absorb(&rt, second);
    same(&rt, lead.close(&rt), 0, "close");
}

/// The exclusive or of these variables, from the first one on, of which the result alone stays: at
/// the place that is told.
pub fn parity(
    rt: &(impl Abort + Wait),
    builder: &mut Builder,
    variables: &[u16],
) -> Result<usize, Stop>
    ensures { forest_of builder.new.member ≡ forest_of builder.old.member }
{
    let all = builder.make(rt, Wanted::Constant(false))?;
    for variable in variables {
        let next = builder.make(rt, Wanted::Literal(*variable))?;
        builder.make(rt, Wanted::Applied(Op::Xor, next, all))?;
        builder.give_back(rt, all);
        builder.give_back(rt, next);
    }
    Ok(all)
}

#[test]
fn a_member_takes_in_what_another_one_built(rt: HostRuntime) {
    let (mut lead, mut waiting) = first(&rt, 3, 100, 64, 2, 0);
    let mut second = next(&rt, &lead, &mut waiting);
    let (all, others) = join_mut(
        &rt,
        &mut || parity(&rt, &mut lead, &[0, 1, 2]),
        &mut || (
            parity(&rt, &mut second, &[1, 2, 0]),
            parity(&rt, &mut second, &[1, 2]),
        ),
    );
    same(&rt, all, Ok(0), "all variables");
    same(&rt, others, (Ok(0), Ok(1)), "all again, and two");
    let mut lead = lead.is_refused(&rt);
    same(&rt, parity(&rt, &mut lead, &[2, 1]), Ok(1), "it goes on");
    let place = lead.absorb(&rt, second);
    same(&rt, place, 2, "behind two references");
    same(&rt, lead.is_same(&rt, 0, 2), true, "all variables");
    same(&rt, lead.is_same(&rt, 1, 3), true, "two variables");
    same(&rt, lead.is_same(&rt, 0, 3), false, "all and two");
    same(&rt, lead.is_same(&rt, 1, 2), false, "two and all");
    same(&rt, lead.close(&rt), 0, "close");
}

/// The majority of the first three variables, whose reference alone stays: at the place that is
/// told.
pub fn majority(rt: &(impl Abort + Wait), builder: &mut Builder) -> Result<usize, Stop>
    ensures { forest_of builder.new.member ≡ forest_of builder.old.member }
{
    let x = builder.make(rt, Wanted::Literal(0))?;
    let y = builder.make(rt, Wanted::Literal(1))?;
    let z = builder.make(rt, Wanted::Literal(2))?;
    let either = builder.make(rt, Wanted::Applied(Op::Or, y, z))?;
    let both = builder.make(rt, Wanted::Applied(Op::And, y, z))?;
    builder.make(rt, Wanted::Chosen(x, either, both))?;
    // It comes to the place of the first one.
    builder.give_back(rt, x);
    builder.give_back_from(rt, y);
    Ok(x)
}

#[test]
fn two_members_build_one_majority(rt: HostRuntime) {
    let (mut lead, mut waiting) = first(&rt, 3, 100, 64, 2, 0);
    let mut second = next(&rt, &lead, &mut waiting);
    let (one, other) = join_mut(
        &rt,
        &mut || majority(&rt, &mut lead),
        &mut || majority(&rt, &mut second),
    );
    same(&rt, (one, other), (Ok(0), Ok(0)), "the majorities");
    let place = lead.absorb(&rt, second);
    same(&rt, lead.count(), 2, "nothing else is held");
    same(&rt, lead.is_same(&rt, 0, place), true, "one function");
    same(&rt, lead.close(&rt), 0, "close");
}

/// What is made behind a majority, whether that is given back, and how many slots have a count
/// above 0 when the forest is closed then.
#[rattlefmt::skip]
static HELD: &[(&str, &[Wanted], bool, u32)] = &[
    ("nothing", &[], true, 0),
    ("a constant", &[Wanted::Constant(true)], true, 0),
    ("a variable", &[Wanted::Literal(2)], true, 1),
    ("two variables", &[Wanted::Literal(0), Wanted::Literal(2)], true, 2),
    ("a majority", &[], false, 4),
    ("a majority, twice", &[Wanted::Copied(0)], false, 4),
    ("a majority, and its last variable", &[Wanted::Literal(2)], false, 4),
    ("a majority, and its first variable", &[Wanted::Literal(0)], false, 5),
];

#[test]
fn a_forest_is_closed_with_references_held(rt: HostRuntime) {
    for (row, wanted, is_given_back, counted) in HELD {
        let (mut lone, _) = first(&rt, 3, 100, 64, 1, 0);
        same(&rt, majority(&rt, &mut lone), Ok(0), *row);
        for one in *wanted {
            place_of(&rt, &mut lone, *one);
        }
        if *is_given_back {
            lone.give_back(&rt, 0);
        }
        same(&rt, lone.close_holding(&rt), *counted, *row);
    }
}
