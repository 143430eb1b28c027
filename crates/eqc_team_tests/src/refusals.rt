//! Members of a team to whom memory is refused once: each call has its result or want of memory,
//! and its result the next time, and nothing is left when the forest is closed.
ghost use Rattle.std.specs.Prelude.{◌≡◌, vec_len};
ghost use Rattle.eqc_apply.specs.Teaming.{IsTeam, forest_of};

use crate::builders::{Builder, lead_of, next};
use crate::ends::same;
use crate::teams::majority;
use eqc_apply::{Applier, team};
use eqc_tree::Stop;
use std::process::Abort;
use std::sync::Wait;
use std::thread::{Threads, join_mut};

/// The majority of the first three variables, in a second try where memory was refused in the
/// first.
fn majority_at_last(rt: &(impl Abort + Wait), builder: &mut Builder) -> Result<usize, Stop>
    ensures { forest_of builder.new.member ≡ forest_of builder.old.member }
{
    match majority(rt, builder) {
        Err(Stop::Memory) => {
            builder.give_all_back(rt);
            majority(rt, builder)
        }
        made => made,
    }
}

/// Whether there is memory for the place of one more reference, in a second try where it was
/// refused in the first.
fn has_place_at_last(builder: &mut Builder) -> bool
    ensures { forest_of builder.new.member ≡ forest_of builder.old.member }
{
    builder.has_place() || builder.has_place()
}

/// The majorities of two members at once.
fn two_majorities<R: Threads + Sync + Abort + Wait>(
    rt: &R,
    a: &mut Builder,
    b: &mut Builder,
) -> (Result<usize, Stop>, Result<usize, Stop>)
    ensures first { forest_of a.new.member ≡ forest_of a.old.member }
    ensures second { forest_of b.new.member ≡ forest_of b.old.member }
{
    join_mut(
        rt,
        &mut || majority_at_last(rt, a),
        &mut || majority_at_last(rt, b),
    )
}

/// Two members of a new team, who build one function.
fn two_build_one<R: Threads + Sync + Abort + Wait + AllocGlobal>(rt: &R, members: Vec<Applier>)
    requires team { IsTeam 3 100 64 2 members.items }
    requires two { vec_len members ≡ 2 }
{
    let (mut lead, mut waiting) = lead_of(rt, 3, members);
    let mut second = next(rt, &lead, &mut waiting);
    let found = two_majorities(rt, &mut lead, &mut second);
    same(rt, found, (Ok(0), Ok(0)), "the majorities");
    same(rt, has_place_at_last(&mut lead), true, "a place");
    let place = lead.absorb(rt, second);
    same(rt, lead.is_same(rt, 0, place), true, "one function");
    same(rt, lead.close(rt), 0, "close");
}

/// Run with each request for memory refused in turn, by `rt try --test --fail-alloc N`, or by
/// `scripts/dev/refuse_memory majorities`.
#[test]
fn two_members_build_one_majority_at_last(rt: HostRuntime) {
    match team(rt.alloc(), 3, 100, 64, 2, 0) {
        Ok(members) => two_build_one(&rt, members),
        Err(stop) => same(&rt, stop, Stop::Memory, "the team"),
    }
}
