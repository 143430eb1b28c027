//! Members that share a seat, before they draw.
ghost use Rattle.std.specs.Prelude.{◌≡◌, ◌+◌, ◌≤◌, vec_len, IfOk};
ghost use Rattle.eqc_parallel.specs.Verdicts.{AreSeated};

use crate::ticket::{Drawer, Words, halve};
use eqc_pair::Pair;
use eqc_tree::{References, Stop};

/// Members with one seat, by the number of the first and their diagrams.
#[derive(Drop)]
pub(crate) struct Group<D: Drop> {
    pub worker: u32,
    pub seat: Drawer,
    pub members: Vec<D>,
}

/// The halves of a group of several members of a pair's comparison. Fails where memory is refused.
pub(crate) fn halves<D: References + Drop>(
    words: &Words,
    pair: &Pair<'_>,
    group: Group<D>,
) -> Result<(Group<D>, Group<D>), Stop>
    requires seated { AreSeated D.holding pair.now words.now.table_id words.now.key group.seat group.worker group.members }
    requires several { 2 ≤ vec_len group.members }
    ensures front { IfOk result (λ h. AreSeated D.holding pair.now words.now.table_id words.now.key h.0.seat h.0.worker h.0.members) }
    ensures back { IfOk result (λ h. AreSeated D.holding pair.now words.now.table_id words.now.key h.1.seat h.1.worker h.1.members) }
    ensures all { IfOk result (λ h. vec_len h.0.members + vec_len h.1.members ≡ vec_len group.members) }
    ensures numbers { IfOk result (λ h. (h.0.worker ≡ group.worker) × (h.1.worker ≡ group.worker + vec_len h.0.members)) }
{
    let Group {
        worker,
        mut seat,
        mut members,
    } = group;
    let keep = members.len() - members.len() / 2;
    let others = members.split_off(keep)?;
    let other = halve(words, &mut seat);
    let back = Group {
        worker: worker + keep as u32,
        seat: other,
        members: others,
    };
    let front = Group {
        worker,
        seat,
        members,
    };
    Ok((front, back))
}
