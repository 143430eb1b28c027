//! Which steps are proved equal or opposite, by their literals in one graph.
ghost use Rattle.std.specs.Prelude.{◌≡◌, length, IfOk, IfSome};
ghost use Rattle.eqc_build.specs.Building.{reference_of};
ghost use Rattle.eqc_pair.specs.PairOf.{PairOf};
ghost use Rattle.eqc_place.specs.Places.{AreProved, IsPartner};

use crate::place::Partner;
use eqc_pair::Pair;
use eqc_xag::{Literal, negated, node_of};
use std::alloc::{AllocError, Global};
use std::marker::Model;

/// No step.
pub(crate) const NONE: u32 = 4_294_967_295;

/// Where the steps of the second netlist begin, and where they end.
pub(crate) fn second_steps(pair: &Pair<'_>) -> (u32, u32)
    ensures { result.0 ≡ length pair.now.first.drivers }
{
    let begin = pair.first().steps().len() as u32;
    let end = begin.saturating_add(pair.second().steps().len() as u32);
    (begin, end)
}

/// The literal of a step, if it has one.
pub(crate) fn literal_at(literals: &[Option<Literal>], step: u32) -> Option<Literal>
    ensures { result ≡ reference_of literals.now step }
{
    literals.get(step as usize).copied().flatten()
}

#[tactic(auto, using(crate::proofs::PlaceLaws::equal_partner, crate::proofs::PlaceLaws::opposite_partner))]
/// Another step as a partner of one, where their literals are equal or opposite.
fn as_partner(literals: &[Option<Literal>], step: u32, other: u32) -> Option<Partner>
    ensures { (p : PairOf) → AreProved p literals.now → IfSome result (IsPartner p step) }
{
    let x = literal_at(literals, step)?;
    let y = literal_at(literals, other)?;
    if x == y {
        return Some(Partner {
            step: other,
            is_opposite: false,
        });
    }
    if x == negated(y) {
        return Some(Partner {
            step: other,
            is_opposite: true,
        });
    }
    None
}

/// Notes the first step of a node.
fn note_first(firsts: &mut Vec<u32>, node: u32, step: u32) {
    let at = node as usize;
    if at < firsts.len() && firsts[at] == NONE {
        firsts[at] = step;
    }
}

/// The literals of steps in one graph, and for each node the first step of each netlist whose
/// literal it has. Contracts see the literals, and nothing is believed of the rest.
#[derive(Drop)]
pub(crate) struct Partners {
    literals: Vec<Option<Literal>>,
    /// Where the second netlist's steps begin, and where they end.
    pub(crate) second: u32,
    pub(crate) end: u32,
    by_first: Vec<u32>,
    by_second: Vec<u32>,
}

impl Model for Partners {
    ghost use Rattle.std.specs.Prelude.{ℕ, List, Option};

    ghost Value = { List (Option ℕ) };

    ghost view = { λ a. a.literals.items };
}

impl Partners {
    /// Those of steps with these literals. Fails where memory is refused.
    pub(crate) fn of(
        alloc: Global,
        literals: Vec<Option<Literal>>,
        nodes: u32,
        second: u32,
        end: u32,
    ) -> Result<Partners, AllocError>
        ensures { IfOk result (λ partners. partners ≡ literals.items) }
    {
        let mut by_first = vec![in alloc; NONE; nodes as usize]?;
        let mut by_second = vec![in alloc; NONE; nodes as usize]?;
        for step in 0..end {
            let Some(literal) = literal_at(&literals, step) else {
                continue;
            };
            if step < second {
                note_first(&mut by_first, node_of(literal), step);
            } else {
                note_first(&mut by_second, node_of(literal), step);
            }
        }
        Ok(Partners {
            literals,
            second,
            end,
            by_first,
            by_second,
        })
    }

    /// The literals.
    pub(crate) fn literals(&self) -> &[Option<Literal>]
        ensures { result.now ≡ self.now }
    {
        &self.literals
    }

    /// The node of a step, or `NONE`.
    pub(crate) fn node(&self, step: u32) -> u32 {
        match literal_at(&self.literals, step) {
            Some(literal) => node_of(literal),
            None => NONE,
        }
    }

    /// How many nodes the graph has.
    pub(crate) fn nodes(&self) -> usize {
        self.by_first.len()
    }

    /// The first step of the other netlist that has a step's node, or `NONE`.
    pub(crate) fn other(&self, step: u32) -> u32 {
        let Some(literal) = literal_at(&self.literals, step) else {
            return NONE;
        };
        let firsts = if step < self.second {
            &self.by_second
        } else {
            &self.by_first
        };
        firsts
            .get(node_of(literal) as usize)
            .copied()
            .unwrap_or(NONE)
    }

    /// Whether a step has a partner.
    pub(crate) fn has(&self, step: u32) -> bool {
        self.other(step) != NONE
    }

    /// Another step as a partner of one, if it is known to be.
    pub(crate) fn partner_among(&self, step: u32, other: u32) -> Option<Partner>
        ensures { (p : PairOf) → AreProved p self.now → IfSome result (IsPartner p step) }
    {
        as_partner(&self.literals, step, other)
    }

    /// The partner of a step in the other netlist, if one is known.
    pub(crate) fn partner(&self, step: u32) -> Option<Partner>
        ensures { (p : PairOf) → AreProved p self.now → IfSome result (IsPartner p step) }
    {
        self.partner_among(step, self.other(step))
    }
}
