//! A node of a form, and the steps that are there for it by the graph and its adders alone. Nothing
//! is believed of them.

use crate::adders::{Adders, Block};
use crate::moves::Move;
use eqc_sums::Form;
use eqc_sweep::Sweep;
use eqc_xag::{Literal, node_of};

/// How many gates deep polynomials go.
const DEPTH: u32 = 24;

/// A node of a form.
#[derive(Clone, Copy)]
pub(crate) struct Place<'a> {
    pub(crate) form: &'a Form,
    pub(crate) adders: &'a Adders,
    pub(crate) node: u32,
    /// Its coefficient.
    pub(crate) factor: u128,
    /// Coefficients are multiples of 2^lowest.
    pub(crate) lowest: u32,
}

pub(crate) fn minus(factor: u128) -> u128 {
    0u128.wrapping_sub(factor)
}

/// The factor of a step that takes a literal away, where its node has this coefficient.
pub(crate) fn towards(literal: Literal, factor: u128) -> u128 {
    if literal % 2 == 1 {
        minus(factor)
    } else {
        factor
    }
}

/// The better one of two adders that fit so well, the first where both fit as well.
fn better(best: Option<(u32, Block)>, score: u32, block: Block) -> Option<(u32, Block)> {
    match best {
        Some((other, _)) if other >= score => best,
        _ => Some((score, block)),
    }
}

impl<'a> Place<'a> {
    /// Whether few inputs are below it.
    pub(crate) fn is_small(&self) -> bool {
        self.adders.is_small(self.node)
    }

    /// The literal of the node.
    fn literal(&self) -> Literal {
        self.node.wrapping_mul(2)
    }

    /// Half of the coefficient, as a signed one, where that is a multiple of a column's.
    pub(crate) fn half(&self) -> Option<u128> {
        if self.factor.trailing_zeros() <= self.lowest {
            return None;
        }
        Some(self.factor >> 1 | self.factor & 1 << 127)
    }

    /// A carry of another polarity.
    pub(crate) fn relation(&self) -> Option<Move> {
        if self.is_small() {
            return None;
        }
        let block = *self.adders.known(self.node)?.relations.get(0)?;
        Some(Move::Polarity(block.x, block.y, block.z, towards(block.carry, self.factor)))
    }

    /// How well an adder fits the form by its sum.
    fn fitting(&self, block: &Block) -> u32 {
        let step = towards(block.sum, self.factor);
        let twice = minus(step.wrapping_add(step));
        let change = towards(block.carry, twice);
        let there = self.form.coefficient(node_of(block.carry));
        if there != 0 && there.wrapping_add(change) == 0 {
            4
        } else if there != 0 && there >> 127 != change >> 127 {
            3
        } else if block.z != 0 {
            2
        } else {
            1
        }
    }

    /// How well a change of a literal fits the form.
    fn fitting_of(&self, literal: Literal, change: u128) -> u32 {
        let there = self.form.coefficient(node_of(literal));
        if literal == 0 || there == 0 {
            0
        } else if there.wrapping_add(towards(literal, change)) == 0 {
            4
        } else {
            1
        }
    }

    /// How well an adder fits the form by its carry.
    fn carried(&self, block: &Block, step: u128) -> u32 {
        let mut score: u32 = if block.z != 0 { 1 } else { 0 };
        for (literal, change) in [
            (block.x, step),
            (block.y, step),
            (block.z, step),
            (block.sum, minus(step)),
        ] {
            score = score.saturating_add(self.fitting_of(literal, change));
        }
        score
    }

    /// The adder that fits best of those whose sum the node is and that may be taken.
    pub(crate) fn best_sum(&self) -> Option<Block> {
        let mut best = None;
        for block in self.adders.known(self.node)?.sums.as_slice() {
            if self.adders.is_useful(self.node, block) {
                best = better(best, self.fitting(block), *block);
            }
        }
        let (_, block) = best?;
        Some(block)
    }

    /// The adder that fits best of those whose carry the node is, where this is half of the
    /// coefficient.
    pub(crate) fn best_carry(&self, half: u128) -> Option<Block> {
        let mut best = None;
        for block in self.adders.known(self.node)?.carries.as_slice() {
            let score = self.carried(block, towards(block.carry, half));
            best = better(best, score, *block);
        }
        let (_, block) = best?;
        Some(block)
    }

    /// An adder whose sum a node is, of three literals where there is one.
    pub(crate) fn adder_of(&self, node: u32) -> Option<Block> {
        let sums = self.adders.known(node)?.sums.as_slice();
        for block in sums {
            if block.z != 0 {
                return Some(*block);
            }
        }
        let block = *sums.get(0)?;
        Some(block)
    }

    /// The first adder whose carry a node is.
    pub(crate) fn carry_of(&self, node: u32) -> Option<Block> {
        let block = *self.adders.known(node)?.carries.get(0)?;
        Some(block)
    }

    /// A parity, in place of a sum whose coefficient is half of 2^128.
    pub(crate) fn parity(&self) -> Option<Move> {
        if self.factor.wrapping_add(self.factor) != 0 {
            return None;
        }
        let (x, y) = self.adders.pair(self.node, 0)?;
        Some(Move::Parity(x, y))
    }

    /// The literals of a node that is a conjunction and neither a sum nor a carry nor small, and
    /// doesn't stand for one of inputs that stays.
    fn conjunction_at(&self, node: u32) -> Option<(Literal, Literal)> {
        let adders = self.adders;
        if adders.is_small(node) || adders.is_left(node) {
            return None;
        }
        if adders.is_sum(node) || adders.is_carry(node) {
            return None;
        }
        adders.literals(node)
    }

    /// The literals of the node, where it is such a conjunction.
    pub(crate) fn conjunction(&self) -> Option<(Literal, Literal)> {
        self.conjunction_at(self.node)
    }

    /// A conjunction of a complement.
    pub(crate) fn complement(&self) -> Option<Move> {
        let (x, y) = self.conjunction()?;
        if x % 2 == 1 {
            return Some(Move::Split(x ^ 1, y, minus(self.factor)));
        }
        if y % 2 == 1 {
            return Some(Move::Split(y ^ 1, x, minus(self.factor)));
        }
        None
    }

    /// Whether a polynomial may be put in place of a node: it has few ways, and there is none in
    /// its place yet.
    fn can_expand(&self, node: u32) -> bool {
        let adders = self.adders;
        !adders.is_plain(node) && adders.is_gate(node) && adders.has_few_ways(node)
    }

    /// A node of few inputs, or of somewhat more.
    pub(crate) fn small(&self, is_rather: bool) -> Option<Move> {
        let is_small = if is_rather {
            self.adders.is_rather_small(self.node)
        } else {
            self.is_small()
        };
        if !is_small || !self.can_expand(self.node) {
            return None;
        }
        Some(Move::Expand(self.literal(), DEPTH, self.factor))
    }

    /// A product of a node of few inputs.
    pub(crate) fn small_product(&self) -> Option<Move> {
        let (x, y) = self.conjunction()?;
        for (by, other) in [(x, y), (y, x)] {
            if by % 2 == 1 || other % 2 == 1 || !self.adders.is_small(node_of(other)) {
                continue;
            }
            if self.can_expand(node_of(other)) {
                return Some(Move::ExpandProduct(by, other, DEPTH, self.factor));
            }
        }
        None
    }

    /// A product of a conjunction of complements. Unless it is forced, of two that are never both
    /// true.
    pub(crate) fn either_product(&self, sweep: &Sweep, is_forced: bool) -> Option<Move> {
        let (x, y) = self.conjunction()?;
        for (by, either) in [(x, y), (y, x)] {
            if by % 2 == 1 || either % 2 == 1 {
                continue;
            }
            let Some((p, q)) = self.conjunction_at(node_of(either)) else {
                continue;
            };
            if is_split(sweep, p, q) || is_forced && p % 2 == 1 {
                return Some(Move::SplitProduct(by, p ^ 1, q, minus(self.factor)));
            }
            if is_forced && q % 2 == 1 {
                return Some(Move::SplitProduct(by, q ^ 1, p, minus(self.factor)));
            }
        }
        None
    }

    /// A product of a sum without an adder.
    pub(crate) fn plain_product(&self) -> Option<Move> {
        let (x, y) = self.conjunction()?;
        for (by, sum) in [(x, y), (y, x)] {
            if sum % 2 == 1 || by % 2 == 1 {
                continue;
            }
            if let Some((p, q)) = self.adders.pair(node_of(sum), 0) {
                return Some(Move::Product(by, p, q, 0, self.factor));
            }
        }
        None
    }

    /// Whether the node is a gate.
    pub(crate) fn is_gate(&self) -> bool {
        self.adders.is_gate(self.node)
    }

    /// Another literal in place of the node's.
    pub(crate) fn unified(&self, other: u32) -> Move {
        Move::Unify(self.literal(), other, self.factor)
    }

    /// The node's literal in place of a later one that looks like it, so many times.
    pub(crate) fn unifying(&self, later: u32, factor: u128) -> Move {
        Move::Unify(later - later % 2, self.literal() ^ later % 2, factor)
    }
}

/// Whether two literals are complements of two that look as if they were never both true.
fn is_split(sweep: &Sweep, p: Literal, q: Literal) -> bool {
    let are_both = p % 2 == 1 && q % 2 == 1;
    are_both && sweep.like_carry(p ^ 1, q ^ 1, 0) == Some(0)
}
