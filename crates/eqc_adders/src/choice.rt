//! Which step comes next: the highest node for which a rule has one, rule by rule. Nothing is
//! believed of it.

ghost use Rattle.std.specs.Prelude.{◌≡◌};

use crate::adders::Adders;
use crate::moves::Move;
use crate::place::{Place, minus, towards};
use eqc_sums::Reduction;
use eqc_sweep::Sweep;
use eqc_xag::{Literal, node_of};
use std::alloc::{AllocError, Global};

/// A node isn't taken for a sum, or not for a carry; was asked about.
const NO_SUM: u8 = 1;

const NO_CARRY: u8 = 2;

const ASKED: u8 = 4;

/// A step for a node left its coefficient as it was: there is none for it.
const STUCK: u8 = 8;

/// Another conjunction was taken for a node.
const TURNED: u8 = 16;

/// There is no step for a node: it is of a word that stays as it is.
const KEPT: u8 = 32;

/// How often a node is taken for a sum.
const OFTEN: u8 = 8;

/// How often it is taken for a product of one: where nodes were found equal, two products may lead
/// to one another.
const OFTEN_PRODUCT: u8 = 2;

/// How many rules there are.
const RULES: u32 = 16;

/// The rules for sums and for products of sums.
const SUM: u32 = 1;

const PRODUCT: u32 = 2;

/// The rule that asks whether nodes are equal, and the last one before sums are allowed again.
const ALIKE: u32 = 7;

const LAST: u32 = 10;

/// How often the other rules have their turn with sums again.
const TURNS: u32 = 6;

/// The nodes of a form, and what was done with nodes.
#[derive(Drop)]
pub(crate) struct Choice {
    /// Levels and nodes, in their order.
    terms: Vec<(u32, u32)>,
    marks: Vec<u8>,
    times: Vec<u8>,
    products: Vec<u8>,
    turns: u32,
    /// The node and the coefficient for which the last step was chosen.
    last: (u32, u128),
    /// Pairs of nodes that were asked about, the later one first.
    asked: Vec<(u32, u32)>,
    /// Whether carries of sums that are used aren't taken for carries any more.
    are_sums_used: bool,
    /// How many nodes may still be looked at.
    looks: u64,
}

impl Choice {
    /// What chooses steps with so many looks at nodes.
    pub(crate) fn new(alloc: Global, looks: u64) -> Choice {
        Choice {
            terms: Vec::new(alloc),
            marks: Vec::new(alloc),
            times: Vec::new(alloc),
            products: Vec::new(alloc),
            turns: 0,
            last: (0, 0),
            asked: Vec::new(alloc),
            are_sums_used: false,
            looks,
        }
    }

    /// How many looks at nodes are left.
    pub(crate) fn looks(&self) -> u64 {
        self.looks
    }

    fn has(&self, node: u32, mark: u8) -> bool {
        match self.marks.get(node as usize) {
            None => false,
            Some(marks) => *marks & mark != 0,
        }
    }

    fn mark(&mut self, node: u32, mark: u8) {
        if let Some(marks) = self.marks.get_mut(node as usize) {
            *marks = *marks | mark;
        }
    }

    /// Leaves a word of a graph of so many nodes as it is.
    pub(crate) fn keep(&mut self, word: &[Literal], nodes: u32) -> Result<(), AllocError> {
        self.marks.resize(nodes as usize, 0)?;
        for literal in word {
            self.mark(node_of(*literal), KEPT);
        }
        Ok(())
    }

    /// Takes in which coefficients have changed. What comes of a polynomial is plain.
    pub(crate) fn sync(
        &mut self,
        reduction: &mut Reduction,
        adders: &mut Adders,
        are_plain: bool,
    ) -> Result<(), AllocError>
        ensures sweep { reduction.new.sweep ≡ reduction.old.sweep }
        ensures form { reduction.new.form ≡ reduction.old.form }
    {
        let touched = reduction.take_touched();
        adders.catch_up(reduction.sweep().graph())?;
        self.marks.resize(adders.nodes.len(), 0)?;
        self.times.resize(adders.nodes.len(), 0)?;
        self.products.resize(adders.nodes.len(), 0)?;
        if self.last.0 != 0 && reduction.form().coefficient(self.last.0) == self.last.1 {
            self.mark(self.last.0, STUCK);
        }
        self.last = (0, 0);
        self.take_in(reduction, adders, touched.as_slice(), are_plain)
    }

    fn take_in(
        &mut self,
        reduction: &Reduction,
        adders: &mut Adders,
        touched: &[u32],
        are_plain: bool,
    ) -> Result<(), AllocError> {
        for node in touched {
            let key = (adders.level(*node), *node);
            let is_there = *node != 0 && reduction.form().coefficient(*node) != 0;
            if is_there && are_plain {
                adders.set_plain(*node);
            }
            match self.terms.binary_search(&key) {
                Ok(at) => {
                    if !is_there && at < self.terms.len() {
                        self.terms.remove(at);
                    }
                }
                Err(at) => {
                    if is_there && at <= self.terms.len() {
                        self.terms.insert(at, key)?;
                    }
                }
            }
        }
        Ok(())
    }

    /// How many terms there are.
    pub(crate) fn len(&self) -> usize {
        self.terms.len()
    }

    /// The node of the term that has so many behind it.
    fn node(&self, back: usize) -> Option<u32> {
        let at = self.terms.len().checked_sub(back)?.checked_sub(1)?;
        let term = self.terms.get(at)?;
        Some(term.1)
    }

    /// The next step, where coefficients are multiples of 2^lowest.
    pub(crate) fn next(
        &mut self,
        reduction: &Reduction,
        adders: &Adders,
        lowest: u32,
    ) -> Option<Move> {
        for rule in 0..=LAST {
            if let Some(step) = self.by_rule(reduction, adders, rule, lowest) {
                return Some(step);
            }
        }
        if self.turn() {
            if let Some(step) = self.by_rule(reduction, adders, SUM, lowest) {
                return Some(step);
            }
        }
        for rule in LAST..RULES {
            if let Some(step) = self.by_rule(reduction, adders, rule, lowest) {
                return Some(step);
            }
        }
        None
    }

    /// The step that a rule has for the highest node. None where no look is left.
    fn by_rule(
        &mut self,
        reduction: &Reduction,
        adders: &Adders,
        rule: u32,
        lowest: u32,
    ) -> Option<Move> {
        for back in 0..self.terms.len() {
            if self.looks == 0 {
                return None;
            }
            self.looks -= 1;
            if let Some(node) = self.node(back) {
                let place = Place {
                    form: reduction.form(),
                    adders,
                    node,
                    factor: reduction.form().coefficient(node),
                    lowest,
                };
                if let Some(step) = self.of_use(reduction.sweep(), rule, &place) {
                    return Some(step);
                }
            }
        }
        None
    }

    /// Allows sums again, and their carries no more. Answers whether there were some that weren't
    /// allowed.
    fn turn(&mut self) -> bool {
        if self.turns >= TURNS {
            return false;
        }
        self.turns += 1;
        let mut some = false;
        for marks in self.marks.iter_mut() {
            if *marks & NO_SUM != 0 {
                some = true;
                *marks = *marks & (NO_CARRY | ASKED | KEPT);
            }
        }
        self.are_sums_used = true;
        some
    }

    /// The step that a rule has for a node, unless it is of no use.
    fn of_use(&mut self, sweep: &Sweep, rule: u32, place: &Place<'_>) -> Option<Move> {
        if place.factor == 0 || self.has(place.node, STUCK | KEPT) {
            return None;
        }
        let step = self.by_one(sweep, rule, place)?;
        if rule == PRODUCT {
            self.count_product(place.node)?;
        }
        // A question that shows nothing leaves the coefficient too, and other steps are there still.
        if !matches!(step, Move::Unify(_, _, _)) {
            self.last = (place.node, place.factor);
        }
        Some(step)
    }

    /// The step that a rule has for a node.
    fn by_one(&mut self, sweep: &Sweep, rule: u32, place: &Place<'_>) -> Option<Move> {
        match rule {
            0 => place.relation(),
            SUM => self.sum(place),
            PRODUCT => self.product(place),
            3 => place.complement(),
            4 => self.carry(sweep, place),
            5 => place.small(false),
            6 => place.small_product(),
            ALIKE => self.alike(sweep, place),
            8 => self.carry_product(place),
            9 => place.either_product(sweep, false),
            10 => self.other_conjunction(place),
            11 => place.small(true),
            12 => self.used_carry(place),
            13 => place.either_product(sweep, true),
            14 => self.plain_sum(place),
            _ => place.plain_product(),
        }
    }

    /// A sum whose adder is known.
    fn sum(&mut self, place: &Place<'_>) -> Option<Move> {
        let is_sum = place.adders.is_sum(place.node);
        if place.is_small() || !is_sum || self.has(place.node, NO_SUM) {
            return None;
        }
        let best = place.best_sum();
        self.count(place.node)?;
        let Some(block) = best else {
            return place.parity();
        };
        if self.are_sums_used {
            self.mark(node_of(block.carry), NO_CARRY);
        }
        Some(Move::Adder(block.x, block.y, block.z, towards(block.sum, place.factor)))
    }

    /// Counts that a node is taken for a sum, as long as it may be.
    fn count(&mut self, node: u32) -> Option<()> {
        let times = self.times.get_mut(node as usize)?;
        if *times >= OFTEN {
            return None;
        }
        *times = times.wrapping_add(1);
        Some(())
    }

    /// Counts that a node is taken for a product of a sum, as long as it may be.
    fn count_product(&mut self, node: u32) -> Option<()> {
        let times = self.products.get_mut(node as usize)?;
        if *times >= OFTEN_PRODUCT {
            return None;
        }
        *times = times.wrapping_add(1);
        Some(())
    }

    /// A product of a sum whose adder is known.
    fn product(&self, place: &Place<'_>) -> Option<Move> {
        let (x, y) = place.conjunction()?;
        for (by, sum) in [(x, y), (y, x)] {
            if by % 2 == 1 || self.has(node_of(sum), NO_SUM) {
                continue;
            }
            let Some(block) = place.adder_of(node_of(sum)) else {
                continue;
            };
            if block.sum == sum {
                return Some(Move::Product(by, block.x, block.y, block.z, place.factor));
            }
            if sum % 2 == 0 {
                return Some(Move::Split(sum, by, minus(place.factor)));
            }
        }
        None
    }

    /// A carry whose coefficient is a multiple of a column's. About one that looks as if it were
    /// never true, or always, it is asked first: nothing may take it away else.
    fn carry(&mut self, sweep: &Sweep, place: &Place<'_>) -> Option<Move> {
        if self.has(place.node, NO_CARRY) {
            return None;
        }
        if self.may_be_constant(sweep, place) {
            return self.alike(sweep, place);
        }
        self.any_carry(place)
    }

    /// Whether a carry looks like a constant.
    fn may_be_constant(&self, sweep: &Sweep, place: &Place<'_>) -> bool {
        if place.half().is_none() || !place.adders.is_carry(place.node) {
            return false;
        }
        match self.like(sweep, place.node) {
            Some(other) => node_of(other) == 0,
            None => false,
        }
    }

    /// A carry of a sum that is used, as long as it may be taken.
    fn used_carry(&mut self, place: &Place<'_>) -> Option<Move> {
        let step = self.any_carry(place)?;
        self.count(place.node)?;
        Some(step)
    }

    /// A carry, of whatever sum, unless it stands for a conjunction of inputs that stays.
    fn any_carry(&mut self, place: &Place<'_>) -> Option<Move> {
        if place.is_small() || place.adders.is_left(place.node) {
            return None;
        }
        let half = place.half()?;
        let block = place.best_carry(half)?;
        self.mark(node_of(block.sum), NO_SUM);
        Some(Move::Adder(block.x, block.y, block.z, towards(block.carry, half)))
    }

    /// The next literal that a node looks like and about which it wasn't asked.
    fn like(&self, sweep: &Sweep, node: u32) -> Option<Literal> {
        let mut but = [node; 8];
        let mut count: usize = 1;
        for (later, earlier) in self.asked.as_slice() {
            let other = if *later == node { *earlier } else { *later };
            if (*later == node || *earlier == node) && count < 8 {
                but[count] = other;
                count += 1;
            }
        }
        if count >= 8 {
            return None;
        }
        sweep.like_node(node, &but)
    }

    /// A node that looks like an earlier one, or like a later one of the form.
    fn alike(&mut self, sweep: &Sweep, place: &Place<'_>) -> Option<Move> {
        let node = place.node;
        if self.has(node, ASKED) || !place.is_gate() {
            return None;
        }
        let Some(other) = self.like(sweep, node) else {
            self.mark(node, ASKED);
            return None;
        };
        if node_of(other) < node {
            if self.asked.push((node, node_of(other))).is_err() {
                return None;
            }
            return Some(place.unified(other));
        }
        let more = place.form.coefficient(node_of(other));
        if self.asked.push((node_of(other), node)).is_err() || more == 0 {
            return None;
        }
        Some(place.unifying(other, more))
    }

    /// Another conjunction of complements that is equal.
    fn other_conjunction(&mut self, place: &Place<'_>) -> Option<Move> {
        if place.is_small() || self.has(place.node, TURNED) {
            return None;
        }
        let (x, y, literal) = *place.adders.known(place.node)?.others.get(0)?;
        self.mark(place.node, TURNED);
        Some(Move::Split(x ^ 1, y, minus(towards(literal, place.factor))))
    }

    /// A product of a carry.
    fn carry_product(&mut self, place: &Place<'_>) -> Option<Move> {
        let (x, y) = place.conjunction()?;
        let half = place.half()?;
        for (by, carry) in [(x, y), (y, x)] {
            if by % 2 == 1 || carry % 2 == 1 {
                continue;
            }
            if let Some(block) = place.carry_of(node_of(carry)) {
                self.mark(node_of(block.sum), NO_SUM);
                let factor = towards(block.carry, half);
                return Some(Move::Product(by, block.x, block.y, block.z, factor));
            }
        }
        None
    }

    /// A sum without an adder.
    fn plain_sum(&mut self, place: &Place<'_>) -> Option<Move> {
        if place.is_small() || self.has(place.node, NO_SUM) {
            return None;
        }
        let (x, y) = place.adders.pair(place.node, 0)?;
        self.count(place.node)?;
        Some(Move::Adder(x, y, 0, place.factor))
    }
}
