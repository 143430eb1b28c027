//! Adders forward: what one word comes to is added up, column by column, as the nodes below another
//! word do it. Nothing is believed of it.
//!
//! Where a netlist was mapped its sums are made of other gates, and a step from the word down finds
//! no exclusive or. But most sums and carries are still there as functions: of three literals in a
//! column, whose sum and carry look like nodes below the word, both are made, and are found equal
//! to those nodes.
ghost use Rattle.eqc_sums.specs.Forms.{Keeps};

use crate::adders::Adders;
use crate::chosen::{Chosen, MOST_CHOSEN};
use crate::column::{Column, Item, Likely};
use crate::place::minus;
use eqc_sums::{Form, Reduction};
use eqc_sweep::{Sweep, below};
use eqc_xag::{Graph, Literal, Node, node_of};
use std::alloc::{AllocError, Global};

/// The literal that is always true.
const TRUE: u32 = 1;

/// How much speaks for three literals where their carry is there, or their sum; for two where both
/// are there, or one of them.
const CARRY: u32 = 12;

const SUM: u32 = 10;

const BOTH_OF_TWO: u32 = 11;

const ONE_OF_TWO: u32 = 4;

/// A column takes so many steps at most.
const STEPS: u32 = 4_096;

/// A column of more literals isn't added up: a product of 64 bits has as many.
const WIDEST: usize = 192;

/// So many choices of as many literals of a column are looked at.
const MOST_LOOKS: u32 = 100_000;

/// A constant, and coefficients of nodes.
#[derive(Drop)]
struct Rest {
    constant: u128,
    coefficients: Vec<u128>,
}

impl Rest {
    /// Adds a literal so many times.
    fn add(&mut self, literal: Literal, times: u128) {
        let node = node_of(literal) as usize;
        if node >= self.coefficients.len() {
            return;
        }
        if literal % 2 == 0 {
            self.coefficients[node] = self.coefficients[node].wrapping_add(times);
        } else {
            self.constant = self.constant.wrapping_add(times);
            self.coefficients[node] = self.coefficients[node].wrapping_sub(times);
        }
    }
}

/// Which nodes are below the word that stays.
#[derive(Drop)]
struct Below {
    marks: Vec<bool>,
}

/// A word that stays as it is, and what the other one comes to.
#[derive(Drop)]
pub(crate) struct Columns {
    alloc: Global,
    below: Below,
    columns: Vec<Column>,
    /// The literals of the lowest column count 2^lowest times.
    lowest: u32,
    /// Whether the word that stays is taken away from the other one.
    is_second: bool,
    /// So many looks at a sum or a carry are left.
    looks: u64,
}

/// Of how many nodes there are coefficients.
fn count_of(coefficients: &[u128]) -> u32 {
    coefficients.len().min(u32::MAX as usize) as u32
}

/// Whether a literal of a word is of this node.
fn has_node(word: &[Literal], node: u32) -> bool {
    for literal in word {
        if node_of(*literal) == node {
            return true;
        }
    }
    false
}

/// Notes two or three literals where something speaks for adding them up.
fn note(
    likely: &mut Vec<Likely>,
    x: Literal,
    y: Literal,
    z: Option<Literal>,
    score: u32,
) -> Result<(), AllocError> {
    if score > 0 {
        likely.push(Likely { x, y, z, score })?;
    }
    Ok(())
}

impl Below {
    /// Whether a literal is of one of them.
    fn has(&self, literal: Option<Literal>) -> bool {
        match literal {
            None => false,
            Some(literal) => self
                .marks
                .get(node_of(literal) as usize)
                .copied()
                .unwrap_or(false),
        }
    }

    fn has_carry(&self, sweep: &Sweep, x: Literal, y: Literal, z: Literal) -> bool {
        self.has(sweep.like_carry(x, y, z))
    }

    fn has_sum(&self, sweep: &Sweep, x: Literal, y: Literal, z: Literal) -> bool {
        self.has(sweep.like_sum(&[x, y, z]))
    }

    /// How much speaks for adding up three.
    fn score_of_three(&self, sweep: &Sweep, x: Literal, y: Literal, z: Literal) -> u32 {
        let carry = if self.has_carry(sweep, x, y, z) {
            CARRY
        } else {
            0
        };
        let sum = if self.has_sum(sweep, x, y, z) { SUM } else { 0 };
        carry + sum
    }

    /// How much speaks for adding up two.
    fn score_of_two(&self, sweep: &Sweep, x: Literal, y: Literal) -> u32 {
        let has_carry = self.has_carry(sweep, x, y, 0);
        let has_sum = self.has_sum(sweep, x, y, 0);
        if has_carry && has_sum {
            BOTH_OF_TWO
        } else if has_carry || has_sum {
            ONE_OF_TWO
        } else {
            0
        }
    }

    /// The part of some literals that is added up first, where their sum is there, and the carry of
    /// what is added up next: of the first part's sum and the one or two others.
    fn first_part(&self, sweep: &Sweep, settled: &[Item], chosen: &Chosen) -> Option<Likely> {
        if !self.has(sweep.like_sum(&chosen.literals(settled))) {
            return None;
        }
        for y in 0..MOST_CHOSEN {
            // The last place never has a literal: then one alone is left out of the first part.
            for z in y + 1..MOST_CHOSEN + 1 {
                let part = chosen.without(y, z);
                if y >= chosen.count || z > chosen.count || part.count < 2 || part.count > 3 {
                    continue;
                }
                let first = [
                    part.literal(settled, 0),
                    part.literal(settled, 1),
                    part.literal(settled, 2),
                ];
                let (u, v) = (chosen.literal(settled, y), chosen.literal(settled, z));
                if self.has(sweep.like_carry_of_sum(&first, u, v)) {
                    return part.likely(settled);
                }
            }
        }
        None
    }

    /// Literals that are added up in two steps, the first of which left nothing: so many, the last
    /// of which stands at this place.
    fn compound_with(
        &self,
        sweep: &Sweep,
        settled: &[Item],
        count: usize,
        last: usize,
        looks: &mut u64,
    ) -> Option<Likely> {
        let mut chosen = Chosen::first(count.saturating_sub(1));
        for _ in 0..MOST_LOOKS {
            if !chosen.is_within(last) || *looks == 0 {
                break;
            }
            *looks = *looks - 1;
            let likely = self.first_part(sweep, settled, &chosen.with(last));
            if likely.is_some() {
                return likely;
            }
            chosen.advance(last);
        }
        None
    }

    /// Literals that are added up in two steps, one of which has at least this number.
    fn compound(
        &self,
        sweep: &Sweep,
        settled: &[Item],
        from: u32,
        looks: &mut u64,
    ) -> Option<Likely> {
        for count in 3..MOST_CHOSEN + 1 {
            for last in 0..settled.len() {
                if settled[last].number < from {
                    continue;
                }
                let likely = self.compound_with(sweep, settled, count, last, looks);
                if likely.is_some() {
                    return likely;
                }
            }
        }
        None
    }
}

impl Columns {
    /// Columns without literals, for a word that stays and is the second one or not, with so many
    /// looks at sums and carries. Fails where memory is refused.
    pub(crate) fn new(
        alloc: Global,
        graph: &Graph,
        kept: (&[Literal], bool),
        lowest: u32,
        looks: u64,
    ) -> Result<Columns, AllocError> {
        let (word, is_second) = kept;
        let below = Below {
            marks: below(alloc, graph, word)?,
        };
        let mut columns = Vec::new(alloc);
        for _ in 0..word.len() {
            columns.push(Column::new(alloc))?;
        }
        Ok(Columns {
            alloc,
            below,
            columns,
            lowest,
            is_second,
            looks,
        })
    }

    /// A coefficient as it is where the word that stays is taken away.
    fn turned(&self, factor: u128) -> u128 {
        if self.is_second {
            factor
        } else {
            minus(factor)
        }
    }

    /// What a literal of a column counts in the form.
    fn factor(&self, at: usize) -> u128 {
        let place = self.lowest.wrapping_add((at % 128) as u32) % 128;
        self.turned(1u128 << place)
    }

    /// Puts a literal in a column.
    fn put(&mut self, at: usize, literal: Literal) -> Result<(), AllocError> {
        if literal != 0 && at < self.columns.len() {
            self.columns[at].put(literal)?;
        }
        Ok(())
    }

    /// Puts a literal in the columns in which so many times it has a digit. Answers whether there
    /// is one in no lower column.
    fn spread(&mut self, literal: Literal, times: u128) -> Result<bool, AllocError> {
        for place in 0..128 {
            if times >> place & 1 == 0 {
                continue;
            }
            if place < self.lowest {
                return Ok(false);
            }
            self.put((place - self.lowest) as usize, literal)?;
        }
        Ok(true)
    }

    /// What a form comes to with the word that stays added to it. Fails where memory is refused.
    fn rest(&self, form: &Form, word: &[Literal]) -> Result<Rest, AllocError> {
        let mut coefficients = Vec::with_capacity(self.alloc, form.coefficients.len())?;
        for coefficient in form.coefficients.iter() {
            coefficients.push(self.turned(*coefficient))?;
        }
        let mut rest = Rest {
            constant: self.turned(form.constant),
            coefficients,
        };
        for (at, literal) in word.iter().enumerate() {
            rest.add(*literal, self.turned(self.factor(at)));
        }
        Ok(rest)
    }

    /// Whether no column is too wide.
    fn are_narrow(&self) -> bool {
        let mut are = true;
        for column in self.columns.iter() {
            are &= column.waiting() <= WIDEST;
        }
        are
    }

    /// Takes in what a form comes to besides the word that stays. Answers whether that are inputs,
    /// conjunctions of them and literals of the word, in no lower column than the word's and not
    /// too many in any.
    pub(crate) fn take(
        &mut self,
        form: &Form,
        adders: &Adders,
        word: &[Literal],
    ) -> Result<bool, AllocError> {
        let Rest {
            mut constant,
            coefficients,
        } = self.rest(form, word)?;
        for node in 1..count_of(&coefficients) {
            let factor = coefficients.get(node as usize).copied().unwrap_or(0);
            if factor == 0 {
                continue;
            }
            if !adders.is_plain(node) && !has_node(word, node) {
                return Ok(false);
            }
            let is_less = factor >> 127 == 1;
            let times = if is_less { minus(factor) } else { factor };
            let literal = node.wrapping_mul(2) ^ u32::from(is_less);
            if is_less {
                constant = constant.wrapping_sub(times);
            }
            if !self.spread(literal, times)? {
                return Ok(false);
            }
        }
        Ok(self.spread(TRUE, constant)? && self.are_narrow())
    }

    fn settled(&self, at: usize) -> &[Item] {
        match self.columns.get(at) {
            None => &[],
            Some(column) => column.settled(),
        }
    }

    /// Takes so many looks away. Answers whether there were as many.
    fn spend(&mut self, looks: usize) -> bool {
        let were_enough = self.looks >= looks as u64;
        self.looks = self.looks.saturating_sub(looks as u64);
        were_enough
    }

    /// What speaks for adding up a literal and settled ones of a column, the sum or the carry of
    /// which is there. Where both are there, and the literals are three, the numbers of the two
    /// settled ones are answered.
    fn partners(
        &self,
        sweep: &Sweep,
        at: usize,
        literal: Literal,
        likely: &mut Vec<Likely>,
    ) -> Result<Option<(Literal, Literal)>, AllocError> {
        let settled = self.settled(at);
        let number = self.number(at);
        for (later, y) in settled.iter().enumerate() {
            let of_two = self.below.score_of_two(sweep, y.literal, literal);
            note(likely, y.number, number, None, of_two)?;
            for (earlier, x) in settled.iter().enumerate() {
                if earlier >= later {
                    break;
                }
                let score = self
                    .below
                    .score_of_three(sweep, x.literal, y.literal, literal);
                if score == CARRY + SUM {
                    return Ok(Some((x.number, y.number)));
                }
                note(likely, x.number, y.number, Some(number), score)?;
            }
        }
        Ok(None)
    }

    /// The number that the next literal of a column gets.
    fn number(&self, at: usize) -> u32 {
        match self.columns.get(at) {
            None => 0,
            Some(column) => column.next(),
        }
    }

    /// Takes a settled literal out of a column.
    fn remove(&mut self, at: usize, number: u32) -> u32 {
        match self.columns.get_mut(at) {
            None => 0,
            Some(column) => column.take(number),
        }
    }

    /// The next literal that waits in a column.
    fn next(&mut self, at: usize) -> Option<u32> {
        match self.columns.get_mut(at) {
            None => None,
            Some(column) => column.draw(),
        }
    }

    /// Settles a literal in a column, or takes out the two that have their sum and their carry with
    /// it.
    fn place(
        &mut self,
        sweep: &Sweep,
        at: usize,
        literal: Literal,
    ) -> Result<Option<(Literal, Literal)>, AllocError> {
        let mut likely = Vec::new(self.alloc);
        let count = self.settled(at).len();
        if self.spend(count.saturating_mul(count)) {
            if let Some((x, y)) = self.partners(sweep, at, literal, &mut likely)? {
                return Ok(Some((self.remove(at, x), self.remove(at, y))));
            }
        }
        if at < self.columns.len() {
            self.columns[at].settle(literal, likely.as_slice())?;
        }
        Ok(None)
    }

    #[tactic(auto, using(eqc_sums::proofs::KeepLemmas::keeps_itself, eqc_sums::proofs::KeepLemmas::keeps_along))]
    /// Puts the sum and the carry of three literals of a column in their place.
    fn add(
        &mut self,
        reduction: &mut Reduction,
        at: usize,
        three: (Literal, Literal, Literal),
    ) -> Result<(), AllocError>
        ensures { Keeps reduction.old.sweep reduction.new.sweep reduction.old.form reduction.new.form }
    {
        let (x, y, z) = three;
        let Some((sum, carry)) = reduction.sum_and_carry(x, y, z)? else {
            return Ok(());
        };
        reduction.adder(x, y, z, minus(self.factor(at)))?;
        self.put(at, sum)?;
        self.put(at.saturating_add(1), carry)
    }

    #[tactic(auto, using(eqc_sums::proofs::KeepLemmas::keeps_itself, eqc_sums::proofs::KeepLemmas::keeps_along))]
    /// Looks at what waits in a column: three that have their sum and their carry are added up.
    fn settle(&mut self, reduction: &mut Reduction, at: usize) -> Result<(), AllocError>
        ensures { Keeps reduction.old.sweep reduction.new.sweep reduction.old.form reduction.new.form }
    {
        'waiting: for _step in 0..STEPS {
            let Some(literal) = self.next(at) else {
                break;
            };
            if let Some((x, y)) = self.place(reduction.sweep(), at, literal)? {
                self.add(reduction, at, (x, y, literal))?;
            }
        }
        Ok(())
    }

    #[tactic(auto, using(eqc_sums::proofs::KeepLemmas::keeps_itself, eqc_sums::proofs::KeepLemmas::keeps_along))]
    /// Looks at what waits in this column and in those above it.
    fn settle_from(&mut self, reduction: &mut Reduction, from: usize) -> Result<(), AllocError>
        ensures { Keeps reduction.old.sweep reduction.new.sweep reduction.old.form reduction.new.form }
    {
        'columns: for at in from..self.columns.len() {
            self.settle(reduction, at)?;
        }
        Ok(())
    }

    /// Literals of a column that are added up in two steps, unless it was looked for all of them.
    fn compound(&mut self, sweep: &Sweep, at: usize) -> Option<Likely> {
        let from = self.columns.get(at)?.looked;
        let mut looks = self.looks;
        let found = self
            .below
            .compound(sweep, self.settled(at), from, &mut looks);
        self.looks = looks;
        if found.is_none() {
            if let Some(column) = self.columns.get_mut(at) {
                column.looked = column.next();
            }
        }
        found
    }

    /// What is added up next in a column in which nothing is sure: two are, or the first three
    /// where nothing speaks for others.
    fn likely(&mut self, sweep: &Sweep, at: usize) -> Option<Likely> {
        let settled = self.settled(at);
        let x = settled.get(0)?.number;
        let y = settled.get(1)?.number;
        let Some(third) = settled.get(2) else {
            return Some(Likely {
                x,
                y,
                z: None,
                score: 0,
            });
        };
        let first = Likely {
            x,
            y,
            z: Some(third.number),
            score: 0,
        };
        let best = self.columns.get(at)?.likeliest().unwrap_or(first);
        if best.score >= CARRY {
            return Some(best);
        }
        Some(self.compound(sweep, at).unwrap_or(best))
    }

    #[tactic(auto, using(eqc_sums::proofs::KeepLemmas::keeps_itself, eqc_sums::proofs::KeepLemmas::keeps_along))]
    /// Adds up what is settled in a column until one is left.
    fn close(&mut self, reduction: &mut Reduction, at: usize) -> Result<(), AllocError>
        ensures { Keeps reduction.old.sweep reduction.new.sweep reduction.old.form reduction.new.form }
    {
        'steps: for _step in 0..STEPS {
            let Some(likely) = self.likely(reduction.sweep(), at) else {
                break;
            };
            let z = match likely.z {
                None => 0,
                Some(number) => self.remove(at, number),
            };
            let y = self.remove(at, likely.y);
            let x = self.remove(at, likely.x);
            self.add(reduction, at, (x, y, z))?;
            self.settle_from(reduction, at)?;
        }
        Ok(())
    }

    #[tactic(auto, using(eqc_sums::proofs::KeepLemmas::keeps_itself, eqc_sums::proofs::KeepLemmas::keeps_along))]
    /// Puts the literal of the word that stays in place of the one that is left in its column,
    /// where the two are found equal. Answers whether the column comes to that literal.
    fn meet(
        &self,
        reduction: &mut Reduction,
        at: usize,
        literal: Literal,
        conflicts: &mut u64,
    ) -> Result<bool, AllocError>
        ensures { Keeps reduction.old.sweep reduction.new.sweep reduction.old.form reduction.new.form }
    {
        let left = match self.settled(at).get(0) {
            None => 0,
            Some(item) => item.literal,
        };
        if left != literal {
            reduction.unify(left, literal, self.factor(at), conflicts)?;
        }
        Ok(reduction.form().coefficient(node_of(literal)) == 0)
    }

    #[tactic(auto, using(eqc_sums::proofs::KeepLemmas::keeps_itself, eqc_sums::proofs::KeepLemmas::keeps_along))]
    /// Adds up all columns, and puts the literals of the word that stays in place of what comes of
    /// it, from the lowest one on as long as these are found equal, with so many conflicts for
    /// each, and as long as looks are left.
    pub(crate) fn add_up(
        &mut self,
        reduction: &mut Reduction,
        word: &[Literal],
        conflicts: u64,
    ) -> Result<(), AllocError>
        ensures { Keeps reduction.old.sweep reduction.new.sweep reduction.old.form reduction.new.form }
    {
        self.settle_from(reduction, 0)?;
        'columns: for at in 0..word.len() {
            self.close(reduction, at)?;
            let mut conflicts = conflicts;
            if !self.meet(reduction, at, word[at], &mut conflicts)? || self.looks == 0 {
                break;
            }
        }
        Ok(())
    }
}
