//! Netlists made anew in the architectures that are most like two words.

use crate::adding::{Tree, added_up};
use crate::ends::{End, PREFIXES};
use crate::guide::{Guide, plain};
use crate::netlist::Netlist;
use crate::partial::{Digits, Partial};
use crate::rows::Order;
use eqc_polynomials::{
    ASSIGNMENTS, Quadratic, SumOfProducts, Summands, Values, is_taken_away, random_patterns, sum_of,
};
use eqc_sweep::{Random, below};
use eqc_xag::{Graph, Literal, negated_if};
use std::alloc::{AllocError, Global};

/// So many of a thousand spans of a tree of prefixes are among what a word is made of at least, if
/// it is taken to end with it: of a tree with which it doesn't end up to so many are, since trees
/// share spans.
const ENDS_SO: u32 = 400;

/// A value that has so few ones, or zeros, tells nothing: others have it by chance.
const FEW: u32 = 4;

/// Where fewer of a thousand sums are there rows aren't tried in another order, nor where all are.
const GUIDED: u32 = 200;

const ALL: u32 = 1_000;

/// An architecture of a product: which digits of which factor make rows, and how these are added
/// up.
#[derive(Clone, Copy)]
pub(crate) struct Architecture {
    digits: Digits,
    is_swapped: bool,
    /// Whether inputs that count by themselves come before the products' rows.
    are_singles_first: bool,
    order: Order,
    tree: Tree,
    end: End,
}

/// An architecture, and the order of its rows where the nodes below a word tell another one.
#[derive(Drop)]
pub(crate) struct Plan {
    architecture: Architecture,
    /// The places of its rows, in the order in which they come.
    order: Option<Vec<usize>>,
}

impl Plan {
    /// That of an architecture whose rows come in its own order.
    fn of(architecture: Architecture) -> Plan {
        Plan {
            architecture,
            order: None,
        }
    }

    /// The same one with another end. Fails where memory is refused.
    fn ending_with(&self, end: End) -> Result<Plan, AllocError> {
        let order = match &self.order {
            None => None,
            Some(order) => Some(order.clone()?),
        };
        Ok(Plan {
            architecture: Architecture {
                end,
                ..self.architecture
            },
            order,
        })
    }
}

/// How sums of plain rows are made, and of recoded ones.
static TREES: &[(Digits, Tree)] = &[
    (Digits::Plain, Tree::Threes),
    (Digits::Whole, Tree::Threes),
    (Digits::Plain, Tree::Array),
    (Digits::Plain, Tree::Saved),
    (Digits::Whole, Tree::Kept),
    (Digits::Plain, Tree::Late),
    (Digits::Plain, Tree::Layers),
    (Digits::Plain, Tree::Columns),
    (Digits::Recoded, Tree::Late),
    (Digits::Recoded, Tree::Layers),
    (Digits::Recoded, Tree::Saved),
    (Digits::Recoded, Tree::Threes),
    (Digits::Recoded, Tree::Columns),
];

/// An array of plain rows.
const ARRAY: Architecture = Architecture {
    digits: Digits::Plain,
    is_swapped: false,
    are_singles_first: false,
    order: Order::Ascending,
    tree: Tree::Array,
    end: End::Chain,
};

/// A netlist that adds up a sum of products: a graph of its own, and its word of literals there,
/// the lowest first.
#[derive(Drop)]
pub struct Made {
    pub graph: Graph,
    pub word: Vec<Literal>,
}

/// A netlist made anew for a word.
#[derive(Drop)]
pub struct Reference {
    pub made: Made,
    /// How many of a thousand sums of its adders are among what the word is made of that it is for.
    pub likeness: u32,
    /// How many of a thousand literals of its adders are.
    pub whole: u32,
}

/// Netlists made anew for two words, each in the architecture that is most like it.
#[derive(Drop)]
pub struct References {
    pub first: Reference,
    pub second: Reference,
}

/// What is added up.
#[derive(Clone, Copy)]
pub(crate) struct Task<'a> {
    pub(crate) alloc: Global,
    pub(crate) quadratic: &'a Quadratic,
    pub(crate) summands: &'a Summands,
}

/// The values of the nodes below a word, each as that of the literal which is false under the first
/// assignment, in order.
#[derive(Drop)]
pub(crate) struct Seen {
    pub(crate) patterns: Vec<u128>,
    pub(crate) values: Vec<u128>,
    nearest: Nearest,
}

/// The architectures that are most like a word, of those that were looked at.
#[derive(Drop)]
struct Nearest {
    /// Of all.
    best: Option<Best>,
    /// Of those by threes of rows.
    by_threes: Option<Best>,
}

/// An architecture that a word may have, and how much it is like it.
#[derive(Drop)]
struct Best {
    plan: Plan,
    /// The values of the sums of its adders, in order.
    sums: Vec<u128>,
    /// How many of a thousand sums of its adders are among what the word is made of.
    likeness: u32,
    /// How many of a thousand literals of its adders are.
    whole: u32,
}

impl Nearest {
    /// Where none was looked at.
    fn none() -> Nearest {
        Nearest {
            best: None,
            by_threes: None,
        }
    }
}

impl Seen {
    /// Those of a word of a graph. Fails where memory is refused.
    fn of(
        alloc: Global,
        graph: &Graph,
        word: &[Literal],
        variables: &[u32],
    ) -> Result<Seen, AllocError> {
        let mut random = Random::numbered(2);
        let patterns = random_patterns(alloc, &mut random, variables.len())?;
        let all = Values::of(alloc, graph, variables, &patterns)?;
        let marks = below(alloc, graph, word)?;
        let mut values = Vec::new(alloc);
        for k in 0..graph.len() {
            if marks.get(k as usize).copied() == Some(true) {
                values.push(plain(all.at(k.wrapping_mul(2))))?;
            }
        }
        values.sort_unstable();
        Ok(Seen {
            patterns,
            values,
            nearest: Nearest::none(),
        })
    }

    /// The same values, without an architecture. Fails where memory is refused.
    pub(crate) fn again(&self) -> Result<Seen, AllocError> {
        Ok(Seen {
            patterns: self.patterns.clone()?,
            values: self.values.clone()?,
            nearest: Nearest::none(),
        })
    }

    /// How many of a thousand literals of a netlist are among them, of those that aren't constant
    /// under all assignments: these tell nothing.
    fn share(&self, values: &Values, literals: &[Literal]) -> u32 {
        let mut found = 0u64;
        let mut all = 0u64;
        for literal in literals {
            let value = plain(values.at(*literal));
            if value != 0 {
                let is_found = self.values.binary_search(&value).is_ok();
                found = found.saturating_add(u64::from(is_found));
                all = all.saturating_add(1);
            }
        }
        (found.saturating_mul(1_000) / all.max(1)).min(1_000) as u32
    }

    /// The literals whose values tell something.
    fn telling(
        &self,
        alloc: Global,
        values: &Values,
        literals: &[Literal],
    ) -> Result<Vec<u32>, AllocError> {
        let mut telling = Vec::new(alloc);
        for literal in literals {
            let ones = values.at(*literal).count_ones();
            if ones >= FEW && ones <= ASSIGNMENTS as u32 - FEW {
                telling.push(*literal)?;
            }
        }
        Ok(telling)
    }

    /// How many values there are beyond others, and how many of these are among them.
    fn beyond(&self, values: &[u128], others: &[u128]) -> (u64, u64) {
        let mut found = 0u64;
        let mut all = 0u64;
        for value in values {
            if others.binary_search(value).is_err() {
                let is_found = self.values.binary_search(value).is_ok();
                found = found.saturating_add(u64::from(is_found));
                all = all.saturating_add(1);
            }
        }
        (found, all)
    }

    /// Whether of the sums that one netlist has beyond another one a larger part is among them than
    /// the other way round. What both have doesn't tell: netlists of different architectures share
    /// sums.
    fn are_nearer(&self, sums: &[u128], others: &[u128]) -> bool {
        let (found, all) = self.beyond(sums, others);
        let (found_there, all_there) = self.beyond(others, sums);
        // One more of two each: where there are few a single one says little.
        let one = found.saturating_mul(2).saturating_add(1);
        let other = found_there.saturating_mul(2).saturating_add(1);
        one.saturating_mul(all_there.saturating_add(1))
            > other.saturating_mul(all.saturating_add(1))
    }

    /// The values of the sums of a netlist's adders, in order, and how many of a thousand of these
    /// and of all literals of its adders are among them.
    fn shares(
        &self,
        task: &Task<'_>,
        netlist: &Netlist,
    ) -> Result<(Vec<u128>, u32, u32), AllocError> {
        let values = task.values(netlist, &self.patterns)?;
        let mut sums = Vec::with_capacity(task.alloc, netlist.sums().len())?;
        for literal in netlist.sums() {
            let value = plain(values.at(*literal));
            if value != 0 {
                sums.push(value)?;
            }
        }
        sums.sort_unstable();
        let likeness = self.share(&values, netlist.sums());
        Ok((sums, likeness, self.share(&values, netlist.ends())))
    }

    /// Takes an architecture as the best one, if it is the first one or its sums are nearer. Fails
    /// where memory is refused.
    fn compare(
        &mut self,
        task: &Task<'_>,
        netlist: &Netlist,
        architecture: Architecture,
    ) -> Result<(), AllocError> {
        let (sums, likeness, whole) = self.shares(task, netlist)?;
        if architecture.tree == Tree::Threes && self.is_better(&sums, &self.nearest.by_threes) {
            self.nearest.by_threes = Some(Best {
                plan: Plan::of(architecture),
                sums: sums.clone()?,
                likeness,
                whole,
            });
        }
        if self.is_better(&sums, &self.nearest.best) {
            self.nearest.best = Some(Best {
                plan: Plan::of(architecture),
                sums,
                likeness,
                whole,
            });
        }
        Ok(())
    }

    /// Whether the sums of an architecture are nearer than those of another one, if there is one.
    fn is_better(&self, sums: &[u128], other: &Option<Best>) -> bool {
        match other {
            None => true,
            Some(other) => self.are_nearer(sums, &other.sums),
        }
    }
}

impl<'a> Task<'a> {
    /// The values of a netlist's nodes where the inputs have these.
    pub(crate) fn values(
        &self,
        netlist: &Netlist,
        patterns: &[u128],
    ) -> Result<Values, AllocError> {
        Values::of(
            self.alloc,
            netlist.graph(),
            &self.quadratic.variables,
            patterns,
        )
    }

    /// The literals of the inputs, which enter a netlist.
    pub(crate) fn inputs(&self, netlist: &mut Netlist) -> Result<Vec<Literal>, AllocError> {
        let mut inputs = Vec::with_capacity(self.alloc, self.quadratic.variables.len())?;
        let Quadratic {
            variables,
            negated,
            ..
        } = self.quadratic;
        for place in 0..variables.len() {
            let input = netlist.input(variables[place])?;
            let is_negated = negated.get(place).copied().unwrap_or(false);
            inputs.push(negated_if(input, is_negated))?;
        }
        Ok(inputs)
    }

    /// The bits that an architecture adds up, which enter a netlist that has these inputs.
    fn partial_in(
        &self,
        netlist: &mut Netlist,
        inputs: &[Literal],
        architecture: Architecture,
    ) -> Result<Partial, AllocError> {
        let mut partial = Partial::new(self.alloc, self.quadratic.bits);
        let singles = &self.summands.singles;
        if architecture.are_singles_first {
            partial.put_singles(inputs, singles, architecture.digits)?;
        }
        for product in &self.summands.products {
            partial.put_product(
                netlist,
                inputs,
                product,
                architecture.digits,
                architecture.is_swapped,
            )?;
        }
        if !architecture.are_singles_first {
            partial.put_singles(inputs, singles, architecture.digits)?;
        }
        partial.order(architecture.order)?;
        partial.put_number(self.quadratic.constant);
        Ok(partial)
    }

    /// The word of an architecture, which enters a netlist that has these inputs.
    pub(crate) fn word_in(
        &self,
        netlist: &mut Netlist,
        inputs: &[Literal],
        plan: &Plan,
    ) -> Result<Vec<u32>, AllocError> {
        let Architecture { tree, end, .. } = plan.architecture;
        let mut partial = self.partial_in(netlist, inputs, plan.architecture)?;
        if let Some(order) = &plan.order {
            partial.take_order(order)?;
        }
        added_up(self.alloc, netlist, &partial, tree, end)
    }

    /// The netlist of an architecture, with its word.
    fn made(&self, plan: &Plan) -> Result<(Netlist, Vec<u32>), AllocError> {
        let mut netlist = Netlist::new(self.alloc)?;
        let inputs = self.inputs(&mut netlist)?;
        let word = self.word_in(&mut netlist, &inputs, plan)?;
        Ok((netlist, word))
    }

    /// The order of an architecture's rows that the nodes below a word tell. Fails where memory is
    /// refused.
    fn order_of(&self, seen: &Seen, architecture: Architecture) -> Result<Vec<usize>, AllocError> {
        let mut netlist = Netlist::new(self.alloc)?;
        let inputs = self.inputs(&mut netlist)?;
        let partial = self.partial_in(&mut netlist, &inputs, architecture)?;
        let values = self.values(&netlist, &seen.patterns)?;
        Guide::of(self.alloc, &partial, &values, &seen.values)?.order()
    }

    /// The architecture by threes of rows that is most like a word, with the rows in the order that the
    /// nodes below the word tell, if it is nearer so than the best one. Fails where memory is refused.
    fn in_order(&self, seen: &Seen, best: &Best) -> Result<Option<Best>, AllocError> {
        let Some(nearest) = &seen.nearest.by_threes else {
            return Ok(None);
        };
        if nearest.likeness < GUIDED || best.likeness >= ALL {
            return Ok(None);
        }
        let architecture = nearest.plan.architecture;
        let plan = Plan {
            architecture,
            order: Some(self.order_of(seen, architecture)?),
        };
        let (netlist, _) = self.made(&plan)?;
        let (sums, likeness, whole) = seen.shares(self, &netlist)?;
        Ok(if seen.are_nearer(&sums, &best.sums) {
            Some(Best {
                plan,
                sums,
                likeness,
                whole,
            })
        } else {
            None
        })
    }

    /// Whether something counts as less than nothing.
    fn takes_away(&self) -> bool {
        let Summands { products, singles } = self.summands;
        products.iter().any(|it| it.takes_away())
            || singles
                .iter()
                .any(|times| is_taken_away(*times, self.quadratic.bits))
    }

    /// Whether there are inputs that count by themselves.
    fn has_singles(&self) -> bool {
        self.summands.singles.iter().any(|times| *times != 0)
    }

    /// Whether rows of such digits come out otherwise in an order than in others. Single rows of
    /// which none is taken away do as other digits' rows.
    fn tells_apart(&self, digits: Digits, order: Order) -> bool {
        match order {
            Order::Ascending => true,
            Order::Merged => {
                let has_parts = self.summands.products.len() > 1 || self.has_singles();
                digits == Digits::Whole && has_parts
            }
            Order::Single => digits == Digits::Whole && self.takes_away(),
        }
    }

    /// All architectures that there may be, with chains at their ends: in another order, or with
    /// single inputs first, only where that makes a difference.
    fn architectures(&self) -> Result<Vec<Architecture>, AllocError> {
        let has_singles = self.has_singles();
        let mut all = Vec::new(self.alloc);
        for (digits, tree) in TREES {
            for is_swapped in [false, true] {
                for are_singles_first in [false, true] {
                    for order in [Order::Ascending, Order::Merged, Order::Single] {
                        let is_other = has_singles || !are_singles_first;
                        if is_other && self.tells_apart(*digits, order) {
                            all.push(Architecture {
                                digits: *digits,
                                is_swapped,
                                are_singles_first,
                                order,
                                tree: *tree,
                                end: End::Chain,
                            })?;
                        }
                    }
                }
            }
        }
        Ok(all)
    }

    /// Compares all architectures with two words, by the sums of adders.
    fn compare(&self, one: &mut Seen, other: &mut Seen) -> Result<(), AllocError> {
        for architecture in &self.architectures()? {
            let (netlist, _) = self.made(&Plan::of(*architecture))?;
            one.compare(self, &netlist, *architecture)?;
            other.compare(self, &netlist, *architecture)?;
        }
        Ok(())
    }

    /// The same architecture with the tree of prefixes at its end of which a word has most spans
    /// beyond those that it has of any tree. Their share doesn't tell: all spans of a tree of few
    /// are among those of one of many.
    fn with_end(&self, seen: &Seen, plan: &Plan) -> Result<Plan, AllocError> {
        let mut most = 0u64;
        let mut found = plan.ending_with(plan.architecture.end)?;
        for end in PREFIXES {
            let other = plan.ending_with(*end)?;
            let (netlist, _) = self.made(&other)?;
            let values = self.values(&netlist, &seen.patterns)?;
            let spans = seen.telling(self.alloc, &values, netlist.spans())?;
            let share = seen.share(&values, &spans);
            let more = u64::from(share.saturating_sub(ENDS_SO));
            let beyond = more.saturating_mul(spans.len() as u64);
            if beyond > most {
                most = beyond;
                found = other;
            }
        }
        Ok(found)
    }

    /// The architecture that is most like a word, and its end: none where there is none.
    pub(crate) fn nearest(&self, seen: &mut Seen) -> Result<Option<Plan>, AllocError> {
        seen.nearest = Nearest::none();
        for architecture in &self.architectures()? {
            let (netlist, _) = self.made(&Plan::of(*architecture))?;
            seen.compare(self, &netlist, *architecture)?;
        }
        match &seen.nearest.best {
            None => Ok(None),
            Some(best) => {
                let guided = self.in_order(seen, best)?;
                let best = guided.as_ref().unwrap_or(best);
                Ok(Some(self.with_end(seen, &best.plan)?))
            }
        }
    }

    /// The netlist that is most like a word, if one was looked at: of all rows at once, or of
    /// products that are added up each by itself.
    fn reference(&self, seen: &Seen) -> Result<Option<Reference>, AllocError> {
        let Some(best) = &seen.nearest.best else {
            return Ok(None);
        };
        let guided = self.in_order(seen, best)?;
        let best = guided.as_ref().unwrap_or(best);
        if let Some(apart) = self.apart(seen)? {
            let (sums, likeness, whole) = seen.shares(self, &apart.netlist)?;
            if seen.are_nearer(&sums, &best.sums) {
                return Ok(Some(Reference {
                    made: Made {
                        graph: apart.netlist.into_graph(),
                        word: apart.word,
                    },
                    likeness,
                    whole,
                }));
            }
        }
        let (netlist, word) = self.made(&self.with_end(seen, &best.plan)?)?;
        Ok(Some(Reference {
            made: Made {
                graph: netlist.into_graph(),
                word,
            },
            likeness: best.likeness,
            whole: best.whole,
        }))
    }
}

/// Netlists made anew for two words of a graph, the lowest literal first, each in the architecture
/// that is most like it: none where the words aren't the same sum of products of two inputs. That
/// they stand for what the words do isn't promised. Fails where memory is refused.
pub fn make_references(
    alloc: Global,
    graph: &Graph,
    first: &[Literal],
    second: &[Literal],
) -> Result<Option<References>, AllocError> {
    let Some(sum) = sum_of(alloc, graph, first, second)? else {
        return Ok(None);
    };
    let SumOfProducts {
        quadratic,
        summands,
    } = sum;
    let task = Task {
        alloc,
        quadratic: &quadratic,
        summands: &summands,
    };
    let mut one = Seen::of(alloc, graph, first, &quadratic.variables)?;
    let mut other = Seen::of(alloc, graph, second, &quadratic.variables)?;
    task.compare(&mut one, &mut other)?;
    let Some(first) = task.reference(&one)? else {
        return Ok(None);
    };
    let Some(second) = task.reference(&other)? else {
        return Ok(None);
    };
    Ok(Some(References { first, second }))
}

/// An array made anew for two words of a graph, the lowest literal first, in whatever architectures
/// these are: row after row, each added by a chain of carries, since such a netlist is added up
/// most easily. None where the words aren't the same sum of products of two inputs, or where one of
/// these is a square, whose array isn't added up more easily than another netlist. That it stands for
/// what they do isn't promised. Fails where memory is refused.
pub fn make_array(
    alloc: Global,
    graph: &Graph,
    first: &[Literal],
    second: &[Literal],
) -> Result<Option<Made>, AllocError> {
    let Some(sum) = sum_of(alloc, graph, first, second)? else {
        return Ok(None);
    };
    let SumOfProducts {
        quadratic,
        summands,
    } = sum;
    if summands.products.iter().any(|it| it.is_square()) {
        return Ok(None);
    }
    let task = Task {
        alloc,
        quadratic: &quadratic,
        summands: &summands,
    };
    let (netlist, word) = task.made(&Plan::of(ARRAY))?;
    Ok(Some(Made {
        graph: netlist.into_graph(),
        word,
    }))
}
