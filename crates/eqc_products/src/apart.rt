//! Products that are added up each by itself, and their words by chains of carries: so does a design
//! that multiplies in modules of its own.

use crate::guide::plain;
use crate::netlist::{FALSE, Netlist};
use crate::references::{Seen, Task};
use eqc_polynomials::{ASSIGNMENTS, Factor, Product, Quadratic, Summands};
use eqc_xag::Literal;
use std::alloc::{AllocError, Global};

/// A netlist, and its word.
#[derive(Drop)]
pub(crate) struct Apart {
    pub(crate) netlist: Netlist,
    pub(crate) word: Vec<u32>,
}

/// A word, and the numbers that it stands for under the assignments that are simulated.
#[derive(Drop)]
struct Part {
    word: Vec<u32>,
    numbers: Vec<u128>,
}

/// The same factor once more. Fails where memory is refused.
fn copied(factor: &Factor) -> Result<Factor, AllocError> {
    Ok(Factor {
        places: factor.places.clone()?,
        is_signed: factor.is_signed,
    })
}

/// A product as all that there is to add up, in the inputs of a polynomial.
#[derive(Drop)]
struct Alone {
    quadratic: Quadratic,
    summands: Summands,
}

impl Alone {
    /// That of a product, with as many bits as it has by itself, or as the sum has where it may be
    /// less than nothing. Fails where memory is refused.
    fn of(alloc: Global, quadratic: &Quadratic, product: &Product) -> Result<Alone, AllocError> {
        let inputs = quadratic.variables.len();
        let bits = (product.lowest as usize)
            .saturating_add(product.first.places.len())
            .saturating_add(product.second.places.len());
        let mut products = Vec::new(alloc);
        products.push(Product {
            first: copied(&product.first)?,
            second: copied(&product.second)?,
            lowest: product.lowest,
            is_negative: product.is_negative,
        })?;
        Ok(Alone {
            quadratic: Quadratic {
                bits: if product.takes_away() {
                    quadratic.bits
                } else {
                    bits.min(quadratic.bits)
                },
                variables: quadratic.variables.clone()?,
                negated: quadratic.negated.clone()?,
                constant: 0,
                singles: vec![in alloc; 0u128; inputs]?,
                pairs: Vec::new(alloc),
            },
            summands: Summands {
                products,
                singles: vec![in alloc; 0u128; inputs]?,
            },
        })
    }

    fn task(&self, alloc: Global) -> Task<'_> {
        Task {
            alloc,
            quadratic: &self.quadratic,
            summands: &self.summands,
        }
    }
}

/// The literal of a column.
fn bit(word: &[Literal], k: usize) -> Literal {
    word.get(k).copied().unwrap_or(FALSE)
}

/// The sum of two words of so many bits by a chain of carries. Fails where memory is refused.
fn chained(
    alloc: Global,
    netlist: &mut Netlist,
    p: &[Literal],
    q: &[Literal],
    bits: usize,
) -> Result<Vec<u32>, AllocError> {
    let mut word = Vec::with_capacity(alloc, bits)?;
    let mut carry = FALSE;
    for k in 0..bits {
        let (sum, more) = netlist.add(bit(p, k), bit(q, k), carry)?;
        word.push(sum)?;
        carry = more;
    }
    Ok(word)
}

/// The numbers of a sum.
fn added(alloc: Global, p: &[u128], q: &[u128]) -> Result<Vec<u128>, AllocError> {
    let mut all = Vec::with_capacity(alloc, p.len())?;
    for k in 0..p.len().min(q.len()) {
        all.push(p[k].wrapping_add(q[k]))?;
    }
    Ok(all)
}

/// How many of the lowest bits of numbers are among the values that were seen.
fn bits_seen(seen: &Seen, numbers: &[u128], bits: usize) -> u32 {
    let mut count = 0u32;
    for k in 0..bits.min(128) {
        let mut value = 0u128;
        for assignment in 0..numbers.len().min(ASSIGNMENTS).min(128) {
            value = value | (numbers[assignment] >> k & 1) << assignment;
        }
        let is_seen = seen.values.binary_search(&plain(value)).is_ok();
        count = count.saturating_add(u32::from(is_seen));
    }
    count
}

impl<'a> Task<'a> {
    /// The words of all products, each in the architecture that is most like a word, and of what
    /// counts by itself, in a netlist.
    fn words_apart(
        &self,
        seen: &mut Seen,
        netlist: &mut Netlist,
    ) -> Result<Option<Vec<Vec<u32>>>, AllocError> {
        let inputs = self.inputs(netlist)?;
        let mut words = Vec::new(self.alloc);
        for product in &self.summands.products {
            let alone = Alone::of(self.alloc, self.quadratic, product)?;
            let task = alone.task(self.alloc);
            let Some(plan) = task.nearest(seen)? else {
                return Ok(None);
            };
            words.push(task.word_in(netlist, &inputs, &plan)?)?;
        }
        let singles = self.single_word(&inputs)?;
        if !singles.is_empty() {
            words.push(singles)?;
        }
        Ok(Some(words))
    }

    /// The word of inputs that count by themselves, one in a column at most.
    fn single_word(&self, inputs: &[Literal]) -> Result<Vec<u32>, AllocError> {
        let singles = &self.summands.singles;
        let mut columns = 0u128;
        for times in singles {
            columns = columns | *times;
        }
        let bits = 128u32.saturating_sub(columns.leading_zeros()) as usize;
        let mut word = vec![in self.alloc; FALSE; bits]?;
        for place in 0..singles.len().min(inputs.len()) {
            let column = singles[place].trailing_zeros() as usize;
            if column < word.len() {
                word[column] = inputs[place];
            }
        }
        Ok(word)
    }

    /// Whether each summand is a word that is added: products, and inputs of which one counts in a
    /// column.
    fn are_words(&self) -> bool {
        let Summands { products, singles } = self.summands;
        let mut columns = 0u128;
        for times in singles {
            if *times != 0 && (!times.is_power_of_two() || columns & *times != 0) {
                return false;
            }
            columns = columns | *times;
        }
        let count = products.len().saturating_add(usize::from(columns != 0));
        count > 1
            && self.quadratic.constant == 0
            && !products.iter().any(|it| it.is_negative || it.is_square())
    }

    /// A netlist of products that are added up each by itself, in the architectures that are most
    /// like what a word is made of, and then by chains: each time those two words of whose sum most
    /// bits are there. None where there are no words to add so. Fails where memory is refused.
    pub(crate) fn apart(&self, seen: &Seen) -> Result<Option<Apart>, AllocError> {
        if !self.are_words() {
            return Ok(None);
        }
        let mut seen = seen.again()?;
        let mut netlist = Netlist::new(self.alloc)?;
        let Some(words) = self.words_apart(&mut seen, &mut netlist)? else {
            return Ok(None);
        };
        let parts = self.parts_of(&seen, &netlist, words)?;
        let word = self.joined(&seen, &mut netlist, parts)?;
        Ok(Some(Apart { netlist, word }))
    }

    /// Words with the numbers that they stand for.
    fn parts_of(
        &self,
        seen: &Seen,
        netlist: &Netlist,
        words: Vec<Vec<u32>>,
    ) -> Result<Vec<Part>, AllocError> {
        let values = self.values(netlist, &seen.patterns)?;
        let mut parts = Vec::with_capacity(self.alloc, words.len())?;
        for word in words {
            let mut numbers = Vec::with_capacity(self.alloc, ASSIGNMENTS)?;
            for assignment in 0..ASSIGNMENTS {
                numbers.push(values.number(&word, assignment))?;
            }
            parts.push(Part { word, numbers })?;
        }
        Ok(parts)
    }

    /// The two parts of whose sum most bits were seen, by their places.
    fn next_two(&self, seen: &Seen, parts: &[Part]) -> Result<(usize, usize), AllocError> {
        let mut best = (0, 1);
        let mut most = 0u32;
        for j in 0..parts.len() {
            for i in 0..j {
                let numbers = added(self.alloc, &parts[i].numbers, &parts[j].numbers)?;
                let count = bits_seen(seen, &numbers, self.quadratic.bits);
                if count > most {
                    most = count;
                    best = (i, j);
                }
            }
        }
        Ok(best)
    }

    /// The word of all parts, two of which are added at a time.
    fn joined(
        &self,
        seen: &Seen,
        netlist: &mut Netlist,
        mut parts: Vec<Part>,
    ) -> Result<Vec<u32>, AllocError> {
        let bits = self.quadratic.bits;
        for _ in 1..parts.len() {
            let (i, j) = self.next_two(seen, &parts)?;
            if i >= j || j >= parts.len() {
                break;
            }
            let q = parts.remove(j);
            let p = parts.remove(i);
            let word = chained(self.alloc, netlist, &p.word, &q.word, bits)?;
            let numbers = added(self.alloc, &p.numbers, &q.numbers)?;
            parts.push(Part { word, numbers })?;
        }
        match parts.pop() {
            None => Ok(Vec::new(self.alloc)),
            Some(part) => Ok(part.word),
        }
    }
}
