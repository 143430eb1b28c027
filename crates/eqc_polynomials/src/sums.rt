//! Words that are sums of products of two inputs.

use crate::factors::{Summands, summands_of};
use crate::quadratic::Quadratic;
use eqc_xag::{Graph, Literal};
use std::alloc::{AllocError, Global};

/// A sum of products of two inputs: the polynomial that it is, and the products in it.
#[derive(Drop)]
pub struct SumOfProducts {
    pub quadratic: Quadratic,
    pub summands: Summands,
}

/// The sum of products of two inputs that two words of a graph are, the lowest literal first: none
/// where they aren't the same one. Nothing is promised of it. Fails where memory is refused.
pub fn sum_of(
    alloc: Global,
    graph: &Graph,
    first: &[Literal],
    second: &[Literal],
) -> Result<Option<SumOfProducts>, AllocError> {
    let Some(quadratic) = Quadratic::of(alloc, graph, first)? else {
        return Ok(None);
    };
    if first.len() != second.len() || !quadratic.is_same(alloc, graph, second)? {
        return Ok(None);
    }
    let quadratic = quadratic.turned(alloc)?;
    let Some(summands) = summands_of(alloc, &quadratic)? else {
        return Ok(None);
    };
    Ok(Some(SumOfProducts {
        quadratic,
        summands,
    }))
}

/// Whether a word of a graph, the lowest literal first, looks like a sum of products of two inputs.
/// Nothing is promised of it. Fails where memory is refused.
pub fn is_sum_of_products(
    alloc: Global,
    graph: &Graph,
    word: &[Literal],
) -> Result<bool, AllocError> {
    let Some(quadratic) = Quadratic::of(alloc, graph, word)? else {
        return Ok(false);
    };
    Ok(summands_of(alloc, &quadratic.turned(alloc)?)?.is_some())
}
