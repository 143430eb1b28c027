//! Words of a graph as polynomials of degree two: which sum of products a word stands for.
//!
//! A polynomial is found by simulation, and so are the words whose products it adds up. Nothing is
//! believed of it here: what is made of a polynomial has to be shown equal to the word. Read the
//! modules in this order:
//!
//! - `simulation`, the values of a graph's nodes for many assignments
//! - `quadratic`, a word as a polynomial of degree two in its inputs
//! - `factors`, the products of words in it, and squares
//! - `sums`, words that are sums of products
#![tactic(auto)]

mod factors;
mod quadratic;
mod simulation;
mod sums;

pub use factors::{Factor, Product, Summands, column_of, is_taken_away};
pub use quadratic::{Pair, Quadratic};
pub use simulation::{ASSIGNMENTS, Values, random_patterns};
pub use sums::{SumOfProducts, is_sum_of_products, sum_of};
