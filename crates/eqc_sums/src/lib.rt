//! Linear forms over the values of a graph's nodes, and steps that leave what they come to as it
//! is.
//!
//! A linear form over the nodes has a value under each assignment, modulo 2^128. Terms that come to
//! 0 under each are added to it, as those of an adder, which leaves its value as it is. A form that
//! compares two words and comes to zero so shows them equal, literal by literal, since a number has
//! one binary expansion. Which steps are taken is for crates above to choose: of that nothing is
//! believed here. Read the modules in this order:
//!
//! - `term` and `form`: terms, and forms with what they come to (`specs/Forms.antt`)
//! - `gates`, the sum and the carry of three literals; `steps`, terms that come to 0; `polynomial`,
//!   literals as polynomials
//! - `words`, the terms that compare two words (`specs/Adding.antt`)
//! - `reduction`, the public type: a form over a graph that grows, and what it comes to stays
//!
//! `proofs` has what proofs above need besides the contracts, for `#[tactic(auto, using(..))]` and
//! in answers:
//!
//! - `KeepLemmas` `keeps_itself`, `keeps_same`, `keeps_along`: a graph and a form that stay as they
//!   are, and steps one behind the other
//! - `WordLemmas` `concluded`: two words are equal where the form that compares them came to zero
//! - `GateLemmas` `extends_both`, and what is made of literals in a graph that grows: `moved`,
//!   `there`, `made`, `complement`, `said`
#![tactic(auto)]

mod form;
mod gates;
mod polynomial;
mod reduction;
mod steps;
mod term;
mod words;

pub use form::Form;
pub use reduction::Reduction;
pub use term::Term;
pub use words::MOST_LITERALS;
