//! SAT sweeping of a pair, that is what is found of it inside, without a diagram: outputs that are
//! equal or differ, by a graph of the steps of both netlists in which nodes that are found equal
//! are one.
//!
//! What literals of the graph tell is said in `eqc_literals`, what is found by them in `eqc_miter`
//! and `specs/Searching.antt`, and what a comparison has to find in `eqc_compare`. Read the modules
//! in this order:
//!
//! - `inside`, the graph, and the outputs and steps that are equal by it; `entering`, what enters
//!   it
//! - `rounds`, what is asked once more with more effort; `outputs`, outputs that are asked about
//!   once more
//! - `adding`, when words of outputs that add up the same are looked for, and `inner`, when words
//!   inside that do, and outputs that do in each case: what is found of them has `eqc_datapath`
//! - `searching`, outputs that differ, with their least assignments, in the order of the first
//!   netlist
#![tactic(auto)]

mod adding;
mod entering;
mod inner;
mod inside;
mod outputs;
mod rounds;
mod searching;

pub use eqc_datapath::{Kind, Look};
pub use eqc_miter::Conflicts;
pub use inside::Inside;
pub use rounds::{Rounds, Span};
pub use searching::{Searched, Terms};
