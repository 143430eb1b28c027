//! Functions over any store of diagrams: the diagram of a cover, and the least assignment under
//! which a function is true. Beside them truth tables of covers.
//!
//! Read the modules in this order:
//!
//! - `making`, operations on references that were made in turn: each is given back in every exit
//! - `table`, truth tables of few columns; `split`, two parts of a table at one of its columns;
//!   `expansion`, its diagram
//! - `rows`, what is asked of the rows of a cover; `splits`, the cover over its own columns as
//!   functions that are each made once; `splitting`, the diagram of these; `covers`, which of them
//!   are kept for further instances
//! - `cover`, the diagram of a cover, by its table, by its splits, by columns or by rows
//! - `least`, the least assignment, asked of the diagrams' nodes or found by applies
//!
//! What the rows of a cover say stands in `specs/Matching.antt`, what a table says in
//! `specs/Table.antt`, what splits say in `specs/Splits.antt`, and what a call makes in
//! `specs/Making.antt`.
#![tactic(auto, using(eqc_tree::proofs::HoldingLemmas::counts_itself))]

mod cover;
mod covers;
mod expansion;
mod least;
mod making;
mod rows;
mod split;
mod splits;
mod splitting;
pub mod table;

pub use cover::cover_diagram;
pub use covers::{Covers, Expansion};
pub use expansion::by_table;
pub use least::{is_false, least_over};
