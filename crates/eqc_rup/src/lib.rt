//! A RUP checker, with hints as in LRAT: clauses that are true of a graph, whatever the values of
//! the variables, and the check by which one comes in.
//!
//! What finds clauses isn't believed: it gives hints, each of which is a clause that is unit or
//! false in its turn, and the check follows them. Read the modules in this order:
//!
//! - `specs/Clauses.antt`, what clauses say of a graph
//! - `clauses`, the store; `hint`, what a clause is shown by
//! - `falsified`, the literals that are taken to be false; `marks`, the memory in which that is
//!   done
//! - `left`, what is left of a clause; `reading`, the clause of a hint
//! - `check`, the hints in their turn, and the calls that learn and refute
//!
//! `proofs/ClauseLemmas.antt` has what proofs above need besides the contracts, for
//! `#[tactic(auto, using(..))]`:
//!
//! - `none_sound`, `extended_sound`: no clauses are sound, and what is sound for a graph is so for
//!   each that extends it
//! - `put_sound`, `given_up_sound`: a store stays sound where a true clause comes in, and where one
//!   goes
//! - `extended_true`: a clause that is true of a graph is true of each that extends it
//! - `equal_if_refuted`: two literals are equal where neither can be true without the other
#![tactic(auto)]

mod check;
mod clauses;
mod falsified;
mod hint;
mod left;
mod marks;
mod reading;

pub use clauses::Clauses;
pub use hint::Hint;
pub use marks::Marks;
