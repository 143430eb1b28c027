//! What literals tell of a pair whose steps entered a graph in which nodes that are found equal are
//! one: outputs that never differ, and steps that may be made in place of others.
//!
//! What they tell is said in `specs/Literals.antt`, and which steps may be chosen in `eqc_build`.
//! Read the modules in this order:
//!
//! - `literal`, the literal of a step; `entering`, how steps get theirs, and `moving`, how they get
//!   those of a graph into which theirs was copied
//! - `choice`, steps that are chosen in place of others of their literal; `marks`, outputs whose
//!   two steps have one
//! - `owned`, a graph that is let go in one call
#![tactic(auto)]

mod choice;
mod entering;
mod literal;
mod marks;
mod moving;
mod owned;

pub use choice::first_of_literal;
pub use entering::{CHARACTERS, entered};
pub use literal::literal_of;
pub use marks::{mark, outputs_of_one_literal};
pub use moving::moved;
pub use owned::Owned;
