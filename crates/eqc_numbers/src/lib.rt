//! Words of a graph that stand for the same number, shown equal.
//!
//! How words are found and which way is tried is believed in nothing: that two are equal is shown by
//! searches, whose clauses are checked (`eqc_sweep`), or by what both add up to (`eqc_adders`), and
//! comes back from the copy in which it was shown. Read the modules in this order:
//!
//! - `names`, words among outputs
//! - `chains`, a copy of a graph in which chains of carries stand in place of trees of prefixes
//!   (`specs/Chains.antt`), and `leaves`, what is left of exclusive ors in which something cancels
//!   out; `marks`, of nodes
//! - `shown`, words shown equal in a copy of what they are made of (`specs/Copies.antt`)
//! - `compared`, what searches find of two words; `anew`, words shown equal by way of netlists that
//!   are made anew (`eqc_products`), and `cuts`, where nodes that both are made of are inputs
//!   (`specs/Cuts.antt`)
//! - `cases`, words shown equal for each value of the inputs that choose what a design does, and
//!   `cofactor`, what is left of a graph where an input has a value (`specs/Cases.antt`)
//! - `lookalikes`, words inside netlists that look alike
#![tactic(auto)]

mod anew;
mod cases;
mod chains;
mod cofactor;
mod compared;
mod cuts;
mod leaves;
mod lookalikes;
mod marks;
mod names;
mod shown;

pub use anew::{are_equal_anew, are_equal_as_made, are_equal_by_arrays};
pub use cases::are_equal_in_cases;
pub use chains::{Shape, copy_shaped};
pub use lookalikes::find_lookalikes;
pub use names::words_of;
pub use shown::{Words, are_shown_equal};
