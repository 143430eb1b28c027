//! Adders that are found in a graph, and steps by which two words are shown to add up the same.
//!
//! What looks for adders, and what chooses steps, is believed in nothing: what it does to the form
//! that compares two words goes through the steps of `eqc_sums`, which leave its value as it is.
//! Read the modules in this order:
//!
//! - `support`, the inputs below a node; `adders`, what is known of the nodes, and in it `finding`,
//!   how adders are found
//! - `moves`, steps as values; `place`, those that are there for a node of a form, and `choice`,
//!   which step comes next
//! - `columns`, what a word comes to, added up as another one does it, with the literals of one
//!   `column` and what is `chosen` of them
//! - `sums`, the public type and its calls
//! - `inner`, words that look alike, by the `frames` in which their nodes count
#![tactic(auto)]

mod adders;
mod choice;
mod chosen;
mod column;
mod columns;
mod frames;
mod inner;
mod moves;
mod place;
mod sums;
mod support;

pub use inner::{Lookalikes, is_made_alike};
pub use sums::{Attempts, Limits, Sums, has_adders};
pub use support::{ROOM, Support, differing, of_one};
