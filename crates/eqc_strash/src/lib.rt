//! Structural hashing of netlists: classes of the signals of two flat netlists. Signals that are
//! driven alike, down to the inputs, are one class. No function is looked into.
//!
//! What the structure of a signal is stands in `specs/Structure.antt`, what classes are in
//! `specs/Classes.antt`, and that signals of one class have equal values in `specs/Laws.antt`. Read
//! the modules in this order:
//!
//! - `signal_classes`, the call and what it gives; `numbering`, the signals of one netlist
//! - `class_table`, classes by their shapes; `shape`, what tells a class
//! - `row_set`, rows by their numbers, as a `rows_key`
//! - `laws`, facts about the definitions
#![tactic(auto)]

mod class_table;
mod columns;
mod laws;
mod numbering;
mod row_set;
mod rows_key;
mod shape;
mod signal_classes;

pub use laws::{equal_structures_have_equal_values, structures_follow_drivers};
pub use signal_classes::{SignalClasses, classes};
