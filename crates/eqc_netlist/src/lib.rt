//! Flat netlists: numbered signals, each with what drives it, their values, and the names of inputs
//! and outputs. What reads a text or flattens a hierarchy stands beside what compares netlists, and
//! both stand on this.
//!
//! What a flat netlist is is said in `specs/Graph.antt`. Read the modules in this order:
//!
//! - `flat`, a netlist, with lists of its `signals`; `drivers`, what drives each signal; in it
//!   `driver`, how one is shown, and `stored_driver`, how it is kept; `graph`, what is asked for an
//!   order of them
//! - `evaluation`, values
//! - `rows`, those of a cover and what they mean; `name`, how one name is stored, and `key` and
//!   `pieces`, how it is looked up; `name_set`, names with their places, by their `name_bytes` and
//!   a `near_key`
//! - `text_rule` and `rule`, what a text and a hierarchy are refused for; `refusal` and `fault`,
//!   that one is, or that memory was refused
#![tactic(auto)]

mod drivers;
mod evaluation;
mod fault;
mod flat;
mod graph;
mod key;
mod name;
mod name_bytes;
mod name_set;
mod near_key;
mod pieces;
mod refusal;
mod rows;
mod rule;
pub mod text_rule;

pub use drivers::Drivers;
pub use drivers::driver::Driver;
pub use drivers::stored_driver::StoredDriver;
pub use evaluation::eval;
pub use fault::{Fault, FaultOfTwo};
pub use flat::Flat;
pub use flat::signals::Signals;
pub use graph::Graph;
pub use key::Key;
pub use name::Name;
pub use name_set::NameSet;
pub use pieces::write_pieces;
pub use refusal::Refusal;
pub use rows::{Rows, allows, cover_value, is_on, is_on_set, row_matches};
pub use rule::{RULES, Rule};
