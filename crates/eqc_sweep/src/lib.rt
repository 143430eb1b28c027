//! A graph in which nodes that are found equal are one.
//!
//! A netlist enters gate by gate, and what is made is the literal of a node. Nodes are made of
//! earlier ones, so a node that was not made is in no other. Read the modules in this order:
//!
//! - `sweep`, the public type and its calls; `effort`, what they may cost
//! - `rules`, what stands in place of a gate, by its `and_rules` and `xor_rules`; in it `gate`,
//!   what a literal is of its gate's operands, and `relations`, what numbers of literals tell;
//!   `reduced`, what a rule gives
//! - `finder`, older nodes that a new one equals; in it `patterns` and `counterexamples`,
//!   simulation, with `words` and `random`; `classes`, nodes by their signatures; `account`, what
//!   may be spent; `comparison`, what is found of two literals; `waiting` and `team`, nodes that
//!   are asked about side by side, and `twins`, pairs of literals that are
//! - `copying`, the nodes of a graph in another one; in it `ready`, which of them may enter
//! - `table`, structural hashing, by the `order` of a gate's operands under which it is looked up
#![tactic(auto)]

mod copying;
mod effort;
mod finder;
mod reduced;
mod rules;
mod sweep;
mod table;

pub use copying::{below, copied, copy, no_copies};
pub use effort::{Effort, Tally};
pub use finder::comparison::Comparison;
pub use finder::random::Random;
pub use finder::twins::Twins;
pub use sweep::Sweep;
