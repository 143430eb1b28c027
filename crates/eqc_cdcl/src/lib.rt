//! A CDCL search: whether all of some literals of a graph can be true at once, answered by a search
//! for an assignment that learns from its conflicts. Nothing that it finds is believed: each clause
//! that it learns is shown to the store by hints, and so is the answer that the literals can't be
//! true together.
//!
//! The search looks at a window of the graph, the highest gates below the question, which grows
//! where an assignment satisfies it. Read the modules in this order:
//!
//! - `reads`, places of rows that may not be there
//! - `values`, the literals that are true, in their order, and why; `decisions`, the nodes that may
//!   be decided, the one of the latest conflict first, and `heights`, those that were in none;
//!   `restarts`, when all decisions are taken back
//! - `window`, the gates that are looked at, and `frontier`, those that may come; `learned`, the
//!   learned clauses and who watches them
//! - `engine`, these together; `propagation`, what follows; `conflict`, what a conflict teaches and
//!   how it is shown
//! - `contradiction`, assumptions that need no search; `search`, the question
#![tactic(auto)]

mod conflict;
mod contradiction;
mod decisions;
mod engine;
mod frontier;
mod heights;
mod learned;
mod propagation;
mod reads;
mod restarts;
mod search;
mod values;
mod window;

pub use search::{Answer, Budget, Decides, Search};
