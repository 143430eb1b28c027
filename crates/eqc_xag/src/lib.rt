//! And-xor graphs (XAIGs): gates over the inputs' variables, and what its literals say.
//!
//! A graph is a row of nodes, each of which is made of earlier ones. A literal is a node or its
//! complement, in one number. Read the modules in this order:
//!
//! - `node`, the kinds of nodes, with `specs/Graph.antt`: the values of nodes and literals
//! - `literal`, literals and their complements
//! - `graph`, the row of nodes
//!
//! `proofs/GraphLemmas.antt` has what proofs above need besides the contracts, for
//! `#[tactic(auto, using(..))]`:
//!
//! - `extends_itself`, `extends_same`, `extends_along`: a graph extends itself and each equal one,
//!   and what extends one that extends a third extends the third
//! - `extends_more`, `value_stays`: literals keep their values where nodes come behind;
//!   `extends_cut`: and where some go
//! - `unmade`, `cut_back`: nodes that were pushed and taken back leave the graph as it was
//! - `value_pushed`, `value_at_node`: the value of a node's literal, when it is pushed and later,
//!   is what the node says
//! - `value_of_zero`, `value_of_one`: literal 0 is false, and literal 1 is true
#![tactic(auto)]

mod graph;
mod literal;
mod node;

pub use graph::Graph;
pub use literal::{Literal, is_negated, negated, negated_if, node_of};
pub use node::Node;
