//! Shared decision diagrams on one thread: `Plain`, an implementation of `eqc_tree`'s traits.
//!
//! Its node store only grows. No call waits for anybody, and none recurses: an apply keeps its
//! open tasks on a stack of its own, so it passes through any number of variables in little of
//! the thread's stack. Read the modules in this order:
//!
//! - `plain`, the public type and its calls; `reference`, what is handed out; `node_count`, what
//!   tells how many nodes are in use
//! - `store`, the nodes and counts, which is public for copies of other diagrams; `unique_table`,
//!   the list of node words that finds a word
//! - `apply`, the loop; `task`, its stack; `terminal`, what needs no nodes; `cache`; `turns`, how
//!   long the loop may go on. The last four know no store, and are public for other diagrams' loops
//! - `least`, the least assignment; `search`, what it keeps; `diagram`, the copy of one function's
//!   nodes that is searched
#![tactic(auto)]

mod apply;
pub mod cache;
mod diagram;
mod least;
mod node_count;
mod plain;
mod reference;
mod search;
pub mod store;
pub mod task;
pub mod terminal;
pub mod turns;
mod unique_table;

pub use node_count::NodeCount;
pub use plain::Plain;
pub use reference::Ref;
