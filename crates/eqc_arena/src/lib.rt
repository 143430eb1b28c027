//! The arena of the shared forest: one slot for each node, made and taken back by all workers.
//!
//! A node's word, its variable and its children, belongs to one of sixteen stripes, and the
//! stripe's map has the slot of each word that there is. A node with the count 1 is owned by its
//! map alone: it is dead, and stays until a collection. Who has the stripe's lock looks a word up,
//! and where it isn't there writes the node into a free slot that he has claimed. Read the modules
//! in this order:
//!
//! - `specs/Changing.antt`, what a call changes of what a worker holds
//! - `nodes`, references of nodes, and their children
//! - `boxes`, with `specs/Unboxing.antt`: what came out of a box is given back, and all boxes are
//!   emptied
//! - `collecting`, with `specs/Emptying.antt`: dead nodes are taken back, turn by turn over all
//!   stripes, and after each stripe those children that fell to one owner in a stripe that the turn
//!   has passed; `specs/Taking.antt` has what its parts do where the worker is alone
//! - `sweeping`: dead nodes are taken back where room is needed, each worker in a part of the
//!   stripes
//! - `making`, with `specs/Nodes.antt`: the one node of a variable and two children
#![tactic(auto)]

pub mod boxes;
pub mod collecting;
pub mod making;
pub mod nodes;
mod sweeping;
