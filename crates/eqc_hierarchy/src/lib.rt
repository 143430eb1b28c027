//! Hierarchies: the models that a main model reaches, the names of each, the first condition that
//! their instances break, and what is at fault there. All of it is told model by model, before any
//! instance or signal is numbered.
//!
//! What a hierarchy means is said in `specs/Hierarchy.antt`, `specs/Signals.antt` and
//! `specs/Codes.antt`. Read the modules in this order:
//!
//! - `calls`, which models a model's instances name; in it `reach`, which models are reached, and
//!   `recursion`, a chain of models that comes back; `search`, an order over a graph
//! - `model_faults`, the first rule that a model breaks, by a `condition`, whose
//!   `instance_conditions` are those of instances
//! - `instance_findings`, what is at fault, told by a `found_instance`
//! - `naming`, the names of each model, by its `model_names`; `size`, how large the hierarchy is
#![tactic(auto)]

mod calls;
mod condition;
mod instance_findings;
mod model_faults;
mod naming;
mod search;
mod size;

pub use calls::recursion::recursive_chain;
pub use calls::{Calls, instances};
pub use eqc_netlist::{Graph, NameSet, RULES, Rule};
pub use instance_findings::found_instance::{FoundFormal, FoundInstance};
pub use instance_findings::{formal_twice, missing_input, missing_model, unknown_formal};
pub use model_faults::first_model_fault;
pub use naming::Naming;
pub use search::{Search, Stage};
pub use size::hierarchy_size;
