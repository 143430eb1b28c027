//! Flat netlists: a library and its main model become one list of numbered signals, each with what
//! drives it, or the first fault of the hierarchy.
//!
//! What a hierarchy means is said in `eqc_hierarchy`, which tells what can be told model by model;
//! what a flat netlist has of it is said in `specs/Graph.antt` and `specs/Flattened.antt`. Read the
//! modules in this order:
//!
//! - `flattening`, the call; `flat`, what it gives, with its `signals` and their order by
//!   dependency, `signal_order`; `fault`, why it gives none
//! - `hierarchy`, with its `instances` in a row
//! - `drivers`, what drives each signal; in it `driver`, how one is shown, and `stored_driver`, how
//!   it is kept; `driver_table`, how they are found; `row_table`, the rows of covers
//! - `explanation`, what is at fault, as a `finding`; in it `driver_findings`, told by a
//!   `hierarchical_name`, and `circle_finding`, told by a `circle`
//! - `evaluation`, values; `laws`, facts about the definitions
#![tactic(auto)]

mod drivers;
mod explanation;
mod finding;
mod flattening;
mod hierarchy;
mod laws;
mod signal_order;

pub use eqc_hierarchy::{FoundFormal, FoundInstance};
pub use eqc_netlist::{Driver, Fault, FaultOfTwo, Flat, NameSet, RULES, Rule, Signals, eval};
pub use explanation::explain;
pub use finding::Finding;
pub use finding::circle::Circle;
pub use finding::hierarchical_name::{HierarchicalName, Step};
pub use flattening::{DEFAULT_INPUTS, flatten, flatten_two, flatten_within};
pub use laws::{
    accepted_have_values, covers_depend_on_columns_alone, cyclic_where_reached,
    recursive_where_reached, signals_are_names_of_instances, signals_stand_once,
    values_are_there_for_all, values_depend_on_inputs_alone, values_stay,
};
