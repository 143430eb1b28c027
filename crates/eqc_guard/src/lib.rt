//! The running words of the shared forest: one table, whose rule is the machine's lawful state.
//!
//! Each worker is a seat of the table, and each of its step methods is one step of the machine in
//! `eqc_core`, whatever the other workers do; `load_cell` loads a cell's word and leaves the
//! machine's state as it is. What a worker knows, its view of the machine and the tree of each name
//! that it names, is for proofs alone: at run time a held name costs its `Ref`. Read the modules in
//! this order:
//!
//! - `rule`, with `specs/Rule.antt`: what holds of the table between any two steps, and what each
//!   step tells. Words lie kind by kind: announcements, counts, nodes, cells, boxes, locks
//! - `view`, with `specs/Known.antt`: what a worker knows. `IsKnown` holds of it between its steps,
//!   and `Stepped` says that a step leaves the trees of what is named before and after it, and a
//!   copy of the words where there was one
//! - `worker`, with `specs/Standing.antt`: the step methods, splits and joins, and what callers
//!   see; `specs/Splitting.antt`, `specs/Snapshots.antt`, `specs/Acquiring.antt`,
//!   `specs/Filling.antt`, `specs/Sweeping.antt` and `specs/Closing.antt` have the words of its
//!   contracts. `names` has the lists of names of fixed size that it keeps, and `phases` the phases
//!   of its announcement words
//! - in `worker`: `nodes`, with `specs/Making.antt`, the steps on slots and nodes; `stripes`, with
//!   `specs/Locking.antt`, the locks of the unique table, whose maps alone leave their slots;
//!   `boxes`, with `specs/Sharing.antt`, the steps on boxes, whose words are parcels (`parcel`)
//! - `forest`, a new table with its worker 0; `origin`, how it begins, and `stock`, its first words
//!   and tables; `reference`, `filled`, `fault` and `tally`, what calls take and give
//!
//! In `proofs`: `Stepping` has the one combinator, by which a step owes its new words, its lawful
//! state and what it tells (`allows`); trees and copies follow there. `Moves`, `Making` and
//! `Locking` have what each step owes, and `Trying` what a try tells after a load of its word.
//! `Learning` gives `IsKnown` from a lawful state, and `Seats` that splits and joins keep the rule.
//! After a join a load that leaves the view (`settle_allows`) says again what is known.
#![tactic(auto)]

pub mod fault;
pub mod filled;
pub mod forest;
mod names;
pub mod origin;
pub mod parcel;
mod phases;
pub mod reference;
pub mod rule;
mod stock;
pub mod tally;
pub mod view;
pub mod worker;
