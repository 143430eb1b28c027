//! The case of a run: what it is given and reads, which models are compared, what the answer has to
//! be, and what is told beside the report. Nothing here compares anything: which report it is, by
//! the checks in their order, is decided in `eqc_check`.
//!
//! What the answer has to be is said in `specs/Answer.antt`, over `specs/Report.antt` of
//! `eqc_report`. Read the modules in this order, the way of the data:
//!
//! - `given`, what a run is given and what is read of it, over `reading`; `choice`, which models
//!   are compared
//! - `told`, a report with its warnings; `warning`, models that are contained in others
//! - `explaining`, what is at fault in texts that are refused, told to `diagnostics`
//! - `remaking`, a pair that is made once more, to tell of it too: `locating`, where differences
//!   begin, and `bordering`, up to where equality is known
//! - `laws`, facts about the definitions, as functions without a body
#![tactic(auto)]

mod bordering;
mod choice;
mod diagnostics;
mod explaining;
mod given;
mod laws;
mod locating;
mod reading;
mod remaking;
mod told;
mod warning;

pub use choice::{Main, ModelNames, OutputNames, choose, read_main};
pub use diagnostics::{Bordered, Compared, Diagnostics, Located, Netlist, NoDiagnostics};
pub use explaining::tell_of_case;
pub use given::{Case, Given, Texts, Unread, bytes_of, read_given};
pub use laws::{
    answer_differs_at_first_difference, answer_is_equivalent_where_always_equal,
    answer_is_first_refusal, answer_is_one_for_all_orders,
    answer_is_vacuous_where_nothing_is_allowed, chosen_model_is_the_named_one, runs_are_answered,
};
pub use remaking::{border_in_case, locate_in_case};
pub use told::Told;
pub use warning::{Contained, Warnings, warnings_in_one, warnings_in_two};
