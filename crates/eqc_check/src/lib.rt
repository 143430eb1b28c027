//! Reports on two netlists: from their texts to the bytes of a report. What makes a pair stands in
//! `eqc_pair`, how its first differing output is found in `eqc_compare`, what is tried on it in
//! `eqc_engine`, and what the report on it is in `eqc_report`; their calls are offered here too.
//!
//! What the report has to be is said in `specs/Answer.antt` of `eqc_case`, over `specs/Report.antt`
//! of `eqc_report`. Read the modules in this order, the way of the data:
//!
//! - `running`, texts in and a report out; `decide`, which refusal or comparison it is. What a run
//!   is given and reads, which models are compared, and what is told beside the report stands in
//!   `eqc_case`
#![tactic(auto, using(eqc_tree::proofs::HoldingLemmas::counts_itself))]

mod decide;
mod running;

pub use eqc_case::{
    Contained, Diagnostics, Given, ModelNames, NoDiagnostics, OutputNames, Texts, Warnings,
    answer_differs_at_first_difference, answer_is_equivalent_where_always_equal,
    answer_is_first_refusal, answer_is_one_for_all_orders,
    answer_is_vacuous_where_nothing_is_allowed, chosen_model_is_the_named_one, runs_are_answered,
};
pub use eqc_compare::{
    Gate, NoGate, Progress, Stage, allows_none, compare_output, difference_is_of_values,
    first_difference_is_first, first_difference_is_none_where_equal, inputs_are_matched_by_name,
    least_assignment, least_difference_is_least, least_difference_is_none_where_equal,
    least_difference_is_unique,
};
pub use eqc_engine::{check, check_plain, check_with};
pub use eqc_pair::{
    Finding, PAIR_RULES, Pair, Refused, Rule, Side, Unmatched, explain_assumption, explain_pair,
    pair, pair_assuming, pair_choosing,
};
pub use eqc_report::{
    Difference, Differences, OPTION_RULES, OptionRule, Options, Report, RunFault, Seen, Status,
    Undecided, options_fault, write_report, write_text,
};
pub use running::{Finished, run, run_explained, run_models};
