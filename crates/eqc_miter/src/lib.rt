//! Where an output of a pair differs, as a literal of a graph that steps of the pair entered: the
//! miter of its two signals, and the least assignment under which it is true.
//!
//! What the literals say, and what is found of them, is said in `specs/Asking.antt`; of the
//! searches, those of `eqc_witness`, nothing is believed. Read the modules in this order:
//!
//! - `difference`, the literals; `allowing`, whether no assignment is allowed
//! - `entering`, which steps enter a graph, so that no more is asked than has to be
//! - `conflicts`, what searches may have; `asking`, outputs that are asked for, several of them at
//!   once by several threads
#![tactic(auto)]

mod allowing;
mod asking;
mod conflicts;
mod difference;
mod entering;

pub use allowing::is_never_allowed;
pub use asking::{Answer, Question, Share, Subject, ask, ask_all, note, question_of, questions_of};
pub use conflicts::Conflicts;
pub use difference::allowed_literal;
pub use entering::{Entered, entered_wanted};
