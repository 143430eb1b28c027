//! Reports: what one is, how what a comparison of a pair found becomes one, its bytes, and what a
//! run may use for it. What finds it stands in `eqc_engine`; nothing here makes a diagram, searches
//! or starts a thread.
//!
//! What the report has to be is said in `specs/Report.antt` and `specs/PairReport.antt`. Read the
//! modules in this order, the way of the data:
//!
//! - `options`, what a comparison may use, and `option_rule`, what options are refused for
//! - `found`, the report on what was found, and `evaluating`, an output's value; `undecided`, the
//!   outputs that a stop leaves
//! - `report`, reports and their bytes; `io`, how a text is written, and what may go wrong there
#![tactic(auto)]

mod evaluating;
mod found;
mod io;
mod option_rule;
mod options;
mod report;
mod undecided;

pub use found::found_report;
pub use io::fault::{RunFault, StreamFault};
pub use io::writing::write_text;
pub use option_rule::{OPTION_RULES, OptionRule};
pub use options::{Options, options_fault};
pub use report::text::{write_or_stop, write_report};
pub use report::{Difference, Differences, Report, Status};
pub use undecided::{Left, Seen, Undecided, Word, note_seen};
