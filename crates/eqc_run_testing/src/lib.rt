//! What the tests of several crates need of runs.
//!
//! - `running`, what makes runs and looks at what they write; `together`, which sees how many
//!   workers a run has at work
//! - `adders`, texts of a hierarchy
#![tactic(auto)]

mod adders;
mod running;
mod together;

pub use adders::{ADDERS, WRONG_ADDERS, WRONG_SUM};
pub use running::{
    CONFLICTS, Numbers, TEAMS, TWO, given, options, ran, ran_together, reports, reports_by,
    reports_on, status_of, two_of, workers_on,
};
pub use together::Together;
