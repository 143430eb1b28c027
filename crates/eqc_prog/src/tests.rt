//! The tests of the program: its command lines, what it writes, and how it ends.
//!
//! - `program`, reports and statuses; `program_ends`, faults, bad command lines and help
//! - `models`, which models are compared, and warnings; `explained_runs`, what `--explain` tells;
//!   `progress`, what `--progress` shows

mod ends;
mod explained_runs;
mod models;
mod program;
mod program_ends;
mod progress;
