//! The words of the command line: which there are, what they ask for, and what is shown of them. It
//! knows of runs what may be asked of one, and the numbers of its rules.
//!
//! Read the modules in this order:
//!
//! - `command_line`, with `specs/CommandLine.antt`: which words there are, and what they ask for;
//!   `help` and `version`, what is shown of them
#![tactic(auto)]

mod command_line;
mod help;
mod version;

pub use command_line::{Request, read_words};
