//! The tests of what runs read and write: texts that come in parts, are cut off or fail, and
//! reports whose writers fail.
//!
//! - `reports`, their bytes; `messages`, what stops and faults say
//! - `streams`, readers that give little a read, and readers and writers that fail;
//!   `failing_streams`, at each of their calls
//! - `beginnings`, texts that are cut off
#![tactic(auto)]

#[cfg(test)]
mod beginnings;
#[cfg(test)]
mod ends;
#[cfg(test)]
mod failing_streams;
#[cfg(test)]
mod messages;
#[cfg(test)]
mod reports;
#[cfg(test)]
mod streams;
