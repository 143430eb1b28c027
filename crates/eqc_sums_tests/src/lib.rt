//! The tests of words that are shown equal by sums: multipliers of several architectures.
//!
//! - `multipliers`, how they are built, and `rows`, how they are in rows of all columns, of what
//!   `gates`, `columns` and `factors` have
//! - `words`, which of them are shown equal, `anew`, which of those that a mapping took apart, and
//!   `designs`, which are inside a design
//! - `ends`, what ends a test
#![tactic(auto)]

#[cfg(test)]
mod anew;
#[cfg(test)]
mod columns;
#[cfg(test)]
mod designs;
#[cfg(test)]
mod ends;
#[cfg(test)]
mod factors;
#[cfg(test)]
mod gates;
#[cfg(test)]
mod multipliers;
#[cfg(test)]
mod rows;
#[cfg(test)]
mod words;
