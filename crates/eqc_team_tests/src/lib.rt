//! The tests of members of a team, alone and in threads of their own: what they build and share,
//! and what is left when the forest is closed.
//!
//! - `teams`, what members build and take in; `arenas`, where there is little room; `forks`, what
//!   they do for one another; `allowances`, where few turns are allowed; `refusals`, where memory
//!   is refused
//! - `builders`, what makes a member's calls; `ends`, what ends a test
#![tactic(auto)]

#[cfg(test)]
mod allowances;
#[cfg(test)]
mod arenas;
#[cfg(test)]
mod builders;
#[cfg(test)]
mod ends;
#[cfg(test)]
mod forks;
#[cfg(test)]
mod refusals;
#[cfg(test)]
mod teams;
