//! The tests of what runs may be given: how much of it is allowed, and that much of it is answered.
//!
//! - `inputs` and `bytes`, how many of these are allowed
//! - `large_netlists`, very many models and signals; `costs`, texts that would like to be dear
#![tactic(auto)]

#[cfg(test)]
mod bytes;
#[cfg(test)]
mod costs;
#[cfg(test)]
mod ends;
#[cfg(test)]
mod inputs;
#[cfg(test)]
mod large_netlists;
