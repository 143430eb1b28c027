//! Netlists of sums of products, made anew.
//!
//! A word whose bits a mapping took into gates with what follows has few of its adders left, so it
//! can't be added up. But a netlist made anew in the architecture that it came from shares most of
//! what it is made of, and so a sweep finds the two equal. Nothing is believed of it here: a netlist
//! that adds up something else isn't found equal. Read the modules in this order:
//!
//! - `netlist`, graphs with adders; `partial`, the bits that a product adds up, in `rows`;
//!   `guide`, their order where that is another one; `adding`, how they are added up, with `columns`
//!   and `threes`; and `ends`, how carries come to the word
//! - `references`, of all architectures those that are most like two words, and an array; `apart`,
//!   products of which each is added up by itself
#![tactic(auto)]

mod adding;
mod apart;
mod columns;
mod ends;
mod guide;
mod netlist;
mod partial;
mod references;
mod rows;
mod threes;

pub use references::{Made, Reference, References, make_array, make_references};
