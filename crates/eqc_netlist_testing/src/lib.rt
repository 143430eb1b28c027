//! What the tests of several crates need of texts that become flat netlists.
#![tactic(auto)]

use eqc_blif::Library;
use eqc_flat::{DEFAULT_INPUTS, Flat, flatten, flatten_two};
use std::alloc::Global;

/// Model `m` of a library, flat, or none where it isn't there or is refused.
pub fn flat_of(alloc: Global, library: &Library, m: usize) -> Option<Flat<'_>> {
    if m < library.models() {
        flatten(alloc, library, m).ok()
    } else {
        None
    }
}

/// The first two models of a library, flat, or none where they aren't there or one is refused.
pub fn two_flats(alloc: Global, library: &Library) -> Option<(Flat<'_>, Flat<'_>)> {
    if library.models() < 2 {
        return None;
    }
    flatten_two(alloc, library, 0, 1, DEFAULT_INPUTS).ok()
}
