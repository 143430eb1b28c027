//! What an applier hands out for a node or a constant: a reference, which has to be given back.

use eqc_guard::worker::Worker;
use std::snapshot::Snapshot;

/// A reference to a node or a constant, which has to be given back.
pub struct Ref {
    pub(crate) name: u32,
    pub(crate) at: Snapshot<Worker>,
}
