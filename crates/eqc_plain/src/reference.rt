//! What the diagrams hand out for a node or a constant: a reference, which has to be given back.

use crate::unique_table::UniqueTable;
use std::snapshot::Snapshot;

/// A reference to a node or a constant, which has to be given back.
pub struct Ref {
    pub(crate) node: u32,
    pub(crate) at: Snapshot<UniqueTable>,
}
