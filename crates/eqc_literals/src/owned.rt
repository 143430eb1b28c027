//! A graph that is let go in one call.
use eqc_sweep::Sweep;

/// A graph that a function owns. It stands here for the sake of proofs: a call in each exit in
/// place of all that is let go.
pub struct Owned {
    /// The graph.
    pub sweep: Sweep,
}

impl Drop for Owned {
    fn drop(self) {
        let Owned { sweep: _ } = self;
    }
}
