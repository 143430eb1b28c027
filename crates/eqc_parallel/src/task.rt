//! What members do, and for how many draws.
use crate::patience::Patience;
use eqc_compare::Schedule;

/// What members do for the outputs of a pair.
#[derive(Drop)]
pub(crate) struct Task<'a> {
    /// Which outputs are compared, and how their diagrams are built.
    pub schedule: Schedule<'a>,
    /// So many numbers are drawn in all: each output's, and by each member one beyond them.
    pub draws: u64,
    /// How long a member without work asks others for some.
    pub patience: Patience,
}
