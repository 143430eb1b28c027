//! What is asked of members.
use crate::patience::Patience;
use eqc_compare::Alike;

/// What is asked of the members that compare a pair.
#[derive(Drop)]
pub struct Request {
    /// Whether every output that differs is asked for, or the first alone.
    pub every: bool,
    /// What is known of the pair, and need not be compared.
    pub alike: Alike,
    /// How long a member without work asks others for some.
    pub patience: Patience,
}
