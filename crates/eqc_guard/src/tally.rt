//! What a forest tells when it is closed.

/// What a forest tells when it is closed.
#[derive(Drop)]
pub struct Tally {
    /// How many slots have a count above 0.
    pub counted: u32,
}
