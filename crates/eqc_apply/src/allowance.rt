//! What a member of a team may do where there is little room, and how long its operations may go
//! on.

/// What each member of a team may do where there is little room.
#[derive(Clone, Copy)]
pub struct Allowance {
    /// Whether an operation begins anew where the forest is full, without the names that no
    /// references stand on.
    pub anew: bool,
    /// How many turns its operations may take in all, beyond those that are free; none where they
    /// may take as many as they need. A turn is one step from a pair of operands to the next one.
    pub turns: Option<u64>,
}
