//! What is found of two literals.

/// Whether two literals are equal.
#[derive(Debug, Drop)]
pub enum Comparison {
    /// Under each assignment.
    Equal,
    /// Variables and their values under an assignment that seems to tell them apart. What isn't
    /// there may have any value. It is not to be believed before it is evaluated.
    Differs(Vec<(u32, bool)>),
    /// It wasn't found out.
    Unknown,
}
