//! What is found of a literal.

/// What is known of the assignments under which a literal is true.
#[derive(Debug, Drop)]
pub enum Witness {
    /// The least of them.
    Least(Vec<bool>),
    /// There is none.
    Never,
    /// It wasn't found out, with an assignment under which the literal is true, if one was seen:
    /// maybe not the least.
    Unknown(Option<Vec<bool>>),
}
