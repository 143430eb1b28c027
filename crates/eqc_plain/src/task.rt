//! Operations under way, as the stack of an apply keeps them.

/// An operation on `f` and `g` under way, whose top variable is `variable`.
#[derive(Clone, Copy, Debug)]
pub enum Task {
    /// The low cofactors are under way, and the high cofactors come next.
    Low {
        f: u32,
        g: u32,
        variable: u16,
        f_high: u32,
        g_high: u32,
    },
    /// The high cofactors are under way, and `low` is the result of the low ones.
    High {
        f: u32,
        g: u32,
        variable: u16,
        low: u32,
    },
}

/// What comes after a result.
pub enum Turn {
    /// The whole operation has this result.
    Done(u32),
    /// The operation on these two is next.
    Next(u32, u32),
}
