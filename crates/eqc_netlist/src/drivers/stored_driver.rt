//! Drivers of flat signals, in the form in which they are kept.

/// What drives a flat signal, in the form in which it is kept.
#[derive(Clone, Copy)]
pub enum StoredDriver {
    /// The input at this position of the main model.
    Input(u32),
    /// The signal at the other end of a pair of formal and actual.
    Tie(u32),
    /// The cover of this number, in the instance whose first signal is `first`.
    Cover { first: u32, cover: u32 },
}
