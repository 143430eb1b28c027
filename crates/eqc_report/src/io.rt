//! Writers: a text is written whole.
pub(crate) mod fault;
pub(crate) mod spool;
pub(crate) mod writing;

/// How far a writer has come. One that is done or has failed isn't used again.
#[derive(Clone, Copy, Debug, PartialEq, Eq)]
enum Stage {
    Open,
    /// Flushed.
    Done,
    Failed,
}
