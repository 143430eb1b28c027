//! What it is to tell how many nodes are in use: the trait `NodeCount`, which the shared forest has
//! too.
ghost use Rattle.std.specs.Prelude.{ℕ, ◌≤◌};

/// Diagrams that can tell how many nodes are in use.
pub trait NodeCount {
    /// How many nodes there is room for.
    ghost room: { Self → ℕ };

    /// How many nodes take room now, also those that no reference stands on and that have not been
    /// taken back. It costs no look at what others see: where diagrams are shared, it is about so
    /// many.
    fn nodes_in_use(&self) -> u32
        ensures { result ≤ room self.now };
}
