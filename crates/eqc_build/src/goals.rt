//! Steps whose diagrams are needed together.
ghost use Rattle.std.specs.Prelude.{◌≡◌, ◌≤◌, take};

use std::marker::Model;

/// Steps whose diagrams are needed together, at most three. Contracts see their list.
#[derive(Drop)]
pub struct Goals {
    steps: [u32; 3],
    count: usize,
}

impl Model for Goals {
    ghost use Rattle.std.specs.Prelude.{ℕ, ◌≤◌, List, take};

    ghost Value = { List ℕ };

    ghost view = { λ a. take a.count a.steps };

    ghost invariant = { λ a. a.count ≤ 3 };
}

impl Goals {
    /// The first of these steps, so many.
    pub(crate) fn of(steps: [u32; 3], count: usize) -> Goals
        requires { count ≤ 3 }
        ensures { result ≡ take count steps }
    {
        Goals { steps, count }
    }

    /// Them.
    pub fn as_slice(&self) -> &[u32]
        ensures { result.now ≡ self.now }
    {
        &self.steps[..self.count]
    }
}
