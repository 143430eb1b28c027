//! What a search along dependencies asks of a graph: what each numbered node depends on, in order.
ghost use Rattle.std.specs.Prelude.{◌≡◌, ℕ, ◌+◌, ◌^◌, ◌<◌, List, slice_get, IfSome};

/// A graph of numbered signals or models, each with those that it depends on.
pub trait Graph {
    ghost size: { Self → ℕ };

    ghost deps: { Self → ℕ → List ℕ };

    /// What `node` depends on at position `k`, or `None` behind the last.
    fn dependency(&self, node: usize, k: usize) -> Option<usize>
        requires { node < size self.now }
        ensures value { result ≡ slice_get (deps self.now node) k }
        ensures small { IfSome result (λ _. k + 1 < 2 ^ 64) };
}
