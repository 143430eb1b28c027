//! How many words there are of each kind.

/// How many words there are of each kind.
#[derive(Clone, Copy)]
pub struct Sizes {
    /// The numbers that workers may have, those never given among them.
    pub workers: u32,
    /// The announcement words of each worker.
    pub announcements: u32,
    /// The node numbers, the two constants among them.
    pub names: u32,
    /// The cells of the operation cache.
    pub cells: u32,
    /// The variables of the diagrams.
    pub variables: u32,
}

impl Sizes {
    ghost use Rattle.std.specs.Prelude.{◌≡◌, ◌<◌};
    ghost use Rattle.eqc_core.specs.Words.{announced_words, word_at};

    // All announcement words.
    pub(crate) fn announced_words(self) -> u64
        ensures { result ≡ announced_words self }
    {
        u64::from(self.workers) * u64::from(self.announcements)
    }

    // The place of the k-th announcement word of a worker: worker 0 has the first ones.
    #[tactic(auto, unfolding(crate::specs::Words::word_at))]
    pub(crate) fn word_at(self, worker: u32, k: u32) -> u64
        ensures { result ≡ word_at self worker k }
    {
        u64::from(worker) * u64::from(self.announcements) + u64::from(k)
    }
}
