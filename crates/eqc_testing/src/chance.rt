//! Numbers by chance.

/// Numbers that are the same in every run.
#[derive(Drop)]
pub struct Chance {
    pub seed: u32,
}

impl Chance {
    /// A number below `n`.
    pub fn below(&mut self, n: u32) -> u32 {
        self.seed = self
            .seed
            .wrapping_mul(1_664_525)
            .wrapping_add(1_013_904_223);
        (self.seed >> 8).checked_rem(n).unwrap_or(0)
    }
}
