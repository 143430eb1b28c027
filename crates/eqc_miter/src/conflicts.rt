//! How many conflicts searches may have.

/// The conflicts that the searches of a pair may have.
#[derive(Drop, Clone, Copy)]
pub struct Conflicts {
    /// Those of each output.
    pub each: u64,
    /// Those of all outputs together.
    pub all: u64,
}

impl Conflicts {
    /// Those that the next output may have.
    pub fn next(&self) -> u64 {
        self.each.min(self.all)
    }

    /// What each part of the outputs but the first may have, where so many threads take a part each
    /// and the first may have these: all parts together no more than twice as many, and each no
    /// more than a single output.
    pub fn part(&self, threads: u32) -> Conflicts {
        let all = self.all / threads.max(1) as u64;
        Conflicts {
            each: self.each,
            all: all.min(self.each),
        }
    }

    /// Takes those away that an output used.
    pub fn take(&mut self, used: u64) {
        self.all = self.all.saturating_sub(used);
    }
}
