//! Pseudo-random words, the same in each run.

/// A generator of words (xorshift, with a multiplication at the end). Nothing is promised of them.
#[derive(Clone, Copy, Debug)]
pub struct Random {
    state: u64,
}

impl Random {
    /// The first generator.
    pub fn new() -> Random {
        Random::numbered(0)
    }

    /// One of several generators, by its number.
    pub fn numbered(number: u64) -> Random {
        Random {
            state: 0x9E37_79B9_7F4A_7C15u64.wrapping_mul(number.wrapping_add(1)),
        }
    }

    /// The next word: each bit is one with probability 1/2.
    pub fn next(&mut self) -> u64 {
        let mut x = self.state;
        x ^= x << 13;
        x ^= x >> 7;
        x ^= x << 17;
        self.state = x;
        x.wrapping_mul(0x2545_F491_4F6C_DD1D)
    }
}
