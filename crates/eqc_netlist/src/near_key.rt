//! Hashes of names, by which those that differ in the lowest bits of their last byte alone stand in
//! one group of a table: of names that are numbered, eight are found where memory was waited for
//! once.
ghost use Rattle.std.specs.Prelude.{◌≡◌};
ghost use Rattle.std.specs.Hash.FoldHasher as folding;
ghost use Rattle.eqc_netlist.specs.NearHash.{near_write, near_finish};

use crate::key::Key;
use std::hash::{BuildHasher, FoldHasher, Hasher};

/// What a table of names is hashed with, made of the key of their text. Nothing but time depends on
/// it.
#[derive(Clone, Copy)]
pub(crate) struct NearKey {
    initial: FoldHasher,
}

/// A hasher of names. It hashes all bytes but one that is written by itself, the last of a name.
/// Three bits of that byte choose only a tag in a group, so that no more than eight names share a
/// place that the key didn't choose for each.
#[derive(Clone, Copy)]
pub(crate) struct NearHasher {
    folded: FoldHasher,
    last: u8,
}

impl NearKey {
    /// The key of a table of a text's names, by the text's key.
    pub(crate) fn of(key: Key) -> NearKey {
        NearKey {
            initial: key.build_hasher(),
        }
    }
}

impl BuildHasher for NearKey {
    type Hasher = NearHasher;

    ghost build_hasher = { λ key. record { folded = key.initial; last = 0 } };

    #[inline(always)]
    fn build_hasher(&self) -> NearHasher {
        NearHasher {
            folded: self.initial,
            last: 0,
        }
    }
}

impl Hasher for NearHasher {
    ghost write = { near_write };

    ghost finish = { near_finish };

    #[inline(always)]
    fn finish(&self) -> u64 {
        let near = (self.last % 8) as u64 * 16777216;
        let far = (self.last / 8) as u64 * 40503;
        self.folded.finish() ^ (near + far)
    }

    #[inline(always)]
    fn write(&mut self, bytes: &[u8]) {
        if bytes.len() == 1 {
            if self.last != 0 {
                self.folded.write(&[self.last]);
            }
            self.last = bytes[0];
        } else {
            self.folded.write(bytes);
        }
    }
}
