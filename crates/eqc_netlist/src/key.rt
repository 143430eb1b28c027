//! Keys of tables: what a text's names are looked up by depends on the whole text, so that none is
//! chosen to stand in the way of others.

use std::hash::{BuildHasher, DefaultHasher, FoldHasher, Hasher};

/// What the tables of a text's names are hashed with: a number that is made of all of its bytes.
/// Which one it is changes nothing but the time of a look-up.
#[derive(Clone, Copy)]
pub struct Key {
    initial: FoldHasher,
}

/// The key of a number.
fn key_by(number: u64) -> Key {
    let mut initial = FoldHasher::default();
    initial.write_u64(number);
    Key { initial }
}

impl Key {
    /// The key of a text.
    pub fn of(text: &[u8]) -> Key {
        let mut digest = DefaultHasher::new();
        digest.write(text);
        key_by(digest.finish())
    }

    /// The key of these names, for a table of theirs alone.
    pub fn of_names(names: &[&[u8]]) -> Key {
        let mut digest = DefaultHasher::new();
        for name in names {
            digest.write(name);
            digest.write_u8(b' ');
        }
        key_by(digest.finish())
    }

    /// The key of two texts, of which these are the keys.
    pub fn with(self, other: Key) -> Key {
        let mut digest = DefaultHasher::new();
        digest.write_u64(self.initial.finish());
        digest.write_u64(other.initial.finish());
        key_by(digest.finish())
    }
}

impl BuildHasher for Key {
    type Hasher = FoldHasher;

    ghost build_hasher = { λ key. key.initial };

    fn build_hasher(&self) -> FoldHasher {
        self.initial
    }
}
