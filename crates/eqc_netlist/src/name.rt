//! Names in a netlist, as bytes: a short one is kept in place, without an allocation.
ghost use Rattle.std.specs.Prelude.{◌≡◌, IfOk, bytes_eq};
ghost use Rattle.std.specs.Cmp.{partial_equiv_from_equiv};
ghost use Rattle.std.specs.Cmp.Lexicographic.{nat_list_eq_equiv, bytes_decides};
ghost use Rattle.std.specs.Hash.{same_Alike};
ghost use Rattle.eqc_netlist.specs.Pieces.{pieces};

use crate::pieces::write_pieces;
use smallvec::SmallVec;
use std::alloc::{AllocError, Global};
use std::hash::{Hash, Hasher};
use std::marker::Model;

/// Up to so many bytes are copied one by one, which takes less time than a copy of many at a time.
const SHORT: usize = 8;

/// A name of a netlist: its bytes. Up to sixteen bytes need no allocation.
#[derive(Drop)]
pub struct Name {
    bytes: SmallVec<u8, 16>,
}

impl Model for Name {
    ghost use Rattle.std.specs.Prelude.{List, ℕ};

    ghost Value = { List ℕ };

    ghost view = { λ a. a.bytes.items };
}

impl Name {
    /// A name with these bytes. Fails where memory is refused.
    pub fn new(alloc: Global, bytes: &[u8]) -> Result<Name, AllocError>
        ensures { IfOk result (λ name. name ≡ bytes.now) }
    {
        if bytes.len() > SHORT {
            return Ok(Name {
                bytes: SmallVec::from_slice(alloc, bytes)?,
            });
        }
        let mut short = SmallVec::new(alloc);
        'bytes: for byte in bytes {
            short.push_reserved(*byte);
        }
        Ok(Name { bytes: short })
    }

    /// The bytes of the name.
    pub fn as_bytes(&self) -> &[u8]
        ensures { result.now ≡ self.now }
    {
        self.bytes.as_slice()
    }
}

impl PartialEq for Name {
    ghost eq = { λ a b. bytes_eq a b };

    ghost laws = { partial_equiv_from_equiv nat_list_eq_equiv };

    fn eq(&self, other: &Name) -> bool {
        self.as_bytes() == other.as_bytes()
    }
}

impl Eq for Name {
    ghost laws = { nat_list_eq_equiv };
}

impl Hash for Name {
    ghost hash_input = { λ a. pieces a };

    ghost respects_eq = { (same_Alike {E = bytes_eq} (λ a. pieces a) bytes_decides).fed };

    fn hash<H: Hasher>(&self, state: &mut H) {
        write_pieces(self.as_bytes(), state);
    }
}
