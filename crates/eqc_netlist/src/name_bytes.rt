//! The bytes of a name as what a table is searched for.
ghost use Rattle.std.specs.Prelude.{◌≡◌, bytes_eq};
ghost use Rattle.std.specs.Cmp.{partial_equiv_from_equiv};
ghost use Rattle.std.specs.Cmp.Lexicographic.{nat_list_eq_equiv, bytes_decides};
ghost use Rattle.std.specs.Hash.{same_Alike};
ghost use Rattle.eqc_netlist.specs.NearHash.{near_pieces};

use crate::pieces::write_pieces;
use std::hash::{Hash, Hasher};
use std::marker::Model;

/// The bytes of a name, which stand in a text.
#[derive(Drop)]
pub(crate) struct NameBytes<'a> {
    bytes: &'a [u8],
}

impl<'a> Model for NameBytes<'a> {
    ghost use Rattle.std.specs.Prelude.{List, ℕ};

    ghost Value = { List ℕ };

    ghost view = { λ a. a.bytes.now };
}

impl<'a> NameBytes<'a> {
    /// These bytes.
    pub(crate) fn of(bytes: &'a [u8]) -> NameBytes<'a>
        ensures { result ≡ bytes.now }
    {
        NameBytes { bytes }
    }

    /// The bytes.
    pub(crate) fn get(&self) -> &'a [u8]
        ensures { result.now ≡ self.now }
    {
        self.bytes
    }
}

impl<'a> PartialEq for NameBytes<'a> {
    ghost eq = { λ a b. bytes_eq a b };

    ghost laws = { partial_equiv_from_equiv nat_list_eq_equiv };

    fn eq(&self, other: &NameBytes<'a>) -> bool {
        self.bytes == other.bytes
    }
}

impl<'a> Eq for NameBytes<'a> {
    ghost laws = { nat_list_eq_equiv };
}

impl<'a> Hash for NameBytes<'a> {
    ghost hash_input = { λ a. near_pieces a };

    ghost respects_eq = { (same_Alike {E = bytes_eq} (λ a. near_pieces a) bytes_decides).fed };

    fn hash<H: Hasher>(&self, state: &mut H) {
        let end = self.bytes.len().saturating_sub(1);
        write_pieces(&self.bytes[..end], state);
        state.write(&self.bytes[end..]);
    }
}
