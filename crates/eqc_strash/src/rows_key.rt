//! The rows of a cover as the key of a map, in which equal rows are found.
ghost use Rattle.std.specs.Prelude.{◌≡◌, ◌==◌, false};
ghost use Rattle.std.specs.Cmp.{partial_equiv_from_equiv};
ghost use Rattle.std.specs.Cmp.Lexicographic.{pointwise, lists_equiv, nat_list_eq_equiv, pointwise_decides, bytes_decides};
ghost use Rattle.std.specs.Str.{bytes_eq};
ghost use Rattle.std.specs.Hash.{same_Alike};

use eqc_netlist::Rows;
use std::hash::{Hash, Hasher};
use std::marker::Model;

/// The rows of a cover as a key: equal where all rows are, byte for byte.
#[derive(Drop)]
pub(crate) struct RowsKey<'a> {
    rows: &'a Rows<'a>,
}

impl<'a> Model for RowsKey<'a> {
    ghost use Rattle.std.specs.Prelude.{List, ℕ};

    ghost Value = { List (List ℕ) };

    ghost view = { λ a. a.rows.now };
}

/// Whether these are the same rows.
fn are_same(rows: &Rows<'_>, others: &Rows<'_>) -> bool
    ensures { result ≡ pointwise bytes_eq rows.now others.now }
{
    if rows.len() != others.len() {
        return false;
    }
    for k in 0..rows.len() {
        if rows.get(k) != others.get(k) {
            return false;
        }
    }
    true
}

impl<'a> RowsKey<'a> {
    /// These rows as a key.
    pub(crate) fn of(rows: &'a Rows<'a>) -> RowsKey<'a>
        ensures { result ≡ rows.now }
    {
        RowsKey { rows }
    }
}

impl<'a> PartialEq for RowsKey<'a> {
    ghost eq = { λ a b. pointwise bytes_eq a b };

    ghost laws = { partial_equiv_from_equiv (lists_equiv nat_list_eq_equiv) };

    fn eq(&self, other: &RowsKey<'a>) -> bool {
        are_same(self.rows, other.rows)
    }
}

impl<'a> Eq for RowsKey<'a> {
    ghost laws = { lists_equiv nat_list_eq_equiv };
}

impl<'a> Hash for RowsKey<'a> {
    ghost hash_input = { λ a. a };

    ghost respects_eq = { (same_Alike {E = pointwise bytes_eq} (λ a. a) (pointwise_decides bytes_decides)).fed };

    fn hash<H: Hasher>(&self, state: &mut H) {
        for k in 0..self.rows.len() {
            state.write(self.rows.get(k));
        }
    }
}
