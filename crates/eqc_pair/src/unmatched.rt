//! Names that others lack, as they are told of a refusal: the first of them, and how many there
//! are.
ghost use Rattle.std.specs.Prelude.{◌≡◌, ◌==◌, ◌<◌, ℕ, List, [], ◌∷◌, ◌++◌, map, IfOk, OnOk};
ghost use Rattle.eqc_pair.specs.Matched.{has_all};
ghost use Rattle.eqc_pair.specs.Finding.{AreCut, AreUnmatched};

use eqc_netlist::NameSet;
use std::alloc::{AllocError, Global};
use std::marker::Model;

/// So many names are kept.
const KEPT: usize = 10;

/// Names that others lack, in the order in which they stand.
#[derive(Drop)]
pub struct Unmatched<'a> {
    names: Vec<&'a [u8]>,
    count: usize,
}

impl<'a> Model for Unmatched<'a> {
    ghost use Rattle.std.specs.Prelude.{ℕ, List, map};

    ghost Value = { List (List ℕ) × ℕ };

    ghost view = { λ a. (map (λ name. name.now) a.names.items, a.count) };
}

impl<'a> Unmatched<'a> {
    fn new(alloc: Global) -> Unmatched<'a>
        ensures { AreCut [] result }
    {
        Unmatched {
            names: Vec::new(alloc),
            count: 0,
        }
    }

    /// Takes one more name. Fails where memory is refused.
    fn add(&mut self, name: &'a [u8]) -> Result<(), AllocError>
        requires { self.old.1 < 18446744073709551615 }
        ensures { OnOk result ((names : List (List ℕ)) → AreCut names self.old → AreCut (names ++ name.now ∷ []) self.new) }
    {
        if self.count < KEPT {
            self.names.push(name)?;
        }
        self.count += 1;
        Ok(())
    }

    /// Those of these names that the others lack. Fails where memory is refused.
    pub(crate) fn among(
        alloc: Global,
        others: &NameSet<'_>,
        names: &[&'a [u8]],
    ) -> Result<Unmatched<'a>, AllocError>
        ensures names { IfOk result (AreUnmatched others.now (map (λ name. name.now) names.now)) }
        ensures none { IfOk result (λ found. has_all others.now (map (λ name. name.now) names.now) ≡ (found.1 == 0)) }
    {
        let mut found = Unmatched::new(alloc);
        'names: for name in names {
            if others.position(name).is_none() {
                found.add(name)?;
            }
        }
        Ok(found)
    }

    /// The first of them, at most ten.
    pub fn names(&self) -> &[&'a [u8]]
        ensures { map (λ name. name.now) result.now ≡ self.now.0 }
    {
        self.names.as_slice()
    }

    /// How many there are, with those that `names` leaves out.
    pub fn count(&self) -> usize
        ensures { result ≡ self.now.1 }
    {
        self.count
    }
}
