//! Sets of names, each of which has a place by the order in which they came.
ghost use Rattle.std.specs.Prelude.{◌≡◌, ℕ, ◌<◌, List, [], length, position, slice_index_or, not, Some, IfOk, OnOk, IfSome, IsTrue};
ghost use Rattle.std.specs.List.{fold};
ghost use Rattle.std.specs.Str.{bytes_eq};
ghost use Rattle.eqc_netlist.specs.Names.{is_named};
ghost use Rattle.eqc_netlist.specs.NameSets.{with_name, place_in};

use crate::key::Key;
use crate::name::Name;
use crate::name_bytes::NameBytes;
use crate::near_key::NearKey;
use indexmap::IndexSet;
use std::alloc::{AllocError, Global};
use std::marker::Model;

/// Up to so many names are compared one by one, which takes less time than to look one up.
const FEW: usize = 8;

/// Names, each once, in the order in which they were put in. Contracts see their list.
#[derive(Drop)]
pub struct NameSet<'a> {
    names: IndexSet<NameBytes<'a>, NearKey>,
    /// Whether the last name that was looked up stood behind the place that was near: only then the
    /// next one is looked for there first, so that names in no order don't pay for it. Nothing but
    /// the time depends on it.
    in_row: bool,
}

impl<'a> Model for NameSet<'a> {
    ghost use Rattle.std.specs.Prelude.{List, ℕ};

    ghost Value = { List (List ℕ) };

    ghost view = { λ a. a.names.keys };
}

/// Where a name stands among others, if it is there.
fn place_among(names: &[NameBytes<'_>], name: &[u8]) -> Option<usize>
    ensures { result ≡ position (λ other. bytes_eq name.now other) names.now }
{
    names.iter().position(|other| name == other.get())
}

impl<'a> NameSet<'a> {
    /// A set without names, which are looked up by a key: that of the texts that they come from, or
    /// of themselves.
    pub fn new(alloc: Global, key: Key) -> NameSet<'a>
        ensures { result ≡ [] }
    {
        NameSet {
            names: IndexSet::with_hasher(alloc, NearKey::of(key)),
            in_row: false,
        }
    }

    /// Where a name stands, if there are few names and it is one of them.
    fn place_among_few(&self, name: &[u8]) -> Option<usize>
        ensures first { IfSome result (λ k. position (λ other. bytes_eq name.now other) self.now ≡ Some k) }
        ensures small { IfSome result (λ k. k < 8) }
    {
        if self.names.len() <= FEW {
            place_among(self.names.as_slice(), name)
        } else {
            None
        }
    }

    /// Whether a name stands at a place, which may be any number.
    fn stands_at(&self, name: &[u8], place: usize) -> bool
        ensures { IsTrue result → position (λ other. bytes_eq name.now other) self.now ≡ Some place }
    {
        let Some(other) = self.names.as_slice().get(place) else {
            return false;
        };
        // Names that are numbered differ in their last bytes most often.
        name.last() == other.get().last() && name == other.get()
    }

    /// Whether a name stands at a place, which may be any number, as far as it is looked for there.
    fn stands_in_row(&self, name: &[u8], place: usize) -> bool
        ensures { IsTrue result → position (λ other. bytes_eq name.now other) self.now ≡ Some place }
    {
        self.in_row && self.stands_at(name, place)
    }

    /// Puts the name of these bytes in, unless it is there, and answers whether it was not. Fails
    /// where memory is refused.
    pub fn insert_bytes(&mut self, name: &'a [u8]) -> Result<bool, AllocError>
        ensures fresh { IfOk result (λ fresh. fresh ≡ not (is_named self.old name.now)) }
        ensures names { OnOk result (self.new ≡ with_name self.old name.now) }
    {
        if self.place_among_few(name).is_some() {
            return Ok(false);
        }
        let fresh = self.names.insert(NameBytes::of(name))?;
        Ok(fresh)
    }

    /// Puts a name in, unless it is there, and answers whether it was not. Fails where memory is
    /// refused.
    pub fn insert(&mut self, name: &'a Name) -> Result<bool, AllocError>
        ensures fresh { IfOk result (λ fresh. fresh ≡ not (is_named self.old name.now)) }
        ensures names { OnOk result (self.new ≡ with_name self.old name.now) }
    {
        let fresh = self.insert_bytes(name.as_bytes())?;
        Ok(fresh)
    }

    /// Puts a name in, unless it is there, and answers where it stands. Fails where memory is
    /// refused, and where there are more names than memory has room for.
    pub fn place(&mut self, name: &'a Name) -> Result<u32, AllocError>
        ensures names { OnOk result (self.new ≡ with_name self.old name.now) }
        ensures place { IfOk result (λ place. (later : List (List ℕ)) → place ≡ place_in (fold with_name self.new later) name.now) }
    {
        let bytes = name.as_bytes();
        if let Some(place) = self.place_among_few(bytes) {
            return Ok(place as u32);
        }
        let (place, _) = self.names.insert_full(NameBytes::of(bytes))?;
        if place > u32::MAX as usize {
            return Err(AllocError);
        }
        Ok(place as u32)
    }

    /// Does what `place` does, and sooner where the name stands at one of two places, which may be
    /// any numbers, or behind the first of them.
    pub fn place_near(&mut self, name: &'a Name, near: u32, last: u32) -> Result<u32, AllocError>
        ensures names { OnOk result (self.new ≡ with_name self.old name.now) }
        ensures place { IfOk result (λ place. (later : List (List ℕ)) → place ≡ place_in (fold with_name self.new later) name.now) }
    {
        let bytes = name.as_bytes();
        if self.stands_at(bytes, near as usize) {
            return Ok(near);
        }
        if self.stands_at(bytes, last as usize) {
            return Ok(last);
        }
        let next = near.wrapping_add(1);
        if self.stands_in_row(bytes, next as usize) {
            return Ok(next);
        }
        let place = self.place(name)?;
        self.in_row = place == next;
        Ok(place)
    }

    /// Makes room for so many more names. Fails where memory is refused.
    pub fn reserve(&mut self, additional: usize) -> Result<(), AllocError>
        ensures { self.new ≡ self.old }
    {
        self.names.reserve(additional)?;
        Ok(())
    }

    /// Puts these names in, in order. Fails where memory is refused.
    pub fn insert_all(&mut self, names: &'a [Name]) -> Result<(), AllocError>
        ensures { OnOk result (self.new ≡ fold with_name self.old names.now) }
    {
        'names: for name in names {
            self.insert(name)?;
        }
        Ok(())
    }

    /// The number of names.
    pub fn len(&self) -> usize
        ensures { result ≡ length self.now }
    {
        self.names.len()
    }

    /// The name at position `k`, which is below their number.
    pub fn get(&self, k: usize) -> &'a [u8]
        requires { k < length self.now }
        ensures { result.now ≡ slice_index_or self.now k [] }
    {
        self.names.get_index(k).unwrap().get()
    }

    /// Where a name stands, counted from 0, if it is there.
    pub fn position(&self, name: &[u8]) -> Option<usize>
        ensures { result ≡ position (λ other. bytes_eq name.now other) self.now }
    {
        if self.names.len() <= FEW {
            place_among(self.names.as_slice(), name)
        } else {
            self.names.get_index_of(&NameBytes::of(name))
        }
    }

    /// Does what `position` does, and sooner where the name stands at a place, which may be any
    /// number.
    pub fn position_near(&self, name: &[u8], near: u32) -> Option<usize>
        ensures { result ≡ position (λ other. bytes_eq name.now other) self.now }
    {
        if self.stands_at(name, near as usize) {
            Some(near as usize)
        } else {
            self.position(name)
        }
    }

    /// Whether a name is there.
    pub fn has(&self, name: &[u8]) -> bool
        ensures { result ≡ is_named self.now name.now }
    {
        self.position(name).is_some()
    }
}
