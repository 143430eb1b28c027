//! The names of a model's inputs or outputs, in a vector while they are few, and else in a set.
ghost use Rattle.std.specs.Prelude.{◌≡◌, [], ◌∷◌, ◌++◌, IfOk, not, if◌then◌else◌, true, false};
ghost use Rattle.std.specs.List.{list_any};
ghost use Rattle.eqc_blif.specs.Words.{words};
ghost use Rattle.eqc_netlist.specs.Names.{is_named, has_twice};
ghost use Rattle.eqc_netlist.specs.Names.{StandsTwice};

use crate::names::many::ManyNames;
use crate::sparing::push_sparing;
use crate::text::words::{room_for_words, split_word};
use eqc_netlist::{Key, Name};
use std::alloc::{AllocError, Global};
use std::marker::Model;

/// How many names are searched one by one; more of them stand in a set.
const FEW: usize = 16;

/// Names in order, none of them twice: a few in a vector, or many in a set.
#[derive(Drop)]
pub(crate) struct NameList {
    key: Key,
    few: Vec<Name>,
    many: Option<Box<ManyNames>>,
}

impl Model for NameList {
    ghost use Rattle.std.specs.Prelude.{List, ℕ, ◌≡◌, false};
    ghost use Rattle.std.specs.Option.{option_map};
    ghost use Rattle.eqc_netlist.specs.Names.{has_twice};
    ghost use Rattle.eqc_blif.specs.Steps.{few_or_many};

    ghost Value = { List (List ℕ) };

    ghost view = { λ a. few_or_many a.few.items (option_map (λ b. b.value) a.many) };

    ghost invariant = { λ a. has_twice (few_or_many a.few.items (option_map (λ b. b.value) a.many)) ≡ false };
}

/// Whether a name is among others, which are searched one by one.
fn is_among(names: &[Name], name: &Name) -> bool
    ensures { result ≡ is_named names.now name.now }
{
    names
        .iter()
        .any(|other| name.as_bytes() == other.as_bytes())
}

/// A few names and one more, which is not among them. Fails where memory is refused.
fn many_of(alloc: Global, key: Key, few: &[Name], name: Name) -> Result<Box<ManyNames>, AllocError>
    requires once { has_twice few.now ≡ false }
    requires fresh { is_named few.now name ≡ false }
    ensures { IfOk result (λ many. many.value ≡ few.now ++ name ∷ []) }
{
    let mut names = ManyNames::of(alloc, key, few)?;
    let _ = names.insert(name)?;
    let many = Box::new(alloc, names)?;
    Ok(many)
}

impl NameList {
    pub(crate) fn new(alloc: Global, key: Key) -> NameList
        ensures { result ≡ [] }
    {
        NameList {
            key,
            few: Vec::new(alloc),
            many: None,
        }
    }

    /// Adds a name at the end, and answers whether it was new. One that is there already is not
    /// added.
    fn add(&mut self, alloc: Global, name: Name) -> Result<bool, AllocError>
        ensures fresh { IfOk result (λ fresh. fresh ≡ not (is_named self.old name)) }
        ensures added { IfOk result (λ fresh. self.new ≡ (if fresh then self.old ++ name ∷ [] else self.old)) }
    {
        if let Some(many) = &mut self.many {
            let fresh = many.insert(name)?;
            return Ok(fresh);
        }
        if is_among(&self.few, &name) {
            return Ok(false);
        }
        if self.few.len() < FEW {
            push_sparing(&mut self.few, name)?;
            return Ok(true);
        }
        self.many = Some(many_of(alloc, self.key, &self.few, name)?);
        self.few = Vec::new(alloc);
        Ok(true)
    }

    /// Makes room for the words of a line where there are many names.
    fn make_room(&mut self, line: &[u8]) -> Result<(), AllocError>
        ensures { self.new ≡ self.old }
    {
        if let Some(many) = &mut self.many {
            many.reserve(room_for_words(line))?;
        }
        Ok(())
    }

    /// Adds the words of a line, and answers whether no name then stands twice. Where one does,
    /// only those before it were added.
    pub(crate) fn add_words(&mut self, alloc: Global, line: &[u8]) -> Result<bool, AllocError>
        ensures once { IfOk result (λ once. once ≡ not (has_twice (self.old ++ words line.now))) }
        ensures added { IfOk result (λ once. once ≡ true → self.new ≡ self.old ++ words line.now) }
    {
        self.make_room(line)?;
        let mut rest = line;
        'words: while let Some((word, others)) = split_word(rest) {
            let name = Name::new(alloc, word)?;
            if !self.add(alloc, name)? {
                return Ok(false);
            }
            rest = others;
        }
        let _ = self.as_slice();
        Ok(true)
    }

    /// The first of the words of a line that stands among the names or the words before it, where
    /// one does. The words before it were added.
    pub(crate) fn first_twice(&mut self, alloc: Global, line: &[u8]) -> Result<Name, AllocError>
        requires { has_twice (self.old ++ words line.now) ≡ true }
        ensures { IfOk result (λ name. StandsTwice (self.old ++ words line.now) name) }
    {
        let mut rest = line;
        'words: loop {
            let _ = self.as_slice();
            let (word, others) = split_word(rest).unwrap();
            let name = Name::new(alloc, word)?;
            if !self.add(alloc, name)? {
                return Name::new(alloc, word);
            }
            rest = others;
        }
    }

    pub(crate) fn as_slice(&self) -> &[Name]
        ensures value { result.now ≡ self.now }
        ensures once { has_twice self.now ≡ false }
    {
        match &self.many {
            Some(many) => many.as_slice(),
            None => self.few.as_slice(),
        }
    }
}
