//! The names of a model's inputs or outputs, kept so that a model without any takes no memory for
//! them.
ghost use Rattle.std.specs.Prelude.{◌≡◌, [], ◌++◌, IfOk, not, true, false};
ghost use Rattle.eqc_blif.specs.Words.{words};
ghost use Rattle.eqc_netlist.specs.Names.{has_twice};
ghost use Rattle.eqc_netlist.specs.Names.{StandsTwice};

pub(crate) mod list;
pub(crate) mod many;

use crate::names::list::NameList;
use eqc_netlist::{Key, Name};
use std::alloc::{AllocError, Global};
use std::marker::Model;

/// Names in order, none of them twice. No memory is taken before the first.
#[derive(Drop)]
pub(crate) struct Names {
    key: Key,
    list: Option<Box<NameList>>,
}

impl Model for Names {
    ghost use Rattle.std.specs.Prelude.{List, ℕ};
    ghost use Rattle.std.specs.Option.{option_map};
    ghost use Rattle.eqc_blif.specs.Steps.{names_or_none};

    ghost Value = { List (List ℕ) };

    ghost view = { λ a. names_or_none (option_map (λ b. b.value) a.list) };
}

impl Names {
    pub(crate) fn new(key: Key) -> Names
        ensures { result ≡ [] }
    {
        Names { key, list: None }
    }

    /// Adds the words of a line, and answers whether no name then stands twice. Where one does, or
    /// where memory is refused, the names are lost.
    pub(crate) fn add_words(&mut self, alloc: Global, line: &[u8]) -> Result<bool, AllocError>
        ensures once { IfOk result (λ once. once ≡ not (has_twice (self.old ++ words line.now))) }
        ensures added { IfOk result (λ once. once ≡ true → self.new ≡ self.old ++ words line.now) }
    {
        let mut list = match self.list.take() {
            Some(list) => list,
            None => Box::new(alloc, NameList::new(alloc, self.key))?,
        };
        let once = list.add_words(alloc, line)?;
        self.list = Some(list);
        Ok(once)
    }

    /// The first of the words of a line that stands among the names or the words before it, where
    /// one does. The names are lost.
    pub(crate) fn first_twice(&mut self, alloc: Global, line: &[u8]) -> Result<Name, AllocError>
        requires { has_twice (self.old ++ words line.now) ≡ true }
        ensures { IfOk result (λ name. StandsTwice (self.old ++ words line.now) name) }
    {
        let mut list = match self.list.take() {
            Some(list) => list,
            None => Box::new(alloc, NameList::new(alloc, self.key))?,
        };
        list.first_twice(alloc, line)
    }

    pub(crate) fn as_slice(&self) -> &[Name]
        ensures value { result.now ≡ self.now }
        ensures once { has_twice result.now ≡ false }
    {
        match &self.list {
            Some(list) => list.as_slice(),
            None => &[],
        }
    }
}
