//! The state of reading between two logical lines, closed models and an open one, and what the next
//! line makes of it.
ghost use Rattle.std.specs.Prelude.{◌≡◌, ◌++◌, IfOk, OnOk, IsTrue, true, false, is_some, Some, None, [], map};
ghost use Rattle.std.specs.List.{list_any};
ghost use Rattle.std.specs.Option.{option_map};
ghost use Rattle.eqc_blif.specs.Words.{words, without_blanks};
ghost use Rattle.eqc_blif.specs.Reading.{start, begun, models, current, is_in_cover, last_cover, opened, stands_in_model, is_bad_byte};
ghost use Rattle.eqc_netlist.specs.Names.{is_named, has_twice};
ghost use Rattle.eqc_netlist.specs.Names.{StandsTwice};
ghost use Rattle.eqc_netlist.specs.TextRule.{rule_code};
ghost use Rattle.eqc_blif.specs.Steps.{Takes, TakesLine, declares};

pub(crate) mod kind;
pub(crate) mod open_model;

use crate::library::Library;
use crate::model::cover::Cover;
use crate::reader::kind::{Kind, begins_row, kind_of};
use crate::reader::open_model::OpenModel;
use crate::text::words::split_first;
use eqc_netlist::text_rule::Rule;
use eqc_netlist::{Key, Name};
use std::alloc::{AllocError, Global};
use std::marker::Model;

/// What was read so far: the closed models by their names, and the open one.
#[derive(Drop)]
pub(crate) struct Reader {
    closed: Library,
    open_model: Option<OpenModel>,
}

impl Model for Reader {
    ghost use Rattle.std.specs.Prelude.{◌≡◌, true};
    ghost use Rattle.eqc_blif.specs.Reading.{After};
    ghost use Rattle.eqc_blif.specs.Steps.{is_new_name};

    ghost Value = { After };

    ghost view = { λ a. record { closed = a.closed; open_model = a.open_model } };

    ghost invariant = { λ a. is_new_name a.closed a.open_model ≡ true };
}

pub(crate) fn is_bad_byte(byte: u8) -> bool
    ensures { result ≡ is_bad_byte byte }
{
    ((byte < 32) & (byte != b'\t')) | (byte == 127)
}

/// Whether a byte of the line is no part of a text. All bytes are looked at, which is faster than
/// to stop at the first.
fn has_bad_byte(line: &[u8]) -> bool
    ensures { result ≡ list_any is_bad_byte line.now }
{
    let mut found = false;
    'bytes: for byte in line {
        found |= is_bad_byte(*byte);
    }
    found
}

fn stands_in_model(kind: Kind) -> bool
    ensures { result ≡ stands_in_model kind }
{
    match kind {
        Kind::Model | Kind::Skipped => false,
        _ => true,
    }
}

impl Reader {
    pub(crate) fn new(alloc: Global, key: Key) -> Reader
        ensures { result ≡ start }
    {
        Reader {
            closed: Library::new(alloc, key),
            open_model: None,
        }
    }

    /// Opens a model of this name, which no closed one has, in place of the open one.
    fn open(&mut self, alloc: Global, name: Name)
        requires { is_named (map (λ m. m.name) self.old.closed) name ≡ false }
        ensures { self.new ≡ record { closed = self.old.closed; open_model = Some (begun name) } }
    {
        self.open_model = Some(OpenModel::new(alloc, self.closed.key(), name));
    }

    /// Opens a model without a name before a first statement of another kind than `.model`.
    pub(crate) fn open_before(&mut self, alloc: Global, kind: Kind) -> Result<(), AllocError>
        ensures { OnOk result (self.new ≡ opened kind self.old) }
    {
        if !stands_in_model(kind) || self.open_model.is_some() || !self.closed.is_empty() {
            return Ok(());
        }
        let name = Name::new(alloc, &[])?;
        self.open(alloc, name);
        Ok(())
    }

    /// Puts the open model, if there is one, to the closed ones.
    pub(crate) fn close(&mut self) -> Result<(), AllocError>
        ensures { OnOk result (self.new ≡ record { closed = models self.old; open_model = None }) }
    {
        let Some(mut model) = self.open_model.take() else {
            return Ok(());
        };
        model.close_cover()?;
        let (name, declarations) = model.into_parts();
        self.closed.add(name, declarations)?;
        Ok(())
    }

    /// `.model` with the words of `line`, which breaks `ModelTwice` where the name was used before.
    fn take_model(&mut self, alloc: Global, line: &[u8]) -> Result<Option<Rule>, AllocError>
        ensures { IfOk result (λ rule. Takes self.old Kind.Model (words line.now) [] (option_map rule_code rule) self.new) }
    {
        let (word, _) = split_first(line);
        let name = Name::new(alloc, word)?;
        self.close()?;
        if self.closed.has(&name) {
            return Ok(Some(Rule::ModelTwice));
        }
        self.open(alloc, name);
        Ok(None)
    }

    /// `.end`, which breaks `BehindEnd` where no model is open.
    fn take_end(&mut self) -> Result<Option<Rule>, AllocError>
        ensures { IfOk result (λ rule. Takes self.old Kind.End [] [] (option_map rule_code rule) self.new) }
    {
        if self.open_model.is_none() {
            return Ok(Some(Rule::BehindEnd));
        }
        self.close()?;
        Ok(None)
    }

    /// A statement in the open model, which breaks `BehindEnd` where none is open. `rest` stands
    /// behind the command, `line` is all.
    #[inline(always)]
    fn take_in_model(
        &mut self,
        alloc: Global,
        kind: Kind,
        rest: &[u8],
        line: &[u8],
    ) -> Result<Option<Rule>, AllocError>
        requires { IsTrue (declares kind) }
        ensures { IfOk result (λ rule. Takes self.old kind (words rest.now) (without_blanks line.now) (option_map rule_code rule) self.new) }
    {
        let Some(model) = &mut self.open_model else {
            return Ok(Some(Rule::BehindEnd));
        };
        let rule = model.take(alloc, kind, rest, line)?;
        Ok(rule)
    }

    /// A statement of some kind; `rest` stands behind the command, `line` is all.
    #[inline(always)]
    fn take_statement(
        &mut self,
        alloc: Global,
        kind: Kind,
        rest: &[u8],
        line: &[u8],
    ) -> Result<Option<Rule>, AllocError>
        ensures { IfOk result (λ rule. Takes self.old kind (words rest.now) (without_blanks line.now) (option_map rule_code rule) self.new) }
    {
        match kind {
            Kind::Model => self.take_model(alloc, rest),
            Kind::End => self.take_end(),
            Kind::Unknown => Ok(Some(Rule::UnknownCommand)),
            Kind::Latch => Ok(Some(Rule::Latch)),
            Kind::Skipped => Ok(None),
            _ => self.take_in_model(alloc, kind, rest, line),
        }
    }

    /// A row in the open model; a model without a name is opened for a first one.
    #[inline(always)]
    fn take_row(&mut self, alloc: Global, line: &[u8]) -> Result<Option<Rule>, AllocError>
        ensures { IfOk result (λ rule. Takes (opened Kind.Row self.old) Kind.Row [] (without_blanks line.now) (option_map rule_code rule) self.new) }
    {
        self.open_before(alloc, Kind::Row)?;
        let rule = self.take_in_model(alloc, Kind::Row, &[], line)?;
        Ok(rule)
    }

    /// Takes a logical line, and answers the rule that it breaks where it breaks one.
    // What each line goes through stays within the loop of `read`, though the search for a line at
    // fault calls it too: as a call it made short lines half as slow again.
    #[inline(always)]
    pub(crate) fn take_line(
        &mut self,
        alloc: Global,
        line: &[u8],
    ) -> Result<Option<Rule>, AllocError>
        ensures { IfOk result (λ rule. TakesLine self.old line.now (option_map rule_code rule) self.new) }
    {
        if has_bad_byte(line) {
            return Ok(Some(Rule::ControlByte));
        }
        if begins_row(line) {
            return self.take_row(alloc, line);
        }
        let (word, rest) = split_first(line);
        let kind = kind_of(word);
        self.open_before(alloc, kind)?;
        let rule = self.take_statement(alloc, kind, rest, line)?;
        Ok(rule)
    }

    /// The cover that is being read.
    pub(crate) fn last_cover(&self) -> &Cover
        requires { is_in_cover self.now.open_model ≡ true }
        ensures { result.now ≡ last_cover (current self.now).covers }
    {
        self.open_model.as_ref().unwrap().last_cover()
    }

    /// The name that stands twice in the inputs of the open model with the words of `line`. The
    /// inputs are lost.
    pub(crate) fn input_twice(&mut self, alloc: Global, line: &[u8]) -> Result<Name, AllocError>
        requires opened { is_some self.old.open_model ≡ true }
        requires twice { has_twice ((current self.old).inputs ++ words line.now) ≡ true }
        ensures { IfOk result (λ name. StandsTwice ((current self.old).inputs ++ words line.now) name) }
    {
        let model = self.open_model.as_mut().unwrap();
        model.input_twice(alloc, line)
    }

    /// The name that stands twice in the outputs of the open model with the words of `line`. The
    /// outputs are lost.
    pub(crate) fn output_twice(&mut self, alloc: Global, line: &[u8]) -> Result<Name, AllocError>
        requires opened { is_some self.old.open_model ≡ true }
        requires twice { has_twice ((current self.old).outputs ++ words line.now) ≡ true }
        ensures { IfOk result (λ name. StandsTwice ((current self.old).outputs ++ words line.now) name) }
    {
        let model = self.open_model.as_mut().unwrap();
        model.output_twice(alloc, line)
    }

    /// The library of the closed models.
    pub(crate) fn into_closed(self) -> Library
        ensures { result ≡ self.closed }
    {
        self.closed
    }
}
