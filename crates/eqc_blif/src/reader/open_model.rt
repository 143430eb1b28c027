//! The model that is open while a text is read, and what each statement adds to it or is refused
//! for.
ghost use Rattle.std.specs.Prelude.{◌≡◌, ◌++◌, IfOk, OnOk, IsTrue, true, false, None};
ghost use Rattle.std.specs.Option.{option_map};
ghost use Rattle.eqc_blif.specs.Words.{words, without_blanks};
ghost use Rattle.eqc_netlist.specs.Names.{has_twice};
ghost use Rattle.eqc_netlist.specs.Names.{StandsTwice};
ghost use Rattle.eqc_netlist.specs.TextRule.{rule_code};
ghost use Rattle.eqc_blif.specs.Reading.{begun, OpenModel, last_cover, declared, with_inputs, with_outputs, with_instance, with_new_cover, with_new_row};
ghost use Rattle.eqc_blif.specs.Steps.{MayChange, model_of, declares, declaration, declaration_code, inputs_code, outputs_code, cover_code, instance_code, row_code_in};

use crate::model::cover::Cover;
use crate::model::declarations::Declarations;
use crate::model::instance::Instance;
use crate::reader::kind::Kind;
use crate::sparing::push_sparing;
use crate::text::words::{pairs_in, split_word};
use eqc_netlist::text_rule::Rule;
use eqc_netlist::{Key, Name};
use std::alloc::{AllocError, Global};
use std::marker::Model;

/// The model that is being read, and the cover whose rows may follow.
#[derive(Drop)]
pub(crate) struct OpenModel {
    name: Name,
    declarations: Declarations,
    cover: Option<Cover>,
}

impl Model for OpenModel {
    ghost use Rattle.std.specs.Prelude.{is_some};
    ghost use Rattle.eqc_blif.specs.Reading.{OpenModel as Opened};
    ghost use Rattle.eqc_blif.specs.Steps.{with_open_cover, model_of};

    ghost Value = { Opened };

    ghost view = { λ a. record { model = with_open_cover a.cover (model_of a.name a.declarations); in_cover = is_some a.cover } };
}

impl OpenModel {
    pub(crate) fn new(alloc: Global, key: Key, name: Name) -> OpenModel
        ensures { result ≡ begun name }
    {
        OpenModel {
            name,
            declarations: Declarations::new(alloc, key),
            cover: None,
        }
    }

    /// Ends the cover that is being read: it joins those of the model.
    pub(crate) fn close_cover(&mut self) -> Result<(), AllocError>
        ensures closed { OnOk result (self.new ≡ record { model = self.old.model; in_cover = false }) }
        ensures name { self.new.model.name ≡ self.old.model.name }
    {
        if let Some(cover) = self.cover.take() {
            push_sparing(&mut self.declarations.covers, cover)?;
        }
        Ok(())
    }

    /// `.inputs` with the words of `line`, which break `NameTwice` where a name then stands twice.
    #[inline(never)]
    pub(crate) fn take_inputs(
        &mut self,
        alloc: Global,
        line: &[u8],
    ) -> Result<Option<Rule>, AllocError>
        ensures taken { IfOk result (λ rule. MayChange (inputs_code (words line.now) self.old) (declared (with_inputs (words line.now)) self.old) (option_map rule_code rule) self.new) }
        ensures name { self.new.model.name ≡ self.old.model.name }
    {
        self.close_cover()?;
        if !self.declarations.inputs.add_words(alloc, line)? {
            return Ok(Some(Rule::NameTwice));
        }
        Ok(None)
    }

    /// `.outputs` with the words of `line`, which break `NameTwice` where a name then stands twice.
    #[inline(never)]
    pub(crate) fn take_outputs(
        &mut self,
        alloc: Global,
        line: &[u8],
    ) -> Result<Option<Rule>, AllocError>
        ensures taken { IfOk result (λ rule. MayChange (outputs_code (words line.now) self.old) (declared (with_outputs (words line.now)) self.old) (option_map rule_code rule) self.new) }
        ensures name { self.new.model.name ≡ self.old.model.name }
    {
        self.close_cover()?;
        if !self.declarations.outputs.add_words(alloc, line)? {
            return Ok(Some(Rule::NameTwice));
        }
        Ok(None)
    }

    /// `.names` with the words of `line`, which breaks `NoWord` where there is none.
    #[inline(never)]
    pub(crate) fn take_names(
        &mut self,
        alloc: Global,
        line: &[u8],
    ) -> Result<Option<Rule>, AllocError>
        ensures taken { IfOk result (λ rule. MayChange (cover_code (words line.now)) (with_new_cover (words line.now) self.old) (option_map rule_code rule) self.new) }
        ensures name { self.new.model.name ≡ self.old.model.name }
    {
        let Some(cover) = Cover::opened(alloc, line)? else {
            return Ok(Some(Rule::NoWord));
        };
        self.close_cover()?;
        self.cover = Some(cover);
        Ok(None)
    }

    /// `.subckt` with the words of `line`, which breaks `NoPair` where one behind the first is no
    /// pair, and `NoWord` where there is no word.
    #[inline(never)]
    pub(crate) fn take_subckt(
        &mut self,
        alloc: Global,
        line: &[u8],
    ) -> Result<Option<Rule>, AllocError>
        ensures taken { IfOk result (λ rule. MayChange (instance_code (words line.now)) (declared (with_instance (words line.now)) self.old) (option_map rule_code rule) self.new) }
        ensures name { self.new.model.name ≡ self.old.model.name }
    {
        let Some((model, rest)) = split_word(line) else {
            return Ok(Some(Rule::NoWord));
        };
        let Some(pairs) = pairs_in(alloc, rest)? else {
            return Ok(Some(Rule::NoPair));
        };
        let model = Name::new(alloc, model)?;
        self.close_cover()?;
        push_sparing(&mut self.declarations.instances, Instance { model, pairs })?;
        Ok(None)
    }

    /// A row, which breaks `RowOutsideCover` outside of a cover, else what `Cover::take_row` says.
    pub(crate) fn take_row(&mut self, line: &[u8]) -> Result<Option<Rule>, AllocError>
        ensures taken { IfOk result (λ rule. MayChange (row_code_in (without_blanks line.now) self.old) (with_new_row (without_blanks line.now) self.old) (option_map rule_code rule) self.new) }
        ensures name { self.new.model.name ≡ self.old.model.name }
    {
        let Some(cover) = &mut self.cover else {
            return Ok(Some(Rule::RowOutsideCover));
        };
        let rule = cover.take_row(line)?;
        Ok(rule)
    }

    /// A statement in the model. `rest` stands behind the command, `line` is all.
    // Most lines of a large text are rows: a row is taken where the line is read, and all else by a
    // call.
    #[inline(always)]
    pub(crate) fn take(
        &mut self,
        alloc: Global,
        kind: Kind,
        rest: &[u8],
        line: &[u8],
    ) -> Result<Option<Rule>, AllocError>
        requires { IsTrue (declares kind) }
        ensures taken { IfOk result (λ rule. MayChange (declaration_code kind (words rest.now) (without_blanks line.now) self.old) (declaration kind (words rest.now) (without_blanks line.now) self.old) (option_map rule_code rule) self.new) }
        ensures name { self.new.model.name ≡ self.old.model.name }
    {
        match kind {
            Kind::Inputs => self.take_inputs(alloc, rest),
            Kind::Outputs => self.take_outputs(alloc, rest),
            Kind::Names => self.take_names(alloc, rest),
            Kind::Subckt => self.take_subckt(alloc, rest),
            _ => self.take_row(line),
        }
    }

    /// The cover that is being read.
    pub(crate) fn last_cover(&self) -> &Cover
        requires { self.now.in_cover ≡ true }
        ensures { result.now ≡ last_cover self.now.model.covers }
    {
        self.cover.as_ref().unwrap()
    }

    /// The name that stands twice in the inputs with the words of `line`. The inputs are lost.
    pub(crate) fn input_twice(&mut self, alloc: Global, line: &[u8]) -> Result<Name, AllocError>
        requires { has_twice (self.old.model.inputs ++ words line.now) ≡ true }
        ensures twice { IfOk result (λ name. StandsTwice (self.old.model.inputs ++ words line.now) name) }
        ensures name { self.new.model.name ≡ self.old.model.name }
    {
        self.close_cover()?;
        self.declarations.inputs.first_twice(alloc, line)
    }

    /// The name that stands twice in the outputs with the words of `line`. The outputs are lost.
    pub(crate) fn output_twice(&mut self, alloc: Global, line: &[u8]) -> Result<Name, AllocError>
        requires { has_twice (self.old.model.outputs ++ words line.now) ≡ true }
        ensures twice { IfOk result (λ name. StandsTwice (self.old.model.outputs ++ words line.now) name) }
        ensures name { self.new.model.name ≡ self.old.model.name }
    {
        self.close_cover()?;
        self.declarations.outputs.first_twice(alloc, line)
    }

    /// The name and the declarations; a cover that is not closed is left out.
    pub(crate) fn into_parts(self) -> (Name, Declarations)
        ensures name { result.0 ≡ self.model.name }
        ensures declarations { self.in_cover ≡ false → model_of result.0 result.1 ≡ self.model }
    {
        let OpenModel {
            name,
            declarations,
            cover: _,
        } = self;
        (name, declarations)
    }
}
