//! Orders of a netlist's inputs as variables: the one that an order text gives, else that of the
//! declarations.
ghost use Rattle.std.specs.Prelude.{◌≡◌, ◌⊎◌, ◌==◌, ◌++◌, ◌+◌, ◌<◌, ◌≤◌, [], ◌∷◌, Some, None, false, length, drop, map, filter, slice_index, EachIndex, IfOk, IfErr, OnOk, MatchOption};
ghost use Rattle.std.specs.List.{position_or_len, range_with_len};
ghost use Rattle.std.specs.Option.{option_map, option_copied};
ghost use Rattle.eqc_netlist.specs.Names.{has_twice};
ghost use Rattle.eqc_pair.specs.Matched.{position_of, order_words, order_code, is_blank, is_word, line_words};
ghost use Rattle.eqc_pair.specs.PairOf.{IsOrder, variables_in, order_for, order_refusal, order_refused, no_memory};

use crate::name_index::{bytes_of, has_twice, places_among};
use crate::refused::{Refused, Side};
use crate::rule::Rule;
use eqc_netlist::Name;
use std::alloc::{AllocError, Global};

/// Where a byte first stands, or the length.
fn find_byte(bytes: &[u8], wanted: u8) -> usize
    ensures { result ≡ position_or_len (λ b. b == wanted) bytes.now }
{
    for (i, byte) in bytes.iter().enumerate() {
        if *byte == wanted {
            return i;
        }
    }
    bytes.len()
}

fn is_blank(byte: u8) -> bool
    ensures { result ≡ is_blank byte }
{
    matches!(byte, b' ' | b'\t' | b'\r')
}

/// Where the first blank stands, or the length.
fn find_blank(bytes: &[u8]) -> usize
    ensures { result ≡ position_or_len is_blank bytes.now }
{
    for (i, byte) in bytes.iter().enumerate() {
        if is_blank(*byte) {
            return i;
        }
    }
    bytes.len()
}

/// What stands behind a place of a text, if the text has that place.
fn behind(text: &[u8], place: usize) -> Option<&[u8]>
    ensures { MatchOption result (length text.now ≤ place) (λ rest. (place < length text.now) × (rest.now ≡ drop (place + 1) text.now)) }
{
    if place < text.len() {
        Some(&text[place + 1..])
    } else {
        None
    }
}

/// Adds a part of a line where it isn't empty.
fn push_part<'t>(words: &mut Vec<&'t [u8]>, part: &'t [u8]) -> Result<(), AllocError>
    ensures { OnOk result (map (λ word. word.now) words.new.items ≡ map (λ word. word.now) words.old.items ++ filter is_word (part.now ∷ [])) }
{
    if !part.is_empty() {
        words.push(part)?;
    }
    Ok(())
}

/// Adds the words of a line. After an error it may have added some.
fn push_words<'t>(words: &mut Vec<&'t [u8]>, line: &'t [u8]) -> Result<(), AllocError>
    ensures { OnOk result (map (λ word. word.now) words.new.items ≡ map (λ word. word.now) words.old.items ++ line_words line.now) }
{
    let mut rest = &line[..find_byte(line, b'#')];
    'parts: loop {
        let end = find_blank(rest);
        push_part(words, &rest[..end])?;
        match behind(rest, end) {
            Some(others) => rest = others,
            None => return Ok(()),
        }
    }
}

/// The words of an order text: blanks and line ends separate them, and `#` cuts to the end of its
/// line. Fails where memory is refused.
pub(crate) fn order_words<'t>(alloc: Global, text: &'t [u8]) -> Result<Vec<&'t [u8]>, AllocError>
    ensures { IfOk result (λ words. map (λ word. word.now) words.items ≡ order_words text.now) }
{
    let mut words = Vec::new(alloc);
    let mut rest = text;
    'lines: loop {
        let end = find_byte(rest, b'\n');
        push_words(&mut words, &rest[..end])?;
        match behind(rest, end) {
            Some(others) => rest = others,
            None => return Ok(words),
        }
    }
}

/// The longest order text, in bytes.
pub(crate) const MAX_TEXT: usize = 16_777_216;

/// An order of a netlist's inputs.
#[derive(Drop)]
pub(crate) struct Order {
    /// For each variable the position of its input.
    pub(crate) positions: Vec<u16>,
    /// For each input its variable.
    pub(crate) variables: Vec<u16>,
}

/// Small numbers in two bytes each. Fails where memory is refused.
fn narrow(alloc: Global, numbers: &[usize]) -> Result<Vec<u16>, AllocError>
    requires { EachIndex numbers.now (λ k. slice_index numbers.now k < 65536) }
    ensures { IfOk result (λ all. all.items ≡ numbers.now) }
{
    let mut all = Vec::with_capacity(alloc, numbers.len())?;
    'numbers: for number in numbers {
        all.push(*number as u16)?;
    }
    Ok(all)
}

/// The order in which a netlist declares its inputs. Fails where memory is refused.
fn declared_order(alloc: Global, inputs: usize) -> Result<Order, AllocError>
    requires { inputs ≤ 65535 }
    ensures positions { IfOk result (λ order. order.positions.items ≡ range_with_len 0 inputs) }
    ensures variables { IfOk result (λ order. order.variables.items ≡ variables_in inputs order.positions.items) }
    ensures lawful { IfOk result (λ order. IsOrder inputs order.positions.items) }
{
    let mut numbers = Vec::with_capacity(alloc, inputs)?;
    'numbers: for number in 0..inputs {
        numbers.push(number)?;
    }
    Ok(Order {
        positions: narrow(alloc, &numbers)?,
        variables: narrow(alloc, &numbers)?,
    })
}

/// The refusal of an order text.
fn refusal(code: u8) -> Refused
    ensures { result ≡ order_refused code }
{
    Refused {
        side: Side::Order,
        line: 0,
        code,
    }
}

/// Where each word of an order text stands among these inputs, and where each input stands among
/// the words; or the text's refusal: 2 too long, 51 a word that is no input, 52 a word twice, 53 an
/// input that isn't there, the first of them in this order; or no memory.
fn read_places(
    alloc: Global,
    inputs: &[&[u8]],
    text: &[u8],
) -> Result<(Vec<usize>, Vec<usize>), Refused>
    requires { has_twice (map (λ input. input.now) inputs.now) ≡ false }
    ensures taken { IfOk result (λ places. order_code (map (λ input. input.now) inputs.now) text.now ≡ None) }
    ensures positions { IfOk result (λ places. places.0.items ≡ map (position_of (map (λ input. input.now) inputs.now)) (order_words text.now)) }
    ensures variables { IfOk result (λ places. places.1.items ≡ map (position_of (order_words text.now)) (map (λ input. input.now) inputs.now)) }
    ensures refused { IfErr result (λ refused. (refused ≡ no_memory) ⊎ (option_map order_refused (order_code (map (λ input. input.now) inputs.now) text.now) ≡ Some refused)) }
{
    if text.len() > MAX_TEXT {
        return Err(refusal(eqc_netlist::text_rule::Rule::TextTooLong.code()));
    }
    let words = order_words(alloc, text)?;
    let Some(positions) = places_among(alloc, inputs, &words)? else {
        return Err(refusal(Rule::UnknownWord.code()));
    };
    if has_twice(alloc, &words)? {
        return Err(refusal(Rule::WordTwice.code()));
    }
    match places_among(alloc, &words, inputs)? {
        Some(variables) => Ok((positions, variables)),
        None => Err(refusal(Rule::InputLeftOut.code())),
    }
}

/// The order that a text gives to these inputs, or the text's refusal, or no memory.
fn read_order(alloc: Global, inputs: &[Name], text: &[u8]) -> Result<Order, Refused>
    requires few { length inputs.now ≤ 65535 }
    requires once { has_twice inputs.now ≡ false }
    ensures taken { IfOk result (λ order. order_code inputs.now text.now ≡ None) }
    ensures positions { IfOk result (λ order. order.positions.items ≡ map (position_of inputs.now) (order_words text.now)) }
    ensures variables { IfOk result (λ order. order.variables.items ≡ variables_in (length inputs.now) order.positions.items) }
    ensures lawful { IfOk result (λ order. IsOrder (length inputs.now) order.positions.items) }
    ensures refused { IfErr result (λ refused. (refused ≡ no_memory) ⊎ (option_map order_refused (order_code inputs.now text.now) ≡ Some refused)) }
{
    let names = bytes_of(alloc, inputs)?;
    let (positions, variables) = read_places(alloc, &names, text)?;
    Ok(Order {
        positions: narrow(alloc, &positions)?,
        variables: narrow(alloc, &variables)?,
    })
}

/// The order that an order text gives to these inputs, else the one in which they are declared; or
/// the text's refusal, or no memory.
pub(crate) fn order_of(
    alloc: Global,
    inputs: &[Name],
    text: Option<&[u8]>,
) -> Result<Order, Refused>
    requires few { length inputs.now ≤ 65535 }
    requires once { has_twice inputs.now ≡ false }
    ensures taken { IfOk result (λ order. order_refusal inputs.now (option_copied text.entry) ≡ None) }
    ensures positions { IfOk result (λ order. order.positions.items ≡ order_for inputs.now (option_copied text.entry)) }
    ensures variables { IfOk result (λ order. order.variables.items ≡ variables_in (length inputs.now) order.positions.items) }
    ensures lawful { IfOk result (λ order. IsOrder (length inputs.now) order.positions.items) }
    ensures refused { IfErr result (λ refused. (refused ≡ no_memory) ⊎ (order_refusal inputs.now (option_copied text.entry) ≡ Some refused)) }
{
    match text {
        Some(text) => read_order(alloc, inputs, text),
        None => Ok(declared_order(alloc, inputs.len())?),
    }
}
