//! How a logical line is cut into words: into names, into pairs of formal and actual, or into a row
//! without blanks.
ghost use Rattle.std.specs.Prelude.{◌≡◌, ◌<◌, ◌≤◌, ◌++◌, [], ◌∷◌, length, IfOk, IfSome, MatchOption, map, true, false, ◌+◌, is_ok, if◌then◌else◌};
ghost use Rattle.std.specs.List.{position_or_len, list_all};
ghost use Rattle.std.specs.Option.{option_map};
ghost use Rattle.smallvec.specs.SmallVec.{HasRoomFor};
ghost use Rattle.eqc_blif.specs.Lines.{is_blank};
ghost use Rattle.eqc_blif.specs.Words.{words, first_of, arguments, without_blanks, is_equals_sign, is_pair};
ghost use Rattle.eqc_netlist.specs.Names.{is_named};
ghost use Rattle.eqc_blif.specs.Steps.{ArePairs, IsPair};

use crate::sparing::reserve_sparing;
use crate::text::near::{NEAR, find_either};
use eqc_netlist::Name;
use smallvec::SmallVec;
use std::alloc::{AllocError, Global};

pub(crate) fn is_blank(byte: u8) -> bool
    ensures { result ≡ is_blank byte }
{
    byte == b' ' || byte == b'\t'
}

/// The first word of a line, and what stands behind it.
pub(crate) fn split_word(line: &[u8]) -> Option<(&[u8], &[u8])>
    ensures words { MatchOption result (words line.now ≡ []) (λ p. words line.now ≡ p.0.now ∷ words p.1.now) }
    ensures blanks { MatchOption result (without_blanks line.now ≡ []) (λ p. without_blanks line.now ≡ p.0.now ++ without_blanks p.1.now) }
    ensures shorter { IfSome result (λ p. length p.1.now < length line.now) }
{
    let mut rest = line;
    'blanks: loop {
        let end = find_either::<b' ', b'\t'>(rest);
        if end >= rest.len() {
            break;
        }
        if end > 0 {
            return Some((&rest[..end], &rest[end + 1..]));
        }
        rest = &rest[1..];
    }
    if rest.is_empty() {
        return None;
    }
    Some((rest, &[]))
}

/// The first word of a line, which is empty where there is none, and what stands behind it.
pub(crate) fn split_first(line: &[u8]) -> (&[u8], &[u8])
    ensures first { result.0.now ≡ first_of (words line.now) }
    ensures behind { words result.1.now ≡ arguments line.now }
{
    match split_word(line) {
        Some((word, rest)) => (word, rest),
        None => (&[], &[]),
    }
}

/// Room for the words of a line: as many as it has bytes that are no blanks and stand behind a
/// blank or at its start. The loop has no branch, which is faster than to take the words one by
/// one.
pub(crate) fn room_for_words(line: &[u8]) -> usize {
    let mut words = 0usize;
    let mut behind_blank = true;
    'bytes: for byte in line {
        let blank = (*byte == b' ') | (*byte == b'\t');
        words = words.wrapping_add((behind_blank & !blank) as usize);
        behind_blank = blank;
    }
    words
}

/// The words of a line, as names. Fails where memory is refused.
pub(crate) fn names_in(alloc: Global, line: &[u8]) -> Result<Vec<Name>, AllocError>
    ensures { IfOk result (λ names. names.items ≡ words line.now) }
{
    let mut names = Vec::with_capacity(alloc, room_for_words(line))?;
    let mut rest = line;
    'words: while let Some((word, others)) = split_word(rest) {
        names.push(Name::new(alloc, word)?)?;
        rest = others;
    }
    Ok(names)
}

/// Puts the words of a line behind the bytes, which have room for them.
fn append_words(bytes: &mut SmallVec<u8, 16>, line: &[u8])
    requires { HasRoomFor bytes.old (length (without_blanks line.now)) }
    ensures { bytes.new.items ≡ bytes.old.items ++ without_blanks line.now }
{
    let mut rest = line;
    'words: while let Some((word, others)) = split_word(rest) {
        bytes.extend_from_slice(word).unwrap();
        rest = others;
    }
}

/// Puts the bytes of a line that are no spaces and tabs behind others. Where memory is refused,
/// none are put there.
#[inline(always)]
pub(crate) fn append_without_blanks(
    bytes: &mut SmallVec<u8, 16>,
    line: &[u8],
) -> Result<(), AllocError>
    ensures { bytes.new.items ≡ (if is_ok result then bytes.old.items ++ without_blanks line.now else bytes.old.items) }
{
    reserve_sparing(bytes, line.len())?;
    if line.len() > NEAR {
        append_words(bytes, line);
        return Ok(());
    }
    'bytes: for byte in line {
        if !is_blank(*byte) {
            bytes.push_reserved(*byte);
        }
    }
    Ok(())
}

/// Where the first `=` stands, or the length.
fn find_equals_sign(word: &[u8]) -> usize
    ensures { result ≡ position_or_len is_equals_sign word.now }
{
    for (i, byte) in word.iter().enumerate() {
        if *byte == b'=' {
            return i;
        }
    }
    word.len()
}

/// The formal and the actual of a pair, split at its first `=`, or `None` where there is no `=` or
/// one of them is empty.
fn split_pair(word: &[u8]) -> Option<(&[u8], &[u8])>
    ensures { IsPair word.now (option_map (λ p. (p.0.now, p.1.now)) result) }
{
    let end = find_equals_sign(word);
    if end >= word.len() {
        return None;
    }
    let formal = &word[..end];
    let actual = &word[end + 1..];
    if formal.is_empty() || actual.is_empty() {
        return None;
    }
    Some((formal, actual))
}

/// The words of a line as pairs of formal and actual, or `None` where one of them is no pair. Fails
/// where memory is refused.
pub(crate) fn pairs_in(alloc: Global, line: &[u8]) -> Result<Option<Vec<(Name, Name)>>, AllocError>
    ensures { IfOk result (λ pairs. ArePairs (words line.now) (option_map (λ v. v.items) pairs)) }
{
    let mut pairs = Vec::with_capacity(alloc, room_for_words(line))?;
    let mut rest = line;
    'words: while let Some((word, others)) = split_word(rest) {
        let Some((formal, actual)) = split_pair(word) else {
            return Ok(None);
        };
        let pair = (Name::new(alloc, formal)?, Name::new(alloc, actual)?);
        pairs.push(pair)?;
        rest = others;
    }
    Ok(Some(pairs))
}

/// The first word of a line that is no pair, where one of them is none.
pub(crate) fn first_no_pair(line: &[u8]) -> &[u8]
    requires { list_all is_pair (words line.now) ≡ false }
    ensures word { is_named (words line.now) result.now ≡ true }
    ensures no_pair { is_pair result.now ≡ false }
{
    let mut rest = line;
    'words: loop {
        let (word, others) = split_word(rest).unwrap();
        if split_pair(word).is_none() {
            return word;
        }
        rest = others;
    }
}
