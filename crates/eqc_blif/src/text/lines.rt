//! How the bytes of a text become logical lines: comments and trailing blanks are cut off, and
//! continued lines are joined.
ghost use Rattle.std.specs.Prelude.{◌≡◌, ◌+◌, ◌<◌, ◌≤◌, IsTrue, ℕ, [], ◌∷◌, length, IfOk, ◌==◌, ◌^◌};
ghost use Rattle.std.specs.List.{list_all, position_or_len};
ghost use Rattle.std.specs.Option.{option_map, option_copied};
ghost use Rattle.eqc_blif.specs.Lines.{is_trailing, is_blank, trimmed, continues, joined, logical, numbered};
ghost use Rattle.eqc_blif.specs.Steps.{TakesFirst, whole_or_joined};

use crate::text::near::find_either;
use crate::text::words::is_blank;
use memchr::memchr;
use std::alloc::AllocError;
use std::marker::Model;

fn is_trailing(byte: u8) -> bool
    ensures { result ≡ is_trailing byte }
{
    byte == b' ' || byte == b'\t' || byte == b'\r'
}

/// Where the first LF stands, or the length, by a search of many bytes at a time.
#[inline(never)]
fn find_far_line_end(bytes: &[u8]) -> usize
    ensures first { result ≡ position_or_len (λ byte. byte == 10) bytes.now }
    ensures within { result ≤ length bytes.now }
{
    match memchr(b'\n', bytes) {
        Some(i) => i,
        None => bytes.len(),
    }
}

/// Where the first LF stands, or the length. Most lines have no comment, so that the LF is looked
/// for where it stands.
fn find_line_end(bytes: &[u8]) -> usize
    ensures first { result ≡ position_or_len (λ byte. byte == 10) bytes.now }
    ensures within { result ≤ length bytes.now }
{
    if !bytes.is_empty() && bytes[0] == b'\n' {
        return 0;
    }
    find_far_line_end(bytes)
}

fn trimmed(line: &[u8]) -> &[u8]
    ensures { result.now ≡ trimmed line.now }
{
    let mut end = line.len();
    while end > 0 && is_trailing(line[end - 1]) {
        end -= 1;
    }
    &line[..end]
}

fn continues(line: &[u8]) -> bool
    ensures last { result ≡ continues line.now }
    ensures some { IsTrue result → 0 < length line.now }
{
    !line.is_empty() && line[line.len() - 1] == b'\\'
}

fn is_all_blank(line: &[u8]) -> bool
    ensures { result ≡ list_all is_blank line.now }
{
    line.iter().all(|byte| is_blank(*byte))
}

/// The clean physical lines that are left of a text, each with its number.
#[derive(Drop)]
pub(crate) struct Lines<'a> {
    rest: Option<&'a [u8]>,
    number: u32,
}

impl<'a> Model for Lines<'a> {
    ghost use Rattle.std.specs.Prelude.{ℕ, List, ◌+◌, ◌<◌, ◌^◌};
    ghost use Rattle.std.specs.Option.{option_copied};
    ghost use Rattle.eqc_blif.specs.Steps.{numbered_rest, room};

    ghost Value = { List (ℕ × List ℕ) };

    ghost view = { λ a. numbered_rest a.number (option_copied a.rest) };

    ghost invariant = { λ a. a.number + room (option_copied a.rest) < 2 ^ 32 };
}

impl<'a> Lines<'a> {
    /// All lines of a text.
    pub(crate) fn new(text: &'a [u8]) -> Lines<'a>
        requires { length text.now < 2 ^ 31 }
        ensures { result ≡ numbered 1 text.now }
    {
        Lines {
            rest: Some(text),
            number: 1,
        }
    }

    /// The next physical line, with its number.
    #[inline(always)]
    pub(crate) fn next_physical(&mut self) -> Option<(u32, &'a [u8])>
        ensures { TakesFirst self.old (option_map (λ p. (p.0, p.1.now)) result) self.new }
    {
        let text = self.rest?;
        let number = self.number;
        let mark = find_either::<b'\n', b'#'>(text);
        let end = mark + find_line_end(&text[mark..]);
        if end < text.len() {
            self.rest = Some(&text[end + 1..]);
            self.number = number + 1;
        } else {
            self.rest = None;
        }
        Some((number, trimmed(&text[..mark])))
    }

    /// Appends to the empty `line` a logical line that begins with `first`, and the lines that it
    /// is continued in.
    fn join(&mut self, line: &mut Vec<u8>, first: &[u8]) -> Result<(), AllocError>
        requires { line.old.items ≡ [] }
        ensures shorter { length self.new ≤ length self.old }
        ensures joined { IfOk result (λ _. (n : ℕ) → joined ((n, first.now) ∷ self.old) ≡ (n, line.new.items) ∷ joined self.new) }
    {
        let mut piece = first;
        'pieces: while continues(piece) {
            line.extend_from_slice(&piece[..piece.len() - 1])?;
            line.push(b' ')?;
            match self.next_physical() {
                Some((_, next)) => piece = next,
                None => return Ok(()),
            }
        }
        line.extend_from_slice(piece)?;
        Ok(())
    }

    /// The number of the next logical line, with its bytes where it stands in one physical line;
    /// one that was joined is written into `joined`.
    #[inline(always)]
    pub(crate) fn next_logical(
        &mut self,
        joined: &mut Vec<u8>,
    ) -> Result<Option<(u32, Option<&'a [u8]>)>, AllocError>
        ensures { IfOk result (λ found. TakesFirst (logical self.old) (option_map (λ f. (f.0, whole_or_joined (option_copied f.1) joined.new.items)) found) (logical self.new)) }
    {
        'lines: while let Some((number, line)) = self.next_physical() {
            if continues(line) {
                joined.clear();
                self.join(joined, line)?;
                if !is_all_blank(joined) {
                    return Ok(Some((number, None)));
                }
            } else if !is_all_blank(line) {
                return Ok(Some((number, Some(line))));
            }
        }
        Ok(None)
    }
}
