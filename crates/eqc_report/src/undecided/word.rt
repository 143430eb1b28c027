//! Words among the names of outputs: their names begin with the same bytes and end with the same,
//! and have a number between them.
ghost use Rattle.std.specs.Prelude.{◌≡◌, ◌≤◌, length, is_some, IfSome};
ghost use Rattle.std.specs.List.{list_all};
ghost use Rattle.std.specs.Char.{is_ascii_digit};
ghost use Rattle.eqc_report.specs.Words.{is_number, ends_number, has_number, is_of_any};

/// A word of outputs, of which some are left undecided, as `p[63:0]` of `p[63]` to `p[0]`.
#[derive(Drop)]
pub struct Word {
    /// What its names begin with, as `p[`.
    pub before: Vec<u8>,
    /// What they end with behind their number, as `]`.
    pub after: Vec<u8>,
    /// The least and the greatest of the numbers, 4,294,967,295 for those that are greater.
    pub low: u32,
    pub high: u32,
    /// How many of its outputs are left.
    pub left: usize,
    /// How many of them are compared.
    pub all: usize,
}

/// Whether all bytes are digits.
fn are_digits(bytes: &[u8]) -> bool
    ensures { result ≡ list_all is_ascii_digit bytes.now }
{
    bytes.iter().all(|byte| byte.is_ascii_digit())
}

/// The number that digits are, 4,294,967,295 if it is greater.
fn value(digits: &[u8]) -> u32 {
    let mut value = 0u32;
    for digit in digits {
        value = value
            .saturating_mul(10)
            .saturating_add(u32::from(*digit % 16));
    }
    value
}

/// The number that bytes are, if they are one.
fn number(bytes: &[u8]) -> Option<u32>
    ensures { is_some result ≡ is_number bytes.now }
{
    if !bytes.is_empty() && are_digits(bytes) {
        Some(value(bytes))
    } else {
        None
    }
}

/// The number before these bytes, if bytes end with them behind one.
fn number_before(bytes: &[u8], after: &[u8]) -> Option<u32>
    ensures { is_some result ≡ ends_number after.now bytes.now }
{
    match bytes.strip_suffix(after) {
        None => None,
        Some(rest) => number(rest),
    }
}

/// The number of a name between these bytes, if it begins and ends with them and has one there.
pub(crate) fn number_between(name: &[u8], before: &[u8], after: &[u8]) -> Option<u32>
    ensures { is_some result ≡ has_number before.now after.now name.now }
{
    match name.strip_prefix(before) {
        None => None,
        Some(rest) => number_before(rest, after),
    }
}

/// Whether a name begins and ends with these bytes, and has a number between them.
pub(crate) fn has_number(name: &[u8], before: &[u8], after: &[u8]) -> bool
    ensures { result ≡ has_number before.now after.now name.now }
{
    number_between(name, before, after).is_some()
}

/// Whether a name is of one of these words.
pub(crate) fn is_of_any(name: &[u8], words: &[Word]) -> bool
    ensures { result ≡ is_of_any name.now words.now }
{
    words
        .iter()
        .any(|word| has_number(name, &word.before, &word.after))
}

/// Where the number of a name begins and ends, of names as `p[3]`, `p<3>`, `p(3)`, `p_3_` and `p3`.
pub(crate) fn number_in(name: &[u8]) -> Option<(usize, usize)>
    ensures { IfSome result (λ ends. (ends.0 ≤ ends.1) × (ends.1 ≤ length name.now)) }
{
    let end = match name.last() {
        Some(b']' | b'>' | b')' | b'_') => name.len() - 1,
        _ => name.len(),
    };
    let mut start = end;
    for k in (0..end).rev() {
        if !name[k].is_ascii_digit() {
            break;
        }
        start = k;
    }
    if start < end {
        Some((start, end))
    } else {
        None
    }
}
