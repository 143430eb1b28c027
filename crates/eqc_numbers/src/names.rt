//! Words among outputs, by their names.
ghost use Rattle.std.specs.Prelude.{ℕ, ◌<◌, length, IfOk};
ghost use Rattle.std.specs.List.{All};

use eqc_sums::MOST_LITERALS;
use std::alloc::{AllocError, Global};

/// The part of a name before its index, and the index: of names as `a[3]`, `a<3>`, `a(3)`, `a_3_`
/// and `a3`.
fn indexed(name: &str) -> Option<(&str, u32)> {
    let open = match name.strip_suffix([']', '>', ')', '_']) {
        None => name,
        Some(open) => open,
    };
    let base = open.trim_end_matches(|c: char| c.is_ascii_digit());
    let digits = open.strip_prefix(base)?;
    match digits.parse::<u32>() {
        Ok(index) => Some((base, index)),
        Err(_) => None,
    }
}

/// The names that have an index, in order, with the place of each.
fn entries<'a>(alloc: Global, names: &[&'a str]) -> Result<Vec<(&'a str, u32, usize)>, AllocError> {
    let mut all = Vec::new(alloc);
    for place in 0..names.len() {
        if let Some((base, index)) = indexed(names[place]) {
            all.push((base, index, place))?;
        }
    }
    all.sort_unstable();
    Ok(all)
}

/// Puts a word behind others, if it isn't too short or too long.
fn end(words: &mut Vec<Vec<usize>>, word: Vec<usize>) -> Result<(), AllocError>
    ensures { (n : ℕ) → All (λ w. All (λ k. k < n) w.items) words.old.items → All (λ k. k < n) word.items → IfOk result (λ _. All (λ w. All (λ k. k < n) w.items) words.new.items) }
{
    if word.len() > 1 && word.len() <= MOST_LITERALS {
        words.push(word)?;
    }
    Ok(())
}

/// The word that goes on, or else an empty one, where that one is put behind others.
fn going_on(
    alloc: Global,
    words: &mut Vec<Vec<usize>>,
    word: Vec<usize>,
    goes_on: bool,
) -> Result<Vec<usize>, AllocError>
    ensures words { (n : ℕ) → All (λ w. All (λ k. k < n) w.items) words.old.items → All (λ k. k < n) word.items → IfOk result (λ _. All (λ w. All (λ k. k < n) w.items) words.new.items) }
    ensures word { (n : ℕ) → All (λ k. k < n) word.items → IfOk result (λ w. All (λ k. k < n) w.items) }
{
    if goes_on {
        return Ok(word);
    }
    end(words, word)?;
    Ok(Vec::new(alloc))
}

/// Puts a place into a word, if it is one of so many.
fn put(word: &mut Vec<usize>, place: usize, places: usize) -> Result<(), AllocError>
    ensures { All (λ k. k < places) word.old.items → IfOk result (λ _. All (λ k. k < places) word.new.items) }
{
    if place < places {
        word.push(place)?;
    }
    Ok(())
}

/// Whether a name comes behind another one in its word.
fn goes_on(last: Option<(&str, u32)>, base: &str, index: u32) -> bool {
    match last {
        None => false,
        Some((before, earlier)) => before == base && index == earlier.saturating_add(1),
    }
}

/// The words among outputs of these names, each as the places of its names, that of the lowest bit
/// first. Names belong to a word that are the same but for the number that they end with, in
/// brackets or not, as `a[0]`, `a[1]` or `a0`, `a1`; it goes from one number to the next without a
/// gap. Words of less than 2 and of more than 128 bits are left out. Fails where memory is refused.
pub fn words_of(alloc: Global, names: &[&str]) -> Result<Vec<Vec<usize>>, AllocError>
    ensures { IfOk result (λ ws. All (λ w. All (λ k. k < length names.now) w.items) ws.items) }
{
    let all = entries(alloc, names)?;
    let mut words = Vec::new(alloc);
    let mut word = Vec::new(alloc);
    let mut last = None;
    'names: for (base, index, place) in all.as_slice() {
        word = going_on(alloc, &mut words, word, goes_on(last, *base, *index))?;
        put(&mut word, *place, names.len())?;
        last = Some((*base, *index));
    }
    end(&mut words, word)?;
    Ok(words)
}
