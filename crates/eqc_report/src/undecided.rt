//! The outputs that are left where a comparison is given up, and what was seen of one that differs.
ghost use Rattle.std.specs.Prelude.{◌≡◌, ◌⊎◌, ◌<◌, ◌++◌, [], ◌∷◌, All, length, map, vec_len, slice_index_or, is_some, true, false, Some, IfOk, IfSome};
ghost use Rattle.std.specs.Option.{option_copied};
ghost use Rattle.eqc_compare.specs.Verdict.{differs_under};
ghost use Rattle.eqc_compare.specs.Comparing.{netlist_of, assumption_of, is_chosen_at};
ghost use Rattle.eqc_report.specs.Left.{IsNameWhere, IsTold, IsWordLeft, KeepsTold, count_of, is_alone, is_compared_in, is_left_in};
ghost use Rattle.eqc_report.specs.Seen.{IsLeftOf};

mod counting;
mod largest;
mod word;

use crate::found::{copied, shown};
use crate::report::Difference;
use crate::undecided::counting::{Alone, Compared, ComparedIn, IsLeft, LeftIn, Test, count};
use crate::undecided::largest::largest;
use crate::undecided::word::{number_between, number_in};
use eqc_netlist::Name;
use eqc_pair::Pair;
use std::alloc::{AllocError, Global};
pub use word::Word;

/// So many words and names are told.
const KEPT: usize = 10;

/// An output that was seen to differ, with the names of the first netlist's inputs in order, for
/// which it has its values.
#[derive(Drop)]
pub struct Seen {
    pub inputs: Vec<Name>,
    pub difference: Difference,
}

/// What is told of the outputs that a comparison left undecided.
#[derive(Drop)]
pub struct Left {
    /// How many outputs were compared.
    pub compared: usize,
    /// How many of them are left.
    pub count: usize,
    /// Words of which outputs are left, those first of which most are: at most ten, and fewer where
    /// memory was refused.
    pub words: Vec<Word>,
    /// How many of the outputs that are left are of none of these words.
    pub alone: usize,
    /// The names of the first of those, so many that with the words there are at most ten.
    pub names: Vec<Vec<u8>>,
}

/// The outputs that a comparison left undecided, and what was seen of the one at which it gave up.
#[derive(Drop)]
pub struct Undecided {
    alloc: Global,
    left: Left,
    seen: Option<Seen>,
}

/// The least and the greatest number of the outputs that are compared and whose names begin and end
/// so.
fn span(pair: &Pair<'_>, before: &[u8], after: &[u8]) -> (u32, u32) {
    let outputs = pair.first().outputs();
    let mut low = u32::MAX;
    let mut high = 0u32;
    for output in 0..outputs.len() {
        if pair.is_chosen(output)
            && let Some(number) = number_between(outputs[output].as_bytes(), before, after)
        {
            low = low.min(number);
            high = high.max(number);
        }
    }
    (low, high)
}

/// How many outputs are compared whose names begin and end so, with a number between.
fn compared_in(pair: &Pair<'_>, before: &[u8], after: &[u8]) -> usize
    ensures { result ≡ count_of pair.now (is_compared_in pair.now before.now after.now) }
{
    count(pair, &ComparedIn { before, after })
}

/// How many of these are left.
fn left_in(pair: &Pair<'_>, marks: &[bool], before: &[u8], after: &[u8]) -> usize
    ensures { result ≡ count_of pair.now (is_left_in pair.now marks.now before.now after.now) }
{
    let left = IsLeft { marks };
    count(
        pair,
        &LeftIn {
            left,
            before,
            after,
        },
    )
}

/// A word of names that begin and end so, if outputs of it are left.
fn word_between(pair: &Pair<'_>, marks: &[bool], before: Vec<u8>, after: Vec<u8>) -> Option<Word>
    ensures { IfSome result (IsWordLeft pair.now marks.now) }
{
    let left = left_in(pair, marks, &before, &after);
    if left == 0 {
        return None;
    }
    let all = compared_in(pair, &before, &after);
    let (low, high) = span(pair, &before, &after);
    Some(Word {
        before,
        after,
        low,
        high,
        left,
        all,
    })
}

/// The word of the output at a position, if it has an index and outputs of its word are left. Fails
/// where memory is refused.
fn word_at(
    alloc: Global,
    pair: &Pair<'_>,
    marks: &[bool],
    output: usize,
) -> Result<Option<Word>, AllocError>
    requires { output < length pair.now.first.outputs }
    ensures { IfOk result (λ word. IfSome word (IsWordLeft pair.now marks.now)) }
{
    let name = pair.first().outputs()[output].as_bytes();
    let Some((start, end)) = number_in(name) else {
        return Ok(None);
    };
    let before = name[..start].to_vec(alloc)?;
    let after = name[end..].to_vec(alloc)?;
    Ok(word_between(pair, marks, before, after))
}

/// Puts the word of the output at a position behind others, if there is one. Where memory is
/// refused it stays out.
fn add_word(alloc: Global, pair: &Pair<'_>, marks: &[bool], output: usize, words: &mut Vec<Word>)
    ensures { All (IsWordLeft pair.now marks.now) words.old.items → All (IsWordLeft pair.now marks.now) words.new.items }
{
    if output < pair.first().outputs().len()
        && let Ok(Some(word)) = word_at(alloc, pair, marks, output)
    {
        let _ = words.push(word);
    }
}

/// Words of which outputs are left, those first of which most are, at most ten. Where memory is
/// refused there are fewer.
fn words_left(alloc: Global, pair: &Pair<'_>, marks: &[bool]) -> Vec<Word>
    ensures { All (IsWordLeft pair.now marks.now) result.items }
{
    let mut words = Vec::new(alloc);
    if let Ok(ranks) = largest(alloc, pair, IsLeft { marks }) {
        for (_, output) in ranks.iter().take(KEPT) {
            add_word(alloc, pair, marks, *output, &mut words);
        }
    }
    words
}

/// Puts a name behind others, if there are fewer than so many. Where memory is refused for it, it
/// stays out.
fn add_name(alloc: Global, names: &mut Vec<Vec<u8>>, most: usize, name: &[u8])
    ensures { (map (λ name. name.items) names.new.items ≡ map (λ name. name.items) names.old.items) ⊎ (map (λ name. name.items) names.new.items ≡ map (λ name. name.items) names.old.items ++ name.now ∷ []) }
{
    if names.len() < most
        && let Ok(name) = name.to_vec(alloc)
    {
        let _ = names.push(name);
    }
}

/// The names of the first outputs that are left and of none of these words, at most so many. Where
/// memory is refused there are fewer.
fn names_alone(
    alloc: Global,
    pair: &Pair<'_>,
    marks: &[bool],
    words: &[Word],
    most: usize,
) -> Vec<Vec<u8>>
    ensures { All (IsNameWhere pair.now (is_alone pair.now marks.now words.now)) (map (λ name. name.items) result.items) }
{
    let left = IsLeft { marks };
    let alone = Alone { left, words };
    let outputs = pair.first().outputs();
    let mut names = Vec::new(alloc);
    for output in 0..outputs.len() {
        if alone.holds(pair, output) {
            add_name(alloc, &mut names, most, outputs[output].as_bytes());
        }
    }
    names
}

/// How many outputs are left and of none of these words.
fn left_alone(pair: &Pair<'_>, marks: &[bool], words: &[Word]) -> usize
    ensures { result ≡ count_of pair.now (is_alone pair.now marks.now words.now) }
{
    let left = IsLeft { marks };
    count(pair, &Alone { left, words })
}

/// The outputs that are left, by words and names.
fn left_of(alloc: Global, pair: &Pair<'_>, marks: &[bool]) -> Left
    ensures { IsTold pair.now marks.now result }
{
    let words = words_left(alloc, pair, marks);
    let most = KEPT.saturating_sub(words.len());
    let names = names_alone(alloc, pair, marks, &words, most);
    let alone = left_alone(pair, marks, &words);
    Left {
        compared: count(pair, &Compared),
        count: count(pair, &IsLeft { marks }),
        words,
        alone,
        names,
    }
}

impl Undecided {
    /// No output is left. What is told later is kept in this memory.
    pub fn none(alloc: Global) -> Undecided
        ensures count { result.left.count ≡ 0 }
        ensures words { vec_len result.left.words ≡ 0 }
        ensures names { vec_len result.left.names ≡ 0 }
        ensures seen { is_some result.seen ≡ false }
    {
        let left = Left {
            compared: 0,
            count: 0,
            words: Vec::new(alloc),
            alone: 0,
            names: Vec::new(alloc),
        };
        Undecided {
            alloc,
            left,
            seen: None,
        }
    }

    /// Takes the chosen outputs of a pair that are not marked, which aren't known to be equal, in
    /// place of what was left before.
    pub fn take_unmarked(&mut self, pair: &Pair<'_>, marks: &[bool])
        ensures seen { self.new.seen ≡ self.old.seen }
        ensures left { IsTold pair.now marks.now self.new.left }
    {
        self.left = left_of(self.alloc, pair, marks);
    }

    /// Takes what was seen of an output that differs.
    fn see(&mut self, seen: Seen)
        ensures seen { self.new.seen ≡ Some seen }
        ensures told { KeepsTold self.old self.new }
    {
        self.seen = Some(seen);
    }

    /// An output that is left undecided though it differs, under an allowed assignment that was
    /// seen: maybe not the least, and maybe an output before it differs too. None where none was
    /// seen.
    pub fn seen(&self) -> Option<&Seen>
        ensures { option_copied result ≡ self.now.seen }
    {
        self.seen.as_ref()
    }

    /// The outputs that are left.
    pub fn left(&self) -> &Left
        ensures { result.now ≡ self.now.left }
    {
        &self.left
    }
}

/// Notes an output, by its position, that differs under an allowed assignment of the first
/// netlist's inputs that was seen. Where memory is refused for it nothing is noted.
pub fn note_seen(
    alloc: Global,
    pair: &Pair<'_>,
    left: &mut Undecided,
    output: usize,
    values: Vec<bool>,
)
    requires within { output < length pair.now.first.outputs }
    requires chosen { is_chosen_at pair.now output ≡ true }
    requires size { length values.items ≡ length pair.now.first.inputs }
    requires differs { differs_under (netlist_of pair.now.first) (netlist_of pair.now.second) (assumption_of pair.now) (slice_index_or pair.now.first.outputs output []) values.items ≡ true }
    ensures seen { IsLeftOf pair.now left.old → IsLeftOf pair.now left.new }
    ensures told { KeepsTold left.old left.new }
{
    if let Ok(difference) = shown(alloc, pair.first(), output, values)
        && let Ok(inputs) = copied(alloc, pair.first().inputs())
    {
        left.see(Seen { inputs, difference });
    }
}
