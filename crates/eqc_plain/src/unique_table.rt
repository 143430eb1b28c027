//! The unique table: the word of each node, which stands in one slot only and is found by slot or
//! by word.
ghost use Rattle.std.specs.Prelude.{◌≡◌, ◌≢◌, ℕ, ◌+◌, ◌<◌, ◌≤◌, [], ◌∷◌, ◌++◌, length, slice_index, IfSome, IfNone, IfOk, OnOk, IfErr, OnErr};
ghost use Rattle.eqc_plain.specs.Seeking.{mixed_of, home_of, mark_of, position, IsFree, IsPlaced, IsSought, Puts};

use std::alloc::{AllocError, Global};
use std::marker::Model;

/// A table has no more words than this, so that the number of each fits in a place beside a mark.
const MOST_WORDS: usize = 0xF_FFFF;

/// The fewest places, once there are any. Their number is a power of two.
const FEWEST_PLACES: usize = 64;

const MOST_PLACES: usize = 0x100_0000;

/// A word's number, counted from 1, and a mark of it above that, or 0 where a place is free. So a
/// word that isn't the one that is looked for is hardly ever read.
const NUMBERS: u32 = 0x10_0000;

/// The words of the nodes, each once, in the order in which they came, and where each is found: in
/// the first place from its own one on that was free when it came (open addressing).
#[derive(Drop)]
pub struct UniqueTable {
    alloc: Global,
    words: Vec<u64>,
    places: Vec<u32>,
}

impl Model for UniqueTable {
    ghost use Rattle.std.specs.Prelude.{ℕ, List};
    ghost use Rattle.eqc_plain.specs.Seeking.{IsPlaced};

    ghost Value = { List ℕ };

    ghost view = { λ t. t.words.items };

    ghost invariant = { λ t. IsPlaced t.places.items t.words.items };
}

/// What a search for a word came to.
#[derive(Clone, Copy, Drop)]
pub enum Sought {
    /// The word's slot.
    Found(usize),
    /// The free place that ended the search.
    Free(usize),
    /// No place was free.
    Full,
}

/// The bits of a word mixed: it is multiplied by the golden ratio.
#[inline(always)]
#[tactic(auto, unfolding(crate::specs::Seeking::mixed_of))]
fn mixed(word: u64) -> u64
    ensures { result ≡ mixed_of word }
{
    word.wrapping_mul(0x9E37_79B9_7F4A_7C15)
}

/// A word's own place, of so many, by upper bits.
#[inline(always)]
#[tactic(auto, unfolding(crate::specs::Seeking::home_of))]
fn home(word: u64, places: usize) -> usize
    requires { 0 < places }
    ensures within { result < places }
    ensures home { result ≡ home_of places word }
{
    (mixed(word) >> 40) as usize & (places - 1)
}

/// A word's mark, by other bits.
#[inline(always)]
#[tactic(auto, unfolding(crate::specs::Seeking::mark_of))]
fn mark(word: u64) -> u32
    ensures mark { result ≡ mark_of word }
    ensures most { result ≤ 4293918720 }
{
    ((mixed(word) >> 28) % 4096) as u32 * NUMBERS
}

/// The place that comes so many steps behind a place.
#[inline(always)]
#[tactic(auto, unfolding(crate::specs::Seeking::position))]
fn step_on(place: usize, step: usize, places: usize) -> usize
    requires place { place < places }
    requires step { step < places }
    ensures within { result < places }
    ensures position { result ≡ position places place step }
{
    if step < places - place {
        place + step
    } else {
        step - (places - place)
    }
}

/// The slot of a word, where an entry names it: hardly any other word is read, since marks differ.
#[inline(always)]
fn named(words: &[u64], entry: u32, mark: u32, word: u64) -> Option<usize>
    ensures named { IfSome result (λ slot. (slot < length words.now) × (slice_index words.now slot ≡ word)) }
    ensures other { IfNone result ((k : ℕ) → k < length words.now → slice_index words.now k ≡ word → entry ≢ mark + k + 1) }
{
    if entry <= mark {
        return None;
    }
    let slot = (entry - mark - 1) as usize;
    if slot >= words.len() || words[slot] != word {
        return None;
    }
    Some(slot)
}

/// Looks for a word among the words that have places.
#[inline(always)]
fn seek(words: &[u64], places: &[u32], word: u64) -> Sought
    ensures { IsSought words.now places.now word result }
{
    if places.is_empty() {
        return Sought::Full;
    }
    let home = home(word, places.len());
    let mark = mark(word);
    for step in 0..places.len() {
        let place = step_on(home, step, places.len());
        let entry = places[place];
        if entry == 0 {
            return Sought::Free(place);
        }
        if let Some(slot) = named(words, entry, mark, word) {
            return Sought::Found(slot);
        }
    }
    Sought::Full
}

/// Puts the number of a word that stands in this slot into a place.
#[inline(always)]
fn put(places: &mut Vec<u32>, place: usize, word: u64, slot: usize)
    requires slot { slot < 1048575 }
    requires place { place < length places.old.items }
    ensures { Puts places.old.items places.new.items place word slot }
{
    places[place] = mark(word) + slot as u32 + 1;
}

/// Puts a word that was missed into the next slot, and its number into a free place. Fails where
/// memory is refused, and where there are as many words as a table may have.
#[inline(always)]
fn add(
    words: &mut Vec<u64>,
    places: &mut Vec<u32>,
    word: u64,
    place: usize,
) -> Result<usize, AllocError>
    requires free { IsFree places.old.items word place }
    requires placed { IsPlaced places.old.items words.old.items }
    ensures placed { IsPlaced places.new.items words.new.items }
    ensures slot { IfOk result (λ slot. slot ≡ length words.old.items) }
    ensures added { OnOk result (words.new.items ≡ words.old.items ++ word ∷ []) }
    ensures still { OnErr result (words.new.items ≡ words.old.items) }
{
    let slot = words.len();
    if slot >= MOST_WORDS || words.push(word).is_err() {
        return Err(AllocError);
    }
    put(places, place, word, slot);
    Ok(slot)
}

/// So many places, with the words put into them. Fails where memory is refused.
fn placed(alloc: Global, words: &[u64], count: usize) -> Result<Vec<u32>, AllocError>
    ensures { IfOk result (λ places. IsPlaced places.items words.now) }
{
    if words.len() > MOST_WORDS {
        return Err(AllocError);
    }
    let mut places = vec![in alloc; 0u32; count]?;
    'words: for slot in 0..words.len() {
        let Sought::Free(place) = seek(&[], &places, words[slot]) else {
            return Err(AllocError);
        };
        put(&mut places, place, words[slot], slot);
    }
    Ok(places)
}

/// The same as `add`, with twice as many places first.
#[inline(never)]
fn add_in_more(
    alloc: Global,
    words: &mut Vec<u64>,
    places: &mut Vec<u32>,
    word: u64,
) -> Result<usize, AllocError>
    requires placed { IsPlaced places.old.items words.old.items }
    ensures placed { IsPlaced places.new.items words.new.items }
    ensures slot { IfOk result (λ slot. slot ≡ length words.old.items) }
    ensures added { OnOk result (words.new.items ≡ words.old.items ++ word ∷ []) }
    ensures still { OnErr result (words.new.items ≡ words.old.items) }
{
    let count = (2 * places.len().min(MOST_PLACES)).max(FEWEST_PLACES);
    *places = placed(alloc, words, count)?;
    match seek(&[], places, word) {
        Sought::Free(place) => add(words, places, word, place),
        Sought::Found(_) | Sought::Full => Err(AllocError),
    }
}

/// The same, with more places where half of them are taken.
#[inline(always)]
fn add_with_room(
    alloc: Global,
    words: &mut Vec<u64>,
    places: &mut Vec<u32>,
    word: u64,
    place: usize,
) -> Result<usize, AllocError>
    requires free { IsFree places.old.items word place }
    requires placed { IsPlaced places.old.items words.old.items }
    ensures placed { IsPlaced places.new.items words.new.items }
    ensures slot { IfOk result (λ slot. slot ≡ length words.old.items) }
    ensures added { OnOk result (words.new.items ≡ words.old.items ++ word ∷ []) }
    ensures still { OnErr result (words.new.items ≡ words.old.items) }
{
    if words.len() >= places.len() / 2 {
        return add_in_more(alloc, words, places, word);
    }
    add(words, places, word, place)
}

impl UniqueTable {
    pub fn new(alloc: Global) -> UniqueTable
        ensures { result ≡ [] }
    {
        UniqueTable {
            alloc,
            words: Vec::new(alloc),
            places: Vec::new(alloc),
        }
    }

    pub fn len(&self) -> usize
        ensures { result ≡ length self.now }
    {
        self.words.len()
    }

    /// The word in a slot, counted from 0.
    #[inline(always)]
    pub fn word(&self, slot: usize) -> u64
        requires { slot < length self.now }
        ensures { result ≡ slice_index self.now slot }
    {
        self.words[slot]
    }

    /// The slot of a word.
    pub fn find(&self, word: u64) -> Option<usize>
        ensures found { IfSome result (λ k. (k < length self.now) × (slice_index self.now k ≡ word)) }
        ensures absent { IfNone result ((k : ℕ) → k < length self.now → slice_index self.now k ≢ word) }
    {
        match seek(&self.words, &self.places, word) {
            Sought::Found(slot) => Some(slot),
            Sought::Free(_) | Sought::Full => None,
        }
    }

    /// The slot into which a word comes that isn't there. Fails where memory is refused.
    pub fn add(&mut self, word: u64) -> Result<usize, AllocError>
        ensures slot { IfOk result (λ slot. slot ≡ length self.old) }
        ensures added { OnOk result (self.new ≡ self.old ++ word ∷ []) }
        ensures still { OnErr result (self.new ≡ self.old) }
    {
        match seek(&[], &self.places, word) {
            Sought::Free(place) => {
                add_with_room(self.alloc, &mut self.words, &mut self.places, word, place)
            }
            Sought::Found(_) | Sought::Full => {
                add_in_more(self.alloc, &mut self.words, &mut self.places, word)
            }
        }
    }
}
