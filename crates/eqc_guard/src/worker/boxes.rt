//! The steps on boxes: a parcel is put in while another comes out, and a box is looked at.
use crate::names;
use crate::parcel::{self, Parcel};
use crate::rule::{Load, SwapBox};
use crate::worker::Worker;

impl Worker {
    ghost use Rattle.std.specs.Prelude.{◌≡◌, ◌+◌, ◌*◌, ◌<◌};
    ghost use Rattle.eqc_core.specs.Sharing.{MayLookBox, boxed};
    ghost use Rattle.eqc_guard.specs.Rule.{boxes_from};
    ghost use Rattle.eqc_guard.specs.Standing.{Steps};
    ghost use Rattle.eqc_guard.specs.Telling.{Copies};
    ghost use Rattle.eqc_guard.specs.Sharing.{parcel_word, IsWhole, IsGenuine, MayPut, MayPutWord, Receives};

    /// How many boxes all workers have together, 16 each: those of worker k are from number 16 k
    /// on.
    pub fn boxes(&self) -> u32
        ensures { result ≡ 16 * self.now.known.core.sizes.workers }
    {
        16 * self.sizes.workers
    }

    // The word of a box.
    fn box_word(&self, b: u32) -> usize
        requires { b < 16 * self.now.known.core.sizes.workers }
        ensures { result ≡ boxes_from self.now.known.core.sizes + b }
    {
        let names = self.sizes.names as usize;
        let cells = self.sizes.cells as usize;
        self.before_counts() as usize + (names + names) + cells + b as usize
    }

    /// Loads the word of a box: 0 where it is empty.
    pub fn look_box(&mut self, b: u32) -> u64
        requires { MayLookBox self.old.known.core b }
        ensures step { Steps self.old self.old.known.core self.new }
        ensures copies { Copies self.old.known (boxes_from self.old.known.core.sizes + b) result result self.new.known }
        ensures counted { self.new.known.counted ≡ self.old.known.counted }
    {
        let word = self.box_word(b);
        self.table.shared.load::<Load>(&mut self.seat, word)
    }

    // Swaps a box for a word, and gives the word that it had.
    fn swap_box_word(&mut self, b: u32, word: u64) -> u64
        requires { MayPutWord self.old.known b word }
        ensures step { Steps self.old (boxed self.old.known.core result word) self.new }
        ensures tells { Receives result self.new.known }
        ensures copies { Copies self.old.known (boxes_from self.old.known.core.sizes + b) result word self.new.known }
        ensures counted { self.new.known.counted ≡ self.old.known.counted }
    {
        let place = self.box_word(b);
        let old = self
            .table
            .shared
            .swap::<SwapBox>(&mut self.seat, place, word);
        self.held = names::held_with_box(self.held, word, old);
        old
    }

    /// Puts a parcel into a box, whose references the box then has, and gives the one that it had:
    /// its references are held, and a result is right.
    ///
    /// No scan is under way, and at most 2^39 names are held.
    pub fn swap_box(&mut self, b: u32, parcel: Parcel) -> Parcel
        requires { MayPut self.old.known b parcel }
        ensures step { Steps self.old (boxed self.old.known.core (parcel_word result) (parcel_word parcel)) self.new }
        ensures whole { IsWhole parcel × IsWhole result }
        ensures right { IsGenuine self.new.known result }
        ensures copies { Copies self.old.known (boxes_from self.old.known.core.sizes + b) (parcel_word result) (parcel_word parcel) self.new.known }
        ensures counted { self.new.known.counted ≡ self.old.known.counted }
    {
        // There are so few names that those of the parcel fit its word.
        let _names = self.sizes.names;
        let word = parcel::word_of(parcel);
        let old = self.swap_box_word(b, word);
        parcel::parcel_of(old)
    }
}
