//! A worker: a seat of the one table.
ghost use Rattle.std.specs.Prelude.{◌≡◌, ◌+◌, ◌<◌};
ghost use Rattle.std.specs.Arc.{arc_value};
ghost use Rattle.eqc_guard.specs.Standing.{Standing, standing_coded, IsSeated};

mod boxes;
mod nodes;
mod search;
mod stripes;

use crate::fault::SplitFault;
use crate::filled::{self, Filled};
use crate::origin::Origin;
use crate::reference::Ref;
use crate::rule::{
    Alone, Announce, Down, JoinUp, Load, Look, Recheck, Rule, ScanOne, Settle, SplitOff, Stripe,
    SwapCell, Up,
};
use crate::stock::ASIDE;
use crate::tally::Tally;
use crate::view::View;
use crate::{names, phases};
use arrayvec::ArrayVec;
use atomic_table::{Seat, Table};
use eqc_core::{Phase, Sizes};
use eqc_tree::{Stop, unpack_cell};
use std::alloc::Global;
use std::marker::Model;
use std::sync::Arc;

/// A worker of a forest.
#[derive(Drop)]
pub struct Worker {
    table: Arc<Table<Stripe, View, Origin, Rule, Global>>,
    seat: Seat<Stripe, View>,
    sizes: Sizes,
    number: u32,
    // How many names are held.
    held: u64,
    // One phase for each announcement word.
    phases: ArrayVec<Phase, 4>,
    retired: ArrayVec<u32, 512>,
    noted: ArrayVec<u64, 256>,
    // The announcement word that the scan reads next.
    position: u32,
    // How many numbers were given, at worker 0.
    given: u32,
    // The numbers that are out, at worker 0, and those taken in, at any other.
    out: ArrayVec<u64, 64>,
    // A slot that was claimed and has no node yet.
    draft: Option<u32>,
    // The slot at which the next search for a free one begins.
    rover: u32,
    // How many nodes the stripe had that was put back last.
    nodes_seen: usize,
    // What an empty map is made with. It takes no memory.
    alloc: Global,
}

impl Model for Worker {
    ghost Value = { Standing };

    ghost coded = { standing_coded };

    ghost view = { λ w. record { forest = w.seat.table_id; known = w.seat.me.0 } };

    ghost invariant = { λ w. IsSeated w.seat.table_id (arc_value w.table).shared.table_id (arc_value w.table).shared.key.sizes w.sizes w.seat.me w.number w.held w.phases.items w.retired.items w.noted.items w.position w.given w.out.items w.draft };
}

impl Worker {
    ghost use Rattle.eqc_tree.specs.Tree.{SameFunction};
    ghost use Rattle.std.specs.Prelude.{[], suc, false, if◌then◌else◌, List, Some, ◌-◌, ◌*◌, ◌%◌, ◌^◌, ◌≤◌, ◌↔◌, ◌++◌, length, ℕ, IsTrue, IfSome, None, IfOk, OnOk, OnErr, IfErr};
    ghost use Rattle.eqc_core.specs.View.{idle, phase_at};
    ghost use Rattle.eqc_core.specs.Words.{announced_words, word_at, first_of, second_of, result_of};
    ghost use Rattle.eqc_core.specs.Moves.{IsReady};
    ghost use Rattle.eqc_core.specs.Announcing.{MayLook, looked, MayAnnounce, announced, MayRecheck, rechecked, announced_cell};
    ghost use Rattle.eqc_core.specs.Counting.{Knows, MayUp, upped, downed};
    ghost use Rattle.eqc_core.specs.Caching.{swapped};
    ghost use Rattle.eqc_core.specs.Scanning.{MayScan, scanned};
    ghost use Rattle.eqc_guard.specs.Known.{IsHeld, IsKnown, tree_of};
    ghost use Rattle.eqc_guard.specs.Rule.{counts_from, cells_from};
    ghost use Rattle.eqc_guard.specs.Standing.{Steps};
    ghost use Rattle.eqc_guard.specs.Seats.{MayTake};
    ghost use Rattle.eqc_core.specs.Seating.{IsAtRest};
    ghost use Rattle.eqc_guard.specs.Splitting.{IsJoined, IsAbsorbed, HasNumber, WhyNot, IsSplit, IsCopied, IsAlone, outstanding};
    ghost use Rattle.eqc_guard.specs.Closing.{above_zero, IsTallied};
    ghost use Rattle.eqc_guard.specs.Copying.{cell_in, KeepsCells};
    ghost use Rattle.eqc_guard.specs.Acquiring.{IsAt, IsAcquired, IsPassed};
    ghost use Rattle.eqc_guard.specs.Snapshots.{IsFree};
    ghost use Rattle.eqc_guard.specs.Filling.{MaySwap, word_of};
    ghost use Rattle.eqc_guard.specs.Sweeping.{IsSilent, IsSwept, IsScanned};
    ghost use Rattle.eqc_guard.specs.Telling.{Copies, copied, HasFound, Looks, Rechecks, MayFill};
    ghost use Rattle.eqc_guard.specs.Making.{Ups};

    // A worker at rest that holds so many names, on a seat of the table.
    pub(crate) fn seated(
        alloc: Global,
        table: Arc<Table<Stripe, View, Origin, Rule, Global>>,
        seat: Seat<Stripe, View>,
        sizes: Sizes,
        number: u32,
        held: u64,
        given: u32,
    ) -> Worker
        requires { IsSeated seat.table_id (arc_value table).shared.table_id (arc_value table).shared.key.sizes sizes seat.me number held (idle sizes.announcements) [] [] 0 given [] None }
        ensures forest { result.forest ≡ seat.table_id }
        ensures known { result.known ≡ seat.me.0 }
    {
        Worker {
            table,
            seat,
            sizes,
            number,
            held,
            phases: phases::idle_phases(sizes.announcements),
            retired: ArrayVec::new(),
            noted: ArrayVec::new(),
            position: 0,
            given,
            out: ArrayVec::new(),
            draft: None,
            rover: search::own_slot(&sizes, number, 0),
            nodes_seen: 0,
            alloc,
        }
    }

    // How many words stand before the counts.
    pub(crate) fn before_counts(&self) -> u32
        ensures { result ≡ counts_from self.now.known.core.sizes }
    {
        let sizes = self.sizes;
        ASIDE * (sizes.workers * sizes.announcements)
    }

    // The word of a cell.
    fn cell_word(&self, cell: u32) -> usize
        requires { cell < self.now.known.core.sizes.cells }
        ensures { result ≡ cells_from self.now.known.core.sizes + cell }
    {
        let names = self.sizes.names as usize;
        self.before_counts() as usize + (names + names) + cell as usize
    }

    // The word of a count.
    fn count_word(&self, name: u32) -> usize
        requires { name < self.now.known.core.sizes.names }
        ensures { result ≡ counts_from self.now.known.core.sizes + name }
    {
        self.before_counts() as usize + name as usize
    }

    // The worker's k-th announcement word.
    #[tactic(auto, unfolding(eqc_core::specs::Words::word_at))]
    fn announcement_word(&self, k: u32) -> usize
        ensures { result ≡ 2 * word_at self.now.known.core.sizes self.now.known.core.number k }
    {
        let place = self.number as usize * self.sizes.announcements as usize + k as usize;
        ASIDE as usize * place
    }

    // Loads a cell's word for the K-th announcement word.
    fn look_by<const K: usize>(&mut self, cell: u32) -> u64
        requires { MayLook self.old.known.core K cell }
        ensures step { Steps self.old (looked self.old.known.core K cell result) self.new }
        ensures tells { Looks self.old.known result self.new.known }
        ensures copies { Copies self.old.known (cells_from self.old.known.core.sizes + cell) result result self.new.known }
        ensures counted { self.new.known.counted ≡ self.old.known.counted }
    {
        let word = self.cell_word(cell);
        let found = self.table.shared.load::<Look<K>>(&mut self.seat, word);
        phases::set_phase(&mut self.phases, K, Phase::Seen(cell, found));
        found
    }

    /// Loads a cell's word for the k-th announcement word of the worker, counted from 0.
    pub fn look(&mut self, k: u32, cell: u32) -> u64
        requires { MayLook self.old.known.core k cell }
        ensures step { Steps self.old (looked self.old.known.core k cell result) self.new }
        ensures tells { Looks self.old.known result self.new.known }
        ensures copies { Copies self.old.known (cells_from self.old.known.core.sizes + cell) result result self.new.known }
        ensures counted { self.new.known.counted ≡ self.old.known.counted }
    {
        // Each worker has four announcement words at most.
        let _words = self.sizes.announcements;
        match k {
            0 => self.look_by::<0>(cell),
            1 => self.look_by::<1>(cell),
            2 => self.look_by::<2>(cell),
            _ => self.look_by::<3>(cell),
        }
    }

    /// Loads a cell's word, and leaves all else as it is: nothing of the word may be announced.
    pub fn load_cell(&mut self, cell: u32) -> u64
        requires { cell < self.old.known.core.sizes.cells }
        ensures step { Steps self.old self.old.known.core self.new }
        ensures copies { Copies self.old.known (cells_from self.old.known.core.sizes + cell) result result self.new.known }
        ensures counted { self.new.known.counted ≡ self.old.known.counted }
    {
        let at = self.cell_word(cell);
        self.table.shared.load::<Load>(&mut self.seat, at)
    }

    /// Announces, by the k-th announcement word of the worker, the result of the word that was seen
    /// for it, or, with 0, withdraws it.
    pub fn announce(&mut self, k: u32, x: u32)
        requires { MayAnnounce self.old.known.core k x }
        ensures step { Steps self.old (announced self.old.known.core k) self.new }
        ensures copies { self.new.known.copy ≡ copied self.old.known.copy (2 * word_at self.old.known.core.sizes self.old.known.core.number k) x }
        ensures cells { KeepsCells self.old.known self.new.known }
        ensures counted { self.new.known.counted ≡ self.old.known.counted }
    {
        let phase = phases::phase_of(&self.phases, k as usize);
        let word = self.announcement_word(k);
        self.table
            .shared
            .store::<Announce>(&mut self.seat, word, u64::from(x));
        phases::set_phase(&mut self.phases, k as usize, phase.announced());
    }

    // Counts a name up that is known to stay, where fewer than 2^32 - 1 names are held.
    fn count_up(&mut self, x: u32)
        requires { MayUp self.old.known.core x }
        ensures step { Steps self.old (upped self.old.known.core x) self.new }
        ensures tells { Ups self.old.known x self.new.known }
        ensures copies { (n : ℕ) × Copies self.old.known (counts_from self.old.known.core.sizes + x) n ((n + 1) % 2 ^ 64) self.new.known }
        ensures counted { self.new.known.counted ≡ suc self.old.known.counted }
    {
        let word = self.count_word(x);
        self.table.shared.fetch_add::<Up>(&mut self.seat, word, 1);
        self.held += 1;
    }

    /// Counts a name up that is known to stay. The error is `References` alone, at 2^32 - 1 names
    /// held.
    pub fn up(&mut self, x: u32) -> Result<Ref, Stop>
        requires ready { IsReady self.old.known.core }
        requires slot { 2 ≤ x }
        requires there { x < self.old.known.core.sizes.names }
        requires known { Knows self.old.known.core x }
        ensures name { IfOk result (λ r. r.number ≡ x) }
        ensures step { OnOk result (Steps self.old (upped self.old.known.core x) self.new) }
        ensures tells { OnOk result (Ups self.old.known x self.new.known) }
        ensures copies { OnOk result ((n : ℕ) × Copies self.old.known (counts_from self.old.known.core.sizes + x) n ((n + 1) % 2 ^ 64) self.new.known) }
        ensures room { OnOk result (length self.old.known.core.held < 2 ^ 32 - 1) }
        ensures still { OnErr result (self.new ≡ self.old) }
        ensures full { OnErr result (2 ^ 32 - 1 ≤ length self.old.known.core.held) }
        ensures only { IfErr result (λ s. s ≡ Stop.References) }
        ensures counted { OnOk result (self.new.known.counted ≡ suc self.old.known.counted) }
    {
        if self.held() >= u64::from(u32::MAX) {
            return Err(Stop::References);
        }
        self.count_up(x);
        Ok(Ref { number: x })
    }

    // Counts a held name down, and gives the count that it had.
    fn count_down(&mut self, x: u32) -> u64
        requires ready { IsReady self.old.known.core }
        requires slot { 2 ≤ x }
        requires held { IsHeld self.old.known.core x }
        ensures step { Steps self.old (downed self.old.known.core x) self.new }
        ensures copies { Copies self.old.known (counts_from self.old.known.core.sizes + x) result ((result + (2 ^ 64 - 1)) % 2 ^ 64) self.new.known }
        ensures counted { self.new.known.counted ≡ suc self.old.known.counted }
    {
        let word = self.count_word(x);
        let found = self.table.shared.fetch_sub::<Down>(&mut self.seat, word, 1);
        self.held -= 1;
        found
    }

    /// Gives a held name back. A constant takes no step.
    pub fn down(&mut self, name: Ref)
        requires ready { IsReady self.old.known.core }
        requires held { IsHeld self.old.known.core name.number }
        ensures constant { name.number < 2 → self.new ≡ self.old }
        ensures step { 2 ≤ name.number → Steps self.old (downed self.old.known.core name.number) self.new }
        ensures copies { 2 ≤ name.number → (n : ℕ) × Copies self.old.known (counts_from self.old.known.core.sizes + name.number) n ((n + (2 ^ 64 - 1)) % 2 ^ 64) self.new.known }
        ensures counted { 2 ≤ name.number → self.new.known.counted ≡ suc self.old.known.counted }
    {
        let Ref { number } = name;
        if number >= 2 {
            self.count_down(number);
        }
    }

    /// Gives a held name back that is a slot's, and tells the count that it had. Where that was 2,
    /// one owner is left.
    pub fn down_from(&mut self, name: Ref) -> u64
        requires ready { IsReady self.old.known.core }
        requires slot { 2 ≤ name.number }
        requires held { IsHeld self.old.known.core name.number }
        ensures step { Steps self.old (downed self.old.known.core name.number) self.new }
        ensures copies { Copies self.old.known (counts_from self.old.known.core.sizes + name.number) result ((result + (2 ^ 64 - 1)) % 2 ^ 64) self.new.known }
        ensures counted { self.new.known.counted ≡ suc self.old.known.counted }
    {
        let Ref { number } = name;
        self.count_down(number)
    }

    /// Loads the cell again whose result the k-th announcement word of the worker has, and says
    /// whether it has the same word.
    pub fn recheck(&mut self, k: u32) -> bool
        requires { MayRecheck self.old.known.core k }
        ensures { (found : ℕ) × Steps self.old (rechecked self.old.known.core k found) self.new × Rechecks self.old.known k found self.new.known × (IsTrue result ↔ HasFound (phase_at self.old.known.core k) found) × Copies self.old.known (cells_from self.old.known.core.sizes + announced_cell (phase_at self.old.known.core k)) found found self.new.known × (self.new.known.counted ≡ self.old.known.counted) }
    {
        let phase = phases::phase_of(&self.phases, k as usize);
        let Phase::Announced(cell, seen) = phase else {
            return false;
        };
        let found = self.look_again(k, cell);
        found == seen
    }

    // Loads the cell again whose result the k-th announcement word has.
    fn look_again(&mut self, k: u32, cell: u32) -> u64
        requires may { MayRecheck self.old.known.core k }
        requires cell { cell ≡ announced_cell (phase_at self.old.known.core k) }
        requires there { cell < self.old.known.core.sizes.cells }
        ensures step { Steps self.old (rechecked self.old.known.core k result) self.new }
        ensures tells { Rechecks self.old.known k result self.new.known }
        ensures copies { Copies self.old.known (cells_from self.old.known.core.sizes + cell) result result self.new.known }
        ensures counted { self.new.known.counted ≡ self.old.known.counted }
    {
        // Each worker has four announcement words at most.
        let _words = self.sizes.announcements;
        match k {
            0 => self.look_again_by::<0>(cell),
            1 => self.look_again_by::<1>(cell),
            2 => self.look_again_by::<2>(cell),
            _ => self.look_again_by::<3>(cell),
        }
    }

    // The same, for the K-th announcement word.
    fn look_again_by<const K: usize>(&mut self, cell: u32) -> u64
        requires may { MayRecheck self.old.known.core K }
        requires cell { cell ≡ announced_cell (phase_at self.old.known.core K) }
        requires there { cell < self.old.known.core.sizes.cells }
        ensures step { Steps self.old (rechecked self.old.known.core K result) self.new }
        ensures tells { Rechecks self.old.known K result self.new.known }
        ensures copies { Copies self.old.known (cells_from self.old.known.core.sizes + cell) result result self.new.known }
        ensures counted { self.new.known.counted ≡ self.old.known.counted }
    {
        let phase = phases::phase_of(&self.phases, K);
        let word = self.cell_word(cell);
        let found = self.table.shared.load::<Recheck<K>>(&mut self.seat, word);
        phases::set_phase(&mut self.phases, K, phase.rechecked(found));
        found
    }

    // Swaps a cell for a word, or for 0, and gives the word that it had.
    fn swap_word(&mut self, cell: u32, word: u64) -> u64
        requires { MayFill self.old.known cell word }
        ensures step { Steps self.old (swapped self.old.known.core result word) self.new }
        ensures copies { Copies self.old.known (cells_from self.old.known.core.sizes + cell) result word self.new.known }
        ensures counted { self.new.known.counted ≡ self.old.known.counted }
    {
        let place = self.cell_word(cell);
        let old = self
            .table
            .shared
            .swap::<SwapCell>(&mut self.seat, place, word);
        self.held = names::held_after(self.held, word, old);
        names::retire(&mut self.retired, old);
        phases::set_phase(&mut self.phases, 0, Phase::Idle);
        old
    }

    /// Swaps a cell for an entry, whose references the cell then has, or empties it.
    ///
    /// The references of the operands that the cell had come back. The result that it had is
    /// retired: a later scan makes it held.
    pub fn swap_cell(&mut self, cell: u32, filled: Option<Filled>) -> Option<(Ref, Ref)>
        requires { MaySwap self.old.known cell filled }
        ensures { (found : ℕ) × Steps self.old (swapped self.old.known.core found (word_of filled)) self.new × ((result ≡ None) ↔ (found ≡ 0)) × IfSome result (λ p. (p.0.number ≡ first_of found) × (p.1.number ≡ second_of found)) × Copies self.old.known (cells_from self.old.known.core.sizes + cell) found (word_of filled) self.new.known × (self.new.known.counted ≡ self.old.known.counted) }
    {
        // There are so few names that those of the entry fit its word.
        let _names = self.sizes.names;
        let word = filled::entry_word(filled);
        let old = self.swap_word(cell, word);
        filled::operands(old)
    }

    /// Loads the next announcement word of a scan. After the last one, the names that were retired
    /// and are not kept any longer are held, and given.
    pub fn scan_one(&mut self) -> Option<ArrayVec<u32, 512>>
        requires may { MayScan self.old.known.core }
        requires room { length self.old.known.core.held ≤ 2 ^ 39 }
        ensures step { (name : ℕ) × Steps self.old (scanned self.old.known.core name) self.new × Copies self.old.known (2 * self.old.known.core.position) name name self.new.known }
        ensures some { IfSome result (λ ejected. self.new.known.core.held ≡ self.old.known.core.held ++ ejected.items) }
        ensures none { result ≡ None → self.new.known.core.held ≡ self.old.known.core.held }
        ensures goes_on { (result ≡ None) ↔ (self.old.known.core.position + 1 < announced_words self.old.known.core.sizes) }
        ensures counted { self.new.known.counted ≡ self.old.known.counted }
    {
        let words = self.announcement_words();
        let place = (ASIDE * self.position) as usize;
        let name = self.table.shared.load::<ScanOne>(&mut self.seat, place);
        names::add_note(&mut self.noted, name);
        if self.position + 1 < words {
            self.position += 1;
            return None;
        }
        let ejected = names::sort_out(&mut self.noted, &mut self.retired);
        self.noted = ArrayVec::new();
        self.held += ejected.len() as u64;
        self.position = 0;
        Some(ejected)
    }

    // Whether this is worker 0 and there is a number that was never given.
    fn has_number(&self) -> bool
        ensures { IsTrue result ↔ HasNumber self.now.known.core }
    {
        self.number == 0 && self.given < self.workers()
    }

    // Splits the next number off.
    fn split_next(&mut self, table: Arc<Table<Stripe, View, Origin, Rule, Global>>) -> Worker
        requires ready { IsReady self.old.known.core }
        requires number { HasNumber self.old.known.core }
        requires table { (arc_value table).shared.table_id ≡ self.old.forest }
        requires key { (arc_value table).shared.key.sizes ≡ self.old.known.core.sizes }
        ensures { IsSplit self.old self.new result }
    {
        let number = self.given;
        let seat = self.table.shared.split_seat::<SplitOff>(&mut self.seat);
        self.given += 1;
        self.out.push(u64::from(number));
        Worker::seated(self.alloc, table, seat, self.sizes, number, 0, 0)
    }

    /// Splits off a worker of the same forest, which holds nothing: it has the next number.
    ///
    /// No scan is under way. The error is `NoneLeft` where all numbers were given, or this is not
    /// worker 0, and `Memory` where there is none.
    pub fn split(&mut self) -> Result<Worker, SplitFault>
        requires { IsReady self.old.known.core }
        ensures split { IfOk result (λ other. IsSplit self.old self.new other) }
        ensures still { OnErr result (self.new ≡ self.old) }
        ensures fault { IfErr result (λ fault. WhyNot self.old.known.core fault) }
    {
        if !self.has_number() {
            return Err(SplitFault::NoneLeft);
        }
        match Arc::try_clone(&self.table) {
            Ok(table) => Ok(self.split_next(table)),
            Err(_) => Err(SplitFault::Memory),
        }
    }

    // Takes another worker of the forest in, where it is at rest.
    fn take_in(&mut self, other: Worker)
        requires may { MayTake self.old.known.core other.known.core }
        requires forest { other.forest ≡ self.old.forest }
        requires room { length self.old.known.core.held + length other.known.core.held ≤ 2 ^ 39 }
        ensures { IsJoined self.old other self.new }
    {
        let Worker {
            table,
            seat,
            sizes: _,
            number,
            held,
            phases: _,
            retired,
            noted: _,
            position: _,
            given: _,
            out,
            draft: _,
            rover: _,
            nodes_seen: _,
            alloc: _,
        } = other;
        self.table.shared.join_seat::<JoinUp>(&mut self.seat, seat);
        self.table.shared.load::<Settle>(&mut self.seat, 0);
        self.held += held;
        names::append(&mut self.retired, retired.as_slice());
        names::take_numbers(
            &mut self.out,
            self.number,
            u64::from(number),
            out.as_slice(),
        );
        drop(table);
    }

    /// Takes another worker of the forest in, after both have scanned: what it held is held here
    /// then, and its number is out no more.
    ///
    /// The other one is not worker 0, both are at rest (nothing is announced, scanned, claimed or
    /// in hand), and together they hold at most 2^39 names.
    pub fn absorb(&mut self, other: Worker)
        requires rest { IsAtRest self.old.known.core }
        requires other_rest { IsAtRest other.known.core }
        requires other_number { 0 < other.known.core.number }
        requires forest { other.forest ≡ self.old.forest }
        requires room { length self.old.known.core.held + length other.known.core.held ≤ 2 ^ 39 }
        ensures { IsAbsorbed self.old other self.new }
    {
        // What is known of the view is known of the worker.
        let _number = self.number;
        let _other_number = other.number;
        let mut other = other;
        self.scan();
        other.scan();
        self.take_in(other);
    }

    /// How many workers were split off by this one and have not come back to it, by themselves or
    /// within another.
    pub fn outstanding(&self) -> u32
        ensures { result ≡ outstanding self.now.known.core }
    {
        if self.number == 0 {
            self.out.len() as u32
        } else {
            0
        }
    }

    /// Whether this is worker 0 and no worker is outstanding. Then it has a copy of all words.
    pub fn alone(&mut self) -> bool
        ensures answer { IsTrue result ↔ IsAlone self.old.known.core }
        ensures copy { IsTrue result → IsCopied self.old self.new }
        ensures still { result ≡ false → self.new ≡ self.old }
    {
        if self.number != 0 || self.out.len() != 0 {
            return false;
        }
        self.copy_words();
        true
    }

    // Takes a copy of all words, where nobody else is active.
    fn copy_words(&mut self)
        requires first { self.old.known.core.number ≡ 0 }
        requires none { self.old.known.core.out ≡ [] }
        ensures { IsCopied self.old self.new }
    {
        self.table.shared.load::<Alone>(&mut self.seat, 0);
    }

    // Loads a count word.
    pub(crate) fn load_count(&mut self, name: u32) -> u64
        requires { name < self.old.known.core.sizes.names }
        ensures step { Steps self.old self.old.known.core self.new }
        ensures copies { Copies self.old.known (counts_from self.old.known.core.sizes + name) result result self.new.known }
        ensures counted { self.new.known.counted ≡ self.old.known.counted }
    {
        let word = self.count_word(name);
        self.table.shared.load::<Load>(&mut self.seat, word)
    }

    // How many slots have a count above 0, as a copy of the words has them.
    fn tally(&mut self) -> u32
        ensures { (ws : List ℕ) → self.old.known.copy ≡ Some ws → result ≡ above_zero ws (counts_from self.old.known.core.sizes + 2) (self.old.known.core.sizes.names - 2) }
    {
        let slots = self.sizes.names - 2;
        let mut counted = 0;
        for k in 0..slots {
            if self.load_count(k + 2) > 0 {
                counted += 1;
            }
        }
        counted
    }

    /// An announcement word of the worker, which is not the first, that announces nothing: a
    /// snapshot may be taken by it. There is none where each of them announces a name.
    pub fn free_word(&self) -> Option<u32>
        ensures some { IfSome result (λ k. IsFree self.now.known.core k) }
        ensures none { result ≡ None → (k : ℕ) → IsFree self.now.known.core k → ⊥ }
    {
        phases::free_word(&self.phases, self.sizes.announcements)
    }

    // Whether none of its announcement words but the first announces a name.
    fn is_silent(&self) -> bool
        ensures { IsTrue result ↔ IsSilent self.now.known.core }
    {
        phases::are_silent(&self.phases)
    }

    /// Closes the forest, and tells how many slots have a count above 0. Each is loaded once.
    ///
    /// The error is the worker itself, as it was, where it is not alone, or one of its announcement
    /// words but the first announces a name.
    pub fn close(self) -> Result<Tally, Worker>
        ensures closed { IfOk result (λ tally. IsAlone self.known.core × IsSilent self.known.core × IsTallied tally.counted self.known) }
        ensures kept { IfErr result (λ worker. (worker ≡ self) × (IsAlone self.known.core → IsSilent self.known.core → ⊥)) }
    {
        let mut worker = self;
        if !worker.is_silent() {
            return Err(worker);
        }
        if !worker.alone() {
            return Err(worker);
        }
        let counted = worker.tally();
        Ok(Tally { counted })
    }

    /// Looks at a cell, announces its result and looks again. The answer is the word that was found
    /// twice: its result stays until it is released.
    ///
    /// There is none where the word has no node as its result, or the second look finds another
    /// word. Then the first announcement word, which it goes by, announces nothing. A worker that
    /// is alone acquires the word that its cell has, where that has a node as its result.
    pub fn acquire(&mut self, cell: u32) -> Option<u64>
        requires { MayLook self.old.known.core 0 cell }
        ensures some { IfSome result (λ word. IsAcquired 0 word self.old self.new) }
        ensures none { result ≡ None → IsPassed 0 self.old self.new }
        ensures found { (ws : List ℕ) → self.old.known.copy ≡ Some ws → IfSome result (λ word. word ≡ cell_in self.old.known ws cell) }
        ensures missed { result ≡ None → (ws : List ℕ) → self.old.known.copy ≡ Some ws → result_of (cell_in self.old.known ws cell) < 2 }
        ensures counted { self.new.known.counted ≡ self.old.known.counted }
    {
        // What is known of the view is known of the worker.
        let _number = self.number;
        let word = self.look(0, cell);
        let (_, _, _, found) = unpack_cell(word);
        if found < 2 {
            return None;
        }
        if self.confirm(0, found) {
            Some(word)
        } else {
            None
        }
    }

    /// Announces, by the k-th announcement word of the worker, the result of the word that was seen
    /// for it, a node, and looks again: the second half of `acquire`. Where the second look finds
    /// another word, nothing is announced by it. A worker that is alone finds the word that its
    /// cell has.
    pub fn confirm(&mut self, k: u32, found: u32) -> bool
        requires may { MayAnnounce self.old.known.core k found }
        requires slot { 2 ≤ found }
        ensures yes { IsTrue result → (c word : ℕ) → phase_at self.old.known.core k ≡ Phase.Seen c word → IsAcquired k word self.old self.new }
        ensures no { result ≡ false → IsAt k Phase.Idle self.old self.new }
        ensures cells { KeepsCells self.old.known self.new.known }
        ensures alone { (ws : List ℕ) → self.old.known.copy ≡ Some ws → (c word : ℕ) → phase_at self.old.known.core k ≡ Phase.Seen c word → cell_in self.old.known ws c ≡ word → IsTrue result }
        ensures counted { self.new.known.counted ≡ self.old.known.counted }
    {
        // What is known of the view is known of the worker.
        let _number = self.number;
        self.announce(k, found);
        if self.recheck(k) {
            return true;
        }
        self.announce(k, 0);
        false
    }

    /// Withdraws what the first announcement word announces.
    pub fn release(&mut self)
        requires { MayAnnounce self.old.known.core 0 0 }
        ensures step { Steps self.old (announced self.old.known.core 0) self.new }
        ensures copies { self.new.known.copy ≡ copied self.old.known.copy (2 * word_at self.old.known.core.sizes self.old.known.core.number 0) 0 }
        ensures cells { KeepsCells self.old.known self.new.known }
        ensures counted { self.new.known.counted ≡ self.old.known.counted }
    {
        // What is known of the view is known of the worker.
        let _number = self.number;
        self.announce(0, 0);
    }

    /// The retired names, with repeats.
    pub fn retired_names(&self) -> &[u32]
        ensures names { result.now ≡ self.now.known.core.retired }
        ensures few { length result.now ≤ 2 * announced_words self.now.known.core.sizes }
    {
        self.retired.as_slice()
    }

    /// The reference of a constant, which is not counted.
    pub fn constant(&self, value: bool) -> Ref
        ensures { result.number ≡ (if value then 1 else 0) }
    {
        Ref {
            number: u32::from(value),
        }
    }

    /// The reference of a name that is held.
    pub fn reference(&self, x: u32) -> Ref
        requires { IsHeld self.now.known.core x }
        ensures { result.number ≡ x }
    {
        Ref { number: x }
    }

    /// Whether two references have one function.
    pub fn same(&self, f: &Ref, g: &Ref) -> bool
        requires first { IsHeld self.now.known.core f.now.number }
        requires second { IsHeld self.now.known.core g.now.number }
        ensures { IsTrue result ↔ SameFunction (tree_of self.now.known f.now.number) (tree_of self.now.known g.now.number) }
    {
        // Among the names of this forest two with one function are one.
        let _forest = self.number;
        f.number == g.number
    }

    // Reads all announcement words, from the first on, and gives the names that are not kept any
    // longer, which are held.
    fn sweep(&mut self) -> ArrayVec<u32, 512>
        requires ready { IsReady self.old.known.core }
        requires may { MayScan self.old.known.core }
        requires room { length self.old.known.core.held ≤ 2 ^ 39 }
        ensures { IsSwept result.items self.old self.new }
    {
        // What is known of the view is known of the place of its scan.
        let _position = self.position;
        loop {
            if let Some(ejected) = self.scan_one() {
                return ejected;
            }
        }
    }

    /// Scans all announcement words, and gives back each name that was retired and is not kept any
    /// longer. At most as many names are retired then as there are announcement words, and none at
    /// a worker that is alone, has a copy of the words, and announces nothing.
    ///
    /// No scan is under way, the first announcement word announces nothing, and at most 2^39 names
    /// are held. What the other announcement words announce stays.
    pub fn scan(&mut self)
        requires ready { IsReady self.old.known.core }
        requires may { MayScan self.old.known.core }
        requires room { length self.old.known.core.held ≤ 2 ^ 39 }
        ensures { IsScanned self.old self.new }
    {
        // What is known of the view is known of the names held.
        let _held = self.held;
        let gone = self.sweep();
        for x in gone.as_slice() {
            self.count_down(*x);
        }
    }

    /// How many names are held, the constants not counted.
    pub fn held(&self) -> u64
        ensures { result ≡ length self.now.known.core.held }
    {
        self.held
    }

    /// What the worker knows is in order: from here on a proof can cite it.
    pub fn recall_laws(&self)
        ensures { IsKnown self.now.known }
    {
        let _cells = self.cells();
    }

    /// How many cells the operation cache has. What the worker knows is in order.
    pub fn cells(&self) -> u32
        ensures cells { result ≡ self.now.known.core.sizes.cells }
        ensures known { IsKnown self.now.known }
    {
        self.sizes.cells
    }

    /// How many announcement words the workers of the forest have together: a scan reads so many.
    pub fn announcement_words(&self) -> u32
        ensures { result ≡ announced_words self.now.known.core.sizes }
    {
        let sizes = self.sizes;
        sizes.workers * sizes.announcements
    }

    /// How many workers the forest can have at a time: those that are there, and those that could
    /// still be split off.
    pub fn workers(&self) -> u32
        ensures { result ≡ self.now.known.core.sizes.workers }
    {
        self.sizes.workers
    }

    /// The worker's number, counted from 0.
    pub fn number(&self) -> u32
        ensures { result ≡ self.now.known.core.number }
    {
        self.number
    }
}
