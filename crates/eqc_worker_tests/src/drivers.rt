//! Workers as the tests drive them: each takes a step where it is allowed, and none where it is
//! not.
ghost use Rattle.std.specs.Prelude.{◌≡◌, false, ◌+◌, ◌*◌, ◌<◌, ◌≤◌, ◌^◌, ◌∷◌, [], ◌++◌, ℕ, length, IsTrue, ◌↔◌, IfOk};
ghost use Rattle.eqc_core.specs.Words.{times, announced_words};
ghost use Rattle.eqc_core.specs.Moves.{IsReady, IsQuiet};
ghost use Rattle.eqc_core.specs.Counting.{upped, Knows};
ghost use Rattle.eqc_guard.specs.Known.{IsHeld};
ghost use Rattle.eqc_guard.specs.Standing.{Steps};
ghost use Rattle.eqc_worker_tests.specs.Driving.{IsDriven, references_of, IsTriple};

use crate::ends::{keep, keep_all};
use eqc_cache::finding::lookup;
use eqc_cache::storing::{clear, store};
use eqc_core::Phase;
use eqc_guard::fault::SplitFault;
use eqc_guard::filled::Filled;
use eqc_guard::forest::Forest;
use eqc_guard::reference::Ref;
use eqc_guard::worker::Worker;
use eqc_tree::{Op, unpack_cell, unpack_node};
use std::process::Abort;
use std::sync::Wait;

/// So many names are held at most where a step asks for room.
pub const MOST_HELD: u64 = 1 << 30;

/// A worker, the references that it has, and how far its counted load and its scan are.
pub struct Driver {
    pub worker: Worker,
    pub references: Vec<Ref>,
    pub phase: Phase,
    pub position: u32,
    ghost driven: { IsDriven phase position references.items worker },
}

/// What a step of a scan tells.
#[derive(Drop)]
pub enum Scan {
    /// It was not allowed.
    Refused,
    /// There is another word.
    GoesOn,
    /// That was the last word, and so many names came out.
    Ends(usize),
}

/// Whether nothing is announced.
fn is_quiet(phase: Phase) -> bool
    ensures { IsTrue result ↔ IsQuiet phase }
{
    match phase {
        Phase::Idle | Phase::Seen(_, _) => true,
        Phase::Announced(_, _) | Phase::Confirmed(_) | Phase::Missed(_) => false,
    }
}

/// Counts a name up.
fn counted(rt: &impl Abort, worker: &mut Worker, x: u32) -> Ref
    requires ready { IsReady worker.old.known.core }
    requires slot { 2 ≤ x }
    requires there { x < worker.old.known.core.sizes.names }
    requires known { Knows worker.old.known.core x }
    ensures name { result.number ≡ x }
    ensures step { Steps worker.old (upped worker.old.known.core x) worker.new }
{
    match worker.up(x) {
        Ok(reference) => reference,
        Err(_) => panic!(rt; "there is no room"),
    }
}

/// Worker 0 of a forest of literals, which holds each once.
pub fn stocked(rt: &(impl Abort + AllocGlobal), workers: u32, nodes: u32, cells: u32) -> Driver
    requires workers { (1 ≤ workers) × (workers ≤ 64) }
    requires nodes { (1 ≤ nodes) × (nodes ≤ 16) }
    requires cells { (1 ≤ cells) × (cells ≤ 16) }
{
    let Ok((worker, references)) = Forest::stocked(rt.alloc(), workers, nodes, cells) else {
        panic!(rt; "there is no memory");
    };
    Driver {
        worker,
        references,
        phase: Phase::Idle,
        position: 0,
    }
}

/// The entry of the and of a name with itself, whose three references are counted up.
fn triple(rt: &impl Abort, worker: &mut Worker, x: u32) -> Filled
    requires ready { IsReady worker.old.known.core }
    requires slot { 2 ≤ x }
    requires held { IsHeld worker.old.known.core x }
    ensures { IsTriple x result worker.old worker.new }
{
    // What the worker knows is in order.
    let _cells = worker.cells();
    let f = counted(rt, worker, x);
    let g = counted(rt, worker, x);
    let r = counted(rt, worker, x);
    Filled {
        op: Op::And,
        f,
        g,
        r,
    }
}

/// Keeps references of the names that came out of a scan.
fn keep_ejected(rt: &impl Abort, worker: &Worker, references: &mut Vec<Ref>, ejected: &[u32])
    requires covered { (x : ℕ) → 2 ≤ x → references_of x references.old.items + times x ejected.now ≤ times x worker.now.known.core.held }
    requires slots { (x : ℕ) → 0 < times x ejected.now → 2 ≤ x }
    ensures { (x : ℕ) → 2 ≤ x → references_of x references.new.items ≤ times x worker.now.known.core.held }
{
    for x in ejected {
        keep(rt, references, worker.reference(*x));
    }
}

/// Worker 0 of a forest without nodes.
pub fn bare(rt: &(impl Abort + AllocGlobal), workers: u32) -> Driver
    requires { (1 ≤ workers) × (workers ≤ 64) }
{
    let Ok(worker) = Forest::new(rt.alloc(), 2, 4, 8, workers) else {
        panic!(rt; "there is no memory");
    };
    Driver {
        worker,
        references: Vec::new(rt.alloc()),
        phase: Phase::Idle,
        position: 0,
    }
}

impl Driver {
    /// Looks at a cell, and gives its word.
    pub fn look(&mut self, cell: u32) -> Option<u64>
        ensures { self.new.worker.forest ≡ self.old.worker.forest }
    {
        if self.position != 0 || !is_quiet(self.phase) || cell >= self.worker.cells() {
            return None;
        }
        let word = self.worker.look(0, cell);
        self.phase = Phase::Seen(cell, word);
        Some(word)
    }

    /// Announces the result that was seen, where it is a node, and gives it.
    #[tactic(auto, unfolding(eqc_core::specs::Words::result_of))]
    pub fn announce(&mut self) -> Option<u32>
        ensures { self.new.worker.forest ≡ self.old.worker.forest }
    {
        let Phase::Seen(cell, word) = self.phase else {
            return None;
        };
        let (_, _, _, x) = unpack_cell(word);
        if self.position != 0 || x < 2 {
            return None;
        }
        self.worker.announce(0, x);
        self.phase = Phase::Announced(cell, word);
        Some(x)
    }

    /// Withdraws what is announced.
    pub fn release(&mut self) -> bool
        ensures { self.new.worker.forest ≡ self.old.worker.forest }
    {
        if self.position != 0 || is_quiet(self.phase) {
            return false;
        }
        self.worker.release();
        self.phase = Phase::Idle;
        true
    }

    /// Looks again at the cell whose result is announced, and says whether it has the same word.
    pub fn recheck(&mut self) -> Option<bool>
        ensures { self.new.worker.forest ≡ self.old.worker.forest }
    {
        let Phase::Announced(_, word) = self.phase else {
            return None;
        };
        if self.position != 0 {
            return None;
        }
        let (_, _, _, x) = unpack_cell(word);
        if self.worker.recheck(0) {
            self.phase = Phase::Confirmed(x);
            return Some(true);
        }
        self.phase = Phase::Missed(x);
        Some(false)
    }

    /// Looks at a cell, announces its result and looks again, and gives the result that is
    /// confirmed then.
    #[tactic(auto, unfolding(eqc_core::specs::Words::result_of))]
    pub fn acquire(&mut self, cell: u32) -> Option<u32>
        ensures { self.new.worker.forest ≡ self.old.worker.forest }
    {
        if self.position != 0 || !is_quiet(self.phase) || cell >= self.worker.cells() {
            return None;
        }
        let Some(word) = self.worker.acquire(cell) else {
            // So the phase is known again.
            let word = self.worker.look(0, cell);
            self.phase = Phase::Seen(cell, word);
            return None;
        };
        let (_, _, _, x) = unpack_cell(word);
        self.phase = Phase::Confirmed(x);
        Some(x)
    }

    /// Counts the name of a reference up, and gives the name.
    pub fn up(&mut self, rt: &impl Abort, i: usize) -> Option<u32>
        ensures { self.new.worker.forest ≡ self.old.worker.forest }
    {
        if self.position != 0 || i >= self.references.len() {
            return None;
        }
        let x = self.references[i].number();
        if x < 2 {
            return None;
        }
        // What the worker knows is in order.
        let _cells = self.worker.cells();
        let reference = counted(rt, &mut self.worker, x);
        keep(rt, &mut self.references, reference);
        Some(x)
    }

    /// Counts the name up that is confirmed, and gives it.
    pub fn up_confirmed(&mut self, rt: &impl Abort) -> Option<u32>
        ensures { self.new.worker.forest ≡ self.old.worker.forest }
    {
        let Phase::Confirmed(x) = self.phase else {
            return None;
        };
        if self.position != 0 || x < 2 {
            return None;
        }
        let _cells = self.worker.cells();
        let reference = counted(rt, &mut self.worker, x);
        keep(rt, &mut self.references, reference);
        Some(x)
    }

    /// Gives a reference back, and gives its name.
    pub fn down(&mut self, i: usize) -> Option<u32>
        ensures { self.new.worker.forest ≡ self.old.worker.forest }
    {
        if self.position != 0 || i >= self.references.len() {
            return None;
        }
        let reference = self.references.swap_remove(i);
        let x = reference.number();
        self.worker.down(reference);
        Some(x)
    }

    /// Whether a cell may be swapped.
    fn may_swap(&self, cell: u32) -> bool
        ensures { IsTrue result → (self.now.position ≡ 0) × IsQuiet self.now.phase × (cell < self.now.worker.known.core.sizes.cells) × (length self.now.worker.known.core.held ≤ 2 ^ 30) }
    {
        self.position == 0
            && is_quiet(self.phase)
            && cell < self.worker.cells()
            && self.worker.held() <= MOST_HELD
    }

    /// Whether no name more may be retired.
    fn is_full(&self) -> bool
        ensures { result ≡ false → length self.now.worker.known.core.retired < 2 * announced_words self.now.worker.known.core.sizes }
    {
        self.worker.retired_names().len() >= 2 * self.worker.announcement_words() as usize
    }

    /// Stores the and of a name with itself in a cell, and gives the name.
    pub fn fill(&mut self, rt: &impl Abort, cell: u32, i: usize) -> Option<u32>
        ensures { self.new.worker.forest ≡ self.old.worker.forest }
    {
        if !self.may_swap(cell) || self.is_full() || i >= self.references.len() {
            return None;
        }
        let x = self.references[i].number();
        if x < 2 {
            return None;
        }
        let filled = triple(rt, &mut self.worker, x);
        self.phase = Phase::Idle;
        if let Some((f, g)) = self.worker.swap_cell(cell, Some(filled)) {
            keep(rt, &mut self.references, f);
            keep(rt, &mut self.references, g);
        }
        Some(x)
    }

    /// Empties a cell.
    pub fn empty(&mut self, rt: &impl Abort, cell: u32) -> bool
        ensures { self.new.worker.forest ≡ self.old.worker.forest }
    {
        if !self.may_swap(cell) || self.is_full() {
            return false;
        }
        let _cells = self.worker.cells();
        self.phase = Phase::Idle;
        if let Some((f, g)) = self.worker.swap_cell(cell, None) {
            keep(rt, &mut self.references, f);
            keep(rt, &mut self.references, g);
        }
        true
    }

    /// Reads the next announcement word of a scan, and keeps what comes out of it.
    pub fn scan_one(&mut self, rt: &impl Abort) -> Scan
        ensures { self.new.worker.forest ≡ self.old.worker.forest }
    {
        if !is_quiet(self.phase) || self.worker.held() > MOST_HELD {
            return Scan::Refused;
        }
        let _words = self.worker.announcement_words();
        let Some(ejected) = self.worker.scan_one() else {
            self.position += 1;
            return Scan::GoesOn;
        };
        self.position = 0;
        let _cells = self.worker.cells();
        keep_ejected(rt, &self.worker, &mut self.references, ejected.as_slice());
        Scan::Ends(ejected.len())
    }

    /// Splits a worker off, which holds nothing.
    pub fn split(&mut self, rt: &(impl Abort + AllocGlobal)) -> Result<Driver, SplitFault>
        ensures forest { self.new.worker.forest ≡ self.old.worker.forest }
        ensures other { IfOk result (λ d. d.worker.forest ≡ self.old.worker.forest) }
    {
        assert!(rt; self.position == 0);
        match self.worker.split() {
            Ok(worker) => Ok(Driver {
                worker,
                references: Vec::new(rt.alloc()),
                phase: Phase::Idle,
                position: 0,
            }),
            Err(fault) => Err(fault),
        }
    }

    /// Splits off a worker that is there.
    pub fn another(&mut self, rt: &(impl Abort + AllocGlobal)) -> Driver
        ensures forest { self.new.worker.forest ≡ self.old.worker.forest }
        ensures other { result.worker.forest ≡ self.old.worker.forest }
    {
        match self.split(rt) {
            Ok(other) => other,
            Err(_) => panic!(rt; "there is no number"),
        }
    }

    /// Whether nothing is announced or scanned, and there is room.
    pub fn is_at_rest(&self) -> bool
        ensures { IsTrue result → (self.now.position ≡ 0) × IsQuiet self.now.phase × (length self.now.worker.known.core.held ≤ 2 ^ 30) }
    {
        self.position == 0 && is_quiet(self.phase) && self.worker.held() <= MOST_HELD
    }

    /// Takes in another worker of the forest, which is not worker 0, with its references. Both are
    /// at rest.
    pub fn absorb(&mut self, rt: &impl Abort, other: Driver)
        requires { other.worker.forest ≡ self.old.worker.forest }
        ensures { self.new.worker.forest ≡ self.old.worker.forest }
    {
        assert!(rt; self.is_at_rest() && other.is_at_rest() && other.worker.number() > 0);
        let Driver {
            worker,
            references,
            phase: _,
            position: _,
        } = other;
        self.worker.absorb(worker);
        keep_all(rt, &mut self.references, references);
    }

    /// Stores the and of a name with itself in the cache.
    pub fn store(&mut self, i: usize) -> bool
        ensures { self.new.worker.forest ≡ self.old.worker.forest }
    {
        if !self.may_swap(0) || i >= self.references.len() {
            return false;
        }
        let x = &self.references[i];
        store(&mut self.worker, Op::And, x, x, x);
        // So the phase is known again.
        let word = self.worker.look(0, 0);
        self.phase = Phase::Seen(0, word);
        true
    }

    /// Looks the and of a name with itself up, and gives what is found.
    pub fn lookup(&mut self, rt: &impl Abort, i: usize) -> Option<u32>
        ensures { self.new.worker.forest ≡ self.old.worker.forest }
    {
        if !self.may_swap(0) || i >= self.references.len() {
            return None;
        }
        let x = &self.references[i];
        let found = lookup(&mut self.worker, Op::And, x, x);
        let word = self.worker.look(0, 0);
        self.phase = Phase::Seen(0, word);
        let reference = found?;
        let number = reference.number();
        keep(rt, &mut self.references, reference);
        Some(number)
    }

    /// Clears the cache.
    pub fn clear(&mut self) -> bool
        ensures { self.new.worker.forest ≡ self.old.worker.forest }
    {
        if !self.may_swap(0) {
            return false;
        }
        clear(&mut self.worker);
        let word = self.worker.look(0, 0);
        self.phase = Phase::Seen(0, word);
        true
    }

    /// Claims a slot, and gives it up again where it was won.
    pub fn claim_for_a_while(&mut self, slot: u32) -> Option<bool>
        ensures { self.new.worker.forest ≡ self.old.worker.forest }
    {
        if self.position != 0 || slot < 2 || slot - 2 >= self.worker.slots() {
            return None;
        }
        let won = self.worker.claim(slot);
        if won {
            self.worker.unclaim();
        }
        Some(won)
    }

    /// Locks a stripe and unlocks it with the map that came: how many entries it has, and which
    /// slot a word has there.
    pub fn visit(&mut self, rt: &impl Wait, stripe: u32, word: u64) -> Option<(usize, Option<u32>)>
        ensures { self.new.worker.forest ≡ self.old.worker.forest }
    {
        if self.position != 0 || stripe >= 16 {
            return None;
        }
        let map = self.worker.lock_stripe(rt, stripe);
        let found = (map.len(), map.get(&word).copied());
        self.worker.unlock_stripe(stripe, map);
        Some(found)
    }

    /// Reads the node of a reference: its variable and its children.
    pub fn children(&mut self, k: usize) -> Option<(u16, u32, u32)>
        ensures { self.new.worker.forest ≡ self.old.worker.forest }
    {
        if self.position != 0 || k >= self.references.len() {
            return None;
        }
        let node = &self.references[k];
        if node.number() < 2 {
            return None;
        }
        Some(unpack_node(self.worker.read_node(node)))
    }

    /// Closes the forest in vain, since another worker is out.
    pub fn is_refused(self, rt: &impl Abort) -> Driver
        ensures { result.worker.forest ≡ self.worker.forest }
    {
        let Driver {
            worker,
            references,
            phase,
            position,
        } = self;
        match worker.close() {
            Err(worker) => Driver {
                worker,
                references,
                phase,
                position,
            },
            Ok(_) => panic!(rt; "nobody else is out"),
        }
    }

    /// Comes to rest: a scan ends, and what is announced is withdrawn.
    pub fn rest(&mut self, rt: &impl Abort)
        ensures { self.new.worker.forest ≡ self.old.worker.forest }
    {
        for _ in 0..256 {
            if self.position != 0 {
                self.scan_one(rt);
            }
        }
        self.release();
    }

    /// Gives all references back and closes the forest: how many slots have a count above 0.
    pub fn close(self, rt: &impl Abort) -> u32 {
        let mut driver = self;
        for _ in 0..driver.references.len() {
            driver.down(0);
        }
        assert!(rt; driver.references.is_empty(), "a scan is under way");
        let Driver {
            worker,
            references,
            phase: _,
            position: _,
        } = driver;
        references.destroy_empty();
        let tally = worker.close().ok().expect(rt, "it is alone");
        tally.counted
    }
}
