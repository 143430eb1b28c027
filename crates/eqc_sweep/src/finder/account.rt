//! What a sweep may spend, and has spent.
ghost use Rattle.std.specs.Prelude.{◌<◌};

use crate::effort::{Effort, Tally};
use crate::finder::hard::Hard;
use eqc_cdcl::{Answer, Budget, Decides};

/// Conflicts that there are at the start, in questions that take all that they may, and what each
/// question adds.
const AT_START: u64 = 64;

const EACH: u64 = 100;

/// A question may take this part of the conflicts that are left, within bounds.
const PART: u64 = 8;

const FEWEST: u64 = 100;

/// Literals that may be visited for each conflict, and conflicts' worth of them that there are
/// without one.
const VISITS: u64 = 1_000;

const WITHOUT: u64 = 100;

/// How many times as many gates a window has each time that it is made larger. Most nodes are told
/// equal or unequal by what lies near them.
const GROWTH: u32 = 8;

const GROWTH_FOR_OUTPUTS: u32 = 4;

/// So many visits count as a conflict, where there were fewer conflicts.
const WORTH: u64 = 1_000;

/// Work counts once more for each so many nodes of the graph: it takes longer where these are far
/// apart in memory.
const LARGE: u32 = 200_000;

/// How much of that may be in vain, in tenths: simulations, and questions after which no node was
/// found equal. A netlist of which no two nodes are equal costs no more, whatever its size.
const IN_VAIN: u64 = 7;

/// A question may do so much work for each conflict that it may have, or so many times that of the
/// hardest one so far after which a node was found equal, if that is more. Most nodes that are
/// equal are found with a hundredth of that, and a question about others may take all that there
/// is.
const FIRST: u64 = 5_000;

const HARDER: u64 = 8;

/// No more is kept for a question than so many times what the last ones took, so many of which
/// count: few take nearly all that they may.
const MORE: u64 = 4;

const LAST: u64 = 16;

/// A thread is started for each so much work, which takes it a tenth of a millisecond.
const THREAD: u64 = 2_000;

/// So many questions about nodes of which something is doubted are remembered.
const LATELY: u32 = 64;

/// Doubt beyond that is as this.
pub(crate) const MOST_DOUBT: u8 = 10;

/// The work of a question that visits nothing, and of a simulated word: the signature is another
/// one then, and is entered anew.
const QUESTION: u64 = 200;

const WORD: u64 = 4;

/// How many rows of counterexamples are simulated with one of them each, and how many in all.
const ALONE: u32 = 64;

const ROWS: u32 = 256;

/// What was spent of conflicts, of work, and of rows.
#[derive(Clone, Copy, Debug)]
pub(crate) struct Account {
    effort: Effort,
    conflicts: u64,
    spent: u64,
    /// The most work of a question after which a node was found equal.
    hardest: u64,
    /// The work of a question, as that of the last ones was.
    usual: u64,
    /// What was spent in vain.
    vain: u64,
    rows: u32,
    /// Nodes that were found equal, and questions that were given up.
    found: u64,
    open: u64,
    is_cut: bool,
    /// Of late, questions about nodes of which something is doubted: those by which a node was
    /// found equal, and those given up.
    doubted_found: u32,
    doubted_open: u32,
    /// Whether questions about such nodes may have as much as others.
    is_patient: bool,
    hard: Hard,
}

/// What a question about outputs may spend that may have so many conflicts, and so much work.
pub(crate) fn budget_of(conflicts: u64, work: u64) -> Budget {
    Budget {
        conflicts,
        visits: conflicts.saturating_add(WITHOUT).saturating_mul(VISITS),
        work,
        growth: GROWTH_FOR_OUTPUTS,
        ordered_from: u64::MAX,
        decides: Decides::NeededAndMet,
    }
}

/// A part of what a question may have, the smaller the more is doubted of what lies below it.
fn doubted(all: u64, doubt: u8) -> u64 {
    all >> u32::from(doubt.min(MOST_DOUBT))
}

/// As how much work counts what is done in a graph of so many nodes.
fn weight_of(nodes: u32) -> u64
    ensures { 0 < result }
{
    1 + u64::from(nodes / LARGE)
}

/// The conflicts that are left of what a question about a graph of so many nodes was given. Where
/// much was visited for each, that counts as more of them.
pub(crate) fn conflicts_left(given: Budget, left: Budget, nodes: u32) -> u64 {
    let visits = given.visits.saturating_sub(left.visits);
    let worth = visits.saturating_mul(weight_of(nodes)) / WORTH;
    left.conflicts.min(given.conflicts.saturating_sub(worth))
}

impl Account {
    pub(crate) fn new(effort: Effort) -> Account {
        Account {
            effort,
            conflicts: effort.conflicts.saturating_mul(AT_START),
            spent: 0,
            hardest: 0,
            usual: effort.conflicts.saturating_mul(FIRST),
            vain: 0,
            rows: 0,
            found: 0,
            open: 0,
            is_cut: false,
            doubted_found: 0,
            doubted_open: 0,
            is_patient: false,
            hard: Hard::new(effort.orders),
        }
    }

    /// The same, where questions about nodes of which something is doubted may have as much as
    /// others.
    pub(crate) fn patient(effort: Effort) -> Account {
        Account {
            is_patient: true,
            ..Account::new(effort)
        }
    }

    /// Counts a question about a node of which something is doubted.
    fn count_doubted(&mut self, is_equal: bool, gave_up: bool) {
        self.doubted_found = self.doubted_found.saturating_add(u32::from(is_equal));
        self.doubted_open = self.doubted_open.saturating_add(u32::from(gave_up));
        if self.doubted_found > LATELY || self.doubted_open > LATELY {
            self.doubted_found /= 2;
            self.doubted_open /= 2;
        }
    }

    /// Whether questions about nodes of which something is doubted are mostly in vain.
    fn minds_doubt(&self) -> bool {
        !self.is_patient && self.doubted_found < self.doubted_open
    }

    /// What may be spent on a graph of so many nodes yet.
    pub(crate) fn left(&self, nodes: u32) -> u64 {
        let effort = &self.effort;
        let room = effort.each_node.saturating_mul(u64::from(nodes));
        let room = room.saturating_add(effort.whole).min(effort.work);
        let weight = weight_of(nodes);
        let all = (room / weight).saturating_sub(self.spent);
        let vain = (effort.work / 10).saturating_mul(IN_VAIN);
        all.min((vain / weight).saturating_sub(self.vain))
    }

    /// Whether more may be spent on a graph of so many nodes. It is asked where there is a
    /// question: if not, this is noted.
    pub(crate) fn has_room(&mut self, nodes: u32) -> bool {
        let has_room = self.left(nodes) > 0;
        self.is_cut |= !has_room;
        has_room
    }

    /// What the next question about a graph of so many nodes may spend, where so much is doubted of
    /// what lies below it.
    pub(crate) fn open(&mut self, nodes: u32, doubt: u8) -> Budget {
        let doubt = if self.minds_doubt() { doubt } else { 0 };
        self.conflicts = self.conflicts.saturating_add(EACH);
        let most = self.effort.conflicts;
        let conflicts = (self.conflicts / PART).max(FEWEST).min(most);
        let first = most.saturating_mul(FIRST);
        let most = self.hardest.saturating_mul(HARDER).max(first);
        Budget {
            conflicts: doubted(conflicts, doubt),
            visits: doubted(conflicts.saturating_add(WITHOUT), doubt).saturating_mul(VISITS),
            work: self.left(nodes).min(doubted(most, doubt)),
            growth: GROWTH,
            ordered_from: self.hard.ordered_from(),
            decides: if self.effort.decides_needed {
                Decides::Needed
            } else {
                Decides::All
            },
        }
    }

    /// Counts what a question spent, by which a node was found equal or not.
    pub(crate) fn close(&mut self, given: Budget, left: Budget, doubt: u8, answer: Option<Answer>) {
        let is_equal = matches!(answer, Some(Answer::Refuted));
        let gave_up = matches!(answer, Some(Answer::GaveUp));
        if doubt > 0 {
            self.count_doubted(is_equal, gave_up);
        }
        let conflicts = given.conflicts.saturating_sub(left.conflicts);
        self.conflicts = self.conflicts.saturating_sub(conflicts);
        let work = given.work.saturating_sub(left.work);
        self.hard.count(given, conflicts, is_equal, work);
        if is_equal {
            self.hardest = self.hardest.max(work);
            self.found = self.found.saturating_add(1);
        }
        if gave_up {
            self.open = self.open.saturating_add(1);
        }
        self.usual = (self.usual - self.usual / LAST).saturating_add(work / LAST);
        self.spend(work.saturating_add(QUESTION), !is_equal);
    }

    /// How much of what is left is kept for a question that may do so much work, as long as others
    /// are asked beside it.
    pub(crate) fn kept_for(&self, work: u64) -> u64 {
        work.min(self.usual.saturating_mul(MORE))
    }

    /// By how many threads so many questions are asked, if they are as the last ones were. What is
    /// found doesn't depend on it.
    pub(crate) fn threads_for(&self, questions: usize) -> usize {
        let work = self.usual.saturating_mul(questions as u64);
        questions.min((work / THREAD) as usize)
    }

    /// What came of it so far.
    pub(crate) fn tally(&self) -> Tally {
        Tally {
            found: self.found,
            open: self.open,
            is_cut: self.is_cut,
            work: self.spent,
        }
    }

    fn spend(&mut self, work: u64, in_vain: bool) {
        self.spent = self.spent.saturating_add(work);
        if in_vain {
            self.vain = self.vain.saturating_add(work);
        }
    }

    /// Whether rows are left.
    pub(crate) fn has_rows(&self) -> bool {
        self.rows < ROWS
    }

    /// Whether the next counterexample is simulated by itself.
    pub(crate) fn is_alone(&self) -> bool {
        self.rows < ALONE
    }

    /// Whether another row is simulated. If so, it is counted.
    pub(crate) fn take_row(&mut self, nodes: u32) -> bool {
        if self.rows >= ROWS {
            return false;
        }
        self.rows += 1;
        self.spend_row(nodes);
        true
    }

    /// Counts a row that is simulated.
    pub(crate) fn spend_row(&mut self, nodes: u32) {
        self.spend(u64::from(nodes) * WORD, true);
    }
}
