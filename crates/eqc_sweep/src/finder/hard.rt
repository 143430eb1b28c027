//! In which of two ways hard questions are asked.

use eqc_cdcl::Budget;

/// A question is hard with so many conflicts.
const HARD: u64 = 600;

/// What each way begins with, as if it had found a node by so much work: a way that fails is left
/// for the other one soon.
const AT_FIRST: Way = Way {
    found: 1,
    work: 1_000_000,
};

/// Of work beyond that what came earlier counts half.
const LATELY: u64 = 1_000_000_000;

/// What came of questions that were asked in one way: nodes that were found equal, and the work.
#[derive(Clone, Copy, Debug)]
struct Way {
    found: u64,
    work: u64,
}

impl Way {
    fn count(&mut self, is_equal: bool, work: u64) {
        self.found = self.found.saturating_add(u64::from(is_equal));
        self.work = self.work.saturating_add(work);
        if self.work > LATELY {
            self.found /= 2;
            self.work /= 2;
        }
    }

    /// Whether it found no less for its work.
    fn is_no_worse(&self, other: &Way) -> bool {
        self.found.saturating_mul(other.work) >= other.found.saturating_mul(self.work)
    }
}

/// What came of hard questions in which the nodes of a conflict were noted in the order in which
/// they last were in one, and of those in which they were as they were met.
#[derive(Clone, Copy, Debug)]
pub(crate) struct Hard {
    has_two_ways: bool,
    in_order: Way,
    as_met: Way,
}

impl Hard {
    /// Nothing came of any yet. All are asked in the second way, or in both.
    pub(crate) fn new(has_two_ways: bool) -> Hard {
        Hard {
            has_two_ways,
            in_order: AT_FIRST,
            as_met: AT_FIRST,
        }
    }

    /// From which conflict on the next question has its nodes in order.
    pub(crate) fn ordered_from(&self) -> u64 {
        if self.has_two_ways && self.in_order.is_no_worse(&self.as_met) {
            HARD
        } else {
            u64::MAX
        }
    }

    /// Counts a question that had so many conflicts, whether a node was found equal by it, and its
    /// work.
    pub(crate) fn count(&mut self, given: Budget, conflicts: u64, is_equal: bool, work: u64) {
        if conflicts < HARD {
            return;
        }
        if given.ordered_from == HARD {
            self.in_order.count(is_equal, work);
        } else {
            self.as_met.count(is_equal, work);
        }
    }
}
