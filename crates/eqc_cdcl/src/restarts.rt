//! When all decisions are taken back: after numbers of conflicts that are 64 times those of Luby's
//! sequence, 1, 1, 2, 1, 1, 2, 4, and so on.

/// So many conflicts is the shortest run.
const UNIT: u32 = 64;

/// So many learned clauses may be there at the first restart, and so many more at each further one.
const FIRST_LIMIT: u32 = 300;

const MORE_AT_RESTART: u32 = 75;

/// The account of a question's restarts.
#[derive(Clone, Copy)]
pub(crate) struct Restarts {
    /// The place in the sequence, and its number there.
    place: u32,
    factor: u32,
    conflicts: u32,
    /// The conflicts of the question, and with how many it is a hard one.
    all: u64,
    hard_from: u64,
    /// How many learned clauses may be there.
    limit: u32,
}

impl Restarts {
    pub(crate) fn new() -> Restarts {
        Restarts {
            place: 1,
            factor: 1,
            conflicts: 0,
            all: 0,
            hard_from: u64::MAX,
            limit: FIRST_LIMIT,
        }
    }

    /// The account of a question that comes after others, whose clauses may stay.
    pub(crate) fn again(self, hard_from: u64) -> Restarts {
        Restarts {
            limit: self.limit,
            hard_from,
            ..Restarts::new()
        }
    }

    pub(crate) fn count_conflict(&mut self) {
        self.conflicts = self.conflicts.saturating_add(1);
        self.all = self.all.saturating_add(1);
    }

    /// Whether the question is a hard one by now.
    pub(crate) fn is_hard(&self) -> bool {
        self.all >= self.hard_from
    }

    pub(crate) fn is_due(&self) -> bool {
        self.conflicts >= self.factor.saturating_mul(UNIT)
    }

    /// Notes a restart.
    pub(crate) fn restart(&mut self) {
        self.conflicts = 0;
        self.limit = self.limit.saturating_add(MORE_AT_RESTART);
        let lowest = self.place & self.place.wrapping_neg();
        if lowest == self.factor {
            self.place = self.place.wrapping_add(1);
            self.factor = 1;
        } else {
            self.factor = self.factor.saturating_mul(2);
        }
    }

    /// How many learned clauses may be there.
    pub(crate) fn limit(&self) -> u32 {
        self.limit
    }
}
