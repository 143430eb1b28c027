//! The learned clauses, as the search reads them, and the two literals of each that are watched.
use crate::reads::{NONE, lengthen, number, read, write};
use crate::values::{Reason, Value, Values};
use eqc_xag::Literal;
use std::alloc::{AllocError, Global};

/// A clause with at most so many levels stays.
const GOOD_GLUE: u32 = 2;

/// Where a clause stands.
#[derive(Clone, Copy)]
struct Clause {
    begin: u32,
    end: u32,
    /// Of how many levels its literals were when it was learned.
    glue: u32,
    /// Its number in the store.
    number: u32,
}

const NO_CLAUSE: Clause = Clause {
    begin: 0,
    end: 0,
    glue: 0,
    number: NONE,
};

/// One of a clause's two watches. The watches 2 k and 2 k + 1 are of the first and second literal
/// of clause k.
#[derive(Clone, Copy)]
pub(crate) struct Watch {
    /// A literal of the clause: nothing is to do while it is true.
    pub(crate) blocker: Literal,
    /// The next watch of the same literal.
    pub(crate) next: u32,
}

const NO_WATCH: Watch = Watch {
    blocker: 0,
    next: NONE,
};

/// A clause that may be dropped, the worst last.
#[derive(Clone, Copy, PartialEq, Eq, PartialOrd, Ord)]
struct Rank {
    glue: u32,
    length: u32,
    place: u32,
}

/// Clauses by their places. Each stands in the store too, which alone is believed.
#[derive(Drop)]
pub(crate) struct Learned {
    literals: Vec<Literal>,
    clauses: Vec<Clause>,
    watches: Vec<Watch>,
    /// By literal: its first watch.
    heads: Vec<u32>,
    /// By clause, while some are dropped: whether it stays.
    stays: Vec<bool>,
    ranks: Vec<Rank>,
    /// The numbers of those that were dropped, until the store is told.
    dropped: Vec<u32>,
}

impl Learned {
    pub(crate) fn new(alloc: Global) -> Learned {
        Learned {
            literals: Vec::new(alloc),
            clauses: Vec::new(alloc),
            watches: Vec::new(alloc),
            heads: Vec::new(alloc),
            stays: Vec::new(alloc),
            ranks: Vec::new(alloc),
            dropped: Vec::new(alloc),
        }
    }

    /// Makes room for so many nodes.
    pub(crate) fn grow(&mut self, nodes: u32) -> Result<(), AllocError> {
        lengthen(&mut self.heads, nodes.saturating_mul(2), NONE)
    }

    pub(crate) fn len(&self) -> u32 {
        number(self.clauses.len())
    }

    /// How many watches there are.
    pub(crate) fn watches(&self) -> usize {
        self.watches.len()
    }

    /// The number of a clause in the store.
    pub(crate) fn number_of(&self, place: u32) -> u32 {
        read(&self.clauses, place, NO_CLAUSE).number
    }

    /// Where the literals of a clause begin and end.
    #[inline(always)]
    pub(crate) fn bounds(&self, place: u32) -> (u32, u32) {
        let clause = read(&self.clauses, place, NO_CLAUSE);
        (clause.begin, clause.end)
    }

    /// The literal of a clause that has no other.
    pub(crate) fn unit(&self, place: u32) -> Option<Literal> {
        let (begin, end) = self.bounds(place);
        (end.saturating_sub(begin) == 1).then_some(self.literal(begin))
    }

    #[inline(always)]
    pub(crate) fn literal(&self, at: u32) -> Literal {
        read(&self.literals, at, 0)
    }

    /// Lets two literals of a clause change their places.
    #[inline(always)]
    pub(crate) fn swap(&mut self, at: u32, other: u32) {
        let literal = self.literal(at);
        let second = self.literal(other);
        write(&mut self.literals, at, second);
        write(&mut self.literals, other, literal);
    }

    #[inline(always)]
    pub(crate) fn first_watch(&self, literal: Literal) -> u32 {
        read(&self.heads, literal, NONE)
    }

    #[inline(always)]
    pub(crate) fn watch(&self, at: u32) -> Watch {
        read(&self.watches, at, NO_WATCH)
    }

    /// Gives a watch another blocker.
    #[inline(always)]
    pub(crate) fn set_blocker(&mut self, at: u32, blocker: Literal) {
        let next = self.watch(at).next;
        write(&mut self.watches, at, Watch { blocker, next });
    }

    /// Takes a watch out of the row of its literal, in which it follows `previous`.
    #[inline(always)]
    pub(crate) fn unlink(&mut self, literal: Literal, previous: u32, at: u32) {
        let next = self.watch(at).next;
        if previous == NONE {
            write(&mut self.heads, literal, next);
        } else {
            let blocker = self.watch(previous).blocker;
            write(&mut self.watches, previous, Watch { blocker, next });
        }
    }

    /// Puts a watch into the row of a literal.
    #[inline(always)]
    pub(crate) fn link(&mut self, literal: Literal, at: u32, blocker: Literal) {
        let next = self.first_watch(literal);
        write(&mut self.watches, at, Watch { blocker, next });
        write(&mut self.heads, literal, at);
    }

    /// Watches the first two literals of a clause.
    fn attach(&mut self, place: u32) {
        let (begin, end) = self.bounds(place);
        if end.saturating_sub(begin) < 2 {
            return;
        }
        let first = self.literal(begin);
        let second = self.literal(begin.wrapping_add(1));
        let at = place.wrapping_mul(2);
        self.link(first, at, second);
        self.link(second, at.wrapping_add(1), first);
    }

    /// Puts a clause with the number that it has in the store behind the others, and gives its
    /// place.
    pub(crate) fn add(
        &mut self,
        clause: &[Literal],
        glue: u32,
        in_store: u32,
    ) -> Result<u32, AllocError> {
        let place = self.len();
        let begin = number(self.literals.len());
        self.literals.extend_from_slice(clause)?;
        let end = number(self.literals.len());
        self.watches.push(NO_WATCH)?;
        self.watches.push(NO_WATCH)?;
        self.clauses.push(Clause {
            begin,
            end,
            glue,
            number: in_store,
        })?;
        self.attach(place);
        Ok(place)
    }

    /// A clause that was dropped since the store was told last.
    pub(crate) fn next_dropped(&mut self) -> Option<u32> {
        self.dropped.pop()
    }

    /// Drops the worse half of those that aren't the reason of a value. Only where no decision
    /// holds.
    pub(crate) fn reduce(&mut self, values: &mut Values) -> Result<(), AllocError> {
        let clauses = self.len();
        self.stays.clear();
        lengthen(&mut self.stays, clauses, false)?;
        for place in 0..values.len() {
            if let Reason::Learned(k) = values.reason_of(values.at(place) / 2) {
                write(&mut self.stays, k, true);
            }
        }
        self.choose()?;
        self.detach_all();
        self.compact(values)
    }

    /// Lets the better half stay.
    fn choose(&mut self) -> Result<(), AllocError> {
        self.ranks.clear();
        for place in 0..self.len() {
            let clause = read(&self.clauses, place, NO_CLAUSE);
            if clause.glue <= GOOD_GLUE {
                write(&mut self.stays, place, true);
            }
            if !read(&self.stays, place, true) {
                self.ranks.push(Rank {
                    glue: clause.glue,
                    length: clause.end.saturating_sub(clause.begin),
                    place,
                })?;
            }
        }
        self.ranks.sort_unstable();
        for at in 0..self.ranks.len() / 2 {
            let place = self.ranks[at].place;
            write(&mut self.stays, place, true);
        }
        Ok(())
    }

    /// Takes away all watches.
    fn detach_all(&mut self) {
        for at in 0..self.literals.len() {
            let literal = self.literal(number(at));
            write(&mut self.heads, literal, NONE);
        }
    }

    /// Moves together what stays, and watches it anew.
    fn compact(&mut self, values: &mut Values) -> Result<(), AllocError> {
        let mut kept: u32 = 0;
        let mut end: u32 = 0;
        for place in 0..self.len() {
            let clause = read(&self.clauses, place, NO_CLAUSE);
            if !read(&self.stays, place, false) {
                self.dropped.push(clause.number)?;
                continue;
            }
            let begin = end;
            end = self.move_literals(clause, begin);
            values.rename_reason(self.literal(begin), place, kept);
            values.rename_reason(self.literal(begin.wrapping_add(1)), place, kept);
            write(
                &mut self.clauses,
                kept,
                Clause {
                    begin,
                    end,
                    ..clause
                },
            );
            self.open_first(values, begin, end);
            self.attach(kept);
            kept = kept.wrapping_add(1);
        }
        self.clauses.truncate(kept as usize);
        self.literals.truncate(end as usize);
        self.watches.truncate(kept.saturating_mul(2) as usize);
        Ok(())
    }

    /// Moves the literals of a clause to another place before it. Gives where they end.
    fn move_literals(&mut self, clause: Clause, begin: u32) -> u32 {
        let mut end = begin;
        for at in clause.begin..clause.end {
            let literal = self.literal(at);
            write(&mut self.literals, end, literal);
            end = end.wrapping_add(1);
        }
        end
    }

    /// Puts two literals first that aren't false, if there are so many.
    fn open_first(&mut self, values: &Values, begin: u32, end: u32) {
        let mut open = begin;
        for at in begin..end {
            if open.wrapping_sub(begin) < 2 && values.value(self.literal(at)) != Value::False {
                self.swap(open, at);
                open = open.wrapping_add(1);
            }
        }
    }

    /// Forgets all clauses.
    pub(crate) fn clear(&mut self) {
        self.detach_all();
        self.literals.clear();
        self.clauses.clear();
        self.watches.clear();
        self.dropped.clear();
    }
}
