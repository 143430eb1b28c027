//! The literals that are true, in the order in which they became true, and why.
use crate::reads::{lengthen, number, read, write};
use eqc_xag::Literal;
use std::alloc::{AllocError, Global};

/// Whether a literal is true.
#[derive(Clone, Copy, PartialEq, Eq, Debug)]
pub(crate) enum Value {
    Free,
    True,
    False,
}

/// Why a literal is true: a clause in which all others are false.
#[derive(Clone, Copy, Debug)]
pub(crate) enum Reason {
    /// It was assumed or decided.
    Decided,
    /// A side of a gate.
    Gate { node: u32, side: u32 },
    /// A learned clause, by its place.
    Learned(u32),
}

/// How a node came to its value.
#[derive(Clone, Copy)]
struct Record {
    reason: Reason,
    level: u32,
    place: u32,
}

const NO_RECORD: Record = Record {
    reason: Reason::Decided,
    level: 0,
    place: 0,
};

/// The values of literals.
#[derive(Drop)]
pub(crate) struct Values {
    /// By literal.
    values: Vec<Value>,
    /// By node.
    records: Vec<Record>,
    /// The true literals in their order, in a row with room for each node.
    trail: Vec<Literal>,
    /// How many are true.
    end: u32,
    /// How many of them have been propagated.
    head: u32,
    /// Where each decision's literals begin.
    starts: Vec<u32>,
}

impl Values {
    pub(crate) fn new(alloc: Global) -> Values {
        Values {
            values: Vec::new(alloc),
            records: Vec::new(alloc),
            trail: Vec::new(alloc),
            end: 0,
            head: 0,
            starts: Vec::new(alloc),
        }
    }

    /// Makes room for so many nodes, of which the first is the constant.
    pub(crate) fn grow(&mut self, nodes: u32) -> Result<(), AllocError> {
        lengthen(&mut self.values, nodes.saturating_mul(2), Value::Free)?;
        lengthen(&mut self.records, nodes, NO_RECORD)?;
        lengthen(&mut self.trail, nodes, 0)?;
        write(&mut self.values, 0, Value::False);
        write(&mut self.values, 1, Value::True);
        Ok(())
    }

    #[inline(always)]
    pub(crate) fn value(&self, literal: Literal) -> Value {
        read(&self.values, literal, Value::Free)
    }

    /// The number of decisions that hold.
    #[inline(always)]
    pub(crate) fn level(&self) -> u32 {
        number(self.starts.len())
    }

    pub(crate) fn level_of(&self, node: u32) -> u32 {
        read(&self.records, node, NO_RECORD).level
    }

    pub(crate) fn reason_of(&self, node: u32) -> Reason {
        read(&self.records, node, NO_RECORD).reason
    }

    pub(crate) fn place_of(&self, node: u32) -> u32 {
        read(&self.records, node, NO_RECORD).place
    }

    /// Gives a learned clause that is the reason of a literal another place.
    pub(crate) fn rename_reason(&mut self, literal: Literal, old: u32, new: u32) {
        let record = read(&self.records, literal / 2, NO_RECORD);
        if let Reason::Learned(place) = record.reason {
            if place == old && self.value(literal) == Value::True {
                let reason = Reason::Learned(new);
                write(&mut self.records, literal / 2, Record { reason, ..record });
            }
        }
    }

    /// How many literals are true.
    pub(crate) fn len(&self) -> u32 {
        self.end
    }

    /// The literal that became true as the one of this place.
    #[inline(always)]
    pub(crate) fn at(&self, place: u32) -> u32 {
        read(&self.trail, place, 0)
    }

    /// Makes a free literal true.
    #[inline(always)]
    pub(crate) fn assign(&mut self, literal: Literal, reason: Reason) {
        let level = self.level();
        let place = self.end;
        write(&mut self.values, literal, Value::True);
        write(&mut self.values, literal ^ 1, Value::False);
        write(
            &mut self.records,
            literal / 2,
            Record {
                reason,
                level,
                place,
            },
        );
        write(&mut self.trail, place, literal);
        self.end = place.wrapping_add(1);
    }

    /// Makes a free literal true, without a reason and until it is taken back.
    pub(crate) fn decide(&mut self, literal: Literal) -> Result<(), AllocError> {
        self.starts.push(self.end)?;
        self.assign(literal, Reason::Decided);
        Ok(())
    }

    /// The next literal to be propagated.
    #[inline(always)]
    pub(crate) fn next(&mut self) -> Option<u32> {
        if self.head >= self.end {
            return None;
        }
        let literal = self.at(self.head);
        self.head = self.head.wrapping_add(1);
        Some(literal)
    }

    /// Lets all that is true be propagated again.
    pub(crate) fn propagate_anew(&mut self) {
        self.head = 0;
    }

    /// The place from which on literals are taken back, where all levels above this one are.
    pub(crate) fn start_above(&self, level: u32) -> u32 {
        read(&self.starts, level, self.end)
    }

    /// Frees the last true literal, and gives it.
    pub(crate) fn take_back(&mut self) -> u32 {
        self.end = self.end.saturating_sub(1);
        let literal = self.at(self.end);
        write(&mut self.values, literal, Value::Free);
        write(&mut self.values, literal ^ 1, Value::Free);
        literal
    }

    /// Ends all levels above this one, whose literals have been taken back.
    pub(crate) fn end_above(&mut self, level: u32) {
        self.starts.truncate(level as usize);
        self.head = self.head.min(self.end);
    }
}
