//! How a word comes of columns of two: by a chain of adders, or by a tree of prefixes.

use crate::netlist::{FALSE, Netlist};
use eqc_xag::Literal;
use std::alloc::{AllocError, Global};

/// How carries come to the columns of a word.
#[derive(Clone, Copy, PartialEq, Eq)]
pub(crate) enum End {
    /// From column to column.
    Chain,
    /// Each column's by spans of 1, 2, 4 and so on below it (Kogge and Stone).
    Doubled,
    /// By halves of spans of 2, 4, 8 and so on, of which the upper one's columns go on from the
    /// lower one's last (Sklansky).
    Halved,
    /// By as few spans as there may be (Brent and Kung).
    Few,
}

/// The trees of prefixes that a netlist may end with.
pub(crate) static PREFIXES: &[End] = &[End::Doubled, End::Halved, End::Few];

/// A word of 128 columns has spans of up to 2^7.
const LEVELS: u32 = 7;

/// The columns' spans: whether one makes a carry, whether it passes one on, and its lowest column.
#[derive(Clone, Copy)]
struct Span {
    makes: Literal,
    passes: Literal,
    lowest: usize,
}

/// What columns that go together have.
#[derive(Drop)]
struct Spans {
    all: Vec<Span>,
}

impl End {
    /// The column whose span goes together with that of another one at a level.
    fn below(self, column: usize, level: u32) -> Option<usize> {
        let level = level % LEVELS;
        let end = column.saturating_add(1);
        match self {
            End::Chain => None,
            End::Doubled => column.checked_sub(1 << level),
            End::Halved => {
                if column >> level & 1 == 1 {
                    (column >> level << level).checked_sub(1)
                } else {
                    None
                }
            }
            End::Few => {
                if end >> level & 1 == 0 && end >> level << level == end {
                    column.checked_sub(1 << level)
                } else {
                    None
                }
            }
        }
    }

    /// The column whose span is the rest of another one's, behind all levels.
    fn rest(self, column: usize, level: u32) -> Option<usize> {
        let level = level % LEVELS;
        let end = column.saturating_add(1);
        if self == End::Few && end >> level & 1 == 1 && end >> level << level == end {
            end.checked_sub(1 << level)?.checked_sub(1)
        } else {
            None
        }
    }
}

impl Spans {
    /// Joins the span of a column with that of a lower one, if there are both. Fails where memory
    /// is refused, as all that follows does.
    fn join(
        &mut self,
        netlist: &mut Netlist,
        column: usize,
        below: Option<usize>,
    ) -> Result<(), AllocError> {
        let Some(below) = below else {
            return Ok(());
        };
        if column >= self.all.len() || below >= self.all.len() {
            return Ok(());
        }
        let (upper, lower) = (self.all[column], self.all[below]);
        let carried = netlist.and(upper.passes, lower.makes)?;
        let joined = Span {
            makes: netlist.or(upper.makes, carried)?,
            passes: netlist.and(upper.passes, lower.passes)?,
            lowest: lower.lowest,
        };
        if joined.lowest > 0 {
            netlist.note_span(joined.makes)?;
            netlist.note_span(joined.passes)?;
        }
        self.all[column] = joined;
        Ok(())
    }

    /// Joins spans until each goes down to the first column.
    fn join_all(&mut self, netlist: &mut Netlist, end: End) -> Result<(), AllocError> {
        let count = self.all.len();
        for level in 0..LEVELS {
            for back in 0..count {
                let column = count - 1 - back;
                self.join(netlist, column, end.below(column, level))?;
            }
        }
        for back in 0..LEVELS {
            for column in 0..count {
                self.join(netlist, column, end.rest(column, LEVELS - 1 - back))?;
            }
        }
        Ok(())
    }

    /// Whether a carry goes into a column.
    fn carry(&self, column: usize) -> u32 {
        match column.checked_sub(1) {
            None => FALSE,
            Some(below) => match self.all.get(below) {
                None => FALSE,
                Some(span) => span.makes,
            },
        }
    }
}

/// The sum of two literals of each column, the lowest first, and of a carry into the first one, by
/// a tree of prefixes.
pub(crate) fn prefixed(
    alloc: Global,
    netlist: &mut Netlist,
    columns: &[(u32, u32)],
    carry: Literal,
    end: End,
) -> Result<Vec<u32>, AllocError> {
    let mut spans = Spans {
        all: Vec::with_capacity(alloc, columns.len())?,
    };
    let mut passes = Vec::with_capacity(alloc, columns.len())?;
    for column in 0..columns.len() {
        let (x, y) = columns[column];
        let one = netlist.xor(x, y)?;
        let both = netlist.and(x, y)?;
        let carried = netlist.and(one, if column == 0 { carry } else { FALSE })?;
        spans.all.push(Span {
            makes: netlist.or(both, carried)?,
            passes: one,
            lowest: column,
        })?;
        passes.push(one)?;
    }
    spans.join_all(netlist, end)?;
    let mut word = Vec::with_capacity(alloc, columns.len())?;
    for column in 0..passes.len() {
        let carried = if column == 0 {
            carry
        } else {
            spans.carry(column)
        };
        word.push(netlist.xor(passes[column], carried)?)?;
    }
    Ok(word)
}
