//! How rows of literals are added up.

use crate::columns::Columns;
use crate::ends::End;
use crate::netlist::Netlist;
use crate::partial::Partial;
use crate::threes::Rows;
use std::alloc::{AllocError, Global};

/// How rows are added up, until two literals are left of each column at most.
#[derive(Clone, Copy, PartialEq, Eq)]
pub(crate) enum Tree {
    /// Row after row, each by a chain of adders.
    Array,
    /// Row after row, with carries that are kept for the next one (carry-save).
    Saved,
    /// The same where sums and carries are nothing at first, so that the first two rows come to half
    /// adders.
    Kept,
    /// All columns at once, by threes, until two are left of each (Wallace).
    Layers,
    /// As few adders as bring columns down to heights that are each half as much again as the next
    /// one (Dadda).
    Late,
    /// Three rows of all columns at a time, and two come of them.
    Threes,
    /// Column by column from the lowest on, three at a time, until one is left.
    Columns,
}

/// What rows come to, the lowest literal first. Fails where memory is refused.
pub(crate) fn added_up(
    alloc: Global,
    netlist: &mut Netlist,
    partial: &Partial,
    tree: Tree,
    end: End,
) -> Result<Vec<u32>, AllocError> {
    let mut columns = Columns::of_partial(alloc, partial)?;
    let mut left = match tree {
        Tree::Array => columns.by_rows(netlist)?,
        Tree::Saved => columns.saved(netlist)?,
        Tree::Layers => columns.in_layers(netlist)?,
        Tree::Late => columns.late(netlist)?,
        Tree::Threes => Rows::of(alloc, Columns::one_by_one(alloc, partial)?)?.by_threes(netlist)?,
        Tree::Kept => Rows::of(alloc, Columns::one_by_one(alloc, partial)?)?.kept(netlist)?,
        Tree::Columns => {
            columns.lower(netlist, 1)?;
            columns
        }
    };
    left.ended(netlist, end)
}
