//! Structural hashing: the literals of gates that were asked for.
ghost use Rattle.std.specs.Prelude.{◌≡◌, List, [], IfOk, IfSome};
ghost use Rattle.eqc_xag.specs.Graph.{IsGraph};
ghost use Rattle.eqc_sweep.specs.Known.{IsLiteralOf, AreKnown};

pub(crate) mod order;

use eqc_xag::{Literal, Node};
use std::alloc::{AllocError, Global};

/// The fewest places that a table has, once it has any.
const FEWEST: usize = 1024;

/// A node that was asked for, and the literal that has its value.
#[derive(Clone, Copy, PartialEq, Eq, Debug)]
pub(crate) struct Known {
    pub(crate) node: Node,
    pub(crate) literal: Literal,
}

/// What a place holds that is free: the constant is never asked for, and is true.
const FREE: Known = Known {
    node: Node::Constant,
    literal: 0,
};

/// The literals of gates and inputs, each in the first place that was free behind its home.
#[derive(Drop)]
pub(crate) struct Table {
    pub(crate) alloc: Global,
    pub(crate) entries: Vec<Known>,
    used: usize,
}

/// Where the search for a node begins.
fn home(node: Node, places: usize) -> usize {
    let (kind, x, y) = match node {
        Node::Constant => (0, 0, 0),
        Node::Input(v) => (1, v, 0),
        Node::And(x, y) => (2, x, y),
        Node::Xor(x, y) => (3, x, y),
    };
    let word = (u64::from(x) << 32 | u64::from(y)) ^ kind;
    let mixed = word.wrapping_mul(0x9E37_79B9_7F4A_7C15);
    (mixed ^ mixed >> 32) as usize & places.wrapping_sub(1)
}

/// The place of a node, or else the first one that is free.
fn place_of(entries: &[Known], node: Node) -> usize {
    let mut at = home(node, entries.len());
    for _ in 0..entries.len() {
        match entries.get(at) {
            None => return at,
            Some(known) => {
                if known.node == node || known.node == Node::Constant {
                    return at;
                }
            }
        }
        at = if at < entries.len() - 1 { at + 1 } else { 0 };
    }
    at
}

/// Keeps what is known of a node.
fn keep(entries: &mut Vec<Known>, known: Known)
    ensures { (nodes : List Node) → AreKnown nodes entries.old.items → IsLiteralOf nodes known.node known.literal → AreKnown nodes entries.new.items }
{
    let at = place_of(entries.as_slice(), known.node);
    if at < entries.len() {
        entries[at] = known;
    }
}

#[tactic(auto, using(crate::proofs::TableLemmas::known_free))]
/// A table of free places.
fn free_places(alloc: Global, places: usize) -> Result<Vec<Known>, AllocError>
    ensures { IfOk result (λ v. (nodes : List Node) → IsGraph nodes → AreKnown nodes v.items) }
{
    let entries = vec![in alloc; FREE; places]?;
    Ok(entries)
}

/// Keeps all that others know.
fn keep_all(entries: &mut Vec<Known>, others: &[Known])
    ensures { (nodes : List Node) → AreKnown nodes entries.old.items → AreKnown nodes others.now → AreKnown nodes entries.new.items }
{
    for known in others {
        keep(entries, *known);
    }
}

impl Table {
    /// Nothing is known.
    pub(crate) fn new(alloc: Global) -> Table
        ensures { result.entries.items ≡ [] }
    {
        Table {
            alloc,
            entries: Vec::new(alloc),
            used: 0,
        }
    }

    /// The literal of a node that was asked for.
    pub(crate) fn find(&self, node: Node) -> Option<Literal>
        ensures { IfSome result (λ l. (nodes : List Node) → AreKnown nodes self.now.entries.items → IsLiteralOf nodes node l) }
    {
        let known = *self.entries.get(place_of(self.entries.as_slice(), node))?;
        if known.node == node && known.node != Node::Constant {
            return Some(known.literal);
        }
        None
    }

    /// Has twice as many places as before.
    fn grow(&mut self) -> Result<(), AllocError>
        ensures { (nodes : List Node) → IsGraph nodes → AreKnown nodes self.old.entries.items → AreKnown nodes self.new.entries.items }
    {
        let places = self.entries.len().max(FEWEST / 2).saturating_mul(2);
        let mut entries = free_places(self.alloc, places)?;
        keep_all(&mut entries, self.entries.as_slice());
        self.entries = entries;
        Ok(())
    }

    /// Keeps the literal of a node. Fails where memory is refused.
    pub(crate) fn put(&mut self, node: Node, literal: Literal) -> Result<(), AllocError>
        ensures { (nodes : List Node) → IsGraph nodes → AreKnown nodes self.old.entries.items → IsLiteralOf nodes node literal → AreKnown nodes self.new.entries.items }
    {
        if self.used >= self.entries.len() / 2 {
            self.grow()?;
        }
        self.used = self.used.saturating_add(1);
        keep(&mut self.entries, Known { node, literal });
        Ok(())
    }
}
