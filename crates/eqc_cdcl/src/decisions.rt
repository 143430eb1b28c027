//! The nodes that may be decided: the one that was last in a conflict first, then the highest.
use crate::heights::Heights;
use crate::reads::{NONE, lengthen, read, write};
use crate::window::Window;
use std::alloc::{AllocError, Global};

/// A node among those that were in a conflict, which stand in the order in which they last were.
#[derive(Clone, Copy)]
struct Link {
    /// When it was last in a conflict, or 0 where it wasn't.
    stamp: u32,
    /// The one before it, and the one behind it.
    older: u32,
    newer: u32,
    /// Whether it may be decided.
    is_open: bool,
}

const UNLINKED: Link = Link {
    stamp: 0,
    older: NONE,
    newer: NONE,
    is_open: false,
};

/// What is read of a node for which there is no room: it is never entered.
const ENTERED: Link = Link {
    is_open: true,
    ..UNLINKED
};

/// The nodes that may be decided: those that were in a conflict in a row, the others by their
/// heights.
#[derive(Drop)]
pub(crate) struct Decisions {
    /// Those that were in none. One that was in a conflict since it came here counts no more.
    heights: Heights,
    /// By node: its place in the row; the value that it last had, and the one that it has at the
    /// beginning of a question.
    links: Vec<Link>,
    phases: Vec<bool>,
    first_phases: Vec<bool>,
    /// The last of the row, and one behind which none may be decided.
    newest: u32,
    next: u32,
    clock: u32,
}

impl Decisions {
    pub(crate) fn new(alloc: Global) -> Decisions {
        Decisions {
            heights: Heights::new(alloc),
            links: Vec::new(alloc),
            phases: Vec::new(alloc),
            first_phases: Vec::new(alloc),
            newest: NONE,
            next: NONE,
            clock: 0,
        }
    }

    /// Makes room for so many nodes.
    pub(crate) fn grow(&mut self, nodes: u32) -> Result<(), AllocError> {
        self.heights.grow(nodes)?;
        lengthen(&mut self.links, nodes, UNLINKED)?;
        lengthen(&mut self.first_phases, nodes, false)?;
        lengthen(&mut self.phases, nodes, false)
    }

    /// Forgets what questions left of the nodes that they looked at.
    pub(crate) fn forget(&mut self, nodes: &[u32]) {
        for node in nodes {
            let first = read(&self.first_phases, *node, false);
            self.set_phase(*node, first);
            write(&mut self.links, *node, UNLINKED);
        }
        self.newest = NONE;
        self.next = NONE;
        self.clock = 0;
    }

    pub(crate) fn phase(&self, node: u32) -> bool {
        read(&self.phases, node, false)
    }

    pub(crate) fn set_phase(&mut self, node: u32, value: bool) {
        write(&mut self.phases, node, value);
    }

    /// Sets the value that a node, for which there may be no room yet, has at the beginning of each
    /// question.
    pub(crate) fn set_first_phase(&mut self, node: u32, value: bool) -> Result<(), AllocError> {
        lengthen(&mut self.phases, node.saturating_add(1), false)?;
        lengthen(&mut self.first_phases, node.saturating_add(1), false)?;
        write(&mut self.first_phases, node, value);
        self.set_phase(node, value);
        Ok(())
    }

    fn link(&self, node: u32) -> Link {
        read(&self.links, node, ENTERED)
    }

    /// When a node was last in a conflict, or 0 where it wasn't.
    pub(crate) fn stamp(&self, node: u32) -> u32 {
        self.link(node).stamp
    }

    /// Lets a node be decided.
    #[inline]
    pub(crate) fn insert(&mut self, node: u32, window: &Window) {
        let link = self.link(node);
        if node == 0 || link.is_open {
            return;
        }
        self.set_open(node, true);
        if link.stamp == 0 {
            self.heights.insert(node, window);
        } else if self.next == NONE || self.link(self.next).stamp < link.stamp {
            self.next = node;
        }
    }

    fn set_open(&mut self, node: u32, is_open: bool) {
        let link = self.link(node);
        write(&mut self.links, node, Link { is_open, ..link });
    }

    /// The node whose turn it is, which is taken out.
    pub(crate) fn pop(&mut self, window: &Window) -> Option<u32> {
        for _ in 0..self.links.len() {
            let node = self.next;
            if node == NONE {
                break;
            }
            let link = self.link(node);
            self.next = link.older;
            if link.is_open {
                self.set_open(node, false);
                return Some(node);
            }
        }
        self.pop_highest(window)
    }

    /// The highest node that was in no conflict, which is taken out.
    fn pop_highest(&mut self, window: &Window) -> Option<u32> {
        for _ in 0..u32::MAX {
            let node = self.heights.pop(window)?;
            if self.link(node).stamp == 0 {
                self.set_open(node, false);
                return Some(node);
            }
        }
        None
    }

    /// Notes the nodes without their places in the window, before these change. Until they are
    /// settled none may be taken out.
    pub(crate) fn loosen(&mut self, window: &Window) {
        self.heights.loosen(window);
    }

    /// Puts the nodes where they belong by the places that they have now.
    pub(crate) fn settle(&mut self, window: &Window) {
        self.heights.settle(window);
    }

    /// Takes a node out of the row, if it is there.
    fn unlink(&mut self, node: u32) {
        let Link {
            older,
            newer,
            stamp,
            ..
        } = self.link(node);
        if stamp == 0 {
            return;
        }
        if self.next == node {
            self.next = older;
        }
        if newer == NONE {
            self.newest = older;
        } else {
            let link = self.link(newer);
            write(&mut self.links, newer, Link { older, ..link });
        }
        let link = self.link(older);
        write(&mut self.links, older, Link { newer, ..link });
    }

    /// Notes that a node is in a conflict.
    pub(crate) fn bump(&mut self, node: u32) {
        self.unlink(node);
        self.clock = self.clock.wrapping_add(1);
        let older = self.newest;
        let before = self.link(older);
        write(
            &mut self.links,
            older,
            Link {
                newer: node,
                ..before
            },
        );
        let is_open = self.link(node).is_open;
        write(
            &mut self.links,
            node,
            Link {
                stamp: self.clock,
                older,
                newer: NONE,
                is_open,
            },
        );
        self.newest = node;
        if is_open {
            self.next = node;
        }
    }

    /// Takes all out.
    pub(crate) fn clear(&mut self, window: &Window) {
        for _ in 0..self.links.len() {
            let Some(node) = self.heights.take_any(window) else {
                break;
            };
            self.set_open(node, false);
        }
        for _ in 0..self.links.len() {
            if self.next == NONE {
                break;
            }
            self.set_open(self.next, false);
            self.next = self.link(self.next).older;
        }
        self.next = NONE;
    }
}
