//! The gates that a search looks at: the highest below the question.
use crate::frontier::Frontier;
use crate::heights::{node_in, ranked};
use crate::reads::{NONE, lengthen, node_at, number, read, write};
use eqc_xag::{Graph, Node, node_of};
use std::alloc::{AllocError, Global};

/// What a node is to the window.
#[derive(Clone, Copy, PartialEq, Eq)]
enum Part {
    Outside,
    /// An operand of a gate of the window, or assumed.
    Edge,
    /// A gate that is propagated.
    Gate,
}

/// A gate that has a node as an operand, in four words, since many are read.
#[derive(Clone, Copy)]
pub(crate) struct Fanout {
    /// Four times the gate, twice the side of the operand, and one where it is an exclusive or.
    code: u32,
    /// The operand that is the node, and the other one.
    pub(crate) own: u32,
    pub(crate) other: u32,
    /// The next gate that has the node as an operand.
    pub(crate) next: u32,
}

impl Fanout {
    #[inline(always)]
    pub(crate) fn gate(self) -> u32 {
        self.code / 4
    }

    #[inline(always)]
    pub(crate) fn side(self) -> u32 {
        self.code / 2 % 2
    }

    #[inline(always)]
    pub(crate) fn is_xor(self) -> bool {
        self.code % 2 == 1
    }
}

const NO_FANOUT: Fanout = Fanout {
    code: 0,
    own: 0,
    other: 0,
    next: NONE,
};

/// What is known of a node. It lies together, since a node is met seldom, and far from the others.
#[derive(Clone, Copy)]
struct Seat {
    /// The gates on the longest way down to an input.
    height: u32,
    /// The first gate of the window that has the node as an operand.
    head: u32,
    /// Its place among the nodes of the window that are in order.
    place: u32,
    part: Part,
}

const NO_SEAT: Seat = Seat {
    height: 0,
    head: NONE,
    place: NONE,
    part: Part::Outside,
};

/// The window of a question.
#[derive(Drop)]
pub(crate) struct Window {
    /// By node, for as many as were looked at.
    seats: Vec<Seat>,
    /// What is in the window, in the order in which it came.
    nodes: Vec<u32>,
    fanouts: Vec<Fanout>,
    /// The gates that may come in.
    frontier: Frontier,
    gates: u32,
    /// The height of the highest node that was looked at.
    highest: u32,
    /// The nodes that are in order, the highest first: gates as they came in, of which so many are
    /// there, and where the edge is in order too what is there. A gate that came in late and is
    /// higher than one before it has no place.
    order: Vec<u32>,
    ordered: u32,
    /// The last gate that is in order.
    last: u64,
    is_arranged: bool,
    /// The nodes at the edge, while they are put in order.
    edge: Vec<u64>,
}

impl Window {
    pub(crate) fn new(alloc: Global) -> Window {
        Window {
            seats: Vec::new(alloc),
            nodes: Vec::new(alloc),
            fanouts: Vec::new(alloc),
            frontier: Frontier::new(alloc),
            gates: 0,
            highest: 0,
            order: Vec::new(alloc),
            ordered: 0,
            last: u64::MAX,
            is_arranged: false,
            edge: Vec::new(alloc),
        }
    }

    /// Makes room for the nodes of a graph. The last node of the graph before may be another one
    /// since.
    pub(crate) fn grow(&mut self, graph: &Graph) -> Result<(), AllocError> {
        let nodes = graph.len();
        let known = number(self.seats.len());
        lengthen(&mut self.seats, nodes, NO_SEAT)?;
        for node in known.saturating_sub(1)..nodes {
            let height = match node_at(graph, node) {
                Node::And(a, b) | Node::Xor(a, b) => {
                    let below = self.height(node_of(a)).max(self.height(node_of(b)));
                    below.saturating_add(1)
                }
                Node::Constant | Node::Input(_) => 0,
            };
            let seat = self.seat(node);
            write(&mut self.seats, node, Seat { height, ..seat });
            self.highest = self.highest.max(height);
        }
        self.frontier.grow(nodes, self.highest)
    }

    #[inline(always)]
    fn seat(&self, node: u32) -> Seat {
        read(&self.seats, node, NO_SEAT)
    }

    #[inline(always)]
    fn height(&self, node: u32) -> u32 {
        self.seat(node).height
    }

    /// The node by its height.
    #[inline(always)]
    pub(crate) fn ranked(&self, node: u32) -> u64 {
        ranked(self.height(node), node)
    }

    /// The place of a node among those that are in order, or none: the node of a lesser one is
    /// higher.
    #[inline(always)]
    pub(crate) fn place(&self, node: u32) -> u32 {
        self.seat(node).place
    }

    /// The node of a place.
    #[inline(always)]
    pub(crate) fn node_at(&self, place: u32) -> u32 {
        read(&self.order, place, 0)
    }

    /// Whether the node is a gate that is propagated.
    #[inline(always)]
    pub(crate) fn is_gate(&self, node: u32) -> bool {
        self.seat(node).part == Part::Gate
    }

    /// The first gate that has the node as an operand.
    #[inline(always)]
    pub(crate) fn first_fanout(&self, node: u32) -> u32 {
        self.seat(node).head
    }

    #[inline(always)]
    pub(crate) fn fanout(&self, at: u32) -> Fanout {
        read(&self.fanouts, at, NO_FANOUT)
    }

    /// How many operands its gates have in all.
    pub(crate) fn fanouts(&self) -> usize {
        self.fanouts.len()
    }

    /// What is in the window, in the order in which it came.
    pub(crate) fn nodes(&self) -> &[u32] {
        self.nodes.as_slice()
    }

    /// Lets a node be at the window's edge, if it isn't in it.
    pub(crate) fn enter(&mut self, graph: &Graph, node: u32) -> Result<(), AllocError> {
        let seat = self.seat(node);
        if node == 0 || seat.part != Part::Outside {
            return Ok(());
        }
        self.nodes.push(node)?;
        let part = Part::Edge;
        write(&mut self.seats, node, Seat { part, ..seat });
        match node_at(graph, node) {
            Node::And(_, _) | Node::Xor(_, _) => {
                self.frontier.push(node, seat.height);
            }
            Node::Constant | Node::Input(_) => {}
        }
        Ok(())
    }

    /// Notes that a gate has this operand.
    fn link(&mut self, fanout: Fanout) -> Result<(), AllocError> {
        let node = node_of(fanout.own);
        let at = number(self.fanouts.len());
        let seat = self.seat(node);
        let next = seat.head;
        self.fanouts.push(Fanout { next, ..fanout })?;
        write(&mut self.seats, node, Seat { head: at, ..seat });
        Ok(())
    }

    /// Takes in a gate with its operands.
    fn take_in(
        &mut self,
        graph: &Graph,
        gate: u32,
        a: u32,
        b: u32,
        is_xor: bool,
    ) -> Result<(), AllocError> {
        self.enter(graph, node_of(a))?;
        self.enter(graph, node_of(b))?;
        let code = gate.wrapping_mul(4) | u32::from(is_xor);
        self.link(Fanout {
            code,
            own: a,
            other: b,
            next: NONE,
        })?;
        self.link(Fanout {
            code: code | 2,
            own: b,
            other: a,
            next: NONE,
        })?;
        self.gates = self.gates.saturating_add(1);
        self.seat_gate(gate)
    }

    /// Lets a node at the edge be a gate that is propagated, and gives it the next place if it is
    /// lower than the gates that have one.
    fn seat_gate(&mut self, gate: u32) -> Result<(), AllocError> {
        let part = Part::Gate;
        let seat = self.seat(gate);
        let rank = ranked(seat.height, gate);
        let place = if rank < self.last {
            self.last = rank;
            self.order.push(gate)?;
            let place = self.ordered;
            self.ordered = place.wrapping_add(1);
            place
        } else {
            NONE
        };
        write(
            &mut self.seats,
            gate,
            Seat {
                part,
                place,
                ..seat
            },
        );
        Ok(())
    }

    /// Takes the places of the nodes at the edge from them.
    fn disarrange(&mut self) {
        for place in self.ordered..number(self.order.len()) {
            let node = self.node_at(place);
            let seat = self.seat(node);
            write(
                &mut self.seats,
                node,
                Seat {
                    place: NONE,
                    ..seat
                },
            );
        }
        self.order.truncate(self.ordered as usize);
    }

    /// Gives the nodes at the edge places too, behind those of the gates: that pays in a long
    /// search.
    pub(crate) fn arrange(&mut self) -> Result<(), AllocError> {
        self.disarrange();
        self.is_arranged = true;
        self.edge.clear();
        for at in 0..self.nodes.len() {
            let node = read(&self.nodes, number(at), 0);
            let rank = self.ranked(node);
            if rank < self.last {
                self.edge.push(rank)?;
            }
        }
        self.edge.sort_unstable();
        for at in (0..number(self.edge.len())).rev() {
            let node = node_in(read(&self.edge, at, 0));
            let place = number(self.order.len());
            self.order.push(node)?;
            let seat = self.seat(node);
            write(&mut self.seats, node, Seat { place, ..seat });
        }
        Ok(())
    }

    /// Whether the nodes at the edge have places.
    pub(crate) fn is_arranged(&self) -> bool {
        self.is_arranged
    }

    /// Takes in the highest gates at the edge until there are so many.
    pub(crate) fn expand(&mut self, graph: &Graph, most: u32) -> Result<(), AllocError> {
        self.disarrange();
        self.take_in_highest(graph, most)?;
        if self.is_arranged {
            return self.arrange();
        }
        Ok(())
    }

    /// Takes in the highest gates at the edge until there are so many. None at the edge has a
    /// place.
    fn take_in_highest(&mut self, graph: &Graph, most: u32) -> Result<(), AllocError> {
        for _ in self.gates..most {
            let Some(gate) = self.frontier.pop()? else {
                return Ok(());
            };
            match node_at(graph, gate) {
                Node::And(a, b) => self.take_in(graph, gate, a, b, false)?,
                Node::Xor(a, b) => self.take_in(graph, gate, a, b, true)?,
                Node::Constant | Node::Input(_) => {}
            }
        }
        Ok(())
    }

    /// Whether there are gates at the edge.
    pub(crate) fn can_expand(&self) -> bool {
        !self.frontier.is_empty()
    }

    /// How many gates are propagated.
    pub(crate) fn gates(&self) -> u32 {
        self.gates
    }

    /// Forgets the question.
    pub(crate) fn clear(&mut self) {
        for at in 0..self.nodes.len() {
            let node = read(&self.nodes, number(at), 0);
            let height = self.height(node);
            write(&mut self.seats, node, Seat { height, ..NO_SEAT });
        }
        self.nodes.clear();
        self.fanouts.clear();
        self.frontier.clear();
        self.gates = 0;
        self.order.clear();
        self.ordered = 0;
        self.last = u64::MAX;
        self.is_arranged = false;
    }
}
