//! What a conflict teaches: a clause, and the hints that show it.
use crate::engine::{Engine, WORK_RESOLVED};
use crate::heights::{node_in, ranked};
use crate::learned::Learned;
use crate::reads::{NONE, lengthen, literal_of, node_at, number, read, write};
use crate::values::{Reason, Value, Values};
use eqc_rup::Hint;
use eqc_xag::{Graph, Literal, Node, negated_if, node_of};
use std::alloc::{AllocError, Global};

/// What is known of a conflict.
#[derive(Drop)]
pub(crate) struct Analysis {
    /// By node: whether it is among those that led to the conflict.
    seen: Vec<bool>,
    touched: Vec<u32>,
    /// The same by when they last were in a conflict, while they are put in that order.
    stamped: Vec<u64>,
    /// How many of them are of the last level and not resolved.
    open: u32,
    /// The clause that is learned, its first literal the one that becomes true.
    pub(crate) clause: Vec<Literal>,
    /// Why the resolved ones are true, the latest first.
    resolved: Vec<Reason>,
    /// The places of those that were left out since others of the clause imply them.
    implied: Vec<u32>,
    pub(crate) hints: Vec<Hint>,
    /// By level: the last count of levels in which it was met.
    counts: Vec<u32>,
    count: u32,
}

impl Analysis {
    pub(crate) fn new(alloc: Global) -> Analysis {
        Analysis {
            seen: Vec::new(alloc),
            touched: Vec::new(alloc),
            stamped: Vec::new(alloc),
            open: 0,
            clause: Vec::new(alloc),
            resolved: Vec::new(alloc),
            implied: Vec::new(alloc),
            hints: Vec::new(alloc),
            counts: Vec::new(alloc),
            count: 0,
        }
    }

    /// Makes room for so many nodes.
    pub(crate) fn grow(&mut self, nodes: u32) -> Result<(), AllocError> {
        lengthen(&mut self.seen, nodes, false)?;
        lengthen(&mut self.counts, nodes.saturating_add(1), 0)
    }

    /// Forgets what led to the conflict.
    pub(crate) fn clear(&mut self) {
        for at in 0..self.touched.len() {
            let node = self.touched[at];
            write(&mut self.seen, node, false);
        }
        self.touched.clear();
    }

    fn has_seen(&self, node: u32) -> bool {
        read(&self.seen, node, false)
    }

    /// Counts the levels of the clause's literals, but for the first level.
    fn count_levels(&mut self, values: &Values) -> u32 {
        self.count = self.count.wrapping_add(1);
        let mut levels: u32 = 0;
        for at in 0..self.clause.len() {
            let level = values.level_of(node_of(self.clause[at]));
            if level > 0 && read(&self.counts, level, self.count) != self.count {
                write(&mut self.counts, level, self.count);
                levels = levels.saturating_add(1);
            }
        }
        levels
    }

    /// Puts a literal of the highest level second, the first aside. Gives that level.
    fn second_level(&mut self, values: &Values) -> u32 {
        let mut level = 0;
        let mut place: u32 = 1;
        for at in 1..number(self.clause.len()) {
            let other = values.level_of(node_of(read(&self.clause, at, 0)));
            if other > level {
                level = other;
                place = at;
            }
        }
        let highest = read(&self.clause, place, 0);
        let second = read(&self.clause, 1, 0);
        write(&mut self.clause, 1, highest);
        write(&mut self.clause, place, second);
        level
    }

    /// Puts the hint of a reason behind the others.
    fn hint(&mut self, learned: &Learned, reason: Reason) -> Result<(), AllocError> {
        match reason {
            Reason::Decided => {}
            Reason::Gate { node, side } => self.hints.push(Hint::Gate { node, side })?,
            Reason::Learned(place) => self.hints.push(Hint::Clause(learned.number_of(place)))?,
        }
        Ok(())
    }

    /// The hints in the order in which what they show became true.
    fn order_hints(
        &mut self,
        values: &Values,
        learned: &Learned,
        conflict: Reason,
    ) -> Result<(), AllocError> {
        self.hints.clear();
        self.implied.sort_unstable();
        for at in 0..number(self.implied.len()) {
            let node = node_of(values.at(read(&self.implied, at, 0)));
            self.hint(learned, values.reason_of(node))?;
        }
        for at in (0..number(self.resolved.len())).rev() {
            let reason = read(&self.resolved, at, Reason::Decided);
            self.hint(learned, reason)?;
        }
        self.hint(learned, conflict)
    }
}

/// The literals of a gate's side, the last ones none where there are fewer than three.
fn side_of(graph: &Graph, node: u32, side: u32) -> [u32; 3] {
    let gate = literal_of(node, true);
    match node_at(graph, node) {
        Node::And(a, b) => match side {
            0 => [gate ^ 1, a, NONE],
            1 => [gate ^ 1, b, NONE],
            _ => [gate, a ^ 1, b ^ 1],
        },
        Node::Xor(a, b) => {
            let a_is_true = side % 2 == 1;
            let b_is_true = side / 2 == 1;
            [
                negated_if(gate, a_is_true == b_is_true),
                negated_if(a, a_is_true),
                negated_if(b, b_is_true),
            ]
        }
        Node::Constant | Node::Input(_) => [NONE, NONE, NONE],
    }
}

impl Engine {
    /// Takes a literal of a clause that is false into the conflict.
    fn take(&mut self, literal: Literal) -> Result<(), AllocError> {
        let node = node_of(literal);
        if node == 0 || literal == NONE || self.analysis.has_seen(node) {
            return Ok(());
        }
        self.analysis.touched.push(node)?;
        write(&mut self.analysis.seen, node, true);
        if !self.restarts.is_hard() {
            self.decisions.bump(node);
        }
        if self.values.level_of(node) == self.values.level() {
            self.analysis.open = self.analysis.open.saturating_add(1);
            return Ok(());
        }
        self.analysis.clause.push(literal)?;
        Ok(())
    }

    /// Takes the literals of a reason into the conflict, but for the one that it is the reason of,
    /// which is there.
    fn take_all(&mut self, graph: &Graph, reason: Reason) -> Result<(), AllocError> {
        match reason {
            Reason::Decided => {}
            Reason::Gate { node, side } => {
                let [first, second, third] = side_of(graph, node, side);
                self.take(first)?;
                self.take(second)?;
                self.take(third)?;
            }
            Reason::Learned(place) => {
                let (begin, end) = self.learned.bounds(place);
                for at in begin..end {
                    let literal = self.learned.literal(at);
                    self.take(literal)?;
                }
            }
        }
        Ok(())
    }

    /// Resolves a clause that is false with the reasons of its literals of the last level, the
    /// latest first, until so many are open. Gives the latest of these.
    fn resolve(&mut self, graph: &Graph, conflict: Reason, left: u32) -> Result<u32, AllocError> {
        self.analysis.clear();
        self.analysis.open = 0;
        self.analysis.clause.clear();
        self.analysis.resolved.clear();
        self.analysis.implied.clear();
        self.analysis.clause.push(NONE)?;
        self.take_all(graph, conflict)?;
        for place in (0..self.values.len()).rev() {
            let literal = self.values.at(place);
            let node = node_of(literal);
            if !self.analysis.has_seen(node) {
                continue;
            }
            if self.analysis.open <= left {
                return Ok(literal);
            }
            self.analysis.open = self.analysis.open.saturating_sub(1);
            let reason = self.values.reason_of(node);
            self.analysis.resolved.push(reason)?;
            self.take_all(graph, reason)?;
        }
        Ok(NONE)
    }

    /// Whether all other literals of a reason are in the conflict, so that those imply the one of
    /// this node.
    fn is_implied(&self, graph: &Graph, node: u32, reason: Reason) -> bool {
        match reason {
            Reason::Decided => false,
            Reason::Gate { node: gate, side } => {
                let [first, second, third] = side_of(graph, gate, side);
                self.is_taken(node, first)
                    && self.is_taken(node, second)
                    && self.is_taken(node, third)
            }
            Reason::Learned(place) => {
                let (begin, end) = self.learned.bounds(place);
                for at in begin..end {
                    if !self.is_taken(node, self.learned.literal(at)) {
                        return false;
                    }
                }
                true
            }
        }
    }

    /// Whether a literal is of this node, of the constant, or in the conflict.
    fn is_taken(&self, node: u32, literal: Literal) -> bool {
        let other = node_of(literal);
        other == node || other == 0 || literal == NONE || self.analysis.has_seen(other)
    }

    /// Leaves out the literals of the clause that others imply.
    fn minimize(&mut self, graph: &Graph) -> Result<(), AllocError> {
        let mut kept: u32 = 1;
        for at in 1..number(self.analysis.clause.len()) {
            let literal = read(&self.analysis.clause, at, 0);
            let node = node_of(literal);
            if self.is_implied(graph, node, self.values.reason_of(node)) {
                self.analysis.implied.push(self.values.place_of(node))?;
            } else {
                write(&mut self.analysis.clause, kept, literal);
                kept = kept.wrapping_add(1);
            }
        }
        self.analysis.clause.truncate(kept as usize);
        Ok(())
    }

    /// Notes that the nodes that led to the conflict were in one, in the order in which they last
    /// were.
    fn bump_in_order(&mut self) -> Result<(), AllocError> {
        self.analysis.stamped.clear();
        for at in 0..number(self.analysis.touched.len()) {
            let node = read(&self.analysis.touched, at, 0);
            let stamped = ranked(self.decisions.stamp(node), node);
            self.analysis.stamped.push(stamped)?;
        }
        self.analysis.stamped.sort_unstable();
        for at in 0..number(self.analysis.stamped.len()) {
            let stamped = read(&self.analysis.stamped, at, 0);
            self.decisions.bump(node_in(stamped));
        }
        Ok(())
    }

    /// Learns from a clause that is false while decisions hold: `analysis` has the clause and its
    /// hints afterwards. Gives the level to go back to, and the number of levels of the clause.
    pub(crate) fn analyze(
        &mut self,
        graph: &Graph,
        conflict: Reason,
    ) -> Result<(u32, u32), AllocError> {
        let last = self.resolve(graph, conflict, 1)?;
        if self.restarts.is_hard() {
            self.bump_in_order()?;
        }
        write(&mut self.analysis.clause, 0, last ^ 1);
        self.minimize(graph)?;
        self.analysis
            .order_hints(&self.values, &self.learned, conflict)?;
        let touched = number(self.analysis.touched.len());
        self.count_work(touched, WORK_RESOLVED);
        self.analysis.clear();
        let glue = self.analysis.count_levels(&self.values);
        Ok((self.analysis.second_level(&self.values), glue))
    }

    /// Finds the hints that show that the assumptions can't be true together, from a clause that is
    /// false while no decision holds.
    pub(crate) fn explain(&mut self, graph: &Graph, conflict: Reason) -> Result<(), AllocError> {
        self.resolve(graph, conflict, 0)?;
        self.analysis
            .order_hints(&self.values, &self.learned, conflict)?;
        self.analysis.clear();
        Ok(())
    }

    /// Goes back to a level, and makes true there the first literal of the clause that was learned.
    pub(crate) fn assert_learned(
        &mut self,
        level: u32,
        glue: u32,
        in_store: u32,
    ) -> Result<(), AllocError> {
        self.back_to(level);
        let place = self
            .learned
            .add(self.analysis.clause.as_slice(), glue, in_store)?;
        let literal = read(&self.analysis.clause, 0, 0);
        if self.values.value(literal) == Value::Free {
            self.values.assign(literal, Reason::Learned(place));
        }
        Ok(())
    }
}
