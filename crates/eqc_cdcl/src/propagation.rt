//! What follows from the values there are: along the gates of the window, and along the learned
//! clauses.
use crate::engine::Engine;
use crate::reads::{NONE, literal_of, node_at};
use crate::values::{Reason, Value};
use crate::window::Fanout;
use eqc_xag::{Graph, Literal, Node, negated_if, node_of};

/// What becomes of a clause, one of whose watched literals is false.
enum Watched {
    Kept,
    /// Another literal is watched instead.
    Moved { to: u32, blocker: Literal },
    Conflict,
}

/// The side of an exclusive or that forbids these values of its operands.
fn xor_side(a: bool, b: bool) -> u32 {
    match (a, b) {
        (false, false) => 0,
        (true, false) => 1,
        (false, true) => 2,
        (true, true) => 3,
    }
}

impl Engine {
    /// Makes true what follows. Gives a clause that is false, if there is one.
    pub(crate) fn propagate(&mut self, graph: &Graph) -> Option<Reason> {
        for _ in 0..u32::MAX {
            let literal = self.values.next()?;
            let conflict = self.propagate_literal(graph, literal);
            if conflict.is_some() {
                return conflict;
            }
        }
        None
    }

    /// Makes true what learned clauses of one literal say. Gives one that is false, if there is
    /// one.
    pub(crate) fn assert_units(&mut self) -> Option<Reason> {
        for place in 0..self.learned.len() {
            if let Some(literal) = self.learned.unit(place) {
                let conflict = self.imply(literal, Reason::Learned(place));
                if conflict.is_some() {
                    return conflict;
                }
            }
        }
        None
    }

    /// Makes true what follows from one literal.
    fn propagate_literal(&mut self, graph: &Graph, literal: Literal) -> Option<Reason> {
        let node = node_of(literal);
        if self.window.is_gate(node) {
            let conflict = self.visit_gate(graph, node, literal);
            if conflict.is_some() {
                return conflict;
            }
        }
        let conflict = self.visit_fanouts(node, literal);
        if conflict.is_some() {
            return conflict;
        }
        self.visit_watches(literal ^ 1)
    }

    /// Makes a literal true for this reason. Gives the reason if the literal is false.
    #[inline(always)]
    fn imply(&mut self, literal: Literal, reason: Reason) -> Option<Reason> {
        match self.values.value(literal) {
            Value::True => None,
            Value::False => Some(reason),
            Value::Free => {
                self.values.assign(literal, reason);
                None
            }
        }
    }

    /// Lets the operands of a gate that has got a value be decided, and makes true what follows for
    /// them.
    fn visit_gate(&mut self, graph: &Graph, node: u32, literal: Literal) -> Option<Reason> {
        self.visit();
        match node_at(graph, node) {
            Node::And(a, b) => {
                self.offer_each(a, b);
                if literal == literal_of(node, true) {
                    let conflict = self.imply(a, Reason::Gate { node, side: 0 });
                    if conflict.is_some() {
                        return conflict;
                    }
                    return self.imply(b, Reason::Gate { node, side: 1 });
                }
                self.visit_false_and(node, a, b)
            }
            Node::Xor(a, b) => {
                self.offer_each(a, b);
                self.offer_both(a, b);
                self.visit_xor(node, a, b)
            }
            Node::Constant | Node::Input(_) => None,
        }
    }

    /// Makes true what follows for the operands of an and that is false. Where one of them is
    /// false, nothing does, and the other one needs no value.
    fn visit_false_and(&mut self, node: u32, a: u32, b: u32) -> Option<Reason> {
        let reason = Reason::Gate { node, side: 2 };
        if self.values.value(a) == Value::True {
            return self.imply(b ^ 1, reason);
        }
        if self.values.value(b) == Value::True {
            return self.imply(a ^ 1, reason);
        }
        self.offer_both(a, b);
        None
    }

    /// Lets the node of each of two literals be decided that is free, where all operands are
    /// decided.
    #[inline(always)]
    fn offer_each(&mut self, a: u32, b: u32) {
        if self.decides_all() {
            self.offer(a);
            self.offer(b);
        }
    }

    /// Lets the node of a literal be decided if it is free.
    #[inline(always)]
    fn offer(&mut self, literal: Literal) {
        if self.values.value(literal) == Value::Free {
            self.decisions.insert(node_of(literal), &self.window);
        }
    }

    /// Lets the nodes of two literals be decided if both are free. Where one has a value, the other
    /// follows, or doesn't matter.
    #[inline(always)]
    fn offer_both(&mut self, a: u32, b: u32) {
        if self.values.value(a) == Value::Free && self.values.value(b) == Value::Free {
            self.decisions.insert(node_of(a), &self.window);
            self.decisions.insert(node_of(b), &self.window);
        }
    }

    /// Whether a gate that has a value has it from no operand yet, where this node, which is free,
    /// is one of them.
    pub(crate) fn is_needed(&mut self, node: u32) -> bool {
        let mut at = self.window.first_fanout(node);
        for _ in 0..self.window.fanouts() {
            if at == NONE {
                return false;
            }
            self.visit();
            let fanout = self.window.fanout(at);
            let gate = literal_of(fanout.gate(), true);
            if self.values.value(gate) != Value::Free
                && self.values.value(fanout.other) == Value::Free
            {
                return true;
            }
            at = fanout.next;
        }
        false
    }

    /// Makes true what follows for an exclusive or, where one of three values is missing.
    fn visit_xor(&mut self, node: u32, a: u32, b: u32) -> Option<Reason> {
        let gate = literal_of(node, true);
        let of_gate = self.values.value(gate);
        let of_a = self.values.value(a);
        let of_b = self.values.value(b);
        let a_is_true = of_a == Value::True;
        let b_is_true = of_b == Value::True;
        let is_true = of_gate == Value::True;
        match (of_gate, of_a, of_b) {
            (Value::Free, Value::Free, _)
            | (Value::Free, _, Value::Free)
            | (_, Value::Free, Value::Free) => None,
            (Value::Free, _, _) => {
                let side = xor_side(a_is_true, b_is_true);
                self.imply(
                    literal_of(node, a_is_true != b_is_true),
                    Reason::Gate { node, side },
                )
            }
            (_, Value::Free, _) => {
                let becomes = is_true != b_is_true;
                let side = xor_side(!becomes, b_is_true);
                self.imply(negated_if(a, !becomes), Reason::Gate { node, side })
            }
            (_, _, Value::Free) => {
                let becomes = is_true != a_is_true;
                let side = xor_side(a_is_true, !becomes);
                self.imply(negated_if(b, !becomes), Reason::Gate { node, side })
            }
            _ => {
                let side = xor_side(a_is_true, b_is_true);
                let is_wrong = is_true == (a_is_true == b_is_true);
                is_wrong.then_some(Reason::Gate { node, side })
            }
        }
    }

    /// Makes true what follows for the gates of which a node is an operand, now that a literal of
    /// it is true.
    fn visit_fanouts(&mut self, node: u32, literal: Literal) -> Option<Reason> {
        let mut at = self.window.first_fanout(node);
        for _ in 0..self.window.fanouts() {
            if at == NONE {
                return None;
            }
            self.visit();
            let fanout = self.window.fanout(at);
            let conflict = if fanout.is_xor() {
                self.visit_xor_of(fanout)
            } else {
                self.visit_and_of(fanout, literal)
            };
            if conflict.is_some() {
                return conflict;
            }
            at = fanout.next;
        }
        None
    }

    fn visit_xor_of(&mut self, fanout: Fanout) -> Option<Reason> {
        if fanout.side() == 0 {
            self.visit_xor(fanout.gate(), fanout.own, fanout.other)
        } else {
            self.visit_xor(fanout.gate(), fanout.other, fanout.own)
        }
    }

    /// Makes true what follows for an and, of whose operand a literal is true.
    #[inline(always)]
    fn visit_and_of(&mut self, fanout: Fanout, literal: Literal) -> Option<Reason> {
        let node = fanout.gate();
        let gate = literal_of(node, true);
        if fanout.own != literal {
            let side = fanout.side();
            return self.imply(gate ^ 1, Reason::Gate { node, side });
        }
        let reason = Reason::Gate { node, side: 2 };
        match self.values.value(fanout.other) {
            Value::True => self.imply(gate, reason),
            Value::Free if self.values.value(gate) == Value::False => {
                self.values.assign(fanout.other ^ 1, reason);
                None
            }
            Value::Free | Value::False => None,
        }
    }

    /// Makes true what follows for the learned clauses that watch a literal, which is false now.
    fn visit_watches(&mut self, falsified: Literal) -> Option<Reason> {
        let mut previous = NONE;
        let mut at = self.learned.first_watch(falsified);
        for _ in 0..self.learned.watches() {
            if at == NONE {
                return None;
            }
            self.visit();
            let watch = self.learned.watch(at);
            if self.values.value(watch.blocker) == Value::True {
                previous = at;
                at = watch.next;
                continue;
            }
            match self.visit_clause(at) {
                Watched::Kept => previous = at,
                Watched::Moved { to, blocker } => {
                    self.learned.unlink(falsified, previous, at);
                    self.learned.link(to, at, blocker);
                }
                Watched::Conflict => return Some(Reason::Learned(at / 2)),
            }
            at = watch.next;
        }
        None
    }

    /// Finds another literal for a watch of a clause, whose literal is false, or makes true the one
    /// that is left.
    fn visit_clause(&mut self, watch: u32) -> Watched {
        let place = watch / 2;
        let (begin, end) = self.learned.bounds(place);
        let own = begin.wrapping_add(watch % 2);
        let other = self.learned.literal(begin.wrapping_add(1 - watch % 2));
        let value = self.values.value(other);
        if value == Value::True {
            self.learned.set_blocker(watch, other);
            return Watched::Kept;
        }
        for at in begin.wrapping_add(2)..end {
            self.visit();
            let literal = self.learned.literal(at);
            if self.values.value(literal) != Value::False {
                self.learned.swap(own, at);
                return Watched::Moved {
                    to: literal,
                    blocker: other,
                };
            }
        }
        if value == Value::False {
            return Watched::Conflict;
        }
        self.values.assign(other, Reason::Learned(place));
        Watched::Kept
    }
}
