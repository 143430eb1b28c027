//! The state of a search.
use crate::conflict::Analysis;
use crate::decisions::Decisions;
use crate::learned::Learned;
use crate::reads::{is_gate, literal_of, node_at};
use crate::restarts::Restarts;
use crate::search::{Budget, Decides};
use crate::values::{Reason, Value, Values};
use crate::window::Window;
use eqc_xag::{Graph, Literal, Node, node_of};
use std::alloc::{AllocError, Global};

/// So many gates are in the first window. To lay out a window takes as long as most refutations, so
/// the first one is small.
const FIRST_WINDOW: u32 = 20;

/// A window that is made larger has at least so many times as many gates.
const LEAST_GROWTH: u32 = 2;

/// To take a gate into the window counts as so many visits.
const TAKEN_IN: u64 = 4;

/// The work that isn't among visits: to take a gate into the window, to free a literal that may be
/// decided again, and to resolve a conflict with a literal.
const WORK_TAKEN_IN: u64 = 12;

const WORK_FREED: u64 = 4;

pub(crate) const WORK_RESOLVED: u64 = 4;

/// All that a search keeps of a question, and of earlier ones to begin with. Where they are about
/// one graph, the window and the learned clauses stay too.
#[derive(Drop)]
pub(crate) struct Engine {
    pub(crate) values: Values,
    pub(crate) decisions: Decisions,
    pub(crate) window: Window,
    pub(crate) learned: Learned,
    pub(crate) restarts: Restarts,
    pub(crate) analysis: Analysis,
    /// The literals visited that aren't charged yet, and the work besides.
    pub(crate) visits: u64,
    work: u64,
    /// So many gates the window may have, and so many times as many when it is made larger.
    aim: u32,
    growth: u32,
    decides: Decides,
}

impl Engine {
    pub(crate) fn new(alloc: Global) -> Engine {
        Engine {
            values: Values::new(alloc),
            decisions: Decisions::new(alloc),
            window: Window::new(alloc),
            learned: Learned::new(alloc),
            restarts: Restarts::new(),
            analysis: Analysis::new(alloc),
            visits: 0,
            work: 0,
            aim: FIRST_WINDOW,
            growth: LEAST_GROWTH,
            decides: Decides::All,
        }
    }

    /// Makes room for the nodes of a graph.
    fn grow(&mut self, graph: &Graph) -> Result<(), AllocError> {
        let nodes = graph.len();
        self.values.grow(nodes)?;
        self.decisions.grow(nodes)?;
        self.window.grow(graph)?;
        self.learned.grow(nodes)?;
        self.analysis.grow(nodes)
    }

    #[inline(always)]
    pub(crate) fn visit(&mut self) {
        self.visits = self.visits.wrapping_add(1);
    }

    /// Counts work that is done so many times.
    pub(crate) fn count_work(&mut self, times: u32, each: u64) {
        self.work = self.work.wrapping_add(u64::from(times).wrapping_mul(each));
    }

    /// Takes the visits and the work from what may be spent.
    pub(crate) fn charge(&mut self, left: &mut Budget) {
        let work = self.visits.saturating_add(self.work);
        left.visits = left.visits.saturating_sub(self.visits);
        left.work = left.work.saturating_sub(work);
        self.visits = 0;
        self.work = 0;
    }

    /// Makes the window so large, as far as there are gates.
    fn expand(&mut self, graph: &Graph, most: u32) -> Result<(), AllocError> {
        let before = self.window.gates();
        self.aim = most;
        self.decisions.loosen(&self.window);
        self.window.expand(graph, most)?;
        self.decisions.settle(&self.window);
        let more = self.window.gates().saturating_sub(before);
        self.visits = self.visits.wrapping_add(u64::from(more) * TAKEN_IN);
        self.count_work(more, WORK_TAKEN_IN);
        Ok(())
    }

    /// Puts the nodes at the window's edge in order.
    fn arrange(&mut self) -> Result<(), AllocError> {
        self.decisions.loosen(&self.window);
        self.window.arrange()?;
        self.decisions.settle(&self.window);
        Ok(())
    }

    /// Begins a question. Gives an assumption that is false because of another one or by itself, if
    /// there is one.
    pub(crate) fn begin(
        &mut self,
        graph: &Graph,
        assumptions: &[Literal],
        budget: &Budget,
    ) -> Result<Option<u32>, AllocError> {
        self.grow(graph)?;
        self.restarts = self.restarts.again(budget.ordered_from);
        self.growth = budget.growth.max(LEAST_GROWTH);
        self.decides = budget.decides;
        for literal in assumptions {
            self.window.enter(graph, node_of(*literal))?;
        }
        self.expand(graph, self.aim)?;
        for literal in assumptions {
            match self.values.value(*literal) {
                Value::True => {}
                Value::False => return Ok(Some(*literal)),
                Value::Free => self.values.assign(*literal, Reason::Decided),
            }
        }
        Ok(None)
    }

    /// Takes back the last value. The next decision on its node, which is given, begins with it.
    fn take_back(&mut self) -> u32 {
        let literal = self.values.take_back();
        let node = node_of(literal);
        self.decisions
            .set_phase(node, literal == literal_of(node, true));
        node
    }

    /// Takes back all values of higher levels.
    pub(crate) fn back_to(&mut self, level: u32) {
        let start = self.values.start_above(level);
        let freed = self.values.len().saturating_sub(start);
        for _ in 0..freed {
            let node = self.take_back();
            self.decisions.insert(node, &self.window);
        }
        self.count_work(freed, WORK_FREED);
        self.values.end_above(level);
    }

    /// Whether a node is free, and one of those that the question decides.
    fn may_be_decided(&mut self, node: u32) -> bool {
        if self.values.value(literal_of(node, true)) != Value::Free {
            return false;
        }
        match self.decides {
            Decides::All => true,
            Decides::NeededAndMet => self.decisions.stamp(node) > 0 || self.is_needed(node),
            Decides::Needed => self.is_needed(node),
        }
    }

    /// The node to be decided next, if there is one.
    fn next_decision(&mut self) -> Option<u32> {
        for _ in 0..u32::MAX {
            let node = self.decisions.pop(&self.window)?;
            if self.may_be_decided(node) {
                return Some(node);
            }
        }
        None
    }

    /// Whether operands are decided also where a gate doesn't wait for them.
    #[inline(always)]
    pub(crate) fn decides_all(&self) -> bool {
        matches!(self.decides, Decides::All)
    }

    /// Whether a gate that isn't in the window has a value.
    fn is_open(&self, graph: &Graph) -> bool {
        for place in 0..self.values.len() {
            let node = node_of(self.values.at(place));
            if !self.window.is_gate(node) && is_gate(graph, node) {
                return true;
            }
        }
        false
    }

    /// Takes back all decisions, and drops learned clauses if there are too many.
    fn restart(&mut self) -> Result<(), AllocError> {
        self.back_to(0);
        if !self.window.is_arranged() {
            self.arrange()?;
        }
        if self.learned.len() > self.restarts.limit() {
            self.learned.reduce(&mut self.values)?;
            self.values.propagate_anew();
        }
        self.restarts.restart();
        Ok(())
    }

    /// Goes on where all that follows is there: a restart, a decision, or a larger window. Says
    /// whether there was something to do. If not, all gates that have a value have it from their
    /// operands, and so from inputs that have one.
    pub(crate) fn go_on(&mut self, graph: &Graph) -> Result<bool, AllocError> {
        if self.restarts.is_due() {
            self.restart()?;
            return Ok(true);
        }
        if let Some(node) = self.next_decision() {
            let literal = literal_of(node, self.decisions.phase(node));
            self.values.decide(literal)?;
            return Ok(true);
        }
        if !self.window.can_expand() || !(self.decides_all() || self.is_open(graph)) {
            return Ok(false);
        }
        self.back_to(0);
        self.expand(graph, self.aim.saturating_mul(self.growth))?;
        self.values.propagate_anew();
        Ok(true)
    }

    /// Puts the values of the inputs that have one into a row.
    pub(crate) fn read_model(
        &self,
        graph: &Graph,
        model: &mut Vec<(u32, bool)>,
    ) -> Result<(), AllocError> {
        for node in self.window.nodes() {
            if let Node::Input(_) = node_at(graph, *node) {
                match self.values.value(literal_of(*node, true)) {
                    Value::True => model.push((*node, true))?,
                    Value::False => model.push((*node, false))?,
                    Value::Free => {}
                }
            }
        }
        Ok(())
    }

    /// Takes back all values of a question.
    pub(crate) fn finish(&mut self) {
        for _ in self.values.start_above(0)..self.values.len() {
            self.take_back();
        }
        for _ in 0..self.values.len() {
            self.values.take_back();
        }
        self.values.end_above(0);
        self.values.propagate_anew();
        self.decisions.clear(&self.window);
        self.analysis.clear();
    }

    /// Forgets the window, and what was learned, since the next question is about another graph.
    /// What is answered doesn't depend on what was asked before, so that it doesn't matter which of
    /// several searches is asked.
    pub(crate) fn forget(&mut self) {
        self.learned.clear();
        self.restarts = Restarts::new();
        self.decisions.forget(self.window.nodes());
        self.window.clear();
        self.aim = FIRST_WINDOW;
    }
}
