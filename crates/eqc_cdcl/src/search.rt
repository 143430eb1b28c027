//! The question whether assumptions can be true together.
ghost use Rattle.std.specs.Prelude.{◌≡◌, IfOk, IsTrue, List};
ghost use Rattle.eqc_xag.specs.declared.node.Node.{Node};
ghost use Rattle.eqc_rup.specs.Clauses.{IsSound, IsRefuted};

use crate::contradiction::contradict;
use crate::engine::Engine;
use crate::values::Reason;
use eqc_rup::{Clauses, Marks};
use eqc_xag::{Graph, Literal};
use std::alloc::{AllocError, Global};
use std::marker::Model;

/// What a search found.
#[derive(Clone, Copy, PartialEq, Eq, Debug)]
pub enum Answer {
    /// Whatever the values of the variables, one of the assumptions is false.
    Refuted,
    /// An assignment was found under which all seem to be true. It wasn't checked.
    Satisfied,
    /// The budget is used up.
    GaveUp,
}

impl Answer {
    /// That the assumptions are refuted, where that is shown.
    fn refuted_where(is_shown: bool) -> Answer
        ensures { result ≡ Answer.Refuted → IsTrue is_shown }
    {
        if is_shown {
            Answer::Refuted
        } else {
            Answer::GaveUp
        }
    }
}

/// Which nodes a question decides. A gate waits for its operands where it has a value that none of
/// them gives it yet.
#[derive(Clone, Copy, PartialEq, Eq, Debug)]
pub enum Decides {
    /// All operands of gates that have a value, and all nodes that were in a conflict. The question
    /// is satisfied once all gates below it have their values from their operands.
    All,
    /// Operands that a gate waits for, and all nodes that were in a conflict. It is satisfied once
    /// no gate waits.
    NeededAndMet,
    /// Operands that a gate waits for alone.
    Needed,
}

/// What a search may spend. What was spent is taken away.
#[derive(Clone, Copy, PartialEq, Eq, Debug)]
pub struct Budget {
    /// Conflicts from which something is learned.
    pub conflicts: u64,
    /// Literals visited, of gates and of learned clauses.
    pub visits: u64,
    /// What takes time, one for each literal visited, and as much more as the rest takes: to lay
    /// out windows, to order decisions and to learn from conflicts.
    pub work: u64,
    /// How many times as many gates a window may have each time that it is made larger: two at
    /// least.
    pub growth: u32,
    /// From so many conflicts on, the nodes of each are noted in the order in which they last were
    /// in one, and before that as they are met.
    pub ordered_from: u64,
    pub decides: Decides,
}

/// A search, with the memory that it needs for graphs of the largest size that it met. Contracts
/// see the clauses that it learned.
pub struct Search {
    engine: Engine,
    store: Clauses,
    marks: Marks,
    model: Vec<(u32, bool)>,
}

impl Model for Search {
    ghost use Rattle.std.specs.Prelude.{ℕ, List};

    ghost Value = { List (List ℕ) };

    ghost view = { λ s. s.store };
}

/// It stands here for the sake of proofs: where a search is let go there is a call in place of all
/// its parts.
impl Drop for Search {
    fn drop(self) {
        let Search {
            engine: _,
            store: _,
            marks: _,
            model: _,
        } = self;
    }
}

impl Search {
    /// A search that has met no graph.
    pub fn new(alloc: Global) -> Search
        ensures { (nodes : List Node) → IsSound nodes result }
    {
        Search {
            engine: Engine::new(alloc),
            store: Clauses::new(alloc),
            marks: Marks::new(alloc),
            model: Vec::new(alloc),
        }
    }

    /// The values of inputs' nodes under the assignment that the last question found, if it was
    /// answered by one. What has no value here may have any. Nothing is promised of it.
    pub fn model(&self) -> &[(u32, bool)] {
        self.model.as_slice()
    }

    /// Lets decisions on a node begin with this value in each question, until the search has given
    /// it another one. The node may be one that comes next in a graph. Fails where memory is
    /// refused.
    pub fn prefer(&mut self, node: u32, value: bool) -> Result<(), AllocError>
        ensures { self.new ≡ self.old }
    {
        self.engine.decisions.set_first_phase(node, value)
    }

    /// Answers whether the assumptions, literals of the graph, can be true together, unless the
    /// budget is used up before. Fails where memory is refused.
    pub fn ask(
        &mut self,
        graph: &Graph,
        assumptions: &[Literal],
        budget: &mut Budget,
    ) -> Result<Answer, AllocError>
        ensures answer { IfOk result (λ answer. answer ≡ Answer.Refuted → IsRefuted graph.now assumptions.now) }
        ensures sound { IsSound graph.now self.new }
    {
        self.store.clear();
        self.engine.forget();
        self.ask_again(graph, assumptions, budget)
    }

    /// Answers the same, with what was learned from earlier questions about the graph. So many
    /// questions that are like one another cost less together. Fails where memory is refused.
    pub fn ask_again(
        &mut self,
        graph: &Graph,
        assumptions: &[Literal],
        budget: &mut Budget,
    ) -> Result<Answer, AllocError>
        requires { IsSound graph.now self.old }
        ensures answer { IfOk result (λ answer. answer ≡ Answer.Refuted → IsRefuted graph.now assumptions.now) }
        ensures sound { IsSound graph.now self.new }
    {
        self.model.clear();
        let answer = self.run(graph, assumptions, budget);
        self.engine.charge(budget);
        self.engine.finish();
        answer
    }

    /// Searches from one conflict to the next.
    fn run(
        &mut self,
        graph: &Graph,
        assumptions: &[Literal],
        budget: &mut Budget,
    ) -> Result<Answer, AllocError>
        requires { IsSound graph.now self.old }
        ensures answer { IfOk result (λ answer. answer ≡ Answer.Refuted → IsRefuted graph.now assumptions.now) }
        ensures sound { IsSound graph.now self.new }
    {
        if let Some(l) = self.engine.begin(graph, assumptions, budget)? {
            let is_shown = contradict(graph, assumptions, l);
            return Ok(Answer::refuted_where(is_shown));
        }
        if let Some(conflict) = self.engine.assert_units() {
            self.engine.explain(graph, conflict)?;
            return self.close(graph, assumptions);
        }
        'rounds: for _ in 0..u32::MAX {
            match self.engine.propagate(graph) {
                Some(conflict) => {
                    if self.engine.values.level() == 0 {
                        self.engine.explain(graph, conflict)?;
                        return self.close(graph, assumptions);
                    }
                    if budget.conflicts == 0 || !self.learn(graph, conflict)? {
                        return Ok(Answer::GaveUp);
                    }
                    budget.conflicts -= 1;
                }
                None => {
                    if !self.go_on(graph)? {
                        return Ok(Answer::Satisfied);
                    }
                }
            }
            self.engine.charge(budget);
            if budget.visits == 0 || budget.work == 0 {
                return Ok(Answer::GaveUp);
            }
        }
        Ok(Answer::GaveUp)
    }

    /// Learns from a conflict, and goes on from there. Says whether the hints showed the clause.
    fn learn(&mut self, graph: &Graph, conflict: Reason) -> Result<bool, AllocError>
        requires { IsSound graph.now self.old }
        ensures { IsSound graph.now self.new }
    {
        let (level, glue) = self.engine.analyze(graph, conflict)?;
        let analysis = &self.engine.analysis;
        let learned = self.store.learn(
            graph,
            analysis.clause.as_slice(),
            analysis.hints.as_slice(),
            &mut self.marks,
        )?;
        let Some(number) = learned else {
            return Ok(false);
        };
        self.engine.restarts.count_conflict();
        self.engine.assert_learned(level, glue, number)?;
        Ok(true)
    }

    /// Goes on where there is no conflict. Says whether there was something to do; if not, the
    /// model is read.
    fn go_on(&mut self, graph: &Graph) -> Result<bool, AllocError>
        requires { IsSound graph.now self.old }
        ensures { IsSound graph.now self.new }
    {
        if !self.engine.go_on(graph)? {
            self.engine.read_model(graph, &mut self.model)?;
            return Ok(false);
        }
        'dropped: for _ in 0..u32::MAX {
            let Some(number) = self.engine.learned.next_dropped() else {
                return Ok(true);
            };
            self.store.give_up(number);
        }
        Ok(true)
    }

    /// Lets the store confirm that the assumptions can't be true together.
    fn close(&mut self, graph: &Graph, assumptions: &[Literal]) -> Result<Answer, AllocError>
        requires { IsSound graph.now self.old }
        ensures answer { IfOk result (λ answer. answer ≡ Answer.Refuted → IsRefuted graph.now assumptions.now) }
        ensures sound { IsSound graph.now self.new }
    {
        let hints = self.engine.analysis.hints.as_slice();
        let is_shown = self
            .store
            .refutes(graph, assumptions, hints, &mut self.marks)?;
        Ok(Answer::refuted_where(is_shown))
    }
}
