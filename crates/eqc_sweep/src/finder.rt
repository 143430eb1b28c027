//! Older nodes that a new one equals: simulation says which may, and the search is asked.
ghost use Rattle.std.specs.Prelude.{◌≡◌, ◌/◌, ◌<◌, IfOk, IfSome};
ghost use Rattle.eqc_xag.specs.Graph.{IsWithin};
ghost use Rattle.eqc_sweep.specs.Finding.{AreEqual, IsOlder, AreNever, IsRight};

pub(crate) mod account;
pub(crate) mod carries;
pub(crate) mod classes;
pub(crate) mod comparison;
pub(crate) mod counterexamples;
pub(crate) mod hard;
pub(crate) mod patterns;
pub(crate) mod random;
pub(crate) mod team;
pub(crate) mod twins;
pub(crate) mod waiting;
pub(crate) mod words;

use crate::effort::{Effort, Tally};
use crate::finder::account::{Account, MOST_DOUBT, budget_of, conflicts_left};
use crate::finder::classes::Classes;
use crate::finder::comparison::Comparison;
use crate::finder::counterexamples::{Counterexamples, ROOM};
use crate::finder::patterns::Patterns;
use crate::finder::team::copied;
use crate::finder::waiting::{Waiting, team_of};
use eqc_cdcl::{Answer, Budget, Search};
use eqc_xag::{Graph, Literal, Node, negated, negated_if, node_of};
use std::alloc::{AllocError, Global};

/// How many older nodes a new one is asked against.
pub(crate) const CANDIDATES: usize = 3;

/// In so many rows one input has another value than in a counterexample.
const FLIPPED: usize = 4;

/// How many rows of uneven values are simulated where it is asked again.
const MORE_ROWS: usize = 16;

/// What is known of the nodes by simulation, and the search.
pub(crate) struct Finder {
    alloc: Global,
    effort: Effort,
    patterns: Patterns,
    classes: Classes,
    counterexamples: Counterexamples,
    account: Account,
    search: Search,
    /// The inputs' nodes and variables.
    inputs: Vec<(u32, u32)>,
    /// For each node how many questions were given up on a way below it: where nodes that are equal
    /// weren't found to be, those above them are harder to find.
    doubts: Vec<u8>,
    /// Whether new nodes wait until all that wait are asked about, those that do, and who asks
    /// then.
    waits: bool,
    waiting: Vec<Waiting>,
    searches: Vec<Search>,
}

/// It stands here for the sake of proofs, as that of a search.
impl Drop for Finder {
    fn drop(self) {
        let Finder {
            alloc: _,
            effort: _,
            patterns: _,
            classes: _,
            counterexamples: _,
            account: _,
            search: _,
            inputs: _,
            doubts: _,
            waits: _,
            waiting: _,
            searches: _,
        } = self;
    }
}

/// Asks whether two literals differ: either may be true where the other is false. The second
/// question looks at the window of the first, and has what was learned there: both need the same
/// gates.
pub(crate) fn ask_both(
    search: &mut Search,
    graph: &Graph,
    x: Literal,
    y: Literal,
    budget: &mut Budget,
) -> Result<Answer, AllocError>
    ensures { IfOk result (λ answer. answer ≡ Answer.Refuted → AreEqual graph.now x y) }
{
    let not_x = negated(x);
    let not_y = negated(y);
    let first = search.ask(graph, &[x, not_y], budget)?;
    match first {
        Answer::Satisfied => return Ok(Answer::Satisfied),
        Answer::GaveUp => return Ok(Answer::GaveUp),
        Answer::Refuted => {}
    }
    let answer = search.ask_again(graph, &[not_x, y], budget)?;
    Ok(answer)
}

impl Finder {
    pub(crate) fn new(alloc: Global, effort: Effort) -> Result<Finder, AllocError> {
        Finder::by(alloc, effort, Patterns::new(alloc, effort.has_many_inputs)?)
    }

    /// One for another graph whose inputs are those of this one, in the same order: it simulates
    /// the same patterns, if this one does.
    pub(crate) fn again(&self, effort: Effort) -> Result<Finder, AllocError> {
        if !self.effort.simulates {
            return Finder::new(self.alloc, effort);
        }
        let patterns = self.patterns.again(self.alloc, &self.inputs)?;
        Finder::by(self.alloc, effort, patterns)
    }

    /// One that simulates by these patterns, which have no nodes yet.
    fn by(alloc: Global, effort: Effort, patterns: Patterns) -> Result<Finder, AllocError> {
        let mut finder = Finder {
            alloc,
            effort,
            patterns,
            classes: Classes::new(alloc),
            counterexamples: Counterexamples::new(alloc),
            account: Account::new(effort),
            search: Search::new(alloc),
            inputs: Vec::new(alloc),
            doubts: Vec::new(alloc),
            waits: false,
            waiting: Vec::new(alloc),
            searches: team_of(alloc, effort.workers)?,
        };
        finder.enter(0, Node::Constant)?;
        finder.doubts.push(0)?;
        finder.classes.push(finder.patterns.signatures())?;
        Ok(finder)
    }

    /// Simulates a new node.
    fn enter(&mut self, k: u32, node: Node) -> Result<(), AllocError> {
        self.patterns.push(node)?;
        if self.patterns.shorten() {
            self.classes.rebuild(self.patterns.signatures())?;
        }
        let phase = self.patterns.phase(k);
        self.search.prefer(k, phase)?;
        for search in &mut self.searches {
            search.prefer(k, phase)?;
        }
        if let Node::Input(variable) = node {
            self.inputs.push((k, variable))?;
        }
        Ok(())
    }

    /// The literal of a node that is older than the last one, and equal to it, if one is found.
    pub(crate) fn older_equal(
        &mut self,
        graph: &Graph,
        new: u32,
    ) -> Result<Option<Literal>, AllocError>
        requires { IsWithin graph.now new }
        ensures { IfOk result (λ found. IfSome found (IsOlder graph.now new)) }
    {
        if !self.effort.simulates {
            return Ok(None);
        }
        let k = node_of(new);
        self.enter(k, graph.node(k))?;
        let doubt = self.doubt_below(graph.node(k));
        self.doubts.push(doubt)?;
        let found = if !self.effort.asks {
            None
        } else if self.waits {
            self.let_wait(k)?;
            None
        } else {
            self.search_older(graph, new)?
        };
        if found.is_some() {
            self.patterns.pop();
            self.doubts.pop();
            self.counterexamples.truncate(k);
        } else {
            self.classes.push(self.patterns.signatures())?;
        }
        Ok(found)
    }

    /// What is doubted of a node.
    fn doubt_of(&self, k: u32) -> u8 {
        self.doubts.get(k as usize).copied().unwrap_or(0)
    }

    /// What is doubted of the operands of a node.
    fn doubt_below(&self, node: Node) -> u8 {
        match node {
            Node::Constant | Node::Input(_) => 0,
            Node::And(x, y) | Node::Xor(x, y) => self
                .doubt_of(node_of(x))
                .max(self.doubt_of(node_of(y))),
        }
    }

    /// Doubts the last node once more, if it is this one.
    fn doubt(&mut self, k: u32) {
        let at = k as usize;
        if at < self.doubts.len() {
            self.doubts[at] = self.doubts[at].saturating_add(1).min(MOST_DOUBT);
        }
    }

    /// What came of the questions so far.
    pub(crate) fn tally(&self) -> Tally {
        self.account.tally()
    }

    /// From now on new nodes are simulated alone.
    pub(crate) fn ask_no_more(&mut self) {
        self.effort.asks = false;
    }

    /// From now on new nodes are asked about with this effort, as if nothing was spent and nothing
    /// doubted so far, where they are simulated. Before that more rows are.
    pub(crate) fn ask_again(&mut self, graph: &Graph, effort: Effort) -> Result<(), AllocError> {
        if !self.effort.simulates {
            return Ok(());
        }
        self.effort = Effort {
            simulates: true,
            ..effort
        };
        self.account = Account::patient(self.effort);
        for row in 0..MORE_ROWS {
            let words = self.patterns.uneven_row(self.alloc, graph, row)?;
            self.patterns.add_row(graph, words)?;
        }
        self.classes.rebuild(self.patterns.signatures())
    }

    /// The candidate of a node that wasn't tried, with the complement that simulation says.
    fn candidate(&self, k: u32, tried: &[u32]) -> Option<u32>
        ensures { IfSome result (λ l. l / 2 < k) }
    {
        let signature = self.patterns.signature(k);
        let older = self
            .classes
            .first(self.patterns.signatures(), signature, tried)?;
        if older >= k || older >= 1 << 30 {
            return None;
        }
        Some(negated_if(
            2 * older,
            self.patterns.phase(k) != self.patterns.phase(older),
        ))
    }

    /// Asks whether the last node equals one of the first candidates.
    fn search_older(&mut self, graph: &Graph, new: u32) -> Result<Option<u32>, AllocError>
        ensures { IfOk result (λ found. IfSome found (IsOlder graph.now new)) }
    {
        let mut tried = Vec::new(self.alloc);
        let mut gave_up = false;
        for _ in 0..CANDIDATES {
            let Some(older) = self.candidate(node_of(new), tried.as_slice()) else {
                break;
            };
            if !self.account.has_room(graph.len()) {
                break;
            }
            tried.push(node_of(older))?;
            match self.try_pair(graph, new, older)? {
                Answer::Refuted => return Ok(Some(older)),
                Answer::Satisfied => {
                    let model = copied(self.alloc, self.search.model())?;
                    self.simulate(graph, &model)?;
                }
                Answer::GaveUp => gave_up = true,
            }
        }
        if gave_up {
            self.doubt(node_of(new));
        }
        Ok(None)
    }

    /// Asks whether two literals differ, for what the account allows.
    fn try_pair(&mut self, graph: &Graph, x: Literal, y: Literal) -> Result<Answer, AllocError>
        ensures { IfOk result (λ answer. answer ≡ Answer.Refuted → AreEqual graph.now x y) }
    {
        let doubt = self.doubt_of(node_of(x));
        let given = self.account.open(graph.len(), doubt);
        let mut budget = given;
        let answer = ask_both(&mut self.search, graph, x, y, &mut budget);
        let said = answer.as_ref().ok().copied();
        self.account.close(given, budget, doubt, said);
        answer
    }

    /// Takes a counterexample in, and simulates where there are enough.
    fn simulate(&mut self, graph: &Graph, model: &[(u32, bool)]) -> Result<(), AllocError> {
        let alloc = self.alloc;
        // A row that nobody simulates isn't begun either: that takes a word for each node.
        if !self.account.has_rows() {
            return Ok(());
        }
        self.counterexamples
            .begin(alloc, graph, &mut self.patterns)?;
        if self.account.is_alone() {
            self.counterexamples
                .add_with_neighbours(model, &mut self.patterns);
        } else {
            self.counterexamples.add(model);
        }
        if self.counterexamples.count() < ROOM {
            return Ok(());
        }
        let alone = self.account.is_alone();
        let row = self.counterexamples.take(alloc);
        if self.account.take_row(graph.len()) {
            self.patterns.add_row(graph, row)?;
            if alone {
                self.simulate_flipped(graph, model)?;
            }
            self.classes.rebuild(self.patterns.signatures())?;
        }
        Ok(())
    }

    /// Simulates assignments that differ from a counterexample at one input.
    fn simulate_flipped(&mut self, graph: &Graph, model: &[(u32, bool)]) -> Result<(), AllocError> {
        let rows = (model.len() / 64 + 1).min(FLIPPED);
        for row in 0..rows {
            self.counterexamples
                .begin(self.alloc, graph, &mut self.patterns)?;
            self.counterexamples.add_flipped(model, row);
            let words = self.counterexamples.take(self.alloc);
            self.account.spend_row(graph.len());
            self.patterns.add_row(graph, words)?;
        }
        Ok(())
    }

    /// Whether two literals are equal, by simulation and for so many conflicts, of which those are
    /// taken away that there were, or what the visited literals are worth.
    pub(crate) fn compare(
        &mut self,
        graph: &Graph,
        x: Literal,
        y: Literal,
        conflicts: &mut u64,
    ) -> Result<Comparison, AllocError>
        ensures { IfOk result (IsRight graph.now x y) }
    {
        if x == y {
            return Ok(Comparison::Equal);
        }
        if let Some((row, place)) = self.patterns.difference(x, y) {
            return Ok(Comparison::Differs(self.pattern(row, place)?));
        }
        if *conflicts == 0 {
            return Ok(Comparison::Unknown);
        }
        let given = budget_of(*conflicts, u64::MAX);
        let mut budget = given;
        let answer = ask_both(&mut self.search, graph, x, y, &mut budget);
        *conflicts = conflicts_left(given, budget, graph.len());
        match answer? {
            Answer::Refuted => Ok(Comparison::Equal),
            Answer::Satisfied => Ok(Comparison::Differs(self.model(graph)?)),
            Answer::GaveUp => Ok(Comparison::Unknown),
        }
    }

    /// The values of the variables in a pattern.
    fn pattern(&self, row: usize, place: u32) -> Result<Vec<(u32, bool)>, AllocError> {
        let mut values = Vec::new(self.alloc);
        for (k, variable) in self.inputs.as_slice() {
            values.push((*variable, self.patterns.value(row, place, *k)))?;
        }
        Ok(values)
    }

    /// The values of the variables that answered the last question.
    fn model(&self, graph: &Graph) -> Result<Vec<(u32, bool)>, AllocError> {
        let mut values = Vec::new(self.alloc);
        for (k, value) in self.search.model() {
            if *k < graph.len() {
                if let Node::Input(variable) = graph.node(*k) {
                    values.push((variable, *value))?;
                }
            }
        }
        Ok(values)
    }
}
