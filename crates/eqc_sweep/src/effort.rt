//! What a sweep may cost.

/// Of so many inputs two or more are true in each pattern in which one of 256 is. So others are
/// simulated too.
const MANY_INPUTS: usize = 512;

/// How much a sweep does to find nodes equal.
#[derive(Clone, Copy, PartialEq, Eq, Debug)]
pub struct Effort {
    pub(crate) simulates: bool,
    pub(crate) asks: bool,
    /// The most conflicts that a question may have.
    pub(crate) conflicts: u64,
    /// The work of all questions and simulations together: so much for each node, and for the graph
    /// as a whole, and never more than so much.
    pub(crate) each_node: u64,
    pub(crate) whole: u64,
    pub(crate) work: u64,
    /// So many threads ask side by side.
    pub(crate) workers: u32,
    /// Whether hard questions may be asked in a second way.
    pub(crate) orders: bool,
    /// Whether questions decide only nodes that a gate waits for.
    pub(crate) decides_needed: bool,
    /// Whether there are so many inputs that more patterns are simulated.
    pub(crate) has_many_inputs: bool,
}

impl Effort {
    /// Rules and structural hashing alone.
    pub fn none() -> Effort {
        Effort {
            simulates: false,
            asks: false,
            conflicts: 0,
            each_node: 0,
            whole: 0,
            work: 0,
            workers: 0,
            orders: false,
            decides_needed: false,
            has_many_inputs: false,
        }
    }

    /// New nodes are also asked against older ones that simulation doesn't tell from them, with at
    /// most so many conflicts a question, and so much work in all, whatever the graph's size: about
    /// one for each literal visited and each simulated word, so that twenty million take a second.
    pub fn of(conflicts: u64, work: u64) -> Effort {
        Effort {
            simulates: true,
            asks: true,
            conflicts,
            each_node: 0,
            whole: work,
            work,
            workers: 1,
            orders: false,
            decides_needed: false,
            has_many_inputs: false,
        }
    }

    /// The same where questions with many conflicts are asked in two ways, of which more and more
    /// that which finds more nodes equal for its work: whether the nodes of a conflict are noted as
    /// they are met, or in the order in which they last were in one.
    pub fn in_two_ways(self) -> Effort {
        Effort {
            orders: true,
            ..self
        }
    }

    /// The same where questions decide only nodes that a gate waits for, which has no value from
    /// its operands yet. More is found equal so, in less time.
    pub fn deciding_needed(self) -> Effort {
        Effort {
            decides_needed: true,
            ..self
        }
    }

    /// The same over so many inputs: where they are many, more patterns are simulated in which few
    /// are true.
    pub fn over(self, inputs: usize) -> Effort {
        Effort {
            has_many_inputs: inputs >= MANY_INPUTS,
            ..self
        }
    }

    /// The same by so many threads, one at least, where nodes are copied. What is found doesn't
    /// depend on how many there are.
    pub fn by(self, workers: u32) -> Effort {
        Effort {
            workers: workers.max(1),
            ..self
        }
    }

    /// The same with no more work than so much for each node, and so much for the graph as a whole.
    pub fn within(self, each_node: u64, whole: u64) -> Effort {
        Effort {
            each_node,
            whole,
            ..self
        }
    }
}

/// What came of the questions of a sweep.
#[derive(Clone, Copy, PartialEq, Eq, Debug)]
pub struct Tally {
    /// Nodes that were found equal to older ones.
    pub found: u64,
    /// Questions that were given up.
    pub open: u64,
    /// Whether there were nodes about which nothing was asked, since all work that there might be
    /// was done.
    pub is_cut: bool,
    /// The work that they and simulations took.
    pub work: u64,
}
