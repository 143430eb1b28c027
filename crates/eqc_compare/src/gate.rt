//! What is told of a comparison while it runs: each output before it is compared, and what is done
//! meanwhile.

/// Told of each comparison before it begins. A gate may wait where its `R` may.
pub trait Gate<R> {
    /// Called once before each comparison, on the member's own thread: `worker` is the member's
    /// number in their order, from 0, `output` the position of the output that it is about to
    /// compare. An output is compared once, if at all.
    fn enter(&self, rt: &R, worker: u32, output: u32);
}

/// What a run is doing.
#[derive(Drop, Clone, Copy, Debug, PartialEq)]
pub enum Stage {
    /// It reads the texts, checks them, and makes flat netlists and a pair of them.
    Reading,
    /// It looks for signals of equal structure.
    Structure,
    /// It compares outputs by diagrams on one thread.
    FirstDiagrams,
    /// Its signals enter a graph in which those that are found equal become one.
    Sweeping,
    /// It asks of the outputs that are left, one by one, whether they are equal.
    Asking,
    /// It looks for words of outputs that stand for the same number, since they add up the same.
    Adding,
    /// It searches the outputs that are left, one by one, for their least differences.
    Searching,
    /// It compares outputs by diagrams of all its workers.
    AllDiagrams,
    /// The report is made, or there is none: what comes now is written.
    Writing,
}

/// Told how far a run is, and of each comparison. What is told changes nothing of it.
pub trait Progress<R>: Gate<R> {
    /// Called on the run's own thread as it begins with a stage. One may come more than once.
    fn stage(&self, rt: &R, stage: Stage);

    /// Called on the run's own thread at any time in a stage: it is through with `done` of `all`
    /// steps while it sweeps, words while it adds up, and with so many outputs in each other stage
    /// that comes by them. Outputs that aren't compared or asked about count too.
    fn step(&self, rt: &R, done: usize, all: usize);

    /// Called on a member's own thread behind each operation on diagrams: so many nodes are in use.
    /// Where members share them it is about so many, and they may tell of it in any order.
    fn nodes(&self, rt: &R, nodes: u32);
}

/// A gate that returns at once, and knows nothing of how far a run is.
pub struct NoGate;

impl<R> Gate<R> for NoGate {
    fn enter(&self, _rt: &R, _worker: u32, _output: u32) {}
}

impl<R> Progress<R> for NoGate {
    fn stage(&self, _rt: &R, _stage: Stage) {}

    fn step(&self, _rt: &R, _done: usize, _all: usize) {}

    fn nodes(&self, _rt: &R, _nodes: u32) {}
}
