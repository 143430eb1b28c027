//! What the members of a comparison share.
use crate::task::Task;
use crate::ticket::Words;
use eqc_pair::Pair;
use std::alloc::Global;

/// A pair that members compare, what all of them work with, and what is told of it.
#[derive(Drop)]
pub(crate) struct Comparison<'x, R, G> {
    /// The runtime that starts threads and lets them wait.
    pub rt: &'x R,
    pub alloc: Global,
    pub pair: &'x Pair<'x>,
    /// What members do.
    pub task: &'x Task<'x>,
    /// The words from which outputs are drawn.
    pub words: &'x Words,
    /// Told of each comparison before it begins.
    pub gate: &'x G,
}
