//! A depth-first search along dependencies, for an order in which each node stands behind those it
//! depends on, or for a circle.
ghost use Rattle.std.specs.Prelude.{◌≡◌, ℕ, ◌+◌, ◌<◌, List, [], ◌∷◌, vec_len, IfOk, OnOk, true, false, ◌++◌, ◌-◌, ◌↔◌, take, slice_set, IsTrue};
ghost use Rattle.eqc_netlist.specs.Dependency.{among, ends_within};
ghost use Rattle.eqc_hierarchy.specs.Walks.{WalksBack};
ghost use Rattle.eqc_hierarchy.specs.Searching.{stage_at, on, IsClosed, IsSearch};

use eqc_netlist::Graph;
use std::alloc::{AllocError, Global};

/// How far the search is with a node.
#[derive(Clone, Copy)]
pub enum Stage {
    Fresh,
    Open,
    Done,
}

/// A search in depth along dependencies, which puts each node behind all that it depends on.
#[derive(Drop)]
pub struct Search {
    /// How far the search is with each node.
    pub stages: Vec<Stage>,
    /// The nodes that it is done with, each behind all that it depends on.
    pub order: Vec<usize>,
    /// The way into the circle that was found: from the root on, and last a node that stands before
    /// in it.
    pub trail: Vec<usize>,
}

/// The nodes on a path, and behind them one more. Fails where memory is refused.
fn trail_of(alloc: Global, path: &[(usize, usize)], next: usize) -> Result<Vec<usize>, AllocError>
    ensures { IfOk result (λ trail. trail.items ≡ on path.now ++ next ∷ []) }
{
    let mut trail = Vec::new(alloc);
    for k in 0..path.len() {
        trail.push(path[k].0)?;
    }
    trail.push(next)?;
    Ok(trail)
}

impl Search {
    /// A search over so many nodes, none of which was visited. Fails where memory is refused.
    pub fn new(alloc: Global, nodes: usize) -> Result<Search, AllocError>
        ensures { IfOk result (λ search. (deps : ℕ → List ℕ) → IsSearch deps nodes search.stages.items [] search.order.items) }
    {
        Ok(Search {
            stages: vec![in alloc; Stage::Fresh; nodes]?,
            order: Vec::with_capacity(alloc, nodes)?,
            trail: Vec::new(alloc),
        })
    }

    /// The order.
    pub fn into_order(self) -> Vec<usize>
        ensures { result ≡ self.order }
    {
        self.order
    }

    /// The way into the circle that the last visit found.
    pub fn into_trail(self) -> Vec<usize>
        ensures { result ≡ self.trail }
    {
        self.trail
    }

    /// Puts `root` and all that it leads to into the order. Answers false where one of these
    /// depends on itself.
    pub fn visit<G: Graph>(
        &mut self,
        alloc: Global,
        graph: &G,
        root: usize,
    ) -> Result<bool, AllocError>
        requires within { root < G.size graph.now }
        requires closed { IsClosed (G.deps graph.now) (G.size graph.now) }
        requires searching { IsSearch (G.deps graph.now) (G.size graph.now) self.old.stages.items [] self.old.order.items }
        ensures searching { IfOk result (λ ends. ends ≡ true → IsSearch (G.deps graph.now) (G.size graph.now) self.new.stages.items [] self.new.order.items) }
        ensures placed { IfOk result (λ ends. ends ≡ true → among self.new.order.items root ≡ true) }
        ensures kept { IfOk result (λ ends. ends ≡ true → (s : ℕ) → among self.old.order.items s ≡ true → among self.new.order.items s ≡ true) }
        ensures cyclic { IfOk result (λ ends. ends ≡ false → (steps : ℕ) → ends_within (G.deps graph.now) steps root ≡ false) }
        ensures trail { IfOk result (λ ends. ends ≡ false → WalksBack (G.deps graph.now) root self.new.trail.items) }
    {
        let mut path: Vec<(usize, usize)> = Vec::new(alloc);
        if self.is_done(root) {
            return Ok(true);
        }
        self.enter(&mut path, root)?;
        'path: while !path.is_empty() {
            let top = path.len() - 1;
            let (node, k) = path[top];
            let Some(next) = graph.dependency(node, k) else {
                self.leave(&mut path, node)?;
                continue;
            };
            match self.stages[next] {
                Stage::Fresh => self.enter(&mut path, next)?,
                Stage::Open => {
                    self.trail = trail_of(alloc, &path, next)?;
                    return Ok(false);
                }
                Stage::Done => path[top] = (node, k + 1),
            }
        }
        Ok(true)
    }

    /// Whether the search is done with a node.
    fn is_done(&self, node: usize) -> bool
        requires { node < vec_len self.now.stages }
        ensures { IsTrue result ↔ (stage_at self.now.stages.items node ≡ Stage.Done) }
    {
        matches!(self.stages[node], Stage::Done)
    }

    /// Puts a node onto the path.
    fn enter(&mut self, path: &mut Vec<(usize, usize)>, node: usize) -> Result<(), AllocError>
        requires { node < vec_len self.old.stages }
        ensures stages { OnOk result (self.new.stages.items ≡ slice_set self.old.stages.items node Stage.Open) }
        ensures path { OnOk result (path.new.items ≡ path.old.items ++ (node, 0) ∷ []) }
        ensures order { self.new.order.items ≡ self.old.order.items }
    {
        path.push((node, 0))?;
        self.stages[node] = Stage::Open;
        Ok(())
    }

    /// Takes the last node from the path and puts it at the end of the order.
    fn leave(&mut self, path: &mut Vec<(usize, usize)>, node: usize) -> Result<(), AllocError>
        requires { node < vec_len self.old.stages }
        ensures stages { OnOk result (self.new.stages.items ≡ slice_set self.old.stages.items node Stage.Done) }
        ensures path { OnOk result (path.new.items ≡ take (vec_len path.old - 1) path.old.items) }
        ensures order { OnOk result (self.new.order.items ≡ self.old.order.items ++ node ∷ []) }
    {
        self.order.push(node)?;
        self.stages[node] = Stage::Done;
        let _ = path.pop();
        Ok(())
    }
}
