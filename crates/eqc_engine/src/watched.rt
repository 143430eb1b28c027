//! The diagrams of a run: behind each operation they tell how many nodes are in use.
ghost use Rattle.std.specs.Prelude.{◌≡◌, map, vec_len, IfOk, IfErr};

use eqc_compare::Progress;
use eqc_plain::NodeCount;
use eqc_tree::{Diagrams, Op, References, Stop};
use std::alloc::Global;

/// Diagrams, and what is told of them.
#[derive(Drop)]
pub(crate) struct Watched<'x, D, P> {
    pub diagrams: D,
    pub watch: &'x P,
}

impl<D: References, P> References for Watched<'_, D, P> {
    type Ref = D::Ref;

    ghost entry = { D.entry };

    ghost holding = { λ w. D.holding w.diagrams };

    fn constant(&mut self, b: bool) -> Result<D::Ref, Stop> {
        self.diagrams.constant(b)
    }

    fn copy(&mut self, f: &D::Ref) -> Result<D::Ref, Stop> {
        self.diagrams.copy(f)
    }

    fn give_back(&mut self, f: D::Ref) {
        self.diagrams.give_back(f);
    }

    fn same(&self, f: &D::Ref, g: &D::Ref) -> bool {
        self.diagrams.same(f, g)
    }

    fn as_constant(&self, f: &D::Ref) -> Option<bool> {
        self.diagrams.as_constant(f)
    }
}

impl<R, D: Diagrams<R> + NodeCount, P: Progress<R>> Diagrams<R> for Watched<'_, D, P> {
    fn literal(&mut self, rt: &R, var: u16) -> Result<D::Ref, Stop> {
        let made = self.diagrams.literal(rt, var);
        self.watch.nodes(rt, self.diagrams.nodes_in_use());
        made
    }

    fn apply(&mut self, rt: &R, op: Op, f: &D::Ref, g: &D::Ref) -> Result<D::Ref, Stop> {
        let made = self.diagrams.apply(rt, op, f, g);
        self.watch.nodes(rt, self.diagrams.nodes_in_use());
        made
    }

    /// It makes no node, so nothing is told.
    fn least(
        &mut self,
        rt: &R,
        alloc: Global,
        variables: &[u16],
        f: &D::Ref,
    ) -> Result<Option<Vec<bool>>, Stop> {
        self.diagrams.least(rt, alloc, variables, f)
    }

    fn help(&mut self, rt: &R) -> bool {
        let helped = self.diagrams.help(rt);
        if helped {
            self.watch.nodes(rt, self.diagrams.nodes_in_use());
        }
        helped
    }
}

/// The members with a watch, in their order. Fails where memory is refused.
pub(crate) fn all_watched<'x, D: References + Drop, P>(
    alloc: Global,
    members: Vec<D>,
    watch: &'x P,
) -> Result<Vec<Watched<'x, D, P>>, Stop>
    ensures count { IfOk result (λ all. vec_len all ≡ vec_len members) }
    ensures each { IfOk result (λ all. map (λ w. w.diagrams) all.items ≡ members.items) }
    ensures only { IfErr result (λ s. s ≡ Stop.Memory) }
{
    let mut all = Vec::with_capacity(alloc, members.len())?;
    for diagrams in members {
        all.push(Watched { diagrams, watch })?;
    }
    Ok(all)
}
