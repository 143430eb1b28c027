//! Adders are looked for: sums that are there, and carries that are there by their gates or are
//! asked about. Nothing is believed of it.
ghost use Rattle.std.specs.Prelude.{◌≡◌};
ghost use Rattle.eqc_sums.specs.Forms.{Keeps};

use crate::adders::{Adders, Block, is_degenerate};
use eqc_sums::Reduction;
use eqc_sweep::Sweep;
use eqc_xag::{Graph, Literal, node_of};
use std::alloc::AllocError;

/// In how many rounds carries are looked for.
const ROUNDS: u32 = 6;

/// At how many nodes it is looked to see whether there are adders, and how many there are then.
const LOOKS: u32 = 2_000;

const SOME: u32 = 8;

/// The literals of three in one of four polarities.
fn polarized(x: Literal, y: Literal, z: Literal, polarity: u32) -> (Literal, Literal, Literal) {
    if z == 0 {
        let p = if polarity % 2 == 1 { x ^ 1 } else { x };
        let q = if polarity / 2 == 1 { y ^ 1 } else { y };
        return (p, q, 0);
    }
    match polarity {
        1 => (x ^ 1, y, z),
        2 => (x, y ^ 1, z),
        3 => (x, y, z ^ 1),
        _ => (x, y, z),
    }
}

/// Three literals without their complements.
fn plain(x: Literal, y: Literal, z: Literal) -> (Literal, Literal, Literal) {
    (x - x % 2, y - y % 2, z - z % 2)
}

/// Three literals, or their complements, where the carry of these alone is there by its gates, as
/// that of two complements is, and no older node looks like it: else that one is better asked about.
fn there(sweep: &Sweep, x: Literal, y: Literal, z: Literal) -> (Literal, Literal, Literal) {
    let (p, q, r) = (x ^ 1, y ^ 1, z ^ 1);
    if z == 0 || sweep.carry_there(x, y, z).is_some() {
        return (x, y, z);
    }
    match (sweep.carry_there(p, q, r), sweep.like_carry(p, q, r)) {
        (Some(there), Some(alike)) if node_of(there) == node_of(alike) => (p, q, r),
        _ => (x, y, z),
    }
}

/// Whether two triples have the same nodes.
fn has_nodes(block: &Block, x: Literal, y: Literal, z: Literal) -> bool {
    let mut one = [block.x / 2, block.y / 2, block.z / 2];
    let mut other = [x / 2, y / 2, z / 2];
    one.sort_unstable();
    other.sort_unstable();
    one == other
}

impl Adders {
    /// The literals that a node may be the sum of.
    fn candidates_of(
        &self,
        node: u32,
        out: &mut Vec<(u32, (Literal, Literal, Literal))>,
    ) -> Result<(), AllocError> {
        for at in 0..self.all_pairs(node) {
            if let Some((x, y)) = self.pair_or_merged(node, at) {
                out.push((node, plain(x, y, 0)))?;
                for (inner, other) in [(x, y), (y, x)] {
                    for k in 0..self.all_pairs(node_of(inner)) {
                        if let Some((p, q)) = self.pair_or_merged(node_of(inner), k) {
                            out.push((node, plain(p, q, other)))?;
                        }
                    }
                }
            }
        }
        Ok(())
    }

    /// Whether a node is the difference of literals below which there is more than below it:
    /// something cancels out in it, or it was found equal to that.
    fn is_of_more(&self, node: u32) -> bool {
        match self.nodes.get(node as usize) {
            None => false,
            Some(known) => known.is_cancelled || known.merged.len() > 0,
        }
    }

    /// The literals that nodes from this one on may be sums of.
    fn candidates(&self, from: u32) -> Result<Vec<(u32, (Literal, Literal, Literal))>, AllocError> {
        let mut out = Vec::new(self.alloc);
        for node in from..self.count() {
            if !self.is_small(node) || self.is_of_more(node) {
                self.candidates_of(node, &mut out)?;
            }
        }
        Ok(out)
    }

    /// Whether a node looks like the sum of three literals that have a carry: whether it may be
    /// one, and whether it does.
    fn looks_like_sum(&self, sweep: &Sweep, node: u32) -> (bool, bool) {
        let Some((x, y)) = self.pair(node, 0) else {
            return (false, false);
        };
        for (inner, other) in [(x, y), (y, x)] {
            if let Some((p, q)) = self.pair(node_of(inner), 0) {
                let has_carry = (0..4).any(|polarity| {
                    let (p, q, r) = polarized(p, q, other, polarity);
                    sweep.like_carry(p, q, r).is_some()
                });
                if has_carry {
                    return (true, true);
                }
            }
        }
        (true, false)
    }

    /// Whether some of the nodes look like sums of adders.
    pub(crate) fn has_some(&mut self, sweep: &Sweep) -> Result<bool, AllocError> {
        self.catch_up(sweep.graph())?;
        let mut looks: u32 = 0;
        let mut sums: u32 = 0;
        for node in 0..self.count() {
            let (may_be, is_one) = self.looks_like_sum(sweep, node);
            looks = looks.saturating_add(u32::from(may_be));
            sums = sums.saturating_add(u32::from(is_one));
            if looks >= LOOKS || sums >= SOME {
                break;
            }
        }
        Ok(sums >= SOME)
    }

    /// Whether it may be asked for carries of a node: where no adder of it is there by its gates,
    /// or none of three literals.
    fn may_ask(&self, node: u32) -> bool {
        match self.nodes.get(node as usize) {
            None => false,
            Some(known) => {
                if self.is_thorough {
                    known.sums.iter().all(|block| block.z == 0)
                } else {
                    known.sums.len() == 0
                }
            }
        }
    }

    /// Whether three literals are known as those of a sum.
    fn has_block(&self, sum: Literal, x: Literal, y: Literal, z: Literal) -> bool {
        match self.nodes.get(node_of(sum) as usize) {
            None => true,
            Some(known) => known.sums.iter().any(|block| has_nodes(block, x, y, z)),
        }
    }

    /// Enters an adder.
    fn enter(&mut self, block: Block) -> Result<(), AllocError> {
        if let Some(known) = self.nodes.get_mut(node_of(block.sum) as usize) {
            known.sums.push(block)?;
        }
        if is_degenerate(&block) {
            return Ok(());
        }
        if let Some(known) = self.nodes.get_mut(node_of(block.carry) as usize) {
            known.carries.push(block)?;
        }
        Ok(())
    }

    /// Whether a carry is above its literals.
    fn is_above(&self, block: Block) -> bool {
        let level = self.level(node_of(block.carry));
        [block.x, block.y, block.z]
            .iter()
            .all(|literal| self.level(node_of(*literal)) < level)
    }

    /// Enters how the carry of one polarity comes from another one.
    fn relate(&mut self, block: Block) -> Result<(), AllocError> {
        if block.x == 0 || is_degenerate(&block) || !self.is_above(block) {
            return Ok(());
        }
        if let Some(known) = self.nodes.get_mut(node_of(block.carry) as usize) {
            if known.relations.len() == 0 {
                known.relations.push(block)?;
            }
        }
        Ok(())
    }

    /// Enters the carries of three literals that were found in these polarities.
    fn enter_all(&mut self, found: &[(u32, Block)]) -> Result<(), AllocError> {
        let mut best: Option<(u32, Block)> = None;
        for one in found {
            best = match best {
                None => Some(*one),
                Some(other) => Some(if one.1.carry / 2 < other.1.carry / 2 {
                    *one
                } else {
                    other
                }),
            };
        }
        let Some((polarity, block)) = best else {
            return Ok(());
        };
        if self.has_block(block.sum, block.x, block.y, block.z) {
            return Ok(());
        }
        self.enter(block)?;
        for (other, one) in found {
            if *other != polarity && one.carry / 2 > block.carry / 2 {
                self.relate(turned(*one, *other, polarity))?;
            }
        }
        Ok(())
    }

    /// Marks the nodes from this one on as tried.
    fn mark_tried(&mut self, graph: &Graph, from: usize) -> Result<(), AllocError> {
        self.catch_up(graph)?;
        for at in from..self.nodes.len() {
            self.nodes[at].is_tried = true;
        }
        Ok(())
    }

    #[tactic(auto, using(eqc_sums::proofs::KeepLemmas::keeps_itself, eqc_sums::proofs::KeepLemmas::keeps_along))]
    /// Three literals with their sum and their carry, where that one was there. If it isn't there
    /// by its gates it may be asked about.
    fn tried(
        &mut self,
        reduction: &mut Reduction,
        x: Literal,
        y: Literal,
        z: Literal,
        asks: bool,
    ) -> Result<Option<Block>, AllocError>
        ensures { Keeps reduction.old.sweep reduction.new.sweep reduction.old.form reduction.new.form }
    {
        let alike = if asks {
            reduction.sweep().like_carry(x, y, z)
        } else {
            reduction.sweep().carry_there(x, y, z)
        };
        let Some(alike) = alike else {
            return Ok(None);
        };
        if self.is_tried(node_of(alike)) {
            return Ok(None);
        }
        let nodes = self.nodes.len();
        let Some((sum, carry)) = reduction.sum_and_carry(x, y, z)? else {
            return Ok(None);
        };
        self.mark_tried(reduction.sweep().graph(), nodes)?;
        if self.is_tried(node_of(carry)) {
            return Ok(None);
        }
        Ok(Some(Block {
            x,
            y,
            z,
            sum,
            carry,
        }))
    }

    #[tactic(auto, using(eqc_sums::proofs::KeepLemmas::keeps_itself, eqc_sums::proofs::KeepLemmas::keeps_along))]
    /// Tries the carries of three literals in four polarities.
    fn try_block(
        &mut self,
        reduction: &mut Reduction,
        three: (Literal, Literal, Literal),
        asks: bool,
    ) -> Result<(), AllocError>
        ensures { Keeps reduction.old.sweep reduction.new.sweep reduction.old.form reduction.new.form }
    {
        let mut found = Vec::new(self.alloc);
        'polarities: for polarity in 0..4 {
            let (p, q, r) = polarized(three.0, three.1, three.2, polarity);
            let (p, q, r) = if asks {
                (p, q, r)
            } else {
                there(reduction.sweep(), p, q, r)
            };
            if let Some(block) = self.tried(reduction, p, q, r, asks)? {
                found.push((polarity, block))?;
            }
        }
        self.enter_all(found.as_slice())
    }

    #[tactic(auto, using(eqc_sums::proofs::KeepLemmas::keeps_itself, eqc_sums::proofs::KeepLemmas::keeps_along))]
    /// Asks for carries of three literals, or of two, of each of which a node is the sum.
    fn ask_all(
        &mut self,
        reduction: &mut Reduction,
        candidates: &[(u32, (Literal, Literal, Literal))],
        is_full: bool,
    ) -> Result<(), AllocError>
        ensures { Keeps reduction.old.sweep reduction.new.sweep reduction.old.form reduction.new.form }
    {
        'candidates: for (node, three) in candidates {
            if (three.2 != 0) == is_full && self.may_ask(*node) {
                self.try_block(reduction, *three, true)?;
            }
        }
        Ok(())
    }

    #[tactic(auto, using(eqc_sums::proofs::KeepLemmas::keeps_itself, eqc_sums::proofs::KeepLemmas::keeps_along))]
    /// Tries the carries of all these literals, of each of which a node is the sum: at first those
    /// that are there by their gates.
    fn try_all(
        &mut self,
        reduction: &mut Reduction,
        candidates: &[(u32, (Literal, Literal, Literal))],
    ) -> Result<(), AllocError>
        ensures { Keeps reduction.old.sweep reduction.new.sweep reduction.old.form reduction.new.form }
    {
        'candidates: for (_, three) in candidates {
            self.try_block(reduction, *three, false)?;
        }
        self.ask_all(reduction, candidates, true)?;
        self.ask_all(reduction, candidates, false)
    }

    #[tactic(auto, using(eqc_sums::proofs::KeepLemmas::keeps_itself, eqc_sums::proofs::KeepLemmas::keeps_along))]
    /// Finds adders among the nodes of the graph.
    pub(crate) fn find(&mut self, reduction: &mut Reduction) -> Result<(), AllocError>
        ensures { Keeps reduction.old.sweep reduction.new.sweep reduction.old.form reduction.new.form }
    {
        self.first = self.first.min(reduction.sweep().graph().len());
        self.catch_up(reduction.sweep().graph())?;
        self.add_asked(reduction.sweep())?;
        'rounds: for _round in 0..ROUNDS {
            let nodes = reduction.sweep().graph().len();
            let candidates = self.candidates(0)?;
            self.try_all(reduction, candidates.as_slice())?;
            if reduction.sweep().graph().len() == nodes {
                break;
            }
        }
        self.seen = reduction.sweep().graph().len();
        Ok(())
    }

    /// The literals of which conjunctions with an exclusive or may say that two of them or three
    /// are true.
    fn carried(&self) -> Result<Vec<(Literal, Literal, Literal)>, AllocError> {
        let mut out = Vec::new(self.alloc);
        for node in 0..self.count() {
            if let Some((l, r)) = self.literals(node) {
                for (inner, other) in [(l, r), (r, l)] {
                    if let Some((x, y)) = self.pair(node_of(inner), 0) {
                        out.push(plain(x, y, other))?;
                    }
                }
            }
        }
        Ok(out)
    }

    #[tactic(auto, using(eqc_sums::proofs::KeepLemmas::keeps_itself, eqc_sums::proofs::KeepLemmas::keeps_along))]
    /// Finds adders of which the carry is there by its gates, also where nothing depends on the
    /// sum, which is made.
    pub(crate) fn find_by_carries(&mut self, reduction: &mut Reduction) -> Result<(), AllocError>
        ensures { Keeps reduction.old.sweep reduction.new.sweep reduction.old.form reduction.new.form }
    {
        self.catch_up(reduction.sweep().graph())?;
        let candidates = self.carried()?;
        'candidates: for three in &candidates {
            self.try_block(reduction, *three, false)?;
        }
        self.seen = reduction.sweep().graph().len();
        Ok(())
    }

    #[tactic(auto, using(eqc_sums::proofs::KeepLemmas::keeps_itself, eqc_sums::proofs::KeepLemmas::keeps_along))]
    /// Finds adders among the nodes that came since adders were looked for.
    pub(crate) fn find_more(&mut self, reduction: &mut Reduction) -> Result<(), AllocError>
        ensures { Keeps reduction.old.sweep reduction.new.sweep reduction.old.form reduction.new.form }
    {
        if reduction.sweep().graph().len() == self.seen {
            return Ok(());
        }
        self.catch_up(reduction.sweep().graph())?;
        let candidates = self.candidates(self.seen)?;
        self.try_all(reduction, candidates.as_slice())?;
        self.seen = reduction.sweep().graph().len();
        Ok(())
    }
}

/// The literals of a carry, the one first that has the other polarity in another carry.
fn turned(block: Block, polarity: u32, other: u32) -> Block {
    let flipped = if block.z == 0 || polarity == 0 || other == 0 {
        polarity ^ other
    } else {
        // Two have the other polarity: so has the third one in the complement of the carry.
        6u32.saturating_sub(polarity).saturating_sub(other)
    };
    match flipped {
        2 => Block {
            x: block.y,
            y: block.x,
            z: block.z,
            sum: block.sum,
            carry: block.carry,
        },
        3 => Block {
            x: block.z,
            y: block.y,
            z: block.x,
            sum: block.sum,
            carry: block.carry,
        },
        _ => block,
    }
}
