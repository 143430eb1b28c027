//! Workers that make nodes, as the tests drive them: each call is made where it is allowed, and
//! ends the test elsewhere.
ghost use Rattle.std.specs.Prelude.{◌≡◌, ◌<◌, ◌≤◌, ℕ, [], ◌∷◌, length, IsTrue, IfOk, OnErr};
ghost use Rattle.eqc_tree.specs.Tree.{StartsAbove, Node};
ghost use Rattle.eqc_core.specs.Words.{slots_of};
ghost use Rattle.eqc_core.specs.Moves.{IsReady};
ghost use Rattle.eqc_core.specs.Seating.{IsAtRest};
ghost use Rattle.eqc_guard.specs.Known.{IsHeld, tree_of};
ghost use Rattle.eqc_arena.specs.Changing.{Exchanges};
ghost use Rattle.eqc_cache.specs.Storing.{IsRight};
ghost use Rattle.eqc_node_tests.specs.Making.{IsMaking, references_of};

use crate::ends::{keep, keep_all};
use eqc_arena::collecting::collect;
use eqc_arena::making::mk;
use eqc_arena::nodes::{children, give_back};
use eqc_cache::finding::lookup;
use eqc_cache::storing::{clear, store};
use eqc_guard::fault::SplitFault;
use eqc_guard::forest::Forest;
use eqc_guard::reference::Ref;
use eqc_guard::worker::Worker;
use eqc_tree::{Op, Stop, unpack_node};
use std::process::Abort;
use std::sync::Wait;

/// So many names are held at most where a call asks for room.
pub const MOST_HELD: u64 = 1 << 30;

/// A worker, its references and those of the constants, and how many variables it may ask for.
pub struct Maker {
    pub worker: Worker,
    pub references: Vec<Ref>,
    variables: u16,
    ghost making: { IsMaking variables references.items worker },
}

/// Whether the variable of a node is greater. A constant has none that is not.
fn starts_above(worker: &mut Worker, var: u16, node: &Ref) -> bool
    requires ready { IsReady worker.old.known.core }
    requires held { IsHeld worker.old.known.core node.now.number }
    ensures above { IsTrue result → StartsAbove var (tree_of worker.new.known node.now.number) }
    ensures changes { Exchanges [] [] worker.old worker.new }
{
    // What the worker knows is in order.
    let _cells = worker.cells();
    if node.number() < 2 {
        return true;
    }
    let (root, _, _) = unpack_node(worker.read_node(node));
    if var >= root {
        return false;
    }
    true
}

/// The node of a variable over two children, whose variables are greater.
fn made(
    rt: &(impl Abort + Wait),
    worker: &mut Worker,
    variables: u16,
    var: u16,
    low: &Ref,
    high: &Ref,
) -> Result<Ref, Stop>
    requires rest { IsAtRest worker.old.known.core }
    requires cells { 0 < worker.old.known.core.sizes.cells }
    requires few { variables ≤ worker.old.known.core.sizes.variables }
    requires low { IsHeld worker.old.known.core low.now.number }
    requires high { IsHeld worker.old.known.core high.now.number }
    ensures node { IfOk result (λ r. Exchanges [] (slots_of (r.number ∷ [])) worker.old worker.new) }
    ensures still { OnErr result (Exchanges [] [] worker.old worker.new) }
{
    if var >= variables || worker.held() > MOST_HELD {
        panic!(rt; "there is no such variable, or no room");
    }
    if !starts_above(worker, var, low) || !starts_above(worker, var, high) {
        panic!(rt; "variables rise on each path");
    }
    mk(worker, rt, var, low, high)
}

/// Whether a node has this variable and these children.
fn reads_as(worker: &mut Worker, node: &Ref, var: u16, low: u32, high: u32) -> bool
    requires ready { IsReady worker.old.known.core }
    requires held { IsHeld worker.old.known.core node.now.number }
    ensures tree { IsTrue result → tree_of worker.old.known node.now.number ≡ Node var (tree_of worker.new.known low) (tree_of worker.new.known high) }
    ensures changes { Exchanges [] [] worker.old worker.new }
{
    // What the worker knows is in order.
    let _cells = worker.cells();
    if node.number() < 2 {
        return false;
    }
    let (root, first, second) = unpack_node(worker.read_node(node));
    if root != var || first != low || second != high {
        return false;
    }
    true
}

/// Whether the first is the literal of a variable, and the last the node of this variable over
/// false and the second: so that the last is the and of the others.
fn is_and(worker: &mut Worker, var: u16, f: &Ref, g: &Ref, r: &Ref) -> bool
    requires ready { IsReady worker.old.known.core }
    requires f { IsHeld worker.old.known.core f.now.number }
    requires g { IsHeld worker.old.known.core g.now.number }
    requires r { IsHeld worker.old.known.core r.now.number }
    ensures right { IsTrue result → IsRight worker.new.known Op.And f.now.number g.now.number r.now.number }
    ensures changes { Exchanges [] [] worker.old worker.new }
{
    // What the worker knows is in order.
    let _cells = worker.cells();
    if !reads_as(worker, f, var, 0, 1) {
        return false;
    }
    if !reads_as(worker, r, var, 0, g.number()) {
        return false;
    }
    true
}

/// The variable and the children of a node, which are given back.
fn opened(rt: &impl Abort, worker: &mut Worker, node: &Ref) -> (u16, u32, u32)
    requires rest { IsAtRest worker.old.known.core }
    requires held { IsHeld worker.old.known.core node.now.number }
    ensures { Exchanges [] [] worker.old worker.new }
{
    if node.number() < 2 {
        panic!(rt; "a constant has no children");
    }
    let Ok((var, low, high)) = children(worker, node) else {
        panic!(rt; "there is room");
    };
    let read = (var, low.number(), high.number());
    give_back(worker, low);
    give_back(worker, high);
    read
}

/// Worker 0 of a new forest, with references of the constants.
pub fn planted(
    rt: &(impl Abort + AllocGlobal),
    vars: u16,
    nodes: u32,
    cells: u32,
    workers: u32,
) -> Maker
    requires nodes { (1 ≤ nodes) × (nodes ≤ 1048574) }
    requires cells { (1 ≤ cells) × (cells ≤ 1048576) }
    requires workers { (1 ≤ workers) × (workers ≤ 64) }
{
    let Ok(worker) = Forest::new(rt.alloc(), vars, nodes, cells, workers) else {
        panic!(rt; "there is no memory");
    };
    let references = constants(rt, &worker);
    Maker {
        worker,
        references,
        variables: vars,
    }
}

/// References of both constants.
fn constants(rt: &(impl Abort + AllocGlobal), worker: &Worker) -> Vec<Ref>
    ensures { (x : ℕ) → 2 ≤ x → references_of x result.items ≡ 0 }
{
    let mut references = Vec::new(rt.alloc());
    keep(rt, &mut references, worker.constant(false));
    keep(rt, &mut references, worker.constant(true));
    references
}

impl Maker {
    /// The place of a reference of the name.
    fn place(&self, rt: &impl Abort, x: u32) -> usize
        ensures { result < length self.now.references.items }
    {
        match self.references.iter().position(|r| r.number() == x) {
            Some(place) => place,
            None => panic!(rt; "{x} is not held"),
        }
    }

    /// The node of a variable over the children at two places, and its number.
    pub fn mk_at(
        &mut self,
        rt: &(impl Abort + Wait),
        var: u16,
        low: usize,
        high: usize,
    ) -> Result<u32, Stop>
        requires low { low < length self.old.references.items }
        requires high { high < length self.old.references.items }
        ensures forest { self.new.worker.forest ≡ self.old.worker.forest }
        ensures none { OnErr result (self.new.references.items ≡ self.old.references.items) }
    {
        let node = made(
            rt,
            &mut self.worker,
            self.variables,
            var,
            &self.references[low],
            &self.references[high],
        )?;
        let x = node.number();
        keep(rt, &mut self.references, node);
        Ok(x)
    }

    /// The node of a variable over two children that are held, by their numbers.
    pub fn mk(
        &mut self,
        rt: &(impl Abort + Wait),
        var: u16,
        low: u32,
        high: u32,
    ) -> Result<u32, Stop>
        ensures { self.new.worker.forest ≡ self.old.worker.forest }
    {
        let low = self.place(rt, low);
        let high = self.place(rt, high);
        self.mk_at(rt, var, low, high)
    }

    /// Gives the reference at a place back.
    pub fn give_back_at(&mut self, place: usize)
        requires { place < length self.old.references.items }
        ensures { self.new.worker.forest ≡ self.old.worker.forest }
    {
        let reference = self.references.swap_remove(place);
        give_back(&mut self.worker, reference);
    }

    /// Gives a reference of this name back.
    pub fn give_back(&mut self, rt: &impl Abort, x: u32)
        ensures { self.new.worker.forest ≡ self.old.worker.forest }
    {
        let place = self.place(rt, x);
        self.give_back_at(place);
    }

    /// Whether the variable of the node at a place is greater.
    pub fn is_below(&mut self, var: u16, place: usize) -> bool
        requires { place < length self.old.references.items }
        ensures references { self.new.references.items ≡ self.old.references.items }
        ensures forest { self.new.worker.forest ≡ self.old.worker.forest }
    {
        starts_above(&mut self.worker, var, &self.references[place])
    }

    /// The variable and the children of a node that is held.
    pub fn children(&mut self, rt: &impl Abort, x: u32) -> (u16, u32, u32)
        ensures { self.new.worker.forest ≡ self.old.worker.forest }
    {
        let place = self.place(rt, x);
        opened(rt, &mut self.worker, &self.references[place])
    }

    /// Stores that r, a node of variable 0 over false and g, is the and of f, the literal of
    /// variable 0, and g.
    pub fn store_and(&mut self, rt: &impl Abort, f: u32, g: u32, r: u32)
        ensures { self.new.worker.forest ≡ self.old.worker.forest }
    {
        let f = self.place(rt, f);
        let g = self.place(rt, g);
        let r = self.place(rt, r);
        if self.worker.held() > MOST_HELD {
            panic!(rt; "there is room");
        }
        let f = &self.references[f];
        let g = &self.references[g];
        let r = &self.references[r];
        if !is_and(&mut self.worker, 0, f, g, r) {
            panic!(rt; "it is another function");
        }
        store(&mut self.worker, Op::And, f, g, r);
    }

    /// Stores the and of a node with itself.
    pub fn store_itself(&mut self, rt: &impl Abort, f: u32)
        ensures { self.new.worker.forest ≡ self.old.worker.forest }
    {
        let place = self.place(rt, f);
        if self.worker.held() > MOST_HELD {
            panic!(rt; "there is room");
        }
        let f = &self.references[place];
        store(&mut self.worker, Op::And, f, f, f);
    }

    /// Looks the and of two nodes up.
    pub fn lookup_and(&mut self, rt: &impl Abort, f: u32, g: u32) -> Option<u32>
        ensures { self.new.worker.forest ≡ self.old.worker.forest }
    {
        let f = self.place(rt, f);
        let g = self.place(rt, g);
        let Some(found) = lookup(
            &mut self.worker,
            Op::And,
            &self.references[f],
            &self.references[g],
        ) else {
            return None;
        };
        let number = found.number();
        keep(rt, &mut self.references, found);
        Some(number)
    }

    /// Clears the cache.
    pub fn clear(&mut self, rt: &impl Abort)
        ensures { self.new.worker.forest ≡ self.old.worker.forest }
    {
        if self.worker.held() > MOST_HELD {
            panic!(rt; "there is room");
        }
        clear(&mut self.worker);
    }

    /// Takes dead nodes back, and tells how many.
    pub fn collect(&mut self, rt: &(impl Abort + Wait)) -> u32
        ensures { self.new.worker.forest ≡ self.old.worker.forest }
    {
        assert!(rt; self.worker.held() <= MOST_HELD);
        collect(&mut self.worker, rt)
    }

    /// Splits a worker off, which holds nothing.
    pub fn split(&mut self, rt: &(impl Abort + AllocGlobal)) -> Result<Maker, SplitFault>
        ensures forest { self.new.worker.forest ≡ self.old.worker.forest }
        ensures other { IfOk result (λ m. m.worker.forest ≡ self.old.worker.forest) }
    {
        match self.worker.split() {
            Ok(worker) => {
                let references = constants(rt, &worker);
                Ok(Maker {
                    worker,
                    references,
                    variables: self.variables,
                })
            }
            Err(fault) => Err(fault),
        }
    }

    /// Splits off a worker that is there.
    pub fn another(&mut self, rt: &(impl Abort + AllocGlobal)) -> Maker
        ensures forest { self.new.worker.forest ≡ self.old.worker.forest }
        ensures other { result.worker.forest ≡ self.old.worker.forest }
    {
        match self.split(rt) {
            Ok(other) => other,
            Err(_) => panic!(rt; "there is no number"),
        }
    }

    /// Takes in another worker of the forest, which is not worker 0, with its references.
    pub fn absorb(&mut self, rt: &impl Abort, other: Maker)
        requires { other.worker.forest ≡ self.old.worker.forest }
        ensures { self.new.worker.forest ≡ self.old.worker.forest }
    {
        assert!(rt; other.worker.number() > 0);
        assert!(rt; self.worker.held() <= MOST_HELD && other.worker.held() <= MOST_HELD);
        let Maker {
            worker,
            references,
            variables: _,
        } = other;
        self.worker.absorb(worker);
        keep_all(rt, &mut self.references, references);
    }

    /// Closes the forest in vain, since another worker is out.
    pub fn is_refused(self, rt: &impl Abort) -> Maker
        ensures { result.worker.forest ≡ self.worker.forest }
    {
        let Maker {
            worker,
            references,
            variables,
        } = self;
        match worker.close() {
            Err(worker) => Maker {
                worker,
                references,
                variables,
            },
            Ok(_) => panic!(rt; "nobody else is out"),
        }
    }

    /// The worker and its references alone.
    pub fn into_parts(self) -> (Worker, Vec<Ref>)
        ensures { IsMaking self.variables result.1.items result.0 }
    {
        let Maker {
            worker,
            references,
            variables: _,
        } = self;
        (worker, references)
    }

    /// Gives all references back.
    pub fn give_all_back(&mut self)
        ensures { self.new.worker.forest ≡ self.old.worker.forest }
    {
        for _ in 0..self.references.len() {
            if !self.references.is_empty() {
                self.give_back_at(0);
            }
        }
    }

    /// Gives all references back and closes the forest: how many slots have a count above 0.
    pub fn close(self, rt: &impl Abort) -> u32 {
        let mut maker = self;
        maker.give_all_back();
        assert!(rt; maker.references.is_empty());
        let Maker {
            worker,
            references,
            variables: _,
        } = maker;
        references.destroy_empty();
        let tally = worker.close().ok().expect(rt, "it is alone");
        tally.counted
    }
}
