//! Members of a team, as the tests drive them: each keeps the references that it makes, by their
//! places, and each call is made where it is allowed, and ends the test elsewhere.
ghost use Rattle.std.specs.Prelude.{◌≡◌, ◌<◌, ◌≤◌, ◌+◌, ℕ, ◌++◌, ◌∷◌, [], vec_len, IfOk, OnErr};
ghost use Rattle.std.specs.List.{All};
ghost use Rattle.eqc_tree.specs.Holding.{Entry, Keeps, copies, weight};
ghost use Rattle.eqc_apply.specs.Extending.{holding_in};
ghost use Rattle.eqc_apply.specs.Referring.{entry_of};
ghost use Rattle.eqc_apply.specs.Teaming.{IsTeam, forest_of};
ghost use Rattle.eqc_team_tests.specs.Building.{AreHeld, IsSame, IsBeside, IsBuilding};

use crate::ends::{keep, keep_all};
use eqc_apply::{Allowance, Applier, Ref, team, team_with};
use eqc_plain::NodeCount;
use eqc_tree::{Diagrams, Op, References, Stop};
use std::mem::ManuallyDrop;
use std::process::Abort;
use std::sync::Wait;

/// What a member is to make. Operands are places of references.
#[derive(Clone, Copy)]
pub enum Wanted {
    Constant(bool),
    Literal(u16),
    Copied(usize),
    Applied(Op, usize, usize),
    Chosen(usize, usize, usize),
}

/// A member, and the references that it made.
pub struct Builder {
    member: Applier,
    references: Vec<Ref>,
    variables: u16,
    is_first: bool,
    ghost building: { IsBuilding variables is_first references.items member },
}

/// With how many references at most a member takes another one in, and is taken in.
const MOST_HELD: usize = 1_000;

/// Member 0 of a team that is new, and the others, which wait until they are called.
pub fn lead_of(rt: &impl AllocGlobal, vars: u16, members: Vec<Applier>) -> (Builder, Vec<Applier>)
    requires team { (nodes : ℕ) × (cells : ℕ) × (workers : ℕ) × IsTeam vars nodes cells workers members.items }
    requires some { 1 ≤ vec_len members }
    ensures { All (IsBeside result.0.variables result.0.member) result.1.items }
{
    let mut waiting = members;
    let member = waiting.remove(0);
    let builder = Builder {
        member,
        references: Vec::new(rt.alloc()),
        variables: vars,
        is_first: true,
    };
    (builder, waiting)
}

/// Member 0 of a new team, and the others, which wait until they are called.
pub fn first(
    rt: &(impl Abort + AllocGlobal),
    vars: u16,
    nodes: u32,
    cells: u32,
    workers: u32,
    forks: u32,
) -> (Builder, Vec<Applier>)
    requires nodes { (1 ≤ nodes) × (nodes ≤ 1048574) }
    requires cells { (1 ≤ cells) × (cells ≤ 1048576) }
    requires workers { (1 ≤ workers) × (workers ≤ 64) }
    requires forks { forks ≤ 16 }
    ensures { All (IsBeside result.0.variables result.0.member) result.1.items }
{
    match team(rt.alloc(), vars, nodes, cells, workers, forks) {
        Ok(members) => lead_of(rt, vars, members),
        Err(_) => panic!(rt; "there is no memory"),
    }
}

/// A member that is alone, whose operations may take so many turns beyond the free ones.
pub fn lone(rt: &(impl Abort + AllocGlobal), vars: u16, nodes: u32, turns: Option<u64>) -> Builder
    requires { (1 ≤ nodes) × (nodes ≤ 1048574) }
{
    let allowance = Allowance { anew: true, turns };
    let mut members = match team_with(rt.alloc(), vars, nodes, 64, 1, 0, allowance) {
        Ok(members) => members,
        Err(_) => panic!(rt; "there is no memory"),
    };
    Builder {
        member: members.remove(0),
        references: Vec::new(rt.alloc()),
        variables: vars,
        is_first: true,
    }
}

/// A member that waits beside the first one.
pub fn next(rt: &(impl Abort + AllocGlobal), first: &Builder, waiting: &mut Vec<Applier>) -> Builder
    requires { All (IsBeside first.now.variables first.now.member) waiting.old.items }
    ensures waiting { All (IsBeside first.now.variables first.now.member) waiting.new.items }
    ensures forest { forest_of result.member ≡ forest_of first.now.member }
{
    match waiting.pop() {
        Some(member) => Builder {
            member,
            references: Vec::new(rt.alloc()),
            variables: first.variables,
            is_first: false,
        },
        None => panic!(rt; "nobody waits"),
    }
}

/// The reference at a place.
fn at<'a>(rt: &impl Abort, references: &'a [Ref], place: usize) -> &'a Ref
    ensures { (member : Applier) → AreHeld references.now member → 0 < copies (holding_in member.names) (entry_of result.now) }
{
    if place >= references.len() {
        panic!(rt; "there is no such reference");
    }
    &references[place]
}

/// What is wanted of a member that holds these references.
fn made(
    rt: &(impl Abort + Wait),
    member: &mut Applier,
    variables: u16,
    references: &[Ref],
    wanted: Wanted,
) -> Result<Ref, Stop>
    requires range { (holding_in member.old.names).variables ≡ variables }
    requires held { AreHeld references.now member.old }
    ensures ok { IfOk result (λ r. ((e : Entry) → copies (holding_in member.new.names) e ≡ copies (holding_in member.old.names) e + weight (entry_of r) e)) }
    ensures stop { OnErr result (Keeps (holding_in member.old.names) (holding_in member.new.names)) }
    ensures range { (holding_in member.new.names).variables ≡ variables }
    ensures same { IsSame member.old member.new }
{
    match wanted {
        Wanted::Constant(value) => member.constant(value),
        Wanted::Literal(variable) => {
            if variable >= variables {
                panic!(rt; "there is no such variable");
            }
            member.literal(rt, variable)
        }
        Wanted::Copied(f) => member.copy(at(rt, references, f)),
        Wanted::Applied(op, f, g) => {
            member.apply(rt, op, at(rt, references, f), at(rt, references, g))
        }
        Wanted::Chosen(f, g, h) => {
            let f = at(rt, references, f);
            member.ite(rt, f, at(rt, references, g), at(rt, references, h))
        }
    }
}

impl Builder {
    /// Whether there is memory for the place of one more reference.
    pub fn has_place(&mut self) -> bool
        ensures { forest_of self.new.member ≡ forest_of self.old.member }
    {
        self.references.reserve(1).is_ok()
    }

    /// Makes a reference, and tells its place. Where memory is refused for its place nothing is
    /// made.
    pub fn make(&mut self, rt: &(impl Abort + Wait), wanted: Wanted) -> Result<usize, Stop>
        ensures { forest_of self.new.member ≡ forest_of self.old.member }
    {
        if !self.has_place() {
            return Err(Stop::Memory);
        }
        let references = self.references.as_slice();
        let reference = made(rt, &mut self.member, self.variables, references, wanted)?;
        let place = self.references.len();
        keep(rt, &mut self.references, reference);
        Ok(place)
    }

    /// Gives the reference at a place back. The last one comes to this place.
    pub fn give_back(&mut self, rt: &impl Abort, place: usize)
        ensures { forest_of self.new.member ≡ forest_of self.old.member }
    {
        if place >= self.references.len() {
            panic!(rt; "there is no such reference");
        }
        let reference = self.references.swap_remove(place);
        self.member.give_back(reference);
    }

    /// Gives all references back.
    pub fn give_all_back(&mut self, rt: &impl Abort)
        ensures { forest_of self.new.member ≡ forest_of self.old.member }
    {
        self.give_back_from(rt, 0);
    }

    /// Gives the references from a place on back.
    pub fn give_back_from(&mut self, rt: &impl Abort, place: usize)
        ensures { forest_of self.new.member ≡ forest_of self.old.member }
    {
        for _ in place..self.references.len() {
            self.give_back(rt, place);
        }
    }

    /// How many references there are.
    pub fn count(&self) -> usize {
        self.references.len()
    }

    /// How many nodes are in use, as the member tells it.
    pub fn nodes_in_use(&self) -> u32 {
        self.member.nodes_in_use()
    }

    /// Does an operation of another member, if one is offered, and tells whether it did.
    pub fn serve(&mut self, rt: &(impl Abort + Wait)) -> bool
        ensures { forest_of self.new.member ≡ forest_of self.old.member }
    {
        self.member.serve(rt)
    }

    /// Whether the references at two places have one function.
    pub fn is_same(&self, rt: &impl Abort, f: usize, g: usize) -> bool {
        let references = self.references.as_slice();
        self.member
            .same(at(rt, references, f), at(rt, references, g))
    }

    /// Whether the operation of the references at two places has the function of a third, where a
    /// cell has its result.
    pub fn cached_is(
        &mut self,
        rt: &impl Abort,
        op: Op,
        f: usize,
        g: usize,
        r: usize,
    ) -> Option<bool>
        ensures { forest_of self.new.member ≡ forest_of self.old.member }
    {
        let references = self.references.as_slice();
        let f = at(rt, references, f);
        let g = at(rt, references, g);
        self.member.cached_is(op, f, g, at(rt, references, r))
    }

    /// Takes in another member of the forest, which is not worker 0, with its references: they come
    /// behind these, from the place on that is told.
    pub fn absorb(&mut self, rt: &impl Abort, other: Builder) -> usize
        requires { forest_of other.member ≡ forest_of self.old.member }
        ensures { forest_of self.new.member ≡ forest_of self.old.member }
    {
        if other.is_first {
            panic!(rt; "worker 0 is taken in by nobody");
        }
        if self.references.len() > MOST_HELD || other.references.len() > MOST_HELD {
            panic!(rt; "there is no room");
        }
        let place = self.references.len();
        let Builder {
            member,
            references,
            variables: _,
            is_first: _,
        } = other;
        self.member.absorb(member);
        keep_all(rt, &mut self.references, references);
        place
    }

    /// Closes the forest in vain, since another member is out.
    pub fn is_refused(self, rt: &(impl Abort + Wait)) -> Builder
        ensures { forest_of result.member ≡ forest_of self.member }
    {
        let Builder {
            member,
            references,
            variables,
            is_first,
        } = self;
        match member.close(rt) {
            Err(member) => Builder {
                member,
                references,
                variables,
                is_first,
            },
            Ok(_) => panic!(rt; "nobody else is out"),
        }
    }

    /// Closes the forest with its references held: how many slots have a count above 0. Nobody can
    /// give them back after it.
    pub fn close_holding(self, rt: &(impl Abort + Wait)) -> u32 {
        let Builder {
            member,
            references,
            variables: _,
            is_first: _,
        } = self;
        let tally = member.close(rt).ok().expect(rt, "it is alone");
        let _kept = unsafe { ManuallyDrop::new_unchecked(references) };
        tally.counted
    }

    /// Gives all references back and closes the forest: how many slots have a count above 0.
    pub fn close(self, rt: &(impl Abort + Wait)) -> u32 {
        let mut builder = self;
        builder.give_all_back(rt);
        assert!(rt; builder.references.is_empty());
        let Builder {
            member,
            references,
            variables: _,
            is_first: _,
        } = builder;
        references.destroy_empty();
        let tally = member.close(rt).ok().expect(rt, "it is alone");
        tally.counted
    }
}
