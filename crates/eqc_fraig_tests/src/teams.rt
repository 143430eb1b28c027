//! Graphs about which several threads ask: they are started, and what is found is what one thread
//! finds.

use crate::ends::same;
use crate::sweeps::{new_sweep, parity};
use eqc_sweep::{Effort, Sweep, Tally, Twins, below, copy, no_copies};
use eqc_thread_testing::{Census, Lookout};
use eqc_xag::{Graph, Node};
use std::alloc::{AllocError, Global};
use std::thread::Threads;

/// So many parities are made twice, each over variables of its own: as many questions as are asked
/// at once, four for each of sixteen threads.
const PARITIES: u32 = 64;

/// Each is over so many, so that a question takes about a millisecond, and a thread lives for some.
const WIDTH: u32 = 24;

/// What a question may have, and all questions at once.
const CONFLICTS: u64 = 1_000;

const WORK: u64 = 10_000_000_000;

/// So often it is tried to see the threads at once.
const TRIES: u32 = 20;

/// How it is asked whether parities are equal.
#[derive(Clone, Copy)]
enum Way {
    /// As their nodes are copied.
    Copied,
    /// Of each pair of literals.
    Twins,
    /// Of one pair after the other, with what those before it leave.
    InTurn,
}

/// What is found: the graph, the literals that nodes have in it which are copied, what copying them
/// took, and the pairs that are equal.
#[derive(Drop)]
struct Found {
    nodes: Vec<Node>,
    literals: Vec<Option<u32>>,
    tally: Tally,
    equal: Vec<Twins>,
}

impl Found {
    fn is(&self, other: &Found) -> bool {
        self.nodes == other.nodes
            && self.literals == other.literals
            && self.tally == other.tally
            && self.equal == other.equal
    }

    /// Whether each parity is found equal to the one that is made another way.
    fn has_all(&self) -> bool {
        let equal = self.equal.len() as u64;
        self.tally.found.saturating_add(equal) == u64::from(PARITIES)
    }
}

/// The variables of a parity, from the first one on or from the last one on.
fn variables(alloc: Global, parity: u32, is_back: bool) -> Result<Vec<u32>, AllocError> {
    let first = parity.wrapping_mul(WIDTH);
    let mut all = Vec::new(alloc);
    for k in 0..WIDTH {
        let place = if is_back { WIDTH - 1 - k } else { k };
        all.push(first.wrapping_add(place))?;
    }
    Ok(all)
}

/// Makes a parity from its first variable on, or from its last one on.
fn make_parity(
    alloc: Global,
    sweep: &mut Sweep,
    number: u32,
    is_back: bool,
) -> Result<u32, AllocError> {
    let variables = variables(alloc, number, is_back)?;
    parity(sweep, &variables)
}

/// Makes all parities in both ways.
fn make_twins(alloc: Global, sweep: &mut Sweep) -> Result<Vec<Twins>, AllocError> {
    let mut all = Vec::new(alloc);
    for number in 0..PARITIES {
        let x = make_parity(alloc, sweep, number, false)?;
        let y = make_parity(alloc, sweep, number, true)?;
        all.push(Twins {
            place: number as usize,
            x,
            y,
            used: 0,
        })?;
    }
    Ok(all)
}

/// The nodes of a graph.
fn nodes_of(alloc: Global, graph: &Graph) -> Result<Vec<Node>, AllocError> {
    let mut nodes = Vec::new(alloc);
    for k in 0..graph.len() {
        nodes.push(graph.node(k))?;
    }
    Ok(nodes)
}

/// The literals of pairs.
fn literals_of(alloc: Global, twins: &[Twins]) -> Result<Vec<u32>, AllocError> {
    let mut literals = Vec::new(alloc);
    for pair in twins {
        literals.push(pair.x)?;
        literals.push(pair.y)?;
    }
    Ok(literals)
}

/// The literals that nodes of a graph have in a copy of it.
fn copied_into<R: Threads + Sync>(
    rt: &R,
    alloc: Global,
    graph: &Graph,
    twins: &[Twins],
    sweep: &mut Sweep,
) -> Result<Vec<Option<u32>>, AllocError> {
    let marks = below(alloc, graph, &literals_of(alloc, twins)?)?;
    let mut table = no_copies(alloc, graph)?;
    let told = |_entered: u32| {};
    copy(rt, graph, &marks, sweep, &mut table, &told)?;
    Ok(table)
}

/// What is found where parities are copied by so many threads.
fn found_copying<R: Threads + Sync>(
    rt: &R,
    alloc: Global,
    workers: u32,
) -> Result<Found, AllocError> {
    let mut plain = new_sweep(alloc, Effort::none())?;
    let twins = make_twins(alloc, &mut plain.sweep)?;
    let mut made = new_sweep(alloc, Effort::of(CONFLICTS, WORK).by(workers))?;
    let literals = copied_into(rt, alloc, plain.sweep.graph(), &twins, &mut made.sweep)?;
    Ok(Found {
        nodes: nodes_of(alloc, made.sweep.graph())?,
        literals,
        tally: made.sweep.tally(),
        equal: Vec::new(alloc),
    })
}

/// What is found where so many threads ask about pairs of parities.
fn found_asking<R: Threads + Sync>(
    rt: &R,
    alloc: Global,
    workers: u32,
) -> Result<Found, AllocError> {
    let mut made = new_sweep(alloc, Effort::none().by(workers))?;
    let twins = make_twins(alloc, &mut made.sweep)?;
    let equal = made.sweep.equal_among(rt, &twins, CONFLICTS)?;
    Ok(Found {
        nodes: nodes_of(alloc, made.sweep.graph())?,
        literals: Vec::new(alloc),
        tally: made.sweep.tally(),
        equal,
    })
}

/// What is found where so many threads ask about one pair after the other.
fn found_in_turn<R: Threads + Sync>(
    rt: &R,
    alloc: Global,
    workers: u32,
) -> Result<Found, AllocError> {
    let mut made = new_sweep(alloc, Effort::none().by(workers))?;
    let twins = make_twins(alloc, &mut made.sweep)?;
    let mut conflicts = CONFLICTS * u64::from(PARITIES);
    let equal = made.sweep.equal_in_turn(rt, &twins, &mut conflicts)?;
    Ok(Found {
        nodes: nodes_of(alloc, made.sweep.graph())?,
        literals: Vec::new(alloc),
        tally: made.sweep.tally(),
        equal,
    })
}

/// What is found by so many threads.
fn found_by<R: Threads + Sync>(
    rt: &R,
    alloc: Global,
    way: Way,
    workers: u32,
) -> Result<Found, AllocError> {
    match way {
        Way::Copied => found_copying(rt, alloc, workers),
        Way::Twins => found_asking(rt, alloc, workers),
        Way::InTurn => found_in_turn(rt, alloc, workers),
    }
}

/// Whether so many threads find all parities equal, and the same as this, which one found.
fn find_alike<R: Threads + Sync>(
    rt: &R,
    alloc: Global,
    way: Way,
    workers: u32,
    alone: &Found,
) -> Result<bool, AllocError> {
    let found = found_by(rt, alloc, way, workers)?;
    Ok(found.has_all() && found.is(alone))
}

/// How it is asked, and its name.
static WAYS: &[(&str, Way)] = &[
    ("copies", Way::Copied),
    ("twins", Way::Twins),
    ("in turn", Way::InTurn),
];

/// How many threads are to find what one finds.
static SEVERAL: &[u32] = &[2, 3, 4, 16];

/// How many threads find something else than one, if there are such.
fn first_unlike<R: Threads + Sync>(
    rt: &R,
    alloc: Global,
    way: Way,
) -> Result<Option<u32>, AllocError> {
    let alone = found_by(rt, alloc, way, 1)?;
    for workers in SEVERAL {
        if !find_alike(rt, alloc, way, *workers, &alone)? {
            return Ok(Some(*workers));
        }
    }
    Ok(None)
}

/// Run with each start of a thread refused in turn, and all later ones, by
/// `scripts/dev/refuse_memory copies`.
#[test]
fn several_threads_find_what_one_finds(rt: HostRuntime) {
    for (name, way) in WAYS {
        same(&rt, first_unlike(&rt, rt.alloc(), *way), Ok(None), name);
    }
}

/// How many threads are to ask, and how many of them are to be seen at once: of sixteen the first
/// may have ended as the last begin.
#[derive(Clone, Copy)]
struct Team {
    workers: u32,
    seen: u32,
}

#[rattlefmt::skip]
static TEAMS: &[Team] = &[
    Team { workers: 1, seen: 1 },
    Team { workers: 2, seen: 2 },
    Team { workers: 4, seen: 4 },
    Team { workers: 16, seen: 8 },
];

/// Whether a team finds what this one thread found in each of some tries, in the last of which it
/// is seen.
fn are_seen_by<R: Threads + Sync>(
    rt: &R,
    alloc: Global,
    way: Way,
    team: Team,
    alone: &Found,
    lookout: &Lookout,
) -> Result<bool, AllocError> {
    lookout.open();
    for _ in 0..TRIES {
        if !find_alike(rt, alloc, way, team.workers, alone)? {
            return Ok(false);
        }
        if lookout.has_seen(team.seen) {
            return Ok(true);
        }
    }
    Ok(false)
}

/// The same, with a lookout beside them.
fn are_seen<R: Census + Threads + Sync>(
    rt: &R,
    alloc: Global,
    way: Way,
    team: Team,
    alone: &Found,
) -> Result<bool, AllocError> {
    let lookout = Lookout::new();
    lookout.beside(rt, || are_seen_by(rt, alloc, way, team, alone, &lookout))
}

/// How many threads aren't seen that are to ask, or find something else than one, if there are
/// such.
fn first_unseen<R: Census + Threads + Sync>(
    rt: &R,
    alloc: Global,
    way: Way,
) -> Result<Option<u32>, AllocError> {
    let alone = found_by(rt, alloc, way, 1)?;
    for team in TEAMS {
        if !are_seen(rt, alloc, way, *team, &alone)? {
            return Ok(Some(team.workers));
        }
    }
    Ok(None)
}

#[test]
fn several_threads_are_started(rt: HostRuntime) {
    for (name, way) in WAYS {
        same(&rt, first_unseen(&rt, rt.alloc(), *way), Ok(None), name);
    }
}
