//! How far a run is, in one line on standard error that changes in place: the words of
//! `--progress`.
//!
//! The run tells a `Watch` what it does, which takes a few steps in memory. A thread beside it
//! shows that line, ten times a second and at first when a tenth of a second is over, so a short
//! run shows nothing.

use crossbeam_utils::atomic::AtomicCell;
use eqc_compare::{Gate, Progress, Stage};
use std::fmt;
use std::fmt::{Display, Formatter};
use std::rt::Clock;
use std::sync::{Condvar, Mutex, Wait};
use std::time::{Duration, Instant};

/// For how long a line stands, in milliseconds, and how long a run shows nothing at first.
const PAUSE: u64 = 100;

/// What was told of a run, and for how long it has run.
#[derive(Drop, Clone, Copy)]
pub struct Told {
    stage: Stage,
    /// How many steps are done, or outputs or words before the one that it is at.
    done: usize,
    /// Of how many; 0 where the stage doesn't come by them.
    all: usize,
    /// How many nodes are in use; 0 where the stage makes no diagrams, or hasn't yet.
    nodes: u32,
    elapsed: Duration,
}

/// Whether a line stands on the terminal, and whether none comes any more.
#[derive(Drop)]
struct Screen {
    stands: bool,
    ended: bool,
}

/// What a run tells of itself, and the one line on standard error that shows it.
#[derive(Drop)]
pub struct Watch {
    start: Option<Instant>,
    told: Mutex<Told>,
    /// Told behind each operation on diagrams, by each worker, so that none waits for it.
    nodes: AtomicCell<u32>,
    screen: Mutex<Screen>,
    ended: Condvar,
}

/// What a stage is called.
fn words(stage: Stage) -> &'static str {
    match stage {
        Stage::Reading => "reading",
        Stage::Structure => "comparing structure",
        Stage::FirstDiagrams => "diagrams",
        Stage::Sweeping => "sweeping",
        Stage::Asking => "asking what is equal",
        Stage::Adding => "comparing sums",
        Stage::Searching => "searching for differences",
        Stage::AllDiagrams => "diagrams by all workers",
        Stage::Writing => "writing",
    }
}

impl Told {
    /// Puts how far the stage is: steps that are done, or the output that it is at.
    fn put_place<W: fmt::Write>(&self, f: &mut Formatter<W>) -> fmt::Result {
        let Told { done, all, .. } = *self;
        if all == 0 {
            return Ok(());
        }
        let next = done.saturating_add(1).min(all);
        match self.stage {
            Stage::Sweeping => write!(f, ", step {done} of {all}"),
            Stage::Adding => write!(f, ", word {next} of {all}"),
            _ => write!(f, ", output {next} of {all}"),
        }
    }

    /// Puts how many nodes are in use. Those that workers share aren't counted one by one.
    fn put_nodes<W: fmt::Write>(&self, f: &mut Formatter<W>) -> fmt::Result {
        let nodes = self.nodes;
        if nodes == 0 {
            return Ok(());
        }
        match self.stage {
            Stage::AllDiagrams => write!(f, ", about {nodes} nodes"),
            _ => write!(f, ", {nodes} nodes"),
        }
    }

    /// Puts for how long the run has run.
    fn put_time<W: fmt::Write>(&self, f: &mut Formatter<W>) -> fmt::Result {
        let seconds = self.elapsed.as_secs();
        if seconds < 60 {
            return write!(f, ", {seconds}.{} s", self.elapsed.subsec_millis() / 100);
        }
        write!(f, ", {} min {} s", seconds / 60, seconds % 60)
    }
}

impl Display for Told {
    fn fmt<W: fmt::Write>(&self, f: &mut Formatter<W>) -> fmt::Result {
        write!(f, "eqc: {}", words(self.stage))?;
        self.put_place(f)?;
        self.put_nodes(f)?;
        self.put_time(f)
    }
}

impl Watch {
    /// Begins to count the time.
    pub fn new<R: Clock>(rt: &R) -> Watch {
        Watch {
            start: Instant::now(rt).ok(),
            told: Mutex::new(Told {
                stage: Stage::Reading,
                done: 0,
                all: 0,
                nodes: 0,
                elapsed: Duration::from_secs(0),
            }),
            nodes: AtomicCell::new(0),
            screen: Mutex::new(Screen {
                stands: false,
                ended: false,
            }),
            ended: Condvar::new(),
        }
    }

    /// What was told last, and for how long the run has run: none where the clock can't be read.
    pub fn told<R: Clock + Wait>(&self, rt: &R) -> Option<Told> {
        let elapsed = self.start.as_ref()?.elapsed(rt).ok()?;
        let Told {
            stage,
            done,
            all,
            ..
        } = *self.told.lock(rt);
        Some(Told {
            stage,
            done,
            all,
            nodes: self.nodes.load(),
            elapsed,
        })
    }

    /// Shows the line in place of the one that stands, until the run is over. Where the clock can't
    /// be read it shows none, and a write that fails changes nothing.
    pub fn show<R: Eprint + Clock + Wait>(&self, rt: &R) {
        let mut screen = self.screen.lock(rt);
        for _ in 0..u64::MAX {
            if screen.ended {
                return;
            }
            let pause = Duration::from_millis(PAUSE);
            let goes_on = |screen: &mut Screen| !screen.ended;
            screen = self.ended.wait_timeout_while(rt, screen, pause, goes_on).0;
            let Some(told) = self.told(rt) else {
                return;
            };
            if !screen.ended {
                let _ = eprint!(rt; "\r{told}\x1b[K");
                screen.stands = true;
            }
        }
    }

    /// Takes the line away, and shows none any more.
    fn end<R: Eprint + Wait>(&self, rt: &R) {
        let mut screen = self.screen.lock(rt);
        if screen.stands {
            let _ = eprint!(rt; "\r\x1b[K");
        }
        screen.stands = false;
        screen.ended = true;
        self.ended.notify_all();
    }
}

impl<R: Eprint + Wait> Gate<R> for Watch {
    fn enter(&self, rt: &R, _worker: u32, output: u32) {
        let mut told = self.told.lock(rt);
        // Members draw outputs in their order, and may tell of them in another.
        told.done = told.done.max(output as usize);
    }
}

impl<R: Eprint + Wait> Progress<R> for Watch {
    fn stage(&self, rt: &R, stage: Stage) {
        if stage == Stage::Writing {
            self.end(rt);
            return;
        }
        let mut told = self.told.lock(rt);
        told.stage = stage;
        told.done = 0;
        told.all = 0;
        self.nodes.store(0);
    }

    fn step(&self, rt: &R, done: usize, all: usize) {
        let mut told = self.told.lock(rt);
        told.done = done;
        told.all = all;
    }

    fn nodes(&self, _rt: &R, nodes: u32) {
        self.nodes.store(nodes);
    }
}
