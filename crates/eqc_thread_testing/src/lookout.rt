//! How many threads a process has while something is done. A `Threads` has no calls, so that none
//! of them could count the threads that are started: the system is asked, again and again, in a
//! thread beside.
ghost use Rattle.std.specs.Thread.{IsSync};

use std::os::unix::fs::MetadataExt;
use std::rt::Files;
use std::sync::atomic::{AtomicU64, Ordering};
use std::thread;
use std::thread::{Threads, join};

/// Linux has a folder there for each thread of the process that looks, to which a link counts, and
/// two more links to the whole.
const FOLDERS: &str = "/proc/self/task";

const OTHER_LINKS: u64 = 2;

/// The thread that counts.
const COUNTS: u64 = 1;

/// For how many turns the end of threads is waited for.
const TURNS: u32 = 1_000_000;

/// What knows how many threads there are.
pub trait Census {
    /// How many threads the process has, or 0 where the system doesn't say.
    fn threads(&self) -> u64;
}

impl Census for HostRuntime {
    fn threads(&self) -> u64 {
        match self.metadata(FOLDERS) {
            Ok(folders) => folders.nlink().saturating_sub(OTHER_LINKS),
            Err(_) => 0,
        }
    }
}

/// Waits until the process has one thread, or for long: one that was joined may be counted for a
/// moment yet.
fn settle(rt: &impl Census) {
    for _ in 0..TURNS {
        if rt.threads() <= 1 {
            return;
        }
        thread::yield_now();
    }
}

/// Counts the threads of the process while something is done, as long as it is open.
#[derive(Drop)]
pub struct Lookout {
    /// Whether it is open, and whether what is done is over: 1, or else 0.
    is_open: AtomicU64,
    is_over: AtomicU64,
    most: AtomicU64,
}

impl Lookout {
    /// One that isn't open yet.
    pub fn new() -> Lookout {
        Lookout {
            is_open: AtomicU64::new(0),
            is_over: AtomicU64::new(0),
            most: AtomicU64::new(0),
        }
    }

    /// From now on threads are counted.
    pub fn open(&self) {
        self.is_open.store(1, Ordering::SeqCst);
    }

    /// From now on none are.
    pub fn close(&self) {
        self.is_open.store(0, Ordering::SeqCst);
    }

    /// Whether so many threads were seen at once, or more, with the one in which something is done:
    /// where it is to be one, no other.
    pub fn has_seen(&self, threads: u32) -> bool {
        let most = self.most.load(Ordering::SeqCst);
        let wanted = u64::from(threads) + COUNTS;
        if threads == 1 {
            most == wanted
        } else {
            most >= wanted
        }
    }

    fn is_open(&self) -> bool {
        self.is_open.load(Ordering::SeqCst) == 1
    }

    /// Counts until what is done is over.
    fn count(&self, rt: &impl Census) {
        for _ in 0..u64::MAX {
            if self.is_over.load(Ordering::SeqCst) == 1 {
                return;
            }
            if self.is_open() {
                let threads = rt.threads();
                if self.is_open() {
                    self.most.fetch_max(threads, Ordering::SeqCst);
                }
            }
            thread::yield_now();
        }
    }

    /// Does something, and counts meanwhile in a thread of its own, once the process has no other
    /// threads any more: so it is called from the only one. Where that thread can't be started
    /// nothing is counted. One lookout counts once.
    pub fn beside<R: Census + Threads + Sync, X, W: FnOnce() -> X>(&self, rt: &R, work: W) -> X
        requires { W.pre work }
    {
        settle(rt);
        let count = move || -> ()
            requires { IsSync R.row }
        { self.count(rt) };
        let done = move || -> X
            requires { W.pre work }
        {
            let found = work();
            self.is_over.store(1, Ordering::SeqCst);
            found
        };
        let (_, found) = join(rt, count, done);
        found
    }
}
