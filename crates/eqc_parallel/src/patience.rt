//! How long a member that has nothing left to draw goes on asking others for operations.
ghost use Rattle.std.specs.Prelude.{◌≡◌};

use crossbeam_utils::atomic::AtomicCell;
use eqc_tree::Stop;

/// So often in succession members ask in vain before they end.
const VAIN_ASKS: u64 = 1_000;

/// How long members ask. It has no part in what they find.
#[derive(Drop)]
pub struct Patience {
    /// So often in succession a member asks in vain before it ends.
    asks: u64,
    /// Whether a member stopped, or a thread could not be started: then some numbers are never
    /// drawn.
    stopped: AtomicCell<bool>,
}

impl Patience {
    /// That of members of which nothing is known: they ask for a short while.
    pub fn short() -> Patience {
        Patience {
            asks: VAIN_ASKS,
            stopped: AtomicCell::new(false),
        }
    }

    /// That of workers with so many forks: without any nothing can come, and they ask once, by
    /// which they make room for others. With some they ask as long as anybody compares, since the
    /// last outputs are often the largest.
    pub fn of_forks(forks: u32) -> Patience {
        Patience {
            asks: if forks == 0 { 1 } else { u64::MAX },
            stopped: AtomicCell::new(false),
        }
    }

    /// So often in succession a member asks in vain before it ends.
    pub(crate) fn asks(&self) -> u64 {
        self.asks
    }

    /// Tells all members that this stop came.
    pub(crate) fn note(&self, stop: Stop) -> Stop
        ensures { result ≡ stop }
    {
        self.stopped.store(true);
        stop
    }

    /// Whether a stop came.
    pub(crate) fn has_stopped(&self) -> bool {
        self.stopped.load()
    }
}
