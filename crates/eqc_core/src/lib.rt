//! The pure machine under the shared diagrams: words, what each worker knows, and atomic steps.
//!
//! A slot's count is the number of its owners, and a cell's result is loaded without a count, by an
//! announcement (deferred counting: Anderson, Blelloch and Wei 2021). Here is no thread: a step is
//! one change of one word by one worker, a run is a list of steps, and the laws say that each step
//! keeps the state lawful. The running layer rests on them. Read the modules in this order:
//!
//! - `laws`, with `specs/Lawful.antt`, `specs/Laws.antt` (the steps) and `specs/Facts.antt` (what a
//!   lawful state says); `event`, the steps
//! - `state`, a state as callers have it; `playback`, what a list of events makes of it
//! - `machine`, the stored words, and in its folder the steps on them; `worker` and `phase`, what a
//!   worker knows; `agreement`, whether a cell's word is right; `table` and `homes`, the stripes'
//!   tables; `multiset`, `sizes` and `stock`, what these stand on
#![tactic(auto)]

mod agreement;
mod event;
mod homes;
pub mod laws;
mod machine;
mod multiset;
mod phase;
mod playback;
mod sizes;
mod state;
mod stock;
mod table;
mod worker;

pub use event::{Event, Step};
pub use phase::Phase;
pub use playback::{ReplayFault, replay};
pub use sizes::Sizes;
pub use state::Core;
