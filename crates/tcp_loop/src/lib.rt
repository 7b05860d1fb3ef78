//! A worker thread's loop over many connections (RFC 7766, 6.2).
//!
//! An [`EventLoop`] has the connections of a worker thread. [`EventLoop::poll_once`] waits until something may be ready, accepts new
//! connections, serves those that may go on by a share each, and, once a second, ends those whose peers take too long. A [`Readiness`] says
//! what may be ready, which may be wrong, and connections are accepted through [`Arrivals`]. A connection whose request is answered later
//! goes on once its key is reported.
#![tactic(auto)]

mod arrivals;
mod readiness;
mod run_queue;
mod tally;
mod worker;

pub use arrivals::{Arrivals, Refusal, Remote};
pub use readiness::{NotWatched, Readiness};
pub use tally::Tally;
pub use worker::{EventLoop, Plan, TurnEnd};
