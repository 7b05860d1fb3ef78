//! Counters of each thread, which others read now and then, and none of which a request waits for (own).
//!
//! [`Counters`] are the numbers of one thread: those of each [`Counter`], and how long updates and syncs took. [`SharedCounters`] is what
//! others see of them: the thread shows its numbers there, unless somebody reads at that moment. Numbers go up, modulo 2^64: after 2^64 - 1 comes 0,
//! which Prometheus takes for a restart.
#![tactic(auto)]

mod address_family;
mod connection_end;
mod counter;
mod counters;
mod opcode;
mod open_updates;
mod qtype;
mod rcode;
mod refusal;
mod secondary;
mod server;
mod shared;
mod times;
mod transfer;
mod transport;

pub use address_family::AddressFamily;
pub use connection_end::ConnectionEnd;
pub use counter::{COUNTERS, Counter, counters_differ};
pub use counters::Counters;
pub use opcode::Opcode;
pub use qtype::Qtype;
pub use rcode::Rcode;
pub use refusal::Refusal;
pub use secondary::SecondaryCounters;
pub use server::ServerCounters;
pub use shared::SharedCounters;
pub use times::{BOUNDS, BUCKETS, Times};
pub use transfer::Transfer;
pub use transport::Transport;
