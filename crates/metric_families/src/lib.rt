//! What a server tells of itself, as families of samples for Prometheus (prometheus.io, Metric and label naming).
//!
//! [`server_families`] are those of what is known without counters, and [`counter_families`] those of the numbers that a server's threads count.
#![tactic(auto)]

mod counted;
mod kinds;
mod process;
mod server;
mod single;
mod times;

pub use counted::counter_families;
pub use process::{ProcessFacts, process_families};
pub use server::{
    Drops, Facts, SecondaryFacts, StoreFacts, VERSION, drop_families, secondary_families,
    server_families, store_families,
};
