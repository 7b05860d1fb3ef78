//! Bringing the zone that a server serves to another one: its transfer, and an update (RFC 5936; RFC 2136).
//!
//! [`zone_of_server`] asks for the zone that a server serves, and [`send_update`] sends an update. Both write to a writer and read from a reader, which
//! may be one connection, in messages after their length (RFC 1035, 4.2.2). With a key, what is sent is signed, and so must the replies be (RFC 8945).
#![tactic(auto)]

mod fault;
mod frames;
mod replies;
mod signatures;
mod transfer;
mod update;

pub use fault::{DeployFault, Request, ServerFault};
pub use transfer::zone_of_server;
pub use update::send_update;
