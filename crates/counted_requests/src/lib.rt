//! Handlers of connections that count the requests and the replies, and what rests between two turns.
//!
//! [`CountingConnections`] has another handler answer each request, and counts it and its reply by their octets. The messages of a reply that has several
//! are counted as they are made ([`CountedMessages`]). [`Resting`] is a handler that is notified when its thread is to wait.
#![tactic(auto)]

mod connections;
mod messages;
mod resting;

pub use connections::CountingConnections;
pub use messages::CountedMessages;
pub use resting::Resting;
