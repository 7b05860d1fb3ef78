//! Replies to the requests of connections, from a running zone and in bounded memory.
//!
//! A [`ConnectionHandler`] answers a query or an update with one message, and a transfer with a [`Transfer`], which owns its versions and makes each message once the connection
//! has taken the one before. Where updates must survive a restart, it submits those of peers that may update to the update thread, and answers them later. Updates
//! that come after one that waits on their connection are submitted with it.
#![tactic(auto)]

mod connection_handler;
mod pending_updates;
mod transfer;
mod transfer_reply;
mod update_replies;

pub use connection_handler::ConnectionHandler;
pub use transfer::Transfer;
