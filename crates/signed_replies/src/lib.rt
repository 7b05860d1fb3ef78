//! Replies to signed requests (RFC 8945, 5).
//!
//! A [`SignedDatagrams`] or [`SignedConnections`] gets each request before a handler that knows nothing of TSIG, and verifies it. One without a TSIG gets that handler's reply as it is; of one that is
//! signed the handler gets the message without its TSIG, by a peer with the rights of the key's holder, and its reply is signed. Any other gets the error of RFC 8945, 5.2, and the
//! handler doesn't see it.
#![tactic(auto)]

mod bare;
mod clock;
mod connections;
mod datagrams;
mod errors;
mod key_ring;
mod limit;
mod messages;
mod pending_times;
mod plain_room;
mod prepared;
mod queued;
mod refusal;
mod signing;

pub use clock::{SystemClock, UnixClock};
pub use connections::SignedConnections;
pub use datagrams::SignedDatagrams;
pub use key_ring::{KeyRights, KeyRing, RingKeys};
pub use messages::{STREAM_FUDGE, SignedMessages};
pub use plain_room::PlainRoom;
pub use queued::QueuedSigner;
