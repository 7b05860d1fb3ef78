//! Requests and replies on streams and by datagrams (RFC 1035, 4.2), with no device and no zone.
//!
//! [`serve_datagrams`] answers requests in datagrams one after another, and [`serve_udp`] the same through a [`Gate`]. For a device that reports its datagrams, its contract says what is sent:
//! the replies, in order, each to the client that sent the request (`EndsBy`). A [`Handler`] says what a reply is. For streams, which
//! `tcp_connections` serves, this crate has their octets and the count of their failures ([`Counted`]).
#![tactic(auto)]

mod allowed;
mod counted;
mod datagrams;
mod gate;
mod gated;
mod handler;
mod stream_end;
mod udp;
mod uncovered;

pub use allowed::Allowed;
pub use counted::{Counted, DeviceFailed, Stream};
pub use datagrams::Datagrams;
pub use gate::Gate;
pub use gated::serve_udp;
pub use handler::Handler;
pub use stream_end::StreamEnd;
pub use udp::{DatagramsEnd, serve_datagrams};
pub use uncovered::Uncovered;
