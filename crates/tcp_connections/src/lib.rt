//! TCP connections as machines without a device, and the connections of a worker thread (RFC 1035, 4.2.2; RFC 7766).
//!
//! A [`ConnectionState`] is given the octets that came, and gives those that are to be sent. It holds a request until it is answered, and
//! replies until they are written: the frames of the replies, in the order of the requests. [`serve_some`] moves octets between it and a
//! stream, by a bounded share; [`serve_stream`] serves a stream to its end. While anything is to be written, nothing more is read. A
//! request whose reply is made later stays held, and those after it, until it is answered; those that may be answered
//! later, too, are taken up with it.
//!
//! A [`Connection`] of a worker thread is that machine with its peer, under a key. [`serve_ready`] serves those under some keys by a share
//! each: each by its own peer's rights, on its own stream, and none is removed except those that end. [`sweep`] ends those whose peers take
//! too long or too slowly, and [`make_room`] the one that has gone longest without a whole request when there is no place for one more.
//! There is no clock here: each call is given the time.
//!
//! When places are scarce, peers of one [`PeerGroup`] count as one: those at an IPv4 address, or at IPv6 addresses whose first 64 bits are the
//! same (own).
#![tactic(auto)]

mod blocking;
mod connection;
mod crowds;
mod deadlines;
mod ends;
mod group;
mod handler;
mod limits;
mod machine;
mod queue;
mod room;
mod serve;
mod serve_each;
mod step;
mod stream;
mod survey;
mod waiting;
mod window;

pub use blocking::{Blocking, Fault};
pub use connection::Connection;
pub use deadlines::sweep;
pub use ends::Ends;
pub use group::PeerGroup;
pub use handler::{Handler, Messages, Reply};
pub use limits::Limits;
pub use machine::ConnectionState;
pub use room::{Room, make_room};
pub use serve::serve_some;
pub use serve_each::serve_ready;
pub use step::Step;
pub use stream::serve_stream;
pub use waiting::Waiting;
