//! What is due, and what is heard.
use std::net::SocketAddr;

/// What is due.
#[derive(Clone, Copy, PartialEq, Eq)]
pub enum Due {
    /// A NOTIFY is sent: to this address, of so many octets at the front of the buffer.
    Send { to: SocketAddr, len: usize },
    /// The secondary at this address is told of as one that doesn't answer.
    Silent(SocketAddr),
}

/// What is heard of a secondary.
#[derive(Clone, Copy, PartialEq, Eq)]
pub enum Heard {
    /// It has answered what it was told last.
    Answered,
    /// It has answered again, which was told of as one that doesn't.
    Again,
}
