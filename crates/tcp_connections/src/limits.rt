//! How long a connection may wait for its peer.

/// How long a connection may wait for its peer, each in nanoseconds (RFC 7766, 6.2.3; own), and how fast at least its peer has to take what
/// is written to it.
#[derive(Clone, Copy)]
pub struct Limits {
    /// For the next request, of which nothing has come.
    pub idle: u64,
    /// For the rest of a request.
    pub message: u64,
    /// For the peer to take what is to be written.
    pub reply: u64,
    /// So many octets in ten seconds, while any wait to be taken; 0 is no limit.
    pub rate: u64,
}
