//! Who asks, and what of it is allowed (RFC 2136, 3.3; RFC 5936, 5).
ghost use Rattle.std.specs.Prelude.{◌≡◌};
ghost use Rattle.serve_core.specs.Transfers.{peer_over};

use crate::transport::Transport;

/// Who asks, and what of it is allowed.
#[derive(Clone, Copy, Debug, PartialEq, Eq)]
pub struct Peer {
    /// Whether it may update the zone (RFC 2136, 3.3).
    pub may_update: bool,
    /// Whether it may have the zone sent (RFC 5936, 5).
    pub may_transfer: bool,
    /// What carries its requests and their replies (RFC 1035, 4.2).
    pub transport: Transport,
}

impl Peer {
    /// One that asks over a transport, and may do all or nothing.
    pub fn over(transport: Transport, may: bool) -> Peer
        ensures peer { result ≡ peer_over transport may }
        ensures carried { result.transport ≡ transport }
    {
        Peer {
            may_update: may,
            may_transfer: may,
            transport,
        }
    }
}
