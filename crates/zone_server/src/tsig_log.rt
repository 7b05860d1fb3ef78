//! Who gets to know of signed requests that are refused.
use dns_name::Name;
use std::net::SocketAddr;
use std::sync::Wait;

/// Why a signed request is refused (RFC 8945, 5.2).
#[derive(Clone, Copy, Debug, PartialEq, Eq)]
pub enum TsigFault {
    /// No key has the name and the algorithm.
    BadKey,
    /// The MAC isn't the message's.
    BadSig,
    /// The time is outside the fudge.
    BadTime,
    /// The MAC is cut short.
    BadTrunc,
}

/// A log of signed requests that are refused.
pub trait TsigLog {
    /// Logs that a request from an address is refused, which names this key, and whether it is an update.
    fn tell_fault<R: Wait>(
        &self,
        rt: &R,
        from: SocketAddr,
        key: &Name,
        fault: TsigFault,
        is_update: bool,
    );
}
