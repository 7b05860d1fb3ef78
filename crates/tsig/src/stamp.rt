//! What a TSIG of ours says but for its MAC (RFC 8945, 4.2 and 5.3).
use crate::tsig_error::TsigError;

/// The fudge of what is signed, in seconds (RFC 8945, 10).
pub const FUDGE: u16 = 300;

/// What a TSIG of ours says but for its MAC.
#[derive(Clone, Copy, Debug, PartialEq, Eq)]
pub struct Stamp {
    /// Time Signed, in seconds since 1970, of which 48 bits are written.
    pub time: u64,
    /// The fudge, in seconds.
    pub fudge: u16,
    /// The error, with its Other Data.
    pub error: TsigError,
}
