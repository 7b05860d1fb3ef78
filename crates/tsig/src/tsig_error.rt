//! What a TSIG tells (RFC 8945, 3).
ghost use Rattle.std.specs.Prelude.{◌≡◌, ◌≤◌, length};
ghost use Rattle.tsig.specs.Fields.{error_number, other_of, time_octets};

use arrayvec::ArrayVec;

/// How many octets a time has (RFC 8945, 4.2).
pub(crate) const TIME: usize = 6;

/// The error that a TSIG tells (RFC 8945, 3).
#[derive(Clone, Copy, Debug, PartialEq, Eq)]
pub enum TsigError {
    /// None.
    NoError,
    /// The request's MAC isn't right (RFC 8945, 5.2.2).
    BadSig,
    /// The request's key or its algorithm isn't known (RFC 8945, 5.2.1).
    BadKey,
    /// The request's time is outside its fudge; the server's time, in seconds since 1970 (RFC 8945, 5.2.3).
    BadTime(u64),
    /// The request's MAC is cut short (RFC 8945, 5.2.4).
    BadTrunc,
}

impl TsigError {
    /// The error's number (RFC 8945, 3).
    pub(crate) fn number(self) -> u16
        ensures { result ≡ error_number self }
    {
        match self {
            TsigError::NoError => 0,
            TsigError::BadSig => 16,
            TsigError::BadKey => 17,
            TsigError::BadTime(_) => 18,
            TsigError::BadTrunc => 22,
        }
    }

    /// The error's Other Data (RFC 8945, 5.2.3).
    pub(crate) fn other(self) -> ArrayVec<u8, TIME>
        ensures octets { result.items ≡ other_of self }
        ensures few { length result.items ≤ TIME }
    {
        match self {
            TsigError::NoError => ArrayVec::new(),
            TsigError::BadSig => ArrayVec::new(),
            TsigError::BadKey => ArrayVec::new(),
            TsigError::BadTime(now) => time_octets(now),
            TsigError::BadTrunc => ArrayVec::new(),
        }
    }
}

/// A time in 48 bits (RFC 8945, 4.2).
pub(crate) fn time_octets(time: u64) -> ArrayVec<u8, TIME>
    ensures octets { result.items ≡ time_octets time }
    ensures size { length result.items ≡ TIME }
{
    let high = (time / 4_294_967_296 % 65_536) as u16;
    let low = (time % 4_294_967_296) as u32;
    let mut octets = ArrayVec::new();
    let _ = octets.try_extend_from_slice(&high.to_be_bytes());
    let _ = octets.try_extend_from_slice(&low.to_be_bytes());
    octets
}
