//! What a reply has to know of a request's TSIG (RFC 8945, 5.3).
ghost use Rattle.std.specs.Prelude.{◌≡◌, ◌≤◌, length};
ghost use Rattle.tsig.specs.Fields.{Fields};
ghost use Rattle.tsig.specs.Verification.{request_tsig_of};

use crate::fields::Data;
use arrayvec::ArrayVec;
use hmac::MAX_MAC;

/// What a reply has to know of a request's TSIG.
#[derive(Drop)]
pub struct RequestTsig {
    /// Which of the keys it names.
    pub key: u16,
    /// Where its record stands in the request.
    pub start: usize,
    /// Its MAC, as it was sent.
    pub mac: ArrayVec<u8, MAX_MAC>,
    /// Its Time Signed, in seconds since 1970.
    pub time: u64,
    /// Its fudge, in seconds.
    pub fudge: u16,
}

impl RequestTsig {
    /// The same.
    pub fn copy(&self) -> RequestTsig
        ensures { result ≡ self.now }
    {
        let mut mac = ArrayVec::new();
        let _ = mac.try_extend_from_slice(&self.mac);
        RequestTsig {
            key: self.key,
            start: self.start,
            mac,
            time: self.time,
            fudge: self.fudge,
        }
    }
}

/// What a reply has to know of a TSIG that names this key, and stands at this position.
pub(crate) fn request_tsig_of(key: u16, start: usize, fields: &Data<'_>) -> RequestTsig
    requires { length fields.now.mac ≤ MAX_MAC }
    ensures { result ≡ request_tsig_of key start fields.now }
{
    let mut mac = ArrayVec::new();
    let _ = mac.try_extend_from_slice(fields.mac);
    RequestTsig {
        key,
        start,
        mac,
        time: fields.time,
        fudge: fields.fudge,
    }
}
