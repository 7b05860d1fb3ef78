//! What updates get (RFC 2136, 2.2 and 3.8).
ghost use Rattle.std.specs.Prelude.{◌≡◌, length, replicate, vec_capacity};
ghost use Rattle.update_batches.specs.Verdict.{serials_with, told_verdict, made_verdict, failed};

use dns_rdata::{Rcode, Serial};

/// The serials of the zone before and after an update.
#[derive(Clone, Copy)]
pub struct Serials {
    /// The serial of the zone before it.
    pub before: Serial,
    /// The serial of the zone after it.
    pub after: Serial,
}

/// What an update gets: its code, and the serials of the zone that are its own.
#[derive(Clone, Copy)]
pub struct Verdict {
    /// The code (RFC 2136, 2.2).
    pub code: Rcode,
    /// The serials of the zone in which it was judged and of the one that it left, which are equal if it changed nothing. None if its code is not NOERROR.
    pub serials: Option<Serials>,
}

/// The serials of an update with a code that makes no version, in a version of this serial: none but with NOERROR, which leaves the serial as it is (own).
fn serials_with(code: Rcode, serial: Serial) -> Option<Serials>
    ensures { result ≡ serials_with serial.0 code }
{
    match code {
        Rcode::NoError => Some(Serials {
            before: serial,
            after: serial,
        }),
        _ => None,
    }
}

impl Verdict {
    /// The verdict of an update that gets this code in a version of this serial, and makes none.
    pub fn with_code(code: Rcode, serial: Serial) -> Verdict
        ensures { result ≡ told_verdict serial.0 code }
    {
        Verdict {
            code,
            serials: serials_with(code, serial),
        }
    }

    /// The verdict of an update that makes a version of one serial from a version of another.
    pub fn made(before: Serial, after: Serial) -> Verdict
        ensures { result ≡ made_verdict before.0 after.0 }
    {
        Verdict {
            code: Rcode::NoError,
            serials: Some(Serials { before, after }),
        }
    }

    /// SERVFAIL, for want of memory, of room or of the disk.
    pub fn failed() -> Verdict
        ensures { result ≡ failed }
    {
        Verdict {
            code: Rcode::ServFail,
            serials: None,
        }
    }
}

/// Gives each update of a batch SERVFAIL: none changes the zone.
pub(crate) fn fail_all(verdicts: &mut Vec<Verdict>)
    ensures failed { verdicts.new.items ≡ replicate (length verdicts.old.items) failed }
    ensures room { vec_capacity verdicts.new ≡ vec_capacity verdicts.old }
{
    verdicts.fill(Verdict::failed());
}
