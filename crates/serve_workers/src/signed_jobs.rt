//! Jobs whose requests may be signed (RFC 8945).
ghost use Rattle.std.specs.Prelude.{◌≡◌};

use signed_replies::KeyRights;
use tsig::Keys;

/// The keys that a server shares with clients, and what the holder of each may do, in the order of the keys.
#[derive(Clone, Copy)]
pub struct SharedKeys<'a> {
    /// The keys.
    pub keys: &'a Keys,
    /// What their holders may do.
    pub rights: &'a [KeyRights<'a>],
}

/// A job whose requests may be signed, with the keys and the clock by which they are verified.
#[derive(Drop)]
pub struct SignedJob<'a, J, C> {
    /// The job.
    pub job: J,
    pub(crate) keys: SharedKeys<'a>,
    pub(crate) clock: &'a C,
}

impl<'a, J: Drop, C> SignedJob<'a, J, C> {
    /// A job with these keys and this clock.
    pub(crate) fn new(job: J, keys: SharedKeys<'a>, clock: &'a C) -> SignedJob<'a, J, C>
        ensures { result.job ≡ job }
    {
        SignedJob { job, keys, clock }
    }
}
