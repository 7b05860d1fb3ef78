//! Replies to updates by datagram that another thread makes (RFC 8945, 5.3).
ghost use Rattle.std.specs.Prelude.{◌≡◌, ◌∷◌, [], ℕ, slice_get, IfOk, IfSome};
ghost use Rattle.signed_replies.specs.Signed.{signed_queued};

use crate::clock::UnixClock;
use crate::plain_room::PlainRoom;
use std::alloc::{AllocError, Global};
use tsig::{Keys, RequestTsig};

/// Signs the replies to updates by datagram that were queued, by the keys of a server.
#[derive(Drop)]
pub struct QueuedSigner<'k, C> {
    keys: &'k Keys,
    clock: C,
    room: PlainRoom,
}

impl<'k, C: UnixClock> QueuedSigner<'k, C> {
    /// Such a signer. An error where memory is refused.
    pub fn new(alloc: Global, keys: &'k Keys, clock: C) -> Result<QueuedSigner<'k, C>, AllocError>
        ensures { IfOk result (λ signer. signer.keys.now ≡ keys.now) }
    {
        Ok(QueuedSigner {
            keys,
            clock,
            room: PlainRoom::new(alloc)?,
        })
    }

    /// The reply of these octets to a request with this TSIG, signed with the clock's time; None where they are more than a message has, or the key isn't one of the server's.
    pub fn sign(&mut self, tsig: RequestTsig, octets: &[u8]) -> Option<&[u8]>
        ensures { IfSome result (λ signed. (now : ℕ) × (signed_queued (slice_get self.old.keys.now tsig.key) tsig now octets.now ≡ signed.now ∷ [])) }
    {
        let now = self.clock.now();
        self.room.signed(self.keys, tsig, now, octets)
    }
}
