//! A worker's buffers.
ghost use Rattle.std.specs.Prelude.{◌≡◌, length};
ghost use Rattle.dns_message.specs.Message.{message_limit};

use dns_message::MAX_LIMIT;
use std::alloc::{AllocError, Global};

/// A worker's buffers for a request and a reply. They are allocated once, so that no request needs memory for its octets.
pub struct Scratch {
    pub(crate) request: Vec<u8>,
    pub(crate) reply: Vec<u8>,
    ghost request_room: { length request.items ≡ message_limit },
    ghost reply_room: { length reply.items ≡ message_limit },
}

impl Drop for Scratch {
    fn drop(self) {
        let Scratch {
            request: _,
            reply: _,
        } = self;
    }
}

impl Scratch {
    /// Buffers for the longest request and reply, all zero.
    pub fn new(alloc: Global) -> Result<Scratch, AllocError> {
        Ok(Scratch {
            request: vec![in alloc; 0u8; MAX_LIMIT]?,
            reply: vec![in alloc; 0u8; MAX_LIMIT]?,
        })
    }
}
