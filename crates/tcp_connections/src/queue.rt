//! Octets that are added at one end and removed at the other.
ghost use Rattle.std.specs.Prelude.{◌≡◌, ◌+◌, ◌≤◌, [], ◌++◌, length, drop, option_map, IsTrue, ◌↔◌, IfSome, OnOk, OnErr};
ghost use Rattle.dns_message.specs.Frame.{frame_of, frame_in};
ghost use Rattle.dns_message.specs.Message.{message_limit};

use dns_message::take_frame;
use std::alloc::{AllocError, Global};
use std::marker::Model;

/// The octets of a frame's length (RFC 1035, 4.2.2).
const LENGTH: usize = 2;

/// Octets in a row, the first to come first. The room of removed octets is kept only while they are at most as many as those that are left.
pub(crate) struct Queue {
    octets: Vec<u8>,
    at: usize,
}

impl Drop for Queue {
    fn drop(self) {
        let Queue { octets: _, at: _ } = self;
    }
}

impl Model for Queue {
    ghost use Rattle.std.specs.Prelude.{ℕ, ◌+◌, ◌≤◌, List, length, drop};

    ghost Value = { List ℕ };

    ghost view = { λ a. drop a.at a.octets.items };

    ghost invariant = { λ a. a.at + a.at ≤ length a.octets.items };
}

impl Queue {
    /// No octets.
    pub(crate) fn new(alloc: Global) -> Queue
        ensures { result ≡ [] }
    {
        Queue {
            octets: Vec::new(alloc),
            at: 0,
        }
    }

    /// The octets.
    pub(crate) fn as_slice(&self) -> &[u8]
        ensures { result.now ≡ self.now }
    {
        &self.octets.as_slice()[self.at..]
    }

    /// Whether there are none.
    pub(crate) fn is_empty(&self) -> bool
        ensures { IsTrue result ↔ (self.now ≡ []) }
    {
        self.as_slice().is_empty()
    }

    /// Removes the first octets.
    #[tactic(auto, using(crate::proofs::QueueLemmas::advanced))]
    pub(crate) fn advance(&mut self, count: usize)
        requires { count ≤ length self.old }
        ensures { self.new ≡ drop count self.old }
    {
        self.at = compact(&mut self.octets, self.at + count);
    }

    /// Adds octets after the others. If there is no memory, the octets stay as they were.
    #[tactic(auto, using(crate::proofs::QueueLemmas::pushed))]
    pub(crate) fn push(&mut self, octets: &[u8]) -> Result<(), AllocError>
        ensures pushed { OnOk result (self.new ≡ self.old ++ octets.now) }
        ensures same { OnErr result (self.new ≡ self.old) }
    {
        self.octets.extend_from_slice(octets)
    }

    /// Adds a message's frame after the other octets (RFC 1035, 4.2.2). If there is no memory, the octets stay as they were.
    #[tactic(auto, using(crate::proofs::QueueLemmas::pushed_both))]
    pub(crate) fn push_frame(&mut self, message: &[u8]) -> Result<(), AllocError>
        requires { length message.now ≤ message_limit }
        ensures pushed { OnOk result (self.new ≡ self.old ++ frame_of message.now) }
        ensures same { OnErr result (self.new ≡ self.old) }
    {
        match self.octets.reserve(LENGTH + message.len()) {
            Ok(()) => {}
            Err(fault) => return Err(fault),
        }
        let length = (message.len() as u16).to_be_bytes();
        let Ok(()) = self.octets.extend_from_slice(&length) else {
            unreachable!()
        };
        let Ok(()) = self.octets.extend_from_slice(message) else {
            unreachable!()
        };
        Ok(())
    }
}

/// Frees the room of removed octets, which lie before a place, if they are at least as many as those that are left. Returns where those that
/// are left begin.
#[tactic(auto, using(crate::proofs::QueueLemmas::compacted))]
fn compact(octets: &mut Vec<u8>, at: usize) -> usize
    requires { at ≤ length octets.old.items }
    ensures left { drop result octets.new.items ≡ drop at octets.old.items }
    ensures room { result + result ≤ length octets.new.items }
{
    let left = octets.len() - at;
    if at < left {
        return at;
    }
    octets.copy_within(at.., 0);
    octets.truncate(left);
    0
}

/// The message of the frame that octets begin with, and how many octets that frame has; None if they end before the frame does
/// (RFC 1035, 4.2.2).
pub(crate) fn first_frame(octets: &[u8]) -> Option<(&[u8], usize)>
    ensures found { option_map (λ f. (f.0.now, drop f.1 octets.now)) result ≡ frame_in octets.now }
    ensures frame { IfSome result (λ f. octets.now ≡ frame_of f.0.now ++ drop f.1 octets.now) }
    ensures bound { IfSome result (λ f. f.1 ≤ length octets.now) }
{
    let (message, rest) = take_frame(octets)?;
    Some((message, octets.len() - rest.len()))
}
