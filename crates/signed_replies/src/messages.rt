//! Replies of several messages that are signed (RFC 8945, 5.3.1).
ghost use Rattle.std.specs.Prelude.{◌≡◌, ◌≤◌, false, None, Some, length, take, option_map};
ghost use Rattle.dns_message.specs.Message.{message_limit};
ghost use Rattle.signed_replies.specs.Stream.{has_room, sent_as, sent_by, signer_after, signed_stream, stream_by};

use arrayvec::ArrayVec;
use dns_message::{HEADER, MAX_LIMIT};
use hmac::MAX_MAC;
use std::marker::Model;
use tcp_connections::Messages;
use tsig::{Key, MAX_TSIG, RequestTsig, Stamp, sign, sign_later};

/// The fudge of a reply of several messages, in seconds: each has the Time Signed of the first, and may be sent up to four hours later (own).
pub const STREAM_FUDGE: u16 = 14_400;

/// Where a header counts the records of the additional section (RFC 1035, 4.1.1).
const ARCOUNT: usize = 10;

/// Signs messages one after another. Contracts see the key, what the next TSIG says, the MAC before it, and whether a message was signed.
#[derive(Drop)]
pub(crate) struct Signer<'k> {
    key: &'k Key,
    stamp: Stamp,
    prior: ArrayVec<u8, MAX_MAC>,
    is_begun: bool,
}

impl<'k> Model for Signer<'k> {
    ghost use Rattle.signed_replies.specs.Stream.{SignerState};

    ghost Value = { SignerState };

    ghost view = { λ a. record { key = a.key.now; stamp = a.stamp; prior = a.prior.items; begun = a.is_begun } };
}

impl<'k> Signer<'k> {
    /// The signer of the reply to a request with this TSIG.
    pub fn new(key: &'k Key, tsig: RequestTsig, stamp: Stamp) -> Signer<'k>
        ensures { result ≡ record { key = key.now; stamp = stamp; prior = tsig.mac.items; begun = false } }
    {
        Signer {
            key,
            stamp,
            prior: tsig.mac,
            is_begun: false,
        }
    }

    /// Signs the message in the first octets of `out`, and gives how many octets it has then.
    pub fn sign_next(&mut self, out: &mut [u8], len: usize) -> usize
        requires within { len ≤ message_limit }
        requires room { message_limit ≤ length out.old }
        ensures sent { take result out.new ≡ sent_as self.old (take len out.old) }
        ensures signer { self.new ≡ signer_after self.old (take len out.old) }
        ensures bound { result ≤ message_limit }
    {
        if !has_room(&out[..len]) {
            return len;
        }
        if self.is_begun {
            return sign_later(self.key, &mut self.prior, &self.stamp, out, len);
        }
        self.is_begun = true;
        sign(self.key, &mut self.prior, &self.stamp, MAX_LIMIT, out, len)
    }
}

/// Whether a message has a header, and leaves room for a TSIG and its count.
fn has_room(plain: &[u8]) -> bool
    ensures { result ≡ has_room plain.now }
{
    plain.len() >= HEADER
        && plain.len() + MAX_TSIG <= MAX_LIMIT
        && u16::from_be_bytes([plain[ARCOUNT], plain[ARCOUNT + 1]]) < u16::MAX
}

/// The messages of a reply, as they are, or signed.
#[derive(Drop)]
pub struct SignedMessages<'k, M: Messages> {
    inner: M,
    signer: Option<Signer<'k>>,
}

impl<'k, M: Messages> SignedMessages<'k, M> {
    /// These messages as they are.
    pub(crate) fn unsigned(inner: M) -> SignedMessages<'k, M>
        ensures { result ≡ record { inner = inner; signer = None } }
    {
        SignedMessages {
            inner,
            signer: None,
        }
    }

    /// These messages, signed.
    pub(crate) fn signed(inner: M, signer: Signer<'k>) -> SignedMessages<'k, M>
        ensures { result ≡ record { inner = inner; signer = Some signer.entry } }
    {
        SignedMessages {
            inner,
            signer: Some(signer),
        }
    }
}

/// Signs the next message of a reply that is signed.
fn sign_next(signer: &mut Option<Signer<'_>>, out: &mut [u8], len: usize) -> usize
    requires within { len ≤ message_limit }
    requires room { message_limit ≤ length out.old }
    ensures sent { take result out.new ≡ sent_by signer.old (take len out.old) }
    ensures signer { signer.new ≡ option_map (λ s. signer_after s (take len out.old)) signer.old }
    ensures bound { result ≤ message_limit }
{
    match signer {
        None => len,
        Some(signer) => signer.sign_next(out, len),
    }
}

impl<'k, M: Messages> Messages for SignedMessages<'k, M> {
    ghost left = { λ s. stream_by s.signer (M.left s.inner) };

    #[tactic(auto, unfolding(crate::specs::Stream::signed_stream))]
    fn next_message(&mut self, out: &mut [u8]) -> Option<usize> {
        let len = self.inner.next_message(out)?;
        Some(sign_next(&mut self.signer, out, len))
    }
}
