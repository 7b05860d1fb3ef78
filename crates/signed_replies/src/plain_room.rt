//! Room for a request without its TSIG, or a reply that is signed.
ghost use Rattle.std.specs.Prelude.{◌≡◌, ◌≤◌, ◌<◌, ◌^◌, ◌∷◌, [], length, take, slice_get, IfSome};
ghost use Rattle.dns_message.specs.Message.{message_limit, number_at};
ghost use Rattle.dns_message.specs.Request.{IsWant};
ghost use Rattle.dns_message.specs.declared.query.Head.{Head as HeadOf};
ghost use Rattle.dns_message.specs.declared.query.Parsed.TheVariants.{NoMemory as no_memory};
ghost use Rattle.requests.specs.Octets.{messages_in};
ghost use Rattle.signed_replies.specs.Signed.{plain_of, signed_queued};

use crate::signing::sign_queued;
use dns_message::{HEADER, MAX_LIMIT};
use std::alloc::{AllocError, Global};
use std::marker::Model;
use tsig::{Keys, RequestTsig, write_without_tsig};

/// Room for a message.
#[derive(Drop)]
pub struct PlainRoom {
    octets: Vec<u8>,
}

impl Model for PlainRoom {
    ghost use Rattle.std.specs.Prelude.{◌≤◌, length};

    ghost Value = { Unit {0} };

    ghost view = { λ a. tt };

    ghost invariant = { λ a. 65535 ≤ length a.octets.items };
}

impl PlainRoom {
    /// Room for any message. An error where memory is refused.
    pub fn new(alloc: Global) -> Result<PlainRoom, AllocError> {
        let mut octets = Vec::new(alloc);
        octets.resize(MAX_LIMIT, 0)?;
        Ok(PlainRoom { octets })
    }

    /// The reply of these octets to a request with this TSIG, signed at a time by the key of a server that the TSIG names; None where they are more than a message has, or that key isn't one of these.
    pub(crate) fn signed(
        &mut self,
        keys: &Keys,
        tsig: RequestTsig,
        now: u64,
        octets: &[u8],
    ) -> Option<&[u8]>
        ensures { IfSome result (λ signed. signed_queued (slice_get keys.now tsig.key) tsig now octets.now ≡ signed.now ∷ []) }
    {
        if octets.len() > MAX_LIMIT {
            return None;
        }
        let len = write_queued(keys, tsig, now, octets, &mut self.octets)?;
        Some(&self.octets[..len])
    }

    /// A request without its TSIG, which stands at a position, and with its own ID: the reply repeats that one. Original ID is of the digest alone (RFC 8945, 4.3.2).
    pub(crate) fn plain(&mut self, request: &[u8], start: usize) -> &[u8]
        requires header { HEADER ≤ length request.now }
        requires short { length request.now ≤ message_limit }
        ensures plain { result.now ≡ plain_of request.now start }
        ensures wants { (head : HeadOf) → IsWant request.now (no_memory head) → IsWant (plain_of request.now start) (no_memory head) }
    {
        let len = write_plain(request, start, &mut self.octets);
        &self.octets[..len]
    }
}

/// Puts octets at the start of a buffer.
fn put_first(octets: &[u8], out: &mut [u8])
    requires { length octets.now ≤ length out.old }
    ensures { take (length octets.now) out.new ≡ octets.now }
{
    out[..octets.len()].copy_from_slice(octets);
}

/// Writes the reply of these octets, signed as that to a queued update, to the front of `out`, and gives how many octets it has; None where the key isn't one of these.
fn write_queued(
    keys: &Keys,
    tsig: RequestTsig,
    now: u64,
    octets: &[u8],
    out: &mut [u8],
) -> Option<usize>
    requires short { length octets.now ≤ message_limit }
    requires room { message_limit ≤ length out.old }
    ensures octets { messages_in result out.new ≡ signed_queued (slice_get keys.now tsig.key) tsig now octets.now }
    ensures bound { IfSome result (λ n. n ≤ message_limit) }
{
    put_first(octets, out);
    sign_queued(keys, tsig, now, out, octets.len())
}

/// Writes a request without its TSIG, which stands at a position, and with its own ID, to the front of `out`, and gives how many octets it has. Memory that is wanted to read the one is
/// wanted to read the other.
fn write_plain(request: &[u8], start: usize, out: &mut [u8]) -> usize
    requires header { HEADER ≤ length request.now }
    requires room { length request.now ≤ length out.old }
    ensures plain { take result out.new ≡ plain_of request.now start }
    ensures within { result ≤ length request.now }
    ensures wants { (head : HeadOf) → IsWant request.now (no_memory head) → IsWant (plain_of request.now start) (no_memory head) }
{
    let id = id_of(request);
    write_without_tsig(request, start, id, out)
}

/// A message's ID (RFC 1035, 4.1.1).
fn id_of(request: &[u8]) -> u16
    requires { HEADER ≤ length request.now }
    ensures id { result ≡ number_at request.now 0 }
    ensures fits { number_at request.now 0 < 2 ^ 16 }
{
    u16::from_be_bytes([request[0], request[1]])
}
