//! How replies are signed (RFC 8945, 5.3).
ghost use Rattle.std.specs.Prelude.{◌≡◌, ◌≤◌, ◌∷◌, length, take, IfSome, slice_get};
ghost use Rattle.std.specs.Option.{option_copied};
ghost use Rattle.dns_message.specs.Message.{message_limit};
ghost use Rattle.requests.specs.Octets.{messages_in};
ghost use Rattle.signed_replies.specs.Signed.{stamp_at, stamp_late, stamp_short, signed_reply, signed_error, signed_queued};

use crate::errors::write_error;
use dns_message::HEADER;
use dns_rdata::Rcode;
use serve_core::Transport;
use tsig::{FUDGE, Key, Keys, RequestTsig, Stamp, TsigError, sign};

/// What the TSIG of a reply says that is signed at a time, with no error.
pub(crate) fn stamp_at(time: u64) -> Stamp
    ensures { result ≡ stamp_at time }
{
    Stamp {
        time,
        fudge: FUDGE,
        error: TsigError::NoError,
    }
}

/// What the TSIG has that reports a time outside the fudge (RFC 8945, 5.2.3).
pub(crate) fn stamp_late(tsig: &RequestTsig, now: u64) -> Stamp
    ensures { result ≡ stamp_late tsig.now now }
{
    Stamp {
        time: tsig.time,
        fudge: tsig.fudge,
        error: TsigError::BadTime(now),
    }
}

/// What the TSIG has that reports a MAC that is cut short (RFC 8945, 5.2.4).
pub(crate) fn stamp_short(now: u64) -> Stamp
    ensures { result ≡ stamp_short now }
{
    Stamp {
        time: now,
        fudge: FUDGE,
        error: TsigError::BadTrunc,
    }
}

/// Signs the reply in the first octets of `out`, to a request with this TSIG, and gives how many octets it has then. What has no header isn't signed.
pub(crate) fn sign_reply(
    key: &Key,
    tsig: RequestTsig,
    stamp: &Stamp,
    limit: usize,
    out: &mut [u8],
    len: usize,
) -> usize
    requires least { 512 ≤ limit }
    requires most { limit ≤ message_limit }
    requires within { len ≤ message_limit }
    requires room { message_limit ≤ length out.old }
    ensures octets { take result out.new ≡ signed_reply key.now tsig.mac.items stamp.now limit (take len out.old) }
    ensures bound { result ≤ message_limit }
{
    if len < HEADER {
        return len;
    }
    let mut mac = tsig.mac;
    sign(key, &mut mac, stamp, limit, out, len)
}

/// Signs the reply to an update by datagram that another thread sends, at a time, by the key of a server that its TSIG names, and gives how many octets it has then; None where that
/// key isn't one of these.
pub(crate) fn sign_queued(
    keys: &Keys,
    tsig: RequestTsig,
    now: u64,
    out: &mut [u8],
    len: usize,
) -> Option<usize>
    requires within { len ≤ message_limit }
    requires room { message_limit ≤ length out.old }
    ensures octets { messages_in result out.new ≡ signed_queued (slice_get keys.now tsig.key) tsig now (take len out.old) }
    ensures bound { IfSome result (λ n. n ≤ message_limit) }
{
    let key = keys.get(tsig.key)?;
    let limit = Transport::Udp.limit(None);
    Some(sign_reply(key, tsig, &stamp_at(now), limit, out, len))
}

/// Writes the reply that reports an error of a request's TSIG, signed, to the front of `out`, and gives how many octets it has; None where there is no key (RFC 8945, 5.2.3 and 5.2.4).
#[tactic(auto, using(crate::proofs::ErrorLemmas::room_most))]
pub(crate) fn write_signed(
    request: &[u8],
    key: Option<&Key>,
    tsig: RequestTsig,
    stamp: &Stamp,
    transport: Transport,
    out: &mut [u8],
) -> Option<usize>
    requires header { HEADER ≤ length request.now }
    requires room { message_limit ≤ length out.old }
    ensures octets { messages_in result out.new ≡ signed_error transport (option_copied key.entry) tsig stamp.now request.now }
    ensures bound { IfSome result (λ n. n ≤ message_limit) }
{
    let key = key?;
    let len = write_error(request, Rcode::NotAuth, transport, out);
    Some(sign_reply(key, tsig, stamp, transport.limit(None), out, len))
}
