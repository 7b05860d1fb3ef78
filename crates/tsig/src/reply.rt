//! How the reply to a signed request is judged (RFC 8945, 5.4).
ghost use Rattle.std.specs.Prelude.{◌≡◌, ◌≤◌, ◌<◌, ◌^◌, length};
ghost use Rattle.tsig.specs.Replies.{is_taken, taken_at, reply_start};
ghost use Rattle.tsig.specs.Tsig.{tsig_at};

use crate::digest::is_right;
use crate::key::Key;
use crate::record::{Tsig, tsig_at};
use crate::verifying::is_timely;
use dns_message::{HEADER, Place, QR, tsig_place};
use wire_names::Message;

/// Where the TSIG of a reply stands that the holder of a key signed behind this MAC of its request, at a time in seconds since 1970; None of any other octets. It takes no memory.
pub fn verify_reply(key: &Key, prior: &[u8], now: u64, octets: &Message<'_>) -> Option<usize>
    requires { length prior.now < 2 ^ 16 }
    ensures { result ≡ reply_start key.now prior.now now octets.now }
{
    let msg = octets.octets();
    if msg.len() < HEADER || msg[2] < QR {
        return None;
    }
    match tsig_place(octets) {
        None => None,
        Some(Place::Bare) => None,
        Some(Place::Bad) => None,
        Some(Place::At(start)) => verify_reply_at(key, prior, now, octets, start),
    }
}

/// That position, of octets whose TSIG stands there.
fn verify_reply_at(
    key: &Key,
    prior: &[u8],
    now: u64,
    octets: &Message<'_>,
    start: usize,
) -> Option<usize>
    requires header { HEADER ≤ length octets.now }
    requires few { length prior.now < 2 ^ 16 }
    ensures { result ≡ taken_at key.now prior.now now octets.now start (tsig_at octets.now start) }
{
    let tsig = tsig_at(octets, start)?;
    if is_taken(key, prior, now, octets.octets(), start, &tsig) {
        Some(start)
    } else {
        None
    }
}

/// Whether a TSIG is a key's, of a whole MAC that is the message's, and of a time within its fudge.
fn is_taken(key: &Key, prior: &[u8], now: u64, msg: &[u8], start: usize, tsig: &Tsig<'_>) -> bool
    requires header { HEADER ≤ length msg.now }
    requires few { length prior.now < 2 ^ 16 }
    ensures { result ≡ is_taken key.now prior.now now msg.now start tsig.now }
{
    let fields = tsig.fields();
    key.is_named(tsig.owner(), tsig.algorithm())
        && fields.mac.len() == key.secret().mac_size()
        && is_right(key, prior, msg, start, fields)
        && is_timely(now, fields)
}
