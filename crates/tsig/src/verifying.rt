//! How a request is judged by its TSIG (RFC 8945, 5.2).
ghost use Rattle.std.specs.Prelude.{◌≡◌, ◌≤◌, ℕ, List, length};
ghost use Rattle.std.specs.Bool.{OnTrue};
ghost use Rattle.dns_message.specs.Message.{number_at};
ghost use Rattle.dns_message.specs.Tsig.{place_in};
ghost use Rattle.hmac.specs.Hmac.{mac_size};
ghost use Rattle.tsig.specs.Verification.{is_size, is_timely, after_mac, by_mac, by_tsig, by_place, verified};
ghost use Rattle.tsig.specs.Keys.{SharedKey};
ghost use Rattle.tsig.specs.Tsig.{tsig_at};
ghost use Rattle.tsig.specs.declared.verifying.Verification.TheVariants.{Unsigned as says_unsigned};

use crate::digest::is_right;
use crate::fields::Data;
use crate::key::Key;
use crate::keys::Keys;
use crate::octets::number_at;
use crate::record::{Tsig, tsig_at};
use crate::request_tsig::{RequestTsig, request_tsig_of};
use crate::without_tsig::ARCOUNT;
use dns_message::{HEADER, Place, QR, tsig_place};
use hmac::MAX_MAC;
use wire_names::Message;

/// Where a header counts the records of the answer section (RFC 1035, 4.1.1).
const ANCOUNT: usize = 6;

/// Where a header counts the records of the authority section (RFC 1035, 4.1.1).
const NSCOUNT: usize = 8;

/// The fewest octets of a MAC that is cut short (RFC 8945, 5.2.2.1).
const MIN_MAC: usize = 10;

/// What octets are by their TSIG (RFC 8945, 5.2).
#[derive(Drop)]
pub enum Verification<'m> {
    /// A request without a TSIG, or one that can't be read to its end.
    Unsigned,
    /// Nothing that is answered: fewer than twelve octets, or a reply.
    Silent,
    /// FORMERR: the TSIG isn't the last record, there are two, it isn't of class ANY or hasn't the TTL 0, its data hasn't the form of one, its names have more than 470 octets, or its
    /// MAC has a size that no MAC may have (RFC 8945, 5.2 and 5.2.2.1; own).
    Malformed,
    /// NOTAUTH with BADKEY, unsigned: no key has its name and its algorithm (RFC 8945, 5.2.1).
    BadKey(Tsig<'m>),
    /// NOTAUTH with BADSIG, unsigned: its MAC isn't the message's (RFC 8945, 5.2.2).
    BadSig(Tsig<'m>),
    /// NOTAUTH with BADTIME, signed: its time is outside its fudge (RFC 8945, 5.2.3).
    BadTime(RequestTsig),
    /// NOTAUTH with BADTRUNC, signed: its MAC is right, and cut short (RFC 8945, 5.2.4).
    BadTrunc(RequestTsig),
    /// A request that the holder of a key signed, within its fudge.
    Signed(RequestTsig),
}

/// What octets are by their TSIG, at a time in seconds since 1970, in the order of RFC 8945, 5.2. It takes no memory.
pub fn verify<'m>(keys: &Keys, now: u64, octets: &Message<'m>) -> Verification<'m>
    ensures { result ≡ verified keys.now now octets.now }
{
    let msg = octets.octets();
    if msg.len() < HEADER || msg[2] >= QR {
        return Verification::Silent;
    }
    verify_placed(keys, now, octets)
}

/// Whether a request has no TSIG, by which [`verify`] says that it is unsigned, whatever the keys and the time.
pub fn is_unsigned(octets: &Message<'_>) -> bool
    ensures { OnTrue result ((keys : List SharedKey) (now : ℕ) → verified keys now octets.now ≡ says_unsigned) }
{
    let msg = octets.octets();
    if msg.len() < HEADER || msg[2] >= QR {
        return false;
    }
    if !is_bare(octets) {
        return false;
    }
    true
}

/// Whether a request has no TSIG by where one would stand.
fn is_bare(octets: &Message<'_>) -> bool
    requires { HEADER ≤ length octets.now }
    ensures { OnTrue result ((keys : List SharedKey) (now : ℕ) → by_place keys now octets.now (place_in octets.now) ≡ says_unsigned) }
{
    if has_no_records(octets.octets()) {
        return true;
    }
    match tsig_place(octets) {
        None => true,
        Some(Place::Bare) => true,
        Some(Place::Bad) => false,
        Some(Place::At(_)) => false,
    }
}

/// What a request is by where its TSIG stands.
fn verify_placed<'m>(keys: &Keys, now: u64, octets: &Message<'m>) -> Verification<'m>
    requires { HEADER ≤ length octets.now }
    ensures { result ≡ by_place keys.now now octets.now (place_in octets.now) }
{
    let msg = octets.octets();
    // Most requests have no record, and aren't walked through.
    if has_no_records(msg) {
        return Verification::Unsigned;
    }
    match tsig_place(octets) {
        None => Verification::Unsigned,
        Some(Place::Bare) => Verification::Unsigned,
        Some(Place::Bad) => Verification::Malformed,
        Some(Place::At(start)) => verify_at(keys, now, octets, start),
    }
}

/// Whether a message has no record: then it has no TSIG (RFC 1035, 4.1.1).
fn has_no_records(msg: &[u8]) -> bool
    requires { HEADER ≤ length msg.now }
    ensures answer { OnTrue result (number_at msg.now 6 ≡ 0) }
    ensures authority { OnTrue result (number_at msg.now 8 ≡ 0) }
    ensures additional { OnTrue result (number_at msg.now 10 ≡ 0) }
{
    number_at(msg, ANCOUNT) == 0 && number_at(msg, NSCOUNT) == 0 && number_at(msg, ARCOUNT) == 0
}

/// What a request is whose TSIG stands at a position.
fn verify_at<'m>(keys: &Keys, now: u64, octets: &Message<'m>, start: usize) -> Verification<'m>
    requires { HEADER ≤ length octets.now }
    ensures { result ≡ by_tsig keys.now now octets.now start (tsig_at octets.now start) }
{
    let Some(tsig) = tsig_at(octets, start) else {
        return Verification::Malformed;
    };
    let Some(index) = keys.index_of(tsig.owner(), tsig.algorithm()) else {
        return Verification::BadKey(tsig);
    };
    let Some(key) = keys.get(index) else {
        return Verification::BadKey(tsig);
    };
    verify_mac(now, octets.octets(), start, tsig, index, key)
}

/// What a request is whose key is known.
fn verify_mac<'m>(
    now: u64,
    msg: &'m [u8],
    start: usize,
    tsig: Tsig<'m>,
    index: u16,
    key: &Key,
) -> Verification<'m>
    requires { HEADER ≤ length msg.now }
    ensures { result ≡ by_mac now msg.now start tsig.entry index key.now }
{
    let size = tsig.fields().mac.len();
    let whole = key.secret().mac_size();
    if !is_size(whole, size) {
        return Verification::Malformed;
    }
    if !is_right(key, &[], msg, start, tsig.fields()) {
        return Verification::BadSig(tsig);
    }
    verify_after(now, index, start, whole, tsig.fields())
}

/// What a request is whose TSIG stands at a position and has a MAC that is right, of a key whose MACs have so many octets.
fn verify_after<'m>(
    now: u64,
    index: u16,
    start: usize,
    whole: usize,
    fields: &Data<'_>,
) -> Verification<'m>
    requires { length fields.now.mac ≤ MAX_MAC }
    ensures { result ≡ after_mac now index start whole fields.now }
{
    let request_tsig = request_tsig_of(index, start, fields);
    if !is_timely(now, fields) {
        return Verification::BadTime(request_tsig);
    }
    if fields.mac.len() < whole {
        return Verification::BadTrunc(request_tsig);
    }
    Verification::Signed(request_tsig)
}

/// Whether a MAC of this size may be one that is cut short, or a whole one (RFC 8945, 5.2.2.1).
fn is_size(whole: usize, size: usize) -> bool
    ensures size { result ≡ is_size whole size }
    ensures within { OnTrue result (size ≤ whole) }
{
    size <= whole && MIN_MAC.max(whole / 2) <= size
}

/// Whether a time is within the fudge of now (RFC 8945, 5.2.3).
pub(crate) fn is_timely(now: u64, fields: &Data<'_>) -> bool
    ensures { result ≡ is_timely now fields.now }
{
    let fudge = u64::from(fields.fudge);
    now.saturating_sub(fields.time) <= fudge && fields.time.saturating_sub(now) <= fudge
}
