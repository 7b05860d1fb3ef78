//! What is sent is signed by a key, and so must the replies be (RFC 8945).
ghost use Rattle.std.specs.Prelude.{◌≡◌, ◌≤◌, ◌<◌, ◌↔◌, ◌+◌, ◌-◌, ◌*◌, ◌^◌, ◌++◌, [], true, false, ℕ, List, length, take, max, IsTrue, IfOk, OnOk, IfSome, Some};
ghost use Rattle.std.specs.Bool.{OnTrue};
ghost use Rattle.std.specs.Option.{option_copied};
ghost use Rattle.dns_message.specs.Message.{number_at};
ghost use Rattle.dns_message.specs.Reads.{long_number_at};
ghost use Rattle.dns_message.specs.Tsig.{place_in};
ghost use Rattle.dns_message.specs.declared.tsig.Place.TheVariants.{Bare, At};
ghost use Rattle.tsig.specs.Digested.{without_tsig, mac_over, mac_later};
ghost use Rattle.tsig.specs.Fields.{written};
ghost use Rattle.tsig.specs.Signing.{stamped, signed};
ghost use Rattle.tsig.specs.Verification.{is_timely};
ghost use Rattle.zone_deploy.specs.Signatures.{stamp_of, sent_octets, first_chain, chain_at, longer_chain, mac_behind, IsSigned, IsUnsigned, IsNext};

use crate::fault::{DeployFault, Request};
use crate::frames::MAX_MESSAGE;
use crate::replies::number_at;
use arrayvec::ArrayVec;
use dns_message::{HEADER, Place, tsig_place};
use hmac::{MAX_MAC, is_same};
use std::alloc::{AllocError, Global};
use std::marker::Model;
use std::time::{Clock, SystemTime, UNIX_EPOCH};
use tsig::{FUDGE, Key, MAX_TSIG, Stamp, TsigError, sign, sign_later, write_without_tsig};
use wire_names::{MAX_TARGETS, Message};

/// The least limit of what is signed (RFC 1035, 4.2.1).
const LEAST: usize = 512;

/// The most messages after one another that aren't signed (RFC 8945, 5.3.1).
const MOST_UNSIGNED: u8 = 99;

/// Where a header counts the records of the additional section (RFC 1035, 4.1.1).
const ARCOUNT: usize = 10;

/// The octets of a TSIG's fields beside its MAC, where it has no Other Data (RFC 8945, 4.2).
const FIXED: usize = 16;

/// The most octets of these fields and a MAC.
const MAX_FIELDS: usize = 80;

/// How far the signatures of a request's replies were checked.
#[derive(Drop)]
pub(crate) struct Chain {
    /// The MAC of the request, or of the reply that was signed last.
    mac: ArrayVec<u8, MAX_MAC>,
    /// Whether no reply was signed.
    is_first: bool,
    /// The octets of the replies since, which weren't signed.
    since: Vec<u8>,
    /// How many these are.
    unsigned: u8,
}

impl Model for Chain {
    ghost use Rattle.zone_deploy.specs.Signatures.{Chain as Checked};

    ghost Value = { Checked };

    ghost view = { λ a. record { mac = a.mac.items; is_first = a.is_first; since = a.since.items; unsigned = a.unsigned } };
}

/// What the TSIG at the end of a message says, which reports no error.
#[derive(Drop)]
struct SignedEnd<'m> {
    /// Time Signed, in seconds since 1970.
    time: u64,
    /// The fudge, in seconds.
    fudge: u16,
    /// The MAC.
    mac: &'m [u8],
    /// Original ID.
    original: u16,
}

impl<'m> Model for SignedEnd<'m> {
    ghost use Rattle.std.specs.Prelude.{[]};
    ghost use Rattle.tsig.specs.Fields.{Fields};

    ghost Value = { Fields };

    ghost view = { λ a. record { time = a.time; fudge = a.fudge; mac = a.mac.now; original = a.original; error = 0; other = [] } };
}

/// The seconds since 1970; 0 where the clock can't be read, so that each signed message is out of time.
pub(crate) fn seconds_of<C: Clock>(clock: &C) -> u64 {
    let Ok(now) = SystemTime::now(clock) else {
        return 0;
    };
    match now.duration_since(UNIX_EPOCH) {
        Ok(since) => since.as_secs(),
        Err(_) => 0,
    }
}

/// A request as it is sent at a time, signed by a key where there is one, and the chain of its replies, of which none was checked. `TooLong` where it has more
/// octets than a message.
pub(crate) fn sent(
    alloc: Global,
    key: Option<&Key>,
    now: u64,
    request: &[u8],
) -> Result<(Vec<u8>, Chain), DeployFault>
    requires { HEADER ≤ length request.now }
    ensures octets { IfOk result (λ r. r.0.items ≡ sent_octets (option_copied key.entry) now request.now) }
    ensures chain { IfOk result (λ r. r.1 ≡ first_chain (option_copied key.entry) now request.now) }
    ensures short { IfOk result (λ r. length r.0.items ≤ MAX_MESSAGE) }
{
    match key {
        None => unsigned(alloc, request),
        Some(key) => signed(alloc, key, now, request),
    }
}

/// A request that isn't signed, and its chain. `TooLong` where it has more octets than a message.
fn unsigned(alloc: Global, request: &[u8]) -> Result<(Vec<u8>, Chain), DeployFault>
    ensures octets { IfOk result (λ r. r.0.items ≡ request.now) }
    ensures chain { IfOk result (λ r. r.1 ≡ chain_at [] true) }
    ensures short { IfOk result (λ r. length r.0.items ≤ MAX_MESSAGE) }
{
    if request.len() > MAX_MESSAGE {
        return Err(DeployFault::TooLong);
    }
    Ok((request.to_vec(alloc)?, Chain::new(alloc, ArrayVec::new())))
}

/// A request that is signed by a key at a time, and its chain. `TooLong` where it has more octets than a message with the largest TSIG of ours.
fn signed(
    alloc: Global,
    key: &Key,
    now: u64,
    request: &[u8],
) -> Result<(Vec<u8>, Chain), DeployFault>
    requires { HEADER ≤ length request.now }
    ensures octets { IfOk result (λ r. r.0.items ≡ signed key.now [] (stamp_of now 300) request.now) }
    ensures chain { IfOk result (λ r. r.1 ≡ chain_at (mac_over key.now [] request.now (stamped (stamp_of now 300) request.now [])) true) }
    ensures short { IfOk result (λ r. length r.0.items ≤ MAX_MESSAGE) }
{
    if request.len() > MAX_MESSAGE - MAX_TSIG || number_at(request, ARCOUNT) == u16::MAX {
        return Err(DeployFault::TooLong);
    }
    let mut octets = with_room(alloc, request)?;
    let mut mac = ArrayVec::new();
    let stamp = stamp_of(now, FUDGE);
    let len = sign_whole(key, &mut mac, &stamp, &mut octets, request.len());
    octets.truncate(len);
    Ok((octets, Chain::new(alloc, mac)))
}

/// Octets, and room behind them for a TSIG: 512 octets at least.
fn with_room(alloc: Global, octets: &[u8]) -> Result<Vec<u8>, AllocError>
    ensures front { IfOk result (λ own. take (length octets.now) own.items ≡ octets.now) }
    ensures size { IfOk result (λ own. length own.items ≡ max (length octets.now + MAX_TSIG) LEAST) }
{
    let mut own = octets.to_vec(alloc)?;
    own.resize((octets.len() + MAX_TSIG).max(LEAST), 0)?;
    Ok(own)
}

/// What a TSIG of these times says, without an error.
fn stamp_of(time: u64, fudge: u16) -> Stamp
    ensures { result ≡ stamp_of time fudge }
{
    Stamp {
        time,
        fudge,
        error: TsigError::NoError,
    }
}

impl Chain {
    /// The chain of a request with this MAC, none of whose replies was checked.
    fn new(alloc: Global, mac: ArrayVec<u8, MAX_MAC>) -> Chain
        ensures { result ≡ chain_at mac.items true }
    {
        Chain {
            mac,
            is_first: true,
            since: Vec::new(alloc),
            unsigned: 0,
        }
    }

    /// Whether the reply that was checked last was signed, where there is a key.
    pub fn is_closed(&self) -> bool
        ensures { IsTrue result ↔ (self.now.unsigned ≡ 0) }
    {
        self.unsigned == 0
    }

    /// Checks the next reply, at a time in seconds since 1970: it is signed by the key and behind the MAC before; or it isn't signed, is not the first reply and
    /// not the hundredth such one. Any reply is right where there is no key.
    pub fn check(
        &mut self,
        alloc: Global,
        key: Option<&Key>,
        request: Request,
        now: u64,
        reply: &[u8],
    ) -> Result<(), DeployFault>
        requires { HEADER ≤ length reply.now }
        ensures { OnOk result (IsNext (option_copied key.entry) self.old reply.now self.new) }
    {
        let Some(key) = key else {
            return Ok(());
        };
        if self.is_next(alloc, key, now, reply)? {
            return Ok(());
        }
        match tsig_error(reply) {
            Some(error) => Err(DeployFault::BadTsig(request, error)),
            None => Err(DeployFault::NotSigned(request)),
        }
    }

    /// Whether the next reply is signed by a key as it must be here, or may come here unsigned.
    fn is_next(
        &mut self,
        alloc: Global,
        key: &Key,
        now: u64,
        reply: &[u8],
    ) -> Result<bool, AllocError>
        requires { HEADER ≤ length reply.now }
        ensures { IfOk result (λ is. OnTrue is (IsNext (Some key.now) self.old reply.now self.new)) }
    {
        match place_of(reply) {
            Some(Place::At(start)) => self.is_next_signed(alloc, key, now, reply, start),
            Some(Place::Bare) => self.is_next_unsigned(reply),
            Some(Place::Bad) => Ok(false),
            None => Ok(false),
        }
    }

    /// Whether a reply may come here that isn't signed; its octets are kept for the MAC of the next one that is (RFC 8945, 5.3.1).
    fn is_next_unsigned(&mut self, reply: &[u8]) -> Result<bool, AllocError>
        ensures { place_in reply.now ≡ Some Bare → IfOk result (λ is. OnTrue is (IsUnsigned self.old reply.now × (self.new ≡ longer_chain self.old reply.now))) }
    {
        if self.is_first || self.unsigned >= MOST_UNSIGNED {
            return Ok(false);
        }
        self.since.extend_from_slice(reply)?;
        self.unsigned += 1;
        Ok(true)
    }

    /// Whether a reply whose TSIG stands at a position is signed as it must be here, within its fudge. If so, its MAC is the one before from then on.
    fn is_next_signed(
        &mut self,
        alloc: Global,
        key: &Key,
        now: u64,
        reply: &[u8],
        start: usize,
    ) -> Result<bool, AllocError>
        requires { HEADER ≤ length reply.now }
        ensures { place_in reply.now ≡ Some (At start) → IfOk result (λ is. OnTrue is ((mac : List ℕ) × IsSigned key.now self.old reply.now mac × (self.new ≡ chain_at mac false))) }
    {
        let Some(end) = signed_end(reply, self.mac.len()) else {
            return Ok(false);
        };
        let Some(mac) = self.mac_behind(alloc, key, reply, start, &end)? else {
            return Ok(false);
        };
        if !is_same(end.mac, &mac) || !is_timely(now, &end) || !ends_so(reply, &end) {
            return Ok(false);
        }
        self.mac = mac;
        self.is_first = false;
        self.since.clear();
        self.unsigned = 0;
        Ok(true)
    }

    /// The MAC that a reply must have here, whose TSIG stands at a position and says this; None where no message of ours is signed so.
    fn mac_behind(
        &self,
        alloc: Global,
        key: &Key,
        reply: &[u8],
        start: usize,
        end: &SignedEnd<'_>,
    ) -> Result<Option<ArrayVec<u8, MAX_MAC>>, AllocError>
        requires { HEADER ≤ length reply.now }
        ensures { IfOk result (λ found. IfSome found (λ mac. mac.items ≡ mac_behind key.now self.now (without_tsig reply.now start end.now.original) end.now)) }
    {
        let text = self.text_of(alloc, reply, start, end.original)?;
        if text.len() < HEADER || number_at(&text, ARCOUNT) == u16::MAX {
            return Ok(None);
        }
        let mut mac = copy_of(&self.mac);
        let stamp = stamp_of(end.time, end.fudge);
        if self.is_first {
            make_first_mac(alloc, key, &mut mac, &stamp, &text)?;
        } else {
            make_later_mac(alloc, key, &mut mac, &stamp, &text)?;
        }
        Ok(Some(mac))
    }

    /// The replies since the last MAC, and a reply without its TSIG, which stands at a position, with this ID.
    fn text_of(
        &self,
        alloc: Global,
        reply: &[u8],
        start: usize,
        id: u16,
    ) -> Result<Vec<u8>, AllocError>
        requires { HEADER ≤ length reply.now }
        ensures { IfOk result (λ text. text.items ≡ self.now.since ++ without_tsig reply.now start id) }
    {
        let mut plain = reply.to_vec(alloc)?;
        let len = write_without_tsig(reply, start, id, &mut plain);
        plain.truncate(len);
        let mut text = self.since.as_slice().to_vec(alloc)?;
        text.extend_from_slice(&plain)?;
        Ok(text)
    }
}

/// The same MAC.
fn copy_of(mac: &ArrayVec<u8, MAX_MAC>) -> ArrayVec<u8, MAX_MAC>
    ensures { result.items ≡ mac.now.items }
{
    let mut copy = ArrayVec::new();
    let _ = copy.try_extend_from_slice(mac);
    copy
}

/// Makes of the MAC of a request that of the first reply with a TSIG.
fn make_first_mac(
    alloc: Global,
    key: &Key,
    mac: &mut ArrayVec<u8, MAX_MAC>,
    stamp: &Stamp,
    text: &[u8],
) -> Result<(), AllocError>
    requires header { HEADER ≤ length text.now }
    requires counted { number_at text.now 10 < 2 ^ 16 - 1 }
    ensures { OnOk result (mac.new.items ≡ mac_over key.now mac.old.items text.now (stamped stamp.now text.now [])) }
{
    let mut octets = with_room(alloc, text)?;
    sign_whole(key, mac, stamp, &mut octets, text.len());
    Ok(())
}

/// Signs the message in the first octets of a buffer that has room for its TSIG, so that it isn't cut, and gives how many octets it has then. `prior` is the MAC before,
/// and becomes the message's own.
fn sign_whole(
    key: &Key,
    prior: &mut ArrayVec<u8, MAX_MAC>,
    stamp: &Stamp,
    out: &mut [u8],
    len: usize,
) -> usize
    requires header { HEADER ≤ len }
    requires room { len + MAX_TSIG ≤ length out.old }
    requires least { LEAST ≤ length out.old }
    requires counted { number_at out.old 10 < 2 ^ 16 - 1 }
    ensures octets { take result out.new ≡ signed key.now prior.old.items stamp.now (take len out.old) }
    ensures mac { prior.new.items ≡ mac_over key.now prior.old.items (take len out.old) (stamped stamp.now (take len out.old) []) }
    ensures within { result ≤ length out.new }
{
    // That the key's name has at most 128 octets is known of it from here on.
    let _name = key.name();
    let limit = out.len();
    sign(key, prior, stamp, limit, out, len)
}

/// Makes of the MAC of a reply that of the next one with a TSIG.
fn make_later_mac(
    alloc: Global,
    key: &Key,
    mac: &mut ArrayVec<u8, MAX_MAC>,
    stamp: &Stamp,
    text: &[u8],
) -> Result<(), AllocError>
    requires header { HEADER ≤ length text.now }
    requires counted { number_at text.now 10 < 2 ^ 16 - 1 }
    ensures { OnOk result (mac.new.items ≡ mac_later key.now mac.old.items text.now (stamped stamp.now text.now [])) }
{
    let mut octets = with_room(alloc, text)?;
    sign_later(key, mac, stamp, &mut octets, text.len());
    Ok(())
}

/// Where the TSIG of a message stands; None where a question or a record can't be read.
#[inline(never)]
fn place_of(message: &[u8]) -> Option<Place>
    requires { HEADER ≤ length message.now }
    ensures { result ≡ place_in message.now }
{
    let mut ends = [0; MAX_TARGETS];
    let mut sizes = [0; MAX_TARGETS];
    tsig_place(&Message::with_room(message, &mut ends, &mut sizes))
}

/// What the TSIG at the end of a message says, whose MAC has so many octets; None where it has another number, or reports an error.
fn signed_end(message: &[u8], size: usize) -> Option<SignedEnd<'_>>
    requires { size ≤ MAX_MAC }
    ensures { IfSome result (λ end. length end.mac ≡ size) }
{
    if message.len() < FIXED + size {
        return None;
    }
    let end = &message[message.len() - (FIXED + size)..];
    if usize::from(number_at(end, 8)) != size {
        return None;
    }
    let last = &end[10 + size..];
    if number_at(last, 2) != 0 || number_at(last, 4) != 0 {
        return None;
    }
    Some(SignedEnd {
        time: time_of(end),
        fudge: number_at(end, 6),
        mac: &end[10..10 + size],
        original: number_at(last, 0),
    })
}

/// Whether a message ends with the fields of such a TSIG (RFC 8945, 4.2).
fn ends_so(message: &[u8], end: &SignedEnd<'_>) -> bool
    requires { length end.now.mac ≤ MAX_MAC }
    ensures { OnTrue result ((front : List ℕ) × (message.now ≡ front ++ written end.now)) }
{
    let own = fields_of(end);
    if message.len() < own.len() {
        return false;
    }
    let (_, last) = message.split_at(message.len() - own.len());
    last == own.as_slice()
}

/// The fields of such a TSIG (RFC 8945, 4.2).
fn fields_of(end: &SignedEnd<'_>) -> ArrayVec<u8, MAX_FIELDS>
    requires { length end.now.mac ≤ MAX_MAC }
    ensures { result.items ≡ written end.now }
{
    let high = (end.time / 4_294_967_296 % 65_536) as u16;
    let low = (end.time % 4_294_967_296) as u32;
    let mut own = ArrayVec::new();
    put(&mut own, &high.to_be_bytes());
    put(&mut own, &low.to_be_bytes());
    put(&mut own, &end.fudge.to_be_bytes());
    put(&mut own, &(end.mac.len() as u16).to_be_bytes());
    put(&mut own, end.mac);
    put(&mut own, &end.original.to_be_bytes());
    put(&mut own, &[0, 0, 0, 0]);
    own
}

/// Puts octets at the end of fields.
fn put(own: &mut ArrayVec<u8, MAX_FIELDS>, octets: &[u8])
    requires { length own.old.items + length octets.now ≤ MAX_FIELDS }
    ensures { own.new.items ≡ own.old.items ++ octets.now }
{
    let _ = own.try_extend_from_slice(octets);
}

/// The time that octets begin with, of 48 bits (RFC 8945, 4.2).
fn time_of(octets: &[u8]) -> u64
    requires { 6 ≤ length octets.now }
    ensures { result ≡ number_at octets.now 0 * 2 ^ 32 + long_number_at octets.now 2 }
{
    let low = u32::from_be_bytes([octets[2], octets[3], octets[4], octets[5]]);
    u64::from(number_at(octets, 0)) * 4_294_967_296 + u64::from(low)
}

/// Whether a message's time is within its fudge of now (RFC 8945, 5.2.3).
fn is_timely(now: u64, end: &SignedEnd<'_>) -> bool
    ensures { result ≡ is_timely now end.now }
{
    let fudge = u64::from(end.fudge);
    now.saturating_sub(end.time) <= fudge && end.time.saturating_sub(now) <= fudge
}

/// The error that the TSIG at the end of a message reports, without Other Data or with the server's time; None where it reports none. It isn't signed, and serves
/// a sentence alone (RFC 8945, 5.3.2).
fn tsig_error(message: &[u8]) -> Option<u16>
    requires { HEADER ≤ length message.now }
{
    let Some(Place::At(_)) = place_of(message) else {
        return None;
    };
    let len = message.len();
    let error = if number_at(message, len - 2) == 0 {
        number_at(message, len - 4)
    } else {
        number_at(message, len - 10)
    };
    if error == 0 { None } else { Some(error) }
}
