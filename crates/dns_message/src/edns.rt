//! The OPT, by which requests and replies tell of extensions (RFC 6891).
ghost use Rattle.std.specs.Prelude.{◌≡◌, ◌≤◌, ◌++◌, ◌∷◌, [], List, length, None, MatchOption, option_map};
ghost use Rattle.dns_rdata.specs.declared.numbers.Rcode.{Rcode as Code};
ghost use Rattle.dns_message.specs.Encoded.{WritesParts};
ghost use Rattle.dns_message.specs.Message.{Entry as Standing};
ghost use Rattle.dns_message.specs.Opt.{said_alone, do_bit_of, refused_do, opt_said, udp_limit, opt_ttl, opt_octets, opt_part};
ghost use Rattle.dns_message.specs.Reads.{record_at, records_at, HearsAt};

use crate::entry::{Entry, entry_at, type_at};
use crate::octets::{put, put_u16, put_u32};
use crate::write::MIN_LIMIT;
use dns_rdata::{RType, Rcode};
use wire_names::Message;

/// The greatest reply over UDP, in octets, and so the size that an OPT of ours tells (RFC 6891, 6.2.4 and 6.2.5; own).
pub const MAX_UDP: usize = 1232;

/// The lowest bit of the code's upper ones, by its place in an OPT's TTL (RFC 6891, 6.1.3).
const EXTENDED_RCODE: u32 = 16_777_216;

/// VERSION's lowest bit, by its place in an OPT's TTL (RFC 6891, 6.1.3).
const VERSION: u32 = 65536;

/// How many versions eight bits tell (RFC 6891, 6.1.3).
const VERSIONS: u32 = 256;

/// DO, by its place in an OPT's TTL (RFC 6891, 6.1.3 and 6.1.4).
const DO: u32 = 32768;

/// The name of the root, in octets (RFC 1035, 3.1).
const ROOT: u8 = 0;

/// The octets of an OPT without data (RFC 6891, 6.1.2).
const OPT_SIZE: usize = 11;

/// What the OPT of a request says, whose version is 0 (RFC 6891, 6.1.2 and 6.1.3).
#[derive(Clone, Copy, Debug, PartialEq, Eq)]
pub struct Edns {
    /// How many octets of a datagram the one who asks can take, as it says.
    pub size: u16,
    /// DO: whether it takes the records of DNSSEC (RFC 3225, 3).
    pub dnssec_ok: bool,
}

impl Edns {
    /// The OPT of the reply: DO is copied (RFC 3225, 3; RFC 6891, 6.1.4).
    pub fn reply(self) -> Opt
        ensures { result ≡ record { dnssec_ok = self.dnssec_ok } }
    {
        Opt {
            dnssec_ok: self.dnssec_ok,
        }
    }
}

/// The OPT of a reply (RFC 6891, 6.1.1).
#[derive(Clone, Copy, Debug, PartialEq, Eq)]
pub struct Opt {
    /// DO, as the request has it.
    pub dnssec_ok: bool,
}

/// Why the OPTs of a request aren't obeyed (RFC 6891, 6.1.1 and 6.1.3).
#[derive(Clone, Copy)]
pub(crate) struct OptFault {
    /// FORMERR or BADVERS.
    pub rcode: Rcode,
    /// DO of the first of them.
    pub dnssec_ok: bool,
}

/// The greatest reply over UDP, in octets: 512 to a request without an OPT; else what the one who asks can take, but no less than
/// 512 and no more than 1,232 (RFC 1035, 4.2.1; RFC 6891, 6.2.3 and 6.2.5; own).
pub fn udp_limit(edns: Option<Edns>) -> usize
    ensures limit { result ≡ udp_limit edns }
    ensures least { MIN_LIMIT ≤ result }
    ensures most { result ≤ MAX_UDP }
{
    match edns {
        None => MIN_LIMIT,
        Some(edns) => usize::from(edns.size).max(MIN_LIMIT).min(MAX_UDP),
    }
}

/// What the OPTs among so many records from a position on say; None where one of the records can't be read (RFC 1035, 4.1.3;
/// RFC 6891, 6.1.1).
pub(crate) fn opt_at(
    octets: &Message<'_>,
    at: usize,
    count: u16,
) -> Option<Result<Option<Edns>, OptFault>>
    ensures { result ≡ option_map (λ r. opt_said r.0) (records_at count octets.now at) }
{
    // Most requests have no such record, and pay for no room for one.
    if count == 0 {
        return Some(Ok(None));
    }
    opt_among(octets, at, count)
}

/// What the OPTs among so many records say, as [`opt_at`] gives it.
fn opt_among(octets: &Message<'_>, at: usize, count: u16) -> Option<Result<Option<Edns>, OptFault>>
    ensures { result ≡ option_map (λ r. opt_said r.0) (records_at count octets.now at) }
{
    let mut place = at;
    let mut said = Ok(None);
    for _ in 0..count {
        let (heard, next) = heard_at(octets, place, said)?;
        said = heard;
        place = next;
    }
    Some(said)
}

/// What the OPTs among records say, where the record at a position stands after them, and the position after that one; None where
/// it can't be read. Of an OPT alone that is the first the owner is read, and others are passed over.
fn heard_at(
    octets: &Message<'_>,
    at: usize,
    said: Result<Option<Edns>, OptFault>,
) -> Option<(Result<Option<Edns>, OptFault>, usize)>
    ensures { MatchOption result (record_at octets.now at ≡ None) (λ r. HearsAt octets.now at said r.0 r.1) }
{
    let (rtype, next) = type_at(octets, at)?;
    if rtype != RType::OPT {
        return Some((said, next));
    }
    match do_bit_of(said) {
        None => heard_first(octets, at),
        Some(dnssec_ok) => Some((too_many(dnssec_ok), next)),
    }
}

/// The DO of the first OPT, by what OPTs say; None where there is no OPT.
fn do_bit_of(said: Result<Option<Edns>, OptFault>) -> Option<bool>
    ensures { result ≡ do_bit_of said }
{
    match said {
        Ok(None) => None,
        Ok(Some(edns)) => Some(edns.dnssec_ok),
        Err(fault) => Some(fault.dnssec_ok),
    }
}

/// What more OPTs than one say, of which the first has this DO (RFC 6891, 6.1.1).
fn too_many(dnssec_ok: bool) -> Result<Option<Edns>, OptFault>
    ensures { result ≡ refused_do dnssec_ok }
{
    let rcode = Rcode::FormErr;
    Err(OptFault { rcode, dnssec_ok })
}

/// What the OPT at a position says that is the only one, and the position after it; None where it can't be read.
fn heard_first(octets: &Message<'_>, at: usize) -> Option<(Result<Option<Edns>, OptFault>, usize)>
    ensures { result ≡ option_map (λ r. (said_alone r.0, r.1)) (record_at octets.now at) }
{
    let (entry, next) = entry_at(octets, at)?;
    Some((said_alone(&entry), next))
}

/// What an OPT says that is the only one: FORMERR of an owner other than the root, else BADVERS of a version above 0
/// (RFC 6891, 6.1.2 and 6.1.3).
fn said_alone(opt: &Entry) -> Result<Option<Edns>, OptFault>
    ensures { result ≡ said_alone opt.now }
{
    let dnssec_ok = opt.ttl / DO % 2 == 1;
    if !opt.owner.is_root() {
        return Err(OptFault {
            rcode: Rcode::FormErr,
            dnssec_ok,
        });
    }
    if opt.ttl / VERSION % VERSIONS != 0 {
        return Err(OptFault {
            rcode: Rcode::BadVers,
            dnssec_ok,
        });
    }
    Ok(Some(Edns {
        size: opt.class.0,
        dnssec_ok,
    }))
}

/// Writes the OPT of a reply with this code at a position, where the reply has one, as `put` does (RFC 6891, 6.1.2 and 6.1.3).
pub(crate) fn put_opt(out: &mut [u8], at: usize, rcode: Rcode, opt: Option<Opt>) -> Option<usize>
    ensures { WritesParts out.old out.new at (opt_part rcode opt) result }
{
    match opt {
        None => put(out, at, &[]),
        Some(opt) => put_one(out, at, rcode, opt),
    }
}

/// How many octets the OPT of a reply has, where the reply has one (RFC 6891, 6.1.2).
pub(crate) fn opt_size(opt: Option<Opt>) -> usize
    ensures { (code : Code) → result ≡ length (opt_part code opt) }
{
    match opt {
        None => 0,
        Some(_) => OPT_SIZE,
    }
}

/// Writes an OPT, as [`put_opt`] does.
fn put_one(out: &mut [u8], at: usize, rcode: Rcode, opt: Opt) -> Option<usize>
    ensures { WritesParts out.old out.new at (opt_octets rcode opt) result }
{
    let at = put(out, at, &[ROOT])?;
    let at = put_u16(out, at, RType::OPT.0)?;
    let at = put_u16(out, at, MAX_UDP as u16)?;
    let at = put_u32(out, at, ttl_of(rcode, opt))?;
    put_u16(out, at, 0)
}

/// What stands in the place of the OPT's TTL: the code's upper bits, version 0, DO, and Z 0 (RFC 6891, 6.1.3).
fn ttl_of(rcode: Rcode, opt: Opt) -> u32
    ensures { result ≡ opt_ttl rcode opt }
{
    let dnssec_ok = if opt.dnssec_ok { DO } else { 0 };
    EXTENDED_RCODE * u32::from(rcode.extended_bits()) + dnssec_ok
}
