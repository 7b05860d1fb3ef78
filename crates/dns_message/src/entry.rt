//! Records as they stand in a message (RFC 1035, 4.1.3).
ghost use Rattle.std.specs.Prelude.{◌≡◌, ◌+◌, ◌<◌, ◌≤◌, length, nat_le, if◌then◌else◌, Some, None, Ok, IfSome, option_map};
ghost use Rattle.dns_name.specs.Name.{Name as Owner};
ghost use Rattle.dns_message.specs.Message.{number_at};
ghost use Rattle.dns_message.specs.Reads.{long_number_at, typed, record_of, record_at};
ghost use Rattle.dns_message.specs.Expanded.{octets_from};

use dns_name::Name;
use dns_rdata::{Class, RType};
use std::marker::Model;
use wire_names::Message;

/// A record as it stands in a message, its data not looked at.
#[derive(Drop)]
pub(crate) struct Entry {
    /// The name that it stands at, as it is spelt.
    pub owner: Name,
    /// Its type.
    pub rtype: RType,
    /// Its class.
    pub class: Class,
    /// Its TTL.
    pub ttl: u32,
    /// Where its data begins.
    pub at: usize,
    /// How many octets its data has.
    pub size: usize,
}

impl Model for Entry {
    ghost use Rattle.std.specs.Prelude.{◌+◌, ◌<◌, ◌^◌};
    ghost use Rattle.dns_message.specs.Message.{Entry as Standing};

    ghost Value = { Standing };

    ghost view = { λ a. record {
      owner = a.owner;
      rtype = a.rtype.0;
      class = a.class.0;
      ttl = a.ttl;
      at = a.at;
      size = a.size;
    } };

    ghost invariant = { λ a. a.at + a.size < 2 ^ 63 };
}

/// The record at a position, its owner through pointers, and the position after it; None where it can't be read
/// (RFC 1035, 4.1.3).
pub(crate) fn entry_at(octets: &Message<'_>, at: usize) -> Option<(Entry, usize)>
    ensures read { result ≡ record_at octets.now at }
    ensures within { IfSome result (λ r. r.0.at + r.0.size ≤ length octets.now) }
{
    let Ok((owner, at)) = octets.read_name(at) else {
        return None;
    };
    entry_behind(octets.octets(), owner, at)
}

/// The type of the record at a position, which is passed over, and the position after it; None where it can't be read
/// (RFC 1035, 4.1.3).
pub(crate) fn type_at(octets: &Message<'_>, at: usize) -> Option<(RType, usize)>
    ensures { option_map (λ r. (r.0.0, r.1)) result ≡ option_map typed (record_at octets.now at) }
{
    let at = octets.behind_name(at)?;
    type_behind(octets.octets(), at)
}

/// The type of the record whose owner ends at a position, and the position after it; None where the octets end before.
fn type_behind(octets: &[u8], at: usize) -> Option<(RType, usize)>
    ensures { (owner : Owner) → option_map (λ r. (r.0.0, r.1)) result ≡ option_map typed (record_of octets.now (Ok (owner, at))) }
{
    let rtype = RType(number_at(octets, at)?);
    let size = usize::from(number_at(octets, at + 8)?);
    let beyond = at + 10 + size;
    if beyond > octets.len() {
        return None;
    }
    Some((rtype, beyond))
}

/// The record whose owner was read, which ends at a position, and the position after the record; None where the octets end before
/// (RFC 1035, 4.1.3).
fn entry_behind(octets: &[u8], owner: Name, at: usize) -> Option<(Entry, usize)>
    ensures read { result ≡ record_of octets.now (Ok (owner, at)) }
    ensures within { IfSome result (λ r. r.0.at + r.0.size ≤ length octets.now) }
{
    let rtype = RType(number_at(octets, at)?);
    let class = Class(number_at(octets, at + 2)?);
    let ttl = long_number_at(octets, at + 4)?;
    let size = usize::from(number_at(octets, at + 8)?);
    let next = at + 10 + size;
    if next > octets.len() {
        return None;
    }
    let entry = Entry {
        owner,
        rtype,
        class,
        ttl,
        at: at + 10,
        size,
    };
    Some((entry, next))
}

/// The number of 16 bits at a position; None where the octets end before its end (RFC 1035, 2.3.2).
pub(crate) fn number_at(octets: &[u8], at: usize) -> Option<u16>
    ensures { result ≡ (if nat_le (at + 2) (length octets.now) then Some (number_at octets.now at) else None) }
{
    let pair = octets.get(at..)?.first_chunk::<2>()?;
    Some(u16::from_be_bytes(*pair))
}

/// The number of 32 bits at a position; None where the octets end before its end (RFC 1035, 2.3.2).
pub(crate) fn long_number_at(octets: &[u8], at: usize) -> Option<u32>
    ensures { result ≡ (if nat_le (at + 4) (length octets.now) then Some (long_number_at octets.now at) else None) }
{
    let four = octets.get(at..)?.first_chunk::<4>()?;
    Some(u32::from_be_bytes(*four))
}

/// So many octets from a position on; fewer where the message ends before.
pub(crate) fn octets_from<'m>(octets: &Message<'m>, at: usize, size: usize) -> &'m [u8]
    ensures { result.now ≡ octets_from octets.now at size }
{
    let rest = octets.octets().get(at..).unwrap_or(&[]);
    rest.get(..size).unwrap_or(rest)
}
