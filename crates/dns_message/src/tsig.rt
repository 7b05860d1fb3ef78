//! Where the TSIG of a message stands (RFC 8945, 5.1 and 5.2).
ghost use Rattle.std.specs.Prelude.{◌≡◌, ◌≤◌, ◌||◌, ◌==◌, length, option_map};
ghost use Rattle.dns_message.specs.Reads.{record_at, records_at};
ghost use Rattle.dns_message.specs.Tsig.{type_TSIG, has_tsig, last_place, additional_place, place_in};

use crate::entry::{entry_at, type_at};
use crate::read::{ANCOUNT, ARCOUNT, HEADER, NSCOUNT, QDCOUNT, count_at};
use crate::received::behind_questions;
use wire_names::Message;

/// The type of a TSIG (RFC 8945, 4.2).
const TSIG: u16 = 250;

/// Where the TSIG of a message stands.
#[derive(Clone, Copy)]
pub enum Place {
    /// There is none.
    Bare,
    /// There is one that isn't the last of the additional records, or isn't of class ANY, or hasn't the TTL 0, or there are two.
    Bad,
    /// At this position.
    At(usize),
}

/// Where the TSIG of a message stands; None where a question or a record can't be read (RFC 8945, 5.1 and 5.2). It takes no memory.
pub fn tsig_place(octets: &Message<'_>) -> Option<Place>
    requires { HEADER ≤ length octets.now }
    ensures { result ≡ place_in octets.now }
{
    let at = behind_questions(octets, HEADER, count_at(octets, QDCOUNT))?;
    let (answer, at) = tsigs_at(octets, at, count_at(octets, ANCOUNT))?;
    let (authority, at) = tsigs_at(octets, at, count_at(octets, NSCOUNT))?;
    additional_place(octets, count_at(octets, ARCOUNT), at, answer || authority)
}

/// Where the TSIG is among so many additional records from a position on, by whether another one comes before them; None where one of them can't be read.
fn additional_place(octets: &Message<'_>, count: u16, at: usize, others: bool) -> Option<Place>
    ensures { result ≡ additional_place octets.now count at others }
{
    if count == 0 {
        return Some(if others { Place::Bad } else { Place::Bare });
    }
    let (more, last) = tsigs_at(octets, at, count - 1)?;
    last_place(octets, others || more, last)
}

/// What the last additional record is, which begins at a position, by whether a TSIG comes before it; None where it can't be read (RFC 8945, 5.2).
fn last_place(octets: &Message<'_>, others: bool, at: usize) -> Option<Place>
    ensures { result ≡ option_map (last_place others at) (record_at octets.now at) }
{
    // Most are no TSIG, and their owners aren't read.
    let (rtype, _) = type_at(octets, at)?;
    if others {
        return Some(Place::Bad);
    }
    if rtype.0 != TSIG {
        return Some(Place::Bare);
    }
    let (entry, _) = entry_at(octets, at)?;
    if entry.class.0 == 255 && entry.ttl == 0 {
        return Some(Place::At(at));
    }
    Some(Place::Bad)
}

/// Whether one of so many records from a position on is a TSIG, and the position after them; None where one can't be read.
fn tsigs_at(octets: &Message<'_>, at: usize, count: u16) -> Option<(bool, usize)>
    ensures { result ≡ option_map (λ r. (has_tsig r.0, r.1)) (records_at count octets.now at) }
{
    let mut place = at;
    let mut has = false;
    for _ in 0..count {
        let (rtype, next) = type_at(octets, place)?;
        has = has_more(has, rtype.0);
        place = next;
    }
    Some((has, place))
}

/// Whether records have a TSIG, or one more of a type is one.
fn has_more(has: bool, rtype: u16) -> bool
    ensures { result ≡ has || (rtype == type_TSIG) }
{
    has || rtype == TSIG
}
