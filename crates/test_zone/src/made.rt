//! What the tests are made of: names below `example.`, and sets as rows of a name and a word that stands for a type and its data.
ghost use Rattle.std.specs.Prelude.{◌<◌, ◌^◌};

use dns_name::Name;
use dns_rdata::{RData, RRset, RType, Ttl};
use std::alloc::Global;
use zone_tree::{Walk, Zone};

const SOA: &[u8] = b"\0\0\0\0\0\x01\0\0\0\x02\0\0\0\x03\0\0\0\x04\0\0\0\x05";

const NS: &[u8] = b"\x02ns\x07example\0";

/// Words of rows, with the type and the data octets of each.
const WORDS: [(&str, RType, &[u8]); 11] = [
    ("A", RType::A, &[192, 0, 2, 1]),
    ("NS", RType::NS, NS),
    ("NS-sub", RType::NS, b"\x02ns\x03sub\x07example\0"),
    ("CNAME", RType::CNAME, NS),
    ("CNAME-web", RType::CNAME, b"\x03web\x07example\0"),
    ("SOA", RType::SOA, SOA),
    ("MX", RType::MX, b"\0\x0a\x05host1\x07example\0"),
    ("MX-web", RType::MX, b"\0\x0a\x03web\x07example\0"),
    ("MX-dyn", RType::MX, b"\0\x14\x01q\x03dyn\x07example\0"),
    ("TXT", RType::TXT, b"\x02hi"),
    ("AAAA", RType::AAAA, &[0; 16]),
];

/// The type and the data of a word.
pub(crate) fn data_of(word: &str) -> Option<(RType, &'static [u8])> {
    for (known, rtype, octets) in WORDS {
        if known == word {
            return Some((rtype, octets));
        }
    }
    None
}

/// A name below `example.`; a whole one where the text ends in a dot.
pub(crate) fn name(text: &str) -> Option<Name> {
    let origin = Name::from_text(b"example.", &Name::root()).ok()?;
    Name::from_text(text.as_bytes(), &origin).ok()
}

/// The set of a row, of one record: a name and a word; None where memory is refused.
pub(crate) fn set_of(alloc: Global, row: &str, ttl: Ttl) -> Option<RRset>
    requires { ttl.0 < 2 ^ 31 }
{
    let (owner, word) = row.split_once(' ')?;
    let (rtype, octets) = data_of(word)?;
    let data = RData::from_wire(alloc, rtype, octets).ok()?;
    RRset::new(alloc, &name(owner)?, ttl, data).ok()
}

/// The sets of rows, with commas between them; none of an empty text. None where memory is refused.
pub(crate) fn sets_of(alloc: Global, rows: &str) -> Option<Vec<RRset>> {
    let mut sets = Vec::new(alloc);
    for row in rows.split_terminator(", ") {
        sets.push(set_of(alloc, row, Ttl(3600))?).ok()?;
    }
    Some(sets)
}

/// Whether a set has a row's owner and type.
fn is_row(set: &RRset, row: &str) -> Option<bool> {
    let (owner, word) = row.split_once(' ')?;
    let (rtype, _) = data_of(word)?;
    Some(set.owner() == name(owner)? && set.rtype() == rtype)
}

/// Whether a walk gives a set of each row, in their order.
pub(crate) fn gives(walk: Walk<'_>, rows: &str) -> Option<bool> {
    let mut rows = rows.split_terminator(", ");
    for set in walk {
        if !is_row(set, rows.next()?)? {
            return Some(false);
        }
    }
    Some(rows.next().is_none())
}

/// The zone of rows; None where memory is refused.
fn zone_of(alloc: Global, rows: &str) -> Option<Zone> {
    Zone::new(alloc, sets_of(alloc, rows)?).ok()
}

/// The zone of rows, made anew where memory is refused.
pub(crate) fn zone_anew(alloc: Global, rows: &str) -> Option<Zone> {
    match zone_of(alloc, rows) {
        Some(zone) => Some(zone),
        None => zone_of(alloc, rows),
    }
}
