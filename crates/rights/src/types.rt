//! The words for record types in rules.
use dns_rdata::RType;
use std::fmt;

/// The types that have a word of their own (RFC 1035, 3.2.2; RFC 3596, 2.1; RFC 2782; RFC 3403; RFC 4034; RFC 4255; RFC 4701; RFC 6698;
/// RFC 9460; RFC 8659).
const TYPES: &[(&str, u16)] = &[
    ("A", 1),
    ("NS", 2),
    ("CNAME", 5),
    ("SOA", 6),
    ("PTR", 12),
    ("MX", 15),
    ("TXT", 16),
    ("AAAA", 28),
    ("SRV", 33),
    ("NAPTR", 35),
    ("DS", 43),
    ("SSHFP", 44),
    ("DHCID", 49),
    ("TLSA", 52),
    ("SVCB", 64),
    ("HTTPS", 65),
    ("CAA", 257),
];

/// The types that only a request has, by their words.
const META: &[(&str, u16)] = &[("IXFR", 251), ("AXFR", 252), ("ANY", 255)];

/// The type that a word names, in any case: by its own word, or by `TYPE` and its number without leading zeros (RFC 3597, 5). None of a
/// metatype.
pub(crate) fn type_named(word: &str) -> Option<RType> {
    for (own, number) in TYPES {
        if word.eq_ignore_ascii_case(own) {
            return Some(RType(*number));
        }
    }
    let (mark, digits) = word.split_at_checked(4)?;
    if !mark.eq_ignore_ascii_case("TYPE") || !is_plain(digits) {
        return None;
    }
    let rtype = RType(digits.parse::<u16>().ok()?);
    if rtype.is_metatype() {
        None
    } else {
        Some(rtype)
    }
}

/// Whether a text is digits alone, and doesn't begin with a zero.
fn is_plain(digits: &str) -> bool {
    digits.bytes().all(|digit| digit.is_ascii_digit()) && !digits.starts_with('0')
}

/// A type, as it is written in rules.
#[derive(Clone, Copy)]
pub struct TypeWord(pub RType);

impl fmt::Display for TypeWord {
    fn fmt<W: fmt::Write>(&self, f: &mut fmt::Formatter<W>) -> fmt::Result {
        let own = self.0.0;
        for (word, number) in TYPES {
            if *number == own {
                return f.write_str(word);
            }
        }
        for (word, number) in META {
            if *number == own {
                return f.write_str(word);
            }
        }
        write!(f, "TYPE{own}")
    }
}
