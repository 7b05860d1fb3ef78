//! What would be right instead of what a zone's text has, if one word shows it.
use crate::seen::{Seen, marks_of, octets_of};
use crate::units::seconds_of;
use dns_name::octet_at;
use dns_rdata::RType;
use master_file::Cause;
use record_text::{Front, is_number, read_front};
use zone_lexing::Word;

/// What would be right instead of what a text has.
#[derive(Clone, Copy)]
pub enum Hint<'a> {
    /// A TTL has units: its word, and its value in seconds.
    Ttl(&'a [u8], u64),
    /// A time in an SOA has units: its word, and its value in seconds.
    Time(&'a [u8], u64),
    /// A type of this name must be written by its number.
    Numbered(&'static str, u16),
    /// The type is missing.
    NoType,
    /// A string has too many octets.
    LongString,
    /// A word of a type's data is missing: its name, and the form of the type and its data.
    Missing(&'static str, &'static str),
}

/// The types that must be written by their numbers here, although other servers know them by name (IANA, DNS parameters).
const NUMBERED: [(&str, u16); 24] = [
    ("HINFO", 13),
    ("RP", 17),
    ("AFSDB", 18),
    ("LOC", 29),
    ("NAPTR", 35),
    ("KX", 36),
    ("CERT", 37),
    ("DNAME", 39),
    ("APL", 42),
    ("DS", 43),
    ("SSHFP", 44),
    ("DNSKEY", 48),
    ("DHCID", 49),
    ("TLSA", 52),
    ("SMIMEA", 53),
    ("CDS", 59),
    ("CDNSKEY", 60),
    ("OPENPGPKEY", 61),
    ("CSYNC", 62),
    ("ZONEMD", 63),
    ("SVCB", 64),
    ("HTTPS", 65),
    ("URI", 256),
    ("CAA", 257),
];

/// A word of a type's data.
#[derive(Clone, Copy)]
enum Field {
    /// A number of this name.
    Number(&'static str),
    /// Another word of this name.
    Other(&'static str),
}

/// The words of a type's data.
#[derive(Clone, Copy)]
struct Form {
    rtype: RType,
    /// The type and its data, as the names of its words.
    line: &'static str,
    fields: &'static [Field],
}

/// The words of the data of each type with a presentation form (RFC 1035, 3.3; RFC 3596, 2; RFC 2782).
const FORMS: [Form; 9] = [
    Form {
        rtype: RType::A,
        line: "A ADDRESS",
        fields: &[Field::Other("ADDRESS")],
    },
    Form {
        rtype: RType::AAAA,
        line: "AAAA ADDRESS",
        fields: &[Field::Other("ADDRESS")],
    },
    Form {
        rtype: RType::NS,
        line: "NS NAME",
        fields: &[Field::Other("NAME")],
    },
    Form {
        rtype: RType::CNAME,
        line: "CNAME NAME",
        fields: &[Field::Other("NAME")],
    },
    Form {
        rtype: RType::PTR,
        line: "PTR NAME",
        fields: &[Field::Other("NAME")],
    },
    Form {
        rtype: RType::TXT,
        line: "TXT STRING",
        fields: &[Field::Other("STRING")],
    },
    Form {
        rtype: RType::MX,
        line: "MX PREFERENCE NAME",
        fields: &[Field::Number("PREFERENCE"), Field::Other("NAME")],
    },
    Form {
        rtype: RType::SRV,
        line: "SRV PRIORITY WEIGHT PORT NAME",
        fields: &[
            Field::Number("PRIORITY"),
            Field::Number("WEIGHT"),
            Field::Number("PORT"),
            Field::Other("NAME"),
        ],
    },
    Form {
        rtype: RType::SOA,
        line: "SOA SERVER MAILBOX SERIAL REFRESH RETRY EXPIRE MINIMUM",
        fields: &[
            Field::Other("SERVER"),
            Field::Other("MAILBOX"),
            Field::Number("SERIAL"),
            Field::Number("REFRESH"),
            Field::Number("RETRY"),
            Field::Number("EXPIRE"),
            Field::Number("MINIMUM"),
        ],
    },
];

/// The maximum length of a string, in octets (RFC 1035, 3.3).
const MAX_STRING: usize = 255;

/// What would be right instead of the part of a text that is refused for this cause.
pub fn hint_of<'a>(cause: Cause, seen: &Seen<'a>) -> Option<Hint<'a>> {
    match cause {
        Cause::UnknownType => hint_of_type(seen.word?),
        Cause::Number | Cause::BadData => match seen.words.as_slice() {
            [Word::Plain(first), behind @ ..] if !seen.indented && first.starts_with(b"$") => {
                hint_of_directive(first, behind)
            }
            [] => None,
            words => hint_of_record(cause, marks_of(seen.indented, words)),
        },
        _ => None,
    }
}

/// What would be right instead of a word that is not a type.
fn hint_of_type(word: &[u8]) -> Option<Hint<'_>> {
    if let Some(seconds) = seconds_of(word) {
        return Some(Hint::Ttl(word, seconds));
    }
    for (name, number) in NUMBERED {
        if word.eq_ignore_ascii_case(name.as_bytes()) {
            return Some(Hint::Numbered(name, number));
        }
    }
    None
}

/// What would be right instead of a directive's argument.
fn hint_of_directive<'a>(directive: &[u8], words: &[Word<'a>]) -> Option<Hint<'a>> {
    if directive != b"$TTL".as_slice() {
        return None;
    }
    let word = octets_of(words.first())?;
    Some(Hint::Ttl(word, seconds_of(word)?))
}

/// What would be right instead of the words after an owner.
fn hint_of_record<'a>(cause: Cause, marks: &[Word<'a>]) -> Option<Hint<'a>> {
    match read_front(marks) {
        Ok(front) => hint_of_data(cause, &front),
        Err(fault) if fault == Cause::BadData => Some(Hint::NoType),
        Err(_) => None,
    }
}

/// What would be right instead of a record's data.
fn hint_of_data<'a>(cause: Cause, front: &Front<'_, 'a>) -> Option<Hint<'a>> {
    if front.rtype == RType::SOA && cause == Cause::Number {
        if let Some(hint) = time_among(front.words) {
            return Some(hint);
        }
    }
    if front.rtype == RType::TXT && front.words.iter().any(is_long) {
        return Some(Hint::LongString);
    }
    for form in &FORMS {
        if form.rtype == front.rtype {
            let name = missing_in(cause, form.fields, front.words)?;
            return Some(Hint::Missing(name, form.line));
        }
    }
    None
}

/// The first of an SOA's words, after its two names, that is a time with units.
fn time_among<'a>(words: &[Word<'a>]) -> Option<Hint<'a>> {
    for word in words.get(2..)? {
        if let Word::Plain(text) = word {
            if let Some(seconds) = seconds_of(text) {
                return Some(Hint::Time(text, seconds));
            }
        }
    }
    None
}

/// The word that is missing from a type's data, if it has too few words: the first number that has another word in its place, or else the word after
/// the last one. For a refused number, only the former.
fn missing_in(cause: Cause, fields: &[Field], words: &[Word<'_>]) -> Option<&'static str> {
    if words.len() >= fields.len() || is_generic(words) {
        return None;
    }
    for (field, word) in fields.iter().zip(words) {
        match field {
            Field::Number(name) if !is_number(*word) => return Some(name),
            _ => {}
        }
    }
    match fields.get(words.len())? {
        Field::Number(name) | Field::Other(name) if cause == Cause::BadData => Some(name),
        _ => None,
    }
}

/// Whether data is written in the generic form of a type without a form of its own (RFC 3597, 5).
fn is_generic(words: &[Word<'_>]) -> bool {
    octets_of(words.first()) == Some(b"\\#".as_slice())
}

/// Whether a word is a string with too many octets (RFC 1035, 3.3 and 5.1).
fn is_long(word: &Word<'_>) -> bool {
    let mut rest = octets_of(Some(word)).unwrap_or(b"");
    for _ in 0..MAX_STRING {
        match octet_at(rest) {
            Some((_, len)) => rest = &rest[len..],
            None => return false,
        }
    }
    !rest.is_empty()
}
