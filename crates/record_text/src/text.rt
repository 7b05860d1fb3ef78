//! The data of a record as text (RFC 1035, 5.1; RFC 4291, 2.2).
ghost use Rattle.std.specs.Prelude.{◌≡◌, ◌≤◌, ◌++◌, length, OnOk, IfOk, IfSome, string_bytes, flat_map};
ghost use Rattle.dns_rdata.specs.Numbers.{type_TXT};
ghost use Rattle.record_text.specs.declared.data.Field.TheVariants as field;
ghost use Rattle.record_text.specs.Text.{groups_text, string_octet, word_at, words_at, words_of, text_of_words};
ghost use Rattle.record_text.specs.Private.{WritesWord};

use crate::data::{Field, form_of};
use crate::generic::write_generic;
use dns_name::Name;
use dns_rdata::{RData, RType};
use std::alloc::AllocError;
use std::net::Ipv6Addr;

/// Writes the words of a record's data after the text, each after a space (RFC 1035, 5.1): names whole with a final
/// dot, numbers in decimal, addresses with dots, addresses of version 6 as eight groups in lower case without leading
/// zeros and without `::`, and strings quoted, `"` and `\` in them after a backslash and octets outside 32 to 126 as
/// three digits after one; of a type that nobody here knows `\#`, how many octets there are, and these in hexadecimal digits of lower
/// case (RFC 3597, 5).
///
/// The fault is a growth that was refused; the text then ends anywhere.
pub fn write_data(text: &mut String, rdata: &RData) -> Result<(), AllocError>
    ensures { OnOk result (string_bytes text.new ≡ string_bytes text.old ++ text_of_words (words_of rdata.now.rtype rdata.now.octets)) }
{
    if rdata.rtype() == RType::TXT {
        return write_strings(text, rdata.octets());
    }
    match form_of(rdata.rtype()) {
        Some(fields) => write_fields(text, fields, rdata.octets()),
        None => write_generic(text, rdata.octets()),
    }
}

/// Writes the strings in the octets, each after a space.
fn write_strings(text: &mut String, octets: &[u8]) -> Result<(), AllocError>
    ensures { OnOk result (string_bytes text.new ≡ string_bytes text.old ++ text_of_words (words_of type_TXT octets.now)) }
{
    let mut rest = octets;
    while let Some((len, behind)) = rest.split_first() {
        let (string, others) = behind.split_at(usize::from(*len).min(behind.len()));
        text.push_str(" \"")?;
        write_string(text, string)?;
        text.push('"')?;
        rest = others;
    }
    Ok(())
}

/// Writes the octets of a string.
fn write_string(text: &mut String, string: &[u8]) -> Result<(), AllocError>
    ensures { OnOk result (string_bytes text.new ≡ string_bytes text.old ++ flat_map string_octet string.now) }
{
    for octet in string {
        write_octet(text, *octet)?;
    }
    Ok(())
}

/// Writes one octet of a string.
fn write_octet(text: &mut String, octet: u8) -> Result<(), AllocError>
    ensures { OnOk result (string_bytes text.new ≡ string_bytes text.old ++ string_octet octet) }
{
    if octet < b' ' || octet > b'~' {
        text.push('\\')?;
        text.push(char::from(b'0' + octet / 100))?;
        text.push(char::from(b'0' + octet / 10 % 10))?;
        text.push(char::from(b'0' + octet % 10))
    } else if octet == b'"' || octet == b'\\' {
        text.push('\\')?;
        text.push(char::from(octet))
    } else {
        text.push(char::from(octet))
    }
}

/// Writes the words of octets that are these fields, each after a space.
fn write_fields(text: &mut String, fields: &[Field], octets: &[u8]) -> Result<(), AllocError>
    ensures { OnOk result (string_bytes text.new ≡ string_bytes text.old ++ text_of_words (words_at fields.now octets.now)) }
{
    let mut rest = octets;
    for field in fields {
        let Some(len) = write_field(text, *field, rest)? else {
            return Ok(());
        };
        rest = &rest[len..];
    }
    Ok(())
}

/// Writes the field that octets begin with after a space, and gives how many octets it takes. None, with nothing
/// written, where they begin with no such field.
#[tactic(auto, unfolding(crate::specs::Text::word_at))]
fn write_field(text: &mut String, field: Field, octets: &[u8]) -> Result<Option<usize>, AllocError>
    ensures word { IfOk result (WritesWord (word_at field octets.now) (string_bytes text.old) (string_bytes text.new)) }
    ensures within { IfOk result (λ len. IfSome len (λ n. n ≤ length octets.now)) }
{
    match field {
        Field::Address => {
            let [a, b, c, d, ..] = octets else {
                return Ok(None);
            };
            write!(text, " {a}.{b}.{c}.{d}")?;
            Ok(Some(4))
        }
        Field::Address6 => write_address6(text, octets),
        Field::Name => {
            let Some((name, len)) = Name::from_wire(octets) else {
                return Ok(None);
            };
            write!(text, " {name}")?;
            Ok(Some(len))
        }
        Field::Short => {
            let [a, b, ..] = octets else {
                return Ok(None);
            };
            let number = u16::from_be_bytes([*a, *b]);
            write!(text, " {number}")?;
            Ok(Some(2))
        }
        Field::Long => {
            let [a, b, c, d, ..] = octets else {
                return Ok(None);
            };
            let number = u32::from_be_bytes([*a, *b, *c, *d]);
            write!(text, " {number}")?;
            Ok(Some(4))
        }
    }
}

/// Writes the address of version 6 that octets begin with after a space.
#[tactic(auto, unfolding(crate::specs::Text::word_at))]
fn write_address6(text: &mut String, octets: &[u8]) -> Result<Option<usize>, AllocError>
    ensures word { IfOk result (WritesWord (word_at field.Address6 octets.now) (string_bytes text.old) (string_bytes text.new)) }
    ensures within { IfOk result (λ len. IfSome len (λ n. n ≤ length octets.now)) }
{
    let Some(address) = octets.first_chunk::<16>() else {
        return Ok(None);
    };
    let groups = Ipv6Addr::from(*address).segments();
    text.push(' ')?;
    write_groups(text, &groups)?;
    Ok(Some(16))
}

/// Writes groups of four hexadecimal digits at most with colons between.
fn write_groups(text: &mut String, groups: &[u16]) -> Result<(), AllocError>
    ensures { OnOk result (string_bytes text.new ≡ string_bytes text.old ++ groups_text groups.now) }
{
    let Some((first, others)) = groups.split_first() else {
        return Ok(());
    };
    write!(text, "{first:x}")?;
    for group in others {
        write!(text, ":{group:x}")?;
    }
    Ok(())
}
