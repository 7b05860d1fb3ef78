//! Data as words of its form (RFC 1035, 5.1).
ghost use Rattle.std.specs.Prelude.{◌≡◌, ◌≤◌, ◌++◌, ◌∷◌, length, OnOk, IfOk, IfSome, IsTrue, string_bytes};
ghost use Rattle.std.specs.List.{list_all};
ghost use Rattle.std.specs.Char.{is_ascii_alphanumeric};
ghost use Rattle.record_text.specs.Text.{as_text, string_octet, text_of_words};
ghost use Rattle.wide_text.specs.declared.forms.Rest.TheVariants as rest;
ghost use Rattle.wide_text.specs.Private.{WritesWord, WritesWords};
ghost use Rattle.wide_text.specs.Words.{eui_at, long_at, more_pairs, octet_at, pairs, quoted, rest_words, short_at, string_at, tag_at, wide_type_word, wide_words, word_at, words_by};

use crate::forms::{Field, Rest, form_of};
use crate::location_words::location_words;
use crate::param_words::param_words;
use crate::read_back::write_read_back;
use crate::texts::is_tag;
use base64::engine::general_purpose::STANDARD;
use dns_name::Name;
use dns_rdata::{DataFault, RData, RType};
use record_text::{write_data, write_type};
use std::alloc::{AllocError, Global};

/// Writes the word of a type after the text: that of its line in the table, else as `record_text::write_type`.
///
/// The fault is a growth that was refused; the text then ends anywhere.
pub fn write_wide_type(text: &mut String, rtype: RType) -> Result<(), AllocError>
    ensures { OnOk result (string_bytes text.new ≡ string_bytes text.old ++ wide_type_word rtype.0) }
{
    match form_of(rtype) {
        Some(form) => text.push_str(form.word),
        None => write_type(text, rtype),
    }
}

/// Writes the words of a record's data after the text, each after a space: by the type's line in the table where the octets are of that form, else
/// as `record_text::write_data`, which writes octets after `\\#` of a type that nobody knows (RFC 3597, 5). Names stand whole with a final dot,
/// strings and texts in quotes, algorithms and certificates' types by their numbers, hexadecimal digits in lower case.
///
/// The fault is a growth that was refused; the text then ends anywhere.
pub fn write_wide_data(alloc: Global, text: &mut String, rdata: &RData) -> Result<(), AllocError>
    ensures { OnOk result (string_bytes text.new ≡ string_bytes text.old ++ text_of_words (wide_words rdata.now.rtype rdata.now.octets)) }
{
    let Some(form) = form_of(rdata.rtype()) else {
        return write_data(text, rdata);
    };
    let mut words = String::new(alloc);
    if write_words(alloc, &mut words, form.fields, form.rest, rdata.octets())? {
        text.push_str(&words)
    } else {
        write_data(text, rdata)
    }
}

/// Writes the words of octets that are these fields and this rest after the text, each after a space; false where they aren't, and the text then
/// ends anywhere.
fn write_words(
    alloc: Global,
    text: &mut String,
    fields: &[Field],
    rest: Rest,
    octets: &[u8],
) -> Result<bool, AllocError>
    ensures { IfOk result (WritesWords (words_by fields.now rest octets.now) (string_bytes text.old) (string_bytes text.new)) }
{
    let mut left = octets;
    for field in fields {
        let Some(len) = write_field(alloc, text, *field, left)? else {
            return Ok(false);
        };
        left = &left[len..];
    }
    write_rest(alloc, text, rest, left)
}

/// Writes the field that octets begin with after a space, and returns how many octets it takes; None where they begin with no such field.
#[tactic(auto, unfolding(crate::specs::Words::word_at))]
fn write_field(
    alloc: Global,
    text: &mut String,
    field: Field,
    octets: &[u8],
) -> Result<Option<usize>, AllocError>
    ensures word { IfOk result (WritesWord (word_at field octets.now) (string_bytes text.old) (string_bytes text.new)) }
    ensures within { IfOk result (λ len. IfSome len (λ n. n ≤ length octets.now)) }
{
    match field {
        Field::Name => {
            let Some((name, len)) = Name::from_wire(octets) else {
                return Ok(None);
            };
            write!(text, " {name}")?;
            Ok(Some(len))
        }
        Field::Octet | Field::Algorithm => write_octet(text, octets),
        Field::Short | Field::CertType => write_short(text, octets),
        Field::Long | Field::Time => write_long(text, octets),
        Field::String => write_string(text, octets),
        Field::Tag => write_tag(text, octets),
        Field::Eui48 => write_eui(alloc, text, octets, 6),
        Field::Eui64 => write_eui(alloc, text, octets, 8),
        Field::Text => {
            write_quoted(text, octets)?;
            Ok(Some(octets.len()))
        }
    }
}

/// Writes the number of one octet that octets begin with.
fn write_octet(text: &mut String, octets: &[u8]) -> Result<Option<usize>, AllocError>
    ensures word { IfOk result (WritesWord (octet_at octets.now) (string_bytes text.old) (string_bytes text.new)) }
    ensures within { IfOk result (λ len. IfSome len (λ n. n ≤ length octets.now)) }
{
    let [number, ..] = octets else {
        return Ok(None);
    };
    write!(text, " {number}")?;
    Ok(Some(1))
}

/// Writes the number of two octets that octets begin with.
fn write_short(text: &mut String, octets: &[u8]) -> Result<Option<usize>, AllocError>
    ensures word { IfOk result (WritesWord (short_at octets.now) (string_bytes text.old) (string_bytes text.new)) }
    ensures within { IfOk result (λ len. IfSome len (λ n. n ≤ length octets.now)) }
{
    let [a, b, ..] = octets else {
        return Ok(None);
    };
    let number = u16::from_be_bytes([*a, *b]);
    write!(text, " {number}")?;
    Ok(Some(2))
}

/// Writes the number of four octets that octets begin with.
fn write_long(text: &mut String, octets: &[u8]) -> Result<Option<usize>, AllocError>
    ensures word { IfOk result (WritesWord (long_at octets.now) (string_bytes text.old) (string_bytes text.new)) }
    ensures within { IfOk result (λ len. IfSome len (λ n. n ≤ length octets.now)) }
{
    let [a, b, c, d, ..] = octets else {
        return Ok(None);
    };
    let number = u32::from_be_bytes([*a, *b, *c, *d]);
    write!(text, " {number}")?;
    Ok(Some(4))
}

/// Writes the string that octets begin with, in quotes.
fn write_string(text: &mut String, octets: &[u8]) -> Result<Option<usize>, AllocError>
    ensures word { IfOk result (WritesWord (string_at octets.now) (string_bytes text.old) (string_bytes text.new)) }
    ensures within { IfOk result (λ len. IfSome len (λ n. n ≤ length octets.now)) }
{
    let Some((len, after)) = octets.split_first() else {
        return Ok(None);
    };
    let len = usize::from(*len);
    if len > after.len() {
        return Ok(None);
    }
    write_quoted(text, &after[..len])?;
    Ok(Some(len + 1))
}

/// Writes the tag that octets begin with.
fn write_tag(text: &mut String, octets: &[u8]) -> Result<Option<usize>, AllocError>
    ensures word { IfOk result (WritesWord (tag_at octets.now) (string_bytes text.old) (string_bytes text.new)) }
    ensures within { IfOk result (λ len. IfSome len (λ n. n ≤ length octets.now)) }
{
    let Some((len, after)) = octets.split_first() else {
        return Ok(None);
    };
    let len = usize::from(*len);
    if len > after.len() || !is_tag(&after[..len]) {
        return Ok(None);
    }
    text.push(' ')?;
    write_letters(text, &after[..len])?;
    Ok(Some(len + 1))
}

/// Writes the identifier of so many octets that octets begin with.
fn write_eui(
    alloc: Global,
    text: &mut String,
    octets: &[u8],
    count: usize,
) -> Result<Option<usize>, AllocError>
    ensures word { IfOk result (WritesWord (eui_at count octets.now) (string_bytes text.old) (string_bytes text.new)) }
    ensures within { IfOk result (λ len. IfSome len (λ n. n ≤ length octets.now)) }
{
    if count > octets.len() {
        return Ok(None);
    }
    text.push(' ')?;
    write_pairs(alloc, text, &octets[..count])?;
    Ok(Some(count))
}

/// Writes octets as pairs of hexadecimal digits with hyphens between.
fn write_pairs(alloc: Global, text: &mut String, octets: &[u8]) -> Result<(), AllocError>
    ensures { OnOk result (string_bytes text.new ≡ string_bytes text.old ++ pairs octets.now) }
{
    let [first, after @ ..] = octets else {
        return Ok(());
    };
    text.push_str(&hex::encode(alloc, &[*first])?)?;
    write_more_pairs(alloc, text, after)
}

/// Writes octets as pairs of hexadecimal digits, each after a hyphen.
fn write_more_pairs(alloc: Global, text: &mut String, octets: &[u8]) -> Result<(), AllocError>
    ensures { OnOk result (string_bytes text.new ≡ string_bytes text.old ++ more_pairs octets.now) }
{
    for octet in octets {
        text.push('-')?;
        text.push_str(&hex::encode(alloc, &[*octet])?)?;
    }
    Ok(())
}

/// Writes letters and digits.
fn write_letters(text: &mut String, octets: &[u8]) -> Result<(), AllocError>
    requires { IsTrue (list_all is_ascii_alphanumeric octets.now) }
    ensures { OnOk result (string_bytes text.new ≡ string_bytes text.old ++ octets.now) }
{
    for octet in octets {
        text.push(char::from(*octet))?;
    }
    Ok(())
}

/// Writes octets as a string in quotes after a space (RFC 1035, 5.1).
fn write_quoted(text: &mut String, string: &[u8]) -> Result<(), AllocError>
    ensures { OnOk result (string_bytes text.new ≡ string_bytes text.old ++ 32 ∷ as_text (quoted string.now)) }
{
    text.push_str(" \"")?;
    for octet in string {
        write_escaped(text, *octet)?;
    }
    text.push('"')
}

/// Writes one octet of a string.
fn write_escaped(text: &mut String, octet: u8) -> Result<(), AllocError>
    ensures { OnOk result (string_bytes text.new ≡ string_bytes text.old ++ string_octet octet) }
{
    if octet < b' ' || octet > b'~' {
        text.push('\\')?;
        text.push(char::from(b'0' + octet / 100))?;
        text.push(char::from(b'0' + octet / 10 % 10))?;
        text.push(char::from(b'0' + octet % 10))
    } else if octet == b'"' || octet == b'\\' {
        text.push('\\')?;
        text.push(char::from(octet))
    } else {
        text.push(char::from(octet))
    }
}

/// Writes the words of the octets after the fields; false where they are no such words. Those of parameters and of a place are written where they are
/// read as the octets.
#[tactic(auto, unfolding(crate::specs::Words::rest_words))]
fn write_rest(
    alloc: Global,
    text: &mut String,
    rest: Rest,
    octets: &[u8],
) -> Result<bool, AllocError>
    ensures { IfOk result (WritesWords (rest_words rest octets.now) (string_bytes text.old) (string_bytes text.new)) }
{
    match rest {
        Rest::Nothing => Ok(octets.is_empty()),
        Rest::Strings => write_strings(alloc, text, octets),
        Rest::Hex => write_hex(alloc, text, octets),
        Rest::Base64 => write_base64(text, octets),
        Rest::Params => { write_read_back(alloc, text, rest, octets, &param_words(alloc, octets)?) }
        Rest::Location => {
            write_read_back(alloc, text, rest, octets, &location_words(alloc, octets)?)
        }
    }
}

/// Writes the strings that octets are, each in quotes after a space; false where they are none.
#[tactic(auto, unfolding(crate::specs::Words::rest_words, record_text::specs::Data::as_data))]
fn write_strings(alloc: Global, text: &mut String, octets: &[u8]) -> Result<bool, AllocError>
    ensures { IfOk result (WritesWords (rest_words rest.Strings octets.now) (string_bytes text.old) (string_bytes text.new)) }
{
    match RData::from_wire(alloc, RType::TXT, octets) {
        Ok(strings) => {
            write_data(text, &strings)?;
            Ok(true)
        }
        Err(DataFault::NoMemory) => Err(AllocError),
        Err(DataFault::BadLength | DataFault::TooLong) => Ok(false),
    }
}

/// Writes octets in hexadecimal digits after a space; false where there is none.
#[tactic(auto, unfolding(crate::specs::Words::rest_words))]
fn write_hex(alloc: Global, text: &mut String, octets: &[u8]) -> Result<bool, AllocError>
    ensures { IfOk result (WritesWords (rest_words rest.Hex octets.now) (string_bytes text.old) (string_bytes text.new)) }
{
    if octets.is_empty() {
        return Ok(false);
    }
    let digits = hex::encode(alloc, octets)?;
    text.push(' ')?;
    text.push_str(&digits)?;
    Ok(true)
}

/// Writes octets in base64 after a space; false where there is none.
#[tactic(auto, unfolding(crate::specs::Words::rest_words))]
fn write_base64(text: &mut String, octets: &[u8]) -> Result<bool, AllocError>
    ensures { IfOk result (WritesWords (rest_words rest.Base64 octets.now) (string_bytes text.old) (string_bytes text.new)) }
{
    if octets.is_empty() {
        return Ok(false);
    }
    text.push(' ')?;
    STANDARD.encode_string(octets, text)?;
    Ok(true)
}
