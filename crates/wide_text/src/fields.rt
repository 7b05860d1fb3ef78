//! The data of a record as words, field by field (RFC 1035, 5.1).
ghost use Rattle.std.specs.Prelude.{◌≡◌, ◌<◌, ◌++◌, ◌∷◌, [], OnOk, IfErr, Ok, Err, map};
ghost use Rattle.std.specs.Int.{to_be_bytes, w16};
ghost use Rattle.record_text.specs.Data.{IsToldOf};
ghost use Rattle.record_text.specs.Private.{ReadsBehind};
ghost use Rattle.wide_text.specs.Fields.{field_of, fields_of, nothing_of, rest_of};
ghost use Rattle.zone_lexing.specs.Word.{written};

use crate::encoded::{put_base64, put_eui, put_hex};
use crate::forms::{Field, Rest};
use crate::location::put_location;
use crate::mnemonics::{all_algorithms, all_certificate_types, named};
use crate::params::put_params;
use crate::texts::{put_string, put_strings, put_tag, put_text};
use crate::times::seconds;
use dns_name::Name;
use record_text::{Cause, name, number, surplus};
use std::alloc::{AllocError, Global};
use zone_lexing::Word;

/// Puts the octets that words stand for after the others, one word a field, and those of the words after.
///
/// `Number`, `BadName` and `BadData` at a word that isn't of its form; `BadData` at too few or too many words; `Unclosed` where no word
/// stands; `NoMemory` where a growth was refused.
pub(crate) fn put_fields(
    alloc: Global,
    octets: &mut Vec<u8>,
    fields: &[Field],
    rest: Rest,
    words: &[Word<'_>],
    origin: &Name,
) -> Result<(), Cause>
    ensures put { OnOk result (ReadsBehind (fields_of origin.now fields.now rest (map written words.now)) octets.old.items octets.new.items) }
    ensures fault { IfErr result (IsToldOf (fields_of origin.now fields.now rest (map written words.now))) }
{
    for (at, field) in fields.iter().enumerate() {
        let Some(word) = words.get(at) else {
            return Err(Cause::BadData);
        };
        put_field(alloc, octets, *field, *word, origin)?;
    }
    put_rest(alloc, octets, rest, &words[fields.len()..])
}

/// Puts the octets that a word stands for after the others.
fn put_field(
    alloc: Global,
    octets: &mut Vec<u8>,
    field: Field,
    word: Word<'_>,
    origin: &Name,
) -> Result<(), Cause>
    ensures put { OnOk result (ReadsBehind (field_of origin.now field (written word.entry)) octets.old.items octets.new.items) }
    ensures fault { IfErr result (IsToldOf (field_of origin.now field (written word.entry))) }
{
    match field {
        Field::Name => octets.extend_from_slice(name(word, origin)?.wire())?,
        Field::Octet => put_octet(octets, number(word, 255)?)?,
        Field::Short => put_short(octets, number(word, 65_535)?)?,
        Field::Long => octets.extend_from_slice(&number(word, u32::MAX)?.to_be_bytes())?,
        Field::Time => octets.extend_from_slice(&seconds(word, u32::MAX)?.to_be_bytes())?,
        Field::String => put_string(alloc, octets, word)?,
        Field::Tag => put_tag(octets, word)?,
        Field::Text => put_text(alloc, octets, word)?,
        Field::Algorithm => put_octet(octets, named(word, 255, all_algorithms())?)?,
        Field::Eui48 => put_eui(alloc, octets, word, 6)?,
        Field::Eui64 => put_eui(alloc, octets, word, 8)?,
        Field::CertType => put_short(octets, named(word, 65_535, all_certificate_types())?)?,
    }
    Ok(())
}

/// Puts a number of one octet after the others.
fn put_octet(octets: &mut Vec<u8>, number: u32) -> Result<(), AllocError>
    requires { number < 256 }
    ensures { OnOk result (octets.new.items ≡ octets.old.items ++ number ∷ []) }
{
    match octets.push(number as u8) {
        Ok(()) => Ok(()),
        Err(_) => Err(AllocError),
    }
}

/// Puts a number of two octets after the others, the highest first.
fn put_short(octets: &mut Vec<u8>, number: u32) -> Result<(), AllocError>
    requires { number < 65536 }
    ensures { OnOk result (octets.new.items ≡ octets.old.items ++ to_be_bytes w16 number) }
{
    let number = number as u16;
    octets.extend_from_slice(&number.to_be_bytes())
}

/// Puts the octets that the words after the fields stand for after the others.
pub(crate) fn put_rest(
    alloc: Global,
    octets: &mut Vec<u8>,
    rest: Rest,
    words: &[Word<'_>],
) -> Result<(), Cause>
    ensures put { OnOk result (ReadsBehind (rest_of rest (map written words.now)) octets.old.items octets.new.items) }
    ensures fault { IfErr result (IsToldOf (rest_of rest (map written words.now))) }
{
    match rest {
        Rest::Nothing => nothing(words),
        Rest::Strings => put_strings(alloc, octets, words),
        Rest::Hex => put_hex(alloc, octets, words),
        Rest::Base64 => put_base64(alloc, octets, words),
        Rest::Params => put_params(alloc, octets, words),
        Rest::Location => put_location(octets, words),
    }
}

/// That no word is left; `BadData` at one, `Unclosed` where none stands.
fn nothing(words: &[Word<'_>]) -> Result<(), Cause>
    ensures none { OnOk result (nothing_of (map written words.now) ≡ Ok []) }
    ensures fault { IfErr result (λ cause. nothing_of (map written words.now) ≡ Err cause) }
{
    match words {
        [] => Ok(()),
        [word, ..] => Err(surplus(*word)),
    }
}
