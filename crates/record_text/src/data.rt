//! The data of a record as words (RFC 1035, 3.3, 3.4.1 and 5.1; RFC 2782; RFC 3596; RFC 3597, 5).
ghost use Rattle.std.specs.Prelude.{◌≡◌, OnOk, IfOk, IfErr, Ok, map, option_copied};
ghost use Rattle.record_text.specs.Data.{IsToldOf, field_of, fields_of, form_of, octets_of_words, data_of_words, surplus_of, unmarked_of};
ghost use Rattle.record_text.specs.Private.{ReadsBehind};
ghost use Rattle.zone_lexing.specs.Word.{written};

use crate::addresses::{address, address6};
use crate::cause::Cause;
use crate::generic::{are_generic, read_generic};
use crate::names::name;
use crate::numbers::number;
use crate::strings::put_strings;
use dns_name::Name;
use dns_rdata::{RData, RType};
use std::alloc::Global;
use zone_lexing::Word;

/// What one word of a type's data is.
#[derive(Clone, Copy)]
pub(crate) enum Field {
    /// An address (RFC 1035, 3.4.1).
    Address,
    /// An address of version 6 (RFC 3596, 2.2).
    Address6,
    /// A name.
    Name,
    /// A number of two octets.
    Short,
    /// A number of four octets.
    Long,
}

/// The data of a type that words spell, relative to the origin (RFC 1035, 3.3, 3.4.1 and 5.1; RFC 2782; RFC 3596), or octets of any type
/// after `\\#` (RFC 3597, 5). The words are judged from left to right, and the first fault is told.
///
/// `Number` and `BadName` at a word that is no number for its field or no name; `BadData` at another word that isn't of
/// its form, at too few or too many words, and at a type that nobody here knows without `\\#`; `Unclosed` where no word stands; `Limit`
/// over the octets that data may have; `NoMemory` where a growth was refused.
pub fn read_data(
    alloc: Global,
    rtype: RType,
    words: &[Word<'_>],
    origin: &Name,
) -> Result<RData, Cause>
    ensures rtype { IfOk result (λ d. d.rtype ≡ rtype.0) }
    ensures octets { IfOk result (λ d. data_of_words rtype.0 origin.now (map written words.now) ≡ Ok d.octets) }
    ensures fault { IfErr result (IsToldOf (data_of_words rtype.0 origin.now (map written words.now))) }
{
    if are_generic(words) {
        return read_generic(alloc, rtype, &words[1..]);
    }
    let mut octets = Vec::new(alloc);
    put_words(alloc, &mut octets, rtype, words, origin)?;
    Ok(RData::from_wire(alloc, rtype, &octets)?)
}

/// Puts the octets that words spell for a type after the others, names as they are written.
fn put_words(
    alloc: Global,
    octets: &mut Vec<u8>,
    rtype: RType,
    words: &[Word<'_>],
    origin: &Name,
) -> Result<(), Cause>
    ensures put { OnOk result (ReadsBehind (octets_of_words rtype.0 origin.now (map written words.now)) octets.old.items octets.new.items) }
    ensures fault { IfErr result (IsToldOf (octets_of_words rtype.0 origin.now (map written words.now))) }
{
    if rtype == RType::TXT {
        if words.is_empty() {
            return Err(Cause::BadData);
        }
        return put_strings(alloc, octets, words);
    }
    match form_of(rtype) {
        Some(fields) => put_fields(octets, fields, words, origin),
        None => Err(unmarked(words)),
    }
}

/// What the words of a type that nobody here knows are told as, where the first isn't `\\#` (RFC 3597, 5).
fn unmarked(words: &[Word<'_>]) -> Cause
    ensures { result ≡ unmarked_of (map written words.now) }
{
    match words.first() {
        Some(word) => surplus(*word),
        None => Cause::BadData,
    }
}

/// The fields of a type's data; None of TXT and of types that nobody here knows.
#[tactic(auto, unfolding(crate::specs::Data::form_of))]
pub(crate) fn form_of(rtype: RType) -> Option<&'static [Field]>
    ensures { option_copied result ≡ form_of rtype.0 }
{
    match rtype {
        RType::A => Some(&[Field::Address]),
        RType::NS | RType::CNAME | RType::PTR => Some(&[Field::Name]),
        RType::SOA => Some(&[
            Field::Name,
            Field::Name,
            Field::Long,
            Field::Long,
            Field::Long,
            Field::Long,
            Field::Long,
        ]),
        RType::MX => Some(&[Field::Short, Field::Name]),
        RType::AAAA => Some(&[Field::Address6]),
        // Priority, weight and port, and then the target.
        RType::SRV => Some(&[Field::Short, Field::Short, Field::Short, Field::Name]),
        _ => None,
    }
}

/// Puts the octets that words stand for after the others, one word a field.
fn put_fields(
    octets: &mut Vec<u8>,
    fields: &[Field],
    words: &[Word<'_>],
    origin: &Name,
) -> Result<(), Cause>
    ensures put { OnOk result (ReadsBehind (fields_of origin.now fields.now (map written words.now)) octets.old.items octets.new.items) }
    ensures fault { IfErr result (IsToldOf (fields_of origin.now fields.now (map written words.now))) }
{
    for (at, field) in fields.iter().enumerate() {
        let Some(word) = words.get(at) else {
            return Err(Cause::BadData);
        };
        put_field(octets, *field, *word, origin)?;
    }
    match words.get(fields.len()) {
        Some(word) => Err(surplus(*word)),
        None => Ok(()),
    }
}

/// What a word is told as where none may stand.
pub fn surplus(word: Word<'_>) -> Cause
    ensures { result ≡ surplus_of (written word.entry) }
{
    match word {
        Word::Plain(_) | Word::Quoted(_) => Cause::BadData,
        Word::Unclosed => Cause::Unclosed,
    }
}

/// Puts the octets that a word stands for after the others.
fn put_field(octets: &mut Vec<u8>, field: Field, word: Word<'_>, origin: &Name) -> Result<(), Cause>
    ensures put { OnOk result (ReadsBehind (field_of origin.now field (written word.entry)) octets.old.items octets.new.items) }
    ensures fault { IfErr result (IsToldOf (field_of origin.now field (written word.entry))) }
{
    match field {
        Field::Address => octets.extend_from_slice(&address(word)?)?,
        Field::Address6 => octets.extend_from_slice(&address6(word)?)?,
        Field::Name => octets.extend_from_slice(name(word, origin)?.wire())?,
        Field::Short => {
            let value = number(word, u32::from(u16::MAX))? as u16;
            octets.extend_from_slice(&value.to_be_bytes())?;
        }
        Field::Long => {
            let value = number(word, u32::MAX)?;
            octets.extend_from_slice(&value.to_be_bytes())?;
        }
    }
    Ok(())
}
