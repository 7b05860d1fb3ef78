//! The data of a record of any type as words (RFC 1035, 5.1; RFC 3597, 5).
ghost use Rattle.std.specs.Prelude.{◌≡◌, IfOk, IfErr, Ok, drop, map, true};
ghost use Rattle.record_text.specs.Data.{IsToldOf, as_data};
ghost use Rattle.record_text.specs.Generic.{are_generic, generic_of};
ghost use Rattle.record_text.specs.Reading.{and_then};
ghost use Rattle.wide_text.specs.Data.{wide_data};
ghost use Rattle.wide_text.specs.Fields.{fields_of};
ghost use Rattle.zone_lexing.specs.Word.{written};

use crate::fields::put_fields;
use crate::forms::{Field, Rest, form_of};
use dns_name::Name;
use dns_rdata::{RData, RType};
use record_text::{Cause, read_data};
use std::alloc::Global;
use zone_lexing::Word;

/// The data of a type that words spell, relative to the origin: by the type's line in the table, else as `record_text::read_data` reads it, and
/// octets of any type after `\\#`, whose names may have capital letters (RFC 1035, 5.1; RFC 3597, 5). The words are read from left to right, and
/// the first fault is returned.
///
/// `Number` and `BadName` at a word that is no number for its field or no name; `BadData` at another word that isn't of its form, at too few
/// or too many words, and at a type that has no form without `\\#`; `Unclosed` where no word stands; `Limit` over the octets that data may
/// have; `NoMemory` where a growth was refused.
pub fn read_wide_data(
    alloc: Global,
    rtype: RType,
    words: &[Word<'_>],
    origin: &Name,
) -> Result<RData, Cause>
    ensures rtype { IfOk result (λ d. d.rtype ≡ rtype.0) }
    ensures octets { IfOk result (λ d. wide_data rtype.0 origin.now (map written words.now) ≡ Ok d.octets) }
    ensures fault { IfErr result (IsToldOf (wide_data rtype.0 origin.now (map written words.now))) }
{
    if are_generic(words) {
        return read_generic(alloc, rtype, words, origin);
    }
    match form_of(rtype) {
        Some(form) => read_fields(alloc, rtype, form.fields, form.rest, words, origin),
        None => read_data(alloc, rtype, words, origin),
    }
}

/// Whether the first word is `\#`, outside quotes.
pub(crate) fn are_generic(words: &[Word<'_>]) -> bool
    ensures { result ≡ are_generic (map written words.now) }
{
    match words.first() {
        Some(Word::Plain(text)) => *text == b"\\#".as_slice(),
        _ => false,
    }
}

/// The data of a type that the octets after `\#` are, its names in lower case. They are read as those of a type that has no form.
fn read_generic(
    alloc: Global,
    rtype: RType,
    words: &[Word<'_>],
    origin: &Name,
) -> Result<RData, Cause>
    requires { true ≡ are_generic (map written words.now) }
    ensures rtype { IfOk result (λ d. d.rtype ≡ rtype.0) }
    ensures octets { IfOk result (λ d. and_then (generic_of (drop 1 (map written words.now))) (as_data rtype.0) ≡ Ok d.octets) }
    ensures fault { IfErr result (IsToldOf (and_then (generic_of (drop 1 (map written words.now))) (as_data rtype.0))) }
{
    let own = read_data(alloc, RType(65280), words, origin)?;
    Ok(RData::from_wire(alloc, rtype, own.octets())?)
}

/// The data of a type that words spell by fields.
fn read_fields(
    alloc: Global,
    rtype: RType,
    fields: &[Field],
    rest: Rest,
    words: &[Word<'_>],
    origin: &Name,
) -> Result<RData, Cause>
    ensures rtype { IfOk result (λ d. d.rtype ≡ rtype.0) }
    ensures octets { IfOk result (λ d. and_then (fields_of origin.now fields.now rest (map written words.now)) (as_data rtype.0) ≡ Ok d.octets) }
    ensures fault { IfErr result (IsToldOf (and_then (fields_of origin.now fields.now rest (map written words.now)) (as_data rtype.0))) }
{
    let mut octets = Vec::new(alloc);
    put_fields(alloc, &mut octets, fields, rest, words, origin)?;
    Ok(RData::from_wire(alloc, rtype, &octets)?)
}
