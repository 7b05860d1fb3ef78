//! Data of a type of any kind as words: `\#`, how many octets there are, and the octets as hexadecimal digits (RFC 3597, 5).
ghost use Rattle.hex.specs.Hex.{encode_lower, lower_digits};
ghost use Rattle.std.specs.Prelude.{◌≡◌, ◌<◌, ◌≤◌, ◌++◌, OnOk, IfOk, IfErr, Ok, length, map, slice_index, string_bytes};
ghost use Rattle.dns_rdata.specs.Limits.{max_data};
ghost use Rattle.record_text.specs.Data.{IsToldOf, as_own_data};
ghost use Rattle.record_text.specs.Generic.{are_generic, size_of, hex_of, hexes_of, generic_of, generic_words};
ghost use Rattle.record_text.specs.Private.{ReadsBehind};
ghost use Rattle.record_text.specs.Reading.{and_then};
ghost use Rattle.record_text.specs.Text.{text_of_words};
ghost use Rattle.zone_lexing.specs.Word.{written};

use crate::cause::Cause;
use crate::numbers::{are_digits, decimal};
use dns_rdata::{MAX_DATA, RData, RType};
use hex::FromHexError;
use std::alloc::{AllocError, Global};
use zone_lexing::Word;

/// The word before such data.
const MARK: &[u8] = b"\\#";

/// The hexadecimal digits.
const DIGITS: &[u8; 16] = b"0123456789abcdef";

/// Whether words are such data: the first is `\#`, outside quotes.
pub(crate) fn are_generic(words: &[Word<'_>]) -> bool
    ensures { result ≡ are_generic (map written words.now) }
{
    match words.first() {
        Some(Word::Plain(text)) => *text == MARK,
        _ => false,
    }
}

/// The data of a type that words after `\#` spell: they are to be of the type's form as they stand, names in full and in
/// lower case.
///
/// `Number` at a number of octets that is no number; `Limit` where it is greater than data may have; `BadData` at a word that
/// isn't hexadecimal digits, an even number of them, where there are more or fewer octets than were said, and where they
/// haven't the form; `Unclosed` where no word stands; `NoMemory` where a growth was refused.
pub(crate) fn read_generic(alloc: Global, rtype: RType, words: &[Word<'_>]) -> Result<RData, Cause>
    ensures rtype { IfOk result (λ d. d.rtype ≡ rtype.0) }
    ensures octets { IfOk result (λ d. and_then (generic_of (map written words.now)) (as_own_data rtype.0) ≡ Ok d.octets) }
    ensures fault { IfErr result (IsToldOf (and_then (generic_of (map written words.now)) (as_own_data rtype.0))) }
{
    let octets = generic_octets(alloc, words)?;
    let rdata = RData::from_wire(alloc, rtype, &octets)?;
    if rdata.octets() == octets.as_slice() {
        Ok(rdata)
    } else {
        Err(Cause::BadData)
    }
}

/// The octets that words after `\#` are: as many as the first of them says.
fn generic_octets(alloc: Global, words: &[Word<'_>]) -> Result<Vec<u8>, Cause>
    ensures octets { IfOk result (λ own. generic_of (map written words.now) ≡ Ok own.items) }
    ensures within { IfOk result (λ own. length own.items ≤ max_data) }
    ensures fault { IfErr result (IsToldOf (generic_of (map written words.now))) }
{
    let Some((first, behind)) = words.split_first() else {
        return Err(Cause::BadData);
    };
    let size = stated_size(*first)?;
    let mut octets = Vec::new(alloc);
    put_hexes(alloc, &mut octets, behind)?;
    if octets.len() == size {
        Ok(octets)
    } else {
        Err(Cause::BadData)
    }
}

/// How many octets a word says that there are.
#[tactic(auto, unfolding(crate::specs::Number::decimal_of))]
fn stated_size(word: Word<'_>) -> Result<usize, Cause>
    ensures size { result ≡ size_of (written word.entry) }
    ensures within { IfOk result (λ size. size ≤ max_data) }
{
    match word {
        Word::Plain(text) if are_digits(text) => match decimal(text, MAX_DATA as u32) {
            Some(size) => Ok(size as usize),
            None => Err(Cause::Limit),
        },
        Word::Plain(_) | Word::Quoted(_) => Err(Cause::Number),
        Word::Unclosed => Err(Cause::Unclosed),
    }
}

/// Puts the octets that words of hexadecimal digits are after the others.
fn put_hexes(alloc: Global, octets: &mut Vec<u8>, words: &[Word<'_>]) -> Result<(), Cause>
    ensures put { OnOk result (ReadsBehind (hexes_of (map written words.now)) octets.old.items octets.new.items) }
    ensures fault { IfErr result (IsToldOf (hexes_of (map written words.now))) }
{
    for word in words {
        put_hex(alloc, octets, *word)?;
    }
    Ok(())
}

/// Puts the octets of one such word after the others.
fn put_hex(alloc: Global, octets: &mut Vec<u8>, word: Word<'_>) -> Result<(), Cause>
    ensures put { OnOk result (ReadsBehind (hex_of (written word.entry)) octets.old.items octets.new.items) }
    ensures fault { IfErr result (IsToldOf (hex_of (written word.entry))) }
{
    let text = match word {
        Word::Plain(text) => text,
        Word::Quoted(_) => return Err(Cause::BadData),
        Word::Unclosed => return Err(Cause::Unclosed),
    };
    let own = match hex::decode(alloc, text) {
        Ok(own) => own,
        Err(FromHexError::OutOfMemory) => return Err(Cause::NoMemory),
        Err(_) => return Err(Cause::BadData),
    };
    octets.extend_from_slice(&own)?;
    Ok(())
}

/// Writes octets as such data after the text, each word after a space.
pub(crate) fn write_generic(text: &mut String, octets: &[u8]) -> Result<(), AllocError>
    ensures { OnOk result (string_bytes text.new ≡ string_bytes text.old ++ text_of_words (generic_words octets.now)) }
{
    let len = octets.len();
    write!(text, " \\# {len}")?;
    if octets.is_empty() {
        return Ok(());
    }
    text.push(' ')?;
    write_digits(text, octets)
}

/// Writes the hexadecimal digits of octets, in lower case.
fn write_digits(text: &mut String, octets: &[u8]) -> Result<(), AllocError>
    ensures { OnOk result (string_bytes text.new ≡ string_bytes text.old ++ encode_lower octets.now) }
{
    for octet in octets {
        text.push(digit(*octet / 16))?;
        text.push(digit(*octet % 16))?;
    }
    Ok(())
}

/// The hexadecimal digit of a number below 16.
fn digit(number: u8) -> char
    requires { number < 16 }
    ensures digit { result ≡ slice_index lower_digits number }
    ensures ascii { result < 128 }
{
    char::from(DIGITS[usize::from(number)])
}
