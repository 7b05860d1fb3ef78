//! Strings of text as words (RFC 1035, 3.3.14 and 5.1).
ghost use Rattle.std.specs.Prelude.{◌≡◌, OnOk, IfOk, IfErr, map};
ghost use Rattle.std.specs.Option.{option_map};
ghost use Rattle.record_text.specs.Data.{IsToldOf};
ghost use Rattle.record_text.specs.Private.{ReadsBehind};
ghost use Rattle.record_text.specs.Strings.{unescaped, string_in, string_of, strings_of};
ghost use Rattle.zone_lexing.specs.Word.{written};

use crate::cause::Cause;
use dns_name::octet_at;
use std::alloc::{AllocError, Global};
use zone_lexing::Word;

/// Puts the strings that words are after the other octets, each after its length (RFC 1035, 3.3.14).
///
/// `BadData` at a string of more than 255 octets, and at a backslash that neither a character nor three digits up to 255
/// follow; `Unclosed` where no word stands; `NoMemory` where a growth was refused.
pub(crate) fn put_strings(
    alloc: Global,
    octets: &mut Vec<u8>,
    words: &[Word<'_>],
) -> Result<(), Cause>
    ensures put { OnOk result (ReadsBehind (strings_of (map written words.now)) octets.old.items octets.new.items) }
    ensures fault { IfErr result (IsToldOf (strings_of (map written words.now))) }
{
    for word in words {
        put_string(alloc, octets, *word)?;
    }
    Ok(())
}

/// Puts one string after the other octets.
fn put_string(alloc: Global, octets: &mut Vec<u8>, word: Word<'_>) -> Result<(), Cause>
    ensures put { OnOk result (ReadsBehind (string_of (written word.entry)) octets.old.items octets.new.items) }
    ensures fault { IfErr result (IsToldOf (string_of (written word.entry))) }
{
    match word {
        Word::Plain(text) | Word::Quoted(text) => put_text(alloc, octets, text),
        Word::Unclosed => Err(Cause::Unclosed),
    }
}

/// Puts the string that a text is after the other octets.
fn put_text(alloc: Global, octets: &mut Vec<u8>, text: &[u8]) -> Result<(), Cause>
    ensures put { OnOk result (ReadsBehind (string_in text.now) octets.old.items octets.new.items) }
    ensures fault { IfErr result (IsToldOf (string_in text.now)) }
{
    let Some(string) = unescaped(alloc, text)? else {
        return Err(Cause::BadData);
    };
    let Ok(len) = u8::try_from(string.len()) else {
        return Err(Cause::BadData);
    };
    let Ok(()) = octets.push(len) else {
        return Err(Cause::NoMemory);
    };
    octets.extend_from_slice(&string)?;
    Ok(())
}

/// The octets of a text, its escapes undone; None where a backslash has no escape after it (RFC 1035, 5.1).
fn unescaped(alloc: Global, text: &[u8]) -> Result<Option<Vec<u8>>, AllocError>
    ensures { IfOk result (λ own. option_map (λ v. v.items) own ≡ unescaped text.now) }
{
    let mut octets = Vec::new(alloc);
    let mut rest = text;
    while !rest.is_empty() {
        let Some((octet, len)) = octet_at(rest) else {
            return Ok(None);
        };
        let Ok(()) = octets.push(octet) else {
            return Err(AllocError);
        };
        rest = &rest[len..];
    }
    Ok(Some(octets))
}
