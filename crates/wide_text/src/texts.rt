//! Strings and texts as words, their escapes undone (RFC 1035, 3.3 and 5.1).
ghost use Rattle.std.specs.Prelude.{◌≡◌, OnOk, IfOk, IfErr, map};
ghost use Rattle.std.specs.Option.{option_map};
ghost use Rattle.std.specs.List.{list_all};
ghost use Rattle.std.specs.Char.{is_ascii_alphanumeric};
ghost use Rattle.record_text.specs.Data.{IsToldOf, text_of as strings_in};
ghost use Rattle.record_text.specs.Private.{ReadsBehind};
ghost use Rattle.record_text.specs.Strings.{unescaped, string_in, string_of, strings_of};
ghost use Rattle.wide_text.specs.Texts.{is_tag, tag_of, text_of};
ghost use Rattle.zone_lexing.specs.Word.{written};

use dns_name::octet_at;
use record_text::Cause;
use std::alloc::{AllocError, Global};
use zone_lexing::Word;

/// Puts the strings that words are after the other octets, one or more, each after its length (RFC 1035, 3.3.14).
///
/// `BadData` where there is no word, at a string of more than 255 octets, and at a backslash that neither a character nor three digits up to
/// 255 follow; `Unclosed` where no word stands; `NoMemory` where a growth was refused.
pub(crate) fn put_strings(
    alloc: Global,
    octets: &mut Vec<u8>,
    words: &[Word<'_>],
) -> Result<(), Cause>
    ensures put { OnOk result (ReadsBehind (strings_in (map written words.now)) octets.old.items octets.new.items) }
    ensures fault { IfErr result (IsToldOf (strings_in (map written words.now))) }
{
    if words.is_empty() {
        return Err(Cause::BadData);
    }
    put_all_strings(alloc, octets, words)
}

/// Puts the strings that words are after the other octets.
fn put_all_strings(alloc: Global, octets: &mut Vec<u8>, words: &[Word<'_>]) -> Result<(), Cause>
    ensures put { OnOk result (ReadsBehind (strings_of (map written words.now)) octets.old.items octets.new.items) }
    ensures fault { IfErr result (IsToldOf (strings_of (map written words.now))) }
{
    for word in words {
        put_string(alloc, octets, *word)?;
    }
    Ok(())
}

/// Puts the string that a word is after the other octets.
pub(crate) fn put_string(alloc: Global, octets: &mut Vec<u8>, word: Word<'_>) -> Result<(), Cause>
    ensures put { OnOk result (ReadsBehind (string_of (written word.entry)) octets.old.items octets.new.items) }
    ensures fault { IfErr result (IsToldOf (string_of (written word.entry))) }
{
    match word {
        Word::Plain(text) | Word::Quoted(text) => put_counted(alloc, octets, text),
        Word::Unclosed => Err(Cause::Unclosed),
    }
}

/// Puts the string that a text is after the other octets.
fn put_counted(alloc: Global, octets: &mut Vec<u8>, text: &[u8]) -> Result<(), Cause>
    ensures put { OnOk result (ReadsBehind (string_in text.now) octets.old.items octets.new.items) }
    ensures fault { IfErr result (IsToldOf (string_in text.now)) }
{
    let Some(string) = unescaped(alloc, text)? else {
        return Err(Cause::BadData);
    };
    let Ok(len) = u8::try_from(string.len()) else {
        return Err(Cause::BadData);
    };
    let Ok(()) = octets.push(len) else {
        return Err(Cause::NoMemory);
    };
    octets.extend_from_slice(&string)?;
    Ok(())
}

/// Puts the octets of a text that ends the data after the others, without their number.
///
/// `BadData` at a backslash that neither a character nor three digits up to 255 follow; `Unclosed` where no word stands; `NoMemory` where a
/// growth was refused.
pub(crate) fn put_text(alloc: Global, octets: &mut Vec<u8>, word: Word<'_>) -> Result<(), Cause>
    ensures put { OnOk result (ReadsBehind (text_of (written word.entry)) octets.old.items octets.new.items) }
    ensures fault { IfErr result (IsToldOf (text_of (written word.entry))) }
{
    let text = match word {
        Word::Plain(text) | Word::Quoted(text) => text,
        Word::Unclosed => return Err(Cause::Unclosed),
    };
    let Some(own) = unescaped(alloc, text)? else {
        return Err(Cause::BadData);
    };
    octets.extend_from_slice(&own)?;
    Ok(())
}

/// Puts a tag after the other octets, after its length.
///
/// `BadData` at a word that isn't 1 to 15 letters and digits, at a quoted string too; `Unclosed` where no word stands; `NoMemory` where a
/// growth was refused.
pub(crate) fn put_tag(octets: &mut Vec<u8>, word: Word<'_>) -> Result<(), Cause>
    ensures put { OnOk result (ReadsBehind (tag_of (written word.entry)) octets.old.items octets.new.items) }
    ensures fault { IfErr result (IsToldOf (tag_of (written word.entry))) }
{
    let text = match word {
        Word::Plain(text) => text,
        Word::Quoted(_) => return Err(Cause::BadData),
        Word::Unclosed => return Err(Cause::Unclosed),
    };
    if !is_tag(text) {
        return Err(Cause::BadData);
    }
    let Ok(()) = octets.push(text.len() as u8) else {
        return Err(Cause::NoMemory);
    };
    octets.extend_from_slice(text)?;
    Ok(())
}

/// Whether a text is a tag.
pub(crate) fn is_tag(text: &[u8]) -> bool
    ensures { result ≡ is_tag text.now }
{
    !text.is_empty() && text.len() <= 15 && is_alphanumeric(text)
}

/// Whether each octet of a text is a letter or a digit.
fn is_alphanumeric(text: &[u8]) -> bool
    ensures { result ≡ list_all is_ascii_alphanumeric text.now }
{
    text.iter().all(|octet| octet.is_ascii_alphanumeric())
}

/// The octets of a text, its escapes undone; None where a backslash has no escape after it (RFC 1035, 5.1).
pub(crate) fn unescaped(alloc: Global, text: &[u8]) -> Result<Option<Vec<u8>>, AllocError>
    ensures { IfOk result (λ own. option_map (λ v. v.items) own ≡ unescaped text.now) }
{
    let mut octets = Vec::new(alloc);
    let mut rest = text;
    while !rest.is_empty() {
        let Some((octet, len)) = octet_at(rest) else {
            return Ok(None);
        };
        let Ok(()) = octets.push(octet) else {
            return Err(AllocError);
        };
        rest = &rest[len..];
    }
    Ok(Some(octets))
}
