//! Octets in hexadecimal and in base64 (RFC 4648, 4 and 8).
ghost use Rattle.std.specs.Prelude.{◌≡◌, ◌≤◌, Ok, Err, OnOk, IfOk, IfErr, map};
ghost use Rattle.record_text.specs.Data.{IsToldOf};
ghost use Rattle.record_text.specs.Private.{ReadsBehind};
ghost use Rattle.wide_text.specs.Encoded.{bare_of, base64_in, base64_words, eui_digits, eui_in, eui_of, hex_in, hex_of, joined, some_joined};
ghost use Rattle.zone_lexing.specs.Word.{written};

use base64::DecodeAllocError;
use base64::engine::general_purpose::STANDARD;
use hex::FromHexError;
use record_text::Cause;
use std::alloc::Global;
use zone_lexing::Word;

/// Puts the octets that words are in hexadecimal after the others: white space may stand anywhere among the digits (RFC 4034, 5.3).
///
/// `BadData` where there is no word, at a quoted string, and at an odd number of digits or another character; `Unclosed` where no word
/// stands; `NoMemory` where a growth was refused.
pub(crate) fn put_hex(alloc: Global, octets: &mut Vec<u8>, words: &[Word<'_>]) -> Result<(), Cause>
    ensures put { OnOk result (ReadsBehind (hex_of (map written words.now)) octets.old.items octets.new.items) }
    ensures fault { IfErr result (IsToldOf (hex_of (map written words.now))) }
{
    let text = some_joined(alloc, words)?;
    let own = hex_in(alloc, &text)?;
    octets.extend_from_slice(&own)?;
    Ok(())
}

/// Puts the octets that words are in base64 after the others: white space may stand anywhere among the characters (RFC 4034, 2.2).
///
/// `BadData` where there is no word, at a quoted string, and at a text that isn't base64 with its padding; `Unclosed` where no word stands;
/// `NoMemory` where a growth was refused.
pub(crate) fn put_base64(
    alloc: Global,
    octets: &mut Vec<u8>,
    words: &[Word<'_>],
) -> Result<(), Cause>
    ensures put { OnOk result (ReadsBehind (base64_words (map written words.now)) octets.old.items octets.new.items) }
    ensures fault { IfErr result (IsToldOf (base64_words (map written words.now))) }
{
    let text = some_joined(alloc, words)?;
    let own = base64_in(alloc, &text)?;
    octets.extend_from_slice(&own)?;
    Ok(())
}

/// Puts the identifier of so many octets that a word is after the others: pairs of hexadecimal digits with hyphens between (RFC 7043, 3.2 and 4.2).
///
/// `BadData` at another word, at a quoted string too; `Unclosed` where no word stands; `NoMemory` where a growth was refused.
pub(crate) fn put_eui(
    alloc: Global,
    octets: &mut Vec<u8>,
    word: Word<'_>,
    count: usize,
) -> Result<(), Cause>
    requires { count ≤ 8 }
    ensures put { OnOk result (ReadsBehind (eui_of count (written word.entry)) octets.old.items octets.new.items) }
    ensures fault { IfErr result (IsToldOf (eui_of count (written word.entry))) }
{
    let text = bare(word)?;
    let own = eui_in(alloc, text, count)?;
    octets.extend_from_slice(&own)?;
    Ok(())
}

/// The identifier of so many octets that a text is.
fn eui_in(alloc: Global, text: &[u8], count: usize) -> Result<Vec<u8>, Cause>
    requires { count ≤ 8 }
    ensures octets { IfOk result (λ own. eui_in count text.now ≡ Ok own.items) }
    ensures fault { IfErr result (IsToldOf (eui_in count text.now)) }
{
    let digits = eui_digits(alloc, text)?;
    if digits.len() != count * 2 {
        return Err(Cause::BadData);
    }
    hex_in(alloc, &digits)
}

/// The digits of pairs with hyphens between.
fn eui_digits(alloc: Global, text: &[u8]) -> Result<Vec<u8>, Cause>
    ensures digits { IfOk result (λ own. eui_digits text.now ≡ Ok own.items) }
    ensures fault { IfErr result (IsToldOf (eui_digits text.now)) }
{
    let mut digits = Vec::new(alloc);
    let mut rest = text;
    while let [a, b, b'-', after @ ..] = rest {
        digits.extend_from_slice(&[*a, *b])?;
        rest = after;
    }
    let [a, b] = rest else {
        return Err(Cause::BadData);
    };
    digits.extend_from_slice(&[*a, *b])?;
    Ok(digits)
}

/// The octets that a text is in hexadecimal; `BadData` where it is none.
#[tactic(auto, unfolding(crate::specs::Encoded::hex_in))]
fn hex_in(alloc: Global, text: &[u8]) -> Result<Vec<u8>, Cause>
    ensures octets { IfOk result (λ own. hex_in text.now ≡ Ok own.items) }
    ensures fault { IfErr result (IsToldOf (hex_in text.now)) }
{
    match hex::decode(alloc, text) {
        Ok(own) => Ok(own),
        Err(FromHexError::OutOfMemory) => Err(Cause::NoMemory),
        Err(_) => Err(Cause::BadData),
    }
}

/// The octets that a text is in base64; `BadData` where it is none.
#[tactic(auto, unfolding(crate::specs::Encoded::base64_in))]
pub(crate) fn base64_in(alloc: Global, text: &[u8]) -> Result<Vec<u8>, Cause>
    ensures octets { IfOk result (λ own. base64_in text.now ≡ Ok own.items) }
    ensures fault { IfErr result (IsToldOf (base64_in text.now)) }
{
    match STANDARD.decode(alloc, text) {
        Ok(own) => Ok(own),
        Err(DecodeAllocError::OutOfMemory) => Err(Cause::NoMemory),
        Err(DecodeAllocError::DecodeError(_)) => Err(Cause::BadData),
    }
}

/// The characters of words, one or more, one after the other.
fn some_joined(alloc: Global, words: &[Word<'_>]) -> Result<Vec<u8>, Cause>
    ensures text { IfOk result (λ own. some_joined (map written words.now) ≡ Ok own.items) }
    ensures fault { IfErr result (IsToldOf (some_joined (map written words.now))) }
{
    if words.is_empty() {
        return Err(Cause::BadData);
    }
    let mut text = Vec::new(alloc);
    put_joined(&mut text, words)?;
    Ok(text)
}

/// Puts the characters of words after the others.
fn put_joined(text: &mut Vec<u8>, words: &[Word<'_>]) -> Result<(), Cause>
    ensures put { OnOk result (ReadsBehind (joined (map written words.now)) text.old.items text.new.items) }
    ensures fault { IfErr result (IsToldOf (joined (map written words.now))) }
{
    for word in words {
        text.extend_from_slice(bare(*word)?)?;
    }
    Ok(())
}

/// The characters of a word outside quotes.
pub(crate) fn bare<'a>(word: Word<'a>) -> Result<&'a [u8], Cause>
    ensures text { IfOk result (λ text. bare_of (written word.entry) ≡ Ok text.now) }
    ensures fault { IfErr result (λ cause. bare_of (written word.entry) ≡ Err cause) }
{
    match word {
        Word::Plain(text) => Ok(text),
        Word::Quoted(_) => Err(Cause::BadData),
        Word::Unclosed => Err(Cause::Unclosed),
    }
}
