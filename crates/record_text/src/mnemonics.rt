//! Classes and types by their mnemonics, and by their numbers (RFC 1035, 5.1; RFC 3596, 2.1; RFC 2782; RFC 3597, 5).
ghost use Rattle.std.specs.Prelude.{◌≡◌, ◌≤◌, ◌++◌, true, length, drop, codes, bytes_eq, if◌then◌else◌, string_bytes, Ok, Err, IfOk, IfErr, OnOk};
ghost use Rattle.zone_lexing.specs.Word.{written};
ghost use Rattle.record_text.specs.Mnemonics.{is_word, type_named, type_numbered, type_of, type_word, is_class_number, class_named, class_of};
ghost use Rattle.std.specs.Option.{option_map};

use crate::cause::Cause;
use crate::numbers::{are_digits, decimal};
use dns_rdata::RType;
use std::alloc::AllocError;
use zone_lexing::Word;

/// The type that a word is, in any case: A, NS, CNAME, SOA, PTR, MX, TXT, AAAA or SRV, or `TYPE` and a number of 16 bits without zeros in
/// front that is no metatype's: CAA is written `TYPE257`. `UnknownType` at another word, at a quoted string too (RFC 1035, 5.1; RFC 3597,
/// 5); `Unclosed` where no word stands.
pub fn rtype(word: Word<'_>) -> Result<RType, Cause>
    ensures rtype { IfOk result (λ rtype. type_of (written word.entry) ≡ Ok rtype.0) }
    ensures fault { IfErr result (λ cause. type_of (written word.entry) ≡ Err cause) }
{
    match word {
        Word::Plain(text) => type_named(text).ok_or(Cause::UnknownType),
        Word::Quoted(_) => Err(Cause::UnknownType),
        Word::Unclosed => Err(Cause::Unclosed),
    }
}

/// Whether a word is the class IN or `CLASS1`, in any case. `BadClass` at CS, CH and HS, and at `CLASS` and another number (RFC 1035,
/// 3.2.4; RFC 3597, 5); other words, and quoted strings, are no class. `Unclosed` where no word stands.
pub fn is_class(word: Word<'_>) -> Result<bool, Cause>
    ensures { result ≡ class_of (written word.entry) }
{
    match word {
        Word::Plain(text) => class_named(text),
        Word::Quoted(_) => Ok(false),
        Word::Unclosed => Err(Cause::Unclosed),
    }
}

/// Whether a text is this word, in any case.
fn is_word(text: &[u8], word: &[u8]) -> bool
    ensures { result ≡ is_word text.now word.now }
{
    text.eq_ignore_ascii_case(word)
}

/// The type that a text names; None where it names none.
#[tactic(auto, unfolding(crate::specs::Mnemonics::type_named))]
fn type_named(text: &[u8]) -> Option<RType>
    ensures { option_map (λ rtype. rtype.0) result ≡ type_named text.now }
{
    if is_word(text, b"A") {
        Some(RType::A)
    } else if is_word(text, b"NS") {
        Some(RType::NS)
    } else if is_word(text, b"CNAME") {
        Some(RType::CNAME)
    } else if is_word(text, b"SOA") {
        Some(RType::SOA)
    } else if is_word(text, b"PTR") {
        Some(RType::PTR)
    } else if is_word(text, b"MX") {
        Some(RType::MX)
    } else if is_word(text, b"TXT") {
        Some(RType::TXT)
    } else if is_word(text, b"AAAA") {
        Some(RType::AAAA)
    } else if is_word(text, b"SRV") {
        Some(RType::SRV)
    } else {
        type_numbered(text)
    }
}

/// The type that `TYPE` and its number name, in any case; None of a metatype, of a number of more than 16 bits, and where a zero stands in
/// front (RFC 3597, 5).
#[tactic(auto, unfolding(crate::specs::Mnemonics::type_numbered))]
fn type_numbered(text: &[u8]) -> Option<RType>
    ensures { option_map (λ rtype. rtype.0) result ≡ type_numbered text.now }
{
    let (mark, digits) = text.split_at(text.len().min(4));
    if !is_word(mark, b"TYPE") || digits.first() == Some(&b'0') {
        return None;
    }
    let rtype = RType(decimal(digits, u32::from(u16::MAX))? as u16);
    if rtype.is_metatype() {
        None
    } else {
        Some(rtype)
    }
}

/// Whether a text is `CLASS`, in any case, and a number (RFC 3597, 5).
fn is_class_number(text: &[u8]) -> bool
    ensures { result ≡ is_class_number text.now }
{
    let (mark, digits) = text.split_at(text.len().min(5));
    is_word(mark, b"CLASS") && are_digits(digits)
}

/// Whether a text names the class IN; `BadClass` where it names another one.
#[tactic(auto, unfolding(crate::specs::Mnemonics::class_named))]
fn class_named(text: &[u8]) -> Result<bool, Cause>
    ensures { result ≡ class_named text.now }
{
    if is_word(text, b"IN") {
        Ok(true)
    } else if is_word(text, b"CS") {
        Err(Cause::BadClass)
    } else if is_word(text, b"CH") {
        Err(Cause::BadClass)
    } else if is_word(text, b"HS") {
        Err(Cause::BadClass)
    } else if is_class_number(text) {
        is_in(text)
    } else {
        Ok(false)
    }
}

/// That a text of `CLASS` and a number names the class IN; `BadClass` where the number is another one.
fn is_in(text: &[u8]) -> Result<bool, Cause>
    requires { 5 ≤ length text.now }
    ensures { result ≡ (if bytes_eq (drop 5 text.now) (codes "1") then Ok true else Err Cause.BadClass) }
{
    if &text[5..] == b"1".as_slice() {
        Ok(true)
    } else {
        Err(Cause::BadClass)
    }
}

/// Writes the word of a type after the text; `TYPE` and its number for one that has none (RFC 1035, 3.2.2; RFC 3596, 2.1; RFC 2782;
/// RFC 3597, 5). The fault is a growth that was refused; the text then ends anywhere.
#[tactic(auto, unfolding(crate::specs::Mnemonics::type_word))]
pub fn write_type(text: &mut String, rtype: RType) -> Result<(), AllocError>
    ensures { OnOk result (string_bytes text.new ≡ string_bytes text.old ++ type_word rtype.0) }
{
    let word = match rtype {
        RType::A => "A",
        RType::NS => "NS",
        RType::CNAME => "CNAME",
        RType::SOA => "SOA",
        RType::PTR => "PTR",
        RType::MX => "MX",
        RType::TXT => "TXT",
        RType::AAAA => "AAAA",
        RType::SRV => "SRV",
        RType(number) => return write!(text, "TYPE{number}"),
    };
    text.push_str(word)
}
