//! Numbers as text (RFC 1035, 5.1).
ghost use Rattle.std.specs.Prelude.{◌≡◌, ◌+◌, ◌-◌, ◌*◌, ◌<◌, ◌≤◌, ◌^◌, ◌&&◌, nat_le, if◌then◌else◌, Ok, Err, Some, None, IfOk, IfErr, IfSome};
ghost use Rattle.std.specs.List.{list_all};
ghost use Rattle.std.specs.Char.{is_ascii_digit};
ghost use Rattle.zone_lexing.specs.Word.{written};
ghost use Rattle.record_text.specs.Number.{are_digits, decimal_of, number_of, is_number as says_number};

use crate::cause::Cause;
use dns_rdata::Ttl;
use zone_lexing::Word;

/// The number that a word is: decimal digits, leading zeros allowed, at most the greatest one given (RFC 1035, 5.1).
///
/// `Number` at another word, at a quoted string too, and at a number that is greater; `Unclosed` where no word stands.
pub fn number(word: Word<'_>, most: u32) -> Result<u32, Cause>
    ensures number { result ≡ number_of most (written word.entry) }
    ensures within { IfOk result (λ n. n ≤ most) }
{
    match word {
        Word::Plain(text) => decimal(text, most).ok_or(Cause::Number),
        Word::Quoted(_) => Err(Cause::Number),
        Word::Unclosed => Err(Cause::Unclosed),
    }
}

/// Whether a word is decimal digits alone, one or more.
pub fn is_number(word: Word<'_>) -> bool
    ensures { result ≡ says_number (written word.entry) }
{
    match word {
        Word::Plain(text) => are_digits(text),
        Word::Quoted(_) | Word::Unclosed => false,
    }
}

/// The TTL that a word is, in seconds, at most 2^31 - 1 (RFC 2181, 8). `Number` at another word, and `Unclosed`
/// where no word stands.
pub fn ttl(word: Word<'_>) -> Result<Ttl, Cause>
    ensures ttl { IfOk result (λ ttl. number_of 2147483647 (written word.entry) ≡ Ok ttl.0) }
    ensures lasts { IfOk result (λ ttl. ttl.0 < 2 ^ 31) }
    ensures fault { IfErr result (λ cause. number_of 2147483647 (written word.entry) ≡ Err cause) }
{
    let seconds = number(word, Ttl::MAX.0)?;
    Ok(Ttl(seconds))
}

/// Whether a text is decimal digits, one or more.
pub(crate) fn are_digits(text: &[u8]) -> bool
    ensures { result ≡ are_digits text.now }
{
    !text.is_empty() && has_digits_alone(text)
}

/// Whether each octet of a text is a decimal digit.
fn has_digits_alone(text: &[u8]) -> bool
    ensures { result ≡ list_all is_ascii_digit text.now }
{
    text.iter().all(|octet| octet.is_ascii_digit())
}

/// The number of a text of digits; None of another text, and where it is greater than the greatest one given.
pub(crate) fn decimal(text: &[u8], most: u32) -> Option<u32>
    ensures number { result ≡ decimal_of most text.now }
    ensures within { IfSome result (λ n. n ≤ most) }
{
    if text.is_empty() {
        return None;
    }
    let mut value = 0;
    for octet in text {
        value = with_digit(value, *octet, most)?;
    }
    Some(value)
}

/// A number with one more digit after its others; None where that is no digit, or where it is too great.
fn with_digit(value: u32, octet: u8, most: u32) -> Option<u32>
    ensures { result ≡ (if is_ascii_digit octet && nat_le (value * 10 + (octet - 48)) most then Some (value * 10 + (octet - 48)) else None) }
{
    if !octet.is_ascii_digit() {
        return None;
    }
    let next = u64::from(value) * 10 + u64::from(octet - b'0');
    if next <= u64::from(most) {
        Some(next as u32)
    } else {
        None
    }
}
