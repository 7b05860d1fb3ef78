//! Times as words: seconds, or numbers with units.
ghost use Rattle.std.specs.Prelude.{◌≡◌, ◌-◌, ◌<◌, ◌≤◌, ◌^◌, ◌&&◌, true, false, length, Ok, Err, IfOk, IfErr, IfSome};
ghost use Rattle.wide_text.specs.Times.{has_units_after, is_time as says_time, is_time_text, seconds_of, sum_in, sum_of, total_of, unit_of, with_digit, with_octet, with_unit};
ghost use Rattle.zone_lexing.specs.Word.{written};

use dns_rdata::Ttl;
use record_text::{Cause, is_number, number};
use zone_lexing::Word;

/// What is read of a time so far.
#[derive(Clone, Copy)]
pub(crate) struct Sum {
    /// The number that has no unit yet.
    number: Option<u32>,
    /// The seconds before it.
    total: u32,
}

/// The seconds that a word is, at most as many as the number given: digits, or numbers with a unit after each (`w`, `d`, `h`, `m`, `s`, in
/// any case), in any order, which are added up.
///
/// `Number` at another word, as `1h30`, at a quoted string too, and where a number or the sum is greater; `Unclosed` where no word stands.
pub fn seconds(word: Word<'_>, most: u32) -> Result<u32, Cause>
    ensures seconds { result ≡ seconds_of most (written word.entry) }
    ensures within { IfOk result (λ n. n ≤ most) }
{
    if is_number(word) {
        return number(word, most);
    }
    sum_of(word, most)
}

/// Whether a word is seconds in digits, or numbers with units, of whatever length of time.
pub fn is_time(word: Word<'_>) -> bool
    ensures { result ≡ says_time (written word.entry) }
{
    match word {
        Word::Plain(text) => is_number(word) || (!text.is_empty() && has_units(text)),
        Word::Quoted(_) | Word::Unclosed => false,
    }
}

/// The TTL that a word is, at most 2^31 - 1 seconds (RFC 2181, 8). `Number` at another word, and `Unclosed` where no word stands.
pub fn wide_ttl(word: Word<'_>) -> Result<Ttl, Cause>
    ensures ttl { IfOk result (λ ttl. seconds_of 2147483647 (written word.entry) ≡ Ok ttl.0) }
    ensures lasts { IfOk result (λ ttl. ttl.0 < 2 ^ 31) }
    ensures fault { IfErr result (λ cause. seconds_of 2147483647 (written word.entry) ≡ Err cause) }
{
    let seconds = seconds(word, Ttl::MAX.0)?;
    Ok(Ttl(seconds))
}

/// The seconds of a word that is no number.
fn sum_of(word: Word<'_>, most: u32) -> Result<u32, Cause>
    ensures sum { result ≡ sum_of most (written word.entry) }
    ensures within { IfOk result (λ n. n ≤ most) }
{
    match word {
        Word::Plain(text) => sum_in(text, most).ok_or(Cause::Number),
        Word::Quoted(_) => Err(Cause::Number),
        Word::Unclosed => Err(Cause::Unclosed),
    }
}

/// The seconds of numbers with units; None of another text, and where a number or the sum is greater than the greatest one given.
fn sum_in(text: &[u8], most: u32) -> Option<u32>
    ensures sum { result ≡ sum_in most text.now }
    ensures within { IfSome result (λ n. n ≤ most) }
{
    if text.is_empty() {
        return None;
    }
    let mut sum = Sum {
        number: None,
        total: 0,
    };
    for octet in text {
        sum = sum.with_octet(*octet, most)?;
    }
    sum.total()
}

impl Sum {
    /// The sum with an octet more.
    #[tactic(auto, unfolding(crate::specs::Times::with_octet))]
    fn with_octet(self, octet: u8, most: u32) -> Option<Sum>
        requires { self.total ≤ most }
        ensures sum { result ≡ with_octet most self octet }
        ensures within { IfSome result (λ sum. sum.total ≤ most) }
    {
        if octet.is_ascii_digit() {
            return self.with_digit(octet - b'0', most);
        }
        match seconds_of_unit(octet) {
            Some(unit) => self.with_unit(unit, most),
            None => None,
        }
    }

    /// The sum with a digit more of the number that has no unit yet.
    fn with_digit(self, digit: u8, most: u32) -> Option<Sum>
        requires digit { digit < 10 }
        requires within { self.total ≤ most }
        ensures sum { result ≡ with_digit most self digit }
        ensures within { IfSome result (λ sum. sum.total ≤ most) }
    {
        let number = u64::from(self.number.unwrap_or(0)) * 10 + u64::from(digit);
        if number <= u64::from(most) {
            Some(Sum {
                number: Some(number as u32),
                total: self.total,
            })
        } else {
            None
        }
    }

    /// The sum with a unit after its number.
    fn with_unit(self, unit: u32, most: u32) -> Option<Sum>
        requires unit { unit ≤ 604800 }
        ensures sum { result ≡ with_unit most self unit }
        ensures within { IfSome result (λ sum. sum.total ≤ most) }
    {
        let Some(number) = self.number else {
            return None;
        };
        let total = u64::from(self.total) + u64::from(number) * u64::from(unit);
        if total <= u64::from(most) {
            Some(Sum {
                number: None,
                total: total as u32,
            })
        } else {
            None
        }
    }

    /// The seconds, where each number has its unit.
    fn total(self) -> Option<u32>
        ensures { result ≡ total_of self }
    {
        match self.number {
            Some(_) => None,
            None => Some(self.total),
        }
    }
}

/// The seconds of a unit.
#[tactic(auto, unfolding(crate::specs::Times::unit_of))]
fn seconds_of_unit(octet: u8) -> Option<u32>
    ensures unit { result ≡ unit_of octet }
    ensures within { IfSome result (λ unit. unit ≤ 604800) }
{
    match octet {
        b'w' | b'W' => Some(604_800),
        b'd' | b'D' => Some(86_400),
        b'h' | b'H' => Some(3_600),
        b'm' | b'M' => Some(60),
        b's' | b'S' => Some(1),
        _ => None,
    }
}

/// Whether a text is numbers that each have a unit after them.
fn has_units(text: &[u8]) -> bool
    ensures { result ≡ has_units_after false text.now }
{
    let mut digits = false;
    for octet in text {
        if octet.is_ascii_digit() {
            digits = true;
        } else if digits && seconds_of_unit(*octet).is_some() {
            digits = false;
        } else {
            return false;
        }
    }
    !digits
}
