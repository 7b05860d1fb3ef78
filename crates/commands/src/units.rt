//! Times with units, as other servers accept them in a zone's text.

/// The units of time, and the number of seconds in each.
const UNITS: [(u8, u64); 5] = [
    (b's', 1),
    (b'm', 60),
    (b'h', 3_600),
    (b'd', 86_400),
    (b'w', 604_800),
];

/// The maximum TTL in seconds (RFC 2181, 8).
const MAX_SECONDS: u64 = 2_147_483_647;

/// The number of seconds in a word that has a unit after each of its numbers, such as 5400 for `1h30m`. None for any other word, and for more than
/// the maximum TTL.
pub fn seconds_of(word: &[u8]) -> Option<u64> {
    let mut seconds: u64 = 0;
    let mut number = None;
    for octet in word {
        if octet.is_ascii_digit() {
            number = Some(with_digit(number, *octet)?);
        } else {
            seconds = seconds.checked_add(number?.checked_mul(unit_of(*octet)?)?)?;
            number = None;
        }
    }
    if word.is_empty() || number.is_some() || seconds > MAX_SECONDS {
        return None;
    }
    Some(seconds)
}

/// A number with one more digit.
fn with_digit(number: Option<u64>, digit: u8) -> Option<u64> {
    let digit = u64::from(digit.saturating_sub(b'0'));
    number.unwrap_or(0).checked_mul(10)?.checked_add(digit)
}

/// The number of seconds in a unit, in upper or lower case.
fn unit_of(letter: u8) -> Option<u64> {
    for (unit, seconds) in UNITS {
        if unit == letter.to_ascii_lowercase() {
            return Some(seconds);
        }
    }
    None
}
