//! The words of a place on the earth (RFC 1876, 2 and 3).
ghost use Rattle.std.specs.Prelude.{◌≡◌, ◌<◌, ◌≤◌, ◌+◌, ◌^◌, ◌++◌, length, map, OnOk, IfOk, string_bytes};
ghost use Rattle.std.specs.Int.{from_be_bytes, w32};
ghost use Rattle.wide_text.specs.LocationWords.{altitude_text, angle_words, location_words, metres_text, place_words, seconds_text, side_words, size_text};
ghost use Rattle.wide_text.specs.Private.{plain_word};

use crate::location::{GROUND, MIDDLE};
use crate::read_back::push_text;
use std::alloc::{AllocError, Global};

/// The words of the 16 octets of a place: degrees, minutes, seconds and letter of the latitude and of the longitude, altitude, size and precisions
/// in metres. None of another number of octets; the octets need not be those of a place that can be read.
pub(crate) fn location_words(alloc: Global, octets: &[u8]) -> Result<Vec<String>, AllocError>
    ensures { IfOk result (λ words. map plain_word words.items ≡ location_words octets.now) }
{
    let mut words = Vec::new(alloc);
    if octets.len() != 16 {
        return Ok(words);
    }
    push_place(alloc, &mut words, octets)?;
    Ok(words)
}

/// Puts the words of the 16 octets of a place after the others.
fn push_place(alloc: Global, words: &mut Vec<String>, octets: &[u8]) -> Result<(), AllocError>
    requires { length octets.now ≡ 16 }
    ensures { OnOk result (map plain_word words.new.items ≡ map plain_word words.old.items ++ place_words octets.now) }
{
    push_angle(alloc, words, number_of(&octets[4..8]), "N", "S")?;
    push_angle(alloc, words, number_of(&octets[8..12]), "E", "W")?;
    push_text(words, altitude_text(alloc, number_of(&octets[12..16]))?)?;
    push_text(words, size_text(alloc, octets[1])?)?;
    push_text(words, size_text(alloc, octets[2])?)?;
    push_text(words, size_text(alloc, octets[3])?)
}

/// The number of four octets.
fn number_of(octets: &[u8]) -> u32
    requires { length octets.now ≡ 4 }
    ensures { result ≡ from_be_bytes w32 octets.now }
{
    match octets {
        [a, b, c, d] => u32::from_be_bytes([*a, *b, *c, *d]),
        _ => 0,
    }
}

/// Puts the words of an angle after the others, with the letter of its side.
fn push_angle(
    alloc: Global,
    words: &mut Vec<String>,
    angle: u32,
    above: &str,
    below: &str,
) -> Result<(), AllocError>
    ensures { OnOk result (map plain_word words.new.items ≡ map plain_word words.old.items ++ angle_words above.now below.now angle) }
{
    if angle >= MIDDLE {
        push_side(alloc, words, above, angle - MIDDLE)
    } else {
        push_side(alloc, words, below, MIDDLE - angle)
    }
}

/// Puts degrees, minutes, seconds and the letter after the other words.
fn push_side(
    alloc: Global,
    words: &mut Vec<String>,
    letter: &str,
    thousandths: u32,
) -> Result<(), AllocError>
    ensures { OnOk result (map plain_word words.new.items ≡ map plain_word words.old.items ++ side_words letter.now thousandths) }
{
    let degrees = thousandths / 3_600_000;
    let minutes = thousandths / 60_000 % 60;
    push_text(words, format!(in alloc; "{degrees}")?)?;
    push_text(words, format!(in alloc; "{minutes}")?)?;
    push_text(words, seconds_text(alloc, thousandths % 60_000)?)?;
    push_text(words, format!(in alloc; "{letter}")?)
}

/// Seconds with three digits after the point.
fn seconds_text(alloc: Global, thousandths: u32) -> Result<String, AllocError>
    ensures { IfOk result (λ text. string_bytes text ≡ seconds_text thousandths) }
{
    let seconds = thousandths / 1_000;
    let part = thousandths % 1_000;
    let mut text = format!(in alloc; "{seconds}.")?;
    text.push(digit(part / 100))?;
    text.push(digit(part / 10 % 10))?;
    text.push(digit(part % 10))?;
    Ok(text)
}

/// The character of a digit.
fn digit(number: u32) -> char
    requires { number < 10 }
    ensures digit { result ≡ 48 + number }
{
    char::from(b'0' + number as u8)
}

/// Metres with two digits after the point.
fn metres_text(alloc: Global, centimetres: u64) -> Result<String, AllocError>
    ensures { IfOk result (λ text. string_bytes text ≡ metres_text centimetres) }
{
    let metres = centimetres / 100;
    let mut text = format!(in alloc; "{metres}.")?;
    text.push(digit((centimetres % 100 / 10) as u32))?;
    text.push(digit((centimetres % 10) as u32))?;
    text.push('m')?;
    Ok(text)
}

/// An altitude in metres.
fn altitude_text(alloc: Global, altitude: u32) -> Result<String, AllocError>
    ensures { IfOk result (λ text. string_bytes text ≡ altitude_text altitude) }
{
    if altitude >= GROUND {
        return metres_text(alloc, u64::from(altitude - GROUND));
    }
    let depth = metres_text(alloc, u64::from(GROUND - altitude))?;
    format!(in alloc; "-{depth}")
}

/// A size, or a precision, in metres.
fn size_text(alloc: Global, size: u8) -> Result<String, AllocError>
    ensures { IfOk result (λ text. string_bytes text ≡ size_text size) }
{
    metres_text(alloc, u64::from(size / 16) * power_of_ten(size % 16))
}

/// A power of ten.
#[tactic(auto, using(crate::proofs::LocationLemmas::power_small))]
fn power_of_ten(exponent: u8) -> u64
    requires { exponent < 16 }
    ensures power { result ≡ 10 ^ exponent }
    ensures within { result ≤ 1000000000000000 }
{
    10u64.pow(u32::from(exponent))
}
