//! Places on the earth as words: degrees, minutes and seconds, altitude, size and precision (RFC 1876, 2 and 3).
ghost use Rattle.std.specs.Prelude.{◌≡◌, ◌<◌, ◌≤◌, ◌+◌, ◌*◌, length, take, drop, map, Ok, Err, OnOk, IfOk, IfErr};
ghost use Rattle.record_text.specs.Data.{IsToldOf};
ghost use Rattle.record_text.specs.Private.{ReadsBehind};
ghost use Rattle.wide_text.specs.Location.{above, after_angle, altitude_in, altitude_of, angle_in, angle_of, below, centimetres_in, fraction_in, latitudes, location_of, longitudes, octets_with, point_of, scaled, seconds_in, side_first, side_of, size_in, size_of, sizes_of, sum_of, thousandths_in, three_of, turned, without_m, words_before, worth_of};
ghost use Rattle.wide_text.specs.Mnemonics.{mnemonic_seen};
ghost use Rattle.zone_lexing.specs.Word.{written};

use crate::encoded::bare;
use crate::mnemonics::{Mnemonic, number_named};
use record_text::{Cause, number, surplus};
use zone_lexing::Word;

/// The letters of a latitude.
const LATITUDES: [Mnemonic; 2] = [
    Mnemonic {
        word: "N",
        number: 1,
    },
    Mnemonic {
        word: "S",
        number: 0,
    },
];

/// The letters of a longitude.
const LONGITUDES: [Mnemonic; 2] = [
    Mnemonic {
        word: "E",
        number: 1,
    },
    Mnemonic {
        word: "W",
        number: 0,
    },
];

/// The equator, and the prime meridian.
pub(crate) const MIDDLE: u32 = 0x8000_0000;

/// The centimetres from 100000 metres below the ellipsoid to it.
pub(crate) const GROUND: u32 = 10_000_000;

/// The size that doesn't stand: 1 metre.
const SIZE: u8 = 0x12;

/// The horizontal precision that doesn't stand: 10000 metres.
const HORIZONTAL: u8 = 0x16;

/// The vertical precision that doesn't stand: 10 metres.
const VERTICAL: u8 = 0x13;

/// The letters of a latitude.
#[tactic(auto, unfolding(crate::specs::Location::latitudes))]
fn latitudes() -> &'static [Mnemonic]
    ensures { map mnemonic_seen result.now ≡ latitudes }
{
    &LATITUDES
}

/// The letters of a longitude.
#[tactic(auto, unfolding(crate::specs::Location::longitudes))]
fn longitudes() -> &'static [Mnemonic]
    ensures { map mnemonic_seen result.now ≡ longitudes }
{
    &LONGITUDES
}

/// Puts the octets of a place after the others.
///
/// `Number` at a number that is none, or too great; `BadData` at too few or too many words, and at a quoted string; `Unclosed` where no word
/// stands; `NoMemory` where a growth was refused.
pub(crate) fn put_location(octets: &mut Vec<u8>, words: &[Word<'_>]) -> Result<(), Cause>
    ensures put { OnOk result (ReadsBehind (location_of (map written words.now)) octets.old.items octets.new.items) }
    ensures fault { IfErr result (IsToldOf (location_of (map written words.now))) }
{
    let north = angle_of(words, latitudes(), 90)?;
    let words = after_angle(words, latitudes());
    let east = angle_of(words, longitudes(), 180)?;
    put_with(octets, north, east, after_angle(words, longitudes()))
}

/// Puts the octets of a place of these angles after the others.
fn put_with(octets: &mut Vec<u8>, north: u32, east: u32, words: &[Word<'_>]) -> Result<(), Cause>
    ensures put { OnOk result (ReadsBehind (octets_with north east (map written words.now)) octets.old.items octets.new.items) }
    ensures fault { IfErr result (IsToldOf (octets_with north east (map written words.now))) }
{
    let [word, sizes @ ..] = words else {
        return Err(Cause::BadData);
    };
    let altitude = altitude_of(*word)?;
    let [size, horizontal, vertical] = sizes_of(sizes)?;
    octets.extend_from_slice(&[0, size, horizontal, vertical])?;
    octets.extend_from_slice(&north.to_be_bytes())?;
    octets.extend_from_slice(&east.to_be_bytes())?;
    octets.extend_from_slice(&altitude.to_be_bytes())?;
    Ok(())
}

/// The angle that words begin with, and its letter.
#[tactic(auto, using(crate::proofs::LocationLemmas::dropped, crate::proofs::LocationLemmas::taken))]
fn angle_of(words: &[Word<'_>], letters: &[Mnemonic], most: u32) -> Result<u32, Cause>
    requires { most ≤ 180 }
    ensures { result ≡ angle_of most (map mnemonic_seen letters.now) (map written words.now) }
{
    let (front, after) = words.split_at(words_before(words, letters));
    let angle = angle_in(front, most)?;
    let side = side_first(after, letters)?;
    turned(most, angle, side)
}

/// What stands after an angle and its letter.
#[tactic(auto, using(crate::proofs::LocationLemmas::dropped))]
fn after_angle<'a, 'b>(words: &'a [Word<'b>], letters: &[Mnemonic]) -> &'a [Word<'b>]
    ensures { map written result.now ≡ after_angle (map mnemonic_seen letters.now) (map written words.now) }
{
    words_after(words, words_before(words, letters))
}

/// What stands after the word at a place; nothing where the words end there.
fn words_after<'a, 'b>(words: &'a [Word<'b>], place: usize) -> &'a [Word<'b>]
    requires { place ≤ length words.now }
    ensures { result.now ≡ drop (place + 1) words.now }
{
    if place < words.len() {
        &words[place + 1..]
    } else {
        &[]
    }
}

/// How many words stand before the first letter, or all where there is none.
fn words_before(words: &[Word<'_>], letters: &[Mnemonic]) -> usize
    ensures count { result ≡ words_before (map mnemonic_seen letters.now) (map written words.now) }
    ensures within { result ≤ length words.now }
{
    let mut count = 0;
    for word in words {
        if side_of(*word, letters).is_some() {
            return count;
        }
        count += 1;
    }
    count
}

/// The side that a word is; None of a word that is no letter of these.
fn side_of(word: Word<'_>, letters: &[Mnemonic]) -> Option<u8>
    ensures { result ≡ side_of (map mnemonic_seen letters.now) (written word.entry) }
{
    match word {
        Word::Plain(text) => number_named(text, letters),
        Word::Quoted(_) | Word::Unclosed => None,
    }
}

/// The side of the first word.
fn side_first(words: &[Word<'_>], letters: &[Mnemonic]) -> Result<u8, Cause>
    ensures { result ≡ side_first (map mnemonic_seen letters.now) (map written words.now) }
{
    match words {
        [word, ..] => side_of(*word, letters).ok_or(Cause::BadData),
        [] => Err(Cause::BadData),
    }
}

/// An angle on a side, from the equator or the prime meridian, at most so many degrees.
fn turned(most: u32, angle: u32, side: u8) -> Result<u32, Cause>
    requires { most ≤ 180 }
    ensures { result ≡ turned most angle side }
{
    if angle > most * 3_600_000 {
        return Err(Cause::Number);
    }
    if side == 1 {
        Ok(MIDDLE + angle)
    } else {
        Ok(MIDDLE - angle)
    }
}

/// The thousandths of a second of degrees, minutes and seconds, of which the last ones may be missing.
fn angle_in(words: &[Word<'_>], most: u32) -> Result<u32, Cause>
    requires { most ≤ 180 }
    ensures { result ≡ angle_in most (map written words.now) }
{
    match words {
        [degrees] => sum_of(number(*degrees, most), Ok(0), Ok(0)),
        [degrees, minutes] => sum_of(number(*degrees, most), number(*minutes, 59), Ok(0)),
        [degrees, minutes, seconds] => sum_of(
            number(*degrees, most),
            number(*minutes, 59),
            seconds_in(*seconds),
        ),
        _ => Err(Cause::BadData),
    }
}

/// The thousandths of a second of degrees, minutes and thousandths.
fn sum_of(
    degrees: Result<u32, Cause>,
    minutes: Result<u32, Cause>,
    seconds: Result<u32, Cause>,
) -> Result<u32, Cause>
    requires degrees { IfOk degrees (λ n. n ≤ 180) }
    requires minutes { IfOk minutes (λ n. n ≤ 59) }
    requires seconds { IfOk seconds (λ n. n ≤ 158900) }
    ensures { result ≡ sum_of degrees minutes seconds }
{
    Ok(degrees? * 3_600_000 + minutes? * 60_000 + seconds?)
}

/// The thousandths of a word's seconds.
fn seconds_in(word: Word<'_>) -> Result<u32, Cause>
    ensures seconds { result ≡ seconds_in (written word.entry) }
    ensures within { IfOk result (λ n. n ≤ 158900) }
{
    let text = bare(word)?;
    Ok(thousandths_in(text, 59, 3)? as u32)
}

/// The thousandths of a number, whose whole part is at most the one given, with so many digits at most after a point, where there is one.
fn thousandths_in(text: &[u8], most: u32, places: usize) -> Result<u64, Cause>
    ensures number { result ≡ thousandths_in most places text.now }
    ensures within { IfOk result (λ n. n ≤ most * 1000 + 99900) }
{
    let point = point_of(text);
    if point == text.len() {
        return Ok(u64::from(number(Word::Plain(text), most)?) * 1_000);
    }
    let whole = u64::from(number(Word::Plain(&text[..point]), most)?);
    let part = u64::from(fraction_in(&text[point + 1..], places)?);
    Ok(whole * 1_000 + part)
}

/// How many octets stand before the first point, or all where there is none.
fn point_of(text: &[u8]) -> usize
    ensures place { result ≡ point_of text.now }
    ensures within { result ≤ length text.now }
{
    let mut place = 0;
    for octet in text {
        if *octet == b'.' {
            return place;
        }
        place += 1;
    }
    place
}

/// The thousandths of the digits after a point, so many at most.
fn fraction_in(digits: &[u8], places: usize) -> Result<u32, Cause>
    ensures number { result ≡ fraction_in places digits.now }
    ensures within { IfOk result (λ n. n ≤ 99900) }
{
    if digits.len() > places {
        return Err(Cause::Number);
    }
    Ok(number(Word::Plain(digits), 999)? * worth_of(digits.len()))
}

/// What the last of so many digits after a point is worth, in thousandths.
fn worth_of(digits: usize) -> u32
    ensures worth { result ≡ worth_of digits }
    ensures within { result ≤ 100 }
{
    match digits {
        1 => 100,
        2 => 10,
        _ => 1,
    }
}

/// The centimetres of metres.
fn centimetres_in(text: &[u8], most: u32) -> Result<u64, Cause>
    ensures { result ≡ centimetres_in most text.now }
{
    Ok(thousandths_in(without_m(text), most, 2)? / 10)
}

/// A text without the `m` that it may end with.
fn without_m(text: &[u8]) -> &[u8]
    ensures { result.now ≡ without_m text.now }
{
    match text {
        [front @ .., b'm'] => front,
        _ => text,
    }
}

/// The centimetres of an altitude.
fn altitude_of(word: Word<'_>) -> Result<u32, Cause>
    ensures { result ≡ altitude_of (written word.entry) }
{
    let text = bare(word)?;
    altitude_in(text)
}

/// The centimetres of an altitude, from 100000 metres below the ellipsoid.
fn altitude_in(text: &[u8]) -> Result<u32, Cause>
    ensures { result ≡ altitude_in text.now }
{
    match text {
        [] => Err(Cause::Number),
        [b'-', depth @ ..] => below(centimetres_in(depth, 100_000)?),
        _ => above(centimetres_in(text, 42_849_672)?),
    }
}

/// So many centimetres below the ellipsoid.
fn below(depth: u64) -> Result<u32, Cause>
    ensures { result ≡ below depth }
{
    if depth > u64::from(GROUND) {
        return Err(Cause::Number);
    }
    Ok(GROUND - depth as u32)
}

/// So many centimetres above it.
fn above(height: u64) -> Result<u32, Cause>
    ensures { result ≡ above height }
{
    if height > u64::from(u32::MAX - GROUND) {
        return Err(Cause::Number);
    }
    Ok(GROUND + height as u32)
}

/// Size, horizontal precision and vertical precision.
fn sizes_of(words: &[Word<'_>]) -> Result<[u8; 3], Cause>
    ensures sizes { IfOk result (λ sizes. sizes_of (map written words.now) ≡ Ok sizes) }
    ensures fault { IfErr result (λ cause. sizes_of (map written words.now) ≡ Err cause) }
{
    match words {
        [] => Ok([SIZE, HORIZONTAL, VERTICAL]),
        [size] => three_of(size_of(*size), Ok(HORIZONTAL), Ok(VERTICAL)),
        [size, horizontal] => three_of(size_of(*size), size_of(*horizontal), Ok(VERTICAL)),
        [size, horizontal, vertical] => {
            three_of(size_of(*size), size_of(*horizontal), size_of(*vertical))
        }
        [_, _, _, word, ..] => Err(surplus(*word)),
    }
}

/// Three octets.
fn three_of(
    size: Result<u8, Cause>,
    horizontal: Result<u8, Cause>,
    vertical: Result<u8, Cause>,
) -> Result<[u8; 3], Cause>
    ensures sizes { IfOk result (λ sizes. three_of size horizontal vertical ≡ Ok sizes) }
    ensures fault { IfErr result (λ cause. three_of size horizontal vertical ≡ Err cause) }
{
    Ok([size?, horizontal?, vertical?])
}

/// A size, or a precision.
fn size_of(word: Word<'_>) -> Result<u8, Cause>
    ensures { result ≡ size_of (written word.entry) }
{
    let text = bare(word)?;
    let length = centimetres_in(text, 90_000_000)?;
    if length > 9_000_000_000 {
        return Err(Cause::Number);
    }
    Ok(scaled(length))
}

/// Centimetres as their first digit, in the higher four bits, and the power of ten that it stands for.
fn scaled(length: u64) -> u8
    requires { length ≤ 9000000000 }
    ensures { result ≡ scaled length }
{
    if length < 10 {
        length as u8 * 16
    } else if length < 100 {
        (length / 10) as u8 * 16 + 1
    } else if length < 1_000 {
        (length / 100) as u8 * 16 + 2
    } else if length < 10_000 {
        (length / 1_000) as u8 * 16 + 3
    } else if length < 100_000 {
        (length / 10_000) as u8 * 16 + 4
    } else if length < 1_000_000 {
        (length / 100_000) as u8 * 16 + 5
    } else if length < 10_000_000 {
        (length / 1_000_000) as u8 * 16 + 6
    } else if length < 100_000_000 {
        (length / 10_000_000) as u8 * 16 + 7
    } else if length < 1_000_000_000 {
        (length / 100_000_000) as u8 * 16 + 8
    } else {
        (length / 1_000_000_000) as u8 * 16 + 9
    }
}
