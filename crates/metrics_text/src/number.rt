//! Numbers as text.
ghost use Rattle.std.specs.Prelude.{◌≡◌, ◌<◌, ◌++◌, OnOk, decimal, drop};
ghost use Rattle.metrics_text.specs.Numbers.{number_text, seconds_text, decimals_of};

use itoa::Buffer;
use std::alloc::AllocError;

/// How many nanoseconds a second has.
const SECOND: u64 = 1_000_000_000;

/// The number of a sample.
#[derive(Clone, Copy, Debug, PartialEq, Eq)]
pub enum Number {
    /// A whole number.
    Whole(u64),
    /// A time in nanoseconds, which is written in seconds, the base unit of times.
    Nanoseconds(u64),
}

/// Puts a sample's number at the end of a text. The fault is a growth that was refused.
pub fn put_number(text: &mut Vec<u8>, number: Number) -> Result<(), AllocError>
    ensures { OnOk result (text.new.items ≡ text.old.items ++ number_text number) }
{
    match number {
        Number::Whole(whole) => put_decimal(text, whole),
        Number::Nanoseconds(nanoseconds) => put_seconds(text, nanoseconds),
    }
}

/// Puts a number in decimal digits at the end of a text. The fault is a growth that was refused.
pub fn put_decimal(text: &mut Vec<u8>, number: u64) -> Result<(), AllocError>
    ensures { OnOk result (text.new.items ≡ text.old.items ++ decimal number) }
{
    let mut buffer = Buffer::new();
    text.extend_from_slice(buffer.format(number).as_bytes())
}

/// Puts nanoseconds in seconds, with nine decimals, at the end of a text. The fault is a growth that was refused.
fn put_seconds(text: &mut Vec<u8>, nanoseconds: u64) -> Result<(), AllocError>
    ensures { OnOk result (text.new.items ≡ text.old.items ++ seconds_text nanoseconds) }
{
    put_decimal(text, nanoseconds / SECOND)?;
    text.push(b'.')?;
    put_decimals(text, nanoseconds % SECOND)
}

/// Puts the nine decimals of a part of a second at the end of a text: the digits after the first of 1,000,000,000 more.
fn put_decimals(text: &mut Vec<u8>, part: u64) -> Result<(), AllocError>
    requires { part < 1_000_000_000 }
    ensures { OnOk result (text.new.items ≡ text.old.items ++ decimals_of part) }
{
    let mut buffer = Buffer::new();
    let digits = buffer.format(SECOND + part).as_bytes();
    text.extend_from_slice(after_first(digits))
}

/// The octets after the first.
fn after_first(octets: &[u8]) -> &[u8]
    ensures { result.now ≡ drop 1 octets.now }
{
    match octets {
        [] => octets,
        [_, rest @ ..] => rest,
    }
}
