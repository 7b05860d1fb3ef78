//! What stands at one place of a name: its end, a label or a pointer (RFC 1035, 4.1.4).
ghost use Rattle.std.specs.Prelude.{◌≡◌, ◌+◌, ◌<◌, ◌≤◌, ◌↔◌, not, length, bytes_eq, IsTrue};
ghost use Rattle.wire_names.specs.Parts.{part_at, part_of, label_of, pointer_of, label_at};

use dns_name::MAX_LABEL;
use thiserror::Error;

/// The least first octet of a pointer: its two highest bits are ones (RFC 1035, 4.1.4).
pub(crate) const POINTER: usize = 192;

/// How many places the second octet of a pointer tells apart.
const SECOND_OCTET: usize = 256;

/// Why octets spell no name. The first fault in reading order is told.
#[derive(Clone, Copy, Debug, PartialEq, Eq, Error)]
pub enum NameReadFault {
    /// The message ends inside the name.
    #[error("F1 Short")]
    Short,
    /// The two highest bits of a length octet are 01 or 10, which stand for nothing (RFC 1035, 4.1.4).
    #[error("F2 BadLength")]
    BadLength,
    /// A pointer's target isn't below the place where its run of labels began (RFC 1035, 4.1.4; own).
    #[error("F3 BadPointer")]
    BadPointer,
    /// More than 255 octets once written in full, the closing zero octet counted at each label (RFC 1035, 2.3.4).
    #[error("F4 TooLong")]
    TooLong,
}

/// What stands at one place of a name.
#[derive(Clone, Copy)]
pub(crate) enum Part {
    /// The zero octet that closes the name.
    Closing,
    /// A label of this many octets, after its length octet.
    Label(usize),
    /// A pointer to this position.
    Pointer(usize),
}

/// What stands at a position of the message. Short where the message ends inside it, BadLength where it is neither
/// a label nor a pointer (RFC 1035, 4.1.4).
pub(crate) fn part_at(msg: &[u8], at: usize) -> Result<Part, NameReadFault>
    ensures { result ≡ part_at msg.now at }
{
    if at >= msg.len() {
        return Err(NameReadFault::Short);
    }
    part_of(&msg[at..])
}

/// What the octets begin with.
fn part_of(octets: &[u8]) -> Result<Part, NameReadFault>
    ensures { result ≡ part_of octets.now }
{
    let [first, rest @ ..] = octets else {
        return Err(NameReadFault::Short);
    };
    let first = usize::from(*first);
    if first == 0 {
        return Ok(Part::Closing);
    }
    if first <= MAX_LABEL {
        return label_of(first, rest);
    }
    if first < POINTER {
        return Err(NameReadFault::BadLength);
    }
    pointer_of(first - POINTER, rest)
}

/// A label of so many octets, where they are there.
fn label_of(len: usize, rest: &[u8]) -> Result<Part, NameReadFault>
    ensures { result ≡ label_of len rest.now }
{
    if len <= rest.len() {
        Ok(Part::Label(len))
    } else {
        Err(NameReadFault::Short)
    }
}

/// The pointer whose first octet has these six low bits, where its second octet is there.
fn pointer_of(high: usize, rest: &[u8]) -> Result<Part, NameReadFault>
    requires { high < 64 }
    ensures { result ≡ pointer_of high rest.now }
{
    match rest {
        [low, ..] => Ok(Part::Pointer(high * SECOND_OCTET + usize::from(*low))),
        [] => Err(NameReadFault::Short),
    }
}

/// The octets of a label of so many octets whose length octet stands at a position.
pub(crate) fn label_at(msg: &[u8], at: usize, len: usize) -> &[u8]
    requires { at + 1 + len ≤ length msg.now }
    ensures { result.now ≡ label_at msg.now at len }
{
    &msg[at + 1..at + 1 + len]
}

/// Whether two labels differ, case included. Eight octets are compared at a time, in the caller itself: most labels are short, and differ in
/// their first octets.
#[inline(always)]
pub(crate) fn differ(label: &[u8], other: &[u8]) -> bool
    ensures { result ≡ not (bytes_eq label.now other.now) }
{
    if label.len() != other.len() {
        return true;
    }
    let mut rest = label;
    let mut others = other;
    while let (Some((eight, behind)), Some((same, after))) = (
        rest.split_first_chunk::<8>(),
        others.split_first_chunk::<8>(),
    ) {
        if !are_eight_same(eight, same) {
            return true;
        }
        rest = behind;
        others = after;
    }
    differ_few(rest, others)
}

/// Whether two labels of one length differ, of which few octets are left: four at a time, and then each.
#[inline(always)]
fn differ_few(label: &[u8], other: &[u8]) -> bool
    requires { length label.now ≡ length other.now }
    ensures { result ≡ not (bytes_eq label.now other.now) }
{
    if let (Some((four, behind)), Some((same, after))) = (
        label.split_first_chunk::<4>(),
        other.split_first_chunk::<4>(),
    ) {
        if !are_four_same(four, same) {
            return true;
        }
        return differ_singly(behind, after);
    }
    differ_singly(label, other)
}

/// Whether eight octets are the same, as numbers.
#[inline(always)]
fn are_eight_same(octets: &[u8; 8], others: &[u8; 8]) -> bool
    ensures { IsTrue result ↔ (octets.now ≡ others.now) }
{
    u64::from_be_bytes(*octets) == u64::from_be_bytes(*others)
}

/// Whether four octets are the same, as numbers.
#[inline(always)]
fn are_four_same(octets: &[u8; 4], others: &[u8; 4]) -> bool
    ensures { IsTrue result ↔ (octets.now ≡ others.now) }
{
    u32::from_be_bytes(*octets) == u32::from_be_bytes(*others)
}

/// Whether two labels of one length differ, octet by octet.
#[inline(always)]
fn differ_singly(label: &[u8], other: &[u8]) -> bool
    requires { length label.now ≡ length other.now }
    ensures { result ≡ not (bytes_eq label.now other.now) }
{
    let mut rest = label;
    let mut others = other;
    while let (Some((octet, behind)), Some((same, after))) = (
        rest.split_first(),
        others.split_first(),
    ) {
        if octet != same {
            return true;
        }
        rest = behind;
        others = after;
    }
    false
}
