//! The number that stands before a stored name.
ghost use Rattle.std.specs.Prelude.{◌≡◌, ◌<◌, ◌+◌, ◌*◌, ◌^◌, slice_index};
ghost use Rattle.dns_name.specs.Front.{number_of, front_of, name_front};

use crate::sought::Sought;
use crate::stored::{SoughtName, StoredName};

/// The octet at a place, or 0 after the end.
fn octet_at(octets: &[u8], at: usize) -> u64
    ensures is { result ≡ slice_index octets.now at }
    ensures short { result < 256 }
{
    match octets.get(at) {
        Some(octet) => u64::from(*octet),
        None => 0,
    }
}

/// The number of four octets from a place on, the highest first.
fn four_at(octets: &[u8], at: usize) -> u64
    requires { at < 8 }
    ensures is { result ≡ slice_index octets.now at * 16777216 + slice_index octets.now (at + 1) * 65536 + slice_index octets.now (at + 2) * 256 + slice_index octets.now (at + 3) }
    ensures short { result < 2 ^ 32 }
{
    octet_at(octets, at) * 16_777_216
        + octet_at(octets, at + 1) * 65_536
        + octet_at(octets, at + 2) * 256
        + octet_at(octets, at + 3)
}

/// The number that the first eight octets are, the highest first, with zeros after the end.
fn number_of(octets: &[u8]) -> u64
    ensures { result ≡ number_of 8 octets.now }
{
    four_at(octets, 0) * 4_294_967_296 + four_at(octets, 4)
}

/// The number of the eight octets after those that octets begin with; 0 where they come before all that begin so, and the greatest
/// where they come after them.
fn front_of(base: &[u8], octets: &[u8]) -> u64
    ensures { result ≡ front_of base.now octets.now }
{
    if octets.starts_with(base) {
        return number_of(&octets[base.len()..]);
    }
    front_beside(base, octets)
}

/// The same by one octet after the other.
#[tactic(auto, unfolding(crate::specs::Front::front_of))]
fn front_beside(base: &[u8], octets: &[u8]) -> u64
    ensures { result ≡ front_of base.now octets.now }
{
    match (base.split_first(), octets.split_first()) {
        (None, _) => number_of(octets),
        (Some(_), None) => 0,
        (Some((first, base_rest)), Some((octet, rest))) => {
            if octet < first {
                0
            } else if first < octet {
                u64::MAX
            } else {
                front_beside(base_rest, rest)
            }
        }
    }
}

impl StoredName {
    /// The number that stands before the name, of names that begin as another does in the form in which they are stored: where two
    /// numbers differ, their names stand to each other as they do (own).
    pub fn front(&self, base: &StoredName) -> u64
        ensures { result ≡ name_front base.now self.now }
    {
        front_of(base.octets(), self.octets())
    }
}

impl SoughtName {
    /// The number that stands before the name, as that of a stored name (own).
    pub fn front(&self, base: &StoredName) -> u64
        ensures { result ≡ name_front base.now self.now }
    {
        front_of(base.octets(), self.octets())
    }
}

impl<'r> Sought<'r> {
    /// The number that stands before the name, as that of a stored name (own).
    pub fn front(&self, base: &StoredName) -> u64
        ensures { result ≡ name_front base.now self.now }
    {
        front_of(base.octets(), self.octets())
    }
}
