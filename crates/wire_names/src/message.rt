//! Messages in which names are read, and where their pointers lead (RFC 1035, 4.1.4).
ghost use Rattle.std.specs.Prelude.{◌≡◌, ℕ, List, ◌<◌, ◌≤◌, ◌^◌, length, IfOk, IfErr, OnErr, MatchResult, Ok, Err};
ghost use Rattle.dns_name.specs.Name.{IsName};
ghost use Rattle.wire_names.specs.Leads.{Leads, EndsAt, AreEnds};
ghost use Rattle.wire_names.specs.Sizes.{behind_of};
ghost use Rattle.wire_names.specs.Spells.{Spells, Refuses};
ghost use Rattle.wire_names.specs.NameAt.{name_at};

use crate::part::{NameReadFault, Part, part_at};
use crate::pass::{name_behind, write_sizes};
use crate::read::name_in;
use crate::read_into::name_into;
use dns_name::Name;
use std::marker::Model;

/// How many places a pointer can name, by its 14 bits (RFC 1035, 4.1.4).
pub const MAX_TARGETS: usize = 16384;

/// A message in which names are read, and for each of its first places the place where the pointers that stand there end, and how
/// many octets the name there has, so that no pointer is followed twice. Contracts see the list of the message's octets.
#[derive(Drop)]
pub struct Message<'m> {
    octets: &'m [u8],
    ends: &'m [u16],
    sizes: &'m [u8],
}

impl<'m> Model for Message<'m> {
    ghost use Rattle.std.specs.Prelude.{ℕ, List, length};
    ghost use Rattle.wire_names.specs.Leads.{AreEnds};
    ghost use Rattle.wire_names.specs.Sizes.{AreSizes};

    ghost Value = { List ℕ };

    ghost view = { λ a. a.octets.now };

    ghost invariant = { λ a. AreEnds a.octets.now a.ends.now (length a.ends.now) × AreSizes a.octets.now a.sizes.now (length a.sizes.now) };
}

impl<'m> Message<'m> {
    /// A message of which nothing is remembered: each name's pointers are followed anew.
    pub fn new(octets: &'m [u8]) -> Message<'m>
        ensures { result ≡ octets.now }
    {
        Message {
            octets,
            ends: &[],
            sizes: &[],
        }
    }

    /// A message of which it is remembered where the pointers end, and how many octets the names have, at as many of its places as
    /// there is room for. Where that is [`MAX_TARGETS`] of each or the message's length, each name that is read in it takes at most
    /// 256 steps, and one that is passed over as many as it has labels before its first pointer.
    pub fn with_room(octets: &'m [u8], ends: &'m mut [u16], sizes: &'m mut [u8]) -> Message<'m>
        requires { length ends.old ≤ 2 ^ 16 }
        ensures { result ≡ octets.now }
    {
        let count = ends.len().min(octets.len());
        let ends = &mut ends[..count];
        write_ends(octets, ends);
        let count = sizes.len().min(octets.len());
        let sizes = &mut sizes[..count];
        write_sizes(octets, sizes);
        Message {
            octets,
            ends,
            sizes,
        }
    }

    /// The message's octets.
    pub fn octets(&self) -> &'m [u8]
        ensures { result.now ≡ self.now }
    {
        self.octets
    }

    /// The name at a position, and the position after it, as [`read_name`](crate::read_name) reads it. No memory is taken.
    pub fn read_name(&self, at: usize) -> Result<(Name, usize), NameReadFault>
        ensures found { IfOk result (λ r. Spells self.now at at r.0 r.1) }
        ensures lawful { IfOk result (λ r. IsName r.0) }
        ensures refused { IfErr result (λ fault. Refuses self.now at at 0 fault) }
        ensures computed { result ≡ name_at self.now at }
    {
        name_in(self.octets, self.ends, at)
    }

    /// Reads the name at a position into a name, and gives the position after it, as [`read_name`](Self::read_name) does; where there is none, the name stays as it is.
    pub fn read_name_into(&self, at: usize, name: &mut Name) -> Result<usize, NameReadFault>
        ensures read { MatchResult result (λ next. name_at self.now at ≡ Ok (name.new, next)) (λ fault. name_at self.now at ≡ Err fault) }
        ensures stays { OnErr result (name.new ≡ name.old) }
    {
        name_into(self.octets, self.ends, at, name)
    }

    /// The position after the name at a position, which is passed over; None where [`read_name`](Self::read_name) tells a fault.
    pub fn behind_name(&self, at: usize) -> Option<usize>
        ensures { result ≡ behind_of (name_at self.now at) }
    {
        name_behind(self.octets, self.ends, self.sizes, at)
    }
}

/// Writes for each of a message's first places, as many as there is room for, the place where the pointers that stand there end
/// (RFC 1035, 4.1.4).
fn write_ends(octets: &[u8], ends: &mut [u16])
    requires { length ends.old ≤ 2 ^ 16 }
    ensures are { AreEnds octets.now ends.new (length ends.new) }
    ensures len { length ends.new ≡ length ends.old }
{
    for at in 0..ends.len() {
        ends[at] = end_at(octets, ends, at);
    }
}

/// The place to which a message's pointers at a place lead, by the ends of its pointers: that where they end, if it is there, else
/// the place itself.
pub(crate) fn led_from(ends: &[u16], at: usize) -> usize
    ensures { (msg : List ℕ) → AreEnds msg ends.now (length ends.now) → Leads msg at result }
{
    match ends.get(at) {
        Some(end) => usize::from(*end),
        None => at,
    }
}

/// The place where the pointers at a place end, by those of all places before it.
fn end_at(octets: &[u8], ends: &[u16], at: usize) -> u16
    requires within { at < length ends.now }
    requires room { length ends.now ≤ 2 ^ 16 }
    requires before { AreEnds octets.now ends.now at }
    ensures { EndsAt octets.now at result }
{
    match part_at(octets, at) {
        Ok(Part::Pointer(target)) => {
            if target < at {
                return ends[target];
            }
            at as u16
        }
        Ok(Part::Label(_)) => at as u16,
        Ok(Part::Closing) => at as u16,
        Err(_) => at as u16,
    }
}
