//! Names that are passed over: how many octets they have, and where reading goes on after them (RFC 1035, 2.3.4 and 4.1.4).
ghost use Rattle.std.specs.Prelude.{◌≡◌, ◌+◌, ◌<◌, ◌≤◌, length, MatchOption};
ghost use Rattle.wire_names.specs.Leads.{AreEnds};
ghost use Rattle.wire_names.specs.NameAt.{name_at};
ghost use Rattle.wire_names.specs.Sizes.{size_of, behind_of, AreSizes, joined, IsRun};

use crate::part::{Part, part_at};
use crate::read::name_in;
use dns_name::MAX_NAME;

/// A run of labels, which ends at a zero octet or at a pointer.
#[derive(Clone, Copy)]
pub(crate) struct Run {
    /// How many octets its labels have, with their length octets.
    pub used: usize,
    /// Where it ends.
    pub place: usize,
    /// The target of the pointer there; None at a zero octet.
    pub target: Option<usize>,
}

/// The run of labels that begins at a position; None where the octets after some of them are no part of a name, or they leave no
/// room for a zero octet in 255 octets.
pub(crate) fn run_at(msg: &[u8], at: usize) -> Option<Run>
    ensures { MatchOption result (size_of (name_at msg.now at) ≡ 0) (IsRun msg.now at) }
{
    let mut used = 0;
    let mut place = at;
    loop {
        match part_at(msg, place) {
            Err(_) => return None,
            Ok(Part::Closing) => {
                let target = None;
                return Some(Run {
                    used,
                    place,
                    target,
                });
            }
            Ok(Part::Pointer(target)) => {
                let target = Some(target);
                return Some(Run {
                    used,
                    place,
                    target,
                });
            }
            Ok(Part::Label(len)) => {
                if used + (len + 2) > MAX_NAME {
                    return None;
                }
                used += len + 1;
                place += 1 + len;
            }
        }
    }
}

/// The position after the name at a position, by the sizes of the names at a message's first places, and the ends of its pointers;
/// None where the name has a fault (RFC 1035, 4.1.4).
pub(crate) fn name_behind(msg: &[u8], ends: &[u16], sizes: &[u8], at: usize) -> Option<usize>
    requires ends { AreEnds msg.now ends.now (length ends.now) }
    requires sizes { AreSizes msg.now sizes.now (length sizes.now) }
    ensures { result ≡ behind_of (name_at msg.now at) }
{
    let run = run_at(msg, at)?;
    let Some(target) = run.target else {
        return Some(run.place + 1);
    };
    if target >= at {
        return None;
    }
    if target >= sizes.len() {
        return behind_read(msg, ends, at);
    }
    if joined(run.used, sizes[target]) == 0 {
        return None;
    }
    Some(run.place + 2)
}

/// The position after the name at a position, which is read; None where it has a fault.
fn behind_read(msg: &[u8], ends: &[u16], at: usize) -> Option<usize>
    requires { AreEnds msg.now ends.now (length ends.now) }
    ensures { result ≡ behind_of (name_at msg.now at) }
{
    match name_in(msg, ends, at) {
        Ok((_, next)) => Some(next),
        Err(_) => None,
    }
}

/// How many octets the labels of a run have, and the name after them that has so many; 0 where it has none, or these are more than
/// 255 (RFC 1035, 2.3.4).
pub(crate) fn joined(used: usize, size: u8) -> u8
    requires { used < 255 }
    ensures { result ≡ joined used size }
{
    let sum = used + usize::from(size);
    if size == 0 || sum > MAX_NAME {
        return 0;
    }
    sum as u8
}

/// Writes for each of a message's first places, as many as there is room for, how many octets the name there has; 0 where it has a
/// fault (RFC 1035, 4.1.4).
pub(crate) fn write_sizes(octets: &[u8], sizes: &mut [u8])
    ensures are { AreSizes octets.now sizes.new (length sizes.new) }
    ensures len { length sizes.new ≡ length sizes.old }
{
    for at in 0..sizes.len() {
        sizes[at] = size_at(octets, sizes, at);
    }
}

/// How many octets the name at a place has, by those of the names at all places before it; 0 where it has a fault.
fn size_at(octets: &[u8], sizes: &[u8], at: usize) -> u8
    requires within { at < length sizes.now }
    requires before { AreSizes octets.now sizes.now at }
    ensures { result ≡ size_of (name_at octets.now at) }
{
    let Some(run) = run_at(octets, at) else {
        return 0;
    };
    let Some(target) = run.target else {
        return (run.used + 1) as u8;
    };
    if target >= at {
        return 0;
    }
    joined(run.used, sizes[target])
}
