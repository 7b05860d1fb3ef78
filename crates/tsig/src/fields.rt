//! What stands after the algorithm's name in the data of a TSIG (RFC 8945, 4.2).
ghost use Rattle.std.specs.Prelude.{◌≡◌, ◌≤◌, ◌+◌, ◌*◌, ◌^◌, ◌<◌, ◌++◌, length, IfSome};
ghost use Rattle.dns_message.specs.Message.{number_at};
ghost use Rattle.dns_message.specs.Reads.{long_number_at};
ghost use Rattle.tsig.specs.Fields.{Fields, written, with_length, fields_in};

use crate::octets::number_at;
use crate::tsig_error::time_octets;
use arrayvec::ArrayVec;
use std::marker::Model;

/// The octets of these fields without MAC and Other Data (RFC 8945, 4.2).
pub(crate) const FIXED: usize = 16;

/// The most octets of a record that is written (own).
pub(crate) const MAX_RECORD: usize = 640;

/// The fields after the algorithm's name.
#[derive(Drop)]
pub(crate) struct Data<'m> {
    /// Time Signed, in seconds since 1970.
    pub time: u64,
    /// The fudge, in seconds.
    pub fudge: u16,
    /// The MAC.
    pub mac: &'m [u8],
    /// Original ID.
    pub original: u16,
    /// The error.
    pub error: u16,
    /// Other Data.
    pub other: &'m [u8],
}

impl<'m> Model for Data<'m> {
    ghost use Rattle.tsig.specs.Fields.{Fields};

    ghost Value = { Fields };

    ghost view = { λ a. record { time = a.time; fudge = a.fudge; mac = a.mac.now; original = a.original; error = a.error; other = a.other.now } };
}

/// The time that octets begin with (RFC 8945, 4.2).
fn time_of(octets: &[u8]) -> u64
    requires { 6 ≤ length octets.now }
    ensures { result ≡ number_at octets.now 0 * 2 ^ 32 + long_number_at octets.now 2 }
{
    let high = number_at(octets, 0);
    let low = u32::from_be_bytes([octets[2], octets[3], octets[4], octets[5]]);
    u64::from(high) * 4_294_967_296 + u64::from(low)
}

/// The fields that octets are; None where these end before them or after them.
pub(crate) fn fields_in<'m>(octets: &'m [u8]) -> Option<Data<'m>>
    ensures fields { result ≡ fields_in octets.now }
    ensures few { IfSome result (λ f. length f.other < 2 ^ 16) }
{
    if octets.len() < FIXED {
        return None;
    }
    let size = usize::from(number_at(octets, 8));
    if octets.len() < FIXED + size {
        return None;
    }
    let behind = &octets[10 + size..];
    if FIXED + size + usize::from(number_at(behind, 4)) != octets.len() {
        return None;
    }
    Some(Data {
        time: time_of(octets),
        fudge: number_at(octets, 6),
        mac: &octets[10..10 + size],
        original: number_at(behind, 0),
        error: number_at(behind, 2),
        other: &behind[6..],
    })
}

/// Puts the fields behind what a record has.
pub(crate) fn put_fields(out: &mut ArrayVec<u8, MAX_RECORD>, fields: &Data<'_>)
    requires { length out.old.items + FIXED + length fields.now.mac + length fields.now.other ≤ MAX_RECORD }
    ensures { out.new.items ≡ out.old.items ++ written fields.now }
{
    put(out, &time_octets(fields.time));
    put(out, &fields.fudge.to_be_bytes());
    put_with_length(out, fields.mac);
    put(out, &fields.original.to_be_bytes());
    put(out, &fields.error.to_be_bytes());
    put_with_length(out, fields.other);
}

/// Puts octets behind what a record has.
pub(crate) fn put(out: &mut ArrayVec<u8, MAX_RECORD>, octets: &[u8])
    requires { length out.old.items + length octets.now ≤ MAX_RECORD }
    ensures { out.new.items ≡ out.old.items ++ octets.now }
{
    let _ = out.try_extend_from_slice(octets);
}

/// Puts octets behind what a record has, after their number.
fn put_with_length(out: &mut ArrayVec<u8, MAX_RECORD>, octets: &[u8])
    requires { length out.old.items + 2 + length octets.now ≤ MAX_RECORD }
    ensures { out.new.items ≡ out.old.items ++ with_length octets.now }
{
    put(out, &(octets.len() as u16).to_be_bytes());
    put(out, octets);
}
