//! A TSIG as it stands in a message (RFC 8945, 4.2).
ghost use Rattle.std.specs.Prelude.{◌≡◌, ◌≤◌, ◌<◌, ◌+◌, ◌^◌, length, Ok, option_map, option_and_then};
ghost use Rattle.dns_name.specs.Name.{Name as Labels, wire_of};
ghost use Rattle.dns_message.specs.Message.{number_at};
ghost use Rattle.dns_message.specs.Reads.{record_of};
ghost use Rattle.tsig.specs.Fields.{Fields};
ghost use Rattle.tsig.specs.Tsig.{tsig_of, tsig_at, data_of, record_octets, names_limit};

use crate::fields::{Data, FIXED, MAX_RECORD, fields_in, put, put_fields};
use arrayvec::ArrayVec;
use dns_name::Name;
use std::marker::Model;
use wire_names::Message;

/// The most octets of both names of a TSIG that is read (own).
pub(crate) const MAX_NAMES: usize = 470;

/// The octets of a record's type, class, TTL, and the number of its data's octets (RFC 1035, 4.1.3).
pub(crate) const BETWEEN: usize = 10;

/// A TSIG as it stands in a message.
#[derive(Drop)]
pub struct Tsig<'m> {
    owner: Name,
    algorithm: Name,
    fields: Data<'m>,
}

impl<'m> Model for Tsig<'m> {
    ghost use Rattle.std.specs.Prelude.{◌+◌, ◌≤◌, ◌<◌, ◌^◌, length};
    ghost use Rattle.dns_name.specs.Name.{wire_of};
    ghost use Rattle.tsig.specs.Tsig.{Tsig as Standing, names_limit};

    ghost Value = { Standing };

    ghost view = { λ a. record { owner = a.owner; algorithm = a.algorithm; fields = a.fields } };

    ghost invariant = { λ a. (length (wire_of a.owner) + length (wire_of a.algorithm) ≤ names_limit) × (length a.fields.other < 2 ^ 16) };
}

impl<'m> Tsig<'m> {
    /// The key's name, as it is spelt.
    pub fn owner(&self) -> &Name
        ensures { result.now ≡ self.now.owner }
    {
        &self.owner
    }

    /// The algorithm's name, as it is spelt.
    pub fn algorithm(&self) -> &Name
        ensures { result.now ≡ self.now.algorithm }
    {
        &self.algorithm
    }

    /// The fields after these.
    pub(crate) fn fields(&self) -> &Data<'m>
        ensures fields { result.now ≡ self.now.fields }
        ensures few { length result.now.other < 2 ^ 16 }
        ensures short { length (wire_of self.now.owner) + length (wire_of self.now.algorithm) ≤ names_limit }
    {
        &self.fields
    }
}

/// The TSIG at a position of a message; None where its data hasn't the form of one, or its names have more than 470 octets.
pub(crate) fn tsig_at<'m>(octets: &Message<'m>, at: usize) -> Option<Tsig<'m>>
    ensures { result ≡ tsig_at octets.now at }
{
    let Ok((owner, at)) = octets.read_name(at) else {
        return None;
    };
    tsig_behind(octets.octets(), owner, at)
}

/// The TSIG whose owner was read, which ends at a position.
fn tsig_behind<'m>(octets: &'m [u8], owner: Name, at: usize) -> Option<Tsig<'m>>
    ensures { result ≡ option_and_then (λ r. tsig_of owner (data_of octets.now r)) (record_of octets.now (Ok (owner, at))) }
{
    match data_at(octets, at) {
        None => None,
        Some(own) => tsig_of(owner, own),
    }
}

/// The data of the record whose owner ends at a position; None where the octets end before (RFC 1035, 4.1.3).
fn data_at(octets: &[u8], at: usize) -> Option<&[u8]>
    ensures { (owner : Labels) → option_map (λ octets. octets.now) result ≡ option_map (data_of octets.now) (record_of octets.now (Ok (owner, at))) }
{
    let _ = octets.get(at..)?;
    let size = octets.get(at + 8..)?.first_chunk::<2>()?;
    let size = usize::from(u16::from_be_bytes(*size));
    octets.get(at + BETWEEN..)?.get(..size)
}

/// The TSIG of a key's name and data.
fn tsig_of<'m>(owner: Name, octets: &'m [u8]) -> Option<Tsig<'m>>
    ensures { result ≡ tsig_of owner octets.now }
{
    let (algorithm, len) = Name::from_wire(octets)?;
    let fields = fields_in(octets.get(len..)?)?;
    if owner.wire().len() + algorithm.wire().len() > MAX_NAMES {
        return None;
    }
    Some(Tsig {
        owner,
        algorithm,
        fields,
    })
}

/// The octets of a TSIG's record (RFC 8945, 4.2).
pub(crate) fn record_octets(
    owner: &Name,
    algorithm: &Name,
    fields: &Data<'_>,
) -> ArrayVec<u8, MAX_RECORD>
    requires { length (wire_of owner.now) + BETWEEN + length (wire_of algorithm.now) + FIXED + length fields.now.mac + length fields.now.other ≤ MAX_RECORD }
    ensures octets { result.items ≡ record_octets (record { owner = owner.now; algorithm = algorithm.now; fields = fields.now }) }
    ensures size { length result.items ≡ length (wire_of owner.now) + BETWEEN + length (wire_of algorithm.now) + FIXED + length fields.now.mac + length fields.now.other }
{
    let mut out = ArrayVec::new();
    let size = algorithm.wire().len() + FIXED + fields.mac.len() + fields.other.len();
    put(&mut out, owner.wire());
    put(&mut out, &[0, 250, 0, 255, 0, 0, 0, 0]);
    put(&mut out, &(size as u16).to_be_bytes());
    put(&mut out, algorithm.wire());
    put_fields(&mut out, fields);
    out
}
