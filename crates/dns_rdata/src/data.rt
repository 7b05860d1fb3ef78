//! A record's data (RFC 1035, 3.3 and 3.4.1; RFC 2782; RFC 3596, 2.2; RFC 3597, 3).
ghost use Rattle.std.specs.Prelude.{◌≡◌, ◌-◌, ◌<◌, ◌≤◌, ◌↔◌, ◌==◌, if◌then◌else◌, ℕ, List, length, take, drop, IfOk, IfSome, Some, None, IsSome};
ghost use Rattle.std.specs.Int.{from_be_bytes, w32};
ghost use Rattle.std.specs.Result.{IsErrOf};
ghost use Rattle.dns_name.specs.Labels.{IsWire};
ghost use Rattle.dns_rdata.specs.Limits.{max_data};
ghost use Rattle.dns_rdata.specs.Data.{IsData, data_of, target_of, serial_of, refresh_of, retry_of, expire_of, minimum_of, with_serial};
ghost use Rattle.dns_rdata.specs.Numbers.{type_CNAME, type_SOA};

use crate::form::{has_form, lowered};
use crate::layout::SOA_NUMBERS;
use crate::numbers::{RType, Serial, Ttl};
use dns_name::{KeptOctets, Name, first_name};
use std::alloc::{AllocError, Global};
use std::default::MadeWith;
use std::marker::Model;
use thiserror::Error;

/// The most octets of a record's data, uncompressed.
pub const MAX_DATA: usize = 4096;

/// Why octets are no record's data. The form is judged before the length.
#[derive(Clone, Copy, Debug, PartialEq, Eq, Error)]
pub enum DataFault {
    /// The octets don't have the form of their type, or no record of a zone has the type.
    #[error("A1 BadLength")]
    BadLength,
    /// More octets than a record's data may have.
    #[error("A2 TooLong")]
    TooLong,
    /// A growth was refused.
    #[error("A3 NoMemory")]
    NoMemory,
}

/// A record's data: its type, and octets of that type's form, uncompressed, with the names in them in lower case.
#[derive(Drop)]
pub struct RData {
    rtype: RType,
    octets: KeptOctets,
}

impl Model for RData {
    ghost use Rattle.dns_rdata.specs.Data.{Data, IsData};

    ghost Value = { Data };

    ghost view = { λ a. record { rtype = a.rtype.0; octets = a.octets } };

    ghost invariant = { λ a. IsData (record { rtype = a.rtype.0; octets = a.octets }) };
}

impl MadeWith<Global> for RData {
    /// What an unused place holds: no octets, of a type that has no form.
    fn made_with(_alloc: Global) -> RData {
        RData {
            rtype: RType(65_535),
            octets: KeptOctets::none(),
        }
    }
}

/// The numbers after the names of an SOA's data (RFC 1035, 3.3.13).
#[derive(Clone, Copy, Debug, PartialEq, Eq)]
pub struct Soa {
    /// The zone's serial.
    pub serial: Serial,
    /// After how many seconds a secondary asks for the serial again.
    pub refresh: u32,
    /// After how many seconds it asks again where it got no answer.
    pub retry: u32,
    /// After how many seconds without an answer it stops serving the zone.
    pub expire: u32,
    /// The least TTL; how long a negative answer may be kept (RFC 2308, 4).
    pub minimum: Ttl,
}

impl RData {
    /// The data that these octets spell for a type, names in full: the same octets with the names in lower case.
    ///
    /// `BadLength` where they haven't the type's form, else `TooLong` over [`MAX_DATA`] octets (RFC 1035, 3.3 and
    /// 3.4.1; RFC 2782; RFC 3596, 2.2; RFC 3597, 3). `NoMemory` only where a growth was refused, of octets that are data.
    pub fn from_wire(alloc: Global, rtype: RType, octets: &[u8]) -> Result<RData, DataFault>
        ensures data { IfOk result (λ d. (d.rtype ≡ rtype.0)
            × (data_of rtype.0 octets.now ≡ Some d.octets)
            × (length d.octets ≤ max_data)) }

        // The form decides first, and neither judgement takes memory.
        ensures bad_length { IsErrOf result DataFault.BadLength → data_of rtype.0 octets.now ≡ None }
        ensures no_form { data_of rtype.0 octets.now ≡ None → IsErrOf result DataFault.BadLength }

        // Folding keeps the length.
        ensures too_long { IsErrOf result DataFault.TooLong
            → IsSome (data_of rtype.0 octets.now) × (max_data < length octets.now) }
        ensures long_form { IsSome (data_of rtype.0 octets.now) → max_data < length octets.now
            → IsErrOf result DataFault.TooLong }
    {
        if !has_form(rtype, octets) {
            return Err(DataFault::BadLength);
        }
        if octets.len() > MAX_DATA {
            return Err(DataFault::TooLong);
        }
        let own = lowered(alloc, rtype, octets).map_err(|_| DataFault::NoMemory)?;
        Ok(RData { rtype, octets: own })
    }

    /// The type that the octets have the form of.
    pub fn rtype(&self) -> RType
        ensures rtype { result.0 ≡ self.now.rtype }
        ensures lawful { IsData self.now }
    {
        self.rtype
    }

    /// The octets, uncompressed, with the names in them in lower case.
    pub fn octets(&self) -> &[u8]
        ensures octets { result.now ≡ self.now.octets }
        ensures lawful { IsData self.now }
    {
        self.octets.as_slice()
    }

    /// The same data once more. `AllocError` where a growth was refused.
    pub fn copy(&self, alloc: Global) -> Result<RData, AllocError>
        ensures { IfOk result (λ d. d ≡ self.now) }
    {
        let octets = self.octets.copy(alloc)?;
        Ok(RData {
            rtype: self.rtype,
            octets,
        })
    }

    /// The name that an alias stands for; None of any type but CNAME (RFC 1035, 3.3.1).
    #[tactic(auto, unfolding(crate::specs::Data::data_of, crate::specs::Layout::layout_of))]
    pub fn target(&self) -> Option<Name>
        ensures target { result ≡ (if self.now.rtype == type_CNAME then target_of self.now.octets else None) }
        ensures named { self.now.rtype ≡ type_CNAME → IsSome result }
    {
        if self.rtype != RType::CNAME {
            return None;
        }
        let (name, _) = Name::from_wire(self.octets())?;
        Some(name)
    }

    /// The octets of the name that an alias stands for, written in full; None of any type but CNAME (RFC 1035, 3.3.1).
    #[tactic(auto, unfolding(crate::specs::Data::data_of, crate::specs::Layout::layout_of))]
    pub fn target_octets(&self) -> Option<&[u8]>
        ensures octets { IfSome result (λ octets. (target : List (List ℕ)) × ((if self.now.rtype == type_CNAME then target_of self.now.octets else None) ≡ Some target) × IsWire octets.now target) }
        ensures named { self.now.rtype ≡ type_CNAME → IsSome result }
    {
        if self.rtype == RType::CNAME {
            let (octets, _) = first_name(self.octets())?;
            return Some(octets);
        }
        None
    }

    /// The numbers after the names of an SOA's data; None of any other type (RFC 1035, 3.3.13).
    pub fn soa(&self) -> Option<Soa>
        ensures found { IsSome result ↔ (self.now.rtype ≡ type_SOA) }
        ensures serial { IfSome result (λ soa. soa.serial.0 ≡ serial_of self.now.octets) }
        ensures refresh { IfSome result (λ soa. soa.refresh ≡ refresh_of self.now.octets) }
        ensures retry { IfSome result (λ soa. soa.retry ≡ retry_of self.now.octets) }
        ensures expire { IfSome result (λ soa. soa.expire ≡ expire_of self.now.octets) }
        ensures minimum { IfSome result (λ soa. soa.minimum.0 ≡ minimum_of self.now.octets) }
    {
        if self.rtype != RType::SOA {
            return None;
        }
        Some(soa_numbers(self.octets()))
    }

    /// An SOA's data with another serial, and all else as it is (RFC 1035, 3.3.13). An `Err` only where a growth was
    /// refused.
    pub fn with_serial(&self, alloc: Global, serial: Serial) -> Result<RData, AllocError>
        requires { self.now.rtype ≡ type_SOA }
        ensures rtype { IfOk result (λ d. d.rtype ≡ type_SOA) }
        ensures octets { IfOk result (λ d. d.octets ≡ with_serial serial.0 self.now.octets) }
    {
        let octets = octets_with_serial(alloc, self.octets(), serial)?;
        Ok(RData {
            rtype: self.rtype,
            octets,
        })
    }
}

/// An SOA's data octets with another serial: it is the first of the numbers that end them.
fn octets_with_serial(
    alloc: Global,
    octets: &[u8],
    serial: Serial,
) -> Result<KeptOctets, AllocError>
    requires { SOA_NUMBERS ≤ length octets.now }
    ensures { IfOk result (λ own. own ≡ with_serial serial.0 octets.now) }
{
    let (names, numbers) = octets.split_at(octets.len() - SOA_NUMBERS);
    let mut own = Vec::with_capacity(alloc, octets.len())?;
    own.extend_from_slice(names)?;
    own.extend_from_slice(&serial.0.to_be_bytes())?;
    own.extend_from_slice(&numbers[4..])?;
    KeptOctets::new(alloc, own.as_slice())
}

/// The serial in an SOA's data octets, names in lower case (RFC 1035, 3.3.13).
pub fn soa_serial(octets: &[u8]) -> Serial
    requires { data_of type_SOA octets.now ≡ Some octets.now }
    ensures { result.0 ≡ serial_of octets.now }
{
    soa_numbers(octets).serial
}

/// The numbers after the two names of an SOA's data: they end it.
fn soa_numbers(octets: &[u8]) -> Soa
    requires { data_of type_SOA octets.now ≡ Some octets.now }
    ensures serial { result.serial.0 ≡ serial_of octets.now }
    ensures refresh { result.refresh ≡ refresh_of octets.now }
    ensures retry { result.retry ≡ retry_of octets.now }
    ensures expire { result.expire ≡ expire_of octets.now }
    ensures minimum { result.minimum.0 ≡ minimum_of octets.now }
{
    Soa {
        serial: Serial(number_before_end(octets, SOA_NUMBERS)),
        refresh: number_before_end(octets, 16),
        retry: number_before_end(octets, 12),
        expire: number_before_end(octets, 8),
        minimum: Ttl(number_before_end(octets, 4)),
    }
}

/// The number of four octets that begins so many octets before the end.
fn number_before_end(octets: &[u8], before: usize) -> u32
    requires whole { 4 ≤ before }
    requires within { before ≤ length octets.now }
    ensures { result ≡ from_be_bytes w32 (take 4 (drop (length octets.now - before) octets.now)) }
{
    let at = octets.len() - before;
    u32::from_be_bytes([octets[at], octets[at + 1], octets[at + 2], octets[at + 3]])
}
