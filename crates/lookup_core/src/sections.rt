//! What an answer says (RFC 1034, 4.3.2; RFC 2308, 2 and 3; RFC 6604, 3).
ghost use Rattle.std.specs.Prelude.{◌≡◌, [], ◌∷◌, min, length, All};
ghost use Rattle.dns_rdata.specs.Numbers.{type_SOA};
ghost use Rattle.dns_rdata.specs.Data.{minimum_of};
ghost use Rattle.dns_rdata.specs.Record.{owner_of, rtype_of};
ghost use Rattle.dns_rdata.specs.Shown.{records_shown};
ghost use Rattle.zone_tree.specs.Zone.{soa_of};
ghost use Rattle.lookup_core.specs.Sections.{rcode_of, is_referral, authority_of, negative_soa};
ghost use Rattle.lookup_core.specs.Shown.{section_shown, end_shown, AreServersOfEnd};

use crate::additional::MOST_ADDITIONAL;
use crate::aliases::{End, MOST_SHOWN};
use arrayvec::ArrayVec;
use dns_rdata::{LentName, RRset, Rcode, Shown, Ttl};
use std::slice;
use zone_tree::ZoneRead;

/// What an answer says: borrowed sets, under the owners and with the TTLs that it shows.
#[derive(Drop)]
pub struct Answer<'z> {
    /// The reply code (RFC 1035, 4.1.1).
    pub rcode: Rcode,
    /// Whether the answer is authoritative (RFC 1035, 4.1.1).
    pub aa: bool,
    /// The answer section: the aliases followed, each alone, and then the data found.
    pub answer: ArrayVec<Shown<'z>, MOST_SHOWN>,
    /// The authority section: the NS set of a referral, or the SOA of a negative answer.
    pub authority: ArrayVec<Shown<'z>, 1>,
    /// The additional section: address sets of names in the data of the two others.
    pub additional: ArrayVec<Shown<'z>, MOST_ADDITIONAL>,
    /// Whether the last name looked up is at or below a zone cut.
    pub below_cut: bool,
}

/// An answer before its additional section, which these sections tell.
#[derive(Drop)]
pub struct Front<'z> {
    /// The reply code (RFC 1035, 4.1.1).
    pub rcode: Rcode,
    /// Whether the answer is authoritative (RFC 1035, 4.1.1).
    pub aa: bool,
    /// The answer section: the aliases followed, each alone, and then the data found.
    pub answer: ArrayVec<Shown<'z>, MOST_SHOWN>,
    /// The authority section: the NS set of a referral, or the SOA of a negative answer.
    pub authority: ArrayVec<Shown<'z>, 1>,
    /// Whether the last name looked up is at or below a zone cut.
    pub below_cut: bool,
}

impl<'z> Front<'z> {
    /// An empty one, to be filled: NOERROR, with no section.
    pub fn new() -> Front<'z>
        ensures { result.answer.items ≡ [] }
    {
        Front {
            rcode: Rcode::NoError,
            aa: false,
            answer: ArrayVec::new(),
            authority: ArrayVec::new(),
            below_cut: false,
        }
    }
}

/// The reply code is that of the last name looked up (RFC 2308, 2.1; RFC 6604, 3).
pub(crate) fn rcode_of(end: &End<'_>) -> Rcode
    ensures { result ≡ rcode_of (end_shown end.now) }
{
    match end {
        End::NoName => Rcode::NxDomain,
        End::Cut(..) | End::Data(_) | End::NoData | End::Stop => Rcode::NoError,
    }
}

/// Whether the chain ends in a referral (RFC 1034, 4.3.2, step 3b).
pub(crate) fn is_referral(end: &End<'_>) -> bool
    ensures { result ≡ is_referral (end_shown end.now) }
{
    match end {
        End::Cut(..) => true,
        End::Data(_) | End::NoData | End::NoName | End::Stop => false,
    }
}

/// The authority section: the NS set of the zone cut in a referral, the SOA where there is no data or no name, else
/// nothing (RFC 1034, 4.3.2, steps 3b and 3c; RFC 2308, 2.1 and 2.2; own).
pub(crate) fn authority_of<'z, Z: ZoneRead>(zone: &'z Z, end: &End<'z>) -> ArrayVec<Shown<'z>, 1>
    requires { AreServersOfEnd (Z.records zone.now) end.now }
    ensures { section_shown result.items ≡ authority_of (Z.records zone.now) (end_shown end.now) }
{
    let mut authority = ArrayVec::new();
    match end {
        End::Cut(_, servers) => authority.push(unchanged_set(*servers)),
        End::NoData | End::NoName => authority.push(negative_soa(zone)),
        End::Data(_) | End::Stop => {}
    }
    authority
}

/// A set as it stands in the zone: under its own owner, with its own TTL.
pub(crate) fn unchanged_set(set: &RRset) -> Shown<'_>
    ensures records { records_shown result ≡ set.now }
    ensures sets { result.sets.now ≡ set.now ∷ [] }
    ensures owner { result.owner ≡ owner_of set.now }
{
    Shown {
        owner: LentName::stored(set.stored_owner()),
        ttl: None,
        sets: slice::from_ref(set),
    }
}

/// The zone's SOA as a negative answer shows it: with the lesser of its TTL and MINIMUM (RFC 2308, 3 and 5).
pub(crate) fn negative_soa<Z: ZoneRead>(zone: &Z) -> Shown<'_>
    ensures { records_shown result ≡ negative_soa (Z.records zone.now) }
{
    negative_of(zone, zone.soa())
}

/// The same of the zone's SOA, which has one record (RFC 1034, 4.2.1).
pub(crate) fn negative_of<'z, Z: ZoneRead>(zone: &'z Z, soa: &'z RRset) -> Shown<'z>
    requires soa { soa.now ≡ soa_of (Z.records zone.now) }
    requires one { length soa.now ≡ 1 }
    ensures { records_shown result ≡ negative_soa (Z.records zone.now) }
{
    Shown {
        owner: LentName::spelt(zone.apex()),
        ttl: Some(negative_ttl(soa)),
        sets: slice::from_ref(soa),
    }
}

/// The lesser of an SOA's TTL and its MINIMUM (RFC 2308, 3 and 5).
fn negative_ttl(soa: &RRset) -> Ttl
    requires typed { rtype_of soa.now ≡ type_SOA }
    requires one { length soa.now ≡ 1 }
    ensures { All (λ r. min r.ttl (minimum_of r.rdata) ≡ result.0) soa.now }
{
    let numbers = soa.data()[0].soa().unwrap();
    Ttl(soa.ttl().0.min(numbers.minimum.0))
}
