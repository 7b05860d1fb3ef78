//! What a search asks of a zone.
ghost use Rattle.std.specs.Prelude.{◌≡◌, ◌↔◌, List, [], length, IsNone, IfSome, Some};
ghost use Rattle.std.specs.List.{find, flat_map};
ghost use Rattle.dns_name.specs.Name.{self_and_ancestors};
ghost use Rattle.dns_rdata.specs.Record.{Record};
ghost use Rattle.zone_tree.specs.Zone.{IsZone, rrset_of, rrsets_of, exists, soa_of, apex_of};
ghost use Rattle.zone_tree.specs.Sets.{AreWhole, sets_in};

use crate::walk::Walk;
use dns_name::{Name, Sought};
use dns_rdata::{RRset, RType};

/// What stands at a name, and what exists above it.
#[derive(Drop)]
pub struct Near<'z, 'r> {
    /// All sets of the name, each in whole, by type number: none where it owns nothing.
    pub sets: &'z [RRset],
    /// Of the name and its ancestors that exist, the one with most labels (RFC 4592, 3.3.1).
    pub closest: Sought<'r>,
}

/// A zone that can be searched. Contracts see the list of its records, which are a zone.
pub trait ZoneRead {
    ghost records: { Self → List Record };

    /// The apex: the owner of the SOA (RFC 1034, 4.2).
    fn apex(&self) -> &Name
        ensures { result.now ≡ apex_of (records self.now) };

    /// The set of an owner and a type; None where the zone has no such record (RFC 2181, 5).
    fn rrset(&self, owner: &Name, rtype: RType) -> Option<&RRset>
        ensures none { IsNone result ↔ (rrset_of (records self.now) owner.now rtype.0 ≡ []) }
        ensures set { IfSome result (λ set. set.now ≡ rrset_of (records self.now) owner.now rtype.0) };

    /// All sets of an owner, each in whole, by type number.
    fn rrsets_at(&self, owner: &Name) -> &[RRset]
        ensures records { flat_map (λ set. set) result.now ≡ rrsets_of (records self.now) owner.now }
        ensures whole { AreWhole (records self.now) result.now };

    /// All sets of an owner that is sought, each in whole, by type number.
    fn sets_at(&self, owner: &Sought<'_>) -> &[RRset]
        ensures records { flat_map (λ set. set) result.now ≡ rrsets_of (records self.now) owner.now }
        ensures whole { AreWhole (records self.now) result.now };

    /// All sets of a name, and the closest of it and its ancestors that exist, by one search.
    fn around<'r>(&self, name: &Sought<'r>) -> Near<'_, 'r>
        ensures records { flat_map (λ set. set) result.sets.now ≡ rrsets_of (records self.now) name.now }
        ensures whole { AreWhole (records self.now) result.sets.now }
        ensures closest { find (exists (records self.now)) (self_and_ancestors name.now) ≡ Some result.closest };

    /// Whether a name exists: it or a name below it owns a record (RFC 4592, 2.2.3).
    fn exists(&self, name: &Name) -> bool
        ensures { result ≡ exists (records self.now) name.now };

    /// The set of the SOA, which has one record (RFC 1034, 4.2.1). The records are a zone.
    fn soa(&self) -> &RRset
        ensures set { result.now ≡ soa_of (records self.now) }
        ensures one { length result.now ≡ 1 }
        ensures lawful { IsZone (records self.now) };

    /// All sets, each in whole, in canonical order (RFC 4034, 6.1). It takes no memory.
    fn walk(&self) -> Walk<'_>
        ensures sets { result ≡ sets_in (records self.now) }
        ensures records { flat_map (λ set. set) result ≡ records self.now };
}
