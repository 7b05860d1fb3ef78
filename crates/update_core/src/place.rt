//! What stands at a record's owner while the records of an update are taken: it is looked up once (RFC 2136, 3.4.2).
ghost use Rattle.std.specs.Prelude.{◌≡◌, ◌↔◌, true, [], IsNone, IfSome};
ghost use Rattle.std.specs.List.{flat_map};
ghost use Rattle.dns_name.specs.Name.{fold_name, is_same};
ghost use Rattle.zone_tree.specs.Zone.{IsZone, apex_of, rrset_of, rrsets_of};
ghost use Rattle.zone_tree.specs.Sets.{records_in, AreWhole};
ghost use Rattle.zone_tree.specs.Version.{zone_serial};
ghost use Rattle.update_core.specs.Verdict.{is_in_use};

use crate::overlay::Overlay;
use crate::own_sets::set_of_type;
use crate::tagged::TaggedName;
use dns_name::Name;
use dns_rdata::{RRset, RType, Serial};
use std::marker::Model;
use zone_tree::serial_in;

/// An owner, what stands there, and the zone about it. Contracts see the zone's records, with those that were taken, and the owner.
#[derive(Drop)]
pub(crate) struct Place<'a> {
    zone: &'a Overlay<'a>,
    owner: &'a Name,
    sets: &'a [RRset],
}

impl<'a> Model for Place<'a> {
    ghost use Rattle.update_core.specs.Overlay.{Placed, AreThere};

    ghost Value = { Placed };

    ghost view = { λ a. record { made = a.zone.now.made; owner = a.owner.now } };

    ghost invariant = { λ a. AreThere a.zone.now.made a.owner.now a.sets.now };
}

impl<'a> Place<'a> {
    /// The place of an owner, which is also given as it is sought.
    pub(crate) fn new(zone: &'a Overlay<'a>, owner: &'a Name, tagged: &TaggedName) -> Place<'a>
        requires { tagged.now ≡ fold_name owner.now }
        ensures made { result.made ≡ zone.now.made }
        ensures owner { result.owner ≡ owner.now }
    {
        zone.check();
        Place {
            zone,
            owner,
            sets: zone.sets_at(tagged),
        }
    }

    /// That the zone is one.
    fn check(&self)
        ensures { IsZone self.now.made }
    {
        let _sets = self.sets;
    }

    /// The zone's apex, which no record changes.
    pub(crate) fn apex(&self) -> &Name
        ensures { result.now ≡ apex_of self.now.made }
    {
        self.zone.apex()
    }

    /// Its set of a type; None where there is no such record (RFC 2181, 5).
    pub(crate) fn rrset(&self, rtype: RType) -> Option<&RRset>
        ensures none { IsNone result ↔ (rrset_of self.now.made self.now.owner rtype.0 ≡ []) }
        ensures set { IfSome result (λ set. set.now ≡ rrset_of self.now.made self.now.owner rtype.0) }
    {
        set_of_type(self.sets, rtype)
    }

    /// All its sets, each in whole, by type number.
    pub(crate) fn rrsets(&self) -> &[RRset]
        ensures records { flat_map (λ set. set) result.now ≡ rrsets_of self.now.made self.now.owner }
        ensures whole { AreWhole self.now.made result.now }
    {
        self.sets
    }

    /// Whether it owns a record.
    pub(crate) fn is_in_use(&self) -> bool
        ensures { result ≡ is_in_use self.now.made self.now.owner }
    {
        !self.rrsets().is_empty()
    }

    /// The zone's serial, where it is the apex: that of the SOA there (RFC 1035, 3.3.13).
    pub(crate) fn serial(&self) -> Serial
        requires { is_same self.now.owner (apex_of self.now.made) ≡ true }
        ensures { result.0 ≡ zone_serial self.now.made }
    {
        self.check();
        match self.rrset(RType::SOA) {
            Some(soa) => serial_in(soa),
            None => unreachable!(),
        }
    }
}
