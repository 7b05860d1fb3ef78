//! The set of a zone's SOA.
ghost use Rattle.std.specs.Prelude.{◌≡◌, ◌==◌, ◌⊎◌, length, position, IfOk, IfErr, OnOk};
ghost use Rattle.std.specs.List.{list_any};
ghost use Rattle.dns_rdata.specs.Numbers.{type_SOA};
ghost use Rattle.dns_rdata.specs.Record.{rtype_of};
ghost use Rattle.zone_tree.specs.Zone.{soa_of};
ghost use Rattle.zone_tree.specs.Sets.{records_in, AreAscending, IsPlaceOf};
ghost use Rattle.zone_tree.specs.Fault.{IsFirstFault, NoneBefore};

use crate::check::len_of;
use crate::fault::BrokenRule;
use dns_rdata::{RRset, RType};

// The place of the first set of type SOA.
fn soa_place(sets: &[RRset]) -> Option<usize>
    ensures { result ≡ position (λ set. rtype_of set == type_SOA) sets.now }
{
    sets.iter().position(|set| set.rtype() == RType::SOA)
}

// Whether any set is of type SOA.
fn has_soa(sets: &[RRset]) -> bool
    ensures { result ≡ list_any (λ set. rtype_of set == type_SOA) sets.now }
{
    sets.iter().any(|set| set.rtype() == RType::SOA)
}

/// The place of the SOA's set, which is the only one of its type and has one record.
pub(crate) fn find_soa(sets: &[RRset]) -> Result<usize, BrokenRule>
    requires rising { AreAscending sets.now }
    requires first { NoneBefore BrokenRule.NoSoa sets.now }
    ensures found { IfOk result (IsPlaceOf sets.now (soa_of (records_in sets.now))) }
    ensures one { OnOk result (length (soa_of (records_in sets.now)) ≡ 1) }
    ensures fault { IfErr result (λ fault. ((fault ≡ BrokenRule.NoSoa) ⊎ (fault ≡ BrokenRule.SecondSoa)) × IsFirstFault fault sets.now) }
{
    let Some(at) = soa_place(sets) else {
        return Err(BrokenRule::NoSoa);
    };
    if has_soa(&sets[at + 1..]) {
        return Err(BrokenRule::SecondSoa);
    }
    if len_of(&sets[at]) > 1 {
        return Err(BrokenRule::SecondSoa);
    }
    Ok(at)
}
