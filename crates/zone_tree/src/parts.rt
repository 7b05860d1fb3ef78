//! The rules of a zone by themselves, for those who seek what breaks one.
ghost use Rattle.std.specs.Prelude.{◌≡◌, ◌≢◌, ◌≤◌, ◌==◌, ◌&&◌, ◌||◌, ◌⊎◌, not, [], length, IfOk, IfErr, OnOk};
ghost use Rattle.std.specs.Bool.{OnFalse, OnTrue};
ghost use Rattle.std.specs.List.{list_any};
ghost use Rattle.dns_rdata.specs.Numbers.{type_NS};
ghost use Rattle.zone_tree.specs.Zone.{apex_of, soa_of, rrset_of, is_alone, is_wild};
ghost use Rattle.zone_tree.specs.Sets.{records_in, AreAscending};
ghost use Rattle.zone_tree.specs.Fault.{IsFirstFault, place_of_rule};

use crate::check::{check_count, check_order};
use crate::fault::BrokenRule;
use crate::rules::{has_crowded_alias, has_name_server, has_wild_cut};
use crate::soa::find_soa;
use crate::zone::MAX_RECORDS;
use dns_name::Name;
use dns_rdata::RRset;

/// The owner of the one SOA of sets.
#[derive(Drop)]
pub struct Apex {
    /// The owner, in lower case.
    pub name: Name,
    /// Whether an NS stands at it.
    pub has_name_server: bool,
}

/// The apex of sets; else the first rule that they break, up to that of one SOA (RFC 1035, 5.2).
pub fn find_apex(sets: &[RRset]) -> Result<Apex, BrokenRule>
    ensures apex { IfOk result (λ apex. apex.name ≡ apex_of (records_in sets.now)) }
    ensures served { IfOk result (λ apex. OnTrue apex.has_name_server (rrset_of (records_in sets.now) (apex_of (records_in sets.now)) type_NS ≢ [])) }
    ensures unserved { IfOk result (λ apex. OnFalse apex.has_name_server (rrset_of (records_in sets.now) (apex_of (records_in sets.now)) type_NS ≡ [])) }
    ensures one { OnOk result (length (soa_of (records_in sets.now)) ≡ 1) }
    ensures fault { IfErr result (λ fault. IsFirstFault fault sets.now) }
    ensures early { IfErr result (λ fault. place_of_rule fault ≤ 4) }
{
    check_count(sets)?;
    check_order(sets)?;
    let soa = find_soa(sets)?;
    let name = sets[soa].owner();
    let has_name_server = has_name_server(sets, &name);
    Ok(Apex {
        name,
        has_name_server,
    })
}

/// Whether an alias stands beside another record of sets, or an NS at an owner whose first label is `*` (RFC 1034, 3.6.2;
/// RFC 4592, 4.2; own). `TooManyRecords` and `NotAscending` where the sets are so.
pub fn has_conflict(sets: &[RRset]) -> Result<bool, BrokenRule>
    ensures conflict { IfOk result (λ shown. shown ≡ (list_any (λ r. not (is_alone (records_in sets.now) r)) (records_in sets.now)
        || list_any (λ r. is_wild r.owner && r.rtype == type_NS) (records_in sets.now))) }
    ensures rising { OnOk result (AreAscending sets.now) }
    ensures few { OnOk result (length (records_in sets.now) ≤ MAX_RECORDS) }
    ensures fault { IfErr result (λ fault. ((fault ≡ BrokenRule.TooManyRecords) ⊎ (fault ≡ BrokenRule.NotAscending)) × IsFirstFault fault sets.now) }
{
    check_count(sets)?;
    check_order(sets)?;
    Ok(has_crowded_alias(sets) || has_wild_cut(sets))
}
