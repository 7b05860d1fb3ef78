//! The rules of a zone, tried one after another.
ghost use Rattle.std.specs.Prelude.{◌≡◌, ◌≤◌, length, All, IfOk, IfErr, OnOk, OnErr};
ghost use Rattle.std.specs.Ordering.{is_lt};
ghost use Rattle.zone_tree.specs.Zone.{IsZone};
ghost use Rattle.zone_tree.specs.Sets.{records_in, set_cmp, IsRRset, AreAscending, AreJudged, AreUnsplit};
ghost use Rattle.zone_tree.specs.Fault.{IsFirstFault, NoneBefore};

use crate::fault::BrokenRule;
use crate::rules::check_rules;
use crate::soa::find_soa;
use crate::zone::MAX_RECORDS;
use dns_name::Name;
use dns_rdata::RRset;

/// The apex of sets that are a zone, and how many records they have.
#[derive(Drop)]
pub(crate) struct Judged {
    pub(crate) apex: Name,
    pub(crate) count: usize,
}

/// What is judged of sets, where they are a zone.
pub(crate) fn check(sets: &[RRset]) -> Result<Judged, BrokenRule>
    ensures judged { IfOk result (λ judged. AreJudged sets.now judged.apex judged.count) }
    ensures refused { OnErr result (AreUnsplit sets.now → IsZone (records_in sets.now) → ⊥) }
    ensures fault { IfErr result (λ fault. IsFirstFault fault sets.now) }
{
    let count = check_count(sets)?;
    check_order(sets)?;
    let soa = find_soa(sets)?;
    let apex = sets[soa].owner();
    check_rules(sets, &apex)?;
    Ok(Judged { apex, count })
}

/// How many records a set has.
pub(crate) fn len_of(set: &RRset) -> usize
    ensures len { result ≡ length set.now }
    ensures lawful { IsRRset set.now }
{
    set.data().len()
}

/// How many records there are, where they aren't too many.
pub(crate) fn check_count(sets: &[RRset]) -> Result<usize, BrokenRule>
    ensures each { OnOk result (All IsRRset sets.now) }
    ensures counted { IfOk result (λ count. count ≡ length (records_in sets.now)) }
    ensures few { OnOk result (length (records_in sets.now) ≤ MAX_RECORDS) }
    ensures fault { IfErr result (λ fault. (fault ≡ BrokenRule.TooManyRecords) × IsFirstFault fault sets.now) }
{
    let mut left = MAX_RECORDS;
    for set in sets {
        let len = len_of(set);
        if left < len {
            return Err(BrokenRule::TooManyRecords);
        }
        left -= len;
    }
    Ok(MAX_RECORDS - left)
}

// Whether a set comes before another, by owner and then type (RFC 4034, 6.1).
fn is_before(set: &RRset, other: &RRset) -> bool
    ensures { result ≡ is_lt (set_cmp set.now other.now) }
{
    set.stored_owner()
        .cmp(other.stored_owner())
        .then(set.rtype().cmp(&other.rtype()))
        .is_lt()
}

/// That each set comes before the next.
pub(crate) fn check_order(sets: &[RRset]) -> Result<(), BrokenRule>
    requires each { All IsRRset sets.now }
    requires first { NoneBefore BrokenRule.NotAscending sets.now }
    ensures rising { OnOk result (AreAscending sets.now) }
    ensures fault { IfErr result (λ fault. (fault ≡ BrokenRule.NotAscending) × IsFirstFault fault sets.now) }
{
    for (i, set) in sets.iter().enumerate() {
        if i > 0 && !is_before(&sets[i - 1], set) {
            return Err(BrokenRule::NotAscending);
        }
    }
    Ok(())
}
