//! Places among the difference sequences of versions (RFC 1995, 4).
ghost use Rattle.std.specs.Prelude.{◌≡◌, ◌+◌, ◌≤◌, ◌<◌, List, [], ◌∷◌, ◌++◌, length, drop, IfOk, IfErr, MatchOption};
ghost use Rattle.std.specs.List.{slice_index_or};
ghost use Rattle.dns_rdata.specs.Record.{Record};
ghost use Rattle.zone_tree.specs.Sets.{records_in};
ghost use Rattle.zone_tree.specs.Zone.{soa_of};
ghost use Rattle.transfer_core.specs.Places.{sets_of_part, step_left, steps_from, left_at};

use crate::chain::ChainView;
use crate::place::{ChangesPlace, Part, Place, StepPlace, at_close};
use dns_rdata::RRset;
use zone_tree::{Version, Zone, ZoneRead};

/// The sets of a part of a version's difference sequence, the SOA apart; None where the version has no such part.
pub(crate) fn part_of(version: &Version, part: Part) -> Option<(&RRset, &[RRset])>
    ensures { MatchOption result
        (sets_of_part part (soa_of version.now.zone) version.now.changes ≡ [])
        (λ sets. sets_of_part part (soa_of version.now.zone) version.now.changes ≡ sets.0.now ∷ sets.1.now) }
{
    let soa = version.zone().soa();
    match (part, version.delta()) {
        (Part::Old, None) => Some((soa, &[])),
        (Part::Old, Some(delta)) => Some((delta.old_soa(), delta.deletions())),
        (Part::New, None) => None,
        (Part::New, Some(delta)) => Some((soa, delta.additions())),
    }
}

/// The set at a place of a part: the SOA, which is set 0, or one of those after it.
fn set_at<'a>(soa: &'a RRset, sets: &'a [RRset], at: usize) -> &'a RRset
    requires { at ≤ length sets.now }
    ensures { (d : List Record) → slice_index_or (soa.now ∷ sets.now) at d ≡ result.now }
{
    if at == 0 {
        return soa;
    }
    &sets[at - 1]
}

/// Where so many records lead from a set of a part on: the set and how many of its records are passed; else how many are to be passed after
/// the part.
fn pass_sets(soa: &RRset, sets: &[RRset], from: usize, sent: usize) -> Result<(usize, u16), usize>
    ensures inside { IfOk result (λ at. (rest : List Record) → drop at.1 (records_in (drop at.0 (soa.now ∷ sets.now)) ++ rest) ≡ drop sent (records_in (drop from (soa.now ∷ sets.now)) ++ rest)) }
    ensures behind { IfErr result (λ left. (rest : List Record) → drop left rest ≡ drop sent (records_in (drop from (soa.now ∷ sets.now)) ++ rest)) }
{
    let mut left = sent;
    for at in from..sets.len() + 1 {
        let count = count_of(set_at(soa, sets, at));
        if left < count {
            return Ok((at, left as u16));
        }
        left -= count;
    }
    Err(left)
}

/// How many records a set has.
fn count_of(set: &RRset) -> usize
    ensures count { result ≡ length set.now }
    ensures few { result ≤ 256 }
{
    set.data().len()
}

/// Where so many records lead from a set of a part of a version's difference sequence on: a place in that part; else how many are to be passed
/// after it.
fn pass_part(version: &Version, part: Part, from: usize, sent: usize) -> Result<StepPlace, usize>
    ensures part { IfOk result (λ at. at.part ≡ part) }
    ensures inside { IfOk result (λ at. (rest : List Record) → drop at.sent (records_in (drop at.set (sets_of_part part (soa_of version.now.zone) version.now.changes)) ++ rest) ≡ drop sent (records_in (drop from (sets_of_part part (soa_of version.now.zone) version.now.changes)) ++ rest)) }
    ensures behind { IfErr result (λ left. (rest : List Record) → drop left rest ≡ drop sent (records_in (drop from (sets_of_part part (soa_of version.now.zone) version.now.changes)) ++ rest)) }
{
    let Some((soa, sets)) = part_of(version, part) else {
        return Err(sent);
    };
    match pass_sets(soa, sets, from, sent) {
        Ok((set, sent)) => Ok(StepPlace { part, set, sent }),
        Err(left) => Err(left),
    }
}

/// Where so many records lead from a set of the first part of a version's difference sequence on: a place in either part; else how many
/// are to be passed after both.
fn pass_both(version: &Version, from: usize, sent: usize) -> Result<StepPlace, usize>
    ensures inside { IfOk result (λ at. (rest : List Record) → drop at.sent (step_left at.part at.set (soa_of version.now.zone) version.now.changes ++ rest) ≡ drop sent (step_left Part.Old from (soa_of version.now.zone) version.now.changes ++ rest)) }
    ensures behind { IfErr result (λ left. (rest : List Record) → drop left rest ≡ drop sent (step_left Part.Old from (soa_of version.now.zone) version.now.changes ++ rest)) }
{
    match pass_part(version, Part::Old, from, sent) {
        Ok(at) => Ok(at),
        Err(left) => pass_part(version, Part::New, 0, left),
    }
}

/// The same from a set of either part on.
fn pass_step(version: &Version, part: Part, from: usize, sent: usize) -> Result<StepPlace, usize>
    ensures inside { IfOk result (λ at. (rest : List Record) → drop at.sent (step_left at.part at.set (soa_of version.now.zone) version.now.changes ++ rest) ≡ drop sent (step_left part from (soa_of version.now.zone) version.now.changes ++ rest)) }
    ensures behind { IfErr result (λ left. (rest : List Record) → drop left rest ≡ drop sent (step_left part from (soa_of version.now.zone) version.now.changes ++ rest)) }
{
    match part {
        Part::Old => pass_both(version, from, sent),
        Part::New => pass_part(version, Part::New, from, sent),
    }
}

/// The version at a place of a chain.
pub(crate) fn version_at<C: ChainView>(chain: &C, at: usize) -> &Version
    requires { at < length (C.versions chain.now) }
    ensures { drop at (C.versions chain.now) ≡ result.now ∷ drop (at + 1) (C.versions chain.now) }
{
    match chain.version(at) {
        Some(version) => version,
        None => unreachable!(),
    }
}

/// The place after so many records of the list of what changed from a set of a version's difference sequence on.
pub(crate) fn in_changes<C: ChainView>(
    zone: &Zone,
    chain: &C,
    version: usize,
    part: Part,
    set: usize,
    sent: usize,
) -> Place
    ensures { left_at zone.now (C.versions chain.now) result ≡ drop sent (steps_from part set (drop version (C.versions chain.now)) ++ soa_of zone.now) }
{
    let mut begun = part;
    let mut from = set;
    let mut left = sent;
    for at in version..chain.len() {
        left = match pass_step(version_at(chain, at), begun, from, left) {
            Ok(step) => return Place::InChanges(ChangesPlace { version: at, step }),
            Err(more) => more,
        };
        begun = Part::Old;
        from = 0;
    }
    at_close(zone, left)
}
