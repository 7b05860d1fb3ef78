//! The list of what changed since an older version (RFC 1995, 4).
ghost use Rattle.std.specs.Iterator.{YieldsFirst, item_count};
ghost use Rattle.std.specs.Prelude.{◌≡◌, ◌+◌, ◌^◌, ◌<◌, ◌++◌, [], ◌∷◌, ℕ, List, length, drop, map, MatchOption, Ok, unwrap_or};
ghost use Rattle.std.specs.Option.{option_copied};
ghost use Rattle.dns_rdata.specs.Record.{Record};
ghost use Rattle.zone_tree.specs.Zone.{soa_of};
ghost use Rattle.transfer_core.specs.Chain.{zones_of, LeadTo, told_step, reported};
ghost use Rattle.transfer_core.specs.Lists.{incremental, as_sent, AreVersions};
ghost use Rattle.transfer_core.specs.Places.{sets_of_part, step_left, steps_from};
ghost use Rattle.transfer_core.specs.Take.{take};
ghost use Rattle.zone_tree.specs.Sets.{records_in};

use crate::chain::{ChainView, VersionsLeft};
use crate::list::{LentRecord, SetRecords};
use crate::place::Part;
use crate::step::{part_of, version_at};
use dns_rdata::RRset;
use std::marker::Model;
use zone_tree::{Version, Zone, ZoneRead};

/// Half of a difference sequence: an SOA, and the sets that are taken out or put in (RFC 1995, 4).
#[derive(Drop)]
struct Half<'a> {
    soa: &'a RRset,
    sets: &'a [RRset],
}

impl<'a> Model for Half<'a> {
    ghost use Rattle.std.specs.Prelude.{List, ◌++◌};
    ghost use Rattle.dns_rdata.specs.Record.{Record};
    ghost use Rattle.zone_tree.specs.Sets.{records_in};

    ghost Value = { List Record };

    ghost view = { λ half. half.soa.now ++ records_in half.sets.now };
}

/// The difference sequence of a version: the old SOA with the deletions, its own SOA with the additions. Of a version that
/// knows of no change its SOA alone (RFC 1995, 4).
fn halves(version: &Version) -> (Half<'_>, Option<Half<'_>>)
    ensures { result.0 ++ unwrap_or result.1 [] ≡ told_step (soa_of version.now.zone) version.now.changes }
{
    let soa = version.zone().soa();
    match version.delta() {
        None => (Half { soa, sets: &[] }, None),
        Some(delta) => {
            let taken_out = Half {
                soa: delta.old_soa(),
                sets: delta.deletions(),
            };
            let put_in = Half {
                soa,
                sets: delta.additions(),
            };
            (taken_out, Some(put_in))
        }
    }
}

/// The sets of a list of what changed that are left.
struct SetsLeft<'a, C: ChainView> {
    /// Of the half that was begun.
    sets: &'a [RRset],
    /// The half that comes then.
    half: Option<Half<'a>>,
    /// The versions whose difference sequences come then.
    versions: VersionsLeft<'a, C>,
    /// The SOA that closes the list.
    closing: Option<&'a RRset>,
}

impl<'a, C: ChainView> Model for SetsLeft<'a, C> {
    ghost use Rattle.std.specs.Prelude.{List};
    ghost use Rattle.std.specs.Option.{option_copied};
    ghost use Rattle.dns_rdata.specs.Record.{Record};
    ghost use Rattle.transfer_core.specs.Chain.{steps_left};

    ghost Value = { List Record };

    ghost view = { λ left. steps_left left.sets.now left.half left.versions (option_copied left.closing) };
}

impl<'a, C: ChainView> Drop for SetsLeft<'a, C> {
    fn drop(self) {
        let SetsLeft {
            sets: _,
            half: _,
            versions: _,
            closing: _,
        } = self;
    }
}

impl<'a, C: ChainView> SetsLeft<'a, C> {
    /// The next set: of the half that was begun, else the SOA of the next half, else the one that closes the list.
    fn next_set(&mut self) -> Option<&'a RRset>
        ensures { MatchOption (option_copied result) ((self.old ≡ []) × (self.new ≡ [])) (λ set. self.old ≡ set ++ self.new) }
    {
        if let Some((set, rest)) = self.sets.split_first() {
            self.sets = rest;
            return Some(set);
        }
        let next = match self.half.take() {
            Some(half) => half,
            None => {
                let Some(version) = self.versions.next_version() else {
                    return self.closing.take();
                };
                let (first, second) = halves(version);
                self.half = second;
                first
            }
        };
        self.sets = next.sets;
        Some(next.soa)
    }
}

/// The list of what changed, as far as it is left: the SOA that is served, for each version after the one that the asker
/// holds its difference sequence (the old SOA, the deletions, its own SOA, the additions), the SOA that is served again
/// (RFC 1995, 4). It takes no memory. Contracts see the records that are left.
pub struct ChangesList<'a, C: ChainView> {
    rest: SetRecords<'a>,
    sets: SetsLeft<'a, C>,
}

impl<'a, C: ChainView> Model for ChangesList<'a, C> {
    ghost use Rattle.std.specs.Prelude.{List, ◌++◌};
    ghost use Rattle.dns_rdata.specs.Record.{Record};

    ghost Value = { List Record };

    ghost view = { λ list. list.rest ++ list.sets };
}

impl<'a, C: ChainView> Drop for ChangesList<'a, C> {
    fn drop(self) {
        let ChangesList { rest: _, sets: _ } = self;
    }
}

/// The list of what changed up to the zone that is served, through the versions of a chain: its SOA, the versions' difference
/// sequences, its SOA again (RFC 1995, 4). It takes no memory. A holder of the zone from which the chain leads to the one that
/// is served holds that one when it has taken the list.
pub fn steps<'a, Z: ZoneRead, C: ChainView>(served: &'a Z, chain: &'a C) -> ChangesList<'a, C>
    ensures reported { result ≡ reported (soa_of (Z.records served.now)) (C.versions chain.now) }
    ensures list { (zone : List Record) → LeadTo zone (C.versions chain.now) (Z.records served.now) → result ≡ incremental zone (zones_of (C.versions chain.now)) }
    ensures taken { (zone : List Record) → LeadTo zone (C.versions chain.now) (Z.records served.now) → AreVersions zone (zones_of (C.versions chain.now)) → take zone (map as_sent result) ≡ Ok (Z.records served.now) }
{
    let soa = served.soa();
    ChangesList {
        rest: SetRecords::new(soa),
        sets: SetsLeft {
            sets: &[],
            half: None,
            versions: VersionsLeft::new(chain, 0),
            closing: Some(soa),
        },
    }
}

impl<'a, C: ChainView> Iterator for ChangesList<'a, C> {
    type Item = LentRecord<'a>;

    ghost next_gives = { YieldsFirst (λ list. list) };

    ghost remaining = { item_count (λ list. list) };

    fn next(&mut self) -> Option<LentRecord<'a>> {
        if let Some(record) = self.rest.next() {
            return Some(record);
        }
        let set = self.sets.next_set()?;
        self.rest = SetRecords::new(set);
        self.rest.next()
    }
}

/// A part of a difference sequence after so many of its sets, of which its SOA is the first: that SOA, where it is left, and the sets
/// after it that are left.
fn part_behind<'a>(soa: &'a RRset, sets: &'a [RRset], sent: usize) -> (SetRecords<'a>, &'a [RRset])
    ensures { result.0 ++ records_in result.1.now ≡ records_in (drop sent (soa.now ∷ sets.now)) }
{
    match sent.checked_sub(1) {
        None => (SetRecords::new(soa), sets),
        Some(behind) => (SetRecords::none(soa), sets.get(behind..).unwrap_or(&[])),
    }
}

/// The same of a part of a version's; of one that it hasn't nothing is left.
fn part_left(version: &Version, part: Part, sent: usize) -> (SetRecords<'_>, &[RRset])
    ensures { result.0 ++ records_in result.1.now ≡ records_in (drop sent (sets_of_part part (soa_of version.now.zone) version.now.changes)) }
{
    match part_of(version, part) {
        Some((soa, sets)) => part_behind(soa, sets, sent),
        None => (SetRecords::none(version.zone().soa()), &[]),
    }
}

/// The part after a part of a version's difference sequence; None where there is none.
fn part_after(version: &Version, part: Part) -> Option<Half<'_>>
    ensures { (sent : ℕ) → records_in (drop sent (sets_of_part part (soa_of version.now.zone) version.now.changes)) ++ unwrap_or result [] ≡ step_left part sent (soa_of version.now.zone) version.now.changes }
{
    match part {
        Part::New => None,
        Part::Old => {
            let (soa, sets) = part_of(version, Part::New)?;
            Some(Half { soa, sets })
        }
    }
}

/// The list of what changed after all versions: the SOA that is served (RFC 1995, 4).
fn closing_list<'a, C: ChainView>(served: &'a Zone, chain: &'a C) -> ChangesList<'a, C>
    ensures { result ≡ soa_of served.now }
{
    let soa = served.soa();
    ChangesList {
        rest: SetRecords::none(soa),
        sets: SetsLeft {
            sets: &[],
            half: None,
            versions: VersionsLeft::new(chain, chain.len()),
            closing: Some(soa),
        },
    }
}

/// The list of what changed from a set of a part of the difference sequence of a version that is there.
fn begun_list<'a, C: ChainView>(
    served: &'a Zone,
    chain: &'a C,
    version: usize,
    part: Part,
    set: usize,
) -> ChangesList<'a, C>
    requires there { version < length (C.versions chain.now) }
    requires fits { version + 1 < 2 ^ 64 }
    ensures { result ≡ steps_from part set (drop version (C.versions chain.now)) ++ soa_of served.now }
{
    let soa = served.soa();
    let current = version_at(chain, version);
    let (rest, sets) = part_left(current, part, set);
    let half = part_after(current, part);
    ChangesList {
        rest,
        sets: SetsLeft {
            sets,
            half,
            versions: VersionsLeft::new(chain, version + 1),
            closing: Some(soa),
        },
    }
}

/// The list of what changed from a set of a part of a version's difference sequence on: what is left of that, the difference sequences of
/// the versions after it, the SOA that is served (RFC 1995, 4). It takes no memory.
pub(crate) fn changes_from<'a, C: ChainView>(
    served: &'a Zone,
    chain: &'a C,
    version: usize,
    part: Part,
    set: usize,
) -> ChangesList<'a, C>
    ensures { result ≡ steps_from part set (drop version (C.versions chain.now)) ++ soa_of served.now }
{
    if version < chain.len() {
        return begun_list(served, chain, version, part, set);
    }
    closing_list(served, chain)
}
