//! What an update makes of a zone (RFC 2136, 3.4 and 3.6).
ghost use Rattle.std.specs.Prelude.{◌≡◌, ◌≢◌, ◌+◌, ◌<◌, ◌^◌, if◌then◌else◌, unwrap_or, map, None, Some, IfOk, IfSome, MatchOption};
ghost use Rattle.std.specs.Result.{IsErrOf};
ghost use Rattle.dns_rdata.specs.declared.numbers.Rcode.{Rcode as Code};
ghost use Rattle.dns_rdata.specs.SerialOrder.{serial_less, serial_next};
ghost use Rattle.zone_tree.specs.Zone.{IsZone, soa_of};
ghost use Rattle.zone_tree.specs.Version.{zone_serial, AreChanges};
ghost use Rattle.update_core.specs.Verdict.{prescan, verdict};
ghost use Rattle.update_core.specs.Act.{effects, act, at_serial};
ghost use Rattle.update_core.specs.Applied.{IsTold, code_told, next_of, outcome_of};

use crate::effects::after_all;
use crate::judgement::verdict;
use crate::rows::{ActFault, one_change};
use dns_message::Update;
use dns_name::Name;
use dns_rdata::{RRset, RawRecord, Rcode, Serial};
use std::alloc::{AllocError, Global};
use zone_tree::{Change, Delta, Version, Zone, ZoneFault, ZoneRead, edit};

/// What becomes of an update.
#[derive(Drop)]
pub enum Outcome {
    /// It breaks a rule, or it passes a limit and is told SERVFAIL (RFC 2136, 3; own). Nothing has changed.
    Refused(Rcode),
    /// It is taken and changes nothing.
    Unchanged,
    /// It makes this version.
    Next(Version),
    /// A growth was refused. Nothing has changed.
    NoMemory,
}

impl Outcome {
    /// The code that is told of it: the one that refuses the update, SERVFAIL where a growth was refused, else NOERROR (RFC 2136, 3; own).
    pub fn code(&self) -> Rcode
        ensures { result ≡ code_told self.now }
    {
        match self {
            Outcome::Refused(code) => *code,
            Outcome::Unchanged | Outcome::Next(_) => Rcode::NoError,
            Outcome::NoMemory => Rcode::ServFail,
        }
    }

    /// The version that the update makes; None where it makes none.
    pub fn next(self) -> Option<Version>
        ensures { result ≡ next_of self }
    {
        match self {
            Outcome::Next(next) => Some(next),
            _ => None,
        }
    }
}

/// A zone that an update makes of another, and what it changed of that (RFC 1995, 4).
#[derive(Drop)]
struct Made {
    zone: Zone,
    delta: Delta,
}

/// What an update makes of a version's zone, sent by a peer that may update, or may not (RFC 2136, 3). The version stays as
/// it is; the one after it has the next number, a greater serial, and what it changed (RFC 2136, 3.6; RFC 1982, 3.2; RFC
/// 1995, 4).
///
/// An update costs a path of the zone's tree for each owner that it changes: no call goes over the whole zone.
pub fn apply(alloc: Global, version: &Version, update: &Update, may: bool) -> Outcome
    requires { version.now.number + 1 < 2 ^ 64 }
    ensures reported { IsTold version.now update.now may result }
    // A rule that is broken is told before any memory is asked for.
    ensures refused { (code : Code) → verdict version.now.zone update.now may ≡ Some code → result ≡ Outcome.Refused code }
{
    let zone = version.zone();
    if let Err(code) = verdict(zone, update, may) {
        return Outcome::Refused(code);
    }
    outcome_of(version, made_by(alloc, zone, update))
}

/// What becomes of an update that breaks no rule, by what its records make (RFC 2136, 3.4.2 and 3.6; own).
fn outcome_of(version: &Version, made: Result<Option<Made>, ActFault>) -> Outcome
    requires counted { version.now.number + 1 < 2 ^ 64 }
    requires changes { IfOk made (λ next. IfSome next (λ it. AreChanges it.delta version.now.zone it.zone)) }
    ensures { result ≡ outcome_of version.now made }
{
    match made {
        Ok(Some(made)) => Outcome::Next(version.next(made.zone, made.delta)),
        Ok(None) => Outcome::Unchanged,
        Err(ActFault::Limit) => Outcome::Refused(Rcode::ServFail),
        Err(ActFault::NoMemory) => Outcome::NoMemory,
    }
}

/// What an update makes that each rule let through; None where it changes nothing (RFC 2136, 3.4.2 and 3.6).
fn made_by(alloc: Global, zone: &Zone, update: &Update) -> Result<Option<Made>, ActFault>
    requires passed { prescan zone.now update.now.updates ≡ None }
    ensures next { IfOk result (λ next. MatchOption next (act zone.now update.now ≡ Some zone.now) (λ made. (act zone.now update.now ≡ Some made.zone) × (made.zone ≢ zone.now) × AreChanges made.delta zone.now made.zone)) }
    ensures limit { IsErrOf result ActFault.Limit → act zone.now update.now ≡ None }
{
    let raws = update.updates.as_slice();
    let Some(after) = after_all(alloc, zone, raws)? else {
        return Ok(None);
    };
    let made = with_delta(alloc, zone, after, raws)?;
    Ok(Some(made))
}

/// What an update makes whose records changed a zone, with what it changed.
fn with_delta(
    alloc: Global,
    zone: &Zone,
    after: Zone,
    raws: &[RawRecord],
) -> Result<Made, AllocError>
    requires { effects zone.now raws.now ≡ Some after }
    ensures zone { IfOk result (λ made. made.zone ≡ (if serial_less (zone_serial zone.now) (zone_serial after) then after else at_serial (serial_next (zone_serial zone.now)) after)) }
    ensures changes { IfOk result (λ made. AreChanges made.delta zone.now made.zone) }
{
    let next = completed(alloc, zone, after)?;
    let delta = Delta::between(alloc, zone, &next, owners_of(alloc, raws)?)?;
    Ok(Made { zone: next, delta })
}

/// The owners of records.
fn owners_of(alloc: Global, raws: &[RawRecord]) -> Result<Vec<Name>, AllocError>
    ensures { IfOk result (λ owners. owners.items ≡ map (λ r. r.owner) raws.now) }
{
    raws.iter().map(|raw| raw.owner.copy()).collect(alloc)
}

/// A changed zone with a serial that is greater than the old zone's: the update's own, or the one after the old one's
/// (RFC 2136, 3.6; RFC 1982, 3).
fn completed(alloc: Global, zone: &Zone, after: Zone) -> Result<Zone, AllocError>
    ensures { IfOk result (λ next. next ≡ (if serial_less (zone_serial zone.now) (zone_serial after) then after else at_serial (serial_next (zone_serial zone.now)) after)) }
{
    if zone.serial().less(after.serial()) {
        return Ok(after);
    }
    with_serial(alloc, &after, zone.serial().next())
}

/// A zone with another serial.
fn with_serial(alloc: Global, zone: &Zone, serial: Serial) -> Result<Zone, AllocError>
    ensures { IfOk result (λ next. next ≡ at_serial serial.0 zone.now) }
{
    let changes = one_change(alloc, Change::Put(soa_at(alloc, zone, serial)?))?;
    match edit(alloc, zone, &changes) {
        Ok(next) => Ok(next),
        Err(ZoneFault::NoMemory) => Err(AllocError),
        Err(ZoneFault::Limit) => unreachable!(),
    }
}

/// The set of a zone's SOA with another serial.
fn soa_at(alloc: Global, zone: &Zone, serial: Serial) -> Result<RRset, AllocError>
    ensures set { IfOk result (λ set. set ≡ at_serial serial.0 (soa_of zone.now)) }
    ensures lawful { IsZone zone.now }
{
    let soa = zone.soa();
    let rdata = soa.data()[0].with_serial(alloc, serial)?;
    RRset::new(alloc, &soa.owner(), soa.ttl(), rdata)
}
