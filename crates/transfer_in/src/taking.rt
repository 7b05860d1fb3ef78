//! How far a list has been taken, over messages that come one after another (RFC 5936, 2.2; RFC 1995, 4).
ghost use Rattle.std.specs.Prelude.{◌≡◌, ◌≢◌, ◌⊎◌, ◌∷◌, [], true, IfOk, IfErr, OnErr, Some, None, Ok, Err};
ghost use Rattle.dns_rdata.specs.Record.{IsLawful};
ghost use Rattle.zone_tree.specs.Zone.{IsZone, apex_of};
ghost use Rattle.transfer_core.specs.Take.{entered, is_soa, behind_first};
ghost use Rattle.transfer_in.specs.ListState.{Tells};
ghost use Rattle.transfer_in.specs.Taking.{TellsRead, IsKept, behind, unreadable, records_of_message};

use crate::ended::same_zone;
use crate::held::HeldRecord;
use crate::reading::Reading;
use dns_message::received_records;
use dns_name::Name;
use dns_rdata::{Class, RType, RawRecord};
use std::alloc::{AllocError, Global};
use transfer_core::TransferFault;
use zone_tree::{Zone, ZoneRead};

/// How far a list has been taken.
#[derive(Drop)]
pub(crate) enum Progress {
    /// No record was read.
    Nothing,
    /// The SOA that opens the list was.
    Opened(HeldRecord),
    /// Others were, after it.
    Under(Reading),
}

/// A sent record as it enters a zone. `Broken` where it can't.
fn enter(alloc: Global, sent: &RawRecord) -> Result<HeldRecord, TransferFault>
    ensures entered { IfOk result (λ one. entered sent.now ≡ Some one) }
    ensures lawful { IfOk result IsLawful }
    ensures refused { IfErr result (λ fault. (fault ≡ TransferFault.NoMemory) ⊎ ((fault ≡ TransferFault.Broken) × (entered sent.now ≡ None))) }
{
    match HeldRecord::entered(alloc, sent)? {
        Some(one) => Ok(one),
        None => Err(TransferFault::Broken),
    }
}

impl Progress {
    /// What one more record makes of what was read.
    fn read(self, alloc: Global, zone: &Zone, sent: &RawRecord) -> Result<Progress, TransferFault>
        requires { IsKept (apex_of zone.now) self }
        ensures reported { TellsRead zone.now self (sent.now ∷ []) result }
        ensures kept { IfOk result (IsKept (apex_of zone.now)) }
    {
        match self {
            Progress::Nothing => open(alloc, zone, sent),
            Progress::Opened(first) => read_second(alloc, zone, first, sent),
            Progress::Under(reading) => go_on(alloc, zone, reading, sent),
        }
    }

    /// What more records make of what was read.
    fn read_all(
        self,
        alloc: Global,
        zone: &Zone,
        records: &[RawRecord],
    ) -> Result<Progress, TransferFault>
        requires { IsKept (apex_of zone.now) self }
        ensures reported { TellsRead zone.now self records.now result }
        ensures kept { IfOk result (IsKept (apex_of zone.now)) }
        ensures none { records.now ≡ [] → result ≡ Ok self }
    {
        let mut progress = self;
        for sent in records {
            progress = progress.read(alloc, zone, sent)?;
        }
        Ok(progress)
    }

    /// What a message makes of what was read.
    pub(crate) fn read_message(
        self,
        alloc: Global,
        zone: &Zone,
        message: &[u8],
    ) -> Result<Progress, TransferFault>
        requires { IsKept (apex_of zone.now) self }
        ensures reported { TellsRead zone.now self (records_of_message message.now) result }
        ensures kept { IfOk result (IsKept (apex_of zone.now)) }
        ensures none { records_of_message message.now ≡ [] → result ≡ Ok self }
    {
        let records = records_of_message(alloc, message)?;
        self.read_all(alloc, zone, &records)
    }

    /// What was read makes of a zone where no record is left: the zone after the list.
    pub(crate) fn end(self, alloc: Global, zone: &Zone) -> Result<Zone, TransferFault>
        requires { IsKept (apex_of zone.now) self }
        ensures reported { Tells (behind zone.now self []) (λ next. next) result }
        ensures lawful { IfOk result IsZone }
        ensures nothing { self ≡ Progress.Nothing → result ≡ Err TransferFault.Broken }
    {
        // That the records are a zone is known of them from here on.
        let _soa = zone.soa();
        match self {
            Progress::Nothing => Err(TransferFault::Broken),
            Progress::Opened(first) => end_at_first(alloc, zone, &first),
            Progress::Under(reading) => reading.end(alloc, zone.apex()),
        }
    }
}

/// What an SOA alone makes of a zone, which stays as it is where it has that serial (RFC 1995, 2).
fn end_at_first(alloc: Global, zone: &Zone, first: &HeldRecord) -> Result<Zone, TransferFault>
    requires { is_soa first.now ≡ true }
    ensures reported { Tells (behind_first zone.now first.now []) (λ next. next) result }
    ensures lawful { IfOk result IsZone }
{
    if first.serial() != zone.serial() {
        return Err(TransferFault::WrongBase);
    }
    if !first.is_under(zone.apex()) {
        return Err(TransferFault::NotInZone);
    }
    same_zone(alloc, zone)
}

/// The first record of a list, which is an SOA (RFC 5936, 2.2; RFC 1995, 4).
fn open(alloc: Global, zone: &Zone, sent: &RawRecord) -> Result<Progress, TransferFault>
    ensures reported { TellsRead zone.now Progress.Nothing (sent.now ∷ []) result }
    ensures kept { IfOk result (IsKept (apex_of zone.now)) }
{
    let first = enter(alloc, sent)?;
    if !first.is_soa() {
        return Err(TransferFault::Broken);
    }
    Ok(Progress::Opened(first))
}

/// The second record of a list.
fn read_second(
    alloc: Global,
    zone: &Zone,
    first: HeldRecord,
    sent: &RawRecord,
) -> Result<Progress, TransferFault>
    requires { IsKept (apex_of zone.now) (Progress.Opened first) }
    ensures reported { TellsRead zone.now (Progress.Opened first) (sent.now ∷ []) result }
    ensures kept { IfOk result (IsKept (apex_of zone.now)) }
{
    // That the records are a zone is known of them from here on.
    let _soa = zone.soa();
    if !first.is_under(zone.apex()) {
        return Err(TransferFault::NotInZone);
    }
    let one = enter(alloc, sent)?;
    let reading = Reading::from_second(alloc, zone, first, one)?;
    Ok(Progress::Under(reading))
}

/// A further record of a list.
fn go_on(
    alloc: Global,
    zone: &Zone,
    reading: Reading,
    sent: &RawRecord,
) -> Result<Progress, TransferFault>
    requires { IsKept (apex_of zone.now) (Progress.Under reading) }
    ensures reported { TellsRead zone.now (Progress.Under reading) (sent.now ∷ []) result }
    ensures kept { IfOk result (IsKept (apex_of zone.now)) }
{
    let one = enter(alloc, sent)?;
    let reading = reading.read(alloc, zone.apex(), one)?;
    Ok(Progress::Under(reading))
}

/// The records of a message; where it can't be read, one that can't be read. An `Err` only where a growth was refused, which none
/// asks for where there is no record.
#[tactic(auto, using(crate::proofs::MessageLemmas::some_of))]
fn records_of_message(alloc: Global, message: &[u8]) -> Result<Vec<RawRecord>, AllocError>
    ensures found { IfOk result (λ records. records.items ≡ records_of_message message.now) }
    ensures some { OnErr result (records_of_message message.now ≢ []) }
{
    match received_records(alloc, message)? {
        Some(records) => Ok(records.into_vec()),
        None => unreadable(alloc),
    }
}

/// A record that can't be read, which no list has.
fn unreadable(alloc: Global) -> Result<Vec<RawRecord>, AllocError>
    ensures { IfOk result (λ records. records.items ≡ unreadable ∷ []) }
{
    let mut records = Vec::with_capacity(alloc, 1)?;
    records.push(RawRecord {
        owner: Name::root(),
        rtype: RType(0),
        class: Class(0),
        ttl: 0,
        octets: Vec::new(alloc),
    })?;
    Ok(records)
}
