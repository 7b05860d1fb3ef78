//! What one record makes of the records that are held (RFC 1995, 4; RFC 5936, 2.2).
ghost use Rattle.std.specs.Prelude.{◌≡◌, ◌==◌, ◌&&◌, [], ◌∷◌, true, false, length, nat_le, if◌then◌else◌, Ok, Err, IfOk, IfErr};
ghost use Rattle.dns_rdata.specs.Limits.{max_set};
ghost use Rattle.zone_tree.specs.Limits.{max_records};
ghost use Rattle.dns_name.specs.Name.{fold_name};
ghost use Rattle.dns_rdata.specs.Data.{serial_of};
ghost use Rattle.dns_rdata.specs.Record.{Record};
ghost use Rattle.zone_tree.specs.Change.{is_same_record};
ghost use Rattle.zone_tree.specs.Version.{zone_serial};
ghost use Rattle.zone_tree.specs.Zone.{IsZone, soa_of, apex_of};
ghost use Rattle.transfer_core.specs.Lists.{beside_soa};
ghost use Rattle.transfer_core.specs.Take.{Stage as Stands, opened, gathering, deleting, adding, closed, held, old_soa, step, is_soa, is_among, inserted, removed, joined, closing, ended};
ghost use Rattle.transfer_in.specs.ListState.{Tells, AreHeld, HasSoa, reading_of, stage_of, list_state_of};

use crate::ended::zone_of;
use crate::held::HeldRecord;
use crate::holding::Holding;
use dns_name::Name;
use dns_rdata::{MAX_SET, RType};
use std::alloc::{AllocError, Global};
use std::marker::Model;
use transfer_core::{TransferFault, full};
use zone_tree::{MAX_RECORDS, Zone, ZoneRead};

/// Where a holder stands in a list.
#[derive(Drop)]
pub(crate) enum Stage {
    /// Among the records of a full list.
    Gathering,
    /// After an old SOA: records go.
    Deleting,
    /// After a next SOA, which is this: records come.
    Adding(HeldRecord),
    /// After the SOA that closes the list.
    Closed,
}

/// Where a holder stands, and what it holds there.
#[derive(Drop)]
pub(crate) struct ListState {
    stage: Stage,
    records: Holding,
}

/// What is held within a list, after its second record.
#[derive(Drop)]
pub(crate) struct Reading {
    first: HeldRecord,
    state: ListState,
}

impl Model for Reading {
    ghost use Rattle.transfer_in.specs.ListState.{Within, HasSoa};

    ghost Value = { Within };

    ghost view = { λ a. record { first = a.first; stage = a.state.stage; records = a.state.records } };

    ghost invariant = { λ a. HasSoa a.state.stage a.state.records };
}

/// That records are within the limits, where the record that was read is in the zone and no longer than a record may be, and
/// its set then has so many.
fn check_limits(fits: bool, records: Holding, size: usize) -> Result<Holding, TransferFault>
    ensures same { IfOk result (λ next. next ≡ records) }
    ensures reported { Tells (if fits && nat_le size max_set && nat_le (length records) max_records then Ok records else Err TransferFault.NotInZone) (λ next. next) result }
    ensures no_memory { IfErr result (λ fault. fault ≡ TransferFault.NotInZone) }
{
    if fits && size <= MAX_SET && records.len() <= MAX_RECORDS {
        return Ok(records);
    }
    Err(TransferFault::NotInZone)
}

/// That a record that was read is in the zone, and it and the records held then are within the limits.
fn check_held(
    alloc: Global,
    apex: &Name,
    one: &HeldRecord,
    records: Holding,
) -> Result<Holding, TransferFault>
    ensures same { IfOk result (λ next. next ≡ records) }
    ensures reported { (stage : Stands) → Tells (held apex.now stage one.now records) (λ next. record { stage = stage; records = next }) result }
{
    let size = records.size_of(&one.key(alloc)?);
    check_limits(one.fits(apex), records, size)
}

/// The records with one more.
fn put(
    alloc: Global,
    apex: &Name,
    records: Holding,
    one: HeldRecord,
) -> Result<Holding, TransferFault>
    requires { is_among records one ≡ false }
    ensures same { IfOk result (λ next. next ≡ inserted one records) }
    ensures reported { (stage : Stands) → Tells (held apex.now stage one (inserted one records)) (λ next. record { stage = stage; records = next }) result }
{
    let fits = one.fits(apex);
    let (records, size) = records.with(alloc, one)?;
    check_limits(fits, records, size)
}

/// The records with one more, where equal records are one.
fn join(
    alloc: Global,
    apex: &Name,
    records: Holding,
    one: HeldRecord,
) -> Result<Holding, TransferFault>
    ensures { (stage : Stands) → Tells (held apex.now stage one (joined one records)) (λ next. record { stage = stage; records = next }) result }
{
    if !records.has(&one) {
        return put(alloc, apex, records, one);
    }
    check_held(alloc, apex, &one, records)
}

/// The records without one of them.
fn take_out(
    alloc: Global,
    apex: &Name,
    records: Holding,
    one: &HeldRecord,
) -> Result<Holding, TransferFault>
    requires { is_among records one.now ≡ true }
    ensures same { IfOk result (λ next. next ≡ removed one.now records) }
    ensures reported { (stage : Stands) → Tells (held apex.now stage one.now (removed one.now records)) (λ next. record { stage = stage; records = next }) result }
{
    let (records, size) = records.without(alloc, one)?;
    check_limits(one.fits(apex), records, size)
}

/// What a record makes of the records of a full list.
fn gather(
    alloc: Global,
    apex: &Name,
    first: &HeldRecord,
    records: Holding,
    one: HeldRecord,
) -> Result<ListState, TransferFault>
    ensures reported { Tells (step apex.now first.now gathering records one) list_state_of result }
    ensures soa { IfOk result (λ next. HasSoa next.stage next.records) }
    ensures broken { is_soa one ≡ true → is_same_record first.now one ≡ false → result ≡ Err TransferFault.Broken }
{
    if !one.is_soa() {
        let records = join(alloc, apex, records, one)?;
        let stage = Stage::Gathering;
        return Ok(ListState { stage, records });
    }
    if !first.is_same(&one) {
        return Err(TransferFault::Broken);
    }
    let stage = Stage::Closed;
    Ok(ListState { stage, records })
}

/// What a record makes of records of which some go: an SOA ends the deletions.
fn delete(
    alloc: Global,
    apex: &Name,
    records: Holding,
    one: HeldRecord,
) -> Result<ListState, TransferFault>
    requires { soa_of records ≡ [] }
    ensures reported { (first : Record) → Tells (step apex.now first deleting records one) list_state_of result }
    ensures soa { IfOk result (λ next. HasSoa next.stage next.records) }
    ensures wrong_base { is_soa one ≡ false → is_among records one ≡ false → result ≡ Err TransferFault.WrongBase }
{
    if one.is_soa() {
        return end_deletions(alloc, apex, records, one);
    }
    if !records.has(&one) {
        return Err(TransferFault::WrongBase);
    }
    let records = take_out(alloc, apex, records, &one)?;
    let stage = Stage::Deleting;
    Ok(ListState { stage, records })
}

/// What the next SOA of a step makes of the records that its deletions left (RFC 1995, 4).
fn end_deletions(
    alloc: Global,
    apex: &Name,
    records: Holding,
    one: HeldRecord,
) -> Result<ListState, TransferFault>
    requires left { soa_of records ≡ [] }
    requires next { is_soa one ≡ true }
    ensures reported { Tells (held apex.now adding one (inserted one records)) list_state_of result }
    ensures soa { IfOk result (λ next. HasSoa next.stage next.records) }
{
    let soa = one.copy(alloc)?;
    let records = put(alloc, apex, records, one)?;
    let stage = Stage::Adding(soa);
    Ok(ListState { stage, records })
}

/// What a record makes of records to which some come, after this SOA: the first SOA again closes the list, another one
/// begins a step.
fn add(
    alloc: Global,
    apex: &Name,
    first: &HeldRecord,
    soa: HeldRecord,
    records: Holding,
    one: HeldRecord,
) -> Result<ListState, TransferFault>
    requires { soa_of records ≡ soa ∷ [] }
    ensures reported { Tells (step apex.now first.now adding records one) list_state_of result }
    ensures soa { IfOk result (λ next. HasSoa next.stage next.records) }
{
    if !one.is_soa() {
        return add_one(alloc, apex, soa, records, one);
    }
    if !first.is_same(&one) {
        return begin_step(alloc, apex, &soa, records, &one);
    }
    close(records, &one)
}

/// What a record that isn't an SOA makes of records to which it comes, after this SOA.
fn add_one(
    alloc: Global,
    apex: &Name,
    soa: HeldRecord,
    records: Holding,
    one: HeldRecord,
) -> Result<ListState, TransferFault>
    requires soa { soa_of records ≡ soa ∷ [] }
    requires plain { is_soa one ≡ false }
    ensures reported { (first : Record) → Tells (step apex.now first adding records one) list_state_of result }
    ensures soa { IfOk result (λ next. HasSoa next.stage next.records) }
    ensures wrong_base { is_among records one ≡ true → result ≡ Err TransferFault.WrongBase }
{
    if records.has(&one) {
        return Err(TransferFault::WrongBase);
    }
    let records = put(alloc, apex, records, one)?;
    let stage = Stage::Adding(soa);
    Ok(ListState { stage, records })
}

/// What the first SOA again makes of records to which some came (RFC 1995, 4).
fn close(records: Holding, one: &HeldRecord) -> Result<ListState, TransferFault>
    ensures reported { Tells (if is_among records one.now then closing records else Err TransferFault.Broken) list_state_of result }
    ensures soa { IfOk result (λ next. HasSoa next.stage next.records) }
    ensures no_memory { IfErr result (λ fault. fault ≡ TransferFault.Broken) }
{
    if !records.has(one) {
        return Err(TransferFault::Broken);
    }
    let stage = Stage::Closed;
    Ok(ListState { stage, records })
}

/// What an old SOA makes of records with the SOA of the step before it, which it takes out (RFC 1995, 4).
fn begin_step(
    alloc: Global,
    apex: &Name,
    soa: &HeldRecord,
    records: Holding,
    one: &HeldRecord,
) -> Result<ListState, TransferFault>
    requires soa { soa_of records ≡ soa.now ∷ [] }
    requires old { is_soa one.now ≡ true }
    ensures reported { Tells (old_soa apex.now records one.now) list_state_of result }
    ensures soa { IfOk result (λ next. HasSoa next.stage next.records) }
    ensures wrong_base { (serial_of one.now.rdata == zone_serial records) ≡ false → result ≡ Err TransferFault.WrongBase }
{
    if one.serial() != soa.serial() {
        return Err(TransferFault::WrongBase);
    }
    let left = without_soa(alloc, soa, records)?;
    let records = check_held(alloc, apex, one, left)?;
    let stage = Stage::Deleting;
    Ok(ListState { stage, records })
}

/// The records beside their one SOA, which is this.
fn without_soa(alloc: Global, soa: &HeldRecord, records: Holding) -> Result<Holding, AllocError>
    requires { soa_of records ≡ soa.now ∷ [] }
    ensures { IfOk result (λ left. left ≡ beside_soa records) }
{
    let next = records.without(alloc, soa)?;
    Ok(next.0)
}

/// The records of a zone beside its SOA.
fn beside_soa(alloc: Global, zone: &Zone) -> Result<Holding, AllocError>
    ensures { IfOk result (λ records. records ≡ beside_soa zone.now) }
{
    let mut records = Holding::new(alloc);
    let mut list = full(zone);
    while let Some(lent) = list.next() {
        if lent.rtype() != RType::SOA {
            let one = HeldRecord::lent(alloc, &lent)?;
            let (next, _) = records.with(alloc, one)?;
            records = next;
        }
    }
    Ok(records)
}

/// One record alone.
fn alone(alloc: Global, one: &HeldRecord) -> Result<Holding, AllocError>
    ensures { IfOk result (λ records. records ≡ one.now ∷ []) }
{
    let (records, _) = Holding::new(alloc).with(alloc, one.copy(alloc)?)?;
    Ok(records)
}

/// What the second record of a list makes of a zone, after this SOA: an SOA makes it an incremental list, another record a full
/// one (RFC 1995, 4).
fn begin_list(
    alloc: Global,
    zone: &Zone,
    first: &HeldRecord,
    one: HeldRecord,
) -> Result<ListState, TransferFault>
    ensures reported { Tells (step (apex_of zone.now) first.now opened zone.now one) list_state_of result }
    ensures soa { IfOk result (λ next. HasSoa next.stage next.records) }
{
    if !one.is_soa() {
        return begin_full(alloc, zone, first, one);
    }
    if first.is_same(&one) {
        return Err(TransferFault::Broken);
    }
    begin_changes(alloc, zone, &one)
}

/// What a record that isn't an SOA makes of the SOA that opens a full list (RFC 5936, 2.2).
fn begin_full(
    alloc: Global,
    zone: &Zone,
    first: &HeldRecord,
    one: HeldRecord,
) -> Result<ListState, TransferFault>
    requires { is_soa one ≡ false }
    ensures reported { Tells (step (apex_of zone.now) first.now opened zone.now one) list_state_of result }
    ensures soa { IfOk result (λ next. HasSoa next.stage next.records) }
{
    let alone = alone(alloc, first)?;
    let records = join(alloc, zone.apex(), alone, one)?;
    let stage = Stage::Gathering;
    Ok(ListState { stage, records })
}

/// What the old SOA of the first step makes of a zone, out of which its SOA goes (RFC 1995, 4).
fn begin_changes(alloc: Global, zone: &Zone, one: &HeldRecord) -> Result<ListState, TransferFault>
    requires { is_soa one.now ≡ true }
    ensures reported { Tells (old_soa (apex_of zone.now) zone.now one.now) list_state_of result }
    ensures soa { IfOk result (λ next. HasSoa next.stage next.records) }
    ensures wrong_base { (serial_of one.now.rdata == zone_serial zone.now) ≡ false → result ≡ Err TransferFault.WrongBase }
{
    if one.serial() != zone.serial() {
        return Err(TransferFault::WrongBase);
    }
    let left = beside_soa(alloc, zone)?;
    let records = check_held(alloc, zone.apex(), one, left)?;
    let stage = Stage::Deleting;
    Ok(ListState { stage, records })
}

/// What a further record makes of records that are held, where a holder stands so.
fn go_on(
    alloc: Global,
    apex: &Name,
    first: &HeldRecord,
    state: ListState,
    one: HeldRecord,
) -> Result<ListState, TransferFault>
    requires { HasSoa state.stage state.records }
    ensures reported { Tells (step apex.now first.now (stage_of state.stage) state.records one) list_state_of result }
    ensures soa { IfOk result (λ next. HasSoa next.stage next.records) }
{
    let ListState { stage, records } = state;
    match stage {
        Stage::Gathering => gather(alloc, apex, first, records, one),
        Stage::Deleting => delete(alloc, apex, records, one),
        Stage::Adding(soa) => add(alloc, apex, first, soa, records, one),
        Stage::Closed => Err(TransferFault::Broken),
    }
}

impl Reading {
    /// What the second record of a list makes of a zone, after the SOA that opens the list: an SOA makes it an incremental
    /// list, another record a full one (RFC 1995, 4).
    pub(crate) fn from_second(
        alloc: Global,
        zone: &Zone,
        first: HeldRecord,
        one: HeldRecord,
    ) -> Result<Reading, TransferFault>
        ensures reported { Tells (step (apex_of zone.now) first opened zone.now one) reading_of result }
        ensures first { IfOk result (λ next. next.first ≡ first) }
    {
        let state = begin_list(alloc, zone, &first, one)?;
        Ok(Reading { first, state })
    }

    /// What a further record makes of what is held, in a zone of this apex.
    pub(crate) fn read(
        self,
        alloc: Global,
        apex: &Name,
        one: HeldRecord,
    ) -> Result<Reading, TransferFault>
        ensures reported { Tells (step apex.now self.first (stage_of self.stage) self.records one) reading_of result }
        ensures first { IfOk result (λ next. next.first ≡ self.first) }
    {
        let Reading { first, state } = self;
        let state = go_on(alloc, apex, &first, state, one)?;
        Ok(Reading { first, state })
    }

    /// What is held where no record is left, as the zone of an apex, which is in lower case: `Broken` where the list isn't
    /// closed.
    pub(crate) fn end(self, alloc: Global, apex: &Name) -> Result<Zone, TransferFault>
        requires held { AreHeld apex.now self.records }
        requires folded { apex.now ≡ fold_name apex.now }
        ensures reported { Tells (ended apex.now (stage_of self.stage) self.records) (λ next. next) result }
        ensures lawful { IfOk result IsZone }
        ensures unclosed { (stage_of self.stage ≡ closed → ⊥) → result ≡ Err TransferFault.Broken }
    {
        let ListState { stage, records } = self.state;
        match stage {
            Stage::Closed => zone_of(alloc, apex, records),
            Stage::Gathering | Stage::Deleting | Stage::Adding(_) => Err(TransferFault::Broken),
        }
    }
}
