//! The update that takes one zone to another.
ghost use Rattle.std.specs.Prelude.{◌≡◌, ◌↔◌, false, true, ◌++◌, [], ◌∷◌, map, take, All, bytes_eq, ◌==◌, if◌then◌else◌, unwrap_or, None, IfOk, OnOk, IfSome, IsNone, MatchOption};
ghost use Rattle.std.specs.List.{list_any};
ghost use Rattle.std.specs.Cmp.Lexicographic.{pointwise};
ghost use Rattle.std.specs.Result.{IsErrOf};
ghost use Rattle.dns_name.specs.Name.{is_same};
ghost use Rattle.dns_rdata.specs.Numbers.{class_IN};
ghost use Rattle.dns_rdata.specs.Record.{owner_of, rtype_of, ttl_of};
ghost use Rattle.zone_tree.specs.Zone.{IsZone, soa_of, apex_of};
ghost use Rattle.zone_tree.specs.Change.{is_same_record};
ghost use Rattle.zone_tree.specs.Patch.{is_among};
ghost use Rattle.zone_tree.specs.Sets.{records_in};
ghost use Rattle.zone_tree.specs.Version.{AreChanges};
ghost use Rattle.update_core.specs.Verdict.{prescan};
ghost use Rattle.update_core.specs.Act.{effects, IsSent};
ghost use Rattle.zone_change.specs.Change.{aimed, put_in, taken_out, standing, as_sent, servers_of, change_records, update_from, change_to, AreBeside, HasRoom};
ghost use Rattle.zone_change.specs.Messages.{IsTooLong};

use crate::change::{ZoneChange, change_between, delta_between};
use crate::fault::ChangeFault;
use dns_message::{Head, RawRecords, Update, ZoneEntry};
use dns_rdata::{Class, RData, RRset, RType, RawRecord};
use std::alloc::{AllocError, Global};
use update_core::{Outcome, apply};
use zone_tree::{Delta, Version, Zone, ZoneFault, ZoneRead, edit};

/// The update that takes a zone to another of the same apex, or, where that one's serial isn't greater, to it at the serial after the
/// old one's: what goes, the SOA, and what comes, on the condition that the zone still has the old SOA (RFC 2136, 2.4.2 and 2.5;
/// RFC 1982, 3). None where they differ in nothing but such a serial.
///
/// It costs a walk over both zones, side by side. `OtherApex` where the zones have different apexes, `NoRoom` where they share no NS at
/// the apex and none can come before the others go (RFC 2136, 3.4.2.4), `NoMemory` where a growth was refused. No record of the update
/// is too long for a message.
pub fn change_to(alloc: Global, old: &Zone, next: &Zone) -> Result<Option<Update>, ChangeFault>
    ensures update { IfOk result (λ found. MatchOption found (aimed old.now next.now ≡ old.now)
        (λ update. (update ≡ change_to old.now next.now) × (pointwise is_same_record old.now (aimed old.now next.now) ≡ false))) }
    ensures fits { IfOk result (λ found. IfSome found (λ update. IsTooLong update → ⊥)) }
    ensures zones { IfOk result (λ found. IsZone old.now × IsZone next.now × (apex_of old.now ≡ apex_of next.now)) }
    ensures other { IsErrOf result ChangeFault.OtherApex ↔ (is_same (apex_of old.now) (apex_of next.now) ≡ false) }
    ensures room { IsErrOf result ChangeFault.NoRoom → HasRoom old.now next.now → ⊥ }
    ensures long { IsErrOf result ChangeFault.TooLong → ⊥ }
{
    let Some(change) = change_between(alloc, old, next)? else {
        return Ok(None);
    };
    let updates = records_to(alloc, old, next, &change)?;
    let update = update_from(alloc, old, updates)?;
    Ok(Some(update))
}

/// An update of a zone with these records, on the condition that its SOA stays (RFC 2136, 2.3 and 2.4.2).
fn update_from(alloc: Global, old: &Zone, updates: Vec<RawRecord>) -> Result<Update, AllocError>
    ensures { IfOk result (λ update. update ≡ update_from old.now updates.items) }
{
    let condition = condition_of(alloc, old)?;
    let mut prerequisites = Vec::new(alloc);
    prerequisites.push(condition)?;
    Ok(Update {
        head: Head {
            id: 0,
            opcode: 5,
            rd: false,
        },
        edns: None,
        zone: ZoneEntry {
            name: old.apex().copy(),
            rtype: RType::SOA,
            class: Class::IN,
        },
        prerequisites: RawRecords::new(prerequisites),
        updates: RawRecords::new(updates),
    })
}

/// The condition that a zone's SOA stays (RFC 2136, 2.4.2).
fn condition_of(alloc: Global, old: &Zone) -> Result<RawRecord, AllocError>
    ensures { IfOk result (λ raw. raw ∷ [] ≡ map standing (soa_of old.now)) }
{
    let soa = old.soa();
    let raw = sent(alloc, soa, &soa.data()[0], Class::IN, 0)?;
    Ok(raw)
}

/// A record of a set as it is sent.
fn sent(
    alloc: Global,
    set: &RRset,
    rdata: &RData,
    class: Class,
    ttl: u32,
) -> Result<RawRecord, AllocError>
    ensures { IfOk result (λ raw. raw ≡ record { owner = owner_of set.now; rtype = rtype_of set.now; class = class.0; ttl = ttl; octets = rdata.now.octets }) }
{
    Ok(RawRecord {
        owner: set.owner(),
        rtype: set.rtype(),
        class,
        ttl,
        octets: rdata.octets().to_vec(alloc)?,
    })
}

/// The records of the update. Where the zones share no NS at the apex, the first of the next zone's comes before all else, and what
/// goes and comes is told of the zone that it leaves.
fn records_to(
    alloc: Global,
    old: &Zone,
    next: &Zone,
    change: &ZoneChange,
) -> Result<Vec<RawRecord>, ChangeFault>
    requires zones { IsZone old.now × IsZone next.now }
    requires apex { apex_of old.now ≡ apex_of next.now }
    requires delta { AreChanges change.now.delta old.now (aimed old.now next.now) }
    requires soa { change.now.soa ≡ soa_of (aimed old.now next.now) }
    requires apart { pointwise is_same_record old.now (aimed old.now next.now) ≡ false }
    ensures records { IfOk result (λ raws. raws.items ≡ change_records old.now (aimed old.now next.now)) }
    ensures other { IsErrOf result ChangeFault.OtherApex → ⊥ }
    ensures room { IsErrOf result ChangeFault.NoRoom → HasRoom old.now next.now → ⊥ }
    ensures long { IsErrOf result ChangeFault.TooLong → ⊥ }
{
    let mut raws = Vec::new(alloc);
    let Some(servers) = servers_apart(old, next) else {
        put_steps(alloc, &mut raws, &change.delta, &change.soa)?;
        return Ok(raws);
    };
    let between = with_first(alloc, old, servers)?;
    let delta = delta_between(alloc, between.zone(), next)?;
    put_first(alloc, &mut raws, servers)?;
    put_steps(alloc, &mut raws, &delta, &change.soa)?;
    Ok(raws)
}

/// The NS at the next zone's apex, where the old zone has none of them with the same TTL; else None.
fn servers_apart<'a>(old: &Zone, next: &'a Zone) -> Option<&'a RRset>
    requires { apex_of old.now ≡ apex_of next.now }
    ensures none { IsNone result ↔ (list_any (is_among old.now) (servers_of next.now) ≡ true) }
    ensures set { IfSome result (λ set. set.now ≡ servers_of next.now) }
{
    if have_one_server(old, next) {
        return None;
    }
    Some(servers_of(next))
}

/// Whether two zones share an NS at the apex, with its TTL.
fn have_one_server(old: &Zone, next: &Zone) -> bool
    requires { apex_of old.now ≡ apex_of next.now }
    ensures { result ≡ list_any (is_among old.now) (servers_of next.now) }
{
    share_one(servers_of(old), servers_of(next))
}

/// The NS at a zone's apex.
fn servers_of(zone: &Zone) -> &RRset
    ensures set { result.now ≡ servers_of zone.now }
    ensures lawful { IsZone zone.now }
{
    let _soa = zone.soa();
    match zone.rrset(zone.apex(), RType::NS) {
        Some(set) => set,
        None => unreachable!(),
    }
}

/// Whether two sets of one owner and type share a record: some data, and their TTL.
fn share_one(own: &RRset, other: &RRset) -> bool
    requires owner { is_same (owner_of own.now) (owner_of other.now) ≡ true }
    requires rtype { rtype_of own.now ≡ rtype_of other.now }
    ensures { result ≡ list_any (is_among own.now) other.now }
{
    have_one_datum(own.data(), other.data()) && other.ttl() == own.ttl()
}

/// Whether one of the data has the octets of one of the others.
fn have_one_datum(own: &[RData], others: &[RData]) -> bool
    ensures { result ≡ list_any (λ e. list_any (λ d. bytes_eq e.octets d.octets) own.now) others.now }
{
    others.iter().any(|other| has_octets(own, other.octets()))
}

/// Whether one of the data has these octets.
fn has_octets(all: &[RData], octets: &[u8]) -> bool
    ensures { result ≡ list_any (λ d. bytes_eq octets.now d.octets) all.now }
{
    all.iter().any(|own| octets == own.octets())
}

/// A zone with the first record of a set of NS, and the serial after its own (RFC 2136, 3.4.2.2). `NoRoom` where a limit is passed.
fn with_first(alloc: Global, old: &Zone, servers: &RRset) -> Result<Version, ChangeFault>
    requires zone { IsZone old.now }
    requires passed { prescan old.now (map put_in (take 1 servers.now)) ≡ None }
    requires sent { All IsSent (map put_in (take 1 servers.now)) }
    ensures left { IfOk result (λ version. AreBeside version.zone (unwrap_or (effects old.now (map put_in (take 1 servers.now))) old.now)) }
    ensures other { IsErrOf result ChangeFault.OtherApex → ⊥ }
    ensures room { IsErrOf result ChangeFault.NoRoom → effects old.now (map put_in (take 1 servers.now)) ≡ None }
    ensures long { IsErrOf result ChangeFault.TooLong → ⊥ }
{
    let mut first = Vec::new(alloc);
    put_first(alloc, &mut first, servers)?;
    let version = Version::first(same_zone(alloc, old)?);
    let update = update_from(alloc, old, first)?;
    match apply(alloc, &version, &update, true) {
        Outcome::Next(next) => Ok(next),
        Outcome::Unchanged => Ok(version),
        Outcome::NoMemory => Err(ChangeFault::NoMemory),
        Outcome::Refused(_) => Err(ChangeFault::NoRoom),
    }
}

/// The same zone once more, which shares all its records.
fn same_zone(alloc: Global, zone: &Zone) -> Result<Zone, AllocError>
    ensures { IfOk result (λ same. same ≡ zone.now) }
{
    let _soa = zone.soa();
    match edit(alloc, zone, &[]) {
        Ok(same) => Ok(same),
        Err(ZoneFault::NoMemory) => Err(AllocError),
        Err(ZoneFault::Limit) => unreachable!(),
    }
}

/// Adds the first record of a set to those of an update (RFC 2136, 2.5.1).
fn put_first(alloc: Global, raws: &mut Vec<RawRecord>, set: &RRset) -> Result<(), AllocError>
    ensures { OnOk result (raws.new.items ≡ raws.old.items ++ map put_in (take 1 set.now)) }
{
    let first = sent(alloc, set, &set.data()[0], Class::IN, set.ttl().0)?;
    raws.push(first)?;
    Ok(())
}

/// Adds to the records of an update what goes, the SOA, and what comes.
fn put_steps(
    alloc: Global,
    raws: &mut Vec<RawRecord>,
    delta: &Delta,
    soa: &RRset,
) -> Result<(), AllocError>
    ensures { OnOk result (raws.new.items ≡ raws.old.items ++ (map taken_out delta.now.deletions ++ (map put_in soa.now ++ map put_in delta.now.additions))) }
{
    put_sets(alloc, raws, delta.deletions(), Class::NONE)?;
    put_all(alloc, raws, soa, Class::IN)?;
    put_sets(alloc, raws, delta.additions(), Class::IN)
}

/// Adds the records of sets to those of an update, in this class.
fn put_sets(
    alloc: Global,
    raws: &mut Vec<RawRecord>,
    sets: &[RRset],
    class: Class,
) -> Result<(), AllocError>
    ensures { OnOk result (raws.new.items ≡ raws.old.items ++ map (as_sent class.0) (records_in sets.now)) }
{
    for set in sets {
        put_all(alloc, raws, set, class)?;
    }
    Ok(())
}

/// Adds the records of a set to those of an update: of class IN they are added to a zone, and of class NONE deleted (RFC 2136, 2.5.1 and
/// 2.5.4).
fn put_all(
    alloc: Global,
    raws: &mut Vec<RawRecord>,
    set: &RRset,
    class: Class,
) -> Result<(), AllocError>
    ensures { OnOk result (raws.new.items ≡ raws.old.items ++ map (as_sent class.0) set.now) }
{
    let ttl = ttl_sent(set, class);
    for rdata in set.data() {
        raws.push(sent(alloc, set, rdata, class, ttl)?)?;
    }
    Ok(())
}

/// The TTL with which a set's records are sent: 0 where they are deleted (RFC 2136, 2.5.4).
fn ttl_sent(set: &RRset, class: Class) -> u32
    ensures { result ≡ if class.0 == class_IN then ttl_of set.now else 0 }
{
    if class == Class::IN { set.ttl().0 } else { 0 }
}
