//! What changes between two zones of one apex.
ghost use Rattle.std.specs.Prelude.{◌≡◌, ◌↔◌, false, true, [], IfOk, MatchOption};
ghost use Rattle.std.specs.Result.{IsErrOf};
ghost use Rattle.dns_name.specs.Name.{is_same};
ghost use Rattle.zone_tree.specs.Zone.{IsZone, soa_of, apex_of};
ghost use Rattle.std.specs.Cmp.Lexicographic.{pointwise};
ghost use Rattle.zone_tree.specs.Change.{is_same_record};
ghost use Rattle.zone_tree.specs.Version.{zone_serial, AreChanges};
ghost use Rattle.update_core.specs.Act.{at_serial};
ghost use Rattle.zone_change.specs.Change.{aimed};

use crate::apart::owners_apart;
use crate::fault::ChangeFault;
use dns_rdata::{RRset, Serial};
use std::alloc::{AllocError, Global};
use zone_tree::{Delta, Zone, ZoneRead};

/// What changes between two zones of one apex.
#[derive(Drop)]
pub struct ZoneChange {
    /// The old SOA, and what goes and comes beside it (RFC 1995, 4).
    pub delta: Delta,
    /// The SOA that comes.
    pub soa: RRset,
}

/// What changes from one zone to the zone that a change to another is to lead to: that other zone, at the serial after the old one's
/// where its own isn't greater (RFC 1982, 3). None where they differ in nothing but such a serial.
///
/// It costs a walk over both zones, side by side. `OtherApex` where the zones have different apexes, and `NoMemory` where a growth was
/// refused.
pub fn change_between(
    alloc: Global,
    old: &Zone,
    next: &Zone,
) -> Result<Option<ZoneChange>, ChangeFault>
    ensures change { IfOk result (λ found. MatchOption found (aimed old.now next.now ≡ old.now)
        (λ change. AreChanges change.delta old.now (aimed old.now next.now) × (change.soa ≡ soa_of (aimed old.now next.now)) × (pointwise is_same_record old.now (aimed old.now next.now) ≡ false))) }
    ensures zones { IfOk result (λ found. IsZone old.now × IsZone next.now × (apex_of old.now ≡ apex_of next.now)) }
    ensures other { IsErrOf result ChangeFault.OtherApex ↔ (is_same (apex_of old.now) (apex_of next.now) ≡ false) }
    ensures room { IsErrOf result ChangeFault.NoRoom → ⊥ }
    ensures long { IsErrOf result ChangeFault.TooLong → ⊥ }
{
    if !have_one_apex(old, next) {
        return Err(ChangeFault::OtherApex);
    }
    let delta = delta_between(alloc, old, next)?;
    match soa_to(alloc, old, next, &delta)? {
        Some(soa) => Ok(Some(ZoneChange { delta, soa })),
        None => Ok(None),
    }
}

/// The SOA that a change brings, by what changed from one zone to another; None where they differ in nothing but a serial that isn't
/// greater.
fn soa_to(
    alloc: Global,
    old: &Zone,
    next: &Zone,
    delta: &Delta,
) -> Result<Option<RRset>, AllocError>
    requires { AreChanges delta.now old.now next.now }
    ensures { IfOk result (λ found. MatchOption found (aimed old.now next.now ≡ old.now)
        (λ soa. AreChanges delta.now old.now (aimed old.now next.now) × (soa ≡ soa_of (aimed old.now next.now)) × (pointwise is_same_record old.now (aimed old.now next.now) ≡ false))) }
{
    let serial = old.serial();
    let own = next.soa();
    // Both are zones.
    let _soa = old.soa();
    if serial.less(next.serial()) {
        let soa = own.copy(alloc)?;
        return Ok(Some(soa));
    }
    if is_same_but_serial(alloc, old, next, delta)? {
        return Ok(None);
    }
    let soa = soa_at(alloc, next, serial.next())?;
    Ok(Some(soa))
}

/// Whether two zones have one apex.
fn have_one_apex(old: &Zone, next: &Zone) -> bool
    ensures same { result ≡ is_same (apex_of old.now) (apex_of next.now) }
    ensures one { result ≡ true → apex_of old.now ≡ apex_of next.now }
    ensures zones { IsZone old.now × IsZone next.now }
{
    old.soa().stored_owner() == next.soa().stored_owner()
}

/// What changed from one zone to another. `AllocError` where a growth was refused.
pub(crate) fn delta_between(alloc: Global, old: &Zone, next: &Zone) -> Result<Delta, AllocError>
    ensures { IfOk result (λ delta. AreChanges delta old.now next.now) }
{
    Delta::between(alloc, old, next, owners_apart(alloc, old, next)?)
}

/// Whether two zones, by what changed from the one to the other, differ in nothing but the serial.
fn is_same_but_serial(
    alloc: Global,
    old: &Zone,
    next: &Zone,
    delta: &Delta,
) -> Result<bool, AllocError>
    requires { AreChanges delta.now old.now next.now }
    ensures { IfOk result (λ is. is ≡ pointwise is_same_record old.now (at_serial (zone_serial old.now) next.now)) }
{
    let own = old.soa();
    let soa = soa_at(alloc, next, old.serial())?;
    if !soa.is_same(own) {
        return Ok(false);
    }
    Ok(has_none(delta))
}

/// Whether nothing goes and nothing comes.
fn has_none(delta: &Delta) -> bool
    ensures none { result ≡ true → (delta.now.deletions ≡ []) × (delta.now.additions ≡ []) }
    ensures some { result ≡ false → delta.now.deletions ≡ [] → delta.now.additions ≡ [] → ⊥ }
{
    delta.deletions().is_empty() && delta.additions().is_empty()
}

/// The set of a zone's SOA with another serial.
fn soa_at(alloc: Global, zone: &Zone, serial: Serial) -> Result<RRset, AllocError>
    ensures set { IfOk result (λ set. set ≡ at_serial serial.0 (soa_of zone.now)) }
    ensures lawful { IsZone zone.now }
{
    let soa = zone.soa();
    let rdata = soa.data()[0].with_serial(alloc, serial)?;
    RRset::new(alloc, &soa.owner(), soa.ttl(), rdata)
}
