//! The effects of an update's records, one after another (RFC 2136, 3.4.2).
ghost use Rattle.std.specs.Prelude.{◌≡◌, ◌≢◌, ◌<◌, All, unwrap_or, None, Some, IfOk, IfSome};
ghost use Rattle.std.specs.Result.{IsErrOf};
ghost use Rattle.zone_tree.specs.Zone.{IsZone, apex_of};
ghost use Rattle.update_core.specs.Verdict.{prescan, prescan_of};
ghost use Rattle.update_core.specs.Act.{effect, effects, IsSent};

use crate::overlay::Overlay;
use crate::place::Place;
use crate::rows::{ActFault, Row, row_of};
use crate::tagged::TaggedName;
use dns_name::StoredName;
use dns_rdata::RawRecord;
use std::alloc::Global;
use zone_tree::Zone;

/// The zone that an update's records make of a zone, one after another, which is another one; None where it is that zone itself.
/// `Limit` where one of them passes a limit (RFC 2136, 3.4.2; own).
pub(crate) fn after_all(
    alloc: Global,
    zone: &Zone,
    raws: &[RawRecord],
) -> Result<Option<Zone>, ActFault>
    requires passed { prescan zone.now raws.now ≡ None }
    ensures after { IfOk result (λ after. effects zone.now raws.now ≡ Some (unwrap_or after zone.now)) }
    ensures changed { IfOk result (λ after. IfSome after (λ next. IsZone zone.now × IsZone next × (zone.now ≢ next))) }
    ensures limit { IsErrOf result ActFault.Limit → effects zone.now raws.now ≡ None }
{
    let mut overlay = Overlay::new(alloc, zone);
    for raw in raws {
        overlay = after_one(alloc, overlay, raw)?;
    }
    if !overlay.is_changed() {
        return Ok(None);
    }
    let after = overlay.into_zone(alloc)?;
    Ok(Some(after))
}

/// What a record makes of what was made of a zone so far.
fn after_one<'a>(
    alloc: Global,
    overlay: Overlay<'a>,
    raw: &RawRecord,
) -> Result<Overlay<'a>, ActFault>
    requires passed { prescan_of overlay.made raw.now ≡ None }
    ensures base { IfOk result (λ next. next.base ≡ overlay.entry.base) }
    ensures after { IfOk result (λ next. effect overlay.entry.made raw.now ≡ Some next.made) }
    ensures apex { IfOk result (λ next. apex_of next.made ≡ apex_of overlay.entry.made) }
    ensures limit { IsErrOf result ActFault.Limit → effect overlay.entry.made raw.now ≡ None }
{
    overlay.check();
    check_sent(raw);
    let owner = TaggedName::new(StoredName::new(alloc, &raw.owner)?);
    let row = row_of(alloc, &Place::new(&overlay, &raw.owner, &owner), raw)?;
    match row {
        Row::Nothing => Ok(overlay),
        Row::OneSet(rdata) => overlay.with_set(alloc, owner, raw, rdata),
        Row::Changes(changes) => overlay.edited(alloc, owner, raw, changes),
    }
}

/// That a record is one that is read of a message.
fn check_sent(raw: &RawRecord)
    ensures { IsSent raw.now }
{
    let _owner = raw.owner.wire();
    check_octets(&raw.octets);
}

/// That octets are below 256.
fn check_octets(octets: &[u8])
    ensures { All (λ octet. octet < 256) octets.now }
{
    let _len = octets.len();
}
