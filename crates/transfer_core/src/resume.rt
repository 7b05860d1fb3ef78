//! The list of a transfer from a place on (RFC 1995, 2 and 4; RFC 5936, 2.2).
ghost use Rattle.std.specs.Prelude.{◌≡◌, drop};
ghost use Rattle.transfer_core.specs.Packed.{listed};
ghost use Rattle.transfer_core.specs.Places.{left_at};

use crate::chain::ChainView;
use crate::changes::{changes_from, steps};
use crate::list::{SetRecords, full, zone_from};
use crate::packer::TransferRecords;
use crate::place::Place;
use zone_tree::{Zone, ZoneRead};

/// The records that are left at a place of the list of a zone, or of what changed up to it through the versions of a chain. It takes no
/// memory, and no more steps than a search for the owner and the records of a set that are sent.
pub fn records_at<'a, C: ChainView>(
    zone: &'a Zone,
    chain: &'a C,
    place: &Place,
) -> TransferRecords<'a, C>
    ensures { listed result ≡ left_at zone.now (C.versions chain.now) place.now }
{
    match place {
        Place::ZoneStart => TransferRecords::Full(full(zone)),
        Place::InZone(at) => {
            let list = TransferRecords::Full(zone_from(zone, &at.owner, at.rtype));
            behind(list, at.sent)
        }
        Place::ChangesStart => TransferRecords::Changes(steps(zone, chain)),
        Place::InChanges(at) => {
            let list = TransferRecords::Changes(changes_from(
                zone,
                chain,
                at.version,
                at.step.part,
                at.step.set,
            ));
            behind(list, at.step.sent)
        }
        Place::LastSoa => TransferRecords::Set(SetRecords::new(zone.soa())),
        Place::End => TransferRecords::Set(SetRecords::none(zone.soa())),
    }
}

/// A list after so many of its records.
fn behind<'a, C: ChainView>(list: TransferRecords<'a, C>, count: u16) -> TransferRecords<'a, C>
    ensures { listed result ≡ drop count (listed list.entry) }
{
    let mut list = list;
    for _passed in 0..count {
        let _ = list.next_record();
    }
    list
}
