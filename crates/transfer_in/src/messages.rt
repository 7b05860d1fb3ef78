//! A transfer taken in, message by message.
ghost use Rattle.std.specs.Prelude.{◌≡◌, ◌⊎◌, [], map, IfOk, IfErr, Ok, Err};
ghost use Rattle.zone_tree.specs.Zone.{IsZone};
ghost use Rattle.transfer_core.specs.Take.{take};
ghost use Rattle.transfer_in.specs.Taking.{records_of_messages};

use crate::taking::Progress;
use std::alloc::Global;
use transfer_core::TransferFault;
use zone_tree::Zone;

/// What a holder of a zone holds after the messages of a transfer: the zone that was sent in whole (RFC 5936, 2.2), or the
/// one that the changes make of its own (RFC 1995, 4). The zone that is held stays as it is.
///
/// Their answer sections' records are one list, whose first record that has a fault is told; a message that can't be read,
/// that is no reply or that has an RCODE other than NOERROR is `Broken` before its records are looked at. `Broken` too where
/// the list ends before it is closed, or is empty. `NoMemory` where a growth was refused; where the messages have no record none is
/// asked for, so that this is `Broken` always.
pub fn apply(alloc: Global, zone: &Zone, messages: &[Vec<u8>]) -> Result<Zone, TransferFault>
    ensures zone { IfOk result (λ next. take zone.now (records_of_messages (map (λ message. message.items) messages.now)) ≡ Ok next) }
    ensures lawful { IfOk result IsZone }
    ensures fault { IfErr result (λ fault. (fault ≡ TransferFault.NoMemory)
        ⊎ (take zone.now (records_of_messages (map (λ message. message.items) messages.now)) ≡ Err fault)) }
    ensures empty { records_of_messages (map (λ message. message.items) messages.now) ≡ [] → result ≡ Err TransferFault.Broken }
{
    let mut progress = Progress::Nothing;
    for message in messages {
        progress = progress.read_message(alloc, zone, message)?;
    }
    progress.end(alloc, zone)
}
