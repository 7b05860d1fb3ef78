//! Why a store can't be recovered.
ghost use Rattle.std.specs.Prelude.{◌≡◌};
ghost use Rattle.store_recovery.specs.Private.{of_journal, of_text};

use dns_rdata::Rcode;
use journal::Refused;
use master_file::{Cause, FileFault};
use std::alloc::AllocError;

/// Why an update of a journal can't be applied again.
#[derive(Clone, Copy, Debug, PartialEq, Eq)]
pub enum UpdateFault {
    /// Its octets aren't read as an update (RFC 2136, 2).
    NotAnUpdate,
    /// A rule refuses it with this code, or it passes a limit and gets SERVFAIL (RFC 2136, 3; own).
    Refused(Rcode),
    /// It is accepted and changes nothing: no journal has such an update.
    ChangesNothing,
}

/// Why a zone text and a journal can't be recovered. The first fault is reported.
#[derive(Clone, Copy, Debug, PartialEq, Eq)]
pub enum StartFault {
    /// The journal is refused: its head is wrong, it belongs to another text, batches that were synced to the disk are damaged, or the body of a frame
    /// is no batch.
    Journal(Refused),
    /// The zone text is the one that the head names, but it is no zone.
    Text(FileFault),
    /// The zone's serial isn't the one in the head.
    OtherSerial,
    /// The update at this place of the journal, counted from 0 over all its batches, can't be applied to the zone after those before it.
    Update(u64, UpdateFault),
    /// There is no memory.
    NoMemory,
}

impl From<Refused> for StartFault {
    ghost from_gives = { λ why fault. fault ≡ of_journal why };

    fn from(why: Refused) -> StartFault {
        match why {
            Refused::NoMemory => StartFault::NoMemory,
            _ => StartFault::Journal(why),
        }
    }
}

impl From<FileFault> for StartFault {
    ghost from_gives = { λ why fault. fault ≡ of_text why };

    fn from(why: FileFault) -> StartFault {
        match why.cause {
            Cause::NoMemory => StartFault::NoMemory,
            _ => StartFault::Text(why),
        }
    }
}

impl From<AllocError> for StartFault {
    ghost use Rattle.store_recovery.specs.declared.fault.StartFault.TheVariants.{NoMemory};

    ghost from_gives = { λ _ fault. fault ≡ NoMemory };

    fn from(_: AllocError) -> StartFault {
        StartFault::NoMemory
    }
}
