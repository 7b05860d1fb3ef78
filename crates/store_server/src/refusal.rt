//! Reasons why a store is not served (own).
use dns_name::Name;
use dns_rdata::Serial;
use master_file::{Cause, FileFault};
use std::alloc::AllocError;
use std::io;
use store_files::PairFault;
use store_recovery::StartFault;
use zone_change::ChangeFault;

/// A reason why a store is not served. Except after a device's fault, the directory is unchanged.
#[derive(Debug, Drop)]
pub enum Refusal {
    /// Another process holds the directory.
    Held,
    /// The directory has zone files, of which this is the greatest number, and no journal: it is lost, with the updates since.
    NoJournal(u64),
    /// The journal names the zone file of this number, which is not there.
    NoText(u64),
    /// No store can be recovered from the zone file and the journal.
    NoStart(StartFault),
    /// The operator's zone file has changed since the store was created, and its zone has a greater serial: the operator has to choose one of the two.
    Newer {
        /// The serial of the store's last version.
        has: Serial,
        /// The serial of the operator's zone file.
        given: Serial,
    },
    /// The operator chose the zone file, and no update takes the store's zone to its zone.
    NoChange(ChangeFault),
    /// The operator chose the zone file, and the update that takes the store's zone to its zone has more octets than a frame of a journal takes.
    TooLarge,
    /// The operator's zone file has a zone with another apex than the store's, whichever the operator chose.
    OtherApex {
        /// The apex of the store's zone.
        has: Name,
        /// The apex of the operator's zone file.
        given: Name,
    },
    /// The operator's zone file is not a valid zone.
    Text(FileFault),
    /// There is not enough memory.
    NoMemory,
    /// A device failed.
    Device(io::Error),
}

impl From<StartFault> for Refusal {
    ghost use Rattle.std.specs.Prelude.{◌≡◌};
    ghost use Rattle.store_server.specs.Private.{of_start};

    ghost from_gives = { λ fault refusal. refusal ≡ of_start fault };

    fn from(fault: StartFault) -> Refusal {
        match fault {
            StartFault::NoMemory => Refusal::NoMemory,
            _ => Refusal::NoStart(fault),
        }
    }
}

impl From<FileFault> for Refusal {
    ghost use Rattle.std.specs.Prelude.{◌≡◌};
    ghost use Rattle.store_server.specs.Private.{of_text};

    ghost from_gives = { λ fault refusal. refusal ≡ of_text fault };

    fn from(fault: FileFault) -> Refusal {
        match fault.cause {
            Cause::NoMemory => Refusal::NoMemory,
            _ => Refusal::Text(fault),
        }
    }
}

impl From<AllocError> for Refusal {
    ghost use Rattle.std.specs.Prelude.{◌≡◌};
    ghost use Rattle.store_server.specs.declared.refusal.Refusal.TheVariants.{NoMemory};

    ghost from_gives = { λ _ refusal. refusal ≡ NoMemory };

    fn from(_: AllocError) -> Refusal {
        Refusal::NoMemory
    }
}

impl From<io::Error> for Refusal {
    ghost use Rattle.std.specs.Prelude.{◌≡◌};
    ghost use Rattle.store_server.specs.declared.refusal.Refusal.TheVariants.{Device};

    ghost from_gives = { λ fault refusal. refusal ≡ Device fault };

    fn from(fault: io::Error) -> Refusal {
        Refusal::Device(fault)
    }
}

impl From<PairFault> for Refusal {
    ghost use Rattle.std.specs.Prelude.{◌≡◌};
    ghost use Rattle.store_server.specs.Private.{of_pair};

    ghost from_gives = { λ fault refusal. refusal ≡ of_pair fault };

    fn from(fault: PairFault) -> Refusal {
        match fault {
            PairFault::Before(fault) => Refusal::Device(fault),
            PairFault::Unknown(fault) => Refusal::Device(fault),
        }
    }
}
