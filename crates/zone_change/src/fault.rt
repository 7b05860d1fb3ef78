//! Why a change isn't made.
ghost use Rattle.std.specs.Prelude.{◌≡◌};
ghost use Rattle.zone_change.specs.declared.fault.ChangeFault.TheVariants.{NoMemory as no_memory};

use std::alloc::AllocError;
use thiserror::Error;

/// Why the update that takes a zone to another isn't made.
#[derive(Clone, Copy, Debug, PartialEq, Eq, Error)]
pub enum ChangeFault {
    /// The zones have different apexes.
    #[error("the zones have different names")]
    OtherApex,
    /// The zones share no NS at the apex, and an NS of the next one doesn't fit beside those of the old one (RFC 2136, 3.4.2.4).
    #[error("the zones share no NS record at their name, and there is no room for another")]
    NoRoom,
    /// The update has more than the 65,535 octets of a message (RFC 1035, 4.2.2).
    #[error("the update doesn't fit into one message")]
    TooLong,
    /// A growth was refused.
    #[error("out of memory")]
    NoMemory,
}

impl From<AllocError> for ChangeFault {
    ghost from_gives = { λ refused given. given ≡ no_memory };

    fn from(_refused: AllocError) -> ChangeFault {
        ChangeFault::NoMemory
    }
}
