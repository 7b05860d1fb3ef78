//! Why no update is made that takes a zone to another one.
ghost use Rattle.std.specs.Prelude.{◌≡◌};
ghost use Rattle.update_messages.specs.declared.prepare_fault.PrepareFault.TheVariants.{Change as of_change, NoMemory as no_memory};

use std::alloc::AllocError;
use zone_change::ChangeFault;

/// Why no update is made that takes a zone to another one.
#[derive(Clone, Copy, Debug, PartialEq, Eq)]
pub enum PrepareFault {
    /// There is no change from the one zone to the other: they have different apexes, or share no NS where there is no room for another one.
    Change(ChangeFault),
    /// The update has more octets than a frame of a journal takes.
    TooLarge,
    /// There is no memory.
    NoMemory,
}

impl From<ChangeFault> for PrepareFault {
    ghost from_gives = { λ fault given. given ≡ of_change fault };

    fn from(fault: ChangeFault) -> PrepareFault {
        PrepareFault::Change(fault)
    }
}

impl From<AllocError> for PrepareFault {
    ghost from_gives = { λ _ given. given ≡ no_memory };

    fn from(_: AllocError) -> PrepareFault {
        PrepareFault::NoMemory
    }
}
