//! Why a transfer isn't taken.
ghost use Rattle.std.specs.Prelude.{◌≡◌, Some};
ghost use Rattle.transfer_core.specs.declared.fault.TransferFault.TheVariants.{NoMemory as no_memory};
ghost use Rattle.transfer_core.specs.Words.{fault_words};

use std::alloc::AllocError;
use std::error::Error;
use std::fmt;

/// Why a list of records that a transfer sends isn't taken. The first record that has a fault is told, and at one record
/// the first fault that it has (RFC 1995, 4; RFC 5936, 2.2).
#[derive(Clone, Copy, Debug, PartialEq, Eq)]
pub enum TransferFault {
    /// It isn't such a list: a record of another class, of a metatype, or of data without its type's form; no SOA
    /// first, none that closes the list or another one, records after it.
    Broken,
    /// It begins at another zone: an old SOA has another serial than the zone, a deletion isn't there, an addition is
    /// there, or an SOA alone has another serial.
    WrongBase,
    /// A record is outside the zone or passes a limit, or the records are no zone.
    NotInZone,
    /// A growth was refused.
    NoMemory,
}

impl fmt::Display for TransferFault {
    ghost output = { λ fault. Some (fault_words fault) };

    fn fmt<W: fmt::Write>(&self, f: &mut fmt::Formatter<W>) -> fmt::Result {
        match self {
            TransferFault::Broken => write!(f, "X1 Broken"),
            TransferFault::WrongBase => write!(f, "X2 WrongBase"),
            TransferFault::NotInZone => write!(f, "X3 NotInZone"),
            TransferFault::NoMemory => write!(f, "X4 NoMemory"),
        }
    }
}

impl Error for TransferFault {}

impl From<AllocError> for TransferFault {
    ghost from_gives = { λ refused given. given ≡ no_memory };

    fn from(_refused: AllocError) -> TransferFault {
        TransferFault::NoMemory
    }
}
