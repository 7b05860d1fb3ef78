//! Why sets are no zone.
ghost use Rattle.std.specs.Prelude.{◌≡◌};
ghost use Rattle.zone_tree.specs.declared.fault.NewFault.TheVariants.{NoMemory as no_memory};
ghost use Rattle.zone_tree.specs.declared.fault.ZoneFault.TheVariants.{NoMemory as edit_no_memory};

use shared_tree::NoMemory;
use std::alloc::AllocError;
use thiserror::Error;

/// Which rule sets break that are no zone (RFC 1034, 4.2.1; RFC 2181, 5 and 10.1). The rules are tried in this order,
/// and the first that is broken is told.
#[derive(Clone, Copy, Debug, PartialEq, Eq, Error)]
pub enum BrokenRule {
    /// More records than a zone may have.
    #[error("Z1 TooManyRecords")]
    TooManyRecords,
    /// A set doesn't come before the next, by owner and then type (RFC 4034, 6.1).
    #[error("Z2 NotAscending")]
    NotAscending,
    /// No SOA.
    #[error("Z3 NoSoa")]
    NoSoa,
    /// More than one SOA.
    #[error("Z4 SecondSoa")]
    SecondSoa,
    /// An owner that isn't at or below the apex.
    #[error("Z5 Outside")]
    Outside,
    /// No NS at the apex.
    #[error("Z6 NoNameServer")]
    NoNameServer,
    /// An alias beside another record (RFC 1034, 3.6.2; RFC 2181, 10.1).
    #[error("Z7 AliasNotAlone")]
    AliasNotAlone,
    /// An NS at an owner whose first label is `*`.
    #[error("Z8 WildCut")]
    WildCut,
}

/// Why sets give no zone. A broken rule is told before any memory is asked for.
#[derive(Clone, Copy, Debug, PartialEq, Eq, Error)]
pub enum NewFault {
    /// The sets are no zone.
    #[error("{0}")]
    Broken(BrokenRule),
    /// A growth was refused.
    #[error("NoMemory")]
    NoMemory,
}

/// Why changes give no zone.
#[derive(Clone, Copy, Debug, PartialEq, Eq, Error)]
pub enum ZoneFault {
    /// A growth was refused.
    #[error("B1 NoMemory")]
    NoMemory,
    /// More records than a zone may have.
    #[error("B2 Limit")]
    Limit,
}

impl From<NoMemory> for ZoneFault {
    ghost from_gives = { λ refused given. given ≡ edit_no_memory };

    fn from(_refused: NoMemory) -> ZoneFault {
        ZoneFault::NoMemory
    }
}

impl From<AllocError> for NewFault {
    ghost from_gives = { λ refused given. given ≡ no_memory };

    fn from(_refused: AllocError) -> NewFault {
        NewFault::NoMemory
    }
}

impl From<NoMemory> for NewFault {
    ghost from_gives = { λ refused given. given ≡ no_memory };

    fn from(_refused: NoMemory) -> NewFault {
        NewFault::NoMemory
    }
}
