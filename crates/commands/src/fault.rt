//! Why a command fails, and the statuses with which the program exits.
ghost use Rattle.std.specs.Prelude.{◌≡◌};
ghost use Rattle.commands.specs.declared.fault.Fault.TheVariants.{Zone, Transfer, Device};
ghost use Rattle.commands.specs.Run.{status_of, fault_of};
ghost use Rattle.commands.specs.Report.{fault_line};

use crate::script_fault::StepsFault;
use master_file::FileFault;
use std::error::Error;
use std::{fmt, io};
use transfer_core::TransferFault;
use world_run::WorldFault;

/// The status of a command that succeeded.
pub const DONE: u8 = 0;
/// The status of a zone, a script or a transfer that was refused.
pub const REFUSED: u8 = 1;
/// The status of an I/O error, or of lack of memory that has no code of its own.
pub const FAILED: u8 = 3;

/// Why a command fails.
#[derive(Debug)]
pub enum Fault {
    /// The zone's text is refused.
    Zone(FileFault),
    /// The number, counted from 1, of a line of a script that is not a step.
    Script(u64),
    /// The steps of a script cannot be played.
    World(WorldFault),
    /// A transfer is refused, or runs out of memory.
    Transfer(TransferFault),
    /// An I/O error, or lack of memory.
    Device(io::Error),
}

impl Drop for Fault {
    fn drop(self) {
        match self {
            Fault::Zone(_) => {}
            Fault::Script(_) => {}
            Fault::World(_) => {}
            Fault::Transfer(_) => {}
            Fault::Device(_) => {}
        }
    }
}

impl Fault {
    /// The status with which the program exits.
    pub fn status(&self) -> u8
        ensures { result ≡ status_of self.now }
    {
        match self {
            Fault::Zone(_) | Fault::Script(_) | Fault::World(_) | Fault::Transfer(_) => REFUSED,
            Fault::Device(_) => FAILED,
        }
    }
}

impl fmt::Display for Fault {
    ghost output = { λ fault. fault_line fault };

    fn fmt<W: fmt::Write>(&self, f: &mut fmt::Formatter<W>) -> fmt::Result {
        match self {
            Fault::Zone(fault) => write!(f, "{fault}"),
            Fault::Script(line) => write!(f, "line {line}: bad"),
            Fault::World(fault) => write!(f, "{fault}"),
            Fault::Transfer(fault) => write!(f, "{fault}"),
            Fault::Device(fault) => write!(f, "{fault}"),
        }
    }
}

impl Error for Fault {}

impl From<FileFault> for Fault {
    ghost from_gives = { λ fault given. given ≡ Zone fault };

    fn from(fault: FileFault) -> Fault {
        Fault::Zone(fault)
    }
}

impl From<StepsFault> for Fault {
    ghost from_gives = { λ fault given. given ≡ fault_of fault };

    fn from(fault: StepsFault) -> Fault {
        match fault {
            StepsFault::Script(line) => Fault::Script(line),
            StepsFault::World(fault) => Fault::World(fault),
            StepsFault::Device(fault) => Fault::Device(fault),
        }
    }
}

impl From<TransferFault> for Fault {
    ghost from_gives = { λ fault given. given ≡ Transfer fault };

    fn from(fault: TransferFault) -> Fault {
        Fault::Transfer(fault)
    }
}

impl From<io::Error> for Fault {
    ghost from_gives = { λ fault given. given ≡ Device fault };

    fn from(fault: io::Error) -> Fault {
        Fault::Device(fault)
    }
}
