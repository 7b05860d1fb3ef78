//! Why a script cannot be played.
ghost use Rattle.std.specs.Prelude.{◌≡◌};
ghost use Rattle.commands.specs.declared.script_fault.StepsFault.TheVariants.{Device};
ghost use Rattle.commands.specs.Fault.{fault_of};

use crate::script::ScriptFault;
use std::io;
use world_run::WorldFault;

/// Why a script cannot be played.
#[derive(Drop)]
pub enum StepsFault {
    /// The number of the first line that is not a step, counted from 1.
    Script(u64),
    /// The steps cannot be played: lack of memory, or a line that begins a call while 64 are under way.
    World(WorldFault),
    /// An I/O error, or lack of memory elsewhere.
    Device(io::Error),
}

impl From<ScriptFault> for StepsFault {
    ghost from_gives = { λ fault given. given ≡ fault_of fault };

    fn from(fault: ScriptFault) -> StepsFault {
        match fault {
            ScriptFault::Bad(line) => StepsFault::Script(line),
            ScriptFault::Device(fault) => StepsFault::Device(fault),
        }
    }
}

impl From<io::Error> for StepsFault {
    ghost from_gives = { λ fault given. given ≡ Device fault };

    fn from(fault: io::Error) -> StepsFault {
        StepsFault::Device(fault)
    }
}
