//! Why lines aren't executed.
ghost use Rattle.std.specs.Prelude.{Some};
ghost use Rattle.world_run.specs.Words.{world_words};

use std::error::Error;
use std::fmt;

/// Why lines aren't executed.
#[derive(Clone, Copy, Debug, PartialEq, Eq)]
pub enum WorldFault {
    /// An allocation was refused.
    NoMemory,
    /// A line that is enabled, and doesn't take a step of a call under way, comes while 64 calls are under way.
    Limit,
}

impl fmt::Display for WorldFault {
    ghost output = { λ fault. Some (world_words fault) };

    fn fmt<W: fmt::Write>(&self, f: &mut fmt::Formatter<W>) -> fmt::Result {
        match self {
            WorldFault::NoMemory => write!(f, "V1 NoMemory"),
            WorldFault::Limit => write!(f, "V2 Limit"),
        }
    }
}

impl Error for WorldFault {}
