//! What is wrong with a zone's text, and where.
ghost use Rattle.std.specs.Prelude.{◌≡◌, Some};
ghost use Rattle.master_file.specs.Fault.{no_memory, printed_at};

use record_text::Cause;
use std::alloc::AllocError;
use std::error::Error;
use std::fmt;

/// Why a zone's text is refused, and where.
#[derive(Clone, Copy, Debug, PartialEq, Eq)]
pub struct FileFault {
    /// The line on which the faulty entry begins, counted from 1; 0 where no entry shows the fault.
    pub line: u64,
    /// What is wrong there.
    pub cause: Cause,
}

impl fmt::Display for FileFault {
    ghost output = { λ fault. Some (printed_at fault) };

    fn fmt<W: fmt::Write>(&self, f: &mut fmt::Formatter<W>) -> fmt::Result {
        write!(f, "line {}: {}", self.line, self.cause)
    }
}

impl Error for FileFault {}

impl From<AllocError> for FileFault {
    ghost from_gives = { λ refused given. given ≡ no_memory };

    fn from(_: AllocError) -> FileFault {
        FileFault {
            line: 0,
            cause: Cause::NoMemory,
        }
    }
}
