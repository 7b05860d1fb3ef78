//! System calls that a signal interrupts (Linux, signal(7)).
ghost use Rattle.std.specs.Prelude.{◌≡◌, ◌↔◌, IsTrue};
ghost use Rattle.std.specs.IoError.{error_kind};

use std::io::{self, ErrorKind};

/// Whether a signal interrupted the call that gave this error. Such a call has done nothing, and is made again (Linux, signal(7)).
pub(crate) fn is_interrupted(fault: &io::Error) -> bool
    ensures { IsTrue result ↔ (error_kind fault.now ≡ ErrorKind.Interrupted) }
{
    fault.kind() == ErrorKind::Interrupted
}
