//! Printing a store's zone (own).
ghost use Rattle.std.specs.Prelude.{◌≡◌, [], IfOk, IfErr, OnOk};
ghost use Rattle.std.specs.Io.Buffered.{writer_buffer, writer_contents};
ghost use Rattle.command_line.specs.Printed.{IsPart, Prints, IsPrintFault};

use commands::run_check;
use std::alloc::Global;
use std::io::{self, BufWriter, Write};
use store_recovery::{Recovery, StartFault, recover_before, recover_zone};

/// How much of a store's journal is used.
#[derive(Clone, Copy, Debug, PartialEq, Eq)]
pub enum Part {
    /// All of it, as at a start.
    Whole,
    /// The part before damage.
    BeforeFault,
}

/// Why no zone is printed.
#[derive(Debug, Drop)]
pub enum PrintFault {
    /// The store cannot be started from.
    NoStart(StartFault),
    /// An I/O error, or lack of memory.
    Device(io::Error),
}

impl From<StartFault> for PrintFault {
    ghost use Rattle.std.specs.Prelude.{◌≡◌};
    ghost use Rattle.command_line.specs.declared.stored_zone.PrintFault.TheVariants.{NoStart};

    ghost from_gives = { λ fault given. given ≡ NoStart fault };

    fn from(fault: StartFault) -> PrintFault {
        PrintFault::NoStart(fault)
    }
}

impl From<io::Error> for PrintFault {
    ghost use Rattle.std.specs.Prelude.{◌≡◌};
    ghost use Rattle.command_line.specs.declared.stored_zone.PrintFault.TheVariants.{Device};

    ghost from_gives = { λ fault given. given ≡ Device fault };

    fn from(fault: io::Error) -> PrintFault {
        PrintFault::Device(fault)
    }
}

/// Recovers the zone from a zone text and a part of its journal.
fn start_of(alloc: Global, text: &[u8], journal: &[u8], part: Part) -> Result<Recovery, PrintFault>
    ensures started { IfOk result (λ start. IsPart part text.now journal.now start) }
    ensures refused { IfErr result (λ fault. IsPrintFault part text.now journal.now fault) }
{
    match part {
        Part::Whole => Ok(recover_zone(alloc, text, journal)?),
        Part::BeforeFault => Ok(recover_before(alloc, text, journal)?),
    }
}

/// Prints the zone that a start from a zone text and its journal would serve, or for [`Part::BeforeFault`] the zone with the updates before
/// damage: one record per line (RFC 1035, 5.1).
pub fn print_store<W: Write + Drop>(
    alloc: Global,
    text: &[u8],
    journal: &[u8],
    part: Part,
    writer: &mut BufWriter<W>,
) -> Result<(), PrintFault>
    ensures printed { OnOk result (Prints part text.now journal.now (writer_contents W.contents writer.old) (writer_contents W.contents writer.new)) }
    ensures flushed { OnOk result (writer_buffer writer.new ≡ []) }
    ensures fault { IfErr result (λ fault. IsPrintFault part text.now journal.now fault) }
{
    let start = start_of(alloc, text, journal, part)?;
    run_check(alloc, start.newest.last.zone(), writer)?;
    writer.flush()?;
    Ok(())
}
