//! Writing all of a sequence of octets.
ghost use Rattle.commands.specs.Lines.{Writes};

use crate::input::{MAX_READS, endless};
use std::io::{self, Write};

/// Writes all these octets, in as many writes as the writer needs. On an error a prefix of them has been written.
pub fn write_whole<W: Write>(writer: &mut W, octets: &[u8]) -> io::Result<()>
    ensures { Writes result (W.contents writer.old) (W.contents writer.new) octets.now }
{
    let mut rest = octets;
    for _ in 0..MAX_READS {
        if rest.is_empty() {
            return Ok(());
        }
        match writer.write(rest) {
            Ok(0) => return Err(io::Error::from(io::ErrorKind::WriteZero)),
            Ok(len) => rest = &rest[len..],
            Err(fault) if fault.kind() == io::ErrorKind::Interrupted => {}
            Err(fault) => return Err(fault),
        }
    }
    Err(endless())
}
