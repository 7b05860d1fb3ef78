//! Messages over a stream, each after its length (RFC 1035, 4.2.2).
ghost use Rattle.std.specs.Prelude.{◌≡◌, ◌≤◌, length, IfOk, OnOk};
ghost use Rattle.std.specs.Int.{to_be_bytes, w16};
ghost use Rattle.std.specs.Io.KnownBytes.{Appends, Consumes};
ghost use Rattle.dns_message.specs.Frame.{frame_of};
ghost use Rattle.dns_message.specs.Message.{message_limit};

use crate::fault::DeployFault;
use std::alloc::Global;
use std::io::{Read, Write};

/// The most octets of a message (RFC 1035, 4.2.2).
pub(crate) const MAX_MESSAGE: usize = 65_535;

/// Writes a message after its length, by one call.
pub(crate) fn write_message<W: Write>(
    alloc: Global,
    writer: &mut W,
    message: &[u8],
) -> Result<(), DeployFault>
    requires { length message.now ≤ MAX_MESSAGE }
    ensures { OnOk result (Appends (W.contents writer.old) (W.contents writer.new) (frame_of message.now)) }
{
    let mut frame = (message.len() as u16).to_be_bytes().to_vec(alloc)?;
    frame.extend_from_slice(message)?;
    writer.write_all(&frame)?;
    Ok(())
}

/// Reads a message after its length.
pub(crate) fn read_message<R: Read>(alloc: Global, reader: &mut R) -> Result<Vec<u8>, DeployFault>
    ensures read { IfOk result (λ message. Consumes (R.remaining reader.old) (R.remaining reader.new) (frame_of message.items)) }
    ensures short { IfOk result (λ message. length message.items ≤ MAX_MESSAGE) }
{
    let mut len = [0u8; 2];
    reader.read_exact(&mut len)?;
    let size = number_of(len);
    let message = read_octets(alloc, reader, usize::from(size))?;
    Ok(message)
}

/// The number of two octets, the high one first (RFC 1035, 2.3.2).
fn number_of(octets: [u8; 2]) -> u16
    ensures { to_be_bytes w16 result ≡ octets }
{
    u16::from_be_bytes(octets)
}

/// Reads so many octets.
fn read_octets<R: Read>(alloc: Global, reader: &mut R, size: usize) -> Result<Vec<u8>, DeployFault>
    ensures read { IfOk result (λ octets. Consumes (R.remaining reader.old) (R.remaining reader.new) octets.items) }
    ensures size { IfOk result (λ octets. length octets.items ≡ size) }
{
    let mut octets = Vec::new(alloc);
    octets.resize(size, 0)?;
    reader.read_exact(&mut octets)?;
    Ok(octets)
}
