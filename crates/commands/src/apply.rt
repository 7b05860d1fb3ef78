//! Applying an incoming transfer, given as lines of hexadecimal.
ghost use Rattle.std.specs.Prelude.{◌≡◌, map, Ok, OnOk, IfOk, IfErr, IfSome};
ghost use Rattle.std.specs.Io.KnownBytes.{Appends};
ghost use Rattle.commands.specs.Apply.{message_on, messages_on, taken, taken_text, IsOfTransfer, TellsTransfer};
ghost use Rattle.commands.specs.Lines.{Begins, Writes};
ghost use Rattle.master_file.specs.WrittenZone.{zone_text};
ghost use Rattle.commands.specs.Run.{status_of, AtRefusedZone, AtDevice};

use crate::fault::Fault;
use crate::input::{MAX_READS, endless};
use crate::lines::{MAX_REQUEST, without_lf};
use crate::whole::write_whole;
use hex::FromHexError;
use master_file::write_zone;
use std::alloc::{AllocError, Global};
use std::io::{self, BufRead, Write};
use transfer_in::apply;
use zone_tree::Zone;

/// Applies the transfer from the reader, a message in hexadecimal per line, to a zone, and writes the text of the resulting zone (RFC 1995, 4;
/// RFC 5936, 2.2). A line that is not hexadecimal of at most 65,535 octets counts as a message that cannot be read.
///
/// All messages are read, the transfer is applied and the text is assembled before anything is written. `Transfer` is the fault of the first record
/// that has one, or lack of memory while the transfer is applied. `Device` is an I/O error or lack of memory elsewhere; then what has been written is
/// a prefix of the text.
pub fn run_apply<R: BufRead, W: Write>(
    alloc: Global,
    zone: &Zone,
    reader: &mut R,
    writer: &mut W,
) -> Result<(), Fault>
    // Clauses about octets hold if the reader reports its remaining octets and the writer its contents.
    ensures ok { OnOk result (IfSome (R.remaining reader.old) (λ input.
        Appends (W.contents writer.old) (W.contents writer.new) (taken_text zone.now input))) }
    ensures reported { IfSome (R.remaining reader.old) (λ input. TellsTransfer (taken zone.now input) result) }
    ensures zone { IfErr result (λ fault. AtRefusedZone fault ⊥) }
    ensures unwritten { IfErr result (λ fault. status_of fault ≡ 1 → W.contents writer.new ≡ W.contents writer.old) }
    ensures failed { IfErr result (λ fault. AtDevice fault (IfSome (R.remaining reader.old) (λ input.
        Begins (W.contents writer.old) (W.contents writer.new) (taken_text zone.now input)))) }
{
    let next = next_zone(alloc, zone, reader)?;
    write_text(alloc, &next, writer)?;
    Ok(())
}

/// Writes a zone as text. The text is assembled first: if there is not enough memory for it, nothing is written (RFC 1035, 5.1).
fn write_text<W: Write>(alloc: Global, zone: &Zone, writer: &mut W) -> io::Result<()>
    ensures { Writes result (W.contents writer.old) (W.contents writer.new) (zone_text zone.now) }
{
    let text = write_zone(alloc, zone)?;
    write_whole(writer, text.as_bytes())
}

/// The zone after the transfer from the reader.
fn next_zone<R: BufRead>(alloc: Global, zone: &Zone, reader: &mut R) -> Result<Zone, Fault>
    ensures zone { IfOk result (λ next. IfSome (R.remaining reader.old) (λ input. taken zone.now input ≡ Ok next)) }
    ensures fault { IfErr result (λ fault. IfSome (R.remaining reader.old) (λ input. IsOfTransfer (taken zone.now input) fault)) }
    ensures read { IfErr result (λ fault. AtRefusedZone fault ⊥) }
{
    let messages = read_messages(alloc, reader)?;
    let next = apply(alloc, zone, messages.as_slice())?;
    Ok(next)
}

/// Reads an input to its end, a message per line.
fn read_messages<R: BufRead>(alloc: Global, reader: &mut R) -> io::Result<Vec<Vec<u8>>>
    // This holds if the reader reports its remaining octets.
    ensures { IfOk result (λ messages. IfSome (R.remaining reader.old) (λ input.
        map (λ message. message.items) messages.items ≡ messages_on input)) }
{
    let mut messages = Vec::new(alloc);
    let mut line = Vec::new(alloc);
    for _read in 0..MAX_READS {
        line.clear();
        if reader.read_until(b'\n', &mut line)? == 0 {
            return Ok(messages);
        }
        let message = message_of(alloc, without_lf(line.as_slice()))?;
        messages.push(message)?;
    }
    Err(endless())
}

/// The octets of the message on a line; empty if the line is not hexadecimal of at most 65,535 octets.
fn message_of(alloc: Global, line: &[u8]) -> io::Result<Vec<u8>>
    ensures { IfOk result (λ message. message.items ≡ message_on line.now) }
{
    match hex::decode(alloc, line) {
        Ok(octets) if octets.len() <= MAX_REQUEST => Ok(octets),
        Err(FromHexError::OutOfMemory) => Err(io::Error::from(AllocError)),
        _ => Ok(Vec::new(alloc)),
    }
}
