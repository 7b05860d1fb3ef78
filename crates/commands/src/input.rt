//! Reading an input to its end.
ghost use Rattle.std.specs.Prelude.{◌≡◌, ◌^◌, Some, IfOk, OnOk, IfSome};
ghost use Rattle.commands.specs.declared.input.TheConstants.{MAX_READS};
ghost use Rattle.commands.specs.Input.{is_separator as ends_zone_text, zone_text_of, behind_zone_text};

use crate::lines::without_end;
use std::alloc::Global;
use std::io::{self, BufRead};

/// The number of reads after which an input that has not ended is treated as an I/O error.
pub const MAX_READS: u64 = 1 << 32;

/// The error for an input that has not ended after 2^32 reads.
pub fn endless() -> io::Error
    ensures { MAX_READS ≡ 2 ^ 32 }
{
    io::Error::from(io::ErrorKind::TimedOut)
}

/// Reads the zone's text from the start of an input: everything before the first line `%`, which is consumed too, or the whole input if there is no
/// such line.
///
/// An `Err` is an I/O error, lack of memory, or an input that has not ended after 2^32 reads.
pub fn read_zone_text<R: BufRead>(alloc: Global, reader: &mut R) -> io::Result<Vec<u8>>
    // Clauses about octets hold if the reader reports its remaining octets.
    ensures text { IfOk result (λ text. IfSome (R.remaining reader.old) (λ input. text.items ≡ zone_text_of input)) }
    ensures rest { OnOk result (IfSome (R.remaining reader.old) (λ input.
        R.remaining reader.new ≡ Some (behind_zone_text input))) }
{
    let mut text = Vec::new(alloc);
    for _ in 0..MAX_READS {
        let start = text.len();
        if reader.read_until(b'\n', &mut text)? == 0 {
            return Ok(text);
        }
        if is_separator(&text[start..]) {
            text.truncate(start);
            return Ok(text);
        }
    }
    Err(endless())
}

/// Whether a line, including its end, is the line `%`, which ends a zone's text.
#[tactic(auto, unfolding(crate::specs::Input::is_separator))]
fn is_separator(line: &[u8]) -> bool
    ensures { result ≡ ends_zone_text line.now }
{
    without_end(line) == b"%".as_slice()
}
