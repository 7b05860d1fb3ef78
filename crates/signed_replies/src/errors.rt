//! How a request is answered that isn't taken (RFC 8945, 5.2 and 5.3.2).
ghost use Rattle.std.specs.Prelude.{◌≡◌, ◌≤◌, ◌<◌, ◌-◌, ◌^◌, length, take};
ghost use Rattle.dns_message.specs.Message.{message_limit, number_at};
ghost use Rattle.dns_message.specs.Reads.{header_of};
ghost use Rattle.signed_replies.specs.Signed.{error_reply};
ghost use Rattle.tsig.specs.Signing.{with_error_tsig};

use dns_message::{HEADER, Head, OPCODE_UPDATE};
use dns_rdata::Rcode;
use serve_core::{Heading, Transport, write_code};
use tsig::{Tsig, TsigError, add_error_tsig};

/// OPCODE's lowest bit, by its place in the third octet (RFC 1035, 4.1.1).
const OPCODE: u8 = 8;

/// How many OPCODEs four bits tell (RFC 1035, 4.1.1).
const OPCODES: u8 = 16;

/// What a reply copies of a request's header.
fn header_of(request: &[u8]) -> Head
    requires { HEADER ≤ length request.now }
    ensures { result ≡ header_of request.now }
{
    let opcode = request[2] / OPCODE % OPCODES;
    Head {
        id: u16::from_be_bytes([request[0], request[1]]),
        opcode,
        rd: request[2] % 2 == 1 && opcode != OPCODE_UPDATE,
    }
}

/// Writes the reply to a request that has a code, and its header alone, to the front of `out`, and gives how many octets it has.
#[tactic(auto, using(crate::proofs::ErrorLemmas::written_size, crate::proofs::ErrorLemmas::written_count, crate::proofs::ErrorLemmas::room_most))]
pub(crate) fn write_error(
    request: &[u8],
    rcode: Rcode,
    transport: Transport,
    out: &mut [u8],
) -> usize
    requires header { HEADER ≤ length request.now }
    requires room { message_limit ≤ length out.old }
    ensures octets { take result out.new ≡ error_reply transport rcode request.now }
    ensures size { result ≡ HEADER }
    ensures counted { number_at out.new 10 < 2 ^ 16 - 1 }
{
    write_code(
        &Heading::header_alone(header_of(request)),
        rcode,
        transport,
        out,
    )
}

/// Writes the reply that reports an error of a request's TSIG, unsigned, to the front of `out`, and gives how many octets it has (RFC 8945, 5.3.2).
pub(crate) fn write_unsigned(
    request: &[u8],
    tsig: &Tsig<'_>,
    error: TsigError,
    transport: Transport,
    out: &mut [u8],
) -> usize
    requires header { HEADER ≤ length request.now }
    requires room { message_limit ≤ length out.old }
    ensures octets { take result out.new ≡ with_error_tsig tsig.now error (error_reply transport Rcode.NotAuth request.now) }
    ensures bound { result ≤ message_limit }
{
    let len = write_error(request, Rcode::NotAuth, transport, out);
    add_error_tsig(tsig, error, out, len)
}
