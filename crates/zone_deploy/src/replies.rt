//! Which messages reply to a request (RFC 1035, 4.1.1).
ghost use Rattle.std.specs.Prelude.{◌≡◌, ◌≤◌, ◌+◌, length, IfSome};
ghost use Rattle.dns_message.specs.Message.{number_at};
ghost use Rattle.zone_deploy.specs.Replies.{opcode_of, is_reply_to, code_of};

use dns_message::{HEADER, QR};

/// OPCODE's lowest bit, by its place in the third octet (RFC 1035, 4.1.1).
const OPCODE: u8 = 8;

/// How many OPCODEs and RCODEs four bits have (RFC 1035, 4.1.1).
const CODES: u8 = 16;

/// The number of the RCODE of a reply to a request, which has its ID and its OPCODE; None of other octets.
pub(crate) fn code_of(request: &[u8], message: &[u8]) -> Option<u8>
    requires { HEADER ≤ length request.now }
    ensures code { result ≡ code_of request.now message.now }
    ensures header { IfSome result (λ _. HEADER ≤ length message.now) }
{
    if message.len() < HEADER {
        return None;
    }
    if is_reply_to(request, message) {
        Some(message[3] % CODES)
    } else {
        None
    }
}

/// Whether a header is that of a reply to a request: QR is 1, and it has the request's ID and OPCODE.
fn is_reply_to(request: &[u8], message: &[u8]) -> bool
    requires request { HEADER ≤ length request.now }
    requires header { HEADER ≤ length message.now }
    ensures { result ≡ is_reply_to request.now message.now }
{
    message[2] >= QR
        && number_at(message, 0) == number_at(request, 0)
        && opcode_of(message) == opcode_of(request)
}

/// The number of 16 bits at a position (RFC 1035, 2.3.2).
pub(crate) fn number_at(octets: &[u8], at: usize) -> u16
    requires { at + 2 ≤ length octets.now }
    ensures { result ≡ number_at octets.now at }
{
    u16::from_be_bytes([octets[at], octets[at + 1]])
}

/// The OPCODE of a message (RFC 1035, 4.1.1).
fn opcode_of(message: &[u8]) -> u8
    requires { HEADER ≤ length message.now }
    ensures { result ≡ opcode_of message.now }
{
    message[2] / OPCODE % CODES
}
