//! What a request for a transfer got, by the octets of its reply (RFC 1995, 4; RFC 5936, 2.2).
ghost use Rattle.std.specs.Prelude.{◌≡◌, ◌≤◌, ◌+◌, drop, length, IfSome};
ghost use Rattle.message_counts.specs.Transfers.{asks_transfer, incremental_of, owner_end, second_type, transfer_of};

use crate::places::{ANCOUNT, HEADER, QDCOUNT, first_name_end, number_at, rcode_of};
use counters::Transfer;

/// The type IXFR (RFC 1995, 2).
const IXFR: u16 = 251;

/// The type AXFR (RFC 1035, 3.2.3).
const AXFR: u16 = 252;

/// The type SOA (RFC 1035, 3.2.2).
const SOA: u16 = 6;

/// How many octets of a record stand between its owner and its data: type, class, TTL and length (RFC 1035, 3.2.1).
const FIXED: usize = 10;

/// Whether a type asks for a transfer.
pub fn asks_transfer(qtype: u16) -> bool
    ensures { result ≡ asks_transfer qtype }
{
    qtype == IXFR || qtype == AXFR
}

/// What a question of a type got by a reply's first message; None where it asks for no transfer.
pub fn transfer_of(qtype: u16, reply: &[u8]) -> Option<Transfer>
    ensures { result ≡ transfer_of qtype reply.now }
{
    let is_refused = rcode_of(reply) != 0;
    match qtype {
        AXFR => Some(if is_refused {
            Transfer::AxfrRefused
        } else {
            Transfer::Axfr
        }),
        IXFR => Some(incremental_of(is_refused, reply)),
        _ => None,
    }
}

/// What IXFR got.
fn incremental_of(is_refused: bool, reply: &[u8]) -> Transfer
    ensures { result ≡ incremental_of is_refused reply.now }
{
    if is_refused {
        return Transfer::IxfrRefused;
    }
    if number_at(reply, ANCOUNT) < 2 {
        return Transfer::IxfrCurrent;
    }
    if second_type(reply) == Some(SOA) {
        Transfer::Ixfr
    } else {
        Transfer::IxfrFull
    }
}

/// The type of the second record of a reply; None where it can't be read.
fn second_type(reply: &[u8]) -> Option<u16>
    ensures { result ≡ second_type reply.now }
{
    let first = if number_at(reply, QDCOUNT) == 0 {
        HEADER
    } else {
        first_name_end(reply)? + 4
    };
    let fixed = owner_end(reply, first)?;
    let data = fixed + FIXED;
    let length = usize::from(number_at(reply, data - 2));
    let at = owner_end(reply, data + length)?;
    Some(number_at(reply, at))
}

/// The position after a record's owner that begins at one: labels and the length 0, or a pointer (RFC 1035, 4.1.4); None where there is none.
#[tactic(auto, using(crate::proofs::OwnerLemmas::owner_ends_here, crate::proofs::OwnerLemmas::ends_by_pointer, crate::proofs::OwnerLemmas::no_owner_label, crate::proofs::OwnerLemmas::no_owner_end))]
fn owner_end(octets: &[u8], start: usize) -> Option<usize>
    ensures end { result ≡ owner_end start 0 (drop start octets.now) }
    ensures within { IfSome result (λ end. end ≤ length octets.now + 1) }
{
    let mut at = start;
    while let Some(len) = octets.get(at) {
        if *len == 0 {
            return Some(at + 1);
        }
        if *len > 191 {
            return Some(at + 2);
        }
        if *len > 63 {
            return None;
        }
        at += usize::from(*len) + 1;
    }
    None
}
