//! The most octets of the reply to a request (RFC 1035, 4.2; RFC 6891, 6.2.3).
ghost use Rattle.std.specs.Prelude.{◌≡◌, ◌≤◌};
ghost use Rattle.dns_message.specs.Message.{message_limit};
ghost use Rattle.signed_replies.specs.Signed.{edns_of, reply_limit};

use dns_message::{Edns, Query, Said, is_update, parse_into};
use serve_core::Transport;

/// The most octets of the reply to a request without its TSIG, by its OPT, or its lack.
#[tactic(auto, using(crate::proofs::ErrorLemmas::room_most))]
pub(crate) fn reply_limit(request: &[u8], transport: Transport) -> usize
    ensures limit { result ≡ reply_limit transport request.now }
    ensures least { 512 ≤ result }
    ensures most { result ≤ message_limit }
{
    transport.limit(edns_in(request))
}

/// The OPT of a query that is obeyed; None of other requests, and of a query without one.
fn edns_in(request: &[u8]) -> Option<Edns>
    ensures { result ≡ edns_of request.now }
{
    if is_update(request) {
        return None;
    }
    let mut query = Query::blank();
    match parse_into(request, &mut query) {
        Said::Query => query.edns,
        Said::Silent => None,
        Said::Fault(_, _) => None,
        Said::BadOpt(_, _, _) => None,
    }
}
