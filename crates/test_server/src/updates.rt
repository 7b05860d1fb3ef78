//! Updates, and their results (RFC 2136, 2 and 2.2).
ghost use Rattle.std.specs.Prelude.{◌≡◌, true, IfSome};
ghost use Rattle.zone_server.specs.UpdateResult.{IsDone};

use dns_engine::FirstZone;
use dns_rdata::Rcode;
use memory_devices::{asker, request_of};
use std::alloc::Global;
use update_batches::{UpdateRequest, Verdict};
use zone_server::{
    Outgoing, Poll, QueuedResult, QueuedUpdate, ReplyTo, Serials, ServerName, ServerState,
    UpdateResult,
};

/// An update that adds an A record of 192.0.2.1 at a.example, built with Python (RFC 2136, 2).
const ADD: &str =
    "000128000001000000010000076578616d706c6500000600010161076578616d706c6500000100010000012c0004c0000201";

/// The same at a.test, which is outside the zone.
const OUTSIDE: &str =
    "000128000001000000010000076578616d706c6500000600010161047465737400000100010000012c0004c0000201";

/// An update that deletes an RRset with a TTL that isn't 0: FORMERR (RFC 2136, 3.4.1.3).
const WITH_TTL: &str =
    "000628000001000000010000076578616d706c6500000600010161076578616d706c6500000100ff0000012c0000";

/// An update that adds the address of a number at a.example: 192.0.2 followed by the number.
pub(crate) fn update(alloc: Global, number: u8) -> Option<UpdateRequest>
    ensures { IfSome result (λ request. request.may ≡ true) }
{
    let mut octets = hex::decode(alloc, ADD.as_bytes()).ok()?;
    if let Some(last) = octets.last_mut() {
        *last = number;
    }
    request_of(alloc, octets)
}

/// The destination of a reply on a connection, with a ticket.
pub(crate) fn to_ticket(ticket: usize) -> ReplyTo {
    ReplyTo::Connection {
        worker: 1,
        key: 70,
        ticket,
    }
}

/// The destination of a reply by datagram.
pub(crate) fn to_client() -> ReplyTo {
    ReplyTo::Datagram {
        worker: 2,
        to: asker(4711),
        tsig: None,
    }
}

/// Whether a worker is to be woken for the connection of [`to_ticket`].
pub(crate) fn is_wake(outgoing: &Outgoing) -> bool {
    matches!(
        outgoing,
        Outgoing::Wake {
            worker: 1,
            key: 70,
            ..
        }
    )
}

/// Puts the result SERVFAIL for the update of a number at a ticket. Gives whether its worker is to be woken, and nothing else is to be sent. None
/// if memory allocation fails.
pub(crate) fn put_servfail<Z: FirstZone, N: ServerName>(
    alloc: Global,
    state: &mut ServerState<'_, Z, N>,
    number: u8,
    ticket: usize,
) -> Option<bool> {
    let Ok(mut results) = Vec::with_capacity(alloc, 1) else {
        return None;
    };
    let Ok(mut outgoing) = Vec::with_capacity(alloc, 1) else {
        return None;
    };
    let done = servfail(state, update(alloc, number)?);
    let reply_to = to_ticket(ticket);
    results.push_reserved(QueuedResult { done, reply_to });
    state.put_results(&mut results, &mut outgoing);
    Some(outgoing.len() == 1 && outgoing.iter().all(is_wake))
}

/// The update of a number, with the destination of its reply.
pub(crate) fn queued(alloc: Global, number: u8, reply_to: ReplyTo) -> Option<QueuedUpdate> {
    let request = update(alloc, number)?;
    Some(QueuedUpdate { request, reply_to })
}

/// An update from hexadecimal text, with the destination of its reply.
fn queued_text(alloc: Global, text: &str, reply_to: ReplyTo) -> Option<QueuedUpdate> {
    let octets = hex::decode(alloc, text.as_bytes()).ok()?;
    let request = request_of(alloc, octets)?;
    Some(QueuedUpdate { request, reply_to })
}

/// Five updates of which the first and the last make a version: the second changes nothing, the third is for another zone, and the fourth is
/// malformed. Their replies go to the first five tickets.
pub(crate) fn mixed(alloc: Global) -> Option<Vec<QueuedUpdate>> {
    let mut requests = Vec::new(alloc);
    requests.push(queued(alloc, 1, to_ticket(0))?).ok()?;
    requests.push(queued(alloc, 1, to_ticket(1))?).ok()?;
    requests
        .push(queued_text(alloc, OUTSIDE, to_ticket(2))?)
        .ok()?;
    requests
        .push(queued_text(alloc, WITH_TTL, to_ticket(3))?)
        .ok()?;
    requests.push(queued(alloc, 3, to_ticket(4))?).ok()?;
    Some(requests)
}

/// The results of these: NOERROR, NOTZONE or FORMERR (RFC 2136, 2.2 and 3), judged in version 0, each with its own serials.
pub(crate) const MIXED: [Outcome; 5] = [
    (1, Rcode::NoError, 0, Some((7, 8))),
    (1, Rcode::NoError, 0, Some((8, 8))),
    (1, Rcode::NotZone, 0, None),
    (0, Rcode::FormErr, 0, None),
    (3, Rcode::NoError, 0, Some((8, 9))),
];

/// Whether updates get these response codes.
pub(crate) fn have_codes(verdicts: &[Verdict], codes: &[u8]) -> bool {
    let mut right = verdicts.len() == codes.len();
    for (verdict, code) in verdicts.iter().zip(codes.iter()) {
        right = verdict.code.number() == *code && right;
    }
    right
}

/// The result SERVFAIL for an update in the version published last, as if memory allocation had failed for the version that it makes.
pub(crate) fn servfail<Z: FirstZone, N: ServerName>(
    state: &ServerState<'_, Z, N>,
    asked: UpdateRequest,
) -> UpdateResult
    ensures { IsDone Z.zone state.now.held.published result }
{
    let least = state.number();
    UpdateResult {
        asked,
        least,
        code: Rcode::ServFail,
        serials: None,
    }
}

/// The result of an update: the octet that tells it from others, its response code, the number of the version in which or after which it was
/// judged, and the serials before and after it.
pub(crate) type Outcome = (u8, Rcode, u64, Option<(u32, u32)>);

/// Whether the serials are these.
fn are_serials(serials: Option<Serials>, expected: Option<(u32, u32)>) -> bool {
    match (serials, expected) {
        (Some(serials), Some((before, after))) => {
            serials.before.0 == before && serials.after.0 == after
        }
        (None, None) => true,
        _ => false,
    }
}

/// Whether this result is ready at a ticket.
pub(crate) fn is_ready(fetched: &Poll, expected: &Outcome) -> bool {
    let Poll::Ready(done) = fetched else {
        return false;
    };
    let last = done.asked.messages().first().last().copied();
    last == Some(expected.0)
        && done.code == expected.1
        && done.least == expected.2
        && are_serials(done.serials, expected.3)
}
