//! Logging of requests: updates, updates and transfers that are refused, and those that are signed although there are no keys.
ghost use Rattle.std.specs.Prelude.{◌≡◌, ◌≤◌, ◌↔◌, IsTrue, None, length, if◌then◌else◌};
ghost use Rattle.zone_server.specs.Refused.{IsRefusal, AsksTransfer};
ghost use Rattle.zone_server.specs.Signed.{key_in};
ghost use Rattle.zone_server.specs.declared.service_log.Event.TheVariants.{Update as UpdateEvent, Refused as RefusedEvent};
ghost use Rattle.zone_server.specs.declared.service_log.Wanted.TheVariants.{Update as AnUpdate};

use crate::answer::UpdateOutcome;
use crate::service_log::{Event, ServiceLog, Wanted};
use dns_message::{HEADER, Place, Query, is_update, tsig_place};
use dns_name::Name;
use dns_rdata::RType;
use requests::Allowed;
use serve_core::Peer;
use std::net::SocketAddr;
use std::sync::Wait;
use wire_names::Message;

/// The code REFUSED in the fourth octet of a reply (RFC 1035, 4.1.1).
const REFUSED: u8 = 5;

/// The event of a peer's update from an address: its code and its serials if the peer may update, otherwise that it was refused (own).
fn event_of(peer: Peer, from: SocketAddr, reported: UpdateOutcome) -> Event
    ensures { result ≡ (if peer.may_update then UpdateEvent from reported.code reported.serials else RefusedEvent from AnUpdate None) }
{
    if !peer.may_update {
        return Event::Refused {
            from,
            wanted: Wanted::Update,
            record: None,
        };
    }
    Event::Update {
        from,
        code: reported.code,
        serials: reported.serials,
    }
}

/// Logs a peer's update from an address (own).
pub fn tell_update<R: Wait, L: ServiceLog>(
    rt: &R,
    log: &L,
    peer: Peer,
    from: SocketAddr,
    reported: UpdateOutcome,
) {
    log.tell(rt, event_of(peer, from, reported));
}

/// Logs a peer's update from an address, as [`tell_update`] does; of one that rules don't permit also the first record that none covers (own).
pub fn tell_served<R: Wait, L: ServiceLog>(
    rt: &R,
    log: &L,
    allowed: Option<Allowed<'_>>,
    peer: Peer,
    from: SocketAddr,
    request: &[u8],
    reported: UpdateOutcome,
) {
    if peer.may_update {
        tell_update(rt, log, peer, from, reported);
        return;
    }
    let record = match allowed {
        Some(allowed) => allowed.uncovered(from, peer.transport, request),
        None => None,
    };
    log.tell(
        rt,
        Event::Refused {
            from,
            wanted: Wanted::Update,
            record,
        },
    );
}

/// Logs a peer's query for a transfer from an address, if the reply refuses it because the peer may not have transfers (own).
pub fn tell_refused<R: Wait, L: ServiceLog>(
    rt: &R,
    log: &L,
    peer: Peer,
    from: SocketAddr,
    query: &Query,
    reply: &[u8],
) {
    if !peer.may_transfer && is_refused(reply) && asks_transfer(query) {
        let wanted = Wanted::Transfer;
        log.tell(
            rt,
            Event::Refused {
                from,
                wanted,
                record: None,
            },
        );
    }
}

/// Logs an update or a query for a transfer with a TSIG, which is not checked, since there are no keys (RFC 8945, 5.2).
pub fn tell_signed<R: Wait, L: ServiceLog>(rt: &R, log: &L, from: SocketAddr, request: &[u8]) {
    if request.len() < HEADER {
        return;
    }
    if let Some(key) = key_of(request) {
        let wanted = if is_update(request) {
            Wanted::Update
        } else {
            Wanted::Transfer
        };
        log.tell(rt, Event::Signed { from, wanted, key });
    }
}

/// The name of the key that signs a request. None if no TSIG counts, or the request cannot be parsed (RFC 8945, 4.2 and 5.2).
fn key_of(request: &[u8]) -> Option<Name>
    requires { HEADER ≤ length request.now }
    ensures { result ≡ key_in request.now }
{
    let message = Message::new(request);
    match tsig_place(&message)? {
        Place::At(at) => match message.read_name(at) {
            Ok((key, _)) => Some(key),
            Err(_) => None,
        },
        Place::Bare => None,
        Place::Bad => None,
    }
}

/// Whether the code of a reply is REFUSED (RFC 1035, 4.1.1).
fn is_refused(reply: &[u8]) -> bool
    ensures { IsTrue result ↔ IsRefusal reply.now }
{
    reply.len() > 3 && reply[3] % 16 == REFUSED
}

/// Whether a query is for a transfer (RFC 5936, 2.1; RFC 1995, 3).
fn asks_transfer(query: &Query) -> bool
    ensures { IsTrue result ↔ AsksTransfer query.now }
{
    let qtype = query.question.rtype;
    qtype == RType::AXFR || qtype == RType::IXFR
}
