//! What is logged as a zone begins to be served: the addresses, and warnings.
use crate::key_rights::may_update;
use command_line::{Serve, is_routed};
use dnsd_setup::{Listening, Log, LogLine, StartedZone};
use notify::large_in;
use std::net::SocketAddr;
use std::sync::Wait;
use zone_tree::ZoneRead;

/// What is logged once all workers have started.
pub fn listening_for(
    serve: &Serve<'_>,
    begun: &StartedZone,
    addresses: Vec<SocketAddr>,
    kept: u32,
) -> Listening {
    let zone = begun.zone();
    Listening {
        addresses,
        apex: zone.apex().copy(),
        serial: zone.serial(),
        records: begun.records(),
        loses_updates: serve.store.is_none() && may_update(serve),
        kept,
        wanted: serve.udp_buffer,
    }
}

/// Logs warnings of what may differ from what the operator expects.
pub fn warn<R: Wait>(rt: &R, serve: &Serve<'_>, log: &Log) {
    for address in serve.listen.iter() {
        if address.ip().is_unspecified() {
            log.add(rt, LogLine::Wildcard(*address));
        }
    }
    if is_routed(serve.secondaries.as_slice(), serve.listen.as_slice()) {
        log.add(rt, LogLine::Routed);
    }
}

/// Logs warnings of a zone whose apex is the root, if no origin was given, and of one that stock secondaries would not accept.
pub fn warn_of_zone<R: Wait>(rt: &R, serve: &Serve<'_>, begun: &StartedZone, log: &Log) {
    let zone = begun.zone();
    if zone.apex().is_root() && !serve.has_origin {
        log.add(rt, LogLine::RootApex);
    }
    if let Some(large) = large_in(zone) {
        log.add(rt, LogLine::Large(large));
    }
}
