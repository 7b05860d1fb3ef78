//! What is logged of signed requests that are refused.
use dns_message::is_update;
use std::net::SocketAddr;
use std::sync::Wait;
use tsig::Key;
use zone_server::{TsigFault, TsigLog};

/// Logs that a request from an address is refused, which is signed by a key.
pub(crate) fn tell_fault<R: Wait, O: TsigLog>(
    rt: &R,
    log: &O,
    from: SocketAddr,
    key: Option<&Key>,
    fault: TsigFault,
    request: &[u8],
) {
    if let Some(key) = key {
        log.tell_fault(rt, from, key.name(), fault, is_update(request));
    }
}
