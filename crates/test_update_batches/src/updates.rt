//! Updates, and the replies to them (RFC 2136, 2 and 3.8). Each is built with Python, and its ID is its number.
use memory_devices::request_of;
use std::alloc::Global;
use std::sync::Wait;
use update_batches::{Put, Queue, QueuedUpdate, ReplyTo};

/// Update 1 adds an A record of 192.0.2.1 at a.example.
pub(crate) const ADD_1: &str =
    "000128000001000000010000076578616d706c6500000600010161076578616d706c6500000100010000012c0004c0000201";

/// Update 2 adds another one, of 192.0.2.2.
pub(crate) const ADD_2: &str =
    "000228000001000000010000076578616d706c6500000600010161076578616d706c6500000100010000012c0004c0000202";

/// Update 3 adds the first at a.test, which is outside the zone: NOTZONE (RFC 2136, 3.4.1.3).
pub(crate) const OUTSIDE: &str =
    "000328000001000000010000076578616d706c6500000600010161047465737400000100010000012c0004c0000201";

/// Update 4 adds what update 1 adds.
pub(crate) const ADD_1_AGAIN: &str =
    "000428000001000000010000076578616d706c6500000600010161076578616d706c6500000100010000012c0004c0000201";

/// Update 5 adds an A record of 192.0.2.5 at b.example.
pub(crate) const ADD_5: &str =
    "000528000001000000010000076578616d706c6500000600010162076578616d706c6500000100010000012c0004c0000205";

/// Update 6 deletes an RRset with a TTL that isn't 0: FORMERR (RFC 2136, 3.4.1.3).
pub(crate) const WITH_TTL: &str =
    "000628000001000000010000076578616d706c6500000600010161076578616d706c6500000100ff0000012c0000";

/// The reply to update 1: NOERROR (RFC 2136, 2.2), only a header.
pub(crate) const NOERROR_1: &str = "0001a8000000000000000000";

/// The reply to update 3: NOTZONE.
pub(crate) const NOTZONE_3: &str = "0003a80a0000000000000000";

/// Whether octets are those of a hexadecimal text. None if memory allocation fails.
pub(crate) fn is_spelt(alloc: Global, octets: &[u8], text: &str) -> Option<bool> {
    Some(hex::decode(alloc, text.as_bytes()).ok()?.as_slice() == octets)
}

/// Appends an update of a peer that may update to a queue. None if memory allocation fails, or there is no room.
pub(crate) fn put<R: Wait>(
    rt: &R,
    alloc: Global,
    queue: &Queue<QueuedUpdate>,
    text: &str,
    reply_to: ReplyTo,
) -> Option<Put> {
    let octets = hex::decode(alloc, text.as_bytes()).ok()?;
    let request = request_of(alloc, octets)?;
    queue.put(rt, QueuedUpdate { request, reply_to }, 1).ok()
}
