//! Answering the requests of streams and datagrams held in memory.
ghost use Rattle.std.specs.Prelude.{◌<◌, ◌≤◌, length, Some};
ghost use Rattle.dns_message.specs.Message.{message_limit};
ghost use Rattle.requests.specs.Allowed.{IsReplyFrom};
ghost use Rattle.serve_core.specs.declared.transport.Transport.TheVariants.{Tcp};
ghost use Rattle.requests.specs.Served.{Grows};
ghost use Rattle.tcp_connections.specs.Served.{EndsAs};
ghost use Rattle.requests.specs.Exchanged.{EndsBy};
ghost use Rattle.tcp_connections.specs.Requests.{EachGrows};
ghost use Rattle.memory_devices.specs.MemoryStream.{stream_octets};
ghost use Rattle.memory_devices.specs.MemoryDatagrams.{datagram_octets};

use crate::memory_datagrams::MemoryDatagrams;
use crate::memory_stream::MemoryStream;
use requests::{Allowed, Counted, DatagramsEnd, Gate, Handler, StreamEnd, serve_udp};
use std::alloc::Global;
use std::net::SocketAddr;
use std::sync::Wait;
use tcp_connections::{Messages, serve_stream};

/// Answers the requests of a stream held in memory one after another, each by the rights that rules give to who sends it from an address,
/// until the stream ends. Returns how it ended, and the stream. What is
/// written after the octets already there is the frames of the replies, in the order of the requests: all of them, with nothing left to be
/// read, if the stream ends cleanly; otherwise a prefix of them (RFC 1035, 4.2.2). Nothing that was known is forgotten.
pub fn answer_stream<R: Wait, M: Messages, A: tcp_connections::Handler<M>, G: Gate>(
    rt: &R,
    alloc: Global,
    handler: &mut A,
    allowed: Allowed<'_>,
    from: SocketAddr,
    stream: MemoryStream,
    gate: &G,
    room: &mut [u8],
    out: &mut [u8],
) -> (StreamEnd, MemoryStream)
    requires room { 0 < length room.old }
    requires out { message_limit ≤ length out.old }
    ensures ends { EndsAs (IsReplyFrom A.is_reply allowed.entry.rules.now Tcp from) result.0 (A.seen handler.old (A.asker handler.old)) (stream_octets stream) (A.seen handler.new (A.asker handler.old)) (Some (stream_octets result.1)) }
    ensures grows { EachGrows (A.seen handler.new) (A.seen handler.old) }
{
    let mut counted = Counted::new(stream);
    let end = serve_stream(
        rt,
        alloc,
        handler,
        allowed,
        from,
        &mut counted,
        gate,
        room,
        out,
    );
    (end, counted.inner)
}

/// Answers at most `most` datagrams held in memory, one after another. Returns how that ended, and the datagrams. The replies are sent in the
/// order of the requests, each to the client that sent the request, which may update and transfer according to its own address and the request.
/// Replies whose send fails are left out, and are counted (RFC 1035, 4.2.1). Nothing that was known is forgotten.
pub fn answer_datagrams<R: Wait, A: Handler, G: Gate>(
    rt: &R,
    handler: &mut A,
    datagrams: MemoryDatagrams,
    allowed: Allowed<'_>,
    most: u64,
    gate: &G,
    request: &mut [u8],
    out: &mut [u8],
) -> (DatagramsEnd, MemoryDatagrams)
    requires request_room { message_limit ≤ length request.old }
    requires reply_room { message_limit ≤ length out.old }
    ensures ends { EndsBy A.is_reply allowed.entry.rules.now result.0 (A.seen handler.old) (datagram_octets datagrams) datagrams.faults most (A.seen handler.new) (Some (datagram_octets result.1)) result.1.faults }
    ensures grows { Grows (A.seen handler.new) (A.seen handler.old) }
{
    let mut left = datagrams;
    let end = serve_udp(rt, handler, &mut left, allowed, most, gate, request, out);
    (end, left)
}
