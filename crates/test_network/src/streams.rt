//! Streams that are served in shares of work, to each of their ends.
ghost use Rattle.std.specs.Prelude.{◌<◌, ◌≤◌, length};

use crate::echo::Echo;
use crate::pieces::{After, Pieces, address, room_of};
use requests::{Allowed, StreamEnd};
use std::alloc::{AllocError, Global};
use std::sync::Wait;
use std::test::Fail;
use tcp_connections::{ConnectionState, serve_some};

/// Serves a stream, one share of work after another, until it ends; `requests` of its requests are answered. Returns how it ends.
fn serve_to_end<R: Wait>(
    rt: &R,
    alloc: Global,
    stream: &mut Pieces,
    requests: u32,
    room: &mut [u8],
    out: &mut [u8],
) -> StreamEnd
    requires room { 0 < length room.old }
    requires out { 65535 ≤ length out.old }
{
    let mut echo = Echo::new(requests);
    let mut conversation = ConnectionState::new(alloc);
    for _ in rt.forever() {
        let rules = Allowed::new(alloc, &[]);
        match serve_some(
            rt,
            &mut echo,
            rules,
            address(1),
            &mut conversation,
            stream,
            room,
            out,
        ) {
            Ok(_) => {}
            Err(end) => return end,
        }
    }
    unreachable!()
}

/// The same. AllocError if there is no memory for its buffers.
pub(crate) fn end_of<R: Wait>(
    rt: &R,
    alloc: Global,
    stream: &mut Pieces,
    requests: u32,
) -> Result<StreamEnd, AllocError> {
    let mut room = room_of(alloc, 4_096)?;
    let mut out = room_of(alloc, 65_535)?;
    Ok(serve_to_end(rt, alloc, stream, requests, &mut room, &mut out))
}

/// Four requests: one of one octet, one of two, whose reply has two messages, one of no octets, which has no reply, and one of one octet.
const SENT: [u8; 12] = [0, 1, b'a', 0, 2, b'b', b'c', 0, 0, 0, 1, b'd'];

/// Their replies.
const REPLIES: [u8; 12] = [0, 1, b'a', 0, 1, 1, 0, 1, 2, 0, 1, b'd'];

/// Some octets of the requests, what follows them, and the expected end of the stream.
#[derive(Drop)]
struct Case {
    sent: usize,
    after: After,
    /// The number of requests that are answered.
    requests: u32,
    /// The number of octets of replies that the stream takes.
    room: usize,
    end: StreamEnd,
    /// The number of octets of the replies that are written; the maximum number, if no version is loaded.
    replied: usize,
}

/// All of the requests.
const WHOLE: Case = Case {
    sent: 12,
    after: After::End,
    requests: 4,
    room: usize::MAX,
    end: StreamEnd::Clean,
    replied: 12,
};

/// Whether a stream ends as expected if its octets are read and written in pieces of this size.
fn ends_so<R: Wait>(rt: &R, alloc: Global, case: &Case, size: usize) -> Result<bool, AllocError> {
    let sent = SENT.get(..case.sent).unwrap_or(&[]);
    let mut stream = Pieces {
        size,
        after: case.after,
        room: case.room,
        ..Pieces::new(alloc, sent, 1)?
    };
    let end = end_of(rt, alloc, &mut stream, case.requests)?;
    let replies = REPLIES.get(..case.replied).unwrap_or(&[]);
    let written = stream.written(alloc)?;
    let is_whole = written.len() == replies.len() || end == StreamEnd::Spent;
    Ok(end == case.end && is_whole && replies.starts_with(&written))
}

/// The same, for pieces of each size.
fn all_end_so<R: Wait>(rt: &R, alloc: Global, case: Case) -> Result<bool, AllocError> {
    for size in 1..14usize {
        if !ends_so(rt, alloc, &case, size)? {
            return Ok(false);
        }
    }
    Ok(true)
}

/// The number of octets of the requests that a stream has, how it ends, and the number of octets of the replies that are written. It ends
/// before a request, within its length, or within its message.
const ENDS: [(usize, StreamEnd, usize); 13] = [
    (0, StreamEnd::Clean, 0),
    (1, StreamEnd::Torn, 0),
    (2, StreamEnd::Torn, 0),
    (3, StreamEnd::Clean, 3),
    (4, StreamEnd::Torn, 3),
    (5, StreamEnd::Torn, 3),
    (6, StreamEnd::Torn, 3),
    (7, StreamEnd::Clean, 9),
    (8, StreamEnd::Torn, 9),
    (9, StreamEnd::Clean, 9),
    (10, StreamEnd::Torn, 9),
    (11, StreamEnd::Torn, 9),
    (12, StreamEnd::Clean, 12),
];

#[test]
fn streams_end_after_any_octet(rt: HostRuntime) -> Result<(), Fail> {
    for (sent, end, replied) in ENDS {
        let case = Case {
            sent,
            end,
            replied,
            ..WHOLE
        };
        assert!(rt;
            all_end_so(&rt, rt.alloc(), case)?,
            "an end after {sent} octets"
        );
    }
    Ok(())
}

#[test]
fn streams_fail_after_any_octet(rt: HostRuntime) -> Result<(), Fail> {
    for (sent, _end, replied) in ENDS {
        let case = Case {
            sent,
            after: After::Failure,
            end: StreamEnd::Device,
            replied,
            ..WHOLE
        };
        assert!(rt;
            all_end_so(&rt, rt.alloc(), case)?,
            "a failure after {sent} octets"
        );
    }
    Ok(())
}

#[test]
fn streams_end_where_no_version_is_loaded(rt: HostRuntime) -> Result<(), Fail> {
    // The replies to the requests before may be written.
    for (requests, replied) in [(0, 0usize), (1, 3), (2, 9), (3, 9)] {
        let case = Case {
            requests,
            end: StreamEnd::Spent,
            replied,
            ..WHOLE
        };
        assert!(rt;
            all_end_so(&rt, rt.alloc(), case)?,
            "after {requests} requests"
        );
    }
    Ok(())
}

#[test]
fn a_write_that_fails_leaves_a_beginning(rt: HostRuntime) -> Result<(), Fail> {
    for room in 0..12usize {
        let case = Case {
            room,
            end: StreamEnd::Device,
            replied: room,
            ..WHOLE
        };
        assert!(rt; all_end_so(&rt, rt.alloc(), case)?, "{room} octets");
    }
    Ok(())
}

/// Whether these requests are echoed if they are read and written in pieces of this size, or pseudorandomly larger by less than `spread`.
fn are_echoed<R: Wait>(
    rt: &R,
    alloc: Global,
    sent: &[u8],
    sizes: (usize, u64, u64),
) -> Result<bool, AllocError> {
    let (size, spread, number) = sizes;
    let mut stream = Pieces {
        size,
        spread,
        number,
        after: After::End,
        ..Pieces::new(alloc, sent, 1)?
    };
    let end = end_of(rt, alloc, &mut stream, 10_000)?;
    Ok(end == StreamEnd::Clean && stream.written(alloc)?.as_slice() == sent)
}

/// Sizes of pieces: the size, the bound of the pseudorandom number that is added, and the number that it starts with.
const SIZES: [(usize, u64, u64); 12] = [
    (1, 1, 0),
    (7, 1, 0),
    (4_096, 1, 0),
    (100_000, 1, 0),
    (1, 61, 0),
    (1, 61, 1),
    (1, 61, 2),
    (1, 61, 3),
    (1, 61, 4),
    (1, 61, 5),
    (1, 61, 6),
    (1, 61, 7),
];

#[test]
fn many_requests_that_come_at_once_are_answered_in_order(rt: HostRuntime) -> Result<(), Fail> {
    let mut sent = Vec::new(rt.alloc());
    for number in 0..10_000u32 {
        sent.extend_from_slice(&[0, 4])?;
        sent.extend_from_slice(&number.to_be_bytes())?;
    }
    for sizes in SIZES {
        assert!(rt; are_echoed(&rt, rt.alloc(), &sent, sizes)?, "by {sizes:?}");
    }
    Ok(())
}

/// The frames of two requests, and also those of their replies.
const FRAMES: [u8; 8] = [0, 3, b'a', b'b', b'c', 0, 1, b'd'];

/// Whether two frames are answered that are read in these pieces, and whose replies are written in those: one bit for each octet after which a
/// piece ends.
fn is_answered<R: Wait>(
    rt: &R,
    alloc: Global,
    cuts: (u64, u64),
    out: &mut [u8],
) -> Result<bool, AllocError> {
    let mut stream = Pieces {
        size: 8,
        cuts,
        may_block: false,
        after: After::End,
        ..Pieces::new(alloc, &FRAMES, 1)?
    };
    let mut room = room_of(alloc, 64)?;
    if out.len() < 65_535 {
        return Ok(false);
    }
    let end = serve_to_end(rt, alloc, &mut stream, 2, &mut room, out);
    Ok(end == StreamEnd::Clean && stream.written(alloc)?.as_slice() == FRAMES.as_slice())
}

#[test]
fn two_frames_in_any_pieces_are_answered(rt: HostRuntime) -> Result<(), Fail> {
    let mut out = room_of(rt.alloc(), 65_535)?;
    // There are seven positions between their octets: at most two of them, of the octets read, and of those written.
    for number in 0..0x4000u64 {
        let cuts = (number % 0x80, number / 0x80);
        if cuts.0.count_ones() > 2 || cuts.1.count_ones() > 2 {
            continue;
        }
        assert!(rt; is_answered(&rt, rt.alloc(), cuts, &mut out)?, "{cuts:?}");
    }
    Ok(())
}
