//! Lack of memory: the behaviour when each memory allocation fails in turn, as in `refused.sh`.

use crate::linked::Served;
use crate::pieces::{After, Pieces, open_of, repeated, written};
use crate::polls::{Comers, Poll};
use crate::running::{Running, SECOND};
use crate::streams::end_of;
use requests::StreamEnd;
use std::alloc::{AllocError, Global};
use std::sync::Wait;

/// A frame of 259 octets, which is its own reply, and these octets after it, both twice. Queues have to grow several times for them.
fn long_and(alloc: Global, octets: &[u8]) -> Result<Vec<u8>, AllocError> {
    let mut both = repeated(alloc, &[1], 259)?;
    both.extend_from_slice(octets)?;
    repeated(alloc, &both, 2)
}

/// Requests: after each long one another one, whose reply has two messages.
fn requests(alloc: Global) -> Result<Vec<u8>, AllocError> {
    long_and(alloc, &[0, 2, b'a', b'b'])
}

/// Their replies.
fn replies(alloc: Global) -> Result<Vec<u8>, AllocError> {
    long_and(alloc, &[0, 1, 1, 0, 1, 2])
}

/// Whether two attempts, one of which may fail for lack of memory (None), have the expected result: each of them that does not fail, and at
/// least one.
fn are_so(first: Option<bool>, second: Option<bool>) -> bool {
    first.or(second) == Some(true) && second.or(first) == Some(true)
}

/// Whether all replies are written to a stream that is served to its end. AllocError if there is no memory for the stream or for the state that
/// serves it, or if the stream ends for lack of memory and a prefix of the replies is written.
fn is_served<R: Wait>(rt: &R, alloc: Global) -> Result<bool, AllocError> {
    let sent = requests(alloc)?;
    let replies = replies(alloc)?;
    let mut stream = Pieces {
        size: 70,
        after: After::End,
        ..Pieces::new(alloc, &sent, 1)?
    };
    let end = end_of(rt, alloc, &mut stream, 9)?;
    let written = stream.written(alloc)?;
    if end == StreamEnd::NoMemory && replies.starts_with(&written) {
        return Err(AllocError);
    }
    Ok(end == StreamEnd::Clean && written.as_slice() == replies.as_slice())
}

#[test]
fn streams_end_where_memory_is_refused(rt: HostRuntime) {
    let first = is_served(&rt, rt.alloc()).ok();
    let second = is_served(&rt, rt.alloc()).ok();
    assert!(rt; are_so(first, second));
}

/// Whether all replies are written on each of three connections, except one that may have ended for lack of memory, which is counted.
/// AllocError if there is no memory for the connections.
fn are_served<R: Wait>(rt: &R, alloc: Global) -> Result<bool, AllocError> {
    let sent = requests(alloc)?;
    let mut served = Served::new(alloc)?;
    for _connection in 0..3u32 {
        let stream = Pieces {
            size: 70,
            ..Pieces::new(alloc, &sent, 1)?
        };
        served.put(stream, false, 0)?;
    }
    for _round in 0..100u32 {
        // If there is no memory for their keys, none of them is served.
        let _ = served.serve(rt, &[0, 1, 2], 0);
    }
    let open = served.links.len();
    let ends = served.ends;
    let gone = written(alloc, &served.outputs)?;
    let is_written = gone == repeated(alloc, &replies(alloc)?, open)?;
    let is_counted = (open == 3 && ends.no_memory == 0) || (open == 2 && ends.no_memory == 1);
    Ok(is_written && is_counted && ends.total() == ends.no_memory)
}

#[test]
fn connections_go_on_where_memory_is_refused(rt: HostRuntime) {
    let first = are_served(&rt, rt.alloc()).ok();
    let second = are_served(&rt, rt.alloc()).ok();
    assert!(rt; are_so(first, second));
}

/// Whether a worker serves four connections, except one that may get no slot for lack of memory, or end for it. AllocError if there is no
/// memory for the worker, or for the keys that the poll reports.
fn are_turned_to<R: Wait>(rt: &R, alloc: Global) -> Result<bool, AllocError> {
    let sent = requests(alloc)?;
    let poll = Poll {
        step: SECOND / 16,
        ..Poll::new(alloc, 8)
    };
    let comers = Comers {
        size: 70,
        ..Comers::new(alloc, 4, &sent)
    };
    let mut worker = Running::new(alloc, poll, comers)?;
    if worker.turn(rt, 100).is_err() {
        return Err(AllocError);
    }
    let outputs = worker.outputs();
    let open = open_of(outputs);
    let tally = worker.turns.tally();
    let wanting = tally.no_room.saturating_add(tally.ends.no_memory);
    let gone = written(alloc, outputs)?;
    let is_written = gone == repeated(alloc, &replies(alloc)?, open)?;
    let is_counted = (open == 4 && wanting == 0) || (open == 3 && wanting == 1);
    Ok(is_written && is_counted && tally.begun.saturating_add(tally.no_room) == 4)
}

#[test]
fn turns_go_on_where_memory_is_refused(rt: HostRuntime) {
    let first = are_turned_to(&rt, rt.alloc()).ok();
    let second = are_turned_to(&rt, rt.alloc()).ok();
    assert!(rt; are_so(first, second));
}
