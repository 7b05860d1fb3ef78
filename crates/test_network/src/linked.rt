//! Connections that are served under their keys, at times that the test gives.

use crate::echo::{Both, Echo};
use crate::pieces::{After, Output, Pieces, address, room_of, written};
use crate::running::{SECOND, may};
use requests::Allowed;
use rights::Rule;
use slab::Slab;
use std::alloc::{AllocError, Global};
use std::rc::Rc;
use std::sync::Wait;
use std::test::Fail;
use tcp_connections::{Connection, Ends, Limits, PeerGroup, Room, make_room, serve_ready, sweep};

/// Connections, and the state that serves them.
#[derive(Drop)]
pub(crate) struct Served {
    alloc: Global,
    pub(crate) links: Slab<Connection<Pieces, Both>>,
    /// What is written on each of the connections that were added, in their order.
    pub(crate) outputs: Vec<Output>,
    pub(crate) ends: Ends,
    pub(crate) echo: Echo,
    rules: Vec<Rule>,
    /// The keys of connections that could continue after the last share.
    next: Vec<usize>,
    room: Vec<u8>,
    out: Vec<u8>,
}

impl Served {
    /// The state without connections.
    pub(crate) fn new(alloc: Global) -> Result<Served, AllocError> {
        Ok(Served {
            alloc,
            links: Slab::new(alloc),
            outputs: Vec::new(alloc),
            ends: Ends::default(),
            echo: Echo::new(u32::MAX),
            rules: may(alloc)?,
            next: Vec::new(alloc),
            room: room_of(alloc, 512)?,
            out: room_of(alloc, 65_535)?,
        })
    }

    /// Adds a connection under the next key, whose peer is or is not allowed to transfer, at a time.
    pub(crate) fn put(&mut self, stream: Pieces, may: bool, now: u64) -> Result<(), AllocError> {
        self.put_from(if may { 1 } else { 2 }, stream, now)
    }

    /// The same, for a peer with an address in 192.0.2.0/24.
    fn put_from(&mut self, last: u8, stream: Pieces, now: u64) -> Result<(), AllocError> {
        self.outputs.push(Rc::clone(&stream.output)?)?;
        let _key = self
            .links
            .insert(Connection::new(stream, self.alloc, address(last), now))?;
        Ok(())
    }

    /// Serves the connections under some keys, one share of work each.
    pub(crate) fn serve<R: Wait>(
        &mut self,
        rt: &R,
        keys: &[usize],
        now: u64,
    ) -> Result<(), AllocError> {
        self.next.clear();
        if self.room.is_empty() || self.out.len() < 65_535 {
            return Ok(());
        }
        serve_ready(
            rt,
            &mut self.echo,
            Allowed::new(self.alloc, &self.rules),
            &mut self.links,
            keys,
            &mut self.next,
            &mut self.ends,
            now,
            &mut self.room,
            &mut self.out,
        )
    }
}

/// Ten seconds for a request, seven for the rest of one, four for a reply.
const LIMITS: Limits = Limits {
    idle: 10 * SECOND,
    message: 7 * SECOND,
    reply: 4 * SECOND,
    rate: 0,
};

/// A step of serving connections, and how many of them have ended after it.
struct Step {
    /// The key of the connection whose reply is ready.
    made: Option<usize>,
    /// The number of shares of work in which they are served, and the time of these.
    shares: usize,
    served: u64,
    /// The time at which late connections are ended.
    swept: u64,
    /// The number of connections that were idle for too long, that took too long over the rest of a request, and that took too long over
    /// replies.
    ended: [u64; 3],
    /// The keys of the open connections, each as a digit, counted from 1.
    open: u64,
}

/// The keys of connections, each as a digit, counted from 1.
fn keys_of(links: &Slab<Connection<Pieces, Both>>) -> u64 {
    let mut keys = 0u64;
    for (key, _link) in links.iter() {
        keys = keys
            .wrapping_mul(10)
            .wrapping_add(key as u64)
            .wrapping_add(1);
    }
    keys
}

/// The number of connections that have ended after a step, those that are open, and the number of those that could continue.
fn after_step<R: Wait>(
    rt: &R,
    served: &mut Served,
    step: &Step,
) -> Result<([u64; 3], u64, usize), AllocError> {
    served.echo.made = step.made;
    for _share in 0..step.shares {
        served.serve(rt, &[0, 1, 2, 3, 4, 5], step.served)?;
    }
    sweep(&mut served.links, LIMITS, step.swept, &mut served.ends);
    let ends = served.ends;
    Ok((
        [ends.idle, ends.message, ends.reply],
        keys_of(&served.links),
        served.next.len(),
    ))
}

/// The octets that arrive on each connection, and the size of their pieces: nothing, half a request, a whole one, one octet by octet, one whose
/// reply is made later with the start of the next, and half a request.
const COMING: [(&[u8], usize); 6] = [
    (&[], 1),
    (&[0, 9, b'a'], 1),
    (&[0, 1, b'a'], 9),
    (&[0, 1, b'a'], 1),
    (&[0, 1, b'u', 0, 9], 700),
    (&[0, 9, b'u'], 700),
];

/// The steps of these connections in time. At 3 s octets arrive and replies are written; only whole requests and replies count for the time
/// limits, those under keys 2 and 3. For the rest of a request there are 7 s, counted from the start of the connection. A connection that waits
/// for its reply is not ended; after the reply, its peer has to send the rest of the next request in time.
const STEPS: [Step; 9] = [
    Step {
        made: None,
        shares: 20,
        served: 3 * SECOND,
        swept: 7 * SECOND - 1,
        ended: [0, 0, 0],
        open: 123_456,
    },
    Step {
        made: None,
        shares: 0,
        served: 0,
        swept: 7 * SECOND,
        ended: [0, 2, 0],
        open: 1_345,
    },
    Step {
        made: None,
        shares: 0,
        served: 0,
        swept: 10 * SECOND - 1,
        ended: [0, 2, 0],
        open: 1_345,
    },
    Step {
        made: None,
        shares: 0,
        served: 0,
        swept: 10 * SECOND,
        ended: [1, 2, 0],
        open: 345,
    },
    Step {
        made: None,
        shares: 0,
        served: 0,
        swept: 13 * SECOND - 1,
        ended: [1, 2, 0],
        open: 345,
    },
    Step {
        made: None,
        shares: 0,
        served: 0,
        swept: 13 * SECOND,
        ended: [3, 2, 0],
        open: 5,
    },
    Step {
        made: None,
        shares: 4,
        served: 14 * SECOND,
        swept: 3_600 * SECOND,
        ended: [3, 2, 0],
        open: 5,
    },
    Step {
        made: Some(4),
        shares: 4,
        served: 3_600 * SECOND,
        swept: 3_607 * SECOND - 1,
        ended: [3, 2, 0],
        open: 5,
    },
    Step {
        made: None,
        shares: 0,
        served: 0,
        swept: 3_607 * SECOND,
        ended: [3, 3, 0],
        open: 0,
    },
];

#[test]
fn each_connection_has_its_time(rt: HostRuntime) -> Result<(), Fail> {
    let mut served = Served::new(rt.alloc())?;
    for (octets, size) in COMING {
        let stream = Pieces {
            size,
            ..Pieces::new(rt.alloc(), octets, 1)?
        };
        served.put(stream, false, 0)?;
    }
    for step in STEPS.iter() {
        // None of them can continue.
        let wanted = (step.ended, step.open, 0);
        assert_eq!(rt;
            after_step(&rt, &mut served, step)?,
            wanted,
            "at {} ns",
            step.swept
        );
    }
    Ok(())
}

/// Connections, by the last octet of their peers' addresses, the octets that arrive on them, and the time at which they start: one that is
/// idle, one with a part of a request, another that is idle, another with a part, and one whose request waits for its reply.
const HOARDED: [(u8, &[u8], u64); 5] = [
    (2, &[], 1),
    (1, &[0, 9, b'a'], 2),
    (1, &[], 3),
    (1, &[0, 9, b'a'], 4),
    (1, &[0, 1, b'u'], 0),
];

#[test]
fn the_longest_without_a_request_gives_its_place(rt: HostRuntime) -> Result<(), Fail> {
    let mut served = Served::new(rt.alloc())?;
    for (last, octets, begun) in HOARDED {
        served.put_from(last, Pieces::new(rt.alloc(), octets, 1)?, begun)?;
    }
    for _share in 0..8u32 {
        served.serve(&rt, &[0, 1, 2, 3, 4], 5)?;
    }
    // The number of slots, the last octet of the new peer's address, and the slot that it gets.
    let rooms = [
        (6usize, 3u8, Room::Free),
        (5, 3, Room::Made(1)),
        (4, 2, Room::Made(0)),
        (3, 3, Room::Made(2)),
        (2, 1, Room::Made(3)),
        (1, 3, Room::Full),
    ];
    for (places, last, room) in rooms {
        let newcomer = PeerGroup::of(address(last).ip());
        assert!(rt;
            make_room(&mut served.links, places, newcomer) == room,
            "of {places} places"
        );
    }
    assert_eq!(rt; keys_of(&served.links), 5);
    Ok(())
}

#[test]
fn who_takes_too_slowly_is_ended(rt: HostRuntime) -> Result<(), Fail> {
    let mut served = Served::new(rt.alloc())?;
    served.put(Pieces::new(rt.alloc(), &[], 1)?, false, 0)?;
    served.put(Pieces::new(rt.alloc(), &[0, 1, b'L'], 9)?, false, 0)?;
    let limits = Limits {
        idle: u64::MAX,
        message: u64::MAX,
        reply: u64::MAX,
        rate: 0,
    };
    for _share in 0..8u32 {
        served.serve(&rt, &[0, 1], 0)?;
    }
    // One connection ends after ten seconds in which its peer takes no octet of the waiting replies; nothing waits on the other one. Nine
    // seconds are too few, and without a rate no connection is ended.
    for (rate, now, open) in [
        (1_000_000, 9 * SECOND, 12u64),
        (0, 20 * SECOND, 12),
        (1, 29 * SECOND, 12),
        (1, 31 * SECOND, 1),
    ] {
        let limits = Limits { rate, ..limits };
        sweep(&mut served.links, limits, now, &mut served.ends);
        assert_eq!(rt; keys_of(&served.links), open, "at {now} ns");
    }
    assert_eq!(rt; (served.ends.slow, served.ends.late()), (1, 1));
    Ok(())
}

/// Whether the peer of each connection is allowed to transfer, and what follows its octets.
const PEERS: [(bool, After); 5] = [
    (true, After::Nothing),
    (false, After::Nothing),
    (true, After::End),
    (false, After::Failure),
    (true, After::Nothing),
];

/// Serves five connections in forty rounds, under keys of which some occur twice and one is not in use. Returns the maximum number of
/// connections that could continue after a round.
fn most_that_go_on<R: Wait>(rt: &R, served: &mut Served) -> Result<usize, AllocError> {
    let mut most = 0;
    for round in 0..40usize {
        served.serve(rt, &[round % 5, 4, 17, 0, 1, 2, 3], 0)?;
        most = served.next.len().max(most);
    }
    Ok(most)
}

#[test]
fn each_connection_has_the_rights_of_its_peer(rt: HostRuntime) -> Result<(), Fail> {
    let mut served = Served::new(rt.alloc())?;
    for (may, after) in PEERS {
        let stream = Pieces {
            size: 2,
            after,
            ..Pieces::new(rt.alloc(), &[0, 1, b'?'], 2)?
        };
        served.put(stream, may, 0)?;
    }
    assert!(rt; most_that_go_on(&rt, &mut served)? <= 7);
    let ends = served.ends;
    assert_eq!(rt; [ends.clean, ends.device, ends.total()], [1, 1, 2]);
    // The replies under keys 0, 1 and 4.
    let replies = [0, 1, 1, 0, 1, 1, 0, 1, 0, 0, 1, 0, 0, 1, 1, 0, 1, 1];
    let gone = written(rt.alloc(), &served.outputs)?;
    assert_eq!(rt; gone.as_slice(), replies.as_slice());
    Ok(())
}

// Of the requests that are read at once, 32 are answered in a share, and the connection could go on.
#[test]
fn a_share_ends(rt: HostRuntime) -> Result<(), Fail> {
    let mut served = Served::new(rt.alloc())?;
    let stream = Pieces {
        size: 4_096,
        may_block: false,
        ..Pieces::new(rt.alloc(), &[0, 1, b'a'], 1_000)?
    };
    served.put(stream, true, 0)?;
    served.serve(&rt, &[0], 0)?;
    let gone = written(rt.alloc(), &served.outputs)?;
    assert_eq!(rt; (gone.len(), served.next.len()), (96, 1));
    Ok(())
}
