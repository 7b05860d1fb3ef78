//! A worker's turns over simulated polls.

use crate::echo::Echo;
use crate::pieces::{After, Output, Pieces, len_of, open_of, repeated, written};
use crate::polls::{Comers, Poll, TellingPoll};
use crate::running::{Running, SECOND};
use std::alloc::{AllocError, Global};
use std::cell::Cell;
use std::sync::Wait;
use std::test::Fail;
use tcp_loop::{EventLoop, Refusal, TurnEnd};

/// Connections that come to a worker, what its poll reports, and the expected result.
struct Stage {
    /// The number of slots of the worker; 0 for the worker of the stage before, with its connections.
    places: usize,
    /// What the poll reports and watches, the number of waits that do not fail, and how far its time advances in each.
    keys: usize,
    beside: usize,
    watches: bool,
    waits: u32,
    step: u64,
    /// The connections that arrive, and the octets on each, repeated `times` times.
    comers: u8,
    octets: &'static [u8],
    times: usize,
    size: usize,
    after: After,
    no_room: u32,
    last: Refusal,
    /// The number of connections that have given up their slots at which the turns end, how they end, and whether waits are left then.
    gone: u64,
    end: Result<(), TurnEnd>,
    waits_on: bool,
    /// The number of connections that were started, that ended cleanly, that took too long over the rest of a request, that ended in all, that
    /// gave up their slots to others, that were turned away, that found no room, and that are open.
    counts: [u64; 8],
    /// The octets that are written on all open connections, repeated `replied` times.
    replies: &'static [u8],
    replied: usize,
}

/// Turns until no wait is left, with seven connections on which a request arrives, by a poll that reports all keys of eight slots.
const PLAIN: Stage = Stage {
    places: 8,
    keys: 8,
    beside: 0,
    watches: true,
    waits: 60,
    step: SECOND / 4,
    comers: 7,
    octets: &[0, 1, b'a'],
    times: 1,
    size: 1,
    after: After::Nothing,
    no_room: 0,
    last: Refusal::Blocked,
    gone: u64::MAX,
    end: Err(TurnEnd::Device),
    waits_on: false,
    counts: [0, 0, 0, 0, 0, 0, 0, 0],
    replies: &[],
    replied: 0,
};

const STAGES: [Stage; 18] = [
    // Each connection is answered with the rights of its peer: every other one may update.
    Stage {
        places: 64,
        keys: 64,
        step: 1,
        comers: 40,
        octets: &[0, 1, b'?'],
        times: 2,
        counts: [40, 0, 0, 0, 0, 0, 0, 40],
        replies: &[0, 1, 0, 0, 1, 0, 0, 1, 1, 0, 1, 1],
        replied: 20,
        ..PLAIN
    },
    // Connections that end cleanly free their slots.
    Stage {
        after: After::End,
        counts: [7, 7, 0, 7, 0, 0, 0, 0],
        ..PLAIN
    },
    // Connections that start a request, and send no more of it, stay open
    Stage {
        places: 0,
        waits: 30,
        octets: &[0, 9, b'a'],
        counts: [14, 7, 0, 7, 0, 0, 0, 7],
        ..PLAIN
    },
    // until that takes too long.
    Stage {
        places: 0,
        comers: 0,
        counts: [14, 7, 7, 14, 0, 0, 0, 0],
        ..PLAIN
    },
    // Four connections that start a request have the slots:
    Stage {
        places: 4,
        waits: 20,
        step: 1,
        comers: 4,
        octets: &[0, 9, b'a'],
        counts: [4, 0, 0, 0, 0, 0, 0, 4],
        ..PLAIN
    },
    // others take these slots.
    Stage {
        places: 0,
        waits: 20,
        step: 1,
        comers: 3,
        octets: &[],
        counts: [7, 0, 0, 0, 3, 0, 0, 4],
        ..PLAIN
    },
    // Four connections whose requests are answered later have the slots:
    Stage {
        places: 4,
        waits: 20,
        step: 1,
        comers: 4,
        octets: &[0, 1, b'u'],
        counts: [4, 0, 0, 0, 0, 0, 0, 4],
        ..PLAIN
    },
    // others are turned away.
    Stage {
        places: 0,
        waits: 20,
        step: 1,
        comers: 3,
        octets: &[],
        counts: [4, 0, 0, 0, 0, 3, 0, 4],
        ..PLAIN
    },
    // Idle connections give up their slots.
    Stage {
        places: 4,
        waits: 20,
        step: 1,
        comers: 9,
        octets: &[],
        counts: [9, 0, 0, 0, 5, 0, 0, 4],
        ..PLAIN
    },
    // After a temporary lack of room, connections are accepted.
    Stage {
        waits: 30,
        comers: 5,
        octets: &[],
        no_room: 3,
        counts: [5, 0, 0, 0, 0, 0, 3, 5],
        ..PLAIN
    },
    // A connection that is reported once is served to its end.
    Stage {
        keys: 0,
        step: 1,
        comers: 5,
        times: 1_000,
        size: 700,
        counts: [5, 0, 0, 0, 0, 0, 0, 5],
        replies: &[0, 1, b'a'],
        replied: 5_000,
        ..PLAIN
    },
    // Transfers proceed side by side: the reply to a request of two octets has two messages.
    Stage {
        waits: 900,
        step: 1,
        comers: 6,
        octets: &[0, 2, b'a', b'b'],
        times: 50,
        counts: [6, 0, 0, 0, 0, 0, 0, 6],
        replies: &[0, 1, 1, 0, 1, 2],
        replied: 300,
        ..PLAIN
    },
    // A connection that is not watched gets no slot.
    Stage {
        keys: 0,
        watches: false,
        waits: 5,
        step: 1,
        comers: 3,
        counts: [0, 0, 0, 0, 0, 0, 3, 0],
        ..PLAIN
    },
    // A new connection is served before it is reported.
    Stage {
        keys: 0,
        beside: 1_000,
        waits: 20,
        step: 1,
        comers: 5,
        after: After::End,
        counts: [5, 5, 0, 5, 0, 0, 0, 0],
        ..PLAIN
    },
    // The turns end once so many connections are gone: at once,
    Stage {
        after: After::End,
        gone: 0,
        end: Ok(()),
        waits_on: true,
        ..PLAIN
    },
    // or with the last connection;
    Stage {
        after: After::End,
        gone: 7,
        end: Ok(()),
        waits_on: true,
        counts: [7, 7, 0, 7, 0, 0, 0, 0],
        ..PLAIN
    },
    // when a wait fails;
    Stage {
        keys: 0,
        beside: 1_000,
        waits: 5,
        step: 0,
        gone: 1,
        counts: [7, 0, 0, 0, 0, 0, 0, 7],
        replies: &[0, 1, b'a'],
        replied: 7,
        ..PLAIN
    },
    // and when no more connections can arrive.
    Stage {
        keys: 0,
        waits: 5,
        comers: 0,
        last: Refusal::Broken,
        gone: 1,
        waits_on: true,
        ..PLAIN
    },
];

/// The outputs of a worker's connections at the beginning of a stage: those of the stage before, where it goes on with its connections.
fn outputs_for(alloc: Global, stage: &Stage, before: Option<Comers<'static>>) -> Vec<Output> {
    match before {
        Some(comers) => {
            if stage.places > 0 {
                return Vec::new(alloc);
            }
            comers.outputs
        }
        None => Vec::new(alloc),
    }
}

/// Prepares a worker for a stage. Without slots of its own, the stage has the connections of the stage before.
fn prepare_worker(
    alloc: Global,
    worker: &mut Running<Pieces, Poll, Comers<'static>>,
    stage: &Stage,
) -> Result<(), AllocError> {
    if stage.places > 0 {
        worker.turns = EventLoop::new(alloc, stage.places, 1)?;
    }
    worker.poll = Poll {
        keys: stage.keys,
        beside: stage.beside,
        watches: stage.watches,
        waits: stage.waits,
        step: stage.step,
        now: worker.poll.now,
        outcome: Vec::new(alloc),
    };
    let before = worker.places.pop();
    worker.places.push(Comers {
        alloc,
        count: stage.comers,
        even: stage.octets,
        odd: stage.octets,
        times: stage.times,
        size: stage.size,
        may_block: stage.keys > 0,
        after: stage.after,
        no_room: stage.no_room,
        is_odd: false,
        last: stage.last,
        outputs: outputs_for(alloc, stage, before),
    })?;
    Ok(())
}

/// The number of connections that were started, and what became of them, as [`Stage`] counts them.
fn counts_of(worker: &Running<Pieces, Poll, Comers<'static>>) -> [u64; 8] {
    let tally = worker.turns.tally();
    [
        tally.begun,
        tally.ends.clean,
        tally.ends.message,
        tally.ends.total(),
        tally.evicted,
        tally.turned_away,
        tally.no_room,
        open_of(worker.outputs()) as u64,
    ]
}

#[test]
fn turns_go_through_stages(rt: HostRuntime) -> Result<(), Fail> {
    let alloc = rt.alloc();
    let mut worker = Running::new(alloc, Poll::new(alloc, 0), Comers::new(alloc, 0, &[]))?;
    for (at, stage) in STAGES.iter().enumerate() {
        prepare_worker(alloc, &mut worker, stage)?;
        let end = worker.run(&rt, stage.gone);
        let counts = counts_of(&worker);
        let gone = written(alloc, worker.outputs())?;
        let is_written = gone == repeated(alloc, stage.replies, stage.replied)?;
        assert_eq!(rt;
            (end, worker.poll.waits > 0, counts, is_written),
            (stage.end, stage.waits_on, stage.counts, true),
            "in stage {at}"
        );
    }
    Ok(())
}

/// The requests of two connections. The second request of the first one waits for its reply.
const UPDATE: [u8; 9] = [0, 1, b'a', 0, 1, b'u', 0, 1, b'b'];

const OTHER: [u8; 9] = [0, 1, b'a', 0, 1, b'c', 0, 1, b'b'];

/// The replies on four connections, alternately of the second kind and of the first. Under key 1, the replies to the request that waits and to
/// the request after it are missing.
const REPLIES: [u8; 30] = [
    0, 1, b'a', 0, 1, b'c', 0, 1, b'b', 0, 1, b'a', 0, 1, b'a', 0, 1, b'c', 0, 1, b'b', 0, 1, b'a',
    0, 1, b'u', 0, 1, b'b',
];

/// The key that is reported, the key of the connection whose reply is ready, how often the handler gets a request that is answered later in the
/// turns that follow, and how many octets of the replies are written after them.
const WAKINGS: [(Option<usize>, Option<usize>, u32, usize); 6] = [
    // Under keys 1 and 3 the second request waits. The handler gets it when its connection starts, and when that is reported as ready.
    (None, None, 4, 24),
    (None, None, 0, 24),
    // A connection that is reported too early continues to wait, and so does the other.
    (Some(3), None, 1, 24),
    // A reply that is ready is written once its key is reported, with the reply to the request after it.
    (None, Some(3), 0, 24),
    (Some(3), Some(3), 1, 30),
    // A key that is not in use changes nothing.
    (Some(7), None, 0, 30),
];

/// Prepares the handler for a row: no calls for later replies are counted, and the reply on the connection with this key is ready.
fn begin_row(echo: &mut Echo, made: Option<usize>) {
    echo.made = made;
    echo.asked = 0;
}

#[test]
fn other_connections_go_on(rt: HostRuntime) -> Result<(), Fail> {
    let alloc = rt.alloc();
    let key = Cell::new(None);
    let poll = TellingPoll {
        poll: Poll::new(alloc, 0),
        key: &key,
    };
    let comers = Comers {
        even: &UPDATE,
        size: 700,
        may_block: false,
        ..Comers::new(alloc, 4, &OTHER)
    };
    let mut worker = Running::new(alloc, poll, comers)?;
    for (at, (outcome, made, asked, len)) in WAKINGS.into_iter().enumerate() {
        key.set(outcome);
        begin_row(&mut worker.echo, made);
        worker.turn(&rt, 9)?;
        let gone = written(alloc, worker.outputs())?;
        let is_written = REPLIES.get(..len) == Some(gone.as_slice());
        assert_eq!(rt;
            (worker.echo.asked, is_written),
            (asked, true),
            "in row {at}"
        );
    }
    Ok(())
}

/// The octets on the first of these outputs and on every second one after it; and the fewest on one of the others.
fn lens_of(outputs: &[Output]) -> (usize, usize) {
    let mut all = 0usize;
    let mut fewest = usize::MAX;
    for (at, output) in outputs.iter().enumerate() {
        let len = len_of(output);
        if at % 2 == 0 {
            all = all.saturating_add(len);
        } else {
            fewest = len.min(fewest);
        }
    }
    (all, fewest)
}

/// Of forty connections every second one could always go on, and the others wait for a reply. In each row: the key of the one whose reply is
/// ready, which is reported; and, after one turn, how many octets are written on all that wait, and the fewest that are written on one that
/// could go on. These are 96 in its first share, and 192 in each after it.
const ROUNDS: [(Option<usize>, usize, usize); 7] = [
    // All are served once they have come. Later sixteen of the twenty are served in a turn, so that each is in two.
    (None, 0, 96),
    (None, 0, 96),
    (None, 0, 288),
    // One that is reported is served at once, though others haven't had their turn.
    (Some(0), 3, 288),
    (None, 3, 480),
    (Some(2), 6, 480),
    (None, 6, 672),
];

#[test]
fn each_has_its_turn(rt: HostRuntime) -> Result<(), Fail> {
    let alloc = rt.alloc();
    let key = Cell::new(None);
    let poll = TellingPoll {
        poll: Poll::new(alloc, 0),
        key: &key,
    };
    let comers = Comers {
        even: &[0, 1, b'a'],
        times: 1_000,
        size: 4_096,
        may_block: false,
        ..Comers::new(alloc, 40, &[0, 1, b'u'])
    };
    let mut worker = Running::new(alloc, poll, comers)?;
    worker.turns = EventLoop::new(alloc, 128, 1)?;
    for (at, (made, all, fewest)) in ROUNDS.into_iter().enumerate() {
        key.set(made);
        begin_row(&mut worker.echo, made);
        worker.turn(&rt, 1)?;
        assert_eq!(rt; lens_of(worker.outputs()), (all, fewest), "in row {at}");
    }
    Ok(())
}
