//! A worker's job on connections over a simulated poll: when it ends, what is logged of connections that are lost, and how often the handler
//! gets a request that is answered later.
ghost use Rattle.std.specs.Prelude.{None, ⊤, [], ◌-◌, ◌^◌};

use counted_requests::Resting;
use memory_devices::{Kept, asker};
use requests::{Allowed, StreamEnd};
use serve_core::{Peer, Transport};
use server_control::Shutdown;
use std::alloc::Global;
use std::io;
use std::net::SocketAddr;
use std::sync::Wait;
use std::sync::atomic::{AtomicU64, Ordering};
use std::time::{Clock, Duration};
use tcp_connections::{Blocking, Fault, Handler, Limits, Reply};
use tcp_loop::{Arrivals, EventLoop, NotWatched, Plan, Readiness, Refusal, Remote, Tally};
use worker_jobs::{ConnectionsJob, Scratch, StopFlag, WakeList, WorkLimit};
use zone_replies::Transfer;
use zone_server::JobEnd;

/// Two seconds, in nanoseconds.
const LIMIT: u64 = 2_000_000_000;

/// The frame of a request of two octets.
const FRAME: [u8; 4] = [0, 2, 7, 7];

/// The result of a connection's reads.
#[derive(Clone, Copy)]
enum Comes {
    /// Nothing yet.
    Nothing,
    /// A request, and then nothing yet.
    Request,
    /// The end.
    End,
    /// A failure.
    Failure,
}

/// A connection of the tests.
#[derive(Clone, Copy)]
struct Comer {
    comes: Comes,
    from: SocketAddr,
}

impl Remote for Comer {
    ghost origin = { λ comer. comer.from };

    fn address(&self) -> SocketAddr {
        self.from
    }
}

impl Blocking for Comer {
    ghost octets = { λ _. None };

    // The largest count.
    ghost faults = { λ _. 2 ^ 64 - 1 };

    ghost would_block = { λ _. ⊤ };

    fn read(&mut self, buf: &mut [u8]) -> Result<usize, Fault> {
        match self.comes {
            Comes::Nothing => Err(Fault::Blocked),
            Comes::End => Ok(0),
            Comes::Failure => Err(Fault::Failed),
            Comes::Request => {
                if buf.len() < 4 {
                    return Err(Fault::Failed);
                }
                self.comes = Comes::Nothing;
                buf[..4].copy_from_slice(&FRAME);
                Ok(4)
            }
        }
    }

    fn write(&mut self, _buf: &[u8]) -> Result<usize, Fault> {
        Err(Fault::Blocked)
    }
}

/// Connections that arrive one in each turn, the last one first.
#[derive(Drop)]
struct Comers {
    left: Vec<Comer>,
    has_come: bool,
}

impl Arrivals for Comers {
    type Stream = Comer;

    fn take(&mut self) -> Result<Comer, Refusal> {
        self.has_come = !self.has_come;
        if !self.has_come {
            return Err(Refusal::Blocked);
        }
        self.left.pop().ok_or(Refusal::Blocked)
    }
}

/// A poll that reports these keys in each turn, and whose time advances by `pace` nanoseconds. It fails after `left` turns.
#[derive(Drop)]
struct Poll {
    keys: &'static [usize],
    pace: u64,
    now: u64,
    left: u32,
}

impl<S: Blocking> Readiness<S> for Poll {
    ghost time = { λ poll. poll.now };

    fn watch(&mut self, _stream: &mut S, _key: usize) -> Result<(), NotWatched> {
        Ok(())
    }

    fn wait(&mut self, _most: u64, keys: &mut Vec<usize>) -> Result<u64, NotWatched> {
        if self.left == 0 || keys.extend_from_slice(self.keys).is_err() {
            return Err(NotWatched);
        }
        self.left -= 1;
        self.now = self.now.saturating_add(self.pace);
        Ok(self.now)
    }
}

/// A clock that advances by `step` milliseconds each time it is read.
#[derive(Drop)]
struct Steps {
    read: AtomicU64,
    step: u64,
}

impl Clock for Steps {
    fn monotonic(&self) -> io::Result<Duration> {
        let read = self.read.fetch_add(1, Ordering::SeqCst);
        Ok(Duration::from_millis(read.saturating_mul(self.step)))
    }

    fn since_1970(&self) -> io::Result<Duration> {
        self.monotonic()
    }
}

/// A handler that answers later and counts the requests. With `tells`, it wakes the key of the first request's connection.
#[derive(Drop)]
struct Putting<'a> {
    peer: Peer,
    asker: usize,
    asked: u32,
    wake_list: &'a WakeList,
    tells: bool,
}

impl Resting<Transfer> for Putting<'_> {
    fn rest(&mut self, _tally: Tally) {}
}

impl Handler<Transfer> for Putting<'_> {
    ghost seen = { λ _ _. record { asked = record { published = []; buried = [] }; latest = record { published = []; buried = [] } } };

    ghost peer = { λ putting. putting.peer };

    ghost asker = { λ putting. putting.asker };

    ghost is_reply = { λ _ _ _ _ _. Unit {0} };

    ghost is_later = { λ _ _. ⊤ };

    ghost spent = { λ _. ⊥ };

    #[tactic(auto, using(tcp_connections::proofs::RequestLemmas::each_itself))]
    fn turn_to(&mut self, _from: SocketAddr, key: usize) {
        self.asker = key;
    }

    #[tactic(auto, using(tcp_connections::proofs::RequestLemmas::each_itself))]
    fn set_peer(&mut self, other: Peer) {
        self.peer = other;
    }

    #[tactic(auto, using(tcp_connections::proofs::RequestLemmas::each_itself))]
    fn reply<R: Wait>(
        &mut self,
        rt: &R,
        _request: &[u8],
        _out: &mut [u8],
    ) -> Result<Reply<Transfer>, StreamEnd> {
        self.asked = self.asked.saturating_add(1);
        if self.tells && self.asked == 1 {
            self.wake_list.tell(rt, self.asker);
        }
        Ok(Reply::Later)
    }

    #[tactic(auto, using(tcp_connections::proofs::RequestLemmas::each_itself))]
    fn prepare<R: Wait>(
        &mut self,
        _rt: &R,
        _between: usize,
        _request: &[u8],
        _out: &mut [u8],
    ) -> bool {
        false
    }
}

/// A job on connections, and its expected result.
struct Case {
    /// What is tested.
    name: &'static str,
    /// The connections that arrive, the last one first.
    comers: &'static [Comes],
    /// The number of connections that may end.
    most: u64,
    /// The maximum number of turns.
    turns: u32,
    /// The keys that the poll reports in each turn, and by how many nanoseconds its time advances.
    keys: &'static [usize],
    pace: u64,
    /// By how many milliseconds the log's clock advances.
    step: u64,
    /// Whether the job uses a wake list for replies that are ready, and whether the key of the first request is put on it.
    hears: bool,
    tells: bool,
    /// How the job ends, by `end_of`; what is logged; how often the handler gets a request.
    end: u64,
    lines: &'static str,
    asked: u32,
}

/// The end of a job whose poll fails.
const DEVICE: u64 = 1_000;

/// How a job ends, as a number: the number of connections that have ended, or `DEVICE` and more.
fn end_of(end: JobEnd) -> u64 {
    match end {
        JobEnd::Done(count) => count,
        JobEnd::Device => DEVICE,
        JobEnd::Spent => DEVICE + 1,
        JobEnd::NoMemory => DEVICE + 2,
    }
}

/// Each key below 8, and that of the first listener.
const EACH: &[usize] = &[0, 1, 2, 3, 4, 5, 6, 7, usize::MAX];

const CASES: [Case; 5] = [
    Case {
        name: "it ends once so many connections have: by themselves, by failures, and for their delay",
        comers: &[Comes::End, Comes::Nothing, Comes::Failure],
        most: 3,
        turns: 100,
        keys: EACH,
        pace: LIMIT / 4,
        step: 1_000,
        hears: false,
        tells: false,
        end: 3,
        lines: "worker 3 (TCP): 1 failed;worker 3 (TCP): 1 idle timeout;",
        asked: 0,
    },
    Case {
        name: "it ends where nothing can be waited for",
        comers: &[Comes::Nothing],
        most: 9,
        turns: 3,
        keys: EACH,
        pace: LIMIT / 4,
        step: 1_000,
        hears: false,
        tells: false,
        end: DEVICE,
        lines: "",
        asked: 0,
    },
    Case {
        name: "what is lost is told once a second at most",
        comers: &[Comes::Failure; 5],
        most: 5,
        turns: 100,
        keys: EACH,
        pace: LIMIT / 4,
        step: 400,
        hears: false,
        tells: false,
        end: 5,
        lines: "worker 3 (TCP): 2 failed;worker 3 (TCP): 3 failed;",
        asked: 0,
    },
    Case {
        name: "a request that waits is asked for once while nothing is told",
        comers: &[Comes::Request],
        most: 9,
        turns: 10,
        keys: &[],
        pace: 1,
        step: 1_000,
        hears: true,
        tells: false,
        end: DEVICE,
        lines: "",
        asked: 1,
    },
    Case {
        name: "and once more where its key is told, though its stream isn't ready",
        comers: &[Comes::Request],
        most: 9,
        turns: 10,
        keys: &[],
        pace: 1,
        step: 1_000,
        hears: true,
        tells: true,
        end: DEVICE,
        lines: "",
        asked: 2,
    },
];

/// The simulated listener on which these connections arrive.
fn places_of(alloc: Global, comers: &[Comes]) -> Option<Vec<Comers>> {
    let from = asker(4711);
    let mut left = Vec::new(alloc);
    for &comes in comers {
        left.push(Comer { comes, from }).ok()?;
    }
    let has_come = false;
    Vec::from_array(alloc, [Comers { left, has_come }]).ok()
}

/// The job of a case, with the wake list if the case says so.
fn heard<'a>(
    job: ConnectionsJob<'a, Comer, Poll, Comers, Transfer, Steps>,
    alloc: Global,
    case: &Case,
    wake_list: &'a WakeList,
) -> ConnectionsJob<'a, Comer, Poll, Comers, Transfer, Steps> {
    if case.hears {
        job.with_wake_list(alloc, wake_list)
    } else {
        job
    }
}

/// The state that the job of a case shares with others.
#[derive(Drop)]
struct Shared {
    wake_list: WakeList,
    shutdown: Shutdown,
    limit: WorkLimit,
    clock: Steps,
}

/// The state that the job of a case shares with others. None if memory allocation fails.
fn shared_for(alloc: Global, case: &Case) -> Option<Shared> {
    Some(Shared {
        wake_list: WakeList::new(alloc, 8).ok()?,
        shutdown: Shutdown::new(1),
        limit: WorkLimit::new(case.most),
        clock: Steps {
            read: AtomicU64::new(2),
            step: case.step,
        },
    })
}

/// The job of a case.
fn job_of<'a>(
    alloc: Global,
    case: &Case,
    shared: &'a Shared,
) -> Option<ConnectionsJob<'a, Comer, Poll, Comers, Transfer, Steps>> {
    let plan = Plan {
        limits: Limits {
            idle: LIMIT,
            message: LIMIT,
            reply: LIMIT,
            rate: 0,
        },
        allowed: Allowed::new(alloc, &[]),
    };
    let poll = Poll {
        keys: case.keys,
        pace: case.pace,
        now: 0,
        left: case.turns,
    };
    let job = ConnectionsJob::new(
        3,
        poll,
        places_of(alloc, case.comers)?,
        EventLoop::new(alloc, 8, 1).ok()?,
        plan,
        StopFlag::new(&shared.shutdown, &shared.limit),
        &shared.clock,
        Scratch::new(alloc).ok()?,
    );
    Some(heard(job, alloc, case, &shared.wake_list))
}

/// Whether the job of a case ends as expected, with the expected log lines and number of requests. None if memory allocation fails.
fn is_done<R: Wait>(rt: &R, alloc: Global, case: &Case) -> Option<bool> {
    let shared = shared_for(alloc, case)?;
    is_done_with(rt, alloc, case, &shared)
}

/// The same over the shared state.
fn is_done_with<'a, R: Wait>(
    rt: &R,
    alloc: Global,
    case: &Case,
    shared: &'a Shared,
) -> Option<bool> {
    let mut job = job_of(alloc, case, shared)?;
    let log = Kept::new(alloc);
    let mut putting = Putting {
        peer: Peer::over(Transport::Tcp, false),
        asker: 0,
        asked: 0,
        wake_list: &shared.wake_list,
        tells: case.tells,
    };
    let end = job.serve(rt, &mut putting, &log);
    Some(end_of(end) == case.end && log.has(rt, case.lines) && putting.asked == case.asked)
}

#[test]
fn a_job_on_connections(rt: HostRuntime) {
    for case in &CASES {
        assert!(rt;
            is_done(&rt, rt.alloc(), case) == Some(true),
            "{}",
            case.name
        );
    }
}
