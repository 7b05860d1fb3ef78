//! The worker that notifies secondaries of each version (RFC 1996, 3).
ghost use Rattle.std.specs.Prelude.{◌≡◌, ◌≤◌, length, Some, IfOk};
ghost use Rattle.requests.specs.Served.{Grows};

use crate::notify_socket::{MAX_SIGNED, MOST_REPLIES, NotifySocket};
use counters::{SecondaryCounters, ServerCounters};
use dns_name::Name;
use notify::{Due, Heard, MAX_NOTIFY, Notifier};
use rand_chacha::ChaCha20Rng;
use rand_core::{Rng, SeedableRng};
use server_control::{SharedWork, Shutdown, end_rounds, show_round};
use signed_replies::{SystemClock, UnixClock};
use std::alloc::{AllocError, Global};
use std::net::SocketAddr;
use std::sync::Wait;
use std::thread;
use std::time::{Clock, Duration};
use tsig::Keys;
use zone_server::{Event, JobEnd, NextTurn, Notifying, ServiceLog};

/// The longest wait before the worker checks for a newer version, in milliseconds, since no thread notifies it of one (own).
const LONGEST_LOOK: u64 = 100;

/// The most turns that it takes before it waits. No more are due at one time (own).
const MOST_TURNS: usize = 256;

/// How many octets the numbers of an SOA have (RFC 1035, 3.3.13).
const NUMBERS: usize = 20;

/// The number of 16-bit IDs (RFC 1035, 4.1.1).
const IDS: u32 = 65_536;

/// The secondaries of a zone, and what is needed to notify them.
pub struct Secondaries {
    /// Their sockets.
    pub sockets: Vec<NotifySocket>,
    /// The zone's apex.
    pub apex: Name,
    /// The secret seed of the random IDs of NOTIFYs.
    pub seed: [u8; 32],
    /// Where others see when a round of their thread began, if they do.
    pub work: Option<SharedWork>,
}

impl Drop for Secondaries {
    fn drop(self) {
        let Secondaries {
            sockets: _,
            apex: _,
            seed: _,
            work: _,
        } = self;
    }
}

impl Secondaries {
    /// Its sockets, the apex, the seed, and where others see rounds.
    fn into_parts(self) -> (Vec<NotifySocket>, Name, [u8; 32], Option<SharedWork>) {
        let Secondaries {
            sockets,
            apex,
            seed,
            work,
        } = self;
        (sockets, apex, seed, work)
    }
}

/// The job that notifies secondaries of each version, with its worker's number.
pub struct NotifyJob<'a, C> {
    /// The number of its worker.
    pub number: usize,
    sockets: Vec<NotifySocket>,
    notifier: Notifier,
    apex: Name,
    ids: ChaCha20Rng,
    clock: &'a C,
    shutdown: &'a Shutdown,
    /// The server's keys, if it has any.
    keys: Option<&'a Keys>,
    /// Where NOTIFYs are counted, if they are.
    counters: Option<&'a ServerCounters>,
    /// Where others see when a round began, if they do.
    work: Option<SharedWork>,
    sent: u64,
    end: Option<JobEnd>,
}

impl<'a, C> Drop for NotifyJob<'a, C> {
    fn drop(self) {
        let NotifyJob {
            number: _,
            sockets: _,
            notifier: _,
            apex: _,
            ids: _,
            clock: _,
            shutdown: _,
            keys: _,
            counters: _,
            work: _,
            sent: _,
            end: _,
        } = self;
    }
}

impl<'a, C: Clock> NotifyJob<'a, C> {
    /// The job of the worker with this number: notifies secondaries until the other threads have ended, by these keys, if the server has any, and counts that here, if it is counted. `AllocError` where there is no memory.
    pub fn new(
        alloc: Global,
        number: usize,
        secondaries: Secondaries,
        clock: &'a C,
        shutdown: &'a Shutdown,
        keys: Option<&'a Keys>,
        counters: Option<&'a ServerCounters>,
    ) -> Result<NotifyJob<'a, C>, AllocError>
        ensures { IfOk result (λ job. job.number ≡ number) }
    {
        let (sockets, apex, seed, work) = secondaries.into_parts();
        let mut addresses = Vec::new(alloc);
        for socket in sockets.iter() {
            addresses.push(socket.address())?;
        }
        Ok(NotifyJob {
            number,
            sockets,
            notifier: Notifier::new(alloc, &addresses, millis_of(clock))?,
            apex,
            ids: ChaCha20Rng::from_seed(seed),
            clock,
            shutdown,
            keys,
            counters,
            work,
            sent: 0,
            end: None,
        })
    }

    /// How the job has ended. None where it hasn't yet.
    pub fn end(&self) -> Option<JobEnd>
        ensures { result ≡ self.now.end }
    {
        self.end
    }

    /// Does what is due, and gives how long to wait before the next look, in milliseconds. None where nothing is due before a newer
    /// version is published. Fails where no version can be loaded.
    fn do_due<R: Wait, A: Notifying, L: ServiceLog>(
        &mut self,
        rt: &R,
        handler: &mut A,
        log: &L,
    ) -> Result<Option<u64>, JobEnd>
        ensures grows { Grows (A.seen handler.new) (A.seen handler.old) }
        ensures number { self.new.number ≡ self.old.number }
    {
        let mut out = [0u8; MAX_NOTIFY];
        for _ in 0..MOST_TURNS {
            let id = (self.ids.next_u32() / IDS) as u16;
            let Ok(next) = handler.next_turn(&mut self.notifier, id, &mut out) else {
                return Err(JobEnd::Spent);
            };
            match next {
                NextTurn::Look(wait) => return Ok(wait),
                NextTurn::Due(Due::Silent(secondary)) => {
                    count_silent(self.counters, secondary);
                    log.tell(rt, Event::Silent { secondary });
                }
                NextTurn::Due(Due::Send { to, len }) => {
                    count_sent(self.counters, to, &out[..len]);
                    self.send(to, &out[..len]);
                    self.sent = self.sent.saturating_add(1);
                }
            }
        }
        Ok(Some(0))
    }

    /// Sends a NOTIFY to a secondary.
    fn send(&mut self, to: SocketAddr, octets: &[u8])
        requires { length octets.now ≤ MAX_NOTIFY }
        ensures { self.new.number ≡ self.old.number }
    {
        let now = SystemClock::new(self.clock).now();
        send_to(self.sockets.as_mut_slice(), self.keys, now, to, octets);
    }

    /// Sends what is due, takes the replies that have come, and then waits until something may be due. Gives an end where no version can be loaded,
    /// or where the server was to end or the other threads had ended before this call. What was published last is still sent then.
    fn look<R: Wait, A: Notifying, L: ServiceLog>(
        &mut self,
        rt: &R,
        handler: &mut A,
        log: &L,
    ) -> Option<JobEnd>
        ensures grows { Grows (A.seen handler.new) (A.seen handler.old) }
        ensures number { self.new.number ≡ self.old.number }
    {
        let is_over = self.shutdown.is_ending() || self.shutdown.has_one_left();
        let now = millis_of(self.clock);
        show_round(&self.work, now);
        self.notifier.show(now);
        let wait = match self.do_due(rt, handler, log) {
            Ok(wait) => wait.unwrap_or(LONGEST_LOOK).min(LONGEST_LOOK),
            Err(end) => return Some(end),
        };
        take_replies(
            rt,
            self.sockets.as_slice(),
            self.keys,
            SystemClock::new(self.clock).now(),
            &mut self.notifier,
            &self.apex,
            self.counters,
            log,
        );
        if is_over {
            return Some(JobEnd::Done(self.sent));
        }
        thread::sleep(self.clock, Duration::from_millis(wait.max(1)));
        None
    }

    /// Notifies the secondaries of each version until the other threads have ended, or no version can be loaded (RFC 1996, 3).
    pub fn serve<R: Wait, A: Notifying, L: ServiceLog>(
        &mut self,
        rt: &R,
        handler: &mut A,
        log: &L,
    ) -> JobEnd
        ensures grows { Grows (A.seen handler.new) (A.seen handler.old) }
        ensures end { self.new.end ≡ Some result }
        ensures number { self.new.number ≡ self.old.number }
    {
        for _ in rt.forever() {
            if let Some(end) = self.look(rt, handler, log) {
                end_rounds(&self.work);
                self.end = Some(end);
                return end;
            }
        }
        unreachable!()
    }
}

/// Sends a NOTIFY to the secondary at an address, at a time, by the server's keys.
fn send_to(
    sockets: &mut [NotifySocket],
    keys: Option<&Keys>,
    now: u64,
    to: SocketAddr,
    octets: &[u8],
)
    requires { length octets.now ≤ MAX_NOTIFY }
{
    for socket in sockets.iter_mut() {
        if socket.address() == to {
            socket.send(keys, now, octets);
        }
    }
}

/// Takes the replies that have come at a time from the secondaries of the zone at an apex, by the server's keys.
fn take_replies<R: Wait, L: ServiceLog>(
    rt: &R,
    sockets: &[NotifySocket],
    keys: Option<&Keys>,
    now: u64,
    notifier: &mut Notifier,
    apex: &Name,
    counters: Option<&ServerCounters>,
    log: &L,
) {
    for socket in sockets {
        take_from(rt, socket, keys, now, notifier, apex, counters, log);
    }
}

/// What is counted of the secondary at an address, if it is.
fn counted_of(
    counters: Option<&ServerCounters>,
    secondary: SocketAddr,
) -> Option<&SecondaryCounters> {
    match counters {
        Some(counters) => counters.secondary(secondary),
        None => None,
    }
}

/// Counts that a secondary is given up, if that is counted.
fn count_silent(counters: Option<&ServerCounters>, secondary: SocketAddr) {
    if let Some(counted) = counted_of(counters, secondary) {
        counted.give_up();
    }
}

/// Counts a NOTIFY that is sent to a secondary, if that is counted.
fn count_sent(counters: Option<&ServerCounters>, to: SocketAddr, octets: &[u8]) {
    if let Some(counted) = counted_of(counters, to) {
        counted.send(serial_in(octets));
    }
}

/// The serial in a NOTIFY, whose SOA ends it: of its last five numbers the first one (RFC 1035, 3.3.13; RFC 1996, 3.7). 0 where there is none.
fn serial_in(octets: &[u8]) -> u32 {
    let Some(at) = octets.len().checked_sub(NUMBERS) else {
        return 0;
    };
    match &octets[at..] {
        [a, b, c, d, ..] => u32::from_be_bytes([*a, *b, *c, *d]),
        _ => 0,
    }
}

/// Takes the replies that have come from a secondary at a time.
fn take_from<R: Wait, L: ServiceLog>(
    rt: &R,
    socket: &NotifySocket,
    keys: Option<&Keys>,
    now: u64,
    notifier: &mut Notifier,
    apex: &Name,
    counters: Option<&ServerCounters>,
    log: &L,
) {
    let mut octets = [0u8; MAX_SIGNED];
    let mut out = [0u8; MAX_SIGNED];
    for _ in 0..MOST_REPLIES {
        let Some(len) = socket.receive(&mut octets) else {
            return;
        };
        let secondary = socket.address();
        let Some(len) = socket.plain(keys, now, &octets[..len], &mut out) else {
            continue;
        };
        let Some(heard) = notifier.receive(apex, secondary, &out[..len]) else {
            continue;
        };
        if let Some(counted) = counted_of(counters, secondary) {
            counted.answer();
        }
        if heard == Heard::Again {
            log.tell(rt, Event::Again { secondary });
        }
    }
}

/// The time that a clock shows, in milliseconds. 0 where it can't be read.
fn millis_of<C: Clock>(clock: &C) -> u64 {
    match clock.monotonic() {
        Ok(time) => u64::try_from(time.as_millis()).unwrap_or(u64::MAX),
        Err(_) => 0,
    }
}
