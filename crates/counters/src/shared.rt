//! What others see of a thread's numbers.
use crate::counter::Counter;
use crate::counters::Counters;
use crate::open_updates::OpenUpdates;
use crate::rcode::Rcode;
use crate::times::{BUCKETS, Times, bucket_of};
use crate::transfer::Transfer;
use crossbeam_utils::CachePadded;
use std::alloc::{AllocError, Global};
use std::net::SocketAddr;
use std::sync::atomic::{AtomicU64, Ordering};
use std::sync::{Mutex, Wait};

/// The numbers that a thread showed last, and how often it has shown its numbers.
#[derive(Clone, Copy)]
struct Shown {
    counters: Counters,
    rounds: u64,
}

/// What is counted of replies that others than the thread's handler make: the octets of their messages, transfers by what was sent, and updates by their RCODE; and how long
/// updates took, in nanoseconds.
#[derive(Drop)]
struct Streamed {
    octets: AtomicU64,
    transfers: [AtomicU64; 6],
    updates: [AtomicU64; 13],
    times: [AtomicU64; BUCKETS],
    nanoseconds: AtomicU64,
}

/// What others see of a thread's numbers: those that it showed last.
#[derive(Drop)]
pub struct SharedCounters {
    last: CachePadded<Mutex<Shown>>,
    streamed: CachePadded<Streamed>,
    open: OpenUpdates,
}

impl SharedCounters {
    /// Nothing was counted yet. The fault is a request for memory that was refused.
    pub fn new(alloc: Global) -> Result<SharedCounters, AllocError> {
        let shown = Shown {
            counters: Counters::new(),
            rounds: 0,
        };
        let streamed = Streamed {
            octets: AtomicU64::new(0),
            transfers: [
                AtomicU64::new(0),
                AtomicU64::new(0),
                AtomicU64::new(0),
                AtomicU64::new(0),
                AtomicU64::new(0),
                AtomicU64::new(0),
            ],
            updates: [
                AtomicU64::new(0),
                AtomicU64::new(0),
                AtomicU64::new(0),
                AtomicU64::new(0),
                AtomicU64::new(0),
                AtomicU64::new(0),
                AtomicU64::new(0),
                AtomicU64::new(0),
                AtomicU64::new(0),
                AtomicU64::new(0),
                AtomicU64::new(0),
                AtomicU64::new(0),
                AtomicU64::new(0),
            ],
            times: [
                AtomicU64::new(0),
                AtomicU64::new(0),
                AtomicU64::new(0),
                AtomicU64::new(0),
                AtomicU64::new(0),
                AtomicU64::new(0),
                AtomicU64::new(0),
                AtomicU64::new(0),
                AtomicU64::new(0),
                AtomicU64::new(0),
                AtomicU64::new(0),
                AtomicU64::new(0),
            ],
            nanoseconds: AtomicU64::new(0),
        };
        Ok(SharedCounters {
            last: CachePadded::new(Mutex::new(shown)),
            streamed: CachePadded::new(streamed),
            open: OpenUpdates::new(alloc)?,
        })
    }

    /// Shows these numbers, unless somebody reads at this moment: whether they are shown. It waits for nobody.
    pub fn show(&self, counters: &Counters) -> bool {
        match self.last.try_lock() {
            Some(mut last) => {
                last.counters = *counters;
                last.rounds = last.rounds.saturating_add(1);
                true
            }
            None => false,
        }
    }

    /// Counts octets of a message of a reply that has several.
    pub fn stream_octets(&self, octets: u64) {
        self.streamed.octets.fetch_add(octets, Ordering::SeqCst);
    }

    /// Counts a transfer of several messages, whose first one is sent.
    pub fn stream_transfer(&self, transfer: Transfer) {
        self.streamed.transfers[transfer.index()].fetch_add(1, Ordering::SeqCst);
    }

    /// Counts a reply to an update, of an RCODE and so many octets.
    pub fn stream_update(&self, rcode: Rcode, octets: u64) {
        self.stream_octets(octets);
        self.streamed.updates[rcode.index()].fetch_add(1, Ordering::SeqCst);
    }

    /// Counts so many more of a counter, beside the numbers that a thread shows.
    pub fn add_many<R: Wait>(&self, rt: &R, counter: Counter, more: u64) {
        let mut last = self.last.lock(rt);
        last.counters.add_many(counter, more);
    }

    /// Notes that an update with a message ID came from an address, at a time in nanoseconds. One that came before with the same has come again.
    pub fn begin_update(&self, from: SocketAddr, id: u16, now: u64) {
        self.open.note(from, id, now);
    }

    /// The same, unless it is noted already.
    pub fn put_off_update(&self, from: SocketAddr, id: u16, now: u64) {
        if !self.open.is_noted(from, id) {
            self.open.note(from, id, now);
        }
    }

    /// Takes when an update with a message ID from an address came, in nanoseconds; None where that isn't known.
    pub fn take_update(&self, from: SocketAddr, id: u16) -> Option<u64> {
        self.open.take(from, id)
    }

    /// Counts how long an update took, in nanoseconds.
    pub fn stream_time(&self, nanoseconds: u64) {
        self.streamed.times[bucket_of(nanoseconds)].fetch_add(1, Ordering::SeqCst);
        self.streamed
            .nanoseconds
            .fetch_add(nanoseconds, Ordering::SeqCst);
    }

    /// Counts how long an update took that has a message ID, came from an address, and gets its reply at a time in nanoseconds. It isn't counted where it isn't known when it came.
    pub fn end_update(&self, from: SocketAddr, id: u16, now: u64) {
        if let Some(since) = self.take_update(from, id) {
            self.stream_time(now.saturating_sub(since));
        }
    }

    /// Counts how long a sync of the store took, in nanoseconds, beside the numbers that a thread shows.
    pub fn add_sync<R: Wait>(&self, rt: &R, nanoseconds: u64) {
        let mut last = self.last.lock(rt);
        last.counters.syncs.add(nanoseconds);
    }

    /// Adds the numbers that were shown last to others, and gives how often numbers were shown.
    pub fn add_to<R: Wait>(&self, rt: &R, sum: &mut Counters) -> u64 {
        let last = self.last.lock(rt);
        sum.add_all(&last.counters);
        self.add_streamed(sum);
        last.rounds
    }

    /// Adds what is counted of replies that others make.
    fn add_streamed(&self, sum: &mut Counters) {
        let octets = self.streamed.octets.load(Ordering::SeqCst);
        sum.add_many(Counter::SentOctets, octets);
        for transfer in Transfer::ALL {
            let count = self.streamed.transfers[transfer.index()].load(Ordering::SeqCst);
            sum.add_many(Counter::Transfer(transfer), count);
        }
        self.add_updates(sum);
        sum.updates.add_all(&self.streamed_times());
    }

    /// How long updates took.
    fn streamed_times(&self) -> Times {
        let mut times = Times::new();
        for (place, count) in self.streamed.times.iter().enumerate() {
            times.counts[place] = count.load(Ordering::SeqCst);
        }
        times.nanoseconds = self.streamed.nanoseconds.load(Ordering::SeqCst);
        times
    }

    /// Adds what is counted of replies to updates that others make.
    fn add_updates(&self, sum: &mut Counters) {
        for rcode in Rcode::ALL {
            let count = self.streamed.updates[rcode.index()].load(Ordering::SeqCst);
            sum.add_many(Counter::Reply(rcode), count);
            sum.add_many(Counter::Update(rcode), count);
        }
    }
}
