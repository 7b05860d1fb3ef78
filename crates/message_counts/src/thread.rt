//! What a thread counts of the requests that it takes and of the replies that it sends.
ghost use Rattle.std.specs.Prelude.{◌≡◌, Some, None};
ghost use Rattle.counters.specs.Counters.{no_counters, with_counts, with_more};
ghost use Rattle.counters.specs.declared.counter.Counter.TheVariants.{Dropped, Reply};
ghost use Rattle.counters.specs.declared.rcode.Rcode.TheVariants.{NoError};
ghost use Rattle.message_counts.specs.Counts.{queried_type, reply_counts, request_counts, transfer_asked, transfer_counts};

use crate::count::{UPDATE, count_address_query, count_plain_reply, count_reply, count_request};
use crate::places::{id_of, is_reply, opcode_of};
use crate::transfers::{asks_transfer, transfer_of};
use counters::{AddressFamily, Counter, Counters, Rcode, SharedCounters, Transport};
use std::net::SocketAddr;
use std::time::Clock;

/// After how many requests a thread that doesn't wait shows its numbers (own).
const SHOWN_EACH: u32 = 64;

/// Counts the datagrams of a thread.
pub trait DatagramCounts: Drop {
    /// Counts a request from an address.
    fn received(&mut self, request: &[u8], from: &SocketAddr);

    /// Counts the reply to the request that was counted last, to an address.
    fn sent(&mut self, reply: &[u8], to: &SocketAddr);

    /// The thread is to wait.
    fn rest(&mut self);
}

/// Counts nothing.
#[derive(Clone, Copy)]
pub struct NoCounts;

impl DatagramCounts for NoCounts {
    #[inline(always)]
    fn received(&mut self, _request: &[u8], _from: &SocketAddr) {}

    #[inline(always)]
    fn sent(&mut self, _reply: &[u8], _to: &SocketAddr) {}

    fn rest(&mut self) {}
}

/// The numbers of a thread that answers requests. Its clock is read for updates alone.
pub struct ThreadCounts<'a, C> {
    counters: Counters,
    shown: &'a SharedCounters,
    clock: &'a C,
    /// The type by which the last request asks for a transfer, if it does.
    transfer: Option<u16>,
    /// Whether the last request is none for an update, and has no reply yet.
    is_open: bool,
    /// After how many requests the numbers are shown.
    left: u32,
}

impl<'a, C> Drop for ThreadCounts<'a, C> {
    fn drop(self) {
        let ThreadCounts {
            counters: _,
            shown: _,
            clock: _,
            transfer: _,
            is_open: _,
            left: _,
        } = self;
    }
}

impl<'a, C: Clock> ThreadCounts<'a, C> {
    /// Nothing was counted. The numbers are shown here, and a clock tells how long updates took.
    pub fn new(shown: &'a SharedCounters, clock: &'a C) -> ThreadCounts<'a, C>
        ensures { result.counters ≡ no_counters }
    {
        ThreadCounts {
            counters: Counters::new(),
            shown,
            clock,
            transfer: None,
            is_open: false,
            left: SHOWN_EACH,
        }
    }

    /// What others see of the numbers.
    pub fn shown(&self) -> &'a SharedCounters {
        self.shown
    }

    /// Counts a request, over a transport from an address of a family. Whether it is a query whose question can be read.
    #[inline(always)]
    pub fn take(&mut self, transport: Transport, family: AddressFamily, request: &[u8]) -> bool
        ensures counters { self.new.counters ≡ with_counts (request_counts transport family request.now) self.old.counters }
        ensures transfer { self.new.transfer ≡ transfer_asked (queried_type request.now) }
    {
        let is_counted = count_address_query(&mut self.counters, transport, family, request);
        self.transfer = None;
        let is_query = is_counted || self.take_other(transport, family, request);
        self.left = self.left.wrapping_sub(1);
        if self.left == 0 {
            self.show();
        }
        is_query
    }

    /// Counts any request, whose reply is to be counted as one for no transfer so far.
    #[inline(never)]
    fn take_other(&mut self, transport: Transport, family: AddressFamily, request: &[u8]) -> bool
        requires { self.old.transfer ≡ None }
        ensures counters { self.new.counters ≡ with_counts (request_counts transport family request.now) self.old.counters }
        ensures transfer { self.new.transfer ≡ transfer_asked (queried_type request.now) }
    {
        let qtype = count_request(&mut self.counters, transport, family, request);
        if let Some(number) = qtype {
            if asks_transfer(number) {
                self.transfer = Some(number);
            }
        }
        qtype.is_some()
    }

    /// Counts the reply to the request that was counted last: a message, the first one of several, or the only one. Whether it is a reply to an update.
    #[inline(always)]
    pub fn give(&mut self, reply: &[u8]) -> bool
        ensures { self.new.counters ≡ with_counts (transfer_counts self.old.transfer reply.now) (with_counts (reply_counts reply.now) self.old.counters) }
    {
        if self.transfer.is_none() && count_plain_reply(&mut self.counters, reply) {
            return false;
        }
        self.give_any(reply)
    }

    /// Counts any reply.
    #[inline(never)]
    fn give_any(&mut self, reply: &[u8]) -> bool
        ensures { self.new.counters ≡ with_counts (transfer_counts self.old.transfer reply.now) (with_counts (reply_counts reply.now) self.old.counters) }
    {
        let is_update = count_reply(&mut self.counters, reply);
        if let Some(qtype) = self.transfer {
            self.give_transfer(qtype, reply);
        }
        is_update
    }

    /// Counts what a request for a transfer got, by its type and its reply's first message.
    fn give_transfer(&mut self, qtype: u16, reply: &[u8])
        ensures { self.new.counters ≡ with_counts (transfer_counts (Some qtype) reply.now) self.old.counters }
    {
        if let Some(transfer) = transfer_of(qtype, reply) {
            self.counters.add(Counter::Transfer(transfer));
        }
    }

    /// Counts a reply of several messages, which are counted as they are made: its code is NOERROR (RFC 5936, 2.2). The type by which the request that was counted last asks for a
    /// transfer, if it does.
    pub fn give_several(&mut self) -> Option<u16>
        ensures counters { self.new.counters ≡ with_more (Reply NoError) 1 self.old.counters }
        ensures transfer { result ≡ self.old.transfer }
    {
        self.counters.add(Counter::Reply(Rcode::NoError));
        self.transfer
    }

    /// Counts a request without a reply.
    pub fn drop_request(&mut self)
        ensures { self.new.counters ≡ with_more Dropped 1 self.old.counters }
    {
        self.counters.add(Counter::Dropped);
    }

    /// When a request for an update comes, in nanoseconds of a monotonic clock; None of other messages.
    pub fn come(&self, request: &[u8]) -> Option<u64> {
        if opcode_of(request) == UPDATE && !is_reply(request) {
            Some(nanos_of(self.clock))
        } else {
            None
        }
    }

    /// Notes when an update came from an address, whose reply is made later.
    pub fn put_off(&self, request: &[u8], from: SocketAddr, came: u64) {
        self.shown.put_off_update(from, id_of(request), came);
    }

    /// Counts how long an update from an address took, which came now if it wasn't put off, and whose reply is made.
    pub fn finish(&self, request: &[u8], from: SocketAddr, came: u64) {
        let since = self.shown.take_update(from, id_of(request)).unwrap_or(came);
        let now = nanos_of(self.clock);
        self.shown.stream_time(now.saturating_sub(since));
    }

    /// So many more of a counter.
    pub fn add_many(&mut self, counter: Counter, more: u64)
        ensures { self.new.counters ≡ with_more counter more self.old.counters }
    {
        self.counters.add_many(counter, more);
    }

    /// Shows the numbers, unless somebody reads at this moment: then they are shown after the next request.
    #[inline(never)]
    pub fn show(&mut self)
        ensures counters { self.new.counters ≡ self.old.counters }
        ensures transfer { self.new.transfer ≡ self.old.transfer }
    {
        self.left = if self.shown.show(&self.counters) {
            SHOWN_EACH
        } else {
            1
        };
    }

    /// Whether a request that isn't a query gets its reply from this thread; the time of one for an update, which may get it from another, is noted.
    #[inline(never)]
    fn is_answered(&self, request: &[u8], from: &SocketAddr) -> bool {
        if let Some(came) = self.come(request) {
            self.shown.begin_update(*from, id_of(request), came);
        }
        opcode_of(request) != UPDATE
    }

    /// Counts how long an update took, whose reply this thread sends.
    #[inline(never)]
    fn end(&self, reply: &[u8], to: &SocketAddr) {
        let now = nanos_of(self.clock);
        self.shown.end_update(*to, id_of(reply), now);
    }

    /// Counts the last request as one without a reply, if it has none.
    #[inline(always)]
    fn close(&mut self) {
        if self.is_open {
            self.is_open = false;
            self.drop_request();
        }
    }
}

// A request for an update may get its reply from another thread, which counts it.
impl<C: Clock> DatagramCounts for ThreadCounts<'_, C> {
    #[inline(always)]
    fn received(&mut self, request: &[u8], from: &SocketAddr) {
        self.close();
        self.is_open = self.take(Transport::Udp, family_of(from), request)
            || self.is_answered(request, from);
    }

    #[inline(always)]
    fn sent(&mut self, reply: &[u8], to: &SocketAddr) {
        self.is_open = false;
        if self.give(reply) {
            self.end(reply, to);
        }
    }

    fn rest(&mut self) {
        self.close();
        self.show();
    }
}

/// The time that a clock shows, in nanoseconds. 0 where it can't be read.
pub fn nanos_of<C: Clock>(clock: &C) -> u64 {
    match clock.monotonic() {
        Ok(time) => u64::try_from(time.as_nanos()).unwrap_or(u64::MAX),
        Err(_) => 0,
    }
}

/// The family of an address.
#[inline(always)]
pub fn family_of(from: &SocketAddr) -> AddressFamily {
    if from.is_ipv4() {
        AddressFamily::V4
    } else {
        AddressFamily::V6
    }
}
