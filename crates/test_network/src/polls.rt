//! Simulated polls and listeners.
ghost use Rattle.std.specs.Prelude.{◌≡◌, IfOk};

use crate::pieces::{After, Output, Pieces, address};
use std::alloc::{AllocError, Global};
use std::cell::Cell;
use std::rc::Rc;
use tcp_connections::Blocking;
use tcp_loop::{Arrivals, NotWatched, Readiness, Refusal};

/// A poll that reports readiness that is not there, and keys that are not in use, and whose time the test gives.
#[derive(Drop)]
pub(crate) struct Poll {
    /// Each wait reports the keys below this number, and as many keys of no connection; the first of these is the first listener's.
    pub(crate) keys: usize,
    /// The distance from the key that is watched to the key that is reported, once: 0, or so large that this key is not in use.
    pub(crate) beside: usize,
    pub(crate) watches: bool,
    /// The number of waits that do not fail.
    pub(crate) waits: u32,
    /// By how much its time advances in a wait, at most.
    pub(crate) step: u64,
    pub(crate) now: u64,
    pub(crate) outcome: Vec<usize>,
}

impl Poll {
    /// A poll that reports each key below `keys` in each wait, and never fails.
    pub(crate) fn new(alloc: Global, keys: usize) -> Poll {
        Poll {
            keys,
            beside: 0,
            watches: true,
            waits: u32::MAX,
            step: 1,
            now: 0,
            outcome: Vec::new(alloc),
        }
    }

    /// Appends the keys that it reports to others.
    fn tell(&mut self, keys: &mut Vec<usize>) -> Result<(), AllocError> {
        for key in 0..self.keys {
            keys.push(key)?;
            keys.push(usize::MAX - key)?;
        }
        keys.extend_from_slice(&self.outcome)?;
        self.outcome.clear();
        Ok(())
    }

    /// Waits: appends the keys that it reports to others, and returns its time.
    fn pass(&mut self, most: u64, keys: &mut Vec<usize>) -> Result<u64, NotWatched>
        ensures { IfOk result (λ now. now ≡ self.new.now) }
    {
        if self.waits == 0 || self.tell(keys).is_err() {
            return Err(NotWatched);
        }
        self.waits = self.waits.saturating_sub(1);
        self.now = self.now.saturating_add(self.step.min(most.max(1)));
        Ok(self.now)
    }

    /// Watches the stream under a key.
    fn put(&mut self, key: usize) -> Result<(), NotWatched>
        ensures { self.new.now ≡ self.old.now }
    {
        let outcome = key.saturating_add(self.beside);
        if !self.watches || self.outcome.push(outcome).is_err() {
            return Err(NotWatched);
        }
        Ok(())
    }
}

impl<S: Blocking> Readiness<S> for Poll {
    ghost time = { λ poll. poll.now };

    fn watch(&mut self, _stream: &mut S, key: usize) -> Result<(), NotWatched> {
        self.put(key)
    }

    fn wait(&mut self, most: u64, keys: &mut Vec<usize>) -> Result<u64, NotWatched> {
        self.pass(most, keys)
    }
}

/// A poll that also reports the key that the test has put there, once.
#[derive(Drop)]
pub(crate) struct TellingPoll<'a> {
    pub(crate) poll: Poll,
    pub(crate) key: &'a Cell<Option<usize>>,
}

impl<S: Blocking> Readiness<S> for TellingPoll<'_> {
    ghost time = { λ telling. telling.poll.now };

    fn watch(&mut self, _stream: &mut S, key: usize) -> Result<(), NotWatched> {
        self.poll.put(key)
    }

    fn wait(&mut self, most: u64, keys: &mut Vec<usize>) -> Result<u64, NotWatched> {
        let now = self.poll.pass(most, keys)?;
        if let Some(key) = self.key.take() {
            if keys.push(key).is_err() {
                return Err(NotWatched);
            }
        }
        Ok(now)
    }
}

/// Connections that arrive one after another, with a failed one before each, from 192.0.2.1 and 192.0.2.2 in turn; before them, some for which
/// there is no room.
#[derive(Drop)]
pub(crate) struct Comers<'a> {
    pub(crate) alloc: Global,
    /// The number of connections that arrive.
    pub(crate) count: u8,
    /// The octets that arrive on every other connection, and those on the others, repeated `times` times.
    pub(crate) even: &'a [u8],
    pub(crate) odd: &'a [u8],
    pub(crate) times: usize,
    /// The number of octets of one connection that are read or written at a time, or up to two more.
    pub(crate) size: usize,
    pub(crate) may_block: bool,
    pub(crate) after: After,
    pub(crate) no_room: u32,
    pub(crate) is_odd: bool,
    /// The result once all of them have arrived.
    pub(crate) last: Refusal,
    /// What is written on each of those that have arrived, in their order.
    pub(crate) outputs: Vec<Output>,
}

impl<'a> Comers<'a> {
    /// `count` connections on which these octets arrive, once, in pieces.
    pub(crate) fn new(alloc: Global, count: u8, octets: &'a [u8]) -> Comers<'a> {
        Comers {
            alloc,
            count,
            even: octets,
            odd: octets,
            times: 1,
            size: 1,
            may_block: true,
            after: After::Nothing,
            no_room: 0,
            is_odd: false,
            last: Refusal::Blocked,
            outputs: Vec::new(alloc),
        }
    }
}

impl<'a> Arrivals for Comers<'a> {
    type Stream = Pieces;

    fn take(&mut self) -> Result<Pieces, Refusal> {
        if self.no_room > 0 {
            self.no_room -= 1;
            return Err(Refusal::Room);
        }
        self.is_odd = !self.is_odd;
        if self.is_odd {
            return Err(Refusal::Client);
        }
        if self.count == 0 {
            return Err(self.last);
        }
        self.count -= 1;
        let octets = if self.count % 2 == 0 {
            self.even
        } else {
            self.odd
        };
        let Ok(stream) = Pieces::new(self.alloc, octets, self.times) else {
            return Err(Refusal::Room);
        };
        let Ok(output) = Rc::clone(&stream.output) else {
            return Err(Refusal::Room);
        };
        if self.outputs.push(output).is_err() {
            return Err(Refusal::Room);
        }
        Ok(Pieces {
            from: address(1 + self.count % 2),
            size: self.size.saturating_add(usize::from(self.count % 3)),
            may_block: self.may_block,
            after: self.after,
            ..stream
        })
    }
}
