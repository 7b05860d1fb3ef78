//! Waiting until a socket may be ready (Linux, epoll(7)).
ghost use Rattle.std.specs.Prelude.{◌≡◌, ◌-◌, ◌^◌, min};
ghost use Rattle.std.specs.Duration.{as_nanos};

use crate::peer::TcpPeer;
use crate::place::TcpPlace;
use crate::read_hint::ReadHint;
use mio::event::Event;
use mio::{Events, Interest, Poll, Token, Waker};
use std::alloc::Global;
use std::io;
use std::net::Net;
use std::time::{Clock, Duration};
use tcp_loop::{NotWatched, Readiness};

/// Maximum number of events that one wait reports (own).
const EVENTS: usize = 1024;

/// Token of the waker, which ends a wait. It is no connection's key and no listener's number (own).
const WAKER: Token = Token(usize::MAX / 2);

/// Waits until a socket may be ready, and reads the time from a clock.
pub struct Watch<'a, C> {
    poll: Poll,
    events: Events<Global>,
    clock: &'a C,
    now: u64,
    alloc: Global,
    /// For each key, the read hint of the connection that was last watched under that key.
    hints: Vec<Option<ReadHint>>,
}

impl<'a, C> Drop for Watch<'a, C> {
    fn drop(self) {
        let Watch {
            poll: _,
            events: _,
            clock: _,
            now: _,
            alloc: _,
            hints: _,
        } = self;
    }
}

impl<'a, C: Clock> Watch<'a, C> {
    /// A watch without sockets. An error is the system's, or there is no memory.
    pub fn new<R: Net>(net: &R, alloc: Global, clock: &'a C) -> io::Result<Watch<'a, C>> {
        Ok(Watch {
            poll: Poll::new(net)?,
            events: Events::with_capacity(alloc, EVENTS)?,
            clock,
            now: 0,
            alloc,
            hints: Vec::new(alloc),
        })
    }

    /// Shares a new read hint between a connection and its key. Does nothing if the key is beyond the next new one. Fails if there is no memory.
    fn introduce(&mut self, stream: &mut TcpPeer, key: usize) -> Result<(), NotWatched>
        ensures { self.new.now ≡ self.old.now }
    {
        let Ok((ours, theirs)) = ReadHint::pair(self.alloc) else {
            return Err(NotWatched);
        };
        if let Some(place) = self.hints.get_mut(key) {
            *place = Some(ours);
        } else if key > self.hints.len() {
            return Ok(());
        } else if self.hints.push(Some(ours)).is_err() {
            return Err(NotWatched);
        }
        stream.hint = Some(theirs);
        Ok(())
    }

    /// Records an event in its connection's read hint, if there is one.
    fn tell(&self, event: &Event) {
        if let Some(Some(hint)) = self.hints.get(event.token().0) {
            hint.tell(event.is_read_closed() || event.is_error());
        }
    }

    /// A waker that ends the current wait, or else the next one, from another thread. It adds no key to the reported ones. There must be at most one waker.
    pub fn waker(&self) -> io::Result<Waker> {
        Waker::new(self.poll.registry(), WAKER)
    }

    /// Watches the TCP listener with a number. Listeners are numbered from 0. An error is the system's.
    pub fn watch_place(&mut self, place: &mut TcpPlace, number: usize) -> io::Result<()> {
        let token = Token(usize::MAX - number);
        self.poll
            .registry()
            .register(&mut place.listener, token, Interest::READABLE)
    }
}

/// A time in nanoseconds, or the greatest number if the time is longer.
fn nanos_of(time: Duration) -> u64
    ensures { result ≡ min (as_nanos time) (2 ^ 64 - 1) }
{
    u64::try_from(time.as_nanos()).unwrap_or(u64::MAX)
}

impl<C: Clock> Readiness<TcpPeer> for Watch<'_, C> {
    ghost time = { λ watch. watch.now };

    fn watch(&mut self, stream: &mut TcpPeer, key: usize) -> Result<(), NotWatched> {
        let interest = Interest::READABLE | Interest::WRITABLE;
        self.introduce(stream, key)?;
        match self
            .poll
            .registry()
            .register(&mut stream.inner, Token(key), interest)
        {
            Ok(()) => Ok(()),
            Err(_) => Err(NotWatched),
        }
    }

    fn wait(&mut self, most: u64, keys: &mut Vec<usize>) -> Result<u64, NotWatched> {
        if self
            .poll
            .poll(&mut self.events, Some(Duration::from_nanos(most)))
            .is_err()
        {
            return Err(NotWatched);
        }
        for event in self.events.iter() {
            if event.token() == WAKER {
                continue;
            }
            self.tell(event);
            if keys.push(event.token().0).is_err() {
                return Err(NotWatched);
            }
        }
        match self.clock.monotonic() {
            Ok(now) => {
                self.now = nanos_of(now);
                Ok(self.now)
            }
            Err(_) => Err(NotWatched),
        }
    }
}
