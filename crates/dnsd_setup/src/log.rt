//! The log of a running server.
use crate::lines::LogLine;
use crate::writer::{Entries, Entry};
use dns_name::Name;
use dns_rdata::Serial;
use std::net::SocketAddr;
use std::sync::Wait;
use std::time::{Clock, Duration};
use store_server::{StoreEvent, StoreLog};
use zone_server::{Event, ServiceLog};

/// How long a server that stops waits, at most, for the remaining lines to be written, in milliseconds (own).
const END_MILLIS: u64 = 1000;

/// What is logged once all workers have started.
pub struct Listening {
    /// The addresses and ports.
    pub addresses: Vec<SocketAddr>,
    /// The zone's apex.
    pub apex: Name,
    /// The zone's serial.
    pub serial: Serial,
    /// The number of records in the zone.
    pub records: usize,
    /// Whether updates are possible, and are lost when the program exits.
    pub loses_updates: bool,
    /// The size of the system's receive buffer for a socket, in octets.
    pub kept: u32,
    /// The size that was requested.
    pub wanted: u32,
}

impl Drop for Listening {
    fn drop(self) {
        let Listening {
            addresses: _,
            apex: _,
            serial: _,
            records: _,
            loses_updates: _,
            kept: _,
            wanted: _,
        } = self;
    }
}

/// The log. Its lines are queued for a thread that writes them, so that a thread that adds a line does not wait for standard error.
pub struct Log {
    entries: Entries,
    listening: Listening,
}

impl Drop for Log {
    fn drop(self) {
        let Log {
            entries: _,
            listening: _,
        } = self;
    }
}

impl Log {
    /// The log of a zone, whose entries another thread writes.
    pub fn new(entries: Entries, listening: Listening) -> Log {
        Log { entries, listening }
    }

    /// Adds a line. If the queue is full, the line is lost, and counted.
    pub fn add<R: Wait>(&self, rt: &R, line: LogLine) {
        self.entries.queue.add(rt, Entry::Line(line));
    }

    /// Adds an event to the lines about clients. The writing thread is woken only for the first one since it last took these lines.
    fn add_of_peer<R: Wait>(&self, rt: &R, event: Event) {
        if self.entries.peers.lock(rt).add(event) {
            self.entries.queue.add(rt, Entry::Peers);
        }
    }

    /// Closes the log. It waits at most a second for the remaining lines; lines not written by then are lost.
    pub fn end<R: Wait + Clock>(self, rt: &R) {
        self.entries.queue.add(rt, Entry::Stopping);
        let _ = self
            .entries
            .queue
            .close(rt, Duration::from_millis(END_MILLIS));
    }

    /// Logs the addresses on which the zone is served, whether its updates will be lost, and whether the system's receive buffer is smaller than
    /// requested.
    fn add_listening<R: Wait>(&self, rt: &R) {
        let Listening {
            addresses,
            apex,
            serial,
            records,
            loses_updates,
            kept,
            wanted,
        } = &self.listening;
        for address in addresses.iter() {
            self.add(
                rt,
                LogLine::Listening {
                    address: *address,
                    apex: apex.copy(),
                    serial: *serial,
                    records: *records,
                },
            );
        }
        if *loses_updates {
            self.add(rt, LogLine::NoStore);
        }
        if kept < wanted {
            self.add(
                rt,
                LogLine::SmallBuffer {
                    kept: *kept,
                    wanted: *wanted,
                },
            );
        }
        self.entries.queue.add(rt, Entry::Ready);
    }
}

impl ServiceLog for Log {
    fn tell<R: Wait>(&self, rt: &R, event: Event) {
        match event {
            Event::Serving => self.add_listening(rt),
            Event::Refused { .. } | Event::Signed { .. } | Event::BadTsig { .. } => {
                self.add_of_peer(rt, event);
            }
            other => self.add(rt, LogLine::Event(other)),
        }
    }
}

impl StoreLog for Log {
    fn tell_store<R: Wait>(&self, rt: &R, event: StoreEvent) {
        self.add(rt, LogLine::Store(event));
    }
}
