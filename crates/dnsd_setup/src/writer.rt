//! The thread that writes the log to standard error and notifies a service manager.
use crate::lines::LogLine;
use crate::peer_lines::{PeerLine, PeerLines};
use dns_name::Name;
use dns_rdata::Serial;
use log_lines::{Level, LogQueue, NextLine, RecentLines, Sink, is_in_journal};
use server_control::SharedWork;
use sockets::ServiceManager;
use std::alloc::{AllocError, Global};
use std::fmt::Display;
use std::net::Net;
use std::rt::Env;
use std::sync::{Arc, Mutex, Wait};
use std::thread::{self, Threads};
use std::time::{Clock, Duration};
use std::{env, mem};
use zone_server::{Event, Serials};

/// The maximum number of entries that wait to be written (own).
const MOST_WAITING: usize = 1024;

/// The minimum number of seconds between two status notifications of a service manager, and between two writings of lines about clients (own).
const LEAST_SECONDS: u64 = 1;

/// An entry for the log's thread.
#[derive(Drop)]
pub enum Entry {
    /// A line.
    Line(LogLine),
    /// There are lines about clients.
    Peers,
    /// The zone is served: the service manager is notified.
    Ready,
    /// The server stops: the service manager is notified.
    Stopping,
}

/// The queue for the writing thread, and the lines about clients.
pub struct Shared {
    pub(crate) queue: LogQueue<Entry>,
    pub(crate) peers: Mutex<PeerLines>,
}

impl Drop for Shared {
    fn drop(self) {
        let Shared { queue: _, peers: _ } = self;
    }
}

/// The same, shared by the log and its thread.
pub type Entries = Arc<Shared, Global>;

/// What others see of the thread that writes the log.
#[derive(Drop)]
pub struct SeenWriter {
    /// The last lines that it wrote.
    pub lines: Arc<RecentLines, Global>,
    /// Since when it has been writing.
    pub work: SharedWork,
}

/// Standard error and a service manager. What cannot be written is lost.
#[derive(Drop)]
struct ErrorLines<E> {
    rt: E,
    in_journal: bool,
    manager: Option<ServiceManager>,
    /// The apex of the zone that is served, and its serial as last logged.
    zone: Option<(Name, Serial)>,
    /// Whether the service manager was last notified of an older serial.
    is_stale: bool,
    /// When it was last notified, on the monotonic clock.
    notified_at: Duration,
    shared: Entries,
    /// Where others see what is written, if they do.
    seen: Option<SeenWriter>,
    /// Whether lines about clients wait.
    has_peers: bool,
    /// When such lines were last written, on the monotonic clock.
    peers_at: Duration,
}

impl<E: Eprint + AllocGlobal + Wait + Clock> Sink<Entry> for ErrorLines<E> {
    fn put<R: Wait>(&mut self, _rt: &R, next: NextLine<Entry>) {
        self.start_work();
        let NextLine { lost, line } = next;
        if lost > 0 {
            let mark = Level::Warning.mark(self.in_journal);
            let _ = eprintln!(self.rt; "{mark}{lost} log lines lost here");
        }
        match line {
            Some(Entry::Line(line)) => self.put_line(line),
            Some(Entry::Peers) => self.has_peers = true,
            Some(Entry::Ready) => self.notify_ready(),
            Some(Entry::Stopping) => self.notify("STOPPING=1"),
            None => {}
        }
    }

    fn idle(&mut self) -> Option<Duration> {
        self.start_work();
        let peers = self.write_peers();
        let status = self.follow_status();
        self.end();
        match (peers, status) {
            (Some(peers), Some(status)) => Some(peers.min(status)),
            (Some(one), None) | (None, Some(one)) => Some(one),
            (None, None) => None,
        }
    }
}

impl<E: Eprint + AllocGlobal + Wait + Clock> ErrorLines<E> {
    /// Shows that the thread starts to write, or goes on with it.
    fn start_work(&self) {
        if let Some(seen) = &self.seen {
            let now = match self.rt.monotonic() {
                Ok(now) => u64::try_from(now.as_millis()).unwrap_or(u64::MAX),
                Err(_) => 0,
            };
            seen.work.start_work(now);
        }
    }

    /// Shows that the thread waits for lines.
    fn end(&self) {
        if let Some(seen) = &self.seen {
            seen.work.end();
        }
    }

    /// Writes a line.
    fn put_line(&mut self, line: LogLine) {
        let mark = line.level().mark(self.in_journal);
        let _ = eprintln!(self.rt; "{mark}{line}");
        self.keep(&line);
        match &line {
            LogLine::Listening { apex, serial, .. } => self.zone = Some((apex.copy(), *serial)),
            LogLine::Event(
                Event::Update {
                    serials: Some(Serials { after, .. }),
                    ..
                },
            )
            | LogLine::Event(
                Event::Reloaded {
                    serials: Serials { after, .. },
                    ..
                },
            ) => self.note_serial(*after),
            _ => {}
        }
    }

    /// Keeps a line among the last ones, if these are kept.
    fn keep<L: Display>(&self, line: &L) {
        if let Some(seen) = &self.seen {
            if let Ok(text) = format!(in self.rt.alloc(); "{line}") {
                seen.lines.put(&self.rt, text);
            }
        }
    }

    /// Notifies the service manager of a serial that it does not have yet, at the earliest a second after the last notification. Returns the time
    /// that is left until then, if any.
    fn follow_status(&mut self) -> Option<Duration> {
        if !self.is_stale || self.manager.is_none() {
            return None;
        }
        let left = self.left_of(self.notified_at);
        if left.is_none() {
            self.notify_status();
        }
        left
    }

    /// Writes the lines about clients, at the earliest a second after the last such lines. Returns the time that is left until then, if any.
    fn write_peers(&mut self) -> Option<Duration> {
        if !self.has_peers {
            return None;
        }
        let left = self.left_of(self.peers_at);
        if left.is_none() {
            self.has_peers = false;
            self.peers_at = self.rt.monotonic().unwrap_or(self.peers_at);
            let (lines, others) = self.shared.peers.lock(&self.rt).take(self.rt.alloc());
            self.put_peers(lines.as_slice(), others);
        }
        left
    }

    /// Writes lines about clients, and the number of requests that have no line.
    fn put_peers(&self, lines: &[PeerLine], others: u64) {
        let mark = Level::Warning.mark(self.in_journal);
        for line in lines {
            let _ = eprintln!(self.rt; "{mark}{line}");
            self.keep(line);
        }
        if others > 0 {
            let _ = eprintln!(self.rt;
                "{mark}{others} more requests refused or signed, from other clients"
            );
        }
    }

    /// How much of the minimum interval since a time is left; None if it has passed.
    fn left_of(&self, since: Duration) -> Option<Duration> {
        let least = Duration::from_secs(LEAST_SECONDS);
        let passed = match self.rt.monotonic() {
            Ok(now) => now.saturating_sub(since),
            Err(_) => least,
        };
        if passed < least {
            return Some(least.saturating_sub(passed));
        }
        None
    }

    /// Records the serial after an update if it is newer: the lines of a batch may come in any order.
    fn note_serial(&mut self, after: Serial) {
        if let Some((_, serial)) = &mut self.zone {
            if serial.less(after) {
                *serial = after;
                self.is_stale = true;
            }
        }
    }

    /// Notifies the service manager, if there is one, of a state.
    fn notify(&self, state: &str) {
        if let Some(manager) = &self.manager {
            manager.notify(state);
        }
    }

    /// Notifies the service manager that the zone is served.
    fn notify_ready(&mut self) {
        self.notify("READY=1");
        self.notify_status();
    }

    /// Notifies the service manager of the zone and its serial.
    fn notify_status(&mut self) {
        if let Some((apex, serial)) = &self.zone {
            let (apex, serial) = (apex.to_text(), serial.0);
            if let Ok(state) = format!(in self.rt.alloc(); "STATUS={apex} with serial {serial}") {
                self.notify(state.as_str());
            }
        }
        self.is_stale = false;
        if let Ok(now) = self.rt.monotonic() {
            self.notified_at = now;
        }
    }
}

/// Starts the thread that writes the log and notifies the service manager named by `NOTIFY_SOCKET`, if it is set (sd_notify(3)). An error is lack of
/// memory, or a thread that cannot be started; then no thread runs. Others see what it writes by `seen`, if there is that.
pub fn start_entries<
    R: Env + Eprint + AllocGlobal + Net + Threads + Wait + Clock + Copy + Send + Drop + 'static,
>(rt: &R, seen: Option<SeenWriter>) -> Result<Entries, AllocError> {
    let alloc = rt.alloc();
    let shared = Shared {
        queue: LogQueue::new(alloc, MOST_WAITING)?,
        peers: Mutex::new(PeerLines::new(alloc)),
    };
    let entries = Arc::new(alloc, shared)?;
    let (written, read) = (Arc::try_clone(&entries)?, Arc::try_clone(&entries)?);
    let manager = match env::var(rt, "NOTIFY_SOCKET") {
        Ok(name) => ServiceManager::at(rt, name.as_str()),
        Err(_) => None,
    };
    let in_journal = is_in_journal(rt);
    let rt = *rt;
    // The thread is not joined: if standard error accepts no lines, it would never end.
    let writer = thread::spawn(&rt, move || {
        let mut lines = ErrorLines {
            rt,
            in_journal,
            manager,
            zone: None,
            is_stale: false,
            notified_at: Duration::from_secs(0),
            shared: read,
            seen,
            has_peers: false,
            peers_at: Duration::from_secs(0),
        };
        written.queue.write_to(&rt, &mut lines);
    })?;
    mem::drop(writer);
    Ok(entries)
}
