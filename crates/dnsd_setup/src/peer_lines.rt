//! Lines about clients whose requests were refused, by their signature too, or were signed although no keys are configured: at most one per client and kind of request in a
//! second.
use std::alloc::Global;
use std::fmt::{self, Display, Formatter};
use std::mem;
use std::net::SocketAddr;
use tcp_connections::PeerGroup;
use zone_server::Event;

/// The maximum number of separate lines that wait to be written (own).
const MOST_LINES: usize = 64;

/// A line about a client's requests.
pub struct PeerLine {
    /// The event of the first of them.
    first: Event,
    /// How many more had the same event.
    more: u64,
}

impl Drop for PeerLine {
    fn drop(self) {
        let PeerLine { first: _, more: _ } = self;
    }
}

impl Display for PeerLine {
    fn fmt<W: fmt::Write>(&self, f: &mut Formatter<W>) -> fmt::Result {
        let PeerLine { first, more } = self;
        if *more > 0 {
            return write!(f, "{first} ({more} more since)");
        }
        write!(f, "{first}")
    }
}

/// Lines about clients' requests that wait to be written.
pub struct PeerLines {
    lines: Vec<PeerLine>,
    /// The number of requests that have no line, because there are too many lines.
    others: u64,
}

impl Drop for PeerLines {
    fn drop(self) {
        let PeerLines {
            lines: _,
            others: _,
        } = self;
    }
}

impl PeerLines {
    /// No lines.
    pub fn new(alloc: Global) -> PeerLines {
        PeerLines {
            lines: Vec::new(alloc),
            others: 0,
        }
    }

    /// Adds the event of a request: to the line of its client if there is one for the same kind of event, and else as a new line. Returns whether it
    /// is the first since the lines were taken.
    pub fn add(&mut self, event: Event) -> bool {
        for line in self.lines.iter_mut() {
            if is_alike(&line.first, &event) {
                line.more = line.more.saturating_add(1);
                return false;
            }
        }
        let is_first = self.lines.is_empty() && self.others == 0;
        let line = PeerLine {
            first: event,
            more: 0,
        };
        if self.lines.len() >= MOST_LINES || self.lines.push(line).is_err() {
            self.others = self.others.saturating_add(1);
        }
        is_first
    }

    /// Takes all lines, and the number of requests that have none; no line remains.
    pub fn take(&mut self, alloc: Global) -> (Vec<PeerLine>, u64) {
        let others = mem::replace(&mut self.others, 0);
        (mem::replace(&mut self.lines, Vec::new(alloc)), others)
    }
}

/// Whether two events are alike: the same refusal, or signature, of the same kind of request of the same client.
fn is_alike(one: &Event, other: &Event) -> bool {
    match (one, other) {
        (
            Event::Refused { from, wanted, .. },
            Event::Refused {
                from: other_from,
                wanted: other_wanted,
                ..
            },
        ) => wanted == other_wanted && is_one_peer(*from, *other_from),
        (
            Event::Signed { from, wanted, .. },
            Event::Signed {
                from: other_from,
                wanted: other_wanted,
                ..
            },
        ) => wanted == other_wanted && is_one_peer(*from, *other_from),
        (
            Event::BadTsig { from, fault, .. },
            Event::BadTsig {
                from: other_from,
                fault: other_fault,
                ..
            },
        ) => fault == other_fault && is_one_peer(*from, *other_from),
        _ => false,
    }
}

/// Whether two addresses count as one client.
fn is_one_peer(one: SocketAddr, other: SocketAddr) -> bool {
    PeerGroup::of(one.ip()).is_same(PeerGroup::of(other.ip()))
}
