//! The addresses of clients in tests, their rules, and logs: one that keeps its lines, one that drops them.
use rights::{Rule, parse_rule};
use std::alloc::Global;
use std::net::{IpAddr, SocketAddr};
use std::sync::{Mutex, Wait};
use zone_server::{Event, ServiceLog};

/// The address of a client: 192.0.2.7, with a port.
pub fn asker(port: u16) -> SocketAddr {
    SocketAddr::new(IpAddr::from([192, 0, 2, 7]), port)
}

/// The rule by which that client may update and transfer, if it may; else none. None if memory allocation fails.
pub fn rules_if(alloc: Global, may: bool) -> Option<Vec<Rule>> {
    if may {
        return rule_of(alloc, "192.0.2.7: update, transfer");
    }
    Some(Vec::new(alloc))
}

/// The rule that a text is. None if it is none, or memory allocation fails.
pub fn rule_of(alloc: Global, text: &str) -> Option<Vec<Rule>> {
    let mut rules = Vec::new(alloc);
    rules.push(parse_rule(alloc, text).ok()?).ok()?;
    Some(rules)
}

/// A log that drops all events.
#[derive(Clone, Copy)]
pub struct NoLog;

impl ServiceLog for NoLog {
    fn tell<R: Wait>(&self, _rt: &R, _event: Event) {}
}

/// A log that keeps the lines of its events, each followed by a semicolon.
#[derive(Drop)]
pub struct Kept {
    lines: Mutex<String>,
}

impl ServiceLog for Kept {
    fn tell<R: Wait>(&self, rt: &R, event: Event) {
        let mut lines = self.lines.lock(rt);
        let _ = write!(lines, "{event};");
    }
}

impl Kept {
    /// An empty log.
    pub fn new(alloc: Global) -> Kept {
        Kept {
            lines: Mutex::new(String::new(alloc)),
        }
    }

    /// Whether the log's lines are exactly these.
    pub fn has<R: Wait>(&self, rt: &R, lines: &str) -> bool {
        self.lines.lock(rt).as_str() == lines
    }
}
