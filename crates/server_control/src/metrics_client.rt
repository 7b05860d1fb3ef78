//! A client of the metrics, as the server has it.
use http_page::{MAX_HEAD, PageRequest, asked_by};
use std::alloc::Global;
use std::io::{ErrorKind, Read, Write};
use std::net::{TcpListener, TcpStream};

/// How long a client may take, in milliseconds (own).
const PATIENCE: u64 = 10_000;

/// How far a client is.
#[derive(Drop)]
enum Stage {
    /// The head of its request isn't whole: these octets have come.
    Sends(Vec<u8>),
    /// It waits for its reply.
    Waits,
    /// This is written to it, up to so many octets so far.
    Takes(Vec<u8>, usize),
    /// It is done with, or has failed.
    Gone,
}

/// A client. Nothing here waits for it.
pub(crate) struct MetricsClient {
    stream: TcpStream,
    stage: Stage,
    /// When it came, by a monotonic clock, in milliseconds.
    since: u64,
}

impl Drop for MetricsClient {
    fn drop(self) {
        let MetricsClient {
            stream: _,
            stage: _,
            since: _,
        } = self;
    }
}

/// The next client that has come to a listener, if there is one.
pub(crate) fn accept_client(
    alloc: Global,
    listener: &TcpListener,
    now: u64,
) -> Option<MetricsClient> {
    let (stream, _) = listener.accept().ok()?;
    stream.set_nonblocking(true).ok()?;
    Some(MetricsClient {
        stream,
        stage: Stage::Sends(Vec::new(alloc)),
        since: now,
    })
}

impl MetricsClient {
    /// Reads what the client has sent, and gives what it asks for once the head of its request is whole.
    pub(crate) fn hear(&mut self, now: u64) -> PageRequest {
        let is_late = self.is_late(now);
        let Stage::Sends(_) = &self.stage else {
            return PageRequest::More;
        };
        let mut room = [0u8; 1024];
        match self.stream.read(&mut room) {
            Ok(count) if count > 0 && !is_late => return self.take(&room[..count.min(1024)]),
            Err(fault) if is_later(fault.kind()) && !is_late => {}
            Ok(_) | Err(_) => self.stage = Stage::Gone,
        }
        PageRequest::More
    }

    /// Takes octets that have come, and gives what is asked for once the head is whole: the client then waits for its reply.
    fn take(&mut self, octets: &[u8]) -> PageRequest {
        let Stage::Sends(head) = &mut self.stage else {
            return PageRequest::More;
        };
        let left = MAX_HEAD.saturating_sub(head.len()).min(octets.len());
        if head.extend_from_slice(&octets[..left]).is_err() {
            self.stage = Stage::Gone;
            return PageRequest::More;
        }
        let asked = asked_by(head.as_slice());
        if asked != PageRequest::More {
            self.stage = Stage::Waits;
        }
        asked
    }

    /// Gives it its reply.
    pub(crate) fn reply(&mut self, text: Vec<u8>) {
        self.stage = Stage::Takes(text, 0);
    }

    /// Writes what it takes of its reply.
    pub(crate) fn write(&mut self, now: u64) {
        let is_late = self.is_late(now);
        let Stage::Takes(text, sent) = &mut self.stage else {
            return;
        };
        let octets = text.as_slice();
        let rest = &octets[(*sent).min(octets.len())..];
        let is_over = match self.stream.write(rest) {
            Ok(count) => {
                *sent = sent.saturating_add(count);
                *sent >= octets.len() || is_late
            }
            Err(fault) => is_late || !is_later(fault.kind()),
        };
        if is_over {
            self.stage = Stage::Gone;
        }
    }

    /// Whether nothing is left to do for it.
    pub(crate) fn is_gone(&self) -> bool {
        matches!(&self.stage, Stage::Gone)
    }

    /// Whether it has taken too long.
    fn is_late(&self, now: u64) -> bool {
        now.saturating_sub(self.since) > PATIENCE
    }
}

/// Whether a read or a write is to be tried again later.
fn is_later(kind: ErrorKind) -> bool {
    kind == ErrorKind::WouldBlock || kind == ErrorKind::Interrupted
}
