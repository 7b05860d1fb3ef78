//! A client, as the server has it.
ghost use Rattle.std.specs.Prelude.{◌≡◌, ◌++◌, ◌∷◌, IfSome};
ghost use Rattle.control_socket.specs.Commands.{IsHeard};

use crate::command::ControlCommand;
use std::io::{ErrorKind, Read, Write};
use std::os::unix::net::{UnixListener, UnixStream};

/// The most octets of a client's line, with its end (own).
const LINE: usize = 256;

/// How long a client may take to send its line, and to take what is written, in milliseconds (own).
const PATIENCE: u64 = 10_000;

/// What a client has sent.
#[derive(Clone, Copy, Debug, PartialEq, Eq)]
pub enum Heard {
    /// No whole line yet, or it has its reply already.
    Nothing,
    /// A command.
    Command(ControlCommand),
    /// A line that is no command.
    Unknown,
}

/// How far a client is.
#[derive(Drop)]
enum Stage {
    /// Its line isn't whole.
    Sends,
    /// It waits for its reply.
    Waits,
    /// This is written to it, up to so many octets so far.
    Takes(String, usize),
    /// It is done with, or has failed.
    Gone,
}

/// A client. Nothing here waits for it.
pub struct ControlClient {
    stream: UnixStream,
    line: [u8; LINE],
    len: usize,
    stage: Stage,
    /// Since when it is to send or to take something, by a monotonic clock, in milliseconds.
    since: u64,
}

impl Drop for ControlClient {
    fn drop(self) {
        let ControlClient {
            stream: _,
            line: _,
            len: _,
            stage: _,
            since: _,
        } = self;
    }
}

/// The next client that has come to a socket, if there is one.
pub fn accept_client(listener: &UnixListener, now: u64) -> Option<ControlClient> {
    let (stream, _) = listener.accept().ok()?;
    stream.set_nonblocking(true).ok()?;
    Some(ControlClient {
        stream,
        line: [0; LINE],
        len: 0,
        stage: Stage::Sends,
        since: now,
    })
}

impl ControlClient {
    /// Reads what the client has sent, and gives its command once the line is whole.
    pub fn hear(&mut self, now: u64) -> Heard {
        let late = self.is_late(now);
        let Stage::Sends = &self.stage else {
            return Heard::Nothing;
        };
        let room = &mut self.line[self.len.min(LINE)..];
        match self.stream.read(room) {
            Ok(count) if count > 0 && !late => {
                self.len = self.len.saturating_add(count).min(LINE);
                self.take_line()
            }
            Err(fault) if is_later(fault.kind()) && !late => Heard::Nothing,
            Ok(_) | Err(_) => {
                self.stage = Stage::Gone;
                Heard::Nothing
            }
        }
    }

    /// What the line says. Once it is whole, the client waits for its reply.
    fn take_line(&mut self) -> Heard {
        let heard = heard_in(&self.line[..self.len.min(LINE)]);
        if heard != Heard::Nothing {
            self.stage = Stage::Waits;
        }
        heard
    }

    /// Whether it waits for its reply.
    pub fn is_waiting(&self) -> bool {
        matches!(&self.stage, Stage::Waits)
    }

    /// Gives it its reply.
    pub fn reply(&mut self, text: String, now: u64) {
        self.stage = Stage::Takes(text, 0);
        self.since = now;
    }

    /// Writes what it takes of its reply.
    pub fn write(&mut self, now: u64) {
        let late = self.is_late(now);
        let Stage::Takes(text, sent) = &mut self.stage else {
            return;
        };
        let octets = text.as_bytes();
        let rest = &octets[(*sent).min(octets.len())..];
        let is_over = match self.stream.write(rest) {
            Ok(count) => {
                *sent = sent.saturating_add(count);
                *sent >= octets.len() || late
            }
            Err(fault) => late || !is_later(fault.kind()),
        };
        if is_over {
            self.stage = Stage::Gone;
        }
    }

    /// Whether nothing is left to do for it.
    pub fn is_gone(&self) -> bool {
        matches!(&self.stage, Stage::Gone)
    }

    /// Whether it has taken too long.
    fn is_late(&self, now: u64) -> bool {
        now.saturating_sub(self.since) > PATIENCE
    }
}

/// What the octets say that a client has sent: the command of the line that its newline ends, nothing before that has come. A line of 256 octets or more is no command.
fn heard_in(sent: &[u8]) -> Heard
    ensures { IsHeard sent.now result }
{
    let Some((line, _rest)) = line_of(sent) else {
        return if sent.len() < LINE {
            Heard::Nothing
        } else {
            Heard::Unknown
        };
    };
    match ControlCommand::of(line) {
        Some(command) => Heard::Command(command),
        None => Heard::Unknown,
    }
}

/// The octets before and after the first newline; None where there is none.
fn line_of(sent: &[u8]) -> Option<(&[u8], &[u8])>
    ensures { IfSome result (λ parts. sent.now ≡ parts.0.now ++ 10 ∷ parts.1.now) }
{
    let at = sent.iter().position(|octet| *octet == b'\n')?;
    let (line, rest) = sent.split_at(at);
    Some((line, rest.get(1..)?))
}

/// Whether a read or a write is to be tried again later.
fn is_later(kind: ErrorKind) -> bool {
    kind == ErrorKind::WouldBlock || kind == ErrorKind::Interrupted
}
