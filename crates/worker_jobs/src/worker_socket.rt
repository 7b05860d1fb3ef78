//! A worker's UDP socket (RFC 1035, 4.2.1).
//!
//! While few datagrams come, it waits for each and sends its reply at once: two system calls per query. Where more are already there, it takes them
//! without waiting, and sends their replies in a row once none is left, or a few have come. A client is then woken once for many replies.
ghost use Rattle.std.specs.Prelude.{◌≡◌, ◌≢◌, ◌≤◌, None, length, IfOk, IfErr, IfSome};
ghost use Rattle.std.specs.IoError.{error_kind};
ghost use Rattle.std.specs.Io.{WritesAtMost};
ghost use Rattle.requests.specs.Datagrams.{count_of};

use crate::held_replies::{HeldReplies, MOST};
use crate::interrupted::is_interrupted;
use crate::work_limit::StopFlag;
use message_counts::DatagramCounts;
use requests::Datagrams;
use std::alloc::Global;
use std::io::{self, ErrorKind};
use std::net::{SocketAddr, UdpSocket};
use std::time::Duration;

/// How long to wait for a datagram before the thread checks whether it is to end, in seconds (own).
const LOOK: u64 = 1;

/// How many datagrams are waited for, one after another, before the socket tries to receive without waiting (own).
const WAITS: u32 = 32;

/// A datagram of more octets may take long to answer, so no reply is held back meanwhile (own).
const LONG: usize = 512;

/// Whether a receive only timed out or was interrupted, so that it is tried again.
fn is_passing(fault: &io::Error) -> bool {
    match fault.kind() {
        ErrorKind::WouldBlock => true,
        ErrorKind::TimedOut => true,
        ErrorKind::Interrupted => true,
        _ => false,
    }
}

/// Sends a datagram, and gives how many of its octets were sent. A send that a signal interrupts is tried again.
fn send_to(socket: &UdpSocket, octets: &[u8], to: SocketAddr) -> io::Result<usize>
    ensures bound { WritesAtMost result octets.now }
    ensures again { IfErr result (λ fault. error_kind fault ≢ ErrorKind.Interrupted) }
{
    for _ in 0..u64::MAX {
        match socket.send_to(octets, to) {
            Ok(sent) => return Ok(sent),
            Err(fault) => {
                if !is_interrupted(&fault) {
                    return Err(fault);
                }
            }
        }
    }
    Err(io::Error::from(ErrorKind::TimedOut))
}

/// Sends a reply, and gives whether all of it was sent.
pub fn is_sent(socket: &UdpSocket, octets: &[u8], to: SocketAddr) -> bool {
    match send_to(socket, octets, to) {
        Ok(sent) => sent == octets.len(),
        Err(_) => false,
    }
}

/// How datagrams are received.
#[derive(Clone, Copy)]
enum Mode {
    /// Waits for each datagram. The number is how many were waited for in a row.
    Waiting(u32),
    /// Takes datagrams without waiting. The number is how many have come since replies were last sent.
    Taking(u32),
}

/// A worker's UDP socket, with the count of its failures.
pub struct WorkerSocket<'a, T> {
    socket: UdpSocket,
    stop: StopFlag<'a>,
    mode: Mode,
    held: HeldReplies,
    /// Counts what is received and sent.
    counts: T,
    /// How many replies failed to be sent, and aren't counted yet.
    lost: u64,
    faults: u64,
}

impl<'a, T: Drop> Drop for WorkerSocket<'a, T> {
    fn drop(self) {
        let WorkerSocket {
            socket: _,
            stop: _,
            mode: _,
            held: _,
            counts: _,
            lost: _,
            faults: _,
        } = self;
    }
}

impl<'a, T: DatagramCounts> WorkerSocket<'a, T> {
    /// The socket of a worker thread, which waits for datagrams from now on, and counts them so. No failure is counted yet.
    pub fn new(
        alloc: Global,
        socket: UdpSocket,
        stop: StopFlag<'a>,
        counts: T,
    ) -> io::Result<WorkerSocket<'a, T>>
        ensures { IfOk result (λ socket. socket.faults ≡ 0) }
    {
        socket.set_nonblocking(false)?;
        socket.set_read_timeout(Some(Duration::from_secs(LOOK)))?;
        Ok(WorkerSocket {
            socket,
            stop,
            mode: Mode::Waiting(0),
            held: HeldReplies::new(alloc)?,
            counts,
            lost: 0,
            faults: 0,
        })
    }

    /// Counts a failure.
    fn count(&mut self)
        ensures { self.new.faults ≡ count_of self.old.faults 1 }
    {
        self.faults = self.faults.saturating_add(1);
    }

    /// Sends the replies that are held back.
    fn send_held(&mut self)
        ensures { self.new.faults ≡ self.old.faults }
    {
        let lost = self.held.send(&self.socket);
        self.lost = self.lost.saturating_add(lost);
    }

    /// Prepares for the next receive: after `WAITS` datagrams that were waited for, the next isn't. After `MOST` that were taken, their replies are sent.
    fn prepare(&mut self) -> io::Result<()>
        ensures { self.new.faults ≡ self.old.faults }
    {
        match self.mode {
            Mode::Waiting(WAITS) => {
                self.socket.set_nonblocking(true)?;
                self.mode = Mode::Taking(0);
            }
            Mode::Taking(MOST) => {
                self.send_held();
                self.mode = Mode::Taking(0);
            }
            _ => {}
        }
        Ok(())
    }

    /// Counts a datagram of `len` octets that has come. Where it is long, the replies that are held back are sent first.
    fn note(&mut self, len: usize)
        ensures { self.new.faults ≡ self.old.faults }
    {
        match self.mode {
            Mode::Waiting(count) => self.mode = Mode::Waiting(count.saturating_add(1)),
            Mode::Taking(count) => self.mode = Mode::Taking(count.saturating_add(1)),
        }
        if len > LONG {
            self.send_held();
        }
    }

    /// Called where no datagram has come, though one was waited for or none was: sends the replies that are held back, has the next datagram waited for, and the counts rest
    /// meanwhile.
    fn wait(&mut self) -> io::Result<()>
        ensures { self.new.faults ≡ self.old.faults }
    {
        if let Mode::Taking(_) = self.mode {
            self.send_held();
            self.socket.set_nonblocking(false)?;
            self.mode = Mode::Waiting(0);
        }
        self.counts.rest();
        Ok(())
    }

    /// Receives a datagram at the front of a buffer, and gives how many octets it has there and its sender's address. None where the socket has
    /// failed, or the thread is to end.
    fn next(&mut self, buf: &mut [u8]) -> Option<(usize, SocketAddr)>
        ensures bound { IfSome result (λ received. received.0 ≤ length buf.new) }
        ensures same { self.new.faults ≡ self.old.faults }
    {
        for _tried in 0..u64::MAX {
            if self.stop.is_over() {
                return None;
            }
            self.prepare().ok()?;
            match self.socket.recv_from(buf) {
                Ok(received) => {
                    self.note(received.0);
                    return Some(received);
                }
                Err(fault) if is_passing(&fault) => self.wait().ok()?,
                Err(_) => return None,
            }
        }
        None
    }
}

impl<T: DatagramCounts> Datagrams for WorkerSocket<'_, T> {
    ghost datagrams = { λ _. None };

    ghost failed = { λ socket. socket.faults };

    // Once the thread is to end, the receive fails.
    fn receive(&mut self, buf: &mut [u8]) -> Option<(usize, SocketAddr)> {
        match self.next(buf) {
            Some(received) => {
                self.stop.limit.add(1);
                self.counts.received(&buf[..received.0], &received.1);
                Some(received)
            }
            None => {
                self.count();
                None
            }
        }
    }

    // The failure of a reply that was held back is counted by a later call.
    fn send(&mut self, octets: &[u8], to: SocketAddr) {
        self.counts.sent(octets, &to);
        let is_held = match self.mode {
            Mode::Taking(_) => self.held.hold(octets, to),
            Mode::Waiting(_) => false,
        };
        if !is_held {
            self.send_held();
            if !is_sent(&self.socket, octets, to) {
                self.lost = self.lost.saturating_add(1);
            }
        }
        if self.lost > 0 {
            self.lost -= 1;
            self.count();
        }
    }

    fn flush(&mut self) {
        self.send_held();
        self.faults = self.faults.saturating_add(self.lost);
        self.lost = 0;
    }

    fn faults(&self) -> u64 {
        self.faults
    }
}
