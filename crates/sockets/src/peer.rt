//! A TCP connection whose calls report when they would block.
ghost use Rattle.std.specs.Prelude.{◌≡◌, ◌↔◌, ◌<◌, ◌≤◌, ◌-◌, ◌^◌, List, [], length, take, None, ⊤, IfOk, IfErr, OnOk, OnErr};
ghost use Rattle.std.specs.IoError.{error_kind};
ghost use Rattle.tcp_connections.specs.declared.blocking.Fault.{Fault as FaultOf};

use crate::read_hint::ReadHint;
use mio::net::TcpStream;
use std::io::{self, ErrorKind, Read, Write};
use std::net::SocketAddr;
use tcp_connections::{Blocking, Fault};
use tcp_loop::Remote;

/// A connection, as a stream. Contracts say nothing about its octets.
pub struct TcpPeer {
    pub(crate) inner: TcpStream,
    from: SocketAddr,
    faults: u64,
    /// What is known about the connection without a system call, after it is watched.
    pub(crate) hint: Option<ReadHint>,
}

impl Drop for TcpPeer {
    fn drop(self) {
        let TcpPeer {
            inner: _,
            from: _,
            faults: _,
            hint: _,
        } = self;
    }
}

/// Why a call failed.
#[derive(Clone, Copy)]
enum Cause {
    /// The call would block.
    Blocked,
    /// A signal interrupted the call before it had done anything.
    Interrupted,
    /// The connection has failed.
    Failed,
}

/// Why a call failed, by its error.
fn cause_of(fault: &io::Error) -> Cause
    ensures blocked { (result ≡ Cause.Blocked) ↔ (error_kind fault.now ≡ ErrorKind.WouldBlock) }
    ensures interrupted { (result ≡ Cause.Interrupted) ↔ (error_kind fault.now ≡ ErrorKind.Interrupted) }
{
    match fault.kind() {
        ErrorKind::WouldBlock => Cause::Blocked,
        ErrorKind::Interrupted => Cause::Interrupted,
        _ => Cause::Failed,
    }
}

impl TcpPeer {
    /// A non-blocking connection from an address.
    pub fn new(inner: TcpStream, from: SocketAddr) -> TcpPeer
        ensures none { result.faults ≡ 0 }
        ensures from { result.from ≡ from }
    {
        TcpPeer {
            inner,
            from,
            faults: 0,
            hint: None,
        }
    }

    /// Whether it is known, without a system call, that a read would find nothing.
    fn is_empty(&self) -> bool {
        match &self.hint {
            Some(hint) => hint.is_empty(),
            None => false,
        }
    }

    /// Notes that a read returned `count` octets for a buffer of `room` octets. If it returned fewer, it has read all octets that had arrived.
    fn note(&self, count: usize, room: usize) {
        if count == 0 || count >= room {
            return;
        }
        if let Some(hint) = &self.hint {
            hint.note_empty();
        }
    }

    /// Counts a failure.
    fn fail(&mut self) -> Fault
        ensures counted { self.old.faults < 2 ^ 64 - 1 → self.old.faults < self.new.faults }
        ensures failed { result ≡ FaultOf.Failed }
    {
        self.faults = self.faults.saturating_add(1);
        Fault::Failed
    }
}

impl Remote for TcpPeer {
    ghost origin = { λ peer. peer.from };

    fn address(&self) -> SocketAddr {
        self.from
    }
}

impl Blocking for TcpPeer {
    ghost octets = { λ _. None };

    ghost faults = { λ peer. peer.faults };

    // No clause says what the system reports.
    ghost would_block = { λ _. ⊤ };

    // A read interrupted by a signal is repeated.
    fn read(&mut self, buf: &mut [u8]) -> Result<usize, Fault> {
        if self.is_empty() {
            return Err(Fault::Blocked);
        }
        for _again in 0..u64::MAX {
            let fault = match self.inner.read(buf) {
                Ok(count) => {
                    self.note(count, buf.len());
                    return Ok(count);
                }
                Err(fault) => fault,
            };
            match cause_of(&fault) {
                Cause::Blocked => return Err(Fault::Blocked),
                Cause::Interrupted => {}
                Cause::Failed => return Err(self.fail()),
            }
        }
        Err(self.fail())
    }

    // A write that takes no octets is a failure.
    fn write(&mut self, buf: &[u8]) -> Result<usize, Fault> {
        for _again in 0..u64::MAX {
            let fault = match self.inner.write(buf) {
                Ok(0) => return Err(self.fail()),
                Ok(count) => return Ok(count),
                Err(fault) => fault,
            };
            match cause_of(&fault) {
                Cause::Blocked => return Err(Fault::Blocked),
                Cause::Interrupted => {}
                Cause::Failed => return Err(self.fail()),
            }
        }
        Err(self.fail())
    }
}
