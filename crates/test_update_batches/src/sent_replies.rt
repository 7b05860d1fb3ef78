//! A reply sender that keeps what it sends to clients whose updates were queued.
ghost use Rattle.std.specs.Prelude.{None};

use std::alloc::Global;
use std::net::SocketAddr;
use std::sync::Wait;
use tsig::RequestTsig;
use zone_server::{AtTicket, ReplySender};

/// A datagram that was sent.
#[derive(Drop)]
pub(crate) struct SentDatagram {
    /// The number of the worker thread whose socket sent it.
    pub worker: usize,
    /// The address that it went to.
    pub to: SocketAddr,
    /// Its octets.
    pub octets: Vec<u8>,
}

/// What was sent, as far as there was memory for it.
#[derive(Drop)]
pub(crate) struct SentReplies {
    alloc: Global,
    /// The keys of the connections that were woken, each with the number of its worker thread.
    pub keys: Vec<(usize, usize)>,
    /// The datagrams.
    pub datagrams: Vec<SentDatagram>,
}

impl SentReplies {
    /// Nothing is sent yet.
    pub fn new(alloc: Global) -> SentReplies {
        SentReplies {
            alloc,
            keys: Vec::new(alloc),
            datagrams: Vec::new(alloc),
        }
    }
}

impl ReplySender for SentReplies {
    ghost brought = { λ sent. None };

    fn tell<R: Wait>(&mut self, _rt: &R, worker: usize, key: usize, _told: AtTicket) {
        let _ = self.keys.push((worker, key));
    }

    fn send(&mut self, worker: usize, to: SocketAddr, _tsig: Option<RequestTsig>, octets: &[u8]) {
        if let Ok(octets) = octets.to_vec(self.alloc) {
            let _ = self.datagrams.push(SentDatagram { worker, to, octets });
        }
    }
}
