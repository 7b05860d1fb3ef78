//! A handler that answers each request by its first octet.
ghost use Rattle.std.specs.Prelude.{◌≡◌, ◌≤◌, ◌∷◌, ◌++◌, [], List, length, if◌then◌else◌};

use requests::StreamEnd;
use serve_core::{Peer, Transport};
use std::net::SocketAddr;
use std::sync::Wait;
use tcp_connections::{Handler, Messages, Reply};

/// The length of the longest message, in octets (RFC 1035, 4.2.2).
pub(crate) const LARGE: usize = 65_535;

/// Two messages of one octet each, one after the other.
#[derive(Drop)]
pub(crate) struct Both {
    first: bool,
    second: bool,
}

impl Messages for Both {
    ghost left = { λ both. (if both.first then (1 ∷ []) ∷ [] else []) ++ (if both.second then (2 ∷ []) ∷ [] else []) };

    fn next_message(&mut self, out: &mut [u8]) -> Option<usize> {
        if self.first {
            self.first = false;
            out[0] = 1;
            return Some(1);
        }
        if self.second {
            self.second = false;
            out[0] = 2;
            return Some(1);
        }
        None
    }
}

/// A handler that echoes each request, with exceptions: there is no reply to a request of no octets, there are two messages for one of two
/// octets, and there are other replies to one that starts with `?`, `L` or `u`. After `left` requests it returns [`StreamEnd::Spent`].
#[derive(Drop)]
pub(crate) struct Echo {
    peer: Peer,
    asker: usize,
    pub(crate) left: u32,
    /// The number of calls for requests that start with `u`.
    pub(crate) asked: u32,
    /// The key of the connection whose reply to such a request is ready. Without it the reply is made later.
    pub(crate) made: Option<usize>,
    /// The number of calls that ask for such a request to be taken up before its turn, and how many were between it and the first in the last one.
    pub(crate) prepared: u32,
    pub(crate) between: usize,
}

impl Echo {
    /// A handler for `left` requests.
    pub(crate) fn new(left: u32) -> Echo {
        Echo {
            peer: Peer::over(Transport::Tcp, false),
            asker: 0,
            left,
            asked: 0,
            made: None,
            prepared: 0,
            between: 0,
        }
    }

    /// Whether the reply to a request is made later.
    fn puts_off(&mut self, request: &[u8]) -> bool
        ensures peer { self.new.peer ≡ self.old.peer }
        ensures asker { self.new.asker ≡ self.old.asker }
    {
        if request.first() != Some(&b'u') {
            return false;
        }
        self.asked = self.asked.saturating_add(1);
        if self.made != Some(self.asker) {
            return true;
        }
        self.made = None;
        false
    }

    /// Writes the message that is the reply to a request, and returns its length in octets: [`LARGE`] for a request that starts with `L`, and 1
    /// for one that starts with `?`, whose octet is 1 if the peer is allowed to transfer, else 0.
    fn message(&self, request: &[u8], out: &mut [u8]) -> usize
        requires { 65535 ≤ length out.old }
        ensures most { result ≤ 65535 }
        ensures bound { result ≤ length out.new }
    {
        let first = request.first().copied().unwrap_or(0);
        if first == b'L' {
            return LARGE;
        }
        if first == b'?' {
            out[0] = u8::from(self.peer.may_transfer);
            return 1;
        }
        let len = request.len().min(LARGE);
        out[..len].copy_from_slice(&request[..len]);
        len
    }
}

impl Handler<Both> for Echo {
    ghost seen = { λ _ _. record { asked = record { published = []; buried = [] }; latest = record { published = []; buried = [] } } };

    ghost peer = { λ echo. echo.peer };

    ghost asker = { λ echo. echo.asker };

    ghost is_reply = { λ _ _ _ _ _. Unit {0} };

    ghost is_later = { λ _ _. Unit {0} };

    ghost spent = { λ echo. echo.left ≡ 0 };

    fn turn_to(&mut self, _from: SocketAddr, key: usize) {
        self.asker = key;
    }

    fn set_peer(&mut self, other: Peer) {
        self.peer = other;
    }

    fn reply<R: Wait>(
        &mut self,
        _rt: &R,
        request: &[u8],
        out: &mut [u8],
    ) -> Result<Reply<Both>, StreamEnd> {
        if self.left == 0 {
            return Err(StreamEnd::Spent);
        }
        self.left -= 1;
        if self.puts_off(request) {
            return Ok(Reply::Later);
        }
        match request.len() {
            0 => Ok(Reply::Silent),
            2 => Ok(Reply::Many(Both {
                first: true,
                second: true,
            })),
            _ => Ok(Reply::One(self.message(request, out))),
        }
    }

    fn prepare<R: Wait>(
        &mut self,
        _rt: &R,
        between: usize,
        request: &[u8],
        _out: &mut [u8],
    ) -> bool {
        if request.first() != Some(&b'u') {
            return false;
        }
        self.prepared = self.prepared.saturating_add(1);
        self.between = between;
        true
    }
}
