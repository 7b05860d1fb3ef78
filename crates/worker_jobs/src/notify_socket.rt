//! The socket for a secondary that is notified (RFC 1996, 3), by a key or by none (RFC 8945).
ghost use Rattle.std.specs.Prelude.{◌≡◌, ◌≤◌, ◌<◌, ◌^◌, length, take, option_map, IfSome};
ghost use Rattle.std.specs.Option.{option_copied};
ghost use Rattle.worker_jobs.specs.SignedNotify.{key_at, signed_notify, notify_mac, mac_sent, signed_part, counted_part};

use crate::interrupted::is_interrupted;
use arrayvec::ArrayVec;
use dns_message::HEADER;
use hmac::MAX_MAC;
use notify::MAX_NOTIFY;
use std::io;
use std::net::{SocketAddr, UdpSocket};
use tsig::{FUDGE, Key, Keys, Stamp, TsigError, sign, verify_reply, write_without_tsig};
use wire_names::Message;

/// The most datagrams that are taken from a secondary's socket at once (own).
pub(crate) const MOST_REPLIES: usize = 16;

/// The most octets of a NOTIFY that is signed, and of a reply to one that is taken (own).
pub(crate) const MAX_SIGNED: usize = 1024;

/// The socket for a secondary, which receives datagrams only from its address.
pub struct NotifySocket {
    address: SocketAddr,
    socket: UdpSocket,
    /// Which of the server's keys its NOTIFYs are signed by. None if they aren't signed.
    key: Option<u16>,
    /// The MAC of the NOTIFY that was sent last.
    mac: ArrayVec<u8, MAX_MAC>,
}

impl Drop for NotifySocket {
    fn drop(self) {
        let NotifySocket {
            address: _,
            socket: _,
            key: _,
            mac: _,
        } = self;
    }
}

impl NotifySocket {
    /// A socket that sends to a secondary at this address, receives only its replies, and doesn't block. NOTIFYs are signed by this one of the server's keys, if there is one.
    pub fn new(
        socket: UdpSocket,
        address: SocketAddr,
        key: Option<u16>,
    ) -> io::Result<NotifySocket> {
        socket.connect(address)?;
        socket.set_nonblocking(true)?;
        Ok(NotifySocket {
            address,
            socket,
            key,
            mac: ArrayVec::new(),
        })
    }

    /// The secondary's address.
    pub fn address(&self) -> SocketAddr {
        self.address
    }

    /// Sends a NOTIFY, signed at a time by the secondary's key, if it has one: its MAC is digested with the reply (RFC 8945, 5.3). One that can't be sent, or signed, is lost, like
    /// one lost in transit (RFC 1996, 3.6).
    pub(crate) fn send(&mut self, keys: Option<&Keys>, now: u64, octets: &[u8])
        requires { length octets.now ≤ MAX_NOTIFY }
        ensures key { self.new.key ≡ self.old.key }
        ensures mac { self.new.mac.items ≡ mac_sent (option_copied keys.entry) self.old.key self.old.mac.items now octets.now }
    {
        let Some(index) = self.key else {
            let _ = self.socket.send(octets);
            return;
        };
        let Some(key) = key_at(keys, index) else {
            return;
        };
        if octets.len() < HEADER {
            return;
        }
        let mut out = [0u8; MAX_SIGNED];
        let (len, mac) = sign_notify(key, now, octets, &mut out);
        self.mac = mac;
        let _ = self.socket.send(&out[..len]);
    }

    /// Writes to the front of `out` what counts of a reply that has come at a time, and gives how many octets that are: all of it where NOTIFYs aren't signed, else what it is without its
    /// TSIG. None where it isn't signed as the reply to the NOTIFY that was sent last (RFC 8945, 5.4).
    pub(crate) fn plain(
        &self,
        keys: Option<&Keys>,
        now: u64,
        reply: &[u8],
        out: &mut [u8],
    ) -> Option<usize>
        requires { length reply.now ≤ length out.old }
        ensures counted { option_map (λ len. take len out.new) result ≡ counted_part (option_copied keys.entry) self.now.key self.now.mac.items now reply.now }
        ensures bound { IfSome result (λ len. len ≤ length out.new) }
    {
        let Some(index) = self.key else {
            out[..reply.len()].copy_from_slice(reply);
            return Some(reply.len());
        };
        let key = key_at(keys, index)?;
        signed_part(key, &self.mac, now, reply, out)
    }

    /// Receives the next datagram that has come, as far as it fits into a buffer, and gives how many octets it has there. None where none has
    /// come. A report that a NOTIFY was refused (ICMP) is skipped (RFC 1996, 3.6; own).
    pub(crate) fn receive(&self, buf: &mut [u8]) -> Option<usize>
        ensures { IfSome result (λ len. len ≤ length buf.new) }
    {
        for _ in 0..MOST_REPLIES {
            match self.socket.recv(buf) {
                Ok(len) => return Some(len),
                Err(fault) => {
                    if !is_interrupted(&fault) && fault.kind() != io::ErrorKind::ConnectionRefused {
                        return None;
                    }
                }
            }
        }
        None
    }
}

/// The key at an index of a server's keys; None where there is none, or there are no keys.
fn key_at(keys: Option<&Keys>, index: u16) -> Option<&Key>
    ensures { option_copied result ≡ key_at (option_copied keys.entry) index }
{
    match keys {
        None => None,
        Some(keys) => keys.get(index),
    }
}

/// Signs a NOTIFY by a key at a time, at the front of `out`: how many octets it has then, and its MAC.
fn sign_notify(
    key: &Key,
    now: u64,
    octets: &[u8],
    out: &mut [u8; MAX_SIGNED],
) -> (usize, ArrayVec<u8, MAX_MAC>)
    requires header { HEADER ≤ length octets.now }
    requires short { length octets.now ≤ MAX_NOTIFY }
    ensures octets { take result.0 out.new ≡ signed_notify key.now now octets.now }
    ensures mac { result.1.items ≡ notify_mac key.now now octets.now }
    ensures bound { result.0 ≤ MAX_SIGNED }
{
    out[..octets.len()].copy_from_slice(octets);
    let stamp = Stamp {
        time: now,
        fudge: FUDGE,
        error: TsigError::NoError,
    };
    let mut mac = ArrayVec::new();
    let len = sign(key, &mut mac, &stamp, MAX_SIGNED, out, octets.len());
    (len, mac)
}

/// Writes to the front of `out` what a reply is without its TSIG, and gives how many octets that are. None where it isn't signed at a time, by a key, as the reply to a NOTIFY with this MAC (RFC 8945, 5.4).
fn signed_part(key: &Key, mac: &[u8], now: u64, reply: &[u8], out: &mut [u8]) -> Option<usize>
    requires few { length mac.now < 2 ^ 16 }
    requires room { length reply.now ≤ length out.old }
    ensures counted { option_map (λ len. take len out.new) result ≡ signed_part key.now mac.now now reply.now }
    ensures bound { IfSome result (λ len. len ≤ length out.new) }
{
    if reply.len() < HEADER {
        return None;
    }
    let start = verify_reply(key, mac, now, &Message::new(reply))?;
    let id = u16::from_be_bytes([reply[0], reply[1]]);
    Some(write_without_tsig(reply, start, id, out))
}
