//! When requests were verified whose replies are made later.
use arrayvec::ArrayVec;
use hmac::MAX_MAC;
use std::alloc::Global;
use std::mem;
use std::net::SocketAddr;

/// A request whose reply is made later.
#[derive(Drop)]
struct PendingTime {
    /// The MAC of its TSIG.
    mac: ArrayVec<u8, MAX_MAC>,
    /// When it was verified, in seconds since 1970.
    time: u64,
}

/// The requests of a connection whose replies are made later.
#[derive(Drop)]
struct ConnectionTimes {
    /// The address of its peer.
    from: SocketAddr,
    /// The requests, in the order in which they were verified first.
    requests: Vec<PendingTime>,
}

impl ConnectionTimes {
    /// Where the request with this MAC is; None where there is none.
    fn position(&self, mac: &[u8]) -> Option<usize> {
        self.requests
            .as_slice()
            .iter()
            .position(|request| request.mac.as_slice() == mac)
    }

    /// Keeps when the request with this MAC was verified, unless that is kept. Where memory is refused, nothing is kept.
    fn put(&mut self, mac: ArrayVec<u8, MAX_MAC>, time: u64) {
        if self.position(&mac).is_none() {
            let _ = self.requests.push(PendingTime { mac, time });
        }
    }

    /// Forgets the request with this MAC.
    fn remove(&mut self, mac: &[u8]) {
        let Some(at) = self.position(mac) else {
            return;
        };
        if at < self.requests.len() {
            let _ = self.requests.remove(at);
        }
    }
}

/// The requests that were kept, if their peer sends from this address; otherwise none.
fn of_peer(alloc: Global, kept: Option<ConnectionTimes>, from: SocketAddr) -> ConnectionTimes {
    if let Some(times) = kept {
        if times.from == from {
            return times;
        }
    }
    ConnectionTimes {
        from,
        requests: Vec::new(alloc),
    }
}

/// When requests were verified whose replies are made later, by the key of their connection. Such a request is answered again with the same octets, and isn't
/// judged by a later time then: an update that has been applied would else get BADTIME.
#[derive(Drop)]
pub(crate) struct PendingTimes {
    alloc: Global,
    connections: Vec<Option<ConnectionTimes>>,
}

impl PendingTimes {
    /// No request's.
    pub fn new(alloc: Global) -> PendingTimes {
        PendingTimes {
            alloc,
            connections: Vec::new(alloc),
        }
    }

    /// When the request with this MAC was verified, from this address on the connection under a key; None where that one has no such request.
    pub fn at(&self, key: usize, from: SocketAddr, mac: &[u8]) -> Option<u64> {
        match self.connections.get(key)? {
            Some(times) if times.from == from => {
                let at = times.position(mac)?;
                Some(times.requests.get(at)?.time)
            }
            _ => None,
        }
    }

    /// Makes room for the connection under a key. False where memory is refused.
    fn make_room(&mut self, key: usize) -> bool {
        let Some(count) = key.checked_add(1) else {
            return false;
        };
        for _entry in self.connections.len()..count {
            let Ok(()) = self.connections.push(None) else {
                return false;
            };
        }
        true
    }

    /// Keeps when the request with this MAC was verified, from this address on the connection under a key; those of another one that had the key are forgotten. Where memory is refused, nothing is kept, and
    /// that request is judged by a later time.
    pub fn put(&mut self, key: usize, from: SocketAddr, mac: ArrayVec<u8, MAX_MAC>, time: u64) {
        if !self.make_room(key) {
            return;
        }
        if let Some(entry) = self.connections.get_mut(key) {
            let mut times = of_peer(self.alloc, mem::replace(entry, None), from);
            times.put(mac, time);
            *entry = Some(times);
        }
    }

    /// Forgets the request with this MAC of the connection under a key.
    pub fn remove(&mut self, key: usize, mac: &[u8]) {
        if let Some(Some(times)) = self.connections.get_mut(key) {
            times.remove(mac);
        }
    }
}
