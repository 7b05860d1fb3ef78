//! When updates came that have no reply yet.
use std::alloc::{AllocError, Global};
use std::net::{IpAddr, SocketAddr};
use std::sync::atomic::{AtomicU64, Ordering};

/// How many updates are known at a time (own).
const PLACES: u64 = 1024;

/// How many places are looked at for an update (own).
const TRIED: u64 = 8;

/// An update that has no reply yet: by what it is known, 0 where there is none, and when it came, in nanoseconds.
#[derive(Drop)]
struct OpenUpdate {
    key: AtomicU64,
    since: AtomicU64,
}

/// When updates came that have no reply yet, by their peers' addresses and their message IDs (own). No call waits. Where there is no place for one more, an older one is forgotten.
#[derive(Drop)]
pub(crate) struct OpenUpdates {
    places: Vec<OpenUpdate>,
}

impl OpenUpdates {
    /// None has come. The fault is a request for memory that was refused.
    pub(crate) fn new(alloc: Global) -> Result<OpenUpdates, AllocError> {
        let mut places = Vec::new(alloc);
        for _place in 0..PLACES {
            places.push(OpenUpdate {
                key: AtomicU64::new(0),
                since: AtomicU64::new(0),
            })?;
        }
        Ok(OpenUpdates { places })
    }

    /// Notes that an update with a message ID came from an address, at a time in nanoseconds. One that was noted before has come again.
    pub(crate) fn note(&self, from: SocketAddr, id: u16, now: u64) {
        let key = key_of(from, id);
        let place = match self.find(key) {
            Some(place) => Some(place),
            None => self.claim(key),
        };
        if let Some(place) = place {
            place.since.store(now, Ordering::SeqCst);
        }
    }

    /// Whether an update with a message ID from an address is noted.
    pub(crate) fn is_noted(&self, from: SocketAddr, id: u16) -> bool {
        self.find(key_of(from, id)).is_some()
    }

    /// Forgets an update with a message ID from an address, and gives when it came; None where that isn't known.
    pub(crate) fn take(&self, from: SocketAddr, id: u16) -> Option<u64> {
        let key = key_of(from, id);
        let place = self.find(key)?;
        let since = place.since.load(Ordering::SeqCst);
        let taken = place
            .key
            .compare_exchange(key, 0, Ordering::SeqCst, Ordering::SeqCst);
        match taken {
            Ok(_) => Some(since),
            Err(_) => None,
        }
    }

    /// The place of a key.
    fn find(&self, key: u64) -> Option<&OpenUpdate> {
        for tried in 0..TRIED {
            let place = self.places.get(place_at(key, tried))?;
            if place.key.load(Ordering::SeqCst) == key {
                return Some(place);
            }
        }
        None
    }

    /// A place that a key gets: a free one, or the first one that was looked at.
    fn claim(&self, key: u64) -> Option<&OpenUpdate> {
        for tried in 0..TRIED {
            let place = self.places.get(place_at(key, tried))?;
            let claimed = place
                .key
                .compare_exchange(0, key, Ordering::SeqCst, Ordering::SeqCst);
            if claimed.is_ok() {
                return Some(place);
            }
        }
        let place = self.places.get(place_at(key, 0))?;
        place.key.store(key, Ordering::SeqCst);
        Some(place)
    }
}

/// The place of a key that is looked at after others.
fn place_at(key: u64, tried: u64) -> usize {
    (key.wrapping_add(tried) % PLACES) as usize
}

/// By what an update is known: its peer's address and its message ID. It is never 0.
fn key_of(from: SocketAddr, id: u16) -> u64 {
    let low = 65_536 * u64::from(from.port()) + u64::from(id);
    let high = match from.ip() {
        IpAddr::V4(ip) => u64::from(ip.to_bits()).wrapping_mul(1 << 32),
        IpAddr::V6(ip) => folded(ip.to_bits()),
    };
    high.wrapping_add(low).max(1)
}

/// The bits of an address in half as many. The multiplier is 2^64 divided by the golden ratio (Knuth, The Art of Computer Programming 3, 6.4).
fn folded(bits: u128) -> u64 {
    let high = (bits >> 64) as u64;
    let low = (bits % (1 << 64)) as u64;
    high.wrapping_mul(0x9E37_79B9_7F4A_7C15)
        .wrapping_add(low)
        .wrapping_mul(0x9E37_79B9_7F4A_7C15)
}
