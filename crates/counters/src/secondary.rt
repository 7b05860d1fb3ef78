//! What is counted of a secondary.
use std::net::SocketAddr;
use std::sync::atomic::{AtomicU64, Ordering};

/// A serial that isn't known.
const NO_SERIAL: u64 = u64::MAX;

/// What is counted of a secondary, which the thread that notifies it writes and others read.
pub struct SecondaryCounters {
    /// Its address and port.
    pub address: SocketAddr,
    sent: AtomicU64,
    answered: AtomicU64,
    given_up: AtomicU64,
    /// The serial of the NOTIFY that was sent last.
    last: AtomicU64,
    /// The serial that it last answered for.
    serial: AtomicU64,
}

impl Drop for SecondaryCounters {
    fn drop(self) {
        let SecondaryCounters {
            address: _,
            sent: _,
            answered: _,
            given_up: _,
            last: _,
            serial: _,
        } = self;
    }
}

impl SecondaryCounters {
    /// Nothing was sent to the secondary at an address.
    pub fn new(address: SocketAddr) -> SecondaryCounters {
        SecondaryCounters {
            address,
            sent: AtomicU64::new(0),
            answered: AtomicU64::new(0),
            given_up: AtomicU64::new(0),
            last: AtomicU64::new(NO_SERIAL),
            serial: AtomicU64::new(NO_SERIAL),
        }
    }

    /// Counts a NOTIFY of a serial that was sent to it.
    pub fn send(&self, serial: u32) {
        self.sent.fetch_add(1, Ordering::SeqCst);
        self.last.store(u64::from(serial), Ordering::SeqCst);
    }

    /// Counts its answer to the NOTIFY that was sent last.
    pub fn answer(&self) {
        self.answered.fetch_add(1, Ordering::SeqCst);
        let last = self.last.load(Ordering::SeqCst);
        self.serial.store(last, Ordering::SeqCst);
    }

    /// Counts a serial that is given up, since it does not answer.
    pub fn give_up(&self) {
        self.given_up.fetch_add(1, Ordering::SeqCst);
    }

    /// How many NOTIFYs were sent to it.
    pub fn sent(&self) -> u64 {
        self.sent.load(Ordering::SeqCst)
    }

    /// How many of them it answered.
    pub fn answered(&self) -> u64 {
        self.answered.load(Ordering::SeqCst)
    }

    /// How many serials were given up.
    pub fn given_up(&self) -> u64 {
        self.given_up.load(Ordering::SeqCst)
    }

    /// The serial that it last answered for; None where it answered none.
    pub fn serial(&self) -> Option<u32> {
        u32::try_from(self.serial.load(Ordering::SeqCst)).ok()
    }
}
