//! The connections of a worker that other threads wake.

use crate::woken_keys::WokenKeys;
use mio::Waker;
use std::alloc::{AllocError, Global};
use std::sync::{Mutex, Wait};

/// The woken keys, and the waker that ends the worker's wait.
struct State {
    reported: WokenKeys,
    waker: Option<Waker>,
}

impl Drop for State {
    fn drop(self) {
        let State {
            reported: _,
            waker: _,
        } = self;
    }
}

/// The keys of a worker's connections whose replies are ready. Other threads add them, and end the worker's wait by that (own).
pub struct WakeList {
    state: Mutex<State>,
}

impl Drop for WakeList {
    fn drop(self) {
        let WakeList { state: _ } = self;
    }
}

impl WakeList {
    /// An empty list, for a worker that has at most `most` connections. `AllocError` where there is no memory for as many keys.
    pub fn new(alloc: Global, most: usize) -> Result<WakeList, AllocError> {
        let reported = WokenKeys::new(alloc, most)?;
        Ok(WakeList {
            state: Mutex::new(State {
                reported,
                waker: None,
            }),
        })
    }

    /// Sets the waker that ends the worker's wait whenever a key is added.
    pub fn wake_by<R: Wait>(&self, rt: &R, waker: Waker) {
        self.state.lock(rt).waker = Some(waker);
    }

    /// Adds the key of a connection, and ends the worker's wait, or else its next one. It waits only while another thread uses the list.
    pub fn tell<R: Wait>(&self, rt: &R, key: usize) {
        let mut state = self.state.lock(rt);
        state.reported.put(key);
        if let Some(waker) = &state.waker {
            let _ = waker.wake();
        }
    }

    /// Removes one of the keys, and gives it. None where the list is empty.
    pub(crate) fn take<R: Wait>(&self, rt: &R) -> Option<usize> {
        self.state.lock(rt).reported.take()
    }
}
