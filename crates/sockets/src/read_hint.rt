//! What is known about a connection without a system call (Linux, epoll(7)).

use std::alloc::{AllocError, Global};
use std::sync::Arc;
use std::sync::atomic::{AtomicBool, Ordering};

/// State shared by a connection and the watch that waits for it.
///
/// A read that returns fewer octets than its buffer holds has read all octets that had arrived, and the system reports later octets with a new
/// event. So there is no read before that event. After the peer has closed its side there are no more events, and each read asks the system.
struct ReadState {
    is_empty: AtomicBool,
    is_closed: AtomicBool,
}

impl Drop for ReadState {
    fn drop(self) {
        let ReadState {
            is_empty: _,
            is_closed: _,
        } = self;
    }
}

/// A reference to this state, held by the connection or by the watch.
pub(crate) struct ReadHint {
    state: Arc<ReadState, Global>,
}

impl Drop for ReadHint {
    fn drop(self) {
        let ReadHint { state: _ } = self;
    }
}

impl ReadHint {
    /// Two references to the state of a connection about which nothing is known. Fails if there is no memory.
    pub(crate) fn pair(alloc: Global) -> Result<(ReadHint, ReadHint), AllocError> {
        let state = ReadState {
            is_empty: AtomicBool::new(false),
            is_closed: AtomicBool::new(false),
        };
        let state = Arc::new(alloc, state).map_err(AllocError::from)?;
        let same = Arc::try_clone(&state)?;
        Ok((ReadHint { state }, ReadHint { state: same }))
    }

    /// Records that the connection was reported ready. `is_closed` says whether its peer has closed its side.
    pub(crate) fn tell(&self, is_closed: bool) {
        if is_closed {
            self.state.is_closed.store(true, Ordering::SeqCst);
        }
        self.state.is_empty.store(false, Ordering::SeqCst);
    }

    /// Records that a read has read all octets that had arrived, unless the peer has closed its side.
    pub(crate) fn note_empty(&self) {
        if !self.state.is_closed.load(Ordering::SeqCst) {
            self.state.is_empty.store(true, Ordering::SeqCst);
        }
    }

    /// Whether it is known that a read would find nothing.
    pub(crate) fn is_empty(&self) -> bool {
        self.state.is_empty.load(Ordering::SeqCst)
    }
}
