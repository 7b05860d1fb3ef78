//! What threads put, and one takes.
ghost use Rattle.std.specs.Prelude.{◌≡◌, ◌<◌, IfErr, IsTrue, false, vec_capacity, vec_len};
ghost use Rattle.update_batches.specs.BoundedQueue.{BeginsWith};

use crate::bounded_queue::{BoundedQueue, Most, Put};
use std::alloc::{AllocError, Global};
use std::mem;
use std::sync::{Condvar, Mutex, Wait};

/// What waits, and whether more may come.
struct State<T> {
    waiting: BoundedQueue<T>,
    ended: bool,
    /// Whether nothing is taken, until it is released.
    held: bool,
    /// Whether the thread that takes waits for something to take.
    idle: bool,
}

impl<T: Drop> Drop for State<T> {
    fn drop(self) {
        let State {
            waiting: _,
            ended: _,
            held: _,
            idle: _,
        } = self;
    }
}

/// What any thread puts, and one takes. The lock is held for as long as something is put or taken.
pub struct Queue<T> {
    state: Mutex<State<T>>,
    /// Tells the thread that takes that something has come, or that nothing more does.
    came: Condvar,
    /// Tells the thread that holds the queue that the one that takes waits.
    rests: Condvar,
}

impl<T: Drop> Drop for Queue<T> {
    fn drop(self) {
        let Queue {
            state: _,
            came: _,
            rests: _,
        } = self;
    }
}

impl<T: Drop> Queue<T> {
    /// A queue in which at most so much waits. It takes the memory for as many as may wait.
    pub fn new(alloc: Global, most: Most) -> Result<Queue<T>, AllocError> {
        let state = State {
            waiting: BoundedQueue::new(alloc, most)?,
            ended: false,
            held: false,
            idle: false,
        };
        Ok(Queue {
            state: Mutex::new(state),
            came: Condvar::new(),
            rests: Condvar::new(),
        })
    }

    /// Puts one, of so many octets; it comes back at once where there is no room for it ([`BoundedQueue::put`]), or the queue is ended.
    pub fn put<R: Wait>(&self, rt: &R, item: T, octets: usize) -> Result<Put, T>
        ensures { IfErr result (λ back. back ≡ item) }
    {
        let mut state = self.state.lock(rt);
        if state.ended {
            return Err(item);
        }
        let put = state.waiting.put(item, octets);
        mem::drop(state);
        self.came.notify_one();
        put
    }

    /// Waits until something waits or the queue is ended, and takes the first that wait, in their order, after `taken`, as many as this has room for:
    /// false where none is left, and none comes any more.
    pub fn take<R: Wait>(&self, rt: &R, taken: &mut Vec<T>) -> bool
        ensures begins { BeginsWith taken.new.items taken.old.items }
        ensures room { vec_capacity taken.new ≡ vec_capacity taken.old }
        ensures some { IsTrue result → vec_len taken.old < vec_capacity taken.old → vec_len taken.old < vec_len taken.new }
        ensures none { result ≡ false → taken.new ≡ taken.old }
    {
        let mut guard = self.state.lock(rt);
        guard.idle = true;
        self.rests.notify_all();
        let mut state = self.came.wait_while(rt, guard, |state| {
            (state.held || state.waiting.is_empty()) && !state.ended
        });
        state.idle = false;
        if state.waiting.is_empty() {
            return false;
        }
        state.waiting.take(taken);
        true
    }

    /// Holds the queue, so that nothing is taken until [`put_first`](Self::put_first) or [`release`](Self::release), and waits until what was taken before is done with, or the
    /// queue is ended. What is put meanwhile waits.
    pub fn hold<R: Wait>(&self, rt: &R) {
        let mut guard = self.state.lock(rt);
        guard.held = true;
        let state = self
            .rests
            .wait_while(rt, guard, |state| !state.idle && !state.ended);
        mem::drop(state);
    }

    /// Puts one, of so many octets, before all that wait, and releases the queue; it comes back as by [`put`](Self::put).
    pub fn put_first<R: Wait>(&self, rt: &R, item: T, octets: usize) -> Result<Put, T>
        ensures { IfErr result (λ back. back ≡ item) }
    {
        let mut state = self.state.lock(rt);
        state.held = false;
        let put = if state.ended {
            Err(item)
        } else {
            state.waiting.put_first(item, octets)
        };
        mem::drop(state);
        self.came.notify_one();
        put
    }

    /// Releases the queue: what waits is taken again.
    pub fn release<R: Wait>(&self, rt: &R) {
        self.state.lock(rt).held = false;
        self.came.notify_one();
    }

    /// Ends it: nothing more is put, and who takes is told so once nothing is left.
    pub fn end<R: Wait>(&self, rt: &R) {
        self.state.lock(rt).ended = true;
        self.came.notify_all();
        self.rests.notify_all();
    }
}
