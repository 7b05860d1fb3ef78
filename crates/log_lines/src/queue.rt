//! Lines that threads add, and one writes.
use crate::backlog::{Backlog, NextLine};
use std::alloc::{AllocError, Global};
use std::sync::{Condvar, Mutex, Wait};
use std::time::{Clock, Duration};
use std::{mem, thread};

/// How long the first line waits for others, so that the thread that writes wakes once for all of them (own).
const GATHERED_MILLIS: u64 = 1;

/// What lines are written to.
pub trait Sink<T> {
    /// Writes that lines were lost, if any were, and then the line, if there is one. It may wait as long as it likes.
    fn put<R: Wait>(&mut self, rt: &R, next_line: NextLine<T>);

    /// Does what is due beside the lines, and says how long at most the next line may be waited for before this is called again; None: until there is one.
    /// It is called after each line, and when that time has passed.
    fn idle(&mut self) -> Option<Duration>;
}

/// What a thread that writes does next.
#[derive(Drop)]
enum Next<T> {
    /// It writes this.
    Line(NextLine<T>),
    /// It waits again: no line has come in time.
    Nothing,
    /// It ends: the queue is closed, and nothing is left.
    Ended,
}

/// Lines that wait, and what becomes of them.
#[derive(Drop)]
struct State<T> {
    backlog: Backlog<T>,
    closed: bool,
    written: bool,
}

/// Whether nothing is to be written, and the queue isn't closed.
fn is_waiting<T: Drop>(state: &mut State<T>) -> bool {
    state.backlog.is_empty() && !state.closed
}

/// Lines that any thread adds, and that one writes. Who adds a line waits for no sink: the lock is held for as long as a line is put
/// into the backlog or taken from it.
#[derive(Drop)]
pub struct LogQueue<T> {
    state: Mutex<State<T>>,
    /// Tells the thread that writes of a line, or that no more come.
    added: Condvar,
    /// Tells who closes the queue that all is written.
    ended: Condvar,
}

impl<T: Drop> LogQueue<T> {
    /// A queue in which at most `most` lines wait.
    pub fn new(alloc: Global, most: usize) -> Result<LogQueue<T>, AllocError> {
        let state = State {
            backlog: Backlog::new(alloc, most)?,
            closed: false,
            written: false,
        };
        Ok(LogQueue {
            state: Mutex::new(state),
            added: Condvar::new(),
            ended: Condvar::new(),
        })
    }

    /// Adds a line, as [`Backlog::add`] does.
    pub fn add<R: Wait>(&self, rt: &R, line: T) {
        let mut state = self.state.lock(rt);
        let is_first = state.backlog.is_empty();
        state.backlog.add(line);
        mem::drop(state);
        if is_first {
            self.added.notify_one();
        }
    }

    /// Writes the lines to a sink, in the order in which they were added, until the queue is closed and nothing is left to be written.
    pub fn write_to<R: Wait + Clock, S: Sink<T>>(&self, rt: &R, sink: &mut S) {
        let mut at_most = None;
        for _ in rt.forever() {
            match self.next(rt, at_most) {
                Next::Line(next_line) => sink.put(rt, next_line),
                Next::Nothing => {}
                Next::Ended => break,
            }
            at_most = sink.idle();
        }
        self.state.lock(rt).written = true;
        self.ended.notify_all();
    }

    /// What is to be written next, once there is something, which is waited for at most so long.
    fn next<R: Wait + Clock>(&self, rt: &R, at_most: Option<Duration>) -> Next<T> {
        self.gather(rt, at_most);
        let mut state = self.state.lock(rt);
        match state.backlog.take() {
            Some(next_line) => Next::Line(next_line),
            None if state.closed => Next::Ended,
            None => Next::Nothing,
        }
    }

    /// Waits, where nothing is to be written, until there is something, at most so long, and then for what is added a moment later.
    fn gather<R: Wait + Clock>(&self, rt: &R, at_most: Option<Duration>) {
        let state = self.state.lock(rt);
        if !state.backlog.is_empty() || state.closed {
            return;
        }
        match at_most {
            None => mem::drop(self.added.wait_while(rt, state, is_waiting)),
            Some(at_most) => mem::drop(
                self.added
                    .wait_timeout_while(rt, state, at_most, is_waiting),
            ),
        }
        thread::sleep(rt, Duration::from_millis(GATHERED_MILLIS));
    }

    /// Ends the writing once nothing is left, and waits for that, at most so long: false where lines are still to be written then.
    pub fn close<R: Wait + Clock>(&self, rt: &R, at_most: Duration) -> bool {
        let mut state = self.state.lock(rt);
        state.closed = true;
        self.added.notify_all();
        let (state, _) = self
            .ended
            .wait_timeout_while(rt, state, at_most, |state| !state.written);
        state.written
    }
}
