//! The order for a reload, and its result, between two threads (own).
ghost use Rattle.std.specs.Prelude.{◌≡◌, true};

use dns_engine::SharedVersion;
use dns_rdata::Serial;
use std::alloc::Global;
use std::mem;
use std::sync::{Arc, Condvar, Mutex, Wait};
use update_batches::UpdateRequest;
use zone_change::ChangeSummary;

/// The update that takes the zone that is served to that of the zone file.
#[derive(Drop)]
pub struct FileChange {
    /// The update, as it is submitted.
    pub request: UpdateRequest,
    /// What it changes.
    pub summary: ChangeSummary,
    ghost may: { request.may ≡ true },
}

/// What the zone file makes of the zone that is served.
#[derive(Drop)]
pub enum FileZone {
    /// Nothing: it is the zone that is served, which has this serial.
    Unchanged(Serial),
    /// Another zone.
    Changed(FileChange),
}

/// What the zone file makes of the zone that is served, or why it is refused, as the last words of a line.
pub type ReloadResult = Result<FileZone, String>;

/// The place where reloads are ordered, shared by the threads.
pub type Reloads = Arc<ReloadSlot, Global>;

/// What the thread is to do that reads the zone file.
#[derive(Drop)]
pub enum ReloadOrder {
    /// To read the zone file, and to make the update that takes this version to it.
    Read(SharedVersion),
    /// To make the update that takes this version to the zone that it read last.
    Again(SharedVersion),
    /// To drop that zone.
    Drop,
}

/// How far a reload is.
#[derive(Drop)]
enum ReloadState {
    /// There is none.
    Idle,
    /// There is something to do.
    Ordered(ReloadOrder),
    /// The thread for it is at work.
    Working,
    /// This is made.
    Made(ReloadResult),
    /// No order comes any more.
    Ended,
}

/// The place where one thread orders a reload, and another one, which reads the zone file, puts the result.
pub struct ReloadSlot {
    state: Mutex<ReloadState>,
    /// Tells the thread that reads that something has come.
    came: Condvar,
}

impl Drop for ReloadSlot {
    fn drop(self) {
        let ReloadSlot { state: _, came: _ } = self;
    }
}

impl ReloadSlot {
    /// A place without an order.
    pub fn new() -> ReloadSlot {
        ReloadSlot {
            state: Mutex::new(ReloadState::Idle),
            came: Condvar::new(),
        }
    }

    /// Orders something. False where an order isn't done yet, or none comes any more.
    pub fn order<R: Wait>(&self, rt: &R, order: ReloadOrder) -> bool {
        let mut state = self.state.lock(rt);
        if !is_free(&state) {
            return false;
        }
        *state = ReloadState::Ordered(order);
        mem::drop(state);
        self.came.notify_one();
        true
    }

    /// The result of the order, if it is there. Another one can be given then.
    pub fn take<R: Wait>(&self, rt: &R) -> Option<ReloadResult> {
        let mut state = self.state.lock(rt);
        match mem::replace(&mut *state, ReloadState::Idle) {
            ReloadState::Made(made) => Some(made),
            other => {
                *state = other;
                None
            }
        }
    }

    /// Waits for an order. None where none comes any more.
    pub fn wait<R: Wait>(&self, rt: &R) -> Option<ReloadOrder> {
        let guard = self.state.lock(rt);
        let mut state = self
            .came
            .wait_while(rt, guard, |state| !is_for_reader(state));
        match mem::replace(&mut *state, ReloadState::Working) {
            ReloadState::Ordered(order) => Some(order),
            other => {
                *state = other;
                None
            }
        }
    }

    /// Puts the result of an order that has one.
    pub fn put<R: Wait>(&self, rt: &R, made: ReloadResult) {
        let mut state = self.state.lock(rt);
        if let ReloadState::Working = &*state {
            *state = ReloadState::Made(made);
        }
    }

    /// An order that has no result is done.
    pub fn rest<R: Wait>(&self, rt: &R) {
        let mut state = self.state.lock(rt);
        if let ReloadState::Working = &*state {
            *state = ReloadState::Idle;
        }
    }

    /// Ends it: no order comes any more.
    pub fn end<R: Wait>(&self, rt: &R) {
        *self.state.lock(rt) = ReloadState::Ended;
        self.came.notify_all();
    }
}

/// Whether something can be ordered: a zone that is to be dropped may be dropped for that.
fn is_free(state: &ReloadState) -> bool {
    matches!(
        state,
        ReloadState::Idle | ReloadState::Ordered(ReloadOrder::Drop)
    )
}

/// Whether the thread that reads has something to do, or is to end.
fn is_for_reader(state: &ReloadState) -> bool {
    matches!(state, ReloadState::Ordered(_) | ReloadState::Ended)
}
