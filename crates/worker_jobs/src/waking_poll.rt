//! Waits that other threads can end.
ghost use Rattle.std.specs.Prelude.{◌≡◌, ◌++◌, [], IfOk};
ghost use Rattle.std.specs.Bool.{OnTrue};
ghost use Rattle.worker_jobs.specs.TakenKeys.{taken_keys};

use crate::wake_list::WakeList;
use std::alloc::Global;
use std::sync::Wait;
use tcp_connections::Blocking;
use tcp_loop::{NotWatched, Readiness};

/// The list to which other threads add keys, and the keys taken from it.
struct WakeSource<'a> {
    list: &'a WakeList,
    /// Keys that were taken from the list, and aren't reported as ready yet.
    woken: Vec<usize>,
}

impl<'a> Drop for WakeSource<'a> {
    fn drop(self) {
        let WakeSource { list: _, woken: _ } = self;
    }
}

/// Waits until a stream may be ready, or another thread wakes a connection, whose key is then reported as ready.
pub(crate) struct WakingPoll<'a, P> {
    poll: P,
    wakes: Option<WakeSource<'a>>,
}

impl<'a, P: Drop> Drop for WakingPoll<'a, P> {
    fn drop(self) {
        let WakingPoll { poll: _, wakes: _ } = self;
    }
}

/// Moves keys to the end of others. False where there is no memory for all of them.
fn move_keys(from: &mut Vec<usize>, to: &mut Vec<usize>) -> bool
    ensures keys { OnTrue result (to.new.items ≡ to.old.items ++ from.old.items) }
    ensures none { OnTrue result (from.new.items ≡ []) }
{
    if to.extend_from_slice(from.as_slice()).is_err() {
        return false;
    }
    from.clear();
    true
}

impl<'a, P> WakingPoll<'a, P> {
    /// Waits with a poll alone.
    pub(crate) fn new(poll: P) -> WakingPoll<'a, P> {
        WakingPoll { poll, wakes: None }
    }

    /// Makes it take woken keys from a list too. Threads that add a key end its waits.
    pub(crate) fn listen(&mut self, alloc: Global, list: &'a WakeList) {
        self.wakes = Some(WakeSource {
            list,
            woken: Vec::new(alloc),
        });
    }

    /// Takes the woken keys from the list.
    pub(crate) fn take_woken<R: Wait>(&mut self, rt: &R) {
        let Some(wakes) = &mut self.wakes else {
            return;
        };
        for _ in rt.forever() {
            // A key for which there is no memory stays in the list.
            if wakes.woken.try_reserve(1).is_err() {
                return;
            }
            let Some(key) = wakes.list.take(rt) else {
                return;
            };
            let _ = wakes.woken.push(key);
        }
    }

    /// How long to wait: `most`, or not at all where woken keys were taken.
    fn patience(&self, most: u64) -> u64 {
        match &self.wakes {
            Some(wakes) => { if wakes.woken.is_empty() { most } else { 0 } }
            None => most,
        }
    }

    /// Appends the woken keys that were taken to `keys`. False where there was no memory for all of them.
    fn put_woken(&mut self, keys: &mut Vec<usize>) -> bool
        ensures poll { self.new.poll ≡ self.old.poll }
        ensures keys { OnTrue result (keys.new.items ≡ keys.old.items ++ taken_keys self.old.wakes) }
        ensures none { OnTrue result (taken_keys self.new.wakes ≡ []) }
    {
        match &mut self.wakes {
            Some(wakes) => move_keys(&mut wakes.woken, keys),
            None => true,
        }
    }
}

impl<S: Blocking, P: Readiness<S>> Readiness<S> for WakingPoll<'_, P> {
    ghost time = { λ polling. P.time polling.poll };

    fn watch(&mut self, stream: &mut S, key: usize) -> Result<(), NotWatched> {
        self.poll.watch(stream, key)
    }

    fn wait(&mut self, most: u64, keys: &mut Vec<usize>) -> Result<u64, NotWatched> {
        let most = self.patience(most);
        let Ok(now) = self.poll.wait(most, keys) else {
            return Err(NotWatched);
        };
        if self.put_woken(keys) {
            Ok(now)
        } else {
            Err(NotWatched)
        }
    }
}
