//! Values that carry their number, and what is counted of them.
ghost use Rattle.std.specs.Prelude.{◌≡◌, ◌+◌};

use cell_core::Follows;
use snapshot_cell::{NamedStrong, Names, Naming};
use std::alloc::Global;
use std::sync::Arc;
use std::sync::atomic::Ordering::SeqCst;
use std::sync::atomic::{AtomicBool, AtomicU64};
use std::thread;

/// How many turns a drop that sleeps has until it wakes by itself, and those who wait until it sleeps.
const NIGHT: u64 = 1 << 32;

/// How many go on while a drop sleeps. It wakes when each of them has called.
const CALLERS: u64 = 3;

/// How often each value was dropped, how often releases told it as buried, and how often upgrades gave none of it; and the drop that
/// sleeps.
#[derive(Drop)]
pub(crate) struct Tally {
    drops: Vec<AtomicU64>,
    burials: Vec<AtomicU64>,
    sunk: Vec<AtomicU64>,
    dropped: AtomicU64,
    sleeper: Option<u64>,
    asleep: AtomicBool,
    calls: AtomicU64,
}

/// So many counts of 0. None where there is no memory.
fn counts(alloc: Global, values: usize) -> Option<Vec<AtomicU64>> {
    let mut counts = Vec::with_capacity(alloc, values).ok()?;
    for _ in 0..values {
        counts.push(AtomicU64::new(0)).ok()?;
    }
    Some(counts)
}

/// One more of a number.
fn count(counts: &[AtomicU64], number: u64) {
    if let Some(count) = counts.get(number as usize) {
        count.fetch_add(1, SeqCst);
    }
}

/// Whether the numbers below this one were counted once each, and no other was.
fn are_once(counts: &[AtomicU64], below: usize) -> bool {
    for (number, count) in counts.iter().enumerate() {
        let due = if number < below { 1 } else { 0 };
        if count.load(SeqCst) != due {
            return false;
        }
    }
    true
}

/// Whether no number from this one on was counted.
fn are_none(counts: &[AtomicU64], from: usize) -> bool {
    for count in counts.iter().skip(from) {
        if count.load(SeqCst) > 0 {
            return false;
        }
    }
    true
}

impl Tally {
    /// Of so many values, of which the one of the number `sleeper` sleeps in its drop. None where there is no memory.
    pub(crate) fn shared(alloc: Global, values: usize, sleeper: Option<u64>) -> Option<Arc<Tally>> {
        let tally = Tally {
            drops: counts(alloc, values)?,
            burials: counts(alloc, values)?,
            sunk: counts(alloc, values)?,
            dropped: AtomicU64::new(0),
            sleeper,
            asleep: AtomicBool::new(false),
            calls: AtomicU64::new(0),
        };
        Arc::new(alloc, tally).ok()
    }

    /// A value was dropped.
    fn drop_one(&self, number: u64) {
        if self.sleeper == Some(number) {
            self.sleep();
        }
        count(self.drops.as_slice(), number);
        self.dropped.fetch_add(1, SeqCst);
    }

    /// Until all have called.
    fn sleep(&self) {
        self.asleep.store(true, SeqCst);
        for _ in 0..NIGHT {
            if self.calls.load(SeqCst) >= CALLERS {
                break;
            }
            thread::yield_now();
        }
        self.asleep.store(false, SeqCst);
    }

    /// Whether the drop that is to sleep does; true where none is to.
    fn is_quiet(&self) -> bool {
        self.sleeper.is_none() || self.asleep.load(SeqCst)
    }

    /// Waits until the drop that is to sleep does.
    pub(crate) fn wait(&self) {
        for _ in 0..NIGHT {
            if self.is_quiet() {
                break;
            }
            thread::yield_now();
        }
    }

    /// Calls the drop that sleeps: whether it slept until then; true where none is to.
    pub(crate) fn call(&self) -> bool {
        let quiet = self.is_quiet();
        self.calls.fetch_add(1, SeqCst);
        quiet
    }

    /// Lets an owner go.
    pub(crate) fn let_go<N: Naming>(&self, owner: NamedStrong<'_, Counted, Rising, N>) {
        if let Some(number) = owner.release().buried() {
            count(self.burials.as_slice(), number);
        }
    }

    /// An upgrade gave no owner of a number.
    pub(crate) fn sink(&self, number: u64) {
        count(self.sunk.as_slice(), number);
    }

    /// How many drops there were.
    pub(crate) fn drops(&self) -> u64 {
        self.dropped.load(SeqCst)
    }

    /// Whether the values below this number were dropped once each, and no other was.
    pub(crate) fn were_dropped_once(&self, below: usize) -> bool {
        are_once(self.drops.as_slice(), below)
    }

    /// Whether one release each told the numbers below this one as buried and no other, and upgrades gave none of these alone.
    pub(crate) fn were_buried_once(&self, below: usize) -> bool {
        are_once(self.burials.as_slice(), below) && are_none(self.sunk.as_slice(), below)
    }
}

/// A value that says which one it is, and counts when it is dropped.
pub(crate) struct Counted {
    pub(crate) number: u64,
    pub(crate) tally: Arc<Tally>,
}

impl Drop for Counted {
    fn drop(self) {
        let Counted { number, tally } = self;
        tally.drop_one(number);
    }
}

/// Numbers that rise by one, from 0 on.
pub(crate) struct Rising;

impl Follows<Counted> for Rising {
    ghost follows = { λ value next. next.number ≡ value.number + 1 };
}

impl Names<Counted> for Rising {
    ghost begins = { λ value. value.number ≡ 0 };
}
