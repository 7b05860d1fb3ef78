//! The numbers of one thread.
ghost use Rattle.std.specs.Prelude.{◌≡◌, ◌≢◌, ◌<◌};
ghost use Rattle.counters.specs.Sums.{both, AreSums};
ghost use Rattle.counters.specs.Counter.{counter_index};
ghost use Rattle.counters.specs.Counters.{number_of, no_counters, with_more};
ghost use Rattle.counters.specs.declared.counter.Counter.{Counter as AnyCounter};

use crate::counter::{COUNTERS, Counter};
use crate::times::{Times, add_at, add_each};

/// The numbers of one thread.
#[derive(Clone, Copy)]
pub struct Counters {
    /// The number of each counter, at its place.
    pub numbers: [u64; COUNTERS],
    /// How long updates took, from the receipt of each to its reply.
    pub updates: Times,
    /// How long the syncs of the store took.
    pub syncs: Times,
}

impl Counters {
    /// Nothing was counted.
    pub fn new() -> Counters
        ensures { result ≡ no_counters }
    {
        Counters {
            numbers: [0; COUNTERS],
            updates: Times::new(),
            syncs: Times::new(),
        }
    }

    /// The number of a counter.
    pub fn get(&self, counter: Counter) -> u64
        ensures { result ≡ number_of counter self.now.numbers }
    {
        self.numbers[counter.index()]
    }

    /// One more of a counter: its number goes up by one, modulo 2^64, and no other does.
    #[inline(always)]
    pub fn add(&mut self, counter: Counter)
        ensures all { self.new ≡ with_more counter 1 self.old }
        ensures counted { number_of counter self.new.numbers ≡ both (number_of counter self.old.numbers) 1 }
        ensures others { (other : AnyCounter) → other ≢ counter → number_of other self.new.numbers ≡ number_of other self.old.numbers }
    {
        self.add_many(counter, 1);
    }

    /// So many more of a counter: its number goes up by that, modulo 2^64, and no other does.
    #[inline(always)]
    pub fn add_many(&mut self, counter: Counter, more: u64)
        ensures all { self.new ≡ with_more counter more self.old }
        ensures counted { number_of counter self.new.numbers ≡ both (number_of counter self.old.numbers) more }
        ensures others { (other : AnyCounter) → other ≢ counter → number_of other self.new.numbers ≡ number_of other self.old.numbers }
    {
        add_at(&mut self.numbers, counter.index(), more);
    }

    /// The numbers of another thread, too: each goes up by that thread's, modulo 2^64.
    pub fn add_all(&mut self, other: &Counters)
        ensures numbers { AreSums self.old.numbers other.now.numbers self.new.numbers }
        ensures updates { AreSums self.old.updates.counts other.now.updates.counts self.new.updates.counts }
        ensures update_time { self.new.updates.nanoseconds ≡ both self.old.updates.nanoseconds other.now.updates.nanoseconds }
        ensures syncs { AreSums self.old.syncs.counts other.now.syncs.counts self.new.syncs.counts }
        ensures sync_time { self.new.syncs.nanoseconds ≡ both self.old.syncs.nanoseconds other.now.syncs.nanoseconds }
    {
        add_each(&mut self.numbers, &other.numbers);
        self.updates.add_all(&other.updates);
        self.syncs.add_all(&other.syncs);
    }
}
