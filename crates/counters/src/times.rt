//! How long something took.
ghost use Rattle.std.specs.Prelude.{◌≡◌, ◌<◌, ◌≤◌, length, count_by, nat_lt};
ghost use Rattle.counters.specs.Sums.{both, more_at, AreSums};
ghost use Rattle.counters.specs.Times.{bounds, bucket_of, with_time, no_times};

/// The bounds of the buckets but the last, in nanoseconds: from 0.1 milliseconds to less than 10 seconds, each three times the one before.
pub const BOUNDS: [u64; 11] = [
    100_000,
    300_000,
    900_000,
    2_700_000,
    8_100_000,
    24_300_000,
    72_900_000,
    218_700_000,
    656_100_000,
    1_968_300_000,
    5_904_900_000,
];

/// How many buckets there are: one for each bound, and one for what lies above all.
pub const BUCKETS: usize = 12;

/// How many times were measured, by buckets, and their sum.
#[derive(Clone, Copy)]
pub struct Times {
    /// How many times lie above the bound before each bucket's, and at most at its own.
    pub counts: [u64; BUCKETS],
    /// The sum of all times, in nanoseconds.
    pub nanoseconds: u64,
}

impl Times {
    /// No time.
    pub fn new() -> Times
        ensures { result ≡ no_times }
    {
        Times {
            counts: [0; BUCKETS],
            nanoseconds: 0,
        }
    }

    /// One more time, in nanoseconds: its bucket's number goes up, and the sum; no other number does.
    pub fn add(&mut self, nanoseconds: u64)
        ensures { self.new ≡ with_time self.old nanoseconds }
    {
        add_at(&mut self.counts, bucket_of(nanoseconds), 1);
        self.nanoseconds = self.nanoseconds.wrapping_add(nanoseconds);
    }

    /// The times of another, too.
    pub fn add_all(&mut self, other: &Times)
        ensures counts { AreSums self.old.counts other.now.counts self.new.counts }
        ensures nanoseconds { self.new.nanoseconds ≡ both self.old.nanoseconds other.now.nanoseconds }
    {
        add_each(&mut self.counts, &other.counts);
        self.nanoseconds = self.nanoseconds.wrapping_add(other.nanoseconds);
    }
}

/// The bucket of a time in nanoseconds: how many bounds lie below it.
pub(crate) fn bucket_of(nanoseconds: u64) -> usize
    ensures place { result ≡ bucket_of nanoseconds }
    ensures within { result < 12 }
{
    below(&BOUNDS, nanoseconds)
}

/// How many bounds lie below a time.
fn below(bounds: &[u64], nanoseconds: u64) -> usize
    requires { length bounds.now < 100 }
    ensures count { result ≡ count_by (λ bound. nat_lt bound nanoseconds) bounds.now }
    ensures within { result ≤ length bounds.now }
{
    let mut count = 0usize;
    for bound in bounds {
        if *bound < nanoseconds {
            count += 1;
        }
    }
    count
}

/// More at a place of numbers.
#[inline(always)]
pub(crate) fn add_at(numbers: &mut [u64], at: usize, more: u64)
    requires { at < length numbers.old }
    ensures { numbers.new ≡ more_at at more numbers.old }
{
    numbers[at] = numbers[at].wrapping_add(more);
}

/// Numbers together with others, place by place.
pub(crate) fn add_each(numbers: &mut [u64], others: &[u64])
    requires { length numbers.old ≡ length others.now }
    ensures { AreSums numbers.old others.now numbers.new }
{
    for (place, other) in others.iter().enumerate() {
        add_at(numbers, place, *other);
    }
}
