//! Times in buckets.
use counters::{BOUNDS, Times};

/// How many times lie in a bucket after these were added, in nanoseconds.
fn count_in(bucket: usize, times: &[u64]) -> Option<u64> {
    let mut sum = Times::new();
    for time in times {
        sum.add(*time);
    }
    sum.counts.get(bucket).copied()
}

/// How many bounds aren't three times the one before.
fn other_bounds() -> usize {
    let mut others = 0usize;
    for pair in BOUNDS.windows(2) {
        if let [first, second] = pair {
            if *second != first.saturating_mul(3) {
                others = others.saturating_add(1);
            }
        }
    }
    others
}

// A time at a bound lies in its bucket, and one above all bounds in the last (Prometheus, Histograms and summaries: `le` is inclusive).
#[test]
fn puts_times_into_buckets(rt: HostRuntime) {
    let times = [0, 100_000, 100_001, 300_000, 5_904_900_000, 5_904_900_001];
    let counts = [
        count_in(0, &times),
        count_in(1, &times),
        count_in(10, &times),
        count_in(11, &times),
    ];
    assert_eq!(rt; counts, [Some(2), Some(2), Some(1), Some(1)]);
}

#[test]
fn bounds_are_three_times_the_one_before(rt: HostRuntime) {
    assert_eq!(rt;
        (BOUNDS.first().copied(), other_bounds()),
        (Some(100_000), 0)
    );
}
