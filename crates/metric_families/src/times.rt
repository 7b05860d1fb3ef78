//! How long something took, as histograms.
ghost use Rattle.std.specs.Prelude.{◌≡◌, ◌<◌, IfOk};
ghost use Rattle.metric_families.specs.Times.{bound_text, buckets_from, times_family};

use counters::Times;
use metrics_text::{Bucket, Family, Kind};
use std::alloc::{AllocError, Global};

/// How many buckets have a bound.
const BOUNDS: usize = 11;

/// A bound, in seconds, by its place; the last one at all places after it.
fn bound_text(place: usize) -> &'static str
    ensures { result.now ≡ bound_text place }
{
    match place {
        0 => "0.0001",
        1 => "0.0003",
        2 => "0.0009",
        3 => "0.0027",
        4 => "0.0081",
        5 => "0.0243",
        6 => "0.0729",
        7 => "0.2187",
        8 => "0.6561",
        9 => "1.9683",
        _ => "5.9049",
    }
}

/// The buckets that have a bound.
fn buckets_of(alloc: Global, times: &Times) -> Result<Vec<Bucket>, AllocError>
    ensures { IfOk result (λ buckets. buckets.items ≡ buckets_from times.now.counts 0 11) }
{
    let mut buckets = Vec::new(alloc);
    for place in 0..BOUNDS {
        buckets.push(Bucket::new(bound_text(place), times.counts[place]))?;
    }
    Ok(buckets)
}

/// A family of a histogram: how many times lie below each bound, and their sum. The fault is a request for memory that was refused.
pub(crate) fn times_family(
    alloc: Global,
    name: &'static str,
    help: &'static str,
    times: &Times,
) -> Result<Family, AllocError>
    ensures { IfOk result (λ family. family ≡ times_family name.now help.now times.now) }
{
    let buckets = buckets_of(alloc, times)?;
    let mut family = Family::new(alloc, name, help, Kind::Histogram);
    family.push_histogram(
        alloc,
        buckets.as_slice(),
        times.counts[BOUNDS],
        times.nanoseconds,
    )?;
    Ok(family)
}
