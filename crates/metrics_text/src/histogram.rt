//! Histograms as samples.
ghost use Rattle.std.specs.Prelude.{◌≡◌, ◌++◌, ◌∷◌, [], OnOk, IfOk};
ghost use Rattle.metrics_text.specs.Histograms.{bucket_sample, histogram_samples, bucket_samples, counted, both, suffixed};
ghost use Rattle.metrics_text.specs.Families.{with_samples};

use crate::family::Family;
use crate::number::Number;
use crate::sample::{Label, Sample};
use std::alloc::{AllocError, Global};
use std::marker::Model;

/// A bucket: its bound as text, and how many lie above the bound before it and at most at its own.
#[derive(Drop)]
pub struct Bucket {
    pub(crate) bound: &'static str,
    pub(crate) count: u64,
}

impl Model for Bucket {
    ghost use Rattle.metrics_text.specs.Buckets.{BucketOf};

    ghost Value = { BucketOf };

    ghost view = { λ b. record { bound = b.bound.now; count = b.count } };
}

impl Bucket {
    /// A bucket.
    pub fn new(bound: &'static str, count: u64) -> Bucket
        ensures bound { result.bound ≡ bound.now }
        ensures count { result.count ≡ count }
    {
        Bucket { bound, count }
    }
}

impl Family {
    /// Puts the samples of a histogram after the others: for each bucket, in the order of their bounds, how many are at most its bound;
    /// then how many there are in all, the sum of what was measured, in nanoseconds, and how many once more. `above` is how many lie
    /// above the last bound. Numbers of all stop at 2^64 - 1. The fault is a growth that was refused; some samples may then be there.
    pub fn push_histogram(
        &mut self,
        alloc: Global,
        buckets: &[Bucket],
        above: u64,
        nanoseconds: u64,
    ) -> Result<(), AllocError>
        ensures { OnOk result (self.new ≡ with_samples self.old (histogram_samples buckets.now above nanoseconds)) }
    {
        let below = put_buckets(&mut self.samples, alloc, buckets)?;
        let all = below.saturating_add(above);
        self.samples.push(below_bound(alloc, "+Inf", all)?)?;
        self.samples
            .push(suffixed(alloc, "_sum", Number::Nanoseconds(nanoseconds)))?;
        self.samples
            .push(suffixed(alloc, "_count", Number::Whole(all)))?;
        Ok(())
    }
}

/// Puts a sample for each bucket after others, and returns how many all of them counted.
fn put_buckets(
    samples: &mut Vec<Sample>,
    alloc: Global,
    buckets: &[Bucket],
) -> Result<u64, AllocError>
    ensures samples { OnOk result (samples.new.items ≡ samples.old.items ++ bucket_samples 0 buckets.now) }
    ensures counted { IfOk result (λ all. all ≡ counted 0 buckets.now) }
{
    let mut below = 0u64;
    for each in buckets {
        below = below.saturating_add(each.count);
        samples.push(below_bound(alloc, each.bound, below)?)?;
    }
    Ok(below)
}

/// A sample of a bucket: how many are at most its bound.
fn below_bound(alloc: Global, bound: &'static str, below: u64) -> Result<Sample, AllocError>
    ensures { IfOk result (λ sample. sample ≡ bucket_sample bound.now below) }
{
    let mut sample = suffixed(alloc, "_bucket", Number::Whole(below));
    sample.push_label(Label::new(alloc, "le", bound)?)?;
    Ok(sample)
}

/// A sample without labels, whose family's name has something after it.
fn suffixed(alloc: Global, suffix: &'static str, number: Number) -> Sample
    ensures { result ≡ suffixed suffix.now number }
{
    Sample {
        suffix,
        labels: Vec::new(alloc),
        number,
    }
}
