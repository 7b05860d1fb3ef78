//! The text of families.
use metrics_text::{Bucket, Family, Kind, Label, Number, Sample, write_metrics};
use std::alloc::{AllocError, Global};

/// What is written of the families below (Prometheus, Exposition formats).
const TEXT: &str =
    "# HELP dnsd_updates_total Updates \\\\ by\\n\"code\".\n# TYPE dnsd_updates_total counter\ndnsd_updates_total{rcode=\"NOERROR\"} 12\ndnsd_updates_total{rcode=\"a\\\\b\\\"c\\nd\",zone=\"example.test.\"} 18446744073709551615\n# HELP dnsd_connections Open ones.\n# TYPE dnsd_connections gauge\ndnsd_connections 0\n# HELP dnsd_update_seconds Updates.\n# TYPE dnsd_update_seconds histogram\ndnsd_update_seconds_bucket{le=\"0.0001\"} 1\ndnsd_update_seconds_bucket{le=\"0.0003\"} 3\ndnsd_update_seconds_bucket{le=\"+Inf\"} 7\ndnsd_update_seconds_sum 12.000345678\ndnsd_update_seconds_count 7\n";

/// A counter of updates, with labels that are escaped.
fn updates(alloc: Global) -> Result<Family, AllocError> {
    let mut family = Family::new(
        alloc,
        "dnsd_updates_total",
        "Updates \\ by\n\"code\".",
        Kind::Counter,
    );
    let mut first = Sample::new(alloc, Number::Whole(12));
    first.push_label(Label::new(alloc, "rcode", "NOERROR")?)?;
    family.push(first)?;
    let mut second = Sample::new(alloc, Number::Whole(u64::MAX));
    second.push_label(Label::new(alloc, "rcode", "a\\b\"c\nd")?)?;
    second.push_label(Label::new(alloc, "zone", "example.test.")?)?;
    family.push(second)?;
    Ok(family)
}

/// A gauge of connections.
fn connections(alloc: Global) -> Result<Family, AllocError> {
    let mut family = Family::new(alloc, "dnsd_connections", "Open ones.", Kind::Gauge);
    family.push(Sample::new(alloc, Number::Whole(0)))?;
    Ok(family)
}

/// A histogram of seven updates.
fn seconds(alloc: Global) -> Result<Family, AllocError> {
    let mut family = Family::new(alloc, "dnsd_update_seconds", "Updates.", Kind::Histogram);
    let buckets = [Bucket::new("0.0001", 1), Bucket::new("0.0003", 2)];
    family.push_histogram(alloc, &buckets, 4, 12_000_345_678)?;
    Ok(family)
}

/// The text of the families.
fn text_of(alloc: Global) -> Result<Vec<u8>, AllocError> {
    let mut families = Vec::new(alloc);
    families.push(updates(alloc)?)?;
    families.push(connections(alloc)?)?;
    families.push(seconds(alloc)?)?;
    let mut text = Vec::new(alloc);
    write_metrics(&mut text, families.as_slice())?;
    Ok(text)
}

/// Whether the text is as it is to be, made once more where memory was refused.
fn is_text(alloc: Global) -> Option<bool> {
    let text = match text_of(alloc) {
        Ok(text) => text,
        Err(_) => text_of(alloc).ok()?,
    };
    Some(text.as_slice() == TEXT.as_bytes())
}

// With any one growth refused, the fault is want of memory, and the same calls work once more.
#[test]
fn writes_families_anew_after_refused_growth(rt: HostRuntime) {
    assert_eq!(rt; is_text(rt.alloc()), Some(true));
}
