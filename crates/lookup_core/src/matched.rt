//! What matching a name down from the apex gives (RFC 1034, 4.3.2, step 3).
use dns_name::Name;
use dns_rdata::RRset;

/// Where a name stands in a zone.
#[derive(Drop)]
pub enum Place {
    /// It isn't at or below the apex: the zone doesn't speak for it (RFC 1034, 4.3.2, step 2).
    Outside,
    /// It is at or below a zone cut: this one, the first on the way down from the apex (RFC 1034, 4.3.2, step 3b).
    Cut(Name),
    /// It exists: it or a name below it owns a record (RFC 4592, 2.2.3).
    Exact,
    /// It doesn't exist, and this source of synthesis does (RFC 4592, 3.3.1).
    Wild(Name),
    /// Neither it nor the source of synthesis exists.
    Missing,
}

/// Where a name at or below the apex stands, with the sets that were found there.
#[derive(Drop)]
pub(crate) enum Matched<'z> {
    /// It is at or below a zone cut: the first on the way down from the apex has this NS set.
    Cut(&'z RRset),
    /// It exists, and these are its sets, each in whole: none where it owns nothing (RFC 4592, 2.2.2).
    Exact(&'z [RRset]),
    /// It doesn't exist, and the source of synthesis does, with these sets.
    Wild(&'z [RRset]),
    /// Neither it nor the source of synthesis exists.
    Missing,
}
