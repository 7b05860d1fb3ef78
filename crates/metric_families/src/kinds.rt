//! Kinds of families.
use metrics_text::Kind;

/// How often something happened since the start.
pub(crate) const COUNTER: Kind = Kind::Counter;

/// How much there is now.
pub(crate) const GAUGE: Kind = Kind::Gauge;
