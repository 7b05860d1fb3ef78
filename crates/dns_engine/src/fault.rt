//! Why an engine isn't made.
use crate::versions::{FirstZone, VersionPublisher, VersionReader};
use snapshot_cell::Naming;
use thiserror::Error;

/// Why an engine isn't made.
#[derive(Clone, Copy, Debug, PartialEq, Eq, Error)]
pub enum EngineFault {
    /// More versions are to be kept than an engine keeps.
    #[error("E1 TooGreat")]
    TooGreat,
    /// The reader has no grant left, the publisher can give no weak owner, or versions that an engine begins with aren't sure to be published.
    #[error("E2 Spent")]
    Spent,
}

/// An engine that isn't made: why, and what it would have been made of.
#[derive(Drop)]
pub struct NoEngine<Z: FirstZone, N: Naming> {
    /// Why it isn't made.
    pub fault: EngineFault,
    /// The one who publishes.
    pub publisher: VersionPublisher<Z, N>,
    /// The one who loads.
    pub reader: VersionReader<N>,
}
