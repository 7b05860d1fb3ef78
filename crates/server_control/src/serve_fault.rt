//! Why a server of a zone ends.
use thiserror::Error;

/// Why a zone is no longer served.
#[derive(Clone, Copy, Debug, Error)]
pub enum ServeFault {
    /// A thread could not be started.
    #[error("cannot start a thread")]
    NotStarted,
    /// A socket has failed.
    #[error("a socket failed")]
    Device,
    /// No version could be loaded, or the zone's later versions could not be published at the start.
    #[error("no version could be loaded")]
    Spent,
    /// An allocation failed.
    #[error("out of memory")]
    NoMemory,
}
