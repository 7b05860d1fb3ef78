//! Why a call of the cell is refused.
use thiserror::Error;

/// Why a cell isn't made.
#[derive(Clone, Copy, Debug, PartialEq, Eq, Error)]
pub enum NewFault {
    /// No memory for the cell or its readers.
    #[error("H1 NoMemory")]
    NoMemory,
    /// More readers than a cell may have.
    #[error("H2 TooManyReaders")]
    TooManyReaders,
}

/// A reader has no grant left.
#[derive(Clone, Copy, Debug, PartialEq, Eq, Error)]
#[error("spent")]
pub struct Spent;
