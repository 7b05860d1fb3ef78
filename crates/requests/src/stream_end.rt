//! How a stream ends.

/// How the requests of a stream end.
#[derive(Clone, Copy, PartialEq, Eq)]
pub enum StreamEnd {
    /// After the last request's reply, with nothing left to be read.
    Clean,
    /// Inside a frame, with nothing left to be read.
    Torn,
    /// With a read or a write that failed.
    Device,
    /// No version could be loaded.
    Spent,
    /// There was no memory for what is held or to be written.
    NoMemory,
}
