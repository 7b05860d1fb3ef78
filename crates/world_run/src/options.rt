//! The options that lines are executed with.

/// The number of older versions that are kept, and the size of the window (own).
#[derive(Clone, Copy)]
pub struct Options {
    /// How many older versions are kept besides the last.
    pub keep: usize,
    /// The greatest number of versions in the window, which incremental transfers are made from (RFC 1995, 5).
    pub window: usize,
}
