//! Want of memory.
use std::alloc::AllocError;
use thiserror::Error;

/// Memory was refused; or a number is full that no memory fills: 2^63 - 1 owners of a node, a run or a pair, a tree of
/// more than 64 levels, 2^64 - 1 nodes and runs made by a call. The tree that was called is as it was, and can be called again.
#[derive(Clone, Copy, Debug, PartialEq, Eq, Error)]
#[error("G1 NoMemory")]
pub struct NoMemory;

impl From<AllocError> for NoMemory {
    fn from(_fault: AllocError) -> NoMemory {
        NoMemory
    }
}
