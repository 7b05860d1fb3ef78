//! What a history tells of the versions after the one of a serial.
use crate::owners::Owners;
use snapshot_cell::{Names, Naming};

/// What a history tells of the versions after the one of a serial, up to a number.
#[derive(Drop)]
pub enum Chain<'a, T: Drop, C: Names<T>, N: Naming> {
    /// All of them are there: their owners.
    Whole(Owners<'a, T, C, N>),
    /// The one of this number has gone.
    Gone(u64),
    /// No entry up to the number has that serial.
    Unknown,
    /// The reader has no grant left.
    Spent,
}

/// Why a version isn't owned.
#[derive(Clone, Copy)]
pub(crate) enum Lost {
    /// It has gone; its number.
    Gone(u64),
    /// The reader has no grant left.
    Spent,
}
