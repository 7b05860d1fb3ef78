//! A history that holds nothing back: the newest versions of a cell, as far as a window of serials reaches, each owned weakly.
//!
//! A [`History`] is told each version that is published, with its serial. [`History::chain`] gives owners of all versions after the one
//! of a serial, so that what changed since then can be told (RFC 1995, 4); or it tells the number of one that has gone, which the reader
//! has then seen buried. No version stays for it. Contracts see a history as its entries, versions with their serials. It takes no memory,
//! and no call of it waits.
#![tactic(auto)]

mod chain;
mod entry;
mod history;
mod owners;

pub use chain::Chain;
pub use history::{ENTRIES, History};
pub use owners::Owners;
