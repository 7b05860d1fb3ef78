//! The cell on words that threads share: the version of a value that was published last, which readers load while others are
//! published after it.
//!
//! A [`Cell`] keeps the last version, a number and a value, and those before it that somebody owns. A [`Reader`] loads the last
//! one, by one addition to a word whatever else is under way, and is given a [`Strong`], an owner that keeps its version whatever
//! is published after it. A [`Weak`] owner lets its version go, and a reader can upgrade it while the version is there. The one
//! [`Publisher`] publishes. No call waits for another. Contracts see an owner as its version, the publisher as all that is published, and
//! a reader as a beginning of it, which it has seen, with the numbers that it has seen buried.
#![tactic(auto)]

mod cell;
mod ending;
mod fault;
mod further;
mod named;
mod named_ending;
mod named_owner;
mod ready;
mod tokens;

pub use cell::{Cell, Parts, StillOut};
pub use counted_handles::{
    FreeCount, InUse, Lapse, Lapsed, Names, NoSlot, Released, Steps, Strong, Weak,
};
pub use fault::{NewFault, Spent};
pub use further::NamedWeak;
pub use named::{NamedCell, NamedPublisher, NamedReader, NamedStillOut, Naming};
pub use named_owner::NamedStrong;
pub use tokens::{Publisher, READERS, Reader};
