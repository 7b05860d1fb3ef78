//! A log whose lines wait for a thread that writes them, so that who adds a line never waits for what it is written to (own).
//!
//! A [`Backlog`] has the lines that wait, at most so many; those that find no room are lost, and are counted where they would
//! stand. A [`LogQueue`] is one that threads share: any may add a line, one writes them to a [`Sink`], and one closes it. What a
//! line is, and what it is written to, isn't here. A line has a [`Level`], whose mark journald reads. [`RecentLines`] are the last that were written.
#![tactic(auto)]

mod backlog;
mod level;
mod queue;
mod recent;

pub use backlog::{Backlog, NextLine};
pub use level::{Level, is_in_journal};
pub use queue::{LogQueue, Sink};
pub use recent::RecentLines;
