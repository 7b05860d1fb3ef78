//! Secondaries are told of each version of a zone (RFC 1996), with no device and no clock.
//!
//! [`Notifier`] is given the time, the version that is served and what was received; it says what is sent to whom, who has fallen
//! silent or answers again, and when to look again. A NOTIFY's octets are [`write_notify`]'s. What a zone has that stock secondaries refuse, [`large_in`] tells.
#![tactic(auto)]

mod due;
mod large;
mod laws;
mod message;
mod notifier;
mod secondary;

pub use due::{Due, Heard};
pub use large::{BIND_MOST, Large, Many, large_in, passed_by};
pub use laws::{notified_in_order, runs_are_courses};
pub use message::{MAX_NOTIFY, is_answer, write_notify};
pub use notifier::Notifier;
pub use secondary::{MAX_COPIES, Secondary, Telling};
