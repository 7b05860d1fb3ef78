//! The update that takes one zone to another (RFC 2136): what goes, the SOA, and what comes.
//!
//! Contracts see zones as lists of their records, and the update as a value that a definition gives (`Change`). [`changes_lead_there`]
//! is the law: where a zone has the old SOA, the update breaks no rule and makes the zone that the change is to lead to. [`change_to`]
//! makes the update by a walk over both zones side by side, [`change_between`] tells what changes, and [`message_of`] writes the update as one
//! message, [`messages_of`] as one or more. [`summary_of`] says in numbers what it changes.
#![tactic(auto)]

mod apart;
mod change;
mod fault;
mod laws;
mod message;
mod messages;
mod summary;
mod update;

pub use change::{ZoneChange, change_between};
pub use fault::ChangeFault;
pub use laws::changes_lead_there;
pub use message::message_of;
pub use messages::messages_of;
pub use summary::{ChangeSummary, summary_of};
pub use update::change_to;
