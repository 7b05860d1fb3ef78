//! What the updates of a store changed, as text: for `dnsd journal`.
//!
//! [`write_changes`] applies the updates of a zone text's journal as a start does, one after another, and tells of each which serial it led to and
//! which records went and came. Contracts see the text as a function of the zone and the updates (`changes_text`). Nothing here opens a file.
#![tactic(auto)]

mod walk;

pub use walk::write_changes;
