//! What the octets of a store mean, and which zone is served at a start (RFC 2136, 3; own). This crate opens no file, and writes nothing.
//!
//! A store is a zone text and a journal of the updates since. [`recover_zone`] reads both, and applies the journal's updates one after another by the call that applied them first. A
//! [`Recovery`] has what an engine had after them: the newest versions, each with its changes. All updates are applied or none: one that can't be applied is reported with its place
//! ([`StartFault`]). What a crash may leave after the last batch is an [`Ending`]. [`start_of`] takes a journal that has been read. Where batches that were on the disk are damaged,
//! [`recover_before`] gives what is before them. [`next_version`] is one step of the walk over a journal's updates.
//!
//! [`create_store`] makes a store of a zone, with no update yet. Made of a version of a store, and with the batches after it, it is a store of the same versions
//! ([`compacted_is_the_same`]), whichever step of a compaction is the last one that is on the disk ([`each_step_keeps_the_meaning`], [`what_a_folder_means_is_started`]). [`choose`] decides
//! which is served at a start, the store or the zone text that the operator names.
#![tactic(auto)]

mod before;
mod choices;
mod create;
mod fault;
mod laws;
mod rebased;
mod recent_versions;
mod replayed;
mod start;
mod store_laws;

pub use before::recover_before;
pub use choices::{Choice, Take, choose};
pub use create::create_store;
pub use fault::{StartFault, UpdateFault};
pub use laws::{
    damage_takes_nothing_in_front, each_cut_is_a_replay, what_is_accepted_is_recovered,
    what_is_replayed_is_held, what_is_resumed_is_held, what_was_synced_is_replayed_first,
};
pub use recent_versions::RecentVersions;
pub use replayed::next_version;
pub use start::{Ending, Recovery, recover_zone, start_of};
pub use store_laws::{
    begun_from_is_served, compacted_is_the_same, each_step_keeps_the_meaning, one_choice,
    other_apex_is_refused, what_a_folder_means_is_started,
};
