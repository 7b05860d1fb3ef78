//! What is so whatever lines `world_run` plays, each the contract of a function that does nothing: the lines make a run of the cell's steps,
//! the versions that are published are the accepted updates, replayed, a request is answered in the version that was last at the load which
//! gave its name, and an incremental transfer leads from the asker's version to the version served (RFC 1995, RFC 2136).
//!
//! The definitions of a line and of what is played are `world_run`'s (`World`, `Phases`); here stand those of runs (`Runs`), replays
//! (`Replays`), what is held (`Held`), what is told in turn (`InTurn`), and where transfers lead (`Leads`). Nothing here runs.
#![tactic(auto)]

mod laws;

pub use laws::{
    asks_are_answered_at_loaded, burials_are_reported_once, examples, lines_take_one_step,
    plays_are_runs, refused_lines_change_nothing, transfers_lead_to_the_served,
    updates_are_answered, updates_are_answered_in_turn, versions_are_held, versions_are_replays,
    versions_before_the_kept_are_buried,
};
