//! Dynamic update of a zone (RFC 2136): whether an update is taken, and what it makes of the zone.
//!
//! Contracts see a zone as the list of its records, an update as its zone section and the lists of its records, and the
//! code that it gets as that of the first rule that gives one (`Verdict`), in the order of zone section, prerequisites,
//! permission and prescan: [`check`], [`prescan`] and [`verdict`] equal it, read the zone alone and take no memory. What
//! an update that is taken makes of the zone is `Act`: its records one after another, and the serial. [`apply`] tells
//! which version it makes of another (`Applied`), which stays as it is; the version knows what it changed (RFC 1995, 4).
//! Laws and worked examples tell of `Act`.
#![tactic(auto)]

mod additions;
mod deletions;
mod effects;
mod examples;
mod judgement;
mod laws;
mod one_set;
mod ordered;
mod outcome;
mod overlay;
mod own_sets;
mod place;
mod prerequisites;
mod rows;
mod tagged;
mod update_section;

pub use examples::{
    examples_are_zones, examples_of_adds, examples_of_deletions, examples_of_prerequisites,
    examples_of_prescan, examples_of_serials, examples_of_sets, examples_of_taken_updates,
    examples_of_verdicts,
};
pub use judgement::verdict;
pub use laws::{prerequisites_change_nothing, replays_agree, serials_rise, updates_keep_a_zone};
pub use outcome::{Outcome, apply};
pub use prerequisites::check;
pub use update_section::prescan;
