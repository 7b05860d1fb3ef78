//! The answer of a zone to a name and a type: the steps of RFC 1034, 4.3.2, with its aliases (3.6.2), its negative
//! answers (RFC 2308) and the names that exist without records (RFC 4592, 2.2).
//!
//! Contracts see a zone as the list of its records, and an [`Answer`] as the records that its sections show. Where a name
//! stands is `place`, what is found there `Look`, the aliases followed are `Chain`, and the sections that come of them
//! are `Sections`. The crate takes no memory: an answer borrows the zone's sets.
#![tactic(auto)]

mod additional;
mod aliases;
mod examples;
mod first;
mod laws;
mod look;
mod matched;
mod places;
mod question;
mod sections;
mod sets;
mod walk;

pub use additional::{MOST_ADDITIONAL, additional_of, may_name_hosts};
pub use aliases::{MOST_ALIASES, MOST_SHOWN};
pub use examples::{
    examples_are_zones, examples_of_answers, examples_of_chains, examples_of_wildcards,
};
pub use first::{First, More, first_look};
pub use laws::{
    additions_are_addresses, chains_are_short, names_without_existence, owners_are_reached,
};
pub use matched::Place;
pub use places::place;
pub use question::{answer, answer_from, fill_front};
pub use sections::{Answer, Front};
