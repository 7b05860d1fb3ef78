//! A zone: its sets of records, and what stands at a name (RFC 1034, 4.2 and 4.3.2; RFC 2181, 5; RFC 4592, 2.2).
//!
//! Contracts see a zone as the list of its records in canonical order (RFC 4034, 6), so that equal zones are equal
//! lists. A [`Zone`] keeps the rules of a zone (`IsZone`), [`edit`] gives the zone that changes make of it, and
//! [`ZoneRead`] is what a search may ask of any zone. Reading one from text is not here.
#![tactic(auto)]

mod change;
mod check;
mod delta;
mod draft;
mod fault;
mod key;
mod laws;
mod left_out;
mod look;
mod own;
mod owners;
mod parts;
mod read;
mod rules;
mod soa;
mod version;
mod walk;
mod zone;

pub use change::Change;
pub use delta::Delta;
pub use fault::{BrokenRule, NewFault, ZoneFault};
pub use laws::{
    changes_give_the_next, example_is_a_zone, examples, names_that_exist, same_records, soa_at_apex,
};
pub use parts::{Apex, find_apex, has_conflict};
pub use read::{Near, ZoneRead};
pub use rules::has_asterisk;
pub use version::{Version, serial_in};
pub use walk::Walk;
pub use zone::{MAX_RECORDS, Zone, edit, edit_owners};
