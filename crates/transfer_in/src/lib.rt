//! What a holder of a zone makes of a transfer's messages (RFC 1995, 4; RFC 5936, 2.2).
//!
//! Contracts see a zone as the list of its records and messages as the lists of their octets. [`apply`] gives what the list
//! of their records makes of the zone that is held (`take`), or the fault of the first record that has one. It goes record by
//! record and keeps no list; what is held after the last one is put into sets and judged as any zone is. The lists
//! themselves, and the laws of `take`, are those of `transfer_core`; the laws here take the octets of a whole transfer back.
#![tactic(auto)]

mod ended;
mod grouped;
mod held;
mod holding;
mod laws;
mod messages;
mod reading;
mod sizes;
mod taking;

pub use laws::{
    current_zones_stay, datagrams_are_received, full_transfers_are_taken,
    incremental_transfers_are_taken, lists_are_received,
};
pub use messages::apply;
