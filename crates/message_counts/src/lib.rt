//! Requests and replies, counted by their own octets (RFC 1035, 4.1; RFC 6891, 6.1.3).
//!
//! Nothing is read but fixed places of the header, and the type of the first question; of a reply whose sections are empty, the OPT after
//! that; of a reply to IXFR the type of its second record. No call takes memory. [`ThreadCounts`] are the numbers
//! of a thread that answers requests.
#![tactic(auto)]

mod count;
mod laws;
mod places;
mod thread;
mod transfers;

pub use count::{count_reply, count_request};
pub use laws::{replies_count_once, types_agree};
pub use places::{id_of, is_truncated, opcode_of, question_type, rcode_of};
pub use thread::{DatagramCounts, NoCounts, ThreadCounts, family_of, nanos_of};
pub use transfers::{asks_transfer, transfer_of};
