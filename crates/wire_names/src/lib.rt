//! Names inside messages: reading them through pointers, and writing them with pointers (RFC 1035, 4.1.4).
//!
//! Contracts see a message as the list of its octets and a name as the list of its labels. No call takes memory.
#![tactic(auto)]

mod chains;
mod key;
mod laws;
mod long;
mod message;
mod part;
mod pass;
mod read;
mod read_into;
mod recent;
mod starts;
mod table;
mod write;

pub use laws::{examples, name_at_is, one_fault, one_reading, table_stays, written_is_spelt};
pub use message::{MAX_TARGETS, Message};
pub use part::NameReadFault;
pub use read::read_name;
pub use write::NameWriter;
