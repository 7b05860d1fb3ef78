//! An update in one message or more (RFC 2136, 2; own).
//!
//! Over the network an update is one message. A server that makes an update itself, of more records than one message has, has it in several: each is
//! an update of its own by its form, and they are one update, the first of them with the records of all ([`read_request`]). Contracts see what messages
//! are read as (`IsRead`). [`prepare_change`] makes the update that takes a zone to another one; its messages are read as that update again
//! ([`a_change_is_read_again`]).
#![tactic(auto)]

mod laws;
mod prepare_fault;
mod prepared;
mod read;

pub use laws::{a_change_is_read_again, a_request_is_read_once, one_message_is_read};
pub use prepare_fault::PrepareFault;
pub use prepared::{Prepared, PreparedChange, prepare_change};
pub use read::read_request;
