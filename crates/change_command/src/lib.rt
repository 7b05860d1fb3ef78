//! What changes from one zone to another, as text: for `dnsd change`.
//!
//! [`write_change`] tells the records that go and come, a line each, and [`write_message`] the update as one message in hexadecimal. Contracts see
//! the texts as functions of both zones (`change_text`, `change_hex`). [`put_set`] and [`put_sets`] write such lines of records.
#![tactic(auto)]

mod hex_line;
mod lines;

pub use hex_line::write_message;
pub use lines::{put_set, put_sets, write_change};
