//! Laws of how requests are read and replies are written, and worked examples of the definitions (RFC 1035, 4.1; RFC 2136, 2; RFC 6891):
//! each is the contract of a function that does nothing.
//!
//! What `dns_message` writes is read again: a question, a record with the data of its names, the sections of a reply, its OPT, its frame
//! over TCP. Nothing here runs in the server.
#![tactic(auto)]

mod laws;
mod worked;

pub use laws::{
    answers_are_received, data_is_read_again, frame_is_taken_again, limits_of_replies,
    one_record_fits, opt_is_read_again, question_in_full_is_read, question_is_read_again,
    record_is_read_again, records_are_taken_from_the_front, sections_are_read_again,
    silent_is_short_or_reply, update_keeps_its_header,
};
pub use worked::{
    examples, opt_examples, opt_reply_examples, opt_update_examples, read_examples, update_examples,
};
