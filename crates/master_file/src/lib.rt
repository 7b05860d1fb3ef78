//! Zone text (RFC 1035, 5.1; RFC 2308, 4): a text as a zone, and a zone as text again.
//!
//! Contracts see the records of a text that are left as a list, and the first fault after them; a zone as the list of
//! its records. Entries are judged in order and the words of each from left to right, and the first fault is told.
#![tactic(auto)]

mod context;
mod crowded;
mod examples;
mod fault;
mod faulty;
mod kept;
mod likely;
mod record_entry;
mod records;
mod sorted;
mod text_laws;
mod zone;
mod zone_laws;
mod zone_text;

pub use examples::examples_of_records;
pub use fault::FileFault;
pub use record_entry::RecordEntry;
pub use record_text::Cause;
pub use records::Records;
pub use text_laws::{
    blank_lines_change_no_zone, comments_change_no_zone, line_ends_change_no_zone,
    parentheses_change_no_zone, zone_has_the_records_of_its_text,
};
pub use zone::read_zone;
pub use zone_laws::{
    no_text_wants_memory, text_without_a_fault_is_a_zone, written_zone_has_an_entry_a_record,
    written_zone_is_read_back, written_zone_is_the_zone,
};
pub use zone_text::{write_set, write_zone};
