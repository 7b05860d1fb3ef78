//! Zone files as they are in use (RFC 1035, 5): the words of many types, times with units, directives in any case, files that are
//! included. A file is rewritten as plain text, each record on a line of its own, and the zone is read from that. Records that signers make are left out.
//! What is included is given with the text: [`included_paths`] has the files that are to be read for it.
//!
//! Contracts see what isn't read yet of a file as a list of records, up to the first fault, and that fault.
#![tactic(auto)]

mod context;
mod file_path;
mod included;
mod laws;
mod mark;
mod part;
mod plain;
mod record_entry;
mod records;
mod spelling;
mod wide_fault;
mod words_text;

pub use file_path::{FilePath, directory};
pub use included::{IncludedFile, included_paths};
pub use laws::{plain_zones_are_wide, words_are_the_zone};
pub use mark::without_mark;
pub use part::Place;
pub use plain::PlainText;
pub use record_entry::{IncludeEntry, LeftOut, WideEntry};
pub use records::WideRecords;
pub use spelling::{max_depth, plain_text, read_wide_zone};
pub use wide_fault::{WideCause, WideFault};
pub use words_text::in_words;
