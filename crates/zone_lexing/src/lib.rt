//! The words of zone text (RFC 1035, 5.1): a text as entries, each a line's words or those of the lines that parentheses
//! join.
//!
//! Contracts see the entries of a text that are left as a list; an entry as its line and its words; and a word as its
//! octets, outside quotes or between two, with its escapes not undone.
#![tactic(auto)]

mod entries;
mod entry;
mod item;
mod laws;
mod parentheses;
mod reading;
mod word;

pub use entries::Entries;
pub use entry::EntryHead;
pub use laws::{
    blank_lines_change_nothing, comments_change_nothing, entries_are_in_order, examples_of_places,
    items_are_the_text, line_ends_are_alike, lines_are_read_back, parentheses_join_lines,
};
pub use word::Word;
