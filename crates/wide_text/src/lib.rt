//! Records as zone files in use write them: the words of types beside those of RFC 1035, RFC 2782 and RFC 3596, and times with units.
//!
//! A type is a line of the table of forms, which has its word, its number and the fields of its data. Contracts see a word as its octets,
//! outside quotes or between two, and data as its octets. Words are read from left to right, and the first fault is returned.
#![tactic(auto)]

mod data;
mod encoded;
mod fields;
mod forms;
mod front;
mod keyed;
mod laws;
mod location;
mod location_words;
mod mnemonics;
mod param_words;
mod params;
mod read_back;
mod signing;
mod texts;
mod times;
mod words;

pub use data::read_wide_data;
pub use forms::{Field, Form, Rest, all_forms, form_of, wide_type};
pub use front::read_wide_front;
pub use laws::{
    plain_words_are_wide, written_fields_are_read_back, written_fronts_are_read_back,
    written_words_are_spelt,
};
pub use signing::is_left_out;
pub use times::{is_time, seconds, wide_ttl};
pub use words::{write_wide_data, write_wide_type};
