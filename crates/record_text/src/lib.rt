//! One record as text (RFC 1035, 5.1; RFC 3596, 2; RFC 2782; RFC 3597, 5): what its words stand for as a name, a number, a class, a
//! type or data (RFC 1035, 3.3), and the words of its data.
//!
//! Contracts see a word as its octets, outside quotes or between two, and data as its octets. Words are judged from left
//! to right, and the first fault is told.
#![tactic(auto)]

mod addresses;
mod cause;
mod data;
mod examples;
mod front;
mod generic;
mod laws;
mod mnemonics;
mod names;
mod numbers;
mod strings;
mod text;

pub use addresses::{address, address6};
pub use cause::Cause;
pub use data::{read_data, surplus};
pub use examples::{examples_of_any_type, examples_of_numbers};
pub use front::{Front, read_front};
pub use laws::{addresses_are_spelt, what_is_read_is_data, written_data_is_read_back};
pub use mnemonics::{is_class, rtype, write_type};
pub use names::{name, owner};
pub use numbers::{is_number, number, ttl};
pub use text::write_data;
