//! Records: their types, classes and TTLs, their data, and the sets that share an owner and a type (RFC 1034, 3.6;
//! RFC 1035, 3.2 and 3.3; RFC 2181, 5; RFC 2782; RFC 3596).
//!
//! Contracts see an [`RRset`] as the list of its records, ordered by their data octets, and an [`RData`] as its type
//! and its octets. Data lies uncompressed, with the names in it in lower case.
#![tactic(auto)]

mod data;
mod form;
mod laws;
mod layout;
mod lent;
mod numbers;
mod raw;
mod rrset;
mod serial;
mod shown;

pub use data::{DataFault, MAX_DATA, RData, Soa, soa_serial};
pub use laws::{
    names_of_data, one_more, read_again, records_in_order, served_types, strings_in_a_row,
};
pub use layout::Layout;
pub use lent::LentName;
pub use numbers::{Class, RType, Rcode, Serial, Ttl};
pub use raw::RawRecord;
pub use rrset::{MAX_SET, RRset, SetFault};
pub use serial::{serial_examples, serials_round_the_ring};
pub use shown::Shown;
