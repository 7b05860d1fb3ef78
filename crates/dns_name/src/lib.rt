//! Domain names: what the octets of a name are, which names are the same, which is under which, and their
//! canonical order (RFC 1034, 3.1; RFC 1035, 2.3.4, 3.1 and 5.1; RFC 4034, 6.1; RFC 4343).
//!
//! Contracts see a [`Name`] as the list of its labels, each a list of octets. A name lies in the value itself,
//! and no call takes memory; a zone keeps its names as [`StoredName`]s, each on the heap in as many octets as it takes.
//! Pointers inside a message are not read here.
#![tactic(auto)]

mod beside;
mod compare;
mod front;
mod kept;
mod labels;
mod laws;
mod name;
mod octets;
mod order;
mod print;
mod sought;
mod stored;
mod stored_order;
mod text;

pub use kept::KeptOctets;
pub use labels::Labels;
pub use laws::{
    canonical_order, examples, limits, one_reading, same_but_for_case, stored_names,
    text_is_read_back, under_ancestors,
};
pub use name::{MAX_BELOW_ASTERISK, MAX_LABEL, MAX_NAME, Name};
pub use octets::{first_label, first_name};
pub use print::MAX_TEXT;
pub use sought::{Sought, SoughtRoom};
pub use stored::{MAX_STORED, SoughtName, StoredName};
pub use text::{NameFault, octet_at};
