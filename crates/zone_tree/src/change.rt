//! Changes of a zone.
use dns_name::Name;
use dns_rdata::{RRset, RType};

/// A change of a zone, set by set (RFC 2181, 5).
#[derive(Drop)]
pub enum Change {
    /// This set takes the place of the records of its owner and type.
    Put(RRset),
    /// The records of this owner and type go.
    Remove(Name, RType),
}
