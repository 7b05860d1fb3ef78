//! How many DNAME records a zone has (RFC 6672), of which no answer is made.
use dns_rdata::RType;
use zone_tree::{Zone, ZoneRead};

/// The type DNAME.
const DNAME: RType = RType(39);

/// How many DNAME records a zone has.
pub(crate) fn dnames_in(zone: &Zone) -> u64 {
    let mut count = 0u64;
    for set in zone.walk() {
        if set.rtype() == DNAME {
            count = count.saturating_add(set.data().len() as u64);
        }
    }
    count
}

/// How many DNAME records a plain text has that stands for a zone file: a record a line, with the type after the owner, the TTL and the class.
pub(crate) fn dnames_of_text(text: &str) -> u64 {
    let mut count = 0u64;
    for line in text.split('\n') {
        if let Some(word) = line.split_ascii_whitespace().nth(3) {
            if word == "TYPE39" {
                count = count.saturating_add(1);
            }
        }
    }
    count
}
