//! The places at which the search for the record that shows a fault begins.
use crate::faulty::Sought;
use crate::kept::KeptRecord;
use dns_rdata::{MAX_SET, RType};

/// The lines of the records that likely show faults first: the search is the faster the nearer they are. They are the right ones but for a set of
/// too many in which a record stands twice.
#[derive(Clone, Copy)]
pub(crate) struct Likely {
    limit: u64,
    conflict: u64,
}

impl Likely {
    /// Where nothing is known: the last of all.
    pub(crate) fn last() -> Likely {
        Likely {
            limit: u64::MAX,
            conflict: u64::MAX,
        }
    }

    /// Those among records in the order of their owners and types, those of one in the order of the text.
    pub(crate) fn among(sorted: &[KeptRecord]) -> Likely {
        Likely {
            limit: likely_limit(sorted),
            conflict: likely_conflict(sorted),
        }
    }

    /// The place among records of the one that likely shows first what is sought, or any other.
    pub(crate) fn place(&self, records: &[KeptRecord], sought: Sought) -> usize {
        let line = match sought {
            Sought::Limit => self.limit,
            Sought::SecondSoa => likely_soa(records),
            Sought::Conflict => self.conflict,
        };
        place_of(records, line)
    }
}

/// The place of the first record at a line or after it, and else of the last.
fn place_of(records: &[KeptRecord], line: u64) -> usize {
    for (at, kept) in records.iter().enumerate() {
        if kept.line() >= line {
            return at;
        }
    }
    records.len().saturating_sub(1)
}

/// The line of the first record in the order of the text that makes a set too large.
fn likely_limit(sorted: &[KeptRecord]) -> u64 {
    let mut least = u64::MAX;
    let mut last: Option<&KeptRecord> = None;
    let mut count = 0usize;
    for kept in sorted {
        count = match last {
            Some(other) if kept == other => count.saturating_add(1),
            _ => 1,
        };
        if count > MAX_SET {
            least = least.min(kept.line());
        }
        last = Some(kept);
    }
    least
}

/// The line of the first SOA that differs from the first of all.
fn likely_soa(records: &[KeptRecord]) -> u64 {
    let mut first: Option<&KeptRecord> = None;
    for kept in records {
        if kept.rtype() != RType::SOA {
            continue;
        }
        match first {
            Some(other) if !(kept.is_beside(other) && kept.has_data_of(other)) =>
                return kept.line(),
            Some(_) => {}
            None => first = Some(kept),
        }
    }
    u64::MAX
}

/// What is seen of the records at an owner: the first lines of its aliases and of other data.
#[derive(Clone, Copy)]
struct Seen {
    alias: u64,
    other: u64,
}

/// The line of the first record in the order of the text that conflicts with another, or is an NS at `*`.
fn likely_conflict(sorted: &[KeptRecord]) -> u64 {
    let mut least = u64::MAX;
    let mut last: Option<&KeptRecord> = None;
    let mut seen = Seen {
        alias: u64::MAX,
        other: u64::MAX,
    };
    for kept in sorted {
        if !is_at_owner_of(kept, last) {
            seen = Seen {
                alias: u64::MAX,
                other: u64::MAX,
            };
        }
        least = least.min(line_beside(kept, last));
        seen = with_line(seen, kept);
        least = least.min(seen.alias.max(seen.other));
        last = Some(kept);
    }
    least
}

/// Whether a record has the owner of the one before it.
fn is_at_owner_of(kept: &KeptRecord, last: Option<&KeptRecord>) -> bool {
    match last {
        Some(other) => kept.is_beside(other),
        None => false,
    }
}

/// The line of a record that is an NS at `*`, or an alias that differs from the one before it; else the last of all.
fn line_beside(kept: &KeptRecord, last: Option<&KeptRecord>) -> u64 {
    if kept.rtype() == RType::NS && kept.is_wild() {
        return kept.line();
    }
    let Some(other) = last else {
        return u64::MAX;
    };
    if kept.rtype() == RType::CNAME && kept == other && !kept.has_data_of(other) {
        return kept.line();
    }
    u64::MAX
}

/// What is seen with one more record.
fn with_line(seen: Seen, kept: &KeptRecord) -> Seen {
    let line = kept.line();
    if kept.rtype() == RType::CNAME {
        return Seen {
            alias: seen.alias.min(line),
            other: seen.other,
        };
    }
    Seen {
        alias: seen.alias,
        other: seen.other.min(line),
    }
}
