//! How many records a section has (RFC 1035, 4.1.1).
ghost use Rattle.std.specs.Prelude.{◌≡◌, ◌+◌, ◌≤◌, length};
ghost use Rattle.dns_rdata.specs.Shown.{records_shown};
ghost use Rattle.dns_message.specs.Message.{section_of};
ghost use Rattle.dns_message.specs.Encoded.{Counts};
ghost use Rattle.dns_message.specs.Opt.{opt_count};

use crate::edns::Opt;
use dns_rdata::{RRset, Shown};

/// The number of a section's records; None where it hasn't 16 bits.
pub(crate) fn count_section(section: &[Shown<'_>]) -> Option<u16>
    ensures { Counts (length (section_of section.now)) result }
{
    let mut count: u16 = 0;
    for shown in section {
        count = count.checked_add(count_shown(shown)?)?;
    }
    Some(count)
}

/// The number of an additional section's records, with an OPT after them or without one; None where it hasn't 16 bits
/// (RFC 6891, 6.1.1).
pub(crate) fn count_additional(section: &[Shown<'_>], opt: Option<Opt>) -> Option<u16>
    ensures { Counts (length (section_of section.now) + opt_count opt) result }
{
    count_section(section)?.checked_add(u16::from(opt.is_some()))
}

/// The number of the records of some sets; None where it hasn't 16 bits.
fn count_shown(shown: &Shown<'_>) -> Option<u16>
    ensures { Counts (length (records_shown shown.now)) result }
{
    let mut count: u16 = 0;
    for set in shown.sets {
        count = count.checked_add(count_set(set))?;
    }
    Some(count)
}

/// The number of a set's records.
fn count_set(set: &RRset) -> u16
    ensures { result ≡ length set.now }
{
    set.data().len() as u16
}
