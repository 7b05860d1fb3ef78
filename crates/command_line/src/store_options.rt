//! The options of `serve` for the store, and for sizes.
ghost use Rattle.std.specs.Prelude.{◌≡◌, ◌≤◌, IsNone, IfOk};
ghost use Rattle.std.specs.Result.{IsOkAnd};

use crate::fault::CommandFault;
use clap::ArgMatches;
use store_recovery::Take;

/// A directory in which updates survive a restart, and how it is used.
#[derive(Clone, Copy, Debug)]
pub struct StorePlan<'a> {
    /// The directory.
    pub dir: &'a str,
    /// The journal size, in octets, at which the store is compacted: a new zone text is written, and the journal starts again after it.
    pub journal: u64,
    /// Which to serve if the zone's text is not the one that the store was created from.
    pub taken: Option<Take>,
}

/// The option for the store's directory.
pub const STORE: &str = "store";

/// The option for the journal size at which the store is compacted.
pub const JOURNAL: &str = "journal";

/// The sizes it accepts (own).
const JOURNAL_SIZES: Sizes = Sizes {
    option: JOURNAL,
    own: 64_000_000,
    least: 4_096,
    most: 1_099_511_627_776,
    takes: "from 4K to 1024G, such as 100000, 500K or 64M",
};

/// The option for the number of octets of datagrams that may wait for a worker, at each address.
pub const UDP_BUFFER: &str = "udp-buffer";

/// The sizes it accepts (own).
const UDP_SIZES: Sizes = Sizes {
    option: UDP_BUFFER,
    own: 4_194_304,
    least: 4_096,
    most: 1_073_741_824,
    takes: "from 4K to 1G, such as 500K or 4M",
};

/// The option for the minimum number of octets that a connection's peer must accept in ten seconds.
pub const TRANSFER_RATE: &str = "transfer-rate";

/// The sizes it accepts; 0 means no bound (own).
const RATES: Sizes = Sizes {
    option: TRANSFER_RATE,
    own: 16_384,
    least: 0,
    most: 1_073_741_824,
    takes: "from 0 to 1G, such as 16K or 1M",
};

/// The option for the limit, in octets, on the memory accounted to waiting updates.
pub const UPDATE_QUEUE: &str = "update-queue";

/// The sizes it accepts (own).
const UPDATE_SIZES: Sizes = Sizes {
    option: UPDATE_QUEUE,
    own: 16_777_216,
    least: 65_536,
    most: 1_073_741_824,
    takes: "from 64K to 1G, such as 500K or 16M",
};

/// The sizes that an option accepts.
#[derive(Clone, Copy)]
struct Sizes {
    /// The option.
    option: &'static str,
    /// The default, in octets.
    own: u64,
    /// The minimum.
    least: u64,
    /// The maximum.
    most: u64,
    /// Both bounds, in the words of the error message.
    takes: &'static str,
}

/// The units of size, and the number of octets in each.
const SIZES: &[(char, u64)] = &[
    ('K', 1 << 10),
    ('k', 1 << 10),
    ('M', 1 << 20),
    ('m', 1 << 20),
    ('G', 1 << 30),
    ('g', 1 << 30),
];

/// The option for which to serve, the store or the zone's text.
pub const TAKE: &str = "take";

/// The store given by the options, if there is one. An error is a value that is refused, or an option that requires a store when none is given.
pub fn store_of<'a>(found: &ArgMatches<'a>) -> Result<Option<StorePlan<'a>>, CommandFault<'a>> {
    let journal = journal_size(found.get_str(JOURNAL))?;
    let taken = taken_of(found.get_str(TAKE))?;
    if let Some(dir) = found.get_str(STORE) {
        return Ok(Some(StorePlan {
            dir,
            journal,
            taken,
        }));
    }
    if found.get_str(JOURNAL).is_some() {
        return Err(CommandFault::NoStore(JOURNAL));
    }
    if found.get_str(TAKE).is_some() {
        return Err(CommandFault::NoStore(TAKE));
    }
    Ok(None)
}

/// The journal size, in octets, at which the store is compacted.
fn journal_size<'a>(word: Option<&'a str>) -> Result<u64, CommandFault<'a>>
    ensures own { IsNone word.entry → IsOkAnd result (λ size. size ≡ 64000000) }
    ensures least { IfOk result (λ size. 4096 ≤ size) }
    ensures most { IfOk result (λ size. size ≤ 1099511627776) }
{
    size_of(word, JOURNAL_SIZES)
}

/// The number of octets of datagrams that may wait for a worker, at each address.
pub fn udp_buffer<'a>(word: Option<&'a str>) -> Result<u32, CommandFault<'a>>
    ensures own { IsNone word.entry → IsOkAnd result (λ size. size ≡ 4194304) }
    ensures least { IfOk result (λ size. 4096 ≤ size) }
    ensures most { IfOk result (λ size. size ≤ 1073741824) }
{
    let size = size_of(word, UDP_SIZES)?;
    Ok(size as u32)
}

/// The minimum number of octets that a connection's peer must accept in ten seconds of what is written to it; 0 means no bound.
pub fn transfer_rate<'a>(word: Option<&'a str>) -> Result<u64, CommandFault<'a>>
    ensures own { IsNone word.entry → IsOkAnd result (λ size. size ≡ 16384) }
    ensures most { IfOk result (λ size. size ≤ 1073741824) }
{
    size_of(word, RATES)
}

/// The limit, in octets, on the memory accounted to updates that wait to be judged.
pub fn update_queue<'a>(word: Option<&'a str>) -> Result<usize, CommandFault<'a>>
    ensures own { IsNone word.entry → IsOkAnd result (λ size. size ≡ 16777216) }
    ensures least { IfOk result (λ size. 65536 ≤ size) }
    ensures most { IfOk result (λ size. size ≤ 1073741824) }
{
    let size = size_of(word, UPDATE_SIZES)?;
    Ok(size as usize)
}

/// The number of octets in a size: a number, optionally followed by K or k for 2^10, M or m for 2^20, or G or g for 2^30 times as many. Without a
/// value it is the default.
fn size_of<'a>(word: Option<&'a str>, sizes: Sizes) -> Result<u64, CommandFault<'a>>
    ensures own { IsNone word.entry → IsOkAnd result (λ size. size ≡ sizes.own) }
    ensures least { sizes.least ≤ sizes.own → IfOk result (λ size. sizes.least ≤ size) }
    ensures most { sizes.own ≤ sizes.most → IfOk result (λ size. size ≤ sizes.most) }
{
    let Some(word) = word else {
        return Ok(sizes.own);
    };
    let (digits, unit) = split_unit(word, SIZES);
    match digits.parse::<u64>() {
        Ok(number) => match number.checked_mul(unit) {
            Some(size) if sizes.least <= size && size <= sizes.most => Ok(size),
            _ => Err(no_size(word, sizes)),
        },
        Err(_) => Err(no_size(word, sizes)),
    }
}

/// The fault for a value that is not a size that the option accepts.
fn no_size<'a>(word: &'a str, sizes: Sizes) -> CommandFault<'a> {
    CommandFault::Size {
        option: sizes.option,
        takes: sizes.takes,
        word,
    }
}

/// Splits a value into the text before its unit letter and the size of that unit. Without a unit letter it is the whole value and 1.
pub fn split_unit<'a>(word: &'a str, units: &[(char, u64)]) -> (&'a str, u64) {
    for (letter, unit) in units {
        if let Some(digits) = word.strip_suffix(*letter) {
            return (digits, *unit);
        }
    }
    (word, 1)
}

/// Which of the two the value names; None if there is no value.
fn taken_of<'a>(word: Option<&'a str>) -> Result<Option<Take>, CommandFault<'a>>
    ensures { IsNone word.entry → IsOkAnd result IsNone }
{
    match word {
        None => Ok(None),
        Some("store") => Ok(Some(Take::Store)),
        Some("zone") => Ok(Some(Take::Zone)),
        Some(word) => Err(CommandFault::Take(word)),
    }
}
