//! The keys of labels: numbers that tell nearly all labels apart.
//!
//! Nothing here is secret, so labels can be chosen whose keys are equal: a key rules labels out, and the labels themselves are compared then.
ghost use Rattle.std.specs.Prelude.{◌≡◌, ◌<◌, IfSome, slice_index_or};
ghost use Rattle.dns_name.specs.Labels.{labels_in, IsWhole};
ghost use Rattle.wire_names.specs.Table.{first_key, first_end, front_key, key_up_to};

/// How many of a label's octets are a part of its key as they are.
const KEY: usize = 4;

/// The key of a label of one octet, but for that octet: its length octet three times.
const ONE_OCTET: u32 = 16_843_008;

/// An odd number, by which each octet before the last four changes all higher bits of a key.
const FACTOR: u32 = 2_654_435_761;

/// The key of the first label of the name in these octets: of its last four octets, and of those before them (own).
pub(crate) fn first_key(octets: &[u8]) -> u32
    requires whole { IsWhole octets.now }
    ensures { result ≡ first_key (labels_in octets.now) }
{
    let end = end_key(octets);
    let len = octet_at(octets, 0) as usize;
    if len <= KEY {
        return end;
    }
    front_key(&octets[1..len - 3]).wrapping_add(end)
}

/// The number of the octets of a label before its last four.
fn front_key(octets: &[u8]) -> u32
    ensures { result ≡ front_key octets.now }
{
    octets.iter().fold(
        0u32,
        |key, octet| key.wrapping_add(u32::from(*octet)).wrapping_mul(FACTOR),
    )
}

/// The last four octets of the first label of the name in these octets, as a number, with its length octet before it; the length octet
/// stands for those that a short label lacks.
fn end_key(octets: &[u8]) -> u32
    requires whole { IsWhole octets.now }
    ensures { result ≡ first_end (labels_in octets.now) }
{
    if let [1, octet, ..] = octets {
        return ONE_OCTET + u32::from(*octet);
    }
    let len = octet_at(octets, 0) as usize;
    match four_up_to(octets, len) {
        Some(key) => key,
        None => key_up_to(octets, len),
    }
}

/// The four octets up to one at an index, as a number; None where there aren't so many.
fn four_up_to(octets: &[u8], last: usize) -> Option<u32>
    ensures { IfSome result (λ key. key ≡ key_up_to octets.now last) }
{
    let start = last.checked_sub(KEY - 1)?;
    let four = octets.get(start..)?.first_chunk::<KEY>()?;
    Some(u32::from_be_bytes(*four))
}

/// The four octets up to one at an index, as a number: the first stands for those that would be before it.
fn key_up_to(octets: &[u8], last: usize) -> u32
    ensures { result ≡ key_up_to octets.now last }
{
    let high = octet_at(octets, last.saturating_sub(3)) * 256
        + octet_at(octets, last.saturating_sub(2));
    let low = octet_at(octets, last.saturating_sub(1)) * 256 + octet_at(octets, last);
    high * 65536 + low
}

/// The octet at an index, or 0 after the end.
fn octet_at(octets: &[u8], index: usize) -> u32
    ensures octet { result ≡ slice_index_or octets.now index 0 }
    ensures low { result < 256 }
{
    match octets.get(index) {
        Some(octet) => u32::from(*octet),
        None => 0,
    }
}
