//! Octets in ascending order of their keys, none of which stands twice.
ghost use Rattle.std.specs.Prelude.{◌≡◌, ◌≤◌, ◌++◌, length, map, Ok, Err, OnOk, IfOk, IfErr};
ghost use Rattle.std.specs.List.{insert};
ghost use Rattle.record_text.specs.Data.{IsToldOf};
ghost use Rattle.wide_text.specs.Params.{Keyed as Seen, all_octets, keyed_seen, put_among};

use record_text::Cause;
use std::alloc::AllocError;

/// Octets, and the key that they are ordered by.
#[derive(Drop)]
pub(crate) struct Keyed {
    /// The key.
    pub(crate) key: u32,
    /// The octets.
    pub(crate) octets: Vec<u8>,
}

/// Puts octets among others, in ascending order of keys.
///
/// `BadData` at a key that stands there; `NoMemory` where a growth was refused.
#[tactic(auto, using(crate::proofs::KeyedLemmas::seen_insert))]
pub(crate) fn put_among(others: &mut Vec<Keyed>, own: Keyed) -> Result<(), Cause>
    ensures put { OnOk result (put_among (keyed_seen own) (map keyed_seen others.old.items) ≡ Ok (map keyed_seen others.new.items)) }
    ensures fault { IfErr result (IsToldOf (put_among (keyed_seen own) (map keyed_seen others.old.items))) }
{
    let place = place_of(others, own.key)?;
    others.insert(place, own).map_err(|_| Cause::NoMemory)?;
    Ok(())
}

/// The place of a key among others; `BadData` where it stands there.
fn place_of(others: &[Keyed], key: u32) -> Result<usize, Cause>
    ensures place { IfOk result (λ place. (own : Seen) → own.key ≡ key → put_among own (map keyed_seen others.now) ≡ Ok (insert (map keyed_seen others.now) place own)) }
    ensures within { IfOk result (λ place. place ≤ length others.now) }
    ensures fault { IfErr result (λ cause. (own : Seen) → own.key ≡ key → put_among own (map keyed_seen others.now) ≡ Err cause) }
{
    for (place, other) in others.iter().enumerate() {
        if key < other.key {
            return Ok(place);
        }
        if key == other.key {
            return Err(Cause::BadData);
        }
    }
    Ok(others.len())
}

/// Puts the octets after the others, one after the other.
pub(crate) fn put_all(octets: &mut Vec<u8>, all: &[Keyed]) -> Result<(), AllocError>
    ensures { OnOk result (octets.new.items ≡ octets.old.items ++ all_octets (map keyed_seen all.now)) }
{
    for own in all {
        octets.extend_from_slice(&own.octets)?;
    }
    Ok(())
}
