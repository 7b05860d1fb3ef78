//! Frames of a journal: a mark, the length of the body, the frame's number, the body, and a checksum (own).
ghost use Rattle.std.specs.Prelude.{◌≡◌, ◌+◌, ◌^◌, ◌<◌, ◌≤◌, ◌⊎◌, ◌++◌, ◌↔◌, ℕ, List, IsTrue, length, take, IfOk, IfSome, MatchOption};
ghost use Rattle.std.specs.Int.{w32, w64, to_be_bytes};
ghost use Rattle.sha2.specs.Sha256.{sha256};
ghost use Rattle.journal.specs.Frame.{body_limit, mark_of, framed, IsFrame, NoFrame};
ghost use Rattle.journal.specs.Private.{IsSummed};

use crate::parts::{first_part, first_u32, first_u64};
use sha2::{Digest, Sha256};
use std::alloc::{AllocError, Global};

/// The length of a frame's mark in octets.
const MARK: usize = 8;

/// The number of octets of a frame between its mark and its body: the length, in four, and the number, in eight.
const LEAD: usize = 12;

/// A body has fewer octets than this: 64 updates of one message each have at most 4,194,368 of them in a batch.
pub const BODY_LIMIT: usize = 1 << 24;

/// The length of a checksum in octets, an SHA-256 (FIPS 180-4, 1).
pub const SUM: usize = 32;

/// The number of octets that a frame has besides its body.
pub(crate) const ROUND: usize = MARK + LEAD + SUM;

/// The mark of a journal's frames: the first eight octets of its salt, as a number whose high octet is the first of them.
pub(crate) fn mark_of(salt: &[u8; SUM]) -> u64
    ensures { mark_of salt.now ≡ to_be_bytes w64 result }
{
    match first_u64(salt.as_slice()) {
        Some((mark, _)) => mark,
        None => 0,
    }
}

/// The octets after this mark, if octets begin with it.
pub(crate) fn behind_mark(mark: u64, octets: &[u8]) -> Option<&[u8]>
    ensures { MatchOption result ((rest : List ℕ) → octets.now ≡ to_be_bytes w64 mark ++ rest → ⊥) (λ rest. octets.now ≡ to_be_bytes w64 mark ++ rest.now) }
{
    let (first, rest) = first_u64(octets)?;
    if first != mark {
        return None;
    }
    Some(rest)
}

/// The length of a body at the start of octets, and the octets after it; None where they don't begin with a length that a body can have.
pub(crate) fn first_size(octets: &[u8]) -> Option<(u32, &[u8])>
    ensures { MatchOption result ((size : ℕ) (rest : List ℕ) → size < body_limit → octets.now ≡ to_be_bytes w32 size ++ rest → ⊥)
        (λ r. (octets.now ≡ to_be_bytes w32 r.0 ++ r.1.now) × (length octets.now ≡ 4 + length r.1.now) × (r.0 < body_limit)) }
{
    let (size, rest) = first_u32(octets)?;
    if size as usize >= BODY_LIMIT {
        return None;
    }
    Some((size, rest))
}

/// The SHA-256 of a journal's salt followed by some octets (FIPS 180-4, 6.2).
fn salted_sum(salt: &[u8; SUM], octets: &[u8]) -> [u8; SUM]
    ensures { result ≡ sha256 (salt.now ++ octets.now) }
{
    let mut hasher = Sha256::new();
    hasher.update(salt.as_slice());
    hasher.update(octets);
    hasher.finalize()
}

/// Whether this is the checksum of the octets. They are digested, and their number is added to `digested`.
fn is_sum_of(sum: &[u8; SUM], salt: &[u8; SUM], digested: &mut u64, octets: &[u8]) -> bool
    ensures same { IsTrue result ↔ (sum.now ≡ sha256 (salt.now ++ octets.now)) }
    ensures count { digested.new ≤ digested.old + length octets.now }
    ensures counted { digested.old + length octets.now < 2 ^ 64 → digested.new ≡ digested.old + length octets.now }
{
    *digested = digested.saturating_add(octets.len() as u64);
    *sum == salted_sum(salt, octets)
}

/// The frame of this number and this body, under a journal's salt. It allocates memory.
#[tactic(auto, unfolding(crate::specs::Frame::framed, crate::specs::Frame::text_of))]
pub fn write_frame(
    alloc: Global,
    salt: &[u8; SUM],
    number: u64,
    body: &[u8],
) -> Result<Vec<u8>, AllocError>
    requires { length body.now < body_limit }
    ensures frame { IfOk result (λ frame. frame.items ≡ framed salt.now number body.now) }
    ensures long { IfOk result (λ frame. length frame.items ≡ length body.now + 52) }
{
    let len = body.len() as u32;
    let mut frame = Vec::new(alloc);
    frame.extend_from_slice(&mark_of(salt).to_be_bytes())?;
    frame.extend_from_slice(&len.to_be_bytes())?;
    frame.extend_from_slice(&number.to_be_bytes())?;
    frame.extend_from_slice(body)?;
    let sum = salted_sum(salt, &frame[MARK..]);
    frame.extend_from_slice(&sum)?;
    Ok(frame)
}

/// The rest of a frame after its mark, if octets begin with it and its number is at least `low` and at most `high`: the frame's number, its body, and the
/// octets after the frame. At most one checksum is computed, and the octets that it is computed of are counted. It allocates no memory.
fn summed_among<'a>(
    salt: &[u8; SUM],
    digested: &mut u64,
    low: u64,
    high: u64,
    octets: &'a [u8],
) -> Option<(u64, &'a [u8], &'a [u8])>
    ensures found { MatchOption result
        ((number : ℕ) → low ≤ number → number ≤ high → (body rest : List ℕ) → IsSummed salt.now number octets.now body rest → ⊥)
        (λ r. (low ≤ r.0) × (r.0 ≤ high) × IsSummed salt.now r.0 octets.now r.1.now r.2.now) }
    ensures once { (digested.new ≡ digested.old) ⊎ (digested.new + 32 ≤ digested.old + length octets.now) }
    ensures count { IfSome result (λ r. digested.new + length r.2.now ≤ digested.old + length octets.now) }
{
    let (size, behind_size) = first_size(octets)?;
    let (number, behind_number) = first_u64(behind_size)?;
    if number < low || high < number {
        return None;
    }
    let (body, behind_body) = behind_number.split_at_checked(size as usize)?;
    let (sum, rest) = first_part::<SUM>(behind_body)?;
    if !is_sum_of(sum, salt, digested, &octets[..LEAD + size as usize]) {
        return None;
    }
    Some((number, body, rest))
}

/// The frame at the start of octets, if its number is at least `low` and at most `high`: its number, its body, and the octets after it.
/// At most one checksum is computed, and the number of octets that it is computed of is added to `digested`. It allocates no memory.
pub(crate) fn frame_among<'a>(
    salt: &[u8; SUM],
    digested: &mut u64,
    low: u64,
    high: u64,
    octets: &'a [u8],
) -> Option<(u64, &'a [u8], &'a [u8])>
    ensures found { MatchOption result
        ((number : ℕ) → low ≤ number → number ≤ high → NoFrame salt.now number octets.now)
        (λ r. (low ≤ r.0) × (r.0 ≤ high) × IsFrame salt.now r.0 octets.now r.1.now r.2.now) }
    ensures once { (digested.new ≡ digested.old) ⊎ (digested.new + 40 ≤ digested.old + length octets.now) }
    ensures count { IfSome result (λ r. digested.new + length r.2.now ≤ digested.old + length octets.now) }
{
    let behind = behind_mark(mark_of(salt), octets)?;
    let (number, body, rest) = summed_among(salt, digested, low, high, behind)?;
    Some((number, body, rest))
}

/// The body of the frame of this number at the start of octets, and the octets after that frame; None where they don't begin with such a
/// frame: it isn't whole, or has another mark, another number, or another checksum. The number of octets digested is added to `digested`. It
/// allocates no memory.
pub fn read_frame<'a>(
    salt: &[u8; SUM],
    digested: &mut u64,
    number: u64,
    octets: &'a [u8],
) -> Option<(&'a [u8], &'a [u8])>
    ensures found { MatchOption result (NoFrame salt.now number octets.now)
        (λ r. IsFrame salt.now number octets.now r.0.now r.1.now) }
    ensures once { digested.new ≤ digested.old + length octets.now }
    ensures count { IfSome result (λ r. digested.new + length r.1.now ≤ digested.old + length octets.now) }
{
    let (_, body, rest) = frame_among(salt, digested, number, number, octets)?;
    Some((body, rest))
}
