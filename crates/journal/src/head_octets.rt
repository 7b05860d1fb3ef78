//! How a head is written and read (own).
ghost use Rattle.std.specs.Prelude.{◌≡◌, ◌+◌, ◌<◌, ◌≤◌, ◌++◌, ◌↔◌, IsTrue, length, take, IfOk, IfErr, OnOk, MatchOption};
ghost use Rattle.sha2.specs.Sha256.{sha256};
ghost use Rattle.journal.specs.Head.{name, head_len, head_text, head_of, salt_of, sum_octets, IsHead, IsHeadFault, IsSum};

use crate::frame::SUM;
use crate::heads::{Head, HeadFault, TextSum};
use crate::parts::{first_part, first_u32, first_u64};
use sha2::{Digest, Sha256};
use std::alloc::{AllocError, Global};

/// The octets that each journal begins with.
const NAME: [u8; 16] = *b"dnsd journal, 2\n";

/// The number of octets of a head before its checksum.
const TEXT: usize = 124;

/// A head's octets, and the salt of its frames. It allocates memory.
#[tactic(auto, unfolding(crate::specs::Head::head_of, crate::specs::Head::salt_of, crate::specs::Head::head_text))]
pub fn write_head(alloc: Global, head: &Head) -> Result<(Vec<u8>, [u8; SUM]), AllocError>
    ensures { IfOk result (λ r. (r.0.items ≡ head_of head.now) × (r.1 ≡ salt_of head.now)) }
{
    let mut octets = Vec::new(alloc);
    octets.extend_from_slice(&NAME)?;
    octets.extend_from_slice(&head.number.to_be_bytes())?;
    octets.extend_from_slice(&head.random)?;
    put_sum(&mut octets, &head.text)?;
    octets.extend_from_slice(&head.serial.to_be_bytes())?;
    put_sum(&mut octets, &head.origin)?;
    let salt = Sha256::digest(octets.as_slice());
    octets.extend_from_slice(&salt)?;
    Ok((octets, salt))
}

/// Appends the octets of a `TextSum`: the length, then the SHA-256.
fn put_sum(octets: &mut Vec<u8>, text: &TextSum) -> Result<(), AllocError>
    ensures { OnOk result (octets.new.items ≡ octets.old.items ++ sum_octets text.now) }
{
    octets.extend_from_slice(&text.len.to_be_bytes())?;
    octets.extend_from_slice(&text.sum)?;
    Ok(())
}

/// The head at the start of octets, the salt of its frames, and the octets after the head. It allocates no memory.
pub fn read_head(octets: &[u8]) -> Result<(Head, [u8; SUM], &[u8]), HeadFault>
    ensures read { IfOk result (λ r. IsHead r.0 × (r.1 ≡ salt_of r.0) × (octets.now ≡ head_of r.0 ++ r.2.now)) }
    ensures refused { IfErr result (λ fault. IsHeadFault octets.now fault) }
{
    let Some((head, sum, rest)) = split_head(octets) else {
        return Err(HeadFault::Short);
    };
    if &octets[..NAME.len()] != NAME.as_slice() {
        return Err(HeadFault::Foreign);
    }
    if !is_digest(sum, &octets[..TEXT]) {
        return Err(HeadFault::WrongSum);
    }
    let salt = *sum;
    Ok((head, salt, rest))
}

/// Whether it is the SHA-256 of octets (FIPS 180-4, 6.2).
fn is_digest(sum: &[u8; SUM], octets: &[u8]) -> bool
    ensures { IsTrue result ↔ (sum.now ≡ sha256 octets.now) }
{
    *sum == Sha256::digest(octets)
}

/// A head's parts, if the octets before them are the format's name: its values, its checksum, and the octets after it; None where there are
/// fewer octets than a head has.
fn split_head(octets: &[u8]) -> Option<(Head, &[u8; SUM], &[u8])>
    ensures { MatchOption result (length octets.now < head_len)
        (λ r. (head_len ≤ length octets.now) × IsHead r.0 × (length r.1.now ≡ 32) × (take 16 octets.now ≡ name → octets.now ≡ head_text r.0 ++ (r.1.now ++ r.2.now))) }
{
    let (_, rest) = first_part::<16>(octets)?;
    let (number, rest) = first_u64(rest)?;
    let (random, rest) = first_part::<16>(rest)?;
    let (text, rest) = first_sum(rest)?;
    let (serial, rest) = first_u32(rest)?;
    let (origin, rest) = first_sum(rest)?;
    let (sum, rest) = first_part::<SUM>(rest)?;
    let random = *random;
    let head = Head {
        number,
        random,
        text,
        serial,
        origin,
    };
    Some((head, sum, rest))
}

/// The `TextSum` at the start of octets, and the octets after it; None where there are fewer than 40.
fn first_sum(octets: &[u8]) -> Option<(TextSum, &[u8])>
    ensures { MatchOption result (length octets.now < 40) (λ r. IsSum r.0 × (octets.now ≡ sum_octets r.0 ++ r.1.now) × (length octets.now ≡ 40 + length r.1.now)) }
{
    let (len, rest) = first_u64(octets)?;
    let (sum, rest) = first_part::<SUM>(rest)?;
    let sum = *sum;
    Some((TextSum { len, sum }, rest))
}
