//! Batches: the requests of one frame, each of one message or more, each message after its length (own).
ghost use Rattle.std.specs.Prelude.{◌≡◌, ◌^◌, ◌<◌, ◌++◌, ℕ, List, [], length, map, All, IfOk, OnOk, OnErr, MatchOption};
ghost use Rattle.journal.specs.Batch.{Messages, counted, more_octets, request_octets, IsShort, IsRequest, IsBatch, NoJoint};

use crate::parts::first_u16;
use crate::request::RequestMessages;
use std::alloc::{AllocError, Global};

/// Appends octets after their number, which two octets can count. It allocates memory (RFC 1035, 4.2.2).
#[tactic(auto, unfolding(crate::specs::Batch::counted))]
fn put_counted(batch: &mut Vec<u8>, octets: &[u8]) -> Result<(), AllocError>
    requires { length octets.now < 2 ^ 16 }
    ensures { OnOk result (batch.new.items ≡ batch.old.items ++ counted octets.now) }
{
    let len = octets.len() as u16;
    batch.extend_from_slice(&len.to_be_bytes())?;
    batch.extend_from_slice(octets)
}

/// Appends a request's further messages. It allocates memory.
fn put_more(batch: &mut Vec<u8>, more: &[Vec<u8>]) -> Result<(), AllocError>
    requires { All IsShort (map (λ message. message.items) more.now) }
    ensures { OnOk result (batch.new.items ≡ batch.old.items ++ more_octets (map (λ message. message.items) more.now)) }
{
    for message in more {
        put_counted(batch, b"")?;
        put_counted(batch, message)?;
    }
    Ok(())
}

/// What stands in a batch of a request. It allocates memory.
#[tactic(auto, using(crate::proofs::RequestLemmas::request_parts))]
pub fn write_request(alloc: Global, request: &RequestMessages) -> Result<Vec<u8>, AllocError>
    ensures { IfOk result (λ octets. octets.items ≡ request_octets request.now) }
{
    let mut octets = Vec::new(alloc);
    put_counted(&mut octets, request.first())?;
    put_more(&mut octets, request.more())?;
    Ok(octets)
}

/// Appends a request to a batch; at an error the batch is as it was. It allocates memory.
pub fn put_request(
    alloc: Global,
    batch: &mut Vec<u8>,
    request: &RequestMessages,
) -> Result<(), AllocError>
    ensures ok { OnOk result (batch.new.items ≡ batch.old.items ++ request_octets request.now) }
    ensures err { OnErr result (batch.new.items ≡ batch.old.items) }
{
    let octets = write_request(alloc, request)?;
    batch.extend_from_slice(&octets)
}

/// The octets at the start of others, after their number, and what is after them; None where there are fewer octets than that number
/// says, or fewer than two. It allocates no memory (RFC 1035, 4.2.2).
fn first_counted(octets: &[u8]) -> Option<(&[u8], &[u8])>
    ensures { MatchOption result ((first rest : List ℕ) → length first < 2 ^ 16 → octets.now ≡ counted first ++ rest → ⊥)
        (λ r. (length r.0.now < 2 ^ 16) × (octets.now ≡ counted r.0.now ++ r.1.now)) }
{
    let (len, rest) = first_u16(octets)?;
    let (first, behind) = rest.split_at_checked(len as usize)?;
    Some((first, behind))
}

/// The message at the start of octets, and what is after it; None where they don't begin with one, or it has no octets. It allocates no
/// memory.
fn first_message(octets: &[u8]) -> Option<(&[u8], &[u8])>
    ensures { MatchOption result ((message rest : List ℕ) → IsShort message → octets.now ≡ counted message ++ rest → ⊥)
        (λ r. IsShort r.0.now × (octets.now ≡ counted r.0.now ++ r.1.now)) }
{
    let (message, rest) = first_counted(octets)?;
    if message.is_empty() {
        return None;
    }
    Some((message, rest))
}

/// What is after no octets and their number, where octets begin so: another message of the same request follows. It allocates no memory.
fn after_joint(octets: &[u8]) -> Option<&[u8]>
    ensures { MatchOption result (NoJoint octets.now) (λ rest. octets.now ≡ counted [] ++ rest.now) }
{
    let (first, rest) = first_counted(octets)?;
    if !first.is_empty() {
        return None;
    }
    Some(rest)
}

/// The request at the start of octets, as many messages as are joined, and what is after it; None where they don't begin with a request. It
/// allocates memory for references to the messages; their octets aren't copied.
fn first_request<'a>(
    alloc: Global,
    octets: &'a [u8],
) -> Result<Option<(Vec<&'a [u8]>, &'a [u8])>, AllocError>
    ensures { IfOk result (λ found. MatchOption found
        ((messages : Messages) (rest : List ℕ) → IsRequest messages → NoJoint rest → octets.now ≡ request_octets messages ++ rest → ⊥)
        (λ r. IsRequest (map (λ message. message.now) r.0.items) × NoJoint r.1.now × (octets.now ≡ request_octets (map (λ message. message.now) r.0.items) ++ r.1.now))) }
{
    let mut messages = Vec::new(alloc);
    let Some((first, behind)) = first_message(octets) else {
        return Ok(None);
    };
    messages.push(first)?;
    let mut rest = behind;
    while let Some(after) = after_joint(rest) {
        let Some((message, behind)) = first_message(after) else {
            return Ok(None);
        };
        messages.push(message)?;
        rest = behind;
    }
    Ok(Some((messages, rest)))
}

/// The requests of a batch, in their order, each as its messages; None where the octets are no batch. It allocates memory.
pub fn read_batch<'a>(
    alloc: Global,
    octets: &'a [u8],
) -> Result<Option<Vec<Vec<&'a [u8]>>>, AllocError>
    ensures { IfOk result (λ found. MatchOption found
        ((requests : List Messages) → IsBatch octets.now requests → ⊥)
        (λ requests. IsBatch octets.now (map (λ request. map (λ message. message.now) request.items) requests.items))) }
{
    let mut requests = Vec::new(alloc);
    let mut rest = octets;
    while !rest.is_empty() {
        let Some((request, behind)) = first_request(alloc, rest)? else {
            return Ok(None);
        };
        requests.push(request)?;
        rest = behind;
    }
    Ok(Some(requests))
}
