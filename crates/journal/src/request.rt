//! The messages of a request, as a batch has them (own).
ghost use Rattle.std.specs.Prelude.{◌≡◌, ◌-◌, ◌^◌, ◌↔◌, [], ◌∷◌, All, IsTrue, length, min, map, IfOk, MatchOption};
ghost use Rattle.journal.specs.Batch.{first_of, more_of, octets_in, request_octets, IsShort, IsRequest};

use std::alloc::{AllocError, Global};
use std::marker::Model;

/// The most octets of a message: what two octets count (RFC 1035, 4.2.2).
const MOST: usize = 65_535;

/// The messages of a request: one as a rule, and more where one message can't have all of its records. Contracts see their octets.
pub struct RequestMessages {
    first: Vec<u8>,
    more: Vec<Vec<u8>>,
}

impl Drop for RequestMessages {
    fn drop(self) {
        let RequestMessages { first: _, more: _ } = self;
    }
}

impl Model for RequestMessages {
    ghost use Rattle.std.specs.Prelude.{◌∷◌, map};
    ghost use Rattle.journal.specs.Batch.{Messages, IsRequest};

    ghost Value = { Messages };

    ghost view = { λ a. a.first.items ∷ map (λ message. message.items) a.more.items };

    ghost invariant = { λ a. IsRequest (a.first.items ∷ map (λ message. message.items) a.more.items) };
}

/// Whether octets can stand in a batch as a message: there are some, and two octets can count them.
fn is_short(octets: &[u8]) -> bool
    ensures { IsTrue result ↔ IsShort octets.now }
{
    !octets.is_empty() && octets.len() <= MOST
}

/// Whether each of these octets can stand in a batch as a message.
fn are_short(messages: &[Vec<u8>]) -> bool
    ensures { IsTrue result ↔ All IsShort (map (λ message. message.items) messages.now) }
{
    for message in messages {
        if !is_short(message) {
            return false;
        }
    }
    true
}

impl RequestMessages {
    /// A request of one message; None where that has no octets, or more than 65,535.
    pub fn one(alloc: Global, octets: Vec<u8>) -> Option<RequestMessages>
        ensures { MatchOption result (IsShort octets.items → ⊥) (λ request. request ≡ octets.items ∷ []) }
    {
        if !is_short(&octets) {
            return None;
        }
        Some(RequestMessages {
            first: octets,
            more: Vec::new(alloc),
        })
    }

    /// A request of these messages; None where there are none, or one of them has no octets, or more than 65,535.
    pub fn of(messages: Vec<Vec<u8>>) -> Option<RequestMessages>
        ensures { MatchOption result (IsRequest (map (λ message. message.items) messages.items) → ⊥)
            (λ request. request ≡ map (λ message. message.items) messages.items) }
    {
        if messages.is_empty() {
            return None;
        }
        if !are_short(&messages) {
            return None;
        }
        let mut more = messages;
        let first = more.remove(0);
        Some(RequestMessages { first, more })
    }

    /// A request with copies of these messages. It allocates memory.
    pub fn copied(alloc: Global, messages: &[&[u8]]) -> Result<Option<RequestMessages>, AllocError>
        ensures { IfOk result (λ found. MatchOption found (IsRequest (map (λ message. message.now) messages.now) → ⊥)
            (λ request. request ≡ map (λ message. message.now) messages.now)) }
    {
        let mut copies = Vec::with_capacity(alloc, messages.len())?;
        for message in messages {
            copies.push(message.to_vec(alloc)?)?;
        }
        Ok(RequestMessages::of(copies))
    }

    /// A copy of it. It allocates memory.
    pub fn copy(&self, alloc: Global) -> Result<RequestMessages, AllocError>
        ensures { IfOk result (λ copy. copy ≡ self.now) }
    {
        let first = self.first.to_vec(alloc)?;
        let mut more = Vec::new(alloc);
        for message in &self.more {
            more.push(message.to_vec(alloc)?)?;
        }
        Ok(RequestMessages { first, more })
    }

    /// Its first message.
    pub fn first(&self) -> &[u8]
        ensures first { result.now ≡ first_of self.now }
        ensures short { IsShort result.now }
    {
        &self.first
    }

    /// Its further messages.
    pub fn more(&self) -> &[Vec<u8>]
        ensures more { map (λ message. message.items) result.now ≡ more_of self.now }
        ensures short { All IsShort (map (λ message. message.items) result.now) }
    {
        &self.more
    }

    /// Whether it is one message, with these octets.
    pub fn is_one(&self, octets: &[u8]) -> bool
        ensures { IsTrue result ↔ (self.now ≡ octets.now ∷ []) }
    {
        self.more.is_empty() && self.first.as_slice() == octets
    }

    /// How many octets its messages have together, at most 2^64 - 1.
    pub fn octet_count(&self) -> usize
        ensures { result ≡ min (octets_in self.now) (2 ^ 64 - 1) }
    {
        let mut count = self.first.len();
        for message in &self.more {
            count = count.saturating_add(message.len());
        }
        count
    }

    /// How many octets it has in a batch, at most 2^64 - 1: those of its messages, two more for each, and two between two of them.
    pub fn batch_len(&self) -> usize
        ensures { result ≡ min (length (request_octets self.now)) (2 ^ 64 - 1) }
    {
        let lengths = self.more.len().saturating_mul(4).saturating_add(2);
        self.octet_count().saturating_add(lengths)
    }
}
