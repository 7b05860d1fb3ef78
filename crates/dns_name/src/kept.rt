//! Octets as a zone keeps them: few in the value itself, more on the heap.
ghost use Rattle.std.specs.Prelude.{◌≡◌, ◌≤◌, ◌-◌, [], ◌++◌, length, map, take, drop, IfOk, IsOk};
ghost use Rattle.std.specs.Char.{to_ascii_lowercase};
ghost use Rattle.dns_name.specs.Kept.{octets_at};

use std::alloc::{AllocError, Global};
use std::marker::Model;

/// The most octets that lie in the value itself: with them it takes 32, as it does beside a `Vec`.
const MAX_IN_PLACE: usize = 30;

/// Where octets lie.
#[derive(Drop)]
enum Place {
    /// In the value itself: so many, from the front.
    Here(u8, [u8; MAX_IN_PLACE]),
    /// On the heap.
    Heap(Vec<u8>),
}

/// Octets that a zone keeps. Contracts see their list.
#[derive(Drop)]
pub struct KeptOctets {
    place: Place,
}

impl Model for KeptOctets {
    ghost use Rattle.std.specs.Prelude.{ℕ, List};
    ghost use Rattle.dns_name.specs.Kept.{octets_at};

    ghost Value = { List ℕ };

    ghost view = { λ a. octets_at a.place };
}

impl KeptOctets {
    /// The same octets. `AllocError` where a growth was refused, of more than 30 octets alone.
    pub fn new(alloc: Global, octets: &[u8]) -> Result<KeptOctets, AllocError>
        ensures octets { IfOk result (λ kept. kept ≡ octets.now) }
        ensures here { length octets.now ≤ 30 → IsOk result }
    {
        let place = if octets.len() <= MAX_IN_PLACE {
            in_place(octets)
        } else {
            Place::Heap(Vec::from_slice(alloc, octets)?)
        };
        Ok(KeptOctets { place })
    }

    /// No octets.
    pub fn none() -> KeptOctets
        ensures { result ≡ [] }
    {
        KeptOctets {
            place: in_place(&[]),
        }
    }

    /// The same octets, in lower case from one place to another (RFC 4343, 3). `AllocError` where a growth was refused, of
    /// more than 30 octets alone.
    pub fn lowered(
        alloc: Global,
        octets: &[u8],
        from: usize,
        to: usize,
    ) -> Result<KeptOctets, AllocError>
        requires order { from ≤ to }
        requires within { to ≤ length octets.now }
        ensures octets { IfOk result (λ kept. kept ≡ take from octets.now ++ map to_ascii_lowercase (take (to - from) (drop from octets.now)) ++ drop to octets.now) }
        ensures here { length octets.now ≤ 30 → IsOk result }
    {
        let place = if octets.len() <= MAX_IN_PLACE {
            lowered_in_place(octets, from, to)
        } else {
            let mut own = Vec::from_slice(alloc, octets)?;
            lower_between(own.as_mut_slice(), from, to);
            Place::Heap(own)
        };
        Ok(KeptOctets { place })
    }

    /// The same octets once more. `AllocError` where a growth was refused.
    pub fn copy(&self, alloc: Global) -> Result<KeptOctets, AllocError>
        ensures { IfOk result (λ kept. kept ≡ self.now) }
    {
        KeptOctets::new(alloc, self.as_slice())
    }

    /// The octets.
    pub fn as_slice(&self) -> &[u8]
        ensures { result.now ≡ self.now }
    {
        match &self.place {
            Place::Here(len, octets) => first_of(octets, usize::from(*len)),
            Place::Heap(octets) => octets.as_slice(),
        }
    }
}

/// Puts the octets from one place to another in lower case.
fn lower_between(octets: &mut [u8], from: usize, to: usize)
    requires order { from ≤ to }
    requires within { to ≤ length octets.old }
    ensures { octets.new ≡ take from octets.old ++ map to_ascii_lowercase (take (to - from) (drop from octets.old)) ++ drop to octets.old }
{
    for octet in octets[from..to].iter_mut() {
        *octet = octet.to_ascii_lowercase();
    }
}

/// Octets in the value itself.
fn in_place(octets: &[u8]) -> Place
    requires { length octets.now ≤ 30 }
    ensures { octets_at result ≡ octets.now }
{
    let len = octets.len();
    let mut own = [0; MAX_IN_PLACE];
    own[..len].copy_from_slice(octets);
    Place::Here(len as u8, own)
}

/// Octets in the value itself, in lower case from one place to another.
fn lowered_in_place(octets: &[u8], from: usize, to: usize) -> Place
    requires few { length octets.now ≤ 30 }
    requires order { from ≤ to }
    requires within { to ≤ length octets.now }
    ensures { octets_at result ≡ take from octets.now ++ map to_ascii_lowercase (take (to - from) (drop from octets.now)) ++ drop to octets.now }
{
    let len = octets.len();
    let mut own = [0; MAX_IN_PLACE];
    own[..len].copy_from_slice(octets);
    lower_between(&mut own[..len], from, to);
    Place::Here(len as u8, own)
}

/// So many octets from the front, or all where there are fewer.
fn first_of(octets: &[u8; MAX_IN_PLACE], len: usize) -> &[u8]
    ensures { result.now ≡ take len octets.now }
{
    &octets[..len.min(MAX_IN_PLACE)]
}
