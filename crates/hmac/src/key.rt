//! Keys, and MACs under way (RFC 2104, 2 and 4).
ghost use Rattle.std.specs.Prelude.{◌≡◌, ◌≤◌, ◌++◌, ℕ, List, [], length};
ghost use Rattle.hmac.specs.Hmac.{Keyed, keyed, block_of, filled, under_pad, mac_size, block_size, hmac_by};
ghost use Rattle.hmac.specs.Macs.{IsMac};

use crate::algorithm::Algorithm;
use crate::hasher::Hasher;
use arrayvec::ArrayVec;
use std::marker::Model;

/// The most octets of a block (FIPS 180-4, 1).
pub(crate) const MAX_BLOCK: usize = 128;

/// The most octets of a MAC (FIPS 180-4, 1).
pub const MAX_MAC: usize = 64;

/// ipad, octet by octet (RFC 2104, 2).
const IPAD: u8 = 0x36;

/// opad, octet by octet (RFC 2104, 2).
const OPAD: u8 = 0x5C;

/// A secret, taken in: its block, and the states of the two hashers after that under the pads (RFC 2104, 4). Contracts see its hash function and its block.
#[derive(Drop)]
pub struct Key {
    block: ArrayVec<u8, MAX_BLOCK>,
    inner: Hasher,
    outer: Hasher,
}

impl Model for Key {
    ghost use Rattle.std.specs.Prelude.{◌≡◌};
    ghost use Rattle.hmac.specs.Hmac.{Keyed, under_pad, ipad, opad};
    ghost use Rattle.hmac.specs.Hashers.{algorithm_of, Holds};

    ghost Value = { Keyed };

    ghost view = { λ a. record { algorithm = algorithm_of a.inner; block = a.block.items } };

    ghost invariant = { λ a. (algorithm_of a.outer ≡ algorithm_of a.inner) × Holds a.inner (under_pad ipad a.block.items) × Holds a.outer (under_pad opad a.block.items) };
}

/// A MAC under way.
#[derive(Drop)]
pub struct Mac {
    inner: Hasher,
    outer: Hasher,
}

impl Key {
    /// The key of a secret.
    pub fn new(algorithm: Algorithm, secret: &[u8]) -> Key
        ensures { result ≡ keyed algorithm secret.now }
    {
        let block = block_of(algorithm, secret);
        let inner = Hasher::of(algorithm, &under_pad(&block, IPAD));
        let outer = Hasher::of(algorithm, &under_pad(&block, OPAD));
        Key {
            block,
            inner,
            outer,
        }
    }

    /// How many octets its MACs have (RFC 2104, 2).
    pub fn mac_size(&self) -> usize
        ensures size { result ≡ mac_size self.now.algorithm }
        ensures most { result ≤ MAX_MAC }
    {
        self.inner.algorithm().mac_size()
    }

    /// A MAC of no text yet.
    #[tactic(auto, unfolding(crate::specs::Macs::IsMac))]
    pub fn begin(&self) -> Mac
        ensures { IsMac result self.now [] }
    {
        Mac {
            inner: self.inner.copy(),
            outer: self.outer.copy(),
        }
    }

    /// The MAC of two texts, one after the other.
    pub fn mac_of(&self, front: &[u8], text: &[u8]) -> ArrayVec<u8, MAX_MAC>
        ensures { result.items ≡ hmac_by self.now (front.now ++ text.now) }
    {
        let mut mac = self.begin();
        mac.add(front);
        mac.add(text);
        mac.finish()
    }
}

impl Mac {
    /// Adds octets to the text.
    #[tactic(auto, unfolding(crate::specs::Macs::IsMac))]
    pub fn add(&mut self, octets: &[u8])
        ensures { (key : Keyed) (text : List ℕ) → IsMac self.old key text → IsMac self.new key (text ++ octets.now) }
    {
        self.inner.add(octets);
    }

    /// The MAC of the text.
    #[tactic(auto, unfolding(crate::specs::Macs::IsMac, crate::specs::Hmac::hmac_by))]
    pub fn finish(self) -> ArrayVec<u8, MAX_MAC>
        ensures mac { (key : Keyed) (text : List ℕ) → IsMac self key text → result.items ≡ hmac_by key text }
        ensures size { (key : Keyed) (text : List ℕ) → IsMac self key text → length result.items ≡ mac_size key.algorithm }
    {
        let sum = self.inner.finish();
        let mut outer = self.outer;
        outer.add(&sum);
        outer.finish()
    }
}

/// A secret as a block.
fn block_of(algorithm: Algorithm, secret: &[u8]) -> ArrayVec<u8, MAX_BLOCK>
    ensures { result.items ≡ block_of algorithm secret.now }
{
    if secret.len() > algorithm.block_size() {
        let sum = Hasher::of(algorithm, secret).finish();
        return filled(algorithm, &sum);
    }
    filled(algorithm, secret)
}

/// Octets, filled up to a block by zeros.
fn filled(algorithm: Algorithm, octets: &[u8]) -> ArrayVec<u8, MAX_BLOCK>
    requires { length octets.now ≤ block_size algorithm }
    ensures { result.items ≡ filled algorithm octets.now }
{
    let mut out = ArrayVec::new();
    let _ = out.try_extend_from_slice(octets);
    for _ in octets.len()..algorithm.block_size() {
        out.push(0);
    }
    out
}

/// A block, octet by octet under a pad.
fn under_pad(block: &ArrayVec<u8, MAX_BLOCK>, pad: u8) -> ArrayVec<u8, MAX_BLOCK>
    ensures { result.items ≡ under_pad pad block.now.items }
{
    let mut out = ArrayVec::new();
    for octet in block.as_slice() {
        out.push(*octet ^ pad);
    }
    out
}
