//! A hasher of one of the hash functions.
ghost use Rattle.std.specs.Prelude.{◌≡◌, ◌≤◌, ◌++◌, ℕ, List, [], length};
ghost use Rattle.hmac.specs.Hmac.{hash, mac_size};
ghost use Rattle.hmac.specs.Hashers.{algorithm_of, Holds};

use crate::algorithm::Algorithm;
use crate::key::MAX_MAC;
use arrayvec::ArrayVec;
use sha2::{Digest, Sha256, Sha384, Sha512};

/// A hasher under way.
#[derive(Drop)]
pub(crate) enum Hasher {
    /// Of SHA-256.
    Of256(Sha256),
    /// Of SHA-384.
    Of384(Sha384),
    /// Of SHA-512.
    Of512(Sha512),
}

impl Hasher {
    /// A hasher of this text.
    pub(crate) fn of(algorithm: Algorithm, text: &[u8]) -> Hasher
        ensures algorithm { algorithm_of result ≡ algorithm }
        ensures text { Holds result text.now }
    {
        match algorithm {
            Algorithm::Sha256 => Hasher::Of256(Sha256::new_with_prefix(text)),
            Algorithm::Sha384 => Hasher::Of384(Sha384::new_with_prefix(text)),
            Algorithm::Sha512 => Hasher::Of512(Sha512::new_with_prefix(text)),
        }
    }

    /// Its hash function.
    pub(crate) fn algorithm(&self) -> Algorithm
        ensures { result ≡ algorithm_of self.now }
    {
        match self {
            Hasher::Of256(_) => Algorithm::Sha256,
            Hasher::Of384(_) => Algorithm::Sha384,
            Hasher::Of512(_) => Algorithm::Sha512,
        }
    }

    /// The same hasher, of the same text.
    pub(crate) fn copy(&self) -> Hasher
        ensures { result ≡ self.now }
    {
        match self {
            Hasher::Of256(hasher) => Hasher::Of256(hasher.clone().unwrap()),
            Hasher::Of384(hasher) => Hasher::Of384(hasher.clone().unwrap()),
            Hasher::Of512(hasher) => Hasher::Of512(hasher.clone().unwrap()),
        }
    }

    /// Adds octets to the text.
    pub(crate) fn add(&mut self, octets: &[u8])
        ensures algorithm { algorithm_of self.new ≡ algorithm_of self.old }
        ensures text { (text : List ℕ) → Holds self.old text → Holds self.new (text ++ octets.now) }
    {
        match self {
            Hasher::Of256(hasher) => hasher.update(octets),
            Hasher::Of384(hasher) => hasher.update(octets),
            Hasher::Of512(hasher) => hasher.update(octets),
        }
    }

    /// The digest of the text.
    pub(crate) fn finish(self) -> ArrayVec<u8, MAX_MAC>
        ensures size { length result.items ≡ mac_size (algorithm_of self) }
        ensures digest { (text : List ℕ) → Holds self text → result.items ≡ hash (algorithm_of self) text }
    {
        match self {
            Hasher::Of256(hasher) => octets_of(&hasher.finalize()),
            Hasher::Of384(hasher) => octets_of(&hasher.finalize()),
            Hasher::Of512(hasher) => octets_of(&hasher.finalize()),
        }
    }
}

/// The octets of a digest.
fn octets_of(digest: &[u8]) -> ArrayVec<u8, MAX_MAC>
    requires { length digest.now ≤ MAX_MAC }
    ensures { result.items ≡ digest.now }
{
    let mut octets = ArrayVec::new();
    let _ = octets.try_extend_from_slice(digest);
    octets
}
