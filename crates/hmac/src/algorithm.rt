//! The hash functions that a MAC is made by (RFC 8945, 6).
ghost use Rattle.std.specs.Prelude.{◌≡◌, ◌≤◌};
ghost use Rattle.hmac.specs.Hmac.{block_size, mac_size};

use crate::key::MAX_MAC;

/// A hash function that a MAC is made by (FIPS 180-4).
#[derive(Clone, Copy, Debug, PartialEq, Eq)]
pub enum Algorithm {
    /// SHA-256.
    Sha256,
    /// SHA-384.
    Sha384,
    /// SHA-512.
    Sha512,
}

impl Algorithm {
    /// How many octets a MAC has: as many as a digest (RFC 2104, 2).
    pub fn mac_size(self) -> usize
        ensures size { result ≡ mac_size self }
        ensures most { result ≤ MAX_MAC }
    {
        match self {
            Algorithm::Sha256 => 32,
            Algorithm::Sha384 => 48,
            Algorithm::Sha512 => 64,
        }
    }

    /// How many octets a block has (RFC 2104, 2; FIPS 180-4, 1).
    pub(crate) fn block_size(self) -> usize
        ensures { result ≡ block_size self }
    {
        match self {
            Algorithm::Sha256 => 64,
            Algorithm::Sha384 => 128,
            Algorithm::Sha512 => 128,
        }
    }
}
