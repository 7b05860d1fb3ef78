//! A key that the two ends share (RFC 8945, 4.2 and 6).
ghost use Rattle.std.specs.Prelude.{◌≡◌, ◌≤◌, length};
ghost use Rattle.dns_name.specs.Labels.{IsWhole, labels_in};
ghost use Rattle.dns_name.specs.Name.{wire_of, is_same};
ghost use Rattle.hmac.specs.Hmac.{keyed, mac_size};
ghost use Rattle.tsig.specs.Keys.{algorithm_name, is_named};

use arrayvec::ArrayVec;
use dns_name::Name;
use hmac::Algorithm;
use std::marker::Model;

/// The most octets of a key's name, so that a reply's header, its question and its TSIG have at most 512 (own).
pub const MAX_KEY_NAME: usize = 128;

/// A key: its name, and its secret with its algorithm. A secret isn't cleared from memory.
#[derive(Drop)]
pub struct Key {
    name: Name,
    algorithm: Name,
    secret: hmac::Key,
}

impl Model for Key {
    ghost use Rattle.std.specs.Prelude.{◌≡◌, ◌≤◌, length};
    ghost use Rattle.dns_name.specs.Name.{wire_of};
    ghost use Rattle.tsig.specs.Keys.{SharedKey, algorithm_name};

    ghost Value = { SharedKey };

    ghost view = { λ a. record { name = a.name; secret = a.secret } };

    ghost invariant = { λ a. (a.algorithm ≡ algorithm_name a.secret.algorithm) × (length (wire_of a.name) ≤ 128) };
}

impl Key {
    /// The key of a name and a secret, by this algorithm.
    pub fn new(name: Name, algorithm: Algorithm, secret: &[u8]) -> Key
        requires { length (wire_of name) ≤ MAX_KEY_NAME }
        ensures { result ≡ record { name = name; secret = keyed algorithm secret.now } }
    {
        Key {
            name,
            algorithm: algorithm_name(algorithm),
            secret: hmac::Key::new(algorithm, secret),
        }
    }

    /// Its name.
    pub fn name(&self) -> &Name
        ensures name { result.now ≡ self.now.name }
        ensures short { length (wire_of result.now) ≤ MAX_KEY_NAME }
    {
        &self.name
    }

    /// Its algorithm's name (RFC 8945, 6).
    pub(crate) fn algorithm(&self) -> &Name
        ensures { result.now ≡ algorithm_name self.now.secret.algorithm }
    {
        &self.algorithm
    }

    /// Its secret.
    pub(crate) fn secret(&self) -> &hmac::Key
        ensures { result.now ≡ self.now.secret }
    {
        &self.secret
    }

    /// Whether it has this name.
    pub(crate) fn has_name(&self, name: &Name) -> bool
        ensures { result ≡ is_same self.now.name name.now }
    {
        self.name == *name
    }

    /// Whether it has this name and this algorithm (RFC 8945, 5.2.1).
    pub(crate) fn is_named(&self, name: &Name, algorithm: &Name) -> bool
        ensures { result ≡ is_named name.now algorithm.now self.now }
    {
        self.name == *name && self.algorithm == *algorithm
    }
}

/// The name of an algorithm (RFC 8945, 6).
fn algorithm_name(algorithm: Algorithm) -> Name
    ensures { result ≡ algorithm_name algorithm }
{
    match algorithm {
        Algorithm::Sha256 => name_of(b"\x0bhmac-sha256\0"),
        Algorithm::Sha384 => name_of(b"\x0bhmac-sha384\0"),
        Algorithm::Sha512 => name_of(b"\x0bhmac-sha512\0"),
    }
}

/// The name of these octets.
fn name_of(octets: &[u8; 13]) -> Name
    requires { IsWhole octets.now }
    ensures { result ≡ labels_in octets.now }
{
    let mut own = ArrayVec::new();
    let _ = own.try_extend_from_slice(octets);
    Name::from_octets(own)
}
