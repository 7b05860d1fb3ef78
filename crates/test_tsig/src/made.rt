//! What the tests are made of.
ghost use Rattle.std.specs.Prelude.{◌≡◌, ◌≤◌, ◌+◌, length};
ghost use Rattle.dns_message.specs.Message.{number_at};

use dns_name::Name;
use hmac::Algorithm;
use std::alloc::Global;
use std::test::Fail;
use tsig::{Key, Keys, MAX_KEY_NAME};

/// A key's secret, in hexadecimal: the octets 0 to 31.
const KEY: &str = "000102030405060708090a0b0c0d0e0f101112131415161718191a1b1c1d1e1f";

/// Another key's: the octets 0 to 63.
const BIG: &str = "\
    000102030405060708090a0b0c0d0e0f101112131415161718191a1b1c1d1e1f\
    202122232425262728292a2b2c2d2e2f303132333435363738393a3b3c3d3e3f";

/// The key of a name as text and a secret in hexadecimal; None where the name is none, or too long.
fn key_of(
    alloc: Global,
    name: &[u8],
    algorithm: Algorithm,
    secret: &str,
) -> Result<Option<Key>, Fail> {
    let secret = hex::decode(alloc, secret)?;
    let Ok(name) = Name::from_text(name, &Name::root()) else {
        return Ok(None);
    };
    if name.wire().len() > MAX_KEY_NAME {
        return Ok(None);
    }
    Ok(Some(Key::new(name, algorithm, &secret)))
}

/// The keys of the messages: one of them in another case than the messages have.
pub(crate) fn keys(alloc: Global) -> Result<Keys, Fail> {
    let mut keys = Keys::new(alloc);
    if let Some(key) = key_of(alloc, b"key.example.test.", Algorithm::Sha256, KEY)? {
        keys.push(key)?;
    }
    if let Some(key) = key_of(alloc, b"big.example.TEST.", Algorithm::Sha512, BIG)? {
        if keys.len() < 2 {
            keys.push(key)?;
        }
    }
    Ok(keys)
}

/// The number of 16 bits at a position.
pub(crate) fn number_at(octets: &[u8], at: usize) -> u16
    requires { at + 2 ≤ length octets.now }
    ensures { result ≡ number_at octets.now at }
{
    u16::from_be_bytes([octets[at], octets[at + 1]])
}
