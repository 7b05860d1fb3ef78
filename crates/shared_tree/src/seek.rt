//! What can be sought among keys.
ghost use Rattle.std.specs.Prelude.{◌≡◌};

use crate::front::Front;
use std::cmp::Ordering;

/// A value that stands to each key as some key does, so that it can be sought without that key being made. Contracts see
/// it as that key.
pub trait Seek<K: Front> {
    ghost key: { Self → K };

    /// How that key stands to another.
    fn cmp_key(&self, other: &K) -> Ordering
        ensures { result ≡ K.cmp (key self.now) other.now };

    /// The number that stands before that key.
    fn key_front(&self, base: &K) -> u64
        ensures { result ≡ K.front base.now (key self.now) };
}

impl<K: Front> Seek<K> for K {
    ghost key = { λ key. key };

    fn cmp_key(&self, other: &K) -> Ordering {
        self.cmp(other)
    }

    fn key_front(&self, base: &K) -> u64 {
        self.front(base)
    }
}
