//! The keys of a server (RFC 8945, 5.2.1).
ghost use Rattle.std.specs.Prelude.{◌≡◌, ◌<◌, ◌↔◌, [], ◌∷◌, ◌++◌, length, slice_get, IsTrue, IfSome, OnOk, OnErr};
ghost use Rattle.std.specs.Option.{option_copied};
ghost use Rattle.tsig.specs.Keys.{index_of, index_named};

use crate::key::Key;
use dns_name::Name;
use std::alloc::{AllocError, Global};
use std::marker::Model;

/// The most keys (own).
pub const MAX_KEYS: usize = 256;

/// The keys of a server. Of two of one name and one algorithm the first counts.
#[derive(Drop)]
pub struct Keys {
    keys: Vec<Key>,
}

impl Model for Keys {
    ghost use Rattle.std.specs.Prelude.{List, ◌≤◌, length};
    ghost use Rattle.tsig.specs.Keys.{SharedKey};

    ghost Value = { List SharedKey };

    ghost view = { λ a. a.keys.items };

    ghost invariant = { λ a. length a.keys.items ≤ 256 };
}

impl Keys {
    /// No key.
    pub fn new(alloc: Global) -> Keys
        ensures { result ≡ [] }
    {
        Keys {
            keys: Vec::new(alloc),
        }
    }

    /// How many there are.
    pub fn len(&self) -> usize
        ensures { result ≡ length self.now }
    {
        self.keys.len()
    }

    /// Whether there is none.
    pub fn is_empty(&self) -> bool
        ensures { IsTrue result ↔ (self.now ≡ []) }
    {
        self.keys.is_empty()
    }

    /// Puts a key behind the others. An error where memory is refused.
    pub fn push(&mut self, key: Key) -> Result<(), AllocError>
        requires { length self.old < MAX_KEYS }
        ensures ok { OnOk result (self.new ≡ self.old ++ key ∷ []) }
        ensures err { OnErr result (self.new ≡ self.old) }
    {
        self.keys.push(key)?;
        Ok(())
    }

    /// The key at an index; None where there is none.
    pub fn get(&self, index: u16) -> Option<&Key>
        ensures { option_copied result ≡ slice_get self.now index }
    {
        self.keys.get(usize::from(index))
    }

    /// The index of the first key of this name; None where there is none.
    pub fn index_named(&self, name: &Name) -> Option<u16>
        ensures { result ≡ index_named name.now self.now }
    {
        let index = position_named(&self.keys, name)?;
        Some(index as u16)
    }

    /// The index of the first key of this name and this algorithm; None where there is none (RFC 8945, 5.2.1).
    pub(crate) fn index_of(&self, name: &Name, algorithm: &Name) -> Option<u16>
        ensures { result ≡ index_of name.now algorithm.now self.now }
    {
        let index = position_of(&self.keys, name, algorithm)?;
        Some(index as u16)
    }
}

/// The index of the first of some keys of this name; None where there is none.
fn position_named(keys: &[Key], name: &Name) -> Option<usize>
    ensures index { result ≡ index_named name.now keys.now }
    ensures within { IfSome result (λ index. index < length keys.now) }
{
    keys.iter().position(|key| key.has_name(name))
}

/// The index of the first of some keys of this name and this algorithm; None where there is none.
fn position_of(keys: &[Key], name: &Name, algorithm: &Name) -> Option<usize>
    ensures index { result ≡ index_of name.now algorithm.now keys.now }
    ensures within { IfSome result (λ index. index < length keys.now) }
{
    keys.iter().position(|key| key.is_named(name, algorithm))
}
