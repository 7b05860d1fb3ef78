//! The number that stands before a key.
ghost use Rattle.std.specs.Prelude.{◌≡◌, ◌<◌, ℕ, None, Some, IfOk};
ghost use Rattle.std.specs.Cmp.{nat_cmp_is};
ghost use Rattle.std.specs.declared.cmp.Ordering.TheVariants.{Less};
ghost use Rattle.std.proofs.Common.{sym};
ghost use Rattle.shared_tree.specs.Fronts.{front_at};

use crate::fault::NoMemory;
use crate::seek::Seek;
use std::alloc::{AllocError, Global};
use std::marker::Model;
use std::sync::Arc;

/// A key before which a number stands. A tree keeps the numbers on the ways down, so that most often no key needs to be looked
/// at there. The number is told by what the keys begin with, as the owners of a zone do with its apex: `base` is a key that begins
/// so. Where two numbers differ, their keys stand to each other as they do.
pub trait Front: Ord {
    ghost front: { Self → Self → ℕ };

    /// The number that stands before the key among those that begin as `base` does.
    fn front(&self, base: &Self) -> u64
        ensures { result ≡ front base.now self.now };

    ghost lower: { (base key other : Self) → front base key < front base other → Self.cmp key other ≡ Less };
}

impl Front for u32 {
    ghost front = { λ _ key. key };

    /// The number itself.
    fn front(&self, _base: &u32) -> u64 {
        u64::from(*self)
    }

    ghost lower = { λ _ key other less. sym (nat_cmp_is key other Less less) };
}

/// What a tree's keys begin with, where that is said. Contracts see a key that begins so.
#[derive(Drop)]
pub(crate) struct Base<K> {
    key: Option<Arc<K>>,
}

impl<K> Model for Base<K> {
    ghost use Rattle.std.specs.Prelude.{Option};
    ghost use Rattle.std.specs.Option.{option_map};

    ghost Value = { Option K };

    ghost view = { λ base. option_map (λ key. key.value) base.key };
}

impl<K: Drop> Base<K> {
    /// As a key begins. `NoMemory` where memory is refused.
    pub(crate) fn new(alloc: Global, key: K) -> Result<Base<K>, NoMemory>
        ensures { IfOk result (λ base. base ≡ Some key) }
    {
        let key = Arc::new(alloc, key).map_err(AllocError::from)?;
        Ok(Base { key: Some(key) })
    }
}

impl<K> Base<K> {
    /// Nothing is said.
    pub(crate) fn unsaid() -> Base<K>
        ensures { result ≡ None }
    {
        Base { key: None }
    }

    /// The same once more. `NoMemory` where the count of its owners is full.
    pub(crate) fn share(&self) -> Result<Base<K>, NoMemory>
        ensures { IfOk result (λ base. base ≡ self.now) }
    {
        match &self.key {
            None => Ok(Base { key: None }),
            Some(key) => {
                let key = Arc::try_clone(key)?;
                Ok(Base { key: Some(key) })
            }
        }
    }
}

impl<K: Front> Base<K> {
    /// The number that stands before a sought key: 0 where nothing is said.
    pub(crate) fn front_of<Q: Seek<K>>(&self, sought: &Q) -> u64
        ensures { result ≡ front_at K.front self.now (Q.key sought.now) }
    {
        match &self.key {
            None => 0,
            Some(base) => sought.key_front(base),
        }
    }
}
