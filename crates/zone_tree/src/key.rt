//! The owners of a zone as the keys of its tree.
ghost use Rattle.std.specs.Cmp.{partial_equiv_from_equiv, partial_order_from_agreeing_total};
ghost use Rattle.std.specs.Ordering.{as_partial_cmp};
ghost use Rattle.std.specs.Prelude.{◌≡◌, IfOk, refl};
ghost use Rattle.dns_name.specs.Front.{name_front};
ghost use Rattle.dns_name.specs.Name.{canonical_cmp, fold_name, is_same, is_under};
ghost use Rattle.dns_name.specs.Order.{canonical_total, is_same_equiv, is_same_tied};
ghost use Rattle.dns_name.proofs.FrontLemmas.{name_lower};

use dns_name::{Name, Sought, SoughtName, StoredName};
use shared_tree::{Front, Seek};
use std::alloc::{AllocError, Global};
use std::cmp::Ordering;
use std::marker::Model;

/// An owner as a key, in lower case and in as many octets as it takes: keys stand in the canonical order of names
/// (RFC 4034, 6.1).
#[derive(Drop)]
pub(crate) struct OwnerKey {
    name: StoredName,
}

impl Model for OwnerKey {
    ghost use Rattle.std.specs.Prelude.{ℕ, List};

    ghost Value = { List (List ℕ) };

    ghost view = { λ key. key.name };
}

impl OwnerKey {
    /// The key of an owner. `AllocError` where a growth was refused.
    pub(crate) fn new(alloc: Global, owner: &Name) -> Result<OwnerKey, AllocError>
        ensures { IfOk result (λ key. key ≡ fold_name owner.now) }
    {
        let name = StoredName::new(alloc, owner)?;
        Ok(OwnerKey { name })
    }

    /// The key of an owner as it is kept, which is moved into it.
    pub(crate) fn of(owner: StoredName) -> OwnerKey
        ensures { result ≡ owner }
    {
        OwnerKey { name: owner }
    }

    /// The key of an owner as a set keeps it. `AllocError` where a growth was refused.
    pub(crate) fn copied(alloc: Global, owner: &StoredName) -> Result<OwnerKey, AllocError>
        ensures { IfOk result (λ key. key ≡ owner.now) }
    {
        let name = owner.copy(alloc)?;
        Ok(OwnerKey { name })
    }

    /// The owner.
    pub(crate) fn owner(&self) -> Name
        ensures { result ≡ self.now }
    {
        self.name.to_name()
    }

    /// The owner as it is kept.
    pub(crate) fn stored(&self) -> &StoredName
        ensures { result.now ≡ self.now }
    {
        &self.name
    }

    /// Whether it is the key of an owner (RFC 4343, 3).
    pub(crate) fn is_of(&self, owner: &StoredName) -> bool
        ensures { result ≡ is_same self.now owner.now }
    {
        self.name == *owner
    }

    /// Whether its owner is a name or below it (RFC 1034, 3.1).
    pub(crate) fn is_under(&self, name: &SoughtName) -> bool
        ensures { result ≡ is_under self.now name.now }
    {
        name.is_above(&self.name)
    }
}

impl Seek<OwnerKey> for SoughtName {
    ghost key = { λ name. name };

    fn cmp_key(&self, other: &OwnerKey) -> Ordering {
        self.order(&other.name)
    }

    fn key_front(&self, base: &OwnerKey) -> u64 {
        self.front(&base.name)
    }
}

impl Seek<OwnerKey> for StoredName {
    ghost key = { λ name. name };

    fn cmp_key(&self, other: &OwnerKey) -> Ordering {
        self.cmp(&other.name)
    }

    fn key_front(&self, base: &OwnerKey) -> u64 {
        self.front(&base.name)
    }
}

impl Front for OwnerKey {
    ghost front = { name_front };

    fn front(&self, base: &OwnerKey) -> u64 {
        self.name.front(&base.name)
    }

    ghost lower = { name_lower };
}

impl<'r> Seek<OwnerKey> for Sought<'r> {
    ghost key = { λ name. name };

    fn cmp_key(&self, other: &OwnerKey) -> Ordering {
        Sought::order(self, &other.name)
    }

    fn key_front(&self, base: &OwnerKey) -> u64 {
        Sought::front(self, &base.name)
    }
}

impl PartialEq for OwnerKey {
    ghost eq = { is_same };

    ghost laws = { partial_equiv_from_equiv is_same_equiv };

    fn eq(&self, other: &OwnerKey) -> bool {
        self.name == other.name
    }
}

impl Eq for OwnerKey {
    ghost laws = { is_same_equiv };
}

impl Ord for OwnerKey {
    ghost cmp = { canonical_cmp };

    ghost total = { canonical_total };

    ghost matches_partial_cmp = { λ _ _. refl };

    ghost matches_eq = { is_same_tied };

    fn cmp(&self, other: &OwnerKey) -> Ordering {
        self.name.cmp(&other.name)
    }
}

impl PartialOrd for OwnerKey {
    ghost partial_cmp = { as_partial_cmp canonical_cmp };

    ghost laws = { partial_order_from_agreeing_total canonical_cmp canonical_total (λ _ _. refl) is_same_tied };

    fn partial_cmp(&self, other: &OwnerKey) -> Option<Ordering> {
        Some(self.cmp(other))
    }
}
