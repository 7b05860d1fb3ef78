//! Owners as the keys of a map, in an order that costs little to tell (own).
ghost use Rattle.std.specs.Cmp.{partial_equiv_from_equiv, partial_order_from_agreeing_total};
ghost use Rattle.std.specs.Ordering.{as_partial_cmp};
ghost use Rattle.std.specs.Prelude.{◌≡◌, refl};
ghost use Rattle.dns_name.specs.Name.{is_same};
ghost use Rattle.dns_name.specs.Order.{is_same_equiv};
ghost use Rattle.update_core.specs.Tagged.{tag_from, tagged_cmp, tagged_total, same_tied};

use dns_name::StoredName;
use std::cmp::Ordering;
use std::marker::Model;

/// An owner as a zone keeps it, after a number that its octets make: where two numbers differ, the names needn't be compared.
/// Contracts see the name.
#[derive(Drop)]
pub(crate) struct TaggedName {
    tag: u64,
    name: StoredName,
}

impl Model for TaggedName {
    ghost use Rattle.std.specs.Prelude.{◌≡◌, ℕ, List};
    ghost use Rattle.update_core.specs.Tagged.{tag_of};

    ghost Value = { List (List ℕ) };

    ghost view = { λ a. a.name };

    ghost invariant = { λ a. a.tag ≡ tag_of a.name };
}

impl TaggedName {
    /// The name with its number.
    pub(crate) fn new(name: StoredName) -> TaggedName
        ensures { result ≡ name }
    {
        let tag = tag_of(name.octets());
        TaggedName { tag, name }
    }

    /// The name alone.
    pub(crate) fn name(&self) -> &StoredName
        ensures { result.now ≡ self.now }
    {
        &self.name
    }

    /// The name alone, of one that isn't needed again.
    pub(crate) fn into_name(self) -> StoredName
        ensures { result ≡ self }
    {
        let TaggedName { name, .. } = self;
        name
    }
}

/// The number that octets make.
fn tag_of(octets: &[u8]) -> u64
    ensures { result ≡ tag_from 0 octets.now }
{
    let mut tag = 0_u64;
    for octet in octets {
        tag = tag.wrapping_mul(31).wrapping_add(u64::from(*octet));
    }
    tag
}

impl PartialEq for TaggedName {
    ghost eq = { is_same };

    ghost laws = { partial_equiv_from_equiv is_same_equiv };

    fn eq(&self, other: &TaggedName) -> bool {
        self.tag == other.tag && self.name == other.name
    }
}

impl Eq for TaggedName {
    ghost laws = { is_same_equiv };
}

impl Ord for TaggedName {
    ghost cmp = { tagged_cmp };

    ghost total = { tagged_total };

    ghost matches_partial_cmp = { λ _ _. refl };

    ghost matches_eq = { same_tied };

    fn cmp(&self, other: &TaggedName) -> Ordering {
        match self.tag.cmp(&other.tag) {
            Ordering::Equal => self.name.cmp(&other.name),
            unequal => unequal,
        }
    }
}

impl PartialOrd for TaggedName {
    ghost partial_cmp = { as_partial_cmp tagged_cmp };

    ghost laws = { partial_order_from_agreeing_total tagged_cmp tagged_total (λ _ _. refl) same_tied };

    fn partial_cmp(&self, other: &TaggedName) -> Option<Ordering> {
        Some(self.cmp(other))
    }
}
