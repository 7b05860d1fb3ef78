//! How many records each set has that is held.
ghost use Rattle.std.specs.Cmp.{partial_equiv_from_equiv, partial_order_from_agreeing_total};
ghost use Rattle.std.specs.Ordering.{as_partial_cmp, eq_by_cmp};
ghost use Rattle.std.specs.Prelude.{◌≡◌, IfOk, refl};
ghost use Rattle.transfer_in.specs.Held.{key_cmp, key_total, key_equiv};

use dns_name::StoredName;
use dns_rdata::RType;
use std::alloc::{AllocError, Global};
use std::cmp::Ordering;
use std::marker::Model;

/// The owner and the type of a set (RFC 2181, 5).
#[derive(Drop)]
pub(crate) struct SetKey {
    owner: StoredName,
    rtype: RType,
}

impl Model for SetKey {
    ghost use Rattle.transfer_in.specs.Held.{SetKey as Key};

    ghost Value = { Key };

    ghost view = { λ a. record { owner = a.owner; rtype = a.rtype.0 } };
}

impl SetKey {
    /// The key of an owner and a type. An `Err` only where a growth was refused.
    pub(crate) fn new(alloc: Global, owner: &StoredName, rtype: RType) -> Result<SetKey, AllocError>
        ensures { IfOk result (λ key. key ≡ record { owner = owner.now; rtype = rtype.0 }) }
    {
        let owner = StoredName::new(alloc, &owner.to_name())?;
        Ok(SetKey { owner, rtype })
    }
}

impl PartialEq for SetKey {
    ghost eq = { eq_by_cmp key_cmp };

    ghost laws = { partial_equiv_from_equiv key_equiv };

    fn eq(&self, other: &SetKey) -> bool {
        self.cmp(other).is_eq()
    }
}

impl Eq for SetKey {
    ghost laws = { key_equiv };
}

impl Ord for SetKey {
    ghost cmp = { key_cmp };

    ghost total = { key_total };

    ghost matches_partial_cmp = { λ _ _. refl };

    ghost matches_eq = { λ _ _. refl };

    fn cmp(&self, other: &SetKey) -> Ordering {
        self.owner
            .cmp(&other.owner)
            .then(self.rtype.0.cmp(&other.rtype.0))
    }
}

impl PartialOrd for SetKey {
    ghost partial_cmp = { as_partial_cmp key_cmp };

    ghost laws = { partial_order_from_agreeing_total key_cmp key_total (λ _ _. refl) (λ _ _. refl) };

    fn partial_cmp(&self, other: &SetKey) -> Option<Ordering> {
        Some(self.cmp(other))
    }
}
