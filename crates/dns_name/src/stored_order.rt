//! Which stored names are the same, and their canonical order (RFC 4343, 3; RFC 4034, 6.1).
ghost use Rattle.std.specs.Cmp.{partial_equiv_from_equiv, partial_order_from_agreeing_total};
ghost use Rattle.std.specs.Ordering.{as_partial_cmp};
ghost use Rattle.std.specs.Prelude.{refl};
ghost use Rattle.dns_name.specs.Name.{canonical_cmp, is_same};
ghost use Rattle.dns_name.specs.Order.{canonical_total, is_same_equiv, is_same_tied};

use crate::stored::StoredName;
use std::cmp::Ordering;

impl PartialEq for StoredName {
    ghost eq = { is_same };

    ghost laws = { partial_equiv_from_equiv is_same_equiv };

    fn eq(&self, other: &StoredName) -> bool {
        self.octets() == other.octets()
    }
}

impl Eq for StoredName {
    ghost laws = { is_same_equiv };
}

impl Ord for StoredName {
    ghost cmp = { canonical_cmp };

    ghost total = { canonical_total };

    ghost matches_partial_cmp = { λ _ _. refl };

    ghost matches_eq = { is_same_tied };

    fn cmp(&self, other: &StoredName) -> Ordering {
        self.octets().cmp(&other.octets())
    }
}

impl PartialOrd for StoredName {
    ghost partial_cmp = { as_partial_cmp canonical_cmp };

    ghost laws = { partial_order_from_agreeing_total canonical_cmp canonical_total (λ _ _. refl) is_same_tied };

    fn partial_cmp(&self, other: &StoredName) -> Option<Ordering> {
        Some(self.cmp(other))
    }
}
