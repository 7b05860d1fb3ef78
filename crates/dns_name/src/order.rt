//! Which names are the same, and their canonical order (RFC 4343, 3; RFC 4034, 6.1).
ghost use Rattle.std.specs.Cmp.{partial_equiv_from_equiv, partial_order_from_agreeing_total};
ghost use Rattle.std.specs.Ordering.{as_partial_cmp};
ghost use Rattle.std.specs.Prelude.{◌≡◌, refl};
ghost use Rattle.dns_name.specs.Labels.{labels_in, IsWhole};
ghost use Rattle.dns_name.specs.Name.{IsName, canonical_cmp, is_same};
ghost use Rattle.dns_name.specs.Order.{canonical_total, is_same_equiv, is_same_tied};

use crate::name::Name;
use std::cmp::Ordering;

impl Name {
    /// Whether the octets, labels after their lengths up to a zero octet, are those of this name, without regard to case (RFC 4343, 3).
    pub fn is_spelt_by(&self, wire: &[u8]) -> bool
        requires whole { IsWhole wire.now }
        requires lawful { IsName (labels_in wire.now) }
        ensures { result ≡ is_same (labels_in wire.now) self.now }
    {
        wire.eq_ignore_ascii_case(self.wire())
    }
}

impl PartialEq for Name {
    ghost eq = { is_same };

    ghost laws = { partial_equiv_from_equiv is_same_equiv };

    fn eq(&self, other: &Name) -> bool {
        self.wire().eq_ignore_ascii_case(other.wire())
    }
}

impl Eq for Name {
    ghost laws = { is_same_equiv };
}

impl Ord for Name {
    ghost cmp = { canonical_cmp };

    ghost total = { canonical_total };

    ghost matches_partial_cmp = { λ _ _. refl };

    ghost matches_eq = { is_same_tied };

    fn cmp(&self, other: &Name) -> Ordering {
        self.order(other)
    }
}

impl PartialOrd for Name {
    ghost partial_cmp = { as_partial_cmp canonical_cmp };

    ghost laws = { partial_order_from_agreeing_total canonical_cmp canonical_total (λ _ _. refl) is_same_tied };

    fn partial_cmp(&self, other: &Name) -> Option<Ordering> {
        Some(self.cmp(other))
    }
}
