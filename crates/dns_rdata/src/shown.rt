//! Sets as a section of an answer shows them.
use crate::lent::LentName;
use crate::numbers::Ttl;
use crate::rrset::RRset;

/// Consecutive sets, shown under one owner, and with one TTL in place of their own where it is given. An answer from
/// a wildcard shows the owner searched (RFC 1034, 4.3.3), and a negative one the lesser TTL (RFC 2308, 3).
#[derive(Drop)]
pub struct Shown<'a> {
    /// The owner under which each record is shown.
    pub owner: LentName<'a>,
    /// The TTL that each record is shown with; its own where this is None.
    pub ttl: Option<Ttl>,
    /// The sets, in the order shown.
    pub sets: &'a [RRset],
}

impl Default for Shown<'_> {
    ghost use Rattle.std.specs.Prelude.{◌≡◌, [], None};
    ghost use Rattle.dns_rdata.specs.Shown.{records_shown};

    ghost is_default = { λ shown. (shown.owner ≡ []) × (shown.ttl ≡ None) × (records_shown shown ≡ []) };

    /// No sets, under the root.
    fn default() -> Self {
        Shown {
            owner: LentName::root(),
            ttl: None,
            sets: &[],
        }
    }
}
