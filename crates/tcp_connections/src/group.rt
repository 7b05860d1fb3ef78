//! Peers that count as one.
ghost use Rattle.std.specs.Prelude.{◌≡◌};
ghost use Rattle.tcp_connections.specs.Group.{IsGroupOf, is_same, is_group, has_group};

use std::net::IpAddr;

/// Peers that count as one: those at an IPv4 address, or at IPv6 addresses whose first 64 bits are the same (own).
#[derive(Clone, Copy, Debug)]
pub enum PeerGroup {
    /// The number of an IPv4 address.
    V4(u32),
    /// The first 64 bits of an IPv6 address.
    V6(u64),
}

impl PeerGroup {
    /// The group of the peers at an address. An IPv4-mapped IPv6 address stands for its IPv4 address (RFC 4291, 2.5.5.2).
    pub fn of(address: IpAddr) -> PeerGroup
        ensures { IsGroupOf address result }
    {
        match address.to_canonical() {
            IpAddr::V4(own) => PeerGroup::V4(own.to_bits()),
            IpAddr::V6(own) => PeerGroup::V6((own.to_bits() >> 64) as u64),
        }
    }

    /// Whether another group is the same.
    pub fn is_same(self, other: PeerGroup) -> bool
        ensures { result ≡ is_same self other }
    {
        match (self, other) {
            (PeerGroup::V4(own), PeerGroup::V4(other)) => own == other,
            (PeerGroup::V6(own), PeerGroup::V6(other)) => own == other,
            (PeerGroup::V4(_), PeerGroup::V6(_)) => false,
            (PeerGroup::V6(_), PeerGroup::V4(_)) => false,
        }
    }
}

/// Whether there is a group, and it is this one.
pub(crate) fn is_group(found: Option<PeerGroup>, group: PeerGroup) -> bool
    ensures { result ≡ is_group group found }
{
    match found {
        Some(own) => own.is_same(group),
        None => false,
    }
}

/// At most three groups.
#[derive(Clone, Copy, Debug)]
pub(crate) struct Groups {
    /// One of them.
    pub first: Option<PeerGroup>,
    /// Another one.
    pub second: Option<PeerGroup>,
    /// A third one.
    pub third: Option<PeerGroup>,
}

impl Groups {
    /// A single group.
    pub fn one(group: PeerGroup) -> Groups
        ensures { (other : PeerGroup) → has_group result other ≡ is_same group other }
    {
        Groups {
            first: Some(group),
            second: None,
            third: None,
        }
    }

    /// Whether a group is one of them.
    pub fn has(&self, group: PeerGroup) -> bool
        ensures { result ≡ has_group self.now group }
    {
        is_group(self.first, group) || is_group(self.second, group) || is_group(self.third, group)
    }
}
