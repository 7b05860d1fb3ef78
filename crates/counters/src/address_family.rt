//! Families of addresses.
ghost use Rattle.std.specs.Prelude.{◌≡◌, ◌<◌};
ghost use Rattle.counters.specs.AddressFamilies.{address_family_index, address_family_word};

/// The family of a peer's address.
#[derive(Clone, Copy, PartialEq, Eq)]
pub enum AddressFamily {
    /// IPv4.
    V4,
    /// IPv6.
    V6,
}

impl AddressFamily {
    /// All, in the order of their places.
    pub const ALL: [AddressFamily; 2] = [AddressFamily::V4, AddressFamily::V6];

    /// Its word in a label.
    pub fn word(self) -> &'static str
        ensures { result.now ≡ address_family_word self }
    {
        match self {
            AddressFamily::V4 => "4",
            AddressFamily::V6 => "6",
        }
    }

    /// Its place among all.
    #[inline(always)]
    pub fn index(self) -> usize
        ensures place { result ≡ address_family_index self }
        ensures within { result < 2 }
    {
        match self {
            AddressFamily::V4 => 0,
            AddressFamily::V6 => 1,
        }
    }
}
