//! The addresses that begin with the same bits.
ghost use Rattle.std.specs.Prelude.{◌≤◌};

/// The addresses that begin with the same bits (RFC 4632, 3.1; RFC 4291, 2.3).
#[derive(Clone, Copy, Debug, PartialEq, Eq)]
pub struct Prefix {
    /// The first of them, as a number of 128 bits. An IPv4 address is that of its IPv4-mapped IPv6 address (RFC 4291, 2.5.5.2).
    pub bits: u128,
    /// The number of bits, of 128, that they begin with.
    pub length: u8,
    ghost within: { length ≤ 128 },
}
