//! Serial number arithmetic of 32 bits (RFC 1982).
ghost use Rattle.std.specs.Prelude.{◌≡◌, ℕ, ◌<◌, ◌^◌, ◌↔◌, true, false};
ghost use Rattle.dns_rdata.specs.SerialOrder.{less_by, sum_by, serial_less, serial_next, serial_distance};

use crate::numbers::Serial;

impl Serial {
    /// Half of the ring: neither of two serials so far apart is less than the other (RFC 1982, 3.2).
    pub const HALF_RING: u32 = 0x8000_0000;

    /// Whether the serial is less than the other: by less than half the ring below it, or more than that above it
    /// (RFC 1982, 3.2).
    pub fn less(self, other: Serial) -> bool
        ensures { result ≡ serial_less self.0 other.0 }
    {
        if self.0 < other.0 {
            other.0 - self.0 < Serial::HALF_RING
        } else {
            self.0 - other.0 > Serial::HALF_RING
        }
    }

    /// The serial after this one; 0 after the greatest number (RFC 1982, 3.1).
    pub fn next(self) -> Serial
        ensures { result.0 ≡ serial_next self.0 }
    {
        Serial(self.0.wrapping_add(1))
    }

    /// How far it is up the ring to another serial: what is added to this one to come to that (RFC 1982, 3.1).
    pub fn distance(self, to: Serial) -> u32
        ensures { result ≡ serial_distance self.0 to.0 }
    {
        to.0.wrapping_sub(self.0)
    }
}

/// The examples of serials of two bits and of eight (RFC 1982, 5.1 and 5.2), and zone serials about the ends of the ring.
pub fn serial_examples()
    ensures two_bits { less_by 2 0 1 ≡ true }
    ensures two_bits_end { less_by 2 3 0 ≡ true }
    ensures two_bits_half { less_by 2 0 2 ≡ false }
    ensures two_bits_half_back { less_by 2 2 0 ≡ false }
    ensures two_bits_sum { sum_by 2 3 1 ≡ 0 }
    ensures sum_one { sum_by 8 255 1 ≡ 0 }
    ensures sum_within { sum_by 8 100 100 ≡ 200 }
    ensures sum_round { sum_by 8 200 100 ≡ 44 }
    ensures one { less_by 8 0 1 ≡ true }
    ensures forty_four { less_by 8 44 100 ≡ true }
    ensures two_hundred { less_by 8 100 200 ≡ true }
    ensures greatest { less_by 8 200 255 ≡ true }
    ensures round { less_by 8 255 0 ≡ true }
    ensures round_far { less_by 8 255 100 ≡ true }
    ensures round_zero { less_by 8 200 0 ≡ true }
    ensures round_forty_four { less_by 8 200 44 ≡ true }
    ensures half { less_by 8 72 200 ≡ false }
    ensures half_back { less_by 8 200 72 ≡ false }
    ensures zone_half { serial_less 1 2147483649 ≡ false }
    ensures zone_under_half { serial_less 1 2147483648 ≡ true }
    ensures zone_over_half { serial_less 2147483650 1 ≡ true }
    ensures zone_end { serial_next 4294967295 ≡ 0 }
    ensures zone_distance { serial_distance 4294967295 2147483646 ≡ 2147483647 }
{}

/// Laws of serials: the next one is greater, and so is each up to just under half the ring ahead; that is all that is greater;
/// neither of two that are half the ring apart is less than the other; none is less than itself, and of two at most one
/// is less than the other (RFC 1982, 3 and 4).
pub fn serials_round_the_ring()
    ensures next { (a : ℕ) → a < 2 ^ 32 → serial_less a (serial_next a) ≡ true }
    ensures sum { (a n : ℕ) → a < 2 ^ 32 → 0 < n → n < 2 ^ 31 → serial_less a (sum_by 32 a n) ≡ true }
    ensures ahead { (a b : ℕ) → a < 2 ^ 32 → b < 2 ^ 32
        → (serial_less a b ≡ true) ↔ ((0 < serial_distance a b) × (serial_distance a b < 2 ^ 31)) }
    ensures distance { (a b : ℕ) → a < 2 ^ 32 → b < 2 ^ 32 → sum_by 32 a (serial_distance a b) ≡ b }
    ensures half { (a b : ℕ) → a < 2 ^ 32 → b < 2 ^ 32 → serial_distance a b ≡ 2 ^ 31
        → (serial_less a b ≡ false) × (serial_less b a ≡ false) }
    ensures itself { (a : ℕ) → serial_less a a ≡ false }
    ensures other { (a b : ℕ) → serial_less a b ≡ true → serial_less b a ≡ false }
{}
