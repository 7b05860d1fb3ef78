//! Pseudorandom numbers.

/// Pseudorandom numbers: Knuth's generator of 64 bits (The Art of Computer Programming, 3.3.4), of which the high bits are used.
#[derive(Drop)]
pub(crate) struct Random(pub(crate) u64);

impl Random {
    /// A number below `most`; 0 if `most` is 0.
    pub(crate) fn below(&mut self, most: u64) -> u64 {
        self.0 = self
            .0
            .wrapping_mul(6_364_136_223_846_793_005)
            .wrapping_add(1_442_695_040_888_963_407);
        if most == 0 { 0 } else { (self.0 >> 33) % most }
    }
}
