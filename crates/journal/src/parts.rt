//! Numbers and octets at the start of others, and the octets after them.
ghost use Rattle.std.specs.Prelude.{◌≡◌, ◌+◌, ◌^◌, ◌<◌, ◌++◌, length, MatchOption};
ghost use Rattle.std.specs.Int.{w16, w32, w64, to_be_bytes};

/// The first so many octets, and those after them; None where there are fewer.
pub(crate) fn first_part<const N: usize>(octets: &[u8]) -> Option<(&[u8; N], &[u8])>
    ensures { MatchOption result (length octets.now < N)
        (λ r. (octets.now ≡ r.0.now ++ r.1.now) × (length r.0.now ≡ N) × (length octets.now ≡ N + length r.1.now)) }
{
    octets.split_first_chunk::<N>()
}

/// The number of 16 bits at the start of octets, its high octet first, and the octets after it; None where there are fewer than two.
pub(crate) fn first_u16(octets: &[u8]) -> Option<(u16, &[u8])>
    ensures { MatchOption result (length octets.now < 2)
        (λ r. (octets.now ≡ to_be_bytes w16 r.0 ++ r.1.now) × (length octets.now ≡ 2 + length r.1.now) × (r.0 < 2 ^ 16)) }
{
    let (part, rest) = first_part::<2>(octets)?;
    Some((u16::from_be_bytes(*part), rest))
}

/// The number of 32 bits, likewise; None where there are fewer than four.
pub(crate) fn first_u32(octets: &[u8]) -> Option<(u32, &[u8])>
    ensures { MatchOption result (length octets.now < 4)
        (λ r. (octets.now ≡ to_be_bytes w32 r.0 ++ r.1.now) × (length octets.now ≡ 4 + length r.1.now) × (r.0 < 2 ^ 32)) }
{
    let (part, rest) = first_part::<4>(octets)?;
    Some((u32::from_be_bytes(*part), rest))
}

/// The number of 64 bits, likewise; None where there are fewer than eight.
pub(crate) fn first_u64(octets: &[u8]) -> Option<(u64, &[u8])>
    ensures { MatchOption result (length octets.now < 8)
        (λ r. (octets.now ≡ to_be_bytes w64 r.0 ++ r.1.now) × (length octets.now ≡ 8 + length r.1.now) × (r.0 < 2 ^ 64)) }
{
    let (part, rest) = first_part::<8>(octets)?;
    Some((u64::from_be_bytes(*part), rest))
}
