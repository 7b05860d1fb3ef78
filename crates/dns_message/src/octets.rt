//! Octets written one after another into a buffer.
ghost use Rattle.std.specs.Prelude.{◌≡◌, ◌+◌, ◌≤◌, ◌++◌, length, take, drop};
ghost use Rattle.std.specs.Int.{to_be_bytes, w16, w32};
ghost use Rattle.wire_names.specs.Written.{WritesOctets};

/// Writes octets at a position: the position after them, or None where they don't fit.
pub(crate) fn put(out: &mut [u8], at: usize, octets: &[u8]) -> Option<usize>
    ensures { WritesOctets out.old out.new at octets.now result }
{
    let next = at.checked_add(octets.len())?;
    if next > out.len() {
        return None;
    }
    out[at..next].copy_from_slice(octets);
    Some(next)
}

/// Writes a number of 16 bits at a position, as [`put`] does (RFC 1035, 2.3.2).
pub(crate) fn put_u16(out: &mut [u8], at: usize, number: u16) -> Option<usize>
    ensures { WritesOctets out.old out.new at (to_be_bytes w16 number) result }
{
    put(out, at, &number.to_be_bytes())
}

/// Writes a number of 32 bits at a position, as [`put`] does (RFC 1035, 2.3.2).
pub(crate) fn put_u32(out: &mut [u8], at: usize, number: u32) -> Option<usize>
    ensures { WritesOctets out.old out.new at (to_be_bytes w32 number) result }
{
    put(out, at, &number.to_be_bytes())
}

/// WritesOctets a number of 16 bits in place of the two octets at a position.
pub(crate) fn set_u16(out: &mut [u8], at: usize, number: u16)
    requires { at + 2 ≤ length out.old }
    ensures { out.new ≡ take at out.old ++ to_be_bytes w16 number ++ drop (at + 2) out.old }
{
    out[at..at + 2].copy_from_slice(&number.to_be_bytes());
}
