//! Copying octets from one buffer to another.
ghost use Rattle.std.specs.Prelude.{◌≡◌, length, take, min};

/// Copies octets to the start of a buffer, as many as fit, at most `most`. Returns the number copied.
pub(crate) fn copy_front(octets: &[u8], most: usize, buf: &mut [u8]) -> usize
    ensures count { result ≡ min most (min (length buf.old) (length octets.now)) }
    ensures copied { take result buf.new ≡ take result octets.now }
{
    let len = most.min(buf.len().min(octets.len()));
    buf[..len].copy_from_slice(&octets[..len]);
    len
}
