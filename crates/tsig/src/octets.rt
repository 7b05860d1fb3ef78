//! Octets of a buffer, written and read at positions.
ghost use Rattle.std.specs.Prelude.{◌≡◌, ◌≤◌, ◌+◌, ◌++◌, length, take, drop};
ghost use Rattle.dns_message.specs.Message.{number_at};

/// The number of 16 bits at a position (RFC 1035, 2.3.2).
pub(crate) fn number_at(octets: &[u8], at: usize) -> u16
    requires { at + 2 ≤ length octets.now }
    ensures { result ≡ number_at octets.now at }
{
    u16::from_be_bytes([octets[at], octets[at + 1]])
}

/// Writes octets at a position, in place of as many that stand there, and gives the position behind them.
pub(crate) fn put_at(out: &mut [u8], at: usize, octets: &[u8]) -> usize
    requires { at + length octets.now ≤ length out.old }
    ensures next { result ≡ at + length octets.now }
    ensures front { take result out.new ≡ take at out.old ++ octets.now }
    ensures behind { drop result out.new ≡ drop result out.old }
{
    overwrite(out, at, octets);
    at + octets.len()
}

/// Writes octets at a position, in place of as many that stand there.
fn overwrite(out: &mut [u8], at: usize, octets: &[u8])
    requires { at + length octets.now ≤ length out.old }
    ensures { out.new ≡ take at out.old ++ octets.now ++ drop (at + length octets.now) out.old }
{
    out[at..at + octets.len()].copy_from_slice(octets);
}
