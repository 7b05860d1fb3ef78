//! The frames of a journal, read from the first on (own).
ghost use Rattle.std.specs.Prelude.{◌+◌, ◌≤◌, length, map, IfOk};
ghost use Rattle.journal.specs.Frame.{IsRead};

use crate::frame::{SUM, read_frame};
use std::alloc::{AllocError, Global};

/// The bodies of the frames at the start of octets, of the numbers 0, 1 and so on, and the octets after the last of them, which don't begin with
/// a frame of the next number. The number of octets digested is added to `digested`: each one at most once. It allocates memory for references to
/// the bodies; their octets aren't copied.
pub fn read_all<'a>(
    alloc: Global,
    salt: &[u8; SUM],
    digested: &mut u64,
    octets: &'a [u8],
) -> Result<(Vec<&'a [u8]>, &'a [u8]), AllocError>
    ensures read { IfOk result (λ r. IsRead salt.now 0 octets.now (map (λ body. body.now) r.0.items) r.1.now) }
    ensures count { digested.new ≤ digested.old + length octets.now }
{
    let mut bodies = Vec::new(alloc);
    let mut rest = octets;
    while let Some((body, behind)) = read_frame(salt, digested, bodies.len() as u64, rest) {
        bodies.push(body)?;
        rest = behind;
    }
    Ok((bodies, rest))
}
