//! Octets of a type's form, and the same with the names in them in lower case.
ghost use Rattle.std.specs.Prelude.{◌≡◌, ◌≤◌, ◌-◌, ◌++◌, Some, IsSome, IfOk, length, map, take, drop};
ghost use Rattle.std.specs.Char.{to_ascii_lowercase};
ghost use Rattle.std.specs.Option.{is_some};
ghost use Rattle.dns_rdata.specs.Data.{data_of, parts, are_strings};

use crate::layout::Layout;
use crate::numbers::RType;
use dns_name::{KeptOctets, Name};
use std::alloc::{AllocError, Global};

/// Whether octets have a type's form; those of a metatype have none (RFC 1035, 3.3 and 3.4.1; RFC 2782; RFC 3596, 2.2;
/// RFC 3597, 3). It takes no memory.
#[tactic(auto, unfolding(crate::specs::Data::data_of))]
pub(crate) fn has_form(rtype: RType, octets: &[u8]) -> bool
    ensures { result ≡ is_some (data_of rtype.0 octets.now) }
{
    match rtype.layout() {
        None => false,
        Some(
            Layout::Fields {
                front,
                names,
                back,
                ..
            },
        ) => has_parts(octets, front, names, back),
        Some(Layout::Strings) => !octets.is_empty() && holds_strings(octets),
        Some(Layout::Opaque) => true,
    }
}

/// Whether there are so many octets in front, so many names, and so many octets after.
fn has_parts(octets: &[u8], front: usize, names: usize, back: usize) -> bool
    ensures { result ≡ is_some (parts front names back octets.now) }
{
    if octets.len() < front {
        return false;
    }
    let mut rest = &octets[front..];
    for _ in 0..names {
        let Some((_, len)) = Name::from_wire(rest) else {
            return false;
        };
        rest = &rest[len..];
    }
    rest.len() == back
}

/// Whether strings, each a length octet and so many octets, fill the octets (RFC 1035, 3.3).
fn holds_strings(octets: &[u8]) -> bool
    ensures { result ≡ are_strings octets.now }
{
    let mut left = 0;
    for octet in octets {
        left = if left == 0 {
            usize::from(*octet)
        } else {
            left - 1
        };
    }
    left == 0
}

/// Octets of a type's form, with the names in them in lower case: a length octet is below the letters, so that all
/// between the front and the back can be folded (RFC 4034, 6.2).
#[tactic(auto, unfolding(crate::specs::Data::data_of))]
pub(crate) fn lowered(alloc: Global, rtype: RType, octets: &[u8]) -> Result<KeptOctets, AllocError>
    requires { IsSome (data_of rtype.0 octets.now) }
    ensures { IfOk result (λ own. data_of rtype.0 octets.now ≡ Some own) }
{
    match rtype.layout() {
        Some(Layout::Fields { front, back, .. }) => KeptOctets::lowered(
            alloc,
            octets,
            front,
            octets.len() - back,
        ),
        _ => KeptOctets::new(alloc, octets),
    }
}
