//! Names that end with the name of their zone twice, as where a final dot was forgotten (RFC 1035, 5.1; RFC 1912, 2.8).
ghost use Rattle.std.specs.Prelude.{◌≡◌, ◌++◌, length, nat_le, Some, None, IfOk, if◌then◌else◌};
ghost use Rattle.dns_name.specs.Name.{wire_of};
ghost use Rattle.zone_warnings.specs.Warnings.{ends_twice, one_ends_twice};

use dns_name::Name;
use std::alloc::{AllocError, Global};

/// A name twice, one after the other; None where that has more than 255 octets. An `Err` only where a growth was refused.
fn doubled(alloc: Global, name: &Name) -> Result<Option<Name>, AllocError>
    ensures { IfOk result (λ both. both
        ≡ (if nat_le (length (wire_of (name.now ++ name.now))) 255 then Some (name.now ++ name.now) else None)) }
{
    let octets = name.wire();
    let mut both = Vec::new(alloc);
    both.extend_from_slice(&octets[..octets.len() - 1])?;
    both.extend_from_slice(octets)?;
    let Some((name, _)) = Name::from_wire(&both) else {
        return Ok(None);
    };
    Ok(Some(name))
}

/// Whether a name ends with the apex of its zone twice. An `Err` only where a growth was refused.
pub(crate) fn ends_twice(alloc: Global, apex: &Name, name: &Name) -> Result<bool, AllocError>
    ensures { IfOk result (λ is. is ≡ ends_twice apex.now name.now) }
{
    if apex.is_root() {
        return Ok(false);
    }
    // What a name keeps is known of both from here on.
    let _wire = name.wire();
    let _apex_wire = apex.wire();
    match doubled(alloc, apex)? {
        Some(both) => Ok(name.is_under(&both)),
        None => Ok(false),
    }
}

/// The same of a name where there is one.
pub(crate) fn one_ends_twice(
    alloc: Global,
    apex: &Name,
    name: Option<Name>,
) -> Result<bool, AllocError>
    ensures { IfOk result (λ is. is ≡ one_ends_twice apex.now name) }
{
    match name {
        Some(name) => ends_twice(alloc, apex, &name),
        None => Ok(false),
    }
}
