//! The records of the update section before any of them has an effect (RFC 2136, 3.4.1).
ghost use Rattle.std.specs.Prelude.{◌≡◌};
ghost use Rattle.std.specs.Result.{result_err};
ghost use Rattle.zone_tree.specs.Zone.{is_wild};
ghost use Rattle.update_core.specs.Verdict.{prescan, prescan_of, first_code, is_recognised};

use dns_message::Update;
use dns_name::Name;
use dns_rdata::{Class, RType, RawRecord, Rcode};
use zone_tree::ZoneRead;

/// Whether each record of the update section may have its effect; else the code of the first rule that it breaks (RFC 2136,
/// 3.4.1; which code each rule gives is a choice of ours). It takes no memory.
pub fn prescan<Z: ZoneRead>(zone: &Z, update: &Update) -> Result<(), Rcode>
    ensures { result_err result ≡ prescan (Z.records zone.now) update.now.updates }
{
    prescan_each(zone, update.updates.as_slice())
}

/// Each record in order (RFC 2136, 3.4.1).
fn prescan_each<Z: ZoneRead>(zone: &Z, raws: &[RawRecord]) -> Result<(), Rcode>
    ensures { result_err result ≡ prescan (Z.records zone.now) raws.now }
{
    for raw in raws {
        prescan_one(zone, raw)?;
    }
    Ok(())
}

/// One record (RFC 2136, 3.4.1).
fn prescan_one<Z: ZoneRead>(zone: &Z, raw: &RawRecord) -> Result<(), Rcode>
    ensures { result_err result ≡ prescan_of (Z.records zone.now) raw.now }
{
    if !raw.owner.is_under(zone.apex()) {
        return Err(Rcode::NotZone);
    }
    let is_bare = raw.ttl == 0 && raw.octets.is_empty();
    match raw.class {
        Class::IN if !raw.rtype.has_data(&raw.octets) => Err(Rcode::FormErr),
        Class::IN if raw.rtype == RType::NS && is_wild(&raw.owner) => Err(Rcode::Refused),
        Class::ANY if !is_bare || !(raw.rtype == RType::ANY || is_recognised(raw.rtype)) => Err(
            Rcode::FormErr,
        ),
        Class::NONE if raw.ttl != 0 || !raw.rtype.has_data(&raw.octets) => Err(Rcode::FormErr),
        Class::IN | Class::ANY | Class::NONE => Ok(()),
        _ => Err(Rcode::FormErr),
    }
}

/// Whether a type is one that records of a zone can have: any but a metatype (RFC 2136, 3.4.1.2; RFC 3597, 3).
fn is_recognised(rtype: RType) -> bool
    ensures { result ≡ is_recognised rtype.0 }
{
    rtype.layout().is_some()
}

/// Whether a name's first label is `*`: its length, and then its octet (RFC 4592, 2.1.1).
fn is_wild(name: &Name) -> bool
    ensures { result ≡ is_wild name.now }
{
    matches!(name.wire(), [1, b'*', ..])
}
