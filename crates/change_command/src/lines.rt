//! The records that go and come, one per line.
ghost use Rattle.std.specs.Prelude.{◌≡◌, ◌++◌, ◌↔◌, false, flat_map, string_bytes, codes, IfOk, OnOk};
ghost use Rattle.std.specs.Result.{IsErrOf};
ghost use Rattle.dns_name.specs.Name.{is_same};
ghost use Rattle.zone_tree.specs.Sets.{records_in};
ghost use Rattle.zone_tree.specs.Zone.{apex_of, soa_of};
ghost use Rattle.change_command.specs.ChangeText.{signed_line, change_text};

use dns_name::Name;
use dns_rdata::{RData, RRset, Ttl};
use record_text::{write_data, write_type};
use std::alloc::{AllocError, Global};
use zone_change::{ChangeFault, ZoneChange, change_between};
use zone_tree::{Zone, ZoneRead};

/// What changes from a zone to another of the same apex: the records that go and then those that come, one per line, after `- ` and `+ `, the SOA
/// first in both. Nothing where nothing changes.
///
/// `OtherApex` where the zones have different apexes, and `NoMemory` where a growth was refused.
pub fn write_change(alloc: Global, old: &Zone, next: &Zone) -> Result<String, ChangeFault>
    ensures text { IfOk result (λ text. string_bytes text ≡ change_text old.now next.now) }
    ensures other { IsErrOf result ChangeFault.OtherApex ↔ (is_same (apex_of old.now) (apex_of next.now) ≡ false) }
    ensures room { IsErrOf result ChangeFault.NoRoom → ⊥ }
    ensures long { IsErrOf result ChangeFault.TooLong → ⊥ }
{
    let Some(change) = change_between(alloc, old, next)? else {
        return Ok(String::new(alloc));
    };
    let mut text = String::new(alloc);
    put_change(&mut text, old, &change)?;
    Ok(text)
}

/// Puts the lines of a change at the end of a text.
fn put_change(text: &mut String, old: &Zone, change: &ZoneChange) -> Result<(), AllocError>
    ensures { OnOk result (string_bytes text.new ≡ string_bytes text.old
        ++ (flat_map (signed_line (codes "- ")) (soa_of old.now ++ change.now.delta.deletions) ++ flat_map (signed_line (codes "+ ")) (change.now.soa ++ change.now.delta.additions))) }
{
    put_set(text, "- ", old.soa())?;
    put_sets(text, "- ", change.delta.deletions())?;
    put_set(text, "+ ", &change.soa)?;
    put_sets(text, "+ ", change.delta.additions())?;
    Ok(())
}

/// Puts the lines of the records of sets at the end of a text, each after a sign. The fault is a growth that was refused.
pub fn put_sets(text: &mut String, sign: &str, sets: &[RRset]) -> Result<(), AllocError>
    ensures { OnOk result (string_bytes text.new ≡ string_bytes text.old ++ flat_map (signed_line sign.now) (records_in sets.now)) }
{
    for set in sets {
        put_set(text, sign, set)?;
    }
    Ok(())
}

/// Puts the lines of a set's records at the end of a text, each after a sign. The fault is a growth that was refused.
pub fn put_set(text: &mut String, sign: &str, set: &RRset) -> Result<(), AllocError>
    ensures { OnOk result (string_bytes text.new ≡ string_bytes text.old ++ flat_map (signed_line sign.now) set.now) }
{
    let owner = set.owner();
    let ttl = set.ttl();
    for rdata in set.data() {
        put_record(text, sign, &owner, ttl, rdata)?;
    }
    Ok(())
}

/// Puts a record's line at the end of a text, after a sign.
fn put_record(
    text: &mut String,
    sign: &str,
    owner: &Name,
    ttl: Ttl,
    rdata: &RData,
) -> Result<(), AllocError>
    ensures { OnOk result (string_bytes text.new ≡ string_bytes text.old
        ++ signed_line sign.now (record { owner = owner.now; rtype = rdata.now.rtype; ttl = ttl.0; rdata = rdata.now.octets })) }
{
    let seconds = ttl.0;
    write!(text, "{sign}{owner} {seconds} IN ")?;
    write_type(text, rdata.rtype())?;
    write_data(text, rdata)?;
    text.push('\n')
}
