//! The sets of a zone, put together from the records of a text.
ghost use Rattle.std.specs.Prelude.{◌≡◌, ◌++◌, ◌∷◌, [], true, None, IfOk, OnOk, IfSome};
ghost use Rattle.std.specs.Bool.{OnFalse, OnTrue};
ghost use Rattle.std.specs.List.{list_any, AllPairs};
ghost use Rattle.std.specs.Option.{IfNone};
ghost use Rattle.dns_name.specs.Name.{fold_name};
ghost use Rattle.dns_rdata.specs.Record.{owner_of};
ghost use Rattle.zone_tree.specs.Sets.{records_in, AreUnsplit, IsSetBefore};
ghost use Rattle.master_file.specs.SetOrder.{is_set_of, put_last, sets_with, is_over, HasOver};
ghost use Rattle.master_file.specs.ZoneText.{record_in, in_lower, first_line, is_too_many, zone_records};

use crate::kept::KeptRecord;
use crate::likely::Likely;
use dns_rdata::{RRset, SetFault};
use std::alloc::{AllocError, Global};

/// The sets of records, which are sorted by owner and type first; None where a set would have too many. Where that is asked, it is told as well where
/// faults are likely.
pub(crate) fn sets_of(
    alloc: Global,
    mut records: Vec<KeptRecord>,
    likely: Option<&mut Likely>,
) -> Result<Option<Vec<RRset>>, AllocError>
    ensures sets { IfOk result (λ found. IfSome found (λ sets. records_in sets.items ≡ zone_records records.items)) }
    ensures unsplit { IfOk result (λ found. IfSome found (λ sets. AreUnsplit sets.items)) }
    ensures ascending { IfOk result (λ found. IfSome found (λ sets. AllPairs IsSetBefore sets.items)) }
    ensures many { IfOk result (λ found. IfNone found (first_line is_too_many [] records.items ≡ None → ⊥)) }
{
    records.sort()?;
    if let Some(likely) = likely {
        *likely = Likely::among(&records);
    }
    put_all(alloc, records)
}

/// The sets of records in the order of their sets; None where a set would have too many.
#[tactic(auto, using(crate::proofs::PutLemmas::sets_append))]
fn put_all(alloc: Global, records: Vec<KeptRecord>) -> Result<Option<Vec<RRset>>, AllocError>
    ensures sets { IfOk result (λ found. IfSome found (λ sets. sets.items ≡ sets_with [] records.items)) }
    ensures over { IfOk result (λ found. IfNone found (HasOver records.items)) }
{
    let mut sets = Vec::new(alloc);
    for kept in records {
        if !put(alloc, &mut sets, kept)? {
            return Ok(None);
        }
    }
    Ok(Some(sets))
}

/// Puts a record into the last of the sets where that is of its owner and type, and else after them. Whether there was
/// room for it.
fn put(alloc: Global, sets: &mut Vec<RRset>, kept: KeptRecord) -> Result<bool, AllocError>
    ensures put { IfOk result (λ room. OnTrue room (sets.new.items ≡ put_last sets.old.items (in_lower (record_in kept)))) }
    ensures full { IfOk result (λ room. OnFalse room (list_any is_over (put_last sets.old.items (in_lower (record_in kept))) ≡ true)) }
{
    let Some(last) = sets.pop() else {
        put_alone(alloc, sets, kept)?;
        return Ok(true);
    };
    if kept.is_of(&last) {
        return put_in(sets, last, kept);
    }
    sets.push(last)?;
    put_alone(alloc, sets, kept)?;
    Ok(true)
}

/// Puts the set of a record alone after all others.
fn put_alone(alloc: Global, sets: &mut Vec<RRset>, kept: KeptRecord) -> Result<(), AllocError>
    ensures { OnOk result (sets.new.items ≡ sets.old.items ++ (in_lower (record_in kept) ∷ []) ∷ []) }
{
    let (owner, ttl, rdata) = kept.into_parts();
    sets.push(RRset::with_owner(alloc, owner, ttl, rdata)?)?;
    Ok(())
}

/// Puts a record into its set, and that after all others. Whether there was room for it.
fn put_in(sets: &mut Vec<RRset>, mut last: RRset, kept: KeptRecord) -> Result<bool, AllocError>
    requires of { is_set_of (record_in kept) last ≡ true }
    requires owner { owner_of last ≡ fold_name kept.owner }
    ensures put { IfOk result (λ room. OnTrue room (sets.new.items ≡ put_last (sets.old.items ++ last ∷ []) (in_lower (record_in kept)))) }
    ensures full { IfOk result (λ room. OnFalse room (list_any is_over (put_last (sets.old.items ++ last ∷ []) (in_lower (record_in kept))) ≡ true)) }
{
    let (_, ttl, rdata) = kept.into_parts();
    match last.insert(rdata) {
        Ok(_) => {}
        Err(SetFault::Limit) => return Ok(false),
        Err(SetFault::NoMemory) => return Err(AllocError),
    }
    last.set_ttl(ttl);
    sets.push(last)?;
    Ok(true)
}
