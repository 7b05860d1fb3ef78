//! Whether a request is permitted.
ghost use Rattle.std.specs.Prelude.{◌≡◌, ◌==◌, not, position};
ghost use Rattle.std.specs.Option.{option_copied};
ghost use Rattle.std.specs.List.{list_any, list_all};
ghost use Rattle.rights.specs.Rights.{holds_at, takes_every_type, holds_of, is_held, is_right_to, lets_update, covers, are_permitted, lets_transfer, may_transfer, is_within, first_uncovered};

use crate::address::has_prefix;
use crate::requestor::Requestor;
use crate::rule::{NameScope, Rule, UpdateRight};
use dns_name::Name;
use dns_rdata::{RType, RawRecord};

/// Whether the records of an update section may be updated, of a zone with this apex: a rule gives who asks a right to update, and each record is
/// covered by one that does, by its owner and its type (RFC 2136, 3.3). A deletion of all sets of a name, and each record of the apex's SOA or NS set,
/// takes a right without types.
pub fn are_permitted(rules: &[Rule], who: Requestor, apex: &Name, records: &[RawRecord]) -> bool
    ensures { result ≡ are_permitted rules.now who apex.now records.now }
{
    has_right(rules, who) && are_covered(rules, who, apex, records)
}

/// The place of the first rule that covers a record of an update section; None where none does.
pub fn covering(rules: &[Rule], who: Requestor, apex: &Name, record: &RawRecord) -> Option<usize>
    ensures { result ≡ position (covers who apex.now record.now) rules.now }
{
    rules
        .iter()
        .position(|rule| covers(rule, who, apex, record))
}

/// The first record of an update section that no rule covers; None where each is covered.
pub fn first_uncovered<'r>(
    rules: &[Rule],
    who: Requestor,
    apex: &Name,
    records: &'r [RawRecord],
) -> Option<&'r RawRecord>
    ensures { option_copied result ≡ first_uncovered rules.now who apex.now records.now }
{
    records
        .iter()
        .find(|record| !is_covered(rules, who, apex, record))
}

/// Whether the zone may be transferred: a rule gives who asks that right (RFC 5936, 5).
pub fn may_transfer(rules: &[Rule], who: Requestor) -> bool
    ensures { result ≡ may_transfer rules.now who }
{
    rules.iter().any(|rule| lets_transfer(rule, who))
}

/// The place of the first rule that names a name outside of the zone with this apex; None where none does.
pub fn first_outside(rules: &[Rule], apex: &Name) -> Option<usize>
    ensures { result ≡ position (λ rule. not (is_within rule.update apex.now)) rules.now }
{
    rules.iter().position(|rule| !is_within(&rule.update, apex))
}

/// The place of the first rule that gives who asks the right to transfer the zone; None where none does.
pub fn transferring(rules: &[Rule], who: Requestor) -> Option<usize>
    ensures { result ≡ position (lets_transfer who) rules.now }
{
    rules.iter().position(|rule| lets_transfer(rule, who))
}

/// Whether the name of a right to update, where there are both, is in the zone with this apex.
fn is_within(update: &Option<UpdateRight>, apex: &Name) -> bool
    ensures { result ≡ is_within update.now apex.now }
{
    match update {
        None => true,
        Some(right) => match &right.names {
            NameScope::Every => true,
            NameScope::Exact(name) | NameScope::AtOrBelow(name) => name.is_under(apex),
        },
    }
}

/// Whether a rule gives who asks a right to update.
pub fn has_right(rules: &[Rule], who: Requestor) -> bool
    ensures { result ≡ list_any (lets_update who) rules.now }
{
    rules.iter().any(|rule| lets_update(rule, who))
}

/// Whether each record is covered by a rule.
fn are_covered(rules: &[Rule], who: Requestor, apex: &Name, records: &[RawRecord]) -> bool
    ensures { result ≡ list_all (λ r. list_any (covers who apex.now r) rules.now) records.now }
{
    records
        .iter()
        .all(|record| is_covered(rules, who, apex, record))
}

/// Whether a rule covers a record.
fn is_covered(rules: &[Rule], who: Requestor, apex: &Name, record: &RawRecord) -> bool
    ensures { result ≡ list_any (covers who apex.now record.now) rules.now }
{
    rules.iter().any(|rule| covers(rule, who, apex, record))
}

/// Whether a rule gives who asks a right to this record.
fn covers(rule: &Rule, who: Requestor, apex: &Name, record: &RawRecord) -> bool
    ensures { result ≡ covers who apex.now record.now rule.now }
{
    lets_update(rule, who) && is_right_to(&rule.update, apex, record)
}

/// Whether a rule gives who asks a right to update.
fn lets_update(rule: &Rule, who: Requestor) -> bool
    ensures { result ≡ lets_update who rule.now }
{
    has_prefix(&rule.prefix, who.bits) && is_held(&rule.update, who)
}

/// Whether a rule gives who asks the right to transfer the zone.
fn lets_transfer(rule: &Rule, who: Requestor) -> bool
    ensures { result ≡ lets_transfer who rule.now }
{
    rule.transfer && has_prefix(&rule.prefix, who.bits)
}

/// Whether a right to update, where there is one, holds over the transport of who asks.
fn is_held(update: &Option<UpdateRight>, who: Requestor) -> bool
    ensures { result ≡ is_held update.now who }
{
    match update {
        None => false,
        Some(right) => who.is_tcp || !right.needs_tcp,
    }
}

/// Whether a right to update, where there is one, is one to a record.
fn is_right_to(update: &Option<UpdateRight>, apex: &Name, record: &RawRecord) -> bool
    ensures { result ≡ is_right_to update.now apex.now record.now }
{
    match update {
        None => false,
        Some(right) => {
            holds_at(&right.names, &record.owner) && holds_of(&right.types, apex, record)
        }
    }
}

/// Whether a right holds at a name.
fn holds_at(names: &NameScope, owner: &Name) -> bool
    ensures { result ≡ holds_at names.now owner.now }
{
    match names {
        NameScope::Every => true,
        NameScope::Exact(name) => owner == name,
        NameScope::AtOrBelow(name) => owner.is_under(name),
    }
}

/// Whether a right of these types holds of a record's type.
fn holds_of(types: &[RType], apex: &Name, record: &RawRecord) -> bool
    ensures { result ≡ holds_of types.now apex.now record.now }
{
    types.is_empty() || (!takes_every_type(apex, record) && has_type(types, record.rtype))
}

/// Whether a type is one of these.
fn has_type(types: &[RType], rtype: RType) -> bool
    ensures { result ≡ list_any (λ own. own.0 == rtype.0) types.now }
{
    types.iter().any(|own| own.0 == rtype.0)
}

/// Whether a record takes a right of every type: it deletes all sets of a name (RFC 2136, 2.5.3), or is of the apex's SOA or NS set.
fn takes_every_type(apex: &Name, record: &RawRecord) -> bool
    ensures { result ≡ takes_every_type apex.now record.now }
{
    record.rtype == RType::ANY
        || (record.owner == *apex && (record.rtype == RType::SOA || record.rtype == RType::NS))
}
