//! What a request gets, and by which rules.
ghost use Rattle.std.specs.Prelude.{◌≡◌, true, IfOk, if◌then◌else◌};
ghost use Rattle.std.specs.Option.{option_map};
ghost use Rattle.rights.specs.declared.report.RequestFault.TheVariants.{NoMemory as no_memory};
ghost use Rattle.rights.specs.Rights.{is_permitted, is_transfer, judged, may_transfer as transfer_permitted};

use crate::permission::{are_permitted, covering, first_outside, may_transfer, transferring};
use crate::requestor::Requestor;
use crate::rule::Rule;
use crate::types::TypeWord;
use dns_message::{Parsed, Query, Update, parse};
use dns_name::Name;
use dns_rdata::{RType, RawRecord};
use std::alloc::{AllocError, Global};

/// What a request gets by rules.
pub struct Decision {
    /// Whether it is permitted.
    pub permitted: bool,
    /// A line that says so, and then a line for each record of an update, with the rule that covers it.
    pub text: String,
}

// Written out: a derived drop is proved again in each crate that drops such a value.
impl Drop for Decision {
    fn drop(self) {
        let Decision {
            permitted: _,
            text: _,
        } = self;
    }
}

/// Why a request isn't judged.
#[derive(Clone, Copy, Debug, PartialEq, Eq)]
pub enum RequestFault {
    /// It is not written in hexadecimal.
    NotHex,
    /// It is neither an update nor a query that can be read.
    NotRequest,
    /// The rule at this place names a name outside of the zone that the update is of.
    Outside(usize),
    /// A growth was refused.
    NoMemory,
}

impl From<AllocError> for RequestFault {
    ghost from_gives = { λ refused given. given ≡ no_memory };

    fn from(_refused: AllocError) -> RequestFault {
        RequestFault::NoMemory
    }
}

/// What a request in hexadecimal gets by rules, as [`judge`] tells it. Of an update each name in the rules is to be in the zone that its zone section
/// names.
pub fn judge_digits(
    alloc: Global,
    rules: &[Rule],
    who: Requestor,
    digits: &str,
) -> Result<Decision, RequestFault> {
    let Ok(octets) = hex::decode(alloc, digits) else {
        return Err(RequestFault::NotHex);
    };
    let request = parse(alloc, octets.as_slice());
    if let Parsed::Update(update) = &request {
        if let Some(place) = first_outside(rules, &update.zone.name) {
            return Err(RequestFault::Outside(place));
        }
    }
    match judge(alloc, rules, who, &request)? {
        Some(decision) => Ok(decision),
        None => Err(RequestFault::NotRequest),
    }
}

/// What a request gets by rules: an update is permitted as its records are, a query for a transfer as the zone may be transferred, and each other
/// query is. None of what is no query and no update. `AllocError` where a growth was refused.
pub fn judge(
    alloc: Global,
    rules: &[Rule],
    who: Requestor,
    request: &Parsed,
) -> Result<Option<Decision>, AllocError>
    ensures { IfOk result (λ found. option_map (λ decision. decision.permitted) found ≡ judged rules.now who request.now) }
{
    match request {
        Parsed::Update(update) => Ok(Some(judge_update(alloc, rules, who, update)?)),
        Parsed::Query(query) => Ok(Some(judge_query(alloc, rules, who, query)?)),
        Parsed::Silent => Ok(None),
        Parsed::Fault(_, _) => Ok(None),
        Parsed::BadOpt(_, _, _, _) => Ok(None),
        Parsed::NoMemory(_) => Ok(None),
    }
}

/// Whether an update is permitted (RFC 2136, 3.3): [`are_permitted`] of the records of its update section, with the name in its zone section as the
/// apex.
pub fn is_permitted(rules: &[Rule], who: Requestor, update: &Update) -> bool
    ensures { result ≡ is_permitted rules.now who update.now }
{
    are_permitted(rules, who, &update.zone.name, update.updates.as_slice())
}

/// What an update gets, and by which rule each of its records.
fn judge_update(
    alloc: Global,
    rules: &[Rule],
    who: Requestor,
    update: &Update,
) -> Result<Decision, AllocError>
    ensures { IfOk result (λ decision. decision.permitted ≡ is_permitted rules.now who update.now) }
{
    let permitted = is_permitted(rules, who, update);
    let mut text = String::new(alloc);
    put_head(&mut text, permitted)?;
    for record in update.updates.as_slice() {
        let place = covering(rules, who, &update.zone.name, record);
        put_line(
            &mut text,
            &record.owner,
            record.rtype,
            rule_at(rules, place),
        )?;
    }
    Ok(Decision { permitted, text })
}

/// What a query gets, and by which rule one for a transfer.
fn judge_query(
    alloc: Global,
    rules: &[Rule],
    who: Requestor,
    query: &Query,
) -> Result<Decision, AllocError>
    ensures { IfOk result (λ decision. decision.permitted ≡ (if is_transfer query.now then transfer_permitted rules.now who else true)) }
{
    let mut text = String::new(alloc);
    if !is_transfer(query) {
        put_head(&mut text, true)?;
        return Ok(Decision {
            permitted: true,
            text,
        });
    }
    let permitted = may_transfer(rules, who);
    put_head(&mut text, permitted)?;
    let question = &query.question;
    let place = transferring(rules, who);
    put_line(
        &mut text,
        &question.name,
        question.rtype,
        rule_at(rules, place),
    )?;
    Ok(Decision { permitted, text })
}

/// Whether a query asks for a transfer (RFC 5936, 2.1; RFC 1995, 3).
fn is_transfer(query: &Query) -> bool
    ensures { result ≡ is_transfer query.now }
{
    query.question.rtype == RType::AXFR || query.question.rtype == RType::IXFR
}

/// The rule at a place, if there are both.
fn rule_at(rules: &[Rule], place: Option<usize>) -> Option<&Rule> {
    rules.get(place?)
}

/// Puts the line that says whether a request is permitted.
fn put_head(text: &mut String, permitted: bool) -> Result<(), AllocError> {
    text.push_str(if permitted {
        "permitted\n"
    } else {
        "REFUSED\n"
    })
}

/// Puts the line of a record or a question, with the rule that covers it.
fn put_line(
    text: &mut String,
    owner: &Name,
    rtype: RType,
    rule: Option<&Rule>,
) -> Result<(), AllocError> {
    let word = TypeWord(rtype);
    write!(text, "{owner} {word}: ")?;
    match rule {
        Some(rule) => write!(text, "{rule}")?,
        None => text.push_str("no rule")?,
    }
    text.push('\n')
}
