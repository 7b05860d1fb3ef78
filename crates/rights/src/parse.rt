//! Reading a rule.
use crate::address::parse_prefix;
use crate::fault::RuleFault;
use crate::prefix::Prefix;
use crate::rule::{NameScope, Rule, UpdateRight};
use crate::types::type_named;
use dns_name::Name;
use dns_rdata::RType;
use std::alloc::Global;

/// The word for the right to transfer.
const TRANSFER: &str = "transfer";

/// The word for the right to update.
const UPDATE: &str = "update";

/// The word for a right at one name alone.
const EXACT: &str = "exact";

/// The word for a right at a name and those below it.
const AT_OR_BELOW: &str = "at-or-below";

/// The word for a right over TCP alone.
const TCP: &str = "tcp";

/// The word for a key.
const KEY: &str = "key";

/// The rule that a text is: `WHO: RIGHTS`. WHO is an address or a prefix, `key NAME`, or `key NAME` and one of these, and ends at the first colon that a blank follows. RIGHTS are `transfer` and
/// `update`, with a comma between both. After `update` may stand `exact NAME` or `at-or-below NAME`, then types, and then `tcp`. Names without a
/// final dot are below the root.
pub fn parse_rule<'a>(alloc: Global, text: &'a str) -> Result<Rule, RuleFault<'a>> {
    let Some((who, rights)) = text.split_once(": ") else {
        return Err(RuleFault::NoColon);
    };
    let (key, prefix) = who_of(who.trim_ascii())?;
    let mut rule = Rule {
        key,
        prefix,
        transfer: false,
        update: None,
    };
    for right in rights.split(',') {
        add_right(alloc, &mut rule, right)?;
    }
    Ok(rule)
}

/// The name of a key, in lower case, and the prefix, if there are these, of who has a rule's rights.
fn who_of<'a>(text: &'a str) -> Result<(Option<Name>, Option<Prefix>), RuleFault<'a>> {
    let Some((first, rest)) = text.split_once(' ') else {
        return Ok((None, Some(parse_prefix(text)?)));
    };
    if first != KEY {
        return Ok((None, Some(parse_prefix(text)?)));
    }
    let rest = rest.trim_ascii();
    let (word, prefix) = match rest.split_once(' ') {
        None => (rest, None),
        Some((word, prefix)) => (word, Some(parse_prefix(prefix.trim_ascii())?)),
    };
    match Name::from_text(word.as_bytes(), &Name::root()) {
        Ok(name) => Ok((Some(name.fold()), prefix)),
        Err(fault) => Err(RuleFault::Name(word, fault)),
    }
}

/// Adds the right that a text is to a rule.
fn add_right<'a>(alloc: Global, rule: &mut Rule, text: &'a str) -> Result<(), RuleFault<'a>> {
    let words: Vec<&'a str> = text.split_ascii_whitespace().collect(alloc)?;
    let Some((first, rest)) = words.as_slice().split_first() else {
        return Err(RuleFault::NoRight);
    };
    if *first == TRANSFER {
        return add_transfer(rule, first, rest);
    }
    if *first != UPDATE {
        return Err(RuleFault::Right(*first));
    }
    if rule.update.is_some() {
        return Err(RuleFault::Twice(*first));
    }
    rule.update = Some(update_right(alloc, rest)?);
    Ok(())
}

/// Adds the right to transfer to a rule. No word may follow it.
fn add_transfer<'a>(
    rule: &mut Rule,
    first: &'a str,
    rest: &[&'a str],
) -> Result<(), RuleFault<'a>> {
    if let Some(word) = rest.first() {
        return Err(RuleFault::Surplus(*word));
    }
    if rule.transfer {
        return Err(RuleFault::Twice(first));
    }
    rule.transfer = true;
    Ok(())
}

/// The right to update that these words say: names, types, and whether it holds over TCP alone.
fn update_right<'a>(alloc: Global, words: &[&'a str]) -> Result<UpdateRight, RuleFault<'a>> {
    let (names, rest) = scope_of(words)?;
    let (types, needs_tcp) = types_of(alloc, rest)?;
    Ok(UpdateRight {
        names,
        types,
        needs_tcp,
    })
}

/// The names of a right to update, and the words after them.
fn scope_of<'w, 'a>(words: &'w [&'a str]) -> Result<(NameScope, &'w [&'a str]), RuleFault<'a>> {
    let Some((first, rest)) = words.split_first() else {
        return Ok((NameScope::Every, words));
    };
    if *first != EXACT && *first != AT_OR_BELOW {
        return Ok((NameScope::Every, words));
    }
    let Some((word, rest)) = rest.split_first() else {
        return Err(RuleFault::NoName(*first));
    };
    match Name::from_text(word.as_bytes(), &Name::root()) {
        Ok(name) if *first == EXACT => Ok((NameScope::Exact(name), rest)),
        Ok(name) => Ok((NameScope::AtOrBelow(name), rest)),
        Err(fault) => Err(RuleFault::Name(*word, fault)),
    }
}

/// The types of a right to update, and whether `tcp` stands after them.
fn types_of<'a>(alloc: Global, words: &[&'a str]) -> Result<(Vec<RType>, bool), RuleFault<'a>> {
    let mut types = Vec::new(alloc);
    for (at, word) in words.iter().enumerate() {
        if *word == TCP {
            return match words.get(at + 1) {
                None => Ok((types, true)),
                Some(surplus) => Err(RuleFault::Surplus(*surplus)),
            };
        }
        let Some(rtype) = type_named(word) else {
            return Err(RuleFault::Type(*word));
        };
        if types.push(rtype).is_err() {
            return Err(RuleFault::NoMemory);
        }
    }
    Ok((types, false))
}
