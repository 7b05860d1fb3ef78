//! The options for who may do what.
ghost use Rattle.std.specs.Prelude.{◌≡◌, []};
ghost use Rattle.std.specs.Result.{IsOkAnd};
ghost use Rattle.dns_name.specs.Name.{Name as NameOf};
ghost use Rattle.dns_rdata.specs.Raw.{RawRecord};
ghost use Rattle.rights.specs.Address.{has_address};
ghost use Rattle.rights.specs.Rights.{covers, lets_transfer};
ghost use Rattle.rights.specs.declared.requestor.Requestor.{Requestor as Asker};

use crate::command::{ADDRESS, REQUEST, TCP};
use crate::fault::CommandFault;
use crate::key_rules::{KeyRules, split_by_key};
use clap::ArgMatches;
use clap::parser::ValueSource;
use dns_name::Name;
use rights::{NameScope, Prefix, Requestor, Rule, UpdateRight, parse_prefix, parse_rule};
use std::alloc::{AllocError, Global};
use std::net::IpAddr;

/// The option for a rule.
pub const MAY: &str = "may";

/// The option for the key that a request is signed by.
pub const KEY: &str = "key";

/// The option for the addresses and prefixes that may update and transfer.
pub const ALLOW: &str = "allow";

/// Rules, and a request to try them on.
pub struct Trial<'a> {
    /// The rules.
    pub rules: Vec<Rule>,
    /// Who sends the request.
    pub who: Requestor,
    /// The request, in hexadecimal.
    pub request: &'a str,
}

// By hand: a derived drop is proved once more in each crate that lets such a value go.
impl<'a> Drop for Trial<'a> {
    fn drop(self) {
        let Trial {
            rules: _,
            who: _,
            request: _,
        } = self;
    }
}

/// The trial given by the arguments. An error is a rule that is refused, an address that is none, or lack of memory.
pub fn trial_of<'a>(alloc: Global, found: &ArgMatches<'a>) -> Result<Trial<'a>, CommandFault<'a>> {
    let (unsigned, signed) = split_by_key(alloc, rules_of(alloc, found)?)?;
    let rules = match found.get_str(KEY) {
        None => unsigned,
        Some(word) => rules_by(alloc, signed, word)?,
    };
    let word = found.get_str(ADDRESS).unwrap_or("");
    let Ok(address) = word.parse::<IpAddr>() else {
        return Err(CommandFault::Address(word));
    };
    Ok(Trial {
        rules,
        who: Requestor::new(address, found.get_flag(TCP)),
        request: found.get_str(REQUEST).unwrap_or(""),
    })
}

/// The rules that name the key of this name.
fn rules_by<'a>(
    alloc: Global,
    signed: Vec<KeyRules>,
    word: &'a str,
) -> Result<Vec<Rule>, CommandFault<'a>> {
    let name = Name::from_text(word.as_bytes(), &Name::root()).map_err(|fault| CommandFault::Key(
        word, fault,
    ))?;
    for own in signed {
        if own.key == name {
            return Ok(own.into_rules());
        }
    }
    Ok(Vec::new(alloc))
}

/// The rules given by the option, in order.
fn rules_of<'a>(alloc: Global, found: &ArgMatches<'a>) -> Result<Vec<Rule>, CommandFault<'a>> {
    let mut rules = Vec::new(alloc);
    let Some(words) = found.get_strs(MAY) else {
        return Ok(rules);
    };
    for word in words {
        let rule = parse_rule(alloc, *word).map_err(|fault| CommandFault::Rule(*word, fault))?;
        if rules.push(rule).is_err() {
            return Err(CommandFault::from(AllocError));
        }
    }
    Ok(rules)
}

/// The rules of a server: those of `--allow`, and after them those of `--may`; first those without a key, then those of each key. Where a rule is given, `--allow` has no default.
pub(crate) fn served_rules<'a>(
    alloc: Global,
    found: &ArgMatches<'a>,
) -> Result<(Vec<Rule>, Vec<KeyRules>), CommandFault<'a>> {
    let given = rules_of(alloc, found)?;
    let has_default = !matches!(found.value_source(ALLOW), Some(ValueSource::CommandLine));
    let list = if has_default && !given.is_empty() {
        ""
    } else {
        found.get_str(ALLOW).unwrap_or("")
    };
    let mut rules = allowed_of(alloc, list)?;
    for rule in given {
        if rules.push(rule).is_err() {
            return Err(CommandFault::from(AllocError));
        }
    }
    Ok(split_by_key(alloc, rules)?)
}

/// The rules of the addresses and prefixes in a comma-separated list, which may have blanks around each; none for an empty list.
fn allowed_of<'a>(alloc: Global, list: &'a str) -> Result<Vec<Rule>, CommandFault<'a>>
    ensures { list.entry.now ≡ [] → IsOkAnd result (λ rules. rules.items ≡ []) }
{
    let mut rules = Vec::new(alloc);
    if list.is_empty() {
        return Ok(rules);
    }
    for part in list.split(',') {
        let prefix = parse_prefix(part.trim_ascii()).map_err(|fault| CommandFault::Allow(fault))?;
        if rules.push(whole_rule(alloc, prefix)).is_err() {
            return Err(CommandFault::from(AllocError));
        }
    }
    Ok(rules)
}

/// The rule by which the addresses of a prefix may update each record, and transfer.
fn whole_rule(alloc: Global, prefix: Prefix) -> Rule
    ensures update { (who : Asker) (apex : NameOf) (r : RawRecord) → covers who apex r result ≡ has_address prefix who.bits }
    ensures transfer { (who : Asker) → lets_transfer who result ≡ has_address prefix who.bits }
{
    Rule {
        key: None,
        prefix: Some(prefix),
        transfer: true,
        update: Some(UpdateRight {
            names: NameScope::Every,
            types: Vec::new(alloc),
            needs_tcp: false,
        }),
    }
}
