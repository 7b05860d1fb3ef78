//! Rules by the keys that they name.
ghost use Rattle.std.specs.Prelude.{◌≡◌, ◌++◌, [], ◌∷◌, filter, position, if◌then◌else◌, IfOk, OnOk};
ghost use Rattle.dns_name.specs.Name.{Name as NameOf, is_same};
ghost use Rattle.command_line.specs.Keys.{is_unsigned, names_key, rules_by};

use dns_name::Name;
use rights::Rule;
use std::alloc::{AllocError, Global};

/// The rules that name a key.
pub struct KeyRules {
    /// The key's name, in lower case.
    pub key: Name,
    /// The rules, in order.
    pub rules: Vec<Rule>,
}

// Written out: a derived drop is proved again in each crate that drops such a value.
impl Drop for KeyRules {
    fn drop(self) {
        let KeyRules { key: _, rules: _ } = self;
    }
}

impl KeyRules {
    /// The rules.
    pub fn into_rules(self) -> Vec<Rule> {
        let KeyRules { key: _, rules } = self;
        rules
    }
}

/// Rules apart: those that name no key, in order, and those of each key that one names. `AllocError` where a growth was refused.
pub fn split_by_key(
    alloc: Global,
    rules: Vec<Rule>,
) -> Result<(Vec<Rule>, Vec<KeyRules>), AllocError>
    ensures unsigned { IfOk result (λ parts. parts.0.items ≡ filter is_unsigned rules.items) }
    ensures signed { IfOk result (λ parts. (key : NameOf) → rules_by key parts.1.items ≡ filter (names_key key) rules.items) }
{
    let mut unsigned = Vec::new(alloc);
    let mut signed = Vec::new(alloc);
    for rule in rules {
        match key_of(&rule) {
            None => unsigned.push(rule)?,
            Some(key) => put(alloc, &mut signed, key, rule)?,
        }
    }
    Ok((unsigned, signed))
}

/// The key that a rule names, if any.
fn key_of(rule: &Rule) -> Option<Name>
    ensures { result ≡ rule.now.key }
{
    match &rule.key {
        None => None,
        Some(key) => Some(key.copy()),
    }
}

/// The place of a key among those that have rules.
fn place_of(signed: &[KeyRules], key: &Name) -> Option<usize>
    ensures { result ≡ position (λ own. is_same own.key key.now) signed.now }
{
    signed.iter().position(|own| own.key == *key)
}

/// Adds a rule of a key after the others of that key.
fn put(alloc: Global, signed: &mut Vec<KeyRules>, key: Name, rule: Rule) -> Result<(), AllocError>
    ensures { OnOk result ((own : NameOf) → rules_by own signed.new.items ≡ rules_by own signed.old.items ++ (if is_same key own then rule ∷ [] else [])) }
{
    match place_of(signed.as_slice(), &key) {
        Some(place) => signed[place].rules.push(rule)?,
        None => {
            let mut rules = Vec::new(alloc);
            rules.push(rule)?;
            signed.push(KeyRules { key, rules })?;
        }
    }
    Ok(())
}
