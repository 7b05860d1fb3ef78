//! What the holders of keys may do (RFC 8945).
ghost use Rattle.std.specs.Prelude.{◌≡◌, find, map, IfOk, IfSome};
ghost use Rattle.std.specs.Option.{option_copied};
ghost use Rattle.dns_name.specs.Name.{is_same};
ghost use Rattle.command_line.specs.Keys.{rules_by};
ghost use Rattle.dnsd.specs.KeyRights.{rights_of};

use command_line::{KeyRules, Serve};
use dns_name::Name;
use key_file::KeyFile;
use rights::Rule;
use serve_workers::SharedKeys;
use signed_replies::KeyRights;
use std::alloc::{AllocError, Global};
use tsig::{Keys, MAX_KEYS};

/// What the holders of the keys of a file may do, in the order of the keys; nothing without a file.
pub fn rights_for<'a>(
    alloc: Global,
    keys: Option<&KeyFile>,
    key_rules: &'a [KeyRules],
) -> Result<Vec<KeyRights<'a>>, AllocError>
    ensures { IfOk result (λ rights. IfSome (option_copied keys.entry) (λ file. map (λ own. own.rules.now) rights.items ≡ rights_of key_rules.now file.keys)) }
{
    match keys {
        None => Ok(Vec::new(alloc)),
        Some(file) => rights_of(alloc, &file.keys, key_rules),
    }
}

/// What the holder of each key may do, in the order of the keys.
fn rights_of<'a>(
    alloc: Global,
    keys: &Keys,
    key_rules: &'a [KeyRules],
) -> Result<Vec<KeyRights<'a>>, AllocError>
    ensures { IfOk result (λ rights. map (λ own. own.rules.now) rights.items ≡ rights_of key_rules.now keys.now) }
{
    let mut rights = Vec::new(alloc);
    for index in 0..MAX_KEYS {
        let Some(key) = keys.get(index as u16) else {
            break;
        };
        let rules = rules_of(key_rules, key.name());
        rights.push(KeyRights { rules })?;
    }
    Ok(rights)
}

/// The rules that name the key of this name; none where none does.
fn rules_of<'a>(key_rules: &'a [KeyRules], name: &Name) -> &'a [Rule]
    ensures { result.now ≡ rules_by name.now key_rules.now }
{
    match first_of(key_rules, name) {
        Some(own) => own.rules.as_slice(),
        None => &[],
    }
}

/// The first rules by keys whose key is this one.
fn first_of<'a>(key_rules: &'a [KeyRules], name: &Name) -> Option<&'a KeyRules>
    ensures { option_copied result ≡ find (λ own. is_same own.key name.now) key_rules.now }
{
    key_rules.iter().find(|own| own.key == *name)
}

/// The keys of a file with these rights, if there is one.
pub fn shared_keys<'a>(
    keys: Option<&'a KeyFile>,
    rights: &'a [KeyRights<'a>],
) -> Option<SharedKeys<'a>> {
    let file = keys?;
    Some(SharedKeys {
        keys: &file.keys,
        rights,
    })
}

/// Whether a rule gives anybody a right to update.
pub fn may_update(serve: &Serve<'_>) -> bool {
    gives_update(serve.rules.as_slice())
        || serve
            .key_rules
            .iter()
            .any(|own| gives_update(own.rules.as_slice()))
}

/// Whether one of these rules gives a right to update.
fn gives_update(rules: &[Rule]) -> bool {
    rules.iter().any(|rule| rule.update.is_some())
}
