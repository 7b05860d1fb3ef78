//! The names in use, with their owners.
ghost use Rattle.std.specs.Prelude.{◌≡◌, ◌++◌, ◌∷◌, [], IfErr, OnOk, filter, not, bytes_eq, find};
ghost use Rattle.std.specs.List.{list_any};
ghost use Rattle.std.specs.Option.{option_map};
ghost use Rattle.world_run.specs.World.{owner_of, without_name, given_up, weak_given_up};
ghost use Rattle.world_run.specs.declared.names.Named.{Named as NamedRow};

use crate::fault::WorldFault;
use crate::lent::Handle;
use crate::step::Call;

/// A name in use, and its owner.
#[derive(Drop)]
pub struct Named<'a> {
    name: Handle<'a>,
    owner: usize,
}

/// Whether a name in use is this one.
fn has_name(named: &Named<'_>, name: &Handle<'_>) -> bool
    ensures { result ≡ bytes_eq named.now.name name.now }
{
    named.name.as_slice() == name.as_slice()
}

/// Whether a name is in use.
pub(crate) fn is_in_use(names: &[Named<'_>], name: &Handle<'_>) -> bool
    ensures { result ≡ list_any (λ named. bytes_eq named.name name.now) names.now }
{
    for named in names {
        if has_name(named, name) {
            return true;
        }
    }
    false
}

/// The owner of a name in use.
pub(crate) fn owner_under(names: &[Named<'_>], name: &Handle<'_>) -> Option<usize>
    ensures { result ≡ owner_of name.now names.now }
{
    for named in names {
        if has_name(named, name) {
            return Some(named.owner);
        }
    }
    None
}

/// Takes the name that a call releases out of use.
pub(crate) fn give_up(names: &mut Vec<Named<'_>>, call: &Call<'_>)
    ensures { names.new.items ≡ given_up call.now names.old.items }
{
    if let Call::Drop(name) = call {
        remove(names, name);
    }
}

/// Takes the weak owner's name that a call releases out of use.
pub(crate) fn give_up_weakly(names: &mut Vec<Named<'_>>, call: &Call<'_>)
    ensures { names.new.items ≡ weak_given_up call.now names.old.items }
{
    if let Call::Fade(name) = call {
        remove(names, name);
    }
}

/// Takes a name out of use.
fn remove(names: &mut Vec<Named<'_>>, name: &Handle<'_>)
    ensures { names.new.items ≡ without_name name.now names.old.items }
{
    names.retain(|named| !has_name(named, name));
}

/// Puts a name into use.
pub(crate) fn put_name<'a>(
    names: &mut Vec<Named<'a>>,
    name: Handle<'a>,
    owner: usize,
) -> Result<(), WorldFault>
    ensures ok { OnOk result (names.new.items ≡ names.old.items ++ record { name = name.entry; owner = owner } ∷ []) }
    ensures refused { IfErr result (λ fault. fault ≡ WorldFault.NoMemory) }
{
    match names.push(Named { name, owner }) {
        Ok(()) => Ok(()),
        Err(_) => Err(WorldFault::NoMemory),
    }
}
