//! All sets of a zone in order.
ghost use Rattle.std.specs.Iterator.{YieldsFirstRef, item_count};
ghost use Rattle.std.specs.Prelude.{◌≡◌, ◌++◌, []};
ghost use Rattle.std.specs.List.{AllByRecursion};
ghost use Rattle.zone_tree.specs.Filed.{IsFiled, sets_under};

use crate::key::OwnerKey;
use crate::owners::Own;
use dns_rdata::RRset;
use std::marker::Model;

/// The owners of a zone that are left, with their sets.
type OwnersLeft<'a> = shared_tree::Walk<'a, OwnerKey, Own>;

/// The sets of a zone that are left, in canonical order (RFC 4034, 6.1): one owner's after another's. It takes no memory.
/// Contracts see the list of the sets that are left.
#[derive(Drop)]
pub struct Walk<'a> {
    rest: &'a [RRset],
    owners: OwnersLeft<'a>,
}

impl<'a> Model for Walk<'a> {
    ghost use Rattle.std.specs.Prelude.{List, ◌++◌};
    ghost use Rattle.std.specs.List.{AllByRecursion};
    ghost use Rattle.dns_rdata.specs.Record.{Record};
    ghost use Rattle.zone_tree.specs.Filed.{IsFiled, sets_under};

    ghost Value = { List (List Record) };

    ghost view = { λ walk. walk.rest.now ++ sets_under walk.owners };

    ghost invariant = { λ walk. AllByRecursion IsFiled walk.owners };
}

impl<'a> Walk<'a> {
    /// All sets of these owners.
    pub(crate) fn new(owners: OwnersLeft<'a>) -> Walk<'a>
        requires { AllByRecursion IsFiled owners }
        ensures { result ≡ sets_under owners.entry }
    {
        Walk { rest: &[], owners }
    }

    /// Sets of one owner, and all sets of the owners after it.
    pub(crate) fn within(rest: &'a [RRset], owners: OwnersLeft<'a>) -> Walk<'a>
        requires { AllByRecursion IsFiled owners }
        ensures { result ≡ rest.now ++ sets_under owners.entry }
    {
        Walk { rest, owners }
    }
}

impl<'a> Iterator for Walk<'a> {
    type Item = &'a RRset;

    ghost next_gives = { YieldsFirstRef (λ walk. walk) };

    ghost remaining = { item_count (λ walk. walk) };

    fn next(&mut self) -> Option<&'a RRset> {
        let (set, rest) = next_sets(self.rest, &mut self.owners).split_first()?;
        self.rest = rest;
        Some(set)
    }
}

/// The sets that are left of an owner, or, where none is left, those of the next one.
fn next_sets<'a>(rest: &'a [RRset], owners: &mut OwnersLeft<'a>) -> &'a [RRset]
    requires { AllByRecursion IsFiled owners.old }
    ensures left { result.now ++ sets_under owners.new ≡ rest.now ++ sets_under owners.old }
    ensures none { result.now ≡ [] → (rest.now ≡ []) × (owners.new ≡ []) }
    ensures filed { AllByRecursion IsFiled owners.new }
{
    if !rest.is_empty() {
        return rest;
    }
    match owners.next() {
        Some(pair) => pair.1.as_slice(),
        None => rest,
    }
}
