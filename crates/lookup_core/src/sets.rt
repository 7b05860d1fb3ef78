//! The sets that stand at one name.
ghost use Rattle.std.specs.Prelude.{◌≡◌, ◌↔◌, ◌==◌, [], List, IsNone, IfSome};
ghost use Rattle.std.specs.List.{find};
ghost use Rattle.std.specs.Option.{option_copied};
ghost use Rattle.dns_name.specs.Name.{Name};
ghost use Rattle.dns_rdata.specs.Record.{Record, rtype_of};
ghost use Rattle.zone_tree.specs.Zone.{rrset_of};
ghost use Rattle.lookup_core.specs.Shown.{AreAllAt};

use dns_rdata::{RRset, RType};

/// The first of some sets that is of a type.
fn first_of<'z>(sets: &'z [RRset], rtype: RType) -> Option<&'z RRset>
    ensures { option_copied result ≡ find (λ set. rtype_of set == rtype.0) sets.now }
{
    sets.iter().find(|set| set.rtype() == rtype)
}

/// The set of a type among all sets at a name; None where none of them is of that type.
pub(crate) fn set_of<'z>(sets: &'z [RRset], rtype: RType) -> Option<&'z RRset>
    ensures none { (zone : List Record) (at : Name) → AreAllAt zone at sets.now → IsNone result ↔ (rrset_of zone at rtype.0 ≡ []) }
    ensures set { (zone : List Record) (at : Name) → AreAllAt zone at sets.now → IfSome result (λ set. set.now ≡ rrset_of zone at rtype.0) }
{
    first_of(sets, rtype)
}
