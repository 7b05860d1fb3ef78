//! The newest versions of a zone, as a cell begins with them (own).
ghost use Rattle.journal.specs.Batch.{Messages};
ghost use Rattle.std.specs.Prelude.{◌≡◌, ◌≤◌, ℕ, List, ◌∷◌, length};
ghost use Rattle.dns_rdata.specs.Record.{Record};
ghost use Rattle.dns_engine.specs.Versions.{IsFirst, AreNext};
ghost use Rattle.dns_engine.specs.Held.{KEPT};
ghost use Rattle.store_recovery.specs.Replay.{IsReplayed};
ghost use Rattle.store_recovery.specs.Rebased.{versions_in, numbered_from, rebased};

use crate::recent_versions::RecentVersions;
use zone_tree::Version;

impl RecentVersions {
    /// These versions as a cell begins with them: the oldest as the first version of its zone, and the others, which may be published one after
    /// another after it, each with its changes and with numbers from 1 on. It allocates no memory.
    pub fn rebased(self) -> (Version, Vec<Version>)
        ensures same { result.0 ∷ result.1.items ≡ rebased (versions_in self) }
        ensures made { (zone : List Record) (messages : List Messages) → IsReplayed zone messages self → IsFirst result.0.zone result.0 × AreNext result.0 result.1.items }
    {
        let (oldest, mut later) = oldest_first(self);
        number_all(&mut later);
        (Version::first(oldest.into_zone()), later)
    }
}

/// The oldest of versions, and those after it.
fn oldest_first(newest: RecentVersions) -> (Version, Vec<Version>)
    ensures all { result.0 ∷ result.1.items ≡ versions_in newest }
    ensures few { length result.1.items ≤ KEPT }
{
    let RecentVersions { last, mut older } = newest;
    if older.is_empty() {
        return (last, older);
    }
    let oldest = older.remove(0);
    older.push_reserved(last);
    (oldest, older)
}

/// Numbers versions from 1 on, in their order.
fn number_all(later: &mut Vec<Version>)
    requires { length later.old.items ≤ KEPT }
    ensures { later.new.items ≡ numbered_from 1 later.old.items }
{
    let mut number = 1;
    for version in later.iter_mut() {
        version.renumber(number);
        number += 1;
    }
}
