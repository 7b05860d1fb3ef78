//! The newest versions of a zone.
ghost use Rattle.std.specs.Prelude.{◌≡◌, ◌≤◌, ◌-◌, [], ◌∷◌, ◌++◌, None, OnOk, length};
ghost use Rattle.dns_engine.specs.Held.{newest, KEPT};

use std::alloc::{AllocError, Global};
use std::mem;
use transfer_core::KEPT;
use zone_tree::{Version, Zone};

/// The newest versions of a zone, each with its changes since the one before it (RFC 1995, 4).
#[derive(Drop)]
pub struct RecentVersions {
    /// The last version.
    pub last: Version,
    /// The versions before it that are kept, at most [`KEPT`], the oldest first.
    pub older: Vec<Version>,
    ghost few: { length older.items ≤ KEPT },
}

impl RecentVersions {
    /// The first version of a zone alone. It allocates no memory.
    pub(crate) fn of(alloc: Global, zone: Zone) -> RecentVersions
        ensures last { result.last ≡ record { number = 0; zone = zone; changes = None } }
        ensures older { result.older.items ≡ [] }
    {
        RecentVersions {
            last: Version::first(zone),
            older: Vec::new(alloc),
        }
    }

    /// Adds a version after the last one, which is kept with the newest before it.
    pub(crate) fn push(&mut self, next: Version) -> Result<(), AllocError>
        ensures last { OnOk result (self.new.last ≡ next) }
        ensures older { OnOk result (self.new.older.items ≡ newest KEPT (self.old.older.items ++ self.old.last ∷ [])) }
    {
        make_room(&mut self.older);
        let before = mem::replace(&mut self.last, next);
        self.older.push(before)?;
        Ok(())
    }
}

/// Removes the oldest of versions where there are [`KEPT`].
fn make_room(older: &mut Vec<Version>)
    requires { length older.old.items ≤ KEPT }
    ensures { older.new.items ≡ newest (KEPT - 1) older.old.items }
{
    if older.len() < KEPT {
        return;
    }
    older.remove(0);
}
