//! Creating a store from a zone (own).
ghost use Rattle.std.specs.Prelude.{IfOk, string_bytes};
ghost use Rattle.store_recovery.specs.Created.{IsCreated};

use journal::{Head, TextSum};
use master_file::write_zone;
use std::alloc::{AllocError, Global};
use zone_tree::{Zone, ZoneRead};

/// A store created from a zone: the zone as text, and the head of its journal, which has no batch yet. `number` is the text's, the N of `zone-N`; `random` are
/// octets that no client knows; and `origin` identifies the text that the store was first created from, as the operator gave it. It allocates memory.
pub fn create_store(
    alloc: Global,
    zone: &Zone,
    number: u64,
    random: [u8; 16],
    origin: TextSum,
) -> Result<(String, Head), AllocError>
    ensures { IfOk result (λ r. IsCreated zone.now number random origin (string_bytes r.0) r.1) }
{
    // From here on it is known that the records are a zone.
    let _soa = zone.soa();
    let text = write_zone(alloc, zone)?;
    let sum = TextSum::of(text.as_bytes());
    let head = Head {
        number,
        random,
        text: sum,
        serial: zone.serial().0,
        origin,
    };
    Ok((text, head))
}
