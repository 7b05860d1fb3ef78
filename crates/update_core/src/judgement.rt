//! Whether an update is taken (RFC 2136, 3.1 to 3.4.1).
ghost use Rattle.std.specs.Prelude.{◌≡◌};
ghost use Rattle.std.specs.Result.{result_err};
ghost use Rattle.update_core.specs.Verdict.{verdict};

use crate::prerequisites::check;
use crate::update_section::prescan;
use dns_message::Update;
use dns_rdata::Rcode;
use zone_tree::ZoneRead;

/// Whether an update is taken from a peer that may update, or may not: the code of the first rule that it breaks, of the zone
/// section, the prerequisites, the permission and the prescan in this order (RFC 2136, 3). It takes no memory.
pub fn verdict<Z: ZoneRead>(zone: &Z, update: &Update, may: bool) -> Result<(), Rcode>
    ensures { result_err result ≡ verdict (Z.records zone.now) update.now may }
{
    check(zone, update)?;
    // The permission comes after the prerequisites: what they tell, anyone may ask.
    if !may {
        return Err(Rcode::Refused);
    }
    prescan(zone, update)
}
