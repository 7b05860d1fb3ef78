//! From a question to its answer (RFC 1034, 4.3.2).
ghost use Rattle.std.specs.Prelude.{◌≡◌, []};
ghost use Rattle.lookup_core.specs.First.{IsSeen};
ghost use Rattle.lookup_core.specs.Sections.{sections};
ghost use Rattle.lookup_core.specs.Shown.{front_shown, sections_shown};

use crate::additional::additional_of;
use crate::aliases::{End, follow};
use crate::first::More;
use crate::look::look_up;
use crate::sections::{Answer, Front, authority_of, is_referral, rcode_of};
use dns_name::Name;
use dns_rdata::RType;
use zone_tree::ZoneRead;

/// The answer of a zone to a name and a type: aliases are followed to their end, and what is found there fills the
/// sections (RFC 1034, 4.3.2; RFC 2308, 2; RFC 4592, 3.3; RFC 6604, 3). The first owner shown is the name as it is spelt
/// here.
///
/// The zone speaks for names at or below its apex: whether the name is one, the caller asks first. No memory is taken.
pub fn answer<'z, Z: ZoneRead>(zone: &'z Z, name: &'z Name, rtype: RType) -> Answer<'z>
    ensures { sections_shown result ≡ sections (Z.records zone.now) name.now rtype.0 }
{
    let look = look_up(zone, name, rtype);
    answer_from(zone, name, rtype, More { look })
}

/// The same answer, from what a first look found.
pub fn answer_from<'z, Z: ZoneRead>(
    zone: &'z Z,
    name: &'z Name,
    rtype: RType,
    first: More<'z>,
) -> Answer<'z>
    requires { IsSeen (Z.records zone.now) name.now rtype.0 first.look }
    ensures { sections_shown result ≡ sections (Z.records zone.now) name.now rtype.0 }
{
    let mut front = Front::new();
    fill_front(zone, name, rtype, first, &mut front);
    let Front {
        rcode,
        aa,
        answer,
        authority,
        below_cut,
    } = front;
    let additional = additional_of(zone, answer.as_slice(), authority.as_slice());
    Answer {
        rcode,
        aa,
        answer,
        authority,
        additional,
        below_cut,
    }
}

/// Fills an empty front with the same answer, but for its additional section.
pub fn fill_front<'z, Z: ZoneRead>(
    zone: &'z Z,
    name: &'z Name,
    rtype: RType,
    first: More<'z>,
    front: &mut Front<'z>,
)
    requires seen { IsSeen (Z.records zone.now) name.now rtype.0 first.look }
    requires empty { front.old.answer.items ≡ [] }
    ensures { front_shown (Z.records zone.now) front.new ≡ sections (Z.records zone.now) name.now rtype.0 }
{
    let end = follow(zone, name, rtype, first.look, &mut front.answer);
    front.rcode = rcode_of(&end);
    front.below_cut = is_referral(&end);
    front.authority = authority_of(zone, &end);
    // A referral is authoritative for the aliases before it alone.
    front.aa = !front.answer.is_empty() || !front.below_cut;
    if let End::Data(found) = end {
        front.answer.push(found);
    }
}
