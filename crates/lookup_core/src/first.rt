//! What one look tells of an answer (RFC 1034, 4.3.2; RFC 2308, 2).
ghost use Rattle.std.specs.Prelude.{◌≡◌, ◌||◌, ◌==◌, true};
ghost use Rattle.dns_name.specs.Name.{is_under};
ghost use Rattle.dns_rdata.specs.Numbers.{type_ANY};
ghost use Rattle.zone_tree.specs.Zone.{apex_of};
ghost use Rattle.lookup_core.specs.Additional.{has_hosts};
ghost use Rattle.lookup_core.specs.First.{IsFirst, IsSeen};
ghost use Rattle.lookup_core.specs.Sections.{sections};
ghost use Rattle.lookup_core.specs.Shown.{sections_shown};

use crate::additional::has_hosts;
use crate::aliases::under;
use crate::look::{Look, look_below};
use crate::sections::negative_of;
use dns_name::Name;
use dns_rdata::{LentName, RType, Shown};
use zone_tree::ZoneRead;

/// An answer of one section, or what a first look found where the answer has more. It is small: a plain answer is written from where
/// its records stand.
#[derive(Drop)]
pub enum First<'z> {
    /// Data of the type asked, which name no host: the answer section shows them, and the others are empty.
    Data(Shown<'z>),
    /// The name exists without data of the type asked: the authority section shows the SOA (RFC 2308, 2.2).
    NoData(Shown<'z>),
    /// There is no such name: the authority section shows the SOA (RFC 2308, 2.1).
    NoName(Shown<'z>),
    /// An alias, a referral, or data that may name hosts.
    More(More<'z>),
}

/// What a first look found where the answer has more than one section.
#[derive(Drop)]
pub struct More<'z> {
    pub(crate) look: Look<'z>,
}

/// What is found at the name asked, which is at or below the apex, and whether it is the whole answer. No memory is taken.
pub fn first_look<'z, Z: ZoneRead>(zone: &'z Z, name: &'z Name, rtype: RType) -> First<'z>
    requires under { is_under name.now (apex_of (Z.records zone.now)) ≡ true }
    ensures { IsFirst (Z.records zone.now) name.now rtype.0 result }
{
    let soa = zone.soa();
    match look_below(zone, soa, name, rtype) {
        Look::Data(sets) if !may_have_hosts(rtype) => First::Data(under(
            LentName::spelt(name),
            sets,
        )),
        Look::NoData => First::NoData(negative_of(zone, soa)),
        Look::NoName => First::NoName(negative_of(zone, soa)),
        look => First::More(More { look }),
    }
}

/// Whether data that answer a type may name hosts: those of ANY, which are of all types, too.
fn may_have_hosts(rtype: RType) -> bool
    ensures { result ≡ (has_hosts rtype.0 || rtype.0 == type_ANY) }
{
    has_hosts(rtype) || rtype == RType::ANY
}
