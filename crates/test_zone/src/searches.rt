//! How often an answer searches the zone, and how the names of places are spelt.
use crate::made::{data_of, name, set_of, sets_of};
use dns_name::{Name, Sought};
use dns_rdata::{RData, RRset, RType, Ttl};
use lookup_core::{Place, answer, place};
use std::alloc::Global;
use std::cell::Cell;
use zone_tree::{Near, Walk, Zone, ZoneRead};

/// Sets before the exchanges of `mail`, and after them: an empty non-terminal `b`, a wildcard below `dyn`, zone cuts, one below the other, and
/// an alias of `web`.
const FRONT: &str = "@ NS, @ SOA, a.b TXT, *.dyn A, x.e.dyn A";

const BACK: &str = "sub NS-sub, ns.sub A, z.sub NS, web A, web AAAA, www CNAME-web";

/// The exchanges of `mail`: `web`, and a name that the wildcard covers.
fn exchanges(alloc: Global) -> Option<RRset> {
    let mut set = set_of(alloc, "mail MX-web", Ttl(3600))?;
    let (rtype, octets) = data_of("MX-dyn")?;
    let data = RData::from_wire(alloc, rtype, octets).ok()?;
    if data.rtype() == set.rtype() {
        set.insert(data).ok()?;
    }
    Some(set)
}

/// The zone of these sets.
fn zone_of(alloc: Global) -> Option<Zone> {
    let mut sets = sets_of(alloc, FRONT)?;
    sets.push(exchanges(alloc)?).ok()?;
    sets.append(&mut sets_of(alloc, BACK)?).ok()?;
    Zone::new(alloc, sets).ok()
}

/// A zone that counts the searches for a name; the SOA is found by none.
#[derive(Drop)]
struct Counted {
    zone: Zone,
    searches: Cell<u64>,
}

impl Counted {
    fn count(&self) {
        self.searches.set(self.searches.get().saturating_add(1));
    }
}

impl ZoneRead for Counted {
    ghost records = { λ counted. counted.zone };

    fn apex(&self) -> &Name {
        self.zone.apex()
    }

    fn rrset(&self, owner: &Name, rtype: RType) -> Option<&RRset> {
        self.count();
        self.zone.rrset(owner, rtype)
    }

    fn rrsets_at(&self, owner: &Name) -> &[RRset] {
        self.count();
        self.zone.rrsets_at(owner)
    }

    fn sets_at(&self, owner: &Sought<'_>) -> &[RRset] {
        self.count();
        self.zone.sets_at(owner)
    }

    fn around<'r>(&self, name: &Sought<'r>) -> Near<'_, 'r> {
        self.count();
        self.zone.around(name)
    }

    fn exists(&self, name: &Name) -> bool {
        self.count();
        self.zone.exists(name)
    }

    fn soa(&self) -> &RRset {
        self.zone.soa()
    }

    fn walk(&self) -> Walk<'_> {
        self.zone.walk()
    }
}

/// A name, a type, and how many searches they want: one for the name, which tells as well what exists above it, and one for
/// each name between the apex and the closest of it and its ancestors that exist, that one apart where it is the name. `www` wants those of
/// the alias and of its target, `mail` those of the exchanges and of the names of both hosts. At `y.z.sub` a zone cut ends the
/// way down; then comes the host of one of its servers. Of `nope`, `zz.b` and `p.dyn`, which don't exist, the source of synthesis
/// is searched as well.
const SEARCHES: [(&str, RType, u64); 13] = [
    ("example.", RType::SOA, 1),
    ("web", RType::A, 1),
    ("web", RType::MX, 1),
    ("web", RType::ANY, 1),
    ("a.b", RType::TXT, 2),
    ("x.e.dyn", RType::A, 3),
    ("www", RType::A, 2),
    ("mail", RType::MX, 3),
    ("y.z.sub", RType::A, 3),
    ("b", RType::A, 1),
    ("nope", RType::A, 2),
    ("zz.b", RType::A, 3),
    ("p.dyn", RType::A, 3),
];

/// How many searches the answer to a name and a type makes.
fn searches_of(zone: &Counted, asked: &str, rtype: RType) -> Option<u64> {
    let asked = name(asked)?;
    zone.searches.set(0);
    let _ = answer(zone, &asked, rtype);
    Some(zone.searches.get())
}

#[test]
fn searches(rt: HostRuntime) {
    let zone = Counted {
        zone: zone_of(rt.alloc()).expect(&rt, "a zone"),
        searches: Cell::new(0),
    };
    for (asked, rtype, count) in SEARCHES {
        assert_eq!(rt; searches_of(&zone, asked, rtype), Some(count), "{asked}");
    }
}

/// Whether a name stands at or below a cut, or at a source of synthesis, of this name as it is spelt.
fn is_spelt(zone: &Zone, asked: &str, want: &str) -> Option<bool> {
    match place(zone, &name(asked)?) {
        Place::Cut(of) | Place::Wild(of) => Some(of.wire() == name(want)?.wire()),
        _ => None,
    }
}

// The name of a cut is spelt as the name asked, which no reply shows.
#[test]
fn places(rt: HostRuntime) {
    let zone = zone_of(rt.alloc()).expect(&rt, "a zone");
    let cut = is_spelt(&zone, "y.z.SUB", "SUB");
    let source = is_spelt(&zone, "p.q.dyn", "*.dyn");
    assert_eq!(rt; (cut, source), (Some(true), Some(true)));
}
