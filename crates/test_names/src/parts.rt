//! The parts of names, their numbers in front, and names that are lent.
use crate::made::{name, stored};
use dns_name::{Sought, SoughtRoom};
use dns_rdata::LentName;
use std::alloc::Global;

/// Whether a name has two labels, its parent, and that parent with the label `*` in front (RFC 1034, 3.1; RFC 4592, 2.1.1).
fn has_parts(alloc: Global) -> Option<bool> {
    let own = name(b"www.example.");
    let parent = own.parent()?;
    let wild = parent.with_asterisk()?;
    let outcome = format!(in alloc; "{} {parent:?} {wild:?}", own.labels().count()).ok()?;
    Some(outcome.as_str() == "2 example. *.example.")
}

/// The numbers before `host1.example` and `host12.example` as of names below `example`: eight octets each, the highest first.
fn fronts(alloc: Global) -> Option<[u64; 2]> {
    let base = stored(alloc, &name(b"example"))?;
    let mut room = SoughtRoom::new();
    let first = Sought::new(&name(b"HOST1.example"), &mut room).front(&base);
    Some([first, stored(alloc, &name(b"host12.example"))?.front(&base)])
}

/// Whether the octets of a name are lent where it is spelt, and none of a name that a zone keeps, which is the same in another case
/// (RFC 4343, 3).
fn lends(alloc: Global) -> Option<[bool; 4]> {
    let own = name(b"Www.example");
    let kept = stored(alloc, &name(b"wWW.eXample"))?;
    let lent = LentName::stored(&kept);
    Some([
        LentName::spelt(&own).octets() == Some(own.wire()),
        LentName::root().octets() == Some([0].as_slice()),
        lent.octets().is_none(),
        lent.is_same(&own),
    ])
}

#[test]
fn parts_and_names_that_are_lent(rt: HostRuntime) {
    assert!(rt; has_parts(rt.alloc()) == Some(true));
    // `host1`, its closing octet and two zeros after the end; `host12`, its closing octet and one.
    assert_eq!(rt;
        fronts(rt.alloc()),
        Some([0x686f_7374_3100_0000, 0x686f_7374_3132_0000])
    );
    assert_eq!(rt; lends(rt.alloc()), Some([true; 4]));
}
