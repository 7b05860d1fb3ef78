//! Slots that are used up: the replies to updates then, and that the published versions stay.
use crate::served::{Course, outcome};
use crate::streams::ALL;
use dns_engine::{FirstZone, VersionOwner, VersionReader};
use dns_message::{Parsed, Update, parse};
use dns_rdata::Rcode;
use memory_devices::octets_of;
use std::alloc::Global;
use std::collections::VecDeque;
use std::sync::Wait;
use zone_server::{Server, ServerName};

/// An update of `example.test.` (RFC 2136, 2) that adds an address of 192.0.2.0/24 at `new`, without the last octet of the address.
const UPDATE: &str =
    "432128000001000000010000076578616d706c6504746573740000060001036e6577c00c0001000100000e100004c00002";

/// The update that adds the address with this last octet. None if memory allocation fails.
pub(crate) fn update_of(alloc: Global, last: u8) -> Option<Update> {
    let mut octets = octets_of(alloc, UPDATE)?;
    octets.push(last).ok()?;
    match parse(alloc, &octets) {
        Parsed::Update(update) => Some(update),
        _ => None,
    }
}

/// The response code of the update that adds the address with this last octet, and the serial after it. None if memory allocation fails.
fn told_of<R: Wait, Z: FirstZone, N: ServerName>(
    rt: &R,
    alloc: Global,
    server: &Server<'_, Z, N>,
    reader: &mut VersionReader<N>,
    last: u8,
) -> Option<(Rcode, u32)> {
    let update = update_of(alloc, last)?;
    let (code, serials) = server.update(rt, alloc, reader, &update, true);
    Some((code, serials.after.0))
}

/// Owners of versions, in the order of the versions.
type Owners<'a, Z, N> = VecDeque<VersionOwner<'a, Z, N>>;

/// Owners of the first version and of 63 more, which updates make. None if one of them is not made.
fn hold_all<'a, R: Wait, Z: FirstZone, N: ServerName>(
    rt: &R,
    alloc: Global,
    server: &Server<'a, Z, N>,
    reader: &mut VersionReader<N>,
) -> Option<Owners<'a, Z, N>> {
    let mut owners = VecDeque::new(alloc);
    let first = server.cell().load(reader).ok()?;
    owners.push_back(first).ok()?;
    for last in 1..64u8 {
        if told_of(rt, alloc, server, reader, last)? != (Rcode::NoError, u32::from(last) + 1) {
            return None;
        }
        let owner = server.cell().load(reader).ok()?;
        owners.push_back(owner).ok()?;
    }
    Some(owners)
}

/// The number of the version that an owner's release buries.
fn buried<Z: FirstZone, N: ServerName>(owner: Option<VersionOwner<'_, Z, N>>) -> Option<u64> {
    owner?.release().buried()
}

/// A version in each slot: with owners of all versions, that of version 60 is released, and then that of the first. Only then is one more
/// update accepted.
pub(crate) fn go<R: Wait, Z: FirstZone, N: ServerName>(
    rt: &R,
    alloc: Global,
    server: &Server<'_, Z, N>,
    readers: &mut Vec<VersionReader<N>>,
) -> Option<bool> {
    let mut reader = readers.pop()?;
    let held = hold_all(rt, alloc, server, &mut reader);
    let outcome = match held {
        Some(owners) => goes_on(rt, alloc, server, &mut reader, owners),
        None => None,
    };
    let _ = readers.push(reader);
    outcome
}

/// The replies to one more update, while all versions have owners and after each release. Returns whether they are as expected.
fn goes_on<R: Wait, Z: FirstZone, N: ServerName>(
    rt: &R,
    alloc: Global,
    server: &Server<'_, Z, N>,
    reader: &mut VersionReader<N>,
    mut owners: Owners<'_, Z, N>,
) -> Option<bool> {
    let full = told_of(rt, alloc, server, reader, 64)?;
    let sixtieth = buried(owners.remove(60));
    // The history owns that version weakly, so its slot is not free.
    let still_full = told_of(rt, alloc, server, reader, 64)?;
    let first = buried(owners.pop_front());
    let taken = told_of(rt, alloc, server, reader, 64)?;
    let refused = (Rcode::ServFail, 64);
    let is_right = taken == (Rcode::NoError, 65) && (sixtieth, first) == (Some(60), Some(0));
    Some(is_right && full == refused && still_full == refused)
}

// While each version has an owner there is no slot for one more, and an update gets SERVFAIL until a slot is free (own).
#[test]
fn no_slot_until_a_version_is_let_go(rt: HostRuntime) {
    assert_eq!(rt;
        outcome(&rt, rt.alloc(), ALL, 0, &Course::AllSlots),
        Some(true)
    );
}
