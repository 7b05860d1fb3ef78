//! The window's entries: versions by their numbers and serials, each owned weakly (RFC 1995, 5; own).
ghost use Rattle.std.specs.Prelude.{◌≡◌, ◌≤◌, ◌^◌, ◌++◌, ◌∷◌, [], length, nat_lt, IfOk, IfErr, OnOk};
ghost use Rattle.transfer_core.specs.Window.{fits};
ghost use Rattle.world_run.specs.Entries.{serials_in, span_of, leaving as says_leaving, leaving_for as says_leaving_for, entered, enters as says_enters, later as says_later};

use crate::fault::WorldFault;
use crate::owner_list::OwnerList;
use dns_rdata::Serial;
use std::alloc::Global;

/// The greatest number of entries of the window.
pub(crate) const MOST_ENTRIES: usize = 16;

/// An entry of the window.
#[derive(Clone, Copy)]
pub struct Entry {
    /// The version's number.
    pub number: u64,
    /// Its serial.
    pub serial: Serial,
    /// Its weak owner.
    pub owner: usize,
}

/// The serial under which a version is entered, where there is a window.
pub(crate) fn enters(window: usize, serial: Serial) -> Option<Serial>
    ensures { result ≡ says_enters window serial.0 }
{
    if window > 0 {
        return Some(serial);
    }
    None
}

/// The weak owners of the entries that leave the window for a new one of this serial, the oldest first.
///
/// `NoMemory` where an allocation was refused.
fn leaving(
    alloc: Global,
    window: usize,
    entries: &[Entry],
    serial: Serial,
) -> Result<OwnerList, WorldFault>
    ensures ok { IfOk result (λ owners. owners ≡ says_leaving window entries.now serial.0) }
    ensures within { IfOk result (λ owners. length owners ≤ length entries.now) }
    ensures refused { IfErr result (λ fault. fault ≡ WorldFault.NoMemory) }
{
    let mut owners = OwnerList::new(alloc);
    for at in 0..entries.len() {
        if fit(window, &entries[at..], serial) {
            return Ok(owners);
        }
        if let Err(fault) = owners.push(entries[at].owner) {
            return Err(fault);
        }
    }
    Ok(owners)
}

/// The same, where a version is entered; none where it isn't.
///
/// `NoMemory` where an allocation was refused.
pub(crate) fn leaving_for(
    alloc: Global,
    window: usize,
    entries: &[Entry],
    serial: Option<Serial>,
) -> Result<OwnerList, WorldFault>
    ensures ok { IfOk result (λ owners. owners ≡ says_leaving_for window entries.now serial) }
    ensures refused { IfErr result (λ fault. fault ≡ WorldFault.NoMemory) }
{
    match serial {
        None => Ok(OwnerList::new(alloc)),
        Some(serial) => leaving(alloc, window, entries, serial),
    }
}

/// Whether entries fit the window together with one of this serial.
fn fit(window: usize, entries: &[Entry], serial: Serial) -> bool
    ensures { result ≡ fits window (serials_in entries.now ++ serial.0 ∷ []) }
{
    entries.len() < window && span_less_than_half(entries, serial)
}

/// Whether the distance from the first of some entries through the others to a serial is less than half the ring (RFC 1982, 3.2).
fn span_less_than_half(entries: &[Entry], serial: Serial) -> bool
    ensures { result ≡ nat_lt (span_of (serials_in entries.now ++ serial.0 ∷ [])) (2 ^ 31) }
{
    let Some((first, others)) = entries.split_first() else {
        return true;
    };
    let mut last = first.serial;
    let mut sum = 0u64;
    for entry in others {
        sum += u64::from(last.distance(entry.serial));
        if sum >= u64::from(Serial::HALF_RING) {
            return false;
        }
        last = entry.serial;
    }
    sum + u64::from(last.distance(serial)) < u64::from(Serial::HALF_RING)
}

/// The window with one more entry, after those that don't leave it.
///
/// `NoMemory` where an allocation was refused.
pub(crate) fn put_entry(
    alloc: Global,
    window: usize,
    entries: &mut Vec<Entry>,
    entry: Entry,
) -> Result<(), WorldFault>
    ensures ok { OnOk result (entries.new.items ≡ entered window entries.old.items entry) }
    ensures refused { IfErr result (λ fault. fault ≡ WorldFault.NoMemory) }
{
    let gone = match leaving(alloc, window, entries, entry.serial) {
        Ok(owners) => owners.len(),
        Err(fault) => return Err(fault),
    };
    let Ok(mut staying) = entries[gone..].to_vec(alloc) else {
        return Err(WorldFault::NoMemory);
    };
    match staying.push(entry) {
        Ok(()) => {
            *entries = staying;
            Ok(())
        }
        Err(_) => Err(WorldFault::NoMemory),
    }
}

/// The weak owners of the entries after the one of the client's serial, up to a number; none where there is no such entry.
///
/// `NoMemory` where an allocation was refused.
pub(crate) fn later(
    alloc: Global,
    entries: &[Entry],
    number: u64,
    held: Option<Serial>,
) -> Result<OwnerList, WorldFault>
    ensures ok { IfOk result (λ owners. owners ≡ says_later number held entries.now) }
    ensures refused { IfErr result (λ fault. fault ≡ WorldFault.NoMemory) }
{
    let mut owners = OwnerList::new(alloc);
    let Some(serial) = held else {
        return Ok(owners);
    };
    let mut found = false;
    for entry in entries {
        if entry.number <= number {
            if found {
                owners.push(entry.owner)?;
            } else if entry.serial == serial {
                found = true;
            }
        }
    }
    Ok(owners)
}
