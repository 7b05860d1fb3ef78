//! A table's steps, played by a notifier.
use crate::made::{NAMES, name, version_of};
use dns_name::Name;
use notify::{Due, Heard, MAX_NOTIFY, Notifier};
use std::alloc::Global;
use std::net::{Ipv4Addr, SocketAddr, SocketAddrV4};
use zone_tree::Version;

/// A step of a table.
#[derive(Clone, Copy)]
pub(crate) enum Step {
    /// The clock shows this.
    Clock(u64),
    /// The next version is served, of this serial.
    Serve(u32),
    /// What is due next is a NOTIFY of this serial to this secondary.
    Sent(u8, u32),
    /// What is due next is to tell of this secondary as one that doesn't answer.
    Fell(u8),
    /// Nothing is due, and one looks again in so many milliseconds.
    Quiet(Option<u64>),
    /// A secondary sends a reply with the ID of what was sent, by its place among all that was.
    Reply(u8, usize, Option<Heard>),
}

/// A notifier that is played with: the version that is served, and the IDs that were sent.
#[derive(Drop)]
struct Player {
    notifier: Notifier,
    version: Version,
    apex: Name,
    ids: Vec<[u8; 2]>,
    calls: u16,
}

/// The address of a secondary.
fn address_of(secondary: u8) -> SocketAddr {
    SocketAddr::V4(SocketAddrV4::new(Ipv4Addr::new(192, 0, 2, secondary), 53))
}

/// The serial in a NOTIFY whose SOA ends it (RFC 1035, 3.3.13).
fn serial_in(octets: &[u8]) -> Option<u32> {
    let at = octets.len().checked_sub(20)?;
    let mut serial = [0u8; 4];
    serial.copy_from_slice(octets.get(at..at.checked_add(4)?)?);
    Some(u32::from_be_bytes(serial))
}

impl Player {
    /// What is due next: to whom, and the serial that is sent, or None where it is told of.
    fn next(&mut self) -> Option<(SocketAddr, Option<u32>)> {
        let mut out = [0u8; MAX_NOTIFY];
        self.calls = self.calls.wrapping_add(1);
        match self.notifier.next(&self.version, self.calls, &mut out)? {
            Due::Silent(to) => Some((to, None)),
            Due::Send { to, len } => {
                self.ids.push([out[0], out[1]]).ok()?;
                Some((to, Some(serial_in(out.get(..len)?)?)))
            }
        }
    }

    /// What a reply is heard as that has the ID of what was sent, by its place; None where nothing was.
    fn reply(&mut self, secondary: u8, place: usize) -> Option<Option<Heard>> {
        let [high, low] = *self.ids.get(place)?;
        let octets = [high, low, 0xa4, 0, 0, 0, 0, 0, 0, 0, 0, 0];
        let from = address_of(secondary);
        Some(self.notifier.receive(&self.apex, from, &octets))
    }

    /// Whether the next version is served, of a serial; not where there is no memory for it.
    fn serve(&mut self, alloc: Global, serial: u32) -> bool {
        let number = self.version.number().saturating_add(1);
        match version_of(alloc, number, serial) {
            Some(version) => {
                self.version = version;
                true
            }
            None => false,
        }
    }

    /// Whether a step goes as it should.
    fn step(&mut self, alloc: Global, step: Step) -> bool {
        match step {
            Step::Clock(now) => {
                self.notifier.show(now);
                true
            }
            Step::Serve(serial) => self.serve(alloc, serial),
            Step::Sent(to, serial) => self.next() == Some((address_of(to), Some(serial))),
            Step::Fell(to) => self.next() == Some((address_of(to), None)),
            Step::Quiet(wait) => {
                let looked = self.notifier.next_look(self.version.number());
                self.next().is_none() && looked == wait
            }
            Step::Reply(from, place, want) => self.reply(from, place) == Some(want),
        }
    }
}

/// The place of the first step that doesn't go as it should, by one secondary or two, and the serial of the first version; None in it where all do.
pub(crate) fn first_wrong(
    alloc: Global,
    secondaries: usize,
    serial: u32,
    steps: &[Step],
) -> Option<Option<usize>> {
    let addresses = [address_of(1), address_of(2)];
    let mut player = Player {
        notifier: Notifier::new(alloc, addresses.get(..secondaries)?, 0).ok()?,
        version: version_of(alloc, 0, serial)?,
        apex: name(NAMES[0])?,
        ids: Vec::new(alloc),
        calls: 0,
    };
    for (place, step) in steps.iter().enumerate() {
        if !player.step(alloc, *step) {
            return Some(Some(place));
        }
    }
    Some(None)
}
