//! All secondaries: what is due to them next, and what they answer.
ghost use Rattle.std.specs.Prelude.{◌≡◌, ◌≤◌, true, length, map, IfOk};
ghost use Rattle.notify.specs.Notified.{untold, shown};
ghost use Rattle.notify.specs.Copies.{due_in, is_due, soonest};
ghost use Rattle.notify.specs.Turns.{FindsFirst, TurnsAs, GoesOn, IsAnsweredBy, heard_of, Hears};

use crate::due::{Due, Heard};
use crate::message::{MAX_NOTIFY, write_notify};
use crate::secondary::{Secondary, next_notify, sooner};
use dns_name::Name;
use std::alloc::{AllocError, Global};
use std::marker::Model;
use std::net::SocketAddr;
use zone_tree::Version;

/// The secondaries of a zone, and what is known of each. It has no clock of its own: times are told to it, in milliseconds, and a clock
/// that goes back makes nothing due.
#[derive(Drop)]
pub struct Notifier {
    secondaries: Vec<Secondary>,
    time: u64,
    clock: u64,
}

impl Model for Notifier {
    ghost use Rattle.notify.specs.Notified.{Notified};

    ghost Value = { Notified };

    ghost view = { λ a. record { secondaries = a.secondaries.items; time = a.time; clock = a.clock } };
}

impl Notifier {
    /// The secondaries at these addresses, which were told nothing yet, at a time. `AllocError` where a growth was refused.
    pub fn new(alloc: Global, addresses: &[SocketAddr], now: u64) -> Result<Notifier, AllocError>
        ensures { IfOk result (λ n. n ≡ record { secondaries = map untold addresses.now; time = 0; clock = now }) }
    {
        let mut secondaries = Vec::new(alloc);
        for address in addresses {
            secondaries.push(Secondary::new(*address))?;
        }
        Ok(Notifier {
            secondaries,
            time: 0,
            clock: now,
        })
    }

    /// The clock shows this time.
    pub fn show(&mut self, now: u64)
        ensures { self.new ≡ shown now self.old }
    {
        let passed = now.saturating_sub(self.clock);
        self.time = self.time.saturating_add(passed);
        self.clock = now;
    }

    /// What is due next, where a version is served; None where nothing is. A NOTIFY is written to the front of `out`; it has this ID
    /// where it is the first of its version to its secondary. It takes no memory.
    pub fn next(&mut self, version: &Version, id: u16, out: &mut [u8]) -> Option<Due>
        requires { MAX_NOTIFY ≤ length out.old }
        ensures { GoesOn version.now.number id version.now.zone self.old result out.new self.new }
    {
        let index = first_due(self.secondaries.as_slice(), self.time, version.number())?;
        let (due, later) = turn(self.secondaries[index], self.time, version, id, out);
        self.secondaries[index] = later;
        Some(due)
    }

    /// What is heard by octets from an address, for the zone at an apex; None where they are no answer to what the secondary there was
    /// told last: then nothing changes.
    pub fn receive(&mut self, apex: &Name, from: SocketAddr, octets: &[u8]) -> Option<Heard>
        ensures { Hears apex.now from octets.now self.old result self.new }
    {
        let index = first_answering(self.secondaries.as_slice(), apex, from, octets)?;
        let secondary = self.secondaries[index];
        self.secondaries[index] = secondary.as_answered();
        Some(heard_of(secondary.silent))
    }

    /// In how many milliseconds to look again, where a version of this number is served; None where nothing is due before a newer one
    /// is served.
    pub fn next_look(&self, number: u64) -> Option<u64>
        ensures { result ≡ soonest (map (due_in self.now.time number) self.now.secondaries) }
    {
        soonest_due(self.secondaries.as_slice(), self.time, number)
    }
}

/// A secondary's turn, at what is due to it where a version is served: what is done, and what is known of it then.
fn turn(
    secondary: Secondary,
    time: u64,
    version: &Version,
    id: u16,
    out: &mut [u8],
) -> (Due, Secondary)
    requires { MAX_NOTIFY ≤ length out.old }
    ensures { TurnsAs time version.now.number id version.now.zone out.new secondary result.0 result.1 }
{
    let to = secondary.address;
    if secondary.falls_silent() {
        return (Due::Silent(to), secondary.as_silent());
    }
    let telling = next_notify(secondary.telling, version.number(), id, time);
    let len = write_notify(version.zone(), telling.id, out);
    (Due::Send { to, len }, secondary.as_notified(telling))
}

/// What is heard of a secondary that answers.
fn heard_of(silent: bool) -> Heard
    ensures { result ≡ heard_of silent }
{
    if silent {
        Heard::Again
    } else {
        Heard::Answered
    }
}

/// The place of the first secondary that something is due to, at a time and where a version of this number is served.
fn first_due(secondaries: &[Secondary], time: u64, number: u64) -> Option<usize>
    ensures { FindsFirst (λ s. is_due time number s ≡ true) secondaries.now result }
{
    for (index, secondary) in secondaries.iter().enumerate() {
        if secondary.is_due(time, number) {
            return Some(index);
        }
    }
    None
}

/// The place of the first secondary at an address that octets from there answer.
fn first_answering(
    secondaries: &[Secondary],
    apex: &Name,
    from: SocketAddr,
    octets: &[u8],
) -> Option<usize>
    ensures { FindsFirst (IsAnsweredBy apex.now from octets.now) secondaries.now result }
{
    for (index, secondary) in secondaries.iter().enumerate() {
        if secondary.answers(apex, from, octets) {
            return Some(index);
        }
    }
    None
}

/// In how many milliseconds something is due to one of the secondaries first; None where nothing is due to any.
fn soonest_due(secondaries: &[Secondary], time: u64, number: u64) -> Option<u64>
    ensures { result ≡ soonest (map (due_in time number) secondaries.now) }
{
    let mut found = None;
    for secondary in secondaries {
        found = sooner(found, secondary.due_in(time, number));
    }
    found
}
