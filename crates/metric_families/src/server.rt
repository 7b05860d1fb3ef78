//! What is known of a server without counters.
ghost use Rattle.std.specs.Prelude.{◌≡◌, ◌++◌, ◌∷◌, [], IfOk, OnOk};
ghost use Rattle.metrics_text.specs.Families.{with_samples};
ghost use Rattle.metric_families.specs.Known.{server_known, zone_known, store_seen, notify_samples, notifies, notify_serials, serial_samples, secondaries_known, drops_known};

use crate::kinds::{COUNTER, GAUGE};
use crate::single::{labelled_single, put_labelled, put_of_two, single};
use metrics_text::Family;
use std::alloc::{AllocError, Global};
use std::marker::Model;

/// The program's version, as `dnsd_build_info` has it and `--version` prints it.
pub const VERSION: &str = "0.1.0";

/// What is known of a server.
#[derive(Clone, Copy)]
pub struct Facts<'a> {
    /// The program's version.
    pub version: &'static str,
    /// When the server was started, in seconds since 1970 (UTC).
    pub started: u64,
    /// The zone's name, as text.
    pub zone: &'a str,
    /// Its serial.
    pub serial: u32,
    /// How many records it has.
    pub records: u64,
    /// How many versions of it were published after the first.
    pub versions: u64,
}

/// The label of a zone's name.
const ZONE: &str = "zone";

/// The label of a secondary's address.
const SECONDARY: &str = "secondary";

/// Puts the families of what is known of a server after others. The fault is a request for memory that was refused; some may then be there.
pub fn server_families(
    alloc: Global,
    families: &mut Vec<Family>,
    facts: Facts<'_>,
) -> Result<(), AllocError>
    ensures { OnOk result (families.new.items ≡ families.old.items
        ++ server_known facts.entry.version.now facts.entry.started facts.entry.zone.now facts.entry.serial facts.entry.records facts.entry.versions) }
{
    let build = Family::new(
        alloc,
        "dnsd_build_info",
        "The version of the program",
        GAUGE,
    );
    families.push(labelled_single(build, alloc, "version", facts.version, 1)?)?;
    families.push(single(
        alloc,
        "process_start_time_seconds",
        "When the server was started, in seconds since 1970",
        GAUGE,
        facts.started,
    )?)?;
    put_zone(alloc, families, facts)?;
    Ok(())
}

/// Puts the families of what is known of the zone after others.
fn put_zone(alloc: Global, families: &mut Vec<Family>, facts: Facts<'_>) -> Result<(), AllocError>
    ensures { OnOk result (families.new.items ≡ families.old.items ++ zone_known facts.entry.zone.now facts.entry.serial facts.entry.records facts.entry.versions) }
{
    let (zone, serial) = (facts.zone, u64::from(facts.serial));
    let family = Family::new(alloc, "dnsd_zone_serial", "The serial of the zone", GAUGE);
    families.push(labelled_single(family, alloc, ZONE, zone, serial)?)?;
    let help = "How many records the zone has";
    let family = Family::new(alloc, "dnsd_zone_records", help, GAUGE);
    families.push(labelled_single(family, alloc, ZONE, zone, facts.records)?)?;
    let help = "Versions of the zone that were published after the first";
    let family = Family::new(alloc, "dnsd_zone_versions_total", help, COUNTER);
    families.push(labelled_single(family, alloc, ZONE, zone, facts.versions)?)?;
    Ok(())
}

/// What is known of a store.
#[derive(Clone, Copy)]
pub struct StoreFacts {
    /// Whether the last write failed.
    pub is_failing: bool,
    /// How many octets the journal has.
    pub journal: u64,
}

/// Puts the families of what is known of a store after others. The fault is a request for memory that was refused; some may then be there.
pub fn store_families(
    alloc: Global,
    families: &mut Vec<Family>,
    facts: StoreFacts,
) -> Result<(), AllocError>
    ensures { OnOk result (families.new.items ≡ families.old.items ++ store_seen facts.is_failing facts.journal) }
{
    families.push(single(
        alloc,
        "dnsd_store_failing",
        "Whether the last write failed",
        GAUGE,
        u64::from(facts.is_failing),
    )?)?;
    families.push(single(
        alloc,
        "dnsd_store_journal_bytes",
        "Bytes of the store's journal",
        GAUGE,
        facts.journal,
    )?)?;
    Ok(())
}

/// What is known of a secondary.
#[derive(Drop)]
pub struct SecondaryFacts {
    /// Its address and port.
    pub address: String,
    /// How many NOTIFYs were sent to it.
    pub sent: u64,
    /// How many of them it answered.
    pub answered: u64,
    /// How many serials were given up, since it did not answer.
    pub given_up: u64,
    /// The serial that it last answered for.
    pub serial: Option<u32>,
}

impl Model for SecondaryFacts {
    ghost use Rattle.std.specs.Prelude.{string_bytes};
    ghost use Rattle.metric_families.specs.Known.{SecondaryOf};

    ghost Value = { SecondaryOf };

    ghost view = { λ s. record { address = string_bytes s.address; sent = s.sent; answered = s.answered; given_up = s.given_up; serial = s.serial } };
}

/// Puts the families of what is known of secondaries after others. The fault is a request for memory that was refused; some may then be there.
pub fn secondary_families(
    alloc: Global,
    families: &mut Vec<Family>,
    secondaries: &[SecondaryFacts],
) -> Result<(), AllocError>
    ensures { OnOk result (families.new.items ≡ families.old.items ++ secondaries_known secondaries.now) }
{
    families.push(notifies(alloc, secondaries)?)?;
    families.push(notify_serials(alloc, secondaries)?)?;
    Ok(())
}

/// The family of NOTIFYs by secondary and by what became of them.
fn notifies(alloc: Global, secondaries: &[SecondaryFacts]) -> Result<Family, AllocError>
    ensures { IfOk result (λ family. family ≡ notifies secondaries.now) }
{
    let help = "NOTIFYs to a secondary, by what became of them";
    let mut family = Family::new(alloc, "dnsd_notify_total", help, COUNTER);
    for secondary in secondaries {
        put_notifies(alloc, &mut family, secondary)?;
    }
    Ok(family)
}

/// Puts the samples of a secondary's NOTIFYs after others.
fn put_notifies(
    alloc: Global,
    family: &mut Family,
    facts: &SecondaryFacts,
) -> Result<(), AllocError>
    ensures { OnOk result (family.new ≡ with_samples family.old (notify_samples facts.now)) }
{
    let secondary = (SECONDARY, facts.address.as_str());
    put_of_two(family, alloc, secondary, ("result", "sent"), facts.sent)?;
    put_of_two(
        family,
        alloc,
        secondary,
        ("result", "answered"),
        facts.answered,
    )?;
    put_of_two(
        family,
        alloc,
        secondary,
        ("result", "given_up"),
        facts.given_up,
    )?;
    Ok(())
}

/// The family of the serials that secondaries last answered for.
fn notify_serials(alloc: Global, secondaries: &[SecondaryFacts]) -> Result<Family, AllocError>
    ensures { IfOk result (λ family. family ≡ notify_serials secondaries.now) }
{
    let help = "The serial that a secondary last answered for";
    let mut family = Family::new(alloc, "dnsd_notify_serial", help, GAUGE);
    for secondary in secondaries {
        put_serial(
            alloc,
            &mut family,
            secondary.address.as_str(),
            secondary.serial,
        )?;
    }
    Ok(family)
}

/// Puts the sample of the serial that the secondary at an address last answered for after others, if it has answered.
fn put_serial(
    alloc: Global,
    family: &mut Family,
    address: &str,
    serial: Option<u32>,
) -> Result<(), AllocError>
    ensures { OnOk result (family.new ≡ with_samples family.old (serial_samples address.now serial)) }
{
    match serial {
        Some(serial) => put_labelled(family, alloc, SECONDARY, address, u64::from(serial)),
        None => Ok(()),
    }
}

/// What the system dropped of the datagrams to an address.
#[derive(Drop)]
pub struct Drops {
    /// The address and port.
    pub address: String,
    /// How many datagrams.
    pub count: u64,
}

impl Model for Drops {
    ghost use Rattle.std.specs.Prelude.{string_bytes};
    ghost use Rattle.metric_families.specs.Known.{DropsOf};

    ghost Value = { DropsOf };

    ghost view = { λ d. record { address = string_bytes d.address; count = d.count } };
}

/// Puts the family of what the system dropped after others. The fault is a request for memory that was refused.
pub fn drop_families(
    alloc: Global,
    families: &mut Vec<Family>,
    drops: &[Drops],
) -> Result<(), AllocError>
    ensures { OnOk result (families.new.items ≡ families.old.items ++ drops_known drops.now ∷ []) }
{
    families.push(dropped(alloc, drops)?)?;
    Ok(())
}

/// The family of datagrams that the system dropped, by address.
fn dropped(alloc: Global, drops: &[Drops]) -> Result<Family, AllocError>
    ensures { IfOk result (λ family. family ≡ drops_known drops.now) }
{
    let help = "Datagrams that the system dropped before the server received them";
    let mut family = Family::new(alloc, "dnsd_udp_drops_total", help, COUNTER);
    for each in drops {
        put_labelled(
            &mut family,
            alloc,
            "address",
            each.address.as_str(),
            each.count,
        )?;
    }
    Ok(family)
}
