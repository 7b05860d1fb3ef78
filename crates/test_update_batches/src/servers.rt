//! The zone of the tests, and cells in whose servers batches are judged.
use dns_engine::{FirstZone, Naming, VersionPublisher, VersionReader};
use dns_name::Name;
use master_file::read_zone;
use memory_devices::{Play, Played, is_played};
use std::alloc::Global;
use std::sync::Wait;

/// The zone text of the tests, with serial 7.
pub(crate) const ZONE: &str = "example. 3600 IN SOA ns.example. host.example. 7 1 1 1 1
example. 3600 IN NS ns.example.
";

/// The zone text with the last serial, after which comes 0 (RFC 1982, 3.1).
pub(crate) const LAST_SERIAL: &str =
    "example. 3600 IN SOA ns.example. host.example. 4294967295 1 1 1 1
example. 3600 IN NS ns.example.
";

/// The result where there is no server, with the publisher and the readers.
pub(crate) fn not_played<Z: FirstZone, N: Naming>(
    publisher: VersionPublisher<Z, N>,
    readers: Vec<VersionReader<N>>,
) -> Played<Z, N> {
    Played {
        outcome: None,
        publisher,
        readers,
    }
}

/// Runs a test. Returns whether it passes; None if memory allocation fails.
pub(crate) fn passes<R: Wait, T: Play + Drop>(rt: &R, alloc: Global, run: T) -> Option<bool> {
    let zone = read_zone(alloc, ZONE.as_bytes(), &Name::root()).ok()?;
    is_played(rt, alloc, zone, &run)
}
