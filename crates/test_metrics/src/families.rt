//! What a server tells of itself, as a whole text.
use metric_families::{Facts, server_families};
use metrics_text::write_metrics;

/// What is known of a server.
const FACTS: Facts<'static> = Facts {
    version: "0.1.0",
    started: 1_700_000_000,
    zone: "example.test.",
    serial: 7,
    records: 13,
    versions: 6,
};

/// The text of it (prometheus.io, Exposition formats).
const TOLD: &str = "# HELP dnsd_build_info The version of the program
# TYPE dnsd_build_info gauge
dnsd_build_info{version=\"0.1.0\"} 1
# HELP process_start_time_seconds When the server was started, in seconds since 1970
# TYPE process_start_time_seconds gauge
process_start_time_seconds 1700000000
# HELP dnsd_zone_serial The serial of the zone
# TYPE dnsd_zone_serial gauge
dnsd_zone_serial{zone=\"example.test.\"} 7
# HELP dnsd_zone_records How many records the zone has
# TYPE dnsd_zone_records gauge
dnsd_zone_records{zone=\"example.test.\"} 13
# HELP dnsd_zone_versions_total Versions of the zone that were published after the first
# TYPE dnsd_zone_versions_total counter
dnsd_zone_versions_total{zone=\"example.test.\"} 6
";

#[test]
fn tells_of_a_server(rt: HostRuntime) -> Result<(), std::alloc::AllocError> {
    let alloc = rt.alloc();
    let mut families = Vec::new(alloc);
    server_families(alloc, &mut families, FACTS)?;
    let mut text = Vec::new(alloc);
    write_metrics(&mut text, families.as_slice())?;
    assert_eq!(rt; text.as_slice(), TOLD.as_bytes());
    Ok(())
}
