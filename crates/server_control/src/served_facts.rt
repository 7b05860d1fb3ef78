//! What a server shows of itself, for Prometheus.
use crate::process_files::ProcessFiles;
use crate::udp_drops::UdpDrops;
use counters::{Counters, ServerCounters};
use metric_families::{
    Drops, Facts, ProcessFacts, SecondaryFacts, StoreFacts, VERSION, counter_families,
    drop_families, process_families, secondary_families, server_families, store_families,
};
use metrics_text::{Family, write_metrics};
use std::alloc::{AllocError, Global};
use std::sync::Wait;
use update_batches::SharedStoreState;
use zone_tree::{Version, Zone, ZoneRead};

/// How many records the last version has that they were counted of.
#[derive(Clone, Copy)]
pub(crate) struct RecordCount {
    counted: Option<(u64, u64)>,
}

impl RecordCount {
    /// They weren't counted yet.
    pub(crate) fn new() -> RecordCount {
        RecordCount { counted: None }
    }

    /// How many records a version has. They are counted anew only where it is another version than the last one.
    pub(crate) fn of(&mut self, version: &Version) -> u64 {
        let number = version.number();
        if let Some((last, records)) = self.counted {
            if last == number {
                return records;
            }
        }
        let records = count_of(version.zone()) as u64;
        self.counted = Some((number, records));
        records
    }
}

/// What is served of a server with its version that was published last, and of its store, if it has one.
pub(crate) fn metrics_of(
    alloc: Global,
    started: u64,
    version: &Version,
    records: u64,
    counted: Option<(&ServerCounters, &Counters)>,
    store: Option<StoreFacts>,
) -> Result<Vec<u8>, AllocError> {
    let zone = version.zone();
    let apex = zone.apex().to_text();
    let facts = Facts {
        version: VERSION,
        started,
        zone: apex.as_str(),
        serial: zone.serial().0,
        records,
        versions: version.number(),
    };
    let mut families = Vec::new(alloc);
    server_families(alloc, &mut families, facts)?;
    if let Some((server, sum)) = counted {
        put_counted(alloc, &mut families, server, sum, store.is_some())?;
    }
    if let Some(facts) = store {
        store_families(alloc, &mut families, facts)?;
    }
    let mut text = Vec::new(alloc);
    write_metrics(&mut text, families.as_slice())?;
    Ok(text)
}

/// What is seen of a store, if there is one. The fault is a request for memory that was refused.
pub(crate) fn store_facts<R: Wait>(
    rt: &R,
    alloc: Global,
    store: &Option<SharedStoreState>,
) -> Result<Option<StoreFacts>, AllocError> {
    match store {
        None => Ok(None),
        Some(state) => Ok(Some(StoreFacts {
            is_failing: state.fault(rt, alloc)?.is_some(),
            journal: state.journal(),
        })),
    }
}

/// Puts the families of what is counted after others.
fn put_counted(
    alloc: Global,
    families: &mut Vec<Family>,
    server: &ServerCounters,
    sum: &Counters,
    has_store: bool,
) -> Result<(), AllocError> {
    counter_families(alloc, families, sum, has_store)?;
    if !server.secondaries().is_empty() {
        let secondaries = secondaries_of(alloc, server)?;
        secondary_families(alloc, families, secondaries.as_slice())?;
    }
    Ok(())
}

/// Puts what the system knows at the end of what is served: what it dropped, and what it knows of the process; what can't be read is left out. The fault is a request for memory that was refused.
pub(crate) fn put_system(
    alloc: Global,
    text: &mut Vec<u8>,
    drops: &mut UdpDrops,
    process: &mut ProcessFiles,
) -> Result<(), AllocError> {
    let dropped = drops.read(alloc)?;
    if let Some(dropped) = &dropped {
        put_drops(alloc, text, dropped.as_slice())?;
    }
    if let Some(facts) = process.read(alloc)? {
        put_process(alloc, text, facts)?;
    }
    Ok(())
}

/// Puts what the system dropped at the end of what is served.
fn put_drops(alloc: Global, text: &mut Vec<u8>, drops: &[Drops]) -> Result<(), AllocError> {
    let mut families = Vec::new(alloc);
    drop_families(alloc, &mut families, drops)?;
    write_metrics(text, families.as_slice())
}

/// Puts what the system knows of the process at the end of what is served.
fn put_process(alloc: Global, text: &mut Vec<u8>, facts: ProcessFacts) -> Result<(), AllocError> {
    let mut families = Vec::new(alloc);
    process_families(alloc, &mut families, facts)?;
    write_metrics(text, families.as_slice())
}

/// What is known of the secondaries.
fn secondaries_of(
    alloc: Global,
    server: &ServerCounters,
) -> Result<Vec<SecondaryFacts>, AllocError> {
    let mut facts = Vec::new(alloc);
    for each in server.secondaries() {
        let address = each.address;
        facts.push(SecondaryFacts {
            address: format!(in alloc; "{address}")?,
            sent: each.sent(),
            answered: each.answered(),
            given_up: each.given_up(),
            serial: each.serial(),
        })?;
    }
    Ok(facts)
}

/// How many records a zone has.
pub(crate) fn count_of(zone: &Zone) -> usize {
    let mut records = 0usize;
    for set in zone.walk() {
        records = records.saturating_add(set.data().len());
    }
    records
}
