//! What the system knows of the process (Prometheus, Writing client libraries, Process metrics).
ghost use Rattle.std.specs.Prelude.{◌≡◌, ◌++◌, OnOk};
ghost use Rattle.metric_families.specs.Known.{process_told};

use crate::kinds::{COUNTER, GAUGE};
use crate::single::single;
use metrics_text::{Family, Number, Sample};
use std::alloc::{AllocError, Global};

/// What the system knows of the process.
#[derive(Clone, Copy)]
pub struct ProcessFacts {
    /// For how long it has run on processors, in nanoseconds.
    pub processor: u64,
    /// How many octets of memory it has.
    pub resident: u64,
    /// How many octets of addresses it has.
    pub in_all: u64,
}

/// Puts the families of what the system knows of the process after others. The fault is a request for memory that was refused; some may then be there.
pub fn process_families(
    alloc: Global,
    families: &mut Vec<Family>,
    facts: ProcessFacts,
) -> Result<(), AllocError>
    ensures { OnOk result (families.new.items ≡ families.old.items ++ process_told facts.processor facts.resident facts.in_all) }
{
    let help = "How long the process ran on processors";
    let mut processor = Family::new(alloc, "process_cpu_seconds_total", help, COUNTER);
    processor.push(Sample::new(alloc, Number::Nanoseconds(facts.processor)))?;
    families.push(processor)?;
    families.push(single(
        alloc,
        "process_resident_memory_bytes",
        "Bytes of memory that the process has",
        GAUGE,
        facts.resident,
    )?)?;
    families.push(single(
        alloc,
        "process_virtual_memory_bytes",
        "Bytes of addresses that the process has",
        GAUGE,
        facts.in_all,
    )?)?;
    Ok(())
}
