//! Events of a store (own).
use journal::LogFault;
use std::alloc::{AllocError, Global};
use std::fmt::{self, Display, Formatter};
use std::io;
use std::sync::Wait;
use store_compaction::CompactionEvent;

/// A log of a store's events.
pub trait StoreLog {
    /// Logs an event. An event that cannot be written is lost.
    fn tell_store<R: Wait>(&self, rt: &R, event: StoreEvent);
}

/// An event of a store. Its text is one line.
#[derive(Drop)]
pub enum StoreEvent {
    /// A batch was not written. Later batches are still tried, until a write succeeds.
    Failing(LogFault<io::Error>),
    /// A batch was written, after others that were not.
    Kept,
    /// The result of a step of a compaction.
    Compaction(CompactionEvent),
}

impl Display for StoreEvent {
    fn fmt<W: fmt::Write>(&self, f: &mut Formatter<W>) -> fmt::Result {
        match self {
            StoreEvent::Failing(fault) => {
                f.write_str("store: cannot write updates: ")?;
                write!(f, "{}", WriteFault { fault })?;
                f.write_str("; updates get SERVFAIL until a write succeeds")
            }
            StoreEvent::Kept => f.write_str("store: updates are written again"),
            StoreEvent::Compaction(event) => write_compaction(f, event),
        }
    }
}

/// The reason why a batch was not written.
#[derive(Clone, Copy)]
struct WriteFault<'a> {
    fault: &'a LogFault<io::Error>,
}

impl Display for WriteFault<'_> {
    fn fmt<W: fmt::Write>(&self, f: &mut Formatter<W>) -> fmt::Result {
        match self.fault {
            LogFault::Stuck => f.write_str("the journal accepts no writes after an earlier error"),
            LogFault::Full => f.write_str("the journal is full"),
            LogFault::NoMemory => f.write_str("out of memory"),
            LogFault::Disk(fault) => write!(f, "{fault}"),
        }
    }
}

/// The reason why a batch was not written, as text.
pub(crate) fn reason_of(alloc: Global, fault: &LogFault<io::Error>) -> Result<String, AllocError> {
    let fault = WriteFault { fault };
    format!(in alloc; "{fault}")
}

/// Writes the result of a step of a compaction.
fn write_compaction<W: fmt::Write>(f: &mut Formatter<W>, event: &CompactionEvent) -> fmt::Result {
    match event {
        // It is not logged: see `LoggedCompactions`.
        CompactionEvent::Started(_) => Ok(()),
        CompactionEvent::Replaced(number) => write!(
            f,
            "store: journal compacted into zone-{number}"
        ),
        CompactionEvent::NoText(fault) => write!(
            f,
            "store: cannot write the next zone text: {fault}; retrying every few seconds while updates arrive"
        ),
        CompactionEvent::NotReplaced(fault) => write!(
            f,
            "store: cannot replace the journal: {fault}; the old one stays in use; retrying every few seconds while updates arrive"
        ),
        CompactionEvent::Unknown(fault) => write!(
            f,
            "store: the old or the new journal may be in place after a crash: {fault}; updates get SERVFAIL until the journal is replaced again"
        ),
        CompactionEvent::NotRemoved(fault) => {
            write!(f, "store: cannot remove an unused zone text: {fault}")
        }
        CompactionEvent::NotBegun => f.write_str(
            "store: cannot start the next zone text: out of memory; retrying while updates arrive",
        ),
    }
}
