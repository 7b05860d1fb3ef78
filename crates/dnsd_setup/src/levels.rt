//! The levels of events.
use log_lines::Level;
use store_compaction::CompactionEvent;
use store_server::StoreEvent;
use zone_server::{Event, JobEnd};

/// The level of an event of the service.
pub(crate) fn level_of_event(event: &Event) -> Level {
    match event {
        Event::Update { .. } | Event::Reloaded { .. } => Level::Info,
        Event::End { end, .. }
        | Event::Unlogged { end }
        | Event::ControlEnd { end }
        | Event::MetricsEnd { end } => level_of_end(end),
        Event::Serving | Event::Again { .. } => Level::Notice,
        Event::Lost { .. }
        | Event::Silent { .. }
        | Event::Refused { .. }
        | Event::Signed { .. }
        | Event::BadTsig { .. }
        | Event::NotReloaded(_)
        | Event::Large(_) => Level::Warning,
    }
}

/// The level of a thread's end.
fn level_of_end(end: &JobEnd) -> Level {
    match end {
        JobEnd::Done(_) => Level::Notice,
        JobEnd::Device | JobEnd::Spent | JobEnd::NoMemory => Level::Error,
    }
}

/// The level of an event of the store.
pub(crate) fn level_of_store(event: &StoreEvent) -> Level {
    match event {
        StoreEvent::Failing(_) | StoreEvent::Compaction(CompactionEvent::Unknown(_)) =>
            Level::Error,
        StoreEvent::Kept => Level::Notice,
        StoreEvent::Compaction(CompactionEvent::Started(_) | CompactionEvent::Replaced(_)) => {
            Level::Info
        }
        StoreEvent::Compaction(_) => Level::Warning,
    }
}
