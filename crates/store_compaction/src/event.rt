//! Events of compactions (own).
use std::io;
use std::sync::Wait;

/// An event of a compaction.
#[derive(Debug, Drop)]
pub enum CompactionEvent {
    /// The next zone text, with this number, is started.
    Started(u64),
    /// The journal of the zone text with this number is now the store's.
    Replaced(u64),
    /// The zone text could not be written. The journal is still used, and another text is started later.
    NoText(io::Error),
    /// The journal of the next zone text could not be put in place. The previous journal is still used, and another text is started later.
    NotReplaced(io::Error),
    /// It is unknown which of two journals a crash leaves. Nothing is appended until another text, started later, has its journal in place.
    Unknown(io::Error),
    /// A file left by a compaction could not be removed.
    NotRemoved(io::Error),
    /// No memory is left to start a text, or no number for one.
    NotBegun,
}

/// Receives the events of compactions, for instance to log them.
pub trait CompactionLog {
    /// Reports an event.
    fn note<R: Wait>(&mut self, rt: &R, event: CompactionEvent);
}
