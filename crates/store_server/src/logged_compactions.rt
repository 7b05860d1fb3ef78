//! Logging of a store's events (own).
ghost use Rattle.std.specs.Prelude.{◌≡◌, None};
ghost use Rattle.store_server.specs.Failures.{failure_of};

use crate::event::{StoreEvent, StoreLog};
use std::io::ErrorKind;
use std::sync::Wait;
use store_compaction::{CompactionEvent, CompactionLog};

/// Logs the results of compactions: that one has its journal in place, and why one failed, unless that is the reason logged last (own).
pub struct LoggedCompactions<'a, L> {
    log: &'a L,
    logged: Option<ErrorKind>,
}

impl<'a, L> Drop for LoggedCompactions<'a, L> {
    fn drop(self) {
        let LoggedCompactions { log: _, logged: _ } = self;
    }
}

impl<'a, L> LoggedCompactions<'a, L> {
    /// One that writes to a log.
    pub fn new(log: &'a L) -> LoggedCompactions<'a, L>
        ensures { result.logged ≡ None }
    {
        LoggedCompactions { log, logged: None }
    }
}

/// The reason why a compaction failed, if it did.
fn failure_of(event: &CompactionEvent) -> Option<ErrorKind>
    ensures { result ≡ failure_of event.now }
{
    match event {
        CompactionEvent::NoText(fault)
        | CompactionEvent::NotReplaced(fault)
        | CompactionEvent::Unknown(fault) => Some(fault.kind()),
        CompactionEvent::NotBegun => Some(ErrorKind::OutOfMemory),
        CompactionEvent::Started(_)
        | CompactionEvent::Replaced(_)
        | CompactionEvent::NotRemoved(_) => None,
    }
}

impl<L: StoreLog> CompactionLog for LoggedCompactions<'_, L> {
    fn note<R: Wait>(&mut self, rt: &R, event: CompactionEvent) {
        if matches!(event, CompactionEvent::Started(_)) {
            return;
        }
        let failure = failure_of(&event);
        if failure.is_some() && failure == self.logged {
            return;
        }
        self.logged = failure;
        self.log.tell_store(rt, StoreEvent::Compaction(event));
    }
}
