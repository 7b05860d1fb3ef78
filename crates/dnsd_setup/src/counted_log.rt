//! A log whose events are counted.
use counters::{Counter, Refusal, ServerCounters};
use dns_rdata::Rcode;
use std::sync::Wait;
use store_compaction::CompactionEvent;
use store_server::{StoreEvent, StoreLog};
use zone_server::{Event, ServiceLog, Wanted};

/// A log, and where its events are counted, if they are.
pub struct CountedLog<'a, L> {
    log: &'a L,
    counters: Option<&'a ServerCounters>,
}

impl<'a, L> Drop for CountedLog<'a, L> {
    fn drop(self) {
        let CountedLog {
            log: _,
            counters: _,
        } = self;
    }
}

impl<'a, L> CountedLog<'a, L> {
    /// A log whose events are counted here, if they are.
    pub fn new(log: &'a L, counters: Option<&'a ServerCounters>) -> CountedLog<'a, L> {
        CountedLog { log, counters }
    }
}

impl<L: ServiceLog> ServiceLog for CountedLog<'_, L> {
    fn tell<R: Wait>(&self, rt: &R, event: Event) {
        if let Some(counters) = self.counters {
            if let Some(counter) = counter_of(&event) {
                counters.updates().add_many(rt, counter, 1);
            }
        }
        self.log.tell(rt, event);
    }
}

impl<L: StoreLog> StoreLog for CountedLog<'_, L> {
    fn tell_store<R: Wait>(&self, rt: &R, event: StoreEvent) {
        if let Some(counters) = self.counters {
            count_store(rt, counters, &event);
        }
        self.log.tell_store(rt, event);
    }
}

/// What an event counts as; None where it isn't counted.
fn counter_of(event: &Event) -> Option<Counter> {
    match event {
        Event::Update {
            serials: Some(serials),
            ..
        } => {
            if serials.before == serials.after {
                None
            } else {
                Some(Counter::UpdateChanged)
            }
        }
        Event::Update {
            code,
            serials: None,
            ..
        } => refusal_by(*code).map(Counter::UpdateRefused),
        Event::Refused {
            wanted: Wanted::Update,
            ..
        } => Some(Counter::UpdateRefused(Refusal::Permission)),
        Event::BadTsig {
            is_update: true,
            ..
        } => Some(Counter::UpdateRefused(Refusal::Signature)),
        _ => None,
    }
}

/// Why an update was refused that got a code; None where it wasn't (RFC 2136, 2.2).
fn refusal_by(code: Rcode) -> Option<Refusal> {
    match code {
        Rcode::NoError => None,
        Rcode::Refused => Some(Refusal::Permission),
        Rcode::NxDomain | Rcode::YXDomain | Rcode::YXRRSet | Rcode::NXRRSet => {
            Some(Refusal::Prerequisite)
        }
        Rcode::FormErr | Rcode::NotImp | Rcode::NotAuth | Rcode::NotZone | Rcode::BadVers => {
            Some(Refusal::Form)
        }
        Rcode::ServFail => Some(Refusal::Failure),
    }
}

/// Counts an event of the store: a compaction that is done.
fn count_store<R: Wait>(rt: &R, counters: &ServerCounters, event: &StoreEvent) {
    if let StoreEvent::Compaction(CompactionEvent::Replaced(_)) = event {
        counters.updates().add_many(rt, Counter::StoreCompaction, 1);
    }
}
