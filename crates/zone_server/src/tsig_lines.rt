//! The log of signed requests that are refused.
use crate::service_log::{Event, ServiceLog};
use crate::tsig_log::{TsigFault, TsigLog};
use dns_name::Name;
use std::net::SocketAddr;
use std::sync::Wait;

/// Logs signed requests that are refused to the log of the service.
#[derive(Drop)]
pub struct TsigLines<'a, L> {
    log: &'a L,
}

impl<'a, L: ServiceLog> TsigLines<'a, L> {
    /// Such a log.
    pub fn new(log: &'a L) -> TsigLines<'a, L> {
        TsigLines { log }
    }
}

impl<'a, L: ServiceLog> TsigLog for TsigLines<'a, L> {
    fn tell_fault<R: Wait>(
        &self,
        rt: &R,
        from: SocketAddr,
        key: &Name,
        fault: TsigFault,
        is_update: bool,
    ) {
        let event = Event::BadTsig {
            from,
            key: key.copy(),
            fault,
            is_update,
        };
        self.log.tell(rt, event);
    }
}
