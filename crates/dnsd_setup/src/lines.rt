//! The lines in the log of a running server.
use crate::levels::{level_of_event, level_of_store};
use dns_name::Name;
use dns_rdata::Serial;
use log_lines::Level;
use notify::Large;
use server_control::ServeFault;
use std::fmt::{self, Display, Formatter};
use std::net::SocketAddr;
use store_server::StoreEvent;
use zone_server::Event;

/// The warning for a zone whose apex is the root, if no origin was given.
pub const ROOT_APEX: &str =
    "warning: the zone's apex is the root: names without a final dot are below it; --origin NAME gives another origin";

/// A line of the log.
pub enum LogLine {
    /// The zone is served.
    Listening {
        /// The address and port.
        address: SocketAddr,
        /// The zone's apex.
        apex: Name,
        /// The zone's serial.
        serial: Serial,
        /// The number of records in the zone.
        records: usize,
    },
    /// The server listens on a wildcard address.
    Wildcard(SocketAddr),
    /// The limit on descriptors is lower than all connections would need.
    FewDescriptors {
        /// The limit.
        limit: usize,
        /// The number that they would need.
        wanted: usize,
        /// The maximum number of open connections per worker that results.
        places: usize,
    },
    /// The system's receive buffer for a socket has fewer octets than were requested.
    SmallBuffer {
        /// The size of the buffer.
        kept: u32,
        /// The size that was requested.
        wanted: u32,
    },
    /// Some secondaries are notified from addresses that routing picks.
    Routed,
    /// The apex is the root, and no origin was given.
    RootApex,
    /// The zone has more than stock secondaries accept.
    Large(Large),
    /// Updates are lost when the program exits.
    NoStore,
    /// Records are left out of the zone file that a reload reads.
    LeftOut(String),
    /// Records of the zone file that a reload reads have no effect.
    NoEffect(String),
    /// An event of the service.
    Event(Event),
    /// An event of the store.
    Store(StoreEvent),
    /// The zone is no longer served.
    Fault(ServeFault),
}

impl Drop for LogLine {
    fn drop(self) {
        match self {
            LogLine::Listening {
                address: _,
                apex: _,
                serial: _,
                records: _,
            } => {}
            LogLine::Wildcard(_) => {}
            LogLine::FewDescriptors {
                limit: _,
                wanted: _,
                places: _,
            } => {}
            LogLine::SmallBuffer { kept: _, wanted: _ } => {}
            LogLine::Routed => {}
            LogLine::RootApex => {}
            LogLine::Large(_) => {}
            LogLine::NoStore => {}
            LogLine::LeftOut(_) => {}
            LogLine::NoEffect(_) => {}
            LogLine::Event(_) => {}
            LogLine::Store(_) => {}
            LogLine::Fault(_) => {}
        }
    }
}

impl LogLine {
    /// The level of the line.
    pub fn level(&self) -> Level {
        match self {
            LogLine::Listening { .. } | LogLine::LeftOut(_) => Level::Notice,
            LogLine::Wildcard(_)
            | LogLine::FewDescriptors { .. }
            | LogLine::SmallBuffer { .. }
            | LogLine::Routed
            | LogLine::RootApex
            | LogLine::Large(_)
            | LogLine::NoStore
            | LogLine::NoEffect(_) => Level::Warning,
            LogLine::Event(event) => level_of_event(event),
            LogLine::Store(event) => level_of_store(event),
            LogLine::Fault(_) => Level::Error,
        }
    }
}

impl Display for LogLine {
    fn fmt<W: fmt::Write>(&self, f: &mut Formatter<W>) -> fmt::Result {
        match self {
            LogLine::Listening {
                address,
                apex,
                serial,
                records,
            } => {
                let (apex, serial) = (apex.to_text(), serial.0);
                write!(
                    f,
                    "listening on {address}: {apex} with serial {serial}, {records} records"
                )
            }
            LogLine::Wildcard(address) => write!(
                f,
                "{address}: UDP replies are sent from the address that routing picks; on a host with several addresses, use one --listen for each"
            ),
            LogLine::FewDescriptors {
                limit,
                wanted,
                places,
            } => write!(
                f,
                "file descriptor limit is {limit}, and all connections may need {wanted}: each worker has at most {places} open"
            ),
            LogLine::SmallBuffer { kept, wanted } => write!(
                f,
                "UDP: receive buffer of a socket is {kept} bytes, --udp-buffer requested {wanted}: raise net.core.rmem_max"
            ),
            LogLine::Routed => f.write_str(
                "NOTIFY to some secondaries is sent from the address that routing picks: no --listen names one of their family; use --notify ADDR@FROM",
            ),
            LogLine::RootApex => f.write_str(ROOT_APEX),
            LogLine::Large(large) => write!(f, "warning: {large}"),
            LogLine::NoStore => {
                f.write_str(
                    "updates will be lost when the server stops; use --store DIR to keep them",
                )
            }
            LogLine::LeftOut(said) | LogLine::NoEffect(said) => f.write_str(said.as_str()),
            LogLine::Event(event) => write!(f, "{event}"),
            LogLine::Store(event) => write!(f, "{event}"),
            LogLine::Fault(fault) => write!(f, "error: {fault}"),
        }
    }
}
