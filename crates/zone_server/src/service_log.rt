//! The log of a running server: a line for each change of the zone, and one for each worker that ends.
use crate::tsig_log::TsigFault;
use dns_name::Name;
use dns_rdata::Rcode;
use notify::Large;
use requests::Uncovered;
use rights::TypeWord;
use serve_core::Transport;
use std::fmt::{self, Display, Formatter};
use std::net::SocketAddr;
use std::sync::Wait;
use update_batches::Serials;

/// A log of events.
pub trait ServiceLog {
    /// Logs an event. An event that cannot be written is lost.
    fn tell<R: Wait>(&self, rt: &R, event: Event);
}

/// An event of a running server. Its text is one line.
#[derive(Drop)]
pub enum Event {
    /// A peer that may update has sent an update, which got this code (RFC 2136, 3).
    Update {
        /// The peer's address.
        from: SocketAddr,
        /// The code.
        code: Rcode,
        /// The update's own serials, those of the zone before and after it. None if its code is not NOERROR.
        serials: Option<Serials>,
    },
    /// The zone's text was read again, and its zone published in place of the one before.
    Reloaded {
        /// The serials of the zone before and after it.
        serials: Serials,
        /// How many records went, the SOA not counted.
        deleted: usize,
        /// How many records came, the SOA not counted.
        added: usize,
    },
    /// The zone's text was to be read again, and the zone is the one before, for this reason.
    NotReloaded(String),
    /// A peer's request was refused for lack of permission (RFC 2136, 3.3; RFC 5936, 2.2.1).
    Refused {
        /// The peer's address.
        from: SocketAddr,
        /// The request.
        wanted: Wanted,
        /// The first record of an update that no rule covers, if its sender may update other records.
        record: Option<Uncovered>,
    },
    /// A request is signed (RFC 8945), but no keys are configured, so the signature is not checked.
    Signed {
        /// The peer's address.
        from: SocketAddr,
        /// The request.
        wanted: Wanted,
        /// The name of the key.
        key: Name,
    },
    /// A signed request is refused by its TSIG (RFC 8945, 5.2).
    BadTsig {
        /// The peer's address.
        from: SocketAddr,
        /// The name of the key.
        key: Name,
        /// The reason why.
        fault: TsigFault,
        /// Whether the request is an update.
        is_update: bool,
    },
    /// An update has added records to an owner that then has more than stock secondaries take.
    Large(Large),
    /// A worker's thread has ended.
    End {
        /// The worker's number, from 1.
        worker: usize,
        /// The transport of the thread's requests.
        transport: Transport,
        /// The reason why it ended.
        end: JobEnd,
    },
    /// All threads of all workers are running. It has no text: a log has lines of its own for this.
    Serving,
    /// Connections of a worker have failed, or were turned away, since this was last logged.
    Lost {
        /// The worker's number, from 1.
        worker: usize,
        /// Their number by cause.
        losses: Losses,
    },
    /// A secondary does not answer NOTIFY (RFC 1996, 3.6).
    Silent {
        /// Its address and port.
        secondary: SocketAddr,
    },
    /// A secondary that did not answer answers again.
    Again {
        /// Its address and port.
        secondary: SocketAddr,
    },
    /// The thread that takes the operator's commands has ended.
    ControlEnd {
        /// The reason why it ended.
        end: JobEnd,
    },
    /// The thread that tells metrics has ended.
    MetricsEnd {
        /// The reason why it ended.
        end: JobEnd,
    },
    /// The thread that notifies secondaries has ended.
    Unlogged {
        /// The reason why it ended.
        end: JobEnd,
    },
}

/// How many connections have failed or were turned away, by cause.
#[derive(Clone, Copy, Default, PartialEq, Eq)]
pub struct Losses {
    /// Failed reads and writes.
    pub failed: u64,
    /// Lack of memory, or of a version.
    pub starved: u64,
    /// Idle for too long.
    pub idle: u64,
    /// A request that took too long to arrive.
    pub unfinished: u64,
    /// A reply that took too long to be read.
    pub untaken: u64,
    /// A reply that was read too slowly.
    pub slow: u64,
    /// Closed while waiting for a request, to make room for another connection.
    pub evicted: u64,
    /// Turned away, since no connection was free, and none that may be closed waited for a request.
    pub turned_away: u64,
    /// Turned away for lack of a descriptor or of memory.
    pub no_room: u64,
}

/// A request that needs permission.
#[derive(Clone, Copy, Debug, PartialEq, Eq)]
pub enum Wanted {
    /// An update of the zone.
    Update,
    /// A transfer of the zone.
    Transfer,
}

impl Display for Wanted {
    fn fmt<W: fmt::Write>(&self, f: &mut Formatter<W>) -> fmt::Result {
        f.write_str(match self {
            Wanted::Update => "update",
            Wanted::Transfer => "transfer",
        })
    }
}

/// The reason why a worker's job ended.
#[derive(Clone, Copy)]
pub enum JobEnd {
    /// The worker has reached its limit of datagrams and connections, or of NOTIFYs.
    Done(u64),
    /// Its socket failed.
    Device,
    /// No version could be loaded.
    Spent,
    /// An allocation failed.
    NoMemory,
}

impl Display for Event {
    fn fmt<W: fmt::Write>(&self, f: &mut Formatter<W>) -> fmt::Result {
        match self {
            Event::Update {
                from,
                code,
                serials,
            } => {
                let code = name_of(*code);
                write!(f, "update from {from}: {code}")?;
                write_serials(f, *serials)
            }
            Event::Reloaded {
                serials,
                deleted,
                added,
            } => {
                let (before, after) = (serials.before.0, serials.after.0);
                write!(
                    f,
                    "reload: serial {before} to {after}, {deleted} records deleted, {added} added"
                )
            }
            Event::NotReloaded(reason) => write!(f, "reload failed: {reason}"),
            Event::Refused {
                from,
                wanted,
                record: Some(record),
            } => {
                let Uncovered { owner, rtype } = record;
                let word = TypeWord(*rtype);
                write!(
                    f,
                    "{wanted} from {from} refused: no rule permits {owner} {word}"
                )
            }
            Event::Refused {
                from,
                wanted,
                record: None,
            } => {
                write!(
                    f,
                    "{wanted} from {from} refused: not permitted by --allow or --may"
                )
            }
            Event::Signed { from, wanted, key } => {
                let key = key.to_text();
                write!(
                    f,
                    "{wanted} from {from}: signed with key {key}, but no keys are configured; signature not checked"
                )
            }
            Event::BadTsig {
                from,
                key,
                fault,
                ..
            } => {
                let (key, reason) = (key.to_text(), reason_of(*fault));
                write!(
                    f,
                    "request from {from} refused: signed with key {key}, {reason}"
                )
            }
            Event::Large(large) => write!(f, "{large}"),
            Event::End {
                worker,
                transport,
                end,
            } => {
                let carrier = carrier_of(*transport);
                write!(f, "worker {worker} ({carrier}) exited: ")?;
                write_end(f, *end)
            }
            Event::Serving => Ok(()),
            Event::Lost { worker, losses } => {
                write!(f, "worker {worker} (TCP)")?;
                write_losses(f, *losses)
            }
            Event::Silent { secondary } => {
                write!(f, "secondary {secondary} does not answer NOTIFY")
            }
            Event::Again { secondary } => {
                write!(f, "secondary {secondary} answers NOTIFY again")
            }
            Event::ControlEnd { end } => {
                f.write_str("control thread exited: ")?;
                write_control(f, *end)
            }
            Event::MetricsEnd { end } => {
                f.write_str("metrics thread exited: ")?;
                write_metrics(f, *end)
            }
            Event::Unlogged { end } => {
                f.write_str("notify thread exited: ")?;
                write_unlogged(f, *end)
            }
        }
    }
}

/// The reason why a signed request is refused, in words.
fn reason_of(fault: TsigFault) -> &'static str {
    match fault {
        TsigFault::BadKey => "which isn't known with that algorithm (BADKEY)",
        TsigFault::BadSig => "whose secret is another (BADSIG)",
        TsigFault::BadTime => "at a time too far from this server's (BADTIME)",
        TsigFault::BadTrunc => "with a MAC that is cut short (BADTRUNC)",
    }
}

/// Writes the serials of an update.
fn write_serials<W: fmt::Write>(f: &mut Formatter<W>, serials: Option<Serials>) -> fmt::Result {
    let Some(Serials { before, after }) = serials else {
        return Ok(());
    };
    let (before, after) = (before.0, after.0);
    if before == after {
        return write!(f, ", serial {before} unchanged");
    }
    write!(f, ", serial {before} to {after}")
}

/// Writes how many connections were lost, by cause.
fn write_losses<W: fmt::Write>(f: &mut Formatter<W>, losses: Losses) -> fmt::Result {
    let mark = write_kind(f, ": ", losses.failed, "failed")?;
    let mark = write_kind(f, mark, losses.starved, "out of resources")?;
    let mark = write_kind(f, mark, losses.idle, "idle timeout")?;
    let mark = write_kind(f, mark, losses.unfinished, "request timeout")?;
    let mark = write_kind(f, mark, losses.untaken, "reply timeout")?;
    let mark = write_kind(f, mark, losses.slow, "reply read too slowly")?;
    let mark = write_kind(f, mark, losses.evicted, "closed to make room")?;
    let mark = write_kind(
        f,
        mark,
        losses.turned_away,
        "rejected (all connections in use)",
    )?;
    write_kind(
        f,
        mark,
        losses.no_room,
        "rejected (no descriptor or memory)",
    )?;
    Ok(())
}

/// Writes the count of one cause after a separator, if it is not 0, and gives the separator for the next one.
fn write_kind<W: fmt::Write>(
    f: &mut Formatter<W>,
    mark: &'static str,
    count: u64,
    kind: &str,
) -> Result<&'static str, fmt::Error> {
    if count == 0 {
        return Ok(mark);
    }
    write!(f, "{mark}{count} {kind}")?;
    Ok(", ")
}

/// Writes the reason why a job ended.
fn write_end<W: fmt::Write>(f: &mut Formatter<W>, end: JobEnd) -> fmt::Result {
    match end {
        JobEnd::Done(count) => write!(f, "{count} datagrams and connections served"),
        JobEnd::Device => f.write_str("its socket failed"),
        JobEnd::Spent => f.write_str("no version could be loaded"),
        JobEnd::NoMemory => f.write_str("out of memory"),
    }
}

/// Writes the reason why notifying of secondaries ended.
fn write_unlogged<W: fmt::Write>(f: &mut Formatter<W>, end: JobEnd) -> fmt::Result {
    match end {
        JobEnd::Done(count) => write!(f, "{count} NOTIFYs sent"),
        other => write_end(f, other),
    }
}

/// Writes the reason why the thread that takes commands ended.
fn write_control<W: fmt::Write>(f: &mut Formatter<W>, end: JobEnd) -> fmt::Result {
    match end {
        JobEnd::Done(count) => write!(f, "{count} commands served"),
        other => write_end(f, other),
    }
}

/// Writes the reason why the thread that tells metrics ended.
fn write_metrics<W: fmt::Write>(f: &mut Formatter<W>, end: JobEnd) -> fmt::Result {
    match end {
        JobEnd::Done(count) => write!(f, "{count} requests served"),
        other => write_end(f, other),
    }
}

/// The name of a transport.
fn carrier_of(transport: Transport) -> &'static str {
    match transport {
        Transport::Udp => "UDP",
        Transport::Tcp => "TCP",
    }
}

/// The name of a code (RFC 1035, 4.1.1; RFC 2136, 2.2; RFC 6891, 9).
fn name_of(code: Rcode) -> &'static str {
    match code {
        Rcode::NoError => "NOERROR",
        Rcode::FormErr => "FORMERR",
        Rcode::ServFail => "SERVFAIL",
        Rcode::NxDomain => "NXDOMAIN",
        Rcode::NotImp => "NOTIMP",
        Rcode::Refused => "REFUSED",
        Rcode::YXDomain => "YXDOMAIN",
        Rcode::YXRRSet => "YXRRSET",
        Rcode::NXRRSet => "NXRRSET",
        Rcode::NotAuth => "NOTAUTH",
        Rcode::NotZone => "NOTZONE",
        Rcode::BadVers => "BADVERS",
    }
}
