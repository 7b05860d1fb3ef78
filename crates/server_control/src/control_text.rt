//! The replies to an operator's commands, as text.
use crate::served_facts::count_of;
use dns_rdata::{Rcode, Serial};
use std::alloc::{AllocError, Global};
use zone_change::ChangeSummary;
use zone_tree::{Version, ZoneRead};

/// The last line of a reply where the command is done.
const DONE_LINE: &str = "ok\n";

/// A reply of the one line that says that the command is done.
pub(crate) fn done(alloc: Global) -> Result<String, AllocError> {
    let mut text = String::new(alloc);
    text.push_str(DONE_LINE)?;
    Ok(text)
}

/// A reply of the one line that says why the command isn't done.
pub(crate) fn failed(alloc: Global, reason: &str) -> Result<String, AllocError> {
    let mut text = String::new(alloc);
    write!(text, "error: {reason}\n")?;
    Ok(text)
}

/// What a command's client gets.
#[derive(Drop)]
pub(crate) enum Obeyed {
    /// Its reply.
    Reply(String),
    /// Its reply once the reload is over.
    Later,
}

/// A command's reply, if there was memory for it.
pub(crate) fn replied(text: Result<String, AllocError>) -> Result<Obeyed, AllocError> {
    Ok(Obeyed::Reply(text?))
}

/// Since when a server serves.
#[derive(Clone, Copy, Debug, PartialEq, Eq)]
pub(crate) struct ServedSince {
    /// The number of the version that it served first.
    pub(crate) first: u64,
    /// For how many seconds it has served.
    pub(crate) uptime: u64,
}

/// What is seen of a store.
#[derive(Drop)]
pub(crate) enum StoreStatus {
    /// There is none.
    None,
    /// There is one.
    Kept {
        /// Why the last batch could not be written; none if it was.
        fault: Option<String>,
        /// The octets of its journal.
        journal: u64,
        /// The number of the zone text that the journal continues.
        text: u64,
    },
}

/// What is served, a line for each of it.
pub(crate) fn status(
    alloc: Global,
    version: &Version,
    since: ServedSince,
    store: &StoreStatus,
) -> Result<String, AllocError> {
    let zone = version.zone();
    let (apex, serial, records) = (zone.apex(), zone.serial().0, count_of(zone));
    let (apex, number) = (apex.to_text(), version.number());
    let (updates, uptime) = (number.saturating_sub(since.first), since.uptime);
    let mut text = String::new(alloc);
    write!(text, "zone {apex}\nserial {serial}\nrecords {records}\n")?;
    write!(text, "version {number}\nupdates {updates}\n")?;
    put_store(&mut text, store)?;
    write!(text, "uptime {uptime}\n")?;
    text.push_str(DONE_LINE)?;
    Ok(text)
}

/// Adds the lines of a store.
fn put_store(text: &mut String, store: &StoreStatus) -> Result<(), AllocError> {
    let StoreStatus::Kept {
        fault,
        journal,
        text: number,
    } = store
    else {
        return text.push_str("store none\n");
    };
    match fault {
        None => text.push_str("store ok\n")?,
        Some(reason) => write!(text, "store failing: {reason}\n")?,
    }
    write!(text, "journal {journal}\ntext zone-{number}\n")?;
    Ok(())
}

/// A reply of lines for Prometheus, and the line that says that the command is done.
pub(crate) fn stats(alloc: Global, lines: &[u8]) -> Result<String, AllocError> {
    let mut text = String::from_utf8_lossy(alloc, lines)?;
    text.push_str(DONE_LINE)?;
    Ok(text)
}

/// What a reload changed.
pub(crate) fn reloaded(alloc: Global, summary: &ChangeSummary) -> Result<String, AllocError> {
    let ChangeSummary {
        from,
        to,
        given,
        deleted,
        added,
    } = summary;
    let (from, to, given) = (from.0, to.0, given.0);
    let mut text = String::new(alloc);
    if given != to {
        write!(
            text,
            "serial {given} of ZONE isn't greater than {from}: {to} is served\n"
        )?;
    }
    write!(
        text,
        "serial {from} to {to}, {deleted} records deleted, {added} added\n"
    )?;
    text.push_str(DONE_LINE)?;
    Ok(text)
}

/// That a reload changes nothing.
pub(crate) fn unchanged(alloc: Global, serial: Serial) -> Result<String, AllocError> {
    let serial = serial.0;
    let mut text = String::new(alloc);
    write!(text, "nothing to change, serial {serial}\n")?;
    text.push_str(DONE_LINE)?;
    Ok(text)
}

/// Why a reload's update was refused.
pub(crate) fn refused(alloc: Global, code: Rcode) -> Result<String, AllocError> {
    let mut reason = String::new(alloc);
    let number = code.number();
    match code {
        Rcode::ServFail => reason.push_str(
            "the update got SERVFAIL: there is no memory or no room for it, or the store can't be written",
        )?,
        _ => write!(reason, "the update got code {number}")?,
    }
    Ok(reason)
}
